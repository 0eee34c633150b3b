//! One node: its points are cut into strips, its pieces dealt, and the pairs of the multislabs reported.
//! What is left are calls for its strips, each with the pieces that go down into it.

ghost use Rattle.std.specs.Int.{div_ceil};
ghost use Rattle.std.specs.Prelude.{◌≡◌, ◌<◌, ◌++◌, [], ◌∷◌, length, IsTrue};
ghost use Rattle.em_frames.specs.Pool.{load_of};
ghost use Rattle.em_space.specs.Held.{Holds};
ghost use Rattle.em_space.specs.Rig.{Sound};
ghost use Rattle.em_space.specs.Seen.{seen};
ghost use Rattle.em_chain.specs.Writer.{WriterHasFrame};
ghost use Rattle.em_segment_model.specs.Sizes.{fan_root};
ghost use Rattle.em_segment.specs.Answers.{CanAnswer};
ghost use Rattle.em_segment.specs.Belows.{AnswersNodeTo};
ghost use Rattle.em_segment_parts.specs.Chains.{AreChains, chains_blocks, chains_in};
ghost use Rattle.em_segment_parts.specs.Reports.{DropsTo};

use arrayvec::ArrayVec;
use em_chain::{Chain, Writer, discard};
use em_frames::Device;
use em_segment_parts::{Listed, Lists, Strips, deal_pieces, report_strips, split};
use em_space::{EmFault, Rig};

/// The chains of a node's strips, which wait for their calls: the points of each strip, and the pieces that
/// go down into it.
#[derive(Drop)]
pub(crate) struct Below {
    pub(crate) points: ArrayVec<Listed, 16>,
    pub(crate) pieces: ArrayVec<Listed, 16>,
}

impl Below {
    /// The strips whose calls are still to come.
    pub(crate) fn len(&self) -> usize
        ensures { result ≡ length self.now.points.items }
    {
        self.points.len()
    }

    /// The chains of the last strip, which are no more in the list.
    pub(crate) fn pop(&mut self) -> (Chain, Chain)
        requires points { 0 < length self.old.points.items }
        requires pieces { 0 < length self.old.pieces.items }
        ensures points { self.old.points.items ≡ self.new.points.items ++ record { chain = result.0 } ∷ [] }
        ensures pieces { self.old.pieces.items ≡ self.new.pieces.items ++ record { chain = result.1 } ∷ [] }
    {
        (pop_chain(&mut self.points), pop_chain(&mut self.pieces))
    }
}

/// The last chain of a list of them.
fn pop_chain(chains: &mut ArrayVec<Listed, 16>) -> Chain
    requires some { 0 < length chains.old.items }
    ensures { chains.old.items ≡ chains.new.items ++ record { chain = result } ∷ [] }
{
    let Some(last) = chains.pop() else {
        unreachable!()
    };
    let Listed { chain } = last;
    chain
}

/// Writes the pairs of points and pieces that span a strip of `most` points, and makes the chains of the
/// strips. The lists of multislabs are released.
pub(crate) fn answer_node<D: Device>(
    rig: &mut Rig<'_, D>,
    points: Chain,
    pieces: Chain,
    most: u64,
    pairs: &mut Writer,
) -> Result<Below, EmFault>
    requires can { CanAnswer (seen D.state rig.old) points pieces pairs.old }
    requires pieces { 0 < pieces.count }
    requires big { load_of (seen D.state rig.old).pool.shape < points.count }
    requires most { most ≡ div_ceil points.count (fan_root (seen D.state rig.old).pool.shape) }
    ensures frame { WriterHasFrame (seen D.state rig.new) pairs.new }
    ensures answers { AnswersNodeTo most (seen D.state rig.old) (seen D.state rig.new)
        points pieces pairs.old pairs.new result }
{
    let Strips { spans, points } = split(rig, points, most)?;
    let Lists { down, slabs } = deal_pieces(rig, spans.as_slice(), pieces)?;
    report_strips(rig, points.as_slice(), slabs.as_slice(), pairs)?;
    drop_slabs(rig, slabs)?;
    Ok(Below {
        points,
        pieces: down,
    })
}

/// Releases the blocks of lists, by two moves at most for each.
fn drop_slabs<D: Device>(
    rig: &mut Rig<'_, D>,
    mut slabs: ArrayVec<Listed, 136>,
) -> Result<(), EmFault>
    requires sound { Sound (seen D.state rig.old) }
    requires are { AreChains (seen D.state rig.old) (chains_in slabs.items) }
    requires holds { IsTrue (seen D.state rig.old).device.told
        → Holds (seen D.state rig.old) (chains_blocks (seen D.state rig.old) (chains_in slabs.items)) }
    requires free { 0 < (seen D.state rig.old).pool.free }
    ensures drops { DropsTo (seen D.state rig.old) (seen D.state rig.new) (chains_in slabs.items)
        result }
{
    while let Some(last) = slabs.pop() {
        let Listed { chain } = last;
        discard(rig, chain)?;
    }
    Ok(())
}
