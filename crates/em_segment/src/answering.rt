//! All pairs of some points and some pieces: at once, if the points fit an area; else by a node, and then
//! strip by strip.
//!
//! ```text
//! answer ── answer_leaf
//!        └─ answer_node, then answer_below ── answer_last ── answer, for each strip, from the last one on
//! ```

ghost use Rattle.std.specs.Prelude.{◌<◌, length, IsTrue};
ghost use Rattle.em_space.specs.Held.{Holds};
ghost use Rattle.em_space.specs.Rig.{Sound};
ghost use Rattle.em_space.specs.Seen.{seen};
ghost use Rattle.em_chain.specs.Chain.{IsChain};
ghost use Rattle.em_chain.specs.Writer.{WriterHasFrame};
ghost use Rattle.em_segment.specs.Answers.{AnswersTo, CanAnswer, DiscardsTo, call_blocks};
ghost use Rattle.em_segment.specs.Belows.{AnswersBelowTo, AnswersLastTo, CanAnswerBelow};

use crate::leaf::answer_leaf;
use crate::node::{Below, answer_node};
use em_chain::{Chain, Writer, discard};
use em_frames::Device;
use em_segment_model::strip_count;
use em_space::{EmFault, Rig};

/// Writes the pairs of some points, in the order of their values, with some pieces, in the order of their
/// numbers, in any order. The blocks of both are released.
///
/// `DeviceFault` comes only if the device's count of faults rose, and `Full` only if all blocks are in use;
/// `Damaged` only over a device that doesn't tell. After a fault blocks that are left stay in use, and the
/// pairs may only be abandoned. All frames are back on each way out.
#[cycle(answer)]
pub(crate) fn answer<D: Device>(
    rig: &mut Rig<'_, D>,
    points: Chain,
    pieces: Chain,
    pairs: &mut Writer,
) -> Result<(), EmFault>
    requires can { CanAnswer (seen D.state rig.old) points pieces pairs.old }
    ensures frame { WriterHasFrame (seen D.state rig.new) pairs.new }
    ensures answers { AnswersTo (seen D.state rig.old) (seen D.state rig.new)
        points pieces pairs.old pairs.new result }
{
    if points.len() == 0 || pieces.len() == 0 {
        return discard_both(rig, points, pieces);
    }
    let shape = rig.shape();
    if points.len() <= shape.wide() * shape.block() {
        return answer_leaf(rig, points, pieces, pairs);
    }
    let most = points.len().div_ceil(strip_count(shape.fan()));
    let mut below = answer_node(rig, points, pieces, most, pairs)?;
    answer_below(rig, &mut below, most, pairs)
}

/// Answers the strips of a node, from the last one on.
#[cycle(answer)]
fn answer_below<D: Device>(
    rig: &mut Rig<'_, D>,
    below: &mut Below,
    most: u64,
    pairs: &mut Writer,
) -> Result<(), EmFault>
    requires can { CanAnswerBelow most (seen D.state rig.old) below.old pairs.old }
    ensures frame { WriterHasFrame (seen D.state rig.new) pairs.new }
    ensures answers { AnswersBelowTo most (seen D.state rig.old) (seen D.state rig.new)
        below.old pairs.old pairs.new result }
{
    for _ in 0..below.len() {
        answer_last(rig, below, most, pairs)?;
    }
    Ok(())
}

/// Answers the last strip.
#[cycle(answer)]
fn answer_last<D: Device>(
    rig: &mut Rig<'_, D>,
    below: &mut Below,
    most: u64,
    pairs: &mut Writer,
) -> Result<(), EmFault>
    requires can { CanAnswerBelow most (seen D.state rig.old) below.old pairs.old }
    requires some { 0 < length below.old.points.items }
    ensures frame { WriterHasFrame (seen D.state rig.new) pairs.new }
    ensures answers { AnswersLastTo most (seen D.state rig.old) (seen D.state rig.new)
        below.old below.new pairs.old pairs.new result }
{
    let (points, pieces) = below.pop();
    answer(rig, points, pieces, pairs)
}

/// Releases the blocks of both chains, by two moves at most for each.
pub(crate) fn discard_both<D: Device>(
    rig: &mut Rig<'_, D>,
    points: Chain,
    pieces: Chain,
) -> Result<(), EmFault>
    requires sound { Sound (seen D.state rig.old) }
    requires points { IsChain (seen D.state rig.old) points }
    requires pieces { IsChain (seen D.state rig.old) pieces }
    requires holds { IsTrue (seen D.state rig.old).device.told
        → Holds (seen D.state rig.old) (call_blocks (seen D.state rig.old) points pieces) }
    requires free { 0 < (seen D.state rig.old).pool.free }
    ensures discards { DiscardsTo (seen D.state rig.old) (seen D.state rig.new) points pieces result }
{
    discard(rig, points)?;
    discard(rig, pieces)
}
