//! A leaf block: a chain block whose one record has the first four words of the leaf's chain. That
//! chain is packed, so the number of its blocks follows from its records.

ghost use Rattle.std.specs.Prelude.{◌≡◌, ◌↔◌, ◌<◌, length, IsTrue, IfOk};
ghost use Rattle.em_space.specs.Rig.{InUse, Sound};
ghost use Rattle.em_space.specs.Seen.{seen};
ghost use Rattle.em_chain.specs.Chain.{payload_in};
ghost use Rattle.em_record.specs.Shape.{payload_of};
ghost use Rattle.em_leaf.specs.Leaf.{leaf_most};
ghost use Rattle.em_tree_blocks.specs.Node.{leaf_chain};
ghost use Rattle.em_tree_load.specs.LeafChanges.{StoresNewLeaf};
ghost use Rattle.em_tree_load.specs.Leaves.{IsLeafBlock, LeadsToLeaf, ReadsLeaf, StoresLeaf, with_leaf};
ghost use Rattle.em_tree_walk.specs.Reads.{ReadsTested};

use em_chain::Chain;
use em_frames::{Device, Frame};
use em_record::{Record, Shape};
use em_space::{EmFault, Rig};

/// The header of a leaf block: no link, one record, and the kind of a chain block.
const HEADER: Record = Record {
    a: 0,
    b: 1,
    c: 1,
    d: 0,
};

/// Makes a frame the block of a leaf with this chain.
pub fn put_leaf(frame: &mut Frame, stored: &Chain)
    requires { 1 < length frame.old }
    ensures len { length frame.new ≡ length frame.old }
    ensures is { frame.new ≡ with_leaf frame.old stored.now }
{
    let [head, skip, tail, count, _] = stored.words();
    frame.records_mut()[0] = HEADER;
    frame.records_mut()[1] = Record {
        a: head,
        b: skip,
        c: tail,
        d: count,
    };
}

/// Stores the block of a leaf with this chain, by one move at most.
pub fn store_leaf<D: Device>(rig: &mut Rig<'_, D>, leaf: u64, stored: &Chain) -> Result<(), EmFault>
    requires sound { Sound (seen D.state rig.old) }
    requires in_use { InUse (seen D.state rig.old) leaf }
    requires free { 0 < (seen D.state rig.old).pool.free }
    ensures { StoresLeaf (seen D.state rig.old) (seen D.state rig.new) leaf stored.now result }
{
    let mut frame = rig.lend();
    put_leaf(&mut frame, stored);
    let done = rig.store(leaf, &frame);
    rig.give(frame);
    done
}

/// Stores the block of a new leaf with this chain. Answers its number. After a fault that block may be
/// in use.
pub fn store_new_leaf<D: Device>(rig: &mut Rig<'_, D>, stored: &Chain) -> Result<u64, EmFault>
    requires sound { Sound (seen D.state rig.old) }
    requires free { 0 < (seen D.state rig.old).pool.free }
    ensures { StoresNewLeaf (seen D.state rig.old) (seen D.state rig.new) stored.now result }
{
    let block = rig.alloc()?;
    store_leaf(rig, block, stored)?;
    Ok(block)
}

/// The chain of a leaf block. Another block is `Damaged`, and so is one of a leaf with more than
/// 4·w·B records.
pub fn read_leaf<D: Device>(rig: &mut Rig<'_, D>, leaf: u64) -> Result<Chain, EmFault>
    requires sound { Sound (seen D.state rig.old) }
    requires leads { LeadsToLeaf (seen D.state rig.old) leaf }
    requires free { 0 < (seen D.state rig.old).pool.free }
    ensures { ReadsLeaf (seen D.state rig.old) (seen D.state rig.new) leaf result }
{
    let mut frame = rig.lend();
    let stored = load_leaf_block(rig, leaf, &mut frame);
    rig.give(frame);
    stored
}

/// The same with a frame, into which the block is loaded.
fn load_leaf_block<D: Device>(
    rig: &mut Rig<'_, D>,
    leaf: u64,
    frame: &mut Frame,
) -> Result<Chain, EmFault>
    requires sound { Sound (seen D.state rig.old) }
    requires leads { LeadsToLeaf (seen D.state rig.old) leaf }
    requires len { length frame.old ≡ (seen D.state rig.old).pool.shape.block }
    ensures len { length frame.new ≡ length frame.old }
    ensures reads { ReadsTested (IsLeafBlock (seen D.state rig.old).pool.shape)
        (seen D.state rig.old) (seen D.state rig.new) leaf frame.new result }
    ensures chain { IfOk result (λ stored.
        stored ≡ leaf_chain (payload_in (seen D.state rig.old)) frame.new) }
{
    rig.load(leaf, frame)?;
    let shape = rig.shape();
    if !is_leaf(frame, &shape) {
        return Err(EmFault::Damaged { block: leaf });
    }
    Ok(chain_in(frame, &shape))
}

/// Whether a frame is the block of a leaf with at most 4·w·B records.
fn is_leaf(frame: &Frame, shape: &Shape) -> bool
    requires { 1 < length frame.now }
    ensures { IsTrue result ↔ IsLeafBlock shape.now frame.now }
{
    let words = frame.records()[1];
    frame.records()[0] == HEADER && words.b == 0 && words.d <= most_stored(shape)
}

/// The chain of a leaf whose block is in a frame.
fn chain_in(frame: &Frame, shape: &Shape) -> Chain
    requires room { 1 < length frame.now }
    requires is { IsLeafBlock shape.now frame.now }
    ensures { result ≡ leaf_chain (payload_of shape.now) frame.now }
{
    let words = frame.records()[1];
    let payload = shape.payload();
    let blocks = (words.d + payload - 1) / payload;
    Chain::from_words([words.a, words.b, words.c, words.d, blocks])
}

/// The most records that a leaf has between two loads: 4·w·B.
fn most_stored(shape: &Shape) -> u64
    ensures { result ≡ leaf_most shape.now }
{
    4 * (shape.wide() * shape.block())
}
