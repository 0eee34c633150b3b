//! A full node is split: the upper half of its entries goes to a new block.
//!
//!     before  node [a b c d]              four entries, of which each leads to a child
//!     after   node [a b]  new [c d]       and the entry (low key of c, link to new, no buffer)
//!
//! Kept here: both halves have the level of the node and f entries each, in their order; on each
//! way out all frames are back. Left to the tree: that the answer is put in after the entry over
//! the node, and that nothing waits in that entry's buffer.

ghost use Rattle.std.specs.Prelude.{◌≡◌, ◌↔◌, ◌<◌, ◌≤◌, length, IsTrue, IfOk, IfErr};
ghost use Rattle.em_space.specs.Rig.{Sound};
ghost use Rattle.em_space.specs.Seen.{seen};
ghost use Rattle.em_chain.specs.Effects.{Completes};
ghost use Rattle.em_balance.specs.Node.{CanSplit, IsFreshEntry, IsFullNode};
ghost use Rattle.em_balance.specs.Loaded.{LoadsTested};
ghost use Rattle.em_balance.specs.Effects.{FullWithoutRoom, HalvesNode, NamesDamaged, RunsSplit, SplitsInto};

use crate::storing::{entry_for, store_new};
use em_frames::{Device, Frame};
use em_node::{Entry, check, count, fresh, level, split};
use em_record::Shape;
use em_space::{EmFault, Rig};

/// Moves the upper half of a node's entries to a new block. `node` is the number of a block that
/// holds a node with 2f entries; over a device that doesn't tell, another block is `Damaged`. The
/// answer is the entry for the new block: the low key of the first entry that moved, a link to the
/// block, and a buffer with no record.
///
/// At most 4 blocks are moved. `Full` comes if all blocks are in use, and never if one is free;
/// `DeviceFault` if the device's count of faults rose. After a fault the node may hold anything,
/// and a block more may be in use. All frames are back on each way out.
pub fn split_node<D: Device>(rig: &mut Rig<'_, D>, node: u64) -> Result<Entry, EmFault>
    requires sound { Sound (seen D.state rig.old) }
    requires can { CanSplit (seen D.state rig.old) node }
    requires free { 6 ≤ (seen D.state rig.old).pool.free }
    ensures halves { IfOk result (λ upper. IsTrue (seen D.state rig.old).device.told
        → HalvesNode (seen D.state rig.old) (seen D.state rig.new) node upper) }
    ensures entry { IfOk result (IsFreshEntry (seen D.state rig.old).blocks) }
    ensures runs { RunsSplit (seen D.state rig.old) (seen D.state rig.new) node result }
    ensures damaged { IfErr result (NamesDamaged (seen D.state rig.old) node) }
    ensures full { FullWithoutRoom (seen D.state rig.old) (seen D.state rig.new) result }
    ensures complete { (seen D.state rig.old).used < (seen D.state rig.old).blocks
        → Completes (seen D.state rig.old) (seen D.state rig.new) result }
{
    let mut frame = rig.lend();
    let mut upper = rig.lend();
    let entry = split_into(rig, node, &mut frame, &mut upper);
    rig.give(upper);
    rig.give(frame);
    entry
}

/// The same with frames for both halves.
fn split_into<D: Device>(
    rig: &mut Rig<'_, D>,
    node: u64,
    frame: &mut Frame,
    upper: &mut Frame,
) -> Result<Entry, EmFault>
    requires sound { Sound (seen D.state rig.old) }
    requires can { CanSplit (seen D.state rig.old) node }
    requires len { length frame.old ≡ (seen D.state rig.old).pool.shape.block }
    requires upper_len { length upper.old ≡ (seen D.state rig.old).pool.shape.block }
    requires free { 0 < (seen D.state rig.old).pool.free }
    ensures len { length frame.new ≡ length frame.old }
    ensures upper_len { length upper.new ≡ length upper.old }
    ensures splits { SplitsInto (seen D.state rig.old) (seen D.state rig.new) node result }
{
    load_full(rig, node, frame)?;
    fresh(upper, level(frame));
    split(frame, upper);
    let block = store_new(rig, upper)?;
    rig.store(node, frame)?;
    Ok(entry_for(upper, block))
}

/// Loads a node into a frame, and sees that it has 2f entries. Otherwise it is `Damaged`.
fn load_full<D: Device>(rig: &mut Rig<'_, D>, node: u64, frame: &mut Frame) -> Result<(), EmFault>
    requires sound { Sound (seen D.state rig.old) }
    requires can { CanSplit (seen D.state rig.old) node }
    requires len { length frame.old ≡ (seen D.state rig.old).pool.shape.block }
    ensures len { length frame.new ≡ length frame.old }
    ensures loads { LoadsTested
        (IsFullNode (seen D.state rig.old).pool.shape (seen D.state rig.old).blocks)
        (seen D.state rig.old) (seen D.state rig.new) node frame.new result }
{
    rig.load(node, frame)?;
    if !is_full(frame, &rig.shape(), rig.blocks()) {
        return Err(EmFault::Damaged { block: node });
    }
    Ok(())
}

/// Whether a frame holds a node with 2f entries.
fn is_full(frame: &Frame, shape: &Shape, blocks: u64) -> bool
    ensures { IsTrue result ↔ IsFullNode shape.now blocks frame.now }
{
    check(frame, shape, blocks) && count(frame) as u64 == 2 * shape.fan()
}
