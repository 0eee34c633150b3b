//! Two neighbouring children of a node become one, or share their entries anew, in their blocks:
//!
//!     before  node [.. a b ..]    a leads to low [c d], b to high [e f]
//!     fused   node [.. a ..]      low [c d e f], and the block of high is free
//!     shared  node [.. a b ..]    the same two blocks, with half of the entries each
//!
//! Kept here: low keys, levels and links; on each way out all frames are back. Left to the tree: that
//! nothing waits in the entries over both, and that what both lead to is a level of one tree.

ghost use Rattle.std.specs.Prelude.{◌≡◌, ◌+◌, ◌*◌, ◌<◌, ◌≤◌, ◌⊎◌, [], ◌∷◌, length, IsTrue};
ghost use Rattle.em_record.specs.Shape.{fan_of};
ghost use Rattle.em_frames.specs.Device.{block_at};
ghost use Rattle.em_space.specs.Held.{Holds};
ghost use Rattle.em_space.specs.Rig.{InUse, Sound};
ghost use Rattle.em_space.specs.Seen.{seen};
ghost use Rattle.em_chain.specs.Effects.{Completes};
ghost use Rattle.em_node.specs.Node.{IsNodeBlock};
ghost use Rattle.em_balance.specs.Fusing.{CanFusePair, FusesOrShares, IsOverPair, PutsFused, PutsShared};
ghost use Rattle.em_balance.specs.Loaded.{LoadsTested};

use crate::sharing::fuse_frames;
use em_frames::{Device, Frame};
use em_node::{check, count, entry_at};
use em_record::Shape;
use em_space::{EmFault, Rig};

/// Fuses the children of the entries at `at` and after it, if they have at most 2f - 1 entries
/// together, or else shares their entries, at least f for each. One of them has fewer than f. `parent`
/// is the number of a node's block; over a device that doesn't tell, another block is `Damaged`, and so
/// is one whose children's low keys aren't within those of their entries.
///
/// At most 6 blocks are moved, and none is needed: `Full` never comes. `DeviceFault` comes only if the
/// device's count of faults rose. After a fault the three blocks may hold anything. All frames are back
/// on each way out.
pub fn fuse_or_share<D: Device>(rig: &mut Rig<'_, D>, parent: u64, at: usize) -> Result<(), EmFault>
    requires sound { Sound (seen D.state rig.old) }
    requires can { CanFusePair (seen D.state rig.old) parent at }
    requires free { 6 ≤ (seen D.state rig.old).pool.free }
    ensures does { FusesOrShares (seen D.state rig.old) (seen D.state rig.new) parent at result }
    ensures complete { Completes (seen D.state rig.old) (seen D.state rig.new) result }
{
    let mut frame = rig.lend();
    let mut low = rig.lend();
    let mut high = rig.lend();
    let done = fuse_into(rig, parent, at, &mut frame, &mut low, &mut high);
    rig.give(high);
    rig.give(low);
    rig.give(frame);
    done
}

/// The same with frames for all three nodes.
fn fuse_into<D: Device>(
    rig: &mut Rig<'_, D>,
    parent: u64,
    at: usize,
    frame: &mut Frame,
    low: &mut Frame,
    high: &mut Frame,
) -> Result<(), EmFault>
    requires sound { Sound (seen D.state rig.old) }
    requires can { CanFusePair (seen D.state rig.old) parent at }
    requires free { 0 < (seen D.state rig.old).pool.free }
    requires len { length frame.old ≡ (seen D.state rig.old).pool.shape.block }
    requires low_len { length low.old ≡ (seen D.state rig.old).pool.shape.block }
    requires high_len { length high.old ≡ (seen D.state rig.old).pool.shape.block }
    ensures len { length frame.new ≡ length frame.old }
    ensures low_len { length low.new ≡ length low.old }
    ensures high_len { length high.new ≡ length high.old }
    ensures does { FusesOrShares (seen D.state rig.old) (seen D.state rig.new) parent at result }
{
    load_over(rig, parent, at, frame)?;
    let first = entry_at(frame, at).child - 1;
    let second = entry_at(frame, at + 1).child - 1;
    load_node(rig, first, low)?;
    load_node(rig, second, high)?;
    let fan = rig.shape().fan() as usize;
    match fuse_frames(frame, at, low, high, fan) {
        Some(true) => put_fused(rig, parent, first, second, frame, low),
        Some(false) => put_shared(rig, parent, first, second, frame, low, high),
        None => Err(EmFault::Damaged { block: parent }),
    }
}

/// Loads a node into a frame, and sees that it has an entry at a place and after it. Otherwise it is `Damaged`.
fn load_over<D: Device>(
    rig: &mut Rig<'_, D>,
    node: u64,
    at: usize,
    frame: &mut Frame,
) -> Result<(), EmFault>
    requires sound { Sound (seen D.state rig.old) }
    requires in_use { InUse (seen D.state rig.old) node }
    requires told { IsTrue (seen D.state rig.old).device.told
        → IsOverPair (2 * fan_of (seen D.state rig.old).pool.shape) (seen D.state rig.old).blocks at
        (block_at (seen D.state rig.old).device node) }
    requires len { length frame.old ≡ (seen D.state rig.old).pool.shape.block }
    ensures len { length frame.new ≡ length frame.old }
    ensures loads { LoadsTested
        (IsOverPair (2 * fan_of (seen D.state rig.old).pool.shape) (seen D.state rig.old).blocks at)
        (seen D.state rig.old) (seen D.state rig.new) node frame.new result }
{
    rig.load(node, frame)?;
    if !is_over(frame, &rig.shape(), rig.blocks(), at) {
        return Err(EmFault::Damaged { block: node });
    }
    Ok(())
}

/// Whether a frame holds a node with an entry at a place and after it.
fn is_over(frame: &Frame, shape: &Shape, blocks: u64, at: usize) -> bool
    ensures over { IsTrue result → IsOverPair (2 * fan_of shape.now) blocks at frame.now }
    ensures passes { IsOverPair (2 * fan_of shape.now) blocks at frame.now → IsTrue result }
{
    check(frame, shape, blocks) && count(frame) > 1 && at < count(frame) - 1
}

/// Loads a node into a frame. Another block is `Damaged`.
fn load_node<D: Device>(rig: &mut Rig<'_, D>, node: u64, frame: &mut Frame) -> Result<(), EmFault>
    requires sound { Sound (seen D.state rig.old) }
    requires in_use { InUse (seen D.state rig.old) node }
    requires told { IsTrue (seen D.state rig.old).device.told
        → IsNodeBlock (2 * fan_of (seen D.state rig.old).pool.shape) (seen D.state rig.old).blocks
        (block_at (seen D.state rig.old).device node) }
    requires len { length frame.old ≡ (seen D.state rig.old).pool.shape.block }
    ensures len { length frame.new ≡ length frame.old }
    ensures loads { LoadsTested
        (IsNodeBlock (2 * fan_of (seen D.state rig.old).pool.shape) (seen D.state rig.old).blocks)
        (seen D.state rig.old) (seen D.state rig.new) node frame.new result }
{
    rig.load(node, frame)?;
    if !check(frame, &rig.shape(), rig.blocks()) {
        return Err(EmFault::Damaged { block: node });
    }
    Ok(())
}

/// Stores a node and the one that it keeps, and releases the block of the other.
fn put_fused<D: Device>(
    rig: &mut Rig<'_, D>,
    node: u64,
    first: u64,
    second: u64,
    frame: &Frame,
    low: &Frame,
) -> Result<(), EmFault>
    requires sound { Sound (seen D.state rig.old) }
    requires in_use { InUse (seen D.state rig.old) node }
    requires first { InUse (seen D.state rig.old) first }
    requires second { InUse (seen D.state rig.old) second }
    requires holds { IsTrue (seen D.state rig.old).device.told
        → Holds (seen D.state rig.old) (node ∷ first ∷ second ∷ []) }
    requires free { 0 < (seen D.state rig.old).pool.free }
    requires len { length frame.now ≡ (seen D.state rig.old).pool.shape.block }
    requires low_len { length low.now ≡ (seen D.state rig.old).pool.shape.block }
    ensures puts { PutsFused (seen D.state rig.old) (seen D.state rig.new) node first second frame.now
        low.now result }
{
    rig.store(first, low)?;
    rig.release(second)?;
    rig.store(node, frame)
}

/// Stores a node and both others.
fn put_shared<D: Device>(
    rig: &mut Rig<'_, D>,
    node: u64,
    first: u64,
    second: u64,
    frame: &Frame,
    low: &Frame,
    high: &Frame,
) -> Result<(), EmFault>
    requires sound { Sound (seen D.state rig.old) }
    requires in_use { InUse (seen D.state rig.old) node }
    requires first { InUse (seen D.state rig.old) first }
    requires second { InUse (seen D.state rig.old) second }
    requires holds { IsTrue (seen D.state rig.old).device.told
        → Holds (seen D.state rig.old) (node ∷ first ∷ second ∷ []) }
    requires len { length frame.now ≡ (seen D.state rig.old).pool.shape.block }
    requires low_len { length low.now ≡ (seen D.state rig.old).pool.shape.block }
    requires high_len { length high.now ≡ (seen D.state rig.old).pool.shape.block }
    ensures puts { PutsShared (seen D.state rig.old) (seen D.state rig.new) node first second frame.now
        low.now high.now result }
{
    rig.store(first, low)?;
    rig.store(second, high)?;
    rig.store(node, frame)
}
