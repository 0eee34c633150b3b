//! A tree grows by a level: its root was split, and a new root stands over both parts.
//!
//!     before  root [a b]                 child [c d], to which an entry leads
//!     after   new [(low key of a, root) (low key of c, child)]
//!
//! Kept here: the new root is of the next level, nothing waits in the entry for the old one, and
//! no block that was in use is changed; on each way out all frames are back. Left to the tree: that
//! both parts are the whole of what the old root held.

ghost use Rattle.std.specs.Prelude.{◌≡◌, ◌↔◌, ◌+◌, ◌<◌, ◌≤◌, ◌^◌, [], ◌∷◌, get_or, length, suc, true, IsTrue, IfOk, IfErr};
ghost use Rattle.em_record.specs.Order.{is_below};
ghost use Rattle.em_space.specs.Rig.{InUse, Sound};
ghost use Rattle.em_space.specs.Seen.{seen};
ghost use Rattle.em_chain.specs.Effects.{Completes};
ghost use Rattle.em_node.specs.Node.{Is, IsLimited, IsNode, entries_of, level_of, no_entry};
ghost use Rattle.em_balance.specs.Node.{CanGrowUp, entry_to};
ghost use Rattle.em_balance.specs.Loaded.{IsRootBelow, LoadsTested};
ghost use Rattle.em_balance.specs.Effects.{FullWithoutRoom, GrowsInto, GrowsOver, NamesDamaged, RunsGrowth};

use crate::storing::{entry_for, store_new};
use em_frames::{Device, Frame};
use em_node::{Entry, check, count, entry_at, fresh, insert, level};
use em_record::{Record, Shape};
use em_space::{EmFault, Rig};

/// Makes a new root over an old one and its split part, and answers the number of its block.
/// `root` is the number of a block that holds a node with an entry, of a level below 63; over a
/// device that doesn't tell, another block is `Damaged`, also if its first low key isn't below that
/// of `upper`. `upper` is the entry for the split part: its low key is above those of the root, its
/// child another node of the root's level.
///
/// At most 3 blocks are moved. `Full` comes if all blocks are in use, and never if one is free;
/// `DeviceFault` if the device's count of faults rose. No block that was in use is changed, and
/// after a fault a block more may be in use. All frames are back on each way out.
pub fn grow_up<D: Device>(rig: &mut Rig<'_, D>, root: u64, upper: Entry) -> Result<u64, EmFault>
    requires sound { Sound (seen D.state rig.old) }
    requires can { CanGrowUp (seen D.state rig.old) root upper }
    requires free { 6 ≤ (seen D.state rig.old).pool.free }
    ensures grows { IfOk result (λ new. IsTrue (seen D.state rig.old).device.told
        → GrowsOver (seen D.state rig.old) (seen D.state rig.new) root upper new) }
    ensures in_use { IfOk result (InUse (seen D.state rig.new)) }
    ensures runs { RunsGrowth (seen D.state rig.old) (seen D.state rig.new) result }
    ensures damaged { IfErr result (NamesDamaged (seen D.state rig.old) root) }
    ensures full { FullWithoutRoom (seen D.state rig.old) (seen D.state rig.new) result }
    ensures complete { (seen D.state rig.old).used < (seen D.state rig.old).blocks
        → Completes (seen D.state rig.old) (seen D.state rig.new) result }
{
    let mut frame = rig.lend();
    let grown = grow_into(rig, root, upper, &mut frame);
    rig.give(frame);
    grown
}

/// The same with a frame for both roots, one after the other.
fn grow_into<D: Device>(
    rig: &mut Rig<'_, D>,
    root: u64,
    upper: Entry,
    frame: &mut Frame,
) -> Result<u64, EmFault>
    requires sound { Sound (seen D.state rig.old) }
    requires can { CanGrowUp (seen D.state rig.old) root upper }
    requires len { length frame.old ≡ (seen D.state rig.old).pool.shape.block }
    requires free { 0 < (seen D.state rig.old).pool.free }
    ensures len { length frame.new ≡ length frame.old }
    ensures grows { GrowsInto (seen D.state rig.old) (seen D.state rig.new) root upper result }
{
    load_root(rig, root, upper, frame)?;
    put_root(frame, root, upper);
    store_new(rig, frame)
}

/// Loads a root into a frame, and sees that it has an entry, a level below 63, and a first low key
/// below this one. Otherwise it is `Damaged`.
fn load_root<D: Device>(
    rig: &mut Rig<'_, D>,
    root: u64,
    upper: Entry,
    frame: &mut Frame,
) -> Result<(), EmFault>
    requires sound { Sound (seen D.state rig.old) }
    requires can { CanGrowUp (seen D.state rig.old) root upper }
    requires len { length frame.old ≡ (seen D.state rig.old).pool.shape.block }
    ensures len { length frame.new ≡ length frame.old }
    ensures loads { LoadsTested
        (IsRootBelow (seen D.state rig.old).pool.shape (seen D.state rig.old).blocks upper.low)
        (seen D.state rig.old) (seen D.state rig.new) root frame.new result }
{
    rig.load(root, frame)?;
    if !is_root_below(frame, &rig.shape(), rig.blocks(), upper.low) {
        return Err(EmFault::Damaged { block: root });
    }
    Ok(())
}

/// Whether a frame holds a node with an entry, a level below 63, and a first low key below this
/// one.
fn is_root_below(frame: &Frame, shape: &Shape, blocks: u64, low: Record) -> bool
    ensures { IsTrue result ↔ IsRootBelow shape.now blocks low frame.now }
{
    check(frame, shape, blocks)
        && count(frame) > 0
        && level(frame) < 63
        && is_first_below(frame, low)
}

/// Whether the first low key of a node is below this one.
fn is_first_below(frame: &Frame, low: Record) -> bool
    requires node { IsNode frame.now }
    requires some { 0 < length (entries_of frame.now) }
    ensures { result ≡ is_below (get_or (entries_of frame.now) 0 no_entry).low low }
{
    entry_at(frame, 0).low < low
}

/// Makes the node in a frame, which is that of the block `root`, one of the next level over it and
/// its split part.
fn put_root(frame: &mut Frame, root: u64, upper: Entry)
    requires node { IsNode frame.old }
    requires some { 0 < length (entries_of frame.old) }
    requires room { 8 ≤ length frame.old }
    requires not_last { level_of frame.old < 63 }
    requires fits { root < 2 ^ 40 }
    requires limited { IsLimited upper }
    requires below { is_below (get_or (entries_of frame.old) 0 no_entry).low upper.low ≡ true }
    ensures len { length frame.new ≡ length frame.old }
    ensures is { Is frame.new (suc (level_of frame.old))
        (entry_to (get_or (entries_of frame.old) 0 no_entry).low root ∷ upper ∷ []) }
{
    let lower = entry_for(frame, root);
    let above = level(frame) + 1;
    fresh(frame, above);
    insert(frame, 0, lower);
    insert(frame, 1, upper);
}
