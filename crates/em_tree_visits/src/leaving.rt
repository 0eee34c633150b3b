//! The end of a visit: what is done with the first leaf, and what becomes of its tree.
//!
//!     something was taken before, more than half of an area, and the leaf has a record    it stays
//!     the leaf has more records than the area has room for                                whole blocks are taken
//!     all its records are taken, and another leaf is there                                it is removed
//!     the same of a leaf alone                                                            a new tree is planted

ghost use Rattle.std.specs.Prelude.{◌≡◌, ◌↔◌, ◌+◌, ◌<◌, ◌≤◌, length, IsTrue};
ghost use Rattle.em_space.specs.Rig.{Sound};
ghost use Rattle.em_space.specs.Seen.{seen};
ghost use Rattle.em_tree_load.specs.Releases.{CanRelease};
ghost use Rattle.em_tree_visits.specs.Leavings.{CanLeave, CanTakeWhole, EmptiesTo, LeavesTo};

use em_frames::{Area, Device};
use em_space::{EmFault, Rig};
use em_tree_load::{FirstLeaf, release_tree, remove_first, take_leaf};
use em_tree_walk::Root;
use em_trunk::plant;

/// What a visit did with the first leaf of its tree.
#[derive(Drop)]
pub enum Leaving {
    /// It stays as it is, and has a record.
    Kept,
    /// This many of its records were taken, and it has some left.
    Part(usize),
    /// All of them were taken, this many, and it was removed.
    Removed(usize),
    /// The same of a leaf alone: the tree's blocks were released, and this is the root of a new tree.
    Emptied(usize, u64),
}

/// Takes the records of the first leaf into the area from the place `taken` on, and removes the leaf if
/// it has none left. Nothing waits over it.
///
/// `Full` and `Damaged` come only over a device that doesn't tell, since a new tree takes no more blocks
/// than the old one gave back, and `DeviceFault` only if the device's count of faults rose; then the
/// tree's blocks may hold anything.
pub fn leave_leaf<D: Device>(
    rig: &mut Rig<'_, D>,
    root: Root,
    first: FirstLeaf,
    into: &mut Area,
    taken: usize,
) -> Result<Leaving, EmFault>
    requires sound { Sound (seen D.state rig.old) }
    requires can { CanLeave (seen D.state rig.old) root.level root.block first }
    requires few { taken ≤ length into.old }
    requires free { root.level + 1 < (seen D.state rig.old).pool.free }
    ensures len { length into.new ≡ length into.old }
    ensures leaves { LeavesTo (seen D.state rig.old) (seen D.state rig.new) root.level root.block
        first into.old into.new taken result }
{
    let room = into.records().len() - taken;
    let count = first.stored.len();
    if has_enough(taken, room, count) {
        return Ok(Leaving::Kept);
    }
    if count <= room as u64 {
        return take_whole(rig, root, first, into, taken, room);
    }
    let FirstLeaf {
        leaf,
        stored,
        fork: _,
    } = first;
    let part = take_leaf(rig, leaf, stored, into, taken, room)?;
    Ok(Leaving::Part(part))
}

/// Whether more than half of an area is filled, and a leaf has a record.
fn has_enough(taken: usize, room: usize, count: u64) -> bool
    ensures { IsTrue result ↔ (room < taken) × (0 < count) }
{
    taken > room && count > 0
}

/// The same of a leaf whose records all have room.
fn take_whole<D: Device>(
    rig: &mut Rig<'_, D>,
    root: Root,
    first: FirstLeaf,
    into: &mut Area,
    taken: usize,
    room: usize,
) -> Result<Leaving, EmFault>
    requires sound { Sound (seen D.state rig.old) }
    requires can { CanTakeWhole (seen D.state rig.old) root.level root.block first room }
    requires few { taken + room ≤ length into.old }
    requires free { root.level + 1 < (seen D.state rig.old).pool.free }
    ensures len { length into.new ≡ length into.old }
    ensures leaves { LeavesTo (seen D.state rig.old) (seen D.state rig.new) root.level root.block
        first into.old into.new taken result }
{
    let FirstLeaf { leaf, stored, fork } = first;
    let count = take_leaf(rig, leaf, stored, into, taken, room)?;
    match fork {
        Some(fork) => {
            remove_first(rig, fork)?;
            Ok(Leaving::Removed(count))
        }
        None => {
            let block = empty_tree(rig, root)?;
            Ok(Leaving::Emptied(count, block))
        }
    }
}

/// Releases the blocks of a tree in which nothing is stored and nothing waits, and plants a new one.
/// Answers the block of its root.
fn empty_tree<D: Device>(rig: &mut Rig<'_, D>, root: Root) -> Result<u64, EmFault>
    requires sound { Sound (seen D.state rig.old) }
    requires can { CanRelease (seen D.state rig.old) root.level root.block }
    requires free { root.level + 1 < (seen D.state rig.old).pool.free }
    ensures { EmptiesTo (seen D.state rig.old) (seen D.state rig.new) root.level root.block result }
{
    release_tree(rig, root.block, root.level)?;
    plant(rig)
}
