//! The first records of a tree, taken out leaf by leaf: each visit empties the buffers over the first
//! leaf, loads what is left of its own, and takes its records.

ghost use Rattle.std.specs.Prelude.{◌≡◌, ◌<◌, ◌≤◌, length};
ghost use Rattle.em_frames.specs.Pool.{load_of};
ghost use Rattle.em_space.specs.Rig.{Sound};
ghost use Rattle.em_space.specs.Seen.{seen};
ghost use Rattle.em_tree_load.specs.FirstLeaves.{CanFindFirst};
ghost use Rattle.em_trunk.specs.Works.{CanWork};
ghost use Rattle.em_tree_visits.specs.FirstVisits.{ArrivesAt, CanTakeAll, CanVisit, EmptiesTop, FindsLeaf, TakesAllFirst, VisitsTo};

use crate::first::{empty_way, load_first};
use crate::leaving::{Leaving, leave_leaf};
use em_frames::{Area, Device};
use em_record::Record;
use em_settle::Settle;
use em_space::{EmFault, Rig};
use em_tree_buffers::{empty_full, empty_root};
use em_tree_load::{FirstLeaf, first_leaf};
use em_tree_walk::{Range, Root};
use em_trunk::Trunk;

/// All keys.
const ALL: Range = Range {
    from: Record::ZERO,
    until: None,
};

/// What a call took.
#[derive(Drop)]
pub struct Taken {
    /// How many records.
    pub count: usize,
    /// Nothing is left.
    pub reset: bool,
}

/// What a visit left.
#[derive(Drop)]
pub enum Turn {
    /// More may follow: this many records were taken so far.
    More(usize),
    /// It was the last one.
    Last(Taken),
}

/// Takes the least records of a tree out into an area: more than half of it is filled, or nothing is left.
///
/// `Full` comes only if all blocks are in use and, over a device that tells, an operation waited,
/// `Damaged` only over a device that doesn't tell, and `DeviceFault` only if the device's count of
/// faults rose; after a fault the tree may only be abandoned.
pub fn take_all_first<D: Device, S: Settle>(
    rig: &mut Rig<'_, D>,
    settle: &S,
    trunk: &mut Trunk,
    into: &mut Area,
) -> Result<Taken, EmFault>
    requires can { CanWork (S.key_of settle.now) (S.IsOp settle.now) (S.IsKept settle.now)
        (seen D.state rig.old) trunk.old }
    requires ready { S.IsReady settle.now }
    requires take { CanTakeAll (seen D.state rig.old) trunk.old }
    requires area { length into.old ≡ load_of (seen D.state rig.old).pool.shape }
    ensures len { length into.new ≡ length into.old }
    ensures takes { TakesAllFirst (S.key_of settle.now) (S.step_of settle.now) (S.IsOp settle.now)
        (S.IsKept settle.now) into.new (seen D.state rig.old) (seen D.state rig.new) trunk.old
        trunk.new result }
{
    empty_top(rig, settle, trunk)?;
    let mut taken = 0;
    loop {
        match take_next(rig, settle, trunk, into, taken)? {
            Turn::More(count) => taken = count,
            Turn::Last(last) => return Ok(last),
        }
    }
}

/// Empties the root's buffer, and the buffers below it that are full then. What a thin one doesn't pay for is
/// owed.
fn empty_top<D: Device, S: Settle>(
    rig: &mut Rig<'_, D>,
    settle: &S,
    trunk: &mut Trunk,
) -> Result<(), EmFault>
    requires can { CanWork (S.key_of settle.now) (S.IsOp settle.now) (S.IsKept settle.now)
        (seen D.state rig.old) trunk.old }
    requires ready { S.IsReady settle.now }
    requires take { CanTakeAll (seen D.state rig.old) trunk.old }
    ensures empties { EmptiesTop (S.key_of settle.now) (S.step_of settle.now) (S.IsOp settle.now)
        (S.IsKept settle.now) (seen D.state rig.old) (seen D.state rig.new) trunk.old trunk.new
        result }
{
    empty_root(rig, settle, trunk)?;
    let level = trunk.level;
    empty_full(rig, settle, trunk, level, ALL)
}

/// One visit of the first leaf, after `taken` records were taken.
fn take_next<D: Device, S: Settle>(
    rig: &mut Rig<'_, D>,
    settle: &S,
    trunk: &mut Trunk,
    into: &mut Area,
    taken: usize,
) -> Result<Turn, EmFault>
    requires can { CanWork (S.key_of settle.now) (S.IsOp settle.now) (S.IsKept settle.now)
        (seen D.state rig.old) trunk.old }
    requires ready { S.IsReady settle.now }
    requires visit { CanVisit (seen D.state rig.old) trunk.old }
    requires area { length into.old ≡ load_of (seen D.state rig.old).pool.shape }
    requires few { taken ≤ length into.old }
    ensures len { length into.new ≡ length into.old }
    ensures visits { VisitsTo (S.key_of settle.now) (S.step_of settle.now) (S.IsOp settle.now)
        (S.IsKept settle.now) taken into.old into.new (seen D.state rig.old) (seen D.state rig.new)
        trunk.old trunk.new result }
{
    let first = arrive(rig, settle, trunk)?;
    let root = Root {
        block: trunk.root,
        level: trunk.level,
    };
    match leave_leaf(rig, root, first, into, taken)? {
        Leaving::Removed(count) => Ok(Turn::More(taken + count)),
        Leaving::Part(more) => Ok(Turn::Last(Taken {
            count: taken + more,
            reset: false,
        })),
        Leaving::Kept => Ok(Turn::Last(Taken {
            count: taken,
            reset: false,
        })),
        Leaving::Emptied(all, block) => {
            trunk.root = block;
            trunk.level = 1;
            Ok(Turn::Last(Taken {
                count: taken + all,
                reset: true,
            }))
        }
    }
}

/// Empties the buffers over the first leaf, and loads what is left of its own. Answers that leaf.
fn arrive<D: Device, S: Settle>(
    rig: &mut Rig<'_, D>,
    settle: &S,
    trunk: &mut Trunk,
) -> Result<FirstLeaf, EmFault>
    requires can { CanWork (S.key_of settle.now) (S.IsOp settle.now) (S.IsKept settle.now)
        (seen D.state rig.old) trunk.old }
    requires ready { S.IsReady settle.now }
    requires visit { CanVisit (seen D.state rig.old) trunk.old }
    ensures arrives { ArrivesAt (S.key_of settle.now) (S.step_of settle.now) (S.IsOp settle.now)
        (S.IsKept settle.now) (seen D.state rig.old) (seen D.state rig.new) trunk.old trunk.new
        result }
{
    let level = trunk.level;
    empty_way(rig, settle, trunk, level)?;
    load_first(rig, settle, trunk)?;
    find_leaf(rig, trunk)
}

/// Finds the first leaf, with one of the call's steps.
fn find_leaf<D: Device>(rig: &mut Rig<'_, D>, trunk: &mut Trunk) -> Result<FirstLeaf, EmFault>
    requires sound { Sound (seen D.state rig.old) }
    requires can { CanFindFirst (seen D.state rig.old) trunk.old.level trunk.old.root }
    requires free { 0 < (seen D.state rig.old).pool.free }
    ensures { FindsLeaf (seen D.state rig.old) (seen D.state rig.new) trunk.old trunk.new result }
{
    trunk.take_step()?;
    first_leaf(rig, trunk.root, trunk.level)
}
