//! The buffers over the first leaf, emptied from the root's entries down, and its own, loaded.
//!
//! No block's number is kept from one level to the next: each level's first entry is found by the least
//! key, since a split in between may have moved it.

ghost use Rattle.std.specs.Prelude.{◌≡◌, ◌-◌, ◌+◌, ◌*◌, ◌<◌, ◌≤◌};
ghost use Rattle.em_record.specs.Shape.{wide_of};
ghost use Rattle.em_space.specs.Seen.{seen};
ghost use Rattle.em_tree_cost.specs.Visits.{way_debt};
ghost use Rattle.em_tree_visits.specs.Visits.{CanEmptyWay, CanLoadFirst, CanLoadNext, CanLowerFirst, EmptiesDown, LoadsFirstTo, LoadsNext, first_debt};
ghost use Rattle.em_trunk.specs.Works.{CanWork, deepest};

use em_frames::Device;
use em_record::Record;
use em_settle::Settle;
use em_space::{EmFault, Rig};
use em_tree_buffers::{empty_full, load_entry, lower_entry};
use em_tree_walk::{Finding, Range, search};
use em_trunk::Trunk;

/// The least key alone: a search among these keys finds the first entry of a level, and no other.
const FIRST: Range = Range {
    from: Record::ZERO,
    until: Some(Record {
        a: 0,
        b: 0,
        c: 0,
        d: 1,
    }),
};

/// Empties the first buffer of each level from one down to level 2, and what is full below after each.
/// What thin buffers don't pay for is owed. After a fault the tree may only be abandoned.
pub fn empty_way<D: Device, S: Settle>(
    rig: &mut Rig<'_, D>,
    settle: &S,
    trunk: &mut Trunk,
    level: u64,
) -> Result<(), EmFault>
    requires can { CanWork (S.key_of settle.now) (S.IsOp settle.now) (S.IsKept settle.now)
        (seen D.state rig.old) trunk.old }
    requires ready { S.IsReady settle.now }
    requires way { CanEmptyWay level (seen D.state rig.old) trunk.old }
    ensures empties { EmptiesDown (S.key_of settle.now) (S.step_of settle.now) (S.IsOp settle.now)
        (S.IsKept settle.now) 1 (way_debt (wide_of (seen D.state rig.old).pool.shape)
        (deepest (seen D.state rig.old) trunk.old) level) (seen D.state rig.old)
        (seen D.state rig.new) trunk.old trunk.new result }
{
    if level <= 1 {
        return Ok(());
    }
    empty_first(rig, settle, trunk, level)?;
    empty_way(rig, settle, trunk, level - 1)
}

/// Empties the first buffer of a level over nodes, if it has an operation.
fn empty_first<D: Device, S: Settle>(
    rig: &mut Rig<'_, D>,
    settle: &S,
    trunk: &mut Trunk,
    level: u64,
) -> Result<(), EmFault>
    requires can { CanWork (S.key_of settle.now) (S.IsOp settle.now) (S.IsKept settle.now)
        (seen D.state rig.old) trunk.old }
    requires ready { S.IsReady settle.now }
    requires above { 2 ≤ level }
    requires way { CanEmptyWay level (seen D.state rig.old) trunk.old }
    ensures empties { EmptiesDown (S.key_of settle.now) (S.step_of settle.now) (S.IsOp settle.now)
        (S.IsKept settle.now) (level - 1) (first_debt (wide_of (seen D.state rig.old).pool.shape)
        (deepest (seen D.state rig.old) trunk.old) level) (seen D.state rig.old)
        (seen D.state rig.new) trunk.old trunk.new result }
{
    trunk.take_step()?;
    match search(rig, trunk.root, trunk.level, level, 1, FIRST)? {
        Finding::Found { node, at, keys } => lower_first(rig, settle, trunk, level, node, at, keys),
        Finding::Next(_) => Ok(()),
        Finding::Nothing => Ok(()),
    }
}

/// Empties the buffer of a level's first entry, and the buffers below it that are full then.
fn lower_first<D: Device, S: Settle>(
    rig: &mut Rig<'_, D>,
    settle: &S,
    trunk: &mut Trunk,
    level: u64,
    node: u64,
    at: usize,
    keys: Range,
) -> Result<(), EmFault>
    requires can { CanWork (S.key_of settle.now) (S.IsOp settle.now) (S.IsKept settle.now)
        (seen D.state rig.old) trunk.old }
    requires ready { S.IsReady settle.now }
    requires lower { CanLowerFirst level node at keys (seen D.state rig.old) trunk.old }
    ensures empties { EmptiesDown (S.key_of settle.now) (S.step_of settle.now) (S.IsOp settle.now)
        (S.IsKept settle.now) (level - 1) (16 * wide_of (seen D.state rig.old).pool.shape + 4)
        (seen D.state rig.old) (seen D.state rig.new) trunk.old trunk.new result }
{
    if !lower_entry(rig, settle, trunk, level, node, at)? {
        return Ok(());
    }
    empty_full(rig, settle, trunk, level - 1, keys)
}

/// Loads the first leaf's buffer until no operation waits there. A full load pays for the search before it; what
/// the last load costs is owed. After a fault the tree may only be abandoned.
pub fn load_first<D: Device, S: Settle>(
    rig: &mut Rig<'_, D>,
    settle: &S,
    trunk: &mut Trunk,
) -> Result<(), EmFault>
    requires can { CanWork (S.key_of settle.now) (S.IsOp settle.now) (S.IsKept settle.now)
        (seen D.state rig.old) trunk.old }
    requires ready { S.IsReady settle.now }
    requires load { CanLoadFirst (seen D.state rig.old) trunk.old }
    ensures loads { (load : CanLoadFirst (seen D.state rig.old) trunk.old)
        → LoadsFirstTo (S.key_of settle.now) (S.step_of settle.now) (S.IsOp settle.now)
        (S.IsKept settle.now) load.at (seen D.state rig.old) (seen D.state rig.new) trunk.old
        trunk.new result }
{
    loop {
        if !load_next(rig, settle, trunk)? {
            return Ok(());
        }
    }
}

/// One load of that, if an operation waits.
fn load_next<D: Device, S: Settle>(
    rig: &mut Rig<'_, D>,
    settle: &S,
    trunk: &mut Trunk,
) -> Result<bool, EmFault>
    requires can { CanWork (S.key_of settle.now) (S.IsOp settle.now) (S.IsKept settle.now)
        (seen D.state rig.old) trunk.old }
    requires ready { S.IsReady settle.now }
    requires load { CanLoadNext (seen D.state rig.old) trunk.old }
    ensures loads { LoadsNext (S.key_of settle.now) (S.step_of settle.now) (S.IsOp settle.now)
        (S.IsKept settle.now) (seen D.state rig.old) (seen D.state rig.new) trunk.old trunk.new
        result }
{
    trunk.take_step()?;
    match search(rig, trunk.root, trunk.level, 1, 1, FIRST)? {
        Finding::Found { node, at, .. } => {
            load_entry(rig, settle, trunk, node, at)?;
            Ok(true)
        }
        Finding::Next(_) => Ok(false),
        Finding::Nothing => Ok(false),
    }
}
