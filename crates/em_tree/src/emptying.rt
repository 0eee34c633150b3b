//! Buffers that are emptied, those of a level from left to right. A step keeps no frame and no block's
//! number: it goes on at a key, since a split in between may have moved everything but the keys.

ghost use Rattle.std.specs.Prelude.{◌≡◌, ◌-◌, ◌<◌, ◌≤◌};
ghost use Rattle.em_space.specs.Seen.{seen};
ghost use Rattle.em_trunk.specs.Works.{CanWork};
ghost use Rattle.em_tree.specs.Levels.{CanEmptyNext, EmptiesNext};
ghost use Rattle.em_tree_buffers.specs.Loops.{CanSettle, SettlesTo};
ghost use Rattle.em_tree.specs.Pushing.{CanPushOp, PushesTo};

use em_frames::Device;
use em_record::Record;
use em_settle::Settle;
use em_space::{EmFault, Rig};
use em_tree_buffers::{empty_entry, empty_full, empty_root};
use em_tree_walk::{Finding, Range, search};
use em_trunk::Trunk;

/// All keys.
const ALL: Range = Range {
    from: Record::ZERO,
    until: None,
};

/// Appends an operation to the root's buffer, and empties what is full then.
///
/// `Full` comes only if all blocks are in use, `Damaged` only over a device that doesn't tell, and
/// `DeviceFault` only if the device's count of faults rose; after a fault the tree may only be
/// abandoned.
pub fn push_op<D: Device, S: Settle>(
    rig: &mut Rig<'_, D>,
    settle: &S,
    trunk: &mut Trunk,
    op: Record,
) -> Result<(), EmFault>
    requires can { CanWork (S.key_of settle.now) (S.IsOp settle.now) (S.IsKept settle.now)
        (seen D.state rig.old) trunk.old }
    requires ready { S.IsReady settle.now }
    requires push { CanPushOp (S.key_of settle.now) (S.IsOp settle.now) (S.IsKept settle.now) op
        (seen D.state rig.old) trunk.old }
    ensures pushes { PushesTo (S.key_of settle.now) (S.step_of settle.now) (S.IsOp settle.now)
        (S.IsKept settle.now) op (seen D.state rig.old) (seen D.state rig.new) trunk.old trunk.new
        result }
{
    trunk.buffer.append(rig, op)?;
    let shape = rig.shape();
    if trunk.buffer.len() < shape.fan() * shape.block() {
        return Ok(());
    }
    empty_root(rig, settle, trunk)?;
    let level = trunk.level;
    empty_full(rig, settle, trunk, level, ALL)
}

/// Empties each buffer of a level's nodes that has a record, from left to right. Nothing waits above the
/// level. What the operations don't pay for is owed, and so are the searches.
pub fn empty_level<D: Device, S: Settle>(
    rig: &mut Rig<'_, D>,
    settle: &S,
    trunk: &mut Trunk,
    level: u64,
) -> Result<(), EmFault>
    requires can { CanWork (S.key_of settle.now) (S.IsOp settle.now) (S.IsKept settle.now)
        (seen D.state rig.old) trunk.old }
    requires ready { S.IsReady settle.now }
    requires settle { CanSettle level (seen D.state rig.old) trunk.old }
    ensures { SettlesTo (S.key_of settle.now) (S.step_of settle.now) (S.IsOp settle.now)
        (S.IsKept settle.now) level (seen D.state rig.old)
        (seen D.state rig.new) trunk.old trunk.new result }
{
    let mut left = ALL;
    loop {
        match empty_next(rig, settle, trunk, level, left)? {
            Some(from) => left.from = from,
            None => return Ok(()),
        }
    }
}

/// One step of that: a search, and then the buffer that it found is emptied. Answers the key from which to
/// go on, if there is one.
fn empty_next<D: Device, S: Settle>(
    rig: &mut Rig<'_, D>,
    settle: &S,
    trunk: &mut Trunk,
    level: u64,
    left: Range,
) -> Result<Option<Record>, EmFault>
    requires can { CanWork (S.key_of settle.now) (S.IsOp settle.now) (S.IsKept settle.now)
        (seen D.state rig.old) trunk.old }
    requires ready { S.IsReady settle.now }
    requires next { CanEmptyNext level left (seen D.state rig.old) trunk.old }
    ensures { EmptiesNext (S.key_of settle.now) (S.step_of settle.now) (S.IsOp settle.now)
        (S.IsKept settle.now) level left (seen D.state rig.old)
        (seen D.state rig.new) trunk.old trunk.new result }
{
    trunk.take_step()?;
    match search(rig, trunk.root, trunk.level, level, 1, left)? {
        Finding::Found { node, at, keys } => {
            empty_entry(rig, settle, trunk, level, node, at)?;
            Ok(Some(keys.from))
        }
        Finding::Next(low) => Ok(Some(low)),
        Finding::Nothing => Ok(None),
    }
}
