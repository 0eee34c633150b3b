//! The full buffers of a level, emptied from left to right, and those below each after it.
//!
//! A step keeps no frame and no block's number: it goes on at a key, since a split in between may have
//! moved everything but the keys.

ghost use Rattle.std.specs.Prelude.{◌≡◌, ◌-◌, ◌<◌, ◌≤◌};
ghost use Rattle.em_space.specs.Seen.{seen};
ghost use Rattle.em_trunk.specs.Works.{CanWork};
ghost use Rattle.em_tree_buffers.specs.Loops.{CanClearEntry, CanClearFull, ClearsEntry, ClearsNext, ClearsTo, due_of};

use crate::entry::empty_entry;
use em_frames::Device;
use em_record::Record;
use em_settle::Settle;
use em_space::{EmFault, Rig};
use em_tree_walk::{Finding, Range, search};
use em_trunk::Trunk;

/// Empties each full buffer of the nodes of a level, and of those below, whose range begins among some
/// keys. The searches for these were paid for before; full buffers, loads and splits pay for the others.
///
/// `Full` comes only if all blocks are in use and, over a device that tells, an operation waited,
/// `Damaged` only over a device that doesn't tell, and `DeviceFault` only if the device's count of
/// faults rose; after a fault the tree may only be abandoned.
#[cycle(clear)]
pub fn empty_full<D: Device, S: Settle>(
    rig: &mut Rig<'_, D>,
    settle: &S,
    trunk: &mut Trunk,
    level: u64,
    keys: Range,
) -> Result<(), EmFault>
    requires can { CanWork (S.key_of settle.now) (S.IsOp settle.now) (S.IsKept settle.now)
        (seen D.state rig.old) trunk.old }
    requires ready { S.IsReady settle.now }
    requires clear { CanClearFull (due_of level keys) (seen D.state rig.old) trunk.old }
    ensures { ClearsTo (S.key_of settle.now) (S.step_of settle.now) (S.IsOp settle.now)
        (S.IsKept settle.now) (due_of level keys) (seen D.state rig.old)
        (seen D.state rig.new) trunk.old trunk.new result }
{
    let mut left = keys;
    loop {
        match clear_next(rig, settle, trunk, level, left)? {
            Some(from) => left.from = from,
            None => return Ok(()),
        }
    }
}

/// One step of that: a search, and what it found. The key from which to go on, if there is one.
#[cycle(clear)]
fn clear_next<D: Device, S: Settle>(
    rig: &mut Rig<'_, D>,
    settle: &S,
    trunk: &mut Trunk,
    level: u64,
    left: Range,
) -> Result<Option<Record>, EmFault>
    requires can { CanWork (S.key_of settle.now) (S.IsOp settle.now) (S.IsKept settle.now)
        (seen D.state rig.old) trunk.old }
    requires ready { S.IsReady settle.now }
    requires clear { CanClearFull (due_of level left) (seen D.state rig.old) trunk.old }
    ensures { ClearsNext (S.key_of settle.now) (S.step_of settle.now) (S.IsOp settle.now)
        (S.IsKept settle.now) (due_of level left) (seen D.state rig.old)
        (seen D.state rig.new) trunk.old trunk.new result }
{
    trunk.take_step()?;
    let shape = rig.shape();
    let limit = shape.fan() * shape.block();
    match search(rig, trunk.root, trunk.level, level, limit, left)? {
        Finding::Found { node, at, keys } => {
            clear_entry(rig, settle, trunk, level, left, node, at, keys)?;
            Ok(Some(keys.from))
        }
        Finding::Next(low) => Ok(Some(low)),
        Finding::Nothing => Ok(None),
    }
}

/// Empties the full buffer of an entry, and then those below it that are full.
#[cycle(clear)]
fn clear_entry<D: Device, S: Settle>(
    rig: &mut Rig<'_, D>,
    settle: &S,
    trunk: &mut Trunk,
    level: u64,
    left: Range,
    node: u64,
    at: usize,
    keys: Range,
) -> Result<(), EmFault>
    requires can { CanWork (S.key_of settle.now) (S.IsOp settle.now) (S.IsKept settle.now)
        (seen D.state rig.old) trunk.old }
    requires ready { S.IsReady settle.now }
    requires clear { CanClearEntry (due_of level left) node at keys (seen D.state rig.old)
        trunk.old }
    ensures { ClearsEntry (S.key_of settle.now) (S.step_of settle.now) (S.IsOp settle.now)
        (S.IsKept settle.now) (due_of level left) keys (seen D.state rig.old)
        (seen D.state rig.new) trunk.old trunk.new result }
{
    empty_entry(rig, settle, trunk, level, node, at)?;
    if level == 1 {
        return Ok(());
    }
    empty_full(rig, settle, trunk, level - 1, keys)
}
