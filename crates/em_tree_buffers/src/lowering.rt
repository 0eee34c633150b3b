//! The root's buffer, emptied into those of its entries, and the buffer of an entry over a node, into
//! those of its child.

ghost use Rattle.std.specs.Prelude.{◌≡◌, ◌-◌, ◌<◌, ◌≤◌, IfOk, IsTrue};
ghost use Rattle.em_space.specs.Seen.{seen};
ghost use Rattle.em_tree_buffers.specs.Draining.{CanDrain, DrainsTo};
ghost use Rattle.em_tree_buffers.specs.Emptying.{CanEmptyEntry, LowersTo, TellsFull};
ghost use Rattle.em_trunk.specs.Works.{CanWork};

use em_empty::empty_node;
use em_frames::Device;
use em_settle::Settle;
use em_space::{EmFault, Rig};
use em_tree_walk::take_out;
use em_trunk::Trunk;

/// Empties the buffer of an entry over a node into the buffers of its child. A full buffer pays for
/// the moves; of another one a part of them is owed. Answers whether a buffer of the child is full then.
/// After a fault the tree may only be abandoned.
pub fn lower_entry<D: Device, S: Settle>(
    rig: &mut Rig<'_, D>,
    settle: &S,
    trunk: &Trunk,
    level: u64,
    node: u64,
    at: usize,
) -> Result<bool, EmFault>
    requires can { CanWork (S.key_of settle.now) (S.IsOp settle.now) (S.IsKept settle.now)
        (seen D.state rig.old) trunk.now }
    requires above { 2 ≤ level }
    requires spot { CanEmptyEntry (level - 1) node at (seen D.state rig.old) trunk.now }
    ensures lowers { (spot : CanEmptyEntry (level - 1) node at (seen D.state rig.old) trunk.now)
        → LowersTo (S.key_of settle.now) (S.step_of settle.now) (S.IsOp settle.now)
        (S.IsKept settle.now) (level - 1) at (seen D.state rig.old) (seen D.state rig.new)
        trunk.now trunk.now spot.spot.path result }
    ensures tells { IfOk result (λ full. IsTrue (seen D.state rig.old).device.told
        → (spot : CanEmptyEntry (level - 1) node at (seen D.state rig.old) trunk.now)
        → TellsFull (S.key_of settle.now) (level - 1) at (seen D.state rig.old) trunk.now
        spot.spot.path full) }
{
    let (child, buffer) = take_out(rig, node, level, at)?;
    Ok(empty_node(rig, settle, child, buffer)?.is_some())
}

/// Empties the root's buffer into the buffers of the root's entries. A full buffer pays for the
/// moves; of another one a part of them is owed. Of an empty one nothing is moved. After a fault the
/// tree may only be abandoned.
pub fn empty_root<D: Device, S: Settle>(
    rig: &mut Rig<'_, D>,
    settle: &S,
    trunk: &mut Trunk,
) -> Result<(), EmFault>
    requires can { CanWork (S.key_of settle.now) (S.IsOp settle.now) (S.IsKept settle.now)
        (seen D.state rig.old) trunk.old }
    requires drain { CanDrain (seen D.state rig.old) trunk.old }
    ensures drains { DrainsTo (S.key_of settle.now) (S.step_of settle.now) (S.IsOp settle.now)
        (S.IsKept settle.now) (seen D.state rig.old) (seen D.state rig.new) trunk.old trunk.new
        result }
{
    let count = trunk.buffer.len();
    if count == 0 {
        return Ok(());
    }
    let buffer = trunk.take_buffer(rig)?;
    empty_node(rig, settle, trunk.root, buffer)?;
    Ok(())
}
