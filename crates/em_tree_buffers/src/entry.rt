//! The buffer of an entry, emptied.

ghost use Rattle.std.specs.Prelude.{◌≡◌, ◌-◌, ◌<◌, ◌≤◌, IfErr, IsTrue};
ghost use Rattle.em_space.specs.Seen.{seen};
ghost use Rattle.em_tree_buffers.specs.Emptying.{CanEmptyEntry, EmptiesEntry, LoadsTo, StopsHeld};
ghost use Rattle.em_trunk.specs.Works.{CanWork};

use crate::lowering::lower_entry;
use em_frames::Device;
use em_settle::Settle;
use em_space::{EmFault, Rig};
use em_tree_load::load_leaf;
use em_tree_walk::{Root, split_up};
use em_trunk::Trunk;

/// Empties the buffer of an entry: into its child, or into its leaf as much as one load takes.
pub fn empty_entry<D: Device, S: Settle>(
    rig: &mut Rig<'_, D>,
    settle: &S,
    trunk: &mut Trunk,
    level: u64,
    node: u64,
    at: usize,
) -> Result<(), EmFault>
    requires can { CanWork (S.key_of settle.now) (S.IsOp settle.now) (S.IsKept settle.now)
        (seen D.state rig.old) trunk.old }
    requires ready { S.IsReady settle.now }
    requires above { 0 < level }
    requires spot { CanEmptyEntry (level - 1) node at (seen D.state rig.old) trunk.old }
    ensures empties { (spot : CanEmptyEntry (level - 1) node at (seen D.state rig.old) trunk.old)
        → EmptiesEntry (S.key_of settle.now) (S.step_of settle.now) (S.IsOp settle.now)
        (S.IsKept settle.now) (level - 1) at (seen D.state rig.old)
        (seen D.state rig.new) trunk.old trunk.new spot.spot.path result }
{
    if level == 1 {
        return load_entry(rig, settle, trunk, node, at);
    }
    lower_entry(rig, settle, trunk, level, node, at)?;
    Ok(())
}

/// Settles a load of a leaf's buffer, and splits the nodes over it that are full then. A load of w·B
/// operations pays for its moves, and a split for those that it makes; of another load a part of them
/// is owed.
pub fn load_entry<D: Device, S: Settle>(
    rig: &mut Rig<'_, D>,
    settle: &S,
    trunk: &mut Trunk,
    node: u64,
    at: usize,
) -> Result<(), EmFault>
    requires ready { S.IsReady settle.now }
    requires can { CanWork (S.key_of settle.now) (S.IsOp settle.now) (S.IsKept settle.now)
        (seen D.state rig.old) trunk.old }
    requires spot { CanEmptyEntry 0 node at (seen D.state rig.old) trunk.old }
    ensures loads { (spot : CanEmptyEntry 0 node at (seen D.state rig.old) trunk.old)
        → LoadsTo (S.key_of settle.now) (S.step_of settle.now) (S.IsOp settle.now)
        (S.IsKept settle.now) at (seen D.state rig.old) (seen D.state rig.new) trunk.old trunk.new
        spot.spot.path result }
    ensures held { IfErr result (λ fault. IsTrue (seen D.state rig.old).device.told
        → (spot : CanEmptyEntry 0 node at (seen D.state rig.old) trunk.old)
        → StopsHeld at (seen D.state rig.old) (seen D.state rig.new) trunk.old spot.spot.path) }
{
    let Some(low) = load_leaf(rig, settle, &mut trunk.answers, node, at)? else {
        return Ok(());
    };
    let root = Root {
        block: trunk.root,
        level: trunk.level,
    };
    let root = split_up(rig, root, low)?;
    trunk.root = root.block;
    trunk.level = root.level;
    Ok(())
}
