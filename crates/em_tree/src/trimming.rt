//! A tree in which nothing waits, made as small as its records allow.

ghost use Rattle.std.specs.Prelude.{◌≡◌, ◌≤◌};
ghost use Rattle.em_space.specs.Seen.{seen};
ghost use Rattle.em_trunk.specs.Works.{CanWork};
ghost use Rattle.em_tree.specs.Trimmed.{CanTrimTrunk, MakesTrim, TrimsTrunk};

use em_frames::Device;
use em_settle::Settle;
use em_space::{EmFault, Rig};
use em_tree_trim::{is_trim, trim_tree};
use em_tree_walk::Root;
use em_trunk::Trunk;

/// Makes a tree as small as its records allow, if it isn't. After a fault the tree may only be abandoned.
///
/// `Full` comes only if all blocks are in use and, over a device that tells, the tree wasn't trim; `Damaged` only over a device
/// that doesn't tell, and `DeviceFault` only if the device's count of faults rose.
pub fn trim<D: Device, S: Settle>(
    rig: &mut Rig<'_, D>,
    settle: &S,
    trunk: &mut Trunk,
) -> Result<(), EmFault>
    requires can { CanWork (S.key_of settle.now) (S.IsOp settle.now) (S.IsKept settle.now)
        (seen D.state rig.old) trunk.old }
    requires ready { S.IsReady settle.now }
    requires trim { CanTrimTrunk (seen D.state rig.old) trunk.old }
    ensures { TrimsTrunk (S.key_of settle.now) (S.step_of settle.now) (S.IsOp settle.now)
        (S.IsKept settle.now) (seen D.state rig.old) (seen D.state rig.new) trunk.old trunk.new result }
{
    let root = Root {
        block: trunk.root,
        level: trunk.level,
    };
    if is_trim(rig, root)? {
        return Ok(());
    }
    make_trim(rig, settle, trunk)
}

/// The same of a tree that isn't.
fn make_trim<D: Device, S: Settle>(
    rig: &mut Rig<'_, D>,
    settle: &S,
    trunk: &mut Trunk,
) -> Result<(), EmFault>
    requires can { CanWork (S.key_of settle.now) (S.IsOp settle.now) (S.IsKept settle.now)
        (seen D.state rig.old) trunk.old }
    requires ready { S.IsReady settle.now }
    requires trim { CanTrimTrunk (seen D.state rig.old) trunk.old }
    ensures { MakesTrim (S.key_of settle.now) (S.step_of settle.now) (S.IsOp settle.now)
        (S.IsKept settle.now) (seen D.state rig.old) (seen D.state rig.new) trunk.old trunk.new result }
{
    let root = Root {
        block: trunk.root,
        level: trunk.level,
    };
    let root = trim_tree(rig, settle, root)?;
    trunk.root = root.block;
    trunk.level = root.level;
    Ok(())
}
