//! All buffers emptied, level by level from the root down, and the tree made trim after that.

ghost use Rattle.std.specs.Prelude.{◌≡◌, ◌≤◌};
ghost use Rattle.em_space.specs.Seen.{seen};
ghost use Rattle.em_trunk.specs.Debts.{owing_all, owing_to};
ghost use Rattle.em_trunk.specs.Works.{CanWork};
ghost use Rattle.em_tree.specs.Settling.{CanSettleDown, CanSettleTree, SettlesAllTo};
ghost use Rattle.em_tree.specs.Trimmed.{SettlesTrim};

use crate::emptying::empty_level;
use crate::trimming::trim;
use em_frames::Device;
use em_settle::Settle;
use em_space::{EmFault, Rig};
use em_tree_buffers::empty_root;
use em_trunk::Trunk;

/// Empties all buffers, with a debt, and makes the tree as small as its records allow. After a fault the tree may only be
/// abandoned.
pub fn settle_trim<D: Device, S: Settle>(
    rig: &mut Rig<'_, D>,
    settle: &S,
    trunk: &mut Trunk,
) -> Result<(), EmFault>
    requires can { CanWork (S.key_of settle.now) (S.IsOp settle.now) (S.IsKept settle.now)
        (seen D.state rig.old) trunk.old }
    requires ready { S.IsReady settle.now }
    requires settle { CanSettleTree (seen D.state rig.old) trunk.old }
    ensures { SettlesTrim (S.key_of settle.now) (S.step_of settle.now) (S.IsOp settle.now)
        (S.IsKept settle.now) (owing_all (seen D.state rig.old) trunk.old)
        (seen D.state rig.old) (seen D.state rig.new) trunk.old trunk.new result }
{
    settle_tree(rig, settle, trunk)?;
    trim(rig, settle, trunk)
}

/// Empties all buffers, with a debt. After a fault the tree may only be abandoned.
pub fn settle_tree<D: Device, S: Settle>(
    rig: &mut Rig<'_, D>,
    settle: &S,
    trunk: &mut Trunk,
) -> Result<(), EmFault>
    requires can { CanWork (S.key_of settle.now) (S.IsOp settle.now) (S.IsKept settle.now)
        (seen D.state rig.old) trunk.old }
    requires ready { S.IsReady settle.now }
    requires settle { CanSettleTree (seen D.state rig.old) trunk.old }
    ensures settles { SettlesAllTo (S.key_of settle.now) (S.step_of settle.now)
        (S.IsOp settle.now) (S.IsKept settle.now) (owing_all (seen D.state rig.old) trunk.old)
        (seen D.state rig.old) (seen D.state rig.new) trunk.old trunk.new result }
{
    empty_root(rig, settle, trunk)?;
    let level = trunk.level;
    settle_down(rig, settle, trunk, level)
}

/// Empties the buffers of a level and of those below it, one level after another.
fn settle_down<D: Device, S: Settle>(
    rig: &mut Rig<'_, D>,
    settle: &S,
    trunk: &mut Trunk,
    level: u64,
) -> Result<(), EmFault>
    requires can { CanWork (S.key_of settle.now) (S.IsOp settle.now) (S.IsKept settle.now)
        (seen D.state rig.old) trunk.old }
    requires ready { S.IsReady settle.now }
    requires settles { CanSettleDown level (seen D.state rig.old) trunk.old }
    ensures settles { SettlesAllTo (S.key_of settle.now) (S.step_of settle.now)
        (S.IsOp settle.now) (S.IsKept settle.now) (owing_to level (seen D.state rig.old) trunk.old)
        (seen D.state rig.old) (seen D.state rig.new) trunk.old trunk.new result }
{
    if level == 0 {
        return Ok(());
    }
    empty_level(rig, settle, trunk, level)?;
    settle_down(rig, settle, trunk, level - 1)
}
