//! The end of a tree: all buffers emptied, and all blocks but those of its answers released.

ghost use Rattle.std.specs.Prelude.{◌≡◌, IfErr};
ghost use Rattle.em_space.specs.Seen.{seen};
ghost use Rattle.em_trunk.specs.Debts.{owing_all};
ghost use Rattle.em_trunk.specs.Works.{CanWork};
ghost use Rattle.em_tree.specs.Finishing.{CanFinish, FinishesBlocks, FullIfUsed, ReleasesUnused};
ghost use Rattle.em_tree.specs.Settling.{SettlesAllTo};

use crate::settling::settle_tree;
use em_frames::Device;
use em_settle::Settle;
use em_space::{EmFault, Rig};
use em_tree_load::release_tree;
use em_trunk::Trunk;

/// Settles a tree, if it counts an operation, and releases its nodes and leaves.
pub fn finish_blocks<D: Device, S: Settle>(
    rig: &mut Rig<'_, D>,
    settle: &S,
    trunk: &mut Trunk,
) -> Result<(), EmFault>
    requires can { CanWork (S.key_of settle.now) (S.IsOp settle.now) (S.IsKept settle.now)
        (seen D.state rig.old) trunk.old }
    requires ready { S.IsReady settle.now }
    requires finish { CanFinish (seen D.state rig.old) trunk.old }
    ensures full { FullIfUsed trunk.old result }
    ensures finishes { FinishesBlocks (S.key_of settle.now) (S.step_of settle.now) (S.IsOp settle.now)
        (S.IsKept settle.now) (seen D.state rig.old) (seen D.state rig.new) trunk.old trunk.new
        result }
    ensures unused { trunk.old.longest ≡ 0 → ReleasesUnused (seen D.state rig.old)
        (seen D.state rig.new) trunk.old trunk.new }
{
    settle_used(rig, settle, trunk)?;
    release_tree(rig, trunk.root, trunk.level)
}

/// Settles a tree, if it counts an operation. Else nothing is moved.
fn settle_used<D: Device, S: Settle>(
    rig: &mut Rig<'_, D>,
    settle: &S,
    trunk: &mut Trunk,
) -> Result<(), EmFault>
    requires can { CanWork (S.key_of settle.now) (S.IsOp settle.now) (S.IsKept settle.now)
        (seen D.state rig.old) trunk.old }
    requires ready { S.IsReady settle.now }
    requires finish { CanFinish (seen D.state rig.old) trunk.old }
    ensures used { IfErr result (λ _. trunk.old.longest ≡ 0 → ⊥) }
    ensures still { trunk.old.longest ≡ 0 → (seen D.state rig.new ≡ seen D.state rig.old)
        × (trunk.new ≡ trunk.old) }
    ensures settles { SettlesAllTo (S.key_of settle.now) (S.step_of settle.now) (S.IsOp settle.now)
        (S.IsKept settle.now) (owing_all (seen D.state rig.old) trunk.old) (seen D.state rig.old)
        (seen D.state rig.new) trunk.old trunk.new result }
{
    if trunk.longest == 0 {
        return Ok(());
    }
    settle_tree(rig, settle, trunk)
}
