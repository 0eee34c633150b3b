//! A tree is left with its pairs alone:
//!
//! ```text
//! pairs, operations that wait, some answers   -- settle_all -->   pairs, all answers   -- discard_answers -->   pairs
//! ```
//!
//! Kept here: answers are discarded after the settling, which gives them all, so that none is left. Left to the tree: only the
//! settling takes blocks.
ghost use Rattle.std.specs.Prelude.{◌≡◌, ◌<◌, ◌^◌, IfErr, IsTrue};
ghost use Rattle.em_settle.specs.Add.{IsAddOp, apply_of};
ghost use Rattle.em_settle.specs.Map.{IsMapKept, map_key_of};
ghost use Rattle.em_space.specs.Queue.{CanServe};
ghost use Rattle.em_space.specs.Rig.{Sound};
ghost use Rattle.em_space.specs.Seen.{seen};
ghost use Rattle.em_tree.specs.Calls.{FullIfUntrim};
ghost use Rattle.em_trunk.specs.Room.{FullOverRoom, WithinRoom};
ghost use Rattle.em_trunk.specs.Trunk.{IsTrunk};
ghost use Rattle.em_map.specs.Handing.{CountsKeeping, DiscardsAnswers, KeepsPairs};

use em_chain::discard;
use em_frames::Device;
use em_settle::{AddSettle, Settle};
use em_space::{EmFault, Rig};
use em_tree::Tree;

/// Settles a tree, and discards its answers. After a fault only the tree's `abandon` may be called.
pub(crate) fn keep_pairs<D: Device, F: Fn(u64, u64) -> u64 + Drop>(
    rig: &mut Rig<'_, D>,
    tree: &mut Tree<AddSettle<F>>,
) -> Result<(), EmFault>
    requires sound { Sound (seen D.state rig.old) }
    requires ready { ⟦<AddSettle<F> as Settle>⟧.IsReady tree.old.settle }
    requires is { IsTrunk map_key_of IsAddOp IsMapKept (seen D.state rig.old) tree.old.trunk }
    requires free { CanServe (seen D.state rig.old).pool }
    requires few { tree.old.trunk.settled < 2 ^ 100 }
    ensures rule { tree.new.settle ≡ tree.old.settle }
    ensures keeps { KeepsPairs (apply_of tree.old.settle.kind) (seen D.state rig.old)
        (seen D.state rig.new) tree.old.trunk tree.new.trunk result }
    ensures counts { CountsKeeping (apply_of tree.old.settle.kind) (seen D.state rig.old)
        (seen D.state rig.new) tree.old.trunk tree.new.trunk }
    ensures needs { IfErr result (FullIfUntrim (seen D.state rig.old) tree.old.trunk) }
    ensures room { IsTrue (seen D.state rig.old).device.told → WithinRoom tree.old.trunk.longest
        (seen D.state rig.old) (seen D.state rig.new) tree.old.trunk }
    ensures over { IfErr result (λ fault. IsTrue (seen D.state rig.old).device.told
        → FullOverRoom tree.old.trunk.longest (seen D.state rig.old) tree.old.trunk fault) }
{
    tree.settle_all(rig)?;
    discard_answers(rig, tree)
}

/// Discards the answers that a tree gave so far. After a fault only the tree's `abandon` may be called.
fn discard_answers<D: Device, F: Fn(u64, u64) -> u64 + Drop>(
    rig: &mut Rig<'_, D>,
    tree: &mut Tree<AddSettle<F>>,
) -> Result<(), EmFault>
    requires sound { Sound (seen D.state rig.old) }
    requires is { IsTrunk map_key_of IsAddOp IsMapKept (seen D.state rig.old) tree.old.trunk }
    requires free { CanServe (seen D.state rig.old).pool }
    ensures rule { tree.new.settle ≡ tree.old.settle }
    ensures discards { DiscardsAnswers (seen D.state rig.old) (seen D.state rig.new)
        tree.old.trunk tree.new.trunk result }
{
    let answers = tree.take_answers(rig)?;
    discard(rig, answers)
}
