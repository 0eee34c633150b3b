//! The operations of a load enter a tree, one after another:
//!
//! ```text
//! tree:   .. what waits of each key ..       <- (7, 12, add) (7, 15, get) (9, 11, put)
//! ```
//!
//! Kept here: of each key the operations come in the order of their numbers, after all that wait for it (`ComeLater`).
ghost use Rattle.std.specs.Prelude.{◌≡◌, ◌+◌, ◌<◌, ◌≤◌, ◌^◌, IfErr, IsTrue, length, max};
ghost use Rattle.std.specs.List.{All};
ghost use Rattle.em_settle.specs.Add.{IsAddOp, apply_of};
ghost use Rattle.em_settle.specs.Map.{IsMapKept, map_key_of};
ghost use Rattle.em_space.specs.Queue.{CanServe};
ghost use Rattle.em_space.specs.Rig.{Sound};
ghost use Rattle.em_space.specs.Seen.{seen};
ghost use Rattle.em_trunk.specs.Trunk.{IsTrunk, model_of};
ghost use Rattle.em_map.specs.Loading.{ComeLater, CountsPushes, LoadOver, LoadWithin, PushesAll, answers_in};

use em_frames::Device;
use em_record::Record;
use em_settle::{AddSettle, Settle};
use em_space::{EmFault, Rig};
use em_tree::Tree;

/// Pushes operations into a tree, in their order. After a fault only the tree's `abandon` may be called.
pub(crate) fn push_all<D: Device, F: Fn(u64, u64) -> u64 + Drop>(
    rig: &mut Rig<'_, D>,
    tree: &mut Tree<AddSettle<F>>,
    ops: &[Record],
) -> Result<(), EmFault>
    requires sound { Sound (seen D.state rig.old) }
    requires ready { ⟦<AddSettle<F> as Settle>⟧.IsReady tree.old.settle }
    requires is { IsTrunk map_key_of IsAddOp IsMapKept (seen D.state rig.old) tree.old.trunk }
    requires free { CanServe (seen D.state rig.old).pool }
    requires few { tree.old.trunk.pushed + length ops.now ≤ 2 ^ 40 }
    requires ops { All IsAddOp ops.now }
    requires later { IsTrue (seen D.state rig.old).device.told
        → ComeLater (model_of (seen D.state rig.old) tree.old.trunk) ops.now }
    ensures rule { tree.new.settle ≡ tree.old.settle }
    ensures pushes { PushesAll (apply_of tree.old.settle.kind) ops.now (seen D.state rig.old)
        (seen D.state rig.new) tree.old.trunk tree.new.trunk result }
    ensures some { IfErr result (λ fault. 0 < length ops.now) }
    ensures counts { CountsPushes (length ops.now) (seen D.state rig.old) (seen D.state rig.new)
        tree.old.trunk tree.new.trunk }
    ensures room { IsTrue (seen D.state rig.old).device.told → LoadWithin
        (max tree.old.trunk.longest (tree.old.trunk.since + length ops.now))
        (answers_in (apply_of tree.old.settle.kind) (seen D.state rig.old) tree.old.trunk
        + length ops.now) (seen D.state rig.old) (seen D.state rig.new) tree.old.trunk }
    ensures over { IfErr result (λ fault. IsTrue (seen D.state rig.old).device.told → LoadOver
        (max tree.old.trunk.longest (tree.old.trunk.since + length ops.now))
        (answers_in (apply_of tree.old.settle.kind) (seen D.state rig.old) tree.old.trunk
        + length ops.now) (seen D.state rig.old) tree.old.trunk fault) }
{
    let mut at = 0;
    while at < ops.len() {
        let op = ops[at];
        tree.push(rig, op)?;
        at += 1;
    }
    Ok(())
}
