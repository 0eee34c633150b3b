//! A load settled over a leaf, as records and operations stand beside each other in order of
//! their keys:
//!
//!     stored   2 . 5 . 7 . . 9          operations   put 5, get 5, del 7, put 8
//!     after    2 . 5'. . . 8 . 9        answers      5'
//!
//! Kept here: what results is in packed chains, in two halves if it is too much for one leaf; the
//! chain's blocks are released; on each way out all frames are back. Left to the tree: which leaf
//! a load is for, and that a load has the operations of a key in order.

ghost use Rattle.std.specs.Prelude.{◌≡◌, ◌↔◌, ◌+◌, ◌<◌, ◌≤◌, ◌++◌, drop, length, take, IfErr, IfOk, OnOk, IsTrue};
ghost use Rattle.em_record.specs.Order.{IsAscending};
ghost use Rattle.em_space.specs.Rig.{Sound};
ghost use Rattle.em_space.specs.Seen.{seen};
ghost use Rattle.em_chain.specs.Effects.{Completes};
ghost use Rattle.em_chain.specs.Writer.{WriterHasFrame};
ghost use Rattle.em_leaf.specs.Leaf.{AreLeafChains, CanLoad, ops_of};
ghost use Rattle.em_leaf.specs.Needs.{LacksBlocks};
ghost use Rattle.em_leaf.specs.Settling.{CanSettle, SettlesOpsTo};
ghost use Rattle.em_leaf.specs.Effects.{AnswersLoad, RunsLoad, SettlesLeaf, load_moves_most, loading_room};

use crate::change::LeafChange;
use crate::counting::low_limit;
use crate::writing::write_leaf;
use em_chain::{Chain, Reader, Writer};
use em_frames::{Area, Device};
use em_record::Record;
use em_settle::Settle;
use em_space::{EmFault, Rig};

/// Puts the first `count` records of a load in order and settles them, as operations, over a leaf's
/// stored records, whose blocks are released. The answers are appended in that order. `high` is
/// there exactly if more than 4·w·B records result: then the low part has the first half of them.
///
/// `DeviceFault` comes only if the device's count of faults rose, and `Full` only if all blocks are in use:
/// over a device that tells only if fewer were free than what results needs in its parts, and
/// the answers more than `answers` has; and never if 2·ceil(count/P) + 3 were, of P records each.
/// `Damaged` comes only over a device that doesn't tell. After a fault some of the chain's blocks may
/// be released; the others stay in use and may hold anything, and `answers` may only be abandoned.
/// The call makes at most 5·s + 4·ceil(count/P) + 12 moves, s being the chain's blocks.
pub fn apply_load<D: Device, S: Settle>(
    rig: &mut Rig<'_, D>,
    settle: &S,
    stored: Chain,
    load: &mut Area,
    count: usize,
    answers: &mut Writer,
) -> Result<LeafChange, EmFault>
    requires sound { Sound (seen D.state rig.old) }
    requires ready { S.IsReady settle.now }
    requires can { CanLoad (S.key_of settle.now) (seen D.state rig.old) stored load.old count
        answers.old }
    requires free { 6 ≤ (seen D.state rig.old).pool.free }
    ensures settles { IfOk result (λ change. IsTrue (seen D.state rig.old).device.told
        → SettlesLeaf (S.key_of settle.now) (S.step_of settle.now) (seen D.state rig.old)
        (seen D.state rig.new) stored (ops_of load.old count) change) }
    ensures leaves { IfOk result (AreLeafChains (seen D.state rig.new)) }
    ensures answers { OnOk result (AnswersLoad (S.key_of settle.now) (S.step_of settle.now)
        (seen D.state rig.old) (seen D.state rig.new) stored (ops_of load.old count)
        answers.old answers.new) }
    ensures frame { WriterHasFrame (seen D.state rig.new) answers.new }
    ensures runs { RunsLoad (seen D.state rig.old) (seen D.state rig.new) stored count
        answers.old answers.new result }
    ensures moves { (seen D.state rig.new).moves
        ≤ (seen D.state rig.old).moves + load_moves_most (seen D.state rig.old) stored count }
    ensures complete { (seen D.state rig.old).used + loading_room (seen D.state rig.old) count
        ≤ (seen D.state rig.old).blocks
        → Completes (seen D.state rig.old) (seen D.state rig.new) result }
    ensures needs { IfErr result (LacksBlocks (S.key_of settle.now) (S.step_of settle.now)
        (seen D.state rig.old) stored (ops_of load.old count) answers.old) }
    ensures area { load.new ≡ ops_of load.old count ++ drop count load.old }
    ensures len { length load.new ≡ length load.old }
{
    put_in_order(load, count);
    settle_leaf(rig, settle, stored, &load.records()[..count], answers)
}

/// Puts the operations of a load in order, those of a key as they arrived.
#[tactic(auto, using(crate::proofs::Applied::ops_are, crate::proofs::Applied::area_len))]
fn put_in_order(load: &mut Area, count: usize)
    requires room { count ≤ length load.old }
    ensures ordered { take count load.new ≡ ops_of load.old count }
    ensures area { load.new ≡ ops_of load.old count ++ drop count load.old }
    ensures len { length load.new ≡ length load.old }
{
    load.sort(count);
}

/// The same for operations that are in order.
fn settle_leaf<D: Device, S: Settle>(
    rig: &mut Rig<'_, D>,
    settle: &S,
    stored: Chain,
    ops: &[Record],
    answers: &mut Writer,
) -> Result<LeafChange, EmFault>
    requires sound { Sound (seen D.state rig.old) }
    requires ready { S.IsReady settle.now }
    requires ordered { IsAscending ops.now }
    requires can { CanSettle (S.key_of settle.now) (seen D.state rig.old) stored (length ops.now)
        answers.old }
    requires free { 6 ≤ (seen D.state rig.old).pool.free }
    ensures frame { WriterHasFrame (seen D.state rig.new) answers.new }
    ensures runs { RunsLoad (seen D.state rig.old) (seen D.state rig.new) stored (length ops.now)
        answers.old answers.new result }
    ensures settled { SettlesOpsTo (S.key_of settle.now) (S.step_of settle.now)
        (seen D.state rig.old) (seen D.state rig.new) stored ops.now answers.old answers.new result }
    ensures needs { IfErr result (LacksBlocks (S.key_of settle.now) (S.step_of settle.now)
        (seen D.state rig.old) stored ops.now answers.old) }
{
    let shape = rig.shape();
    let most = 4 * shape.wide() * shape.block();
    if !is_whole(&stored) {
        return Err(EmFault::Damaged { block: 0 });
    }
    let limit = low_limit(rig, settle, ops, &stored, most)?;
    let mut reader = Reader::taking(rig, stored);
    let change = write_leaf(rig, settle, ops, &mut reader, answers, limit, most);
    reader.abandon(rig);
    change
}

/// Whether a chain that has no record holds no block, as it must.
pub(crate) fn is_whole(stored: &Chain) -> bool
    ensures { IsTrue result ↔ (stored.now.count ≡ 0 → stored.now.blocks ≡ 0) }
{
    stored.len() > 0 || stored.blocks() == 0
}
