//! The pairs of a map's tree as a list, in the order of their keys. The tree is given up:
//!
//!     tree --drain--> (1 2) (3 1) --> list -> [1 2] [3 1]
//!
//! Left to the drain: the order, and that each pair comes once.

ghost use Rattle.std.specs.Prelude.{◌≡◌, ◌<◌, ◌^◌, List, length, IsTrue};
ghost use Rattle.em_chain.specs.Writer.{WriterHasFrame};
ghost use Rattle.em_chain.specs.Writes.{Begins};
ghost use Rattle.em_record.specs.declared.record.Record as records;
ghost use Rattle.em_services.specs.Listing.{AppendsAll, CanList, GivesFew, HasFew, HasRecords, IsPairDrain, ListsPairs, ListsTo, ListsWithin};
ghost use Rattle.em_settle.specs.Add.{IsAddOp, apply_of};
ghost use Rattle.em_settle.specs.Map.{IsMapKept, map_key_of};
ghost use Rattle.em_sorting.specs.Pushes.{CanServeBeside};
ghost use Rattle.em_space.specs.Queue.{CanServe};
ghost use Rattle.em_space.specs.Rig.{Sound};
ghost use Rattle.em_space.specs.Seen.{seen};
ghost use Rattle.em_trunk.specs.Trunk.{IsTrunk, trunk_blocks};

use em_bulk::Drain;
use em_chain::{Chain, Writer};
use em_frames::Device;
use em_settle::{AddSettle, Settle};
use em_space::{EmFault, Rig};
use em_tree::Tree;

/// A map has at most this many pairs.
const PAIRS_MOST: u64 = 1 << 40;

/// The pairs of a map's tree in a packed list, in the order of their keys. Its moves are those of the tree's drain, and two for each
/// block of the list, and one. `Full` comes only if all blocks are in use; if a tree claims more pairs than a map may have, the
/// device lost what was stored (`Damaged`).
pub(crate) fn list_pairs<D: Device, F: Fn(u64, u64) -> u64 + Drop>(
    rig: &mut Rig<'_, D>,
    tree: Tree<AddSettle<F>>,
) -> Result<Chain, EmFault>
    requires sound { Sound (seen D.state rig.old) }
    requires ready { ⟦<AddSettle<F> as Settle>⟧.IsReady tree.settle }
    requires is { IsTrunk map_key_of IsAddOp IsMapKept (seen D.state rig.old) tree.trunk }
    requires free { CanList (seen D.state rig.old).pool }
    requires resets { tree.trunk.resets < 2 ^ 100 }
    requires settled { tree.trunk.settled < 2 ^ 100 }
    requires few { IsTrue (seen D.state rig.old).device.told
        → HasFew (apply_of tree.settle.kind) (2 ^ 40) (seen D.state rig.old) tree.trunk }
    ensures lists { ListsPairs (apply_of tree.settle.kind)
        (seen D.state rig.old) (seen D.state rig.new) tree.trunk result }
    ensures within { IsTrue (seen D.state rig.old).device.told → (xs : List records.Record)
        → HasRecords (apply_of tree.settle.kind) (seen D.state rig.old) tree.trunk xs
        → ListsWithin (apply_of tree.settle.kind) (trunk_blocks (seen D.state rig.old) tree.trunk)
        (seen D.state rig.old) (seen D.state rig.new) tree.trunk (length xs) }
{
    let mut drain = Drain::new(rig, tree);
    match list_rest(rig, &mut drain) {
        Ok(list) => match drain.end(rig) {
            Ok(()) => Ok(list),
            Err(fault) => Err(fault),
        },
        Err(fault) => {
            drain.abandon(rig);
            Err(fault)
        }
    }
}

/// All that a drain gives, in a packed list.
fn list_rest<D: Device, F: Fn(u64, u64) -> u64 + Drop>(
    rig: &mut Rig<'_, D>,
    drain: &mut Drain<AddSettle<F>>,
) -> Result<Chain, EmFault>
    requires sound { Sound (seen D.state rig.old) }
    requires ready { ⟦<AddSettle<F> as Settle>⟧.IsReady drain.old.tree.settle }
    requires is { IsPairDrain (apply_of drain.old.tree.settle.kind) (seen D.state rig.old) drain.old }
    requires free { CanServeBeside 1 (seen D.state rig.old).pool }
    requires few { IsTrue (seen D.state rig.old).device.told
        → GivesFew (apply_of drain.old.tree.settle.kind) (2 ^ 40) (seen D.state rig.old) drain.old }
    ensures rule { drain.new.tree.settle ≡ drain.old.tree.settle }
    ensures lists { ListsTo (apply_of drain.old.tree.settle.kind) (seen D.state rig.old) (seen D.state rig.new) drain.old drain.new result }
{
    let mut list = Writer::new(rig);
    match append_all(rig, drain, &mut list) {
        Ok(()) => list.finish(rig),
        Err(fault) => {
            list.abandon(rig);
            Err(fault)
        }
    }
}

/// Appends all that a drain gives to a new list.
fn append_all<D: Device, F: Fn(u64, u64) -> u64 + Drop>(
    rig: &mut Rig<'_, D>,
    drain: &mut Drain<AddSettle<F>>,
    list: &mut Writer,
) -> Result<(), EmFault>
    requires sound { Sound (seen D.state rig.old) }
    requires ready { ⟦<AddSettle<F> as Settle>⟧.IsReady drain.old.tree.settle }
    requires is { IsPairDrain (apply_of drain.old.tree.settle.kind) (seen D.state rig.old) drain.old }
    requires list { Begins (seen D.state rig.old) list.old }
    requires free { CanServe (seen D.state rig.old).pool }
    requires few { IsTrue (seen D.state rig.old).device.told
        → GivesFew (apply_of drain.old.tree.settle.kind) (2 ^ 40) (seen D.state rig.old) drain.old }
    ensures rule { drain.new.tree.settle ≡ drain.old.tree.settle }
    ensures appends { AppendsAll (apply_of drain.old.tree.settle.kind) (seen D.state rig.old) (seen D.state rig.new) drain.old drain.new list.new result }
    ensures frame { WriterHasFrame (seen D.state rig.new) list.new }
{
    for _ in 0..PAIRS_MOST + 1 {
        match drain.next(rig)? {
            Some(pair) => list.append(rig, pair)?,
            None => return Ok(()),
        }
    }
    Err(EmFault::Damaged { block: 0 })
}
