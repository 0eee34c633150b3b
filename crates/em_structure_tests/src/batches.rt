//! A batch that gets commands, and joins adds early or not. A command is an operation of a map, of which the batch makes the number itself, or a sync, which
//! is `SETTLE`.
ghost use Rattle.std.specs.Prelude.{◌≡◌, ◌≤◌, ◌^◌, length, IfErr, IfOk};
ghost use Rattle.em_map.specs.Batch.{IsNewBatch};
ghost use Rattle.em_space.specs.Seen.{seen};
ghost use Rattle.em_structure_tests.specs.Ready.{HasAll, KeepsBatch, KeepsRig, ReadyBatch};
ghost use Rattle.em_tree.specs.Calls.{StopsNewTrunk};

use crate::reading::{is_long, note, read_all};
use crate::trees::SETTLE;
use em_frames::Device;
use em_map::Batch;
use em_record::Record;
use em_settle::{AddSettle, Combine, Settle};
use em_space::{EmFault, Rig};

/// A sync. Notes the blocks in use then, and reads the answers that it hands out.
fn sync<D: Device, F: Fn(u64, u64) -> u64 + Drop>(
    rig: &mut Rig<'_, D>,
    batch: &mut Batch<F>,
    found: &mut Vec<Record>,
) -> Result<(), EmFault>
    requires ready { ReadyBatch 1 (seen D.state rig.old) batch.old }
    requires rule { ⟦<AddSettle<F> as Settle>⟧.IsReady batch.old.tree.settle }
    ensures rule { batch.new.tree.settle ≡ batch.old.tree.settle }
    ensures kept { KeepsBatch 1 (seen D.state rig.old) (seen D.state rig.new) batch.old batch.new result }
{
    let chain = batch.sync(rig)?;
    read_all(rig, chain, found)
}

/// One command.
#[tactic(auto, using(crate::proofs::BatchKeeps::given_keeps))]
fn step<D: Device, F: Fn(u64, u64) -> u64 + Drop>(
    rig: &mut Rig<'_, D>,
    batch: &mut Batch<F>,
    call: Record,
    found: &mut Vec<Record>,
) -> Result<(), EmFault>
    requires ready { ReadyBatch 1 (seen D.state rig.old) batch.old }
    requires rule { ⟦<AddSettle<F> as Settle>⟧.IsReady batch.old.tree.settle }
    ensures rule { batch.new.tree.settle ≡ batch.old.tree.settle }
    ensures kept { KeepsBatch 1 (seen D.state rig.old) (seen D.state rig.new) batch.old batch.new result }
{
    if call == SETTLE {
        return sync(rig, batch, found);
    }
    match call.c {
        0 => batch.put(rig, call.a, call.d),
        1 => batch.del(rig, call.a),
        3 => batch.add(rig, call.a, call.d),
        _ => batch.get(rig, call.a),
    }
}

/// Some commands.
fn step_all<D: Device, F: Fn(u64, u64) -> u64 + Drop>(
    rig: &mut Rig<'_, D>,
    batch: &mut Batch<F>,
    calls: &[Record],
    found: &mut Vec<Record>,
) -> Result<(), EmFault>
    requires ready { ReadyBatch (length calls.now) (seen D.state rig.old) batch.old }
    requires rule { ⟦<AddSettle<F> as Settle>⟧.IsReady batch.old.tree.settle }
    ensures rule { batch.new.tree.settle ≡ batch.old.tree.settle }
    ensures kept { KeepsBatch (length calls.now) (seen D.state rig.old) (seen D.state rig.new)
        batch.old batch.new result }
{
    for call in calls {
        step(rig, batch, *call, found)?;
    }
    Ok(())
}

/// A new batch, whose adds are joined early or not.
fn made<D: Device, F: Fn(u64, u64) -> u64 + Drop>(
    rig: &mut Rig<'_, D>,
    early: bool,
    settle: AddSettle<F>,
) -> Result<Batch<F>, EmFault>
    requires has { HasAll (seen D.state rig.old) }
    ensures makes { IfOk result (IsNewBatch (seen D.state rig.old) (seen D.state rig.new)) }
    ensures rule { IfOk result (λ b. b.tree.settle ≡ settle) }
    ensures stops { IfErr result (StopsNewTrunk (seen D.state rig.old) (seen D.state rig.new)) }
{
    if early {
        return Batch::early(rig, settle);
    }
    Batch::with(rig, settle)
}

/// Some commands of a new batch, which is finished. Notes the same of its tree as `trees` does, and then the answers.
pub fn serve<D: Device>(
    rig: &mut Rig<'_, D>,
    early: bool,
    calls: &[Record],
    found: &mut Vec<Record>,
) -> Result<(), EmFault>
    requires { HasAll (seen D.state rig.old) }
    ensures { KeepsRig (seen D.state rig.old) (seen D.state rig.new) }
{
    if is_long(calls) {
        return Ok(());
    }
    let sum = AddSettle::new(|x: u64, y: u64| x.wrapping_add(y), Combine::Sum);
    let mut batch = made(rig, early, sum)?;
    match step_all(rig, &mut batch, calls, found) {
        Ok(()) => {
            let tree = batch.tree();
            note(found, (tree.height(), u64::from(tree.is_fresh())), &[], 0);
            note(found, (rig.used(), rig.moves()), &[], 0);
            let chain = batch.finish(rig)?;
            read_all(rig, chain, found)
        }
        Err(fault) => {
            batch.abandon(rig);
            Err(fault)
        }
    }
}
