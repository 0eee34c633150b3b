//! The evaluation of a circuit on a stimulus, on an open rig:
//!
//!     circuit   text -> parts -> graph -> edges between ranks     (first slot)
//!     stimulus  a line -> a step -> a line of the output          (second slot)
//!               up to 64 lines -> a group -> as many lines        (the same, if the job is wide)
//!
//! The second slot is opened only after the whole circuit was read and found to have no fault. Kept
//! here: at each exit all frames are back, and the lines of the steps that were made were sent,
//! unless the output failed (at a stop of shelf or rig the contract says a front of them). Left to
//! the layers below: what a circuit, a step and a line are.

ghost use Rattle.std.specs.Prelude.{◌≡◌, ◌≤◌, true, false, [], IfSome};
ghost use Rattle.em_io.specs.Shelf.{IsFresh};
ghost use Rattle.em_space.specs.Rig.{Goes};
ghost use Rattle.em_space.specs.Seen.{seen};
ghost use Rattle.em_eval.specs.Evaluation.{CanBegin, CanRunSteps, PrintsSteps, ReadsCircuit, RunsSteps, group_round, step_round};
ghost use Rattle.em_eval.specs.EvalRun.{start_of, RunsEval};
ghost use Rattle.em_ready.specs.Ready.{IsReady, IsUnused};

use aig_bin::read_either;
use aig_defs::AigKind;
use aig_edges::{Ordered, check_and_build};
use aig_forward::{Evaluator, StepEnd};
use aig_order::order;
use aig_wide::{GroupEnd, WideEvaluator};
use em_ends::{Malform, Status, Stop, send_rest, status_of};
use em_frames::Device;
use em_io::{Feed, Printer, Shelf, Sink, Slot};
use em_pqueue::ExtQueue;
use em_space::{Queue, Rig};

/// The bit with which an uninitialised latch begins, as a number.
fn start_of(uninit: Option<bool>) -> Option<u64>
    ensures is { result ≡ start_of uninit }
    ensures few { IfSome result (λ value. value ≤ 1) }
{
    match uninit {
        Some(true) => Some(1),
        Some(false) => Some(0),
        None => None,
    }
}

/// Reads the circuit in the open first slot and makes its edges between ranks, by a queue for its graph
/// and another for its order, on a rig of which no block is or was in use. After a stop blocks may stay
/// in use. `uninit` is the number with which an uninitialised latch begins, if one is given.
fn read_circuit<D: Device, H: Shelf>(
    uninit: Option<u64>,
    rig: &mut Rig<'_, D>,
    shelf: &mut H,
) -> Result<Ordered, Stop>
    requires uninit { IfSome uninit (λ value. value ≤ 1) }
    requires unused { IsUnused (seen D.state rig.old) }
    requires free { IsReady (seen D.state rig.old).pool }
    requires ready { ((H.stand shelf.old).slot Slot.First).ready ≡ true }
    ensures goes { Goes [] (seen D.state rig.old) (seen D.state rig.new) }
    ensures reads { ReadsCircuit uninit H.Shelf (seen D.state rig.old) (seen D.state rig.new)
        shelf.old shelf.new result }
{
    let mut feed = Feed::new(Slot::First);
    let parts = read_either(rig, &mut feed, shelf, uninit)?;
    let queue = ExtQueue::new(rig)?;
    let graph = check_and_build(rig, parts, queue)?;
    let queue = ExtQueue::new(rig)?;
    Ok(order(rig, graph, queue)?)
}

/// Makes a step for each line of the stimulus in the open second slot, up to its end or its first
/// fault. The lines of the output go to the printer, which may keep some.
fn run_steps<D: Device, H: Shelf, W: Sink, Q: Queue>(
    rig: &mut Rig<'_, D>,
    evaluator: &mut Evaluator<Q>,
    shelf: &mut H,
    printer: &mut Printer,
    out: &mut W,
) -> Result<(), Stop>
    requires can { CanRunSteps Q.Queue (seen D.state rig.old) evaluator.old.sweeper }
    requires ready { ((H.stand shelf.old).slot Slot.Second).ready ≡ true }
    requires none { printer.old ≡ [] }
    ensures steps { PrintsSteps H.Shelf W.Sink Q.Queue
        (step_round (seen D.state rig.old) evaluator.old.sweeper) (seen D.state rig.old)
        (seen D.state rig.new) evaluator.old.sweeper evaluator.new.sweeper shelf.old shelf.new
        out.old out.new printer.new result }
{
    let mut feed = Feed::new(Slot::Second);
    loop {
        match evaluator.step(rig, &mut feed, shelf, printer, out)? {
            StepEnd::Printed => {}
            StepEnd::End => return Ok(()),
        }
    }
}

/// Makes the same steps of a circuit without latches, up to 64 at once.
fn run_groups<D: Device, H: Shelf, W: Sink, Q: Queue>(
    rig: &mut Rig<'_, D>,
    evaluator: &mut WideEvaluator<Q>,
    shelf: &mut H,
    printer: &mut Printer,
    out: &mut W,
) -> Result<(), Stop>
    requires can { CanRunSteps Q.Queue (seen D.state rig.old) evaluator.old.sweeper }
    requires no_latch { evaluator.old.sweeper.header.latches ≡ 0 }
    requires ready { ((H.stand shelf.old).slot Slot.Second).ready ≡ true }
    requires none { printer.old ≡ [] }
    ensures steps { PrintsSteps H.Shelf W.Sink Q.Queue
        (group_round (seen D.state rig.old) evaluator.old.sweeper) (seen D.state rig.old)
        (seen D.state rig.new) evaluator.old.sweeper evaluator.new.sweeper shelf.old shelf.new
        out.old out.new printer.new result }
{
    let mut feed = Feed::new(Slot::Second);
    loop {
        match evaluator.group(rig, &mut feed, shelf, printer, out)? {
            GroupEnd::Printed(_) => {}
            GroupEnd::End => return Ok(()),
        }
    }
}

/// Evaluates a circuit, by its edges between ranks, on the stimulus in the open second slot. The
/// evaluator and its queue are given up; their blocks stay in use.
fn evaluate<D: Device, H: Shelf, W: Sink>(
    rig: &mut Rig<'_, D>,
    ordered: Ordered,
    shelf: &mut H,
    out: &mut W,
) -> Result<(), Stop>
    requires can { CanBegin (seen D.state rig.old) ordered }
    requires ready { ((H.stand shelf.old).slot Slot.Second).ready ≡ true }
    ensures runs { RunsSteps false H.Shelf W.Sink (seen D.state rig.old) (seen D.state rig.new)
        ordered shelf.old shelf.new out.old out.new result }
{
    let queue = ExtQueue::new(rig)?;
    let mut evaluator = Evaluator::new(rig, ordered, queue)?;
    let mut printer = Printer::new();
    let done = run_steps(rig, &mut evaluator, shelf, &mut printer, out);
    evaluator.abandon(rig);
    send_rest(done, &mut printer, out)
}

/// The same of a circuit without latches, up to 64 steps at once. By `rounds_cost` of proofs/EvalMoves all its
/// groups together make at most twice as many times the moves of the cost of 2E records as there are groups.
fn evaluate_wide<D: Device, H: Shelf, W: Sink>(
    rig: &mut Rig<'_, D>,
    ordered: Ordered,
    shelf: &mut H,
    out: &mut W,
) -> Result<(), Stop>
    requires can { CanBegin (seen D.state rig.old) ordered }
    requires no_latch { ordered.header.latches ≡ 0 }
    requires ready { ((H.stand shelf.old).slot Slot.Second).ready ≡ true }
    ensures runs { RunsSteps true H.Shelf W.Sink (seen D.state rig.old) (seen D.state rig.new)
        ordered shelf.old shelf.new out.old out.new result }
{
    let queue = ExtQueue::new(rig)?;
    let mut evaluator = WideEvaluator::new(rig, ordered, queue)?;
    let mut printer = Printer::new();
    let done = run_groups(rig, &mut evaluator, shelf, &mut printer, out);
    evaluator.abandon(rig);
    send_rest(done, &mut printer, out)
}

/// The same, one step after another or, if it is wide, up to 64 at once. Then the circuit has no latches.
fn evaluate_either<D: Device, H: Shelf, W: Sink>(
    wide: bool,
    rig: &mut Rig<'_, D>,
    ordered: Ordered,
    shelf: &mut H,
    out: &mut W,
) -> Result<(), Stop>
    requires can { CanBegin (seen D.state rig.old) ordered }
    requires few { wide ≡ true → ordered.header.latches ≡ 0 }
    requires ready { ((H.stand shelf.old).slot Slot.Second).ready ≡ true }
    ensures runs { RunsSteps wide H.Shelf W.Sink (seen D.state rig.old) (seen D.state rig.new)
        ordered shelf.old shelf.new out.old out.new result }
{
    if wide {
        evaluate_wide(rig, ordered, shelf, out)
    } else {
        evaluate(rig, ordered, shelf, out)
    }
}

/// Evaluates the circuit of the first name on the stimulus of the second, on an open rig of which
/// no block is or was in use. The stimulus isn't opened if the circuit has a fault, or if the job is wide
/// and the circuit has latches.
pub fn run_eval<D: Device, H: Shelf, W: Sink>(
    uninit: Option<bool>,
    wide: bool,
    rig: &mut Rig<'_, D>,
    shelf: &mut H,
    circuit: &str,
    stimulus: &str,
    out: &mut W,
) -> Status
    requires unused { IsUnused (seen D.state rig.old) }
    requires free { IsReady (seen D.state rig.old).pool }
    requires none_moved { (seen D.state rig.old).moves ≡ 0 }
    requires fresh { IsFresh (H.stand shelf.old) }
    ensures goes { Goes [] (seen D.state rig.old) (seen D.state rig.new) }
    ensures runs { RunsEval H.Shelf W.Sink uninit wide circuit.now stimulus.now
        (seen D.state rig.old) (seen D.state rig.new) shelf.old out.old shelf.new out.new result }
{
    let Ok(()) = shelf.open(Slot::First, circuit) else {
        return Status::ReadFault;
    };
    let ordered = match read_circuit(start_of(uninit), rig, shelf) {
        Ok(ordered) => ordered,
        Err(stop) => return status_of(stop),
    };
    if wide && ordered.header.latches != 0 {
        return Status::Malformed {
            kind: Malform::Aig(AigKind::Latched),
            place: 0,
        };
    }
    let Ok(()) = shelf.open(Slot::Second, stimulus) else {
        return Status::ReadFault;
    };
    match evaluate_either(wide, rig, ordered, shelf, out) {
        Ok(()) => Status::Done,
        Err(stop) => status_of(stop),
    }
}
