//! A circuit's text, evaluated by a queue over a list or over a buffer tree, step by step or in groups of lines, until nothing is left
//! of the stimulus.
ghost use Rattle.std.specs.Prelude.{◌≡◌, ◌^◌, true};
ghost use Rattle.em_io.specs.declared.shelf.Slot.TheVariants.{First, Second};
ghost use Rattle.em_space.specs.Seen.{seen};
ghost use Rattle.aig_text.specs.Source.{CanRead, source};
ghost use Rattle.aig_edges.specs.Graph.{IsOrdered};
ghost use Rattle.aig_tests.specs.Frames.{HasFrames, LeavesFrames};
ghost use Rattle.aig_tests.specs.Stepping.{GivesBack, ReadyToEvaluate, ReadyToStep, StepsOn};

use crate::groups::evaluate_groups;
use crate::ordering::read_ordered;
use crate::stop::unread;
use aig_edges::{Ordered, StepStop};
use aig_forward::{Evaluator, StepEnd};
use em_frames::Device;
use em_io::{Feed, Printer, Shelf, Sink, Slot};
use em_plain::ScanQueue;
use em_pqueue::ExtQueue;
use em_space::{Queue, Rig};

/// No stimulus here has as many lines.
const LINES: u64 = 2000;

/// Which queue carries the messages.
#[derive(Clone, Copy)]
pub(crate) enum By {
    /// One that keeps its items in a list.
    List,
    /// One that keeps a heap over a buffer tree.
    Tree,
}

/// How many lines of a stimulus are evaluated at once.
#[derive(Clone, Copy)]
pub(crate) enum Pace {
    /// One: a step.
    Steps,
    /// One: a step by messages, also of a circuit that fits into memory.
    Messages,
    /// Up to 64: a group. The circuit has no latch.
    Groups,
}

/// Steps until nothing is left of the stimulus. A circuit of more ranks than `limit` goes by messages.
fn step_all<D: Device, Q: Queue, H: Shelf, W: Sink>(
    rig: &mut Rig<'_, D>,
    evaluator: &mut Evaluator<Q>,
    limit: u64,
    feed: &mut Feed,
    shelf: &mut H,
    printer: &mut Printer,
    sink: &mut W,
) -> Result<(), StepStop>
    requires { ReadyToStep Q.Queue (2 ^ 90) (source H.Shelf feed.old shelf.old)
        (seen D.state rig.old) evaluator.old.sweeper }
    ensures { StepsOn Q.Queue (seen D.state rig.old) (seen D.state rig.new)
        evaluator.old.sweeper evaluator.new.sweeper result }
{
    for _ in 0..LINES {
        match evaluator.step_within(rig, feed, shelf, printer, sink, limit) {
            Ok(StepEnd::Printed) => {}
            Ok(StepEnd::End) => return Ok(()),
            Err(stop) => return Err(stop),
        }
    }
    Ok(())
}

/// Makes an evaluator, steps until nothing is left of the stimulus, and ends it. A circuit of more ranks than
/// `limit` goes by messages. All frames of the queue are back.
fn evaluate_steps<D: Device, Q: Queue, H: Shelf, W: Sink>(
    rig: &mut Rig<'_, D>,
    ordered: Ordered,
    queue: Q,
    limit: u64,
    feed: &mut Feed,
    shelf: &mut H,
    printer: &mut Printer,
    sink: &mut W,
) -> Result<(), StepStop>
    requires { ReadyToEvaluate Q.Queue (source H.Shelf feed.old shelf.old)
        (seen D.state rig.old) ordered queue }
    ensures { GivesBack (Q.counts queue) (seen D.state rig.old) (seen D.state rig.new) }
{
    let mut evaluator = Evaluator::new(rig, ordered, queue)?;
    match step_all(rig, &mut evaluator, limit, feed, shelf, printer, sink) {
        Ok(()) => {
            evaluator.end(rig)?;
            Ok(())
        }
        Err(stop) => {
            evaluator.abandon(rig);
            Err(stop)
        }
    }
}

/// Evaluates edges between ranks at this pace until nothing is left of the stimulus. All frames of the
/// queue are back.
fn evaluate<D: Device, Q: Queue, H: Shelf, W: Sink>(
    rig: &mut Rig<'_, D>,
    ordered: Ordered,
    queue: Q,
    pace: Pace,
    feed: &mut Feed,
    shelf: &mut H,
    printer: &mut Printer,
    sink: &mut W,
) -> Result<(), StepStop>
    requires { ReadyToEvaluate Q.Queue (source H.Shelf feed.old shelf.old)
        (seen D.state rig.old) ordered queue }
    ensures { GivesBack (Q.counts queue) (seen D.state rig.old) (seen D.state rig.new) }
{
    match pace {
        Pace::Steps => evaluate_steps(rig, ordered, queue, u64::MAX, feed, shelf, printer, sink),
        Pace::Messages => evaluate_steps(rig, ordered, queue, 0, feed, shelf, printer, sink),
        Pace::Groups => evaluate_groups(rig, ordered, queue, feed, shelf, printer, sink),
    }
}

/// Evaluates by a new queue over a list for the stimulus of a feed.
fn evaluate_by_list<D: Device, H: Shelf, W: Sink>(
    rig: &mut Rig<'_, D>,
    ordered: Ordered,
    pace: Pace,
    feed: &mut Feed,
    shelf: &mut H,
    printer: &mut Printer,
    sink: &mut W,
) -> Result<(), StepStop>
    requires has { HasFrames (seen D.state rig.old) }
    requires ordered { IsOrdered (seen D.state rig.old) ordered }
    requires ready { CanRead (source H.Shelf feed.old shelf.old) }
    ensures leaves { LeavesFrames (seen D.state rig.old) (seen D.state rig.new) }
{
    let queue = ScanQueue::new(rig)?;
    evaluate(rig, ordered, queue, pace, feed, shelf, printer, sink)
}

/// Evaluates by a new queue over a buffer tree for the stimulus of a feed.
fn evaluate_by_tree<D: Device, H: Shelf, W: Sink>(
    rig: &mut Rig<'_, D>,
    ordered: Ordered,
    pace: Pace,
    feed: &mut Feed,
    shelf: &mut H,
    printer: &mut Printer,
    sink: &mut W,
) -> Result<(), StepStop>
    requires has { HasFrames (seen D.state rig.old) }
    requires ordered { IsOrdered (seen D.state rig.old) ordered }
    requires ready { CanRead (source H.Shelf feed.old shelf.old) }
    ensures leaves { LeavesFrames (seen D.state rig.old) (seen D.state rig.new) }
{
    let queue = ExtQueue::new(rig)?;
    evaluate(rig, ordered, queue, pace, feed, shelf, printer, sink)
}

/// Evaluates edges between ranks by a new queue of this kind for the stimulus of a feed.
fn evaluate_by<D: Device, H: Shelf, W: Sink>(
    rig: &mut Rig<'_, D>,
    ordered: Ordered,
    by: By,
    pace: Pace,
    feed: &mut Feed,
    shelf: &mut H,
    printer: &mut Printer,
    sink: &mut W,
) -> Result<(), StepStop>
    requires has { HasFrames (seen D.state rig.old) }
    requires ordered { IsOrdered (seen D.state rig.old) ordered }
    requires ready { CanRead (source H.Shelf feed.old shelf.old) }
    ensures leaves { LeavesFrames (seen D.state rig.old) (seen D.state rig.new) }
{
    match by {
        By::List => evaluate_by_list(rig, ordered, pace, feed, shelf, printer, sink),
        By::Tree => evaluate_by_tree(rig, ordered, pace, feed, shelf, printer, sink),
    }
}

/// Evaluates the circuit in the first slot of a shelf for the stimulus in the second slot of another one, by a
/// queue of this kind.
pub(crate) fn evaluate_texts<D: Device, H: Shelf, W: Sink>(
    rig: &mut Rig<'_, D>,
    circuit: &mut H,
    stimulus: &mut H,
    by: By,
    pace: Pace,
    printer: &mut Printer,
    sink: &mut W,
) -> Result<(), StepStop>
    requires circuit { ((H.stand circuit.old).slot First).ready ≡ true }
    requires stimulus { ((H.stand stimulus.old).slot Second).ready ≡ true }
    requires has { HasFrames (seen D.state rig.old) }
    ensures leaves { LeavesFrames (seen D.state rig.old) (seen D.state rig.new) }
{
    let mut feed = Feed::new(Slot::First);
    match read_ordered(rig, &mut feed, circuit) {
        Ok(ordered) => {
            let mut lines = Feed::new(Slot::Second);
            evaluate_by(rig, ordered, by, pace, &mut lines, stimulus, printer, sink)
        }
        Err(stop) => Err(unread(stop)),
    }
}
