//! A circuit without latches, evaluated in groups of lines until nothing is left of the stimulus.
ghost use Rattle.std.specs.Prelude.{◌≡◌, ◌^◌};
ghost use Rattle.em_space.specs.Seen.{seen};
ghost use Rattle.aig_text.specs.Source.{source};
ghost use Rattle.aig_tests.specs.Stepping.{GivesBack, ReadyToEvaluate, ReadyToStep, StepsOn};

use aig_edges::{Ordered, StepStop};
use aig_text::AigKind;
use aig_wide::{GroupEnd, WideEvaluator};
use em_frames::Device;
use em_io::{Feed, Printer, Shelf, Sink};
use em_space::{Queue, Rig};

/// No stimulus here fills as many groups.
const GROUPS: u64 = 4;

/// Evaluates groups until nothing is left of the stimulus.
fn group_all<D: Device, Q: Queue, H: Shelf, W: Sink>(
    rig: &mut Rig<'_, D>,
    evaluator: &mut WideEvaluator<Q>,
    feed: &mut Feed,
    shelf: &mut H,
    printer: &mut Printer,
    sink: &mut W,
) -> Result<(), StepStop>
    requires ready { ReadyToStep Q.Queue (2 ^ 90) (source H.Shelf feed.old shelf.old)
        (seen D.state rig.old) evaluator.old.sweeper }
    requires none { evaluator.old.sweeper.header.latches ≡ 0 }
    ensures { StepsOn Q.Queue (seen D.state rig.old) (seen D.state rig.new)
        evaluator.old.sweeper evaluator.new.sweeper result }
{
    for _ in 0..GROUPS {
        match evaluator.group(rig, feed, shelf, printer, sink) {
            Ok(GroupEnd::Printed(_)) => {}
            Ok(GroupEnd::End) => return Ok(()),
            Err(stop) => return Err(stop),
        }
    }
    Ok(())
}

/// Makes an evaluator, evaluates groups until nothing is left of the stimulus, and ends it. A circuit with
/// latches is refused. All frames of the queue are back.
pub(crate) fn evaluate_groups<D: Device, Q: Queue, H: Shelf, W: Sink>(
    rig: &mut Rig<'_, D>,
    ordered: Ordered,
    queue: Q,
    feed: &mut Feed,
    shelf: &mut H,
    printer: &mut Printer,
    sink: &mut W,
) -> Result<(), StepStop>
    requires { ReadyToEvaluate Q.Queue (source H.Shelf feed.old shelf.old)
        (seen D.state rig.old) ordered queue }
    ensures { GivesBack (Q.counts queue) (seen D.state rig.old) (seen D.state rig.new) }
{
    if ordered.header.latches != 0 {
        queue.abandon(rig);
        return Err(StepStop::Fault {
            kind: AigKind::Latched,
            place: 0,
        });
    }
    let mut evaluator = WideEvaluator::new(rig, ordered, queue)?;
    match group_all(rig, &mut evaluator, feed, shelf, printer, sink) {
        Ok(()) => {
            evaluator.end(rig)?;
            Ok(())
        }
        Err(stop) => {
            evaluator.abandon(rig);
            Err(stop)
        }
    }
}
