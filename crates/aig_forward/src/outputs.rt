//! The line of a step's columns, which leave the queue in their order, as messages.
ghost use Rattle.std.specs.Prelude.{◌≡◌, ◌≤◌, ◌+◌, ◌^◌, ◌<◌, IfErr, OnOk};
ghost use Rattle.em_space.specs.Queue.{CanServe};
ghost use Rattle.em_space.specs.Rig.{Sound};
ghost use Rattle.em_space.specs.Seen.{seen};
ghost use Rattle.aig_forward.specs.Outputs.{HaltsOutputs, OutputCause, OutputCosts, PrintsOutputs, PrintsPart, PutsBy, message_bit, printing};

use aig_edges::StepStop;
use aig_sweep::put_bit;
use em_frames::Device;
use em_io::{Printer, Sink};
use em_record::Record;
use em_space::{Queue, Rig};

/// Whether a message says 1 in lane 0. A missing one says 0.
fn message_bit(message: Option<Record>) -> bool
    ensures { result ≡ message_bit message }
{
    match message {
        Some(message) => message.c & 1 == 1,
        None => false,
    }
}

/// Pops one message and prints its bit.
fn put_next<D: Device, Q: Queue, W: Sink>(
    rig: &mut Rig<'_, D>,
    queue: &mut Q,
    printer: &mut Printer,
    sink: &mut W,
) -> Result<(), StepStop>
    requires sound { Sound (seen D.state rig.old) }
    requires is { Q.IsQueue queue.old (seen D.state rig.old) }
    requires free { CanServe (seen D.state rig.old).pool }
    requires few { (Q.counts queue.old).n < 2 ^ 100 }
    ensures frames { Q.HasItsFrames queue.new (seen D.state rig.new) }
    ensures queue { OnOk result (Q.IsQueue queue.new (seen D.state rig.new)) }
    ensures puts { PutsBy W.took
        (printing Q.Queue W.Sink queue.old sink.old printer.old (seen D.state rig.old))
        (printing Q.Queue W.Sink queue.new sink.new printer.new (seen D.state rig.new)) result }
{
    let bit = match queue.pop(rig) {
        Ok(message) => message_bit(message),
        Err(fault) => return Err(StepStop::Em(fault)),
    };
    match put_bit(printer, sink, bit) {
        Ok(()) => Ok(()),
        Err(_) => Err(StepStop::Write),
    }
}

/// Pops the messages of a step's columns and prints them, a byte for each, and a newline. A missing
/// message is printed as 0. It sends nothing while the line fits into the printer's buffer.
///
/// `Write` comes only if the sink's count of faults rose, and `Em` if a call of the queue was
/// refused, after which the queue may only be abandoned. At `Em` a front of the line went out or is
/// pending.
pub(crate) fn put_outputs<D: Device, Q: Queue, W: Sink>(
    rig: &mut Rig<'_, D>,
    queue: &mut Q,
    count: u64,
    printer: &mut Printer,
    sink: &mut W,
) -> Result<(), StepStop>
    requires sound { Sound (seen D.state rig.old) }
    requires is { Q.IsQueue queue.old (seen D.state rig.old) }
    requires free { CanServe (seen D.state rig.old).pool }
    requires few { (Q.counts queue.old).n + count < 2 ^ 100 }
    ensures frames { Q.HasItsFrames queue.new (seen D.state rig.new) }
    ensures queue { OnOk result (Q.IsQueue queue.new (seen D.state rig.new)) }
    ensures prints { OnOk result (PrintsOutputs W.took count
        (printing Q.Queue W.Sink queue.old sink.old printer.old (seen D.state rig.old))
        (printing Q.Queue W.Sink queue.new sink.new printer.new (seen D.state rig.new))) }
    ensures part { PrintsPart W.took count
        (printing Q.Queue W.Sink queue.old sink.old printer.old (seen D.state rig.old))
        (printing Q.Queue W.Sink queue.new sink.new printer.new (seen D.state rig.new)) }
    ensures front { HaltsOutputs W.took count
        (printing Q.Queue W.Sink queue.old sink.old printer.old (seen D.state rig.old))
        (printing Q.Queue W.Sink queue.new sink.new printer.new (seen D.state rig.new)) result }
    ensures costs { OutputCosts count
        (printing Q.Queue W.Sink queue.old sink.old printer.old (seen D.state rig.old))
        (printing Q.Queue W.Sink queue.new sink.new printer.new (seen D.state rig.new)) result }
    ensures goes_on { W.faults sink.old ≤ W.faults sink.new }
    ensures cause { IfErr result (OutputCause
        (printing Q.Queue W.Sink queue.old sink.old printer.old (seen D.state rig.old))
        (printing Q.Queue W.Sink queue.new sink.new printer.new (seen D.state rig.new))) }
{
    for _ in 0..count {
        match put_next(rig, queue, printer, sink) {
            Ok(()) => {}
            Err(stop) => return Err(stop),
        }
    }
    match printer.add(sink, b"\n") {
        Ok(()) => Ok(()),
        Err(_) => Err(StepStop::Write),
    }
}
