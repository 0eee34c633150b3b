//! The words of a group's steps leave the queue in their order, and are printed as lines.

ghost use Rattle.std.specs.Prelude.{◌≡◌, ◌<◌, ◌≤◌, ◌+◌, ◌-◌, ◌*◌, ◌^◌, ◌++◌, take, OnOk};
ghost use Rattle.em_io.specs.Sink.{Sent, SentPart};
ghost use Rattle.em_record.specs.Count.{HasCause};
ghost use Rattle.em_space.specs.Seen.{seen};
ghost use Rattle.aig_sweep.specs.QueueState.{queue_state};
ghost use Rattle.aig_words.specs.Lines.{tiles};
ghost use Rattle.aig_wide.specs.Calls.{CanCall, UnlessRefused};
ghost use Rattle.aig_wide.specs.Puts.{PutsBy, line_text, lines_text, printed, word_bytes, words_bytes};
ghost use Rattle.aig_wide.specs.Gathers.{words_left};
ghost use Rattle.aig_wide.specs.Turns.{words_in};

use crate::gathering::{size_of, tiles_of};
use crate::turning::pop_word;
use aig_edges::StepStop;
use aig_sweep::put_bit;
use em_frames::Device;
use em_io::{Printer, Sink};
use em_record::Failed;
use em_space::{Queue, Rig};

/// Prints the first `size` bits of a word.
fn put_bits<W: Sink>(
    printer: &mut Printer,
    sink: &mut W,
    word: u64,
    size: u64,
) -> Result<(), Failed>
    ensures sent { OnOk result (Sent W.took (W.state sink.old)
        (printer.old ++ word_bytes size word) (W.state sink.new) printer.new) }
    ensures part { SentPart W.took (W.state sink.old) (printer.old ++ word_bytes size word)
        (W.state sink.new) }
    ensures cause { HasCause (W.faults sink.old) (W.faults sink.new) result }
{
    let mut rest = word;
    for _ in 0..size {
        put_bit(printer, sink, rest % 2 == 1)?;
        rest /= 2;
    }
    Ok(())
}

/// Takes a word out, and prints its first `size` bits.
fn put_word<D: Device, Q: Queue, W: Sink>(
    rig: &mut Rig<'_, D>,
    queue: &mut Q,
    size: u64,
    printer: &mut Printer,
    sink: &mut W,
) -> Result<(), StepStop>
    requires is { Q.IsQueue queue.old (seen D.state rig.old) }
    requires can { CanCall 1 0 (queue_state Q.Queue queue.old (seen D.state rig.old)) }
    requires some { 0 < (Q.counts queue.old).len }
    requires most { size ≤ 64 }
    ensures frames { Q.HasItsFrames queue.new (seen D.state rig.new) }
    ensures queue { UnlessRefused result (Q.IsQueue queue.new (seen D.state rig.new)) }
    ensures puts { PutsBy W.took 1 (words_bytes size
        (words_in (take 1 (Q.items queue.old (seen D.state rig.old)))))
        (printed W.Sink (queue_state Q.Queue queue.old (seen D.state rig.old)) sink.old printer.old)
        (printed W.Sink (queue_state Q.Queue queue.new (seen D.state rig.new)) sink.new printer.new)
        result }
{
    let word = pop_word(rig, queue)?;
    match put_bits(printer, sink, word, size) {
        Ok(()) => Ok(()),
        Err(_) => Err(StepStop::Write),
    }
}

/// Prints the line of a step: takes its words out, and prints their bits and a newline.
fn put_line<D: Device, Q: Queue, W: Sink>(
    rig: &mut Rig<'_, D>,
    queue: &mut Q,
    columns: u64,
    printer: &mut Printer,
    sink: &mut W,
) -> Result<(), StepStop>
    requires is { Q.IsQueue queue.old (seen D.state rig.old) }
    requires can { CanCall (tiles columns) 0
        (queue_state Q.Queue queue.old (seen D.state rig.old)) }
    requires few { columns ≤ 2 ^ 42 }
    requires enough { tiles columns ≤ (Q.counts queue.old).len }
    ensures frames { Q.HasItsFrames queue.new (seen D.state rig.new) }
    ensures queue { UnlessRefused result (Q.IsQueue queue.new (seen D.state rig.new)) }
    ensures puts { PutsBy W.took (tiles columns)
        (line_text columns (Q.items queue.old (seen D.state rig.old)))
        (printed W.Sink (queue_state Q.Queue queue.old (seen D.state rig.old)) sink.old printer.old)
        (printed W.Sink (queue_state Q.Queue queue.new (seen D.state rig.new)) sink.new printer.new)
        result }
{
    let count = tiles_of(columns);
    for place in 0..count {
        let size = size_of(columns, place);
        put_word(rig, queue, size, printer, sink)?;
    }
    match printer.add(sink, b"\n") {
        Ok(()) => Ok(()),
        Err(_) => Err(StepStop::Write),
    }
}

/// Prints the lines of the first steps.
pub(crate) fn put_lines<D: Device, Q: Queue, W: Sink>(
    rig: &mut Rig<'_, D>,
    queue: &mut Q,
    columns: u64,
    lines: u64,
    printer: &mut Printer,
    sink: &mut W,
) -> Result<(), StepStop>
    requires is { Q.IsQueue queue.old (seen D.state rig.old) }
    requires can { CanCall (Q.counts queue.old).len 0
        (queue_state Q.Queue queue.old (seen D.state rig.old)) }
    requires few { columns ≤ 2 ^ 42 }
    requires len { (Q.counts queue.old).len ≡ words_left (tiles columns) 0 lines }
    ensures frames { Q.HasItsFrames queue.new (seen D.state rig.new) }
    ensures queue { UnlessRefused result (Q.IsQueue queue.new (seen D.state rig.new)) }
    ensures puts { PutsBy W.took (Q.counts queue.old).len
        (lines_text columns lines (Q.items queue.old (seen D.state rig.old)))
        (printed W.Sink (queue_state Q.Queue queue.old (seen D.state rig.old)) sink.old printer.old)
        (printed W.Sink (queue_state Q.Queue queue.new (seen D.state rig.new)) sink.new printer.new)
        result }
{
    for _ in 0..lines {
        put_line(rig, queue, columns, printer, sink)?;
    }
    Ok(())
}
