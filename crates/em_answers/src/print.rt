//! Answers that are printed, one line for each:
//!
//!     map, stab   records -> lines -> a printer's buffer -> the output, in pieces of 4096 bytes, at a sync and at the end
//!     dump        the same of the records of its pairs, at the end
//!     queue       a pop -> its line -> a printer's buffer -> the output, before more of the input is read
//!
//! Kept here: at each exit of `print_answers` what was printed before was sent, unless the output failed (at a
//! stop of the rig the contract says a front of it). The lines of pops are sent in `serving`.

ghost use Rattle.std.specs.Prelude.{◌≡◌, ◌+◌, ◌<◌, ◌≤◌, ◌++◌, ◌∷◌, [], None, decimal, option_to_list, IfNone, IfOk, IsTrue, OnOk};
ghost use Rattle.em_record.specs.Count.{HasCause};
ghost use Rattle.em_io.specs.Sink.{Sent, SentPart};
ghost use Rattle.em_space.specs.Rig.{Sound};
ghost use Rattle.em_space.specs.Seen.{seen};
ghost use Rattle.em_chain.specs.Chain.{IsChain, chain_items};
ghost use Rattle.em_chain.specs.Reader.{owed, reader_items};
ghost use Rattle.em_lines.specs.BaseLine.{pair_line, pairs_text};
ghost use Rattle.em_answers.specs.Answer.{answer_line, further_words, map_text, numbers_line, popped_line, stab_text};
ghost use Rattle.em_answers.specs.Print.{IsBehind, KeepsBlocks, Looks, PrintStops, PrintsInto, ReadsOn, ReadsWithin, answer_in, answers_in, groups_from, intervals_at, pairs_in, popped_in, records_text};
ghost use Rattle.em_ends.specs.Stop.{Prints};

use em_chain::{Chain, Reader};
use em_ends::{Stop, send_rest};
use em_frames::Device;
use em_io::{Printer, Sink};
use em_lines::FileKind;
use em_record::{Failed, Record};
use em_space::Rig;

/// What a part of a command file is answered by: the records of the answers, and how many stabs there were.
#[derive(Drop)]
pub struct Answers {
    pub records: Chain,
    pub stabs: u64,
}

/// Adds the line of an answer of a map.
fn add_answer<W: Sink>(
    printer: &mut Printer,
    out: &mut W,
    answer: Option<u64>,
) -> Result<(), Failed>
    ensures sent { OnOk result (Sent W.took (W.state out.old)
        (printer.old ++ answer_line answer) (W.state out.new) printer.new) }
    ensures part { SentPart W.took (W.state out.old)
        (printer.old ++ answer_line answer) (W.state out.new) }
    ensures cause { HasCause (W.faults out.old) (W.faults out.new) result }
{
    match answer {
        Some(value) => {
            printer.add_number(out, value)?;
            printer.add(out, b"\n")
        }
        None => printer.add(out, b"-\n"),
    }
}

/// The answer to a get that a record stands for.
fn answer_in(item: Record) -> Option<u64>
    ensures { result ≡ answer_in item }
{
    if item.b == 0 { None } else { Some(item.c) }
}

/// Prints one line for each record that a reader has left.
fn print_map<D: Device, W: Sink>(
    rig: &mut Rig<'_, D>,
    reader: &mut Reader,
    printer: &mut Printer,
    out: &mut W,
) -> Result<(), Stop>
    requires looks { Looks (seen D.state rig.old) reader.old }
    ensures reads { ReadsOn (seen D.state rig.old) (seen D.state rig.new) reader.new }
    ensures prints { IsTrue (seen D.state rig.old).device.told → PrintsInto W.took (printer.old
        ++ map_text (answers_in (reader_items (seen D.state rig.old) reader.old)))
        (W.state out.old) (W.state out.new) printer.new result }
    ensures stops { PrintStops W.Sink out.old out.new
        (seen D.state rig.old) (seen D.state rig.new) result }
    ensures moves { (seen D.state rig.new).moves
        ≤ (seen D.state rig.old).moves + owed reader.old }
{
    while let Some(item) = reader.next(rig)? {
        add_answer(printer, out, answer_in(item))?;
    }
    Ok(())
}

/// Prints the lines of this many stabs, by the pairs of a reader.
fn print_stabs<D: Device, W: Sink>(
    rig: &mut Rig<'_, D>,
    reader: &mut Reader,
    stabs: u64,
    printer: &mut Printer,
    out: &mut W,
) -> Result<(), Stop>
    requires looks { Looks (seen D.state rig.old) reader.old }
    ensures reads { ReadsOn (seen D.state rig.old) (seen D.state rig.new) reader.new }
    ensures prints { IsTrue (seen D.state rig.old).device.told → PrintsInto W.took (printer.old
        ++ stab_text (groups_from 0 stabs (reader_items (seen D.state rig.old) reader.old)))
        (W.state out.old) (W.state out.new) printer.new result }
    ensures stops { PrintStops W.Sink out.old out.new
        (seen D.state rig.old) (seen D.state rig.new) result }
    ensures moves { (seen D.state rig.new).moves
        ≤ (seen D.state rig.old).moves + owed reader.old }
{
    let mut next = reader.next(rig)?;
    for stab in 0..stabs {
        next = print_stab(rig, reader, stab, next, printer, out)?;
    }
    Ok(())
}

/// Prints the line of a stab by the next pair of a reader and those after it. Answers the first
/// pair of another stab.
fn print_stab<D: Device, W: Sink>(
    rig: &mut Rig<'_, D>,
    reader: &mut Reader,
    stab: u64,
    next: Option<Record>,
    printer: &mut Printer,
    out: &mut W,
) -> Result<Option<Record>, Stop>
    requires looks { Looks (seen D.state rig.old) reader.old }
    requires none { IfNone next (reader.old.count ≡ 0) }
    ensures reads { ReadsOn (seen D.state rig.old) (seen D.state rig.new) reader.new }
    ensures behind { IfOk result (λ other. IsBehind stab
        (seen D.state rig.old) (seen D.state rig.new) next reader.old other reader.new) }
    ensures prints { IsTrue (seen D.state rig.old).device.told → PrintsInto W.took
        (printer.old ++ numbers_line (intervals_at stab
        (option_to_list next ++ reader_items (seen D.state rig.old) reader.old)))
        (W.state out.old) (W.state out.new) printer.new result }
    ensures stops { PrintStops W.Sink out.old out.new
        (seen D.state rig.old) (seen D.state rig.new) result }
    ensures moves { ReadsWithin (seen D.state rig.old) (seen D.state rig.new)
        reader.old reader.new result }
{
    match next {
        Some(pair) if pair.a == stab => {
            printer.add_number(out, pair.b)?;
            let behind = add_further(rig, reader, stab, printer, out)?;
            printer.add(out, b"\n")?;
            Ok(behind)
        }
        _ => {
            printer.add(out, b"-\n")?;
            Ok(next)
        }
    }
}

/// Adds the intervals of the next pairs of a reader that are of this stab, each after a space.
/// Answers the first pair of another stab.
fn add_further<D: Device, W: Sink>(
    rig: &mut Rig<'_, D>,
    reader: &mut Reader,
    stab: u64,
    printer: &mut Printer,
    out: &mut W,
) -> Result<Option<Record>, Stop>
    requires looks { Looks (seen D.state rig.old) reader.old }
    ensures reads { ReadsOn (seen D.state rig.old) (seen D.state rig.new) reader.new }
    ensures behind { IfOk result (λ other. IsBehind stab
        (seen D.state rig.old) (seen D.state rig.new) None reader.old other reader.new) }
    ensures prints { IsTrue (seen D.state rig.old).device.told → PrintsInto W.took
        (printer.old ++ further_words (intervals_at stab
        (reader_items (seen D.state rig.old) reader.old)))
        (W.state out.old) (W.state out.new) printer.new result }
    ensures stops { PrintStops W.Sink out.old out.new
        (seen D.state rig.old) (seen D.state rig.new) result }
    ensures moves { ReadsWithin (seen D.state rig.old) (seen D.state rig.new)
        reader.old reader.new result }
{
    loop {
        match reader.next(rig)? {
            Some(pair) if pair.a == stab => {
                printer.add(out, b" ")?;
                printer.add_number(out, pair.b)?;
            }
            other => return Ok(other),
        }
    }
}

/// Prints one line for each record of a pair that a reader has left: its key and its value.
fn print_pairs<D: Device, W: Sink>(
    rig: &mut Rig<'_, D>,
    reader: &mut Reader,
    printer: &mut Printer,
    out: &mut W,
) -> Result<(), Stop>
    requires looks { Looks (seen D.state rig.old) reader.old }
    ensures reads { ReadsOn (seen D.state rig.old) (seen D.state rig.new) reader.new }
    ensures prints { IsTrue (seen D.state rig.old).device.told → PrintsInto W.took (printer.old
        ++ pairs_text (pairs_in (reader_items (seen D.state rig.old) reader.old)))
        (W.state out.old) (W.state out.new) printer.new result }
    ensures stops { PrintStops W.Sink out.old out.new
        (seen D.state rig.old) (seen D.state rig.new) result }
    ensures moves { (seen D.state rig.new).moves
        ≤ (seen D.state rig.old).moves + owed reader.old }
{
    while let Some(item) = reader.next(rig)? {
        add_pair_line(printer, out, item.a, item.d)?;
    }
    Ok(())
}

/// Prints the lines of a file that isn't a queue's, by the records of its answers or pairs that a reader has left.
fn print_records<D: Device, W: Sink>(
    kind: FileKind,
    rig: &mut Rig<'_, D>,
    reader: &mut Reader,
    stabs: u64,
    printer: &mut Printer,
    out: &mut W,
) -> Result<(), Stop>
    requires looks { Looks (seen D.state rig.old) reader.old }
    requires none { printer.old ≡ [] }
    ensures reads { ReadsOn (seen D.state rig.old) (seen D.state rig.new) reader.new }
    ensures prints { IsTrue (seen D.state rig.old).device.told → PrintsInto W.took
        (records_text kind stabs (reader_items (seen D.state rig.old) reader.old))
        (W.state out.old) (W.state out.new) printer.new result }
    ensures stops { PrintStops W.Sink out.old out.new
        (seen D.state rig.old) (seen D.state rig.new) result }
    ensures moves { (seen D.state rig.new).moves
        ≤ (seen D.state rig.old).moves + owed reader.old }
{
    match kind {
        FileKind::Map => print_map(rig, reader, printer, out),
        FileKind::Queue => Ok(()),
        FileKind::Stab => print_stabs(rig, reader, stabs, printer, out),
        FileKind::Dump => print_pairs(rig, reader, printer, out),
    }
}

/// Prints the answers of a map or stab file, or of a part of it, or the pairs of a dump. All lines leave here, in pieces; what is due before a
/// stop of the rig is sent then.
pub fn print_answers<D: Device, W: Sink>(
    kind: FileKind,
    rig: &mut Rig<'_, D>,
    answers: &Answers,
    out: &mut W,
) -> Result<(), Stop>
    requires sound { Sound (seen D.state rig.old) }
    requires is { IsChain (seen D.state rig.old) answers.now.records }
    requires free { 1 < (seen D.state rig.old).pool.free }
    ensures keeps { KeepsBlocks (seen D.state rig.old) (seen D.state rig.new) }
    ensures prints { IsTrue (seen D.state rig.old).device.told → Prints W.took
        (records_text kind answers.now.stabs
        (chain_items (seen D.state rig.old) answers.now.records))
        (W.state out.old) (W.state out.new) result }
    ensures stops { PrintStops W.Sink out.old out.new
        (seen D.state rig.old) (seen D.state rig.new) result }
    ensures moves { (seen D.state rig.new).moves
        ≤ (seen D.state rig.old).moves + answers.now.records.blocks }
{
    let mut printer = Printer::new();
    let mut reader = Reader::over(rig, &answers.records);
    let done = print_records(kind, rig, &mut reader, answers.stabs, &mut printer, out);
    reader.abandon(rig);
    send_rest(done, &mut printer, out)
}

/// Adds a key and a value to the line, with a space between.
pub fn add_pair<W: Sink>(
    printer: &mut Printer,
    out: &mut W,
    key: u64,
    value: u64,
) -> Result<(), Failed>
    ensures sent { OnOk result (Sent W.took (W.state out.old)
        (printer.old ++ (decimal key ++ 32 ∷ decimal value)) (W.state out.new) printer.new) }
    ensures part { SentPart W.took (W.state out.old)
        (printer.old ++ (decimal key ++ 32 ∷ decimal value)) (W.state out.new) }
    ensures cause { HasCause (W.faults out.old) (W.faults out.new) result }
{
    printer.add_number(out, key)?;
    printer.add(out, b" ")?;
    printer.add_number(out, value)
}

/// Adds the line of a pair.
fn add_pair_line<W: Sink>(
    printer: &mut Printer,
    out: &mut W,
    key: u64,
    value: u64,
) -> Result<(), Failed>
    ensures sent { OnOk result (Sent W.took (W.state out.old)
        (printer.old ++ pair_line (key, value)) (W.state out.new) printer.new) }
    ensures part { SentPart W.took (W.state out.old)
        (printer.old ++ pair_line (key, value)) (W.state out.new) }
    ensures cause { HasCause (W.faults out.old) (W.faults out.new) result }
{
    add_pair(printer, out, key, value)?;
    printer.add(out, b"\n")
}

/// Adds the line of an answer of a queue.
pub fn add_popped<W: Sink>(
    printer: &mut Printer,
    out: &mut W,
    item: Option<Record>,
) -> Result<(), Failed>
    ensures sent { OnOk result (Sent W.took (W.state out.old)
        (printer.old ++ popped_line (popped_in item)) (W.state out.new) printer.new) }
    ensures part { SentPart W.took (W.state out.old)
        (printer.old ++ popped_line (popped_in item)) (W.state out.new) }
    ensures cause { HasCause (W.faults out.old) (W.faults out.new) result }
{
    match item {
        Some(item) => add_pair_line(printer, out, item.a, item.c),
        None => printer.add(out, b"-\n"),
    }
}
