ghost use Rattle.std.specs.Prelude.{◌≡◌, ◌≤◌, ◌+◌, ◌++◌, [], length, OnOk, decimal, None, Some};
ghost use Rattle.em_record.specs.Count.{HasCause};
ghost use Rattle.em_io.specs.Sink.{SentPart};
ghost use Rattle.em_ends.specs.Outcome.{stats_line, report_text};
ghost use Rattle.em_ends.specs.Report.{message_of, line_of, digits_of, aig_kind_name, base_kind_name, text_kind_name, malform_name, usage_kind_name};

use crate::outcome::{Outcome, Stats};
use crate::status::{Malform, Status, UsageKind};
use aig_defs::AigKind;
use em_io::{Printer, Sink};
use em_lines::TextKind;
use em_record::Failed;

/// The name of a fault of a line.
fn text_kind(kind: TextKind) -> &'static [u8]
    ensures is { result.now ≡ text_kind_name kind }
    ensures short { length result.now ≤ 20 }
{
    match kind {
        TextKind::BadNumber => b"BadNumber",
        TextKind::TooLarge => b"TooLarge",
        TextKind::BadSeparator => b"BadSeparator",
        TextKind::Unknown => b"Unknown",
        TextKind::EmptyLine => b"EmptyLine",
        TextKind::LowAboveHigh => b"LowAboveHigh",
        TextKind::TooLong => b"TooLong",
        TextKind::OutOfOrder => b"OutOfOrder",
    }
}

/// The name of a fault of a circuit or of a stimulus.
fn aig_kind(kind: AigKind) -> &'static [u8]
    ensures is { result.now ≡ aig_kind_name kind }
    ensures short { length result.now ≤ 20 }
{
    match kind {
        AigKind::BadMagic => b"BadMagic",
        AigKind::BadNumber => b"BadNumber",
        AigKind::TooLarge => b"TooLarge",
        AigKind::BadSeparator => b"BadSeparator",
        AigKind::BadCounts => b"BadCounts",
        AigKind::LiteralRange => b"LiteralRange",
        AigKind::OddDefinition => b"OddDefinition",
        AigKind::BadDelta => b"BadDelta",
        AigKind::Short => b"Short",
        AigKind::BadSymbol => b"BadSymbol",
        AigKind::Extra => b"Extra",
        AigKind::Extension => b"Extension",
        AigKind::Twice => b"Twice",
        AigKind::Undefined => b"Undefined",
        AigKind::Cyclic => b"Cyclic",
        AigKind::StimLength => b"StimLength",
        AigKind::StimChar => b"StimChar",
        AigKind::TooLong => b"TooLong",
        AigKind::Uninit => b"Uninit",
        AigKind::Justice => b"Justice",
        AigKind::Fairness => b"Fairness",
        AigKind::BadReset => b"BadReset",
        AigKind::Latched => b"Latched",
    }
}

/// The name of a fault of a line of the base.
fn base_kind(kind: TextKind) -> &'static [u8]
    ensures is { result.now ≡ base_kind_name kind }
    ensures short { length result.now ≤ 20 }
{
    match kind {
        TextKind::BadNumber => b"base BadNumber",
        TextKind::TooLarge => b"base TooLarge",
        TextKind::BadSeparator => b"base BadSeparator",
        TextKind::Unknown => b"base Unknown",
        TextKind::EmptyLine => b"base EmptyLine",
        TextKind::LowAboveHigh => b"base LowAboveHigh",
        TextKind::TooLong => b"base TooLong",
        TextKind::OutOfOrder => b"base OutOfOrder",
    }
}

/// The name of what is wrong with an input.
fn malform(kind: Malform) -> &'static [u8]
    ensures is { result.now ≡ malform_name kind }
    ensures short { length result.now ≤ 20 }
{
    match kind {
        Malform::Text(kind) => text_kind(kind),
        Malform::Base(kind) => base_kind(kind),
        Malform::Aig(kind) => aig_kind(kind),
    }
}

/// The name of a usage fault.
fn usage_kind(kind: UsageKind) -> &'static [u8]
    ensures is { result.now ≡ usage_kind_name kind }
    ensures short { length result.now ≤ 20 }
{
    match kind {
        UsageKind::NoCommand => b"NoCommand",
        UsageKind::UnknownCommand => b"UnknownCommand",
        UsageKind::UnknownOption => b"UnknownOption",
        UsageKind::RepeatedOption => b"RepeatedOption",
        UsageKind::BadValue => b"BadValue",
        UsageKind::MissingOperand => b"MissingOperand",
        UsageKind::ExtraOperand => b"ExtraOperand",
        UsageKind::BlockRange => b"BlockRange",
        UsageKind::FramesRange => b"FramesRange",
        UsageKind::FramesMultiple => b"FramesMultiple",
        UsageKind::BlocksRange => b"BlocksRange",
        UsageKind::UnknownKind => b"UnknownKind",
        UsageKind::CountRange => b"CountRange",
    }
}

/// What stands on the line of a status: some words, a name, more words, a number, and a last word.
#[derive(Clone, Copy, Drop)]
pub struct Message {
    start: &'static [u8],
    name: &'static [u8],
    link: &'static [u8],
    number: Option<u64>,
    last: &'static [u8],
}

/// A message of some words alone.
fn plain(start: &'static [u8]) -> Message
    ensures start { result.start.now ≡ start.now }
    ensures name { result.name.now ≡ [] }
    ensures link { result.link.now ≡ [] }
    ensures number { result.number ≡ None }
    ensures last { result.last.now ≡ [] }
{
    Message {
        start,
        name: b"",
        link: b"",
        number: None,
        last: b"",
    }
}

/// The message of a status that has one.
fn message_for(status: &Status) -> Message
    requires { status.now ≡ Status.Done → ⊥ }
    ensures is { line_of result.start.now result.name.now result.link.now result.number
        result.last.now ≡ message_of status.now }
    ensures start { length result.start.now ≤ 100 }
    ensures name { length result.name.now ≤ 100 }
    ensures link { length result.link.now ≤ 100 }
    ensures last { length result.last.now ≤ 100 }
{
    match *status {
        Status::Done => unreachable!(),
        Status::Usage { kind, word } => Message {
            start: b"emtool: usage: ",
            name: usage_kind(kind),
            link: b" at word ",
            number: Some(word),
            last: b"",
        },
        Status::Malformed { kind, place } => Message {
            start: b"emtool: malformed: ",
            name: malform(kind),
            link: b" at ",
            number: Some(place),
            last: b"",
        },
        Status::ReadFault => plain(b"emtool: an input could not be read"),
        Status::WriteFault => plain(b"emtool: the output could not be written"),
        Status::DeviceFault => plain(b"emtool: the scratch device failed"),
        Status::Full { used } => Message {
            start: b"emtool: the scratch device is full at ",
            name: b"",
            link: b"",
            number: Some(used),
            last: b" blocks",
        },
        Status::NoMemory => plain(b"emtool: no memory for the frames"),
        Status::Damaged { block } => Message {
            start: b"emtool: scratch block ",
            name: b"",
            link: b"",
            number: Some(block),
            last: b" is damaged",
        },
    }
}

/// Adds bytes that fit into the printer's line.
pub fn put<E: Sink>(printer: &mut Printer, err: &mut E, bytes: &[u8])
    requires { length printer.old + length bytes.now ≤ 4096 }
    ensures quiet { err.new ≡ err.old }
    ensures pending { printer.new ≡ printer.old ++ bytes.now }
{
    let _fits = printer.add(err, bytes);
}

/// Adds a number that fits, in decimal.
pub fn put_number<E: Sink>(printer: &mut Printer, err: &mut E, number: u64)
    requires { length printer.old ≤ 1000 }
    ensures quiet { err.new ≡ err.old }
    ensures pending { printer.new ≡ printer.old ++ decimal number }
    ensures length { length printer.new ≤ length printer.old + 20 }
{
    let _fits = printer.add_number(err, number);
}

/// Adds a number, if there is one.
fn put_digits<E: Sink>(printer: &mut Printer, err: &mut E, number: Option<u64>)
    requires { length printer.old ≤ 1000 }
    ensures quiet { err.new ≡ err.old }
    ensures pending { printer.new ≡ printer.old ++ digits_of number }
    ensures length { length printer.new ≤ length printer.old + 20 }
{
    if let Some(n) = number {
        put_number(printer, err, n);
    }
}

/// Prints the line of a message.
fn print_line<E: Sink>(err: &mut E, message: &Message) -> Result<(), Failed>
    requires start { length message.now.start.now ≤ 100 }
    requires name { length message.now.name.now ≤ 100 }
    requires link { length message.now.link.now ≤ 100 }
    requires last { length message.now.last.now ≤ 100 }
    ensures all { OnOk result (E.state err.new ≡ E.took (E.state err.old)
        (line_of message.now.start.now message.now.name.now message.now.link.now message.now.number
        message.now.last.now)) }
    ensures part { SentPart E.took (E.state err.old)
        (line_of message.now.start.now message.now.name.now message.now.link.now message.now.number
        message.now.last.now) (E.state err.new) }
    ensures cause { HasCause (E.faults err.old) (E.faults err.new) result }
{
    let mut printer = Printer::new();
    put(&mut printer, err, message.start);
    put(&mut printer, err, message.name);
    put(&mut printer, err, message.link);
    put_digits(&mut printer, err, message.number);
    put(&mut printer, err, message.last);
    printer.end_line(err)
}

/// Prints the message of a status, where it has one.
fn report_status<E: Sink>(err: &mut E, status: &Status) -> Result<(), Failed>
    ensures all { OnOk result (E.state err.new ≡ E.took (E.state err.old) (message_of status.now)) }
    ensures part { SentPart E.took (E.state err.old) (message_of status.now) (E.state err.new) }
    ensures cause { HasCause (E.faults err.old) (E.faults err.new) result }
{
    if let Status::Done = status {
        return Ok(());
    }
    print_line(err, &message_for(status))
}

/// Prints the line of the statistics.
fn print_stats<E: Sink>(err: &mut E, stats: Stats) -> Result<(), Failed>
    ensures all { OnOk result
        (E.state err.new ≡ E.took (E.state err.old) (stats_line (Some stats))) }
    ensures part { SentPart E.took (E.state err.old) (stats_line (Some stats)) (E.state err.new) }
    ensures cause { HasCause (E.faults err.old) (E.faults err.new) result }
{
    let mut printer = Printer::new();
    put(&mut printer, err, b"moves ");
    put_number(&mut printer, err, stats.moves);
    put(&mut printer, err, b" peak ");
    put_number(&mut printer, err, u64::from(stats.peak));
    printer.end_line(err)
}

/// Prints the line of the statistics, where there are any.
fn report_stats<E: Sink>(err: &mut E, stats: Option<Stats>) -> Result<(), Failed>
    ensures all { OnOk result (E.state err.new ≡ E.took (E.state err.old) (stats_line stats)) }
    ensures part { SentPart E.took (E.state err.old) (stats_line stats) (E.state err.new) }
    ensures cause { HasCause (E.faults err.old) (E.faults err.new) result }
{
    match stats {
        Some(stats) => print_stats(err, stats),
        None => Ok(()),
    }
}

/// Prints the message of how a run ended, and then the line of its statistics, where it has them.
pub fn report<E: Sink>(err: &mut E, outcome: &Outcome) -> Result<(), Failed>
    ensures all { OnOk result (E.state err.new
        ≡ E.took (E.state err.old) (report_text outcome.now.status outcome.now.stats)) }
    ensures part { SentPart E.took (E.state err.old)
        (report_text outcome.now.status outcome.now.stats) (E.state err.new) }
    ensures cause { HasCause (E.faults err.old) (E.faults err.new) result }
{
    report_status(err, &outcome.status)?;
    report_stats(err, outcome.stats)
}
