// What a program says of a failure.
ghost use Rattle.std.specs.Prelude.{◌≡◌};
ghost use Rattle.std.specs.Fmt.{WritesOnOk};
ghost use Rattle.em_tool.specs.Messages.{fault_text, malform_text, shape_words, stop_text, text_words};

use em_ends::{Malform, Stop};
use em_lines::TextKind;
use em_record::ShapeFault;
use em_space::EmFault;
use std::fmt;

/// Which of the two numbers is refused, and its range.
pub fn shape_words(fault: ShapeFault) -> &'static str
    ensures { result.now ≡ shape_words fault }
{
    match fault {
        ShapeFault::BlockRange => "B must be from 128 to 65536",
        ShapeFault::FramesRange => "M must be from 64 to 1024, and at most half of B",
        ShapeFault::FramesMultiple => "M must be a multiple of 8",
    }
}

/// What is wrong with a line.
fn text_words(kind: TextKind) -> &'static str
    ensures { result.now ≡ text_words kind }
{
    match kind {
        TextKind::BadNumber => "not a number",
        TextKind::TooLarge => "a number above 2^64 - 1",
        TextKind::BadSeparator => "a number is missing",
        TextKind::Unknown => "an unknown word",
        TextKind::EmptyLine => "an empty line",
        TextKind::LowAboveHigh => "the low end is above the high end",
        TextKind::TooLong => "too many lines",
        TextKind::OutOfOrder => "the key isn't above the one before",
    }
}

/// Writes the fault of an input and its place. `Err` is the writer's.
fn write_malform<W: fmt::Write>(f: &mut fmt::Formatter<W>, kind: Malform, place: u64) -> fmt::Result
    ensures { WritesOnOk W.write_str_gives f.old result (malform_text kind place) f.new }
{
    match kind {
        Malform::Text(kind) => {
            let words = text_words(kind);
            write!(f, "line {place}: {words}")
        }
        Malform::Base(kind) => {
            let words = text_words(kind);
            write!(f, "base line {place}: {words}")
        }
        Malform::Aig(_) => write!(f, "the circuit is faulty at {place}"),
    }
}

/// Writes why the rig gave up. `Err` is the writer's.
fn write_fault<W: fmt::Write>(f: &mut fmt::Formatter<W>, fault: EmFault) -> fmt::Result
    ensures { WritesOnOk W.write_str_gives f.old result (fault_text fault) f.new }
{
    match fault {
        EmFault::DeviceFault => f.write_str("the scratch device failed"),
        EmFault::Full { used } => write!(f, "the scratch device is full at {used} blocks"),
        EmFault::Damaged { block } => write!(f, "scratch block {block} is damaged"),
    }
}

/// Writes why a run stopped. `Err` is the writer's.
pub fn write_stop<W: fmt::Write>(f: &mut fmt::Formatter<W>, stop: Stop) -> fmt::Result
    ensures { WritesOnOk W.write_str_gives f.old result (stop_text stop) f.new }
{
    match stop {
        Stop::Fault { kind, place } => write_malform(f, kind, place),
        Stop::Read => f.write_str("a file could not be read"),
        Stop::Write => f.write_str("the output could not be written"),
        Stop::Em(fault) => write_fault(f, fault),
    }
}
