//! What an evaluation prints: its lines and how it ended.
ghost use Rattle.std.specs.Prelude.{◌≡◌, true};
ghost use Rattle.em_io.specs.declared.shelf.Slot.TheVariants.{First, Second};
ghost use Rattle.em_space.specs.Seen.{seen};
ghost use Rattle.aig_tests.specs.Frames.{HasFrames, LeavesFrames};

use crate::circuit::{BLOCKS, PIECE, shelf_of};
use crate::evaluation::{By, Pace, evaluate_texts};
use crate::stop::print_stop;
use aig_edges::StepStop;
use em_devices::{ended, opened};
use em_frames::{Device, MemDevice};
use em_gen::Tally;
use em_io::{MemSink, Printer, Shelf, Slot};
use em_space::Rig;
use std::test::Fail;

/// Prints which queue an evaluation has, and its pace.
pub(crate) fn print_title(rt: &HostRuntime, title: &str, by: By, pace: Pace) -> Result<(), Fail> {
    match by {
        By::List => print!(rt; "{title}, by a list")?,
        By::Tree => print!(rt; "{title}, by a tree")?,
    }
    match pace {
        Pace::Steps => println!(rt; "")?,
        Pace::Messages => println!(rt; ", by messages alone")?,
        Pace::Groups => println!(rt; ", in groups")?,
    }
    Ok(())
}

/// Prints how an evaluation ended.
pub(crate) fn print_ending(rt: &HostRuntime, ending: Result<(), StepStop>) -> Result<(), Fail> {
    match ending {
        Ok(()) => {
            println!(rt; "Done")?;
            Ok(())
        }
        Err(stop) => print_stop(rt, stop),
    }
}

/// Prints bytes, any other than a bit or a newline as its number.
fn print_bytes(rt: &HostRuntime, bytes: &[u8]) -> Result<(), Fail> {
    for byte in bytes {
        match *byte {
            b'0' => print!(rt; "0")?,
            b'1' => print!(rt; "1")?,
            b'\n' => println!(rt; "")?,
            other => print!(rt; "<{other}>")?,
        }
    }
    Ok(())
}

/// Evaluates a circuit for a stimulus, by a queue of this kind and at this pace, over a device of which these calls fail: what the
/// sink took, and how it ended. Lines may be pending in the printer, so a newline more is sent after them.
pub(crate) fn evaluated(
    rt: &HostRuntime,
    circuit: &str,
    stimulus: &str,
    by: By,
    pace: Pace,
    failing: &[u64],
) -> Result<(MemSink, Result<(), StepStop>), Fail> {
    let alloc = rt.alloc();
    let mut circuit = shelf_of(alloc, Slot::First, circuit)?;
    let mut stimulus = shelf_of(alloc, Slot::Second, stimulus)?;
    let mut sink = MemSink::new(alloc, PIECE, &[])?;
    let mut printer = Printer::new();
    let mut device = MemDevice::new(alloc, failing)?;
    let mut rig = opened(alloc, BLOCKS, &mut device)?;
    let ending = evaluate_texts(
        &mut rig,
        &mut circuit,
        &mut stimulus,
        by,
        pace,
        &mut printer,
        &mut sink,
    );
    let _cost = ended(rig);
    printer.end_line(&mut sink)?;
    Ok((sink, ending))
}

/// The lines that a sink took, without the newline that is sent after them.
pub(crate) fn lines_in(sink: &MemSink) -> &[u8] {
    match sink.bytes().split_last() {
        Some((_newline, lines)) => lines,
        None => &[],
    }
}

/// Prints the lines of a circuit for a stimulus, by a queue of this kind and at this pace, and how it ended. Steps
/// are made by messages alone too: that must give the same.
pub(crate) fn print_lines(
    rt: &HostRuntime,
    title: &str,
    circuit: &str,
    stimulus: &str,
    by: By,
    pace: Pace,
) -> Result<(), Fail> {
    print_title(rt, title, by, pace)?;
    let (sink, ending) = evaluated(rt, circuit, stimulus, by, pace, &[])?;
    print_bytes(rt, lines_in(&sink))?;
    print_ending(rt, ending)?;
    if let Pace::Steps = pace {
        let (other, end) = evaluated(rt, circuit, stimulus, by, Pace::Messages, &[])?;
        if lines_in(&other) != lines_in(&sink) || end != ending {
            println!(rt; "by messages alone: something else")?;
        }
    }
    Ok(())
}

/// Evaluates by a queue of this kind and at this pace: the numbers of the lines, and how it ended.
pub(crate) fn tallied<D: Device, H: Shelf>(
    rig: &mut Rig<'_, D>,
    circuit: &mut H,
    stimulus: &mut H,
    by: By,
    pace: Pace,
) -> Result<(Tally, Result<(), StepStop>), Fail>
    requires circuit { ((H.stand circuit.old).slot First).ready ≡ true }
    requires stimulus { ((H.stand stimulus.old).slot Second).ready ≡ true }
    requires has { HasFrames (seen D.state rig.old) }
    ensures leaves { LeavesFrames (seen D.state rig.old) (seen D.state rig.new) }
{
    let mut tally = Tally::new();
    let mut printer = Printer::new();
    let ending = evaluate_texts(rig, circuit, stimulus, by, pace, &mut printer, &mut tally);
    printer.send_all(&mut tally)?;
    Ok((tally, ending))
}

/// Prints the numbers of the lines of an evaluation, and how it ended.
pub(crate) fn print_numbers(
    rt: &HostRuntime,
    tally: &Tally,
    ending: Result<(), StepStop>,
) -> Result<(), Fail> {
    let (lines, bytes, sum) = (tally.lines(), tally.bytes(), tally.sum());
    println!(rt; "lines {lines} bytes {bytes} sum {sum}")?;
    print_ending(rt, ending)
}
