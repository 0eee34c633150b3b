//! Whole runs over the outside in memory in which a call fails, or the device gives other records
//! than were written. Runs in which nothing fails are data, and run on the built program.
//!
//! Most tests are tables: a row is one text, of which bars part the fields. `text_of` says how a field
//! holds a text of several lines.

ghost use Rattle.std.specs.Prelude.{◌≡◌};

mod each_call;
mod each_evaluation;
mod ends;
mod odd_device;

use crate::tests::odd_device::OddDevice;
use crate::top::emtool;
use em_ends::Status;
use em_frames::{Device, Grant, MemDevice};
use em_io::{MemShelf, MemSink, Printer};
use em_record::Failed;
use std::alloc::Global;
use std::test::Fail;

/// What goes wrong in a run. A number stands beside it: that of the call of a part which fails, from 0, or of
/// the first block that is lost.
#[derive(Clone, Copy, PartialEq, Eq)]
enum Wrong {
    Nothing,
    Device,
    Shelf,
    Output,
    Errors,
    /// A read gives the block after the one that was asked for, and the first one after the last.
    Next,
    /// A read gives the same record at every place of a block of this number or a greater one.
    Lost,
}

/// How a run ended, what output and error stream took, and the device after it.
#[derive(Drop)]
struct Ended {
    status: Status,
    out: MemSink,
    err: MemSink,
    device: OddDevice,
}

/// What stands in a row up to the first bar, and what stands after it.
fn field_of(row: &str) -> (&str, &str) {
    row.split_once('|').unwrap_or((row, ""))
}

/// Adds a line of a field to a text, after a newline if the text is begun. A `#` stands for the line's
/// number, and a `%` for the byte 0x82.
fn add_line_of(text: &mut MemSink, begun: bool, line: &str, number: u64) -> Result<(), Failed> {
    let mut printer = Printer::new();
    if begun {
        printer.add(text, b"\n")?;
    }
    for byte in line.as_bytes() {
        match *byte {
            b'#' => printer.add_number(text, number)?,
            b'%' => printer.add(text, b"\x82")?,
            other => printer.add(text, &[other])?,
        }
    }
    printer.send_all(text)
}

/// The text of a field: a `/` stands for a newline, and `N*LINE` for N such lines, which have the numbers
/// from 1.
fn text_of(alloc: Global, field: &str) -> Result<MemSink, Fail> {
    let mut text = MemSink::new(alloc, 4096, &[])?;
    let mut begun = false;
    for line in field.split('/') {
        let (count, line) = line.split_once('*').unwrap_or(("1", line));
        for number in 0..count.parse::<u64>()? {
            add_line_of(&mut text, begun, line, number.saturating_add(1))?;
            begun = true;
        }
    }
    Ok(text)
}

/// The call, if it is of the part in which something goes wrong.
fn failing(wrong: Wrong, part: Wrong, call: &[u64]) -> &[u64] {
    if wrong == part { call } else { &[] }
}

/// A run over a device and a shelf with these texts as the files `a` and `s`: how it ended, and what output and error stream
/// took. A read of the shelf gives at most 3 bytes, a call of the output takes at most 3, and one of the error stream at
/// most 7.
fn run_over<D: Device>(
    rt: &HostRuntime,
    words: &str,
    text: &[u8],
    stimulus: &[u8],
    wrong: Wrong,
    number: u64,
    device: &mut D,
) -> Result<(Status, MemSink, MemSink), Fail>
    requires { (D.state device.old).blocks ≡ 0 }
{
    let alloc = rt.alloc();
    let mut given = Vec::new(alloc);
    for word in words.split(' ') {
        given.push(String::from_str(alloc, word)?)?;
    }
    let call = [number];
    let mut shelf = MemShelf::new(alloc, 3, failing(wrong, Wrong::Shelf, &call))?;
    shelf.add("a", text)?;
    shelf.add("s", stimulus)?;
    let mut out = MemSink::new(alloc, 3, failing(wrong, Wrong::Output, &call))?;
    let mut err = MemSink::new(alloc, 7, failing(wrong, Wrong::Errors, &call))?;
    let status = emtool(
        &given,
        Grant::new(alloc),
        device,
        &mut shelf,
        &mut out,
        &mut err,
    );
    Ok((status, out, err))
}

/// The same over a device in memory, with what the device is like after it.
fn run(
    rt: &HostRuntime,
    words: &str,
    text: &[u8],
    stimulus: &[u8],
    wrong: Wrong,
    number: u64,
) -> Result<Ended, Fail> {
    let mut device = OddDevice {
        kept: MemDevice::new(rt.alloc(), failing(wrong, Wrong::Device, &[number]))?,
        blocks: 0,
        wrong,
        good: number,
        first: None,
        parted: false,
    };
    let (status, out, err) = run_over(rt, words, text, stimulus, wrong, number, &mut device)?;
    Ok(Ended {
        status,
        out,
        err,
        device,
    })
}
