//! Runs of a tool: its end, its exit code and its message.
use crate::holding::Holding;
use crate::rows::field_of;
use crate::runs::NO_CALL;
use em_frames::{Grant, MemDevice};
use em_io::{MemShelf, MemSink};
use em_record::Shape;
use em_tool::{Failure, run_over};
use std::alloc::Global;
use std::test::Fail;

/// Runs the tool over the file `a`, which has one window, and the file of this name. The text is that of the file `b`, and this call
/// of the device fails.
fn run_on(
    alloc: Global,
    name: &str,
    text: &str,
    call: u64,
) -> Result<(Result<(), Failure>, MemSink), Fail> {
    let mut files = Vec::new(alloc);
    files.push(String::from_str(alloc, "a")?)?;
    files.push(String::from_str(alloc, name)?)?;
    let shape = Shape::new(128, 64)?;
    let mut shelf = MemShelf::new(alloc, 3, &[])?;
    shelf.add("a", b"2 5\n")?;
    shelf.add("b", text.as_bytes())?;
    let mut out = MemSink::new(alloc, 4096, &[])?;
    let mut device = MemDevice::new(alloc, &[call])?;
    let done = run_over(
        &Holding,
        &files,
        shape,
        Grant::new(alloc),
        &mut device,
        &mut shelf,
        &mut out,
    );
    Ok((done, out))
}

/// Whether a row is as it says.
fn is_so(alloc: Global, row: &str) -> Result<bool, Fail> {
    let (name, rest) = field_of(row);
    let (text, rest) = field_of(rest);
    let (call, rest) = field_of(rest);
    let (code, wanted) = field_of(rest);
    let (done, out) = run_on(alloc, name, text, call.parse::<u64>().unwrap_or(NO_CALL))?;
    let code = code.parse::<u8>()?;
    let Err(failure) = done else {
        return Ok(code == 0 && out.bytes() == wanted.as_bytes());
    };
    let message = format!(in alloc; "{failure}")?;
    Ok(failure.code() == code && out.bytes().is_empty() && message.as_str() == wanted)
}

/// A row has the name of the tool's second file, the text of the file `b`, the call of the device that fails, if one does, the exit
/// code, and what is printed or the message. The call 0 begins the device.
const ROWS: [&str; 5] = [
    "b|2\n6\n5\n|none|0|0 0\n2 0\n",
    "b|2\n\n|none|2|line 2: a number is missing",
    "c|2\n|none|3|a file could not be read",
    "b|2\n|0|5|the scratch device failed",
    "b|2\n|1|5|the scratch device failed",
];

#[test]
fn a_tool_ends_with_its_code(rt: HostRuntime) -> Result<(), Fail> {
    let mut number = 0u64;
    for row in ROWS {
        number = number.saturating_add(1);
        assert!(rt; is_so(rt.alloc(), row)?, "row {number}");
    }
    Ok(())
}
