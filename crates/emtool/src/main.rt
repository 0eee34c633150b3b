//! The program: command files answered by structures in external memory. `top::emtool` is the whole
//! of a run, and carries what is promised of it; `main` makes the real grant, device, files and
//! streams, and calls it.
#![tactic(auto)]

ghost use Rattle.std.specs.Prelude.{◌≡◌, ◌⊎◌, None};
ghost use Rattle.em_record.specs.Count.{Rose};
ghost use Rattle.em_io.specs.Sink.{SentPart};
ghost use Rattle.em_ends.specs.Outcome.{report_text};
ghost use Rattle.em_ends.specs.Status.{OnDone};

mod help;
#[cfg(test)]
mod tests;
mod top;

use crate::help::{HELP, VERSION};
use em_ends::{Outcome, Status, report};
use em_file::FileDevice;
use em_frames::Grant;
use em_io::{DiskShelf, Sink, StdSink, send};
use std::alloc::Global;
use std::process::ExitCode;
use std::{env, fs, io};

/// The exit code if there is no memory.
const NO_MEMORY: u8 = 7;

/// The exit code where a word isn't UTF-8.
const USAGE: u8 = 1;

/// The file of the scratch device, in the current folder. It means nothing after a run.
const SCRATCH: &str = "emtool.scratch";

/// The words after the program's name, or the exit code of why they can't be had.
fn words_of(rt: &HostRuntime, alloc: Global) -> Result<Vec<String>, u8> {
    let arguments = match env::args(rt) {
        Ok(arguments) => arguments,
        Err(error) if error.kind() == io::ErrorKind::InvalidData => return Err(USAGE),
        Err(_) => return Err(NO_MEMORY),
    };
    let mut words = Vec::new(alloc);
    for word in arguments.skip(1) {
        if words.push(word).is_err() {
            return Err(NO_MEMORY);
        }
    }
    Ok(words)
}

/// What is printed where the only word asks for help or for the version.
fn asked_text(words: &[String]) -> Option<&'static str> {
    match words {
        [word] => match word.as_str() {
            "--help" => Some(HELP),
            "--version" => Some(VERSION),
            _ => None,
        },
        _ => None,
    }
}

fn main(rt: HostRuntime) -> ExitCode {
    let alloc = rt.alloc();
    let words = match words_of(&rt, alloc) {
        Ok(words) => words,
        Err(code) => return ExitCode::from(code),
    };
    let mut out = StdSink::new(rt.stdout());
    let mut err = StdSink::new(rt.stderr());
    if let Some(text) = asked_text(&words) {
        return ExitCode::from(print_text(text, &mut out, &mut err).code());
    }
    let mut device = FileDevice::new(&rt, alloc, SCRATCH);
    let mut shelf = DiskShelf::new(&rt);
    let status = top::emtool(
        &words,
        Grant::new(alloc),
        &mut device,
        &mut shelf,
        &mut out,
        &mut err,
    );
    // Only a file that the run made or emptied is removed. A removal that fails changes no status.
    if device.is_begun() {
        let _gone = fs::remove_file(&rt, SCRATCH);
    }
    ExitCode::from(status.code())
}

/// Prints a text whole, and says how that ended, also on the error stream: by the message of
/// `WriteFault`, or by nothing.
fn print_text<W: Sink, E: Sink>(text: &str, out: &mut W, err: &mut E) -> Status
    ensures done { OnDone result
        (W.state out.new ≡ W.took (W.state out.old) text.now) }
    ensures write_fault { result ≡ Status.WriteFault → Rose (W.faults out.old) (W.faults out.new) }
    ensures part { SentPart W.took (W.state out.old) text.now (W.state out.new) }
    ensures only { (result ≡ Status.Done) ⊎ (result ≡ Status.WriteFault) }
    ensures message { (Rose (E.faults err.old) (E.faults err.new) → ⊥)
        → E.state err.new ≡ E.took (E.state err.old) (report_text result None) }
    ensures message_part { SentPart E.took (E.state err.old) (report_text result None)
        (E.state err.new) }
{
    let status = match send(out, text.as_bytes()) {
        Ok(()) => Status::Done,
        Err(_) => Status::WriteFault,
    };
    let outcome = Outcome {
        status,
        stats: None,
    };
    let _told = report(err, &outcome);
    outcome.status
}
