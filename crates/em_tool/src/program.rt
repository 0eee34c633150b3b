//! A tool as a program: the real words, scratch file, files and streams, the message of a failure, and the exit code.
use crate::failure::Failure;
use crate::running::run_over;
use crate::tool::Tool;
use crate::words::shape_for;
use em_file::FileDevice;
use em_frames::Grant;
use em_io::{DiskShelf, StdSink};
use std::alloc::Global;
use std::process::ExitCode;
use std::{env, fs, io};

/// The words after the program's name. `Usage`: one isn't UTF-8. `NoMemory`: there is no memory for them.
fn words_of(rt: &HostRuntime, alloc: Global) -> Result<Vec<String>, Failure> {
    let arguments = match env::args(rt) {
        Ok(arguments) => arguments,
        Err(error) if error.kind() == io::ErrorKind::InvalidData => return Err(Failure::Usage),
        Err(_) => return Err(Failure::NoMemory),
    };
    let mut words = Vec::new(alloc);
    for word in arguments.skip(1) {
        if words.push(word).is_err() {
            return Err(Failure::NoMemory);
        }
    }
    Ok(words)
}

/// Runs a tool over the files that these words name, on a scratch file that is gone afterwards.
fn run_words<T: Tool>(rt: &HostRuntime, tool: &T, words: &[String]) -> Result<(), Failure> {
    let shape = shape_for(words, T::FILES)?;
    let alloc = rt.alloc();
    let mut device = FileDevice::new(rt, alloc, T::SCRATCH);
    let mut shelf = DiskShelf::new(rt);
    let mut out = StdSink::new(rt.stdout());
    let done = run_over(
        tool,
        &words[2..],
        shape,
        Grant::new(alloc),
        &mut device,
        &mut shelf,
        &mut out,
    );
    // Only a file that the run made is removed. A removal that fails changes nothing.
    if device.is_begun() {
        let _gone = fs::remove_file(rt, T::SCRATCH);
    }
    done
}

/// Prints the line of a failure on the error stream.
fn tell<T: Tool>(rt: &HostRuntime, failure: Failure) {
    let (name, operands) = (T::NAME, T::OPERANDS);
    let _told = match failure {
        Failure::Usage => eprintln!(rt; "{name}: {failure}: {name} B M {operands}"),
        _ => eprintln!(rt; "{name}: {failure}"),
    };
}

/// Runs a tool as a program. The words are `B M FILE ..`: the records of a block, the frames of memory, and the names
/// of the files. What is due goes to the output, and blocks to the file `T::SCRATCH` in the current folder, which
/// is removed at the end if the run made it. A file that had this name before loses it, also one of those to be
/// read. After a failure one line stands on the error stream. The exit code is 0 or `Failure::code`.
pub fn run_tool<T: Tool>(rt: &HostRuntime, tool: &T) -> ExitCode {
    let done = match words_of(rt, rt.alloc()) {
        Ok(words) => run_words(rt, tool, &words),
        Err(failure) => Err(failure),
    };
    match done {
        Ok(()) => ExitCode::SUCCESS,
        Err(failure) => {
            tell::<T>(rt, failure);
            ExitCode::from(failure.code())
        }
    }
}
