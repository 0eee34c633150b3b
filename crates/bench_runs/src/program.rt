ghost use Rattle.std.specs.Prelude.{◌≤◌, ◌^◌, IfOk};

use crate::bench::Bench;
use crate::measuring::{Measured, measure};
use crate::stop::Stop;
use crate::words::read_words;
use em_file::FileDevice;
use em_frames::MemDevice;
use std::alloc::Global;
use std::process::ExitCode;

/// The blocks of the device.
const BLOCKS: u64 = 1 << 20;

/// Writes the records of the numbers below `count` over the device in memory, of 2^20 blocks, and
/// runs a bench on them.
pub fn measure_in_memory<B: Bench>(alloc: Global, bench: &B, count: u64) -> Result<Measured, Stop>
    requires { count ≤ 2 ^ 40 }
    ensures { IfOk result (λ run. B.MayAnswer count run.sum run.used) }
{
    let Ok(mut device) = MemDevice::new(alloc, &[]) else {
        return Err(Stop::NoMemory);
    };
    measure(alloc, bench, &mut device, BLOCKS, count)
}

/// Prints the line of a run.
fn print_run(rt: &HostRuntime, count: u64, run: &Measured) -> Result<(), Stop> {
    let (sum, moves) = (run.sum, run.moves);
    let (most, used) = (run.most, run.used);
    let printed = println!(rt;
        "{count} records, sum {sum}, moves {moves}, blocks {most} left in use {used}"
    );
    match printed {
        Ok(()) => Ok(()),
        Err(_) => Err(Stop::Output),
    }
}

/// Reads the words, runs the bench, and prints the line.
fn run_words<B: Bench>(rt: &HostRuntime, bench: &B) -> Result<(), Stop> {
    let asked = read_words(rt)?;
    let measured = match &asked.file {
        None => measure_in_memory(rt.alloc(), bench, asked.count)?,
        Some(path) => {
            let mut device = FileDevice::new(rt, rt.alloc(), path.as_str());
            measure(rt.alloc(), bench, &mut device, BLOCKS, asked.count)?
        }
    };
    print_run(rt, asked.count, &measured)
}

/// Runs a bench as a program: reads the words, and prints one line, or a message on the error
/// stream. Answers the exit code.
pub fn run_program<B: Bench>(rt: &HostRuntime, bench: &B) -> ExitCode {
    let Err(stop) = run_words(rt, bench) else {
        return ExitCode::SUCCESS;
    };
    let (name, message) = (bench.name(), stop.message());
    let _told = eprintln!(rt; "{name}: {message}");
    ExitCode::from(stop.code())
}
