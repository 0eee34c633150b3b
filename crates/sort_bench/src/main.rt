//! Measures the sorting of an area: numbered records are put in order, an area at a time. It is a
//! program of `bench/run`.
#![tactic(auto)]

mod sorting;
mod words;

ghost use Rattle.std.specs.Prelude.{◌≤◌, ◌^◌};

use crate::sorting::sort_all;
use crate::words::count_asked;
use em_frames::Grant;
use em_record::Shape;
use std::process::ExitCode;

/// The records of a block.
const BLOCK: u64 = 1024;

/// The frames of the pool. An area has an eighth of them: 32,768 records.
const FRAMES: u64 = 256;

/// The exit code if the words aren't a number.
const USAGE: u8 = 1;

/// The exit code if the line couldn't be printed.
const OUTPUT: u8 = 4;

/// The exit code if there is no memory for the words or for the frames.
const NO_MEMORY: u8 = 7;

/// Sorts so many records in an area of a fresh pool. Answers their sum, or None if there is no memory.
fn run(rt: &HostRuntime, count: u64) -> Option<u64>
    requires { count ≤ 2 ^ 40 }
{
    let Ok(shape) = Shape::new(BLOCK, FRAMES) else {
        unreachable!()
    };
    let Ok(mut pool) = Grant::new(rt.alloc()).pool(shape) else {
        return None;
    };
    let mut area = pool.lend_area();
    let sum = sort_all(&mut area, count);
    pool.give_area(area);
    pool.end();
    Some(sum)
}

fn main(rt: HostRuntime) -> ExitCode {
    let Some(count) = count_asked(&rt) else {
        let _told = eprintln!(&rt; "sort_bench: the word is N, a number of 1 to 10 digits");
        return ExitCode::from(USAGE);
    };
    let Some(sum) = run(&rt, count) else {
        let _told = eprintln!(&rt; "sort_bench: no memory");
        return ExitCode::from(NO_MEMORY);
    };
    match println!(&rt; "{count} records, sum {sum}") {
        Ok(()) => ExitCode::SUCCESS,
        Err(_) => ExitCode::from(OUTPUT),
    }
}
