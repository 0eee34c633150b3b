//! Measures emptying: the records of a chain go to the buffers of a node of 64 places, over the
//! device in memory or over a file. It is a program of `bench/run`.
#![tactic(auto)]

mod bench;
mod nodes;

use crate::bench::EmptyBench;
use bench_runs::run_program;
use std::process::ExitCode;

fn main(rt: HostRuntime) -> ExitCode {
    run_program(&rt, &EmptyBench {})
}
