//! Measures chains: a chain of numbered records, over the device in memory or over a file, is read
//! back by taking it. It is a program of `bench/run`.
#![tactic(auto)]

mod bench;
mod chains;

use crate::bench::ChainBench;
use bench_runs::run_program;
use std::process::ExitCode;

fn main(rt: HostRuntime) -> ExitCode {
    run_program(&rt, &ChainBench {})
}
