//! What the programs of `bench/run` share: their words, their line and their exit codes, and the
//! chain of numbered records with which each of them starts.
#![tactic(auto)]

mod bench;
mod measuring;
mod program;
mod records;
mod stop;
mod words;

pub use bench::Bench;
pub use measuring::{Measured, measure};
pub use program::{measure_in_memory, run_program};
pub use stop::Stop;
