//! The evaluation of a circuit on a stimulus, from the two files to the lines of the output.
#![tactic(auto)]

mod eval;

pub use eval::run_eval;
