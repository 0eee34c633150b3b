//! Evaluates a circuit step by step: a step reads a line of the stimulus, lets `aig_table` send values along the
//! edges, and prints a line of the columns.
#![tactic(auto)]

mod evaluator;
mod line;
mod lists;
mod outputs;
mod step_end;

pub use evaluator::Evaluator;
pub use step_end::StepEnd;
