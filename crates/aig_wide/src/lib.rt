//! Evaluates a circuit without latches 64 steps at once, along words of 64 lanes.
#![tactic(auto)]

mod dealing;
mod evaluator;
mod gathering;
mod group;
mod line;
mod printing;
mod reading;
mod sweeping;
mod turning;

pub use evaluator::WideEvaluator;
pub use group::GroupEnd;
