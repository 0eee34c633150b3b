//! Checks a circuit, and makes of its chains the graph of its edges, each from the variable that it
//! comes from. The edges between ranks that an evaluator goes along are a type here.
#![tactic(auto)]

mod build;
mod comparing;
mod copying;
mod graph;
mod looking;
mod pushing;
mod sorting;
mod stop;

pub use build::check_and_build;
pub use copying::{Copied, copy};
pub use graph::{Graph, Ordered};
pub use looking::next_record;
pub use sorting::{Sorted, sort};
pub use stop::StepStop;
