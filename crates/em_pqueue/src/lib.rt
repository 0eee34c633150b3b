//! A priority queue of more records than memory holds: a heap of the least ones over a buffer tree.
#![tactic(auto)]

mod queue;

pub use queue::ExtQueue;
