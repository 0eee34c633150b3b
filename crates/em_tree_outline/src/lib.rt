//! The outline of a buffer tree: how many operations and records stand in its parts. The crate has
//! definitions and laws alone, and no code.
#![tactic(auto)]
