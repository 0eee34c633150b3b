//! Calls of any queue in a row, beside lists of the same rig: their blocks and moves in one ledger,
//! and a list that takes the items of a queue.
#![tactic(auto)]

mod popping;

pub use popping::pop_into;
