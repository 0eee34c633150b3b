//! The records of the least keys of a tree, taken out by visits of its first leaf.
#![tactic(auto)]

mod first;
mod leaving;
mod visiting;

pub use visiting::{Taken, take_all_first};
