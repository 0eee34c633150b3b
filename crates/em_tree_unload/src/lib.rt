//! The leaves of a tree in which nothing waits, taken out of it one after another.
#![tactic(auto)]

mod unloading;

pub use unloading::{Unloaded, take_first_leaf};
