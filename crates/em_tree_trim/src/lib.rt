//! A tree in which nothing waits, made as small as its records allow.
#![tactic(auto)]

mod joining;
mod looking;
mod trimming;

pub use looking::is_trim;
pub use trimming::trim_tree;
