//! `stab` by a batched segment tree: intervals and points are written down as they come, and all points
//! are answered together at the end.
#![tactic(auto)]

mod answering;
mod finishing;
mod leaf;
mod node;
mod stab;

pub use stab::Stab;
