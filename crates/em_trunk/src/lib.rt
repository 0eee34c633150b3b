//! The trunk of a buffer tree: what a tree keeps in memory, what is read of it from its blocks, and the books
//! of its calls. Only the crates of a tree stand on it.
#![tactic(auto)]

mod planting;
mod trunk;

pub use planting::plant;
pub use trunk::Trunk;
