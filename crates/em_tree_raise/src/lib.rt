//! The nodes of a tree, built over a list of leaves, level by level.
#![tactic(auto)]

mod filling;
mod listing;
mod raising;

pub use listing::list_subtree;
pub use raising::raise;
