//! Loads of a buffer tree's leaves, records taken out of the first leaf, and the release of a tree's blocks.
#![tactic(auto)]

mod changing;
mod filling;
mod leaf_block;
mod leaf_taking;
mod loading;
mod releasing;
mod removing;
mod seeking;
mod settling;

pub use leaf_block::{put_leaf, read_leaf, store_leaf, store_new_leaf};
pub use leaf_taking::take_leaf;
pub use loading::load_leaf;
pub use releasing::release_tree;
pub use removing::remove_first;
pub use seeking::{FirstLeaf, first_leaf};
