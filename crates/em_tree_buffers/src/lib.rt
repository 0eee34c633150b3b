//! The buffers of a tree, emptied one level down: that of an entry, that of the root, and the full ones of a
//! level with those that are full after them.
#![tactic(auto)]

mod clearing;
mod entry;
mod lowering;

pub use clearing::empty_full;
pub use entry::{empty_entry, load_entry};
pub use lowering::{empty_root, lower_entry};
