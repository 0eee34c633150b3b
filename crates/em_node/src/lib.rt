//! A node of a tree in one frame: a list of entries with rising low keys, one for each child.
#![tactic(auto)]

mod checking;
mod entry;
mod layout;
mod node;

pub use checking::check;
pub use entry::Entry;
pub use node::{count, entry_at, find, fresh, fuse, insert, level, remove, set_entry, split};
