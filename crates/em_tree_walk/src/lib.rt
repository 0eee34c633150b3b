//! Ways through a buffer tree by keys, changes of one node, and full nodes on a key's path split: blocks that
//! are read, tested and stored.
#![tactic(auto)]

mod descending;
mod inserting;
mod searching;
mod splitting;
mod taking;

pub use descending::{Descent, buffer_of, child_in, descend, end_of, is_under, load_node};
pub use inserting::{add_entry, can_follow, insert_after};
pub use searching::{Finding, Range, search};
pub use splitting::{MOST_LEVELS, Root, split_up};
pub use taking::take_out;
