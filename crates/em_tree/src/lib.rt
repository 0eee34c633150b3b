//! A buffer tree (Arge, 2003): a search tree of wide fan-out, in which operations wait in buffers and
//! are settled late, many at once.
#![tactic(auto)]

mod emptying;
mod ending;
mod settling;
mod tree;
mod trimming;

pub use tree::Tree;
