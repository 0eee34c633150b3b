//! Orders the gates of a circuit in any order of lines, so that operands come before their gates, and
//! finds cycles: passes over the gates upwards by their variables, each by bits or by a queue, if the order
//! isn't known.
#![tactic(auto)]

mod adjacency;
mod by_bits;
mod limits;
mod marking;
mod merging;
mod ordering;
mod passing;
mod ranking;
mod recalling;
mod rewriting;
mod standing;
mod sweeping;

pub use ordering::order;
