//! What a map, a queue and an interval list answer to a list of commands: definitions in `specs/`,
//! and beside each a plain slow program that computes it.
#![tactic(auto)]

mod command;
mod map;
mod queue;
mod stab;
mod sync;

pub use command::Command;
pub use map::map_answers_of;
pub use queue::{Item, queue_answers_of};
pub use stab::{NumberedInterval, stab_answers_of};
pub use sync::synced;
