//! Command files answered: their lines are read into a service or a queue, and the answers printed.
#![tactic(auto)]

mod answering;
mod print;
mod read;
mod serving;

pub use answering::{run_open, run_queue, run_service};
pub use print::add_pair;
