//! The sweep of a circuit by time-forward processing (Chiang et al., 1995; Arge, 2003), in 64 lanes at once:
//! each rank sends its word along its edges to greater ranks, as messages in a queue.
#![tactic(auto)]

mod gate;
mod line;
mod lists;
mod printing;
mod ranks;
mod sending;
mod spreading;
mod stepping;
mod sweeper;

pub use gate::{take_message, word_in};
pub use line::{read_bit, read_end, take_end};
pub use printing::put_bit;
pub use stepping::{columns, evaluate};
pub use sweeper::Sweeper;
