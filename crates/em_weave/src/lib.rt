//! Two ordered chains side by side: a weave takes both, and gives all records in one order, each with
//! the side that it came from.
#![tactic(auto)]

mod peek;
mod side;
mod weave;

pub use side::Side;
pub use weave::Weave;
