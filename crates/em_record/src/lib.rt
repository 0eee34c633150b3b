//! What all crates share: records, the shape of a machine, and the words for what fails.
#![tactic(auto)]

mod bounds;
mod calls;
mod fault;
mod record;
mod shape;

pub use bounds::{blocks_of, cost, lev, room};
pub use calls::Calls;
pub use fault::{Failed, NoMemory, ShapeFault};
pub use record::Record;
pub use shape::Shape;
