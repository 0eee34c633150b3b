//! Chains: lists of records in blocks of a rig's device that lead from one to the next. A writer
//! makes them, a reader reads them, and calls of their own join, cut and discard them.
#![tactic(auto)]

mod block;
mod chain;
mod discarding;
mod joining;
mod member;
mod parting;
mod reader;
mod writer;
mod writers;

pub use chain::Chain;
pub use discarding::discard;
pub use joining::join;
pub use parting::part_at;
pub use reader::Reader;
pub use writer::Writer;
pub use writers::Writers;
