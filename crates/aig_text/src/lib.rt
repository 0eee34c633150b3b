//! Reads circuits of the AIGER format: a text becomes four chains of records, or the text's first
//! fault is found, unless the shelf or the rig gives up first. The rows of the ASCII form stand
//! here. A crate of another form has its rows by the trait `Rows`, and reads by `read_circuit`.
#![tactic(auto)]

mod ascii;
mod circuit;
mod climb;
mod draft;
mod item;
mod line;
mod magic;
mod parts;
mod rows;
mod section;
mod stop;
mod tail;

pub use aig_defs::{AigKind, Header};
pub use ascii::read_ascii;
pub use circuit::read_circuit;
pub use item::{look, number};
pub use line::latch_end;
pub use magic::read_magic;
pub use parts::Parts;
pub use rows::Rows;
pub use stop::{AigStop, fault};
