//! Reads circuits of the AIGER format in its binary form, by the reader of `aig_text`: a text becomes
//! four chains of records, or the text's first fault is found, unless the shelf or the rig gives up
//! first. `read_either` reads a text of either form.
#![tactic(auto)]

mod binary;
mod delta;
mod either;
mod line;

pub use aig_text::{AigKind, AigStop, Header, Parts};
pub use binary::read_binary;
pub use either::read_either;
