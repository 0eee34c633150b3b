//! Texts that are made from three numbers, and a sink that counts what it takes.
#![tactic(auto)]

mod draws;
mod kind;
mod line;
mod made;
mod shelf;
mod tally;
mod writing;

pub use kind::GenKind;
pub use shelf::GenShelf;
pub use tally::Tally;
