//! A step of a circuit with a bit for each rank in an area, if they fit: what the edges bring is joined to the
//! bits of their targets, and no message is sent but those of the columns.
#![tactic(auto)]

mod evaluating;
mod following;
mod keeping;
mod loading;
mod pushing;
mod sweeping;
mod table;

pub use evaluating::evaluate;
