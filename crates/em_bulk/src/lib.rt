//! A tree of pairs, built bottom up from a list of pairs in the order of their keys, at the price of writing it once; and a
//! tree's records, given in the order of their keys.
#![tactic(auto)]

mod builder;
mod drain;
mod ending;
mod keeping;
mod taking;

pub use builder::Builder;
pub use drain::Drain;
