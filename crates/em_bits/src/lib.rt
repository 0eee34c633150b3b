//! A bit for each number, in a row of records.
#![tactic(auto)]

mod bits;
mod word;

pub use bits::{and_in, fill, fill_to, get};
