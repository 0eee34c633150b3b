//! A binary heap of records in an area, the least first, beside a run of records in order.
#![tactic(auto)]

mod front;
mod heap;
mod sift;
mod stock;

pub use heap::Heap;
