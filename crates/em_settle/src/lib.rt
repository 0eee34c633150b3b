//! What an operation leaves of the stored record of its key, and what it answers: the rules of a tree
//! in which operations wait.
#![tactic(auto)]

mod add;
mod bag;
mod combine;
mod map;
mod settle;
mod step;

pub use add::AddSettle;
pub use bag::BagSettle;
pub use combine::Combine;
pub use map::MapSettle;
pub use settle::Settle;
pub use step::Step;
