//! The parts of a node of a batched segment tree: its points cut into strips, its pieces dealt to them and to
//! the multislabs, and the pairs of the multislabs.
#![tactic(auto)]

mod dealing;
mod list;
mod listing;
mod loading;
mod pairing;
mod reporting;
mod splitting;

pub use dealing::{Lists, deal_pieces};
pub use list::Listed;
pub use loading::{put_in_order, take_load};
pub use pairing::append_pair;
pub use reporting::report_strips;
pub use splitting::{Strips, split};
