//! Texts of numbers, one or two a line: read into a list or a service, and lists printed one line a record.
#![tactic(auto)]

mod ahead;
mod answering;
mod giving;
mod kinds;
mod listing;
mod printing;
mod row;
mod spelling;

pub use answering::{Plan, answer_rows};
pub use giving::give_rows;
pub use kinds::{Columns, RowKind};
pub use listing::list_rows;
pub use printing::print_rows;
pub use row::take_row;
