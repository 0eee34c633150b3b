//! How a run ends: why it stops, with which status, and what is said of that on the error stream.
#![tactic(auto)]

mod ending;
mod outcome;
mod reporting;
mod status;
mod stop;

pub use ending::status_of;
pub use outcome::{Outcome, Stats, stats_of, unmoved};
pub use reporting::{put, put_number, report};
pub use status::{Malform, Status, Usage, UsageKind};
pub use stop::{Stop, send_rest};
