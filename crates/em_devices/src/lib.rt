//! What the tests of several crates share: devices that tell nothing, a rig to call, and lists that are written from records and
//! compared with them.
#![tactic(auto)]

mod lists;
mod quiet;
mod trial;
mod untold;

pub use lists::{extend, scans, takes, write};
pub use quiet::Quiet;
pub use trial::{Cost, ended, opened};
pub use untold::Untold;
