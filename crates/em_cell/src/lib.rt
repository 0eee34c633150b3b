//! A number in one block of the device, over a rig: a test of the rig's contract, and no layer.
#![tactic(auto)]

mod caller;
mod cell;
mod pending;

pub use caller::{beside, make_in_steps, renew};
pub use cell::Cell;
pub use pending::Pending;
