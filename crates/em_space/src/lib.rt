//! The rig: a device's blocks in use, and the frames of a run.
#![tactic(auto)]

mod fault;
mod queue;
mod refused;
mod rig;

pub use fault::EmFault;
pub use queue::Queue;
pub use refused::OpenRefused;
pub use rig::Rig;
