//! The two memories of a run: a device of blocks, and a pool of frames that holds all records in
//! memory.
#![tactic(auto)]

mod area;
mod device;
mod frame;
mod memory;
mod pool;
mod rack;

pub use area::Area;
pub use device::{BeginFault, Device};
pub use frame::Frame;
pub use memory::MemDevice;
pub use pool::{Grant, Pool};
pub use rack::Rack;
