//! A file as a device of blocks, and records as bytes.
#![tactic(auto)]

mod bytes;
mod file_device;
mod scratch_file;

pub use bytes::{RECORD_BYTES, decode, encode};
pub use file_device::FileDevice;
