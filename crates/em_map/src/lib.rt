//! A map whose commands are answered together: each is an operation that is pushed into a buffer tree, alone or with a load.
#![tactic(auto)]

mod batch;
mod handing;
mod loading;

pub use batch::Batch;
