//! Callers that are generic over the queue, proved from what the trait `Queue` says alone: a test of
//! its contract, and no layer.
#![tactic(auto)]

mod client;

pub use client::{beside, drain};
