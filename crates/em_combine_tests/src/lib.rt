//! Tests of `em_combine`, by calls that any user may make.
#![tactic(auto)]

mod generic;

pub use generic::{join_by, join_load};

#[cfg(test)]
mod joining;
