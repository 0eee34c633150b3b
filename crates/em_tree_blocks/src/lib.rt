//! How a buffer tree lies in the blocks of a device: the tree that is read from there by levels, the
//! blocks that it holds, and what a call leaves of both. The crate has definitions and laws alone,
//! and no code.
#![tactic(auto)]
