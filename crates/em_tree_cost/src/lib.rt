//! How many moves the calls of a buffer tree make together at most, and how many blocks it holds, over
//! plain numbers: each event of a tree pays a fee, and all fees are its share. The crate has
//! definitions and laws alone, and no code.
#![tactic(auto)]
