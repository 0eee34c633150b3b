//! What a map that answers its commands together is made by.

use em_settle::AddSettle;

/// What a map is made by: the closure of its adds, and whether runs of adds become one before they enter a tree. A map that
/// keeps no tree is the same either way.
#[derive(Drop)]
pub struct MapRule<F: Fn(u64, u64) -> u64 + Drop> {
    pub settle: AddSettle<F>,
    pub early: bool,
}
