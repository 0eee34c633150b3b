//! What a batched segment tree reports, over plain lists: the strips of a node, the multislabs of its
//! intervals, the pairs that are due, and the most moves and blocks of its recursion.
#![tactic(auto)]

mod strip;

pub use strip::{Slab, Span, place_of, slab_count, slab_of, slabs_of, strip_count};
