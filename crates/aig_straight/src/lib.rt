//! Makes the edges between ranks of a straight circuit: its graph's edges, each with ranks in place of
//! variables, are in order as they are.
#![tactic(auto)]

mod straight;

pub use straight::straight_edges;
