//! What a buffer tree means, over an abstract tree: its contents, the answers that it owes, and that
//! each change that the tree's calls make keeps them. The crate has definitions and laws alone, and
//! no code.
#![tactic(auto)]
