//! How a tree is cut bottom up from records that rise, over plain numbers: the sizes of its leaves and nodes, and the moves that
//! it takes. The crate has definitions and laws alone, and no code.
#![tactic(auto)]
