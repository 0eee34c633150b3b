//! A load of operations settled over a leaf's stored records, and two leaves fused.
#![tactic(auto)]

mod applying;
mod change;
mod counting;
mod front;
mod fusing;
mod passing;
mod stepping;
mod writing;

pub use applying::apply_load;
pub use change::LeafChange;
pub use fusing::fuse_leaves;
