//! A full node of a tree split into two, a new root over a split one, and two neighbouring nodes fused or
//! sharing their entries.
#![tactic(auto)]

mod dealing;
mod fusing;
mod growing;
mod sharing;
mod splitting;
mod storing;

pub use fusing::fuse_or_share;
pub use growing::grow_up;
pub use splitting::split_node;
pub use storing::store_new;
