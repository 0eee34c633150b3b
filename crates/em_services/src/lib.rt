//! What answers a map, stab or dump file, at each sync and at the end: the trait `Service`, and the structures that
//! are one.
#![tactic(auto)]

mod batch_service;
mod dump_service;
mod load_service;
mod map_rule;
mod ordering;
mod pair_list;
mod scan_service;
mod service;
mod stab_service;

pub use dump_service::Dump;
pub use load_service::Load;
pub use map_rule::MapRule;
pub use ordering::put_in_order;
pub use service::Service;
