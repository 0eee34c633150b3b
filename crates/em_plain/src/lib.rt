//! The plain structures: a map, an interval list and a queue that keep what they were given in one
//! chain. For each get and each stab the commands before it are read again; a pop reads all items and
//! writes all but the least one. The answers are proved right.
#![tactic(auto)]

mod answers;
mod command_list;
mod command_record;
mod copying;
mod map_answers;
mod question;
mod scan_map;
mod scan_queue;
mod scan_stab;
mod stab_answers;

pub use scan_map::ScanMap;
pub use scan_queue::ScanQueue;
pub use scan_stab::ScanStab;
