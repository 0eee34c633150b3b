//! Tests of the structures, by calls that any user may make: a tree, a map's batch, a queue and an interval list.
#![tactic(auto)]

#[cfg(test)]
mod batches;
#[cfg(test)]
mod file_answers;
#[cfg(test)]
mod full;
#[cfg(test)]
mod item_scripts;
#[cfg(test)]
mod map_answers;
#[cfg(test)]
mod map_scripts;
#[cfg(test)]
mod models;
#[cfg(test)]
mod plain_map;
#[cfg(test)]
mod plain_queue;
#[cfg(test)]
mod queue_answers;
#[cfg(test)]
mod queues;
#[cfg(test)]
mod reading;
#[cfg(test)]
mod runs;
#[cfg(test)]
mod sorts;
#[cfg(test)]
mod stab_answers;
#[cfg(test)]
mod stab_scripts;
#[cfg(test)]
mod stabs;
#[cfg(test)]
mod tree_answers;
#[cfg(test)]
mod trees;
