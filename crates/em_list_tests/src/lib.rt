//! Tests of lists: chains, groups of them, the plain structures, and what pops, sorts and weaves lists, by calls that any user
//! may make.
#![tactic(auto)]

#[cfg(test)]
mod chains;
#[cfg(test)]
mod clients;
#[cfg(test)]
mod groups;
#[cfg(test)]
mod maps;
#[cfg(test)]
mod queued;
#[cfg(test)]
mod queues;
#[cfg(test)]
mod room_queue;
#[cfg(test)]
mod rows;
#[cfg(test)]
mod sorting;
#[cfg(test)]
mod stabs;
#[cfg(test)]
mod tables;
#[cfg(test)]
mod weaves;
