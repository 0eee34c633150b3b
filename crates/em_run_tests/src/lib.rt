//! Whole jobs on a rig that the test holds open, so that the blocks of the run can be counted after it.
#![tactic(auto)]

#[cfg(test)]
mod jobs;
