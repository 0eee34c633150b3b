//! A run of a task on an open rig, over files or over made texts.
#![tactic(auto)]

mod generate;
mod job;
mod run;

pub use job::run_job;
pub use run::run_on;
