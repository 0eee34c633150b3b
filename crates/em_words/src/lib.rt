//! The words of a run: the options of a command, and the job that all words name, or their first refusal.
#![tactic(auto)]

mod job;
mod option;

pub use job::{Job, Origin, Task, Verb, name_at, read_job, task_name};
