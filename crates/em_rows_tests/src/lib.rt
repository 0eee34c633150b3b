//! Tests of `em_rows` and of `run_over` of `em_tool`: whole runs over texts in memory.
#![tactic(auto)]

#[cfg(test)]
mod failing;
#[cfg(test)]
mod holding;
#[cfg(test)]
mod jobs;
#[cfg(test)]
mod rows;
#[cfg(test)]
mod runs;
#[cfg(test)]
mod tools;
