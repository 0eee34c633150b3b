//! Tests of the parts of a buffer tree, each by calls that any user may make.
#![tactic(auto)]

#[cfg(test)]
mod adopted;
#[cfg(test)]
mod blocks;
#[cfg(test)]
mod built;
#[cfg(test)]
mod calls;
#[cfg(test)]
mod checked;
#[cfg(test)]
mod drained;
#[cfg(test)]
mod emptied;
#[cfg(test)]
mod firsts;
#[cfg(test)]
mod fused_leaves;
#[cfg(test)]
mod fused_nodes;
#[cfg(test)]
mod halves;
#[cfg(test)]
mod leaves;
#[cfg(test)]
mod loads;
#[cfg(test)]
mod nodes;
#[cfg(test)]
mod rows;
#[cfg(test)]
mod splits;
#[cfg(test)]
mod walks;
