//! One node's buffer emptied into the buffers of its children, in order of arrival.
#![tactic(auto)]

mod answer;
mod dealing;
mod emptying;
mod gathering;
mod loading;
mod returning;

pub use emptying::empty_node;
