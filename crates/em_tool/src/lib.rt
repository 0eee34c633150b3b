//! What the `main` of each small program shares: such a program is one struct, the `Tool`, and one call, `run_tool`.
#![tactic(auto)]

mod failure;
mod messages;
mod names;
mod program;
mod running;
mod tool;
mod words;

pub use failure::Failure;
pub use names::name_at;
pub use program::run_tool;
pub use running::run_over;
pub use tool::Tool;
