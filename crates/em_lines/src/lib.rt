//! Lines of command files and of bases: a line is read from a text on a shelf, byte by byte, and is a command or a pair,
//! or has a fault.
#![tactic(auto)]

mod ahead;
mod base;
mod byte;
mod line;
mod numeral;
mod operand;
mod text;
mod word;

pub use base::take_pair;
pub use byte::{next_byte, take_byte, take_bytes};
pub use line::take_line;
pub use numeral::number;
pub use text::{FileKind, LineStop, TextKind};
