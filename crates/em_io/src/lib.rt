//! Bytes in and bytes out: where texts are read from, and what lines are written to.
#![tactic(auto)]

mod digits;
mod disk_shelf;
mod feed;
mod mem_shelf;
mod mem_sink;
mod mem_texts;
mod printer;
mod shelf;
mod sink;
mod std_sink;

pub use digits::Digits;
pub use disk_shelf::DiskShelf;
pub use feed::Feed;
pub use mem_shelf::MemShelf;
pub use mem_sink::MemSink;
pub use printer::Printer;
pub use shelf::{Shelf, Slot};
pub use sink::{Sink, send};
pub use std_sink::StdSink;
