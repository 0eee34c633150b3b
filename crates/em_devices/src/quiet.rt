//! A device that keeps what is written, and doesn't tell it.
//!
//! Over such a device a call asks nothing of the blocks, so that any node may be written by hand.
ghost use Rattle.std.specs.Prelude.{◌≡◌, false, [], IfOk};

use em_frames::{BeginFault, Device, MemDevice};
use em_record::{Failed, NoMemory, Record};
use std::alloc::Global;

/// A device in memory that doesn't tell what it holds.
#[derive(Drop)]
pub struct Quiet {
    inner: MemDevice,
}

impl Quiet {
    /// A device, not begun yet. These calls of it fail, the first being 0.
    pub fn new(alloc: Global, failing: &[u64]) -> Result<Quiet, NoMemory>
        ensures { IfOk result (λ d. d.inner.blocks ≡ 0) }
    {
        let inner = MemDevice::new(alloc, failing)?;
        Ok(Quiet { inner })
    }
}

impl Device for Quiet {
    ghost state = { λ d. record {
      told = false;
      contents = [];
      blocks = d.inner.blocks;
      block = d.inner.block;
      faults = d.inner.counts.faults;
      moves = d.inner.moves;
    } };

    fn begin(&mut self, block: u32, blocks: u64) -> Result<(), BeginFault> {
        self.inner.begin(block, blocks)
    }

    fn read(&mut self, at: u64, into: &mut [Record]) -> Result<(), Failed> {
        self.inner.read(at, into)
    }

    fn write(&mut self, at: u64, from: &[Record]) -> Result<(), Failed> {
        self.inner.write(at, from)
    }
}
