//! A device that looks at what is written, and may give other records than were written.
ghost use Rattle.std.specs.Prelude.{◌≡◌, false, []};

use crate::tests::Wrong;
use em_frames::{BeginFault, Device, MemDevice};
use em_record::{Failed, Record};

/// A device that tells nothing, and keeps what is written. A read gives it, or what `Wrong` says. The device
/// notes the first block that was read, and whether a node of a map's tree with two entries or more was
/// written.
#[derive(Drop)]
pub(super) struct OddDevice {
    pub(super) kept: MemDevice,
    pub(super) blocks: u64,
    pub(super) wrong: Wrong,
    /// The first block that is lost, if some are.
    pub(super) good: u64,
    pub(super) first: Option<u64>,
    pub(super) parted: bool,
    ghost same: { blocks ≡ kept.blocks },
}

/// What a read gives at every place of a block that is lost.
const LOST: Record = Record {
    a: u64::MAX,
    b: u64::MAX,
    c: u64::MAX,
    d: u64::MAX,
};

/// Whether a block is laid out as a node whose second entry begins at a key of a map, as docs/FORMATS.md
/// has it: 2 is a node's kind, and records 2 and 5 are the first two low keys.
fn is_parted(block: &[Record]) -> bool {
    if block.len() < 6 {
        return false;
    }
    let header = block[0];
    let second = block[5];
    header.c == 2 && header.b >= 2 && second.b == 0 && second.a > block[2].a
}

impl Device for OddDevice {
    ghost state = { λ d. record {
      told = false;
      contents = [];
      blocks = d.kept.blocks;
      block = d.kept.block;
      faults = d.kept.counts.faults;
      moves = d.kept.moves;
    } };

    fn begin(&mut self, block: u32, blocks: u64) -> Result<(), BeginFault> {
        self.kept.begin(block, blocks)?;
        self.blocks = blocks;
        Ok(())
    }

    fn read(&mut self, at: u64, into: &mut [Record]) -> Result<(), Failed> {
        let first = self.first.or(Some(at));
        self.first = first;
        let blocks = self.blocks;
        if self.wrong == Wrong::Next {
            return self.kept.read((at + 1) % blocks, into);
        }
        if self.wrong != Wrong::Lost || at < self.good {
            return self.kept.read(at, into);
        }
        let read = self.kept.read(at, into);
        into.fill(LOST);
        read
    }

    fn write(&mut self, at: u64, from: &[Record]) -> Result<(), Failed> {
        let parted = self.parted || is_parted(from);
        self.parted = parted;
        self.kept.write(at, from)
    }
}
