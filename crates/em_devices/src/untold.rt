//! A device that tells nothing of what it holds, and holds nothing that is written.
ghost use Rattle.std.specs.Prelude.{◌≡◌, false, []};

use em_frames::{BeginFault, Device};
use em_record::{Failed, Record};

/// Each record that is read is `given`, whatever was written there. No call fails.
#[derive(Drop)]
pub struct Untold {
    given: Record,
    echoes: bool,
    block: u64,
    blocks: u64,
    moves: u64,
    ghost unmoved: { blocks ≡ 0 → moves ≡ 0 },
}

impl Untold {
    /// A device, not begun yet, that gives this record for each.
    pub fn giving(given: Record) -> Untold
        ensures blocks { result.blocks ≡ 0 }
        ensures moves { result.moves ≡ 0 }
    {
        Untold {
            given,
            echoes: false,
            block: 0,
            blocks: 0,
            moves: 0,
        }
    }

    /// A device, not begun yet, that gives for each record the first one of the last block that was
    /// written.
    pub fn echo() -> Untold
        ensures blocks { result.blocks ≡ 0 }
        ensures moves { result.moves ≡ 0 }
    {
        let mut device = Untold::giving(Record::ZERO);
        device.echoes = true;
        device
    }

    /// The blocks that were read and written. The count stays at 2^64 - 1.
    pub fn moves(&self) -> u64
        ensures { result ≡ self.now.moves }
    {
        self.moves
    }
}

impl Device for Untold {
    ghost state = { λ d. record {
      told = false;
      contents = [];
      blocks = d.blocks;
      block = d.block;
      faults = 0;
      moves = d.moves;
    } };

    fn begin(&mut self, block: u32, blocks: u64) -> Result<(), BeginFault> {
        self.block = u64::from(block);
        self.blocks = blocks;
        Ok(())
    }

    fn read(&mut self, _at: u64, into: &mut [Record]) -> Result<(), Failed> {
        into.fill(self.given);
        self.moves = self.moves.saturating_add(1);
        Ok(())
    }

    fn write(&mut self, _at: u64, from: &[Record]) -> Result<(), Failed> {
        if self.echoes
            && let Some(first) = from.first()
        {
            self.given = *first;
        }
        self.moves = self.moves.saturating_add(1);
        Ok(())
    }
}
