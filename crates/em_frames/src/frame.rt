ghost use Rattle.std.specs.Prelude.{◌≡◌};
ghost use Rattle.std.specs.Borrow.{sem};

use em_record::Record;
use std::marker::Model;

/// The memory of one block of records. A pool lends it, and it goes back to a pool: it can't be
/// dropped.
pub struct Frame {
    pub(crate) records: Vec<Record>,
}

impl Model for Frame {
    ghost use Rattle.std.specs.Prelude.{List};
    ghost use Rattle.em_record.specs.declared.record.Record.{Record};

    ghost Value = { List Record };

    ghost view = { λ f. f.records.items };
}

impl Frame {
    ghost use Rattle.em_frames.specs.Frames.{LendsRecords};

    /// The records of the frame, B of them.
    pub fn records(&self) -> &[Record]
        ensures { result.now ≡ self.now }
    {
        &self.records
    }

    /// The same, to be changed in place.
    pub fn records_mut(&mut self) -> &mut [Record]
        ensures* writes_back { sem 𝓛 (LendsRecords self.entry result) }
        ensures value { result.now ≡ self.old }
    {
        self.records.as_mut_slice()
    }
}
