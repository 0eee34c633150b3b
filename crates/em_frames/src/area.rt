ghost use Rattle.std.specs.Prelude.{◌≡◌, ◌≤◌, ◌++◌, length, take, drop};
ghost use Rattle.std.specs.Borrow.{sem};
ghost use Rattle.em_record.specs.Order.{in_order};

use em_record::Record;
use std::marker::Model;

/// The memory of a load: w blocks of records, side by side. A pool lends it, and it goes back to a
/// pool: it can't be dropped.
pub struct Area {
    pub(crate) records: Vec<Record>,
}

impl Model for Area {
    ghost use Rattle.std.specs.Prelude.{List};
    ghost use Rattle.em_record.specs.declared.record.Record.{Record};

    ghost Value = { List Record };

    ghost view = { λ a. a.records.items };
}

impl Area {
    ghost use Rattle.em_frames.specs.Frames.{LendsLoad};

    /// The records of the area, w·B of them.
    pub fn records(&self) -> &[Record]
        ensures { result.now ≡ self.now }
    {
        &self.records
    }

    /// The same, to be changed in place.
    pub fn records_mut(&mut self) -> &mut [Record]
        ensures* writes_back { sem 𝓛 (LendsLoad self.entry result) }
        ensures value { result.now ≡ self.old }
    {
        self.records.as_mut_slice()
    }

    /// Puts the first `count` records in order, by std's `sort_unstable`, and leaves the others.
    pub fn sort(&mut self, count: usize)
        requires room { count ≤ length self.old }
        ensures sorted { self.new ≡ in_order (take count self.old) ++ drop count self.old }
    {
        sort_front(self.records.as_mut_slice(), count);
    }
}

/// Puts the first `count` records in order, and leaves the others.
fn sort_front(records: &mut [Record], count: usize)
    requires room { count ≤ length records.old }
    ensures sorted { records.new ≡ in_order (take count records.old) ++ drop count records.old }
    ensures len { length records.new ≡ length records.old }
{
    records[..count].sort_unstable();
}
