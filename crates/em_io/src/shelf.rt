ghost use Rattle.std.specs.Prelude.{◌≡◌, ◌<◌, ◌≤◌, ◌||◌, Bool, false, true, ℕ, [], length, take, IfOk, OnOk, OnErr, IsTrue, is_ok, is_none, Some};
ghost use Rattle.em_io.specs.Shelf.{Stand, Leaves, TakesOff};
ghost use Rattle.em_record.specs.Count.{HasCause};

use em_record::Failed;

/// One of the two texts that a run can read.
#[derive(Clone, Copy, Debug, PartialEq, Eq, Drop)]
pub enum Slot {
    /// The command file, the circuit, or the first of two files of numbers.
    First,
    /// The stimulus of a circuit, or the second file of numbers.
    Second,
}

/// Where texts are read from: two slots, each opened once on a named text and then read to its end.
pub trait Shelf {
    /// Whether the shelf tells its texts.
    ghost tells: { Bool };

    /// The texts and the two slots.
    ghost stand: { Self → Stand };

    /// How often it has failed; it stays at 2^64 - 1.
    ghost faults: { Self → ℕ };

    /// Opens a slot on the text of a name. If no text has that name it fails, and the slot is
    /// lost for good.
    fn open(&mut self, slot: Slot, name: &str) -> Result<(), Failed>
        requires { ((stand self.old).slot slot).opened ≡ false }
        ensures leaves { Leaves slot (stand self.old) (stand self.new) }
        ensures opened { ((stand self.new).slot slot).opened ≡ true }
        ensures ready { ((stand self.new).slot slot).ready ≡ is_ok result }
        ensures lost { IsTrue tells → ((stand self.new).slot slot).lost
            ≡ (((stand self.old).slot slot).lost || is_none ((stand self.old).text slot name.now)) }
        ensures whole { IsTrue tells → OnOk result
            ((stand self.old).text slot name.now ≡ Some ((stand self.new).slot slot).left) }
        ensures cause { HasCause (faults self.old) (faults self.new) result };

    /// Reads on in a slot that was opened with Ok: how many bytes it put into the front of `into`,
    /// none exactly if nothing is left.
    fn read(&mut self, slot: Slot, into: &mut [u8]) -> Result<usize, Failed>
        requires ready { ((stand self.old).slot slot).ready ≡ true }
        requires room { 0 < length into.old }
        ensures leaves { Leaves slot (stand self.old) (stand self.new) }
        ensures opened { ((stand self.new).slot slot).opened ≡ ((stand self.old).slot slot).opened }
        ensures ready { ((stand self.new).slot slot).ready ≡ true }
        ensures within { IfOk result (λ n. n ≤ length into.new) }
        ensures bytes { IsTrue tells → IfOk result
            (λ n. TakesOff slot (take n into.new) (stand self.old) (stand self.new)) }
        ensures end { IsTrue tells → IfOk result
            (λ n. n ≡ 0 → ((stand self.old).slot slot).left ≡ []) }
        ensures failed { IsTrue tells → OnErr result
            (TakesOff slot [] (stand self.old) (stand self.new)) }
        ensures cause { HasCause (faults self.old) (faults self.new) result };
}
