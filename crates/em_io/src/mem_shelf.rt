ghost use Rattle.std.specs.Prelude.{◌≡◌, ◌<◌, ◌||◌, [], true, false, min, length, take, is_ok, is_none, IfOk, OnOk, OnErr, None, Some};
ghost use Rattle.em_io.specs.MemShelf.{IsShelfCall, stand_of, text_under, with_text};
ghost use Rattle.em_io.specs.Shelf.{Leaves, StaysOpen, TakesOff, unopened};
ghost use Rattle.em_record.specs.Count.{HasCause};

use crate::mem_texts::{CLOSED, Mark, Text, open_on, read_on};
use crate::shelf::{Shelf, Slot};
use em_record::{Calls, Failed, NoMemory};
use std::alloc::Global;
use std::marker::Model;

/// A shelf in memory, for tests: it gives its texts in pieces, and fails where it is told to.
/// Both slots have the same texts.
#[derive(Drop)]
pub struct MemShelf {
    alloc: Global,
    texts: Vec<Text>,
    first: Mark,
    second: Mark,
    piece: usize,
    calls: Calls,
}

impl Model for MemShelf {
    ghost use Rattle.std.specs.Prelude.{◌<◌};
    ghost use Rattle.em_io.specs.MemShelf.{MemShelfState};
    ghost use Rattle.em_io.specs.MemTexts.{slot_at};

    ghost Value = { MemShelfState };

    ghost view = { λ s. record {
      texts = s.texts.items;
      first = slot_at s.texts.items s.first;
      second = slot_at s.texts.items s.second;
      piece = s.piece;
      counts = s.calls;
    } };

    ghost invariant = { λ s. 0 < s.piece };
}

impl MemShelf {
    /// A shelf with no text. A read gives at most `piece` bytes, which is at least 1; `failing`
    /// holds the numbers, from 0, of the calls of `open` and `read` that are to fail.
    pub fn new(alloc: Global, piece: usize, failing: &[u64]) -> Result<MemShelf, NoMemory>
        requires { 0 < piece }
        ensures { IfOk result (λ s. s ≡ record {
          texts = [];
          first = unopened;
          second = unopened;
          piece = piece;
          counts = record { failing = failing.now; calls = 0; faults = 0; refused = 0 };
        }) }
    {
        let calls = Calls::new(alloc, failing)?;
        Ok(MemShelf {
            alloc,
            texts: Vec::new(alloc),
            first: CLOSED,
            second: CLOSED,
            piece,
            calls,
        })
    }

    /// Adds a text, in the place of the one of that name. No slot is open.
    pub fn add(&mut self, name: &str, bytes: &[u8]) -> Result<(), NoMemory>
        requires first { self.old.first.ready ≡ false }
        requires second { self.old.second.ready ≡ false }
        ensures added { OnOk result (text_under self.new.texts
            ≡ with_text (text_under self.old.texts) name.now bytes.now) }
        ensures others { self.new ≡ record self.old { texts = self.new.texts } }
        ensures failed { OnErr result (self.new ≡ self.old) }
    {
        let Ok(name) = Vec::from_slice(self.alloc, name.as_bytes()) else {
            return Err(NoMemory);
        };
        let Ok(bytes) = Vec::from_slice(self.alloc, bytes) else {
            return Err(NoMemory);
        };
        let Ok(()) = self.texts.insert(0, Text { name, bytes }) else {
            return Err(NoMemory);
        };
        Ok(())
    }
}

impl Shelf for MemShelf {
    ghost tells = { true };

    ghost stand = { stand_of };

    ghost faults = { λ s. s.counts.faults };

    fn open(&mut self, slot: Slot, name: &str) -> Result<(), Failed>
        requires { ((stand_of self.old).slot slot).opened ≡ false }
        ensures leaves { Leaves slot (stand_of self.old) (stand_of self.new) }
        ensures opened { ((stand_of self.new).slot slot).opened ≡ true }
        ensures ready { ((stand_of self.new).slot slot).ready ≡ is_ok result }
        ensures lost { ((stand_of self.new).slot slot).lost ≡ (((stand_of self.old).slot slot).lost
            || is_none (text_under self.old.texts name.now)) }
        ensures whole { OnOk result
            (text_under self.old.texts name.now ≡ Some ((stand_of self.new).slot slot).left) }
        ensures cause { HasCause self.old.counts.faults self.new.counts.faults result }
        ensures call { IsShelfCall (text_under self.old.texts name.now ≡ None)
            self.old self.new result }
    {
        let mark = open_on(&self.texts, name.as_bytes(), self.calls.next_fails());
        match slot {
            Slot::First => self.first = mark,
            Slot::Second => self.second = mark,
        }
        if !mark.ready {
            self.calls.fail();
            return Err(Failed);
        }
        self.calls.pass();
        Ok(())
    }

    fn read(&mut self, slot: Slot, into: &mut [u8]) -> Result<usize, Failed>
        requires ready { ((stand_of self.old).slot slot).ready ≡ true }
        requires room { 0 < length into.old }
        ensures stays { StaysOpen slot (length into.new) (stand_of self.old) (stand_of self.new)
            result }
        ensures bytes { IfOk result
            (λ n. TakesOff slot (take n into.new) (stand_of self.old) (stand_of self.new)) }
        ensures end { IfOk result (λ n. n ≡ 0 → ((stand_of self.old).slot slot).left ≡ []) }
        ensures failed { OnErr result (TakesOff slot [] (stand_of self.old) (stand_of self.new)) }
        ensures cause { HasCause self.old.counts.faults self.new.counts.faults result }
        ensures count { IfOk result (λ n. n ≡ min (min self.old.piece (length into.old))
            (length ((stand_of self.old).slot slot).left)) }
        ensures call { IsShelfCall ⊥ self.old self.new result }
    {
        if self.calls.next_fails() {
            self.calls.fail();
            return Err(Failed);
        }
        self.calls.pass();
        match slot {
            Slot::First => Ok(read_on(&self.texts, &mut self.first, self.piece, into)),
            Slot::Second => Ok(read_on(&self.texts, &mut self.second, self.piece, into)),
        }
    }
}
