ghost use Rattle.std.specs.Prelude.{◌≡◌, ◌+◌, ◌^◌, ◌<◌, ◌≤◌, [], true, length, drop, IfOk, IsTrue, slice_get};
ghost use Rattle.em_io.specs.Feed.{rest, Takes};
ghost use Rattle.em_record.specs.Count.{HasCause};

use crate::shelf::{Shelf, Slot};
use em_record::Failed;
use std::marker::Model;

/// The bytes of an open slot, one at a time, over a buffer of 4096 bytes.
#[derive(Drop)]
pub struct Feed {
    slot: Slot,
    buffer: [u8; 4096],
    at: usize,
    end: usize,
    place: u64,
}

impl Model for Feed {
    ghost use Rattle.std.specs.Prelude.{◌≤◌, take, drop};
    ghost use Rattle.em_io.specs.Feed.{Fed};

    ghost Value = { Fed };

    ghost view = { λ f. record {
      slot = f.slot;
      ahead = drop f.at (take f.end f.buffer);
      place = f.place;
    } };

    ghost invariant = { λ f. (f.at ≤ f.end) × (f.end ≤ 4096) };
}

impl Feed {
    /// A feed of this slot, which took nothing yet.
    pub fn new(slot: Slot) -> Feed
        ensures { result ≡ record { slot = slot; ahead = []; place = 0 } }
    {
        Feed {
            slot,
            buffer: [0; 4096],
            at: 0,
            end: 0,
            place: 0,
        }
    }

    /// How many bytes were taken.
    pub fn place(&self) -> u64
        ensures { result ≡ self.now.place }
    {
        self.place
    }

    /// The next byte, without taking it; none exactly at the text's end. The slot was opened with
    /// Ok. After a failure the feed is not used again.
    #[inline]
    pub fn peek<H: Shelf>(&mut self, shelf: &mut H) -> Result<Option<u8>, Failed>
        requires { ((H.stand shelf.old).slot self.old.slot).ready ≡ true }
        ensures takes { Takes H.tells [] self.old (H.stand shelf.old) self.new (H.stand shelf.new) }
        ensures ahead { IfOk result (λ next. next ≡ slice_get self.new.ahead 0) }
        ensures first { IsTrue H.tells → IfOk result
            (λ next. next ≡ slice_get (rest self.old (H.stand shelf.old)) 0) }
        ensures cause { HasCause (H.faults shelf.old) (H.faults shelf.new) result }
    {
        if self.at < self.end {
            return Ok(Some(self.buffer[self.at]));
        }
        self.fill(shelf)
    }

    /// Reads the next piece of the text into the buffer, of which all bytes were taken, and gives its first
    /// byte.
    #[cold]
    fn fill<H: Shelf>(&mut self, shelf: &mut H) -> Result<Option<u8>, Failed>
        requires ready { ((H.stand shelf.old).slot self.old.slot).ready ≡ true }
        requires empty { self.old.ahead ≡ [] }
        ensures takes { Takes H.tells [] self.old (H.stand shelf.old) self.new (H.stand shelf.new) }
        ensures ahead { IfOk result (λ next. next ≡ slice_get self.new.ahead 0) }
        ensures first { IsTrue H.tells → IfOk result
            (λ next. next ≡ slice_get (rest self.old (H.stand shelf.old)) 0) }
        ensures cause { HasCause (H.faults shelf.old) (H.faults shelf.new) result }
    {
        let count = shelf.read(self.slot, &mut self.buffer)?;
        self.at = 0;
        self.end = count;
        if count == 0 {
            return Ok(None);
        }
        Ok(Some(self.buffer[0]))
    }

    /// Takes the byte that the last `peek` gave.
    pub fn take(&mut self)
        requires ahead { 0 < length self.old.ahead }
        requires place { self.old.place < 2 ^ 50 }
        ensures slot { self.new.slot ≡ self.old.slot }
        ensures ahead { self.new.ahead ≡ drop 1 self.old.ahead }
        ensures place { self.new.place ≡ self.old.place + 1 }
    {
        self.at += 1;
        self.place += 1;
    }

    /// The bytes that were read and not taken yet.
    #[inline]
    pub fn ahead(&self) -> &[u8]
        ensures { result.now ≡ self.now.ahead }
    {
        &self.buffer[self.at..self.end]
    }

    /// Takes this many of the bytes that `ahead` gives.
    #[inline]
    pub fn skip(&mut self, count: usize)
        requires ahead { count ≤ length self.old.ahead }
        requires place { self.old.place + count ≤ 2 ^ 50 }
        ensures slot { self.new.slot ≡ self.old.slot }
        ensures ahead { self.new.ahead ≡ drop count self.old.ahead }
        ensures place { self.new.place ≡ self.old.place + count }
    {
        self.at += count;
        self.place += count as u64;
    }
}
