//! A shelf of made texts.
ghost use Rattle.std.specs.Prelude.{◌≡◌, ◌^◌, ◌<◌, ◌≤◌, ◌||◌, [], true, false, length, take, is_ok, is_none, IfOk, OnOk, OnErr, Some};
ghost use Rattle.em_io.specs.Shelf.{Leaves, StaysOpen, TakesOff, unopened};
ghost use Rattle.em_record.specs.Count.{HasCause};
ghost use Rattle.em_gen.specs.Shelf.{stand_of};

use crate::kind::GenKind;
use crate::made::{Made, nothing_left, read_on, whole};
use em_io::{Shelf, Slot};
use em_record::Failed;
use std::marker::Model;

/// A shelf whose texts are made from a kind, a start and a count, as they are read: the first slot
/// has a command file or a circuit, and the second a stimulus. It takes any name, and never fails.
#[derive(Drop)]
pub struct GenShelf {
    kind: GenKind,
    start: u64,
    count: u64,
    first_opened: bool,
    second_opened: bool,
    first: Made,
    second: Made,
}

impl Model for GenShelf {
    ghost use Rattle.std.specs.Prelude.{◌^◌, ◌<◌, ◌≤◌};
    ghost use Rattle.em_io.specs.declared.shelf.Slot.TheVariants.{First, Second};
    ghost use Rattle.em_gen.specs.Shelf.{GenState, left_of, made_slot};
    ghost use Rattle.em_gen.specs.Steps.{CanMake};

    ghost Value = { GenState };

    ghost view = { λ s. record {
      kind = s.kind;
      start = s.start;
      count = s.count;
      first = made_slot s.first_opened (left_of s.kind First s.count s.first);
      second = made_slot s.second_opened (left_of s.kind Second s.count s.second);
    } };

    ghost invariant = { λ s. (0 < s.count) × (s.count ≤ 2 ^ 30) × CanMake s.first
        × CanMake s.second };
}

impl GenShelf {
    /// A shelf of the texts of this kind, of `count` lines or gates, which is from 1 to 2^30. Draws
    /// begin from `start`, modulo 2^31.
    pub fn new(kind: GenKind, start: u64, count: u64) -> GenShelf
        requires some { 0 < count }
        requires most { count ≤ 2 ^ 30 }
        ensures { result ≡ record {
          kind = kind;
          start = start;
          count = count;
          first = unopened;
          second = unopened;
        } }
    {
        GenShelf {
            kind,
            start,
            count,
            first_opened: false,
            second_opened: false,
            first: nothing_left(),
            second: nothing_left(),
        }
    }
}

impl Shelf for GenShelf {
    ghost tells = { true };

    ghost stand = { stand_of };

    ghost faults = { λ _. 0 };

    fn open(&mut self, slot: Slot, _name: &str) -> Result<(), Failed>
        requires { ((stand_of self.old).slot slot).opened ≡ false }
        ensures leaves { Leaves slot (stand_of self.old) (stand_of self.new) }
        ensures opened { ((stand_of self.new).slot slot).opened ≡ true }
        ensures ready { ((stand_of self.new).slot slot).ready ≡ is_ok result }
        ensures lost { ((stand_of self.new).slot slot).lost ≡ (((stand_of self.old).slot slot).lost
            || is_none ((stand_of self.old).text slot _name.now)) }
        ensures whole { OnOk result
            ((stand_of self.old).text slot _name.now ≡ Some ((stand_of self.new).slot slot).left) }
        ensures cause { HasCause 0 0 result }
        ensures never { is_ok result ≡ true }
    {
        let made = whole(self.kind, slot, self.start, self.count);
        match slot {
            Slot::First => {
                self.first = made;
                self.first_opened = true;
            }
            Slot::Second => {
                self.second = made;
                self.second_opened = true;
            }
        }
        Ok(())
    }

    fn read(&mut self, slot: Slot, into: &mut [u8]) -> Result<usize, Failed>
        requires ready { ((stand_of self.old).slot slot).ready ≡ true }
        requires room { 0 < length into.old }
        ensures stays { StaysOpen slot (length into.new) (stand_of self.old) (stand_of self.new)
            result }
        ensures bytes { IfOk result
            (λ n. TakesOff slot (take n into.new) (stand_of self.old) (stand_of self.new)) }
        ensures end { IfOk result (λ n. n ≡ 0 → ((stand_of self.old).slot slot).left ≡ []) }
        ensures failed { OnErr result (TakesOff slot [] (stand_of self.old) (stand_of self.new)) }
        ensures cause { HasCause 0 0 result }
        ensures never { is_ok result ≡ true }
    {
        let count = match slot {
            Slot::First => read_on(self.kind, Slot::First, self.count, &mut self.first, into),
            Slot::Second => read_on(self.kind, Slot::Second, self.count, &mut self.second, into),
        };
        Ok(count)
    }
}
