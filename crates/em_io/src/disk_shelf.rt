ghost use Rattle.std.specs.Prelude.{◌≡◌, ◌<◌, ◌≤◌, true, false, length, is_ok, is_err, is_some, IfOk, if◌then◌else◌};
ghost use Rattle.em_io.specs.DiskShelf.{stand_of};
ghost use Rattle.em_io.specs.Shelf.{Leaves, StaysOpen, unopened};
ghost use Rattle.em_record.specs.Count.{HasCause, next_count};

use crate::shelf::{Shelf, Slot};
use em_record::Failed;
use std::io::Read;
use std::marker::Model;
use std::rt::Files;
use std::{fs, io};

/// The files of a runtime as a shelf that tells nothing.
#[derive(Drop)]
pub struct DiskShelf<'p, R: Files> {
    rt: &'p R,
    first: Option<R::File>,
    second: Option<R::File>,
    first_opened: bool,
    second_opened: bool,
    faults: u64,
}

impl<'p, R: Files> Model for DiskShelf<'p, R> {
    ghost use Rattle.std.specs.Prelude.{is_some};
    ghost use Rattle.em_io.specs.DiskShelf.{DiskShelfState, untold};

    ghost Value = { DiskShelfState };

    ghost view = { λ s. record {
      first = untold s.first_opened (is_some s.first);
      second = untold s.second_opened (is_some s.second);
      faults = s.faults;
    } };
}

impl<'p, R: Files> DiskShelf<'p, R> {
    /// A shelf of which no slot was opened.
    pub fn new(rt: &'p R) -> DiskShelf<'p, R>
        ensures { result ≡ record { first = unopened; second = unopened; faults = 0 } }
    {
        DiskShelf {
            rt,
            first: None,
            second: None,
            first_opened: false,
            second_opened: false,
            faults: 0,
        }
    }
}

/// Reads on in a file that is open.
fn read_open<F: Read>(file: &mut Option<F>, into: &mut [u8]) -> io::Result<usize>
    requires { is_some file.old ≡ true }
    ensures same { is_some file.new ≡ true }
    ensures room { length into.new ≡ length into.old }
    ensures within { IfOk result (λ n. n ≤ length into.old) }
{
    match file {
        Some(file) => file.read(into),
        None => unreachable!(),
    }
}

impl<'p, R: Files> Shelf for DiskShelf<'p, R> {
    ghost tells = { false };

    ghost stand = { stand_of };

    ghost faults = { λ s. s.faults };

    fn open(&mut self, slot: Slot, name: &str) -> Result<(), Failed>
        requires { ((stand_of self.old).slot slot).opened ≡ false }
        ensures leaves { Leaves slot (stand_of self.old) (stand_of self.new) }
        ensures opened { ((stand_of self.new).slot slot).opened ≡ true }
        ensures ready { ((stand_of self.new).slot slot).ready ≡ is_ok result }
        ensures cause { HasCause self.old.faults self.new.faults result }
        ensures count { self.new.faults
            ≡ (if is_err result then next_count self.old.faults else self.old.faults) }
    {
        let file = fs::open(self.rt, name).ok();
        let ready = file.is_some();
        match slot {
            Slot::First => {
                self.first_opened = true;
                self.first = file;
            }
            Slot::Second => {
                self.second_opened = true;
                self.second = file;
            }
        }
        if ready {
            return Ok(());
        }
        self.faults = self.faults.saturating_add(1);
        Err(Failed)
    }

    fn read(&mut self, slot: Slot, into: &mut [u8]) -> Result<usize, Failed>
        requires ready { ((stand_of self.old).slot slot).ready ≡ true }
        requires room { 0 < length into.old }
        ensures stays { StaysOpen slot (length into.new) (stand_of self.old) (stand_of self.new)
            result }
        ensures cause { HasCause self.old.faults self.new.faults result }
        ensures count { self.new.faults
            ≡ (if is_err result then next_count self.old.faults else self.old.faults) }
    {
        let read = match slot {
            Slot::First => read_open(&mut self.first, into),
            Slot::Second => read_open(&mut self.second, into),
        };
        match read {
            Ok(count) => Ok(count),
            Err(_) => {
                self.faults = self.faults.saturating_add(1);
                Err(Failed)
            }
        }
    }
}
