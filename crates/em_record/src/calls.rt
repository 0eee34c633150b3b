ghost use Rattle.std.specs.Prelude.{◌≡◌, ◌↔◌, ◌≤◌, IsTrue, IfOk, Contains};
ghost use Rattle.em_record.specs.Calls.{CallCounts, AreCounts};
ghost use Rattle.em_record.specs.Count.{next_count};

use crate::fault::NoMemory;
use std::alloc::Global;
use std::marker::Model;

/// The numbered calls of a value in memory, of which some are to fail. Its counts stay at 2^64 - 1.
#[derive(Drop)]
pub struct Calls {
    failing: Vec<u64>,
    calls: u64,
    faults: u64,
    refused: u64,
}

impl Model for Calls {
    ghost Value = { CallCounts };

    ghost view = { λ c. record {
      failing = c.failing.items;
      calls = c.calls;
      faults = c.faults;
      refused = c.refused;
    } };

    ghost invariant = { λ c. (c.refused ≤ c.faults) × (c.faults ≤ c.calls) };
}

impl Calls {
    /// No call was made. `failing` holds the numbers, from 0, of the calls that are to fail.
    pub fn new(alloc: Global, failing: &[u64]) -> Result<Calls, NoMemory>
        ensures { IfOk result (λ c. c ≡ record {
          failing = failing.now;
          calls = 0;
          faults = 0;
          refused = 0;
        }) }
    {
        let Ok(failing) = Vec::from_slice(alloc, failing) else {
            return Err(NoMemory);
        };
        Ok(Calls {
            failing,
            calls: 0,
            faults: 0,
            refused: 0,
        })
    }

    /// Whether the next call is to fail.
    pub fn next_fails(&self) -> bool
        ensures fails { IsTrue result ↔ Contains self.now.failing self.now.calls }
        ensures counts { AreCounts self.now }
    {
        let call = self.calls;
        self.failing.contains(&call)
    }

    /// Counts a call that didn't fail.
    pub fn pass(&mut self)
        ensures { self.new ≡ record self.old { calls = next_count self.old.calls } }
    {
        self.calls = self.calls.saturating_add(1);
    }

    /// Counts a call that failed.
    pub fn fail(&mut self)
        ensures { self.new ≡ record self.old {
          calls = next_count self.old.calls;
          faults = next_count self.old.faults;
        } }
    {
        let faults = self.faults.saturating_add(1);
        self.pass();
        self.faults = faults;
    }

    /// Counts a call that failed for want of memory.
    pub fn refuse(&mut self)
        ensures { self.new ≡ record self.old {
          calls = next_count self.old.calls;
          faults = next_count self.old.faults;
          refused = next_count self.old.refused;
        } }
    {
        let refused = self.refused.saturating_add(1);
        self.fail();
        self.refused = refused;
    }

    /// The number of calls that failed.
    pub fn faults(&self) -> u64
        ensures { result ≡ self.now.faults }
    {
        self.faults
    }

    /// The number of calls that failed for want of memory.
    pub fn refused(&self) -> u64
        ensures { result ≡ self.now.refused }
    {
        self.refused
    }
}
