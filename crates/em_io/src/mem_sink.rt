ghost use Rattle.std.specs.Prelude.{◌≡◌, ◌<◌, ◌≤◌, ◌++◌, min, length, take, IfOk, OnErr};
ghost use Rattle.em_io.specs.MemSink.{IsSinkCall, fresh_sink};
ghost use Rattle.em_record.specs.Count.{HasCause};

use crate::sink::Sink;
use em_record::{Calls, Failed, NoMemory};
use std::alloc::Global;
use std::marker::Model;

/// A sink in memory, for tests: it keeps its bytes, takes them in pieces, and fails where it is
/// told to.
#[derive(Drop)]
pub struct MemSink {
    bytes: Vec<u8>,
    piece: usize,
    calls: Calls,
}

impl Model for MemSink {
    ghost use Rattle.std.specs.Prelude.{◌<◌};
    ghost use Rattle.em_io.specs.MemSink.{MemSinkState};

    ghost Value = { MemSinkState };

    ghost view = { λ s. record { bytes = s.bytes.items; piece = s.piece; counts = s.calls } };

    ghost invariant = { λ s. 0 < s.piece };
}

impl MemSink {
    /// An empty sink. A write takes at most `piece` bytes, which is at least 1; `failing` holds the
    /// numbers, from 0, of the calls of `write` that are to fail.
    pub fn new(alloc: Global, piece: usize, failing: &[u64]) -> Result<MemSink, NoMemory>
        requires { 0 < piece }
        ensures { IfOk result (λ s. s ≡ fresh_sink piece failing.now) }
    {
        let calls = Calls::new(alloc, failing)?;
        Ok(MemSink {
            bytes: Vec::new(alloc),
            piece,
            calls,
        })
    }

    /// What was taken.
    pub fn bytes(&self) -> &[u8]
        ensures { result.now ≡ self.now.bytes }
    {
        &self.bytes
    }

    /// The number of writes that found no memory.
    pub fn refused(&self) -> u64
        ensures { result ≡ self.now.counts.refused }
    {
        self.calls.refused()
    }
}

impl Sink for MemSink {
    ghost use Rattle.std.proofs.lemmas.List.{append-nil, append_assoc};

    ghost state = { λ s. s.bytes };

    ghost took = { λ s x. s ++ x };

    ghost IsState = { λ _. Unit {0} };

    ghost faults = { λ s. s.counts.faults };

    fn write(&mut self, from: &[u8]) -> Result<usize, Failed>
        requires { 0 < length from.now }
        ensures some { IfOk result (λ n. 0 < n) }
        ensures within { IfOk result (λ n. n ≤ length from.now) }
        ensures took { IfOk result (λ n. self.new.bytes ≡ self.old.bytes ++ take n from.now) }
        ensures kept { OnErr result (self.new.bytes ≡ self.old.bytes) }
        ensures cause { HasCause self.old.counts.faults self.new.counts.faults result }
        ensures count { IfOk result (λ n. n ≡ min self.old.piece (length from.now)) }
        ensures call { IsSinkCall self.old self.new result }
    {
        if self.calls.next_fails() {
            self.calls.fail();
            return Err(Failed);
        }
        let count = self.piece.min(from.len());
        if self.bytes.extend_from_slice(&from[..count]).is_err() {
            self.calls.refuse();
            return Err(Failed);
        }
        self.calls.pass();
        Ok(count)
    }

    ghost is_state = { λ _. tt };

    ghost rule = { record {
      stays = λ s x h. tt;
      nothing = λ s h. append-nil s;
      both = λ s x y h. append_assoc s x y;
    } };
}
