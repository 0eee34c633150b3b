//! A sink that counts what it takes.
ghost use Rattle.std.specs.Prelude.{◌≡◌, ◌<◌, ◌≤◌, ◌∷◌, [], get_or, length, take, IfOk, OnErr, Ok};
ghost use Rattle.em_record.specs.Count.{HasCause};
ghost use Rattle.em_gen.specs.Tally.{AreThree, tallied, three};

use em_io::Sink;
use em_record::Failed;
use std::marker::Model;

/// A sink that takes all bytes and keeps three numbers of them, each modulo 2^64: the newlines, the
/// bytes, and the sum of their values. It is seen as the list of these numbers, and never fails.
#[derive(Debug, Drop)]
pub struct Tally {
    lines: u64,
    bytes: u64,
    sum: u64,
}

impl Model for Tally {
    ghost use Rattle.std.specs.Prelude.{List, ℕ};
    ghost use Rattle.em_gen.specs.Tally.{three};

    ghost Value = { List ℕ };

    ghost view = { λ t. three t.lines t.bytes t.sum };
}

impl Tally {
    /// A tally of no byte.
    pub fn new() -> Tally
        ensures { result ≡ three 0 0 0 }
    {
        Tally {
            lines: 0,
            bytes: 0,
            sum: 0,
        }
    }

    /// The newlines, modulo 2^64.
    pub fn lines(&self) -> u64
        ensures { result ≡ get_or (tallied self.now []) 0 0 }
    {
        self.lines
    }

    /// The bytes, modulo 2^64.
    pub fn bytes(&self) -> u64
        ensures { result ≡ get_or (tallied self.now []) 1 0 }
    {
        self.bytes
    }

    /// The sum of the values of the bytes, modulo 2^64.
    pub fn sum(&self) -> u64
        ensures { result ≡ get_or (tallied self.now []) 2 0 }
    {
        self.sum
    }

    /// Counts one byte.
    fn count(&mut self, byte: u8)
        ensures { self.new ≡ tallied self.old (byte ∷ []) }
    {
        let newline = if byte == b'\n' { 1 } else { 0 };
        self.lines = self.lines.wrapping_add(newline);
        self.bytes = self.bytes.wrapping_add(1);
        self.sum = self.sum.wrapping_add(u64::from(byte));
    }

    /// Counts these bytes.
    fn count_all(&mut self, bytes: &[u8])
        ensures { tallied self.new [] ≡ tallied self.old bytes.now }
    {
        for at in 0..bytes.len() {
            self.count(bytes[at]);
        }
    }
}

impl Sink for Tally {
    ghost use Rattle.em_gen.specs.TallyLaws.{tally_three, tally_rule};

    ghost state = { λ t. tallied t [] };

    ghost took = { tallied };

    ghost IsState = { AreThree };

    ghost faults = { λ _. 0 };

    fn write(&mut self, from: &[u8]) -> Result<usize, Failed>
        requires { 0 < length from.now }
        ensures some { IfOk result (λ n. 0 < n) }
        ensures within { IfOk result (λ n. n ≤ length from.now) }
        ensures took { IfOk result (λ n.
            tallied self.new [] ≡ tallied (tallied self.old []) (take n from.now)) }
        ensures kept { OnErr result (tallied self.new [] ≡ tallied self.old []) }
        ensures cause { HasCause 0 0 result }
        ensures whole { result ≡ Ok (length from.now) }
    {
        self.count_all(from);
        Ok(from.len())
    }

    ghost is_state = { λ t. tally_three t [] };

    ghost rule = { tally_rule };
}
