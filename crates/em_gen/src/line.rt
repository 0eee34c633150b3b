ghost use Rattle.std.specs.Prelude.{◌≡◌, ◌+◌, ◌<◌, ◌≤◌, ◌++◌, ◌∷◌, [], decimal, length};

use arrayvec::ArrayVec;
use itoa::Buffer;
use std::marker::Model;

/// A line of at most 64 bytes. It is seen as its bytes.
#[derive(Drop)]
pub struct Line {
    bytes: ArrayVec<u8, 64>,
}

impl Model for Line {
    ghost use Rattle.std.specs.Prelude.{List, ℕ};

    ghost Value = { List ℕ };

    ghost view = { λ l. l.bytes.items };
}

impl Line {
    /// A line with no byte.
    pub fn new() -> Line
        ensures { result ≡ [] }
    {
        Line {
            bytes: ArrayVec::new(),
        }
    }

    /// Its bytes.
    pub fn bytes(&self) -> &[u8]
        ensures { result.now ≡ self.now }
    {
        self.bytes.as_slice()
    }

    /// Removes all bytes.
    pub fn clear(&mut self)
        ensures { self.new ≡ [] }
    {
        self.bytes.clear();
    }

    /// Adds these bytes at the end.
    pub fn add(&mut self, bytes: &[u8])
        requires { length self.old + length bytes.now ≤ 64 }
        ensures is { self.new ≡ self.old ++ bytes.now }
        ensures len { length self.new ≡ length self.old + length bytes.now }
    {
        if self.bytes.try_extend_from_slice(bytes).is_err() {
            unreachable!();
        }
    }

    /// Adds one byte at the end.
    pub fn add_byte(&mut self, byte: u8)
        requires { length self.old < 64 }
        ensures is { self.new ≡ self.old ++ byte ∷ [] }
        ensures len { length self.new ≡ length self.old + 1 }
    {
        self.bytes.push(byte);
    }

    /// Adds a number in decimal, of at most 20 bytes.
    pub fn add_number(&mut self, number: u64)
        requires { length self.old + 20 ≤ 64 }
        ensures is { self.new ≡ self.old ++ decimal number }
        ensures len { length self.new ≤ length self.old + 20 }
    {
        let mut text = Buffer::new();
        self.add(text.format(number).as_bytes());
    }
}
