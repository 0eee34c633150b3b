//! The bits of a row of records: bit k is bit k % 256 of the record k / 256.
//!
//!     record 0                      record 1
//!     | 0 .. 63 | .. | 192 .. 255 | 256 .. 319 | ..
//!
//! Left to the caller: that the row has enough records.

ghost use Rattle.std.specs.Prelude.{◌<◌, ◌*◌, ◌≡◌, length};
ghost use Rattle.em_bits.specs.Bits.{AndsIn, Clears, Fills, FillsUpTo, has_bit};

use crate::word::{holds, without};
use em_record::Record;

/// The record of 256 ones.
const ONES: Record = Record {
    a: u64::MAX,
    b: u64::MAX,
    c: u64::MAX,
    d: u64::MAX,
};

/// Makes all bits 1.
pub fn fill(records: &mut [Record])
    ensures fills { Fills records.old records.new }
{
    for place in 0..records.len() {
        records[place] = ONES;
    }
}

/// Makes the bits up to this one 1, and the others of its record.
pub fn fill_to(records: &mut [Record], last: u64)
    requires within { last < 256 * length records.old }
    ensures fills { FillsUpTo last records.old records.new }
{
    for at in 0..(last / 256) as usize + 1 {
        records[at] = ONES;
    }
}

/// Whether a bit is 1.
pub fn get(records: &[Record], at: u64) -> bool
    requires within { at < 256 * length records.now }
    ensures is { result ≡ has_bit records.now at }
{
    holds(records[(at / 256) as usize], at % 256)
}

/// Makes a bit 0.
fn clear(records: &mut [Record], at: u64)
    requires within { at < 256 * length records.old }
    ensures clears { Clears at records.old records.new }
{
    let place = (at / 256) as usize;
    records[place] = without(records[place], at % 256);
}

/// Makes a bit the conjunction of what it is and of this one: it stays 1 only if both are.
pub fn and_in(records: &mut [Record], at: u64, bit: bool)
    requires within { at < 256 * length records.old }
    ensures ands { AndsIn at bit records.old records.new }
{
    if !bit {
        clear(records, at);
    }
}
