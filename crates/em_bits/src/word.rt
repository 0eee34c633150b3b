//! The four words of a record by their places, and its bits: bit k is bit k % 64 of word k / 64.

ghost use Rattle.std.specs.Prelude.{◌≡◌, ◌≢◌, ◌==◌, ℕ, ◌<◌};
ghost use Rattle.em_bits.specs.Bits.{bit_of, put_word, word_at};

use em_record::Record;

/// The word at a place.
fn word(item: Record, at: u64) -> u64
    requires place { at < 4 }
    ensures is { result ≡ word_at item at }
{
    match at {
        0 => item.a,
        1 => item.b,
        2 => item.c,
        _ => item.d,
    }
}

/// The record with another word at a place.
fn with_word(item: Record, at: u64, word: u64) -> Record
    requires place { at < 4 }
    ensures is { result ≡ put_word item at word }
{
    match at {
        0 => Record { a: word, ..item },
        1 => Record { b: word, ..item },
        2 => Record { c: word, ..item },
        _ => Record { d: word, ..item },
    }
}

/// Whether a bit of a record is 1.
pub(crate) fn holds(item: Record, at: u64) -> bool
    requires place { at < 256 }
    ensures is { result ≡ (bit_of item at == 1) }
{
    (word(item, at / 64) >> (at % 64)) & 1 == 1
}

/// The record in which a bit is 0.
pub(crate) fn without(item: Record, at: u64) -> Record
    requires place { at < 256 }
    ensures same { bit_of result at ≡ 0 }
    ensures other { (k : ℕ) → k < 256 → k ≢ at → bit_of result k ≡ bit_of item k }
{
    let cleared = word(item, at / 64) & !(1 << (at % 64));
    with_word(item, at / 64, cleared)
}
