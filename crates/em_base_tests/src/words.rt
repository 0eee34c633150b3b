//! Records by their words.
ghost use Rattle.std.specs.Prelude.{◌≡◌};

use em_record::Record;

/// The record of these words.
pub(crate) fn words(a: u64, b: u64, c: u64, d: u64) -> Record
    ensures { result ≡ record { a = a; b = b; c = c; d = d } }
{
    Record { a, b, c, d }
}
