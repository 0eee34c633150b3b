//! The operations of a map. Each key has at most one stored record, its value:
//!
//!     operation            stored afterwards   answer
//!     put (K, n, 0, V)     (K, 0, 0, V)        none
//!     del (K, n, 1, 0)     none                none
//!     get (K, n, 2, 0)     as before           (n, 1, V, 0), or (n, 0, 0, 0) if there is none
//!
//! Numbers are at least 1, so that a stored record is below all operations of its key.

ghost use Rattle.std.specs.Prelude.{◌≡◌};
ghost use Rattle.em_settle.specs.Map.{map_answer, map_record};

use crate::settle::Settle;
use crate::step::Step;
use em_record::Record;

/// The rules of a map: puts, dels and gets.
#[derive(Drop)]
pub struct MapSettle {}

impl Settle for MapSettle {
    ghost use Rattle.std.specs.Prelude.{⊤};
    ghost use Rattle.em_settle.specs.Map.{map_key_of, map_step_of, IsMapOp, IsMapKept};
    ghost use Rattle.em_settle.specs.MapLaws as laws;

    ghost key_of = { λ _. map_key_of };

    ghost step_of = { λ _. map_step_of };

    ghost IsReady = { λ _. ⊤ };

    ghost IsOp = { λ _. IsMapOp };

    ghost IsKept = { λ _. IsMapKept };

    ghost in_order = { λ _. laws.in_order };

    ghost keeps = { λ _. laws.keeps };

    ghost keeps_key = { λ _. laws.keeps_key };

    ghost stays_below = { λ _. laws.stays_below };

    /// `(K, 0, 0, 0)`.
    fn key(&self, item: Record) -> Record {
        stored_record(item.a, 0)
    }

    /// A put stores its value, a del removes the record, and a get answers what is stored.
    fn step(&self, stored: Option<Record>, op: Record) -> Step {
        match op.c {
            0 => Step {
                stored: Some(stored_record(op.a, op.d)),
                answer: None,
            },
            1 => Step {
                stored: None,
                answer: None,
            },
            _ => Step {
                stored,
                answer: Some(answer(stored, op.b)),
            },
        }
    }
}

/// The stored record of a key with a value.
pub(crate) fn stored_record(key: u64, value: u64) -> Record
    ensures { result ≡ map_record key value }
{
    Record {
        a: key,
        b: 0,
        c: 0,
        d: value,
    }
}

/// The answer of a get with this number.
pub(crate) fn answer(stored: Option<Record>, number: u64) -> Record
    ensures { result ≡ map_answer stored number }
{
    match stored {
        Some(record) => Record {
            a: number,
            b: 1,
            c: record.d,
            d: 0,
        },
        None => Record {
            a: number,
            b: 0,
            c: 0,
            d: 0,
        },
    }
}
