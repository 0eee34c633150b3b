//! The rules of a tree that stores a closure: the greatest value of each key, by a closure that finds
//! the greater of two.
ghost use Rattle.std.specs.Prelude.{◌≡◌, ℕ, ◌<◌, ◌^◌, max};

use em_record::Record;
use em_settle::{Settle, Step};

/// Operations `(K, n, 0, V)`: each joins its value to the stored one.
#[derive(Drop)]
pub(crate) struct JoinSettle<F: Drop> {
    join: F,
}

impl<F: Fn(u64, u64) -> u64 + Drop> JoinSettle<F> {
    /// Stores a closure that answers the greater of two numbers.
    pub(crate) fn new(join: F) -> JoinSettle<F>
        requires callable { (x y : ℕ) → x < 2 ^ 64 → y < 2 ^ 64 → F.pre join x y }
        requires answers { (x y r : ℕ) → x < 2 ^ 64 → y < 2 ^ 64
            → F.post join x y r → r ≡ max x y }
        ensures ready { ⟦<JoinSettle<F> as Settle>⟧.IsReady result }
    {
        JoinSettle { join }
    }
}

impl<F: Fn(u64, u64) -> u64 + Drop> Settle for JoinSettle<F> {
    ghost use Rattle.std.specs.Prelude.{◌≡◌, ℕ, ◌<◌, ◌^◌, max};
    ghost use Rattle.em_settle.specs.Map.{map_key_of, IsMapKept};
    ghost use Rattle.em_settle.specs.MapLaws.{in_order as keys_in_order};
    ghost use Rattle.em_base_tests.specs.Joined as laws;
    ghost use Rattle.em_base_tests.specs.Joined.{joined_step, IsJoinedOp};

    ghost key_of = { λ _. map_key_of };

    ghost step_of = { λ _. joined_step };

    ghost IsReady = { λ s.
        ((x y : ℕ) → x < 2 ^ 64 → y < 2 ^ 64 → F.pre s.join x y)
        × ((x y r : ℕ) → x < 2 ^ 64 → y < 2 ^ 64 → F.post s.join x y r → r ≡ max x y) };

    ghost IsOp = { λ _. IsJoinedOp };

    ghost IsKept = { λ _. IsMapKept };

    ghost in_order = { λ _. keys_in_order };

    ghost keeps = { λ _. laws.keeps };

    ghost keeps_key = { λ _. laws.keeps_key };

    ghost stays_below = { λ _. laws.stays_below };

    /// `(K, 0, 0, 0)`.
    fn key(&self, item: Record) -> Record {
        Record {
            a: item.a,
            ..Record::ZERO
        }
    }

    /// Stores the greater value.
    fn step(&self, stored: Option<Record>, op: Record) -> Step {
        let value = match stored {
            Some(record) => (self.join)(record.d, op.d),
            None => op.d,
        };
        Step {
            stored: Some(Record {
                a: op.a,
                b: 0,
                c: 0,
                d: value,
            }),
            answer: None,
        }
    }
}
