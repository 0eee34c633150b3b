//! The operations of a map with adds. Each key has at most one stored record, its value:
//!
//!     operation            stored afterwards           answer
//!     put (K, n, 0, V)     (K, 0, 0, V)                none
//!     del (K, n, 1, 0)     none                        none
//!     get (K, n, 2, 0)     as before                   (n, 1, V, 0), or (n, 0, 0, 0) if there is none
//!     add (K, n, 3, V)     (K, 0, 0, old joined to V)  none; without an old value it stores V
//!
//! Numbers are at least 1, so that a stored record is below all operations of its key.

ghost use Rattle.std.specs.Prelude.{◌≡◌, ℕ, ◌<◌, ◌^◌};
ghost use Rattle.em_settle.specs.Add.{apply_of, IsAssociative};

use crate::combine::Combine;
use crate::map::{answer, stored_record};
use crate::settle::Settle;
use crate::step::Step;
use em_record::Record;

/// The rules of a map with adds. The closure joins two values as its kind says.
#[derive(Drop)]
pub struct AddSettle<F: Drop> {
    combine: F,
    kind: Combine,
}

impl<F: Fn(u64, u64) -> u64 + Drop> AddSettle<F> {
    /// Stores a closure that joins as this kind does.
    #[tactic(auto, using(crate::specs::AddLaws::apply_joins))]
    pub fn new(combine: F, kind: Combine) -> AddSettle<F>
        requires callable { (x y : ℕ) → x < 2 ^ 64 → y < 2 ^ 64 → F.pre combine x y }
        requires answers { (x y r : ℕ) → x < 2 ^ 64 → y < 2 ^ 64
            → F.post combine x y r → r ≡ apply_of kind x y }
        ensures kind { result.kind ≡ kind }
        ensures associative { IsAssociative (apply_of result.kind) }
        ensures ready { ⟦<AddSettle<F> as Settle>⟧.IsReady result }
    {
        AddSettle { combine, kind }
    }

    /// Which values the closure gives.
    pub fn kind(&self) -> Combine
        ensures { result ≡ self.now.kind }
    {
        self.kind
    }

    /// The second value joined to the first.
    pub fn apply(&self, x: u64, y: u64) -> u64
        requires ready { ⟦<AddSettle<F> as Settle>⟧.IsReady self.now }
        ensures { result ≡ apply_of self.now.kind x y }
    {
        (self.combine)(x, y)
    }
}

impl<F: Fn(u64, u64) -> u64 + Drop> Settle for AddSettle<F> {
    ghost use Rattle.std.specs.Prelude.{◌≡◌, ℕ, ◌<◌, ◌^◌};
    ghost use Rattle.em_settle.specs.Map.{map_key_of, IsMapKept};
    ghost use Rattle.em_settle.specs.MapLaws.{in_order as keys_in_order};
    ghost use Rattle.em_settle.specs.Add.{add_step_of, apply_of, IsAddOp};
    ghost use Rattle.em_settle.specs.AddLaws as laws;

    ghost key_of = { λ _. map_key_of };

    ghost step_of = { λ s. add_step_of (apply_of s.kind) };

    ghost IsReady = { λ s.
        ((x y : ℕ) → x < 2 ^ 64 → y < 2 ^ 64 → F.pre s.combine x y)
        × ((x y r : ℕ) → x < 2 ^ 64 → y < 2 ^ 64 → F.post s.combine x y r
        → r ≡ apply_of s.kind x y) };

    ghost IsOp = { λ _. IsAddOp };

    ghost IsKept = { λ _. IsMapKept };

    ghost in_order = { λ _. keys_in_order };

    ghost keeps = { λ s. laws.keeps (apply_of s.kind) };

    ghost keeps_key = { λ s. laws.keeps_key (apply_of s.kind) };

    ghost stays_below = { λ s. laws.stays_below (apply_of s.kind) };

    /// `(K, 0, 0, 0)`.
    fn key(&self, item: Record) -> Record {
        stored_record(item.a, 0)
    }

    /// A put stores its value, a del removes the record, an add joins its value to what is stored, and a
    /// get answers what is stored.
    fn step(&self, stored: Option<Record>, op: Record) -> Step {
        match op.c {
            0 => Step {
                stored: Some(stored_record(op.a, op.d)),
                answer: None,
            },
            1 => Step {
                stored: None,
                answer: None,
            },
            3 => {
                let value = match stored {
                    Some(record) => (self.combine)(record.d, op.d),
                    None => op.d,
                };
                Step {
                    stored: Some(stored_record(op.a, value)),
                    answer: None,
                }
            }
            _ => Step {
                stored,
                answer: Some(answer(stored, op.b)),
            },
        }
    }
}
