//! The operations of a bag: each one `(K, n, V, W)` is stored as it is, and answers nothing. Its key is
//! `(K, n, 0, 0)`, so records of equal K stand beside each other, in the order of their numbers. Any record
//! is an operation.

use crate::settle::Settle;
use crate::step::Step;
use em_record::Record;

/// The rules of a bag: every operation is a record to be stored.
#[derive(Drop)]
pub struct BagSettle {}

impl Settle for BagSettle {
    ghost use Rattle.std.specs.Prelude.{⊤};
    ghost use Rattle.em_settle.specs.Bag.{bag_key_of, bag_step_of};
    ghost use Rattle.em_settle.specs.BagLaws as laws;

    ghost key_of = { λ _. bag_key_of };

    ghost step_of = { λ _. bag_step_of };

    ghost IsReady = { λ _. ⊤ };

    ghost IsOp = { λ _ _. ⊤ };

    ghost IsKept = { λ _ _. ⊤ };

    ghost in_order = { λ _. laws.in_order };

    ghost keeps = { λ _. laws.keeps };

    ghost keeps_key = { λ _. laws.keeps_key };

    ghost stays_below = { λ _. laws.stays_below };

    /// `(K, n, 0, 0)`.
    fn key(&self, item: Record) -> Record {
        Record {
            a: item.a,
            b: item.b,
            c: 0,
            d: 0,
        }
    }

    /// Stores the operation itself.
    fn step(&self, _stored: Option<Record>, op: Record) -> Step {
        Step {
            stored: Some(op),
            answer: None,
        }
    }
}
