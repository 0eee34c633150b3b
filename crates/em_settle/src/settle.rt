//! A tree keeps stored records, one per key, and operations that wait for them. The operations of a
//! key are settled later, in the order in which they came:
//!
//!     stored  --op 1-->  stored'  --op 2-->  stored''
//!                |                  |
//!              answer             answer
//!
//! Kept here: what one operation does, and the laws that let it wait. Left to the tree: where operations
//! wait, and that those of a key keep their order.

ghost use Rattle.std.specs.Prelude.{◌≡◌, true, false, Option, Some, IfSome};
ghost use Rattle.em_record.specs.Order.{is_below};
ghost use Rattle.em_record.specs.declared.record.Record as records;
ghost use Rattle.em_settle.specs.declared.step.Step as steps;

use crate::step::Step;
use em_record::Record;

/// What the operations of one kind of tree do. An operation reads and changes the stored record of its
/// own key alone. A value may store a closure: then `IsReady` says what the closure does.
pub trait Settle: Drop {
    /// The key of an operation, or of a stored record.
    ghost key_of: { Self → records.Record → records.Record };
    /// What an operation does if this is stored under its key.
    ghost step_of: { Self → Option records.Record → records.Record → steps.Step };
    /// The value may settle operations: what it has stored can be called and does what it stands for.
    ghost IsReady: { Self → Type 0 };
    /// A record that is an operation.
    ghost IsOp: { Self → records.Record → Type 0 };
    /// A record that may be stored.
    ghost IsKept: { Self → records.Record → Type 0 };

    /// The key of an operation, or of a stored record.
    fn key(&self, item: Record) -> Record
        ensures { result ≡ key_of self.now item };

    /// What an operation does if this is stored under its key. It has an answer for every record: a
    /// device that doesn't tell its contents may give any.
    fn step(&self, stored: Option<Record>, op: Record) -> Step
        requires ready { IsReady self.now }
        ensures { result ≡ step_of self.now stored op };

    /// Records in order have keys in order.
    ghost in_order: { (s : Self) (x y : records.Record) → is_below y x ≡ false
        → is_below (key_of s y) (key_of s x) ≡ false };
    /// What an operation leaves may be stored.
    ghost keeps: { (s : Self) (old : Option records.Record) (op new : records.Record)
        → IfSome old (IsKept s) → IsOp s op → (step_of s old op).stored ≡ Some new
        → IsKept s new };
    /// What an operation leaves has its key, if what was stored had it.
    ghost keeps_key: { (s : Self) (old : Option records.Record) (op new : records.Record)
        → IfSome old (λ r. key_of s r ≡ key_of s op) → (step_of s old op).stored ≡ Some new
        → key_of s new ≡ key_of s op };
    /// What an operation leaves is below every later one of its key, if what was stored was below it.
    ghost stays_below: { (s : Self) (old : Option records.Record) (op new later : records.Record)
        → IfSome old (λ r. is_below r op ≡ true) → IsOp s op → IsOp s later
        → key_of s later ≡ key_of s op → is_below op later ≡ true
        → (step_of s old op).stored ≡ Some new → is_below new later ≡ true };
}
