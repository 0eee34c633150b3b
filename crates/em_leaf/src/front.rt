//! The front of a pass over stored records and operations, both in order of their keys:
//!
//!     stored      . . . [5'] [7] | 9 11      5' is in hand: operations of the key 5 changed it
//!     operations  1 3 4 5  | 5 8 9           7 was read ahead, and 5 comes next
//!
//! Kept here: no record in hand is above an operation that is left. A record that is below all of
//! them is due to be written.

ghost use Rattle.std.specs.Prelude.{◌≡◌, ◌+◌, ◌<◌, ◌≤◌, ◌^◌, ◌++◌, List, [], length, get_or, IsTrue, IsFalse, IfSome, None, false};
ghost use Rattle.em_record.specs.Order.{is_below, IsAscending};
ghost use Rattle.em_record.specs.declared.record.Record as records;
ghost use Rattle.em_frames.specs.Device.{zero_record};
ghost use Rattle.em_leaf.specs.declared.front.Finding.TheVariants.{Answer};
ghost use Rattle.em_leaf.specs.Front.{CanPick, CountsFinding, ComesFirst, IsFront, MovesOn, PassesFirst, Picks, finding_answers, finding_items, first_hand, fresh_front, in_hand, some_count};

use em_record::Record;
use em_settle::{Settle, Step};

/// The stored records that a pass has, and how many operations it has settled.
#[derive(Clone, Copy)]
pub(crate) struct Front {
    /// What the operations settled last have left of the record of their key.
    pub(crate) hand: Option<Record>,
    /// The next stored record, if it was read.
    pub(crate) ahead: Option<Record>,
    /// The operations that were settled.
    pub(crate) settled: usize,
}

/// What a step of a pass comes to.
pub(crate) enum Finding {
    /// No record and no operation is left.
    End,
    /// The next record of the list that results.
    Item(Record),
    /// An operation was settled, and this is its answer.
    Answer(Option<Record>),
}

/// The front of a pass that hasn't begun.
pub(crate) fn new_front() -> Front
    ensures { result ≡ fresh_front }
{
    Front {
        hand: None,
        ahead: None,
        settled: 0,
    }
}

/// The next step: a record that is due is written, else the next operation is settled.
#[inline]
pub(crate) fn advance<S: Settle>(settle: &S, ops: &[Record], front: Front) -> (Finding, Front)
    requires ready { S.IsReady settle.now }
    requires ordered { IsAscending ops.now }
    requires within { front.settled ≤ length ops.now }
    ensures counts { CountsFinding front result.1 (length ops.now) result.0 }
    ensures within { result.1.settled ≤ length ops.now }
    ensures moves_on { (rest : List records.Record) → (in_hand front ≡ 0 → rest ≡ [])
        → IsFront (S.key_of settle.now) ops.now front rest
        → MovesOn (S.key_of settle.now) (S.step_of settle.now) ops.now front result.1 rest rest
        (finding_items result.0) (finding_answers result.0) }
{
    if comes_first(settle, ops, front) {
        return pass_first(front);
    }
    settle_next(settle, ops, front)
}

/// Whether the first record in hand is below all operations that are left, or nothing is left.
#[inline]
fn comes_first<S: Settle>(settle: &S, ops: &[Record], front: Front) -> bool
    requires ordered { IsAscending ops.now }
    requires within { front.settled ≤ length ops.now }
    ensures due { IsTrue result → ComesFirst (S.key_of settle.now) ops.now front }
    ensures more { IsFalse result → front.settled < length ops.now }
    ensures least { IsFalse result → IfSome (first_hand front front.hand)
        (λ r. is_below (S.key_of settle.now r)
        (S.key_of settle.now (get_or ops.now front.settled zero_record)) ≡ false) }
{
    if front.settled == ops.len() {
        return true;
    }
    match first(front) {
        Some(item) => comes_before(settle.key(item), settle.key(ops[front.settled])),
        None => false,
    }
}

/// The first record in hand.
#[inline]
pub(crate) fn first(front: Front) -> Option<Record>
    ensures { result ≡ first_hand front front.hand }
{
    match front.hand {
        Some(item) => Some(item),
        None => front.ahead,
    }
}

/// Passes the first record in hand on.
#[inline]
fn pass_first(front: Front) -> (Finding, Front)
    ensures { PassesFirst front result.1 (first_hand front front.hand) result.0 }
{
    match front.hand {
        Some(item) => (
            Finding::Item(item),
            Front {
                hand: None,
                ahead: front.ahead,
                settled: front.settled,
            },
        ),
        None => pass_ahead(front),
    }
}

/// Passes the record that was read ahead on, if there is one.
#[inline]
fn pass_ahead(front: Front) -> (Finding, Front)
    requires none { front.hand ≡ None }
    ensures { PassesFirst front result.1 front.ahead result.0 }
{
    match front.ahead {
        Some(item) => (
            Finding::Item(item),
            Front {
                hand: None,
                ahead: None,
                settled: front.settled,
            },
        ),
        None => (Finding::End, front),
    }
}

/// Settles the next operation over the stored record of its key.
#[inline]
fn settle_next<S: Settle>(settle: &S, ops: &[Record], front: Front) -> (Finding, Front)
    requires ready { S.IsReady settle.now }
    requires ordered { IsAscending ops.now }
    requires more { front.settled < length ops.now }
    requires least { IfSome (first_hand front front.hand)
        (λ r. is_below (S.key_of settle.now r)
        (S.key_of settle.now (get_or ops.now front.settled zero_record)) ≡ false) }
    ensures counts { CountsFinding front result.1 (length ops.now) result.0 }
    ensures within { result.1.settled ≤ length ops.now }
    ensures moves_on { (rest : List records.Record) → (in_hand front ≡ 0 → rest ≡ [])
        → IsFront (S.key_of settle.now) ops.now front rest
        → MovesOn (S.key_of settle.now) (S.step_of settle.now) ops.now front result.1 rest rest
        (finding_items result.0) (finding_answers result.0) }
{
    let op = ops[front.settled];
    let (stored, ahead) = pick(settle, front, settle.key(op));
    with_settled(front, settle.step(stored, op), ahead)
}

/// The answer of an operation that was settled, and the front after it.
#[inline]
fn with_settled(front: Front, left: Step, ahead: Option<Record>) -> (Finding, Front)
    requires more { front.settled + 1 < 2 ^ 64 }
    ensures answer { result.0 ≡ Answer left.answer }
    ensures front { result.1 ≡ record {
      hand = left.stored;
      ahead = ahead;
      settled = front.settled + 1;
    } }
{
    (
        Finding::Answer(left.answer),
        Front {
            hand: left.stored,
            ahead,
            settled: front.settled + 1,
        },
    )
}

/// The stored record of a key, if there is one, and the record that then is read ahead.
#[inline]
fn pick<S: Settle>(settle: &S, front: Front, key: Record) -> (Option<Record>, Option<Record>)
    ensures counts { some_count result.0 + some_count result.1 ≡ in_hand front }
    ensures ahead { some_count result.1 ≤ some_count front.ahead }
    ensures picks { (rest : List records.Record) → CanPick (S.key_of settle.now) front key rest
        → Picks (S.key_of settle.now) front key result.0 result.1 rest }
{
    match front.hand {
        Some(item) => (Some(item), front.ahead),
        None => match front.ahead {
            Some(item) => {
                if comes_before(key, settle.key(item)) {
                    (None, front.ahead)
                } else {
                    (front.ahead, None)
                }
            }
            None => (None, None),
        },
    }
}

/// Whether the first record is below the second.
#[inline]
fn comes_before(first: Record, second: Record) -> bool
    ensures { result ≡ is_below first second }
{
    first < second
}
