//! Adds of one key are joined at the front of a slice: the operations that were read so far, each run joined
//! to one add, stand at its front, and the last of them stands at `kept`.
//!
//! ```text
//! records:  | joined | the last: its run may go on | any records | not read yet |
//!           0         kept                                        at
//! ```
ghost use Rattle.std.specs.Prelude.{◌≡◌, ◌+◌, ◌<◌, ◌≤◌, length, take};
ghost use Rattle.em_settle.specs.Add.{apply_of};
ghost use Rattle.em_combine.specs.Joining.{may_join as joins, join_two as two_joined, joined};
ghost use Rattle.em_combine.specs.Front.{JoinsNext};

use em_record::Record;
use em_settle::{AddSettle, Settle};

/// Whether both are adds of one key.
fn may_join(first: Record, second: Record) -> bool
    ensures { result ≡ joins first second }
{
    first.a == second.a && (first.c == 3 && second.c == 3)
}

/// One add for two of one key.
fn join_two<F: Fn(u64, u64) -> u64 + Drop>(
    settle: &AddSettle<F>,
    first: Record,
    second: Record,
) -> Record
    requires ready { ⟦<AddSettle<F> as Settle>⟧.IsReady settle.now }
    ensures { result ≡ two_joined (apply_of settle.now.kind) first second }
{
    Record {
        a: second.a,
        b: second.b,
        c: 3,
        d: settle.apply(first.d, second.d),
    }
}

/// Joins an operation to the last one, or puts it after that. Answers where the last one stands then.
fn join_next<F: Fn(u64, u64) -> u64 + Drop>(
    settle: &AddSettle<F>,
    records: &mut [Record],
    kept: usize,
    next: Record,
) -> usize
    requires ready { ⟦<AddSettle<F> as Settle>⟧.IsReady settle.now }
    requires room { kept + 1 < length records.old }
    ensures { JoinsNext (apply_of settle.now.kind) records.old records.new kept next result }
{
    let last = records[kept];
    if may_join(last, next) {
        records[kept] = join_two(settle, last, next);
        return kept;
    }
    records[kept + 1] = next;
    kept + 1
}

/// Joins the adds of a slice, and answers how many operations stand at its front then.
fn join_all<F: Fn(u64, u64) -> u64 + Drop>(settle: &AddSettle<F>, records: &mut [Record]) -> usize
    requires ready { ⟦<AddSettle<F> as Settle>⟧.IsReady settle.now }
    ensures within { result ≤ length records.old }
    ensures long { length records.new ≡ length records.old }
    ensures joined { take result records.new ≡ joined (apply_of settle.now.kind) records.old }
{
    if records.is_empty() {
        return 0;
    }
    let mut kept = 0;
    let mut at = 1;
    while at < records.len() {
        let next = records[at];
        kept = join_next(settle, records, kept, next);
        at += 1;
    }
    kept + 1
}

/// Joins the adds of the first `len` records, and answers how many operations stand at the front then.
pub(crate) fn join_front<F: Fn(u64, u64) -> u64 + Drop>(
    settle: &AddSettle<F>,
    records: &mut [Record],
    len: usize,
) -> usize
    requires ready { ⟦<AddSettle<F> as Settle>⟧.IsReady settle.now }
    requires within { len ≤ length records.old }
    ensures within { result ≤ len }
    ensures long { length records.new ≡ length records.old }
    ensures joined { take result records.new
        ≡ joined (apply_of settle.now.kind) (take len records.old) }
{
    join_all(settle, &mut records[..len])
}
