//! The calls of `Heap`, over the records, the heap's length and the run's:
//!
//! ```text
//! records:  | heap: the first `top` records | any records | run: the last `run` records, in order |
//! ```
//!
//! Kept here: what both have (`items`), and the slice's length (`long`).
ghost use Rattle.std.specs.Prelude.{◌≡◌, ◌+◌, ◌<◌, ◌≤◌, ◌∷◌, ◌++◌, IsTrue, IsFalse, drop, length, take};
ghost use Rattle.em_heap.specs.Stock.{IsStock, LeadsRun, LeadsTop, RunPops, StockHalves, StockPops, StockPushes, between, run_of, stock_items};

use crate::front;
use crate::sift::below_at;
use em_record::Record;

/// The number of the records of both.
pub(crate) fn count(records: &[Record], top: usize, run: usize) -> usize
    requires stock { IsStock records.now top run }
    ensures { result ≡ top + run }
{
    let _ = records;
    top + run
}

/// Adds a record to the heap of the first `top`.
pub(crate) fn push(records: &mut [Record], top: usize, run: usize, item: Record)
    requires stock { IsStock records.old top run }
    requires room { top + run < length records.old }
    ensures { StockPushes item records.old records.new top run }
{
    let end = records.len() - run;
    front::push(&mut records[..end], top, item);
}

/// Whether the run's first record is the least of all: of a run with a record, if none of the heap is below it.
pub(crate) fn run_leads(records: &[Record], top: usize, run: usize) -> bool
    requires stock { IsStock records.now top run }
    requires some { 0 < top + run }
    ensures yes { IsTrue result → LeadsRun records.now top run }
    ensures no { IsFalse result → LeadsTop records.now top run }
{
    if run == 0 {
        return false;
    }
    top == 0 || !below_at(records, 0, records.len() - run)
}

/// The run's first record.
pub(crate) fn first_of_run(records: &[Record], top: usize, run: usize) -> Record
    requires stock { IsStock records.now top run }
    requires leads { LeadsRun records.now top run }
    ensures { RunPops result records.now top run }
{
    records[records.len() - run]
}

/// The least of all.
pub(crate) fn peek(records: &[Record], top: usize, run: usize) -> Record
    requires stock { IsStock records.now top run }
    requires some { 0 < top + run }
    ensures { stock_items records.now top run ≡ result ∷ drop 1 (stock_items records.now top run) }
{
    if run_leads(records, top, run) {
        return first_of_run(records, top, run);
    }
    front::peek(records, top)
}

/// Takes the least record of the heap of the first `top`.
pub(crate) fn pop(records: &mut [Record], top: usize, run: usize) -> Record
    requires stock { IsStock records.old top run }
    requires leads { LeadsTop records.old top run }
    ensures { StockPops result records.old records.new top run }
{
    let end = records.len() - run;
    front::pop(&mut records[..end], top)
}

/// Moves the run up to the heap, and the records between them behind it.
fn gather(records: &mut [Record], top: usize, run: usize)
    requires stock { IsStock records.old top run }
    ensures { records.new ≡ take top records.old
        ++ (run_of records.old run ++ between records.old top run) }
{
    let free = records.len() - top - run;
    records[top..].rotate_left(free);
}

/// Puts all records in order at the front, and answers the number of their least half, rounded up.
pub(crate) fn halve(records: &mut [Record], top: usize, run: usize) -> usize
    requires stock { IsStock records.old top run }
    ensures { StockHalves result records.old records.new top run }
{
    gather(records, top, run);
    let len = top + run;
    records[..len].sort_unstable();
    len - len / 2
}
