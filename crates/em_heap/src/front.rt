//! A heap at the front of a slice: the calls of `Heap`, over the records and the heap's length.
//!
//! ```text
//! records:  | heap: the first `len` records | any records |
//! ```
//!
//! Kept here: the heap's records (`items`) and the slice's length (`long`). Nothing is said of the records
//! after the heap.
ghost use Rattle.std.specs.Prelude.{◌≡◌, ◌<◌, ◌≤◌, ◌∷◌, drop, length};
ghost use Rattle.em_heap.specs.Heap.{IsHeap, HeapPushes, HeapPops, heap_items};

use crate::sift::{sift_down, sift_up};
use em_record::Record;

/// Adds a record to the heap of the first `len`.
pub(crate) fn push(records: &mut [Record], len: usize, item: Record)
    requires room { len < length records.old }
    requires heap { IsHeap records.old len }
    ensures { HeapPushes item records.old records.new len }
{
    records[len] = item;
    sift_up(&mut records[..len + 1]);
}

/// Takes the least record of the heap of the first `len`.
pub(crate) fn pop(records: &mut [Record], len: usize) -> Record
    requires some { 0 < len }
    requires heap { IsHeap records.old len }
    ensures { HeapPops result records.old records.new len }
{
    let least = records[0];
    records[0] = records[len - 1];
    sift_down(&mut records[..len - 1]);
    least
}

/// The least record of the heap of the first `len`.
pub(crate) fn peek(records: &[Record], len: usize) -> Record
    requires some { 0 < len }
    requires heap { IsHeap records.now len }
    ensures { heap_items records.now len ≡ result ∷ drop 1 (heap_items records.now len) }
{
    records[0]
}
