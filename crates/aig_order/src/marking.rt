//! A bit for each variable up to a last one in a row of records, in place of a queue of notes:
//!
//!     edge 3-6, and 3 wasn't found   the bit of 6 becomes 0
//!     gate 6                         takes for each note whether its bit is 1
//!
//! Kept here: the bit of a variable is 1 as long as all notes for it say that a source was found. Left to the
//! caller: that the row has a bit for the last variable, and that all are 1 at first.

ghost use Rattle.std.specs.Prelude.{◌≡◌, ◌<◌, ◌*◌, ℕ, List, length};
ghost use Rattle.em_record.specs.declared.record.Record as declared;
ghost use Rattle.aig_order.specs.Marks.{HasNotes, bit_note, joined_bit, noted, taken};

use crate::adjacency::is_edge;
use crate::standing::{Standing, Sweep, is_told};
use em_bits::{and_in, get};
use em_record::Record;

/// The bit that a record joins to that of its gate: whether its source was found, if it has a note in a sweep.
/// One for a gate above `last` is left aside: only a device that doesn't tell gives it.
fn joined_bit(sweep: Sweep, standing: Standing, item: Record, last: u64) -> bool
    ensures is { result ≡ joined_bit last sweep standing item }
{
    if is_edge(item) && is_told(sweep, item) && item.b / 4 <= last {
        standing.found
    } else {
        true
    }
}

/// Joins the note of a record, if it has one, to the bit of its gate.
pub(crate) fn join_note(
    row: &mut [Record],
    sweep: Sweep,
    standing: Standing,
    item: Record,
    last: u64,
)
    requires within { last < 256 * length row.old }
    ensures long { length row.new ≡ length row.old }
    ensures joins { (number : ℕ) (notes : List declared.Record) → HasNotes last notes row.old
        → HasNotes last (noted sweep standing number item notes) row.new }
{
    let gate = (item.b / 4).min(last);
    and_in(row, gate, joined_bit(sweep, standing, item, last));
}

/// The note that says this of a source.
fn bit_note(found: bool) -> Record
    ensures is { result ≡ bit_note found }
{
    Record {
        a: 0,
        b: 0,
        c: u64::from(found),
        d: 0,
    }
}

/// What a gate takes as each of its two notes: whether all notes for it say that a source was found. A variable
/// above `last` counts as `last`: only a device that doesn't tell gives it.
pub(crate) fn taken_note(row: &[Record], item: Record, last: u64) -> Record
    requires within { last < 256 * length row.now }
    ensures is { (notes : List declared.Record) → HasNotes last notes row.now
        → result ≡ taken last item notes }
{
    bit_note(get(row, item.a.min(last)))
}
