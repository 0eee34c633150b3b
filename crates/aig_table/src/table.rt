//! A table with a bit for each rank, in the records of an area:
//!
//!     0 | 1 .. I + L         | I + L + 1 .. I + L + A | .. + L      | .. + K
//!     0 | inputs and latches | gates                  | next values | columns
//!
//! A bit is 1 until an edge brings a 0. Once all edges to a rank were followed, its bit is its value. Left to the
//! caller: that edges come in the order of their sources.

ghost use Rattle.std.specs.Prelude.{◌≡◌, ◌<◌, ◌≤◌, ◌+◌, ◌*◌, ◌^◌, length};
ghost use Rattle.aig_table.specs.Follows.{FollowsEdge, heard_bit};
ghost use Rattle.aig_table.specs.Tables.{BeginsTable, bits_at};

use em_bits::{and_in, fill, fill_to, get};
use em_record::Record;

/// Begins a table of the ranks up to the last one: the bit of the constant is 0, and all others are 1.
pub(crate) fn begin(table: &mut [Record], last: u64)
    requires within { last < 256 * length table.old }
    ensures begins { BeginsTable last table.old table.new }
{
    fill_to(table, last);
    and_in(table, 0, false);
}

/// What an edge brings, from a rank with this bit.
fn heard(edge: Record, bit: bool) -> bool
    ensures is { result ≡ heard_bit bit edge }
{
    if edge.c == 0 { bit } else { !bit }
}

/// Joins what an edge brings to the bit of its target. A rank past the last one counts as the last one: only a
/// device that doesn't tell gives such an edge.
pub(crate) fn follow(table: &mut [Record], edge: Record, last: u64)
    requires within { last < 256 * length table.old }
    ensures follows { FollowsEdge edge last table.old table.new }
{
    let source = edge.a.min(last);
    let target = (edge.b / 2).min(last);
    let bit = heard(edge, get(table, source));
    and_in(table, target, bit);
}

/// Copies bits of a table, from `first` on, to the front of another row.
pub(crate) fn copy(table: &[Record], first: u64, count: u64, row: &mut [Record])
    requires few { first + count < 2 ^ 50 }
    requires from { first + count ≤ 256 * length table.now }
    requires to { count ≤ 256 * length row.old }
    ensures bits { bits_at row.new 0 count ≡ bits_at table.now first count }
    ensures long { length row.new ≡ length row.old }
{
    fill(row);
    for number in 0..count {
        and_in(row, number, get(table, first + number));
    }
}
