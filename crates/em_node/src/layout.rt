//! How a node lies in a frame, as it is written and read:
//!
//! ```text
//! record 0      level | entries | 2 | 0
//! record 1      0 | 0 | 0 | 0
//! record 2+3i   the low key of entry i
//! record 3+3i   child | word 0 | word 1 | word 2 of its buffer
//! record 4+3i   word 3 | word 4 of its buffer | 0 | 0
//! ```
//!
//! Records past the last entry are any.
ghost use Rattle.std.specs.Prelude.{◌≡◌, ◌+◌, ◌-◌, ◌*◌, ◌^◌, ◌<◌, ◌≤◌, length, set, get_or};
ghost use Rattle.std.specs.List.{copy_within};
ghost use Rattle.em_record.specs.Order.{is_below};
ghost use Rattle.em_frames.specs.Device.{zero_record};
ghost use Rattle.em_node.specs.Node.{node_header, entry_of};
ghost use Rattle.em_node.specs.Records.{with_entry};

use crate::entry::Entry;
use em_frames::Frame;
use em_record::Record;

/// The kind of a node block, in the word c of its header.
const NODE: u64 = 2;

/// Writes the header of a node.
pub fn put_header(frame: &mut Frame, level: u64, count: u64)
    requires { 0 < length frame.old }
    ensures { frame.new ≡ set frame.old 0 (node_header level count) }
{
    frame.records_mut()[0] = Record {
        a: level,
        b: count,
        c: NODE,
        d: 0,
    };
}

/// The place of the first record of an entry.
pub fn place(frame: &Frame, at: usize) -> usize
    requires { 2 + 3 * at ≤ length frame.now }
    ensures is { result ≡ 2 + 3 * at }
    ensures fits { length frame.now < 2 ^ 64 }
{
    2 + 3 * at.min(frame.records().len())
}

/// Writes an entry as three records.
pub fn put_entry(frame: &mut Frame, at: usize, entry: Entry)
    requires { 2 + 3 * at + 2 < length frame.old }
    ensures { frame.new ≡ with_entry frame.old at entry }
{
    let first = place(frame, at);
    let [head, skip, tail, count, blocks] = entry.buffer;
    put_record(frame, first, entry.low);
    put_record(
        frame,
        first + 1,
        Record {
            a: entry.child,
            b: head,
            c: skip,
            d: tail,
        },
    );
    put_record(
        frame,
        first + 2,
        Record {
            a: count,
            b: blocks,
            c: 0,
            d: 0,
        },
    );
}

/// Reads an entry from its three records.
pub fn read_entry(frame: &Frame, at: usize) -> Entry
    requires { 2 + 3 * at + 2 < length frame.now }
    ensures { result ≡ entry_of (get_or frame.now (2 + 3 * at) zero_record)
        (get_or frame.now (2 + 3 * at + 1) zero_record)
        (get_or frame.now (2 + 3 * at + 2) zero_record) }
{
    let first = place(frame, at);
    let low = record_at(frame, first);
    let second = record_at(frame, first + 1);
    let third = record_at(frame, first + 2);
    Entry {
        low,
        child: second.a,
        buffer: [second.b, second.c, second.d, third.a, third.b],
    }
}

/// Moves the records of the entries from a place on, so that one more has room there.
pub fn shift_up(frame: &mut Frame, at: usize, count: usize)
    requires at { at ≤ count }
    requires room { 2 + 3 * (count + 1) ≤ length frame.old }
    ensures few { count + 1 < 2 ^ 64 }
    ensures len { length frame.new ≡ length frame.old }
    ensures is { frame.new ≡ copy_within frame.old (2 + 3 * at) (2 + 3 * count) (5 + 3 * at) }
{
    let first = place(frame, at);
    let end = place(frame, count);
    move_records(frame, first, end, first + 3);
}

/// Moves the records of the entries after a place to that place.
pub fn shift_down(frame: &mut Frame, at: usize, count: usize)
    requires at { at < count }
    requires room { 2 + 3 * count ≤ length frame.old }
    ensures len { length frame.new ≡ length frame.old }
    ensures is { frame.new ≡ copy_within frame.old (5 + 3 * at) (2 + 3 * count) (2 + 3 * at) }
{
    let first = place(frame, at);
    let end = place(frame, count);
    move_records(frame, first + 3, end, first);
}

/// Writes one record.
pub fn put_record(frame: &mut Frame, at: usize, item: Record)
    requires { at < length frame.old }
    ensures { frame.new ≡ set frame.old at item }
{
    frame.records_mut()[at] = item;
}

/// One record.
pub fn record_at(frame: &Frame, at: usize) -> Record
    requires { at < length frame.now }
    ensures { result ≡ get_or frame.now at zero_record }
{
    frame.records()[at]
}

/// Copies the records from `start` up to `end`, without that one, to the place `to`.
pub fn move_records(frame: &mut Frame, start: usize, end: usize, to: usize)
    requires start { start ≤ end }
    requires end { end ≤ length frame.old }
    requires to { to + (end - start) ≤ length frame.old }
    ensures len { length frame.new ≡ length frame.old }
    ensures is { frame.new ≡ copy_within frame.old start end to }
{
    frame.records_mut().copy_within(start..end, to);
}

/// Whether the first record is below the second.
pub fn comes_before(first: Record, second: Record) -> bool
    ensures { result ≡ is_below first second }
{
    first < second
}
