//! The test of a frame that was read from a device: whether it holds a node.
ghost use Rattle.std.specs.Prelude.{◌≡◌, ◌↔◌, ◌+◌, ◌*◌, ◌<◌, ◌≤◌, length, drop, IsTrue};
ghost use Rattle.em_record.specs.Shape.{fan_of};
ghost use Rattle.em_node.specs.Node.{IsNodeBlock};
ghost use Rattle.em_node.specs.Records.{IsEntry, IsHead, HasHead, IsAt, LaidOut};

use crate::layout::{comes_before, place, record_at};
use em_frames::Frame;
use em_record::{Record, Shape};

/// Whether these are the first two records of a node of at most `most` entries.
fn is_head(first: Record, second: Record, most: u64) -> bool
    ensures { IsTrue result ↔ IsHead most first second }
{
    first.c == 2 && first.d == 0 && first.a <= 63 && first.b <= most && second == Record::ZERO
}

/// Whether a frame has room for the two headers and `count` entries.
fn has_room(frame: &Frame, count: u64) -> bool
    ensures { IsTrue result ↔ (2 + 3 * count ≤ length frame.now) }
{
    let len = frame.records().len() as u64;
    len >= 2 && count <= (len - 2) / 3
}

/// Whether a frame begins as a node of at most `most` entries, and has room for them.
fn has_head(frame: &Frame, most: u64) -> bool
    ensures { IsTrue result ↔ HasHead most frame.now }
{
    if frame.records().len() < 2 {
        return false;
    }
    let first = record_at(frame, 0);
    is_head(first, record_at(frame, 1), most) && has_room(frame, first.b)
}

/// Whether these are the second and the third record of an entry.
fn is_entry(second: Record, third: Record, blocks: u64) -> bool
    ensures { IsTrue result ↔ IsEntry blocks second third }
{
    second.a >= 1
        && second.a <= blocks
        && second.b <= blocks
        && second.d <= blocks
        && third.a <= 1 << 56
        && third.b <= 1 << 56
        && third.c == 0
        && third.d == 0
}

/// Whether one of `count` entries is laid out, with a low key below the next one's.
fn is_at(frame: &Frame, at: usize, count: usize, blocks: u64) -> bool
    requires at { at < count }
    requires room { 2 + 3 * count ≤ length frame.now }
    ensures { IsTrue result ↔ IsAt blocks count frame.now at }
{
    let first = place(frame, at);
    if !is_entry(
        record_at(frame, first + 1),
        record_at(frame, first + 2),
        blocks,
    ) {
        return false;
    }
    if at + 1 == count {
        return true;
    }
    comes_before(record_at(frame, first), record_at(frame, first + 3))
}

/// Whether `count` entries are laid out.
fn are_entries(frame: &Frame, count: usize, blocks: u64) -> bool
    requires { 2 + 3 * count ≤ length frame.now }
    ensures { IsTrue result ↔ LaidOut blocks count (drop 2 frame.now) }
{
    for at in 0..count {
        if !is_at(frame, at, count, blocks) {
            return false;
        }
    }
    true
}

/// Whether a frame, whatever it holds, is a node of at most 2f entries, with links for a device of
/// `blocks` blocks.
pub fn check(frame: &Frame, shape: &Shape, blocks: u64) -> bool
    ensures { IsTrue result ↔ IsNodeBlock (2 * fan_of shape.now) blocks frame.now }
{
    if !has_head(frame, 2 * shape.fan()) {
        return false;
    }
    let first = record_at(frame, 0);
    are_entries(frame, first.b as usize, blocks)
}
