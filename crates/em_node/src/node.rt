//! The calls on a node:
//!
//! ```text
//! level 1, entries  low 5 | low 9 | low 20      a key below 9 goes to the first child,
//!                   child | child | child       one from 9 and below 20 to the second,
//!                   chain | chain | chain       any other to the third
//! ```
//!
//! Each call keeps that low keys rise, that there are records for all entries, and that buffers are
//! within the limits of chains. Which links lead where is left to the tree. The first low key is
//! kept in order too, though `find` doesn't read it.
ghost use Rattle.std.specs.Prelude.{◌≡◌, ◌+◌, ◌-◌, ◌*◌, ◌/◌, ◌<◌, ◌≤◌, length, get_or, [], set, insert, remove, take, drop, ◌++◌};
ghost use Rattle.em_node.specs.Node.{Is, IsNode, entries_of, level_of, no_entry, IsLimited, LowsRise, place_of};

use crate::entry::Entry;
use crate::layout::{
    comes_before, put_entry, put_header, put_record, read_entry, record_at, shift_down, shift_up,
};
use em_frames::Frame;
use em_record::Record;

/// Makes a frame a node with no entries.
pub fn fresh(frame: &mut Frame, level: u64)
    requires room { 2 ≤ length frame.old }
    requires level { level ≤ 63 }
    ensures len { length frame.new ≡ length frame.old }
    ensures is { Is frame.new level [] }
{
    put_header(frame, level, 0);
    put_record(frame, 1, Record::ZERO);
}

/// The level of a node.
pub fn level(frame: &Frame) -> u64
    requires { IsNode frame.now }
    ensures { result ≡ level_of frame.now }
{
    record_at(frame, 0).a
}

/// The number of entries of a node.
pub fn count(frame: &Frame) -> usize
    requires { IsNode frame.now }
    ensures { result ≡ length (entries_of frame.now) }
{
    record_at(frame, 0).b as usize
}

/// One entry of a node.
pub fn entry_at(frame: &Frame, at: usize) -> Entry
    requires node { IsNode frame.now }
    requires at { at < length (entries_of frame.now) }
    ensures { result ≡ get_or (entries_of frame.now) at no_entry }
{
    read_entry(frame, at)
}

/// Replaces an entry. The low keys still rise.
pub fn set_entry(frame: &mut Frame, at: usize, entry: Entry)
    requires node { IsNode frame.old }
    requires at { at < length (entries_of frame.old) }
    requires limited { IsLimited entry }
    requires order { LowsRise (set (entries_of frame.old) at entry) }
    ensures len { length frame.new ≡ length frame.old }
    ensures is { Is frame.new (level_of frame.old) (set (entries_of frame.old) at entry) }
{
    put_entry(frame, at, entry);
}

/// Puts an entry in before the one of this place. The low keys still rise, and there is room.
pub fn insert(frame: &mut Frame, at: usize, entry: Entry)
    requires node { IsNode frame.old }
    requires at { at ≤ length (entries_of frame.old) }
    requires room { 2 + 3 * (length (entries_of frame.old) + 1) ≤ length frame.old }
    requires limited { IsLimited entry }
    requires order { LowsRise (insert (entries_of frame.old) at entry) }
    ensures len { length frame.new ≡ length frame.old }
    ensures is { Is frame.new (level_of frame.old) (insert (entries_of frame.old) at entry) }
{
    let level = level(frame);
    let count = count(frame);
    shift_up(frame, at, count);
    put_entry(frame, at, entry);
    put_header(frame, level, count as u64 + 1);
}

/// Takes an entry out. Those after it move one place down.
pub fn remove(frame: &mut Frame, at: usize) -> Entry
    requires node { IsNode frame.old }
    requires at { at < length (entries_of frame.old) }
    ensures entry { result ≡ get_or (entries_of frame.old) at no_entry }
    ensures len { length frame.new ≡ length frame.old }
    ensures is { Is frame.new (level_of frame.old) (remove (entries_of frame.old) at) }
{
    let entry = entry_at(frame, at);
    let level = level(frame);
    let count = count(frame);
    shift_down(frame, at, count);
    put_header(frame, level, count as u64 - 1);
    entry
}

/// The place of a key: the last entry whose low key is at most the key, or 0.
pub fn find(frame: &Frame, key: Record) -> usize
    requires node { IsNode frame.now }
    requires some { 0 < length (entries_of frame.now) }
    ensures { result ≡ place_of key (entries_of frame.now) }
{
    let count = count(frame);
    for at in 1..count {
        let entry = entry_at(frame, at);
        if comes_before(key, entry.low) {
            return at - 1;
        }
    }
    count - 1
}

/// Moves the upper half of the entries to a fresh node: of an odd number the greater part.
pub fn split(frame: &mut Frame, upper: &mut Frame)
    requires node { IsNode frame.old }
    requires upper { Is upper.old (level_of frame.old) [] }
    requires same { length upper.old ≡ length frame.old }
    ensures len { length frame.new ≡ length frame.old }
    ensures upper_len { length upper.new ≡ length upper.old }
    ensures is { Is frame.new (level_of frame.old)
        (take (length (entries_of frame.old) / 2) (entries_of frame.old)) }
    ensures upper_is { Is upper.new (level_of frame.old)
        (drop (length (entries_of frame.old) / 2) (entries_of frame.old)) }
{
    let count = count(frame);
    let half = count / 2;
    for at in half..count {
        let entry = entry_at(frame, at);
        insert(upper, at - half, entry);
    }
    let level = level(frame);
    put_header(frame, level, half as u64);
}

/// Adds the entries of another node after those of this one. The low keys still rise.
pub fn fuse(frame: &mut Frame, upper: &Frame)
    requires node { IsNode frame.old }
    requires upper { IsNode upper.now }
    requires room { 2 + 3 * (length (entries_of frame.old) + length (entries_of upper.now))
        ≤ length frame.old }
    requires order { LowsRise (entries_of frame.old ++ entries_of upper.now) }
    ensures len { length frame.new ≡ length frame.old }
    ensures is { Is frame.new (level_of frame.old) (entries_of frame.old ++ entries_of upper.now) }
{
    let more = count(upper);
    for at in 0..more {
        let entry = entry_at(upper, at);
        let end = count(frame);
        insert(frame, end, entry);
    }
}
