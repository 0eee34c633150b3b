//! Nodes of frames of 128 records. f is 16: a node has at most 32 entries.
ghost use Rattle.std.specs.Prelude.{◌≡◌, ◌<◌, ◌≤◌, ◌++◌, length, get_or};
ghost use Rattle.em_node.specs.Node.{Is, IsNode, entries_of, level_of, no_entry};

use crate::blocks::{key, numbered, write_node};
use crate::rows::{NONE, Numbers, numbers};
use em_frames::{Frame, Grant};
use em_node::{
    Entry, check, count, entry_at, find, fresh, fuse, insert, level, remove, set_entry, split,
};
use em_record::Shape;
use std::alloc::Global;
use std::test::Fail;

/// Takes an entry out, if there is one.
fn take_out(frame: &mut Frame, at: usize) -> Option<Entry>
    requires node { IsNode frame.old }
    requires len { length frame.old ≡ 128 }
    ensures node { IsNode frame.new }
    ensures len { length frame.new ≡ 128 }
{
    if at >= count(frame) {
        return None;
    }
    Some(remove(frame, at))
}

/// Splits a node.
fn part(frame: &mut Frame, upper: &mut Frame)
    requires node { IsNode frame.old }
    requires len { length frame.old ≡ 128 }
    requires upper_len { length upper.old ≡ 128 }
    ensures node { IsNode frame.new }
    ensures len { length frame.new ≡ 128 }
    ensures upper_node { IsNode upper.new }
    ensures upper_len { length upper.new ≡ 128 }
    ensures parts { entries_of frame.new ++ entries_of upper.new ≡ entries_of frame.old }
{
    let level = level(frame);
    fresh(upper, level);
    split(frame, upper);
}

/// Splits a node, counts both parts, and puts them together again.
fn part_and_fuse(frame: &mut Frame, upper: &mut Frame) -> (usize, usize)
    requires node { IsNode frame.old }
    requires len { length frame.old ≡ 128 }
    requires upper_len { length upper.old ≡ 128 }
    ensures node { IsNode frame.new }
    ensures len { length frame.new ≡ 128 }
    ensures upper_node { IsNode upper.new }
    ensures upper_len { length upper.new ≡ 128 }
{
    part(frame, upper);
    let counts = (count(frame), count(upper));
    fuse(frame, upper);
    counts
}

/// Splits a node, fuses it, and takes the entry of a key out. Answers the number of entries of both parts, the
/// first low key of the upper one, and the number of all; and the key's place, the low key there, the number of
/// entries that are left, and the level.
fn parted(frame: &mut Frame, upper: &mut Frame, word: u64) -> Numbers
    requires node { IsNode frame.old }
    requires len { length frame.old ≡ 128 }
    requires upper_len { length upper.old ≡ 128 }
    ensures len { length frame.new ≡ 128 }
    ensures upper_len { length upper.new ≡ 128 }
{
    let (lower, higher) = part_and_fuse(frame, upper);
    let all = count(frame);
    if all == 0 || count(upper) == 0 {
        return [
            lower as u64,
            higher as u64,
            NONE,
            all as u64,
            NONE,
            NONE,
            0,
            0,
        ];
    }
    let first = entry_at(upper, 0).low.a;
    let at = find(frame, key(word));
    let low = match take_out(frame, at) {
        Some(entry) => entry.low.a,
        None => NONE,
    };
    let left = count(frame) as u64;
    [
        lower as u64,
        higher as u64,
        first,
        all as u64,
        at as u64,
        low,
        left,
        level(frame),
    ]
}

/// Takes an entry out and puts it in again.
fn put_back(frame: &mut Frame, at: usize) -> Entry
    requires node { IsNode frame.old }
    requires at { at < length (entries_of frame.old) }
    ensures entry { result ≡ get_or (entries_of frame.old) at no_entry }
    ensures len { length frame.new ≡ length frame.old }
    ensures is { Is frame.new (level_of frame.old) (entries_of frame.old) }
{
    let entry = remove(frame, at);
    insert(frame, at, entry);
    entry
}

/// Puts the entry of a place in again, and answers its low key and its link; then lets it lead to block 11, and answers
/// the same.
fn changed(frame: &mut Frame, at: usize) -> [u64; 4]
    requires node { IsNode frame.old }
    requires at { at < length (entries_of frame.old) }
    ensures len { length frame.new ≡ length frame.old }
    ensures node { IsNode frame.new }
    ensures count { length (entries_of frame.new) ≡ length (entries_of frame.old) }
{
    let mut entry = put_back(frame, at);
    let old = entry_at(frame, at);
    entry.child = 12;
    set_entry(frame, at, entry);
    let new = entry_at(frame, at);
    [old.low.a, old.child, new.low.a, new.child]
}

/// Changes the entry of a key. Answers its place and what it was and is; and the number of entries, the low key of the
/// last one, and the level.
fn returned(frame: &mut Frame, word: u64) -> Numbers
    requires node { IsNode frame.old }
    requires len { length frame.old ≡ 128 }
    ensures len { length frame.new ≡ 128 }
{
    if count(frame) == 0 {
        return [NONE; 8];
    }
    let at = find(frame, key(word));
    if at >= count(frame) {
        return [NONE; 8];
    }
    let [low, child, new_low, new_child] = changed(frame, at);
    let count = count(frame);
    let last = entry_at(frame, count - 1).low.a;
    [
        at as u64,
        low,
        child,
        new_low,
        new_child,
        count as u64,
        last,
        level(frame),
    ]
}

/// Does one of both with a node of level 2 that has as many entries of a full one.
fn run(alloc: Global, given: Numbers) -> Result<Numbers, Fail> {
    let [entries, word, back, ..] = given;
    let shape = Shape::new(128, 64)?;
    let mut pool = Grant::new(alloc).pool(shape)?;
    let mut frame = pool.lend();
    let mut upper = pool.lend();
    write_node(&mut frame, 2, &numbered(12)[..(entries as usize).min(33)]);
    let told = if !check(&frame, &shape, 12) {
        [0; 8]
    } else if back == 1 {
        returned(&mut frame, word)
    } else {
        parted(&mut frame, &mut upper, word)
    };
    pool.give(upper);
    pool.give(frame);
    pool.end();
    Ok(told)
}

/// The number of the first row that is wrong.
fn first_wrong(alloc: Global, rows: &str) -> Result<Option<u64>, Fail> {
    let mut number = 0u64;
    for row in rows.lines() {
        number = number.saturating_add(1);
        let Some((given, told)) = row.split_once('|') else {
            return Ok(Some(number));
        };
        if run(alloc, numbers(given)?)? != numbers(told)? {
            return Ok(Some(number));
        }
    }
    Ok(None)
}

/// The number of entries and a key. The low keys are 0, 10 and so on. Of an odd number of entries the upper part
/// gets one more. A key is at the last low key up to it. A block with 33 entries is no node.
const PARTS: &str = "\
0 45|0 0 none 0 none none 0 0
1 45|0 1 0 1 0 0 0 2
2 45|1 1 10 2 1 10 1 2
5 45|2 3 20 5 4 40 4 2
5 39|2 3 20 5 3 30 4 2
5 0|2 3 20 5 0 0 4 2
31 150|15 16 150 31 15 150 30 2
32 9|16 16 160 32 0 0 31 2
32 10|16 16 160 32 1 10 31 2
32 none|16 16 160 32 31 310 31 2
33 45|0 0 0 0 0 0 0 0
";

#[test]
fn a_split_node_is_two_halves(rt: HostRuntime) -> Result<(), Fail> {
    assert_eq!(rt; first_wrong(rt.alloc(), PARTS)?, None);
    Ok(())
}

/// The number of entries, a key, and 1. Entry i has the low key 10i, and leads to block i, or to i - 12 or i - 24; a
/// link is one more. Of 32 entries the last one leads to block 7.
const CHANGES: &str = "\
0 45 1|none none none none none none none none
1 45 1|0 0 1 0 12 1 0 2
5 39 1|3 30 4 30 12 5 40 2
32 9 1|0 0 1 0 12 32 310 2
32 none 1|31 310 8 310 12 32 310 2
";

#[test]
fn an_entry_is_put_back_and_changed(rt: HostRuntime) -> Result<(), Fail> {
    assert_eq!(rt; first_wrong(rt.alloc(), CHANGES)?, None);
    Ok(())
}
