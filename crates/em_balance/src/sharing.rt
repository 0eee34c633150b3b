//! Two neighbouring nodes and the node over them, in frames: they become one node, or share their entries anew.
//!
//!     before  parent [.. a b ..]    low under a [c d]    high under b [e f]
//!     fused   parent [.. a ..]      low [c d b' f]       b' is e from the low key of b on
//!     shared  parent [.. a b ..]    low [c d]  high [b' f]    with more of them, half each

ghost use Rattle.std.specs.Prelude.{◌≡◌, ◌+◌, ◌-◌, ◌*◌, ◌^◌, ◌<◌, ◌≤◌, ◌⊎◌, length, get_or, set, drop, true, ◌++◌, IsTrue, IsSome};
ghost use Rattle.em_record.specs.Order.{is_below};
ghost use Rattle.em_node.specs.declared.entry.Entry as entries;
ghost use Rattle.em_node.specs.Node.{Is, IsNode, LowsAbove, LowsRise, entries_of, level_of, no_entry};
ghost use Rattle.em_balance.specs.Node.{LowsBelow};
ghost use Rattle.em_balance.specs.Fusing.{AreTogether, DealsFrames, ShareFrames, from_low, lowered_to};

use crate::dealing::deal;
use em_frames::Frame;
use em_node::{Entry, count, entry_at, remove, set_entry};
use em_record::Record;

/// Fuses two nodes or shares their entries, by the node over them: whether they were fused, or none if one isn't
/// short, or low keys don't rise from one to the next.
pub fn fuse_frames(
    parent: &mut Frame,
    at: usize,
    low: &mut Frame,
    high: &mut Frame,
    fan: usize,
) -> Option<bool>
    requires parent_node { IsNode parent.old }
    requires low_node { IsNode low.old }
    requires high_node { IsNode high.old }
    requires two { at + 1 < length (entries_of parent.old) }
    requires fits { at + 1 < 2 ^ 64 }
    requires fan { fan ≤ 2 ^ 16 }
    requires low_most { length (entries_of low.old) ≤ 2 * fan }
    requires high_most { length (entries_of high.old) ≤ 2 * fan }
    requires low_room { 2 + 6 * fan ≤ length low.old }
    requires high_room { 2 + 6 * fan ≤ length high.old }
    ensures parent_len { length parent.new ≡ length parent.old }
    ensures low_len { length low.new ≡ length low.old }
    ensures high_len { length high.new ≡ length high.old }
    ensures deals { DealsFrames fan at parent.old low.old high.old parent.new low.new high.new result }
    ensures passes { AreTogether fan (entries_of parent.old) at (entries_of low.old) (entries_of high.old)
        → IsSome result }
{
    let sep = entry_at(parent, at + 1);
    if !is_short(low, high, fan)
        || !is_last_below(low, sep.low)
        || !is_second_above(high, sep.low)
    {
        return None;
    }
    begin_from(high, sep.low);
    let total = count(low) + count(high);
    if total < 2 * fan {
        deal(low, high, total);
        remove(parent, at + 1);
        return Some(true);
    }
    share(parent, at, low, high, total / 2)
}

/// Whether one of the two nodes has too few entries.
fn is_short(low: &Frame, high: &Frame, fan: usize) -> bool
    requires low_node { IsNode low.now }
    requires high_node { IsNode high.now }
    ensures short { IsTrue result → (length (entries_of low.now) < fan) ⊎ (length (entries_of high.now) < fan) }
    ensures passes { (length (entries_of low.now) < fan) ⊎ (length (entries_of high.now) < fan) → IsTrue result }
{
    count(low) < fan || count(high) < fan
}

/// Whether the last low key of a node is below this one, if there is one.
fn is_last_below(frame: &Frame, key: Record) -> bool
    requires node { IsNode frame.now }
    ensures below { IsTrue result → 0 < length (entries_of frame.now)
        → is_below (get_or (entries_of frame.now) (length (entries_of frame.now) - 1) no_entry).low key ≡ true }
    ensures passes { LowsBelow (entries_of frame.now) key → IsTrue result }
{
    let count = count(frame);
    count == 0 || comes_before(entry_at(frame, count - 1).low, key)
}

/// Whether the low keys of a node but the first are above this one.
fn is_second_above(frame: &Frame, key: Record) -> bool
    requires node { IsNode frame.now }
    ensures above { IsTrue result → LowsAbove key (drop 1 (entries_of frame.now)) }
    ensures passes { LowsAbove key (drop 1 (entries_of frame.now)) → IsTrue result }
{
    count(frame) < 2 || comes_before(key, entry_at(frame, 1).low)
}

/// Whether the first record is below the second.
fn comes_before(first: Record, second: Record) -> bool
    ensures { result ≡ is_below first second }
{
    first < second
}

/// Gives the first entry of a node another low key.
fn begin_from(frame: &mut Frame, key: Record)
    requires node { IsNode frame.old }
    requires above { LowsAbove key (drop 1 (entries_of frame.old)) }
    ensures len { length frame.new ≡ length frame.old }
    ensures is { Is frame.new (level_of frame.old) (from_low key (entries_of frame.old)) }
{
    if count(frame) > 0 {
        let first = entry_at(frame, 0);
        set_entry(frame, 0, lowered(first, key));
    }
}

/// An entry with another low key.
fn lowered(entry: Entry, key: Record) -> Entry
    ensures { result ≡ lowered_to key entry }
{
    let mut entry = entry;
    entry.low = key;
    entry
}

/// Gives the first node this many of the entries, and the entry for the second one its new low key.
fn share(
    parent: &mut Frame,
    at: usize,
    low: &mut Frame,
    high: &mut Frame,
    keep: usize,
) -> Option<bool>
    requires parent_node { IsNode parent.old }
    requires low_node { IsNode low.old }
    requires high_node { IsNode high.old }
    requires two { at + 1 < length (entries_of parent.old) }
    requires fits { at + 1 < 2 ^ 64 }
    requires order { LowsRise (entries_of low.old ++ entries_of high.old) }
    requires some { keep < length (entries_of low.old) + length (entries_of high.old) }
    requires low_room { 2 + 3 * keep ≤ length low.old }
    requires high_room { 2 + 3 * (length (entries_of low.old) + length (entries_of high.old) - keep)
        ≤ length high.old }
    ensures parent_len { length parent.new ≡ length parent.old }
    ensures low_len { length low.new ≡ length low.old }
    ensures high_len { length high.new ≡ length high.old }
    ensures shares { ShareFrames at keep parent.old low.old high.old parent.new low.new high.new result }
    ensures passes { is_below (get_or (entries_of parent.old) at no_entry).low
        (get_or (entries_of low.old ++ entries_of high.old) keep no_entry).low ≡ true
        → (at + 2 < length (entries_of parent.old)
        → is_below (get_or (entries_of low.old ++ entries_of high.old) keep no_entry).low
        (get_or (entries_of parent.old) (at + 2) no_entry).low ≡ true) → IsSome result }
{
    deal(low, high, keep);
    let key = entry_at(high, 0).low;
    if !comes_between(parent, at, key) {
        return None;
    }
    let upper = entry_at(parent, at + 1);
    set_entry(parent, at + 1, lowered(upper, key));
    Some(false)
}

/// Whether a low key may stand after the entry of a place in place of the next one's.
fn comes_between(parent: &Frame, at: usize, key: Record) -> bool
    requires node { IsNode parent.now }
    requires two { at + 1 < length (entries_of parent.now) }
    ensures order { IsTrue result → (e : entries.Entry) → e.low ≡ key
        → LowsRise (set (entries_of parent.now) (at + 1) e) }
    ensures passes { is_below (get_or (entries_of parent.now) at no_entry).low key ≡ true
        → (at + 2 < length (entries_of parent.now)
        → is_below key (get_or (entries_of parent.now) (at + 2) no_entry).low ≡ true) → IsTrue result }
{
    let last = count(parent) - 1;
    comes_before(entry_at(parent, at).low, key)
        && (at + 1 == last || comes_before(key, entry_at(parent, at + 2).low))
}
