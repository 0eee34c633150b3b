//! The first buffer of a level, from a key on, that has as many records as a limit.

ghost use Rattle.std.specs.Prelude.{◌≡◌, ◌<◌, ◌≤◌, length};
ghost use Rattle.em_space.specs.Rig.{Sound};
ghost use Rattle.em_space.specs.Seen.{seen};
ghost use Rattle.em_node.specs.Node.{IsNode, entries_of, place_of};
ghost use Rattle.em_empty.specs.FirstFull.{buffer_len};
ghost use Rattle.em_tree_walk.specs.Stands.{LeadsToTree};
ghost use Rattle.em_tree_walk.specs.Searches.{Finds, FindsEnd, FindsPlace, IsFirstFrom, SearchesFrom, SearchesNode, begins_at};

use crate::descending::{Descent, descend, end_of, is_under, load_node};
use em_frames::{Device, Frame};
use em_node::{count, entry_at, find};
use em_record::Record;
use em_space::{EmFault, Rig};

/// The keys from `from` up to `until`.
#[derive(Clone, Copy, Debug, PartialEq, Eq, Drop)]
pub struct Range {
    pub from: Record,
    pub until: Option<Record>,
}

/// What a search among the nodes of a level found.
#[derive(Clone, Copy, Debug, PartialEq, Eq, Drop)]
pub enum Finding {
    /// The entry at a place of a node has such a buffer. These are the keys from the search's first one on
    /// of its range.
    Found { node: u64, at: usize, keys: Range },
    /// This node has none, and the next one begins there.
    Next(Record),
    /// No node of the range has one.
    Nothing,
}

/// Searches the node of a level on the path of the range's first key.
pub fn search<D: Device>(
    rig: &mut Rig<'_, D>,
    root: u64,
    top: u64,
    level: u64,
    limit: u64,
    keys: Range,
) -> Result<Finding, EmFault>
    requires sound { Sound (seen D.state rig.old) }
    requires leads { LeadsToTree (seen D.state rig.old) top root }
    requires above { 0 < level }
    requires down { level ≤ top }
    requires free { 0 < (seen D.state rig.old).pool.free }
    ensures { SearchesFrom (seen D.state rig.old) (seen D.state rig.new) root
        top level limit keys result }
{
    let descent = descend(rig, root, top, level, keys.from)?;
    let mut frame = rig.lend();
    let found = search_in(rig, &descent, level, limit, keys, &mut frame);
    rig.give(frame);
    found
}

/// The same with a frame, into which the node is loaded.
fn search_in<D: Device>(
    rig: &mut Rig<'_, D>,
    descent: &Descent,
    level: u64,
    limit: u64,
    keys: Range,
    frame: &mut Frame,
) -> Result<Finding, EmFault>
    requires sound { Sound (seen D.state rig.old) }
    requires leads { LeadsToTree (seen D.state rig.old) level descent.now.node }
    requires above { 0 < level }
    requires len { length frame.old ≡ (seen D.state rig.old).pool.shape.block }
    ensures len { length frame.new ≡ length frame.old }
    ensures searches { SearchesNode (seen D.state rig.old) (seen D.state rig.new) level limit
        descent.now keys result }
{
    load_node(rig, descent.node, level, frame)?;
    Ok(find_in(frame, descent, limit, keys))
}

/// Searches a node that is in a frame.
fn find_in(frame: &Frame, descent: &Descent, limit: u64, keys: Range) -> Finding
    requires node { IsNode frame.now }
    requires some { 0 < length (entries_of frame.now) }
    ensures { Finds limit (entries_of frame.now) descent.now keys result }
{
    let first = find(frame, keys.from);
    match first_place(frame, first, limit) {
        Some(at) => found_at(frame, descent, first, at, keys),
        None => next_node(descent.end, keys.until),
    }
}

/// The first place from one on whose buffer has `limit` records or more.
fn first_place(frame: &Frame, first: usize, limit: u64) -> Option<usize>
    requires node { IsNode frame.now }
    ensures { IsFirstFrom limit (entries_of frame.now) first result }
{
    for at in first..count(frame) {
        if buffered_at(frame, at) >= limit {
            return Some(at);
        }
    }
    None
}

/// The records in the buffer of a place.
fn buffered_at(frame: &Frame, at: usize) -> u64
    requires node { IsNode frame.now }
    requires at { at < length (entries_of frame.now) }
    ensures { result ≡ buffer_len (entries_of frame.now) at }
{
    let [_, _, _, records, _] = entry_at(frame, at).buffer;
    records
}

/// What a place means that has such a buffer: it may be beyond the range.
fn found_at(frame: &Frame, descent: &Descent, first: usize, at: usize, keys: Range) -> Finding
    requires node { IsNode frame.now }
    requires first { first ≡ place_of keys.from (entries_of frame.now) }
    requires after { first ≤ at }
    requires at { at < length (entries_of frame.now) }
    ensures { FindsPlace (entries_of frame.now) descent.now keys at result }
{
    let from = start_at(frame, first, at, keys.from);
    if at > first && !is_under(from, keys.until) {
        return Finding::Nothing;
    }
    Finding::Found {
        node: descent.node,
        at,
        keys: Range {
            from,
            until: end_of(frame, at, descent.end),
        },
    }
}

/// Where the keys of a place begin, of those from a search's first key on.
fn start_at(frame: &Frame, first: usize, at: usize, from: Record) -> Record
    requires node { IsNode frame.now }
    requires at { at < length (entries_of frame.now) }
    ensures { result ≡ begins_at (entries_of frame.now) first at from }
{
    if at == first {
        from
    } else {
        entry_at(frame, at).low
    }
}

/// Where the search goes on.
fn next_node(end: Option<Record>, until: Option<Record>) -> Finding
    ensures { FindsEnd end until result }
{
    match end {
        Some(low) => next_from(low, until),
        None => Finding::Nothing,
    }
}

/// The same for a node after which another one begins.
fn next_from(low: Record, until: Option<Record>) -> Finding
    ensures { FindsEnd (Some low) until result }
{
    if is_under(low, until) {
        Finding::Next(low)
    } else {
        Finding::Nothing
    }
}
