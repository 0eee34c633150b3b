//! Nodes that are full, split on the way up from a leaf.
//!
//!     before  upper [.. a ..]            a leads to a full node
//!     after   upper [.. a b ..]          a leads to its lower part, and b to its upper one
//!
//! Kept here: each node of the path has room for an entry afterwards, split parts have f entries, and
//! no block but those of the tree is changed. Left to the tree: that nothing waits over the nodes
//! above level 1 on the path, and that their low keys are in their ranges.

ghost use Rattle.std.specs.Prelude.{◌≡◌, ◌<◌, ◌≤◌, length};
ghost use Rattle.em_space.specs.Rig.{InUse, Sound};
ghost use Rattle.em_space.specs.Seen.{seen};
ghost use Rattle.em_node.specs.Node.{IsNode, entries_of};
ghost use Rattle.em_tree_walk.specs.Stands.{AreLinkedUp, LeadsToTree};
ghost use Rattle.em_tree_walk.specs.SplitPaths.{CanGrowOver, CanSplitPath, CanSplitUp, GrowsRoot, HasCount, SplitsFull, SplitsPath, SplitsUp};
ghost use Rattle.em_tree_walk.specs.Turns.{ReadsTurn, turn_in};

use crate::descending::{child_in, load_node};
use crate::inserting::add_entry;
use em_balance::{grow_up, split_node};
use em_frames::{Device, Frame};
use em_node::{Entry, count, find};
use em_record::Record;
use em_space::{EmFault, Rig};

/// A node on a key's path: the place of the entry that the path takes, its child, and the entries.
#[derive(Clone, Copy, Drop)]
struct Turn {
    at: usize,
    child: u64,
    entries: u64,
}

/// The most levels of nodes: enough for 2^100 operations, at any shape.
pub const MOST_LEVELS: u64 = 24;

/// The root of a tree: its block, and its level, 1 over leaves.
#[derive(Clone, Copy, Drop)]
pub struct Root {
    /// The number of its block.
    pub block: u64,
    /// The levels of nodes.
    pub level: u64,
}

/// Splits each full node on a key's path, from level 1 upwards; the first one that isn't full ends it. A
/// root that is split gets a new root over it, and the answer is that one. Six frames must be free.
///
/// At most 7 blocks are moved for each level, and 4 for a new root; a block is taken for each node that
/// is split, and one for a new root. `Full` comes only if all blocks are in use, and `DeviceFault` if the
/// device's count of faults rose. `Damaged` comes only over a device that doesn't tell, also if a root
/// on the last level would be split. After a fault the tree's blocks may hold anything.
pub fn split_up<D: Device>(rig: &mut Rig<'_, D>, root: Root, key: Record) -> Result<Root, EmFault>
    requires sound { Sound (seen D.state rig.old) }
    requires can { CanSplitUp (seen D.state rig.old) root key }
    requires free { 6 ≤ (seen D.state rig.old).pool.free }
    ensures { SplitsUp (seen D.state rig.old) (seen D.state rig.new) root key result }
{
    match split_path(rig, root.block, root.level, key)? {
        None => Ok(root),
        Some(upper) => grow_over(rig, root, upper),
    }
}

/// A new root over one that was split. Over a device that doesn't tell, a root may be on the last level:
/// then it is `Damaged`.
fn grow_over<D: Device>(rig: &mut Rig<'_, D>, root: Root, upper: Entry) -> Result<Root, EmFault>
    requires sound { Sound (seen D.state rig.old) }
    requires can { CanGrowOver (seen D.state rig.old) root upper }
    requires free { 6 ≤ (seen D.state rig.old).pool.free }
    ensures { GrowsRoot (seen D.state rig.old) (seen D.state rig.new) root upper result }
{
    if root.level == MOST_LEVELS {
        return Err(EmFault::Damaged { block: root.block });
    }
    let block = grow_up(rig, root.block, upper)?;
    Ok(Root {
        block,
        level: root.level + 1,
    })
}

/// The same from a node of a level on. Answers the entry for the node's split part, if it was split.
fn split_path<D: Device>(
    rig: &mut Rig<'_, D>,
    node: u64,
    level: u64,
    key: Record,
) -> Result<Option<Entry>, EmFault>
    requires sound { Sound (seen D.state rig.old) }
    requires can { CanSplitPath (seen D.state rig.old) level node key }
    requires above { 0 < level }
    requires free { 6 ≤ (seen D.state rig.old).pool.free }
    ensures { SplitsPath (seen D.state rig.old) (seen D.state rig.new) level node key result }
{
    let turn = turn_at(rig, node, level, key)?;
    if level == 1 {
        return split_full(rig, node, turn.entries);
    }
    match split_path(rig, turn.child, level - 1, key)? {
        None => Ok(None),
        Some(upper) => {
            add_entry(rig, node, level, turn.at, upper)?;
            split_full(rig, node, turn.entries + 1)
        }
    }
}

/// Splits a node of this number of entries if it is full. Answers the entry for its split part.
fn split_full<D: Device>(
    rig: &mut Rig<'_, D>,
    node: u64,
    entries: u64,
) -> Result<Option<Entry>, EmFault>
    requires sound { Sound (seen D.state rig.old) }
    requires in_use { InUse (seen D.state rig.old) node }
    requires count { HasCount (seen D.state rig.old) node entries }
    requires free { 6 ≤ (seen D.state rig.old).pool.free }
    ensures { SplitsFull (seen D.state rig.old) (seen D.state rig.new) node result }
{
    if entries < 2 * rig.shape().fan() {
        return Ok(None);
    }
    Ok(Some(split_node(rig, node)?))
}

/// Loads a node, and finds the entry on a key's path.
fn turn_at<D: Device>(
    rig: &mut Rig<'_, D>,
    node: u64,
    level: u64,
    key: Record,
) -> Result<Turn, EmFault>
    requires sound { Sound (seen D.state rig.old) }
    requires leads { LeadsToTree (seen D.state rig.old) level node }
    requires above { 0 < level }
    requires free { 0 < (seen D.state rig.old).pool.free }
    ensures { ReadsTurn key (seen D.state rig.old) (seen D.state rig.new) level node result }
{
    let mut frame = rig.lend();
    let turn = load_turn(rig, node, level, key, &mut frame);
    rig.give(frame);
    turn
}

/// The same with a frame.
fn load_turn<D: Device>(
    rig: &mut Rig<'_, D>,
    node: u64,
    level: u64,
    key: Record,
    frame: &mut Frame,
) -> Result<Turn, EmFault>
    requires sound { Sound (seen D.state rig.old) }
    requires leads { LeadsToTree (seen D.state rig.old) level node }
    requires above { 0 < level }
    requires len { length frame.old ≡ (seen D.state rig.old).pool.shape.block }
    ensures len { length frame.new ≡ length frame.old }
    ensures reads { ReadsTurn key (seen D.state rig.old) (seen D.state rig.new) level node result }
{
    load_node(rig, node, level, frame)?;
    Ok(turn_of(frame, key))
}

/// The entry on a key's path, of a node that is in a frame.
fn turn_of(frame: &Frame, key: Record) -> Turn
    requires node { IsNode frame.now }
    requires some { 0 < length (entries_of frame.now) }
    requires linked { AreLinkedUp (entries_of frame.now) }
    ensures { result ≡ turn_in (entries_of frame.now) key }
{
    let at = find(frame, key);
    Turn {
        at,
        child: child_in(frame, at),
        entries: count(frame) as u64,
    }
}
