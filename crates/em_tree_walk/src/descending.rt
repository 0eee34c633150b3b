//! The way from the root to a node, by a key: in each node the last entry whose low key is at most the
//! key, or the first.

ghost use Rattle.std.specs.Prelude.{◌≡◌, ◌↔◌, ◌-◌, ◌<◌, ◌≤◌, length, IsTrue};
ghost use Rattle.em_space.specs.Rig.{Sound};
ghost use Rattle.em_space.specs.Seen.{seen};
ghost use Rattle.em_node.specs.Node.{IsLimited, IsNode, entries_of};
ghost use Rattle.em_tree_blocks.specs.Node.{chain_of};
ghost use Rattle.em_tree_blocks.specs.Paths.{child_at};
ghost use Rattle.em_tree_model.specs.Ranges.{Under};
ghost use Rattle.em_tree_walk.specs.Reads.{ReadsTested};
ghost use Rattle.em_tree_walk.specs.Stands.{AreLinkedUp, IsNodeOf, LeadsToTree};
ghost use Rattle.em_tree_walk.specs.Descents.{Descends, down_to, end_at, from_root};

use em_chain::Chain;
use em_frames::{Device, Frame};
use em_node::{Entry, check, count, entry_at, find, level};
use em_record::{Record, Shape};
use em_space::{EmFault, Rig};

/// A node on a key's path, and where its keys end: at the low key of the next node, if there is one.
#[derive(Clone, Copy, Debug, PartialEq, Eq, Drop)]
pub struct Descent {
    pub node: u64,
    pub end: Option<Record>,
}

/// Loads a node of a level into a frame. Another block is `Damaged`, and so is a node with no entry.
pub fn load_node<D: Device>(
    rig: &mut Rig<'_, D>,
    node: u64,
    at_level: u64,
    frame: &mut Frame,
) -> Result<(), EmFault>
    requires sound { Sound (seen D.state rig.old) }
    requires leads { LeadsToTree (seen D.state rig.old) at_level node }
    requires above { 0 < at_level }
    requires len { length frame.old ≡ (seen D.state rig.old).pool.shape.block }
    ensures len { length frame.new ≡ length frame.old }
    ensures reads { ReadsTested
        (IsNodeOf at_level (seen D.state rig.old).pool.shape (seen D.state rig.old).blocks)
        (seen D.state rig.old) (seen D.state rig.new) node frame.new result }
{
    rig.load(node, frame)?;
    if !is_node_of(frame, &rig.shape(), rig.blocks(), at_level) {
        return Err(EmFault::Damaged { block: node });
    }
    Ok(())
}

/// Whether a frame holds a node of a level with an entry.
fn is_node_of(frame: &Frame, shape: &Shape, blocks: u64, at_level: u64) -> bool
    ensures { IsTrue result ↔ IsNodeOf at_level shape.now blocks frame.now }
{
    check(frame, shape, blocks) && level(frame) == at_level && count(frame) > 0
}

/// The node of a level on a key's path. It isn't loaded. At most one block is moved for each level
/// in between.
pub fn descend<D: Device>(
    rig: &mut Rig<'_, D>,
    root: u64,
    top: u64,
    to: u64,
    key: Record,
) -> Result<Descent, EmFault>
    requires sound { Sound (seen D.state rig.old) }
    requires leads { LeadsToTree (seen D.state rig.old) top root }
    requires down { to ≤ top }
    requires free { 0 < (seen D.state rig.old).pool.free }
    ensures { Descends key (seen D.state rig.old) (seen D.state rig.new) (top - to) to
        (from_root root) result }
{
    let mut frame = rig.lend();
    let found = descend_in(rig, root, top, to, key, &mut frame);
    rig.give(frame);
    found
}

/// The same with a frame.
fn descend_in<D: Device>(
    rig: &mut Rig<'_, D>,
    root: u64,
    top: u64,
    to: u64,
    key: Record,
    frame: &mut Frame,
) -> Result<Descent, EmFault>
    requires sound { Sound (seen D.state rig.old) }
    requires leads { LeadsToTree (seen D.state rig.old) top root }
    requires down { to ≤ top }
    requires len { length frame.old ≡ (seen D.state rig.old).pool.shape.block }
    ensures len { length frame.new ≡ length frame.old }
    ensures descends { Descends key (seen D.state rig.old) (seen D.state rig.new) (top - to) to
        (from_root root) result }
{
    let mut descent = Descent {
        node: root,
        end: None,
    };
    let mut at_level = top;
    while at_level > to {
        let child = go_down(rig, descent, at_level, key, frame)?;
        descent = child;
        at_level -= 1;
    }
    Ok(descent)
}

/// One level down.
fn go_down<D: Device>(
    rig: &mut Rig<'_, D>,
    from: Descent,
    at_level: u64,
    key: Record,
    frame: &mut Frame,
) -> Result<Descent, EmFault>
    requires sound { Sound (seen D.state rig.old) }
    requires leads { LeadsToTree (seen D.state rig.old) at_level from.node }
    requires above { 0 < at_level }
    requires len { length frame.old ≡ (seen D.state rig.old).pool.shape.block }
    ensures len { length frame.new ≡ length frame.old }
    ensures descends { Descends key (seen D.state rig.old) (seen D.state rig.new) 1
        (at_level - 1) from result }
{
    load_node(rig, from.node, at_level, frame)?;
    Ok(child_on_path(frame, from, key))
}

/// The child on a key's path, of a node that is in a frame.
fn child_on_path(frame: &Frame, from: Descent, key: Record) -> Descent
    requires node { IsNode frame.now }
    requires some { 0 < length (entries_of frame.now) }
    requires linked { AreLinkedUp (entries_of frame.now) }
    ensures { result ≡ down_to key (entries_of frame.now) from }
{
    let at = find(frame, key);
    Descent {
        node: child_in(frame, at),
        end: end_of(frame, at, from.end),
    }
}

/// The block of the child of an entry.
pub fn child_in(frame: &Frame, at: usize) -> u64
    requires node { IsNode frame.now }
    requires at { at < length (entries_of frame.now) }
    requires linked { AreLinkedUp (entries_of frame.now) }
    ensures { result ≡ child_at at (entries_of frame.now) }
{
    entry_at(frame, at).child - 1
}

/// Where the keys of an entry end, in a node whose keys end there.
pub fn end_of(frame: &Frame, at: usize, end: Option<Record>) -> Option<Record>
    requires node { IsNode frame.now }
    requires at { at < length (entries_of frame.now) }
    ensures { result ≡ end_at (entries_of frame.now) at end }
{
    let entries = count(frame);
    if at + 1 < entries {
        Some(entry_at(frame, at + 1).low)
    } else {
        end
    }
}

/// The buffer of an entry as a chain.
pub fn buffer_of(entry: &Entry) -> Chain
    requires { IsLimited entry.now }
    ensures { result ≡ chain_of entry.now.buffer }
{
    Chain::from_words(entry.buffer)
}

/// Whether a key is below the end of a range.
pub fn is_under(key: Record, end: Option<Record>) -> bool
    ensures { IsTrue result ↔ Under end key }
{
    match end {
        Some(high) => key < high,
        None => true,
    }
}
