//! One node, filled with the next subtrees of a list, and stored in a new block.
//!
//! Kept here: the low keys of a node rise, and each entry leads to a block of the device. Left to the list: which subtrees
//! these are.

ghost use Rattle.std.specs.Prelude.{◌≡◌, ◌+◌, ◌-◌, ◌*◌, ◌<◌, ◌≤◌, ◌^◌, [], get_or, length, true, IsTrue};
ghost use Rattle.em_record.specs.Order.{is_below};
ghost use Rattle.em_record.specs.Shape.{fan_of};
ghost use Rattle.em_space.specs.Rig.{Sound};
ghost use Rattle.em_space.specs.Seen.{seen};
ghost use Rattle.em_chain.specs.Parts.{IsPair};
ghost use Rattle.em_chain.specs.Reader.{IsReader, ReaderHasFrame};
ghost use Rattle.em_chain.specs.Writer.{WriterHasFrame};
ghost use Rattle.em_node.specs.Node.{IsNode, entries_of, no_entry};
ghost use Rattle.em_balance.specs.Node.{entry_to};
ghost use Rattle.em_tree_raise.specs.Subtrees.{AddsSubtree, FillsNode, HasLeft};
ghost use Rattle.em_tree_raise.specs.Nodes.{ListsNode, BuildsNode};

use crate::listing::{list_subtree, next_subtree, subtree_at};
use em_balance::store_new;
use em_chain::{Reader, Writer};
use em_frames::{Device, Frame};
use em_node::{Entry, count, entry_at, fresh, insert};
use em_record::Record;
use em_space::{EmFault, Rig};

/// Stores a node of a level over the next `count` subtrees of a list, and lists it.
pub(crate) fn list_node<D: Device>(
    rig: &mut Rig<'_, D>,
    list: &mut Reader,
    level: u64,
    count: usize,
    upper: &mut Writer,
) -> Result<(), EmFault>
    requires sound { Sound (seen D.state rig.old) }
    requires pair { IsPair (seen D.state rig.old) list.old upper.old }
    requires level { level ≤ 63 }
    requires many { fan_of (seen D.state rig.old).pool.shape ≤ count }
    requires few { count < 2 * fan_of (seen D.state rig.old).pool.shape }
    requires left { IsTrue (seen D.state rig.old).device.told
        → HasLeft (seen D.state rig.old) list.old [] count }
    requires count { upper.old.count + 2 ≤ 2 ^ 56 }
    requires blocks { upper.old.blocks + 2 ≤ 2 ^ 56 }
    requires free { 1 < (seen D.state rig.old).pool.free }
    ensures reader { ReaderHasFrame (seen D.state rig.new) list.new }
    ensures writer { WriterHasFrame (seen D.state rig.new) upper.new }
    ensures lists { ListsNode (seen D.state rig.old) (seen D.state rig.new) list.old list.new
        upper.old upper.new level count result }
{
    let node = store_node(rig, list, level, count)?;
    list_subtree(rig, upper, node.low, node.child - 1)
}

/// Stores a node of a level over the next `count` subtrees of a list. Answers the entry that leads to it.
pub(crate) fn store_node<D: Device>(
    rig: &mut Rig<'_, D>,
    list: &mut Reader,
    level: u64,
    count: usize,
) -> Result<Entry, EmFault>
    requires sound { Sound (seen D.state rig.old) }
    requires is { IsReader (seen D.state rig.old) list.old }
    requires taking { list.old.taking ≡ true }
    requires level { level ≤ 63 }
    requires few { count < 2 * fan_of (seen D.state rig.old).pool.shape }
    requires left { IsTrue (seen D.state rig.old).device.told
        → HasLeft (seen D.state rig.old) list.old [] count }
    requires free { 1 < (seen D.state rig.old).pool.free }
    ensures reader { ReaderHasFrame (seen D.state rig.new) list.new }
    ensures builds { BuildsNode (seen D.state rig.old) (seen D.state rig.new) list.old list.new level
        count result }
{
    let mut frame = rig.lend();
    let built = build_node(rig, list, level, count, &mut frame);
    rig.give(frame);
    built
}

/// The same with a frame.
fn build_node<D: Device>(
    rig: &mut Rig<'_, D>,
    list: &mut Reader,
    level: u64,
    count: usize,
    frame: &mut Frame,
) -> Result<Entry, EmFault>
    requires sound { Sound (seen D.state rig.old) }
    requires is { IsReader (seen D.state rig.old) list.old }
    requires taking { list.old.taking ≡ true }
    requires level { level ≤ 63 }
    requires few { count < 2 * fan_of (seen D.state rig.old).pool.shape }
    requires left { IsTrue (seen D.state rig.old).device.told
        → HasLeft (seen D.state rig.old) list.old [] count }
    requires len { length frame.old ≡ (seen D.state rig.old).pool.shape.block }
    requires free { 0 < (seen D.state rig.old).pool.free }
    ensures reader { ReaderHasFrame (seen D.state rig.new) list.new }
    ensures len { length frame.new ≡ length frame.old }
    ensures builds { BuildsNode (seen D.state rig.old) (seen D.state rig.new) list.old list.new level
        count result }
{
    fill_node(rig, list, level, count, frame)?;
    let block = store_new(rig, frame)?;
    Ok(entry_over(frame, block))
}

/// The entry for the block that a node is in. With no entry in the node its low key is the least one.
fn entry_over(frame: &Frame, block: u64) -> Entry
    requires node { IsNode frame.now }
    requires fits { block < 2 ^ 40 }
    ensures { result ≡ entry_to (get_or (entries_of frame.now) 0 no_entry).low block }
{
    subtree_at(first_low(frame), block)
}

/// The first low key of a node, or the least one if it has no entry.
fn first_low(frame: &Frame) -> Record
    requires node { IsNode frame.now }
    ensures { result ≡ (get_or (entries_of frame.now) 0 no_entry).low }
{
    if count(frame) == 0 {
        return Record::ZERO;
    }
    entry_at(frame, 0).low
}

/// Makes a frame a node of a level over the next `count` subtrees of a list. Over a device that doesn't tell, low keys
/// that don't rise are `Damaged`.
fn fill_node<D: Device>(
    rig: &mut Rig<'_, D>,
    list: &mut Reader,
    level: u64,
    count: usize,
    frame: &mut Frame,
) -> Result<(), EmFault>
    requires sound { Sound (seen D.state rig.old) }
    requires is { IsReader (seen D.state rig.old) list.old }
    requires taking { list.old.taking ≡ true }
    requires level { level ≤ 63 }
    requires room { 2 + 3 * count ≤ length frame.old }
    requires left { IsTrue (seen D.state rig.old).device.told
        → HasLeft (seen D.state rig.old) list.old [] count }
    requires free { 0 < (seen D.state rig.old).pool.free }
    ensures reader { ReaderHasFrame (seen D.state rig.new) list.new }
    ensures len { length frame.new ≡ length frame.old }
    ensures fills { FillsNode (seen D.state rig.old) (seen D.state rig.new) list.old list.new level
        count frame.new result }
{
    fresh(frame, level);
    for at in 0..count {
        add_subtree(rig, list, at, frame)?;
    }
    Ok(())
}

/// Puts the next subtree of a list in after the `count` entries of a node.
fn add_subtree<D: Device>(
    rig: &mut Rig<'_, D>,
    list: &mut Reader,
    count: usize,
    frame: &mut Frame,
) -> Result<(), EmFault>
    requires sound { Sound (seen D.state rig.old) }
    requires is { IsReader (seen D.state rig.old) list.old }
    requires taking { list.old.taking ≡ true }
    requires node { IsNode frame.old }
    requires count { length (entries_of frame.old) ≡ count }
    requires room { 2 + 3 * (count + 1) ≤ length frame.old }
    requires left { IsTrue (seen D.state rig.old).device.told
        → HasLeft (seen D.state rig.old) list.old (entries_of frame.old) 1 }
    requires free { 0 < (seen D.state rig.old).pool.free }
    ensures reader { ReaderHasFrame (seen D.state rig.new) list.new }
    ensures len { length frame.new ≡ length frame.old }
    ensures adds { AddsSubtree (seen D.state rig.old) (seen D.state rig.new) list.old list.new
        frame.old frame.new result }
{
    let entry = next_subtree(rig, list)?;
    if !is_above(frame, count, entry.low) {
        return Err(EmFault::Damaged { block: 0 });
    }
    insert(frame, count, entry);
    Ok(())
}

/// Whether a low key is above that of the last of a node's `count` entries, if there is one.
fn is_above(frame: &Frame, count: usize, low: Record) -> bool
    requires node { IsNode frame.now }
    requires count { length (entries_of frame.now) ≡ count }
    ensures above { IsTrue result → 0 < count
        → is_below (get_or (entries_of frame.now) (count - 1) no_entry).low low ≡ true }
    ensures passes { (0 < count
        → is_below (get_or (entries_of frame.now) (count - 1) no_entry).low low ≡ true)
        → IsTrue result }
{
    count == 0 || entry_at(frame, count - 1).low < low
}
