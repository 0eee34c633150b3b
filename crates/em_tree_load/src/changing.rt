//! What becomes of a leaf, stored: the leaf's block, a new one if the leaf was split, and the node over
//! them, which is in a frame.

ghost use Rattle.std.specs.Prelude.{◌≡◌, ◌+◌, ◌*◌, ◌<◌, ◌≤◌, ◌^◌, length, IsTrue};
ghost use Rattle.em_record.specs.Shape.{fan_of};
ghost use Rattle.em_space.specs.Rig.{InUse, Sound};
ghost use Rattle.em_space.specs.Seen.{seen};
ghost use Rattle.em_chain.specs.Chain.{IsChain};
ghost use Rattle.em_node.specs.Node.{Is, IsNode, IsNodeBlock, entries_of, level_of};
ghost use Rattle.em_tree_walk.specs.Inserted.{CanFollow};
ghost use Rattle.em_tree_load.specs.LoadRoom.{Takes, new_leaves};
ghost use Rattle.em_tree_load.specs.NodeLoads.{CanChange, ChangesLeaf, kept_change, parted_change};
ghost use Rattle.em_tree_load.specs.LeafChanges.{StoresEntries, divided_at, rebuffered_at};
ghost use Rattle.em_tree_load.specs.Peaks.{Peaks};

use crate::leaf_block::{store_leaf, store_new_leaf};
use em_chain::Chain;
use em_frames::{Device, Frame};
use em_leaf::LeafChange;
use em_node::{Entry, entry_at, set_entry};
use em_record::Record;
use em_space::{EmFault, Rig};
use em_tree_walk::{can_follow, insert_after};

/// The new leaf of a split: its least key, and what is left of the buffer.
#[derive(Drop)]
pub(crate) struct Split {
    pub(crate) low: Record,
    pub(crate) rest: Chain,
}

/// Stores what became of a leaf, and the node over it, which is in a frame. Over a device that doesn't
/// tell, the key of a new leaf may be out of its place: then the node is `Damaged`.
pub(crate) fn store_change<D: Device>(
    rig: &mut Rig<'_, D>,
    node: u64,
    at: usize,
    frame: &mut Frame,
    leaf: u64,
    change: LeafChange,
    rest: Chain,
) -> Result<Option<Split>, EmFault>
    requires sound { Sound (seen D.state rig.old) }
    requires leaf_in_use { InUse (seen D.state rig.old) leaf }
    requires in_use { InUse (seen D.state rig.old) node }
    requires len { length frame.old ≡ (seen D.state rig.old).pool.shape.block }
    requires node { IsNodeBlock (2 * fan_of (seen D.state rig.old).pool.shape)
        (seen D.state rig.old).blocks frame.old }
    requires at { at < length (entries_of frame.old) }
    requires room { length (entries_of frame.old) < 2 * fan_of (seen D.state rig.old).pool.shape }
    requires rest { IsChain (seen D.state rig.old) rest }
    requires can { IsTrue (seen D.state rig.old).device.told → CanChange (seen D.state rig.old) leaf
        node at (entries_of frame.old) change }
    requires free { 0 < (seen D.state rig.old).pool.free }
    ensures len { length frame.new ≡ length frame.old }
    ensures changes { ChangesLeaf (seen D.state rig.old) (seen D.state rig.new) leaf node
        (level_of frame.old) at (entries_of frame.old) change rest result }
    ensures takes { Takes 0 (new_leaves change.high) (seen D.state rig.old) (seen D.state rig.new)
        result }
    ensures peaks { Peaks 1 (seen D.state rig.old) (seen D.state rig.new) }
{
    let LeafChange { low, high } = change;
    match high {
        None => store_kept(rig, node, at, frame, leaf, low, rest),
        Some((key, stored)) => store_parts(rig, node, at, frame, leaf, low, (key, stored), rest),
    }
}

/// The same of a leaf that isn't split.
fn store_kept<D: Device>(
    rig: &mut Rig<'_, D>,
    node: u64,
    at: usize,
    frame: &mut Frame,
    leaf: u64,
    low: Chain,
    rest: Chain,
) -> Result<Option<Split>, EmFault>
    requires sound { Sound (seen D.state rig.old) }
    requires leaf_in_use { InUse (seen D.state rig.old) leaf }
    requires in_use { InUse (seen D.state rig.old) node }
    requires len { length frame.old ≡ (seen D.state rig.old).pool.shape.block }
    requires node { IsNodeBlock (2 * fan_of (seen D.state rig.old).pool.shape)
        (seen D.state rig.old).blocks frame.old }
    requires at { at < length (entries_of frame.old) }
    requires rest { IsChain (seen D.state rig.old) rest }
    requires can { IsTrue (seen D.state rig.old).device.told → CanChange (seen D.state rig.old) leaf
        node at (entries_of frame.old) (kept_change low) }
    requires free { 0 < (seen D.state rig.old).pool.free }
    ensures len { length frame.new ≡ length frame.old }
    ensures changes { ChangesLeaf (seen D.state rig.old) (seen D.state rig.new) leaf node
        (level_of frame.old) at (entries_of frame.old) (kept_change low) rest result }
    ensures takes { Takes 0 0 (seen D.state rig.old) (seen D.state rig.new) result }
    ensures peaks { Peaks 1 (seen D.state rig.old) (seen D.state rig.new) }
{
    store_rest(rig, node, at, frame, &rest)?;
    store_leaf(rig, leaf, &low)?;
    Ok(None)
}

/// The same of a leaf that is split: its high part has a block of its own.
fn store_parts<D: Device>(
    rig: &mut Rig<'_, D>,
    node: u64,
    at: usize,
    frame: &mut Frame,
    leaf: u64,
    low: Chain,
    high: (Record, Chain),
    rest: Chain,
) -> Result<Option<Split>, EmFault>
    requires sound { Sound (seen D.state rig.old) }
    requires leaf_in_use { InUse (seen D.state rig.old) leaf }
    requires in_use { InUse (seen D.state rig.old) node }
    requires len { length frame.old ≡ (seen D.state rig.old).pool.shape.block }
    requires node { IsNodeBlock (2 * fan_of (seen D.state rig.old).pool.shape)
        (seen D.state rig.old).blocks frame.old }
    requires at { at < length (entries_of frame.old) }
    requires room { length (entries_of frame.old) < 2 * fan_of (seen D.state rig.old).pool.shape }
    requires can { IsTrue (seen D.state rig.old).device.told → CanChange (seen D.state rig.old) leaf
        node at (entries_of frame.old) (parted_change low high) }
    requires free { 0 < (seen D.state rig.old).pool.free }
    ensures len { length frame.new ≡ length frame.old }
    ensures changes { ChangesLeaf (seen D.state rig.old) (seen D.state rig.new) leaf node
        (level_of frame.old) at (entries_of frame.old) (parted_change low high) rest result }
    ensures takes { Takes 0 1 (seen D.state rig.old) (seen D.state rig.new) result }
    ensures peaks { Peaks 1 (seen D.state rig.old) (seen D.state rig.new) }
{
    let (key, stored) = high;
    if !can_follow(frame, at, key) {
        return Err(EmFault::Damaged { block: node });
    }
    let block = store_new_leaf(rig, &stored)?;
    store_two(rig, node, at, frame, key, block)?;
    store_leaf(rig, leaf, &low)?;
    Ok(Some(Split { low: key, rest }))
}

/// Stores a node with what is left of the buffer of an entry.
fn store_rest<D: Device>(
    rig: &mut Rig<'_, D>,
    node: u64,
    at: usize,
    frame: &mut Frame,
    rest: &Chain,
) -> Result<(), EmFault>
    requires sound { Sound (seen D.state rig.old) }
    requires in_use { InUse (seen D.state rig.old) node }
    requires len { length frame.old ≡ (seen D.state rig.old).pool.shape.block }
    requires node { IsNodeBlock (2 * fan_of (seen D.state rig.old).pool.shape)
        (seen D.state rig.old).blocks frame.old }
    requires at { at < length (entries_of frame.old) }
    requires rest { IsChain (seen D.state rig.old) rest.now }
    ensures len { length frame.new ≡ length frame.old }
    ensures stores { StoresEntries (seen D.state rig.old) (seen D.state rig.new) node
        (level_of frame.old) (rebuffered_at at rest.now (entries_of frame.old)) result }
{
    put_buffer(frame, at, rest);
    rig.store(node, frame)
}

/// Stores a node in which the leaf of an entry was split: an entry more leads to a block, from a low key
/// on, and nothing is in the buffers of both.
fn store_two<D: Device>(
    rig: &mut Rig<'_, D>,
    node: u64,
    at: usize,
    frame: &mut Frame,
    low: Record,
    block: u64,
) -> Result<(), EmFault>
    requires sound { Sound (seen D.state rig.old) }
    requires in_use { InUse (seen D.state rig.old) node }
    requires len { length frame.old ≡ (seen D.state rig.old).pool.shape.block }
    requires node { IsNodeBlock (2 * fan_of (seen D.state rig.old).pool.shape)
        (seen D.state rig.old).blocks frame.old }
    requires at { at < length (entries_of frame.old) }
    requires room { length (entries_of frame.old) < 2 * fan_of (seen D.state rig.old).pool.shape }
    requires follow { CanFollow at low (entries_of frame.old) }
    requires below { block < (seen D.state rig.old).blocks }
    ensures len { length frame.new ≡ length frame.old }
    ensures stores { StoresEntries (seen D.state rig.old) (seen D.state rig.new) node
        (level_of frame.old) (divided_at at low block (entries_of frame.old)) result }
{
    put_two(frame, at, low, block);
    rig.store(node, frame)
}

/// Puts another buffer to an entry of a node.
fn put_buffer(frame: &mut Frame, at: usize, buffer: &Chain)
    requires node { IsNode frame.old }
    requires at { at < length (entries_of frame.old) }
    requires count { buffer.now.count ≤ 2 ^ 56 }
    requires blocks { buffer.now.blocks ≤ 2 ^ 56 }
    ensures len { length frame.new ≡ length frame.old }
    ensures is { Is frame.new (level_of frame.old)
        (rebuffered_at at buffer.now (entries_of frame.old)) }
{
    let mut entry = entry_at(frame, at);
    entry.buffer = buffer.words();
    set_entry(frame, at, entry);
}

/// Puts an entry in after one of a node, with nothing in the buffers of both.
fn put_two(frame: &mut Frame, at: usize, low: Record, block: u64)
    requires node { IsNode frame.old }
    requires at { at < length (entries_of frame.old) }
    requires room { 2 + 3 * (length (entries_of frame.old) + 1) ≤ length frame.old }
    requires follow { CanFollow at low (entries_of frame.old) }
    requires below { block < 2 ^ 40 }
    ensures len { length frame.new ≡ length frame.old }
    ensures is { Is frame.new (level_of frame.old) (divided_at at low block (entries_of frame.old)) }
{
    let none = Chain::empty();
    put_buffer(frame, at, &none);
    let words = none.words();
    let entry = Entry {
        low,
        child: block + 1,
        buffer: words,
    };
    insert_after(frame, at, entry);
}
