//! The leaves of a tree, taken out from left to right, joined where one is short, and listed:
//!
//!     held   next                     listed    held
//!     [2 5]  [7 8]   neither short    [2 5]     [7 8]
//!     [2 5]  [7]     one leaf                   [2 5 7]
//!     [2]    [5 ..]  too many for it  [2 ..]    [.. 9]
//!
//! Kept here: each leaf that is listed has w·B records or more, but for a leaf alone; the low key of each leaf is that of its
//! first record, but for the first leaf, whose low key is the least one. Left to the nodes above: where the leaves are found.

ghost use Rattle.std.specs.Prelude.{◌↔◌, ◌+◌, ◌<◌, ◌≤◌, ◌^◌, IsTrue};
ghost use Rattle.em_frames.specs.Pool.{load_of};
ghost use Rattle.em_space.specs.Rig.{Sound};
ghost use Rattle.em_space.specs.Seen.{seen};
ghost use Rattle.em_chain.specs.Chain.{IsChain};
ghost use Rattle.em_chain.specs.Writer.{IsWriter, WriterHasFrame};
ghost use Rattle.em_tree_trim.specs.Listed.{CanJoinNext, CanPart, JoinsNext, ListsLeaf, PartsLeaves, ReadsKey};
ghost use Rattle.em_tree_trim.specs.Listings.{CanList, CanTakeNext, ListsAll, TakesNext};

use em_chain::{Chain, Reader, Writer};
use em_frames::Device;
use em_leaf::{LeafChange, fuse_leaves};
use em_record::{Record, Shape};
use em_settle::Settle;
use em_space::{EmFault, Rig};
use em_tree_load::store_new_leaf;
use em_tree_raise::list_subtree;
use em_tree_unload::{Unloaded, take_first_leaf};
use em_tree_walk::Root;

/// The leaf to which the next one is joined, if one of both is short.
#[derive(Drop)]
pub(crate) struct Held {
    /// Its keys begin here.
    pub(crate) low: Record,
    /// Its records.
    pub(crate) stored: Chain,
    /// Whether the tree has another leaf.
    pub(crate) more: bool,
}

/// Takes all leaves of a tree out, and lists what they are joined to. Over a device that doesn't tell, more leaves than the
/// device has blocks are `Damaged`.
pub(crate) fn list_leaves<D: Device, S: Settle>(
    rig: &mut Rig<'_, D>,
    settle: &S,
    root: Root,
    list: &mut Writer,
) -> Result<(), EmFault>
    requires sound { Sound (seen D.state rig.old) }
    requires ready { S.IsReady settle.now }
    requires can { CanList (S.key_of settle.now) (seen D.state rig.old) root list.old }
    requires free { root.level < (seen D.state rig.old).pool.free }
    requires more { 6 ≤ (seen D.state rig.old).pool.free }
    ensures frame { WriterHasFrame (seen D.state rig.new) list.new }
    ensures lists { ListsAll (S.key_of settle.now) (seen D.state rig.old) (seen D.state rig.new) root
        list.old list.new result }
{
    let Unloaded { stored, more } = take_first_leaf(rig, root)?;
    let mut held = Held {
        low: Record::ZERO,
        stored,
        more,
    };
    for _ in 0..rig.blocks() {
        if !held.more {
            return list_leaf(rig, list, held.low, &held.stored);
        }
        held = take_next(rig, settle, root, held, list)?;
    }
    Err(EmFault::Damaged { block: 0 })
}

/// Takes the next leaf out, and joins it to the one that is held.
fn take_next<D: Device, S: Settle>(
    rig: &mut Rig<'_, D>,
    settle: &S,
    root: Root,
    held: Held,
    list: &mut Writer,
) -> Result<Held, EmFault>
    requires sound { Sound (seen D.state rig.old) }
    requires ready { S.IsReady settle.now }
    requires can { CanTakeNext (S.key_of settle.now) (seen D.state rig.old) root held list.old }
    requires count { list.old.count + 2 ≤ 2 ^ 56 }
    requires blocks { list.old.blocks + 2 ≤ 2 ^ 56 }
    requires free { root.level < (seen D.state rig.old).pool.free }
    requires more { 6 ≤ (seen D.state rig.old).pool.free }
    ensures frame { WriterHasFrame (seen D.state rig.new) list.new }
    ensures takes { TakesNext (S.key_of settle.now) (seen D.state rig.old) (seen D.state rig.new) root held
        list.old list.new result }
{
    let next = take_first_leaf(rig, root)?;
    join_next(rig, settle, held, next, list)
}

/// Joins the next leaf to the one that is held, if one of both is short. Of two that result the first one is listed. Answers the
/// leaf that is held then.
fn join_next<D: Device, S: Settle>(
    rig: &mut Rig<'_, D>,
    settle: &S,
    held: Held,
    next: Unloaded,
    list: &mut Writer,
) -> Result<Held, EmFault>
    requires sound { Sound (seen D.state rig.old) }
    requires ready { S.IsReady settle.now }
    requires can { CanJoinNext (S.key_of settle.now) (seen D.state rig.old) held next list.old }
    requires is { IsWriter (seen D.state rig.old) list.old }
    requires count { list.old.count + 2 ≤ 2 ^ 56 }
    requires blocks { list.old.blocks + 2 ≤ 2 ^ 56 }
    requires free { 6 ≤ (seen D.state rig.old).pool.free }
    ensures frame { WriterHasFrame (seen D.state rig.new) list.new }
    ensures joins { JoinsNext (S.key_of settle.now) (seen D.state rig.old) (seen D.state rig.new) held next
        list.old list.new result }
{
    let Held {
        low,
        stored: first,
        more: _,
    } = held;
    let Unloaded {
        stored: second,
        more,
    } = next;
    let change = part_leaves(rig, settle, first, second)?;
    let LeafChange { low: kept, high } = change;
    match high {
        None => Ok(Held {
            low,
            stored: kept,
            more,
        }),
        Some((key, upper)) => {
            list_leaf(rig, list, low, &kept)?;
            Ok(Held {
                low: key,
                stored: upper,
                more,
            })
        }
    }
}

/// Fuses two neighbouring leaves, if one of them is short. Beside a high part stands its least key. Over a device that doesn't
/// tell, chains of more blocks than records are `Damaged`.
fn part_leaves<D: Device, S: Settle>(
    rig: &mut Rig<'_, D>,
    settle: &S,
    low: Chain,
    high: Chain,
) -> Result<LeafChange, EmFault>
    requires sound { Sound (seen D.state rig.old) }
    requires ready { S.IsReady settle.now }
    requires can { CanPart (S.key_of settle.now) (seen D.state rig.old) low high }
    requires free { 6 ≤ (seen D.state rig.old).pool.free }
    ensures { PartsLeaves (S.key_of settle.now) (seen D.state rig.old) (seen D.state rig.new) low high
        result }
{
    if low.blocks() + high.blocks() > low.len() + high.len() {
        return Err(EmFault::Damaged { block: 0 });
    }
    if are_long(&low, &high, &rig.shape()) {
        let key = first_key(rig, settle, &high)?;
        return Ok(LeafChange {
            low,
            high: Some((key, high)),
        });
    }
    fuse_leaves(rig, settle, low, high)
}

/// Whether neither of two leaves is short.
fn are_long(low: &Chain, high: &Chain, shape: &Shape) -> bool
    ensures { IsTrue result ↔ (load_of shape.now ≤ low.now.count) × (load_of shape.now ≤ high.now.count) }
{
    let least = shape.wide() * shape.block();
    low.len() >= least && high.len() >= least
}

/// Stores the block of a leaf, and lists it from its low key on.
fn list_leaf<D: Device>(
    rig: &mut Rig<'_, D>,
    list: &mut Writer,
    low: Record,
    stored: &Chain,
) -> Result<(), EmFault>
    requires sound { Sound (seen D.state rig.old) }
    requires is { IsWriter (seen D.state rig.old) list.old }
    requires count { list.old.count + 2 ≤ 2 ^ 56 }
    requires blocks { list.old.blocks + 2 ≤ 2 ^ 56 }
    requires free { 0 < (seen D.state rig.old).pool.free }
    ensures frame { WriterHasFrame (seen D.state rig.new) list.new }
    ensures lists { ListsLeaf (seen D.state rig.old) (seen D.state rig.new) list.old list.new low
        stored.now result }
{
    let block = store_new_leaf(rig, stored)?;
    list_subtree(rig, list, low, block)
}

/// The key of the first record of a leaf.
fn first_key<D: Device, S: Settle>(
    rig: &mut Rig<'_, D>,
    settle: &S,
    stored: &Chain,
) -> Result<Record, EmFault>
    requires sound { Sound (seen D.state rig.old) }
    requires chain { IsChain (seen D.state rig.old) stored.now }
    requires some { 0 < stored.now.count }
    requires free { 1 < (seen D.state rig.old).pool.free }
    ensures { ReadsKey (S.key_of settle.now) (seen D.state rig.old) (seen D.state rig.new) stored.now
        result }
{
    let mut reader = Reader::over(rig, stored);
    let first = reader.next(rig);
    reader.abandon(rig);
    match first? {
        Some(item) => Ok(settle.key(item)),
        None => Err(EmFault::Damaged { block: 0 }),
    }
}
