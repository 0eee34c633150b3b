//! The last two leaves, stored and listed:
//!
//!     held      last
//!     [5 6 7 8] [9 a]    each alone, if the last one isn't short
//!     [5 6 7 8] [9]      one leaf, [5 6 7 8 9]
//!
//! Kept here: each leaf that is listed has w·B records or more, and at most 4·w·B.

ghost use Rattle.std.specs.Prelude.{◌↔◌, ◌+◌, ◌<◌, ◌≤◌, ◌^◌, IsTrue};
ghost use Rattle.em_frames.specs.Pool.{load_of};
ghost use Rattle.em_space.specs.Rig.{Sound};
ghost use Rattle.em_space.specs.Seen.{seen};
ghost use Rattle.em_chain.specs.Writer.{IsWriter, WriterHasFrame};
ghost use Rattle.em_bulk.specs.Ended.{CanJoinLast, CanListTwo, JoinsLast, ListsBoth, ListsJoined, ListsTwo};

use crate::taking::list_leaf;
use em_chain::{Chain, Writer};
use em_frames::Device;
use em_leaf::fuse_leaves;
use em_record::{Record, Shape};
use em_settle::MapSettle;
use em_space::{EmFault, Rig};

/// Stores and lists a full leaf, whose keys begin at `before`, and the last one, whose keys begin at `low`.
pub(crate) fn list_two<D: Device>(
    rig: &mut Rig<'_, D>,
    list: &mut Writer,
    before: Record,
    stored: Chain,
    low: Record,
    last: Chain,
) -> Result<(), EmFault>
    requires sound { Sound (seen D.state rig.old) }
    requires can { CanListTwo (seen D.state rig.old) list.old stored last }
    requires count { list.old.count + 4 ≤ 2 ^ 56 }
    requires blocks { list.old.blocks + 4 ≤ 2 ^ 56 }
    requires free { 6 ≤ (seen D.state rig.old).pool.free }
    ensures frame { WriterHasFrame (seen D.state rig.new) list.new }
    ensures lists { ListsTwo (seen D.state rig.old) (seen D.state rig.new) list.old list.new before
        stored low last result }
{
    if is_long(&last, &rig.shape()) {
        return list_both(rig, list, before, &stored, low, &last);
    }
    list_joined(rig, list, before, stored, last)
}

/// The same, each alone.
fn list_both<D: Device>(
    rig: &mut Rig<'_, D>,
    list: &mut Writer,
    before: Record,
    stored: &Chain,
    low: Record,
    last: &Chain,
) -> Result<(), EmFault>
    requires sound { Sound (seen D.state rig.old) }
    requires can { CanListTwo (seen D.state rig.old) list.old stored.now last.now }
    requires count { list.old.count + 4 ≤ 2 ^ 56 }
    requires blocks { list.old.blocks + 4 ≤ 2 ^ 56 }
    requires free { 6 ≤ (seen D.state rig.old).pool.free }
    ensures frame { WriterHasFrame (seen D.state rig.new) list.new }
    ensures lists { ListsBoth (seen D.state rig.old) (seen D.state rig.new) list.old list.new before
        stored.now low last.now result }
{
    list_leaf(rig, list, before, stored)?;
    list_leaf(rig, list, low, last)
}

/// The same, as one leaf. The last one is short.
fn list_joined<D: Device>(
    rig: &mut Rig<'_, D>,
    list: &mut Writer,
    before: Record,
    stored: Chain,
    last: Chain,
) -> Result<(), EmFault>
    requires sound { Sound (seen D.state rig.old) }
    requires can { CanListTwo (seen D.state rig.old) list.old stored last }
    requires short { last.count < load_of (seen D.state rig.old).pool.shape }
    requires count { list.old.count + 4 ≤ 2 ^ 56 }
    requires blocks { list.old.blocks + 4 ≤ 2 ^ 56 }
    requires free { 6 ≤ (seen D.state rig.old).pool.free }
    ensures frame { WriterHasFrame (seen D.state rig.new) list.new }
    ensures lists { ListsJoined (seen D.state rig.old) (seen D.state rig.new) list.old list.new before
        stored last result }
{
    let both = join_last(rig, stored, last)?;
    list_leaf(rig, list, before, &both)
}

/// Whether a leaf has w·B records or more.
fn is_long(stored: &Chain, shape: &Shape) -> bool
    ensures { IsTrue result ↔ (load_of shape.now ≤ stored.now.count) }
{
    shape.wide() * shape.block() <= stored.len()
}

/// A full leaf and the last one, which is short, as one. Over a device that doesn't tell, more records than a leaf may have
/// are `Damaged`.
fn join_last<D: Device>(rig: &mut Rig<'_, D>, stored: Chain, last: Chain) -> Result<Chain, EmFault>
    requires sound { Sound (seen D.state rig.old) }
    requires can { CanJoinLast (seen D.state rig.old) stored last }
    requires short { last.count < load_of (seen D.state rig.old).pool.shape }
    requires free { 6 ≤ (seen D.state rig.old).pool.free }
    ensures { JoinsLast (seen D.state rig.old) (seen D.state rig.new) stored last result }
{
    let change = fuse_leaves(rig, &MapSettle {}, stored, last)?;
    match change.high {
        None => Ok(change.low),
        Some(_) => Err(EmFault::Damaged { block: 0 }),
    }
}
