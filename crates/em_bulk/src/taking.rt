//! A list that is taken as a chain, and a leaf that is stored and listed.
//!
//! Kept here: a leaf's block is stored once. Left to the caller: which leaves these are.

ghost use Rattle.std.specs.Prelude.{◌+◌, ◌<◌, ◌≤◌, ◌^◌};
ghost use Rattle.em_space.specs.Rig.{Sound};
ghost use Rattle.em_space.specs.Seen.{seen};
ghost use Rattle.em_chain.specs.Writer.{IsWriter, WriterHasFrame};
ghost use Rattle.em_tree_trim.specs.Listed.{ListsLeaf};
ghost use Rattle.em_bulk.specs.Taken.{TakesList};

use em_chain::{Chain, Writer};
use em_frames::Device;
use em_record::Record;
use em_space::{EmFault, Rig};
use em_tree_load::store_new_leaf;
use em_tree_raise::list_subtree;
use std::mem;

/// The list that was written so far, as a chain. A list with no record is in its place. One block is moved at most.
pub(crate) fn take_list<D: Device>(
    rig: &mut Rig<'_, D>,
    list: &mut Writer,
) -> Result<Chain, EmFault>
    requires sound { Sound (seen D.state rig.old) }
    requires is { IsWriter (seen D.state rig.old) list.old }
    requires free { 1 < (seen D.state rig.old).pool.free }
    ensures { TakesList (seen D.state rig.old) (seen D.state rig.new) list.old list.new result }
{
    let fresh = Writer::new(rig);
    let whole = mem::replace(list, fresh);
    whole.finish(rig)
}

/// Stores the block of a leaf, and lists it from its low key on.
pub(crate) fn list_leaf<D: Device>(
    rig: &mut Rig<'_, D>,
    list: &mut Writer,
    low: Record,
    stored: &Chain,
) -> Result<(), EmFault>
    requires sound { Sound (seen D.state rig.old) }
    requires is { IsWriter (seen D.state rig.old) list.old }
    requires count { list.old.count + 2 ≤ 2 ^ 56 }
    requires blocks { list.old.blocks + 2 ≤ 2 ^ 56 }
    requires free { 0 < (seen D.state rig.old).pool.free }
    ensures frame { WriterHasFrame (seen D.state rig.new) list.new }
    ensures lists { ListsLeaf (seen D.state rig.old) (seen D.state rig.new) list.old list.new low
        stored.now result }
{
    let block = store_new_leaf(rig, stored)?;
    list_subtree(rig, list, low, block)
}
