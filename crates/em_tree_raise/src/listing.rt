//! A list of subtrees, one beside the other: two records for each, its low key and then the number of its first block.
//!
//!     (0, 0, 0, 0) (17, 0, 0, 0)   (9, 0, 0, 0) (4, 0, 0, 0)    from the least key on block 17, from 9 on block 4
//!
//! Kept here: a list that is written has two records for each subtree. Left to who reads one: that low keys rise.

ghost use Rattle.std.specs.Prelude.{◌≡◌, ◌+◌, ◌<◌, ◌≤◌, ◌^◌, [], true, IsTrue};
ghost use Rattle.em_space.specs.Rig.{Sound};
ghost use Rattle.em_space.specs.Seen.{seen};
ghost use Rattle.em_chain.specs.Reader.{IsReader, ReaderHasFrame};
ghost use Rattle.em_chain.specs.Writer.{IsWriter, WriterHasFrame};
ghost use Rattle.em_balance.specs.Node.{entry_to};
ghost use Rattle.em_tree_raise.specs.Listing.{ListingCosts, ListsSubtree};
ghost use Rattle.em_tree_raise.specs.Subtrees.{HasLeft, ReadsNext, ReadsSubtree};

use em_chain::{Chain, Reader, Writer};
use em_frames::Device;
use em_node::Entry;
use em_record::Record;
use em_space::{EmFault, Rig};

/// Adds a subtree to a list that is being written, by two records.
pub fn list_subtree<D: Device>(
    rig: &mut Rig<'_, D>,
    list: &mut Writer,
    low: Record,
    block: u64,
) -> Result<(), EmFault>
    requires sound { Sound (seen D.state rig.old) }
    requires is { IsWriter (seen D.state rig.old) list.old }
    requires count { list.old.count + 2 ≤ 2 ^ 56 }
    requires blocks { list.old.blocks + 2 ≤ 2 ^ 56 }
    requires free { 0 < (seen D.state rig.old).pool.free }
    ensures frame { WriterHasFrame (seen D.state rig.new) list.new }
    ensures lists { ListsSubtree (seen D.state rig.old) (seen D.state rig.new) list.old list.new low
        block result }
    ensures costs { ListingCosts (seen D.state rig.old) (seen D.state rig.new) list.old list.new
        result }
{
    list.append(rig, low)?;
    list.append(
        rig,
        Record {
            a: block,
            b: 0,
            c: 0,
            d: 0,
        },
    )
}

/// Reads the next subtree of a list, as an entry with nothing in its buffer. Over a device that doesn't tell, a list that
/// ends, or a block that the device doesn't have, is `Damaged`.
pub(crate) fn next_subtree<D: Device>(
    rig: &mut Rig<'_, D>,
    list: &mut Reader,
) -> Result<Entry, EmFault>
    requires sound { Sound (seen D.state rig.old) }
    requires is { IsReader (seen D.state rig.old) list.old }
    requires taking { list.old.taking ≡ true }
    requires left { IsTrue (seen D.state rig.old).device.told
        → HasLeft (seen D.state rig.old) list.old [] 1 }
    requires free { 0 < (seen D.state rig.old).pool.free }
    ensures frame { ReaderHasFrame (seen D.state rig.new) list.new }
    ensures reads { ReadsSubtree (seen D.state rig.old) (seen D.state rig.new) list.old list.new
        result }
{
    let low = next_record(rig, list)?;
    let words = next_record(rig, list)?;
    if words.a >= rig.blocks() {
        return Err(EmFault::Damaged { block: 0 });
    }
    Ok(subtree_at(low, words.a))
}

/// Reads the next record of a list. Over a device that doesn't tell, a list that ends is `Damaged`.
fn next_record<D: Device>(rig: &mut Rig<'_, D>, list: &mut Reader) -> Result<Record, EmFault>
    requires sound { Sound (seen D.state rig.old) }
    requires is { IsReader (seen D.state rig.old) list.old }
    requires taking { list.old.taking ≡ true }
    requires some { IsTrue (seen D.state rig.old).device.told → 0 < list.old.count }
    requires free { 0 < (seen D.state rig.old).pool.free }
    ensures frame { ReaderHasFrame (seen D.state rig.new) list.new }
    ensures reads { ReadsNext (seen D.state rig.old) (seen D.state rig.new) list.old list.new
        result }
{
    match list.next(rig)? {
        Some(item) => Ok(item),
        None => Err(EmFault::Damaged { block: 0 }),
    }
}

/// The entry for a subtree, with nothing in its buffer.
pub(crate) fn subtree_at(low: Record, block: u64) -> Entry
    requires { block < 2 ^ 40 }
    ensures { result ≡ entry_to low block }
{
    Entry {
        low,
        child: block + 1,
        buffer: Chain::empty().words(),
    }
}
