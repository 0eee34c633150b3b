//! The first sweep of a pass by bits: a list, which stays, is read, and the edges that don't rise join their notes.

ghost use Rattle.std.specs.Prelude.{◌≡◌, ◌<◌, ◌*◌, false, length};
ghost use Rattle.em_space.specs.Rig.{Sound};
ghost use Rattle.em_space.specs.Seen.{seen};
ghost use Rattle.em_chain.specs.Chain.{IsChain, chain_items};
ghost use Rattle.em_chain.specs.Reader.{IsReader, ReaderHasFrame, owed, reader_items, rest_of};
ghost use Rattle.aig_edges.specs.Looks.{LooksAll};
ghost use Rattle.aig_order.specs.Marks.{Recalls};

use crate::marking::join_note;
use crate::standing::{Sweep, at_constant, standing_after};
use aig_edges::next_record;
use em_chain::{Chain, Reader};
use em_frames::Device;
use em_record::Record;
use em_space::{EmFault, Rig};

/// Joins the notes of a list's edges that don't rise. At most one move is made for each of its blocks. A fault is
/// that of reading a block, and never `Full`.
pub(crate) fn recall<D: Device>(
    rig: &mut Rig<'_, D>,
    row: &mut [Record],
    list: &Chain,
    next: u64,
    last: u64,
) -> Result<(), EmFault>
    requires sound { Sound (seen D.state rig.old) }
    requires is { IsChain (seen D.state rig.old) list.now }
    requires within { last < 256 * length row.old }
    requires free { 1 < (seen D.state rig.old).pool.free }
    ensures long { length row.new ≡ length row.old }
    ensures recalls { LooksAll list.now.blocks (seen D.state rig.old) (seen D.state rig.new)
        (λ done. Recalls last next (chain_items (seen D.state rig.old) list.now) row.old row.new)
        result }
{
    let mut reader = Reader::over(rig, list);
    let done = recall_all(rig, row, &mut reader, list.len(), next, last);
    reader.abandon(rig);
    done
}

/// The same of the `count` records that a reader has left.
fn recall_all<D: Device>(
    rig: &mut Rig<'_, D>,
    row: &mut [Record],
    reader: &mut Reader,
    count: u64,
    next: u64,
    last: u64,
) -> Result<(), EmFault>
    requires sound { Sound (seen D.state rig.old) }
    requires is { IsReader (seen D.state rig.old) reader.old }
    requires over { reader.old.taking ≡ false }
    requires count { (rest_of reader.old).count ≡ count }
    requires within { last < 256 * length row.old }
    requires free { 0 < (seen D.state rig.old).pool.free }
    ensures long { length row.new ≡ length row.old }
    ensures frame { ReaderHasFrame (seen D.state rig.new) reader.new }
    ensures recalls { LooksAll (owed reader.old) (seen D.state rig.old) (seen D.state rig.new)
        (λ done. Recalls last next (reader_items (seen D.state rig.old) reader.old) row.old row.new)
        result }
{
    let mut standing = at_constant(next);
    for _ in 0..count {
        let item = next_record(rig, reader)?;
        join_note(row, Sweep::Recall, standing, item, last);
        standing = standing_after(Sweep::Recall, standing, item, Record::ZERO, Record::ZERO);
    }
    Ok(())
}
