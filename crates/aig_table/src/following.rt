//! The edges of a list are followed one after another, over a table that is in memory.

ghost use Rattle.std.specs.Prelude.{◌≡◌, ◌<◌, ◌*◌, [], false, length};
ghost use Rattle.em_space.specs.Rig.{Sound};
ghost use Rattle.em_space.specs.Seen.{seen};
ghost use Rattle.em_chain.specs.Chain.{IsChain, chain_items};
ghost use Rattle.em_chain.specs.Reader.{IsReader, ReaderHasFrame, owed, reader_items, rest_of};
ghost use Rattle.aig_edges.specs.Looks.{LooksAll};
ghost use Rattle.aig_table.specs.Follows.{FollowsTo};

use crate::table::follow;
use aig_edges::next_record;
use em_chain::{Chain, Reader};
use em_frames::Device;
use em_record::Record;
use em_space::{EmFault, Rig};

/// Follows the edges of a list, which stays. At most one move is made for each of its blocks. A fault is that of
/// reading a block, and never `Full`.
pub(crate) fn follow_list<D: Device>(
    rig: &mut Rig<'_, D>,
    table: &mut [Record],
    edges: &Chain,
    last: u64,
) -> Result<(), EmFault>
    requires sound { Sound (seen D.state rig.old) }
    requires is { IsChain (seen D.state rig.old) edges.now }
    requires within { last < 256 * length table.old }
    requires free { 1 < (seen D.state rig.old).pool.free }
    ensures long { length table.new ≡ length table.old }
    ensures follows { LooksAll edges.now.blocks (seen D.state rig.old) (seen D.state rig.new)
        (λ done. FollowsTo (chain_items (seen D.state rig.old) edges.now) [] edges.now.count last
        table.old table.new) result }
{
    let mut reader = Reader::over(rig, edges);
    let done = follow_all(rig, table, &mut reader, edges.len(), last);
    reader.abandon(rig);
    done
}

/// Follows the `count` edges that a reader has left.
fn follow_all<D: Device>(
    rig: &mut Rig<'_, D>,
    table: &mut [Record],
    reader: &mut Reader,
    count: u64,
    last: u64,
) -> Result<(), EmFault>
    requires sound { Sound (seen D.state rig.old) }
    requires is { IsReader (seen D.state rig.old) reader.old }
    requires over { reader.old.taking ≡ false }
    requires count { (rest_of reader.old).count ≡ count }
    requires within { last < 256 * length table.old }
    requires free { 0 < (seen D.state rig.old).pool.free }
    ensures long { length table.new ≡ length table.old }
    ensures frame { ReaderHasFrame (seen D.state rig.new) reader.new }
    ensures follows { LooksAll (owed reader.old) (seen D.state rig.old) (seen D.state rig.new)
        (λ done. FollowsTo (reader_items (seen D.state rig.old) reader.old) [] count last
        table.old table.new) result }
{
    for _ in 0..count {
        let edge = next_record(rig, reader)?;
        follow(table, edge, last);
    }
    Ok(())
}
