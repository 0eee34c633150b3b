//! After all passes: the first gate that wasn't found, or the edges between ranks.

ghost use Rattle.std.specs.Prelude.{◌≡◌, ◌<◌, nat_lt, OnOk, false};
ghost use Rattle.em_space.specs.Rig.{Sound};
ghost use Rattle.em_space.specs.Seen.{seen};
ghost use Rattle.em_chain.specs.Chain.{IsChain, chain_items};
ghost use Rattle.em_chain.specs.Reader.{IsReader, ReaderHasFrame, owed, reader_items, rest_of};
ghost use Rattle.aig_defs.specs.Circuit.{IsHeader};
ghost use Rattle.aig_edges.specs.Looks.{LooksAll};
ghost use Rattle.aig_order.specs.LeftGates as gates;
ghost use Rattle.aig_order.specs.LeftGates.{left_gate, left_if, looked_if};
ghost use Rattle.aig_order.specs.Passes.{CanRank, RanksTo};

use crate::adjacency::is_gate;
use crate::limits::Limits;
use crate::passing::sweep_twice;
use crate::standing::Sweep;
use aig_defs::Header;
use aig_edges::{Sorted, next_record, sort};
use em_chain::{Chain, Reader};
use em_frames::Device;
use em_record::Record;
use em_space::{EmFault, Queue, Rig};

/// Whether a record is the definition of a gate that has no rank.
fn is_left(item: Record) -> bool
    ensures { result ≡ gates.is_left item }
{
    is_gate(item) && item.c == 0
}

/// The first gate without a rank among the `count` records that a reader has left.
fn rest_left<D: Device>(
    rig: &mut Rig<'_, D>,
    reader: &mut Reader,
    count: u64,
) -> Result<Option<u64>, EmFault>
    requires sound { Sound (seen D.state rig.old) }
    requires is { IsReader (seen D.state rig.old) reader.old }
    requires over { reader.old.taking ≡ false }
    requires count { (rest_of reader.old).count ≡ count }
    requires free { 0 < (seen D.state rig.old).pool.free }
    ensures done { LooksAll (owed reader.old) (seen D.state rig.old) (seen D.state rig.new)
        (λ answer. answer ≡ left_gate (reader_items (seen D.state rig.old) reader.old)) result }
    ensures frame { ReaderHasFrame (seen D.state rig.new) reader.new }
{
    for _ in 0..count {
        let item = next_record(rig, reader)?;
        if is_left(item) {
            return Ok(Some(item.a));
        }
    }
    Ok(None)
}

/// The variable of the first gate of an adjacency list without a rank, if there is one. A fault is that
/// of reading a block of the list.
fn first_left<D: Device>(rig: &mut Rig<'_, D>, list: &Chain) -> Result<Option<u64>, EmFault>
    requires sound { Sound (seen D.state rig.old) }
    requires is { IsChain (seen D.state rig.old) list.now }
    requires free { 1 < (seen D.state rig.old).pool.free }
    ensures done { LooksAll list.now.blocks (seen D.state rig.old) (seen D.state rig.new)
        (λ answer. answer ≡ left_gate (chain_items (seen D.state rig.old) list.now)) result }
{
    let mut reader = Reader::over(rig, list);
    let found = rest_left(rig, &mut reader, list.len());
    reader.abandon(rig);
    found
}

/// The same, if the next rank is below the one after all gates. Else each gate has a rank, and nothing
/// is read.
pub(crate) fn left_below<D: Device>(
    rig: &mut Rig<'_, D>,
    list: &Chain,
    next: u64,
    end: u64,
) -> Result<Option<u64>, EmFault>
    requires sound { Sound (seen D.state rig.old) }
    requires is { IsChain (seen D.state rig.old) list.now }
    requires free { 1 < (seen D.state rig.old).pool.free }
    ensures done { LooksAll (looked_if (nat_lt next end) list.now.blocks) (seen D.state rig.old)
        (seen D.state rig.new)
        (λ answer. answer
        ≡ left_if (nat_lt next end) (chain_items (seen D.state rig.old) list.now)) result }
{
    if next < end {
        first_left(rig, list)
    } else {
        Ok(None)
    }
}

/// The edges between ranks of an adjacency list in which each gate has a rank, in order; there are to be
/// `count` of them. The list's blocks are released. A fault is that of a call of the queue or of one on a
/// list, or `Damaged` with block 0 if a device that doesn't tell gave another number of edges, or left
/// notes in the queue.
pub(crate) fn rank_edges<D: Device, Q: Queue>(
    rig: &mut Rig<'_, D>,
    queue: &mut Q,
    list: Chain,
    header: &Header,
    count: u64,
) -> Result<Chain, EmFault>
    requires is { Q.IsQueue queue.old (seen D.state rig.old) }
    requires header { IsHeader header.now }
    requires can { CanRank Q.Queue header.now count queue.old (seen D.state rig.old) list }
    ensures frames { Q.HasItsFrames queue.new (seen D.state rig.new) }
    ensures queue { OnOk result (Q.IsQueue queue.new (seen D.state rig.new)) }
    ensures ranks { RanksTo Q.Queue header.now count queue.old queue.new list
        (seen D.state rig.old) (seen D.state rig.new) result }
{
    let limits = Limits {
        calls: 4 * header.gates,
        records: count,
    };
    let ranked = sweep_twice(
        rig,
        queue,
        list,
        header,
        Sweep::Send,
        Sweep::Rank,
        0,
        limits,
    )?;
    if ranked.list.len() != count {
        return Err(EmFault::Damaged { block: 0 });
    }
    sort(rig, queue, ranked.list, Sorted::Themselves)
}
