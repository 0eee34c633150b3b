//! Two sweeps over an adjacency list, the first of which leaves it and the second releases it, and what
//! they write: a pass, or the edges between ranks. All passes, each by bits or by a queue.

ghost use Rattle.std.specs.Prelude.{◌≡◌, IsTrue, OnOk};
ghost use Rattle.em_space.specs.Seen.{seen};
ghost use Rattle.em_chain.specs.Chain.{chain_items};
ghost use Rattle.em_chain.specs.Writer.{WriterHasFrame};
ghost use Rattle.aig_defs.specs.Circuit.{IsHeader};
ghost use Rattle.aig_edges.specs.Accounts.{releasing, stored_account};
ghost use Rattle.aig_order.specs.Findings.{CanFind, FindsTo};
ghost use Rattle.aig_order.specs.Marks.{FitsArea};
ghost use Rattle.aig_order.specs.OnePass.{CanPass, PassFits, PassTo};
ghost use Rattle.aig_order.specs.Passes.{BothFit, CanSweepTwice, SweepsTwice};
ghost use Rattle.aig_order.specs.SweepCalls.{AllBelow, Fits};
ghost use Rattle.aig_order.specs.SweepLists.{CanSweepList, ListTo, pair_held, three_held};
ghost use Rattle.aig_order.specs.SweepPairs.{CanSweepPair, PairTo};

use crate::by_bits::{fits, pass_by_bits};
use crate::limits::Limits;
use crate::standing::{Standing, Sweep, at_constant};
use crate::sweeping::sweep_all;
use aig_defs::Header;
use em_chain::{Chain, Reader, Writer, discard};
use em_frames::Device;
use em_space::{EmFault, Queue, Rig};

/// A sweep that leaves the list, within the limits.
fn sweep_over<D: Device, Q: Queue>(
    rig: &mut Rig<'_, D>,
    queue: &mut Q,
    list: &Chain,
    writer: &mut Writer,
    header: &Header,
    sweep: Sweep,
    next: u64,
    limits: &mut Limits,
) -> Result<Standing, EmFault>
    requires header { IsHeader header.now }
    requires is { Q.IsQueue queue.old (seen D.state rig.old) }
    requires can { CanSweepList Q.Queue list.now.count queue.old writer.old (seen D.state rig.old)
        list.now }
    requires fits { IsTrue (seen D.state rig.old).device.told
        → Fits sweep (chain_items (seen D.state rig.old) list.now) limits.old }
    requires below { IsTrue (seen D.state rig.old).device.told
        → AllBelow 0 (Q.items queue.old (seen D.state rig.old)) }
    ensures frames { Q.HasItsFrames queue.new (seen D.state rig.new) }
    ensures queue { OnOk result (Q.IsQueue queue.new (seen D.state rig.new)) }
    ensures frame { WriterHasFrame (seen D.state rig.new) writer.new }
    ensures sweeps { ListTo Q.Queue header.now sweep 0 next
        (pair_held Q.Queue queue.old writer.old (seen D.state rig.old))
        (stored_account 0 list.now.blocks) list.now queue.old queue.new writer.old writer.new
        limits.old limits.new (seen D.state rig.old) (seen D.state rig.new) result }
{
    let mut reader = Reader::over(rig, list);
    let swept = sweep_all(
        rig,
        queue,
        &mut reader,
        writer,
        header,
        sweep,
        limits,
        at_constant(next),
        0,
        list.len(),
    );
    reader.abandon(rig);
    swept
}

/// A sweep that releases the list, within the limits.
fn sweep_taking<D: Device, Q: Queue>(
    rig: &mut Rig<'_, D>,
    queue: &mut Q,
    list: Chain,
    writer: &mut Writer,
    header: &Header,
    sweep: Sweep,
    next: u64,
    limits: &mut Limits,
) -> Result<Standing, EmFault>
    requires header { IsHeader header.now }
    requires is { Q.IsQueue queue.old (seen D.state rig.old) }
    requires can { CanSweepList Q.Queue list.count queue.old writer.old (seen D.state rig.old)
        list }
    requires fits { IsTrue (seen D.state rig.old).device.told
        → Fits sweep (chain_items (seen D.state rig.old) list) limits.old }
    requires below { IsTrue (seen D.state rig.old).device.told
        → AllBelow list.count (Q.items queue.old (seen D.state rig.old)) }
    ensures frames { Q.HasItsFrames queue.new (seen D.state rig.new) }
    ensures queue { OnOk result (Q.IsQueue queue.new (seen D.state rig.new)) }
    ensures frame { WriterHasFrame (seen D.state rig.new) writer.new }
    ensures sweeps { ListTo Q.Queue header.now sweep list.count next
        (three_held Q.Queue queue.old writer.old list (seen D.state rig.old))
        (releasing list.blocks) list queue.old queue.new writer.old writer.new
        limits.old limits.new (seen D.state rig.old) (seen D.state rig.new) result }
{
    let count = list.len();
    let mut reader = Reader::taking(rig, list);
    match sweep_all(
        rig,
        queue,
        &mut reader,
        writer,
        header,
        sweep,
        limits,
        at_constant(next),
        count,
        count,
    ) {
        Ok(last) => {
            let rest = reader.end(rig);
            discard(rig, rest)?;
            Ok(last)
        }
        Err(fault) => {
            reader.abandon(rig);
            Err(fault)
        }
    }
}

/// Both sweeps, one after the other, within the limits. A device that doesn't tell may go past them or
/// leave notes in the queue, and block 0 stands for the damaged one then.
fn sweep_both<D: Device, Q: Queue>(
    rig: &mut Rig<'_, D>,
    queue: &mut Q,
    list: Chain,
    writer: &mut Writer,
    header: &Header,
    first: Sweep,
    second: Sweep,
    next: u64,
    limits: Limits,
) -> Result<u64, EmFault>
    requires header { IsHeader header.now }
    requires is { Q.IsQueue queue.old (seen D.state rig.old) }
    requires can { CanSweepPair Q.Queue header.now first second next queue.old writer.old
        (seen D.state rig.old) list }
    requires fits { IsTrue (seen D.state rig.old).device.told
        → BothFit first second (chain_items (seen D.state rig.old) list) limits }
    ensures frames { Q.HasItsFrames queue.new (seen D.state rig.new) }
    ensures queue { OnOk result (Q.IsQueue queue.new (seen D.state rig.new)) }
    ensures frame { WriterHasFrame (seen D.state rig.new) writer.new }
    ensures sweeps { PairTo Q.Queue header.now first second next list queue.old queue.new writer.old
        writer.new limits (seen D.state rig.old) (seen D.state rig.new) result }
{
    let mut left = limits;
    sweep_over(rig, queue, &list, writer, header, first, next, &mut left)?;
    let last = sweep_taking(rig, queue, list, writer, header, second, next, &mut left)?;
    if queue.len() != 0 {
        return Err(EmFault::Damaged { block: 0 });
    }
    Ok(last.next)
}

/// A list, and the next rank.
#[derive(Drop)]
pub(crate) struct Swept {
    /// What was written.
    pub(crate) list: Chain,
    /// The rank of the gate that is found next.
    pub(crate) next: u64,
}

/// What two sweeps write. The list's blocks are released. A fault is that of a call of the queue or of
/// one on a list, or `Damaged` with block 0 if a device that doesn't tell went past the limits or left
/// notes in the queue.
pub(crate) fn sweep_twice<D: Device, Q: Queue>(
    rig: &mut Rig<'_, D>,
    queue: &mut Q,
    list: Chain,
    header: &Header,
    first: Sweep,
    second: Sweep,
    next: u64,
    limits: Limits,
) -> Result<Swept, EmFault>
    requires is { Q.IsQueue queue.old (seen D.state rig.old) }
    requires header { IsHeader header.now }
    requires can { CanSweepTwice Q.Queue header.now first second next queue.old
        (seen D.state rig.old) list }
    requires fits { IsTrue (seen D.state rig.old).device.told
        → BothFit first second (chain_items (seen D.state rig.old) list) limits }
    ensures frames { Q.HasItsFrames queue.new (seen D.state rig.new) }
    ensures queue { OnOk result (Q.IsQueue queue.new (seen D.state rig.new)) }
    ensures sweeps { SweepsTwice Q.Queue header.now first second next limits queue.old queue.new list
        (seen D.state rig.old) (seen D.state rig.new) result }
{
    let mut writer = Writer::new(rig);
    match sweep_both(
        rig,
        queue,
        list,
        &mut writer,
        header,
        first,
        second,
        next,
        limits,
    ) {
        Ok(next) => {
            let list = writer.finish(rig)?;
            Ok(Swept { list, next })
        }
        Err(fault) => {
            writer.abandon(rig);
            Err(fault)
        }
    }
}

/// A pass over an adjacency list: by bits, if one for each variable up to M fits into an area, and else by the
/// queue, with at most 4 calls of it for each gate. By bits the queue isn't called. The list's blocks are released. A
/// fault is that of a call of the queue or of one on a list, or `Damaged` with block 0 if a device that doesn't
/// tell went past the limits of a pass by the queue, or left notes in it.
fn make_pass<D: Device, Q: Queue>(
    rig: &mut Rig<'_, D>,
    queue: &mut Q,
    list: Chain,
    header: &Header,
    next: u64,
) -> Result<Swept, EmFault>
    requires is { Q.IsQueue queue.old (seen D.state rig.old) }
    requires header { IsHeader header.now }
    requires can { CanPass Q.Queue header.now next queue.old (seen D.state rig.old) list }
    requires fits { PassFits header.now (seen D.state rig.old) list }
    ensures frames { Q.HasItsFrames queue.new (seen D.state rig.new) }
    ensures queue { OnOk result (Q.IsQueue queue.new (seen D.state rig.new)) }
    ensures passes { PassTo Q.Queue header.now next queue.old queue.new list (seen D.state rig.old)
        (seen D.state rig.new) result }
    ensures still { FitsArea header.now (seen D.state rig.old).pool.shape → queue.new ≡ queue.old }
{
    if fits(header, rig.shape()) {
        return pass_by_bits(rig, list, header, next);
    }
    let limits = Limits {
        calls: 4 * header.gates,
        records: list.len(),
    };
    sweep_twice(
        rig,
        queue,
        list,
        header,
        Sweep::Recall,
        Sweep::Find,
        next,
        limits,
    )
}

/// An adjacency list after all passes, and how many of them found something.
#[derive(Drop)]
pub(crate) struct Found {
    /// The list, in which each gate that was found has its rank.
    pub(crate) list: Chain,
    /// How many passes found a gate.
    pub(crate) passes: u64,
    /// The rank after that of the gate that was found last.
    pub(crate) next: u64,
}

/// Passes over an adjacency list up to one that finds the last gate, or none. Each other one finds a gate, so
/// there are no more of these than gates. A fault is that of a call of the queue or of one on a list, or
/// `Damaged` with block 0 if a device that doesn't tell went past the limits of a pass or left notes in the
/// queue. If a bit for each variable fits into an area, the queue isn't called.
pub(crate) fn find_all<D: Device, Q: Queue>(
    rig: &mut Rig<'_, D>,
    queue: &mut Q,
    list: Chain,
    header: &Header,
) -> Result<Found, EmFault>
    requires is { Q.IsQueue queue.old (seen D.state rig.old) }
    requires header { IsHeader header.now }
    requires can { CanFind Q.Queue header.now queue.old (seen D.state rig.old) list }
    ensures frames { Q.HasItsFrames queue.new (seen D.state rig.new) }
    ensures queue { OnOk result (Q.IsQueue queue.new (seen D.state rig.new)) }
    ensures finds { FindsTo Q.Queue header.now queue.old queue.new list (seen D.state rig.old)
        (seen D.state rig.new) result }
    ensures still { FitsArea header.now (seen D.state rig.old).pool.shape → queue.new ≡ queue.old }
{
    let mut list = list;
    let mut next = 1 + header.inputs + header.latches;
    let end = next + header.gates;
    let mut passes = 0;
    for _ in 0..header.gates {
        let swept = make_pass(rig, queue, list, header, next)?;
        list = swept.list;
        if swept.next == next {
            return Ok(Found { list, passes, next });
        }
        next = swept.next;
        passes += 1;
        if next == end {
            return Ok(Found { list, passes, next });
        }
    }
    Ok(Found { list, passes, next })
}
