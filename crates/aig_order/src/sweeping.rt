//! A sweep over an adjacency list beside a queue and a list that is written.
//!
//!     list   [.. gate 3, edge 3-6 ..]   gate 3 takes its two notes, edge 3-6 gets one
//!     queue  {3 3 6} -> {6} -> {6 6}
//!     writer -> [.. gate 3 with its rank, edge 3-6]
//!
//! Kept here: queue and lists have no block in common, and records past the limits aren't met. Left to
//! the queue: the order of notes.

ghost use Rattle.std.specs.Prelude.{◌≡◌, ◌<◌, ◌+◌, ◌++◌, ◌^◌, option_to_list, IsTrue, OnOk};
ghost use Rattle.em_space.specs.Rig.{Sound};
ghost use Rattle.em_space.specs.Seen.{seen};
ghost use Rattle.em_chain.specs.Reader.{ReaderHasFrame, reader_items};
ghost use Rattle.em_chain.specs.Writer.{IsWriter, WriterHasFrame};
ghost use Rattle.em_queued.specs.Popped.{HasRoom};
ghost use Rattle.aig_defs.specs.Circuit.{IsHeader};
ghost use Rattle.aig_order.specs.SweepCalls.{AllBelow, CanMeet, CanNote, CanSweep, Fits, MeetsTo, PassesTo, PutsTo, SweepsTo, TakesTo};

use crate::adjacency::is_edge;
use crate::limits::{Limits, spend};
use crate::standing::{Standing, Sweep, is_told, note, standing_after, takes_notes, written_after};
use aig_defs::Header;
use em_chain::{Reader, Writer};
use em_frames::Device;
use em_record::Record;
use em_space::{EmFault, Queue, Rig};

/// Takes the two notes of a gate; a record of zeros stands for one that is missing.
fn take_notes<D: Device, Q: Queue>(
    rig: &mut Rig<'_, D>,
    queue: &mut Q,
) -> Result<(Record, Record), EmFault>
    requires is { Q.IsQueue queue.old (seen D.state rig.old) }
    requires can { CanNote Q.Queue 1 queue.old (seen D.state rig.old) }
    ensures frames { Q.HasItsFrames queue.new (seen D.state rig.new) }
    ensures queue { OnOk result (Q.IsQueue queue.new (seen D.state rig.new)) }
    ensures takes { TakesTo Q.Queue queue.old queue.new (seen D.state rig.old)
        (seen D.state rig.new) result }
{
    let first = queue.pop(rig)?.unwrap_or(Record::ZERO);
    let second = queue.pop(rig)?.unwrap_or(Record::ZERO);
    Ok((first, second))
}

/// The notes at a record, which has this number: its own is pushed, or its two are taken. Records of
/// zeros come if none is taken.
fn pass_notes<D: Device, Q: Queue>(
    rig: &mut Rig<'_, D>,
    queue: &mut Q,
    sweep: Sweep,
    standing: Standing,
    item: Record,
    number: u64,
) -> Result<(Record, Record), EmFault>
    requires is { Q.IsQueue queue.old (seen D.state rig.old) }
    requires can { CanNote Q.Queue 1 queue.old (seen D.state rig.old) }
    requires below { IsTrue (seen D.state rig.old).device.told
        → AllBelow number (Q.items queue.old (seen D.state rig.old)) }
    ensures frames { Q.HasItsFrames queue.new (seen D.state rig.new) }
    ensures queue { OnOk result (Q.IsQueue queue.new (seen D.state rig.new)) }
    ensures passes { PassesTo Q.Queue sweep standing number item queue.old queue.new
        (seen D.state rig.old) (seen D.state rig.new) result }
{
    if is_edge(item) {
        if is_told(sweep, item) {
            queue.push(rig, note(sweep, standing, item, number))?;
        }
        return Ok((Record::ZERO, Record::ZERO));
    }
    if takes_notes(sweep, item) {
        return take_notes(rig, queue);
    }
    Ok((Record::ZERO, Record::ZERO))
}

/// Writes a record, if there is one.
fn put<D: Device>(
    rig: &mut Rig<'_, D>,
    writer: &mut Writer,
    item: Option<Record>,
) -> Result<(), EmFault>
    requires sound { Sound (seen D.state rig.old) }
    requires is { IsWriter (seen D.state rig.old) writer.old }
    requires free { 0 < (seen D.state rig.old).pool.free }
    requires room { HasRoom 1 writer.old }
    ensures puts { PutsTo (option_to_list item) writer.old writer.new (seen D.state rig.old)
        (seen D.state rig.new) result }
    ensures frame { WriterHasFrame (seen D.state rig.new) writer.new }
{
    match item {
        Some(item) => writer.append(rig, item),
        None => Ok(()),
    }
}

/// Writes up to two records.
fn put_both<D: Device>(
    rig: &mut Rig<'_, D>,
    writer: &mut Writer,
    first: Option<Record>,
    second: Option<Record>,
) -> Result<(), EmFault>
    requires sound { Sound (seen D.state rig.old) }
    requires is { IsWriter (seen D.state rig.old) writer.old }
    requires free { 0 < (seen D.state rig.old).pool.free }
    requires room { HasRoom 2 writer.old }
    ensures puts { PutsTo (option_to_list first ++ option_to_list second) writer.old writer.new
        (seen D.state rig.old) (seen D.state rig.new) result }
    ensures frame { WriterHasFrame (seen D.state rig.new) writer.new }
{
    put(rig, writer, first)?;
    put(rig, writer, second)
}

/// What a sweep does at a record: notes are passed, and what is to be written for it is.
fn meet<D: Device, Q: Queue>(
    rig: &mut Rig<'_, D>,
    queue: &mut Q,
    writer: &mut Writer,
    header: &Header,
    sweep: Sweep,
    standing: Standing,
    item: Record,
    number: u64,
) -> Result<Standing, EmFault>
    requires header { IsHeader header.now }
    requires is { Q.IsQueue queue.old (seen D.state rig.old) }
    requires can { CanMeet Q.Queue 1 queue.old writer.old (seen D.state rig.old) }
    requires below { IsTrue (seen D.state rig.old).device.told
        → AllBelow number (Q.items queue.old (seen D.state rig.old)) }
    ensures frames { Q.HasItsFrames queue.new (seen D.state rig.new) }
    ensures queue { OnOk result (Q.IsQueue queue.new (seen D.state rig.new)) }
    ensures frame { WriterHasFrame (seen D.state rig.new) writer.new }
    ensures meets { MeetsTo Q.Queue header.now sweep number item queue.old queue.new standing
        writer.old writer.new (seen D.state rig.old) (seen D.state rig.new) result }
{
    let (first, second) = pass_notes(rig, queue, sweep, standing, item, number)?;
    let (one, other) = written_after(header, sweep, standing, item, first, second);
    put_both(rig, writer, one, other)?;
    Ok(standing_after(sweep, standing, item, first, second))
}

/// Reads the next record, and does what a sweep does there, if that is within the limits.
fn meet_next<D: Device, Q: Queue>(
    rig: &mut Rig<'_, D>,
    queue: &mut Q,
    reader: &mut Reader,
    writer: &mut Writer,
    header: &Header,
    sweep: Sweep,
    limits: &mut Limits,
    standing: Standing,
    number: u64,
) -> Result<Standing, EmFault>
    requires header { IsHeader header.now }
    requires is { Q.IsQueue queue.old (seen D.state rig.old) }
    requires can { CanSweep Q.Queue 1 queue.old writer.old reader.old (seen D.state rig.old) }
    requires fits { IsTrue (seen D.state rig.old).device.told
        → Fits sweep (reader_items (seen D.state rig.old) reader.old) limits.old }
    requires below { IsTrue (seen D.state rig.old).device.told
        → AllBelow number (Q.items queue.old (seen D.state rig.old)) }
    ensures frames { Q.HasItsFrames queue.new (seen D.state rig.new) }
    ensures queue { OnOk result (Q.IsQueue queue.new (seen D.state rig.new)) }
    ensures list { WriterHasFrame (seen D.state rig.new) writer.new
        × ReaderHasFrame (seen D.state rig.new) reader.new }
    ensures sweeps { SweepsTo Q.Queue header.now sweep number 1 queue.old queue.new standing
        writer.old writer.new reader.old reader.new limits.old limits.new
        (seen D.state rig.old) (seen D.state rig.new) result }
{
    let Some(item) = reader.next(rig)? else {
        unreachable!()
    };
    spend(limits, sweep, item)?;
    meet(rig, queue, writer, header, sweep, standing, item, number)
}

/// A sweep over the `count` records that a reader has left, within the limits; their numbers begin at
/// `base`. It answers what comes after the last one.
pub(crate) fn sweep_all<D: Device, Q: Queue>(
    rig: &mut Rig<'_, D>,
    queue: &mut Q,
    reader: &mut Reader,
    writer: &mut Writer,
    header: &Header,
    sweep: Sweep,
    limits: &mut Limits,
    standing: Standing,
    base: u64,
    count: u64,
) -> Result<Standing, EmFault>
    requires header { IsHeader header.now }
    requires is { Q.IsQueue queue.old (seen D.state rig.old) }
    requires can { CanSweep Q.Queue count queue.old writer.old reader.old (seen D.state rig.old) }
    requires fits { IsTrue (seen D.state rig.old).device.told
        → Fits sweep (reader_items (seen D.state rig.old) reader.old) limits.old }
    requires numbers { base + count < 2 ^ 64 }
    requires below { IsTrue (seen D.state rig.old).device.told
        → AllBelow base (Q.items queue.old (seen D.state rig.old)) }
    ensures frames { Q.HasItsFrames queue.new (seen D.state rig.new) }
    ensures queue { OnOk result (Q.IsQueue queue.new (seen D.state rig.new)) }
    ensures list { WriterHasFrame (seen D.state rig.new) writer.new
        × ReaderHasFrame (seen D.state rig.new) reader.new }
    ensures sweeps { SweepsTo Q.Queue header.now sweep base count queue.old queue.new standing
        writer.old writer.new reader.old reader.new limits.old limits.new
        (seen D.state rig.old) (seen D.state rig.new) result }
{
    let mut now = standing;
    for number in 0..count {
        now = meet_next(
            rig,
            queue,
            reader,
            writer,
            header,
            sweep,
            limits,
            now,
            base + number,
        )?;
    }
    Ok(now)
}
