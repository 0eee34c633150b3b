//! What results of a pass, written to chains.
ghost use Rattle.std.specs.Prelude.{◌≡◌, ◌+◌, ◌<◌, ◌≤◌, ◌^◌, length, IfErr};
ghost use Rattle.em_record.specs.Order.{IsAscending};
ghost use Rattle.em_space.specs.Rig.{Sound};
ghost use Rattle.em_space.specs.Seen.{seen};
ghost use Rattle.em_chain.specs.Reader.{ReaderHasFrame};
ghost use Rattle.em_chain.specs.Writer.{WriterHasFrame};
ghost use Rattle.em_leaf.specs.Front.{fresh_front, most_left};
ghost use Rattle.em_leaf.specs.Needs.{LacksItems, LacksLeaf, LacksPart};
ghost use Rattle.em_leaf.specs.Passing.{CanPass};
ghost use Rattle.em_leaf.specs.Writing.{CanWriteItems, HaveFrames, IsHighOf, WritesItemsTo, WritesLeaf, WritesNext, WritesPartTo, first_or};

use crate::change::LeafChange;
use crate::front::{Front, new_front};
use crate::passing::next_record;
use em_chain::{Chain, Reader, Writer};
use em_frames::Device;
use em_record::Record;
use em_settle::Settle;
use em_space::{EmFault, Rig};

/// Writes what results to one chain, or to two if it is more than `limit` records, which then are
/// those of the first one. All stored records are read.
pub(crate) fn write_leaf<D: Device, S: Settle>(
    rig: &mut Rig<'_, D>,
    settle: &S,
    ops: &[Record],
    reader: &mut Reader,
    answers: &mut Writer,
    limit: u64,
    most: u64,
) -> Result<LeafChange, EmFault>
    requires sound { Sound (seen D.state rig.old) }
    requires ready { S.IsReady settle.now }
    requires ordered { IsAscending ops.now }
    requires can { CanPass (seen D.state rig.old) reader.old answers.old fresh_front
        (length ops.now) }
    requires limits { reader.old.count + length ops.now ≤ limit + most }
    requires least { reader.old.count + length ops.now ≤ 2 ^ 56 }
    requires free { 1 < (seen D.state rig.old).pool.free }
    ensures reader { ReaderHasFrame (seen D.state rig.new) reader.new }
    ensures answers { WriterHasFrame (seen D.state rig.new) answers.new }
    ensures writes { WritesLeaf limit most (S.key_of settle.now) (S.step_of settle.now) ops.now
        (seen D.state rig.old) (seen D.state rig.new) reader.old reader.new answers.old answers.new
        result }
    ensures needs { IfErr result (LacksLeaf limit (S.key_of settle.now) (S.step_of settle.now)
        ops.now (seen D.state rig.old) (seen D.state rig.new) reader.old answers.old) }
{
    let mut front = new_front();
    let (_, low) = write_part(rig, settle, ops, reader, &mut front, answers, limit)?;
    let (first, high) = write_part(rig, settle, ops, reader, &mut front, answers, most)?;
    let high = high_part(settle, first, high);
    Ok(LeafChange { low, high })
}

/// The high part with its least key, or none if no record was written to it.
fn high_part<S: Settle>(settle: &S, first: Option<Record>, chain: Chain) -> Option<(Record, Chain)>
    ensures { IsHighOf (S.key_of settle.now) first chain result }
{
    match first {
        Some(item) => Some((settle.key(item), chain)),
        None => None,
    }
}

/// Writes up to `limit` records that result to a chain, and answers the first of them.
fn write_part<D: Device, S: Settle>(
    rig: &mut Rig<'_, D>,
    settle: &S,
    ops: &[Record],
    reader: &mut Reader,
    front: &mut Front,
    answers: &mut Writer,
    limit: u64,
) -> Result<(Option<Record>, Chain), EmFault>
    requires sound { Sound (seen D.state rig.old) }
    requires ready { S.IsReady settle.now }
    requires ordered { IsAscending ops.now }
    requires can { CanPass (seen D.state rig.old) reader.old answers.old front.old
        (length ops.now) }
    requires room { most_left front.old reader.old.count (length ops.now) ≤ 2 ^ 56 }
    requires free { 1 < (seen D.state rig.old).pool.free }
    ensures reader { ReaderHasFrame (seen D.state rig.new) reader.new }
    ensures answers { WriterHasFrame (seen D.state rig.new) answers.new }
    ensures writes { WritesPartTo limit (S.key_of settle.now) (S.step_of settle.now) ops.now
        (seen D.state rig.old) (seen D.state rig.new) reader.old reader.new answers.old answers.new
        front.old front.new result }
    ensures needs { IfErr result (LacksPart limit (S.key_of settle.now) (S.step_of settle.now)
        ops.now (seen D.state rig.old) (seen D.state rig.new) reader.old answers.old front.old) }
{
    let mut out = Writer::new(rig);
    match write_records(rig, settle, ops, reader, front, answers, &mut out, limit) {
        Ok(first) => {
            let chain = out.finish(rig)?;
            Ok((first, chain))
        }
        Err(fault) => {
            out.abandon(rig);
            Err(fault)
        }
    }
}

/// Writes up to `limit` records that result, and answers the first of them.
fn write_records<D: Device, S: Settle>(
    rig: &mut Rig<'_, D>,
    settle: &S,
    ops: &[Record],
    reader: &mut Reader,
    front: &mut Front,
    answers: &mut Writer,
    out: &mut Writer,
    limit: u64,
) -> Result<Option<Record>, EmFault>
    requires sound { Sound (seen D.state rig.old) }
    requires ready { S.IsReady settle.now }
    requires ordered { IsAscending ops.now }
    requires can { CanWriteItems (seen D.state rig.old) reader.old answers.old out.old front.old
        (length ops.now) }
    requires free { 0 < (seen D.state rig.old).pool.free }
    ensures frames { HaveFrames (seen D.state rig.new) reader.new answers.new out.new }
    ensures writes { WritesItemsTo limit (S.key_of settle.now) (S.step_of settle.now) ops.now
        (seen D.state rig.old) (seen D.state rig.new) reader.old reader.new answers.old answers.new
        out.old out.new front.old front.new result }
    ensures needs { IfErr result (LacksItems limit (S.key_of settle.now) (S.step_of settle.now)
        ops.now (seen D.state rig.old) (seen D.state rig.new) reader.old answers.old out.old
        front.old) }
{
    let mut first = None;
    for _ in 0..limit {
        match write_next(rig, settle, ops, reader, front, answers, out)? {
            Some(item) => first = first_or(first, item),
            None => return Ok(first),
        }
    }
    Ok(first)
}

/// Writes the next record that results. None is left exactly if it answers None.
fn write_next<D: Device, S: Settle>(
    rig: &mut Rig<'_, D>,
    settle: &S,
    ops: &[Record],
    reader: &mut Reader,
    front: &mut Front,
    answers: &mut Writer,
    out: &mut Writer,
) -> Result<Option<Record>, EmFault>
    requires sound { Sound (seen D.state rig.old) }
    requires ready { S.IsReady settle.now }
    requires ordered { IsAscending ops.now }
    requires can { CanWriteItems (seen D.state rig.old) reader.old answers.old out.old front.old
        (length ops.now) }
    requires free { 0 < (seen D.state rig.old).pool.free }
    ensures frames { HaveFrames (seen D.state rig.new) reader.new answers.new out.new }
    ensures writes { WritesNext (S.key_of settle.now) (S.step_of settle.now) ops.now
        (seen D.state rig.old) (seen D.state rig.new) reader.old reader.new answers.old answers.new
        out.old out.new front.old front.new result }
    ensures needs { IfErr result (LacksItems 1 (S.key_of settle.now) (S.step_of settle.now)
        ops.now (seen D.state rig.old) (seen D.state rig.new) reader.old answers.old out.old
        front.old) }
{
    match next_record(rig, settle, ops, reader, front, answers)? {
        Some(item) => {
            out.append(rig, item)?;
            Ok(Some(item))
        }
        None => Ok(None),
    }
}

/// The first record of those that were written before this one, or this one if there is none.
fn first_or(first: Option<Record>, item: Record) -> Option<Record>
    ensures { result ≡ first_or first item }
{
    match first {
        Some(before) => Some(before),
        None => Some(item),
    }
}
