//! A load of points against the pieces of one list, of which each holds all of the points' strip:
//!
//!     load    9 7 7 4 2          for each point the intervals before it, the latest point first
//!     list    1 3 4 8 9 12       the pieces' numbers
//!             |-----|  pairs with all points that came after: 1 with five, 3 with four, 4 with three, 8 with one
//!                      9 ends it: no point of the load was asked after it
//!
//! Kept here: the list is read no further than the first piece that came after all points. Left to
//! others: that each piece holds each point.

ghost use Rattle.std.specs.Prelude.{◌≡◌, ◌<◌, ◌≤◌, length};
ghost use Rattle.em_record.specs.Order.{IsAscending};
ghost use Rattle.em_space.specs.Rig.{Sound};
ghost use Rattle.em_space.specs.Seen.{seen};
ghost use Rattle.em_chain.specs.Reader.{ReaderHasFrame};
ghost use Rattle.em_chain.specs.Writer.{WriterHasFrame};
ghost use Rattle.em_segment_model.specs.Loads as loads;
ghost use Rattle.em_segment_model.specs.Loads.{late_pairs};
ghost use Rattle.em_segment_parts.specs.Lists.{CanReportList, FrontTo, NextTo, ReadsBeside, ReportsListTo};
ghost use Rattle.em_segment_parts.specs.Pairs.{IsPairs, WritesTo};

use crate::pairing::append_pair;
use em_chain::{Chain, Reader, Writer};
use em_frames::Device;
use em_record::Record;
use em_space::{EmFault, Rig};

/// How many intervals were given before the point of a record of such a load.
fn before_of(point: Record) -> u64
    ensures { result ≡ loads.before_of point }
{
    u64::MAX - point.a
}

/// Writes the pairs of a load with the pieces of a list, which stays. It reads the list up to the first
/// piece that was given after all points.
///
/// `Full` comes only if all blocks are in use.
pub fn report_list<D: Device>(
    rig: &mut Rig<'_, D>,
    list: &Chain,
    load: &[Record],
    pairs: &mut Writer,
) -> Result<(), EmFault>
    requires sound { Sound (seen D.state rig.old) }
    requires can { CanReportList (seen D.state rig.old) list.now pairs.old }
    requires some { 0 < length load.now }
    requires ascends { IsAscending load.now }
    requires free { 2 < (seen D.state rig.old).pool.free }
    ensures frame { WriterHasFrame (seen D.state rig.new) pairs.new }
    ensures reports { ReportsListTo load.now (seen D.state rig.old) (seen D.state rig.new)
        list.now pairs.old pairs.new result }
{
    let mut reader = Reader::over(rig, list);
    let done = add_front(rig, &mut reader, list.len(), load, pairs);
    reader.abandon(rig);
    done
}

/// The same by a reader with `count` records left.
fn add_front<D: Device>(
    rig: &mut Rig<'_, D>,
    reader: &mut Reader,
    count: u64,
    load: &[Record],
    pairs: &mut Writer,
) -> Result<(), EmFault>
    requires sound { Sound (seen D.state rig.old) }
    requires beside { ReadsBeside (seen D.state rig.old) reader.old pairs.old }
    requires count { count ≡ reader.old.count }
    requires some { 0 < length load.now }
    requires ascends { IsAscending load.now }
    requires free { 0 < (seen D.state rig.old).pool.free }
    ensures reader_frame { ReaderHasFrame (seen D.state rig.new) reader.new }
    ensures frame { WriterHasFrame (seen D.state rig.new) pairs.new }
    ensures adds { FrontTo load.now (seen D.state rig.old) (seen D.state rig.new)
        reader.old reader.new pairs.old pairs.new result }
{
    for _ in 0..count {
        if !add_next(rig, reader, load, pairs)? {
            return Ok(());
        }
    }
    Ok(())
}

/// Reads the next piece, and writes its pairs. It answers whether some point was asked after it.
fn add_next<D: Device>(
    rig: &mut Rig<'_, D>,
    reader: &mut Reader,
    load: &[Record],
    pairs: &mut Writer,
) -> Result<bool, EmFault>
    requires sound { Sound (seen D.state rig.old) }
    requires beside { ReadsBeside (seen D.state rig.old) reader.old pairs.old }
    requires left { 0 < reader.old.count }
    requires some { 0 < length load.now }
    requires ascends { IsAscending load.now }
    requires free { 0 < (seen D.state rig.old).pool.free }
    ensures reader_frame { ReaderHasFrame (seen D.state rig.new) reader.new }
    ensures frame { WriterHasFrame (seen D.state rig.new) pairs.new }
    ensures adds { NextTo load.now (seen D.state rig.old) (seen D.state rig.new)
        reader.old reader.new pairs.old pairs.new result }
{
    let Some(piece) = reader.next(rig)? else {
        unreachable!()
    };
    if before_of(load[0]) <= piece.c {
        return Ok(false);
    }
    add_late(rig, load, piece.c, pairs)?;
    Ok(true)
}

/// Writes the pairs of a piece, by its number, with the points of a load that were asked after it: they
/// stand first.
fn add_late<D: Device>(
    rig: &mut Rig<'_, D>,
    load: &[Record],
    number: u64,
    pairs: &mut Writer,
) -> Result<(), EmFault>
    requires sound { Sound (seen D.state rig.old) }
    requires is { IsPairs (seen D.state rig.old) pairs.old }
    requires ascends { IsAscending load.now }
    requires free { 0 < (seen D.state rig.old).pool.free }
    ensures frame { WriterHasFrame (seen D.state rig.new) pairs.new }
    ensures writes { WritesTo 0 (late_pairs load.now number)
        (seen D.state rig.old) (seen D.state rig.new) pairs.old pairs.new result }
{
    for k in 0..load.len() {
        if before_of(load[k]) <= number {
            return Ok(());
        }
        append_pair(rig, load[k].b, number, pairs)?;
    }
    Ok(())
}
