//! Points that are read into an area, a load at a time.

ghost use Rattle.std.specs.Prelude.{◌≡◌, ◌-◌, ◌^◌, ◌++◌, ◌<◌, ◌≤◌, drop, length, map, set, take};
ghost use Rattle.em_record.specs.Order.{in_order};
ghost use Rattle.em_space.specs.Rig.{Sound};
ghost use Rattle.em_space.specs.Seen.{seen};
ghost use Rattle.em_chain.specs.Chain.{IsChain};
ghost use Rattle.em_chain.specs.Reader.{IsReader, ReaderHasFrame};
ghost use Rattle.em_segment_model.specs.Loads as loads;
ghost use Rattle.em_segment_model.specs.Loads.{AllFit};
ghost use Rattle.em_segment_parts.specs.Loads.{PutsTo, ReadsLoadTo, TakesLoadTo};

use em_chain::{Chain, Reader};
use em_frames::{Area, Device};
use em_record::Record;
use em_space::{EmFault, Rig};

/// All points of a chain, read into an area. Their blocks are released, by two moves at most for each.
pub fn take_load<D: Device>(
    rig: &mut Rig<'_, D>,
    points: Chain,
    area: &mut Area,
) -> Result<(), EmFault>
    requires sound { Sound (seen D.state rig.old) }
    requires chain { IsChain (seen D.state rig.old) points }
    requires some { 0 < points.count }
    requires room { points.count ≤ length area.old }
    requires free { 1 < (seen D.state rig.old).pool.free }
    ensures len { length area.new ≡ length area.old }
    ensures takes { TakesLoadTo (seen D.state rig.old) (seen D.state rig.new) points area.new result }
{
    let number = points.len();
    let mut reader = Reader::taking(rig, points);
    let done = read_load(rig, &mut reader, area, number as usize);
    reader.abandon(rig);
    done
}

/// Reads the next points into an area, from its first place on. What stands after them stays.
pub fn read_load<D: Device>(
    rig: &mut Rig<'_, D>,
    reader: &mut Reader,
    area: &mut Area,
    number: usize,
) -> Result<(), EmFault>
    requires sound { Sound (seen D.state rig.old) }
    requires is { IsReader (seen D.state rig.old) reader.old }
    requires few { number ≤ reader.old.count }
    requires room { number ≤ length area.old }
    requires free { 0 < (seen D.state rig.old).pool.free }
    ensures frame { ReaderHasFrame (seen D.state rig.new) reader.new }
    ensures len { length area.new ≡ length area.old }
    ensures reads { ReadsLoadTo number (seen D.state rig.old) (seen D.state rig.new)
        reader.old reader.new area.old area.new result }
{
    for place in 0..number {
        read_to(rig, reader, area, place)?;
    }
    Ok(())
}

/// Reads the next point to a place of an area.
fn read_to<D: Device>(
    rig: &mut Rig<'_, D>,
    reader: &mut Reader,
    area: &mut Area,
    place: usize,
) -> Result<(), EmFault>
    requires sound { Sound (seen D.state rig.old) }
    requires is { IsReader (seen D.state rig.old) reader.old }
    requires some { 0 < reader.old.count }
    requires room { place < length area.old }
    requires free { 0 < (seen D.state rig.old).pool.free }
    ensures frame { ReaderHasFrame (seen D.state rig.new) reader.new }
    ensures len { length area.new ≡ length area.old }
    ensures puts { PutsTo place (seen D.state rig.old) (seen D.state rig.new)
        reader.old reader.new area.old area.new result }
{
    let Some(point) = reader.next(rig)? else {
        unreachable!()
    };
    put_point(area, place, point);
    Ok(())
}

/// Puts a record to a place of an area.
fn put_point(area: &mut Area, place: usize, point: Record)
    requires { place < length area.old }
    ensures { area.new ≡ set area.old place point }
{
    area.records_mut()[place] = point;
}

/// A point as it stands in a load over multislabs: the later it was asked, the less the record.
fn late_record(point: Record) -> Record
    ensures is { result ≡ loads.late_record point }
    ensures fits { point.c ≤ 2 ^ 64 - 1 }
{
    Record {
        a: u64::MAX - point.c,
        b: point.b,
        c: 0,
        d: 0,
    }
}

/// Makes a load over multislabs of the first points of an area: the later they were asked, the earlier they
/// stand.
pub fn put_late(area: &mut Area, number: usize)
    requires room { number ≤ length area.old }
    ensures load { take number area.new ≡ in_order (map loads.late_record (take number area.old)) }
    ensures fit { AllFit (take number area.old) }
    ensures len { length area.new ≡ length area.old }
{
    turn_late(area.records_mut(), number);
    area.sort(number);
}

/// Puts the first points of an area in order.
pub fn put_in_order(area: &mut Area, number: usize)
    requires room { number ≤ length area.old }
    ensures load { take number area.new ≡ in_order (take number area.old) }
    ensures len { length area.new ≡ length area.old }
{
    area.sort(number);
}

/// Turns the first points of an area into records that are less the later they were asked.
fn turn_late(records: &mut [Record], number: usize)
    requires room { number ≤ length records.old }
    ensures turned { records.new ≡ map loads.late_record (take number records.old)
        ++ drop number records.old }
    ensures fit { AllFit (take number records.old) }
{
    for place in 0..number {
        records[place] = late_record(records[place]);
    }
}
