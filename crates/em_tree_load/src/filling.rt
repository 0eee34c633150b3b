//! The first records of a buffer, read into an area; the rest stays a chain.

ghost use Rattle.std.specs.Prelude.{◌≡◌, ◌+◌, ◌<◌, ◌≤◌, drop, length, set, take, true};
ghost use Rattle.em_space.specs.Rig.{Sound};
ghost use Rattle.em_space.specs.Seen.{seen};
ghost use Rattle.em_chain.specs.Chain.{IsChain};
ghost use Rattle.em_chain.specs.Reader.{IsReader, ReaderHasFrame};
ghost use Rattle.em_tree_load.specs.AreaFills.{FillsArea, FillsFrom, PutsRead, ReadsIntoArea};
ghost use Rattle.em_tree_load.specs.LoadRoom.{Takes};
ghost use Rattle.em_tree_load.specs.Peaks.{Peaks};

use em_chain::{Chain, Reader};
use em_frames::{Area, Device};
use em_record::Record;
use em_space::{EmFault, Rig};

/// Reads the first `count` records of a buffer into an area. Answers the rest.
pub(crate) fn fill_area<D: Device>(
    rig: &mut Rig<'_, D>,
    buffer: Chain,
    area: &mut Area,
    count: usize,
) -> Result<Chain, EmFault>
    requires sound { Sound (seen D.state rig.old) }
    requires chain { IsChain (seen D.state rig.old) buffer }
    requires few { count ≤ buffer.count }
    requires room { count ≤ length area.old }
    requires free { 1 < (seen D.state rig.old).pool.free }
    ensures len { length area.new ≡ length area.old }
    ensures fills { FillsArea (seen D.state rig.old) (seen D.state rig.new) buffer area.new count
        result }
    ensures takes { Takes 0 0 (seen D.state rig.old) (seen D.state rig.new) result }
    ensures peaks { Peaks 0 (seen D.state rig.old) (seen D.state rig.new) }
{
    fill_from(rig, buffer, area, 0, count)
}

/// The same from a place of the area on. What stands before that place stays.
pub(crate) fn fill_from<D: Device>(
    rig: &mut Rig<'_, D>,
    buffer: Chain,
    area: &mut Area,
    from: usize,
    count: usize,
) -> Result<Chain, EmFault>
    requires sound { Sound (seen D.state rig.old) }
    requires chain { IsChain (seen D.state rig.old) buffer }
    requires few { count ≤ buffer.count }
    requires room { from + count ≤ length area.old }
    requires free { 1 < (seen D.state rig.old).pool.free }
    ensures len { length area.new ≡ length area.old }
    ensures fills { FillsFrom (seen D.state rig.old) (seen D.state rig.new) buffer area.old area.new
        from count result }
    ensures takes { Takes 0 0 (seen D.state rig.old) (seen D.state rig.new) result }
    ensures peaks { Peaks 0 (seen D.state rig.old) (seen D.state rig.new) }
{
    let mut reader = Reader::taking(rig, buffer);
    match read_into(rig, &mut reader, area, from, count) {
        Ok(()) => Ok(reader.end(rig)),
        Err(fault) => {
            reader.abandon(rig);
            Err(fault)
        }
    }
}

/// The same by a reader.
fn read_into<D: Device>(
    rig: &mut Rig<'_, D>,
    reader: &mut Reader,
    area: &mut Area,
    from: usize,
    count: usize,
) -> Result<(), EmFault>
    requires sound { Sound (seen D.state rig.old) }
    requires is { IsReader (seen D.state rig.old) reader.old }
    requires taking { reader.old.taking ≡ true }
    requires few { count ≤ reader.old.count }
    requires room { from + count ≤ length area.old }
    requires free { 0 < (seen D.state rig.old).pool.free }
    ensures frame { ReaderHasFrame (seen D.state rig.new) reader.new }
    ensures len { length area.new ≡ length area.old }
    ensures kept { take from area.new ≡ take from area.old }
    ensures reads { ReadsIntoArea (seen D.state rig.old) (seen D.state rig.new) reader.old reader.new
        (drop from area.old) (drop from area.new) count result }
{
    for place in 0..count {
        read_to(rig, reader, area, from, place)?;
    }
    Ok(())
}

/// Reads the next record to a place of an area, counted from another place on.
fn read_to<D: Device>(
    rig: &mut Rig<'_, D>,
    reader: &mut Reader,
    area: &mut Area,
    from: usize,
    place: usize,
) -> Result<(), EmFault>
    requires sound { Sound (seen D.state rig.old) }
    requires is { IsReader (seen D.state rig.old) reader.old }
    requires taking { reader.old.taking ≡ true }
    requires some { 0 < reader.old.count }
    requires room { from + place < length area.old }
    requires free { 0 < (seen D.state rig.old).pool.free }
    ensures frame { ReaderHasFrame (seen D.state rig.new) reader.new }
    ensures len { length area.new ≡ length area.old }
    ensures kept { take from area.new ≡ take from area.old }
    ensures puts { PutsRead (seen D.state rig.old) (seen D.state rig.new) reader.old reader.new
        (drop from area.old) (drop from area.new) place result }
{
    let Some(item) = reader.next(rig)? else {
        unreachable!()
    };
    put_item(area, from, place, item);
    Ok(())
}

/// Puts a record to a place of an area, counted from another place on.
fn put_item(area: &mut Area, from: usize, place: usize, item: Record)
    requires { from + place < length area.old }
    ensures { area.new ≡ set area.old (from + place) item }
{
    let at = from.min(area.records().len()) + place;
    area.records_mut()[at] = item;
}
