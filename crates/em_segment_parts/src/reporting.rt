//! The points of a node's strips against the lists of the multislabs over them, a load at a time:
//!
//!     strips    |  0  |  1  |  2  |     each load of points of strip 1 is put in order of time, and then
//!     lists     [----------------]      meets the pieces of 0..2, of 0..1, of 1..2 and of 1 alone
//!               [----------]
//!                     [----------]
//!                     [----]
//!
//! Kept here: a load of points is read once, whatever the number of lists. Left to `listing`: one list.

ghost use Rattle.std.specs.Prelude.{◌≡◌, ◌*◌, ◌<◌, ◌≤◌, length};
ghost use Rattle.em_record.specs.Shape.{wide_of};
ghost use Rattle.em_record.specs.Order.{IsAscending};
ghost use Rattle.em_frames.specs.Pool.{load_of};
ghost use Rattle.em_space.specs.Rig.{Sound};
ghost use Rattle.em_space.specs.Seen.{seen};
ghost use Rattle.em_chain.specs.Reader.{ReaderHasFrame, reader_items};
ghost use Rattle.em_chain.specs.Writer.{WriterHasFrame};
ghost use Rattle.em_segment_model.specs.Sizes.{fan_root};
ghost use Rattle.em_segment_model.specs.Slabs.{slabs_from};
ghost use Rattle.em_segment_parts.specs.Chains.{chains_in};
ghost use Rattle.em_segment_parts.specs.Lists.{CanReportList};
ghost use Rattle.em_segment_parts.specs.Strips.{CanReport, CanReportPoints, CanReportStrip, CanReportStrips, ReportsAllTo, ReportsLoadTo, ReportsNextTo, ReportsSlabTo, ReportsStripTo, ReportsStripsTo};

use crate::list::Listed;
use crate::listing::report_list;
use crate::loading::{put_late, read_load};
use em_chain::{Chain, Reader, Writer};
use em_frames::{Area, Device};
use em_record::Record;
use em_segment_model::{Slab, slabs_of};
use em_space::{EmFault, Rig};

/// Writes the pairs of the points of each strip with the pieces of the multislabs over it. Strips and lists
/// stay.
///
/// `Full` comes only if all blocks are in use.
pub fn report_strips<D: Device>(
    rig: &mut Rig<'_, D>,
    strips: &[Listed],
    lists: &[Listed],
    pairs: &mut Writer,
) -> Result<(), EmFault>
    requires sound { Sound (seen D.state rig.old) }
    requires can { CanReportStrips (seen D.state rig.old) (chains_in strips.now)
        (chains_in lists.now) pairs.old }
    requires few { length strips.now ≤ fan_root (seen D.state rig.old).pool.shape }
    requires lists { length lists.now ≡ length (slabs_from 0 (length strips.now)) }
    requires free { 3 < (seen D.state rig.old).pool.free }
    requires areas { 0 < (seen D.state rig.old).pool.free_areas }
    ensures frame { WriterHasFrame (seen D.state rig.new) pairs.new }
    ensures reports { ReportsStripsTo (slabs_from 0 (length strips.now)) 0 (seen D.state rig.old)
        (seen D.state rig.new) (chains_in strips.now) (chains_in lists.now) pairs.old pairs.new result }
{
    let slabs = slabs_of(strips.len());
    for k in 0..strips.len() {
        report_strip(rig, &strips[k].chain, k, slabs.as_slice(), lists, pairs)?;
    }
    Ok(())
}

/// The same for the points of one strip.
fn report_strip<D: Device>(
    rig: &mut Rig<'_, D>,
    points: &Chain,
    k: usize,
    slabs: &[Slab],
    lists: &[Listed],
    pairs: &mut Writer,
) -> Result<(), EmFault>
    requires sound { Sound (seen D.state rig.old) }
    requires can { CanReportStrip (seen D.state rig.old) points.now (chains_in lists.now) pairs.old }
    requires lists { length lists.now ≡ length slabs.now }
    requires few { length slabs.now ≤ 2 * wide_of (seen D.state rig.old).pool.shape }
    requires free { 3 < (seen D.state rig.old).pool.free }
    requires areas { 0 < (seen D.state rig.old).pool.free_areas }
    ensures frame { WriterHasFrame (seen D.state rig.new) pairs.new }
    ensures reports { ReportsStripTo slabs.now k (seen D.state rig.old) (seen D.state rig.new)
        points.now (chains_in lists.now) pairs.old pairs.new result }
{
    let mut area = rig.lend_area();
    let done = report_points(rig, points, k, slabs, lists, &mut area, pairs);
    rig.give_area(area);
    done
}

/// The same with an area for a load.
fn report_points<D: Device>(
    rig: &mut Rig<'_, D>,
    points: &Chain,
    k: usize,
    slabs: &[Slab],
    lists: &[Listed],
    area: &mut Area,
    pairs: &mut Writer,
) -> Result<(), EmFault>
    requires sound { Sound (seen D.state rig.old) }
    requires can { CanReportStrip (seen D.state rig.old) points.now (chains_in lists.now) pairs.old }
    requires lists { length lists.now ≡ length slabs.now }
    requires few { length slabs.now ≤ 2 * wide_of (seen D.state rig.old).pool.shape }
    requires area { length area.old ≡ load_of (seen D.state rig.old).pool.shape }
    requires free { 3 < (seen D.state rig.old).pool.free }
    ensures frame { WriterHasFrame (seen D.state rig.new) pairs.new }
    ensures len { length area.new ≡ length area.old }
    ensures reports { ReportsStripTo slabs.now k (seen D.state rig.old) (seen D.state rig.new)
        points.now (chains_in lists.now) pairs.old pairs.new result }
{
    let mut reader = Reader::over(rig, points);
    let done = report_loads(rig, &mut reader, points.len(), k, slabs, lists, area, pairs);
    reader.abandon(rig);
    done
}

/// The same by a reader with `count` points left.
fn report_loads<D: Device>(
    rig: &mut Rig<'_, D>,
    reader: &mut Reader,
    count: u64,
    k: usize,
    slabs: &[Slab],
    lists: &[Listed],
    area: &mut Area,
    pairs: &mut Writer,
) -> Result<(), EmFault>
    requires sound { Sound (seen D.state rig.old) }
    requires can { CanReportPoints (seen D.state rig.old) reader.old (chains_in lists.now) pairs.old }
    requires count { count ≡ reader.old.count }
    requires lists { length lists.now ≡ length slabs.now }
    requires some { 0 < length area.old }
    requires free { 2 < (seen D.state rig.old).pool.free }
    ensures reader_frame { ReaderHasFrame (seen D.state rig.new) reader.new }
    ensures frame { WriterHasFrame (seen D.state rig.new) pairs.new }
    ensures len { length area.new ≡ length area.old }
    ensures reports { ReportsAllTo (length area.old) slabs.now k count (seen D.state rig.old)
        (seen D.state rig.new) reader.old reader.new (chains_in lists.now) pairs.old pairs.new
        (reader_items (seen D.state rig.old) reader.old) result }
{
    let most = area.records().len() as u64;
    let mut left = count;
    while left > 0 {
        let number = left.min(most);
        report_next(rig, reader, number as usize, k, slabs, lists, area, pairs)?;
        left -= number;
    }
    Ok(())
}

/// Reads the next points into an area, as a load, and writes their pairs.
fn report_next<D: Device>(
    rig: &mut Rig<'_, D>,
    reader: &mut Reader,
    number: usize,
    k: usize,
    slabs: &[Slab],
    lists: &[Listed],
    area: &mut Area,
    pairs: &mut Writer,
) -> Result<(), EmFault>
    requires sound { Sound (seen D.state rig.old) }
    requires can { CanReportPoints (seen D.state rig.old) reader.old (chains_in lists.now) pairs.old }
    requires some { 0 < number }
    requires within { number ≤ reader.old.count }
    requires room { number ≤ length area.old }
    requires lists { length lists.now ≡ length slabs.now }
    requires free { 2 < (seen D.state rig.old).pool.free }
    ensures reader_frame { ReaderHasFrame (seen D.state rig.new) reader.new }
    ensures frame { WriterHasFrame (seen D.state rig.new) pairs.new }
    ensures len { length area.new ≡ length area.old }
    ensures reports { ReportsNextTo slabs.now k number (seen D.state rig.old) (seen D.state rig.new)
        reader.old reader.new (chains_in lists.now) pairs.old pairs.new
        (reader_items (seen D.state rig.old) reader.old) result }
{
    read_load(rig, reader, area, number)?;
    put_late(area, number);
    report_load(rig, &area.records()[..number], k, slabs, lists, pairs)
}

/// Writes the pairs of a load of strip k with the pieces of the multislabs over it.
fn report_load<D: Device>(
    rig: &mut Rig<'_, D>,
    load: &[Record],
    k: usize,
    slabs: &[Slab],
    lists: &[Listed],
    pairs: &mut Writer,
) -> Result<(), EmFault>
    requires sound { Sound (seen D.state rig.old) }
    requires can { CanReport (seen D.state rig.old) (chains_in lists.now) pairs.old }
    requires some { 0 < length load.now }
    requires ascends { IsAscending load.now }
    requires lists { length lists.now ≡ length slabs.now }
    requires free { 2 < (seen D.state rig.old).pool.free }
    ensures frame { WriterHasFrame (seen D.state rig.new) pairs.new }
    ensures reports { ReportsLoadTo slabs.now k load.now (seen D.state rig.old) (seen D.state rig.new)
        (chains_in lists.now) pairs.old pairs.new result }
{
    for place in 0..slabs.len() {
        report_slab(rig, slabs[place], k, &lists[place].chain, load, pairs)?;
    }
    Ok(())
}

/// Writes the pairs of a load of strip k with the pieces of a multislab, if it has that strip.
fn report_slab<D: Device>(
    rig: &mut Rig<'_, D>,
    slab: Slab,
    k: usize,
    list: &Chain,
    load: &[Record],
    pairs: &mut Writer,
) -> Result<(), EmFault>
    requires sound { Sound (seen D.state rig.old) }
    requires can { CanReportList (seen D.state rig.old) list.now pairs.old }
    requires some { 0 < length load.now }
    requires ascends { IsAscending load.now }
    requires free { 2 < (seen D.state rig.old).pool.free }
    ensures frame { WriterHasFrame (seen D.state rig.new) pairs.new }
    ensures reports { ReportsSlabTo slab k load.now (seen D.state rig.old) (seen D.state rig.new)
        list.now pairs.old pairs.new result }
{
    if slab.has(k) {
        report_list(rig, list, load, pairs)
    } else {
        Ok(())
    }
}
