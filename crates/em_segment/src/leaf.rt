//! The points of a call that fit an area, against its pieces:
//!
//!     load    2 5 5 8 9          the points' values, in order
//!     piece   [4 . . 8]          from the first value that isn't below 4 up to the last that isn't above 8
//!
//! Kept here: the load ascends, over any device. Left to the model: that these are the pairs that are due.

ghost use Rattle.std.specs.Prelude.{◌≡◌, ◌<◌, ◌≤◌, length};
ghost use Rattle.em_record.specs.Order.{IsAscending};
ghost use Rattle.em_frames.specs.Pool.{load_of};
ghost use Rattle.em_space.specs.Rig.{Sound};
ghost use Rattle.em_space.specs.Seen.{seen};
ghost use Rattle.em_chain.specs.Reader.{ReaderHasFrame, reader_items};
ghost use Rattle.em_chain.specs.Writer.{WriterHasFrame};
ghost use Rattle.em_segment_model.specs.Loads.{leaf_pairs};
ghost use Rattle.em_segment.specs.Answers.{AnswersTo, CanAnswer, IsCall};
ghost use Rattle.em_segment.specs.Leaves.{CanReportPieces, ReportsPiecesTo, StandsFrom, TakesBeside, TakesPiecesTo, later_pair};
ghost use Rattle.em_segment_parts.specs.Pairs.{IsPairs, WritesTo};

use em_chain::{Chain, Reader, Writer};
use em_frames::{Area, Device};
use em_record::Record;
use em_segment_parts::{append_pair, put_in_order, take_load};
use em_space::{EmFault, Rig};

/// Writes the pairs of some points that fit an area with some pieces, and releases the blocks of both.
pub(crate) fn answer_leaf<D: Device>(
    rig: &mut Rig<'_, D>,
    points: Chain,
    pieces: Chain,
    pairs: &mut Writer,
) -> Result<(), EmFault>
    requires can { CanAnswer (seen D.state rig.old) points pieces pairs.old }
    requires some { 0 < points.count }
    requires pieces { 0 < pieces.count }
    requires fits { points.count ≤ load_of (seen D.state rig.old).pool.shape }
    ensures frame { WriterHasFrame (seen D.state rig.new) pairs.new }
    ensures answers { AnswersTo (seen D.state rig.old) (seen D.state rig.new)
        points pieces pairs.old pairs.new result }
{
    let mut area = rig.lend_area();
    let done = leaf_by(rig, points, pieces, &mut area, pairs);
    rig.give_area(area);
    done
}

/// The same with an area.
fn leaf_by<D: Device>(
    rig: &mut Rig<'_, D>,
    points: Chain,
    pieces: Chain,
    area: &mut Area,
    pairs: &mut Writer,
) -> Result<(), EmFault>
    requires call { IsCall (seen D.state rig.old) points pieces pairs.old }
    requires some { 0 < points.count }
    requires pieces { 0 < pieces.count }
    requires fits { points.count ≤ length area.old }
    requires free { 2 < (seen D.state rig.old).pool.free }
    ensures frame { WriterHasFrame (seen D.state rig.new) pairs.new }
    ensures len { length area.new ≡ length area.old }
    ensures answers { AnswersTo (seen D.state rig.old) (seen D.state rig.new)
        points pieces pairs.old pairs.new result }
{
    let number = points.len() as usize;
    take_load(rig, points, area)?;
    put_in_order(area, number);
    report_pieces(rig, pieces, &area.records()[..number], pairs)
}

/// Writes the pairs of a load with the pieces of a chain, whose blocks are released.
fn report_pieces<D: Device>(
    rig: &mut Rig<'_, D>,
    pieces: Chain,
    load: &[Record],
    pairs: &mut Writer,
) -> Result<(), EmFault>
    requires sound { Sound (seen D.state rig.old) }
    requires can { CanReportPieces (seen D.state rig.old) pieces pairs.old }
    requires some { 0 < pieces.count }
    requires ascends { IsAscending load.now }
    requires free { 1 < (seen D.state rig.old).pool.free }
    ensures frame { WriterHasFrame (seen D.state rig.new) pairs.new }
    ensures reports { ReportsPiecesTo load.now (seen D.state rig.old) (seen D.state rig.new)
        pieces pairs.old pairs.new result }
{
    let count = pieces.len();
    let mut reader = Reader::taking(rig, pieces);
    let done = add_pieces(rig, &mut reader, count, load, pairs);
    reader.abandon(rig);
    done
}

/// The same with the `count` pieces that a reader has left.
fn add_pieces<D: Device>(
    rig: &mut Rig<'_, D>,
    reader: &mut Reader,
    count: u64,
    load: &[Record],
    pairs: &mut Writer,
) -> Result<(), EmFault>
    requires sound { Sound (seen D.state rig.old) }
    requires beside { TakesBeside (seen D.state rig.old) reader.old pairs.old }
    requires count { count ≡ reader.old.count }
    requires ascends { IsAscending load.now }
    requires free { 0 < (seen D.state rig.old).pool.free }
    ensures reader_frame { ReaderHasFrame (seen D.state rig.new) reader.new }
    ensures frame { WriterHasFrame (seen D.state rig.new) pairs.new }
    ensures takes { TakesPiecesTo load.now count (seen D.state rig.old) (seen D.state rig.new)
        reader.old reader.new pairs.old pairs.new (reader_items (seen D.state rig.old) reader.old)
        result }
{
    for _ in 0..count {
        add_taken(rig, reader, load, pairs)?;
    }
    Ok(())
}

/// Reads the next piece, and writes its pairs with a load.
fn add_taken<D: Device>(
    rig: &mut Rig<'_, D>,
    reader: &mut Reader,
    load: &[Record],
    pairs: &mut Writer,
) -> Result<(), EmFault>
    requires sound { Sound (seen D.state rig.old) }
    requires beside { TakesBeside (seen D.state rig.old) reader.old pairs.old }
    requires left { 0 < reader.old.count }
    requires ascends { IsAscending load.now }
    requires free { 0 < (seen D.state rig.old).pool.free }
    ensures reader_frame { ReaderHasFrame (seen D.state rig.new) reader.new }
    ensures frame { WriterHasFrame (seen D.state rig.new) pairs.new }
    ensures takes { TakesPiecesTo load.now 1 (seen D.state rig.old) (seen D.state rig.new)
        reader.old reader.new pairs.old pairs.new (reader_items (seen D.state rig.old) reader.old)
        result }
{
    let Some(piece) = reader.next(rig)? else {
        unreachable!()
    };
    add_piece(rig, load, piece, pairs)
}

/// Writes the pairs of a piece with the points of a load that lie in it and were asked after it.
fn add_piece<D: Device>(
    rig: &mut Rig<'_, D>,
    load: &[Record],
    piece: Record,
    pairs: &mut Writer,
) -> Result<(), EmFault>
    requires sound { Sound (seen D.state rig.old) }
    requires is { IsPairs (seen D.state rig.old) pairs.old }
    requires ascends { IsAscending load.now }
    requires free { 0 < (seen D.state rig.old).pool.free }
    ensures frame { WriterHasFrame (seen D.state rig.new) pairs.new }
    ensures writes { WritesTo 0 (leaf_pairs load.now piece)
        (seen D.state rig.old) (seen D.state rig.new) pairs.old pairs.new result }
{
    for k in first_from(load, piece.a)..load.len() {
        if piece.b < load[k].a {
            return Ok(());
        }
        add_later(rig, load[k], piece, pairs)?;
    }
    Ok(())
}

/// The first place of a load of which the point isn't below a value, or its end.
fn first_from(load: &[Record], low: u64) -> usize
    requires ascends { IsAscending load.now }
    ensures { StandsFrom low load.now result }
{
    load.partition_point(|point| point.a < low)
}

/// Writes the pair of a piece and a point that lies in it, if the point was asked after it.
fn add_later<D: Device>(
    rig: &mut Rig<'_, D>,
    point: Record,
    piece: Record,
    pairs: &mut Writer,
) -> Result<(), EmFault>
    requires sound { Sound (seen D.state rig.old) }
    requires is { IsPairs (seen D.state rig.old) pairs.old }
    requires free { 0 < (seen D.state rig.old).pool.free }
    ensures frame { WriterHasFrame (seen D.state rig.new) pairs.new }
    ensures writes { WritesTo 0 (later_pair piece point)
        (seen D.state rig.old) (seen D.state rig.new) pairs.old pairs.new result }
{
    if piece.c < point.c {
        append_pair(rig, point.b, piece.c, pairs)
    } else {
        Ok(())
    }
}
