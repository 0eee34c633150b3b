//! The points of a node, cut by place into strips of `most` points each:
//!
//!     points   2 5 5 5 5 5 8 9          most 3
//!     strips  [2 5 5][5 5 5][8 9]       spans 2..5, 5..5 and 8..9: neighbours may share a value
//!
//! Kept here: each strip has a point, and fewer than the node; the points' blocks are released as they
//! are read.

ghost use Rattle.std.specs.Prelude.{◌≡◌, ◌*◌, ◌<◌, ◌≤◌, ◌^◌, true, length};
ghost use Rattle.em_space.specs.Rig.{Sound};
ghost use Rattle.em_space.specs.Seen.{seen};
ghost use Rattle.em_chain.specs.Reader.{IsReader, ReaderHasFrame};
ghost use Rattle.em_chain.specs.Writer.{WriterHasFrame};
ghost use Rattle.em_segment_model.specs.Sizes.{fan_root};
ghost use Rattle.em_segment_parts.specs.Chains.{IsPackedChain};
ghost use Rattle.em_segment_parts.specs.Splits.{CanCopy, CanSplit, CopiesOneTo, CopiesTo, SplitsOffTo, SplitsSomeTo, SplitsTo};

use crate::list::Listed;
use arrayvec::ArrayVec;
use em_chain::{Chain, Reader, Writer};
use em_frames::Device;
use em_segment_model::Span;
use em_space::{EmFault, Rig};

/// The strips of a node: the values of each strip's first point and of its last one, and its points.
#[derive(Drop)]
pub struct Strips {
    pub spans: ArrayVec<Span, 16>,
    pub points: ArrayVec<Listed, 16>,
}

/// Cuts points into strips of `most` points, the last of which may have fewer. Each block of theirs is
/// read and released by two moves at most; a strip's are written.
pub fn split<D: Device>(rig: &mut Rig<'_, D>, points: Chain, most: u64) -> Result<Strips, EmFault>
    requires sound { Sound (seen D.state rig.old) }
    requires points { IsPackedChain (seen D.state rig.old) points }
    requires some { 0 < points.count }
    requires most { 0 < most }
    requires strips { points.count ≤ fan_root (seen D.state rig.old).pool.shape * most }
    requires free { 3 < (seen D.state rig.old).pool.free }
    ensures splits { SplitsTo most (seen D.state rig.old) (seen D.state rig.new) points result }
{
    let count = points.len();
    let mut reader = Reader::taking(rig, points);
    let strips = split_all(rig, &mut reader, count, most);
    reader.abandon(rig);
    strips
}

/// The same by a reader with `count` points left.
fn split_all<D: Device>(
    rig: &mut Rig<'_, D>,
    reader: &mut Reader,
    count: u64,
    most: u64,
) -> Result<Strips, EmFault>
    requires sound { Sound (seen D.state rig.old) }
    requires is { IsReader (seen D.state rig.old) reader.old }
    requires taking { reader.old.taking ≡ true }
    requires count { count ≡ reader.old.count }
    requires few { count ≤ 2 ^ 40 }
    requires most { 0 < most }
    requires strips { count ≤ fan_root (seen D.state rig.old).pool.shape * most }
    requires free { 2 < (seen D.state rig.old).pool.free }
    ensures frame { ReaderHasFrame (seen D.state rig.new) reader.new }
    ensures splits { SplitsSomeTo most (seen D.state rig.old) (seen D.state rig.new)
        reader.old reader.new result }
{
    let mut strips = Strips {
        spans: ArrayVec::new(),
        points: ArrayVec::new(),
    };
    let mut left = count;
    while left > 0 {
        let number = left.min(most);
        split_next(rig, reader, number, &mut strips)?;
        left -= number;
    }
    Ok(strips)
}

/// Copies the next points as one strip more.
fn split_next<D: Device>(
    rig: &mut Rig<'_, D>,
    reader: &mut Reader,
    number: u64,
    strips: &mut Strips,
) -> Result<(), EmFault>
    requires sound { Sound (seen D.state rig.old) }
    requires can { CanSplit (seen D.state rig.old) reader.old strips.old }
    requires some { 0 < number }
    requires within { number ≤ reader.old.count }
    requires few { number ≤ 2 ^ 40 }
    requires room { length strips.old.points.items < 16 }
    requires free { 2 < (seen D.state rig.old).pool.free }
    ensures frame { ReaderHasFrame (seen D.state rig.new) reader.new }
    ensures splits { SplitsOffTo number (seen D.state rig.old) (seen D.state rig.new)
        reader.old reader.new strips.old strips.new result }
{
    let mut writer = Writer::new(rig);
    match copy_strip(rig, reader, number, &mut writer) {
        Ok(span) => {
            let chain = writer.finish(rig)?;
            strips.spans.push(span);
            strips.points.push(Listed { chain });
            Ok(())
        }
        Err(fault) => {
            writer.abandon(rig);
            Err(fault)
        }
    }
}

/// Copies the next points, and answers the values of the first and the last of them.
fn copy_strip<D: Device>(
    rig: &mut Rig<'_, D>,
    reader: &mut Reader,
    number: u64,
    writer: &mut Writer,
) -> Result<Span, EmFault>
    requires sound { Sound (seen D.state rig.old) }
    requires can { CanCopy (seen D.state rig.old) reader.old writer.old }
    requires empty { writer.old.count ≡ 0 }
    requires some { 0 < number }
    requires within { number ≤ reader.old.count }
    requires few { number ≤ 2 ^ 40 }
    requires free { 0 < (seen D.state rig.old).pool.free }
    ensures reader_frame { ReaderHasFrame (seen D.state rig.new) reader.new }
    ensures frame { WriterHasFrame (seen D.state rig.new) writer.new }
    ensures copies { CopiesTo number (seen D.state rig.old) (seen D.state rig.new)
        reader.old reader.new writer.old writer.new result }
{
    let first = copy_point(rig, reader, writer)?;
    let mut last = first;
    for _ in 1..number {
        last = copy_point(rig, reader, writer)?;
    }
    Ok(Span { first, last })
}

/// Copies the next point, and answers its value.
fn copy_point<D: Device>(
    rig: &mut Rig<'_, D>,
    reader: &mut Reader,
    writer: &mut Writer,
) -> Result<u64, EmFault>
    requires sound { Sound (seen D.state rig.old) }
    requires can { CanCopy (seen D.state rig.old) reader.old writer.old }
    requires some { 0 < reader.old.count }
    requires few { writer.old.count < 2 ^ 40 }
    requires free { 0 < (seen D.state rig.old).pool.free }
    ensures reader_frame { ReaderHasFrame (seen D.state rig.new) reader.new }
    ensures frame { WriterHasFrame (seen D.state rig.new) writer.new }
    ensures copies { CopiesOneTo (seen D.state rig.old) (seen D.state rig.new)
        reader.old reader.new writer.old writer.new result }
{
    let Some(point) = reader.next(rig)? else {
        unreachable!()
    };
    writer.append(rig, point)?;
    Ok(point.a)
}
