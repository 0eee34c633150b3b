//! The pieces of a node, dealt to the strips into which they go down and to the multislabs that they span:
//!
//!     strips   |  0  |  1  |  2  |
//!     piece       [----------]           goes down into 0 and 2, and is listed at the multislab of 1 alone
//!     piece    [------------]            is listed at 0..1, and goes down into 2
//!
//! The members of a group: first one for each strip, then one for each multislab, as `slabs_of` has them.
//! Kept here: each list has its pieces in order of arrival; the pieces' blocks are released. Left to the
//! model: that each pair comes once.

ghost use Rattle.std.specs.Prelude.{◌≡◌, ◌+◌, ◌*◌, ◌<◌, ◌≤◌, ◌^◌, [], ◌∷◌, false, true, length, map, take, IsTrue, OnOk};
ghost use Rattle.em_record.specs.Shape.{fan_of};
ghost use Rattle.em_frames.specs.Pool.{SameFrames, places_in};
ghost use Rattle.em_space.specs.Held.{Apart};
ghost use Rattle.em_space.specs.Rig.{Sound};
ghost use Rattle.em_space.specs.Seen.{seen};
ghost use Rattle.em_chain.specs.Chain.{chain_blocks};
ghost use Rattle.em_chain.specs.Reader.{ReaderHasFrame, reader_items};
ghost use Rattle.em_chain.specs.Writers.{HasRack, IsGroup, MemberCanGrow, group_blocks, member_at, members_in};
ghost use Rattle.em_segment_model.specs.Places.{down_places, places_of, slab_place};
ghost use Rattle.em_segment_model.specs.Points.{interval_in};
ghost use Rattle.em_segment_model.specs.Sizes.{fan_root};
ghost use Rattle.em_segment_model.specs.Slabs as slabs;
ghost use Rattle.em_segment_model.specs.Slabs.{slabs_from};
ghost use Rattle.em_segment_model.specs.Spans.{strip_at};
ghost use Rattle.em_segment_parts.specs.Chains.{IsPackedChain};
ghost use Rattle.em_segment_parts.specs.Deals.{ArePacked, CanDeal, DealsAllTo, DealsBeside, DealsChainTo, DealsEachTo, DealsTo, GroupDealsTo, HasMembers, MovesFrames, OpensGroup, TakesListsTo};

use crate::list::Listed;
use arrayvec::ArrayVec;
use em_chain::{Chain, Reader, Writers};
use em_frames::Device;
use em_record::Record;
use em_segment_model::{Span, place_of, slab_count, slab_of};
use em_space::{EmFault, Rig};

/// The lists of a node: for each strip the pieces that go down into it, and those of each multislab.
#[derive(Drop)]
pub struct Lists {
    pub down: ArrayVec<Listed, 16>,
    pub slabs: ArrayVec<Listed, 136>,
}

/// Deals pieces to the lists of a node with these strips.
pub fn deal_pieces<D: Device>(
    rig: &mut Rig<'_, D>,
    spans: &[Span],
    pieces: Chain,
) -> Result<Lists, EmFault>
    requires sound { Sound (seen D.state rig.old) }
    requires pieces { IsPackedChain (seen D.state rig.old) pieces }
    requires some { 0 < pieces.count }
    requires strips { length spans.now ≤ fan_root (seen D.state rig.old).pool.shape }
    requires free { 2 * fan_of (seen D.state rig.old).pool.shape + 3 ≤ (seen D.state rig.old).pool.free }
    requires rack { (seen D.state rig.old).pool.rack_out ≡ false }
    ensures deals { DealsAllTo spans.now (seen D.state rig.old) (seen D.state rig.new) pieces result }
{
    let mut group = open_group(rig, spans.len() + slab_count(spans.len()));
    match deal_to(rig, spans, pieces, &mut group) {
        Ok(lists) => {
            group.end(rig);
            Ok(lists)
        }
        Err(fault) => {
            group.abandon(rig);
            Err(fault)
        }
    }
}

/// A group of empty lists.
fn open_group<D: Device>(rig: &mut Rig<'_, D>, members: usize) -> Writers
    requires sound { Sound (seen D.state rig.old) }
    requires room { members ≤ places_in (seen D.state rig.old).pool.shape }
    requires free { members + 1 < (seen D.state rig.old).pool.free }
    requires rack { (seen D.state rig.old).pool.rack_out ≡ false }
    ensures opens { OpensGroup members (seen D.state rig.old) (seen D.state rig.new) result }
    ensures out { (seen D.state rig.new).pool.rack_out ≡ true }
{
    let mut group = Writers::new(rig);
    for _ in 0..members {
        group.add(rig, Chain::empty());
    }
    group
}

/// The same with a group, which has no member left if all went well.
fn deal_to<D: Device>(
    rig: &mut Rig<'_, D>,
    spans: &[Span],
    pieces: Chain,
    group: &mut Writers,
) -> Result<Lists, EmFault>
    requires sound { Sound (seen D.state rig.old) }
    requires pieces { IsPackedChain (seen D.state rig.old) pieces }
    requires some { 0 < pieces.count }
    requires group { CanDeal (seen D.state rig.old) spans.now group.old }
    requires apart { IsTrue (seen D.state rig.old).device.told
        → Apart (chain_blocks (seen D.state rig.old) pieces)
        (group_blocks (seen D.state rig.old) group.old) }
    requires free { 1 < (seen D.state rig.old).pool.free }
    ensures rack { HasRack (seen D.state rig.new) group.new }
    ensures frames { MovesFrames (length group.old.words.items) (length group.new.words.items)
        (seen D.state rig.old).pool (seen D.state rig.new).pool }
    ensures none { OnOk result (length group.new.words.items ≡ 0) }
    ensures deals { GroupDealsTo spans.now (seen D.state rig.old) (seen D.state rig.new)
        pieces result }
{
    deal_all(rig, spans, pieces, group)?;
    let slabs = take_slabs(rig, group, spans.len())?;
    let down = take_down(rig, group)?;
    Ok(Lists { down, slabs })
}

/// Reads all pieces, releases their blocks, and appends each to its members.
fn deal_all<D: Device>(
    rig: &mut Rig<'_, D>,
    spans: &[Span],
    pieces: Chain,
    group: &mut Writers,
) -> Result<(), EmFault>
    requires sound { Sound (seen D.state rig.old) }
    requires pieces { IsPackedChain (seen D.state rig.old) pieces }
    requires some { 0 < pieces.count }
    requires group { CanDeal (seen D.state rig.old) spans.now group.old }
    requires apart { IsTrue (seen D.state rig.old).device.told
        → Apart (chain_blocks (seen D.state rig.old) pieces)
        (group_blocks (seen D.state rig.old) group.old) }
    requires free { 1 < (seen D.state rig.old).pool.free }
    ensures rack { HasRack (seen D.state rig.new) group.new }
    ensures len { length group.new.words.items ≡ length group.old.words.items }
    ensures frames { SameFrames (seen D.state rig.old).pool (seen D.state rig.new).pool }
    ensures deals { DealsChainTo spans.now (seen D.state rig.old) (seen D.state rig.new)
        pieces group.old group.new result }
{
    let count = pieces.len();
    let mut reader = Reader::taking(rig, pieces);
    let dealt = deal_each(rig, spans, &mut reader, count, group);
    reader.abandon(rig);
    dealt
}

/// The same by a reader with `count` pieces left.
fn deal_each<D: Device>(
    rig: &mut Rig<'_, D>,
    spans: &[Span],
    reader: &mut Reader,
    count: u64,
    group: &mut Writers,
) -> Result<(), EmFault>
    requires sound { Sound (seen D.state rig.old) }
    requires beside { DealsBeside (seen D.state rig.old) reader.old group.old }
    requires group { CanDeal (seen D.state rig.old) spans.now group.old }
    requires count { count ≡ reader.old.count }
    requires few { count ≤ 2 ^ 40 }
    requires free { 0 < (seen D.state rig.old).pool.free }
    ensures frame { ReaderHasFrame (seen D.state rig.new) reader.new }
    ensures rack { HasRack (seen D.state rig.new) group.new }
    ensures len { length group.new.words.items ≡ length group.old.words.items }
    ensures deals { DealsEachTo count spans.now (seen D.state rig.old) (seen D.state rig.new)
        reader.old reader.new group.old group.new (reader_items (seen D.state rig.old) reader.old)
        result }
{
    for _ in 0..count {
        deal_next(rig, spans, reader, group)?;
    }
    Ok(())
}

/// Reads the next piece and appends it to its members.
fn deal_next<D: Device>(
    rig: &mut Rig<'_, D>,
    spans: &[Span],
    reader: &mut Reader,
    group: &mut Writers,
) -> Result<(), EmFault>
    requires sound { Sound (seen D.state rig.old) }
    requires beside { DealsBeside (seen D.state rig.old) reader.old group.old }
    requires members { HasMembers (length spans.now) (length spans.now + 1) group.old }
    requires left { 0 < reader.old.count }
    requires free { 0 < (seen D.state rig.old).pool.free }
    ensures frame { ReaderHasFrame (seen D.state rig.new) reader.new }
    ensures rack { HasRack (seen D.state rig.new) group.new }
    ensures len { length group.new.words.items ≡ length group.old.words.items }
    ensures deals { DealsEachTo 1 spans.now (seen D.state rig.old) (seen D.state rig.new)
        reader.old reader.new group.old group.new
        (take 1 (reader_items (seen D.state rig.old) reader.old)) result }
{
    let Some(piece) = reader.next(rig)? else {
        unreachable!()
    };
    deal_piece(rig, spans, piece, group)
}

/// Appends a piece to its members.
fn deal_piece<D: Device>(
    rig: &mut Rig<'_, D>,
    spans: &[Span],
    piece: Record,
    group: &mut Writers,
) -> Result<(), EmFault>
    requires sound { Sound (seen D.state rig.old) }
    requires is { IsGroup (seen D.state rig.old) group.old }
    requires members { HasMembers (length spans.now) (length spans.now + 1) group.old }
    requires free { 0 < (seen D.state rig.old).pool.free }
    ensures rack { HasRack (seen D.state rig.new) group.new }
    ensures len { length group.new.words.items ≡ length group.old.words.items }
    ensures deals { DealsTo piece (places_of spans.now piece) (seen D.state rig.old)
        (seen D.state rig.new) group.old group.new result }
{
    deal_slab(rig, spans, piece, group)?;
    deal_down(rig, spans, piece, group)
}

/// Appends a piece to the member of its multislab, if it spans a strip.
fn deal_slab<D: Device>(
    rig: &mut Rig<'_, D>,
    spans: &[Span],
    piece: Record,
    group: &mut Writers,
) -> Result<(), EmFault>
    requires sound { Sound (seen D.state rig.old) }
    requires is { IsGroup (seen D.state rig.old) group.old }
    requires members { HasMembers (length spans.now) 1 group.old }
    requires free { 0 < (seen D.state rig.old).pool.free }
    ensures rack { HasRack (seen D.state rig.new) group.new }
    ensures len { length group.new.words.items ≡ length group.old.words.items }
    ensures deals { DealsTo piece (slab_place (length spans.now)
        (slabs.slab_of (map strip_at spans.now) (interval_in piece))) (seen D.state rig.old)
        (seen D.state rig.new) group.old group.new result }
{
    let slab = slab_of(spans, piece.a, piece.b);
    if slab.width == 0 {
        return Ok(());
    }
    let place = place_of(spans.len(), slab.first, slab.width);
    group.append(rig, spans.len() + place, piece)
}

/// Appends a piece to the member of each strip into which it goes down.
fn deal_down<D: Device>(
    rig: &mut Rig<'_, D>,
    spans: &[Span],
    piece: Record,
    group: &mut Writers,
) -> Result<(), EmFault>
    requires sound { Sound (seen D.state rig.old) }
    requires is { IsGroup (seen D.state rig.old) group.old }
    requires members { HasMembers (length spans.now) (length spans.now) group.old }
    requires free { 0 < (seen D.state rig.old).pool.free }
    ensures rack { HasRack (seen D.state rig.new) group.new }
    ensures len { length group.new.words.items ≡ length group.old.words.items }
    ensures deals { DealsTo piece (down_places 0 spans.now piece) (seen D.state rig.old)
        (seen D.state rig.new) group.old group.new result }
{
    for k in 0..spans.len() {
        deal_strip(rig, spans[k], k, piece, group)?;
    }
    Ok(())
}

/// Appends a piece to the member of a strip, if it goes down into that strip.
fn deal_strip<D: Device>(
    rig: &mut Rig<'_, D>,
    span: Span,
    k: usize,
    piece: Record,
    group: &mut Writers,
) -> Result<(), EmFault>
    requires sound { Sound (seen D.state rig.old) }
    requires is { IsGroup (seen D.state rig.old) group.old }
    requires within { k < length group.old.words.items }
    requires room { MemberCanGrow (member_at group.old k) }
    requires free { 0 < (seen D.state rig.old).pool.free }
    ensures rack { HasRack (seen D.state rig.new) group.new }
    ensures len { length group.new.words.items ≡ length group.old.words.items }
    ensures deals { DealsTo piece (down_places k (span ∷ []) piece) (seen D.state rig.old)
        (seen D.state rig.new) group.old group.new result }
{
    if span.takes(piece.a, piece.b) {
        group.append(rig, k, piece)
    } else {
        Ok(())
    }
}

/// Takes the members of the multislabs of `count` strips out of a group, in which they stand last.
fn take_slabs<D: Device>(
    rig: &mut Rig<'_, D>,
    group: &mut Writers,
    count: usize,
) -> Result<ArrayVec<Listed, 136>, EmFault>
    requires sound { Sound (seen D.state rig.old) }
    requires is { IsGroup (seen D.state rig.old) group.old }
    requires packed { ArePacked (seen D.state rig.old) (members_in group.old) }
    requires few { count ≤ 16 }
    requires within { length (slabs_from 0 count) ≤ length group.old.words.items }
    requires free { 0 < (seen D.state rig.old).pool.free }
    ensures rack { HasRack (seen D.state rig.new) group.new }
    ensures frames { MovesFrames (length group.old.words.items) (length group.new.words.items)
        (seen D.state rig.old).pool (seen D.state rig.new).pool }
    ensures takes { TakesListsTo (length (slabs_from 0 count)) (seen D.state rig.old)
        (seen D.state rig.new) group.old group.new result }
{
    let mut slabs = ArrayVec::new();
    for _ in 0..slab_count(count) {
        let chain = group.take_last(rig)?;
        slabs.insert(0, Listed { chain });
    }
    Ok(slabs)
}

/// Takes all members out of a group.
fn take_down<D: Device>(
    rig: &mut Rig<'_, D>,
    group: &mut Writers,
) -> Result<ArrayVec<Listed, 16>, EmFault>
    requires sound { Sound (seen D.state rig.old) }
    requires is { IsGroup (seen D.state rig.old) group.old }
    requires packed { ArePacked (seen D.state rig.old) (members_in group.old) }
    requires few { length group.old.words.items ≤ 16 }
    requires free { 0 < (seen D.state rig.old).pool.free }
    ensures rack { HasRack (seen D.state rig.new) group.new }
    ensures frames { MovesFrames (length group.old.words.items) (length group.new.words.items)
        (seen D.state rig.old).pool (seen D.state rig.new).pool }
    ensures takes { TakesListsTo (length group.old.words.items) (seen D.state rig.old)
        (seen D.state rig.new) group.old group.new result }
{
    let mut down = ArrayVec::new();
    for _ in 0..group.count() {
        let chain = group.take_last(rig)?;
        down.insert(0, Listed { chain });
    }
    Ok(down)
}
