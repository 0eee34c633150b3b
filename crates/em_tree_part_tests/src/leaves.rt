//! Loads of a leaf. A block has 127 records, a load at most 1024 operations, and a leaf at most
//! 4096 records.
ghost use Rattle.std.specs.Prelude.{◌≡◌, ◌<◌, ◌≤◌, ◌^◌, length};
ghost use Rattle.em_frames.specs.Pool.{GivenFrames};
ghost use Rattle.em_space.specs.Rig.{Sound};
ghost use Rattle.em_space.specs.Seen.{seen};
ghost use Rattle.em_chain.specs.Chain.{IsChain};
ghost use Rattle.em_chain.specs.Writer.{IsWriter};
ghost use Rattle.em_tree_part_tests.specs.Ready.{IsReady, IsSmall, Keeps};

use crate::blocks::record;
use em_chain::{Chain, Writer};
use em_devices::{Cost, Quiet, ended, opened, scans, write};
use em_frames::{Area, Device};
use em_leaf::{LeafChange, apply_load};
use em_record::Record;
use em_settle::{BagSettle, MapSettle, Settle};
use em_space::{EmFault, Rig};
use std::alloc::{AllocError, Global};
use std::test::Fail;

/// The records of the low and of the high part, the least key of this one, and whether the low part
/// and the answers are what they should be.
type Left = (u64, u64, Record, bool, bool);

/// What a leaf has, the operations over it, and what the low part and the answers should be then.
#[derive(Drop)]
struct Case<'a> {
    stored: &'a [Record],
    ops: &'a [Record],
    lows: &'a [Record],
    given: &'a [Record],
}

/// Finishes the answers, and compares them and the low part with what they should be.
#[tactic(auto, using(crate::proofs::Ready::is_view))]
fn ended_with<D: Device>(
    rig: &mut Rig<'_, D>,
    change: LeafChange,
    answers: Writer,
    case: &Case<'_>,
) -> Result<Left, EmFault>
    requires small { IsSmall (seen D.state rig.old) }
    requires low { IsChain (seen D.state rig.old) change.low }
    requires is { IsWriter (seen D.state rig.old) answers }
    ensures sound { Sound (seen D.state rig.new) }
    ensures told { (seen D.state rig.new).device.told ≡ (seen D.state rig.old).device.told }
    ensures blocks { (seen D.state rig.new).blocks ≡ (seen D.state rig.old).blocks }
    ensures frames { GivenFrames 1 (seen D.state rig.old).pool (seen D.state rig.new).pool }
{
    let chain = answers.finish(rig)?;
    let same = scans(rig, &change.low, case.lows)?;
    let told = scans(rig, &chain, case.given)?;
    let (least, high) = match change.high {
        Some((least, high)) => (least, high.len()),
        None => (Record::ZERO, 0),
    };
    Ok((change.low.len(), high, least, same, told))
}

/// Settles the operations of a case over a leaf's chain, with an area.
fn answered<D: Device, S: Settle>(
    rig: &mut Rig<'_, D>,
    settle: &S,
    area: &mut Area,
    chain: Chain,
    case: &Case<'_>,
) -> Result<Left, EmFault>
    requires small { IsSmall (seen D.state rig.old) }
    requires ready { S.IsReady settle.now }
    requires is { IsChain (seen D.state rig.old) chain }
    requires count { chain.count ≤ 4096 }
    requires area { length area.old ≡ 1024 }
    requires few { length case.now.ops.now ≤ 1024 }
    requires more { 41 ≤ (seen D.state rig.old).pool.free }
    ensures keeps { Keeps (seen D.state rig.old) (seen D.state rig.new) }
    ensures area { length area.new ≡ 1024 }
{
    area.records_mut()[..case.ops.len()].copy_from_slice(case.ops);
    let mut answers = Writer::new(rig);
    match apply_load(rig, settle, chain, area, case.ops.len(), &mut answers) {
        Ok(change) => ended_with(rig, change, answers, case),
        Err(fault) => {
            answers.abandon(rig);
            Err(fault)
        }
    }
}

/// Does that with a chain that is written first, and an area that the rig lends.
#[tactic(auto, using(crate::proofs::Ready::kept))]
fn left_of<D: Device, S: Settle>(
    rig: &mut Rig<'_, D>,
    settle: &S,
    case: &Case<'_>,
) -> Result<Left, EmFault>
    requires ready { IsReady (seen D.state rig.old) }
    requires settles { S.IsReady settle.now }
    requires stored { length case.now.stored.now ≤ 4096 }
    requires ops { length case.now.ops.now ≤ 1024 }
    ensures keeps { Keeps (seen D.state rig.old) (seen D.state rig.new) }
{
    let chain = write(rig, case.stored)?;
    let mut area = rig.lend_area();
    let left = answered(rig, settle, &mut area, chain, case);
    rig.give_area(area);
    left
}

/// Does that over a new rig of this many blocks, and answers what it costs. More records or operations aren't tried.
#[tactic(auto, using(crate::proofs::Ready::kept, crate::proofs::Ready::ready_opened, crate::proofs::Ready::whole_ready))]
fn run<S: Settle>(
    alloc: Global,
    blocks: u64,
    settle: &S,
    case: &Case<'_>,
) -> Result<(Result<Left, EmFault>, Cost), Fail>
    requires { S.IsReady settle.now }
{
    if case.stored.len() > 4096 || case.ops.len() > 1024 {
        return Ok((Ok((0, 0, Record::ZERO, false, false)), (0, 0, 0, 0)));
    }
    let mut device = Quiet::new(alloc, &[])?;
    let mut rig = opened(alloc, blocks.max(1).min(1000), &mut device)?;
    let left = left_of(&mut rig, settle, case);
    Ok((left, ended(rig)))
}

/// Puts of the keys from `first` on, as many as `count`, in falling order of their keys.
fn puts(alloc: Global, first: u64, count: u64) -> Result<Vec<Record>, AllocError> {
    let mut records = Vec::new(alloc);
    for number in 0..count {
        let key = first.saturating_add(count.saturating_sub(number).saturating_sub(1));
        records.push(record(key, number.saturating_add(1), 0, key))?;
    }
    Ok(records)
}

/// The stored records of the keys from one on, below another.
pub fn kept(alloc: Global, first: u64, end: u64) -> Result<Vec<Record>, AllocError> {
    let mut records = Vec::new(alloc);
    for key in first..end {
        records.push(record(key, 0, 0, key))?;
    }
    Ok(records)
}

/// The operations come in any order of the keys; those of a key in the order of their numbers.
/// Nothing is stored of 7: it is put and removed. One block of answers and one of the leaf are
/// stored, and each is read once: 4 moves. At most 11 frames are out: the area counts as 8, and the
/// writer of answers, the reader of the old leaf and the writer of a part have one each.
#[test]
fn operations_of_a_key_are_settled_in_order(rt: HostRuntime) -> Result<(), Fail> {
    let case = Case {
        stored: &[],
        ops: &[
            record(7, 2, 0, 30),
            record(5, 1, 0, 10),
            record(9, 6, 2, 0),
            record(5, 3, 2, 0),
            record(7, 4, 1, 0),
            record(5, 5, 0, 11),
            record(7, 7, 2, 0),
            record(5, 8, 2, 0),
        ],
        lows: &[record(5, 0, 0, 11)],
        given: &[
            record(3, 1, 10, 0),
            record(8, 1, 11, 0),
            record(7, 0, 0, 0),
            record(6, 0, 0, 0),
        ],
    };
    let ended = run(rt.alloc(), 200, &MapSettle {}, &case)?;
    assert_eq!(rt;
        ended,
        (Ok((1, 0, Record::ZERO, true, true)), (2, 2, 4, 11))
    );
    Ok(())
}

/// 1024 puts of new keys over some records of a leaf. Answers what is left, if the low part has this many records.
fn filled(alloc: Global, count: u64, low: u64) -> Result<Result<Left, EmFault>, Fail> {
    let stored = kept(alloc, 0, count)?;
    let ops = puts(alloc, count, 1024)?;
    let lows = kept(alloc, 0, low)?;
    let case = Case {
        stored: stored.as_slice(),
        ops: ops.as_slice(),
        lows: lows.as_slice(),
        given: &[],
    };
    let (left, _cost) = run(alloc, 200, &MapSettle {}, &case)?;
    Ok(left)
}

/// With 1024 more 3072 records fill a leaf. With one record more the low part has 2049 records, and the high one
/// 2048.
#[test]
fn a_leaf_of_4097_records_is_halved(rt: HostRuntime) -> Result<(), Fail> {
    let full = filled(rt.alloc(), 3072, 4096)?;
    assert_eq!(rt; full, Ok((4096, 0, Record::ZERO, true, true)));
    let halved = filled(rt.alloc(), 3073, 2049)?;
    assert_eq!(rt; halved, Ok((2049, 2048, record(2049, 0, 0, 0), true, true)));
    Ok(())
}

/// A bag keeps each of them, and answers nothing. The leaf's block is stored, and read once: 2
/// moves. The writer of answers and the reader have a frame though they have no block: 8 + 1 + 1 +
/// 1 = 11 are out.
#[test]
fn a_bag_keeps_all_records(rt: HostRuntime) -> Result<(), Fail> {
    let case = Case {
        stored: &[],
        ops: &[record(5, 2, 1, 0), record(3, 1, 9, 9), record(5, 1, 8, 0)],
        lows: &[record(3, 1, 9, 9), record(5, 1, 8, 0), record(5, 2, 1, 0)],
        given: &[],
    };
    let ended = run(rt.alloc(), 200, &BagSettle {}, &case)?;
    assert_eq!(rt;
        ended,
        (Ok((3, 0, Record::ZERO, true, true)), (1, 1, 2, 11))
    );
    Ok(())
}

/// Removes the first keys of a leaf with some records, on a device of this many blocks.
fn removed(
    alloc: Global,
    blocks: u64,
    count: u64,
    gone: u64,
) -> Result<(Result<Left, EmFault>, Cost), Fail> {
    let stored = kept(alloc, 0, count)?;
    let lows = kept(alloc, gone, count)?;
    let mut ops = Vec::new(alloc);
    for key in 0..gone {
        ops.push(record(key, 1, 1, 0))?;
    }
    let case = Case {
        stored: stored.as_slice(),
        ops: ops.as_slice(),
        lows: lows.as_slice(),
        given: &[],
    };
    run(alloc, blocks, &MapSettle {}, &case)
}

/// All blocks of the device are the leaf's, and fewer records result. A block of the leaf is freed with its last record.
///
/// - Of 127 records in one block none or one, the last, is left. None needs no block; the last one is read, which frees
///   its block, before it is written. 1 move writes the leaf's block, and 1 loads it. The one that is left is stored and
///   read by 2.
/// - Of 200 records in two blocks the 73 of the second one are left, which go into the freed first one. The leaf's blocks
///   are written and loaded by 4 moves, and the new one is stored and read by 2.
/// - If two of one block are left, the first of them is written before the last one is read. It needs a block, and all
///   are in use: 2 moves, as above. Frames are out as above.
#[test]
fn a_load_that_leaves_fewer_records_needs_no_free_block(rt: HostRuntime) -> Result<(), Fail> {
    for (blocks, count, gone, cost) in [
        (1, 127, 127, (0, 1, 2, 11)),
        (1, 127, 126, (1, 1, 4, 11)),
        (2, 200, 127, (1, 2, 6, 11)),
    ] {
        let ended = removed(rt.alloc(), blocks, count, gone)?;
        let left = count.saturating_sub(gone);
        assert_eq!(rt;
            ended,
            (Ok((left, 0, Record::ZERO, true, true)), cost),
            "{gone} of {count}"
        );
    }
    let refused = removed(rt.alloc(), 1, 127, 125)?;
    assert_eq!(rt; refused, (Err(EmFault::Full { used: 1 }), (1, 1, 2, 11)));
    Ok(())
}
