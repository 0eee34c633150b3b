//! The lists of two neighbouring leaves are fused. A block has 127 records, a leaf at most 4096, and a short one fewer
//! than 1024.
ghost use Rattle.std.specs.Prelude.{◌<◌, ◌≤◌, ◌⊎◌, length};
ghost use Rattle.em_space.specs.Seen.{seen};
ghost use Rattle.em_leaf.specs.Leaf.{AreLeafChains, IsHighChain};
ghost use Rattle.em_tree_part_tests.specs.Ready.{IsReady, Keeps};

use crate::blocks::record;
use crate::leaves::kept;
use crate::rows::NONE;
use em_chain::Chain;
use em_devices::{Cost, Quiet, ended, opened, scans, write};
use em_frames::Device;
use em_leaf::{LeafChange, fuse_leaves};
use em_record::Record;
use em_settle::MapSettle;
use em_space::{EmFault, Rig};
use std::alloc::Global;
use std::test::Fail;

/// The records of the low and of the high part, the least key of this one, and whether both have what they should.
type Parts = (u64, u64, Record, bool, bool);

/// What both leaves have, and what the parts should have.
#[derive(Drop)]
struct Pair<'a> {
    low: &'a [Record],
    high: &'a [Record],
    lows: &'a [Record],
    highs: &'a [Record],
}

/// The records of a high part, its least key, and whether it has these records.
#[tactic(auto, using(crate::proofs::Ready::kept, crate::proofs::Ready::is_high))]
fn high_of<D: Device>(
    rig: &mut Rig<'_, D>,
    high: Option<(Record, Chain)>,
    records: &[Record],
) -> Result<(u64, Record, bool), EmFault>
    requires ready { IsReady (seen D.state rig.old) }
    requires is { IsHighChain (seen D.state rig.old) high }
    ensures keeps { Keeps (seen D.state rig.old) (seen D.state rig.new) }
{
    match high {
        Some((least, chain)) => {
            let same = scans(rig, &chain, records)?;
            Ok((chain.len(), least, same))
        }
        None => Ok((0, Record::ZERO, records.is_empty())),
    }
}

/// Compares both parts with what they should have.
#[tactic(auto, using(crate::proofs::Ready::kept, crate::proofs::Ready::is_view))]
fn parts_of<D: Device>(
    rig: &mut Rig<'_, D>,
    change: LeafChange,
    pair: &Pair<'_>,
) -> Result<Parts, EmFault>
    requires ready { IsReady (seen D.state rig.old) }
    requires leaves { AreLeafChains (seen D.state rig.old) change }
    ensures keeps { Keeps (seen D.state rig.old) (seen D.state rig.new) }
{
    let LeafChange { low, high } = change;
    let (count, least, right) = high_of(rig, high, pair.highs)?;
    let same = scans(rig, &low, pair.lows)?;
    Ok((low.len(), count, least, same, right))
}

/// Fuses two lists, of which one is short, and compares the parts with what they should have.
#[tactic(auto, using(crate::proofs::Ready::kept, crate::proofs::Ready::can_fuse))]
fn fused_with<D: Device>(
    rig: &mut Rig<'_, D>,
    low: Chain,
    high: Chain,
    pair: &Pair<'_>,
) -> Result<Parts, EmFault>
    requires ready { IsReady (seen D.state rig.old) }
    requires low_count { low.count ≤ 4096 }
    requires low_blocks { low.blocks ≤ 4096 }
    requires high_count { high.count ≤ 4096 }
    requires high_blocks { high.blocks ≤ 4096 }
    requires short { (low.count < 1024) ⊎ (high.count < 1024) }
    ensures keeps { Keeps (seen D.state rig.old) (seen D.state rig.new) }
{
    let change = fuse_leaves(rig, &MapSettle {}, low, high)?;
    parts_of(rig, change, pair)
}

/// Does that with lists that are written first. If none is short, they aren't fused, as if a block were damaged.
#[tactic(auto, using(crate::proofs::Ready::kept))]
fn parts_left<D: Device>(rig: &mut Rig<'_, D>, pair: &Pair<'_>) -> Result<Parts, EmFault>
    requires ready { IsReady (seen D.state rig.old) }
    requires low { length pair.now.low.now ≤ 4096 }
    requires high { length pair.now.high.now ≤ 4096 }
    ensures keeps { Keeps (seen D.state rig.old) (seen D.state rig.new) }
{
    let low = write(rig, pair.low)?;
    let high = write(rig, pair.high)?;
    if low.len() < 1024 {
        return fused_with(rig, low, high, pair);
    }
    if high.len() < 1024 {
        return fused_with(rig, low, high, pair);
    }
    Err(EmFault::Damaged { block: 0 })
}

/// Does that over a new rig of this many blocks, of whose device a call fails, and answers what it costs. More records
/// aren't tried.
#[tactic(auto, using(crate::proofs::Ready::kept, crate::proofs::Ready::ready_opened, crate::proofs::Ready::whole_ready))]
fn run(
    alloc: Global,
    blocks: u64,
    failing: u64,
    pair: &Pair<'_>,
) -> Result<(Result<Parts, EmFault>, Cost), Fail> {
    if pair.low.len() > 4096 || pair.high.len() > 4096 {
        return Ok((Err(EmFault::Damaged { block: 0 }), (0, 0, 0, 0)));
    }
    let mut device = Quiet::new(alloc, &[failing])?;
    let mut rig = opened(alloc, blocks.max(1).min(1000), &mut device)?;
    let parts = parts_left(&mut rig, pair);
    Ok((parts, ended(rig)))
}

/// Fuses two leaves with the keys from 0 on, so many in the first and so many in the second. The low part should have those
/// below a key, and the high one the others.
fn fused(
    alloc: Global,
    blocks: u64,
    failing: u64,
    low: u64,
    high: u64,
    end: u64,
) -> Result<(Result<Parts, EmFault>, Cost), Fail> {
    let all = low.saturating_add(high);
    let first = kept(alloc, 0, low)?;
    let second = kept(alloc, low, all)?;
    let lows = kept(alloc, 0, end)?;
    let highs = kept(alloc, end, all)?;
    let pair = Pair {
        low: first.as_slice(),
        high: second.as_slice(),
        lows: lows.as_slice(),
        highs: highs.as_slice(),
    };
    run(alloc, blocks, failing, &pair)
}

/// Frames are out for the answers, of which there are none, the joined list, and the low part.
///
/// - A block of each list is written by 2 moves. The first one is loaded and stored with a link to the second, both are
///   loaded, and the new one is stored and read: 2 + 2 + 2 + 2. It is taken before the first of both is freed, by no move.
/// - A list with no record has no block, and no link is stored.
/// - 1023 records have 9 blocks, and 3073 have 25; 4096 have 33. All are written, loaded or read once, and 2 moves link them:
///   34 + 2 + 34 + 33 + 33. A block is taken before one is freed.
#[test]
fn both_lists_become_one(rt: HostRuntime) -> Result<(), Fail> {
    for (low, high, cost) in [
        (5u64, 3u64, (1, 3, 8, 3)),
        (0, 3, (1, 2, 4, 3)),
        (3, 0, (1, 2, 4, 3)),
        (0, 0, (0, 0, 0, 3)),
        (1023, 3073, (33, 35, 136, 3)),
        (3073, 1023, (33, 35, 136, 3)),
    ] {
        let all = low.saturating_add(high);
        let ended = fused(rt.alloc(), 200, NONE, low, high, all)?;
        assert_eq!(rt;
            ended,
            (Ok((all, 0, Record::ZERO, true, true)), cost),
            "{low} and {high}"
        );
    }
    Ok(())
}

/// One record more than a leaf may have: the low part has the first half, rounded up. 1023 records have 9 blocks, and 3074
/// have 25; the parts have 17 each: 34 + 2 + 34 + 34 + 34.
#[test]
fn lists_of_4097_records_are_halved(rt: HostRuntime) -> Result<(), Fail> {
    let ended = fused(rt.alloc(), 200, NONE, 1023, 3074, 2049)?;
    assert_eq!(rt;
        ended,
        (
            Ok((2049, 2048, record(2049, 0, 0, 0), true, true)),
            (34, 35, 138, 3)
        )
    );
    Ok(())
}

/// All blocks of the device are those of both lists. The only record of a list is read, which frees its block, before it is
/// written: 2 + 2 + 2 + 2 moves. If the first list has more, a block is needed before: 2 + 2 moves, and the load of the first.
#[test]
fn a_full_device_is_enough_if_a_block_is_freed_first(rt: HostRuntime) -> Result<(), Fail> {
    let one = fused(rt.alloc(), 2, NONE, 1, 3, 4)?;
    assert_eq!(rt; one, (Ok((4, 0, Record::ZERO, true, true)), (1, 2, 8, 3)));
    let more = fused(rt.alloc(), 2, NONE, 5, 3, 8)?;
    assert_eq!(rt; more, (Err(EmFault::Full { used: 2 }), (2, 2, 5, 3)));
    Ok(())
}

/// Whichever move fails, the answer says so, and all frames are back.
#[test]
fn each_failing_move_is_a_fault(rt: HostRuntime) -> Result<(), Fail> {
    for failing in 1..9 {
        let (parts, _cost) = fused(rt.alloc(), 200, failing, 5, 3, 8)?;
        assert_eq!(rt; parts, Err(EmFault::DeviceFault), "call {failing}");
    }
    Ok(())
}
