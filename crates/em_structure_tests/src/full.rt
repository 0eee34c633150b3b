//! Runs that give up: a device of which a call fails, and one of too few blocks. All frames are back each time, or the run
//! couldn't be ended.
ghost use Rattle.std.specs.Prelude.{◌<◌, ◌≤◌, ◌^◌};

use crate::item_scripts::{pushes, with_last};
use crate::map_scripts::{add_rising, drawn, with_calls};
use crate::queues::POP;
use crate::runs::{NO_CALL, Structure, Told, run_failing};
use crate::stab_scripts::{one_over_points, worked};
use crate::trees::{SETTLE, TAKE};
use em_record::Record;
use em_space::EmFault;
use std::alloc::Global;
use std::test::Fail;

/// A run over a device of this many blocks, of which a call fails.
fn told(
    alloc: Global,
    structure: Structure,
    blocks: u64,
    failing: u64,
    calls: &[Record],
) -> Result<Told, Fail>
    requires blocks_low { 0 < blocks }
    requires blocks_high { blocks ≤ 2 ^ 40 }
{
    let mut found = Vec::new(alloc);
    run_failing(
        alloc,
        structure,
        (128, 64),
        blocks,
        failing,
        calls,
        &mut found,
    )
}

/// The first one of these calls of the device that fails, and the run isn't refused at it.
fn first_missed(
    alloc: Global,
    structure: Structure,
    calls: &[Record],
    first: u64,
    last: u64,
) -> Result<Option<u64>, Fail> {
    for failing in first..last {
        let (result, cost) = told(alloc, structure, 100, failing, calls)?;
        if result != Err(EmFault::DeviceFault) || cost.2 != failing {
            return Ok(Some(failing));
        }
    }
    Ok(None)
}

/// The least number of blocks up to 40 over which the run doesn't say that the device is full. It has them all in use at
/// once.
fn blocks_enough(
    alloc: Global,
    structure: Structure,
    calls: &[Record],
) -> Result<Option<u64>, Fail> {
    for blocks in 1..40 {
        let (result, cost) = told(alloc, structure, blocks, NO_CALL, calls)?;
        if cost.1 != blocks {
            return Ok(None);
        }
        if result != Err(EmFault::Full { used: blocks }) {
            return Ok(if result == Ok(()) { Some(blocks) } else { None });
        }
    }
    Ok(None)
}

/// The calls of a row, by its number.
///
/// - 0: 300 drawn operations of a tree, which is settled once on the way.
/// - 1: 700 items are put into a tree, of which all are taken out after 300, 600 and 700.
/// - 2: 4097 items are in two leaves of a tree, which are emptied one after the other.
/// - 3: a batch of 300 drawn commands.
/// - 4: 1100 pushes into a queue, and as many pops.
/// - 5: five stabs and three intervals, which have four pairs.
/// - 6: an interval from 100 to 900 over a point at each place from 0 to 1024.
/// - 7, 8: rising pushes into a queue, which leave 112 or 113 items in the tree's root, and as many pops.
/// - 9, 10: puts of rising keys into a batch, which leave as many in the tree's root.
/// - 11: a list of 1016 items in falling order, which a queue sorts.
/// - 12: 4097 keys in two leaves of a tree, of which 1025 are deleted, so that a settling joins both.
fn row(alloc: Global, number: u64) -> Result<(Structure, Vec<Record>), Fail> {
    let count = match number {
        1 => 700,
        7 => 512 + 2048 + 112,
        8 => 512 + 2048 + 113,
        9 => 2048 + 112,
        10 => 2048 + 113,
        _ => 4097,
    };
    let mut puts = Vec::new(alloc);
    add_rising(&mut puts, 0, count, count, 0)?;
    Ok(match number {
        0 => {
            let ops = drawn(alloc, 300, 20_000)?;
            (
                Structure::Tree,
                with_calls(alloc, &ops, 200, SETTLE, SETTLE, 0)?,
            )
        }
        1 => (
            Structure::Tree,
            with_calls(alloc, &puts, 300, TAKE, TAKE, 2)?,
        ),
        2 => (Structure::Tree, with_calls(alloc, &puts, 0, TAKE, TAKE, 6)?),
        3 => (Structure::Batch, drawn(alloc, 300, 20_000)?),
        4 => {
            let calls = pushes(alloc, 1100, true)?;
            (Structure::Queue, with_last(alloc, &calls, POP, 1100, 1)?)
        }
        5 => (Structure::Stab, worked(alloc)?),
        7 | 8 => (Structure::Queue, with_last(alloc, &puts, POP, count, 1)?),
        9 | 10 => (Structure::Batch, puts),
        11 => (Structure::Sorting, pushes(alloc, 1016, true)?),
        12 => {
            let mut ops = Vec::new(alloc);
            add_rising(&mut ops, 0, count, 3072, 0)?;
            let calls = with_calls(alloc, &ops, count, SETTLE, SETTLE, 1)?;
            (Structure::Tree, calls)
        }
        _ => (Structure::Stab, one_over_points(alloc, 1025, 100, 900)?),
    })
}

/// A row's number, the least and the most moves of its run, and the first of the 160 calls that fail, or 0 for its last
/// ones. The call 0 begins the device, so that the moves are all others.
type Failing = (u64, u64, u64, u64);

/// - Rows 0, 1, 3 and 4: more than the 4 moves of a structure that gets no call, and no more than the calls that fail.
/// - Row 2: the operations fill 17 blocks of the root's buffer twice, and as many of the leaf's, of which each is stored
///   and read, and their records 34 blocks of leaves, of which each is stored and read. So there are 6 * 34 moves at least.
///   The last ones are of takings alone, and the first leaf is removed there.
/// - Row 12: as many moves for the puts. The last ones settle the deletions, read both leaves and write one with all records, build
///   a root over it, and release the tree: 25 blocks that are written, and twice as many that are read.
/// - Row 5: both lists are stored by 2 moves. The queue puts n records of one block in order by 2n + 2: it reads their
///   block by 1, each pop stores and reads the queue's by 2, and the new list is stored by 1. So the five points take 12
///   moves, and the four pairs 10. Between them points and intervals are read by 2, and the pairs are stored by 1. At last
///   they are read by 1: 2 + 12 + 2 + 1 + 10 + 1.
const FAILING: [Failing; 7] = [
    (0, 5, 160, 1),
    (1, 5, 160, 1),
    (2, 161, u64::MAX, 0),
    (3, 5, 160, 1),
    (4, 5, 160, 1),
    (5, 28, 28, 1),
    (12, 161, u64::MAX, 0),
];

/// 10 moves store the interval and 1025 points. With n items left the queue has ceil(n / 127) blocks, which are 4653 for
/// all n from 1 to 1025: each pop stores and reads its own, by 2 moves a block. The list of points is read by 9 moves,
/// and the new list is stored by 9. So the node begins after 10 + 9,306 + 9 + 9 = 9,334 moves, and it makes about 60
/// with its leaves, before the pairs are put in order. The calls from 1 on store both lists and begin to put the points in
/// order.
const FAILING_NODE: [Failing; 2] = [(6, 9_457, u64::MAX, 1), (6, 9_457, u64::MAX, 9_298)];

/// The first of these rows of which a run isn't refused at a call that fails; and the call, or 0 if the run without one
/// isn't as it must be.
fn first_wrong(alloc: Global, rows: &[Failing]) -> Result<Option<(u64, u64)>, Fail> {
    for (number, least, most, from) in rows {
        let (structure, calls) = row(alloc, *number)?;
        let (result, cost) = told(alloc, structure, 100, NO_CALL, &calls)?;
        let moves = cost.2;
        if result != Ok(()) || moves < *least || *most < moves {
            return Ok(Some((*number, 0)));
        }
        let first = if *from == 0 {
            moves.saturating_sub(159)
        } else {
            *from
        };
        let end = first.saturating_add(160).min(moves.saturating_add(1));
        if let Some(call) = first_missed(alloc, structure, &calls, first, end)? {
            return Ok(Some((*number, call)));
        }
    }
    Ok(None)
}

#[test]
fn each_call_that_fails_is_a_fault(rt: HostRuntime) -> Result<(), Fail> {
    assert_eq!(rt; first_wrong(rt.alloc(), &FAILING)?, None);
    Ok(())
}

#[test]
fn each_call_of_a_node_that_fails_is_a_fault(rt: HostRuntime) -> Result<(), Fail> {
    assert_eq!(rt; first_wrong(rt.alloc(), &FAILING_NODE)?, None);
    Ok(())
}

/// Each device of fewer blocks than a run has in use at once is full, with all of them in use.
///
/// - Rows 0, 1, 3 and 4: a root and a leaf have a block each. Beside them at least the operations that wait have a list:
///   2 blocks of 127 for the 200 before all are settled, 3 blocks for 300, and 5 for the 512 items that a full heap of
///   1024 gives to the tree of the queue. At most there are six lists at once: the root's operations and those that were
///   taken out of its buffer, the leaf's operations, its records before and after a load, and the answers. Each has as
///   many records at most as the tree got since it was empty: 300, as row 1 takes all of them out, or 512, as the heap has
///   room for the other items.
/// - Row 5: at the second pop the intervals, the points that are in order, those that are left, and those that are left
///   without the least one have a block each: 4 at once.
/// - Row 6: the four strips have 3, 3, 3 and 2 blocks of points. Beside them the list of the two strips in the middle and
///   those of the pieces that go down into the two others have a block each, and the 514 pairs of the middle have 5: 19 at
///   once.
///
/// In rows 7, 9 and 11 all blocks of the device are in use when a call comes that needs none, and the call is Ok.
///
/// - Rows 7 and 9: the batch gets 2048 puts, and so does the tree of the queue: 512 items that a full heap of 1024 gives it,
///   and all that come then. They fill the root's buffer, in 17 blocks, which is emptied into that of the leaf: 20 blocks
///   with the root, the leaf and one that is written. 1024 of them are settled, and have 9 blocks. The others are in the
///   last 9 of the 17, with 16 in the last of these. Then the root's buffer gets 112 in a block: 21 are in use. The
///   first pop that finds the heap empty, and `finish`, empty them into the leaf's buffer: 111 fill its last block, and when
///   the last one was read, the block that it came from is free again. The next load frees 8 blocks, and leaves 2 of the
///   buffer: with them, root and leaf the 2048 records that result have 17 blocks, which are all 21 again.
/// - Rows 8 and 10: of 113 the last but one needs a block, and all 21 are in use.
/// - Row 11: the list has 8 blocks, and the queue's tree 2. The heap has room for all items, and the sorted list has the
///   blocks that the other one had.
#[test]
fn full_comes_exactly_with_too_few_blocks(rt: HostRuntime) -> Result<(), Fail> {
    for (number, least, most) in [
        (0, 2 + 2, 2 + 6 * 3),
        (1, 2 + 3, 2 + 6 * 3),
        (3, 2 + 3, 2 + 6 * 3),
        (4, 2 + 5, 2 + 6 * 5),
        (5, 4, 4),
        (6, 19, 19),
        (7, 21, 21),
        (8, 22, 22),
        (9, 21, 21),
        (10, 22, 22),
        (11, 10, 10),
    ] {
        let (structure, calls) = row(rt.alloc(), number)?;
        let enough = blocks_enough(rt.alloc(), structure, &calls)?;
        assert!(rt;
            enough >= Some(least) && enough <= Some(most),
            "row {number}"
        );
    }
    Ok(())
}
