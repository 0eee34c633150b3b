//! Items that come out of a queue, compared with those of a plain sorted list; and blocks and moves. At the smallest shape
//! the heap has room for 1024 items.

use crate::item_scripts::{drawn, pushes, with_last};
use crate::map_scripts::record;
use crate::plain_queue::agrees;
use crate::queues::{DRAIN, POP};
use crate::runs::{NO_CALL, Structure, run, run_failing};
use em_devices::Cost;
use em_record::Record;
use std::alloc::Global;
use std::test::Fail;

/// Whether a run answers as a plain list, and what it cost.
fn told(alloc: Global, shape: (u64, u64), calls: &[Record]) -> Result<(bool, Cost), Fail> {
    let mut found = Vec::new(alloc);
    let cost = run(alloc, Structure::Queue, shape, calls, &mut found)?;
    Ok((agrees(alloc, calls, &found), cost))
}

/// A heap has room for 1024, 1032 and 1296 items. About half of the 8000 calls leave an item, so that the tree gets most
/// of them. Items of the same place come by their number. After the end no block is in use.
#[test]
fn drawn_items_come_as_from_a_plain_list(rt: HostRuntime) -> Result<(), Fail> {
    for (block, frames) in [(128, 64), (129, 64), (144, 72)] {
        let calls = drawn(rt.alloc(), 8000, block)?;
        let calls = with_last(rt.alloc(), &calls, POP, 8001, 1)?;
        let (same, cost) = told(rt.alloc(), (block, frames), &calls)?;
        assert_eq!(rt; (same, cost.0), (true, 0), "block {block}");
    }
    Ok(())
}

/// A row: pushes and as many pops, how often, whether the items come in descending order, and the least and the most moves.
///
/// - Items that the heap has room for stay in memory. A new queue stores a leaf's block and a root. Its end loads the root
///   and the leaf's block, and releases both: 4 moves in all.
/// - 1025 pushes and as many pops are 17 blocks of calls, and 17 is two levels at a fan-out of 16: at most 240 * 18 * 3
///   moves.
/// - 150 times of these are 307,500 calls, which fill 2403 blocks. Between two moments at which the queue is empty there
///   are 2050, which fill 17, two levels: at most 240 * 2404 * 3 moves. After each time its tree is as new.
/// - 20,000 items are 157 blocks of records, of which the heap holds eight. 40,000 calls fill 313 blocks, and 313 is three
///   levels at a fan-out of 16: at most 240 * 314 * 4 moves.
const SORTED: [(u64, u64, bool, u64, u64); 6] = [
    (0, 1, true, 4, 4),
    (1, 1, true, 4, 4),
    (1024, 1, true, 4, 4),
    (1025, 1, true, 5, 240 * 18 * 3),
    (1025, 150, true, 5, 240 * 2404 * 3),
    (20_000, 1, false, 5, 240 * 314 * 4),
];

#[test]
fn items_are_sorted_within_the_share(rt: HostRuntime) -> Result<(), Fail> {
    for (count, often, falls, least, most) in SORTED {
        let calls = pushes(rt.alloc(), count, falls)?;
        let calls = with_last(rt.alloc(), &calls, POP, count, often)?;
        let (same, cost) = told(rt.alloc(), (128, 64), &calls)?;
        let (used, blocks, moves, _) = cost;
        assert!(rt; same && used == 0, "{count} items, {often} times");
        assert!(rt;
            least <= moves && moves <= most,
            "{count} items, {often} times, {moves} moves"
        );
        assert!(rt; moves > 4 || blocks == 2, "{count} items, {blocks} blocks");
    }
    Ok(())
}

/// `drain` of `em_client`, which is generic over the queue, with 5000 items, of which the heap holds 1024 at most.
///
/// And `sort` of `em_sorting`, with a list that the heap has room for, on a device of which all blocks are in use then: 8 of
/// the list and 2 of the queue's tree. The 8 are written, read, written in order and read; the queue makes 4 moves.
#[test]
fn clients_drain_the_queue_and_sort_by_it(rt: HostRuntime) -> Result<(), Fail> {
    let calls = pushes(rt.alloc(), 5000, false)?;
    let calls = with_last(rt.alloc(), &calls, DRAIN, 1, 1)?;
    let mut found = vec![in rt.alloc(); POP; 5000]?;
    let cost = run(rt.alloc(), Structure::Queue, (128, 64), &calls, &mut found)?;
    assert!(rt; agrees(rt.alloc(), &calls, &found) && cost.0 == 0);
    let mut list = pushes(rt.alloc(), 1016, true)?;
    let mut found = Vec::new(rt.alloc());
    let (told, cost) = run_failing(
        rt.alloc(),
        Structure::Sorting,
        (128, 64),
        10,
        NO_CALL,
        &list,
        &mut found,
    )?;
    list.sort()?;
    assert_eq!(rt; (told, cost.0, cost.1, cost.2), (Ok(()), 0, 10, 36));
    let notes = [record(10, 0, 0, 0), record(10, 1016, 0, 0)];
    assert!(rt;
        found.len() == 1018 && found.starts_with(&notes) && found.ends_with(list.as_slice())
    );
    Ok(())
}
