//! What a tree answers and holds. A block has 127 records of a list, and an area of the smallest shape has 1024 places.

use crate::map_scripts::{add_rising, drawn, followed, record, with_calls};
use crate::plain_map::{agrees, found_at};
use crate::runs::{Structure, run};
use crate::trees::{HAND, SETTLE, TAKE};
use em_devices::Cost;
use em_record::Record;
use std::alloc::Global;
use std::test::Fail;

/// The smallest shape.
const SMALL: (u64, u64) = (128, 64);

/// Trees of three small shapes: each of them is settled twice and finished, another one takes records out after each
/// 16,000 operations and twice at the end, and one takes out at the end all that is left. No block is in use after the
/// answers were read.
///
/// - 16,000 operations fill 125 blocks of 128 or 129 records, or 112 of 144, which is two levels at a fan-out of 16 or 18.
///   So the share of the first tree is at most (160 * 126 + 64 * 3 * 126) * 3 moves: two calls of `settle_all`, and
///   `finish`.
/// - A leaf has at most 4096, 4128 and 5184 records. A program of its own, which has only the draw and a set of keys,
///   counts 5984 keys that have a value after 16,000 operations, and 9338 after 32,000 if none are taken out. Before a
///   take takes records out, no operation waits over the first leaf: a single leaf would have all of them, so there are
///   two at least. So it is at the other three takes, as at most 1296 records are taken by each: 9338 - 3 * 1296 = 5450.
///   Each takes more than half an area, so more than 512 records.
/// - Twenty takes of more than 512 records each take all of the 5984.
#[test]
fn drawn_calls_are_answered_as_by_a_plain_map(rt: HostRuntime) -> Result<(), Fail> {
    let rows = [
        (16_000, 7000, SETTLE, 0, 0, (160 * 126 + 64 * 3 * 126) * 3),
        (32_000, 16_000, TAKE, 2, 4 * 513, u64::MAX),
        (16_000, 9000, SETTLE, 20, 5984, u64::MAX),
    ];
    for (block, frames, payload, area) in [
        (128, 64, 127, 1024),
        (129, 64, 128, 1032),
        (144, 72, 143, 1296),
    ] {
        for (count, every, call, takes, least, most) in rows {
            let ops = drawn(rt.alloc(), count, 20_000)?;
            let calls = with_calls(rt.alloc(), &ops, every, call, TAKE, takes)?;
            let mut found = Vec::new(rt.alloc());
            let cost = run(
                rt.alloc(),
                Structure::Tree,
                (block, frames),
                &calls,
                &mut found,
            )?;
            let taken = agrees(rt.alloc(), &calls, &found, payload, area)?;
            assert!(rt; taken >= Some(least), "block {block}, every {every}");
            assert!(rt;
                cost.0 == 0 && cost.2 <= most,
                "block {block}, every {every}"
            );
        }
    }
    Ok(())
}

/// A row: the puts of rising keys, whether all are settled at the end, the levels of nodes, the blocks in use, and the
/// least and the most moves. A tree is fresh if it got no put: none is taken out.
///
/// - Two blocks are those of the root and the leaf, with a move for each. The list of the operations holds a block of
///   each 127, and a block is stored when the next one begins.
/// - The leaf's buffer gets 2048 operations in 17 blocks, and is full too. 1024 of them, a load, are settled: the leaf's
///   list has 9 blocks. The others are in the last 9 of the 17. Each of the 17 blocks was read and written anew, beside
///   the 18 moves before.
/// - 4096 records are in one leaf, in 33 blocks. 4097 are in two, in 17 blocks each.
/// - Rising keys are loaded into the last leaf, 1024 at a time. The fifth load splits the first leaf into two of 2560
///   records. Each second load splits the last leaf again, into smaller ones each time, until that of the 25th load
///   leaves 2048 records: then it takes three loads to 5120. So 11 splits come in 23 loads, and the 31st is in the load
///   5 + 23 + 23 + 16. Each push that empties the root's buffer makes two loads, the first one but one: the load 67 is
///   in the 34th. Then the root has 32 entries, and is split.
const SIZES: [(u64, u64, u64, u64, u64, u64); 9] = [
    (0, 0, 1, 2, 2, 2),
    (127, 0, 1, 3, 2, 2),
    (128, 0, 1, 4, 3, 3),
    (2047, 0, 1, 19, 18, 18),
    (2048, 0, 1, 20, 18 + 2 * 17 + 1, u64::MAX),
    (4096, 1, 1, 2 + 33, 0, u64::MAX),
    (4097, 1, 1, 3 + 17 + 17, 0, u64::MAX),
    (34 * 2048 - 1, 0, 1, 0, 0, u64::MAX),
    (34 * 2048, 0, 2, 0, 0, u64::MAX),
];

/// A run of puts of rising keys, and dels of those above `kept`, as many times as `times`, each one followed by a call
/// of `last` as many times as `lasts`. All is settled after the number `every`.
fn rising(
    alloc: Global,
    (times, count, kept, every): (u64, u64, u64, u64),
    (last, lasts): (Record, u64),
    found: &mut Vec<Record>,
) -> Result<(Vec<Record>, Cost), Fail> {
    let mut all = Vec::new(alloc);
    for time in 0..times {
        let mut ops = Vec::new(alloc);
        let number = time.saturating_mul(count.saturating_add(count.saturating_sub(kept)));
        add_rising(&mut ops, number, count, kept, 0)?;
        for call in with_calls(alloc, &ops, every, SETTLE, last, lasts)?.iter() {
            all.push(*call)?;
        }
    }
    let cost = run(alloc, Structure::Tree, SMALL, &all, found)?;
    Ok((all, cost))
}

#[test]
fn puts_of_rising_keys_hold_their_blocks(rt: HostRuntime) -> Result<(), Fail> {
    for (count, settles, levels, used, least, most) in SIZES {
        let mut found = Vec::new(rt.alloc());
        rising(
            rt.alloc(),
            (1, count, count, 0),
            (SETTLE, settles),
            &mut found,
        )?;
        let rig = found_at(&found, 1);
        let (blocks, moves) = (rig.a, rig.b);
        assert_eq!(rt;
            found_at(&found, 0),
            record(levels, u64::from(count == 0), 0, 0),
            "{count} puts"
        );
        assert!(rt;
            used == 0 || blocks == used,
            "{count} puts, {blocks} blocks"
        );
        assert!(rt;
            least <= moves && moves <= most,
            "{count} puts, {moves} moves"
        );
        assert_eq!(rt; found_at(&found, 2), record(0, 0, 0, 0), "{count} puts");
    }
    Ok(())
}

/// A leaf and a root are stored. Then the node and the leaf's block are loaded, and both are released, by no move. A tree
/// holds two frames, the release one for the node and one for the leaf; and the run an area of 8.
#[test]
fn a_tree_with_no_operation_has_no_answer(rt: HostRuntime) -> Result<(), Fail> {
    let mut found = Vec::new(rt.alloc());
    let cost = run(rt.alloc(), Structure::Tree, SMALL, &[], &mut found)?;
    assert_eq!(rt; cost, (0, 2, 4, 4 + 8));
    Ok(())
}

/// An area has room for 1024 records, and a block of a leaf has 127. All of 1024 records are taken at once. Of more in
/// one leaf the first 8 blocks are. 4097 records are in two leaves, of which the first one has 2049: two calls take 8
/// blocks each, and the third one the last 17 and 7 blocks of the second leaf, since 1007 places are left. Of the other
/// 1159 records 8 blocks are taken, and 143 are left.
#[test]
fn an_area_is_filled_as_far_as_whole_blocks_go(rt: HostRuntime) -> Result<(), Fail> {
    let rows: [(u64, &[u64]); 4] = [
        (0, &[0]),
        (1024, &[1024, 0]),
        (1025, &[1016, 9, 0]),
        (4097, &[1016, 1016, 906, 1016, 143, 0]),
    ];
    for (count, counts) in rows {
        let mut found = Vec::new(rt.alloc());
        let times = counts.len() as u64;
        let (calls, _) = rising(rt.alloc(), (1, count, count, 0), (TAKE, times), &mut found)?;
        assert_eq!(rt;
            agrees(rt.alloc(), &calls, &found, 127, 1024)?,
            Some(count),
            "{count} records"
        );
        let mut at = 0usize;
        for taken in counts {
            assert_eq!(rt; found_at(&found, at).a, *taken, "{count} records");
            at = at.saturating_add(1).saturating_add(*taken as usize);
        }
    }
    Ok(())
}

/// In each of 150 periods 800 keys are put, of which 100 are deleted, and 700 records taken out. Then a root and a leaf
/// are in use, as at the start, which `agrees` looks at.
///
/// And 4097 keys are put and settled, which are two leaves. All but the first 600 are deleted. More than half of an area
/// is filled with these, and nothing is left: so the first call is a reset, though the second leaf has its records until
/// the deletions that wait over it are settled.
#[test]
fn periods_leave_two_blocks(rt: HostRuntime) -> Result<(), Fail> {
    for (times, count, kept, every, taken) in [
        (150, 800, 700, 0, 150 * 700),
        (1, 4097, 600, 4097, 600),
    ] {
        let mut found = Vec::new(rt.alloc());
        let row = (times, count, kept, every);
        let (calls, cost) = rising(rt.alloc(), row, (TAKE, 2), &mut found)?;
        assert_eq!(rt;
            agrees(rt.alloc(), &calls, &found, 127, 1024)?,
            Some(taken),
            "{count} keys"
        );
        assert_eq!(rt; cost.0, 0, "{count} keys");
    }
    Ok(())
}

/// A row: puts of rising keys, dels of those above `kept`, the levels of nodes, and the blocks in use. All is settled after
/// the puts and at the end. An area has 1024 records: a leaf with fewer is short, unless it is the only one.
///
/// - 4097 records are in two leaves of 2049 and 2048. With 1024 of them the second one isn't short: its list has 9 blocks,
///   and that of the first one 17. With 1023 it is joined to the first one, since both have at most 4096: 3072 records are
///   in 25 blocks. With none of any leaf one empty leaf stays, also of 20,000 records.
/// - 34 * 2048 records are under a root of level 2 (`SIZES`). 600 of them are in one leaf of 5 blocks, under a root of
///   level 1.
const TRIMMED: [(u64, u64, u64, u64); 5] = [
    (4097, 2049 + 1024, 1, 3 + 17 + 9),
    (4097, 2049 + 1023, 1, 2 + 25),
    (4097, 0, 1, 2),
    (20_000, 0, 1, 2),
    (34 * 2048, 600, 1, 2 + 5),
];

#[test]
fn a_settled_tree_is_as_small_as_its_records_allow(rt: HostRuntime) -> Result<(), Fail> {
    for (count, kept, levels, used) in TRIMMED {
        let mut found = Vec::new(rt.alloc());
        rising(rt.alloc(), (1, count, kept, count), (SETTLE, 1), &mut found)?;
        assert_eq!(rt;
            (found_at(&found, 0).a, found_at(&found, 1).a),
            (levels, used),
            "{kept} of {count} keys"
        );
    }
    Ok(())
}

/// 4097 keys are put, and those above 3072 deleted. All is settled twice, the second time after the last of the 5122
/// operations. Six calls take all that is left out, in order, since each takes more than half of an area of 1024.
#[test]
fn a_settled_tree_keeps_its_records(rt: HostRuntime) -> Result<(), Fail> {
    let mut found = Vec::new(rt.alloc());
    let row = (1, 4097, 3072, 5122 / 2);
    let (calls, cost) = rising(rt.alloc(), row, (TAKE, 6), &mut found)?;
    assert_eq!(rt; agrees(rt.alloc(), &calls, &found, 127, 1024)?, Some(3072));
    assert_eq!(rt; cost.0, 0);
    Ok(())
}

/// All is settled after each 7000 of 16,000 operations, and the answers are handed out then: those to the gets since the last
/// time, each once.
#[test]
fn answers_are_handed_out_once(rt: HostRuntime) -> Result<(), Fail> {
    let ops = drawn(rt.alloc(), 16_000, 20_000)?;
    let settled = with_calls(rt.alloc(), &ops, 7000, SETTLE, SETTLE, 0)?;
    let calls = followed(rt.alloc(), &settled, SETTLE, HAND)?;
    let mut found = Vec::new(rt.alloc());
    let cost = run(rt.alloc(), Structure::Tree, SMALL, &calls, &mut found)?;
    assert_eq!(rt; agrees(rt.alloc(), &calls, &found, 127, 1024)?, Some(0));
    assert_eq!(rt; cost.0, 0);
    Ok(())
}
