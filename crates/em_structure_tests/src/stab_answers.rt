//! What an interval list answers, as worked out by hand or by a plain program. A block has 127 pairs.

use crate::map_scripts::record;
use crate::runs::{Structure, run};
use crate::stab_scripts::{drawn, interval, one_over_points, pair, pairs_of, stab, worked};
use em_record::Record;
use std::alloc::{AllocError, Global};
use std::test::Fail;

const TOP: u64 = u64::MAX;

/// The blocks of the pairs that a run answers, if they are these, and no block is in use after they were read.
fn blocks_of(alloc: Global, calls: &[Record], pairs: &[Record]) -> Result<Option<u64>, Fail> {
    let mut found = Vec::new(alloc);
    let cost = run(alloc, Structure::Stab, (128, 64), calls, &mut found)?;
    let Some((told, read)) = found.split_first() else {
        return Ok(None);
    };
    let same = cost.0 == 0 && told.b == pairs.len() as u64 && *read == *pairs;
    Ok(if same { Some(told.a) } else { None })
}

/// Both ends belong to an interval, also 0 and 2^64 - 1, and an interval that is given after a stab isn't one of its
/// answers. Pairs come in the order of stabs, and for one stab in that of intervals. All points fit an area.
#[test]
fn each_stab_answers_the_earlier_intervals_that_hold_its_point(
    rt: HostRuntime,
) -> Result<(), Fail> {
    let worked = worked(rt.alloc())?;
    let rows: [(&[Record], &[Record]); 6] = [
        (&[], &[]),
        (&[stab(5)], &[]),
        (&[interval(0, 9)], &[]),
        (
            &[interval(0, TOP), stab(TOP), stab(0)],
            &[pair(0, 0), pair(1, 0)],
        ),
        (
            worked.as_slice(),
            &[pair(1, 0), pair(3, 1), pair(4, 0), pair(4, 2)],
        ),
        (
            &[
                stab(3),
                interval(0, 9),
                interval(3, 3),
                interval(2, 4),
                stab(9),
                stab(3),
            ],
            &[pair(1, 0), pair(2, 0), pair(2, 1), pair(2, 2)],
        ),
    ];
    let mut row = 0u64;
    for (calls, pairs) in rows {
        let blocks = u64::from(!pairs.is_empty());
        assert_eq!(rt;
            blocks_of(rt.alloc(), calls, pairs)?,
            Some(blocks),
            "row {row}"
        );
        row = row.saturating_add(1);
    }
    Ok(())
}

/// Adds the pair of each stab from the first one to the last one, which isn't included, with an interval.
fn add_pairs(
    pairs: &mut Vec<Record>,
    first: u64,
    last: u64,
    interval: u64,
) -> Result<(), AllocError> {
    for stab in first..last {
        pairs.push(pair(stab, interval))?;
    }
    Ok(())
}

/// An area has 8 frames of 128 records, so that 1025 points are a node: its strips are 0 to 256, 257 to 513, 514 to 770
/// and 771 to 1024. The interval holds the two in the middle, and goes down into the others: 157, 257, 257 and 130 pairs,
/// in 7 blocks of 127.
///
/// The strips of 4097 points are 0 to 1024, 1025 to 2049, 2050 to 3074 and 3075 to 4096. The interval holds the second one,
/// and goes down into the first one and the third one. Both are nodes, of strips of 257: it goes down into 771 to 1024,
/// holds 2050 to 2306, and goes down into 2307 to 2563. Its 1501 pairs fill 12 blocks.
#[test]
fn an_interval_is_reported_by_the_strips_that_it_holds_and_below_its_ends(
    rt: HostRuntime,
) -> Result<(), Fail> {
    for (count, low, high, blocks) in [(1025, 100, 900, 7), (4097, 1000, 2500, 12)] {
        let calls = one_over_points(rt.alloc(), count, low, high)?;
        let mut pairs = Vec::new(rt.alloc());
        add_pairs(&mut pairs, low, high + 1, 0)?;
        assert_eq!(rt;
            blocks_of(rt.alloc(), &calls, &pairs)?,
            Some(blocks),
            "points {count}"
        );
    }
    Ok(())
}

/// The stabs from 213 to 812 ask for one value, 213. It fills two strips of 257 points, and stands in the two others. The
/// first interval is that value. The second one holds all values, and is given after stab 511. The first one has 600
/// pairs, and the second one 513: 1113 in 9 blocks.
#[test]
fn a_value_may_fill_more_than_a_strip(rt: HostRuntime) -> Result<(), Fail> {
    let mut calls = Vec::new(rt.alloc());
    calls.push(interval(213, 213))?;
    for number in 0..1025 {
        if number == 512 {
            calls.push(interval(0, TOP))?;
        }
        let point = if 213 < number && number < 813 {
            213
        } else {
            number
        };
        calls.push(stab(point))?;
    }
    let mut pairs = Vec::new(rt.alloc());
    add_pairs(&mut pairs, 213, 512, 0)?;
    for number in 512..813 {
        pairs.push(pair(number, 0))?;
        pairs.push(pair(number, 1))?;
    }
    add_pairs(&mut pairs, 813, 1025, 1)?;
    assert_eq!(rt; blocks_of(rt.alloc(), &calls, &pairs)?, Some(9));
    Ok(())
}

/// 1101 stabs ask for the greatest value. The first interval holds it, the second one ends before it, and the third one is
/// given before the last stab alone. The 1102 pairs fill 9 blocks.
#[test]
fn a_value_may_have_more_points_than_an_area(rt: HostRuntime) -> Result<(), Fail> {
    let mut calls = Vec::new(rt.alloc());
    calls.push(interval(7, TOP))?;
    calls.push(interval(7, TOP - 1))?;
    for _ in 0..1100 {
        calls.push(stab(TOP))?;
    }
    calls.push(interval(0, TOP))?;
    calls.push(stab(TOP))?;
    let mut pairs = Vec::new(rt.alloc());
    add_pairs(&mut pairs, 0, 1101, 0)?;
    pairs.push(pair(1100, 2))?;
    assert_eq!(rt; blocks_of(rt.alloc(), &calls, &pairs)?, Some(9));
    Ok(())
}

/// Points that fit an area; more than a thousand, which are a node and leaves below it; and some five thousand, with nodes
/// below a node: over one value to a hundred thousand, at both ends of the range.
#[test]
fn drawn_commands_are_answered_as_by_a_plain_program(rt: HostRuntime) -> Result<(), Fail> {
    for (count, rare, values) in [
        (1, 4, 1),
        (60, 4, 7),
        (150, 4, 100_000),
        (1_200, 120, 3),
        (1_200, 60, 100_000),
        (5_000, 1_000, 100_000),
    ] {
        for first in [0, u64::MAX - values + 1] {
            let calls = drawn(rt.alloc(), count, rare, first, values)?;
            let pairs = pairs_of(rt.alloc(), &calls)?;
            let blocks = pairs.len().div_ceil(127) as u64;
            let told = blocks_of(rt.alloc(), &calls, &pairs)?;
            assert_eq!(rt; told, Some(blocks), "commands {count}, values {values}");
        }
    }
    Ok(())
}
