//! Shapes, the order of records, the calls that fail, and the bounds of a run, as worked out by hand.
use crate::words::words;
use em_record::{Calls, Record, Shape, blocks_of, cost, lev, room};
use std::test::Fail;

#[test]
fn a_shape_has_its_numbers(rt: HostRuntime) -> Result<(), Fail> {
    for (block, frames, fan, wide, payload) in [(128, 64, 16, 8, 127), (1024, 256, 64, 32, 1023)] {
        let shape = Shape::new(block, frames)?;
        let numbers = [
            shape.block(),
            shape.frames(),
            shape.fan(),
            shape.wide(),
            shape.payload(),
        ];
        assert_eq!(rt; numbers, [block, frames, fan, wide, payload]);
    }
    Ok(())
}

#[test]
fn records_are_in_order_of_their_words(rt: HostRuntime) {
    for (less, more) in [
        (Record::ZERO, words(0, 0, 0, 1)),
        (words(0, 0, 0, 9), words(0, 0, 1, 0)),
        (words(0, 0, 9, 9), words(0, 1, 0, 0)),
        (words(0, 9, 9, 9), words(1, 0, 0, 0)),
    ] {
        assert!(rt; less < more, "{less:?} and {more:?}");
    }
}

/// Calls 0 and 2 are to fail, and then one finds no memory.
#[test]
fn calls_fail_by_their_numbers(rt: HostRuntime) -> Result<(), Fail> {
    let mut calls = Calls::new(rt.alloc(), &[0, 2])?;
    for fails in [true, false, true, false] {
        assert_eq!(rt; calls.next_fails(), fails);
        if fails {
            calls.fail();
        } else {
            calls.pass();
        }
    }
    calls.refuse();
    assert_eq!(rt; (calls.faults(), calls.refused()), (3, 1));
    Ok(())
}

/// 20001 records in blocks of 128 fill 157 blocks, and 157 over 16 is 10, over 16 is 1: two levels.
#[test]
fn a_shape_bounds_a_run(rt: HostRuntime) -> Result<(), Fail> {
    let shape = Shape::new(128, 64)?;
    for (count, blocks, levels, moves, most) in [
        (20001, 157, 2, 970_752, 15_808),
        (200_000, 1563, 3, 12_812_288, 150_912),
        (0, 0, 0, 2048, 480),
    ] {
        let fills = blocks_of(&shape, count);
        let bounds = (
            fills,
            lev(&shape, fills),
            cost(&shape, count),
            room(&shape, count),
        );
        assert_eq!(rt; bounds, (blocks, levels, moves, most));
    }
    assert_eq!(rt; lev(&shape, 1), 0);
    Ok(())
}
