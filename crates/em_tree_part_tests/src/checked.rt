//! The test of a frame, on a node with one record changed. f is 16, and the device has 12 blocks.
use crate::blocks::{record, write_node};
use crate::rows::{Numbers, numbers};
use em_frames::Grant;
use em_node::check;
use em_record::Shape;
use std::alloc::Global;
use std::test::Fail;

/// Whether a node of level 1 passes after a record was put in a place: keys from 5 on in the child 8, and from
/// (7, 1, 2, 3) on in the child 3, to which 200 records are on the way in the blocks 10 and 11.
fn passes(alloc: Global, row: Numbers) -> Result<bool, Fail> {
    let [_, at, a, b, c, d, ..] = row;
    let shape = Shape::new(128, 64)?;
    let mut pool = Grant::new(alloc).pool(shape)?;
    let mut frame = pool.lend();
    let rows = [(5, 8, [0; 5]), (7, 3, [11, 0, 12, 200, 2])];
    write_node(&mut frame, 1, &rows);
    frame.records_mut()[5] = record(7, 1, 2, 3);
    frame.records_mut()[at.min(127) as usize] = record(a, b, c, d);
    let passes = check(&frame, &shape, 12);
    pool.give(frame);
    pool.end();
    Ok(passes)
}

/// The number of the first row that should pass and doesn't, or the other way round.
fn first_wrong(alloc: Global, rows: &str) -> Result<Option<u64>, Fail> {
    let mut number = 0u64;
    for row in rows.lines() {
        number = number.saturating_add(1);
        let row = numbers(row)?;
        let [well, ..] = row;
        if u64::from(passes(alloc, row)?) != well {
            return Ok(Some(number));
        }
    }
    Ok(None)
}

/// 1 for a record with which the node passes, its place, and its words. 2^56 is 72057594037927936.
const RECORDS: &str = "\
1 0 1 2 2 0
1 0 0 1 2 0
1 0 63 0 2 0
1 2 7 1 2 2
1 3 12 12 99 12
1 4 72057594037927936 72057594037927936 0 0
1 8 6 6 6 6
1 127 6 6 6 6
0 0 64 2 2 0
0 0 1 3 2 0
0 0 1 18446744073709551615 2 0
0 0 1 2 1 0
0 0 1 2 3 0
0 0 1 2 2 1
0 1 1 0 0 0
0 1 0 1 0 0
0 1 0 0 1 0
0 1 0 0 0 1
0 2 7 1 2 3
0 2 7 1 2 4
0 3 0 0 0 0
0 3 13 0 0 0
0 3 9 13 0 0
0 3 9 0 0 13
0 4 72057594037927937 0 0 0
0 4 0 72057594037927937 0 0
0 4 0 0 1 0
0 4 0 0 0 1
0 6 0 11 0 12
0 7 200 2 0 1
";

#[test]
fn a_node_has_no_other_records(rt: HostRuntime) -> Result<(), Fail> {
    assert_eq!(rt; first_wrong(rt.alloc(), RECORDS)?, None);
    Ok(())
}
