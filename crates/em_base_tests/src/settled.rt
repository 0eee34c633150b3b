//! Operations of each kind of rules, as worked out by hand: of a map, of a map with adds and of a bag from the
//! table in the README of `em_settle`, and of other rules that store a closure.

use crate::joined::JoinSettle;
use crate::words::words;
use em_record::Record;
use em_settle::{AddSettle, BagSettle, Combine, MapSettle, Settle, Step};
use std::test::Fail;

/// A line for each operation of a map: the stored record of its key or `-`, the operation, what is stored
/// after it, its answer, and its key. Three puts, over nothing and over other values; two dels, of a value and
/// of nothing; three gets, of a value, of the value 0 and of nothing.
const MAP: &str = "\
-|5 1 0 10|5 0 0 10|-|5 0 0 0
5 0 0 10|5 3 0 11|5 0 0 11|-|5 0 0 0
5 0 0 3|5 1 0 10|5 0 0 10|-|5 0 0 0
5 0 0 10|5 4 1 0|-|-|5 0 0 0
-|5 4 1 0|-|-|5 0 0 0
5 0 0 10|5 2 2 0|5 0 0 10|2 1 10 0|5 0 0 0
0 0 0 0|0 7 2 0|0 0 0 0|7 1 0 0|0 0 0 0
-|5 2 2 0|-|2 0 0 0|5 0 0 0
";

/// The same of a bag: over nothing, and over a record of its key. Its key has the number.
const BAG: &str = "\
-|4 1 7 6|4 1 7 6|-|4 1 0 0
4 1 7 6|4 1 9 8|4 1 9 8|-|4 1 0 0
-|5 2 7 9|5 2 7 9|-|5 2 0 0
";

/// The same of rules that keep the greatest value: the closure joins 10 to the stored 30, and then 40.
const JOINED: &str = "\
5 0 0 30|5 1 0 10|5 0 0 30|-|5 0 0 0
5 0 0 30|5 2 0 40|5 0 0 40|-|5 0 0 0
";

/// The same of adds of 2 by the sum: to 3, to the greatest value, to nothing; and of a put, a del and a get.
const SUM: &str = "\
5 0 0 3|5 1 3 2|5 0 0 5|-|5 0 0 0
5 0 0 18446744073709551615|5 1 3 2|5 0 0 1|-|5 0 0 0
-|5 1 3 2|5 0 0 2|-|5 0 0 0
5 0 0 3|5 1 0 2|5 0 0 2|-|5 0 0 0
5 0 0 3|5 4 1 0|-|-|5 0 0 0
5 0 0 3|5 2 2 0|5 0 0 3|2 1 3 0|5 0 0 0
";

/// By the greater of both.
const MAX: &str = "\
5 0 0 3|5 1 3 2|5 0 0 3|-|5 0 0 0
5 0 0 0|5 1 3 2|5 0 0 2|-|5 0 0 0
-|5 1 3 0|5 0 0 0|-|5 0 0 0
";

/// By the lesser. Nothing isn't zero.
const MIN: &str = "\
5 0 0 3|5 1 3 2|5 0 0 2|-|5 0 0 0
5 0 0 0|5 1 3 2|5 0 0 0|-|5 0 0 0
-|5 1 3 2|5 0 0 2|-|5 0 0 0
";

/// By the bitwise exclusive or.
const XOR: &str = "\
5 0 0 3|5 1 3 2|5 0 0 1|-|5 0 0 0
5 0 0 18446744073709551615|5 1 3 2|5 0 0 18446744073709551613|-|5 0 0 0
-|5 1 3 2|5 0 0 2|-|5 0 0 0
";

/// The record of four numbers, and none of another text.
fn record_of(part: &str) -> Result<Option<Record>, Fail> {
    let mut numbers = part.split(' ');
    let (Some(a), Some(b)) = (numbers.next(), numbers.next()) else {
        return Ok(None);
    };
    let (Some(c), Some(d)) = (numbers.next(), numbers.next()) else {
        return Ok(None);
    };
    let record = words(
        a.parse::<u64>()?,
        b.parse::<u64>()?,
        c.parse::<u64>()?,
        d.parse::<u64>()?,
    );
    Ok(Some(record))
}

/// Whether an operation does what a row says. What is stored has its key.
fn does<S: Settle>(settle: &S, row: &str) -> Result<bool, Fail>
    requires ready { S.IsReady settle.now }
{
    let mut parts = row.split('|');
    let (Some(stored), Some(op), Some(left)) = (parts.next(), parts.next(), parts.next()) else {
        return Ok(false);
    };
    let (Some(answer), Some(key)) = (parts.next(), parts.next()) else {
        return Ok(false);
    };
    let (Some(op), Some(key)) = (record_of(op)?, record_of(key)?) else {
        return Ok(false);
    };
    let wanted = Step {
        stored: record_of(left)?,
        answer: record_of(answer)?,
    };
    let stored = record_of(stored)?;
    let kept = match stored {
        Some(record) => settle.key(record),
        None => key,
    };
    Ok(settle.step(stored, op) == wanted && settle.key(op) == key && kept == key)
}

/// The number of the first row that an operation doesn't do, or the number of the rows.
fn rows_done<S: Settle>(settle: &S, rows: &str) -> Result<u64, Fail>
    requires ready { S.IsReady settle.now }
{
    let mut number = 0u64;
    for row in rows.lines() {
        if !does(settle, row)? {
            return Ok(number);
        }
        number = number.saturating_add(1);
    }
    Ok(number)
}

#[test]
fn adds_are_joined_by_their_kind(rt: HostRuntime) -> Result<(), Fail> {
    let sum = AddSettle::new(|x: u64, y: u64| x.wrapping_add(y), Combine::Sum);
    assert_eq!(rt; rows_done(&sum, SUM)?, 6);
    let max = AddSettle::new(|x: u64, y: u64| x.max(y), Combine::Max);
    assert_eq!(rt; rows_done(&max, MAX)?, 3);
    let min = AddSettle::new(|x: u64, y: u64| x.min(y), Combine::Min);
    assert_eq!(rt; rows_done(&min, MIN)?, 3);
    let xor = AddSettle::new(|x: u64, y: u64| x ^ y, Combine::Xor);
    assert_eq!(rt; rows_done(&xor, XOR)?, 3);
    assert_eq!(rt; xor.kind(), Combine::Xor);
    assert_eq!(rt; xor.apply(6, 3), 5);
    Ok(())
}

#[test]
fn operations_are_settled_by_their_rules(rt: HostRuntime) -> Result<(), Fail> {
    assert_eq!(rt; rows_done(&MapSettle {}, MAP)?, 8);
    assert_eq!(rt; rows_done(&BagSettle {}, BAG)?, 3);
    let joined = JoinSettle::new(|x: u64, y: u64| x.max(y));
    assert_eq!(rt; rows_done(&joined, JOINED)?, 2);
    Ok(())
}
