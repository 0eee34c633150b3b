//! Calls of a queue. Each item has a number of its own in the word `b`.

use crate::map_scripts::{draw, record};
use crate::queues::POP;
use em_record::Record;
use std::alloc::{AllocError, Global};

/// An item with this place in order, which isn't 0. Of items of the same place the one that is made later may be the
/// lesser: an odd number times their numbers gives each another word `b`.
fn item(place: u64, number: u64) -> Record {
    record(
        place,
        number.wrapping_mul(6364136223846793005),
        number % 3,
        place,
    )
}

/// As many pushes and pops as `count`, of which one of four is a pop. The items have 50 places, so many have the same.
pub fn drawn(alloc: Global, count: u64, seed: u64) -> Result<Vec<Record>, AllocError> {
    let mut state = seed;
    let mut calls = Vec::new(alloc);
    for number in 0..count {
        let place = (draw(&mut state) % 50).saturating_add(1);
        if draw(&mut state) % 4 == 0 {
            calls.push(POP)?;
        } else {
            calls.push(item(place, number))?;
        }
    }
    Ok(calls)
}

/// As many pushes as `count`: of items in a drawn order, or in a descending one.
pub fn pushes(alloc: Global, count: u64, falls: bool) -> Result<Vec<Record>, AllocError> {
    let mut state = count;
    let mut calls = Vec::new(alloc);
    for number in 0..count {
        let drawn = draw(&mut state).saturating_add(1);
        let place = if falls {
            count.saturating_sub(number)
        } else {
            drawn
        };
        calls.push(item(place, number))?;
    }
    Ok(calls)
}

/// Some calls, and then as many calls of `last` as `times`; all this `often`.
pub fn with_last(
    alloc: Global,
    calls: &[Record],
    last: Record,
    times: u64,
    often: u64,
) -> Result<Vec<Record>, AllocError> {
    let mut all = Vec::new(alloc);
    for _ in 0..often {
        for call in calls {
            all.push(*call)?;
        }
        for _ in 0..times {
            all.push(last)?;
        }
    }
    Ok(all)
}
