//! Commands of an interval list, and the pairs that they answer.
ghost use Rattle.std.specs.Prelude.{◌<◌};

use crate::map_scripts::{draw, record};
use em_record::Record;
use std::alloc::{AllocError, Global};

/// An interval.
pub fn interval(low: u64, high: u64) -> Record {
    record(low, high, 0, 0)
}

/// A stab.
pub fn stab(point: u64) -> Record {
    record(point, 0, 1, 0)
}

/// The record of a stab and an interval that holds its point.
pub fn pair(stab: u64, interval: u64) -> Record {
    record(stab, interval, 0, 0)
}

/// Five stabs and three intervals, of which four pairs come: the stabs 1 and 4 are at 5, which the interval 0 holds, and
/// the stab 4 comes after the interval 2, which holds it too; the stab 3 is at an end of the interval 1.
pub fn worked(alloc: Global) -> Result<Vec<Record>, AllocError> {
    let mut calls = Vec::new(alloc);
    for call in [
        stab(5),
        interval(5, 5),
        interval(7, u64::MAX),
        stab(5),
        stab(6),
        stab(u64::MAX),
        interval(0, 5),
        stab(5),
    ] {
        calls.push(call)?;
    }
    Ok(calls)
}

/// An interval, and then a stab at each point below a count.
pub fn one_over_points(
    alloc: Global,
    count: u64,
    low: u64,
    high: u64,
) -> Result<Vec<Record>, AllocError> {
    let mut calls = Vec::new(alloc);
    calls.push(interval(low, high))?;
    for point in 0..count {
        calls.push(stab(point))?;
    }
    Ok(calls)
}

/// This many commands of values from `first` on, of which there are `values`. One of `rare` is an interval.
pub fn drawn(
    alloc: Global,
    count: u64,
    rare: u64,
    first: u64,
    values: u64,
) -> Result<Vec<Record>, AllocError>
    requires rare { 0 < rare }
    requires values { 0 < values }
{
    let mut state = values;
    let mut calls = Vec::new(alloc);
    for _ in 0..count {
        let from = first.saturating_add(draw(&mut state) % values);
        let to = first.saturating_add(draw(&mut state) % values);
        if draw(&mut state) % rare == 0 {
            calls.push(interval(from.min(to), from.max(to)))?;
        } else {
            calls.push(stab(from))?;
        }
    }
    Ok(calls)
}

/// The pairs of a plain program, which tries each earlier interval at each stab.
pub fn pairs_of(alloc: Global, calls: &[Record]) -> Result<Vec<Record>, AllocError> {
    let mut pairs = Vec::new(alloc);
    let mut intervals = Vec::new(alloc);
    let mut stabs = 0u64;
    for call in calls {
        if call.c == 0 {
            intervals.push(*call)?;
        } else {
            for (number, interval) in intervals.iter().enumerate() {
                if interval.a <= call.a && call.a <= interval.b {
                    pairs.push(pair(stabs, number as u64))?;
                }
            }
            stabs = stabs.saturating_add(1);
        }
    }
    Ok(pairs)
}
