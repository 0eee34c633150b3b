//! Calls of a tree and commands of a batch: operations of a map, numbered from 1.
ghost use Rattle.std.specs.Prelude.{◌<◌};

use em_record::Record;
use std::alloc::{AllocError, Global};

/// The record of these words.
pub fn record(a: u64, b: u64, c: u64, d: u64) -> Record {
    Record { a, b, c, d }
}

/// The next number of a fixed row of numbers.
pub fn draw(state: &mut u64) -> u64 {
    *state = state
        .wrapping_mul(6364136223846793005)
        .wrapping_add(1442695040888963407);
    *state >> 33
}

/// Puts, dels and gets of this many keys, two, one and one of four.
pub fn drawn(alloc: Global, count: u64, keys: u64) -> Result<Vec<Record>, AllocError>
    requires { 0 < keys }
{
    let mut state = keys;
    let mut ops = Vec::new(alloc);
    for before in 0..count {
        let number = before.saturating_add(1);
        let key = draw(&mut state) % keys;
        let value = draw(&mut state);
        let op = match draw(&mut state) % 4 {
            0 => record(key, number, 1, 0),
            1 => record(key, number, 2, 0),
            _ => record(key, number, 0, value),
        };
        ops.push(op)?;
    }
    Ok(ops)
}

/// Adds operations of the keys from 1 on: puts of as many as `count`, dels of those above `kept`, and gets of as many
/// as `asked`. They are numbered after `number`.
pub fn add_rising(
    ops: &mut Vec<Record>,
    number: u64,
    count: u64,
    kept: u64,
    asked: u64,
) -> Result<(), AllocError> {
    let mut number = number;
    for (what, first, last) in [(0, 0, count), (1, kept, count), (2, 0, asked)] {
        for before in first..last {
            number = number.saturating_add(1);
            let key = before.saturating_add(1);
            let value = if what == 0 { key } else { 0 };
            ops.push(record(key, number, what, value))?;
        }
    }
    Ok(())
}

/// Some calls, with another one after each that is `call`.
pub fn followed(
    alloc: Global,
    calls: &[Record],
    call: Record,
    next: Record,
) -> Result<Vec<Record>, AllocError> {
    let mut all = Vec::new(alloc);
    for each in calls {
        all.push(*each)?;
        if *each == call {
            all.push(next)?;
        }
    }
    Ok(all)
}

/// Some operations, with a call after each number that `every` divides, if it isn't 0; and at the end another call,
/// this many times.
pub fn with_calls(
    alloc: Global,
    ops: &[Record],
    every: u64,
    call: Record,
    last: Record,
    times: u64,
) -> Result<Vec<Record>, AllocError> {
    let mut calls = Vec::new(alloc);
    for op in ops {
        calls.push(*op)?;
        if every > 0 && op.b % every == 0 {
            calls.push(call)?;
        }
    }
    for _ in 0..times {
        calls.push(last)?;
    }
    Ok(calls)
}
