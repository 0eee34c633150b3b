//! A plain map, beside which a tree or a batch gets calls.
ghost use Rattle.std.specs.Prelude.{◌<◌};

use crate::map_scripts::record;
use crate::trees::{HAND, SETTLE, TAKE};
use em_record::Record;
use std::alloc::{AllocError, Global};
use std::test::Fail;

/// The keys of the runs are below this number.
const KEYS: usize = 20_000;

/// The values of a map by their keys, the answers so far, how many of the records that were found are gone through, and
/// whether nothing was given since the map was new or all was taken out.
#[derive(Drop)]
struct Plain {
    values: Vec<Option<u64>>,
    answers: Vec<Record>,
    at: usize,
    fresh: bool,
    /// The records that were taken.
    taken: u64,
}

impl Plain {
    /// An empty map.
    fn new(alloc: Global) -> Result<Plain, AllocError> {
        Ok(Plain {
            values: vec![in alloc; None; KEYS]?,
            answers: Vec::new(alloc),
            at: 0,
            fresh: true,
            taken: 0,
        })
    }

    /// A put, a del or a get.
    fn gives(&mut self, op: Record) -> Result<(), AllocError> {
        self.fresh = false;
        let Some(place) = self.values.get_mut(op.a as usize) else {
            return Ok(());
        };
        match op.c {
            0 => *place = Some(op.d),
            1 => *place = None,
            _ => {
                let answer = match *place {
                    Some(value) => record(op.b, 1, value, 0),
                    None => record(op.b, 0, 0, 0),
                };
                self.answers.push(answer)?;
            }
        }
        Ok(())
    }

    /// The next record that was found.
    fn next(&mut self, found: &[Record]) -> Record {
        let record = found_at(found, self.at);
        self.at = self.at.saturating_add(1);
        record
    }

    /// Takes as many of the least records out as a call did. Whether they are those that it found, and more than half
    /// of an area or all. If none is left, a root and a leaf are in use, and the blocks of the answers so far, of which
    /// each has `payload`.
    fn takes(&mut self, found: &[Record], payload: usize, area: u64) -> bool
        requires { 0 < payload }
    {
        let told = self.next(found);
        let mut count = 0u64;
        for key in 0..KEYS {
            let value = self.values.get(key).copied().flatten();
            if let Some(value) = value {
                if count == told.a {
                    return told.a > area / 2;
                }
                if self.next(found) != record(key as u64, 0, 0, value) {
                    return false;
                }
                count = count.saturating_add(1);
                self.taken = self.taken.saturating_add(1);
                if let Some(place) = self.values.get_mut(key) {
                    *place = None;
                }
            }
        }
        self.fresh = true;
        let blocks = self.answers.len().div_ceil(payload) as u64;
        told == record(count, blocks.saturating_add(2), 0, 0)
    }

    /// Takes all answers so far, of which a call found each once, in any order.
    fn hands(&mut self, alloc: Global, found: &[Record]) -> Result<bool, Fail> {
        let count = self.next(found).b;
        let mut handed = Vec::new(alloc);
        for _ in 0..count {
            handed.push(self.next(found))?;
        }
        handed.sort()?;
        let same = handed.as_slice() == self.answers.as_slice();
        self.answers = Vec::new(alloc);
        Ok(same)
    }
}

/// Whether a tree or a batch answered its calls as a plain map does: the records that were taken, with an area of so
/// many, the answers that were handed out, whether it is fresh, and each answer once. A block has `payload` of them. Answers how many records were taken, or
/// None if it didn't.
pub fn agrees(
    alloc: Global,
    calls: &[Record],
    found: &[Record],
    payload: usize,
    area: u64,
) -> Result<Option<u64>, Fail>
    requires { 0 < payload }
{
    let mut plain = Plain::new(alloc)?;
    for call in calls {
        if *call == TAKE {
            if !plain.takes(found, payload, area) {
                return Ok(None);
            }
        } else if *call == HAND {
            if !plain.hands(alloc, found)? {
                return Ok(None);
            }
        } else if *call != SETTLE {
            plain.gives(*call)?;
        }
    }
    let fresh = found_at(found, plain.at).b == u64::from(plain.fresh);
    let answers = answers_after(alloc, found, plain.at.saturating_add(3))?;
    let same = answers.as_slice() == plain.answers.as_slice();
    Ok(if fresh && same {
        Some(plain.taken)
    } else {
        None
    })
}

/// The records that were found after this many, in order.
pub fn answers_after(alloc: Global, found: &[Record], at: usize) -> Result<Vec<Record>, Fail> {
    let mut answers = Vec::new(alloc);
    for record in found.iter().skip(at) {
        answers.push(*record)?;
    }
    answers.sort()?;
    Ok(answers)
}

/// The record that was found at a place, or one that no run finds.
pub fn found_at(found: &[Record], at: usize) -> Record {
    let none = record(u64::MAX, u64::MAX, u64::MAX, u64::MAX);
    found.get(at).copied().unwrap_or(none)
}
