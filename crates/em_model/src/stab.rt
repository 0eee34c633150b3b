ghost use Rattle.std.specs.Prelude.{◌≡◌, map, IfOk};
ghost use Rattle.em_model.specs.Stab.{holds_point, holders_of, stab_answers};

use crate::command::Command;
use std::alloc::{AllocError, Global};

/// An interval of the interval list.
#[derive(Clone, Copy, Debug, PartialEq, Eq)]
pub struct NumberedInterval {
    /// Its number among all intervals, counted from 0.
    pub number: u64,
    /// Its least point.
    pub low: u64,
    /// Its greatest point.
    pub high: u64,
}

impl NumberedInterval {
    /// Whether the point lies in the interval.
    fn holds(self, point: u64) -> bool
        ensures { result ≡ holds_point point self }
    {
        self.low <= point && point <= self.high
    }
}

/// The numbers of the intervals that hold the point.
fn numbers_at(
    alloc: Global,
    intervals: &[NumberedInterval],
    point: u64,
) -> Result<Vec<u64>, AllocError>
    ensures { IfOk result (λ numbers. numbers.items ≡ holders_of point intervals.now) }
{
    let mut numbers = Vec::new(alloc);
    for interval in intervals {
        if interval.holds(point) {
            numbers.push(interval.number)?;
        }
    }
    Ok(numbers)
}

/// What an interval list answers to the commands: for each stab, in order, the ascending numbers of
/// the earlier intervals that hold its point. Goes through these intervals at each stab. The only
/// error is want of memory.
pub fn stab_answers_of(alloc: Global, commands: &[Command]) -> Result<Vec<Vec<u64>>, AllocError>
    ensures { IfOk result (λ answers.
        map (λ numbers. numbers.items) answers.items ≡ stab_answers commands.now) }
{
    let mut answers = Vec::new(alloc);
    let mut intervals = Vec::new(alloc);
    for command in commands {
        match *command {
            Command::Interval { low, high } => {
                let number = intervals.len() as u64;
                intervals.push(NumberedInterval { number, low, high })?;
            }
            Command::Stab { point } => {
                answers.push(numbers_at(alloc, intervals.as_slice(), point)?)?;
            }
            _ => {}
        }
    }
    Ok(answers)
}
