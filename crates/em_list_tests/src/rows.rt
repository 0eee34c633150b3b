//! Tables of runs, a line for each:
//!
//!     script place|blocks failing|answer|used most moves peak|list|list ..
//!
//! `failing` is the call of the device that fails, if one does. The answer is `ok`, `device`, `full 2` with the blocks in use, or
//! `damaged 0` with the block's number; then the four numbers are the record that the device gives for each that is read. A list
//! has commas between its records, and a record spaces between its words, of which the last ones are left out if they are 0. For
//! records in a row a word is `from:to`, without the last number, or `from:to:step`; it falls if `to` is less.
ghost use Rattle.std.specs.Prelude.{◌≤◌, length};

use em_record::Record;
use em_space::EmFault;
use std::alloc::Global;
use std::test::Fail;

/// What a script answers: whether all was as it should be, or why it gave up.
pub type Answer = Result<bool, EmFault>;

/// A line of a table.
#[derive(Drop)]
pub struct Row<'a> {
    pub script: &'a str,
    pub place: usize,
    pub blocks: u64,
    /// The call of the device that fails, or a number that no call has.
    pub failing: u64,
    pub answer: Answer,
    pub numbers: [u64; 4],
    pub lists: Vec<Vec<Record>>,
}

/// The list at a place, if it has at most 10,000 records; else one of none.
pub fn nth(lists: &[Vec<Record>], place: usize) -> &[Record]
    ensures few { length result.now ≤ 10000 }
{
    match lists.get(place) {
        Some(list) if list.len() <= 10_000 => list.as_slice(),
        _ => &[],
    }
}

/// The numbers of a part, between spaces.
fn numbers_of(alloc: Global, part: &str) -> Result<Vec<u64>, Fail> {
    let mut numbers = Vec::new(alloc);
    for word in part.split(' ') {
        numbers.push(word.parse::<u64>()?)?;
    }
    Ok(numbers)
}

/// The first number of a word of records in a row, what is added for each, and how many there are.
fn span_of(word: &str) -> Result<(u64, u64, u64), Fail> {
    let Some((from, rest)) = word.split_once(':') else {
        return Ok((word.parse::<u64>()?, 0, 1));
    };
    let from = from.parse::<u64>()?;
    let (to, step) = match rest.split_once(':') {
        Some((to, step)) => (to.parse::<u64>()?, step.parse::<u64>()?),
        None => (rest.parse::<u64>()?, 1),
    };
    let step = step.max(1);
    if to < from {
        Ok((from, 0u64.wrapping_sub(step), (from - to) / step))
    } else {
        Ok((from, step, (to - from) / step))
    }
}

/// Adds the records of a part of a list.
fn add_records(records: &mut Vec<Record>, part: &str) -> Result<(), Fail> {
    let mut spans = [(0u64, 0u64); 4];
    let mut place = 0;
    let mut count = 0;
    for word in part.split(' ') {
        let (from, step, most) = span_of(word)?;
        if place < 4 {
            spans[place] = (from, step);
            place += 1;
        }
        count = most.max(count);
    }
    let [a, b, c, d] = spans;
    for number in 0..count {
        records.push(Record {
            a: a.0.wrapping_add(a.1.wrapping_mul(number)),
            b: b.0.wrapping_add(b.1.wrapping_mul(number)),
            c: c.0.wrapping_add(c.1.wrapping_mul(number)),
            d: d.0.wrapping_add(d.1.wrapping_mul(number)),
        })?;
    }
    Ok(())
}

/// The lists of a line, each after a `|`.
fn lists_of(alloc: Global, text: &str) -> Result<Vec<Vec<Record>>, Fail> {
    let mut lists = Vec::new(alloc);
    for list in text.split('|') {
        let mut records = Vec::new(alloc);
        for part in list.split(',') {
            if !part.is_empty() {
                add_records(&mut records, part)?;
            }
        }
        lists.push(records)?;
    }
    Ok(lists)
}

/// The answer that a word stands for.
fn answer_of(text: &str) -> Result<Answer, Fail> {
    match text.split_once(' ') {
        Some(("full", used)) => Ok(Err(EmFault::Full {
            used: used.parse::<u64>()?,
        })),
        Some((_, block)) => Ok(Err(EmFault::Damaged {
            block: block.parse::<u64>()?,
        })),
        None if text == "ok" => Ok(Ok(true)),
        None => Ok(Err(EmFault::DeviceFault)),
    }
}

/// The row of a line, or none if it lacks a part.
pub fn row_of<'a>(alloc: Global, line: &'a str) -> Result<Option<Row<'a>>, Fail> {
    let Some((script, rest)) = line.split_once(' ') else {
        return Ok(None);
    };
    let Some((place, rest)) = rest.split_once('|') else {
        return Ok(None);
    };
    let Some((calls, rest)) = rest.split_once('|') else {
        return Ok(None);
    };
    let Some((answer, rest)) = rest.split_once('|') else {
        return Ok(None);
    };
    let Some((cost, lists)) = rest.split_once('|') else {
        return Ok(None);
    };
    let (blocks, failing) = match calls.split_once(' ') {
        Some((blocks, failing)) => (blocks.parse::<u64>()?, failing.parse::<u64>()?),
        None => (calls.parse::<u64>()?, u64::MAX),
    };
    let cost = numbers_of(alloc, cost)?;
    let [used, most, moves, peak] = cost.as_slice() else {
        return Ok(None);
    };
    Ok(Some(Row {
        script,
        place: place.parse::<usize>()?,
        blocks,
        failing,
        answer: answer_of(answer)?,
        numbers: [*used, *most, *moves, *peak],
        lists: lists_of(alloc, lists)?,
    }))
}
