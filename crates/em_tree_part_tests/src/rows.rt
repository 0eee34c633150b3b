//! Rows of numbers, each of which is a call on a new rig, and what it answers and costs.
//!
//! A row has three parts: the blocks of the device, its call that fails, and the numbers of the call; what is answered; and the
//! blocks in use, the most in use at once, the moves, and the most frames out at once.
ghost use Rattle.std.specs.Prelude.{◌≡◌};

use crate::calls::{Call, called};
use em_devices::{Quiet, ended, opened};
use em_record::{Failed, Record};
use em_space::EmFault;
use std::alloc::Global;
use std::test::Fail;

/// The numbers of a part of a row. Zeros stand after them.
pub type Numbers = [u64; 8];

/// What a call answers.
pub type Answer = Result<Numbers, EmFault>;

/// What a row has for no record, and for no call that fails.
pub const NONE: u64 = 0xffff_ffff_ffff_ffff;

/// The first word of a key, if there is one.
pub fn word_of(key: Option<Record>) -> u64 {
    match key {
        Some(key) => key.a,
        None => NONE,
    }
}

/// The number that a word stands for.
fn number(word: &str) -> Result<u64, Fail> {
    match word {
        "none" => Ok(NONE),
        "found" => Ok(0),
        "next" => Ok(1),
        "nothing" => Ok(2),
        _ => Ok(word.parse::<u64>()?),
    }
}

/// The numbers of a text.
pub fn numbers(text: &str) -> Result<Numbers, Fail> {
    let mut numbers = [0; 8];
    let mut at = 0usize;
    for word in text.split(' ') {
        if let Some(place) = numbers.get_mut(at) {
            *place = number(word)?;
        }
        at = at.saturating_add(1);
    }
    Ok(numbers)
}

/// The answer that a text stands for. A word that is none of these is a failure of the test.
fn answer_of(text: &str) -> Result<Answer, Fail> {
    let Some((kind, rest)) = text.split_once(' ') else {
        return match text {
            "fault" => Ok(Err(EmFault::DeviceFault)),
            _ => Err(Fail::from(Failed)),
        };
    };
    let numbers = numbers(rest)?;
    let [first, ..] = numbers;
    match kind {
        "ok" => Ok(Ok(numbers)),
        "full" => Ok(Err(EmFault::Full { used: first })),
        "damaged" => Ok(Err(EmFault::Damaged { block: first })),
        _ => Err(Fail::from(Failed)),
    }
}

/// Makes a call on a new rig, and answers what it answers and costs.
#[tactic(auto, using(crate::proofs::Ready::kept, crate::proofs::Ready::ready_opened, crate::proofs::Ready::whole_ready))]
fn run(alloc: Global, call: Call, given: Numbers) -> Result<(Answer, Numbers), Fail> {
    let [blocks, failing, ..] = given;
    let mut device = Quiet::new(alloc, &[failing])?;
    let mut rig = opened(alloc, blocks.max(1).min(1000), &mut device)?;
    let answer = called(&mut rig, call, given);
    let (used, most, moves, peak) = ended(rig);
    Ok((answer, [used, most, moves, u64::from(peak), 0, 0, 0, 0]))
}

/// Whether a call does what its row says.
fn is_right(alloc: Global, call: Call, row: &str) -> Result<bool, Fail> {
    let Some((given, rest)) = row.split_once('|') else {
        return Ok(false);
    };
    let Some((answer, cost)) = rest.split_once('|') else {
        return Ok(false);
    };
    let ended = run(alloc, call, numbers(given)?)?;
    Ok(ended == (answer_of(answer)?, numbers(cost)?))
}

/// The number of the first row at which a call does something else.
pub fn first_wrong_row(alloc: Global, call: Call, rows: &str) -> Result<Option<u64>, Fail> {
    let mut number = 0u64;
    for row in rows.lines() {
        number = number.saturating_add(1);
        if !is_right(alloc, call, row)? {
            return Ok(Some(number));
        }
    }
    Ok(None)
}

/// The first of the moves of a call after whose failure it doesn't answer `DeviceFault`. Call 0 of the device
/// begins it, and each move is one more.
pub fn first_unfaulted(
    alloc: Global,
    call: Call,
    given: Numbers,
    moves: u64,
) -> Result<Option<u64>, Fail> {
    let [blocks, _, first, second, third, ..] = given;
    for before in 0..moves {
        let failing = before.saturating_add(1);
        let (answer, _cost) = run(
            alloc,
            call,
            [blocks, failing, first, second, third, 0, 0, 0],
        )?;
        if answer != Err(EmFault::DeviceFault) {
            return Ok(Some(failing));
        }
    }
    Ok(None)
}
