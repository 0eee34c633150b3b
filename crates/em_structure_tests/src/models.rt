//! The plain programs beside those of `em_model`, which are proved to answer as the definitions say.

use crate::map_scripts::{self, record};
use crate::plain_map::agrees;
use crate::stab_scripts::{self, pair, pairs_of};
use em_model::{Command, map_answers_of, stab_answers_of};
use em_record::Record;
use std::alloc::{AllocError, Global};
use std::test::Fail;

/// Operations of a map as commands.
fn map_commands(alloc: Global, ops: &[Record]) -> Result<Vec<Command>, AllocError> {
    let mut commands = Vec::new(alloc);
    for op in ops {
        commands.push(match op.c {
            0 => Command::Put {
                key: op.a,
                value: op.d,
            },
            1 => Command::Del { key: op.a },
            3 => Command::Add {
                key: op.a,
                value: op.d,
            },
            _ => Command::Get { key: op.a },
        })?;
    }
    Ok(commands)
}

/// What a batch would note of operations, with the answers of `em_model`: three notes, and an answer for each get.
fn found_by_model(alloc: Global, ops: &[Record]) -> Result<Vec<Record>, AllocError> {
    let commands = map_commands(alloc, ops)?;
    let values = map_answers_of(
        alloc,
        &|x: u64, y: u64| x.wrapping_add(y),
        commands.as_slice(),
    )?;
    let mut values = values.iter();
    let mut found = Vec::new(alloc);
    for _ in 0..3 {
        found.push(Record::ZERO)?;
    }
    for op in ops {
        if op.c == 2 {
            match values.next() {
                Some(Some(value)) => found.push(record(op.b, 1, *value, 0))?,
                _ => found.push(record(op.b, 0, 0, 0))?,
            }
        }
    }
    Ok(found)
}

/// Commands of an interval list.
fn stab_commands(alloc: Global, calls: &[Record]) -> Result<Vec<Command>, AllocError> {
    let mut commands = Vec::new(alloc);
    for call in calls {
        commands.push(if call.c == 0 {
            Command::Interval {
                low: call.a,
                high: call.b,
            }
        } else {
            Command::Stab { point: call.a }
        })?;
    }
    Ok(commands)
}

/// The pairs of the answers of `em_model`.
fn pairs_by_model(alloc: Global, calls: &[Record]) -> Result<Vec<Record>, AllocError> {
    let commands = stab_commands(alloc, calls)?;
    let answers = stab_answers_of(alloc, commands.as_slice())?;
    let mut pairs = Vec::new(alloc);
    for (stab, numbers) in answers.iter().enumerate() {
        for number in numbers.iter() {
            pairs.push(pair(stab as u64, *number))?;
        }
    }
    Ok(pairs)
}

/// 150 operations of 20 keys, and 150 commands of 30 values, of which one of four is an interval. An operation was given,
/// so that no map is fresh.
#[test]
fn the_plain_programs_answer_as_defined(rt: HostRuntime) -> Result<(), Fail> {
    let ops = map_scripts::drawn(rt.alloc(), 150, 20)?;
    let found = found_by_model(rt.alloc(), &ops)?;
    assert!(rt; found.len() > 3);
    assert_eq!(rt; agrees(rt.alloc(), &ops, &found, 127, 0)?, Some(0));
    let calls = stab_scripts::drawn(rt.alloc(), 150, 4, 0, 30)?;
    let pairs = pairs_by_model(rt.alloc(), &calls)?;
    assert!(rt; !pairs.is_empty());
    assert!(rt; pairs_of(rt.alloc(), &calls)?.as_slice() == pairs.as_slice());
    Ok(())
}
