//! What a batch answers, with adds joined early and not, as worked out by hand or by a plain map.

use crate::map_scripts::{add_rising, drawn, record, with_calls};
use crate::plain_map::{agrees, answers_after, found_at};
use crate::runs::{Structure, run};
use crate::trees::SETTLE;
use em_record::Record;
use std::alloc::Global;
use std::test::Fail;

/// The commands of a text. `K=V` is a put, `K+V` an add, `K-` a del and `K?` a get.
fn commands_of(alloc: Global, text: &str) -> Result<Vec<Record>, Fail> {
    let mut commands = Vec::new(alloc);
    for word in text.split(',') {
        if let Some((key, value)) = word.split_once('=') {
            commands.push(record(key.parse::<u64>()?, 1, 0, value.parse::<u64>()?))?;
        } else if let Some((key, value)) = word.split_once('+') {
            commands.push(record(key.parse::<u64>()?, 1, 3, value.parse::<u64>()?))?;
        } else if let Some((key, _)) = word.split_once('-') {
            commands.push(record(key.parse::<u64>()?, 1, 1, 0))?;
        } else if let Some((key, _)) = word.split_once('?') {
            commands.push(record(key.parse::<u64>()?, 1, 2, 0))?;
        }
    }
    Ok(commands)
}

/// The answers of a text: a number, and the value after a space or none.
fn answers_of(alloc: Global, text: &str) -> Result<Vec<Record>, Fail> {
    let mut answers = Vec::new(alloc);
    for word in text.split(',') {
        if let Some((number, value)) = word.split_once(' ') {
            answers.push(record(number.parse::<u64>()?, 1, value.parse::<u64>()?, 0))?;
        } else if word != "" {
            answers.push(record(word.parse::<u64>()?, 0, 0, 0))?;
        }
    }
    Ok(answers)
}

/// Commands, and the answers in the order of their numbers. Each get sees the commands before it, of its own key alone. Adds
/// are sums, modulo 2^64.
/// The last line has forty puts of one key.
const ROWS: &str = "\
|
1=2,1-|
5?,5=10,5?,5=11,5?,5-,5?,5=0,5?|1,3 10,5 11,7,9 0
0=7,18446744073709551615=8,9-,0?|4 7
0=7,18446744073709551615=8,9-,1?|4
0=7,18446744073709551615=8,9-,18446744073709551615?|4 8
0=7,18446744073709551615=8,9-,9?|4
1=9,1+2,1?,1-,1+2,1+3,1?,2+4,2?|3 11,7 5,9 4
1=18446744073709551615,1+2,1?|3 1
1=2,1=2,1=2,1=2,1=2,1=2,1=2,1=2,1=2,1=2,1=2,1=2,1=2,1=2,1=2,1=2,1=2,1=2,1=2,1=2,1=2,1=2,1=2,1=2,1=2,1=2,1=2,1=2,1=2,1=2,1=2,1=2,1=2,1=2,1=2,1=2,1=2,1=2,1=2,1=2,1?|41 2
";

/// Whether a structure answers these commands so.
fn is_answered(
    alloc: Global,
    structure: Structure,
    commands: &[Record],
    answers: &[Record],
) -> Result<bool, Fail> {
    let mut found = Vec::new(alloc);
    let cost = run(alloc, structure, (128, 64), commands, &mut found)?;
    let found = answers_after(alloc, &found, 3)?;
    Ok(cost.0 == 0 && found.as_slice() == answers)
}

#[test]
fn each_get_answers_the_last_put_of_its_key_before_it(rt: HostRuntime) -> Result<(), Fail> {
    let mut row = 0u64;
    for line in ROWS.lines() {
        row = row.saturating_add(1);
        let (commands, answers) = line.split_once('|').unwrap_or((line, "0"));
        let commands = commands_of(rt.alloc(), commands)?;
        let answers = answers_of(rt.alloc(), answers)?;
        for structure in [Structure::Batch, Structure::EarlyBatch] {
            let same = is_answered(rt.alloc(), structure, &commands, &answers)?;
            assert!(rt; same, "row {row}");
        }
    }
    assert_eq!(rt; row, 10);
    Ok(())
}

/// At the first shape the leaf is split. Its 20,000 operations fill 157 blocks, which are two levels at a fan-out of 16:
/// at most 248 * 158 * 3 moves. At the others a full buffer has 4096 and 8192 operations, and a leaf at most 8192 and
/// 16384 records.
#[test]
fn drawn_commands_are_answered_as_by_a_plain_map(rt: HostRuntime) -> Result<(), Fail> {
    for (structure, block, count, keys, most) in [
        (Structure::Batch, 128, 20_000, 20_000, 248 * 158 * 3),
        (Structure::Batch, 256, 8_000, 2_000, u64::MAX),
        (Structure::Batch, 512, 8_000, 100, u64::MAX),
        (Structure::EarlyBatch, 128, 20_000, 20_000, 248 * 158 * 3),
        (Structure::EarlyBatch, 512, 8_000, 100, u64::MAX),
    ] {
        let calls = drawn(rt.alloc(), count, keys)?;
        let mut found = Vec::new(rt.alloc());
        let cost = run(rt.alloc(), structure, (block, 64), &calls, &mut found)?;
        let same = agrees(rt.alloc(), &calls, &found, 127, 0)?;
        assert_eq!(rt; (same, cost.0), (Some(0), 0), "block {block}");
        let moves = cost.2;
        assert!(rt; moves <= most, "block {block}, moves {moves}");
    }
    Ok(())
}

/// Ten thousand puts and as many gets, 20,000 commands as well. The answers fill 79 blocks of 127 records.
#[test]
fn puts_and_a_get_of_each_are_answered_within_the_share(rt: HostRuntime) -> Result<(), Fail> {
    let mut calls = Vec::new(rt.alloc());
    add_rising(&mut calls, 0, 10_000, 10_000, 10_000)?;
    let mut found = Vec::new(rt.alloc());
    let cost = run(rt.alloc(), Structure::Batch, (128, 64), &calls, &mut found)?;
    assert_eq!(rt; agrees(rt.alloc(), &calls, &found, 127, 0)?, Some(0));
    assert_eq!(rt;
        (found_at(&found, 2), cost.0),
        (record(79, 10_000, 0, 0), 0)
    );
    let moves = cost.2;
    assert!(rt; moves <= 248 * 158 * 3, "moves {moves}");
    Ok(())
}

/// 100,000 adds of one key and a get of it. At this shape they are 98 loads of 1024 commands, of which each leaves one add, and the
/// last one the get too: 99 operations, which fill one block, so that 248 * 2 moves are the most. The adds alone would fill 788 blocks.
#[test]
fn adds_of_one_key_are_few_moves_if_joined_early(rt: HostRuntime) -> Result<(), Fail> {
    let mut calls = Vec::new(rt.alloc());
    for _ in 0..100_000u64 {
        calls.push(record(7, 1, 3, 1))?;
    }
    calls.push(record(7, 1, 2, 0))?;
    let mut found = Vec::new(rt.alloc());
    let cost = run(
        rt.alloc(),
        Structure::EarlyBatch,
        (128, 64),
        &calls,
        &mut found,
    )?;
    assert_eq!(rt; found_at(&found, 3), record(100_001, 1, 100_000, 0));
    let moves = cost.2;
    assert!(rt; moves <= 248 * 2, "moves {moves}");
    Ok(())
}

/// 20,000 keys are put and then deleted, with a sync after each. At the first one their records are in 158 blocks at least, of 127
/// each; at the second one a root and an empty leaf are left, of the room of no record, 96 + 2 * 64 * 3 = 480 blocks. No get
/// came, so that both lists are empty.
#[test]
fn a_sync_gives_the_blocks_of_deleted_keys_back(rt: HostRuntime) -> Result<(), Fail> {
    let mut ops = Vec::new(rt.alloc());
    add_rising(&mut ops, 0, 20_000, 0, 0)?;
    let calls = with_calls(rt.alloc(), &ops, 20_000, SETTLE, SETTLE, 0)?;
    let mut found = Vec::new(rt.alloc());
    let cost = run(rt.alloc(), Structure::Batch, (128, 64), &calls, &mut found)?;
    let first = found_at(&found, 0);
    assert!(rt;
        first.a >= 160 && first.b == 0,
        "{} blocks, {} answers",
        first.a,
        first.b
    );
    assert_eq!(rt; found_at(&found, 1), record(2, 0, 0, 0));
    assert_eq!(rt; cost.0, 0);
    Ok(())
}
