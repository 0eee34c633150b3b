ghost use Rattle.std.specs.Prelude.{◌≡◌, ◌<◌, ◌^◌, ℕ, IfOk};
ghost use Rattle.em_model.specs.Map.{Combiner, Joins, joined_to, no_keys, state_after, map_answers};

use crate::command::Command;
use std::alloc::{AllocError, Global};

/// A value joined to the one that its key has, or this value alone if it has none.
fn joined<F: Fn(u64, u64) -> u64>(combine: &F, before: Option<u64>, value: u64) -> u64
    requires callable { (x y : ℕ) → x < 2 ^ 64 → y < 2 ^ 64 → F.pre combine.now x y }
    ensures { (apply : Combiner) → Joins (F.post combine.now) apply
        → result ≡ joined_to apply before value }
{
    match before {
        Some(old) => combine(old, value),
        None => value,
    }
}

/// The value of a key after some commands, found by going through all of them.
fn value_after<F: Fn(u64, u64) -> u64>(
    combine: &F,
    commands: &[Command],
    wanted: u64,
) -> Option<u64>
    requires callable { (x y : ℕ) → x < 2 ^ 64 → y < 2 ^ 64 → F.pre combine.now x y }
    ensures { (apply : Combiner) → Joins (F.post combine.now) apply
        → result ≡ state_after apply no_keys commands.now wanted }
{
    let mut found = None;
    for command in commands {
        match *command {
            Command::Put { key, value } if wanted == key => found = Some(value),
            Command::Del { key } if wanted == key => found = None,
            Command::Add { key, value } if wanted == key => {
                found = Some(joined(combine, found, value));
            }
            _ => {}
        }
    }
    found
}

/// What a map answers to the commands: for each get, in order, the value of its key, or none. An add joins its
/// value to the old one by `combine`. Goes through the earlier commands at each get. The only error is want of
/// memory.
pub fn map_answers_of<F: Fn(u64, u64) -> u64>(
    alloc: Global,
    combine: &F,
    commands: &[Command],
) -> Result<Vec<Option<u64>>, AllocError>
    requires callable { (x y : ℕ) → x < 2 ^ 64 → y < 2 ^ 64 → F.pre combine.now x y }
    ensures { (apply : Combiner) → Joins (F.post combine.now) apply
        → IfOk result (λ answers. answers.items ≡ map_answers apply commands.now) }
{
    let mut answers = Vec::new(alloc);
    for (i, command) in commands.iter().enumerate() {
        if let Command::Get { key } = *command {
            answers.push(value_after(combine, &commands[..i], key))?;
        }
    }
    Ok(answers)
}
