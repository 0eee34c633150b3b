ghost use Rattle.std.specs.Prelude.{◌≡◌, IfOk};
ghost use Rattle.em_model.specs.Queue.{goes_before, least_of, without_number, without_least};
ghost use Rattle.em_model.specs.Queue.{queue_answers};

use crate::command::Command;
use std::alloc::{AllocError, Global};

/// A pushed element of the queue.
#[derive(Clone, Copy, Debug, PartialEq, Eq)]
pub struct Item {
    /// What it is ordered by.
    pub key: u64,
    /// The number of its push, counted from 1.
    pub number: u64,
    /// What a pop answers beside the key.
    pub value: u64,
}

/// Whether `x` goes before `y`.
fn is_before(x: Item, y: Item) -> bool
    ensures { result ≡ goes_before x y }
{
    x.key < y.key || (x.key == y.key && x.number < y.number)
}

/// The item that goes before all others, or none of no items.
fn first_of(items: &[Item]) -> Option<Item>
    ensures { result ≡ least_of items.now }
{
    let (first, rest) = items.split_first()?;
    let mut least = *first;
    for item in rest {
        if is_before(*item, least) {
            least = *item;
        }
    }
    Some(least)
}

/// Removes the item with this number.
fn remove_number(waiting: &mut Vec<Item>, number: u64)
    ensures { waiting.new.items ≡ without_number number waiting.old.items }
{
    waiting.retain(|item| item.number != number);
}

/// Removes and returns the item that goes before all others, or none where no item waits.
#[tactic(auto, using(crate::proofs::QueueLaws::without_least_some))]
fn pop_first(waiting: &mut Vec<Item>) -> Option<Item>
    ensures item { result ≡ least_of waiting.old.items }
    ensures rest { waiting.new.items ≡ without_least waiting.old.items }
{
    let first = first_of(waiting.as_slice())?;
    remove_number(waiting, first.number);
    Some(first)
}

/// What a queue answers to the commands: for each pop, in order, the key and value of the element
/// that it removes, or none where no element waits. Goes through the waiting elements at each pop.
/// The only error is want of memory.
pub fn queue_answers_of(
    alloc: Global,
    commands: &[Command],
) -> Result<Vec<Option<(u64, u64)>>, AllocError>
    ensures { IfOk result (λ answers. answers.items ≡ queue_answers commands.now) }
{
    let mut answers = Vec::new(alloc);
    let mut waiting = Vec::new(alloc);
    let mut pushes = 0;
    for command in commands {
        match *command {
            Command::Push { key, value } => {
                pushes += 1;
                waiting.push(Item {
                    key,
                    number: pushes,
                    value,
                })?;
            }
            Command::Pop => {
                let popped = pop_first(&mut waiting);
                answers.push(popped.map(|item| (item.key, item.value)))?;
            }
            _ => {}
        }
    }
    Ok(answers)
}
