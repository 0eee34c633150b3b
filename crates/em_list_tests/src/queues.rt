//! A queue that gets calls in a row, and is used beside a list after that.
ghost use Rattle.std.specs.Prelude.{◌≡◌, ◌+◌, ◌≤◌, ◌^◌, ℕ, OnOk, length};
ghost use Rattle.em_space.specs.Queue.{CanServe};
ghost use Rattle.em_space.specs.Rig.{Sound};
ghost use Rattle.em_space.specs.Seen.{seen};
ghost use Rattle.em_plain.specs.ScanQueue.{IsScanQueue, LacksFrom};
ghost use Rattle.em_list_tests.specs.Ready.{CanPlay, Keeps, KeepsQueue, ReadyNew, ReadyQueue};

use crate::clients::{copies, drains};
use crate::queued::pops_into;
use crate::room_queue::RoomQueue;
use crate::rows::nth;
use crate::sorting::sorts;
use em_frames::Device;
use em_record::Record;
use em_space::{EmFault, Queue, Rig};

/// The item with this place in order, and this number.
pub fn item(place: u64, number: u64) -> Record
    ensures is { result ≡ record { a = place; b = number; c = 7; d = 0 } }
{
    Record {
        a: place,
        b: number,
        c: 7,
        d: 0,
    }
}

/// Pushes an item with a number that is greater than those of all others.
fn push_next<D: Device>(
    rig: &mut Rig<'_, D>,
    queue: &mut RoomQueue,
    place: u64,
    number: u64,
) -> Result<(), EmFault>
    requires sound { Sound (seen D.state rig.old) }
    requires is { IsScanQueue (seen D.state rig.old) queue.old.queue }
    requires free { CanServe (seen D.state rig.old).pool }
    requires few { queue.old.queue.calls ≤ 2 ^ 20 }
    requires lacks { LacksFrom number (seen D.state rig.old) queue.old.queue }
    ensures kept { KeepsQueue (seen D.state rig.old) (seen D.state rig.new) queue.new.queue result }
    ensures calls { queue.new.queue.calls ≡ queue.old.queue.calls + 1 }
    ensures lacks { OnOk result (LacksFrom (number + 1) (seen D.state rig.new) queue.new.queue) }
{
    queue.push(rig, item(place, number))
}

/// The item that a call is to pop: with 1 in `c` that of the place `a` and the number `b`, else none.
fn popped(call: Record) -> Option<Record> {
    if call.c == 1 {
        return Some(item(call.a, call.b));
    }
    None
}

/// Whether the queue has `a` items, if there is 3 in `c`; else whether the next item is the one that the call is to pop.
fn checks<D: Device>(
    rig: &mut Rig<'_, D>,
    queue: &mut RoomQueue,
    call: Record,
) -> Result<bool, EmFault>
    requires ready { ReadyQueue (2 ^ 20) (seen D.state rig.old) queue.old.queue }
    ensures kept { KeepsQueue (seen D.state rig.old) (seen D.state rig.new) queue.new.queue result }
    ensures calls { queue.new.queue.calls ≤ queue.old.queue.calls + 1 }
    ensures lacks { OnOk result ((n : ℕ) → LacksFrom n (seen D.state rig.old) queue.old.queue
        → LacksFrom (n + 1) (seen D.state rig.new) queue.new.queue) }
{
    if call.c == 3 {
        return Ok(queue.len() == call.a);
    }
    let item = queue.pop(rig)?;
    Ok(item == popped(call))
}

/// Makes a call, and answers whether it came out right. With 0 in `c` an item of the place `a` and of this number is pushed.
fn step<D: Device>(
    rig: &mut Rig<'_, D>,
    queue: &mut RoomQueue,
    call: Record,
    number: u64,
) -> Result<bool, EmFault>
    requires ready { ReadyQueue (2 ^ 20) (seen D.state rig.old) queue.old.queue }
    requires lacks { LacksFrom number (seen D.state rig.old) queue.old.queue }
    ensures kept { KeepsQueue (seen D.state rig.old) (seen D.state rig.new) queue.new.queue result }
    ensures calls { queue.new.queue.calls ≤ queue.old.queue.calls + 1 }
    ensures lacks { OnOk result (LacksFrom (number + 1) (seen D.state rig.new) queue.new.queue) }
{
    if call.c == 0 {
        push_next(rig, queue, call.a, number)?;
        return Ok(true);
    }
    checks(rig, queue, call)
}

/// Makes some calls, numbered from 1, and answers whether all came out right.
fn steps<D: Device>(
    rig: &mut Rig<'_, D>,
    queue: &mut RoomQueue,
    calls: &[Record],
) -> Result<bool, EmFault>
    requires ready { ReadyQueue (2 ^ 10) (seen D.state rig.old) queue.old.queue }
    requires few { length calls.now ≤ 2 ^ 19 }
    requires lacks { LacksFrom 1 (seen D.state rig.old) queue.old.queue }
    ensures kept { KeepsQueue (seen D.state rig.old) (seen D.state rig.new) queue.new.queue result }
    ensures few { OnOk result (queue.new.queue.calls ≤ 2 ^ 20) }
{
    for number in 0..calls.len() {
        if !step(rig, queue, calls[number], number as u64 + 1)? {
            return Ok(false);
        }
    }
    Ok(true)
}

/// Makes the calls of the first list, and then what the script says with the second one.
fn play<D: Device>(
    rig: &mut Rig<'_, D>,
    queue: &mut RoomQueue,
    script: &str,
    lists: &[Vec<Record>],
) -> Result<bool, EmFault>
    requires ready { ReadyNew (seen D.state rig.old) queue.old.queue }
    requires lacks { LacksFrom 1 (seen D.state rig.old) queue.old.queue }
    ensures kept { KeepsQueue (seen D.state rig.old) (seen D.state rig.new) queue.new.queue result }
{
    if script == "sort" {
        return sorts(rig, queue);
    }
    if !steps(rig, queue, nth(lists, 0))? {
        return Ok(false);
    }
    match script {
        "drain" => drains(rig, queue, nth(lists, 1)),
        "beside" => copies(rig, queue, nth(lists, 1)),
        "pop" => pops_into(rig, queue, nth(lists, 1)),
        _ => Ok(true),
    }
}

/// Plays with a new queue, which is ended, and after a fault abandoned.
pub fn follow<D: Device>(
    rig: &mut Rig<'_, D>,
    script: &str,
    lists: &[Vec<Record>],
) -> Result<bool, EmFault>
    requires ready { CanPlay (seen D.state rig.old) }
    ensures kept { Keeps (seen D.state rig.old) (seen D.state rig.new) }
{
    let mut queue = RoomQueue::new(rig)?;
    match play(rig, &mut queue, script, lists) {
        Ok(done) => {
            queue.end(rig)?;
            Ok(done)
        }
        Err(fault) => {
            queue.abandon(rig);
            Err(fault)
        }
    }
}
