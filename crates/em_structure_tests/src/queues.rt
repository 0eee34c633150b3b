//! A queue that gets calls. A call is a record: an item that is pushed, or one of these.
ghost use Rattle.std.specs.Prelude.{◌*◌, ◌≤◌, ◌^◌, length};
ghost use Rattle.em_space.specs.Seen.{seen};
ghost use Rattle.em_structure_tests.specs.Ready.{HasAll, KeepsQueue, KeepsRig, ReadyQueue};

use crate::reading::{is_long, note};
use em_client::drain;
use em_frames::Device;
use em_pqueue::ExtQueue;
use em_record::Record;
use em_space::{EmFault, Queue, Rig};

/// Pops an item.
pub const POP: Record = Record::ZERO;

/// Drains the queue by `em_client`.
pub const DRAIN: Record = Record {
    a: u64::MAX,
    b: u64::MAX,
    c: u64::MAX,
    d: u64::MAX,
};

/// Pops an item, and notes it; or `POP`, if there is none. If none is left, notes the blocks in use as well.
fn pop<D: Device>(
    rig: &mut Rig<'_, D>,
    queue: &mut ExtQueue,
    found: &mut Vec<Record>,
) -> Result<(), EmFault>
    requires { ReadyQueue (2 ^ 20) (seen D.state rig.old) queue.old }
    ensures { KeepsQueue (2 ^ 20) (seen D.state rig.old) (seen D.state rig.new)
        queue.old queue.new result }
{
    let item = queue.pop(rig)?;
    note_item(found, item.unwrap_or(POP), queue.len(), rig.used());
    Ok(())
}

/// Notes an item; and the blocks in use, if no item is left.
fn note_item(found: &mut Vec<Record>, item: Record, left: u64, used: u64) {
    if found.push(item).is_ok() && left == 0 {
        note(found, (used, 0), &[], 0);
    }
}

/// Drains the queue into the first places of these, if they are enough.
#[tactic(auto, using(crate::proofs::QueueKeeps::still_keeps))]
fn drain_all<D: Device>(
    rig: &mut Rig<'_, D>,
    queue: &mut ExtQueue,
    out: &mut [Record],
) -> Result<(), EmFault>
    requires { ReadyQueue (2 ^ 20) (seen D.state rig.old) queue.old }
    ensures { KeepsQueue (2 ^ 20) (seen D.state rig.old) (seen D.state rig.new)
        queue.old queue.new result }
{
    if is_long(out) {
        return Ok(());
    }
    if queue.len() > out.len() as u64 {
        return Ok(());
    }
    drain(rig, queue, out)?;
    Ok(())
}

/// One call.
fn step<D: Device>(
    rig: &mut Rig<'_, D>,
    queue: &mut ExtQueue,
    call: Record,
    found: &mut Vec<Record>,
) -> Result<(), EmFault>
    requires { ReadyQueue (2 ^ 20) (seen D.state rig.old) queue.old }
    ensures { KeepsQueue (2 ^ 20) (seen D.state rig.old) (seen D.state rig.new)
        queue.old queue.new result }
{
    if call == POP {
        return pop(rig, queue, found);
    }
    if call == DRAIN {
        return drain_all(rig, queue, found.as_mut_slice());
    }
    queue.push(rig, call)
}

/// Some calls.
fn step_all<D: Device>(
    rig: &mut Rig<'_, D>,
    queue: &mut ExtQueue,
    calls: &[Record],
    found: &mut Vec<Record>,
) -> Result<(), EmFault>
    requires { ReadyQueue (2 ^ 20 * length calls.now) (seen D.state rig.old) queue.old }
    ensures { KeepsQueue (2 ^ 20 * length calls.now) (seen D.state rig.old) (seen D.state rig.new)
        queue.old queue.new result }
{
    for call in calls {
        step(rig, queue, *call, found)?;
    }
    Ok(())
}

/// The same with a new queue, which is ended.
pub fn serve<D: Device>(
    rig: &mut Rig<'_, D>,
    calls: &[Record],
    found: &mut Vec<Record>,
) -> Result<(), EmFault>
    requires { HasAll (seen D.state rig.old) }
    ensures { KeepsRig (seen D.state rig.old) (seen D.state rig.new) }
{
    if is_long(calls) {
        return Ok(());
    }
    let mut queue = ExtQueue::new(rig)?;
    match step_all(rig, &mut queue, calls, found) {
        Ok(()) => queue.end(rig),
        Err(fault) => {
            queue.abandon(rig);
            Err(fault)
        }
    }
}
