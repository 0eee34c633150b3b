//! A list of records that a new queue sorts.
ghost use Rattle.std.specs.Prelude.{◌≡◌, ◌*◌, ◌+◌, ◌≤◌, ◌^◌, length};
ghost use Rattle.em_record.specs.Shape.{fan_of};
ghost use Rattle.em_space.specs.Seen.{seen};
ghost use Rattle.em_structure_tests.specs.Ready.{HasAll, KeepsQueue, KeepsRig, ReadyQueue};

use crate::reading::{is_long, note, read_all};
use em_devices::write;
use em_frames::Device;
use em_pqueue::ExtQueue;
use em_record::Record;
use em_sorting::sort;
use em_space::{EmFault, Queue, Rig};

/// Writes a list, and sorts it by a queue with no item. Notes the blocks in use before it is sorted, and what `read_all` notes
/// of the sorted list.
fn sort_all<D: Device>(
    rig: &mut Rig<'_, D>,
    queue: &mut ExtQueue,
    records: &[Record],
    found: &mut Vec<Record>,
) -> Result<(), EmFault>
    requires ready { ReadyQueue (2 * length records.now) (seen D.state rig.old) queue.old }
    requires empty { queue.old.len ≡ 0 }
    requires free { 2 * fan_of (seen D.state rig.old).pool.shape + 5
        ≤ (seen D.state rig.old).pool.free }
    requires few { length records.now ≤ 2 ^ 20 }
    ensures kept { KeepsQueue (2 * length records.now) (seen D.state rig.old)
        (seen D.state rig.new) queue.old queue.new result }
{
    let list = write(rig, records)?;
    note(found, (rig.used(), 0), &[], 0);
    let sorted = sort(rig, queue, list)?;
    read_all(rig, sorted, found)
}

/// The same with a new queue, which is ended.
pub fn serve<D: Device>(
    rig: &mut Rig<'_, D>,
    calls: &[Record],
    found: &mut Vec<Record>,
) -> Result<(), EmFault>
    requires { HasAll (seen D.state rig.old) }
    ensures { KeepsRig (seen D.state rig.old) (seen D.state rig.new) }
{
    if is_long(calls) {
        return Ok(());
    }
    let mut queue = ExtQueue::new(rig)?;
    match sort_all(rig, &mut queue, calls, found) {
        Ok(()) => queue.end(rig),
        Err(fault) => {
            queue.abandon(rig);
            Err(fault)
        }
    }
}
