//! A list that takes items of a queue.
ghost use Rattle.std.specs.Prelude.{◌≤◌, ◌^◌, length};
ghost use Rattle.em_space.specs.Seen.{seen};
ghost use Rattle.em_list_tests.specs.Ready.{KeepsQueue, ReadyQueue};

use crate::room_queue::RoomQueue;
use em_chain::Writer;
use em_devices::takes;
use em_frames::Device;
use em_queued::pop_into;
use em_record::Record;
use em_space::{EmFault, Rig};

/// Whether this many pops into a new list give these records.
pub fn pops_into<D: Device>(
    rig: &mut Rig<'_, D>,
    queue: &mut RoomQueue,
    expected: &[Record],
) -> Result<bool, EmFault>
    requires ready { ReadyQueue (2 ^ 20) (seen D.state rig.old) queue.old.queue }
    requires few { length expected.now ≤ 2 ^ 20 }
    ensures kept { KeepsQueue (seen D.state rig.old) (seen D.state rig.new) queue.new.queue result }
{
    let mut list = Writer::new(rig);
    match pop_into(rig, queue, &mut list, expected.len() as u64) {
        Ok(()) => {
            let chain = list.finish(rig)?;
            takes(rig, chain, expected)
        }
        Err(fault) => {
            list.abandon(rig);
            Err(fault)
        }
    }
}
