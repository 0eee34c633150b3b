//! A list that is sorted by a queue.
ghost use Rattle.em_space.specs.Seen.{seen};
ghost use Rattle.em_list_tests.specs.Ready.{KeepsQueue, ReadyNew};

use crate::queues::item;
use crate::room_queue::RoomQueue;
use em_devices::{takes, write};
use em_frames::Device;
use em_sorting::sort;
use em_space::{EmFault, Rig};

/// Whether three records are sorted, two of which differ in the second word alone.
pub fn sorts<D: Device>(rig: &mut Rig<'_, D>, queue: &mut RoomQueue) -> Result<bool, EmFault>
    requires ready { ReadyNew (seen D.state rig.old) queue.old.queue }
    ensures kept { KeepsQueue (seen D.state rig.old) (seen D.state rig.new) queue.new.queue result }
{
    let list = write(rig, &[item(2, 5), item(1, 9), item(2, 3)])?;
    let sorted = sort(rig, queue, list)?;
    takes(rig, sorted, &[item(1, 9), item(2, 3), item(2, 5)])
}
