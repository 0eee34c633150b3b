//! Clients that are generic over the queue, with a queue of em_plain.
ghost use Rattle.std.specs.Prelude.{◌≤◌, ◌^◌, length, OnOk};
ghost use Rattle.em_frames.specs.Pool.{SameFrames};
ghost use Rattle.em_space.specs.Rig.{Sound};
ghost use Rattle.em_space.specs.Seen.{seen};
ghost use Rattle.em_plain.specs.ScanQueue.{IsScanQueue, QueueHasFrame};
ghost use Rattle.em_list_tests.specs.Ready.{KeepsQueue, ReadyQueue};

use crate::room_queue::RoomQueue;
use em_chain::Writer;
use em_client::{beside, drain};
use em_devices::takes;
use em_frames::Device;
use em_record::Record;
use em_space::{EmFault, Queue, Rig};

/// Whether a queue has three items, and these are drained.
pub fn drains<D: Device>(
    rig: &mut Rig<'_, D>,
    queue: &mut RoomQueue,
    expected: &[Record],
) -> Result<bool, EmFault>
    requires ready { ReadyQueue (2 ^ 20) (seen D.state rig.old) queue.old.queue }
    ensures kept { KeepsQueue (seen D.state rig.old) (seen D.state rig.new) queue.new.queue result }
{
    if queue.len() != 3 {
        return Ok(false);
    }
    let mut out = [Record::ZERO; 3];
    let count = drain(rig, queue, &mut out)?;
    Ok(count == 3 && out.as_slice() == expected)
}

/// Whether these items are popped beside a list, and stand there.
pub fn copies<D: Device>(
    rig: &mut Rig<'_, D>,
    queue: &mut RoomQueue,
    expected: &[Record],
) -> Result<bool, EmFault>
    requires ready { ReadyQueue (2 ^ 20) (seen D.state rig.old) queue.old.queue }
    requires few { length expected.now ≤ 2 ^ 20 }
    ensures sound { Sound (seen D.state rig.new) }
    ensures frames { SameFrames (seen D.state rig.old).pool (seen D.state rig.new).pool }
    ensures has { QueueHasFrame (seen D.state rig.new) queue.new.queue }
    ensures is { OnOk result (IsScanQueue (seen D.state rig.new) queue.new.queue) }
{
    let limit = expected.len() as u64;
    let mut writer = Writer::new(rig);
    match beside(rig, queue, &mut writer, limit) {
        Ok(count) => {
            let chain = writer.finish(rig)?;
            let same = takes(rig, chain, expected)?;
            Ok(same && count == limit)
        }
        Err(fault) => {
            writer.abandon(rig);
            Err(fault)
        }
    }
}
