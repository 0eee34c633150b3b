//! A queue of em_plain that states its room.
//!
//!     k calls between two moments at which it has no item    ceil(k/P) blocks of items, and one into which a pop writes
//!
//! All that it does is done by a `ScanQueue`, which states none. So what the trait says of a queue with a room is met by a
//! second queue, beside the external one.
ghost use Rattle.std.specs.Prelude.{◌≡◌, ◌≤◌, [], IfOk, IsOk};
ghost use Rattle.em_space.specs.Rig.{Sound};
ghost use Rattle.em_space.specs.Seen.{seen};
ghost use Rattle.em_chain.specs.Effects.{LendsFrame, Unmoved};
ghost use Rattle.em_plain.specs.ScanQueue.{IsScanQueue, counts_of, fresh_counts, queue_blocks};

use em_frames::Device;
use em_plain::ScanQueue;
use em_record::Record;
use em_space::{EmFault, Queue, Rig};

/// A queue whose room goes by its calls. It holds a frame and can't be dropped.
pub struct RoomQueue {
    queue: ScanQueue,
}

impl RoomQueue {
    /// A queue with no item. It takes no block yet, and never gives up.
    pub fn new<D: Device>(rig: &mut Rig<'_, D>) -> Result<RoomQueue, EmFault>
        requires sound { Sound (seen D.state rig.old) }
        requires free { 6 ≤ (seen D.state rig.old).pool.free }
        ensures lends { LendsFrame (seen D.state rig.old) (seen D.state rig.new) }
        ensures unmoved { Unmoved (seen D.state rig.old) (seen D.state rig.new) }
        ensures is { IfOk result (λ q. IsScanQueue (seen D.state rig.new) q.queue) }
        ensures blocks { IfOk result (λ q. queue_blocks (seen D.state rig.new) q.queue ≡ []) }
        ensures counts { IfOk result (λ q. counts_of q.queue ≡ fresh_counts 1 0) }
        ensures complete { IsOk result }
    {
        let queue = ScanQueue::new(rig)?;
        Ok(RoomQueue { queue })
    }
}

impl Queue for RoomQueue {
    ghost use Rattle.std.specs.Prelude.{None, Some};
    ghost use Rattle.em_plain.specs.ScanQueue.{QueueHasFrame, one_block, queue_items};
    ghost use Rattle.em_plain.specs.QueueLaws as laws;
    ghost use Rattle.em_list_tests.specs.Room.{list_room, list_room_rises};

    ghost items = { λ q s. queue_items s q.queue };

    ghost blocks = { λ q s. queue_blocks s q.queue };

    ghost IsQueue = { λ q s. IsScanQueue s q.queue };

    ghost HasItsFrames = { λ q s. QueueHasFrame s q.queue };

    ghost counts = { λ q. counts_of q.queue };

    ghost allowance = { None };

    ghost room = { Some list_room };

    ghost enough = { one_block };

    ghost frames_of = { λ q s h. h.rest };

    ghost len_is = { λ q. laws.len_is q.queue };

    ghost blocks_is = { λ q. laws.blocks_is q.queue };

    ghost ascending = { λ q. laws.ascending q.queue };

    ghost holds = { λ q. laws.holds q.queue };

    ghost stays = { λ q. laws.stays q.queue };

    ghost frames_stay = { λ q. laws.frames_stay q.queue };

    ghost out = { λ q. laws.out q.queue };

    ghost spent_most = { λ q s h. h.spent_most };

    ghost k_most = { λ q s h. h.k_most };

    ghost since_most = { λ q s h. h.since_most };

    ghost since_none = { λ q s h e. h.since_none e };

    ghost blocks_most = { λ q s h. h.blocks_most };

    ghost unstored_most = { λ q. laws.unstored_most q.queue };

    ghost rising = { tt };

    ghost spends = { λ q s h told. tt };

    ghost rising_room = { list_room_rises };

    ghost fits = { λ q s h told. h.most_most };

    fn push<D: Device>(&mut self, rig: &mut Rig<'_, D>, item: Record) -> Result<(), EmFault> {
        self.queue.push(rig, item)
    }

    fn pop<D: Device>(&mut self, rig: &mut Rig<'_, D>) -> Result<Option<Record>, EmFault> {
        self.queue.pop(rig)
    }

    fn len(&self) -> u64 {
        self.queue.len()
    }

    fn abandon<D: Device>(self, rig: &mut Rig<'_, D>) {
        let RoomQueue { queue } = self;
        queue.abandon(rig);
    }

    fn end<D: Device>(self, rig: &mut Rig<'_, D>) -> Result<(), EmFault> {
        let RoomQueue { queue } = self;
        queue.end(rig)
    }
}
