ghost use Rattle.std.specs.Prelude.{◌≡◌, ◌<◌, [], OnErr, IfOk, IfErr, IsOk};
ghost use Rattle.em_record.specs.Count.{Rose};
ghost use Rattle.em_frames.specs.Pool.{GivenFrames, given};
ghost use Rattle.em_space.specs.Rig.{Sound, Touches, DeviceCause, Owes, MovesToAlloc};
ghost use Rattle.em_space.specs.Seen.{seen};
ghost use Rattle.em_cell.specs.Calls.{MovesOne, TakesBlock, Awaits, AwaitsNone, Finishes};
ghost use Rattle.em_cell.specs.Cell.{IsPending, HasItsFrame, pending_blocks};

use crate::cell::{Cell, lay_out};
use em_frames::{Device, Frame};
use em_space::{EmFault, Rig};

/// A number that isn't stored yet. It holds a block and a frame, and can't be dropped: `finish`
/// stores it, and `abandon` lets it go.
pub struct Pending {
    block: u64,
    frame: Frame,
}

impl Pending {
    /// This number, for a new block, by the moves of `Rig::alloc`. After a fault no block is taken.
    ///
    /// `Full` comes exactly if all blocks are in use, `Damaged` where the first of the freed
    /// blocks isn't laid out as one.
    pub fn new<D: Device>(rig: &mut Rig<'_, D>, number: u64) -> Result<Pending, EmFault>
        requires sound { Sound (seen D.state rig.old) }
        requires free { 0 < (seen D.state rig.old).pool.free }
        ensures sound { Sound (seen D.state rig.new) }
        ensures touches { Touches [] (seen D.state rig.old) (seen D.state rig.new) }
        ensures awaits { IfOk result (Awaits (seen D.state rig.old) (seen D.state rig.new) number) }
        ensures none { OnErr result (AwaitsNone (seen D.state rig.old) (seen D.state rig.new)) }
        ensures takes { TakesBlock (seen D.state rig.old) (seen D.state rig.new) result }
        ensures moves { MovesToAlloc (seen D.state rig.old) (seen D.state rig.new) }
        ensures owes { Owes 1 (seen D.state rig.old) (seen D.state rig.new) }
    {
        let block = rig.alloc()?;
        let mut frame = rig.lend();
        lay_out(&mut frame, number);
        Ok(Pending { block, frame })
    }

    /// Stores the number, by one move, and gives the frame back.
    pub fn finish<D: Device>(self, rig: &mut Rig<'_, D>) -> Result<Cell, EmFault>
        requires sound { Sound (seen D.state rig.old) }
        requires is { IsPending (seen D.state rig.old) self }
        ensures sound { Sound (seen D.state rig.new) }
        ensures touches { Touches (pending_blocks self)
            (seen D.state rig.old) (seen D.state rig.new) }
        ensures frames { GivenFrames 1 (seen D.state rig.old).pool (seen D.state rig.new).pool }
        ensures moved { MovesOne (seen D.state rig.old) (seen D.state rig.new) }
        ensures finished { IfOk result (Finishes (seen D.state rig.new) self) }
        ensures complete { (Rose (seen D.state rig.old).device.faults
            (seen D.state rig.new).device.faults → ⊥) → IsOk result }
        ensures cause { IfErr result (DeviceCause (seen D.state rig.old) (seen D.state rig.new)) }
        ensures owes { Owes 0 (seen D.state rig.old) (seen D.state rig.new) }
    {
        let Pending { block, frame } = self;
        let stored = rig.store(block, &frame);
        rig.give(frame);
        stored?;
        Ok(Cell { block })
    }

    /// Gives the frame back, and nothing else: the block stays in use, and no move is made.
    pub fn abandon<D: Device>(self, rig: &mut Rig<'_, D>)
        requires sound { Sound (seen D.state rig.old) }
        requires frame { HasItsFrame (seen D.state rig.old) self }
        ensures sound { Sound (seen D.state rig.new) }
        ensures touches { Touches [] (seen D.state rig.old) (seen D.state rig.new) }
        ensures given { seen D.state rig.new
            ≡ record (seen D.state rig.old) { pool = given (seen D.state rig.old).pool } }
    {
        let Pending { block: _, frame } = self;
        rig.give(frame);
    }
}
