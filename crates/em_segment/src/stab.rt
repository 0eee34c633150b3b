//! An interval list writes down what comes, and answers at the end:
//!
//!     interval L H   (L, H, n, 0)   in one list: the nth interval
//!     stab X         (X, n, b, 0)   in another: the nth stab, after b intervals
//!
//! Kept here: numbers are those of the commands. Left to the segment tree: the pairs.

ghost use Rattle.std.specs.Prelude.{◌≡◌, ◌↔◌, ◌<◌, ◌≤◌, ◌^◌, List, Err, IfOk, IsOk, IsTrue};
ghost use Rattle.em_model.specs.declared.command.Command as commands;
ghost use Rattle.em_model.specs.declared.command.Command.TheVariants as command;
ghost use Rattle.em_space.specs.Queue.{CanServe};
ghost use Rattle.em_space.specs.Rig.{Sound};
ghost use Rattle.em_space.specs.Seen.{seen};

use crate::finishing::answer_stabs;
use em_chain::{Chain, Writer};
use em_frames::Device;
use em_record::Record;
use em_space::{EmFault, Queue, Rig};

/// An interval list that answers all its stabs at once, in `finish`, by a segment tree. Intervals and
/// stabs are numbered from 0, each on its own.
///
/// It holds two frames and can't be dropped. After a fault only `abandon` may be called.
pub struct Stab {
    intervals: Writer,
    stabs: Writer,
}

impl Stab {
    ghost use Rattle.em_chain.specs.Effects.{Completes};
    ghost use Rattle.em_chain.specs.Writer.{NeedsBlock};
    ghost use Rattle.em_segment.specs.Finishes.{CanFinish, FinishesTo, FullIfAsked, FullIfSmall, StabCosts};
    ghost use Rattle.em_segment.specs.Stabs.{FullOverRoom, HasCommands, IsNewStab, IsStab, LeavesStab, StabHasFrames, TakeCosts, TakesTo, stab_len};

    /// A list with no interval. It takes no block yet, and never gives up.
    pub fn new<D: Device>(rig: &mut Rig<'_, D>) -> Result<Stab, EmFault>
        requires sound { Sound (seen D.state rig.old) }
        requires free { 2 < (seen D.state rig.old).pool.free }
        ensures ok { IsOk result }
        ensures makes { IfOk result (IsNewStab (seen D.state rig.old) (seen D.state rig.new)) }
    {
        let intervals = Writer::new(rig);
        let stabs = Writer::new(rig);
        Ok(Stab { intervals, stabs })
    }

    /// Adds the interval of all values from `low` to `high`, both included. `Full` comes exactly if a block
    /// is needed and all are in use.
    pub fn interval<D: Device>(
        &mut self,
        rig: &mut Rig<'_, D>,
        low: u64,
        high: u64,
    ) -> Result<(), EmFault>
        requires sound { Sound (seen D.state rig.old) }
        requires is { IsStab (seen D.state rig.old) self.old }
        requires free { CanServe (seen D.state rig.old).pool }
        requires few { stab_len self.old < 2 ^ 40 }
        requires order { low ≤ high }
        ensures takes { TakesTo (command.Interval low high) (seen D.state rig.old)
            (seen D.state rig.new) self.old self.new result }
        ensures costs { TakeCosts (seen D.state rig.old) (seen D.state rig.new) self.old }
        ensures full { (result ≡ Err (EmFault.Full (seen D.state rig.old).used))
            ↔ (NeedsBlock (seen D.state rig.old) self.old.intervals
            × ((seen D.state rig.old).used ≡ (seen D.state rig.old).blocks)) }
        ensures small { FullOverRoom (seen D.state rig.old) self.old result }
        ensures complete { (seen D.state rig.old).used < (seen D.state rig.old).blocks
            → Completes (seen D.state rig.old) (seen D.state rig.new) result }
    {
        let number = self.intervals.len();
        self.intervals.append(
            rig,
            Record {
                a: low,
                b: high,
                c: number,
                d: 0,
            },
        )
    }

    /// Asks which of the intervals so far hold a point, which `finish` answers. `Full` comes exactly if a
    /// block is needed and all are in use.
    pub fn stab<D: Device>(&mut self, rig: &mut Rig<'_, D>, point: u64) -> Result<(), EmFault>
        requires sound { Sound (seen D.state rig.old) }
        requires is { IsStab (seen D.state rig.old) self.old }
        requires free { CanServe (seen D.state rig.old).pool }
        requires few { stab_len self.old < 2 ^ 40 }
        ensures takes { TakesTo (command.Stab point) (seen D.state rig.old)
            (seen D.state rig.new) self.old self.new result }
        ensures costs { TakeCosts (seen D.state rig.old) (seen D.state rig.new) self.old }
        ensures full { (result ≡ Err (EmFault.Full (seen D.state rig.old).used))
            ↔ (NeedsBlock (seen D.state rig.old) self.old.stabs
            × ((seen D.state rig.old).used ≡ (seen D.state rig.old).blocks)) }
        ensures small { FullOverRoom (seen D.state rig.old) self.old result }
        ensures complete { (seen D.state rig.old).used < (seen D.state rig.old).blocks
            → Completes (seen D.state rig.old) (seen D.state rig.new) result }
    {
        let number = self.stabs.len();
        let before = self.intervals.len();
        self.stabs.append(
            rig,
            Record {
                a: point,
                b: number,
                c: before,
                d: 0,
            },
        )
    }

    /// The pairs `(stab, interval, 0, 0)` of all stabs, in order. The queue has no item; it is ended here, and
    /// after a fault abandoned.
    ///
    /// `DeviceFault` comes only if the device's count of faults rose, and `Full` only if all blocks are in use;
    /// `Damaged` only over a device that doesn't tell. With no stab, or no interval, the queue isn't called but to
    /// end it. After a fault blocks that are left stay in use. All frames are back on each way out.
    pub fn finish<D: Device, Q: Queue>(
        self,
        rig: &mut Rig<'_, D>,
        queue: Q,
    ) -> Result<Chain, EmFault>
        requires sound { Sound (seen D.state rig.old) }
        requires is { IsStab (seen D.state rig.old) self }
        requires queue { Q.IsQueue queue (seen D.state rig.old) }
        requires can { CanFinish Q.Queue queue (seen D.state rig.old) self }
        ensures finishes { FinishesTo Q.Queue queue (seen D.state rig.old) (seen D.state rig.new)
            self result }
        ensures costs { IsTrue (seen D.state rig.old).device.told → (cs : List commands.Command)
            → HasCommands (seen D.state rig.old) self cs
            → StabCosts Q.Queue queue (seen D.state rig.old) (seen D.state rig.new) self cs }
        ensures full { IsTrue (seen D.state rig.old).device.told → (cs : List commands.Command)
            → HasCommands (seen D.state rig.old) self cs
            → FullIfSmall Q.Queue queue (seen D.state rig.old) self cs result }
        ensures asked { FullIfAsked Q.Queue queue (seen D.state rig.old) self result }
    {
        let mut queue = queue;
        let Stab { intervals, stabs } = self;
        match answer_stabs(rig, &mut queue, intervals, stabs) {
            Ok(pairs) => match queue.end(rig) {
                Ok(()) => Ok(pairs),
                Err(fault) => Err(fault),
            },
            Err(fault) => {
                queue.abandon(rig);
                Err(fault)
            }
        }
    }

    /// Gives its frames back, also after a fault, and moves nothing. Its blocks stay in use.
    pub fn abandon<D: Device>(self, rig: &mut Rig<'_, D>)
        requires sound { Sound (seen D.state rig.old) }
        requires frames { StabHasFrames (seen D.state rig.old) self }
        ensures leaves { LeavesStab (seen D.state rig.old) (seen D.state rig.new) }
    {
        let Stab { intervals, stabs } = self;
        intervals.abandon(rig);
        stabs.abandon(rig);
    }
}
