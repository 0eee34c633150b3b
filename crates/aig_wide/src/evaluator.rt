//! An evaluator of a circuit without latches. Between two groups it is a `Sweeper`:
//!
//!     header  I, columns and A, and L = 0   given   edges from the constant and inputs
//!     state   no record                     gates   edges from gates
//!     queue   no message

ghost use Rattle.std.specs.Prelude.{◌≡◌, ◌<◌, ◌≤◌, ◌++◌, [], List, IfErr, IfOk, IsTrue, OnOk};
ghost use Rattle.em_space.specs.Held.{Holds};
ghost use Rattle.em_space.specs.Queue.{CanServe, Leaves};
ghost use Rattle.em_space.specs.Rig.{Sound};
ghost use Rattle.em_space.specs.Seen.{seen};
ghost use Rattle.aig_defs.specs.Circuit.{Circuit};
ghost use Rattle.aig_defs.specs.declared.circuit.Gate.{Gate};
ghost use Rattle.aig_text.specs.Reads.{Advances};
ghost use Rattle.aig_text.specs.Source.{CanRead, source};
ghost use Rattle.aig_edges.specs.Graph.{CanBuild, IsOrdered, ordered_blocks};

use crate::group::{GroupEnd, run_group};
use aig_edges::{Ordered, StepStop};
use aig_sweep::Sweeper;
use em_frames::Device;
use em_io::{Feed, Printer, Shelf, Sink};
use em_space::{EmFault, Queue, Rig};

/// Evaluates a circuit without latches by groups of up to 64 steps. It holds its blocks and its queue. It
/// can't be dropped: `end` releases its blocks, and after a stop `abandon` gives the queue's frames back.
pub struct WideEvaluator<Q> {
    sweeper: Sweeper<Q>,
}

impl<Q: Queue> WideEvaluator<Q> {
    ghost use Rattle.aig_sweep.specs.Room.{BeginsInRoom};
    ghost use Rattle.aig_sweep.specs.Scene.{ActsAfterByte, Keeps, StepCause, scene};
    ghost use Rattle.em_queued.specs.Room.{FullBeside};
    ghost use Rattle.aig_sweep.specs.Sweeper.{BeginsFor, EndsSweeper, EndsTo, Evaluates, HasSweeperFrames, IsSweeper, lists_size};
    ghost use Rattle.aig_wide.specs.Begins.{BeginsWideTo};
    ghost use Rattle.aig_wide.specs.Group.{AnswersGroup, CanGroup, FollowsGroup, GroupCosts, HasNoLine, IfPrintedGroup, IsGroupSize, LeavesOutput};
    ghost use Rattle.aig_wide.specs.Room.{GroupsInRoom};

    /// An evaluator along these edges, by a queue with no item. There is no latch.
    ///
    /// 2f + 10 single frames, an area and the rack are free. The edges are cut in two: beside the blocks
    /// of edges at most one block comes into use, and at most 4·b + 4 moves are made, if the edges have b
    /// blocks. Each fault is the rig's, and `Full` comes only if all blocks are in use. After a fault the
    /// queue's frames are back, and the blocks stay in use.
    ///
    /// If the device tells, nothing else is in use at first, the queue's room is at most a tree's, and the
    /// edges have at most two blocks more than they need, then at most `circuit_room` blocks are in use at
    /// any moment, and `Full` comes only if the device has fewer.
    pub fn new<D: Device>(
        rig: &mut Rig<'_, D>,
        ordered: Ordered,
        queue: Q,
    ) -> Result<WideEvaluator<Q>, EmFault>
        requires sound { Sound (seen D.state rig.old) }
        requires ordered { IsOrdered (seen D.state rig.old) ordered }
        requires queue { Q.IsQueue queue (seen D.state rig.old) }
        requires empty { (Q.counts queue).len ≡ 0 }
        requires free { CanBuild (seen D.state rig.old).pool }
        requires holds { IsTrue (seen D.state rig.old).device.told → Holds (seen D.state rig.old)
            (Q.blocks queue (seen D.state rig.old) ++ ordered_blocks (seen D.state rig.old)
            ordered) }
        requires none { ordered.header.latches ≡ 0 }
        ensures begins { BeginsWideTo Q.Queue (seen D.state rig.old) (seen D.state rig.new)
            ordered queue result }
        ensures meaning { IsTrue (seen D.state rig.old).device.told → IfOk result
            (λ e. BeginsFor Q.Queue (seen D.state rig.old) (seen D.state rig.new) ordered
            e.sweeper) }
        ensures room { BeginsInRoom Q.Queue (seen D.state rig.old) (seen D.state rig.new)
            ordered queue result }
    {
        let sweeper = Sweeper::new(rig, ordered, queue)?;
        Ok(WideEvaluator { sweeper })
    }

    /// Reads up to 64 whole lines of the stimulus, evaluates the circuit for all of them at once, and prints
    /// a line of columns for each. `Printed` says how many, from 1 to 64, and fewer than 64 only if nothing is
    /// left; `End` comes if nothing was left.
    ///
    /// The slot was opened with Ok, at most 2^50 bytes of it were taken, and 2f + 10 single frames, an
    /// area and the rack are free. The lines of columns may be pending in the printer. `Fault` is the
    /// stimulus's first fault, and exactly the lines before it were printed. `Read` and `Write` come only if
    /// the count of faults of shelf or sink rose, and `Em` if a call on the rig gave up. Over a device and
    /// a shelf that tell, nothing was printed at `Read`, and at `Write` and `Em` a front of the lines went out
    /// or is pending. If no line is whole, nothing goes to the output. After a stop only `abandon` may be called.
    ///
    /// The queue is called at most twice for each edge, 128 times for each 64 inputs and 128 times for each
    /// 64 columns, however many lines there are; its calls in all, with these, are below 2^100. Beside its
    /// moves at most `group_moves` are made. Nothing is called or moved before a byte of the stimulus was
    /// taken.
    ///
    /// If the device tells and the queue states a room, `Full` comes only if that room and `group_room` are
    /// more than all blocks that were free or the evaluator's. An evaluator that was made as above, of a
    /// queue that was never called, keeps to `circuit_room` if nothing else is in use, and `Full` comes only
    /// if the device has fewer blocks.
    pub fn group<D: Device, H: Shelf, W: Sink>(
        &mut self,
        rig: &mut Rig<'_, D>,
        feed: &mut Feed,
        shelf: &mut H,
        printer: &mut Printer,
        sink: &mut W,
    ) -> Result<GroupEnd, StepStop>
        requires sound { Sound (seen D.state rig.old) }
        requires is { IsSweeper Q.Queue (seen D.state rig.old) self.old.sweeper }
        requires ready { CanRead (source H.Shelf feed.old shelf.old) }
        requires can { CanGroup Q.Queue (seen D.state rig.old).pool self.old.sweeper }
        ensures keeps { Keeps Q.Queue (seen D.state rig.new) self.old.sweeper self.new.sweeper }
        ensures is { OnOk result (IsSweeper Q.Queue (seen D.state rig.new) self.new.sweeper) }
        ensures feed { Advances H.tells (source H.Shelf feed.old shelf.old)
            (source H.Shelf feed.new shelf.new) }
        ensures size { IsGroupSize result }
        ensures further { IfPrintedGroup result (feed.old.place < feed.new.place) }
        ensures idle { IfErr result (λ stopped. ActsAfterByte (seen D.state rig.old)
            (seen D.state rig.new) self.old.sweeper self.new.sweeper feed.old.place
            feed.new.place) }
        ensures costs { GroupCosts Q.Queue (seen D.state rig.old) (seen D.state rig.new)
            self.old.sweeper self.new.sweeper result }
        ensures same { IsTrue H.tells → FollowsGroup self.old.sweeper.header.inputs
            (source H.Shelf feed.old shelf.old) (source H.Shelf feed.new shelf.new) result }
        ensures printed { IsTrue H.tells → IsTrue (seen D.state rig.old).device.told
            → (c : Circuit) (order : List Gate)
            → Evaluates Q.Queue (seen D.state rig.old) self.old.sweeper c order []
            → AnswersGroup Q.Queue W.took c order
            (scene (seen D.state rig.old) self.old.sweeper (source H.Shelf feed.old shelf.old)
            (W.state sink.old) printer.old)
            (scene (seen D.state rig.new) self.new.sweeper (source H.Shelf feed.new shelf.new)
            (W.state sink.new) printer.new) result }
        ensures quiet { IfErr result (λ stopped. IsTrue H.tells
            → HasNoLine self.old.sweeper.header.inputs (source H.Shelf feed.old shelf.old)
            → LeavesOutput (W.state sink.old) (W.state sink.new) printer.old printer.new) }
        ensures goes_on { W.faults sink.old ≤ W.faults sink.new }
        ensures cause { IfErr result (StepCause (H.faults shelf.old) (H.faults shelf.new)
            (W.faults sink.old) (W.faults sink.new) (seen D.state rig.old) (seen D.state rig.new)) }
        ensures room { GroupsInRoom Q.Queue (seen D.state rig.old) (seen D.state rig.new)
            self.old.sweeper self.new.sweeper result }
    {
        run_group(
            rig,
            feed,
            shelf,
            printer,
            sink,
            &mut self.sweeper.queue,
            &self.sweeper.header,
            &self.sweeper.given,
            &self.sweeper.gates,
        )
    }

    /// Releases all blocks, and gives the queue's frames back. After a fault the frames are back too, and
    /// blocks may stay in use. Over a device that tells it makes at most two moves for each block of the
    /// chains, beside what is left of the queue's allowance, if it has one; and `Full` comes only if the queue's
    /// room, if it states one, is more than all blocks that were free or the queue's.
    pub fn end<D: Device>(self, rig: &mut Rig<'_, D>) -> Result<(), EmFault>
        requires sound { Sound (seen D.state rig.old) }
        requires is { IsSweeper Q.Queue (seen D.state rig.old) self.sweeper }
        requires free { CanServe (seen D.state rig.old).pool }
        ensures ends { EndsSweeper Q.Queue (seen D.state rig.old) (seen D.state rig.new)
            self.sweeper }
        ensures done { EndsTo Q.Queue (seen D.state rig.old) (seen D.state rig.new) self.sweeper
            result }
        ensures full { IfErr result (FullBeside Q.room (lists_size self.sweeper) (lists_size self.sweeper)
            (Q.counts self.sweeper.queue) (Q.counts self.sweeper.queue).k (seen D.state rig.old)) }
    {
        let WideEvaluator { sweeper } = self;
        sweeper.end(rig)
    }

    /// Gives the queue's frames back, also after a stop. The blocks stay in use, and nothing is
    /// moved.
    pub fn abandon<D: Device>(self, rig: &mut Rig<'_, D>)
        requires sound { Sound (seen D.state rig.old) }
        requires frames { HasSweeperFrames Q.Queue (seen D.state rig.old) self.sweeper }
        ensures leaves { Leaves (Q.counts self.sweeper.queue) (seen D.state rig.old)
            (seen D.state rig.new) }
    {
        let WideEvaluator { sweeper } = self;
        sweeper.abandon(rig);
    }
}
