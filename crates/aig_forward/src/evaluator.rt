//! An evaluator of a circuit: what `Sweeper` holds between two steps, where the state has a bit for each
//! latch in lane 0 of its word.

ghost use Rattle.std.specs.Prelude.{◌≡◌, ◌<◌, ◌+◌, ◌*◌, ◌++◌, ◌≤◌, Bool, List, IfErr, IfOk, IsTrue, OnOk};
ghost use Rattle.em_space.specs.Held.{Holds};
ghost use Rattle.em_space.specs.Queue.{CanServe, Leaves};
ghost use Rattle.em_space.specs.Rig.{Sound};
ghost use Rattle.em_space.specs.Seen.{seen};
ghost use Rattle.em_chain.specs.Chain.{chain_items};
ghost use Rattle.aig_defs.specs.Circuit.{Circuit, columns};
ghost use Rattle.aig_defs.specs.declared.circuit.Gate.{Gate};
ghost use Rattle.aig_text.specs.Reads.{Advances};
ghost use Rattle.aig_text.specs.Source.{CanRead, source};
ghost use Rattle.aig_edges.specs.Graph.{CanBuild, IsOrdered, ordered_blocks};
ghost use Rattle.aig_sweep.specs.Bits.{bits_of};
ghost use Rattle.aig_sweep.specs.Room.{BeginsInRoom};
ghost use Rattle.aig_sweep.specs.Scene.{ActsAfterByte, Keeps, StepCause, scene};
ghost use Rattle.em_queued.specs.Room.{FullBeside};
ghost use Rattle.aig_sweep.specs.Sweeper.{BeginsFor, BeginsSweeper, EndsSweeper, EndsTo, Evaluates, FailsToBegin, HasSweeperFrames, IsSweeper, lists_size};
ghost use Rattle.aig_table.specs.Steps.{CallsTo, Fits, FitsFrames};
ghost use Rattle.aig_words.specs.Words.{lane};
ghost use Rattle.aig_forward.specs.Room.{StepsInRoom};
ghost use Rattle.aig_forward.specs.Step.{AnswersStep, CanStep, FollowsText, IfPrinted, StepCosts};
ghost use Rattle.aig_forward.specs.StepPass.{IsInput, PassesFor, PassesTo, pass_blocks};

use crate::line::read_line;
use crate::lists::join_bits;
use crate::outputs::put_outputs;
use crate::step_end::StepEnd;
use aig_edges::{Ordered, StepStop};
use aig_sweep::Sweeper;
use aig_table::evaluate;
use em_chain::Chain;
use em_frames::Device;
use em_io::{Feed, Printer, Shelf, Sink};
use em_space::{EmFault, Queue, Rig};
use std::mem;

/// Evaluates a circuit step by step, from the state in which each latch has its reset. It holds its blocks
/// and its queue. It can't be dropped: `end` releases its blocks, and after a stop `abandon` gives
/// the queue's frames back.
pub struct Evaluator<Q> {
    sweeper: Sweeper<Q>,
}

impl<Q: Queue> Evaluator<Q> {
    /// An evaluator along these edges, by a queue with no item. Each latch starts at its reset.
    ///
    /// 2f + 10 single frames, an area and the rack are free. The edges are cut in two: beside the blocks
    /// of edges and resets at most one block comes into use, and at most 4·b + 4 moves are made, if the
    /// edges have b blocks. Each fault is the rig's, and `Full` comes only if all blocks are in use. After
    /// a fault the queue's frames are back, and the blocks stay in use.
    ///
    /// If the device tells, nothing else is in use at first, the queue's room is at most a tree's, and the
    /// edges have at most two blocks more than they need, then at most `circuit_room` blocks are in use at
    /// any moment, and `Full` comes only if the device has fewer.
    pub fn new<D: Device>(
        rig: &mut Rig<'_, D>,
        ordered: Ordered,
        queue: Q,
    ) -> Result<Evaluator<Q>, EmFault>
        requires sound { Sound (seen D.state rig.old) }
        requires ordered { IsOrdered (seen D.state rig.old) ordered }
        requires queue { Q.IsQueue queue (seen D.state rig.old) }
        requires empty { (Q.counts queue).len ≡ 0 }
        requires free { CanBuild (seen D.state rig.old).pool }
        requires holds { IsTrue (seen D.state rig.old).device.told → Holds (seen D.state rig.old)
            (Q.blocks queue (seen D.state rig.old) ++ ordered_blocks (seen D.state rig.old)
            ordered) }
        ensures begins { IfOk result (λ e. BeginsSweeper Q.Queue (seen D.state rig.old)
            (seen D.state rig.new) ordered queue e.sweeper) }
        ensures fails { IfErr result (FailsToBegin Q.Queue (seen D.state rig.old)
            (seen D.state rig.new) ordered queue) }
        ensures meaning { IsTrue (seen D.state rig.old).device.told → IfOk result (λ e.
            BeginsFor Q.Queue (seen D.state rig.old) (seen D.state rig.new) ordered e.sweeper) }
        ensures room { BeginsInRoom Q.Queue (seen D.state rig.old) (seen D.state rig.new)
            ordered queue result }
    {
        let sweeper = Sweeper::new(rig, ordered, queue)?;
        Ok(Evaluator { sweeper })
    }

    /// Reads a line of the stimulus, evaluates the circuit for its bits, and prints a line of the columns;
    /// or answers `End` if nothing is left. All latches change at once, after the columns were found.
    ///
    /// The slot was opened with Ok, at most 2^50 bytes of it were taken, and 2f + 10 single frames, an
    /// area and the rack are free. The line of columns may be pending in the printer. `Fault` is the
    /// stimulus's first fault, and nothing was printed. `Read` and `Write` come only if the count of faults
    /// of shelf or sink rose, and `Em` if a call on the rig gave up: then, over a device and a shelf that
    /// tell, a front of the line went out or is pending. After a stop only `abandon` may be called.
    ///
    /// The queue is called at most twice for each edge, or if a bit for each rank fits into an area and one for each
    /// column into a frame, at most twice for each column. Its calls in all, with these, are below 2^100.
    /// Beside its moves at most `step_moves` are made. Nothing is called or moved before a byte of the
    /// stimulus was taken.
    ///
    /// If the device tells and the queue states a room, `Full` comes only if that room and `step_room` are
    /// more than all blocks that were free or the evaluator's. An evaluator that was made as above, of a
    /// queue that was never called, keeps to `circuit_room` if nothing else is in use, and `Full` comes only
    /// if the device has fewer blocks.
    pub fn step<D: Device, H: Shelf, W: Sink>(
        &mut self,
        rig: &mut Rig<'_, D>,
        feed: &mut Feed,
        shelf: &mut H,
        printer: &mut Printer,
        sink: &mut W,
    ) -> Result<StepEnd, StepStop>
        requires sound { Sound (seen D.state rig.old) }
        requires is { IsSweeper Q.Queue (seen D.state rig.old) self.old.sweeper }
        requires ready { CanRead (source H.Shelf feed.old shelf.old) }
        requires can { CanStep Q.Queue (seen D.state rig.old).pool self.old.sweeper }
        ensures keeps { Keeps Q.Queue (seen D.state rig.new) self.old.sweeper self.new.sweeper }
        ensures is { OnOk result (IsSweeper Q.Queue (seen D.state rig.new) self.new.sweeper) }
        ensures feed { Advances H.tells (source H.Shelf feed.old shelf.old)
            (source H.Shelf feed.new shelf.new) }
        ensures further { IfPrinted result (feed.old.place < feed.new.place) }
        ensures idle { IfErr result (λ stopped. ActsAfterByte (seen D.state rig.old)
            (seen D.state rig.new) self.old.sweeper self.new.sweeper feed.old.place feed.new.place) }
        ensures costs { StepCosts Q.Queue (seen D.state rig.old) (seen D.state rig.new)
            self.old.sweeper self.new.sweeper result }
        ensures few { FitsFrames self.old.sweeper.header (seen D.state rig.old).pool.shape
            → CallsTo (2 * columns self.old.sweeper.header) (Q.counts self.old.sweeper.queue)
            (Q.counts self.new.sweeper.queue) result }
        ensures same { IsTrue H.tells → FollowsText self.old.sweeper.header.inputs
            (source H.Shelf feed.old shelf.old) (source H.Shelf feed.new shelf.new) result }
        ensures printed { IsTrue H.tells → IsTrue (seen D.state rig.old).device.told
            → (c : Circuit) (order : List Gate) (state : List Bool)
            → Evaluates Q.Queue (seen D.state rig.old) self.old.sweeper c order state
            → AnswersStep Q.Queue W.took c order state
            (scene (seen D.state rig.old) self.old.sweeper (source H.Shelf feed.old shelf.old)
            (W.state sink.old) printer.old)
            (scene (seen D.state rig.new) self.new.sweeper (source H.Shelf feed.new shelf.new)
            (W.state sink.new) printer.new) result }
        ensures goes_on { W.faults sink.old ≤ W.faults sink.new }
        ensures cause { IfErr result (StepCause (H.faults shelf.old) (H.faults shelf.new)
            (W.faults sink.old) (W.faults sink.new) (seen D.state rig.old) (seen D.state rig.new)) }
        ensures room { StepsInRoom Q.Queue (seen D.state rig.old) (seen D.state rig.new)
            self.old.sweeper self.new.sweeper result }
    {
        self.step_within(rig, feed, shelf, printer, sink, u64::MAX)
    }

    /// The same, but a circuit of more ranks than `limit` goes by messages, also if they fit: so the two ways can be
    /// compared.
    pub fn step_within<D: Device, H: Shelf, W: Sink>(
        &mut self,
        rig: &mut Rig<'_, D>,
        feed: &mut Feed,
        shelf: &mut H,
        printer: &mut Printer,
        sink: &mut W,
        limit: u64,
    ) -> Result<StepEnd, StepStop>
        requires sound { Sound (seen D.state rig.old) }
        requires is { IsSweeper Q.Queue (seen D.state rig.old) self.old.sweeper }
        requires ready { CanRead (source H.Shelf feed.old shelf.old) }
        requires can { CanStep Q.Queue (seen D.state rig.old).pool self.old.sweeper }
        ensures keeps { Keeps Q.Queue (seen D.state rig.new) self.old.sweeper self.new.sweeper }
        ensures is { OnOk result (IsSweeper Q.Queue (seen D.state rig.new) self.new.sweeper) }
        ensures feed { Advances H.tells (source H.Shelf feed.old shelf.old)
            (source H.Shelf feed.new shelf.new) }
        ensures further { IfPrinted result (feed.old.place < feed.new.place) }
        ensures idle { IfErr result (λ stopped. ActsAfterByte (seen D.state rig.old)
            (seen D.state rig.new) self.old.sweeper self.new.sweeper feed.old.place feed.new.place) }
        ensures costs { StepCosts Q.Queue (seen D.state rig.old) (seen D.state rig.new)
            self.old.sweeper self.new.sweeper result }
        ensures few { Fits limit self.old.sweeper.header (seen D.state rig.old).pool.shape
            → CallsTo (2 * columns self.old.sweeper.header) (Q.counts self.old.sweeper.queue)
            (Q.counts self.new.sweeper.queue) result }
        ensures same { IsTrue H.tells → FollowsText self.old.sweeper.header.inputs
            (source H.Shelf feed.old shelf.old) (source H.Shelf feed.new shelf.new) result }
        ensures printed { IsTrue H.tells → IsTrue (seen D.state rig.old).device.told
            → (c : Circuit) (order : List Gate) (state : List Bool)
            → Evaluates Q.Queue (seen D.state rig.old) self.old.sweeper c order state
            → AnswersStep Q.Queue W.took c order state
            (scene (seen D.state rig.old) self.old.sweeper (source H.Shelf feed.old shelf.old)
            (W.state sink.old) printer.old)
            (scene (seen D.state rig.new) self.new.sweeper (source H.Shelf feed.new shelf.new)
            (W.state sink.new) printer.new) result }
        ensures goes_on { W.faults sink.old ≤ W.faults sink.new }
        ensures cause { IfErr result (StepCause (H.faults shelf.old) (H.faults shelf.new)
            (W.faults sink.old) (W.faults sink.new) (seen D.state rig.old) (seen D.state rig.new)) }
        ensures room { StepsInRoom Q.Queue (seen D.state rig.old) (seen D.state rig.new)
            self.old.sweeper self.new.sweeper result }
    {
        let Some(inputs) = read_line(rig, feed, shelf, self.sweeper.header.inputs)? else {
            return Ok(StepEnd::End);
        };
        pass(rig, &mut self.sweeper, inputs, limit)?;
        let header = self.sweeper.header;
        let columns = header.outputs + header.bads + header.constraints;
        put_outputs(rig, &mut self.sweeper.queue, columns, printer, sink)?;
        Ok(StepEnd::Printed)
    }

    /// Releases all blocks, and gives the queue's frames back. After a fault the frames are back too, and
    /// blocks may stay in use. Over a device that tells it makes at most two moves for each block of the
    /// chains, beside what is left of the queue's allowance, if it has one; and `Full` comes only if the queue's
    /// room, if it states one, is more than all blocks that were free or the queue's.
    pub fn end<D: Device>(self, rig: &mut Rig<'_, D>) -> Result<(), EmFault>
        requires sound { Sound (seen D.state rig.old) }
        requires is { IsSweeper Q.Queue (seen D.state rig.old) self.sweeper }
        requires free { CanServe (seen D.state rig.old).pool }
        ensures ends { EndsSweeper Q.Queue (seen D.state rig.old) (seen D.state rig.new) self.sweeper }
        ensures done { EndsTo Q.Queue (seen D.state rig.old) (seen D.state rig.new) self.sweeper result }
        ensures full { IfErr result (FullBeside Q.room (lists_size self.sweeper) (lists_size self.sweeper)
            (Q.counts self.sweeper.queue) (Q.counts self.sweeper.queue).k (seen D.state rig.old)) }
    {
        let Evaluator { sweeper } = self;
        sweeper.end(rig)
    }

    /// Gives the queue's frames back, also after a stop. The blocks stay in use, and nothing is
    /// moved.
    pub fn abandon<D: Device>(self, rig: &mut Rig<'_, D>)
        requires sound { Sound (seen D.state rig.old) }
        requires frames { HasSweeperFrames Q.Queue (seen D.state rig.old) self.sweeper }
        ensures leaves { Leaves (Q.counts self.sweeper.queue) (seen D.state rig.old) (seen D.state
            rig.new) }
    {
        let Evaluator { sweeper } = self;
        sweeper.abandon(rig);
    }
}

/// The part of a step between the stimulus and the printed line: by a list of the inputs' bits
/// the latches change, and the queue takes the messages of the columns. It gives up as the rig
/// does. A circuit of more ranks than `limit` goes by messages, also if they fit.
fn pass<D: Device, Q: Queue>(
    rig: &mut Rig<'_, D>,
    sweeper: &mut Sweeper<Q>,
    inputs: Chain,
    limit: u64,
) -> Result<(), EmFault>
    requires sound { Sound (seen D.state rig.old) }
    requires is { IsSweeper Q.Queue (seen D.state rig.old) sweeper.old }
    requires inputs { IsInput (seen D.state rig.old) sweeper.old.header inputs }
    requires holds { IsTrue (seen D.state rig.old).device.told → Holds (seen D.state rig.old)
        (pass_blocks Q.Queue (seen D.state rig.old) sweeper.old inputs) }
    requires can { CanStep Q.Queue (seen D.state rig.old).pool sweeper.old }
    ensures keeps { Keeps Q.Queue (seen D.state rig.new) sweeper.old sweeper.new }
    ensures queue { OnOk result (Q.IsQueue sweeper.new.queue (seen D.state rig.new)) }
    ensures passes { PassesTo Q.Queue (seen D.state rig.old) (seen D.state rig.new)
        sweeper.old sweeper.new inputs result }
    ensures few { Fits limit sweeper.old.header (seen D.state rig.old).pool.shape
        → CallsTo (columns sweeper.old.header) (Q.counts sweeper.old.queue)
        (Q.counts sweeper.new.queue) result }
    ensures values { OnOk result (IsTrue (seen D.state rig.old).device.told
        → (c : Circuit) (order : List Gate) (state bits : List Bool)
        → Evaluates Q.Queue (seen D.state rig.old) sweeper.old c order state
        → bits_of (lane 0 (chain_items (seen D.state rig.old) inputs)) ≡ bits
        → PassesFor Q.Queue (seen D.state rig.old) (seen D.state rig.new)
        sweeper.old sweeper.new c state bits) }
{
    let state = mem::replace(&mut sweeper.state, Chain::empty());
    let count = sweeper.header.inputs + sweeper.header.latches;
    let bits = join_bits(rig, inputs, state, count)?;
    sweeper.state = evaluate(
        rig,
        &mut sweeper.queue,
        &sweeper.header,
        &sweeper.given,
        &sweeper.gates,
        bits,
        limit,
    )?;
    Ok(())
}
