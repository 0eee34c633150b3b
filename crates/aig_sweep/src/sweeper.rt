//! A circuit whose edges can be swept. Between two steps it is
//!
//!     header  I, L, columns and A     given   edges from the constant, inputs and latches
//!     state   a word for each latch   gates   edges from gates
//!     queue   no message
//!
//! Kept here: the chains are as long as the header says, and all blocks are apart. Left to the rig
//! and the queue: that blocks stay as they were stored.

ghost use Rattle.std.specs.Prelude.{◌≡◌, ◌++◌, IfErr, IfOk, IsTrue};
ghost use Rattle.em_space.specs.Held.{Holds};
ghost use Rattle.em_space.specs.Queue.{CanServe, Leaves};
ghost use Rattle.em_space.specs.Rig.{Sound};
ghost use Rattle.em_space.specs.Seen.{seen};
ghost use Rattle.aig_edges.specs.Graph.{CanBuild, IsOrdered, ordered_blocks};

use crate::lists::{discard_lists, make_lists};
use aig_defs::Header;
use aig_edges::Ordered;
use em_chain::Chain;
use em_frames::Device;
use em_space::{EmFault, Queue, Rig};

/// A circuit whose edges can be swept: what every evaluator of it holds. `given` has the edges from ranks
/// whose words are given, `gates` those from gates, and `state` a record (0, 0, word, 0) for each latch; a
/// latch's bit at a step is a lane of its word. It can't be dropped: `end` releases its blocks, and after a
/// stop `abandon` gives the queue's frames back.
pub struct Sweeper<Q> {
    pub header: Header,
    pub given: Chain,
    pub gates: Chain,
    pub state: Chain,
    pub queue: Q,
}

impl<Q: Queue> Sweeper<Q> {
    ghost use Rattle.aig_sweep.specs.Room.{BeginsInRoom};
    ghost use Rattle.em_queued.specs.Room.{FullBeside};
    ghost use Rattle.aig_sweep.specs.Sweeper.{BeginsFor, BeginsTo, EndsSweeper, EndsTo, HasSweeperFrames, IsSweeper, lists_size};

    /// A sweeper along these edges, by a queue with no item. Each latch starts at its reset, in lane 0.
    ///
    /// 2f + 10 single frames, an area and the rack are free. The edges are cut in two: beside the blocks
    /// of edges and resets at most one block comes into use, and at most 4·b + 4 moves are made, if the
    /// edges have b blocks. Each fault is the rig's, and `Full` comes only if all blocks are in use. After
    /// a fault the queue's frames are back, and the blocks stay in use.
    ///
    /// If the device tells, nothing else is in use at first, the queue's room is at most a tree's, and the
    /// edges have at most two blocks more than they need, then at most `circuit_room` blocks are in use at
    /// any moment, and `Full` comes only if the device has fewer.
    pub fn new<D: Device>(
        rig: &mut Rig<'_, D>,
        ordered: Ordered,
        queue: Q,
    ) -> Result<Sweeper<Q>, EmFault>
        requires sound { Sound (seen D.state rig.old) }
        requires ordered { IsOrdered (seen D.state rig.old) ordered }
        requires queue { Q.IsQueue queue (seen D.state rig.old) }
        requires empty { (Q.counts queue).len ≡ 0 }
        requires free { CanBuild (seen D.state rig.old).pool }
        requires holds { IsTrue (seen D.state rig.old).device.told → Holds (seen D.state rig.old)
            (Q.blocks queue (seen D.state rig.old) ++ ordered_blocks (seen D.state rig.old)
            ordered) }
        ensures begins { BeginsTo Q.Queue (seen D.state rig.old) (seen D.state rig.new)
            ordered queue result }
        ensures meaning { IsTrue (seen D.state rig.old).device.told → IfOk result
            (BeginsFor Q.Queue (seen D.state rig.old) (seen D.state rig.new) ordered) }
        ensures room { BeginsInRoom Q.Queue (seen D.state rig.old) (seen D.state rig.new)
            ordered queue result }
    {
        let header = ordered.header;
        match make_lists(rig, ordered) {
            Ok((state, given, gates)) => Ok(Sweeper {
                header,
                given,
                gates,
                state,
                queue,
            }),
            Err(fault) => {
                queue.abandon(rig);
                Err(fault)
            }
        }
    }

    /// Releases all blocks, and gives the queue's frames back. After a fault the frames are back too, and
    /// blocks may stay in use. Over a device that tells it makes at most two moves for each block of the
    /// chains, beside what is left of the queue's allowance, if it has one; and `Full` comes only if the queue's
    /// room, if it states one, is more than all blocks that were free or the queue's.
    pub fn end<D: Device>(self, rig: &mut Rig<'_, D>) -> Result<(), EmFault>
        requires sound { Sound (seen D.state rig.old) }
        requires is { IsSweeper Q.Queue (seen D.state rig.old) self }
        requires free { CanServe (seen D.state rig.old).pool }
        ensures ends { EndsSweeper Q.Queue (seen D.state rig.old) (seen D.state rig.new) self }
        ensures done { EndsTo Q.Queue (seen D.state rig.old) (seen D.state rig.new) self result }
        ensures full { IfErr result (FullBeside Q.room (lists_size self) (lists_size self)
            (Q.counts self.queue) (Q.counts self.queue).k (seen D.state rig.old)) }
    {
        let Sweeper {
            header: _,
            given,
            gates,
            state,
            queue,
        } = self;
        match discard_lists(rig, state, given, gates) {
            Ok(()) => queue.end(rig),
            Err(fault) => {
                queue.abandon(rig);
                Err(fault)
            }
        }
    }

    /// Gives the queue's frames back, also after a stop. The blocks stay in use, and nothing is
    /// moved.
    pub fn abandon<D: Device>(self, rig: &mut Rig<'_, D>)
        requires sound { Sound (seen D.state rig.old) }
        requires frames { HasSweeperFrames Q.Queue (seen D.state rig.old) self }
        ensures leaves { Leaves (Q.counts self.queue) (seen D.state rig.old) (seen D.state
            rig.new) }
    {
        let Sweeper {
            header: _,
            given: _,
            gates: _,
            state: _,
            queue,
        } = self;
        queue.abandon(rig);
    }
}
