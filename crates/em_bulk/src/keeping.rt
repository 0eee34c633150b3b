//! The leaves that are full. The last one is held, so that a short leaf after it can be joined to it:
//!
//!     listed               held      being written
//!     [1 2 3 4] [5 6 7 8]  [9 a b c] [d
//!
//! Kept here: each leaf that is listed has 2·w·B records, and is stored. Left to the builder: the order of the keys.

ghost use Rattle.std.specs.Prelude.{◌+◌, ◌<◌, ◌≤◌, ◌^◌};
ghost use Rattle.em_space.specs.Rig.{Sound};
ghost use Rattle.em_space.specs.Seen.{seen};
ghost use Rattle.em_chain.specs.Writer.{WriterHasFrame};
ghost use Rattle.em_bulk.specs.Full.{CanKeep, KeepsLeaf};
ghost use Rattle.em_bulk.specs.Ended.{CanEnd, EndsLeaves};

use crate::ending::list_two;
use crate::taking::list_leaf;
use em_chain::{Chain, Writer};
use em_frames::Device;
use em_record::Record;
use em_space::{EmFault, Rig};
use std::mem;

/// The full leaves. It holds one frame.
pub(crate) struct Leaves {
    /// The last one, which isn't stored yet, and where its keys begin.
    pub(crate) held: Option<(Record, Chain)>,
    /// Those before it, as a list of subtrees.
    pub(crate) list: Writer,
}

impl Leaves {
    /// Holds a full leaf, whose keys begin at `low`. The one that was held is stored and listed.
    pub(crate) fn keep<D: Device>(
        &mut self,
        rig: &mut Rig<'_, D>,
        low: Record,
        full: Chain,
    ) -> Result<(), EmFault>
        requires sound { Sound (seen D.state rig.old) }
        requires can { CanKeep (seen D.state rig.old) self.old full }
        requires count { self.old.list.count + 2 ≤ 2 ^ 56 }
        requires free { 0 < (seen D.state rig.old).pool.free }
        ensures frame { WriterHasFrame (seen D.state rig.new) self.new.list }
        ensures keeps { KeepsLeaf (seen D.state rig.old) (seen D.state rig.new) self.old self.new low
            full result }
    {
        match mem::replace(&mut self.held, Some((low, full))) {
            None => Ok(()),
            Some((before, stored)) => list_leaf(rig, &mut self.list, before, &stored),
        }
    }

    /// Stores and lists the leaf that is held, and the last one, whose keys begin at `low`. If that is short, both are one.
    pub(crate) fn end<D: Device>(
        &mut self,
        rig: &mut Rig<'_, D>,
        low: Record,
        last: Chain,
    ) -> Result<(), EmFault>
        requires sound { Sound (seen D.state rig.old) }
        requires can { CanEnd (seen D.state rig.old) self.old low last }
        requires count { self.old.list.count + 4 ≤ 2 ^ 56 }
        requires free { 6 ≤ (seen D.state rig.old).pool.free }
        ensures frame { WriterHasFrame (seen D.state rig.new) self.new.list }
        ensures ends { EndsLeaves (seen D.state rig.old) (seen D.state rig.new) self.old self.new low
            last result }
    {
        match mem::replace(&mut self.held, None) {
            None => list_leaf(rig, &mut self.list, low, &last),
            Some((before, stored)) => list_two(rig, &mut self.list, before, stored, low, last),
        }
    }
}
