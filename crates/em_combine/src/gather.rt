//! A load of operations in an area.
//!
//! ```text
//! area:  | operations | any records |
//!        0             len           capacity
//! ```
//!
//! Kept here: the operations of each key stand in the order of their numbers (`CameInTurn`).
ghost use Rattle.std.specs.Prelude.{◌≡◌, ◌<◌, ◌≤◌, [], ◌∷◌, ◌++◌, length};
ghost use Rattle.em_settle.specs.Add.{apply_of};
ghost use Rattle.em_combine.specs.Joining.{CameInTurn, IsAfter, JoinsLoad};

use crate::joining::join_front;
use em_frames::Area;
use em_record::Record;
use em_settle::{AddSettle, Settle};
use std::marker::Model;

/// Operations of a map in an area. It can't be dropped: its area goes back to a pool.
pub struct Gather {
    area: Area,
    len: usize,
}

impl Model for Gather {
    ghost use Rattle.std.specs.Prelude.{length, take};
    ghost use Rattle.em_combine.specs.Gather.{GatherState, IsGather};

    ghost Value = { GatherState };

    ghost view = { λ g. record { items = take g.len g.area; capacity = length g.area } };

    ghost invariant = { λ g. IsGather g.area g.len };
}

impl Gather {
    /// A load of no operation.
    pub fn new(area: Area) -> Gather
        ensures { result ≡ record { items = []; capacity = length area } }
    {
        Gather { area, len: 0 }
    }

    /// The number of its operations.
    pub fn len(&self) -> usize
        ensures value { result ≡ length self.now.items }
        ensures within { result ≤ self.now.capacity }
        ensures turn { CameInTurn self.now.items }
    {
        self.len
    }

    /// The number of operations that the area has room for.
    pub fn capacity(&self) -> usize
        ensures { result ≡ self.now.capacity }
    {
        self.area.records().len()
    }

    /// Adds an operation, whose number is above all earlier ones.
    pub fn push(&mut self, op: Record)
        requires room { length self.old.items < self.old.capacity }
        requires later { IsAfter self.old.items op.b }
        ensures { self.new ≡ record self.old { items = self.old.items ++ op ∷ [] } }
    {
        self.area.records_mut()[self.len] = op;
        self.len += 1;
    }

    /// Orders the operations by key and number, and joins each run of adds to one add.
    pub fn join<F: Fn(u64, u64) -> u64 + Drop>(&mut self, settle: &AddSettle<F>)
        requires ready { ⟦<AddSettle<F> as Settle>⟧.IsReady settle.now }
        ensures joins { JoinsLoad (apply_of settle.now.kind) self.old.items self.new.items }
        ensures capacity { self.new.capacity ≡ self.old.capacity }
    {
        let len = self.len;
        self.area.sort(len);
        self.len = join_front(settle, self.area.records_mut(), len);
    }

    /// The operations.
    pub fn records(&self) -> &[Record]
        ensures { result.now ≡ self.now.items }
    {
        &self.area.records()[..self.len]
    }

    /// Lets all operations go.
    pub fn clear(&mut self)
        ensures { self.new ≡ record self.old { items = [] } }
    {
        self.len = 0;
    }

    /// Gives its area back.
    pub fn into_area(self) -> Area
        ensures { length result ≡ self.capacity }
    {
        let Gather { area, len: _len } = self;
        area
    }
}
