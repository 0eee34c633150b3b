//! A tree's records, in the order of their keys, each once. They are taken out of the tree an area at a time:
//!
//! ```text
//!   given   |   at .. end of the area   <   tree
//! ```
//!
//! Kept here: the records of the area that are left rise by their keys, and those of the tree are above them. Left to the
//! tree: that it takes out the least.

ghost use Rattle.std.specs.Prelude.{◌≡◌, ◌<◌, ◌≤◌, ◌^◌, length, IfErr, IsTrue};
ghost use Rattle.em_space.specs.Queue.{CanServe};
ghost use Rattle.em_space.specs.Rig.{Sound};
ghost use Rattle.em_space.specs.Seen.{seen};

use em_chain::discard;
use em_frames::{Area, Device};
use em_record::Record;
use em_settle::Settle;
use em_space::{EmFault, Rig};
use em_tree::Tree;

/// A tree's records, in the order of their keys, each once. They are taken out of the tree an area at a time. It holds the
/// tree's two frames and an area, and can't be dropped: `end` releases what is left, and after a fault only `abandon` may be
/// called.
pub struct Drain<S: Settle> {
    tree: Tree<S>,
    /// Its records from `at` to `end` are those that were taken out and not given yet.
    area: Area,
    at: usize,
    end: usize,
}

impl<S: Settle> Drain<S> {
    ghost use Rattle.em_bulk.specs.Draining.{BeginsDrain, CountsNext, DrainHasFrames, EndCosts, EndsDrain, IsDrain, LeavesDrain, NextOf, trunk_of};
    ghost use Rattle.em_bulk.specs.Refilling.{GivesOut, RefillsTo};
    ghost use Rattle.em_tree.specs.Finishing.{FullIfUsed};
    ghost use Rattle.em_trunk.specs.Room.{FullOverRoom, WithinRoom};
    ghost use Rattle.em_trunk.specs.Trunk.{IsTrunk};
    ghost use Rattle.em_trunk.specs.Works.{FullIfWaits};

    /// A drain of a tree's records. It takes an area, and moves nothing. Its calls need another one.
    pub fn new<D: Device>(rig: &mut Rig<'_, D>, tree: Tree<S>) -> Drain<S>
        requires sound { Sound (seen D.state rig.old) }
        requires is { IsTrunk (S.key_of tree.settle) (S.IsOp tree.settle) (S.IsKept tree.settle)
            (seen D.state rig.old) tree.trunk }
        requires free { 0 < (seen D.state rig.old).pool.free_areas }
        requires resets { tree.trunk.resets < 2 ^ 100 }
        requires settled { tree.trunk.settled < 2 ^ 100 }
        ensures rule { result.tree.settle ≡ tree.settle }
        ensures begins { BeginsDrain (S.key_of tree.settle) (S.step_of tree.settle) (S.IsOp tree.settle)
            (S.IsKept tree.settle) (seen D.state rig.old) (seen D.state rig.new) tree.trunk result }
    {
        let area = rig.lend_area();
        Drain {
            tree,
            area,
            at: 0,
            end: 0,
        }
    }

    /// The next record, or None after the last one. A move is made only if all records of the area were given. It needs the
    /// frames of a queue's call: 2f + 4 single ones, an area and the rack.
    ///
    /// `Full` comes only if all blocks are in use and, over a device that tells, an operation waits in the tree. `Damaged`
    /// comes only over a device that doesn't tell, and `DeviceFault` only if the device's count of faults rose. After a fault
    /// the drain may only be abandoned.
    pub fn next<D: Device>(&mut self, rig: &mut Rig<'_, D>) -> Result<Option<Record>, EmFault>
        requires sound { Sound (seen D.state rig.old) }
        requires ready { S.IsReady self.old.tree.settle }
        requires is { IsDrain (S.key_of self.old.tree.settle) (S.step_of self.old.tree.settle)
            (S.IsOp self.old.tree.settle) (S.IsKept self.old.tree.settle) (seen D.state rig.old) self.old }
        requires free { CanServe (seen D.state rig.old).pool }
        ensures rule { self.new.tree.settle ≡ self.old.tree.settle }
        ensures gives { NextOf (S.key_of self.old.tree.settle) (S.step_of self.old.tree.settle)
            (S.IsOp self.old.tree.settle) (S.IsKept self.old.tree.settle) (seen D.state rig.old)
            (seen D.state rig.new) self.old self.new result }
        ensures needs { IfErr result (FullIfWaits (seen D.state rig.old) (trunk_of self.old)) }
        ensures still { self.old.at < self.old.end → seen D.state rig.new ≡ seen D.state rig.old }
        ensures counts { CountsNext (seen D.state rig.old) (seen D.state rig.new) self.old self.new }
        ensures room { IsTrue (seen D.state rig.old).device.told → WithinRoom (trunk_of self.old).longest
            (seen D.state rig.old) (seen D.state rig.new) (trunk_of self.old) }
        ensures over { IfErr result (λ fault. IsTrue (seen D.state rig.old).device.told
            → FullOverRoom (trunk_of self.old).longest (seen D.state rig.old) (trunk_of self.old) fault) }
    {
        self.refill(rig)?;
        Ok(self.give_out())
    }

    /// Fills the area from the tree, if all its records were given. A tree to which nothing was pushed since it was reset has
    /// none.
    fn refill<D: Device>(&mut self, rig: &mut Rig<'_, D>) -> Result<(), EmFault>
        requires sound { Sound (seen D.state rig.old) }
        requires ready { S.IsReady self.old.tree.settle }
        requires is { IsDrain (S.key_of self.old.tree.settle) (S.step_of self.old.tree.settle)
            (S.IsOp self.old.tree.settle) (S.IsKept self.old.tree.settle) (seen D.state rig.old) self.old }
        requires free { CanServe (seen D.state rig.old).pool }
        ensures rule { self.new.tree.settle ≡ self.old.tree.settle }
        ensures refills { RefillsTo (S.key_of self.old.tree.settle) (S.step_of self.old.tree.settle)
            (S.IsOp self.old.tree.settle) (S.IsKept self.old.tree.settle) (seen D.state rig.old)
            (seen D.state rig.new) self.old self.new result }
        ensures needs { IfErr result (FullIfWaits (seen D.state rig.old) (trunk_of self.old)) }
        ensures still { self.old.at < self.old.end → seen D.state rig.new ≡ seen D.state rig.old }
        ensures counts { CountsNext (seen D.state rig.old) (seen D.state rig.new) self.old self.new }
        ensures room { IsTrue (seen D.state rig.old).device.told → WithinRoom (trunk_of self.old).longest
            (seen D.state rig.old) (seen D.state rig.new) (trunk_of self.old) }
        ensures over { IfErr result (λ fault. IsTrue (seen D.state rig.old).device.told
            → FullOverRoom (trunk_of self.old).longest (seen D.state rig.old) (trunk_of self.old) fault) }
    {
        if self.at < self.end || self.tree.is_fresh() {
            return Ok(());
        }
        let count = self.tree.take_first(rig, &mut self.area)?;
        self.at = 0;
        self.end = count;
        Ok(())
    }

    /// Gives the next record of the area, or None if all were given.
    fn give_out(&mut self) -> Option<Record>
        requires rest { self.old.at ≤ self.old.end }
        requires within { self.old.end ≤ length self.old.area }
        ensures { GivesOut self.old self.new result }
    {
        if self.at == self.end {
            return None;
        }
        let item = self.area.records()[self.at];
        self.at += 1;
        Some(item)
    }

    /// Releases the tree, with its answers and with the records that weren't given, and gives the frames and the area back,
    /// which it does after a fault too. It needs the frames of a queue's call beside its own.
    ///
    /// `Full` comes only if all blocks are in use, and the tree counts an operation or an adopted record. `Damaged` comes only
    /// over a device that doesn't tell, and `DeviceFault` only if the device's count of faults rose.
    pub fn end<D: Device>(self, rig: &mut Rig<'_, D>) -> Result<(), EmFault>
        requires sound { Sound (seen D.state rig.old) }
        requires ready { S.IsReady self.tree.settle }
        requires is { IsDrain (S.key_of self.tree.settle) (S.step_of self.tree.settle)
            (S.IsOp self.tree.settle) (S.IsKept self.tree.settle) (seen D.state rig.old) self }
        requires free { CanServe (seen D.state rig.old).pool }
        ensures ends { EndsDrain (seen D.state rig.old) (seen D.state rig.new) self result }
        ensures full { FullIfUsed (trunk_of self) result }
        ensures costs { EndCosts (S.key_of self.tree.settle) (S.step_of self.tree.settle)
            (seen D.state rig.old) (seen D.state rig.new) self }
        ensures room { IsTrue (seen D.state rig.old).device.told → WithinRoom (trunk_of self).longest
            (seen D.state rig.old) (seen D.state rig.new) (trunk_of self) }
        ensures over { IfErr result (λ fault. IsTrue (seen D.state rig.old).device.told
            → FullOverRoom (trunk_of self).longest (seen D.state rig.old) (trunk_of self) fault) }
    {
        let Drain {
            tree,
            area,
            at: _,
            end: _,
        } = self;
        rig.give_area(area);
        let answers = tree.finish(rig)?;
        discard(rig, answers)
    }

    /// Gives the frames and the area back, also after a fault. The blocks stay in use, and nothing is moved.
    pub fn abandon<D: Device>(self, rig: &mut Rig<'_, D>)
        requires sound { Sound (seen D.state rig.old) }
        requires frames { DrainHasFrames (seen D.state rig.old) self }
        ensures leaves { LeavesDrain (seen D.state rig.old) (seen D.state rig.new) }
    {
        let Drain {
            tree,
            area,
            at: _,
            end: _,
        } = self;
        rig.give_area(area);
        tree.abandon(rig);
    }
}
