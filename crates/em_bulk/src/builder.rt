//! A tree of pairs, built bottom up from a list of pairs in the order of their keys: leaves of 2·w·B records each, a list of their
//! low keys and blocks, and the nodes over that list.
//!
//! Kept here: the keys rise, and so do the low keys of the leaves; each leaf of several has w·B records or more. Left to
//! `em_tree_raise`: the nodes.

ghost use Rattle.std.specs.Prelude.{◌≡◌, ◌+◌, ◌<◌, ◌≤◌, ◌^◌, IfErr, IfOk, IsTrue};
ghost use Rattle.em_space.specs.Rig.{Sound};
ghost use Rattle.em_space.specs.Seen.{seen};
ghost use Rattle.em_bulk.specs.Pairs.{lot_of};
ghost use Rattle.em_bulk.specs.Building.{AddsPair, BeginsBuilder, Builds, BuildsTree, BuilderHasFrames, Closes, GivesList, IsBuilder, IsOpen, LeavesBuilder, Pushes, StopsBuilding, Turns, pairs_in};
ghost use Rattle.em_bulk.specs.Limits.{FullOverBuilderRoom, WithinBuilderRoom, WithinBuilderShare};
ghost use Rattle.em_bulk.specs.Made.{MadeTree, TakesPairs};

use crate::keeping::Leaves;
use crate::taking::take_list;
use em_chain::{Chain, Writer};
use em_frames::Device;
use em_record::{Record, Shape};
use em_settle::Settle;
use em_space::{EmFault, Rig};
use em_tree::Tree;
use em_tree_raise::raise;
use em_tree_walk::Root;
use em_trunk::plant;
use std::mem;

/// Pairs in the order of their keys, on the way to a tree. It holds two frames, and can't be dropped: `finish` makes a tree of
/// it, and `abandon` gives its frames back.
pub struct Builder {
    /// The leaves that are full.
    pub(crate) full: Leaves,
    /// The leaf after them, which is being written.
    pub(crate) leaf: Writer,
    /// Its keys begin here.
    pub(crate) low: u64,
    /// The last key.
    pub(crate) last: u64,
    /// The pairs.
    pub(crate) count: u64,
}

/// A tree that was built.
#[derive(Drop)]
pub(crate) struct Built {
    /// The root of its nodes.
    pub(crate) root: Root,
    /// Its pairs.
    pub(crate) count: u64,
}

impl Builder {
    /// A builder with no pair. It holds no block, and nothing is moved. Three frames must be free.
    pub fn new<D: Device>(rig: &mut Rig<'_, D>) -> Builder
        requires sound { Sound (seen D.state rig.old) }
        requires free { 2 < (seen D.state rig.old).pool.free }
        ensures { BeginsBuilder (seen D.state rig.old) (seen D.state rig.new) result }
    {
        let leaf = Writer::new(rig);
        let list = Writer::new(rig);
        Builder {
            full: Leaves { held: None, list },
            leaf,
            low: 0,
            last: 0,
            count: 0,
        }
    }

    /// The pairs that were pushed.
    pub fn len(&self) -> u64
        ensures { result ≡ self.now.count }
    {
        self.count
    }

    /// The last key, or 0 if there is none.
    pub fn last(&self) -> u64
        ensures { result ≡ self.now.last }
    {
        self.last
    }

    /// Adds a pair, whose key is above all that were pushed. Two frames must be free.
    ///
    /// `Full` comes only if all blocks are in use, and fewer than 3 were free. `DeviceFault` comes only if the device's count of
    /// faults rose. After a fault the builder may only be abandoned.
    pub fn push<D: Device>(
        &mut self,
        rig: &mut Rig<'_, D>,
        key: u64,
        value: u64,
    ) -> Result<(), EmFault>
        requires sound { Sound (seen D.state rig.old) }
        requires is { IsBuilder (seen D.state rig.old) self.old }
        requires rises { 0 < self.old.count → self.old.last < key }
        requires room { self.old.count < 2 ^ 56 }
        requires free { 1 < (seen D.state rig.old).pool.free }
        ensures frames { BuilderHasFrames (seen D.state rig.new) self.new }
        ensures pushes { Pushes (seen D.state rig.old) (seen D.state rig.new) self.old self.new key value
            result }
        ensures share { WithinBuilderShare (self.old.count + 1) (seen D.state rig.old) (seen D.state rig.new)
            self.old }
        ensures room { IsTrue (seen D.state rig.old).device.told → WithinBuilderRoom (self.old.count + 1)
            (seen D.state rig.old) (seen D.state rig.new) self.old }
        ensures over { IfErr result (λ fault. IsTrue (seen D.state rig.old).device.told
            → FullOverBuilderRoom (self.old.count + 1) (seen D.state rig.old) self.old fault) }
    {
        if self.leaf.len() < lot(&rig.shape()) {
            return self.add(rig, key, value);
        }
        self.turn(rig, key)?;
        self.add(rig, key, value)
    }

    /// Adds a pair to the leaf that is being written.
    fn add<D: Device>(&mut self, rig: &mut Rig<'_, D>, key: u64, value: u64) -> Result<(), EmFault>
        requires sound { Sound (seen D.state rig.old) }
        requires is { IsOpen (seen D.state rig.old) self.old key }
        requires size { self.old.leaf.count < lot_of (seen D.state rig.old).pool.shape }
        requires room { self.old.count < 2 ^ 56 }
        requires free { 0 < (seen D.state rig.old).pool.free }
        ensures frames { BuilderHasFrames (seen D.state rig.new) self.new }
        ensures adds { AddsPair (seen D.state rig.old) (seen D.state rig.new) self.old self.new key value
            result }
    {
        self.last = key;
        self.count += 1;
        self.leaf.append(
            rig,
            Record {
                a: key,
                b: 0,
                c: 0,
                d: value,
            },
        )
    }

    /// The leaf that is being written is full. Another one begins, with keys from `key` on.
    fn turn<D: Device>(&mut self, rig: &mut Rig<'_, D>, key: u64) -> Result<(), EmFault>
        requires sound { Sound (seen D.state rig.old) }
        requires is { IsOpen (seen D.state rig.old) self.old key }
        requires size { self.old.leaf.count ≡ lot_of (seen D.state rig.old).pool.shape }
        requires above { self.old.low < key }
        requires free { 1 < (seen D.state rig.old).pool.free }
        ensures frames { BuilderHasFrames (seen D.state rig.new) self.new }
        ensures turns { Turns (seen D.state rig.old) (seen D.state rig.new) self.old self.new key result }
    {
        let full = take_list(rig, &mut self.leaf)?;
        let low = mem::replace(&mut self.low, key);
        self.full.keep(
            rig,
            Record {
                a: low,
                b: 0,
                c: 0,
                d: 0,
            },
            full,
        )
    }

    /// Makes a tree of all pairs, which settles its operations by this rule. The rule must take each pair (K, 0, 0, V) as the
    /// stored record of the key (K, 0, 0, 0). Six frames must be free besides the builder's, which the tree then holds.
    ///
    /// `Full` comes only if all blocks are in use. `DeviceFault` comes only if the device's count of faults rose, and `Damaged`
    /// only over a device that doesn't tell. After a fault the blocks may stay in use, and both frames are back.
    pub fn finish<D: Device, S: Settle>(
        self,
        rig: &mut Rig<'_, D>,
        settle: S,
    ) -> Result<Tree<S>, EmFault>
        requires sound { Sound (seen D.state rig.old) }
        requires is { IsBuilder (seen D.state rig.old) self }
        requires takes { IsTrue (seen D.state rig.old).device.told
            → TakesPairs (S.key_of settle) (S.IsKept settle) (pairs_in (seen D.state rig.old) self) }
        requires free { 6 ≤ (seen D.state rig.old).pool.free }
        ensures rule { IfOk result (λ tree. tree.settle ≡ settle) }
        ensures makes { IfOk result (λ tree. MadeTree (S.key_of settle) (S.IsOp settle) (S.IsKept settle)
            (seen D.state rig.old) (seen D.state rig.new) self tree.trunk) }
        ensures stops { IfErr result (StopsBuilding (seen D.state rig.old) (seen D.state rig.new) self) }
        ensures share { IsTrue (seen D.state rig.old).device.told → WithinBuilderShare self.count
            (seen D.state rig.old) (seen D.state rig.new) self }
        ensures room { IsTrue (seen D.state rig.old).device.told → WithinBuilderRoom self.count
            (seen D.state rig.old) (seen D.state rig.new) self }
        ensures over { IfErr result (λ fault. IsTrue (seen D.state rig.old).device.told
            → FullOverBuilderRoom self.count (seen D.state rig.old) self fault) }
    {
        let Built { root, count } = self.build_counted(rig)?;
        Ok(Tree::adopt(rig, settle, root, count))
    }

    /// The root of a tree of all pairs, and their number. All frames are back on each way out.
    fn build_counted<D: Device>(self, rig: &mut Rig<'_, D>) -> Result<Built, EmFault>
        requires sound { Sound (seen D.state rig.old) }
        requires is { IsBuilder (seen D.state rig.old) self }
        requires free { 6 ≤ (seen D.state rig.old).pool.free }
        ensures { Builds (seen D.state rig.old) (seen D.state rig.new) self result }
    {
        let count = self.count;
        let root = self.build(rig)?;
        Ok(Built { root, count })
    }

    /// The root of a tree of all pairs.
    fn build<D: Device>(self, rig: &mut Rig<'_, D>) -> Result<Root, EmFault>
        requires sound { Sound (seen D.state rig.old) }
        requires is { IsBuilder (seen D.state rig.old) self }
        requires free { 6 ≤ (seen D.state rig.old).pool.free }
        ensures { BuildsTree (seen D.state rig.old) (seen D.state rig.new) self result }
    {
        if self.count == 0 {
            return self.plant_none(rig);
        }
        let list = self.into_list(rig)?;
        raise(rig, list)
    }

    /// A tree with no pair.
    fn plant_none<D: Device>(self, rig: &mut Rig<'_, D>) -> Result<Root, EmFault>
        requires sound { Sound (seen D.state rig.old) }
        requires is { IsBuilder (seen D.state rig.old) self }
        requires none { self.count ≡ 0 }
        requires free { 6 ≤ (seen D.state rig.old).pool.free }
        ensures { BuildsTree (seen D.state rig.old) (seen D.state rig.new) self result }
    {
        self.abandon(rig);
        let block = plant(rig)?;
        Ok(Root { block, level: 1 })
    }

    /// A list of all leaves.
    fn into_list<D: Device>(self, rig: &mut Rig<'_, D>) -> Result<Chain, EmFault>
        requires sound { Sound (seen D.state rig.old) }
        requires is { IsBuilder (seen D.state rig.old) self }
        requires some { 0 < self.count }
        requires free { 6 ≤ (seen D.state rig.old).pool.free }
        ensures { GivesList (seen D.state rig.old) (seen D.state rig.new) self result }
    {
        let mut builder = self;
        let list = builder.close(rig);
        builder.abandon(rig);
        list
    }

    /// The same, with both frames still out.
    fn close<D: Device>(&mut self, rig: &mut Rig<'_, D>) -> Result<Chain, EmFault>
        requires sound { Sound (seen D.state rig.old) }
        requires is { IsBuilder (seen D.state rig.old) self.old }
        requires some { 0 < self.old.count }
        requires free { 6 ≤ (seen D.state rig.old).pool.free }
        ensures frames { BuilderHasFrames (seen D.state rig.new) self.new }
        ensures closes { Closes (seen D.state rig.old) (seen D.state rig.new) self.old result }
    {
        let last = take_list(rig, &mut self.leaf)?;
        let low = self.low;
        self.full.end(
            rig,
            Record {
                a: low,
                b: 0,
                c: 0,
                d: 0,
            },
            last,
        )?;
        take_list(rig, &mut self.full.list)
    }

    /// Gives the frames back, also after a fault. The blocks stay in use, and nothing is moved.
    pub fn abandon<D: Device>(self, rig: &mut Rig<'_, D>)
        requires sound { Sound (seen D.state rig.old) }
        requires frames { BuilderHasFrames (seen D.state rig.old) self }
        ensures { LeavesBuilder (seen D.state rig.old) (seen D.state rig.new) }
    {
        let Builder {
            full,
            leaf,
            low: _,
            last: _,
            count: _,
        } = self;
        let Leaves { held: _, list } = full;
        leaf.abandon(rig);
        list.abandon(rig);
    }
}

/// The records of a leaf that is full: 2·w·B.
fn lot(shape: &Shape) -> u64
    ensures { result ≡ lot_of shape.now }
{
    2 * shape.wide() * shape.block()
}
