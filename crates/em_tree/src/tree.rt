//! A tree, as it lies in blocks, and what it keeps in memory:
//!
//!     root's buffer    a list that is being written: new operations come here
//!     root             a node of level R: entries with a low key, a buffer and a child
//!       ..             nodes of the levels R - 1 to 1
//!     leaf blocks      each has the words of a chain of stored records, one per key, in order
//!     answers          a list that is being written: what operations answered when they were settled

ghost use Rattle.std.specs.Prelude.{◌≡◌, ◌↔◌, ◌+◌, ◌<◌, ◌^◌, IsTrue, length, max};
ghost use Rattle.em_frames.specs.Pool.{load_of};
ghost use Rattle.em_space.specs.Queue.{CanServe};
ghost use Rattle.em_space.specs.Rig.{RigState, Sound};
ghost use Rattle.em_space.specs.Seen.{seen};
ghost use Rattle.em_space.specs.declared.fault.EmFault.TheVariants.{Damaged};
ghost use Rattle.em_tree_cost.specs.Books.{count_push, count_settle};

use crate::emptying::push_op;
use crate::ending::finish_blocks;
use crate::settling::settle_trim;
use em_chain::{Chain, Writer};
use em_frames::{Area, Device};
use em_record::Record;
use em_settle::Settle;
use em_space::{EmFault, Rig};
use em_tree_visits::{Taken, take_all_first};
use em_tree_walk::Root;
use em_trunk::Trunk;

/// A tree of operations and stored records. It holds two frames, and can't be dropped: `finish` makes
/// a chain of its answers, and after a fault only `abandon` may be called.
pub struct Tree<S: Settle> {
    settle: S,
    trunk: Trunk,
}

impl<S: Settle> Tree<S> {
    ghost use Rattle.std.specs.Prelude.{Ok, Err, IfOk, IfErr};
    ghost use Rattle.em_tree.specs.Adopting.{CanAdopt, IsAdopted};
    ghost use Rattle.em_tree.specs.Calls.{CountsCall, FinishCosts, FinishesTrunk, FullIfUntrim, IsLow, IsNewTrunk, PushesOp, SettlesTrunk, StopsNewTrunk};
    ghost use Rattle.em_space.specs.Rig.{IfFull};
    ghost use Rattle.em_tree.specs.Finishing.{FullIfUsed};
    ghost use Rattle.em_tree.specs.Handing.{HandsAnswers};
    ghost use Rattle.em_trunk.specs.Meaning.{IsLater};
    ghost use Rattle.em_tree.specs.Pushing.{NeedsMore};
    ghost use Rattle.em_trunk.specs.Room.{FullOverRoom, WithinRoom};
    ghost use Rattle.em_tree.specs.Taking.{CountsTake, TakesFirstTo};
    ghost use Rattle.em_trunk.specs.Trunk.{IsTrunk, TrunkHasFrames, model_of};
    ghost use Rattle.em_trunk.specs.Works.{FullIfWaits};
    ghost use Rattle.em_trunk.specs.Lists.{LeavesTrunk};

    /// A tree with no record: a root of level 1 over one empty leaf. It holds two frames. At most 4 blocks
    /// are moved. After a fault some blocks may stay in use.
    pub fn new<D: Device>(rig: &mut Rig<'_, D>, settle: S) -> Result<Tree<S>, EmFault>
        requires sound { Sound (seen D.state rig.old) }
        requires free { CanServe (seen D.state rig.old).pool }
        ensures makes { IfOk result (λ tree. IsNewTrunk (S.key_of settle) (S.IsOp settle) (S.IsKept settle)
            (seen D.state rig.old) (seen D.state rig.new) tree.trunk) }
        ensures rule { IfOk result (λ tree. tree.settle ≡ settle) }
        ensures stops { IfErr result (StopsNewTrunk (seen D.state rig.old) (seen D.state rig.new)) }
    {
        let trunk = Trunk::new(rig)?;
        Ok(Tree { settle, trunk })
    }

    /// A tree over nodes and leaves that lie in blocks already, with `count` records. It holds two frames, and nothing is moved.
    /// The records count as pushed from the first call of `take_first` on: before it they cost no move.
    pub fn adopt<D: Device>(rig: &mut Rig<'_, D>, settle: S, root: Root, count: u64) -> Tree<S>
        requires sound { Sound (seen D.state rig.old) }
        requires free { 2 < (seen D.state rig.old).pool.free }
        requires can { CanAdopt (S.key_of settle) (S.IsKept settle) (seen D.state rig.old) root count }
        ensures rule { result.settle ≡ settle }
        ensures adopts { IsAdopted (S.key_of settle) (S.IsOp settle) (S.IsKept settle)
            (seen D.state rig.old) (seen D.state rig.new) root count result.trunk }
    {
        let buffer = Writer::new(rig);
        let answers = Writer::new(rig);
        Tree {
            settle,
            trunk: Trunk {
                root: root.block,
                level: root.level,
                buffer,
                answers,
                pushed: 0,
                longest: count as u128,
                since: count as u128,
                settled: 0,
                resets: 0,
                adopted: count,
                counted: 0,
                spent: 0,
                steps: 0,
            },
        }
    }

    /// Adds an operation. It waits in the root's buffer; a buffer that is full is emptied. `Full` comes only
    /// if all blocks are in use then, and the root's buffer needs a block or is full with the operation.
    pub fn push<D: Device>(&mut self, rig: &mut Rig<'_, D>, op: Record) -> Result<(), EmFault>
        requires sound { Sound (seen D.state rig.old) }
        requires ready { S.IsReady self.old.settle }
        requires is { IsTrunk (S.key_of self.old.settle) (S.IsOp self.old.settle)
            (S.IsKept self.old.settle) (seen D.state rig.old) self.old.trunk }
        requires free { CanServe (seen D.state rig.old).pool }
        requires few { self.old.trunk.pushed < 2 ^ 100 }
        requires op { S.IsOp self.old.settle op }
        requires later { IsTrue (seen D.state rig.old).device.told
            → IsLater (S.key_of self.old.settle) (model_of (seen D.state rig.old) self.old.trunk) op }
        ensures rule { self.new.settle ≡ self.old.settle }
        ensures needs { IfErr result (λ fault. IfFull fault (λ _. NeedsMore (seen D.state rig.old)
            self.old.trunk)) }
        ensures pushes { PushesOp (S.key_of self.old.settle) (S.step_of self.old.settle)
            (S.IsOp self.old.settle) (S.IsKept self.old.settle) op (seen D.state rig.old)
            (seen D.state rig.new) self.old.trunk self.new.trunk result }
        ensures counts { CountsCall (count_push 0) (seen D.state rig.old) (seen D.state rig.new)
            self.old.trunk self.new.trunk }
        ensures room { IsTrue (seen D.state rig.old).device.told → WithinRoom (max
            self.old.trunk.longest (self.old.trunk.since + 1))
            (seen D.state rig.old) (seen D.state rig.new) self.old.trunk }
        ensures over { IfErr result (λ fault. IsTrue (seen D.state rig.old).device.told → FullOverRoom (max
            self.old.trunk.longest (self.old.trunk.since + 1))
            (seen D.state rig.old) self.old.trunk fault) }
    {
        let before = rig.moves();
        self.trunk.count_push(&rig.shape());
        let pushed = push_op(rig, &self.settle, &mut self.trunk, op);
        self.trunk.count_moves(rig, before);
        pushed
    }

    /// Empties all buffers: no operation waits afterwards. And makes the tree as small as its records allow: each leaf has w·B
    /// records or more unless it is the only one, each node below the root f entries or more, and a root above level 1 has two.
    ///
    /// `Full` comes only if all blocks are in use then, and, over a device that tells, an operation waited or the tree wasn't
    /// as small before.
    pub fn settle_all<D: Device>(&mut self, rig: &mut Rig<'_, D>) -> Result<(), EmFault>
        requires sound { Sound (seen D.state rig.old) }
        requires ready { S.IsReady self.old.settle }
        requires is { IsTrunk (S.key_of self.old.settle) (S.IsOp self.old.settle)
            (S.IsKept self.old.settle) (seen D.state rig.old) self.old.trunk }
        requires free { CanServe (seen D.state rig.old).pool }
        requires few { self.old.trunk.settled < 2 ^ 100 }
        ensures rule { self.new.settle ≡ self.old.settle }
        ensures settles { SettlesTrunk (S.key_of self.old.settle) (S.step_of self.old.settle)
            (S.IsOp self.old.settle) (S.IsKept self.old.settle) (seen D.state rig.old)
            (seen D.state rig.new) self.old.trunk self.new.trunk result }
        ensures needs { IfErr result (FullIfUntrim (seen D.state rig.old) self.old.trunk) }
        ensures counts { CountsCall (count_settle 0) (seen D.state rig.old) (seen D.state rig.new)
            self.old.trunk self.new.trunk }
        ensures room { IsTrue (seen D.state rig.old).device.told → WithinRoom self.old.trunk.longest
            (seen D.state rig.old) (seen D.state rig.new) self.old.trunk }
        ensures over { IfErr result (λ fault. IsTrue (seen D.state rig.old).device.told → FullOverRoom self.old.trunk.longest
            (seen D.state rig.old) self.old.trunk fault) }
    {
        let before = rig.moves();
        self.trunk.count_settling(&rig.shape());
        let settled = settle_trim(rig, &self.settle, &mut self.trunk);
        self.trunk.count_moves(rig, before);
        settled
    }

    /// Hands out the answers given so far, as a chain in any order. None of them is left, and the tree goes on: what it stores, and
    /// what waits, is the same. No block is taken, and one move at most is made, which the tree's moves don't count.
    ///
    /// `Full` never comes. `DeviceFault` comes only if the device's count of faults rose, and `Damaged` only over a device that
    /// doesn't tell; then the tree may only be abandoned.
    #[tactic(auto, using(crate::proofs::Handed::hands_answers))]
    pub fn take_answers<D: Device>(&mut self, rig: &mut Rig<'_, D>) -> Result<Chain, EmFault>
        requires sound { Sound (seen D.state rig.old) }
        requires is { IsTrunk (S.key_of self.old.settle) (S.IsOp self.old.settle)
            (S.IsKept self.old.settle) (seen D.state rig.old) self.old.trunk }
        requires free { CanServe (seen D.state rig.old).pool }
        ensures rule { self.new.settle ≡ self.old.settle }
        ensures hands { HandsAnswers (S.key_of self.old.settle) (S.IsOp self.old.settle)
            (S.IsKept self.old.settle) (seen D.state rig.old) (seen D.state rig.new) self.old.trunk
            self.new.trunk result }
    {
        self.trunk.take_answers(rig)
    }

    /// Takes the records of the least keys out of the tree's contents, and puts them into the first places
    /// of an area, in order. Answers how many: more than half as many as the area has places, or all that
    /// there are. If nothing is left, that is a reset: the tree begins anew, with one empty leaf.
    ///
    /// `Full` comes only if all blocks are in use and, over a device that tells, an operation waited,
    /// `Damaged` only over a device that doesn't tell, and `DeviceFault` only if the device's count of
    /// faults rose; after a fault the tree may only be abandoned, and the area may hold anything.
    pub fn take_first<D: Device>(
        &mut self,
        rig: &mut Rig<'_, D>,
        into: &mut Area,
    ) -> Result<usize, EmFault>
        requires sound { Sound (seen D.state rig.old) }
        requires ready { S.IsReady self.old.settle }
        requires is { IsTrunk (S.key_of self.old.settle) (S.IsOp self.old.settle)
            (S.IsKept self.old.settle) (seen D.state rig.old) self.old.trunk }
        requires free { CanServe (seen D.state rig.old).pool }
        requires area { length into.old ≡ load_of (seen D.state rig.old).pool.shape }
        requires few { self.old.trunk.resets < 2 ^ 100 }
        ensures rule { self.new.settle ≡ self.old.settle }
        ensures len { length into.new ≡ length into.old }
        ensures takes { TakesFirstTo (S.key_of self.old.settle) (S.step_of self.old.settle)
            (S.IsOp self.old.settle) (S.IsKept self.old.settle) into.new (seen D.state rig.old)
            (seen D.state rig.new) self.old.trunk self.new.trunk result }
        ensures needs { IfErr result (FullIfWaits (seen D.state rig.old) self.old.trunk) }
        ensures counts { CountsTake (seen D.state rig.old) (seen D.state rig.new) self.old.trunk
            self.new.trunk result }
        ensures room { IsTrue (seen D.state rig.old).device.told → WithinRoom self.old.trunk.longest
            (seen D.state rig.old) (seen D.state rig.new) self.old.trunk }
        ensures over { IfErr result (λ fault. IsTrue (seen D.state rig.old).device.told → FullOverRoom self.old.trunk.longest
            (seen D.state rig.old) self.old.trunk fault) }
    {
        let before = rig.moves();
        self.trunk.count_all(&rig.shape());
        let taken = take_all_first(rig, &self.settle, &mut self.trunk, into);
        self.trunk.count_moves(rig, before);
        let Taken { count, reset } = taken?;
        if !reset {
            return Ok(count);
        }
        self.trunk.count_reset();
        Ok(count)
    }

    /// Empties all buffers, releases the tree's blocks, and gives the answers in any order. `Full` comes only if
    /// all blocks are in use then, and the tree counts an operation.
    pub fn finish<D: Device>(self, rig: &mut Rig<'_, D>) -> Result<Chain, EmFault>
        requires sound { Sound (seen D.state rig.old) }
        requires ready { S.IsReady self.settle }
        requires is { IsTrunk (S.key_of self.settle) (S.IsOp self.settle) (S.IsKept self.settle)
            (seen D.state rig.old) self.trunk }
        requires free { CanServe (seen D.state rig.old).pool }
        requires few { self.trunk.settled < 2 ^ 100 }
        ensures full { FullIfUsed self.trunk result }
        ensures finishes { FinishesTrunk (S.key_of self.settle) (S.step_of self.settle)
            (seen D.state rig.old) (seen D.state rig.new) self.trunk result }
        ensures costs { FinishCosts (seen D.state rig.old) (seen D.state rig.new) self.trunk }
        ensures room { IsTrue (seen D.state rig.old).device.told → WithinRoom self.trunk.longest
            (seen D.state rig.old) (seen D.state rig.new) self.trunk }
        ensures over { IfErr result (λ fault. IsTrue (seen D.state rig.old).device.told → FullOverRoom self.trunk.longest
            (seen D.state rig.old) self.trunk fault) }
    {
        let Tree { settle, mut trunk } = self;
        trunk.count_settling(&rig.shape());
        match finish_blocks(rig, &settle, &mut trunk) {
            Ok(()) => trunk.into_answers(rig),
            Err(fault) => {
                trunk.abandon(rig);
                Err(fault)
            }
        }
    }

    /// The levels of nodes. Over a device that tells, there are at most two more than `lev` of the blocks of k
    /// operations, where k is the most that were pushed between two resets.
    pub fn height(&self) -> u64
        ensures level { result ≡ self.now.trunk.level }
        ensures low { (s : RigState) → Sound s
            → IsTrunk (S.key_of self.now.settle) (S.IsOp self.now.settle) (S.IsKept self.now.settle) s
            self.now.trunk → IsTrue s.device.told → IsLow s.pool.shape self.now.trunk }
    {
        self.trunk.level
    }

    /// The rules by which it settles its operations.
    pub fn rules(&self) -> &S
        ensures { result.now ≡ self.now.settle }
    {
        &self.settle
    }

    /// Whether no operation was pushed since the last reset.
    pub fn is_fresh(&self) -> bool
        ensures { IsTrue result ↔ (self.now.trunk.since ≡ 0) }
    {
        self.trunk.since == 0
    }

    /// The fault of a tree that isn't as it was written: its root's block is damaged.
    pub fn damaged(&self) -> EmFault
        ensures { result ≡ Damaged self.now.trunk.root }
    {
        EmFault::Damaged {
            block: self.trunk.root,
        }
    }

    /// Gives the frames back, also after a fault. The blocks stay in use, and nothing is moved.
    pub fn abandon<D: Device>(self, rig: &mut Rig<'_, D>)
        requires sound { Sound (seen D.state rig.old) }
        requires frames { TrunkHasFrames (seen D.state rig.old) self.trunk }
        ensures leaves { LeavesTrunk (seen D.state rig.old) (seen D.state rig.new) }
    {
        let Tree { settle: _, trunk } = self;
        trunk.abandon(rig);
    }
}
