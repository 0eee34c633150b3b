//! A batch keeps its commands as operations in a tree, numbered from 1:
//!
//!     put K V   (K, n, 0, V)
//!     del K     (K, n, 1, 0)
//!     get K     (K, n, 2, 0)   answered by (n, 1, V, 0), or by (n, 0, 0, 0) if K has no value
//!     add K V   (K, n, 3, V)   joined to the value of K when it is settled, by the stored closure
//!
//!     sync      no operation, but it has a number: the tree is settled, and its answers are handed out
//!
//! A batch that joins adds early gathers them in an area first. When that is full, at a sync and at the end, each run of adds
//! of one key becomes one add, and what is left enters the tree:
//!
//!     add 7 1, add 3 5, add 7 2, get 7   ->   (3, 2, 3, 5) (7, 3, 3, 3) (7, 4, 2, 0)
//!
//! Kept here: numbers rise, so that each operation is above all that wait for its key. Left to the
//! tree: where operations wait, and when they are settled.

ghost use Rattle.std.specs.Prelude.{◌≡◌, ℕ, List, ◌+◌, ◌<◌, ◌^◌, [], ◌∷◌, None, Some, length, true, false, IfOk, IfErr, IfSome, IsTrue, OnOk};
ghost use Rattle.em_model.specs.declared.command.Command as commands;
ghost use Rattle.em_model.specs.declared.command.Command.TheVariants as command;
ghost use Rattle.em_record.specs.declared.record.Record as records;
ghost use Rattle.em_space.specs.Queue.{CanServe};
ghost use Rattle.em_space.specs.Rig.{IfFull, RigState, Sound};
ghost use Rattle.em_space.specs.Seen.{seen};
ghost use Rattle.em_map.specs.Batch.{HasArea};
ghost use Rattle.em_map.specs.Gathering.{GivesBack};

use crate::handing::keep_pairs;
use crate::loading::push_all;
use em_chain::Chain;
use em_combine::Gather;
use em_frames::Device;
use em_record::Record;
use em_settle::{AddSettle, Settle};
use em_space::{EmFault, Rig};
use em_tree::Tree;
use std::mem;

/// What an operation does, in its word c.
const PUT: u64 = 0;

const DEL: u64 = 1;

const GET: u64 = 2;

const ADD: u64 = 3;

/// Gives the area of a load back, if there is one.
fn give_back<D: Device>(rig: &mut Rig<'_, D>, load: Option<Gather>)
    requires sound { Sound (seen D.state rig.old) }
    requires area { IfSome load (HasArea (seen D.state rig.old)) }
    ensures gives { GivesBack (seen D.state rig.old) (seen D.state rig.new) load }
{
    if let Some(load) = load {
        rig.give_area(load.into_area());
    }
}

/// A map from numbers to numbers that answers its gets together, in `sync` and in `finish`. Each other call is
/// an operation of a buffer tree. Calls are numbered from 1. How an add joins its value to that of its key is a
/// closure, which the tree's rules keep.
///
/// A batch that was made by `early` gathers its operations in loads of w·B in an area, which it takes at the first of them after
/// `early` or a sync, and gives back at the next sync or at its end. A load enters the tree when it is full, at a sync and at
/// the end. Each run of adds of one key in it is joined to one add first, so that many adds of few keys make few moves.
///
/// It holds two frames, and an area while it gathers. It can't be dropped: `finish`, `into_tree` or `abandon` ends it. After a
/// fault only `abandon` may be called.
///
/// After n commands, over a device that tells, its blocks, inside a call too, are within
/// 12 · (q(n) + 1) + m · (2 + lev(q(n))) and those of the answers that it had given before the call. If it joins adds early,
/// the answers that its tree gave or owes count in place of these, and one for each call since. For blocks of B records and m
/// frames q(n) is n/B, rounded up, and lev(q) says how often q is divided by m/4, rounded up, until at most 1 is left.
pub struct Batch<F: Fn(u64, u64) -> u64 + Drop> {
    tree: Tree<AddSettle<F>>,
    /// Commands so far.
    calls: u64,
    /// Syncs among them.
    syncs: u64,
    /// Whether adds are joined before they enter the tree.
    early: bool,
    /// The operations that haven't entered the tree, if adds are joined early and one came since the last sync.
    load: Option<Gather>,
}

impl<F: Fn(u64, u64) -> u64 + Drop> Batch<F> {
    ghost use Rattle.em_map.specs.Batch.{BatchCosts, BatchHasFrames, BatchOver, BatchWithin, CanGather, CommandNeedsMore, CountsCommand, CountsSync, FinishesBatch, IsBatch, IsNewBatch, LeavesBatch, SyncNeedsMore, SyncsBatch, TakesTo, entries_of, gathered_in, trunk_of};
    ghost use Rattle.em_map.specs.Commands.{map_op};
    ghost use Rattle.em_map.specs.Early.{left_of};
    ghost use Rattle.em_map.specs.Gathering.{CanEnter, ClosesBatch, CountsClose, CountsTree, EntersBatch, SyncsTree, TakesLoad};
    ghost use Rattle.em_map.specs.Handing.{HandsTree};
    ghost use Rattle.em_map.specs.Loading.{CountsPushes, LoadOver, LoadWithin, answers_in};
    ghost use Rattle.em_map.specs.Batch as batches;
    ghost use Rattle.em_map.specs.Over.{BeginsOver, IsTreeOf, over_batch};
    ghost use Rattle.em_tree.specs.Calls.{FullIfUntrim, StopsNewTrunk};
    ghost use Rattle.em_trunk.specs.Room.{FullOverRoom, WithinRoom};

    /// A batch with no command, whose adds are joined by these rules. At most four blocks are moved.
    pub fn with<D: Device>(rig: &mut Rig<'_, D>, settle: AddSettle<F>) -> Result<Batch<F>, EmFault>
        requires sound { Sound (seen D.state rig.old) }
        requires free { CanServe (seen D.state rig.old).pool }
        ensures makes { IfOk result (IsNewBatch (seen D.state rig.old) (seen D.state rig.new)) }
        ensures rule { IfOk result (λ b. b.tree.settle ≡ settle) }
        ensures plain { IfOk result (λ b. b.early ≡ false) }
        ensures stops { IfErr result (StopsNewTrunk (seen D.state rig.old) (seen D.state rig.new)) }
    {
        let tree = Tree::new(rig, settle)?;
        Ok(Batch {
            tree,
            calls: 0,
            syncs: 0,
            early: false,
            load: None,
        })
    }

    /// A batch with no command, which joins adds before they enter the tree. At most four blocks are moved.
    pub fn early<D: Device>(rig: &mut Rig<'_, D>, settle: AddSettle<F>) -> Result<Batch<F>, EmFault>
        requires sound { Sound (seen D.state rig.old) }
        requires free { CanServe (seen D.state rig.old).pool }
        ensures makes { IfOk result (IsNewBatch (seen D.state rig.old) (seen D.state rig.new)) }
        ensures rule { IfOk result (λ b. b.tree.settle ≡ settle) }
        ensures early { IfOk result (λ b. b.early ≡ true) }
        ensures stops { IfErr result (StopsNewTrunk (seen D.state rig.old) (seen D.state rig.new)) }
    {
        let tree = Tree::new(rig, settle)?;
        Ok(Batch {
            tree,
            calls: 0,
            syncs: 0,
            early: true,
            load: None,
        })
    }

    /// A batch over a tree of pairs, as a builder leaves it, whose adds are joined by its rules. The pairs are its first calls, one
    /// put each: the call after them has the next number. `count` is how many they are. Nothing is moved.
    pub fn over(tree: Tree<AddSettle<F>>, count: u64) -> Batch<F>
        requires count { count ≡ tree.trunk.adopted }
        ensures is { result ≡ over_batch tree count }
        ensures begins { (s : RigState) (pairs : List (ℕ × ℕ)) → IsTreeOf s tree.trunk pairs
            → BeginsOver s result pairs }
    {
        Batch {
            tree,
            calls: count,
            syncs: 0,
            early: false,
            load: None,
        }
    }

    /// Gives the key this value. It is one push into the tree, or into a load.
    pub fn put<D: Device>(
        &mut self,
        rig: &mut Rig<'_, D>,
        key: u64,
        value: u64,
    ) -> Result<(), EmFault>
        requires sound { Sound (seen D.state rig.old) }
        requires is { IsBatch (seen D.state rig.old) self.old }
        requires ready { ⟦<AddSettle<F> as Settle>⟧.IsReady self.old.tree.settle }
        requires free { CanServe (seen D.state rig.old).pool }
        requires area { CanGather (seen D.state rig.old) self.old }
        requires few { self.old.calls < 2 ^ 40 + (trunk_of self.old).adopted }
        ensures rule { self.new.tree.settle ≡ self.old.tree.settle }
        ensures takes { TakesTo (command.Put key value) (seen D.state rig.old)
            (seen D.state rig.new) self.old self.new result }
        ensures counts { CountsCommand (command.Put key value) (seen D.state rig.old)
            (seen D.state rig.new) self.old self.new }
        ensures needs { IfErr result (λ fault. IfFull fault (λ _. CommandNeedsMore self.old.early
            (seen D.state rig.old) (trunk_of self.old) (length (gathered_in self.old)))) }
        ensures room { IsTrue (seen D.state rig.old).device.told → BatchWithin (self.old.calls + 1)
            (seen D.state rig.old) (seen D.state rig.new) self.old }
        ensures over { IfErr result (λ fault. IsTrue (seen D.state rig.old).device.told
            → BatchOver (self.old.calls + 1) (seen D.state rig.old) self.old fault) }
    {
        self.push(rig, key, PUT, value)
    }

    /// Takes the key's value away. It is one push into the tree, or into a load.
    pub fn del<D: Device>(&mut self, rig: &mut Rig<'_, D>, key: u64) -> Result<(), EmFault>
        requires sound { Sound (seen D.state rig.old) }
        requires is { IsBatch (seen D.state rig.old) self.old }
        requires ready { ⟦<AddSettle<F> as Settle>⟧.IsReady self.old.tree.settle }
        requires free { CanServe (seen D.state rig.old).pool }
        requires area { CanGather (seen D.state rig.old) self.old }
        requires few { self.old.calls < 2 ^ 40 + (trunk_of self.old).adopted }
        ensures rule { self.new.tree.settle ≡ self.old.tree.settle }
        ensures takes { TakesTo (command.Del key) (seen D.state rig.old)
            (seen D.state rig.new) self.old self.new result }
        ensures counts { CountsCommand (command.Del key) (seen D.state rig.old)
            (seen D.state rig.new) self.old self.new }
        ensures needs { IfErr result (λ fault. IfFull fault (λ _. CommandNeedsMore self.old.early
            (seen D.state rig.old) (trunk_of self.old) (length (gathered_in self.old)))) }
        ensures room { IsTrue (seen D.state rig.old).device.told → BatchWithin (self.old.calls + 1)
            (seen D.state rig.old) (seen D.state rig.new) self.old }
        ensures over { IfErr result (λ fault. IsTrue (seen D.state rig.old).device.told
            → BatchOver (self.old.calls + 1) (seen D.state rig.old) self.old fault) }
    {
        self.push(rig, key, DEL, 0)
    }

    /// Asks for the value of a key, which the next `sync` answers, or `finish`. It is one push into the tree, or into a
    /// load.
    pub fn get<D: Device>(&mut self, rig: &mut Rig<'_, D>, key: u64) -> Result<(), EmFault>
        requires sound { Sound (seen D.state rig.old) }
        requires is { IsBatch (seen D.state rig.old) self.old }
        requires ready { ⟦<AddSettle<F> as Settle>⟧.IsReady self.old.tree.settle }
        requires free { CanServe (seen D.state rig.old).pool }
        requires area { CanGather (seen D.state rig.old) self.old }
        requires few { self.old.calls < 2 ^ 40 + (trunk_of self.old).adopted }
        ensures rule { self.new.tree.settle ≡ self.old.tree.settle }
        ensures takes { TakesTo (command.Get key) (seen D.state rig.old)
            (seen D.state rig.new) self.old self.new result }
        ensures counts { CountsCommand (command.Get key) (seen D.state rig.old)
            (seen D.state rig.new) self.old self.new }
        ensures needs { IfErr result (λ fault. IfFull fault (λ _. CommandNeedsMore self.old.early
            (seen D.state rig.old) (trunk_of self.old) (length (gathered_in self.old)))) }
        ensures room { IsTrue (seen D.state rig.old).device.told → BatchWithin (self.old.calls + 1)
            (seen D.state rig.old) (seen D.state rig.new) self.old }
        ensures over { IfErr result (λ fault. IsTrue (seen D.state rig.old).device.told
            → BatchOver (self.old.calls + 1) (seen D.state rig.old) self.old fault) }
    {
        self.push(rig, key, GET, 0)
    }

    /// Joins a value to that of the key; the key has it alone if it had none. It is one push into the tree, or
    /// into a load.
    pub fn add<D: Device>(
        &mut self,
        rig: &mut Rig<'_, D>,
        key: u64,
        value: u64,
    ) -> Result<(), EmFault>
        requires sound { Sound (seen D.state rig.old) }
        requires is { IsBatch (seen D.state rig.old) self.old }
        requires ready { ⟦<AddSettle<F> as Settle>⟧.IsReady self.old.tree.settle }
        requires free { CanServe (seen D.state rig.old).pool }
        requires area { CanGather (seen D.state rig.old) self.old }
        requires few { self.old.calls < 2 ^ 40 + (trunk_of self.old).adopted }
        ensures rule { self.new.tree.settle ≡ self.old.tree.settle }
        ensures takes { TakesTo (command.Add key value) (seen D.state rig.old)
            (seen D.state rig.new) self.old self.new result }
        ensures counts { CountsCommand (command.Add key value) (seen D.state rig.old)
            (seen D.state rig.new) self.old self.new }
        ensures needs { IfErr result (λ fault. IfFull fault (λ _. CommandNeedsMore self.old.early
            (seen D.state rig.old) (trunk_of self.old) (length (gathered_in self.old)))) }
        ensures room { IsTrue (seen D.state rig.old).device.told → BatchWithin (self.old.calls + 1)
            (seen D.state rig.old) (seen D.state rig.new) self.old }
        ensures over { IfErr result (λ fault. IsTrue (seen D.state rig.old).device.told
            → BatchOver (self.old.calls + 1) (seen D.state rig.old) self.old fault) }
    {
        self.push(rig, key, ADD, value)
    }

    /// The tree of its commands, without those that are gathered.
    pub fn tree(&self) -> &Tree<AddSettle<F>>
        ensures { result.now ≡ self.now.tree }
    {
        &self.tree
    }

    /// Settles the tree, makes it as small as its pairs allow, and hands out the answers of the gets since the last
    /// sync, in any order, each once, as those of `finish`. It has a number, as each call has. `Full` comes only if
    /// all blocks are in use then, and, over a device that tells, an operation was gathered or waited or the tree wasn't as
    /// small. The area of a load is given back.
    pub fn sync<D: Device>(&mut self, rig: &mut Rig<'_, D>) -> Result<Chain, EmFault>
        requires sound { Sound (seen D.state rig.old) }
        requires is { IsBatch (seen D.state rig.old) self.old }
        requires ready { ⟦<AddSettle<F> as Settle>⟧.IsReady self.old.tree.settle }
        requires free { CanServe (seen D.state rig.old).pool }
        requires few { self.old.calls < 2 ^ 40 + (trunk_of self.old).adopted }
        ensures rule { self.new.tree.settle ≡ self.old.tree.settle }
        ensures syncs { SyncsBatch (seen D.state rig.old) (seen D.state rig.new)
            self.old self.new result }
        ensures counts { CountsSync (seen D.state rig.old) (seen D.state rig.new)
            self.old self.new }
        ensures needs { IfErr result (SyncNeedsMore (seen D.state rig.old) self.old) }
        ensures room { IsTrue (seen D.state rig.old).device.told → BatchWithin self.old.calls
            (seen D.state rig.old) (seen D.state rig.new) self.old }
        ensures over { IfErr result (λ fault. IsTrue (seen D.state rig.old).device.told
            → BatchOver self.old.calls (seen D.state rig.old) self.old fault) }
    {
        match self.close(rig) {
            Ok(()) => self.sync_tree(rig),
            Err(fault) => {
                self.calls += 1;
                self.syncs += 1;
                Err(fault)
            }
        }
    }

    /// The answers of the gets since the last sync, in any order, each once: `(number, 1, V, 0)` if the key had the value V
    /// by the calls before, and `(number, 0, 0, 0)` if it had none. `Full` comes only if all blocks are in use,
    /// and a command was given (`full`).
    pub fn finish<D: Device>(self, rig: &mut Rig<'_, D>) -> Result<Chain, EmFault>
        requires sound { Sound (seen D.state rig.old) }
        requires is { IsBatch (seen D.state rig.old) self }
        requires ready { ⟦<AddSettle<F> as Settle>⟧.IsReady self.tree.settle }
        requires free { CanServe (seen D.state rig.old).pool }
        ensures finishes { FinishesBatch (seen D.state rig.old) (seen D.state rig.new) self result }
        ensures full { IfErr result (λ fault. IfFull fault (λ _. 0 < self.calls)) }
        ensures costs { BatchCosts (seen D.state rig.old) (seen D.state rig.new) self }
        ensures room { IsTrue (seen D.state rig.old).device.told → BatchWithin self.calls
            (seen D.state rig.old) (seen D.state rig.new) self }
        ensures over { IfErr result (λ fault. IsTrue (seen D.state rig.old).device.told
            → BatchOver self.calls (seen D.state rig.old) self fault) }
    {
        let mut batch = self;
        match batch.close(rig) {
            Ok(()) => {
                let Batch {
                    tree,
                    calls: _,
                    syncs: _,
                    early: _,
                    load,
                } = batch;
                give_back(rig, load);
                tree.finish(rig)
            }
            Err(fault) => {
                batch.abandon(rig);
                Err(fault)
            }
        }
    }

    /// Settles the tree and hands it out: no operation waits in it, and it is as small as its pairs allow. The answers that
    /// weren't handed out are given up. The batch wasn't made by `early`.
    ///
    /// The tree holds the two frames; after a fault they are back. At most one move is made to hand the answers out, and two for
    /// each of their blocks, which the tree's moves don't count.
    ///
    /// `Full` comes only if all blocks are in use then, and, over a device that tells, an operation waited or the tree wasn't as
    /// small. `Damaged` comes only over a device that doesn't tell, and `DeviceFault` only if the device's count of faults rose.
    pub fn into_tree<D: Device>(self, rig: &mut Rig<'_, D>) -> Result<Tree<AddSettle<F>>, EmFault>
        requires sound { Sound (seen D.state rig.old) }
        requires is { IsBatch (seen D.state rig.old) self }
        requires ready { ⟦<AddSettle<F> as Settle>⟧.IsReady self.tree.settle }
        requires free { CanServe (seen D.state rig.old).pool }
        requires plain { self.early ≡ false }
        ensures rule { IfOk result (λ tree. tree.settle ≡ self.tree.settle) }
        ensures hands { HandsTree (seen D.state rig.old) (seen D.state rig.new) self result }
        ensures needs { IfErr result (FullIfUntrim (seen D.state rig.old) (trunk_of self)) }
        ensures costs { BatchCosts (seen D.state rig.old) (seen D.state rig.new) self }
        ensures room { IsTrue (seen D.state rig.old).device.told → BatchWithin self.calls
            (seen D.state rig.old) (seen D.state rig.new) self }
        ensures over { IfErr result (λ fault. IsTrue (seen D.state rig.old).device.told
            → BatchOver self.calls (seen D.state rig.old) self fault) }
    {
        let Batch {
            mut tree,
            calls: _,
            syncs: _,
            early: _,
            load,
        } = self;
        give_back(rig, load);
        match keep_pairs(rig, &mut tree) {
            Ok(()) => Ok(tree),
            Err(fault) => {
                tree.abandon(rig);
                Err(fault)
            }
        }
    }

    /// Gives its frames and its area back, also after a fault, and moves nothing. Its blocks stay in use.
    pub fn abandon<D: Device>(self, rig: &mut Rig<'_, D>)
        requires sound { Sound (seen D.state rig.old) }
        requires frames { BatchHasFrames (seen D.state rig.old) self }
        ensures leaves { LeavesBatch (seen D.state rig.old) (seen D.state rig.new) self }
    {
        let Batch {
            tree,
            calls: _,
            syncs: _,
            early: _,
            load,
        } = self;
        give_back(rig, load);
        tree.abandon(rig);
    }

    /// Gives the next command's operation to the tree, or to a load.
    fn push<D: Device>(
        &mut self,
        rig: &mut Rig<'_, D>,
        key: u64,
        what: u64,
        value: u64,
    ) -> Result<(), EmFault>
        requires sound { Sound (seen D.state rig.old) }
        requires is { IsBatch (seen D.state rig.old) self.old }
        requires ready { ⟦<AddSettle<F> as Settle>⟧.IsReady self.old.tree.settle }
        requires free { CanServe (seen D.state rig.old).pool }
        requires area { CanGather (seen D.state rig.old) self.old }
        requires few { self.old.calls < 2 ^ 40 + (trunk_of self.old).adopted }
        requires what { what < 4 }
        ensures rule { self.new.tree.settle ≡ self.old.tree.settle }
        ensures takes { (given : commands.Command) → map_op (self.old.calls + 1) given
            ≡ record { a = key; b = self.old.calls + 1; c = what; d = value } ∷ []
            → TakesTo given (seen D.state rig.old) (seen D.state rig.new) self.old self.new result }
        ensures counts { (given : commands.Command) → map_op (self.old.calls + 1) given
            ≡ record { a = key; b = self.old.calls + 1; c = what; d = value } ∷ []
            → CountsCommand given (seen D.state rig.old) (seen D.state rig.new)
            self.old self.new }
        ensures needs { IfErr result (λ fault. IfFull fault (λ _. CommandNeedsMore self.old.early
            (seen D.state rig.old) (trunk_of self.old) (length (gathered_in self.old)))) }
        ensures room { IsTrue (seen D.state rig.old).device.told → BatchWithin (self.old.calls + 1)
            (seen D.state rig.old) (seen D.state rig.new) self.old }
        ensures over { IfErr result (λ fault. IsTrue (seen D.state rig.old).device.told
            → BatchOver (self.old.calls + 1) (seen D.state rig.old) self.old fault) }
    {
        if self.early {
            self.gather(rig, key, what, value)
        } else {
            self.push_alone(rig, key, what, value)
        }
    }

    /// Pushes the operation of the next command into the tree.
    fn push_alone<D: Device>(
        &mut self,
        rig: &mut Rig<'_, D>,
        key: u64,
        what: u64,
        value: u64,
    ) -> Result<(), EmFault>
        requires sound { Sound (seen D.state rig.old) }
        requires is { IsBatch (seen D.state rig.old) self.old }
        requires ready { ⟦<AddSettle<F> as Settle>⟧.IsReady self.old.tree.settle }
        requires free { CanServe (seen D.state rig.old).pool }
        requires plain { self.old.early ≡ false }
        requires few { self.old.calls < 2 ^ 40 + (trunk_of self.old).adopted }
        requires what { what < 4 }
        ensures rule { self.new.tree.settle ≡ self.old.tree.settle }
        ensures takes { (given : commands.Command) → map_op (self.old.calls + 1) given
            ≡ record { a = key; b = self.old.calls + 1; c = what; d = value } ∷ []
            → TakesTo given (seen D.state rig.old) (seen D.state rig.new) self.old self.new result }
        ensures counts { (given : commands.Command) → map_op (self.old.calls + 1) given
            ≡ record { a = key; b = self.old.calls + 1; c = what; d = value } ∷ []
            → CountsCommand given (seen D.state rig.old) (seen D.state rig.new)
            self.old self.new }
        ensures needs { IfErr result (λ fault. IfFull fault (λ _. CommandNeedsMore self.old.early
            (seen D.state rig.old) (trunk_of self.old) (length (gathered_in self.old)))) }
        ensures room { IsTrue (seen D.state rig.old).device.told → BatchWithin (self.old.calls + 1)
            (seen D.state rig.old) (seen D.state rig.new) self.old }
        ensures over { IfErr result (λ fault. IsTrue (seen D.state rig.old).device.told
            → BatchOver (self.old.calls + 1) (seen D.state rig.old) self.old fault) }
    {
        self.calls += 1;
        self.tree.push(
            rig,
            Record {
                a: key,
                b: self.calls,
                c: what,
                d: value,
            },
        )
    }

    /// Gathers the operation of the next command. If the load is full with it, it enters the tree.
    fn gather<D: Device>(
        &mut self,
        rig: &mut Rig<'_, D>,
        key: u64,
        what: u64,
        value: u64,
    ) -> Result<(), EmFault>
        requires sound { Sound (seen D.state rig.old) }
        requires is { IsBatch (seen D.state rig.old) self.old }
        requires ready { ⟦<AddSettle<F> as Settle>⟧.IsReady self.old.tree.settle }
        requires free { CanServe (seen D.state rig.old).pool }
        requires area { CanGather (seen D.state rig.old) self.old }
        requires early { self.old.early ≡ true }
        requires few { self.old.calls < 2 ^ 40 + (trunk_of self.old).adopted }
        requires what { what < 4 }
        ensures rule { self.new.tree.settle ≡ self.old.tree.settle }
        ensures takes { (given : commands.Command) → map_op (self.old.calls + 1) given
            ≡ record { a = key; b = self.old.calls + 1; c = what; d = value } ∷ []
            → TakesTo given (seen D.state rig.old) (seen D.state rig.new) self.old self.new result }
        ensures counts { (given : commands.Command) → map_op (self.old.calls + 1) given
            ≡ record { a = key; b = self.old.calls + 1; c = what; d = value } ∷ []
            → CountsCommand given (seen D.state rig.old) (seen D.state rig.new)
            self.old self.new }
        ensures needs { IfErr result (λ fault. IfFull fault (λ _. CommandNeedsMore self.old.early
            (seen D.state rig.old) (trunk_of self.old) (length (gathered_in self.old)))) }
        ensures room { IsTrue (seen D.state rig.old).device.told → BatchWithin (self.old.calls + 1)
            (seen D.state rig.old) (seen D.state rig.new) self.old }
        ensures over { IfErr result (λ fault. IsTrue (seen D.state rig.old).device.told
            → BatchOver (self.old.calls + 1) (seen D.state rig.old) self.old fault) }
    {
        let mut load = self.take_load(rig);
        self.calls += 1;
        load.push(Record {
            a: key,
            b: self.calls,
            c: what,
            d: value,
        });
        if load.len() < load.capacity() {
            self.put_load(rig, load);
            return Ok(());
        }
        let entered = self.enter(rig, &mut load);
        self.put_load(rig, load);
        entered
    }

    /// Takes the load out of the batch. If there is none, a new one has an area of the pool.
    fn take_load<D: Device>(&mut self, rig: &mut Rig<'_, D>) -> Gather
        requires sound { Sound (seen D.state rig.old) }
        requires is { IsBatch (seen D.state rig.old) self.old }
        requires early { self.old.early ≡ true }
        requires area { CanGather (seen D.state rig.old) self.old }
        ensures takes { TakesLoad (seen D.state rig.old) (seen D.state rig.new)
            self.old self.new result }
    {
        match mem::replace(&mut self.load, None) {
            Some(load) => load,
            None => Gather::new(rig.lend_area()),
        }
    }

    /// Puts a load into a batch that holds none.
    fn put_load<D: Device>(&mut self, rig: &mut Rig<'_, D>, load: Gather)
        requires sound { Sound (seen D.state rig.old) }
        requires none { self.old.load ≡ None }
        ensures puts { self.new ≡ record self.old { load = Some load } }
        ensures same { seen D.state rig.new ≡ seen D.state rig.old }
    {
        give_back(rig, mem::replace(&mut self.load, Some(load)));
    }

    /// Joins each run of adds of a load to one add, and pushes what is left into the tree. The load is empty then.
    fn enter<D: Device>(&mut self, rig: &mut Rig<'_, D>, load: &mut Gather) -> Result<(), EmFault>
        requires sound { Sound (seen D.state rig.old) }
        requires can { CanEnter (seen D.state rig.old) self.old load.old.items }
        requires ready { ⟦<AddSettle<F> as Settle>⟧.IsReady self.old.tree.settle }
        requires free { CanServe (seen D.state rig.old).pool }
        ensures rest { self.new ≡ record self.old { tree = self.new.tree } }
        ensures rule { self.new.tree.settle ≡ self.old.tree.settle }
        ensures capacity { load.new.capacity ≡ load.old.capacity }
        ensures empty { OnOk result (load.new.items ≡ []) }
        ensures enters { EntersBatch load.old.items (seen D.state rig.old) (seen D.state rig.new)
            self.old self.new result }
        ensures some { IfErr result (λ fault. 0 < length load.old.items) }
        ensures counts { CountsPushes (left_of load.old.items) (seen D.state rig.old)
            (seen D.state rig.new) (trunk_of self.old) (trunk_of self.new) }
        ensures room { IsTrue (seen D.state rig.old).device.told
            → LoadWithin (entries_of self.old + length load.old.items)
            (answers_in (batches.rule_of self.old) (seen D.state rig.old) (trunk_of self.old)
            + length load.old.items) (seen D.state rig.old) (seen D.state rig.new)
            (trunk_of self.old) }
        ensures over { IfErr result (λ fault. IsTrue (seen D.state rig.old).device.told
            → LoadOver (entries_of self.old + length load.old.items)
            (answers_in (batches.rule_of self.old) (seen D.state rig.old) (trunk_of self.old)
            + length load.old.items) (seen D.state rig.old) (trunk_of self.old) fault) }
    {
        load.join(self.tree.rules());
        push_all(rig, &mut self.tree, load.records())?;
        load.clear();
        Ok(())
    }

    /// Has the load enter the tree, if there is one, and gives its area back.
    fn close<D: Device>(&mut self, rig: &mut Rig<'_, D>) -> Result<(), EmFault>
        requires sound { Sound (seen D.state rig.old) }
        requires is { IsBatch (seen D.state rig.old) self.old }
        requires ready { ⟦<AddSettle<F> as Settle>⟧.IsReady self.old.tree.settle }
        requires free { CanServe (seen D.state rig.old).pool }
        ensures rule { self.new.tree.settle ≡ self.old.tree.settle }
        ensures closes { ClosesBatch (seen D.state rig.old) (seen D.state rig.new)
            self.old self.new result }
        ensures some { IfErr result (λ fault. 0 < length (gathered_in self.old)) }
        ensures counts { CountsClose (seen D.state rig.old) (seen D.state rig.new)
            self.old self.new }
        ensures room { IsTrue (seen D.state rig.old).device.told → BatchWithin self.old.calls
            (seen D.state rig.old) (seen D.state rig.new) self.old }
        ensures over { IfErr result (λ fault. IsTrue (seen D.state rig.old).device.told
            → BatchOver self.old.calls (seen D.state rig.old) self.old fault) }
    {
        match mem::replace(&mut self.load, None) {
            None => Ok(()),
            Some(taken) => {
                let mut load = taken;
                let entered = self.enter(rig, &mut load);
                rig.give_area(load.into_area());
                entered
            }
        }
    }

    /// A sync of a batch that holds no load.
    fn sync_tree<D: Device>(&mut self, rig: &mut Rig<'_, D>) -> Result<Chain, EmFault>
        requires sound { Sound (seen D.state rig.old) }
        requires is { IsBatch (seen D.state rig.old) self.old }
        requires closed { self.old.load ≡ None }
        requires ready { ⟦<AddSettle<F> as Settle>⟧.IsReady self.old.tree.settle }
        requires free { CanServe (seen D.state rig.old).pool }
        requires few { self.old.calls < 2 ^ 40 + (trunk_of self.old).adopted }
        ensures rule { self.new.tree.settle ≡ self.old.tree.settle }
        ensures syncs { SyncsTree (seen D.state rig.old) (seen D.state rig.new)
            self.old self.new result }
        ensures counts { CountsTree (seen D.state rig.old) (seen D.state rig.new)
            self.old self.new }
        ensures needs { IfErr result (FullIfUntrim (seen D.state rig.old) (trunk_of self.old)) }
        ensures room { IsTrue (seen D.state rig.old).device.told
            → WithinRoom (trunk_of self.old).longest
            (seen D.state rig.old) (seen D.state rig.new) (trunk_of self.old) }
        ensures over { IfErr result (λ fault. IsTrue (seen D.state rig.old).device.told
            → FullOverRoom (trunk_of self.old).longest (seen D.state rig.old)
            (trunk_of self.old) fault) }
    {
        self.calls += 1;
        self.syncs += 1;
        self.tree.settle_all(rig)?;
        self.tree.take_answers(rig)
    }
}
