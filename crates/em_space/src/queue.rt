ghost use Rattle.std.specs.Prelude.{◌≡◌, ◌+◌, ◌++◌, ◌<◌, ◌≤◌, ◌^◌, ℕ, List, Option, length, option_to_list, IfErr, IfNone, IfOk, IfSome, IsTrue, OnErr, OnOk};
ghost use Rattle.em_record.specs.Order.{IsAscending, Lacks, with_record};
ghost use Rattle.em_record.specs.Shape.{ShapeNumbers};
ghost use Rattle.em_record.specs.declared.record.Record as declared;
ghost use Rattle.em_space.specs.Held.{Apart, Holds, Within};
ghost use Rattle.em_space.specs.Queue.{AreOut, CanServe, Ended, Ends, IsRising, IsRisingRoom, LacksBlocks, Leaves, Pays, QueueCounts, Served, Serves};
ghost use Rattle.em_space.specs.Rig.{Cause, IfFull, RigState, Sound, Touches};
ghost use Rattle.em_space.specs.Seen.{seen};

use crate::fault::EmFault;
use crate::rig::Rig;
use em_frames::Device;
use em_record::Record;

/// A queue of records that keeps them in blocks of a rig's device: `pop` takes the least one out,
/// by `a`, then `b`, then `c`, then `d`. No two of its records have the same `a` and `b`.
///
/// A queue can't be dropped: `end` releases its blocks and gives its frames back, and `abandon`
/// gives back the frames alone. After a fault of `push` or `pop` only `abandon` may be called.
pub trait Queue {
    /// Its items, in ascending order.
    ghost items: { Self → RigState → List declared.Record };
    /// The blocks that it holds.
    ghost blocks: { Self → RigState → List ℕ };
    /// What ties it to its blocks.
    ghost IsQueue: { Self → RigState → Type 0 };
    /// The part of this on frames and numbers, which a fault leaves.
    ghost HasItsFrames: { Self → RigState → Type 0 };
    /// Its numbers.
    ghost counts: { Self → QueueCounts };
    /// At most this many moves after `n` calls, by the shape, n and k, if there is such a number and the
    /// device tells.
    ghost allowance: { Option (ShapeNumbers → ℕ → ℕ → ℕ) };
    /// At most this many blocks at once, by the shape and k, if there is such a number and the device
    /// tells.
    ghost room: { Option (ShapeNumbers → ℕ → ℕ) };
    /// With this many free blocks no call answers `Full`.
    ghost enough: { ShapeNumbers → QueueCounts → ℕ };

    /// Adds an item. `Full` comes only if all blocks are in use at its exit and fewer than `enough` were
    /// free before the call.
    fn push<D: Device>(&mut self, rig: &mut Rig<'_, D>, item: Record) -> Result<(), EmFault>
        requires sound { Sound (seen D.state rig.old) }
        requires is { IsQueue self.old (seen D.state rig.old) }
        requires free { CanServe (seen D.state rig.old).pool }
        requires few { (counts self.old).n < 2 ^ 100 }
        requires limit { (counts self.old).len < 2 ^ 56 }
        requires lacks { IsTrue (seen D.state rig.old).device.told
            → Lacks item (items self.old (seen D.state rig.old)) }
        ensures serves { Serves (blocks self.old (seen D.state rig.old))
            (counts self.old) (counts self.new) (seen D.state rig.old) (seen D.state rig.new) }
        ensures frames { HasItsFrames self.new (seen D.state rig.new) }
        ensures is { OnOk result (IsQueue self.new (seen D.state rig.new)) }
        ensures items { OnOk result (IsTrue (seen D.state rig.old).device.told
            → items self.new (seen D.state rig.new)
            ≡ with_record item (items self.old (seen D.state rig.old))) }
        ensures len { OnOk result ((counts self.new).len ≡ (counts self.old).len + 1) }
        ensures served { OnOk result (Served (counts self.old) (counts self.new)
            (seen D.state rig.old) (seen D.state rig.new)) }
        ensures within { OnOk result (Within (seen D.state rig.old)
            (blocks self.old (seen D.state rig.old)) (blocks self.new (seen D.state rig.new))) }
        ensures owes { OnErr result (Pays (counts self.old).unstored
            (seen D.state rig.old).pool.shape.frames
            (seen D.state rig.old) (seen D.state rig.new)) }
        ensures full { IfErr result (λ fault. IfFull fault (LacksBlocks enough room
            (counts self.old) (counts self.new).k (seen D.state rig.old))) }
        ensures cause { IfErr result (Cause (seen D.state rig.old) (seen D.state rig.new)) };

    /// Takes the least item out, or answers None, exactly if there is none.
    fn pop<D: Device>(&mut self, rig: &mut Rig<'_, D>) -> Result<Option<Record>, EmFault>
        requires sound { Sound (seen D.state rig.old) }
        requires is { IsQueue self.old (seen D.state rig.old) }
        requires free { CanServe (seen D.state rig.old).pool }
        requires few { (counts self.old).n < 2 ^ 100 }
        ensures serves { Serves (blocks self.old (seen D.state rig.old))
            (counts self.old) (counts self.new) (seen D.state rig.old) (seen D.state rig.new) }
        ensures frames { HasItsFrames self.new (seen D.state rig.new) }
        ensures is { OnOk result (IsQueue self.new (seen D.state rig.new)) }
        ensures items { IfOk result (λ item. IsTrue (seen D.state rig.old).device.told
            → items self.old (seen D.state rig.old)
            ≡ option_to_list item ++ items self.new (seen D.state rig.new)) }
        ensures len { IfOk result (λ item.
            (counts self.new).len + length (option_to_list item) ≡ (counts self.old).len) }
        ensures none { IfOk result (λ item. IfNone item ((counts self.old).len ≡ 0)) }
        ensures served { OnOk result (Served (counts self.old) (counts self.new)
            (seen D.state rig.old) (seen D.state rig.new)) }
        ensures within { OnOk result (Within (seen D.state rig.old)
            (blocks self.old (seen D.state rig.old)) (blocks self.new (seen D.state rig.new))) }
        ensures owes { OnErr result (Pays (counts self.old).unstored
            (seen D.state rig.old).pool.shape.frames
            (seen D.state rig.old) (seen D.state rig.new)) }
        ensures full { IfErr result (λ fault. IfFull fault (LacksBlocks enough room
            (counts self.old) (counts self.new).k (seen D.state rig.old))) }
        ensures cause { IfErr result (Cause (seen D.state rig.old) (seen D.state rig.new)) };

    /// The number of its items.
    fn len(&self) -> u64
        ensures { result ≡ (counts self.now).len };

    /// Gives its frames back, and moves nothing. Its blocks stay in use.
    fn abandon<D: Device>(self, rig: &mut Rig<'_, D>)
        requires sound { Sound (seen D.state rig.old) }
        requires frames { HasItsFrames self (seen D.state rig.old) }
        ensures leaves { Leaves (counts self) (seen D.state rig.old) (seen D.state rig.new) };

    /// Releases its blocks, and gives its frames back, which it does after a fault too.
    fn end<D: Device>(self, rig: &mut Rig<'_, D>) -> Result<(), EmFault>
        requires sound { Sound (seen D.state rig.old) }
        requires is { IsQueue self (seen D.state rig.old) }
        requires free { CanServe (seen D.state rig.old).pool }
        ensures ends { Ends allowance room (blocks self (seen D.state rig.old)) (counts self)
            (seen D.state rig.old) (seen D.state rig.new) }
        ensures ended { OnOk result
            (Ended (counts self) (seen D.state rig.old) (seen D.state rig.new)) }
        ensures owes { OnErr result (Pays (counts self).unstored
            (seen D.state rig.old).pool.shape.frames
            (seen D.state rig.old) (seen D.state rig.new)) }
        ensures full { IfErr result (λ fault. IfFull fault (LacksBlocks enough room
            (counts self) (counts self).k (seen D.state rig.old))) }
        ensures cause { IfErr result (Cause (seen D.state rig.old) (seen D.state rig.new)) };

    /// What ties it to its blocks has the part on frames.
    ghost frames_of: { (q : Self) (s : RigState) → IsQueue q s → HasItsFrames q s };

    /// The number of its items and of its blocks, if the device tells.
    ghost len_is: { (q : Self) (s : RigState) → IsQueue q s → IsTrue s.device.told
        → (counts q).len ≡ length (items q s) };

    ghost blocks_is: { (q : Self) (s : RigState) → IsQueue q s → IsTrue s.device.told
        → (counts q).blocks ≡ length (blocks q s) };

    /// Its items ascend.
    ghost ascending: { (q : Self) (s : RigState) → IsQueue q s → IsTrue s.device.told
        → IsAscending (items q s) };

    /// Its blocks are in use, none twice.
    ghost holds: { (q : Self) (s : RigState) → IsQueue q s → IsTrue s.device.told
        → Holds s (blocks q s) };

    /// It stays as it is over a call that changes no block of its own, while its frames are out.
    ghost stays: { (q : Self) (held : List ℕ) (s t : RigState) → IsQueue q s → Touches held s t
        → (IsTrue s.device.told → Apart (blocks q s) held) → AreOut (counts q) t.pool
        → IsQueue q t × (IsTrue s.device.told → items q t ≡ items q s)
        × (IsTrue s.device.told → blocks q t ≡ blocks q s) };

    /// The same of what is left after a fault.
    ghost frames_stay: { (q : Self) (held : List ℕ) (s t : RigState) → HasItsFrames q s
        → Touches held s t → AreOut (counts q) t.pool → HasItsFrames q t };

    /// Its frames and areas are out.
    ghost out: { (q : Self) (s : RigState) → HasItsFrames q s → AreOut (counts q) s.pool };

    /// Its moves are among the rig's, k is at most n, and the number since is at most k.
    ghost spent_most: { (q : Self) (s : RigState) → HasItsFrames q s → (counts q).spent ≤ s.moves };

    ghost k_most: { (q : Self) (s : RigState) → HasItsFrames q s → (counts q).k ≤ (counts q).n };

    ghost since_most: { (q : Self) (s : RigState) → HasItsFrames q s
        → (counts q).since ≤ (counts q).k };

    /// With no item no call came since it had none.
    ghost since_none: { (q : Self) (s : RigState) → IsQueue q s → (counts q).len ≡ 0
        → (counts q).since ≡ 0 };

    /// It holds at most as many blocks as its greatest number says, and of them at most as many that
    /// weren't stored as it holds single frames.
    ghost blocks_most: { (q : Self) (s : RigState) → IsQueue q s
        → (counts q).blocks ≤ (counts q).most };

    ghost unstored_most: { (q : Self) (s : RigState) → IsQueue q s
        → (counts q).unstored ≤ (counts q).frames };

    /// What it is allowed doesn't fall where n or k rises, and its moves never exceed it, if the device
    /// tells.
    ghost rising: { IfSome allowance IsRising };

    ghost spends: { (q : Self) (s : RigState) → HasItsFrames q s → IsTrue s.device.told
        → IfSome allowance (λ f.
        (counts q).spent ≤ f s.pool.shape (counts q).n (counts q).k) };

    /// Its room doesn't fall where k rises, and its blocks never exceed it, if the device tells.
    ghost rising_room: { IfSome room IsRisingRoom };

    ghost fits: { (q : Self) (s : RigState) → HasItsFrames q s → IsTrue s.device.told
        → IfSome room (λ f. (counts q).most ≤ f s.pool.shape (counts q).k) };
}
