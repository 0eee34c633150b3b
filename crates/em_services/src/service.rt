//! What answers a map or stab file, or dumps a map. A service takes the commands one after another. A sync has it give the
//! records that are due then, and go on; at the end it is given up for those that are due there:
//!
//!     new → take → take → sync → take → .. → answers → a chain
//!                           ↘ a chain
//!                 ↘ (a fault of any of these) → abandon
//!
//! Kept here: which commands it took. Left to its implementation: how it keeps them.

ghost use Rattle.std.specs.Prelude.{◌≡◌, ◌+◌, ◌*◌, ◌++◌, ◌∷◌, ◌<◌, ◌≤◌, ◌^◌, ℕ, [], List, Option, length, IfErr, IfOk, IfSome, IsTrue, Ok, OnErr, OnOk};
ghost use Rattle.em_model.specs.declared.command.Command as commands;
ghost use Rattle.em_model.specs.declared.command.Command.TheVariants as variants;
ghost use Rattle.em_record.specs.Shape.{ShapeNumbers};
ghost use Rattle.em_space.specs.Held.{Apart, Holds};
ghost use Rattle.em_space.specs.Queue.{CanServe, Pays};
ghost use Rattle.em_space.specs.Rig.{Cause, Goes, RigState, Sound, Touches};
ghost use Rattle.em_space.specs.Seen.{seen};
ghost use Rattle.em_chain.specs.Chain.{chain_items, empty_chain};
ghost use Rattle.em_chain.specs.Effects.{Unmoved};
ghost use Rattle.em_lines.specs.Kind.{IsOfKind};
ghost use Rattle.em_map.specs.Areas.{KeepsAreas};
ghost use Rattle.em_services.specs.Service.{CanAnswer, CanSync, CanTake, FramesOut, GivesFrames, GivesAtSync, LeavesAnswers, MakesService, RisesBySize, ServiceCounts, TakesCommand, WithinAllowance, WithinRoom, records_at_sync, records_for, size_of, syncs_for, FullOverRoom};
ghost use Rattle.em_lines.specs.declared.text.FileKind as kinds;
ghost use Rattle.em_lines.specs.declared.text.FileKind.TheVariants as kind;

use em_chain::Chain;
use em_frames::Device;
use em_lines::FileKind;
use em_model::Command;
use em_space::{EmFault, Rig};

/// A map or an interval list that answers its commands together, at each sync and at the end, or a map that gives its pairs at
/// the end, over blocks of a rig's device. An interval list has no sync.
///
/// A service can't be dropped: `answers` and `abandon` give its frames back. After a fault of `take` or `sync`
/// only `abandon` may be called.
pub trait Service {
    /// What it is made by: the rules of its answers.
    type Rule;

    /// The kind of file that it answers.
    ghost KIND: { kinds.FileKind };
    /// How it joins the value of an add to that of its key, and how a rule says it.
    ghost combiner: { Self → ℕ → ℕ → ℕ };

    ghost combiner_of: { Self.Rule → ℕ → ℕ → ℕ };
    /// The rule does what it says.
    ghost IsRule: { Self.Rule → Type 0 };
    /// It took these commands: the first ones up to and with the last sync, and those since. What it makes of them
    /// is said if the device tells.
    ghost Has: { Self → RigState → List commands.Command → List commands.Command → Type 0 };
    /// The blocks that it holds.
    ghost blocks: { Self → RigState → List ℕ };
    /// What ties it to its blocks.
    ghost IsService: { Self → RigState → Type 0 };
    /// The part of this on frames and numbers, which a fault leaves.
    ghost HasItsFrames: { Self → RigState → Type 0 };
    /// Its numbers.
    ghost counts: { Self → ServiceCounts };
    /// The most commands that it takes.
    ghost most: { Self → ℕ };
    /// It holds this many single frames.
    ghost frames: { ℕ };
    /// The areas that it holds: one at most.
    ghost areas: { Self → ℕ };
    /// The size of some commands by which its moves are counted, by the shape, and how a rule says it.
    ghost size: { Self → ShapeNumbers → List commands.Command → ℕ };

    ghost size_by: { Self.Rule → ShapeNumbers → List commands.Command → ℕ };
    /// At most this many moves for commands of a size, by the shape, as often as there were syncs and once more;
    /// where there is such a number.
    ghost allowance: { Option (ShapeNumbers → ℕ → ℕ) };
    /// At most this many blocks at once for commands of a size, by the shape; where there is such a
    /// number and the device tells.
    ghost room: { Option (ShapeNumbers → ℕ → ℕ) };

    const KIND: FileKind;

    /// A service with no command, by this rule.
    fn new<D: Device>(rig: &mut Rig<'_, D>, rule: Self::Rule) -> Result<Self, EmFault>
        requires sound { Sound (seen D.state rig.old) }
        requires free { CanServe (seen D.state rig.old).pool }
        requires rule { IsRule rule }
        ensures makes { IfOk result (λ v. MakesService allowance room frames
            (blocks v (seen D.state rig.new)) (counts v)
            (seen D.state rig.old) (seen D.state rig.new)) }
        ensures is { IfOk result (λ v. IsService v (seen D.state rig.new)) }
        ensures has { IfOk result (λ v. Has v (seen D.state rig.new) [] []) }
        ensures joins { IfOk result (λ v. combiner v ≡ combiner_of rule) }
        ensures bounds { IfOk result (λ v. most v ≡ 2 ^ 40) }
        ensures none_out { IfOk result (λ v. areas v ≡ 0) }
        ensures sizes { IfOk result (λ v. size v ≡ size_by rule) }
        ensures goes { OnErr result (Goes [] (seen D.state rig.old) (seen D.state rig.new)) }
        ensures room { WithinRoom room 0 [] (seen D.state rig.old) (seen D.state rig.new) }
        ensures full { IfErr result (FullOverRoom room 0 [] (seen D.state rig.old)) }
        ensures moves { WithinAllowance allowance 0 0 (λ shape. 0)
            (seen D.state rig.old) (seen D.state rig.new) }
        ensures owes { OnErr result (Pays 0 (seen D.state rig.old).pool.shape.frames
            (seen D.state rig.old) (seen D.state rig.new)) }
        ensures cause { IfErr result (Cause (seen D.state rig.old) (seen D.state rig.new)) };

    /// Gives it a command of its kind that is no sync.
    fn take<D: Device>(&mut self, rig: &mut Rig<'_, D>, command: Command) -> Result<(), EmFault>
        requires sound { Sound (seen D.state rig.old) }
        requires is { IsService self.old (seen D.state rig.old) }
        requires free { CanTake (areas self.old) (seen D.state rig.old).pool }
        requires few { (counts self.old).n < most self.old }
        requires kind { IsOfKind KIND command }
        requires other { command ≡ variants.Sync → ⊥ }
        ensures goes { KeepsAreas (areas self.old) (areas self.new)
            (blocks self.old (seen D.state rig.old)) (seen D.state rig.old) (seen D.state rig.new) }
        ensures joins { combiner self.new ≡ combiner self.old }
        ensures bounds { most self.new ≡ most self.old }
        ensures sizes { size self.new ≡ size self.old }
        ensures frames { HasItsFrames self.new (seen D.state rig.new) }
        ensures is { OnOk result (IsService self.new (seen D.state rig.new)) }
        ensures has { OnOk result ((before cs : List commands.Command)
            → Has self.old (seen D.state rig.old) before cs
            → Has self.new (seen D.state rig.new) before (cs ++ command ∷ [])) }
        ensures takes { OnOk result (TakesCommand allowance room 0
            (blocks self.old (seen D.state rig.old)) (blocks self.new (seen D.state rig.new))
            (counts self.old) (counts self.new) (seen D.state rig.old) (seen D.state rig.new)) }
        ensures room { WithinRoom room ((counts self.old).n + 1)
            (blocks self.old (seen D.state rig.old))
            (seen D.state rig.old) (seen D.state rig.new) }
        ensures full { IfErr result (FullOverRoom room ((counts self.old).n + 1)
            (blocks self.old (seen D.state rig.old)) (seen D.state rig.old)) }
        ensures moves { (before cs : List commands.Command)
            → Has self.old (seen D.state rig.old) before cs
            → WithinAllowance allowance
            (size self.old (seen D.state rig.old).pool.shape (before ++ cs ++ command ∷ []))
            (counts self.old).syncs (counts self.old).spent
            (seen D.state rig.old) (seen D.state rig.new) }
        ensures owes { OnErr result (Pays (counts self.old).unstored
            (seen D.state rig.old).pool.shape.frames
            (seen D.state rig.old) (seen D.state rig.new)) }
        ensures cause { IfErr result (Cause (seen D.state rig.old) (seen D.state rig.new)) };

    /// A sync, if the files of its kind have any: it counts as a command. The records that are due at it, in order: their list
    /// stands beside the service's blocks, and the service goes on. For other kinds nothing is done, and the list is empty. More
    /// frames must be free than for a command, so that it may make a queue.
    fn sync<D: Device>(&mut self, rig: &mut Rig<'_, D>) -> Result<Chain, EmFault>
        requires sound { Sound (seen D.state rig.old) }
        requires is { IsService self.old (seen D.state rig.old) }
        requires free { CanSync (areas self.old) (seen D.state rig.old).pool }
        requires few { (counts self.old).n < most self.old }
        ensures goes { KeepsAreas (areas self.old) (areas self.new)
            (blocks self.old (seen D.state rig.old)) (seen D.state rig.old) (seen D.state rig.new) }
        ensures joins { combiner self.new ≡ combiner self.old }
        ensures bounds { most self.new ≡ most self.old }
        ensures sizes { size self.new ≡ size self.old }
        ensures frames { HasItsFrames self.new (seen D.state rig.new) }
        ensures is { OnOk result (IsService self.new (seen D.state rig.new)) }
        ensures has { IsOfKind KIND variants.Sync
            → OnOk result ((before cs : List commands.Command)
            → Has self.old (seen D.state rig.old) before cs
            → Has self.new (seen D.state rig.new) (before ++ cs ++ variants.Sync ∷ []) []) }
        ensures gives { IsOfKind KIND variants.Sync → IfOk result (GivesAtSync allowance room
            (blocks self.old (seen D.state rig.old)) (blocks self.new (seen D.state rig.new))
            (counts self.old) (counts self.new) (seen D.state rig.old) (seen D.state rig.new)) }
        ensures items { IsOfKind KIND variants.Sync → IfOk result (λ c.
            IsTrue (seen D.state rig.old).device.told
            → (before cs : List commands.Command) → Has self.old (seen D.state rig.old) before cs
            → chain_items (seen D.state rig.new) c ≡ records_at_sync (combiner self.old) KIND before cs) }
        ensures room { WithinRoom room ((counts self.old).n + 1)
            (blocks self.old (seen D.state rig.old))
            (seen D.state rig.old) (seen D.state rig.new) }
        ensures full { IfErr result (FullOverRoom room ((counts self.old).n + 1)
            (blocks self.old (seen D.state rig.old)) (seen D.state rig.old)) }
        ensures moves { IsOfKind KIND variants.Sync → (before cs : List commands.Command)
            → Has self.old (seen D.state rig.old) before cs
            → WithinAllowance allowance
            (size self.old (seen D.state rig.old).pool.shape (before ++ cs ++ variants.Sync ∷ []))
            ((counts self.old).syncs + 1) (counts self.old).spent
            (seen D.state rig.old) (seen D.state rig.new) }
        ensures share { IsOfKind KIND variants.Sync
            → OnOk result (IsTrue (seen D.state rig.old).device.told
            → (before cs : List commands.Command) → Has self.old (seen D.state rig.old) before cs
            → IfSome allowance (λ f. (counts self.new).spent (seen D.state rig.old).pool.shape
            ≤ ((counts self.new).syncs + 1) * f (seen D.state rig.old).pool.shape
            (size self.old (seen D.state rig.old).pool.shape (before ++ cs ++ variants.Sync ∷ [])))) }
        ensures owes { OnErr result (Pays (counts self.old).unstored
            (2 * (seen D.state rig.old).pool.shape.frames)
            (seen D.state rig.old) (seen D.state rig.new)) }
        ensures idle { (IsOfKind KIND variants.Sync → ⊥) → (result ≡ Ok empty_chain)
            × (self.new ≡ self.old) × (seen D.state rig.new ≡ seen D.state rig.old) }
        ensures cause { IfErr result (Cause (seen D.state rig.old) (seen D.state rig.new)) };

    /// The records that are due at the end, in order. Its blocks are released. More frames must be free than for a command, so
    /// that it may make a queue.
    fn answers<D: Device>(self, rig: &mut Rig<'_, D>) -> Result<Chain, EmFault>
        requires sound { Sound (seen D.state rig.old) }
        requires is { IsService self (seen D.state rig.old) }
        requires free { CanAnswer (areas self) (seen D.state rig.old).pool }
        ensures gives { GivesFrames frames (areas self) (blocks self (seen D.state rig.old))
            (seen D.state rig.old) (seen D.state rig.new) }
        ensures leaves { IfOk result (LeavesAnswers room (blocks self (seen D.state rig.old))
            (counts self) (seen D.state rig.old) (seen D.state rig.new)) }
        ensures items { IfOk result (λ c. IsTrue (seen D.state rig.old).device.told
            → (before cs : List commands.Command) → Has self (seen D.state rig.old) before cs
            → chain_items (seen D.state rig.new) c ≡ records_for (combiner self) KIND before cs) }
        ensures room { (before cs : List commands.Command)
            → Has self (seen D.state rig.old) before cs
            → WithinRoom room (size_of KIND (before ++ cs)) (blocks self (seen D.state rig.old))
            (seen D.state rig.old) (seen D.state rig.new) }
        ensures full { (before cs : List commands.Command)
            → Has self (seen D.state rig.old) before cs
            → IfErr result (FullOverRoom room (size_of KIND (before ++ cs))
            (blocks self (seen D.state rig.old)) (seen D.state rig.old)) }
        ensures moves { (before cs : List commands.Command)
            → Has self (seen D.state rig.old) before cs
            → WithinAllowance allowance (size self (seen D.state rig.old).pool.shape (before ++ cs))
            (counts self).syncs (counts self).spent (seen D.state rig.old) (seen D.state rig.new) }
        ensures owes { OnErr result (Pays (counts self).unstored
            (2 * (seen D.state rig.old).pool.shape.frames)
            (seen D.state rig.old) (seen D.state rig.new)) }
        ensures cause { IfErr result (Cause (seen D.state rig.old) (seen D.state rig.new)) };

    /// Gives its frames back, and moves nothing. Its blocks stay in use.
    fn abandon<D: Device>(self, rig: &mut Rig<'_, D>)
        requires sound { Sound (seen D.state rig.old) }
        requires frames { HasItsFrames self (seen D.state rig.old) }
        ensures gives { GivesFrames frames (areas self) []
            (seen D.state rig.old) (seen D.state rig.new) }
        ensures unmoved { Unmoved (seen D.state rig.old) (seen D.state rig.new) };

    /// A queue file is answered pop by pop, and by no service.
    ghost no_queue: { KIND ≡ kind.Queue → ⊥ };

    /// It holds few frames: those of a call are free beside them.
    ghost few_frames: { frames ≤ 4 };

    ghost few_areas: { (v : Self) → areas v ≤ 1 };

    /// What ties it to its blocks has the part on frames.
    ghost frames_of: { (v : Self) (s : RigState) → IsService v s → HasItsFrames v s };

    /// Its own size of some commands is at most their size, and no less with more commands after them. The records that are due at
    /// the end, or at a sync, are no more than that.
    ghost size_most: { (v : Self) (shape : ShapeNumbers) (cs : List commands.Command)
        → size v shape cs ≤ size_of KIND cs };

    ghost size_rises: { (v : Self) (shape : ShapeNumbers) (cs more : List commands.Command)
        → size v shape cs ≤ size v shape (cs ++ more) };

    ghost answers_few: { (v : Self) (s : RigState) (before cs : List commands.Command)
        → Has v s before cs
        → length (records_for (combiner v) KIND before cs) ≤ size v s.pool.shape (before ++ cs) };

    ghost synced_few: { (v : Self) (s : RigState) (before cs : List commands.Command)
        → Has v s before cs
        → length (records_at_sync (combiner v) KIND before cs) ≤ size v s.pool.shape (before ++ cs) };

    /// Its commands are counted, and its syncs are no more than those among them.
    ghost n_is: { (v : Self) (s : RigState) (before cs : List commands.Command) → Has v s before cs
        → (counts v).n ≡ length (before ++ cs) };

    ghost syncs_few: { (v : Self) (s : RigState) (before cs : List commands.Command)
        → Has v s before cs → (counts v).syncs ≤ syncs_for KIND (before ++ cs) };

    /// Its blocks are in use, none twice.
    ghost holds: { (v : Self) (s : RigState) → IsService v s → IsTrue s.device.told
        → Holds s (blocks v s) };

    /// It stays as it is over a call that changes no block of its own, while its frames are out.
    ghost stays: { (v : Self) (held : List ℕ) (s t : RigState) → IsService v s → Touches held s t
        → (IsTrue s.device.told → Apart (blocks v s) held) → FramesOut frames (areas v) t.pool
        → IsService v t × (IsTrue s.device.told → blocks v t ≡ blocks v s)
        × ((before cs : List commands.Command) → Has v s before cs → Has v t before cs) };

    /// The same of what is left after a fault.
    ghost frames_stay: { (v : Self) (held : List ℕ) (s t : RigState) → HasItsFrames v s
        → Touches held s t → FramesOut frames (areas v) t.pool → HasItsFrames v t };

    /// Its frames are out.
    ghost out: { (v : Self) (s : RigState) → HasItsFrames v s → FramesOut frames (areas v) s.pool };

    /// Of its blocks at most as many aren't stored as it holds frames.
    ghost unstored_most: { (v : Self) (s : RigState) → IsService v s
        → (counts v).unstored ≤ frames };

    /// What it is allowed doesn't fall where the size rises, nor does its room.
    ghost rising: { IfSome allowance RisesBySize };

    ghost rising_room: { IfSome room RisesBySize };
}
