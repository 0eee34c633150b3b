//! The four lists of a circuit that is being read, side by side on one rig. A header `h` leads to
//! the next block, and the last block of each list stands in a frame:
//!
//!     defs     [h d d d] -> [h d d d] -> (h d - -)    what inputs, latches and gates define
//!     gates    [h g g g] -> (h g g -)
//!     uses     (h u - -)                              what latches and columns use
//!     resets   (h r - -)                              how latches start
//!
//! Kept here: each list is packed from its begin, so that n records take ceil(n/P) blocks; no
//! block is of two lists; four frames of the pool are out, at a fault too; and whether the
//! definitions climb and gates are above their operands is known at each moment. Left to the
//! writers: how a list lies in its blocks.

ghost use Rattle.std.specs.Prelude.{◌≡◌, ◌<◌, ◌&&◌, [], ◌∷◌, ◌+◌, IfOk, IfErr};
ghost use Rattle.em_space.specs.Rig.{Sound, DeviceCause};
ghost use Rattle.em_space.specs.Seen.{seen};
ghost use Rattle.em_chain.specs.Effects.{Completes, OnlyMoves, Unmoved};
ghost use Rattle.em_chain.specs.Writer.{CanGrow};

use crate::climb::{Climb, above_operands, after_record, at_foot};
use em_chain::{Chain, Writer};
use em_frames::Device;
use em_record::Record;
use em_space::{EmFault, Rig};

/// The four lists of a circuit that is being read, each at its end. It holds their blocks and
/// four frames, and can't be dropped: `finish` makes chains of the lists, and `abandon` gives the
/// frames back.
pub(crate) struct Draft {
    defs: Writer,
    gates: Writer,
    uses: Writer,
    resets: Writer,
    /// How the variables of the definitions stand.
    climb: Climb,
    /// Whether all gates are above their operands.
    rises: bool,
}

impl Draft {
    ghost use Rattle.aig_text.specs.Draft.{BeginsDraft, DraftsTo, FinishesDraft, FullExactly, GivesFrames, HasDraftFrames, IsDraft, LendsFrames, draft_account, draft_blocks};

    /// Four lists with no record. They take no block yet.
    pub(crate) fn new<D: Device>(rig: &mut Rig<'_, D>) -> Draft
        requires sound { Sound (seen D.state rig.old) }
        requires free { 4 < (seen D.state rig.old).pool.free }
        ensures lends { LendsFrames 4 (seen D.state rig.old) (seen D.state rig.new) }
        ensures unmoved { Unmoved (seen D.state rig.old) (seen D.state rig.new) }
        ensures begins { BeginsDraft (seen D.state rig.new) result }
    {
        Draft {
            defs: Writer::new(rig),
            gates: Writer::new(rig),
            uses: Writer::new(rig),
            resets: Writer::new(rig),
            climb: at_foot(),
            rises: true,
        }
    }

    /// Whether the variable of each definition is above the one before it.
    pub(crate) fn climbs(&self) -> bool
        ensures { result ≡ self.now.climb.climbs }
    {
        self.climb.climbs
    }

    /// Whether the variables of the definitions are 1, 2, 3 and so on, and each gate is above its operands.
    pub(crate) fn is_straight(&self) -> bool
        ensures { result ≡ (self.now.climb.counts && self.now.rises) }
    {
        self.climb.counts && self.rises
    }

    /// Adds one record to the list of definitions. `Full` comes exactly if that list needs a block
    /// and all are in use. After a fault the draft may only be abandoned.
    pub(crate) fn add_def<D: Device>(
        &mut self,
        rig: &mut Rig<'_, D>,
        item: Record,
    ) -> Result<(), EmFault>
        requires sound { Sound (seen D.state rig.old) }
        requires is { IsDraft (seen D.state rig.old) self.old }
        requires free { 0 < (seen D.state rig.old).pool.free }
        requires room { CanGrow self.old.defs }
        ensures frames { HasDraftFrames (seen D.state rig.new) self.new }
        ensures drafts { DraftsTo (seen D.state rig.old) (seen D.state rig.new)
            self.old self.new (item ∷ []) [] [] [] result }
        ensures full { FullExactly (seen D.state rig.old) self.old.defs result }
        ensures complete { (seen D.state rig.old).used < (seen D.state rig.old).blocks
            → Completes (seen D.state rig.old) (seen D.state rig.new) result }
    {
        self.climb = after_record(self.climb, item);
        self.defs.append(rig, item)
    }

    /// Adds one record to the list of gates, likewise.
    pub(crate) fn add_gate<D: Device>(
        &mut self,
        rig: &mut Rig<'_, D>,
        item: Record,
    ) -> Result<(), EmFault>
        requires sound { Sound (seen D.state rig.old) }
        requires is { IsDraft (seen D.state rig.old) self.old }
        requires free { 0 < (seen D.state rig.old).pool.free }
        requires room { CanGrow self.old.gates }
        ensures frames { HasDraftFrames (seen D.state rig.new) self.new }
        ensures drafts { DraftsTo (seen D.state rig.old) (seen D.state rig.new)
            self.old self.new [] (item ∷ []) [] [] result }
        ensures full { FullExactly (seen D.state rig.old) self.old.gates result }
        ensures complete { (seen D.state rig.old).used < (seen D.state rig.old).blocks
            → Completes (seen D.state rig.old) (seen D.state rig.new) result }
    {
        self.rises = above_operands(self.rises, item);
        self.gates.append(rig, item)
    }

    /// Adds one record to the list of uses, likewise.
    pub(crate) fn add_use<D: Device>(
        &mut self,
        rig: &mut Rig<'_, D>,
        item: Record,
    ) -> Result<(), EmFault>
        requires sound { Sound (seen D.state rig.old) }
        requires is { IsDraft (seen D.state rig.old) self.old }
        requires free { 0 < (seen D.state rig.old).pool.free }
        requires room { CanGrow self.old.uses }
        ensures frames { HasDraftFrames (seen D.state rig.new) self.new }
        ensures drafts { DraftsTo (seen D.state rig.old) (seen D.state rig.new)
            self.old self.new [] [] (item ∷ []) [] result }
        ensures full { FullExactly (seen D.state rig.old) self.old.uses result }
        ensures complete { (seen D.state rig.old).used < (seen D.state rig.old).blocks
            → Completes (seen D.state rig.old) (seen D.state rig.new) result }
    {
        self.uses.append(rig, item)
    }

    /// Adds one record to the list of resets, likewise.
    pub(crate) fn add_reset<D: Device>(
        &mut self,
        rig: &mut Rig<'_, D>,
        item: Record,
    ) -> Result<(), EmFault>
        requires sound { Sound (seen D.state rig.old) }
        requires is { IsDraft (seen D.state rig.old) self.old }
        requires free { 0 < (seen D.state rig.old).pool.free }
        requires room { CanGrow self.old.resets }
        ensures frames { HasDraftFrames (seen D.state rig.new) self.new }
        ensures drafts { DraftsTo (seen D.state rig.old) (seen D.state rig.new)
            self.old self.new [] [] [] (item ∷ []) result }
        ensures full { FullExactly (seen D.state rig.old) self.old.resets result }
        ensures complete { (seen D.state rig.old).used < (seen D.state rig.old).blocks
            → Completes (seen D.state rig.old) (seen D.state rig.new) result }
    {
        self.resets.append(rig, item)
    }

    /// The lists of definitions, of gates, of uses and of resets, as chains. Each list's last block is stored,
    /// by one move; a list with no block moves nothing. It is never `Full`, and the frames are back
    /// at a fault too.
    pub(crate) fn finish<D: Device>(
        self,
        rig: &mut Rig<'_, D>,
    ) -> Result<(Chain, Chain, Chain, Chain), EmFault>
        requires sound { Sound (seen D.state rig.old) }
        requires is { IsDraft (seen D.state rig.old) self }
        requires free { 0 < (seen D.state rig.old).pool.free }
        ensures gives { GivesFrames 4 (draft_blocks (seen D.state rig.old) self)
            (seen D.state rig.old) (seen D.state rig.new) }
        ensures finishes { IfOk result (λ c.
            FinishesDraft (seen D.state rig.old) (seen D.state rig.new) self c.0 c.1 c.2 c.3) }
        ensures only { OnlyMoves (draft_account self).unstored
            (seen D.state rig.old) (seen D.state rig.new) }
        ensures complete { Completes (seen D.state rig.old) (seen D.state rig.new) result }
        ensures cause { IfErr result (DeviceCause (seen D.state rig.old) (seen D.state rig.new)) }
    {
        let Draft {
            defs,
            gates,
            uses,
            resets,
            climb: _,
            rises: _,
        } = self;
        let resets = resets.finish(rig);
        let defs = defs.finish(rig);
        let gates = gates.finish(rig);
        let uses = uses.finish(rig);
        Ok((defs?, gates?, uses?, resets?))
    }

    /// Gives the frames back, also after a fault. The blocks stay in use, and nothing is moved.
    pub(crate) fn abandon<D: Device>(self, rig: &mut Rig<'_, D>)
        requires sound { Sound (seen D.state rig.old) }
        requires frames { HasDraftFrames (seen D.state rig.old) self }
        ensures gives { GivesFrames 4 [] (seen D.state rig.old) (seen D.state rig.new) }
        ensures unmoved { Unmoved (seen D.state rig.old) (seen D.state rig.new) }
    {
        let Draft {
            defs,
            gates,
            uses,
            resets,
            climb: _,
            rises: _,
        } = self;
        resets.abandon(rig);
        defs.abandon(rig);
        gates.abandon(rig);
        uses.abandon(rig);
    }
}
