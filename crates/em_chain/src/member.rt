//! The words of a member of a group. With a frame they make the chain or the writer that it is.

ghost use Rattle.std.specs.Prelude.{◌≡◌, ◌<◌, [], length, true, IfErr};
ghost use Rattle.em_frames.specs.Pool.{HasFrames};
ghost use Rattle.em_space.specs.Rig.{Sound, DeviceCause};
ghost use Rattle.em_space.specs.Seen.{seen};
ghost use Rattle.em_chain.specs.Effects.{GivesFrame, Completes};

use crate::chain::Chain;
use crate::writer::Writer;
use em_frames::{Device, Frame};
use em_record::Record;
use em_space::{EmFault, Rig};

/// The words of a member. A touched one has its last block in its frame, with `fill` records.
#[derive(Clone, Copy, Default)]
pub struct MemberWords {
    pub(crate) head: u64,
    pub(crate) skip: u64,
    pub(crate) tail: u64,
    pub(crate) count: u64,
    pub(crate) blocks: u64,
    pub(crate) fill: u64,
    pub(crate) touched: bool,
}

impl MemberWords {
    ghost use Rattle.em_chain.specs.Writers.{IsMember, EndsMember, chain_in, writer_in, member_by, member_blocks};
    ghost use Rattle.em_chain.specs.WritersStored.{IsStoredPart, IsPendingPart};

    /// The chain that an untouched member is.
    pub(crate) fn chain(&self) -> Chain
        ensures { result ≡ chain_in self.now }
    {
        Chain {
            head: self.head,
            skip: self.skip,
            tail: self.tail,
            count: self.count,
            blocks: self.blocks,
        }
    }

    /// The writer that a touched member is, with its frame.
    pub(crate) fn writer(&self, frame: Frame) -> Writer
        ensures { result ≡ writer_in self.now frame }
    {
        Writer {
            head: self.head,
            skip: self.skip,
            tail: self.tail,
            count: self.count,
            blocks: self.blocks,
            fill: self.fill,
            frame,
        }
    }

    /// What is stored of the list.
    pub(crate) fn stored(&self) -> Chain
        ensures { IsStoredPart (member_by self.now.touched self.now []) result }
    {
        if !self.touched {
            return self.chain();
        }
        if self.blocks < 2 {
            return Chain::empty();
        }
        Chain {
            head: self.head,
            skip: self.skip,
            tail: 0,
            count: self.count.saturating_sub(self.fill),
            blocks: self.blocks.saturating_sub(1),
        }
    }

    /// The records that come after the stored ones, of the member's frame.
    pub(crate) fn pending<'a>(&self, frame: &'a [Record]) -> &'a [Record]
        requires fits { self.now.touched ≡ true → self.now.fill < length frame.now }
        ensures { IsPendingPart (member_by self.now.touched self.now frame.now) result.now }
    {
        if !self.touched {
            return &frame[..0];
        }
        let end = self.fill as usize + 1;
        if self.blocks < 2 {
            return &frame[self.skip.min(self.fill) as usize + 1..end];
        }
        &frame[1..end]
    }

    /// The list as a chain: what is pending is stored. The frame goes back.
    pub(crate) fn end<D: Device>(
        &self,
        rig: &mut Rig<'_, D>,
        frame: Frame,
    ) -> Result<Chain, EmFault>
        requires sound { Sound (seen D.state rig.old) }
        requires is { IsMember (seen D.state rig.old) (member_by self.now.touched self.now frame) }
        requires frame { HasFrames 1 (length frame) (seen D.state rig.old).pool }
        requires free { 0 < (seen D.state rig.old).pool.free }
        ensures gives { GivesFrame (member_blocks (seen D.state rig.old)
            (member_by self.now.touched self.now frame))
            (seen D.state rig.old) (seen D.state rig.new) }
        ensures ends { EndsMember (seen D.state rig.old) (seen D.state rig.new)
            (member_by self.now.touched self.now frame) result }
        ensures complete { Completes (seen D.state rig.old) (seen D.state rig.new) result }
        ensures cause { IfErr result (DeviceCause (seen D.state rig.old) (seen D.state rig.new)) }
    {
        if self.touched {
            return self.writer(frame).finish(rig);
        }
        rig.give(frame);
        Ok(self.chain())
    }
}
