//! A group of lists that are written at once, each at its end: the words of each member, and a rack with
//! a frame for each.
//!
//!     words   [ 0: 2 blocks, as it was added ]  [ 1: 3 blocks, fill 5 ]  [ 2: no block ]
//!     rack    [ 0: any records               ]  [ 1: its last block   ]  [ 2: any      ]  [ - ]  [ - ]
//!
//! Kept here: a frame stands in the rack for each member, and for no other; a member to which a record
//! was appended is a `Writer` with that frame, and any other a `Chain`; no block is held twice. Left to
//! `Writer`: how a list lies in its blocks. An append takes the member's frame out of the rack, makes a
//! writer of it, calls that, and takes it apart again.

ghost use Rattle.std.specs.Prelude.{◌≡◌, ◌<◌, ◌+◌, ◌-◌, [], ◌∷◌, ◌++◌, length, slice_set, Some, None, OnOk, OnErr, IfOk, IfErr, IsTrue, true, false};
ghost use Rattle.em_frames.specs.Rack.{IsEmptyAt, IsHeldAt};
ghost use Rattle.em_frames.specs.Pool.{places_in, lent_rack, given_rack};
ghost use Rattle.em_space.specs.Held.{Apart};
ghost use Rattle.em_chain.specs.Chain.{IsChain, chain_blocks};
ghost use Rattle.em_chain.specs.Writers.{IsGroup, HasRack, group_blocks};
ghost use Rattle.em_space.specs.Ledger.{Halts};
ghost use Rattle.em_space.specs.Rig.{Sound, Goes, Touches, Cause, BlockCause, DeviceCause, SameBlocks};
ghost use Rattle.em_space.specs.Seen.{seen};

use crate::chain::Chain;
use crate::member::MemberWords;
use crate::writer::Writer;
use arrayvec::ArrayVec;
use em_frames::{Device, Frame, Rack};
use em_record::Record;
use em_space::{EmFault, Rig};

/// Up to 2f lists that are written at once. It holds the rack, in which one frame for each member
/// stands, and the lists' blocks. It can't be dropped.
pub struct Writers {
    rack: Rack,
    words: ArrayVec<MemberWords, 512>,
}

impl Writers {
    ghost use Rattle.em_chain.specs.Writers.{MemberAppends, StopsAppending, FullIfNeeded, Opens, member_at, member_blocks, words_in, member_account, MemberCanGrow, TakesLast, TakeSpends, last_of, Adds, BeginsGroup, GivesLast, GivenRack, Lifts};
    ghost use Rattle.em_chain.specs.WritersStored.{InSomeRig, IsStoredPart, IsPendingPart};
    ghost use Rattle.em_chain.specs.Effects.{GivesFrame, LendsFrame, Unmoved, Completes};

    /// The members.
    pub fn count(&self) -> usize
        ensures { result ≡ length self.now.words.items }
    {
        self.words.len()
    }

    /// What is stored of a member: all blocks of a chain to which nothing was appended, else all but
    /// the last. It may only be read, by a reader over it, until the next `append` to that member.
    pub fn stored(&self, at: usize) -> Chain
        requires within { at < length self.now.words.items }
        ensures stored { IsStoredPart (member_at self.now at) result }
    {
        self.words[at].stored()
    }

    /// The records of a member that come after the stored ones.
    pub fn pending(&self, at: usize) -> &[Record]
        requires within { at < length self.now.words.items }
        requires group { InSomeRig self.now }
        ensures pending { IsPendingPart (member_at self.now at) result.now }
    {
        let words = self.words[at];
        words.pending(self.rack.records(at))
    }

    /// A group with no member. It holds the rack.
    pub fn new<D: Device>(rig: &mut Rig<'_, D>) -> Writers
        requires sound { Sound (seen D.state rig.old) }
        requires in_pool { (seen D.state rig.old).pool.rack_out ≡ false }
        ensures sound { Sound (seen D.state rig.new) }
        ensures touches { Touches [] (seen D.state rig.old) (seen D.state rig.new) }
        ensures lent { seen D.state rig.new
            ≡ record (seen D.state rig.old) { pool = lent_rack (seen D.state rig.old).pool } }
        ensures begins { BeginsGroup (seen D.state rig.old) (seen D.state rig.new) result }
    {
        let rack = rig.lend_rack();
        Writers {
            rack,
            words: ArrayVec::new(),
        }
    }

    /// A chain becomes the last member, with a frame. No move is made.
    pub fn add<D: Device>(&mut self, rig: &mut Rig<'_, D>, chain: Chain)
        requires sound { Sound (seen D.state rig.old) }
        requires is { IsGroup (seen D.state rig.old) self.old }
        requires chain { IsChain (seen D.state rig.old) chain }
        requires apart { IsTrue (seen D.state rig.old).device.told
            → Apart (chain_blocks (seen D.state rig.old) chain)
            (group_blocks (seen D.state rig.old) self.old) }
        requires free { 0 < (seen D.state rig.old).pool.free }
        requires room { length self.old.words.items
            < places_in (seen D.state rig.old).pool.shape }
        ensures lends { LendsFrame (seen D.state rig.old) (seen D.state rig.new) }
        ensures unmoved { Unmoved (seen D.state rig.old) (seen D.state rig.new) }
        ensures adds { Adds (seen D.state rig.old) (seen D.state rig.new) self.old self.new chain }
    {
        let at = self.words.len();
        let frame = rig.lend();
        let Chain {
            head,
            skip,
            tail,
            count,
            blocks,
        } = chain;
        self.words.push(MemberWords {
            head,
            skip,
            tail,
            count,
            blocks,
            fill: 0,
            touched: false,
        });
        self.rack.put(at, frame);
    }

    /// Gives the rack back. There is no member.
    pub fn end<D: Device>(self, rig: &mut Rig<'_, D>)
        requires sound { Sound (seen D.state rig.old) }
        requires rack { HasRack (seen D.state rig.old) self }
        requires none { length self.words.items ≡ 0 }
        ensures sound { Sound (seen D.state rig.new) }
        ensures touches { Touches [] (seen D.state rig.old) (seen D.state rig.new) }
        ensures given { seen D.state rig.new
            ≡ record (seen D.state rig.old) { pool = given_rack (seen D.state rig.old).pool } }
    {
        let Writers { rack, words: _ } = self;
        rig.give_rack(rack);
    }

    /// Gives the rack and all frames back, also after a fault. The blocks stay in use, and nothing is
    /// moved.
    pub fn abandon<D: Device>(mut self, rig: &mut Rig<'_, D>)
        requires sound { Sound (seen D.state rig.old) }
        requires rack { HasRack (seen D.state rig.old) self }
        ensures sound { Sound (seen D.state rig.new) }
        ensures touches { Touches [] (seen D.state rig.old) (seen D.state rig.new) }
        ensures given { GivenRack (length self.words.items)
            (seen D.state rig.old).pool (seen D.state rig.new).pool }
        ensures unmoved { Unmoved (seen D.state rig.old) (seen D.state rig.new) }
    {
        while self.words.len() > 0 {
            self.give_last(rig);
        }
        self.end(rig);
    }

    /// Gives the frame of the last member back, also after a fault.
    fn give_last<D: Device>(&mut self, rig: &mut Rig<'_, D>)
        requires sound { Sound (seen D.state rig.old) }
        requires rack { HasRack (seen D.state rig.old) self.old }
        requires some { 0 < length self.old.words.items }
        ensures gives { GivesLast (seen D.state rig.old) (seen D.state rig.new) self.old self.new }
    {
        let (_, frame) = self.lift_last();
        rig.give(frame);
    }

    /// Adds one record at the end of a member. The last block of the member is loaded at its first
    /// append. `Full` comes exactly if the member needs a block and all are in use. After a fault the
    /// group may only be abandoned.
    pub fn append<D: Device>(
        &mut self,
        rig: &mut Rig<'_, D>,
        at: usize,
        item: Record,
    ) -> Result<(), EmFault>
        requires sound { Sound (seen D.state rig.old) }
        requires is { IsGroup (seen D.state rig.old) self.old }
        requires free { 0 < (seen D.state rig.old).pool.free }
        requires within { at < length self.old.words.items }
        requires room { MemberCanGrow (member_at self.old at) }
        ensures goes { Goes (member_blocks (seen D.state rig.old) (member_at self.old at))
            (seen D.state rig.old) (seen D.state rig.new) }
        ensures rack { HasRack (seen D.state rig.new) self.new }
        ensures len { length self.new.words.items ≡ length self.old.words.items }
        ensures appends { OnOk result
            (MemberAppends (seen D.state rig.old) (seen D.state rig.new) self.old self.new at item) }
        ensures stops { IfErr result
            (StopsAppending (seen D.state rig.old) (seen D.state rig.new) self.old) }
        ensures full { FullIfNeeded (seen D.state rig.old) (seen D.state rig.new)
            (member_at self.old at) result }
        ensures complete { (seen D.state rig.old).used < (seen D.state rig.old).blocks
            → Completes (seen D.state rig.old) (seen D.state rig.new) result }
        ensures cause { IfErr result (Cause (seen D.state rig.old) (seen D.state rig.new)) }
    {
        let mut writer = self.open(rig, at)?;
        let appended = writer.append(rig, item);
        self.close(at, writer);
        appended
    }

    /// Takes the last member out, as a chain. What is pending is stored, by one move. After a fault
    /// the member is gone, and its blocks stay in use.
    pub fn take_last<D: Device>(&mut self, rig: &mut Rig<'_, D>) -> Result<Chain, EmFault>
        requires sound { Sound (seen D.state rig.old) }
        requires is { IsGroup (seen D.state rig.old) self.old }
        requires free { 0 < (seen D.state rig.old).pool.free }
        requires some { 0 < length self.old.words.items }
        ensures gives { GivesFrame (member_blocks (seen D.state rig.old) (last_of self.old self.new))
            (seen D.state rig.old) (seen D.state rig.new) }
        ensures len { length self.old.words.items ≡ length self.new.words.items + 1 }
        ensures rack { HasRack (seen D.state rig.new) self.new }
        ensures takes { IfOk result (λ c.
            TakesLast (seen D.state rig.old) (seen D.state rig.new) self.old self.new c) }
        ensures spends { TakeSpends (seen D.state rig.old) (seen D.state rig.new)
            self.old self.new result }
        ensures complete { Completes (seen D.state rig.old) (seen D.state rig.new) result }
        ensures cause { IfErr result (DeviceCause (seen D.state rig.old) (seen D.state rig.new)) }
    {
        let (words, frame) = self.lift_last();
        words.end(rig, frame)
    }

    /// Takes the words of the last member and its frame out.
    fn lift_last(&mut self) -> (MemberWords, Frame)
        requires some { 0 < length self.old.words.items }
        requires held { IsHeldAt self.old.rack (length self.old.words.items - 1) }
        ensures lifts { Lifts self.old self.new result.0 result.1 }
    {
        let words = self.pop_words();
        let frame = self.rack.take(self.words.len());
        (words, frame)
    }

    /// The words of the last member, which are no more in the list.
    fn pop_words(&mut self) -> MemberWords
        requires { 0 < length self.old.words.items }
        ensures items { self.old.words.items ≡ self.new.words.items ++ result ∷ [] }
        ensures rack { self.new.rack ≡ self.old.rack }
    {
        let Some(words) = self.words.pop() else {
            unreachable!()
        };
        words
    }

    /// A member as a writer. Its place is empty until `close`. After a fault nothing changed.
    fn open<D: Device>(&mut self, rig: &mut Rig<'_, D>, at: usize) -> Result<Writer, EmFault>
        requires sound { Sound (seen D.state rig.old) }
        requires is { IsGroup (seen D.state rig.old) self.old }
        requires free { 0 < (seen D.state rig.old).pool.free }
        requires within { at < length self.old.words.items }
        ensures goes { Goes [] (seen D.state rig.old) (seen D.state rig.new) }
        ensures opens { IfOk result (λ w.
            Opens (seen D.state rig.old) (seen D.state rig.new) (member_at self.old at) w) }
        ensures rack { OnOk result (self.new.rack ≡ slice_set self.old.rack at None) }
        ensures members { self.new.words ≡ self.old.words }
        ensures has { OnErr result (HasRack (seen D.state rig.new) self.new) }
        ensures halts { IfErr result (λ fault. Halts (member_account (member_at self.old at)).blocks
            ((member_account (member_at self.old at)).paid + 1)
            (member_account (member_at self.old at)).unstored (member_account (member_at self.old at))
            (seen D.state rig.old) (seen D.state rig.new) fault) }
        ensures same { OnOk result (SameBlocks (seen D.state rig.old) (seen D.state rig.new)) }
        ensures complete { Completes (seen D.state rig.old) (seen D.state rig.new) result }
        ensures cause { IfErr result (BlockCause (seen D.state rig.old) (seen D.state rig.new)) }
    {
        let member = self.words[at];
        let frame = self.rack.take(at);
        if member.touched {
            return Ok(member.writer(frame));
        }
        rig.give(frame);
        match Writer::resume(rig, member.chain()) {
            Ok(writer) => Ok(writer),
            Err(fault) => {
                let frame = rig.lend();
                self.rack.put(at, frame);
                Err(fault)
            }
        }
    }

    /// Puts a writer back into the place from which it came.
    fn close(&mut self, at: usize, writer: Writer)
        requires within { at < length self.old.words.items }
        requires empty { IsEmptyAt self.old.rack at }
        ensures rack { self.new.rack ≡ slice_set self.old.rack at (Some writer.frame) }
        ensures members { self.new.words.items
            ≡ slice_set self.old.words.items at (words_in writer) }
    {
        let Writer {
            head,
            skip,
            tail,
            count,
            blocks,
            fill,
            frame,
        } = writer;
        self.words[at] = MemberWords {
            head,
            skip,
            tail,
            count,
            blocks,
            fill,
            touched: true,
        };
        self.rack.put(at, frame);
    }
}
