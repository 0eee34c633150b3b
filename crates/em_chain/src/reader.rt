//! A list that is being read, as it lies in blocks. A header `h` leads to the next block:
//!
//!     head -> [h . . 3 4 5] -> [h 6 7 8 9 a] -> [h b c - - -] -> 0, or on to a block that isn't read
//!                    ^ skip is 2: 1 and 2 are passed over or gone, and 3 is next
//!
//! Kept here: what is left is a view, or a chain if it is taken; the frame has the first block once it
//! was loaded; with no record left no block is. Left to the rig: that blocks stay as they were stored.

ghost use Rattle.std.specs.Prelude.{◌≡◌, ◌<◌, ◌+◌, get_or, [], ◌∷◌, OnOk, IfOk, IfErr, IfSome, IsTrue, Ok, None, true, false};
ghost use Rattle.em_frames.specs.Device.{zero_record};
ghost use Rattle.em_space.specs.Rig.{Sound, InUse, Goes, BlockCause};
ghost use Rattle.em_space.specs.Ledger.{Costs};
ghost use Rattle.em_space.specs.Seen.{seen};
ghost use Rattle.em_chain.specs.Chain.{IsChain, ChainStays};
ghost use Rattle.em_chain.specs.View.{IsView, ViewStays};
ghost use Rattle.em_chain.specs.Effects.{LendsFrame, GivesFrame, Unmoved, Completes};
ghost use Rattle.em_chain.specs.Reader.{LeadsOn};
ghost use Rattle.em_chain.specs.Reads.{LetsGo};

use crate::block::{has_more, is_link};
use crate::chain::Chain;
use em_frames::{Device, Frame};
use em_record::Record;
use em_space::{EmFault, Rig};

/// A list that is being read, from its front. It holds one frame, and where it takes its chain, the
/// blocks of what is left. It can't be dropped: `end` gives what is left as a chain, and after a
/// fault `abandon` gives the frame back.
pub struct Reader {
    head: u64,
    skip: u64,
    tail: u64,
    count: u64,
    blocks: u64,
    loaded: bool,
    taking: bool,
    frame: Frame,
}

impl Reader {
    ghost use Rattle.em_chain.specs.Reader.{IsReader, ReaderHasFrame, NeedsLoad, IsReady, IsAtLast, rest_of, reader_blocks};
    ghost use Rattle.em_chain.specs.Session.{taking_account};
    ghost use Rattle.em_chain.specs.Reads.{Opens, Reads, AtEnd, ReadCosts, Fetches, Peeks};

    /// A reader of a chain, or of a view, that keeps its blocks: each is read by one move, and none is
    /// released.
    pub fn over<D: Device>(rig: &mut Rig<'_, D>, chain: &Chain) -> Reader
        requires sound { Sound (seen D.state rig.old) }
        requires is { IsView (seen D.state rig.old) chain.now }
        requires free { 1 < (seen D.state rig.old).pool.free }
        ensures lends { LendsFrame (seen D.state rig.old) (seen D.state rig.new) }
        ensures unmoved { Unmoved (seen D.state rig.old) (seen D.state rig.new) }
        ensures opens { Opens (seen D.state rig.old) (seen D.state rig.new) chain.now false result }
    {
        let frame = rig.lend();
        Reader {
            head: chain.head,
            skip: chain.skip,
            tail: chain.tail,
            count: chain.count,
            blocks: chain.blocks,
            loaded: false,
            taking: false,
            frame,
        }
    }

    /// A reader that takes a chain: each block is read by one move, and released, by one more at most,
    /// once its last record was given.
    pub fn taking<D: Device>(rig: &mut Rig<'_, D>, chain: Chain) -> Reader
        requires sound { Sound (seen D.state rig.old) }
        requires is { IsChain (seen D.state rig.old) chain }
        requires free { 1 < (seen D.state rig.old).pool.free }
        ensures lends { LendsFrame (seen D.state rig.old) (seen D.state rig.new) }
        ensures unmoved { Unmoved (seen D.state rig.old) (seen D.state rig.new) }
        ensures opens { Opens (seen D.state rig.old) (seen D.state rig.new) chain true result }
    {
        let Chain {
            head,
            skip,
            tail,
            count,
            blocks,
        } = chain;
        let frame = rig.lend();
        Reader {
            head,
            skip,
            tail,
            count,
            blocks,
            loaded: false,
            taking: true,
            frame,
        }
    }

    /// The next record, and None exactly at the list's end, where nothing is done. After a fault
    /// the reader may only be abandoned.
    #[inline]
    pub fn next<D: Device>(&mut self, rig: &mut Rig<'_, D>) -> Result<Option<Record>, EmFault>
        requires sound { Sound (seen D.state rig.old) }
        requires is { IsReader (seen D.state rig.old) self.old }
        requires free { 0 < (seen D.state rig.old).pool.free }
        ensures goes { Goes (reader_blocks (seen D.state rig.old) self.old)
            (seen D.state rig.old) (seen D.state rig.new) }
        ensures frame { ReaderHasFrame (seen D.state rig.new) self.new }
        ensures reads { IfOk result (λ o. IfSome o (λ x.
            Reads (seen D.state rig.old) (seen D.state rig.new) self.old self.new x)) }
        ensures end { result ≡ Ok None
            → AtEnd (seen D.state rig.old) (seen D.state rig.new) self.old self.new }
        ensures at_end { (rest_of self.old).count ≡ 0 → result ≡ Ok None }
        ensures costs { ReadCosts (seen D.state rig.old) (seen D.state rig.new)
            self.old self.new result }
        ensures spends { self.old.taking ≡ true → Costs self.old.blocks 0 0
            (taking_account self.old) (taking_account self.new)
            (seen D.state rig.old) (seen D.state rig.new) result }
        ensures complete { Completes (seen D.state rig.old) (seen D.state rig.new) result }
        ensures cause { IfErr result (BlockCause (seen D.state rig.old) (seen D.state rig.new)) }
    {
        if self.count == 0 {
            return Ok(None);
        }
        self.ready(rig)?;
        let item = self.step(rig)?;
        Ok(Some(item))
    }

    /// The records that are left.
    pub(crate) fn left(&self) -> u64
        ensures { result ≡ (rest_of self.now).count }
    {
        self.count
    }

    /// The next record, which stays in the list.
    pub(crate) fn peek<D: Device>(&mut self, rig: &mut Rig<'_, D>) -> Result<Record, EmFault>
        requires sound { Sound (seen D.state rig.old) }
        requires is { IsReader (seen D.state rig.old) self.old }
        requires some { 0 < (rest_of self.old).count }
        ensures goes { Goes [] (seen D.state rig.old) (seen D.state rig.new) }
        ensures frame { ReaderHasFrame (seen D.state rig.new) self.new }
        ensures peeks { IfOk result (λ x.
            Peeks (seen D.state rig.old) (seen D.state rig.new) self.old self.new x) }
        ensures costs { ReadCosts (seen D.state rig.old) (seen D.state rig.new)
            self.old self.new result }
        ensures spends { self.old.taking ≡ true → Costs self.old.blocks 0 0
            (taking_account self.old) (taking_account self.new)
            (seen D.state rig.old) (seen D.state rig.new) result }
        ensures cause { IfErr result (BlockCause (seen D.state rig.old) (seen D.state rig.new)) }
    {
        self.ready(rig)?;
        Ok(self.frame.records()[self.skip as usize + 1])
    }

    /// Sees that the first block is in the frame.
    #[inline]
    fn ready<D: Device>(&mut self, rig: &mut Rig<'_, D>) -> Result<(), EmFault>
        requires sound { Sound (seen D.state rig.old) }
        requires is { IsReader (seen D.state rig.old) self.old }
        requires some { 0 < (rest_of self.old).count }
        ensures goes { Goes [] (seen D.state rig.old) (seen D.state rig.new) }
        ensures frame { ReaderHasFrame (seen D.state rig.new) self.new }
        ensures fetches { OnOk result
            (Fetches (seen D.state rig.old) (seen D.state rig.new) self.old self.new) }
        ensures costs { ReadCosts (seen D.state rig.old) (seen D.state rig.new)
            self.old self.new result }
        ensures cause { IfErr result (BlockCause (seen D.state rig.old) (seen D.state rig.new)) }
    {
        if self.loaded {
            return Ok(());
        }
        self.fetch(rig)
    }

    /// Loads the first block.
    #[cold]
    fn fetch<D: Device>(&mut self, rig: &mut Rig<'_, D>) -> Result<(), EmFault>
        requires sound { Sound (seen D.state rig.old) }
        requires is { IsReader (seen D.state rig.old) self.old }
        requires needs { NeedsLoad self.old }
        ensures goes { Goes [] (seen D.state rig.old) (seen D.state rig.new) }
        ensures frame { ReaderHasFrame (seen D.state rig.new) self.new }
        ensures fetches { OnOk result
            (Fetches (seen D.state rig.old) (seen D.state rig.new) self.old self.new) }
        ensures costs { ReadCosts (seen D.state rig.old) (seen D.state rig.new)
            self.old self.new result }
        ensures cause { IfErr result (BlockCause (seen D.state rig.old) (seen D.state rig.new)) }
    {
        if self.blocks == 0 || !is_link(self.head, rig.blocks()) {
            return Err(EmFault::Damaged { block: 0 });
        }
        rig.load(self.head - 1, &mut self.frame)?;
        let first = self.frame.records()[0];
        let most = self.frame.records().len() as u64 - 1;
        let limit = link_limit(self.blocks, first.a, rig.blocks());
        if !has_more(first, most, limit, self.skip) {
            return Err(EmFault::Damaged {
                block: self.head - 1,
            });
        }
        self.loaded = true;
        Ok(())
    }

    /// Takes a record from the frame.
    #[inline]
    fn step<D: Device>(&mut self, rig: &mut Rig<'_, D>) -> Result<Record, EmFault>
        requires sound { Sound (seen D.state rig.old) }
        requires ready { IsReady (seen D.state rig.old) self.old }
        requires free { 0 < (seen D.state rig.old).pool.free }
        ensures goes { Goes (reader_blocks (seen D.state rig.old) self.old)
            (seen D.state rig.old) (seen D.state rig.new) }
        ensures frame { ReaderHasFrame (seen D.state rig.new) self.new }
        ensures reads { IfOk result (λ x.
            Reads (seen D.state rig.old) (seen D.state rig.new) self.old self.new x) }
        ensures costs { ReadCosts (seen D.state rig.old) (seen D.state rig.new)
            self.old self.new result }
        ensures cause { IfErr result (BlockCause (seen D.state rig.old) (seen D.state rig.new)) }
    {
        let first = self.frame.records()[0];
        let item = self.frame.records()[self.skip as usize + 1];
        if self.skip + 1 < first.b {
            if self.count == 1 {
                return Err(EmFault::Damaged {
                    block: self.head - 1,
                });
            }
            self.skip += 1;
            self.count -= 1;
            return Ok(item);
        }
        self.last(rig)?;
        Ok(item)
    }

    /// Takes the last record of a block, and goes on to the next block.
    #[cold]
    fn last<D: Device>(&mut self, rig: &mut Rig<'_, D>) -> Result<(), EmFault>
        requires sound { Sound (seen D.state rig.old) }
        requires last { IsAtLast (seen D.state rig.old) self.old }
        requires free { 0 < (seen D.state rig.old).pool.free }
        ensures goes { Goes (reader_blocks (seen D.state rig.old) self.old)
            (seen D.state rig.old) (seen D.state rig.new) }
        ensures frame { ReaderHasFrame (seen D.state rig.new) self.new }
        ensures reads { OnOk result (Reads (seen D.state rig.old) (seen D.state rig.new)
            self.old self.new (get_or self.old.frame (self.old.skip + 1) zero_record)) }
        ensures costs { ReadCosts (seen D.state rig.old) (seen D.state rig.new)
            self.old self.new result }
        ensures cause { IfErr result (BlockCause (seen D.state rig.old) (seen D.state rig.new)) }
    {
        let link = self.frame.records()[0].a;
        if !leads_on(link, self.blocks, self.count, self.taking) {
            return Err(EmFault::Damaged {
                block: self.head - 1,
            });
        }
        let_go(rig, self.head - 1, self.taking)?;
        self.blocks -= 1;
        self.head = if_left(self.blocks, link);
        self.skip = 0;
        self.tail = if_left(self.blocks, self.tail);
        self.count -= 1;
        self.loaded = false;
        Ok(())
    }

    /// What is left, with no move: a chain if the reader took one, or read over one. Of a reader made
    /// by `over` it is a view of blocks that another keeps, and may only be read.
    pub fn end<D: Device>(self, rig: &mut Rig<'_, D>) -> Chain
        requires sound { Sound (seen D.state rig.old) }
        requires is { IsReader (seen D.state rig.old) self }
        ensures gives { GivesFrame [] (seen D.state rig.old) (seen D.state rig.new) }
        ensures unmoved { Unmoved (seen D.state rig.old) (seen D.state rig.new) }
        ensures words { result ≡ rest_of self }
        ensures view { ViewStays (seen D.state rig.old) (seen D.state rig.new) (rest_of self) }
        ensures stays { IsChain (seen D.state rig.old) (rest_of self)
            → ChainStays (seen D.state rig.old) (seen D.state rig.new) (rest_of self) }
    {
        let (rest, frame) = self.into_chain();
        rig.give(frame);
        rest
    }

    /// Gives the frame back, also after a fault. The blocks stay in use, and nothing is moved.
    pub fn abandon<D: Device>(self, rig: &mut Rig<'_, D>)
        requires sound { Sound (seen D.state rig.old) }
        requires frame { ReaderHasFrame (seen D.state rig.old) self }
        ensures gives { GivesFrame [] (seen D.state rig.old) (seen D.state rig.new) }
        ensures unmoved { Unmoved (seen D.state rig.old) (seen D.state rig.new) }
    {
        let (_rest, frame) = self.into_chain();
        rig.give(frame);
    }

    /// The words of what is left, and the frame.
    fn into_chain(self) -> (Chain, Frame)
        ensures words { result.0 ≡ rest_of self }
        ensures frame { result.1 ≡ self.frame }
    {
        let Reader {
            head,
            skip,
            tail,
            count,
            blocks,
            loaded: _,
            taking: _,
            frame,
        } = self;
        let rest = Chain {
            head,
            skip,
            tail,
            count,
            blocks,
        };
        (rest, frame)
    }
}

/// Whether the last record of a block leads on as the words say. The last block's link is asked only
/// if the blocks are taken.
fn leads_on(link: u64, blocks: u64, count: u64, taking: bool) -> bool
    ensures complete { 0 < blocks → LeadsOn link blocks count taking → IsTrue result }
    ensures none_left { IsTrue result → count ≡ 1 → blocks ≡ 1 }
{
    if blocks == 1 {
        count == 1 && (link == 0 || !taking)
    } else {
        link != 0 && count > 1
    }
}

/// The greatest link that the first of these blocks may have: the last one's isn't followed.
fn link_limit(blocks: u64, link: u64, most: u64) -> u64
    ensures last { blocks ≡ 1 → result ≡ link }
    ensures more { (blocks ≡ 1 → ⊥) → result ≡ most }
{
    if blocks == 1 { link } else { most }
}

/// A link, or 0 if no block is left.
fn if_left(blocks: u64, link: u64) -> u64
    ensures none { blocks ≡ 0 → result ≡ 0 }
    ensures some { 0 < blocks → result ≡ link }
{
    if blocks == 0 { 0 } else { link }
}

/// Releases a block that is taken.
fn let_go<D: Device>(rig: &mut Rig<'_, D>, block: u64, taking: bool) -> Result<(), EmFault>
    requires sound { Sound (seen D.state rig.old) }
    requires in_use { InUse (seen D.state rig.old) block }
    requires free { 0 < (seen D.state rig.old).pool.free }
    ensures goes { Goes (block ∷ []) (seen D.state rig.old) (seen D.state rig.new) }
    ensures releases { LetsGo (seen D.state rig.old) (seen D.state rig.new) taking result }
    ensures cause { IfErr result (BlockCause (seen D.state rig.old) (seen D.state rig.new)) }
{
    if taking {
        return rig.release(block);
    }
    Ok(())
}
