//! A list that is being written, as it lies in blocks. A header `h` leads to the next block:
//!
//!     head -> [h . . 3 4 5] -> [h 6 7 8 9 a] -> (h b c - - -)    the last block stands in the frame
//!                                                    ^ fill is 2, and the next record comes here
//!
//! Kept here: the frame has the last block's header and records; the others are stored, and lead to it.
//! If all of these are full the list is tight, and an append keeps it so. Left to the rig: that blocks
//! stay as they were stored.

ghost use Rattle.std.specs.Prelude.{◌≡◌, ◌↔◌, ◌<◌, ◌≤◌, ◌+◌, ◌*◌, ◌^◌, min, length, set, [], OnOk, OnErr, IfOk, IfErr, Err};
ghost use Rattle.em_space.specs.Rig.{Sound, Goes, Cause, BlockCause, DeviceCause};
ghost use Rattle.em_space.specs.Ledger.{Costs};
ghost use Rattle.em_space.specs.Seen.{seen};
ghost use Rattle.em_chain.specs.Chain.{IsChain, payload_in};
ghost use Rattle.em_chain.specs.Effects.{LendsFrame, GivesFrame, Unmoved, OnlyMoves, Completes};
ghost use Rattle.em_chain.specs.List.{block_header};

use crate::block::{is_last, is_link, put_header, put_record};
use crate::chain::Chain;
use em_frames::{Device, Frame};
use em_record::Record;
use em_space::{EmFault, Rig};

/// A list that is being written, at its end. It holds the list's blocks and one frame, in which the
/// last block stands until the next one begins. It can't be dropped: `finish` makes a chain of it,
/// and after a fault `abandon` gives its frame back.
pub struct Writer {
    pub(crate) head: u64,
    pub(crate) skip: u64,
    pub(crate) tail: u64,
    pub(crate) count: u64,
    pub(crate) blocks: u64,
    pub(crate) fill: u64,
    pub(crate) frame: Frame,
}

impl Writer {
    ghost use Rattle.em_chain.specs.Writer.{IsWriter, WriterHasFrame, NeedsBlock, CanGrow, writer_blocks};
    ghost use Rattle.em_chain.specs.Session.{writer_account, one_more, FinishSpends, ResumeSpends};
    ghost use Rattle.em_chain.specs.View.{stored_part};
    ghost use Rattle.em_chain.specs.Writes.{Begins, Appends, AppendCosts, Finishes, FinishCosts, Resumes};

    /// The records that were written so far.
    pub fn len(&self) -> u64
        ensures { result ≡ self.now.count }
    {
        self.count
    }

    /// The blocks that it holds.
    pub fn blocks(&self) -> u64
        ensures { result ≡ self.now.blocks }
    {
        self.blocks
    }

    /// What is stored of the list: all blocks but the last. It may only be read, by a reader over it,
    /// until the next `append`, and only if there are more blocks than one.
    pub fn stored(&self) -> Chain
        ensures { result ≡ stored_part self.now }
    {
        Chain {
            head: self.head,
            skip: self.skip,
            tail: 0,
            count: self.count.saturating_sub(self.fill),
            blocks: self.blocks.saturating_sub(1),
        }
    }

    /// A writer of a list with no record. It takes no block yet.
    pub fn new<D: Device>(rig: &mut Rig<'_, D>) -> Writer
        requires sound { Sound (seen D.state rig.old) }
        requires free { 1 < (seen D.state rig.old).pool.free }
        ensures lends { LendsFrame (seen D.state rig.old) (seen D.state rig.new) }
        ensures unmoved { Unmoved (seen D.state rig.old) (seen D.state rig.new) }
        ensures begins { Begins (seen D.state rig.new) result }
    {
        let frame = rig.lend();
        Writer {
            head: 0,
            skip: 0,
            tail: 0,
            count: 0,
            blocks: 0,
            fill: 0,
            frame,
        }
    }

    /// A writer that goes on at the end of a chain. If there is a block, the last one is loaded.
    pub fn resume<D: Device>(rig: &mut Rig<'_, D>, chain: Chain) -> Result<Writer, EmFault>
        requires sound { Sound (seen D.state rig.old) }
        requires is { IsChain (seen D.state rig.old) chain }
        requires free { 1 < (seen D.state rig.old).pool.free }
        ensures lends { OnOk result (LendsFrame (seen D.state rig.old) (seen D.state rig.new)) }
        ensures refused { OnErr result (Goes [] (seen D.state rig.old) (seen D.state rig.new)) }
        ensures resumes { IfOk result (λ w.
            Resumes (seen D.state rig.old) (seen D.state rig.new) chain w) }
        ensures moves { OnlyMoves (min chain.blocks 1)
            (seen D.state rig.old) (seen D.state rig.new) }
        ensures spends { ResumeSpends (seen D.state rig.old) (seen D.state rig.new) chain result }
        ensures complete { Completes (seen D.state rig.old) (seen D.state rig.new) result }
        ensures cause { IfErr result (BlockCause (seen D.state rig.old) (seen D.state rig.new)) }
    {
        let mut frame = rig.lend();
        if chain.blocks == 0 {
            return Ok(Writer::at_end(Chain::empty(), 0, frame));
        }
        if !is_link(chain.tail, rig.blocks()) {
            rig.give(frame);
            return Err(EmFault::Damaged { block: 0 });
        }
        let loaded = rig.load(chain.tail - 1, &mut frame);
        let first = frame.records()[0];
        let most = frame.records().len() as u64 - 1;
        match loaded {
            Ok(()) => {}
            Err(fault) => {
                rig.give(frame);
                return Err(fault);
            }
        }
        if !is_last(first, most) {
            rig.give(frame);
            return Err(EmFault::Damaged {
                block: chain.tail - 1,
            });
        }
        Ok(Writer::at_end(chain, first.b, frame))
    }

    /// A writer at the end of a chain, with its last block in a frame.
    fn at_end(chain: Chain, fill: u64, frame: Frame) -> Writer
        ensures { result ≡ record {
          head = chain.head;
          skip = chain.skip;
          tail = chain.tail;
          count = chain.count;
          blocks = chain.blocks;
          fill = fill;
          frame = frame;
        } }
    {
        let Chain {
            head,
            skip,
            tail,
            count,
            blocks,
        } = chain;
        Writer {
            head,
            skip,
            tail,
            count,
            blocks,
            fill,
            frame,
        }
    }

    /// Adds one record at the end. A block is taken only if the list has none, or where its last
    /// one is full, which is then stored. `Full` comes exactly if a block is needed and all are
    /// in use. After a fault the writer may only be abandoned.
    #[inline]
    pub fn append<D: Device>(&mut self, rig: &mut Rig<'_, D>, item: Record) -> Result<(), EmFault>
        requires sound { Sound (seen D.state rig.old) }
        requires is { IsWriter (seen D.state rig.old) self.old }
        requires free { 0 < (seen D.state rig.old).pool.free }
        requires room { CanGrow self.old }
        ensures goes { Goes (writer_blocks (seen D.state rig.old) self.old)
            (seen D.state rig.old) (seen D.state rig.new) }
        ensures frame { WriterHasFrame (seen D.state rig.new) self.new }
        ensures appends { OnOk result
            (Appends (seen D.state rig.old) (seen D.state rig.new) self.old self.new item) }
        ensures costs { AppendCosts (seen D.state rig.old) (seen D.state rig.new)
            self.old self.new result }
        ensures spends { Costs (one_more (seen D.state rig.old) self.old)
            (2 * one_more (seen D.state rig.old) self.old) (min self.old.blocks 1)
            (writer_account self.old) (writer_account self.new)
            (seen D.state rig.old) (seen D.state rig.new) result }
        ensures full { (result ≡ Err (EmFault.Full (seen D.state rig.old).used))
            ↔ (NeedsBlock (seen D.state rig.old) self.old
            × ((seen D.state rig.old).used ≡ (seen D.state rig.old).blocks)) }
        ensures complete { (seen D.state rig.old).used < (seen D.state rig.old).blocks
            → Completes (seen D.state rig.old) (seen D.state rig.new) result }
        ensures cause { IfErr result (Cause (seen D.state rig.old) (seen D.state rig.new)) }
    {
        if self.blocks == 0 {
            return self.first_block(rig, item);
        }
        if self.fill as usize + 1 == self.frame.records().len() {
            return self.next_block(rig, item);
        }
        self.put(item);
        Ok(())
    }

    /// The first block, with this record.
    #[cold]
    fn first_block<D: Device>(&mut self, rig: &mut Rig<'_, D>, item: Record) -> Result<(), EmFault>
        requires sound { Sound (seen D.state rig.old) }
        requires is { IsWriter (seen D.state rig.old) self.old }
        requires free { 0 < (seen D.state rig.old).pool.free }
        requires none { self.old.blocks ≡ 0 }
        ensures goes { Goes (writer_blocks (seen D.state rig.old) self.old)
            (seen D.state rig.old) (seen D.state rig.new) }
        ensures frame { WriterHasFrame (seen D.state rig.new) self.new }
        ensures appends { OnOk result
            (Appends (seen D.state rig.old) (seen D.state rig.new) self.old self.new item) }
        ensures costs { AppendCosts (seen D.state rig.old) (seen D.state rig.new)
            self.old self.new result }
        ensures full { (result ≡ Err (EmFault.Full (seen D.state rig.old).used))
            ↔ ((seen D.state rig.old).used ≡ (seen D.state rig.old).blocks) }
        ensures complete { (seen D.state rig.old).used < (seen D.state rig.old).blocks
            → Completes (seen D.state rig.old) (seen D.state rig.new) result }
        ensures cause { IfErr result (Cause (seen D.state rig.old) (seen D.state rig.new)) }
    {
        let block = rig.alloc()?;
        self.head = block + 1;
        self.skip = 0;
        self.tail = block + 1;
        self.count = 1;
        self.blocks = 1;
        self.fill = 1;
        put_record(&mut self.frame, 0, 1, item);
        Ok(())
    }

    /// Stores the last block, with a link to a new one that has this record.
    #[cold]
    fn next_block<D: Device>(&mut self, rig: &mut Rig<'_, D>, item: Record) -> Result<(), EmFault>
        requires sound { Sound (seen D.state rig.old) }
        requires is { IsWriter (seen D.state rig.old) self.old }
        requires free { 0 < (seen D.state rig.old).pool.free }
        requires room { CanGrow self.old }
        requires some { 0 < self.old.blocks }
        requires full { self.old.fill ≡ payload_in (seen D.state rig.old) }
        ensures goes { Goes (writer_blocks (seen D.state rig.old) self.old)
            (seen D.state rig.old) (seen D.state rig.new) }
        ensures frame { WriterHasFrame (seen D.state rig.new) self.new }
        ensures appends { OnOk result
            (Appends (seen D.state rig.old) (seen D.state rig.new) self.old self.new item) }
        ensures costs { AppendCosts (seen D.state rig.old) (seen D.state rig.new)
            self.old self.new result }
        ensures full { (result ≡ Err (EmFault.Full (seen D.state rig.old).used))
            ↔ ((seen D.state rig.old).used ≡ (seen D.state rig.old).blocks) }
        ensures complete { (seen D.state rig.old).used < (seen D.state rig.old).blocks
            → Completes (seen D.state rig.old) (seen D.state rig.new) result }
        ensures cause { IfErr result (Cause (seen D.state rig.old) (seen D.state rig.new)) }
    {
        let block = rig.alloc()?;
        put_header(&mut self.frame, block + 1, self.fill);
        rig.store(self.tail - 1, &self.frame)?;
        self.tail = block + 1;
        self.blocks += 1;
        self.count += 1;
        self.fill = 1;
        put_record(&mut self.frame, 0, 1, item);
        Ok(())
    }

    /// One more record in the last block.
    #[inline]
    fn put(&mut self, item: Record)
        requires room { self.old.fill + 1 < length self.old.frame }
        requires len { length self.old.frame ≤ 65536 }
        requires count { self.old.count < 2 ^ 56 }
        ensures is { self.new ≡ record self.old {
          count = self.old.count + 1;
          fill = self.old.fill + 1;
          frame = set (set self.old.frame 0 (block_header 0 (self.old.fill + 1)))
              (self.old.fill + 1) item;
        } }
    {
        self.fill += 1;
        self.count += 1;
        put_record(&mut self.frame, 0, self.fill, item);
    }

    /// The list that was written, as a chain. Its last block is stored, by one move; with no block
    /// nothing is moved.
    pub fn finish<D: Device>(self, rig: &mut Rig<'_, D>) -> Result<Chain, EmFault>
        requires sound { Sound (seen D.state rig.old) }
        requires is { IsWriter (seen D.state rig.old) self }
        requires free { 0 < (seen D.state rig.old).pool.free }
        ensures gives { GivesFrame (writer_blocks (seen D.state rig.old) self)
            (seen D.state rig.old) (seen D.state rig.new) }
        ensures finishes { IfOk result (λ c.
            Finishes (seen D.state rig.old) (seen D.state rig.new) self c) }
        ensures costs { FinishCosts (seen D.state rig.old) (seen D.state rig.new) self result }
        ensures spends { FinishSpends (seen D.state rig.old) (seen D.state rig.new) self result }
        ensures complete { Completes (seen D.state rig.old) (seen D.state rig.new) result }
        ensures cause { IfErr result (DeviceCause (seen D.state rig.old) (seen D.state rig.new)) }
    {
        let Writer {
            head,
            skip,
            tail,
            count,
            blocks,
            fill: _,
            frame,
        } = self;
        let chain = Chain {
            head,
            skip,
            tail,
            count,
            blocks,
        };
        if blocks == 0 {
            rig.give(frame);
            return Ok(chain);
        }
        let stored = rig.store(tail - 1, &frame);
        rig.give(frame);
        match stored {
            Ok(()) => Ok(chain),
            Err(fault) => Err(fault),
        }
    }

    /// Gives the frame back, also after a fault. The blocks stay in use, and nothing is moved.
    pub fn abandon<D: Device>(self, rig: &mut Rig<'_, D>)
        requires sound { Sound (seen D.state rig.old) }
        requires frame { WriterHasFrame (seen D.state rig.old) self }
        ensures gives { GivesFrame [] (seen D.state rig.old) (seen D.state rig.new) }
        ensures unmoved { Unmoved (seen D.state rig.old) (seen D.state rig.new) }
    {
        let Writer {
            head: _,
            skip: _,
            tail: _,
            count: _,
            blocks: _,
            fill: _,
            frame,
        } = self;
        rig.give(frame);
    }
}
