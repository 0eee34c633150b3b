ghost use Rattle.std.specs.Prelude.{◌≡◌, ◌<◌, ◌≤◌, ◌^◌, [], IfErr, IfOk, IsOk};
ghost use Rattle.em_space.specs.Rig.{Cause, Goes, Sound};
ghost use Rattle.em_space.specs.Seen.{seen};
ghost use Rattle.em_chain.specs.Chain.{chain_blocks};
ghost use Rattle.em_chain.specs.Effects.{LendsFrame, OnFull, Unmoved};
ghost use Rattle.em_chain.specs.Parts.{IsPair};
ghost use Rattle.em_chain.specs.Reader.{ReaderHasFrame, rest_of};
ghost use Rattle.em_chain.specs.Writer.{CanGrow, WriterHasFrame, writer_blocks};
ghost use Rattle.em_plain.specs.Least.{BeginsAnew, IsFull, PassCosts, Passed, PassesOne, TakesLeast};

use em_chain::{Reader, Writer, discard};
use em_frames::Device;
use em_record::Record;
use em_space::{EmFault, Queue, Rig};
use std::mem;

/// A queue that keeps its items in one chain. `push` writes at its end; `pop` reads all of it, and
/// writes all but the least item into a new one.
///
/// It holds a frame and can't be dropped. After a fault only `abandon` may be called.
pub struct ScanQueue {
    writer: Writer,
    /// Pushes and pops.
    calls: u128,
    /// The most of them between two moments at which the queue was empty, or since the last one.
    longest: u128,
    /// The number of them since the last such moment.
    since: u128,
    /// Moves that were made in them.
    spent: u128,
    /// The most blocks that it held at once.
    most: u64,
}

impl ScanQueue {
    ghost use Rattle.em_plain.specs.ScanQueue.{IsScanQueue, counted, counts_of, fresh_counts, queue_blocks, queue_items, settled};

    /// A queue with no item. It takes no block yet, and never gives up.
    pub fn new<D: Device>(rig: &mut Rig<'_, D>) -> Result<ScanQueue, EmFault>
        requires sound { Sound (seen D.state rig.old) }
        requires free { 6 ≤ (seen D.state rig.old).pool.free }
        ensures lends { LendsFrame (seen D.state rig.old) (seen D.state rig.new) }
        ensures unmoved { Unmoved (seen D.state rig.old) (seen D.state rig.new) }
        ensures is { IfOk result (IsScanQueue (seen D.state rig.new)) }
        ensures items { IfOk result (λ q. queue_items (seen D.state rig.new) q ≡ []) }
        ensures blocks { IfOk result (λ q. queue_blocks (seen D.state rig.new) q ≡ []) }
        ensures counts { IfOk result (λ q. counts_of q ≡ fresh_counts 1 0) }
        ensures complete { IsOk result }
    {
        Ok(ScanQueue {
            writer: Writer::new(rig),
            calls: 0,
            longest: 0,
            since: 0,
            spent: 0,
            most: 0,
        })
    }

    /// Counts a call, in which it may hold one block more than before.
    fn count_call(&mut self)
        requires few { self.old.calls < 2 ^ 100 }
        requires longest { self.old.longest ≤ self.old.calls }
        requires since { self.old.since ≤ self.old.longest }
        requires blocks { self.old.writer.blocks ≤ 2 ^ 56 }
        ensures { self.new ≡ counted self.old }
    {
        self.calls += 1;
        self.since += 1;
        self.longest = self.longest.max(self.since);
        self.most = self.most.max(self.writer.blocks() + 1);
    }

    /// Begins to count anew where it is empty.
    fn settle(&mut self)
        ensures { self.new ≡ settled self.old }
    {
        if self.writer.len() == 0 {
            self.since = 0;
        }
    }
}

/// Takes the least record out of a list: all others are written into a new one.
fn take_least<D: Device>(rig: &mut Rig<'_, D>, list: &mut Writer) -> Result<Option<Record>, EmFault>
    requires sound { Sound (seen D.state rig.old) }
    requires is { IsFull (seen D.state rig.old) list.old }
    requires free { 2 < (seen D.state rig.old).pool.free }
    ensures goes { Goes (writer_blocks (seen D.state rig.old) list.old)
        (seen D.state rig.old) (seen D.state rig.new) }
    ensures frame { WriterHasFrame (seen D.state rig.new) list.new }
    ensures takes { IfOk result (λ item.
        TakesLeast (seen D.state rig.old) (seen D.state rig.new) list.old list.new item) }
    ensures costs { PassCosts (seen D.state rig.old) (seen D.state rig.new) }
    ensures full { IfErr result (λ fault.
        OnFull fault ((seen D.state rig.old).used ≡ (seen D.state rig.old).blocks)) }
    ensures cause { IfErr result (Cause (seen D.state rig.old) (seen D.state rig.new)) }
{
    let fresh = Writer::new(rig);
    let whole = mem::replace(list, fresh);
    let chain = whole.finish(rig)?;
    let count = chain.len();
    let mut reader = Reader::taking(rig, chain);
    let taken = pass_all_but_least(rig, &mut reader, list, count);
    reader.abandon(rig);
    taken
}

/// Writes all `count` records of a reader but the least one, which it answers.
fn pass_all_but_least<D: Device>(
    rig: &mut Rig<'_, D>,
    reader: &mut Reader,
    writer: &mut Writer,
    count: u64,
) -> Result<Option<Record>, EmFault>
    requires sound { Sound (seen D.state rig.old) }
    requires begins { BeginsAnew (seen D.state rig.old) reader.old writer.old count }
    requires free { 0 < (seen D.state rig.old).pool.free }
    ensures goes { Goes (chain_blocks (seen D.state rig.old) (rest_of reader.old))
        (seen D.state rig.old) (seen D.state rig.new) }
    ensures reader { ReaderHasFrame (seen D.state rig.new) reader.new }
    ensures writer { WriterHasFrame (seen D.state rig.new) writer.new }
    ensures passed { IfOk result (λ item. Passed (seen D.state rig.old) (seen D.state rig.new)
        reader.old reader.new writer.old writer.new item) }
    ensures costs { PassCosts (seen D.state rig.old) (seen D.state rig.new) }
    ensures full { IfErr result (λ fault.
        OnFull fault ((seen D.state rig.old).used ≡ (seen D.state rig.old).blocks)) }
    ensures cause { IfErr result (Cause (seen D.state rig.old) (seen D.state rig.new)) }
{
    let Some(mut least) = reader.next(rig)? else {
        return Ok(None);
    };
    for _ in 1..count {
        least = pass_one(rig, reader, writer, least)?;
    }
    Ok(Some(least))
}

/// Reads one record, and writes the greater of it and `least`. It answers the lesser.
fn pass_one<D: Device>(
    rig: &mut Rig<'_, D>,
    reader: &mut Reader,
    writer: &mut Writer,
    least: Record,
) -> Result<Record, EmFault>
    requires sound { Sound (seen D.state rig.old) }
    requires pair { IsPair (seen D.state rig.old) reader.old writer.old }
    requires some { 0 < (rest_of reader.old).count }
    requires room { CanGrow writer.old }
    requires free { 0 < (seen D.state rig.old).pool.free }
    ensures done { PassesOne (seen D.state rig.old) (seen D.state rig.new)
        reader.old reader.new writer.old writer.new least result }
    ensures reader { ReaderHasFrame (seen D.state rig.new) reader.new }
    ensures writer { WriterHasFrame (seen D.state rig.new) writer.new }
{
    let Some(item) = reader.next(rig)? else {
        unreachable!()
    };
    writer.append(rig, item.max(least))?;
    Ok(item.min(least))
}

impl Queue for ScanQueue {
    ghost use Rattle.std.specs.Prelude.{None};
    ghost use Rattle.em_plain.specs.ScanQueue.{IsScanQueue, QueueHasFrame, counts_of, one_block, queue_blocks, queue_items};
    ghost use Rattle.em_plain.specs.QueueLaws as laws;
    ghost use Rattle.std.specs.Prelude.{◌↔◌, ◌+◌, Err, IsTrue, OnErr, OnOk};
    ghost use Rattle.em_record.specs.Order.{Lacks, with_record};
    ghost use Rattle.em_chain.specs.Writer.{NeedsBlock};
    ghost use Rattle.em_space.specs.Held.{Within};
    ghost use Rattle.em_space.specs.Queue.{CanServe, Ended, Ends, LacksBlocks, Pays, Served, Serves};
    ghost use Rattle.em_space.specs.Rig.{IfFull};

    ghost items = { λ q s. queue_items s q };

    ghost blocks = { λ q s. queue_blocks s q };

    ghost IsQueue = { λ q s. IsScanQueue s q };

    ghost HasItsFrames = { λ q s. QueueHasFrame s q };

    ghost counts = { counts_of };

    ghost allowance = { None };

    ghost room = { None };

    ghost enough = { one_block };

    ghost frames_of = { λ q s h. h.rest };

    ghost len_is = { laws.len_is };

    ghost blocks_is = { laws.blocks_is };

    ghost ascending = { laws.ascending };

    ghost holds = { laws.holds };

    ghost stays = { laws.stays };

    ghost frames_stay = { laws.frames_stay };

    ghost out = { laws.out };

    ghost spent_most = { λ q s h. h.spent_most };

    ghost k_most = { λ q s h. h.k_most };

    ghost since_most = { λ q s h. h.since_most };

    ghost since_none = { λ q s h e. h.since_none e };

    ghost blocks_most = { λ q s h. h.blocks_most };

    ghost unstored_most = { laws.unstored_most };

    ghost rising = { tt };

    ghost spends = { λ q s h told. tt };

    ghost rising_room = { tt };

    ghost fits = { λ q s h told. tt };

    /// Adds an item. `Full` comes exactly if a block is needed and all are in use (`full_exactly`).
    fn push<D: Device>(&mut self, rig: &mut Rig<'_, D>, item: Record) -> Result<(), EmFault>
        requires sound { Sound (seen D.state rig.old) }
        requires is { IsScanQueue (seen D.state rig.old) self.old }
        requires free { CanServe (seen D.state rig.old).pool }
        requires few { (counts_of self.old).n < 2 ^ 100 }
        requires limit { (counts_of self.old).len < 2 ^ 56 }
        requires lacks { IsTrue (seen D.state rig.old).device.told
            → Lacks item (queue_items (seen D.state rig.old) self.old) }
        ensures serves { Serves (queue_blocks (seen D.state rig.old) self.old)
            (counts_of self.old) (counts_of self.new)
            (seen D.state rig.old) (seen D.state rig.new) }
        ensures frames { QueueHasFrame (seen D.state rig.new) self.new }
        ensures is { OnOk result (IsScanQueue (seen D.state rig.new) self.new) }
        ensures items { OnOk result (IsTrue (seen D.state rig.old).device.told
            → queue_items (seen D.state rig.new) self.new
            ≡ with_record item (queue_items (seen D.state rig.old) self.old)) }
        ensures len { OnOk result ((counts_of self.new).len ≡ (counts_of self.old).len + 1) }
        ensures served { OnOk result (Served (counts_of self.old) (counts_of self.new)
            (seen D.state rig.old) (seen D.state rig.new)) }
        ensures within { OnOk result (Within (seen D.state rig.old)
            (queue_blocks (seen D.state rig.old) self.old)
            (queue_blocks (seen D.state rig.new) self.new)) }
        ensures owes { OnErr result (Pays (counts_of self.old).unstored
            (seen D.state rig.old).pool.shape.frames
            (seen D.state rig.old) (seen D.state rig.new)) }
        ensures full { IfErr result (λ fault. IfFull fault (LacksBlocks one_block None
            (counts_of self.old) (counts_of self.new).k (seen D.state rig.old))) }
        ensures full_exactly { (result ≡ Err (EmFault.Full (seen D.state rig.old).used))
            ↔ (NeedsBlock (seen D.state rig.old) self.old.writer
            × ((seen D.state rig.old).used ≡ (seen D.state rig.old).blocks)) }
        ensures cause { IfErr result (Cause (seen D.state rig.old) (seen D.state rig.new)) }
    {
        let before = rig.moves();
        self.count_call();
        let done = self.writer.append(rig, item);
        self.spent += (rig.moves() - before) as u128;
        done
    }

    fn pop<D: Device>(&mut self, rig: &mut Rig<'_, D>) -> Result<Option<Record>, EmFault> {
        let before = rig.moves();
        self.count_call();
        let taken = take_least(rig, &mut self.writer);
        self.spent += (rig.moves() - before) as u128;
        let item = taken?;
        self.settle();
        Ok(item)
    }

    fn len(&self) -> u64 {
        self.writer.len()
    }

    fn abandon<D: Device>(self, rig: &mut Rig<'_, D>) {
        let ScanQueue {
            writer,
            calls: _,
            longest: _,
            since: _,
            spent: _,
            most: _,
        } = self;
        writer.abandon(rig);
    }

    fn end<D: Device>(self, rig: &mut Rig<'_, D>) -> Result<(), EmFault>
        requires sound { Sound (seen D.state rig.old) }
        requires is { IsScanQueue (seen D.state rig.old) self }
        requires free { CanServe (seen D.state rig.old).pool }
        ensures ends { Ends None None (queue_blocks (seen D.state rig.old) self) (counts_of self)
            (seen D.state rig.old) (seen D.state rig.new) }
        ensures ended { OnOk result
            (Ended (counts_of self) (seen D.state rig.old) (seen D.state rig.new)) }
        ensures owes { OnErr result (Pays (counts_of self).unstored
            (seen D.state rig.old).pool.shape.frames
            (seen D.state rig.old) (seen D.state rig.new)) }
        ensures full { IfErr result (λ fault. IfFull fault (λ _. ⊥)) }
        ensures cause { IfErr result (Cause (seen D.state rig.old) (seen D.state rig.new)) }
        ensures most { (seen D.state rig.new).most ≡ (seen D.state rig.old).most }
    {
        let ScanQueue {
            writer,
            calls: _,
            longest: _,
            since: _,
            spent: _,
            most: _,
        } = self;
        let chain = writer.finish(rig)?;
        discard(rig, chain)
    }
}
