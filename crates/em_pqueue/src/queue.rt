//! An external priority queue (Sanders, 2000, and Arge, 2003): the least items stand in a heap in
//! memory, all others in a buffer tree on blocks.
//!
//! ```text
//!   heap in an area   <=   bound   <=   tree of operations and records
//! ```
//!
//! A push below the bound goes into the heap, another one into the tree. A full heap gives its upper half
//! to the tree (a spill), and an empty one takes the tree's least records (a refill).
//!
//! Kept here: no item of the heap is above the bound and none of the tree below it, while the tree has
//! items. Left to the heap and the tree: the order in each.

ghost use Rattle.std.specs.Prelude.{◌≡◌, ◌+◌, ◌<◌, ◌≤◌, ◌^◌, IsTrue, IfErr, IfOk, OnErr, OnOk};
ghost use Rattle.em_record.specs.Order.{Lacks, with_record};
ghost use Rattle.em_space.specs.Queue.{CanServe};
ghost use Rattle.em_space.specs.Rig.{Sound};
ghost use Rattle.em_space.specs.Seen.{seen};

use em_chain::discard;
use em_frames::Device;
use em_heap::Heap;
use em_record::Record;
use em_settle::BagSettle;
use em_space::{EmFault, Queue, Rig};
use em_tree::Tree;

/// The most blocks that a queue may count: more than any device has.
const MOST_BLOCKS: u64 = 1 << 41;

/// A priority queue: a heap in memory, and a buffer tree on the device for the items that the heap has no room for. It
/// holds an area and two frames.
///
/// For n calls, of which at most k come between two moments at which it has no item, over a device that tells: its
/// moves are within 240 · (q(n) + 1) · (1 + lev(q(k))), and its blocks, inside a call too, within
/// 12 · (q(k) + 1) + m · (2 + lev(q(k))). For blocks of B records and m frames q(n) is n/B, rounded up, and lev(q) says
/// how often q is divided by m/4, rounded up, until at most 1 is left.
pub struct ExtQueue {
    tree: Tree<BagSettle>,
    heap: Heap,
    /// What parts the items of the heap from those of the tree, while the tree has some.
    bound: Record,
    /// The items in the tree.
    in_tree: u64,
    /// All items: those of the heap and those in the tree.
    len: u64,
    /// Pushes and pops.
    calls: u128,
    /// The most of them between two moments at which it had no item, or since the last one.
    longest: u128,
    /// The number of them since the last such moment.
    since: u128,
    /// The blocks of the tree.
    blocks: u64,
    /// It never held more blocks than this.
    most: u64,
}

impl ExtQueue {
    ghost use Rattle.em_pqueue.specs.Calls.{IsNewQueue};
    ghost use Rattle.std.specs.Prelude.{◌++◌, ◌⊎◌, ◌↔◌, length, take};
    ghost use Rattle.em_pqueue.specs.ExtQueue.{GivesDown, GoesDown, IsBagTree, Stands, WantsRefill, items_in_tree, queue_items, trunk_of};
    ghost use Rattle.em_pqueue.specs.Steps.{Noted, Notes, PushesAll, PushesDown, PutsTo, RecountsTo, RefillsTo, SpillsTo, TakesItem, TakesOver, counted_call};
    ghost use Rattle.em_settle.specs.Bag.{bag_key_of};
    ghost use Rattle.em_settle.specs.Rising.{RisesByKey};
    ghost use Rattle.em_tree.specs.Calls.{StopsNewTrunk};
    ghost use Rattle.em_tree_cost.specs.ExtQueue.{after_call};

    /// A queue with no item. It takes two frames and an area. At most 4 blocks are moved. After a fault
    /// some blocks may stay in use, and the frames are back.
    pub fn new<D: Device>(rig: &mut Rig<'_, D>) -> Result<ExtQueue, EmFault>
        requires sound { Sound (seen D.state rig.old) }
        requires free { CanServe (seen D.state rig.old).pool }
        ensures makes { IfOk result (IsNewQueue (seen D.state rig.old) (seen D.state rig.new)) }
        ensures stops { IfErr result (StopsNewTrunk (seen D.state rig.old) (seen D.state rig.new)) }
    {
        let used = rig.used();
        let tree = Tree::new(rig, BagSettle {})?;
        let blocks = rig.used() - used;
        Ok(ExtQueue {
            tree,
            heap: Heap::new(rig.lend_area()),
            bound: Record::ZERO,
            in_tree: 0,
            len: 0,
            calls: 0,
            longest: 0,
            since: 0,
            blocks,
            most: blocks,
        })
    }

    /// Counts a push or a pop.
    fn count_call(&mut self)
        requires few { self.old.calls < 2 ^ 100 }
        requires longest { self.old.longest ≤ self.old.calls }
        requires since { self.old.since ≤ self.old.longest }
        ensures { self.new ≡ counted_call self.old }
    {
        self.calls += 1;
        self.since += 1;
        self.longest = self.longest.max(self.since);
    }

    /// Counts its items anew, and its blocks by those in use, of which there were `used` before the call. Over
    /// a device that gives other records than were written the tree may have released more than it holds.
    fn recount<D: Device>(&mut self, rig: &Rig<'_, D>, used: u64) -> Result<(), EmFault>
        requires sound { Sound (seen D.state rig.now) }
        requires few { self.old.blocks ≤ 2 ^ 41 }
        requires items { self.old.heap.len + self.old.in_tree < 2 ^ 64 }
        ensures { RecountsTo used (seen D.state rig.now) self.old self.new result }
    {
        let blocks = (self.blocks + rig.used()).checked_sub(used);
        match blocks {
            Some(blocks) if blocks <= MOST_BLOCKS => {
                self.blocks = blocks;
                self.most = self.most.max(blocks);
                self.len = self.heap.len() as u64 + self.in_tree;
                Ok(())
            }
            _ => Err(self.tree.damaged()),
        }
    }

    /// Counts the most blocks that it held in calls of its tree, before which `used` were in use, and never more
    /// than `most`.
    fn note_most<D: Device>(&mut self, rig: &Rig<'_, D>, used: u64, most: u64)
        requires sound { Sound (seen D.state rig.now) }
        requires within { used ≤ most }
        requires later { most ≤ (seen D.state rig.now).most }
        requires few { self.old.blocks ≤ 2 ^ 41 }
        ensures { Notes used most (seen D.state rig.now) self.old self.new }
    {
        if rig.most() > most {
            self.most = self.most.max(rig.most() - used + self.blocks);
        }
    }

    /// Whether an item belongs into the tree.
    fn goes_down(&self, item: Record) -> bool
        ensures { IsTrue result ↔ GoesDown self.now item }
    {
        self.in_tree > 0 && item >= self.bound
    }

    /// Puts an item into the part that it belongs to, and counts the most blocks that it held meanwhile.
    fn put<D: Device>(&mut self, rig: &mut Rig<'_, D>, item: Record) -> Result<(), EmFault>
        requires sound { Sound (seen D.state rig.old) }
        requires stands { Stands after_call (seen D.state rig.old) self.old }
        requires free { CanServe (seen D.state rig.old).pool }
        requires few { self.old.calls ≤ 2 ^ 100 }
        requires blocks { self.old.blocks ≤ 2 ^ 41 }
        requires limit { self.old.heap.len + self.old.in_tree < 2 ^ 56 }
        requires lacks { IsTrue (seen D.state rig.old).device.told
            → Lacks item (queue_items (seen D.state rig.old) self.old) }
        ensures puts { Noted (λ mid. PutsTo item (seen D.state rig.old) (seen D.state rig.new) self.old mid result)
            (seen D.state rig.old).used (seen D.state rig.old).most (seen D.state rig.new) self.new }
        ensures needs { OnErr result (GivesDown self.old item) }
        ensures still { (GivesDown self.old item → ⊥) → seen D.state rig.new ≡ seen D.state rig.old }
    {
        let used = rig.used();
        let most = rig.most();
        let done = self.put_in(rig, item);
        self.note_most(rig, used, most);
        done
    }

    /// Puts an item into the part that it belongs to. A full heap gives its upper half to the tree
    /// first, which may set the bound below the item.
    fn put_in<D: Device>(&mut self, rig: &mut Rig<'_, D>, item: Record) -> Result<(), EmFault>
        requires sound { Sound (seen D.state rig.old) }
        requires stands { Stands after_call (seen D.state rig.old) self.old }
        requires free { CanServe (seen D.state rig.old).pool }
        requires few { self.old.calls ≤ 2 ^ 100 }
        requires limit { self.old.heap.len + self.old.in_tree < 2 ^ 56 }
        requires lacks { IsTrue (seen D.state rig.old).device.told
            → Lacks item (queue_items (seen D.state rig.old) self.old) }
        ensures puts { PutsTo item (seen D.state rig.old) (seen D.state rig.new) self.old self.new result }
        ensures needs { OnErr result (GivesDown self.old item) }
        ensures still { (GivesDown self.old item → ⊥) → seen D.state rig.new ≡ seen D.state rig.old }
    {
        if self.goes_down(item) || self.heap.len() < self.heap.capacity() {
            return self.put_beside(rig, item);
        }
        self.spill(rig)?;
        self.put_beside(rig, item)
    }

    /// Puts an item into the part that it belongs to, while the heap has room.
    fn put_beside<D: Device>(&mut self, rig: &mut Rig<'_, D>, item: Record) -> Result<(), EmFault>
        requires sound { Sound (seen D.state rig.old) }
        requires stands { Stands after_call (seen D.state rig.old) self.old }
        requires free { CanServe (seen D.state rig.old).pool }
        requires few { self.old.calls ≤ 2 ^ 100 }
        requires limit { self.old.heap.len + self.old.in_tree < 2 ^ 56 }
        requires lacks { IsTrue (seen D.state rig.old).device.told
            → Lacks item (queue_items (seen D.state rig.old) self.old) }
        requires room { GoesDown self.old item ⊎ (self.old.heap.len < self.old.heap.capacity) }
        ensures puts { PutsTo item (seen D.state rig.old) (seen D.state rig.new) self.old self.new result }
        ensures needs { OnErr result (GoesDown self.old item) }
        ensures still { (GoesDown self.old item → ⊥)
            → seen D.state rig.new ≡ seen D.state rig.old }
    {
        if self.goes_down(item) {
            return self.push_down(rig, item);
        }
        self.heap.push(item);
        Ok(())
    }

    /// Pushes an item into the tree.
    fn push_down<D: Device>(&mut self, rig: &mut Rig<'_, D>, item: Record) -> Result<(), EmFault>
        requires sound { Sound (seen D.state rig.old) }
        requires tree { IsBagTree (seen D.state rig.old) (trunk_of self.old) }
        requires free { CanServe (seen D.state rig.old).pool }
        requires few { self.old.tree.trunk.pushed < 2 ^ 100 }
        requires limit { self.old.in_tree < 2 ^ 60 }
        requires lacks { IsTrue (seen D.state rig.old).device.told
            → Lacks item (items_in_tree (seen D.state rig.old) self.old) }
        ensures { PushesDown item (seen D.state rig.old) (seen D.state rig.new) self.old self.new result }
    {
        self.tree.push(rig, item)?;
        self.in_tree += 1;
        Ok(())
    }

    /// Gives the upper half of a full heap to the tree. The least of these items is the bound.
    fn spill<D: Device>(&mut self, rig: &mut Rig<'_, D>) -> Result<(), EmFault>
        requires sound { Sound (seen D.state rig.old) }
        requires stands { Stands after_call (seen D.state rig.old) self.old }
        requires free { CanServe (seen D.state rig.old).pool }
        requires few { self.old.calls ≤ 2 ^ 100 }
        requires limit { self.old.heap.len + self.old.in_tree < 2 ^ 56 }
        requires full { self.old.heap.len ≡ self.old.heap.capacity }
        ensures { SpillsTo (seen D.state rig.old) (seen D.state rig.new) self.old self.new result }
    {
        let count = self.heap.upper_half();
        self.bound = self.heap.behind(count)[0];
        self.push_all(rig, count)
    }

    /// Pushes the first `count` records after the heap into the tree.
    fn push_all<D: Device>(&mut self, rig: &mut Rig<'_, D>, count: usize) -> Result<(), EmFault>
        requires sound { Sound (seen D.state rig.old) }
        requires tree { IsBagTree (seen D.state rig.old) (trunk_of self.old) }
        requires free { CanServe (seen D.state rig.old).pool }
        requires few { self.old.tree.trunk.pushed + count ≤ 2 ^ 100 }
        requires limit { self.old.in_tree + count < 2 ^ 60 }
        requires room { self.old.heap.len + count ≤ self.old.heap.capacity }
        requires rises { IsTrue (seen D.state rig.old).device.told
            → RisesByKey bag_key_of (take count self.old.heap.behind
            ++ items_in_tree (seen D.state rig.old) self.old) }
        ensures { PushesAll (take count self.old.heap.behind) (seen D.state rig.old)
            (seen D.state rig.new) self.old self.new result }
    {
        for at in 0..count {
            let item = self.heap.behind(count)[at];
            self.push_down(rig, item)?;
        }
        Ok(())
    }

    /// Fills a heap with no item from the tree, and counts the most blocks that it held meanwhile.
    fn refill<D: Device>(&mut self, rig: &mut Rig<'_, D>) -> Result<(), EmFault>
        requires sound { Sound (seen D.state rig.old) }
        requires stands { Stands after_call (seen D.state rig.old) self.old }
        requires free { CanServe (seen D.state rig.old).pool }
        requires few { self.old.calls ≤ 2 ^ 100 }
        requires blocks { self.old.blocks ≤ 2 ^ 41 }
        ensures refills { Noted (λ mid. RefillsTo (seen D.state rig.old) (seen D.state rig.new) self.old mid result)
            (seen D.state rig.old).used (seen D.state rig.old).most (seen D.state rig.new) self.new }
        ensures needs { OnErr result (WantsRefill self.old) }
        ensures still { (WantsRefill self.old → ⊥) → seen D.state rig.new ≡ seen D.state rig.old }
    {
        let used = rig.used();
        let most = rig.most();
        let done = self.refill_heap(rig);
        self.note_most(rig, used, most);
        done
    }

    /// Fills a heap with no item from the tree, if this has one.
    fn refill_heap<D: Device>(&mut self, rig: &mut Rig<'_, D>) -> Result<(), EmFault>
        requires sound { Sound (seen D.state rig.old) }
        requires stands { Stands after_call (seen D.state rig.old) self.old }
        requires free { CanServe (seen D.state rig.old).pool }
        requires few { self.old.calls ≤ 2 ^ 100 }
        ensures refills { RefillsTo (seen D.state rig.old) (seen D.state rig.new) self.old self.new result }
        ensures needs { OnErr result (WantsRefill self.old) }
        ensures still { (WantsRefill self.old → ⊥) → seen D.state rig.new ≡ seen D.state rig.old }
    {
        if self.heap.len() > 0 || self.in_tree == 0 {
            return Ok(());
        }
        let count = self.tree.take_first(rig, self.heap.empty_area())?;
        self.take_over(count)
    }

    /// Has the heap take the first `count` records of its area, which came from the tree. Over a device that
    /// gives other records than were written these may be none, or more than the tree had.
    fn take_over(&mut self, count: usize) -> Result<(), EmFault>
        requires empty { self.old.heap.len ≡ 0 }
        requires within { count ≤ self.old.heap.capacity }
        requires small { count ≤ 2 ^ 40 }
        requires long { length self.old.heap.behind ≡ self.old.heap.capacity }
        ensures { TakesOver count self.old self.new result }
    {
        let taken = count as u64;
        if taken == 0 || taken > self.in_tree || (taken == self.in_tree) != self.tree.is_fresh() {
            return Err(self.tree.damaged());
        }
        let area = self.heap.empty_area();
        area.sort(count);
        self.bound = area.records()[count - 1];
        self.heap.refill(count);
        self.in_tree -= taken;
        Ok(())
    }

    /// Takes the least item of the heap, or answers None, if the queue has none. Then calls are counted anew.
    fn take_least(&mut self) -> Option<Record>
        requires items { self.old.heap.len + self.old.in_tree < 2 ^ 64 }
        ensures taken { TakesItem self.old self.new result }
    {
        let item = self.heap.pop();
        self.len = self.heap.len() as u64 + self.in_tree;
        if self.len == 0 {
            self.since = 0;
        }
        item
    }
}

impl Queue for ExtQueue {
    ghost use Rattle.std.specs.Prelude.{◌++◌, Some, IfNone, length, option_to_list};
    ghost use Rattle.em_space.specs.Held.{Within};
    ghost use Rattle.em_space.specs.Queue.{Ended, Ends, LacksBlocks, Pays, Served, Serves};
    ghost use Rattle.em_space.specs.Rig.{Cause, IfFull};
    ghost use Rattle.em_pqueue.specs.ExtQueue.{GivesDown, HoldsFrames, IsExtQueue, WantsRefill, any_blocks, counts_of, queue_blocks, queue_items};
    ghost use Rattle.em_pqueue.specs.QueueLaws as laws;
    ghost use Rattle.em_pqueue.specs.Room.{QueueHolds, QueueOver};
    ghost use Rattle.em_tree_cost.specs.Shares.{queue_share, tree_room};

    ghost items = { λ q s. queue_items s q };

    ghost blocks = { λ q s. queue_blocks s q };

    ghost IsQueue = { λ q s. IsExtQueue s q };

    ghost HasItsFrames = { λ q s. HoldsFrames s q };

    ghost counts = { counts_of };

    ghost allowance = { Some queue_share };

    ghost room = { Some tree_room };

    ghost enough = { any_blocks };

    ghost frames_of = { laws.frames_of };

    ghost len_is = { laws.len_is };

    ghost blocks_is = { λ q s h. h.counts.blocks };

    ghost ascending = { laws.ascending };

    ghost holds = { laws.holds };

    ghost stays = { laws.stays };

    ghost frames_stay = { laws.frames_stay };

    ghost out = { laws.out };

    ghost spent_most = { λ q s h. h.has.spent_most };

    ghost k_most = { λ q s h. h.has.k_most };

    ghost since_most = { λ q s h. h.has.since_most };

    ghost since_none = { λ q s h. h.since_none };

    ghost blocks_most = { laws.blocks_most };

    ghost unstored_most = { laws.unstored_most };

    ghost rising = { laws.rising };

    ghost spends = { λ q s h. h.has.share };

    ghost rising_room = { laws.rising_room };

    ghost fits = { λ q s h. h.fits };

    /// Adds an item. `Full` comes only if all blocks are in use, and the item goes into the tree or the heap
    /// is full (`needs`); else the call changes nothing of the rig, and makes no move (`still`).
    fn push<D: Device>(&mut self, rig: &mut Rig<'_, D>, item: Record) -> Result<(), EmFault>
        requires sound { Sound (seen D.state rig.old) }
        requires is { IsExtQueue (seen D.state rig.old) self.old }
        requires free { CanServe (seen D.state rig.old).pool }
        requires few { (counts_of self.old).n < 2 ^ 100 }
        requires limit { (counts_of self.old).len < 2 ^ 56 }
        requires lacks { IsTrue (seen D.state rig.old).device.told
            → Lacks item (queue_items (seen D.state rig.old) self.old) }
        ensures serves { Serves (queue_blocks (seen D.state rig.old) self.old)
            (counts_of self.old) (counts_of self.new) (seen D.state rig.old) (seen D.state rig.new) }
        ensures frames { HoldsFrames (seen D.state rig.new) self.new }
        ensures is { OnOk result (IsExtQueue (seen D.state rig.new) self.new) }
        ensures items { OnOk result (IsTrue (seen D.state rig.old).device.told
            → queue_items (seen D.state rig.new) self.new
            ≡ with_record item (queue_items (seen D.state rig.old) self.old)) }
        ensures len { OnOk result ((counts_of self.new).len ≡ (counts_of self.old).len + 1) }
        ensures served { OnOk result (Served (counts_of self.old) (counts_of self.new)
            (seen D.state rig.old) (seen D.state rig.new)) }
        ensures within { OnOk result (Within (seen D.state rig.old)
            (queue_blocks (seen D.state rig.old) self.old)
            (queue_blocks (seen D.state rig.new) self.new)) }
        ensures owes { OnErr result (Pays (counts_of self.old).unstored
            (seen D.state rig.old).pool.shape.frames
            (seen D.state rig.old) (seen D.state rig.new)) }
        ensures full { IfErr result (λ fault. IfFull fault (LacksBlocks any_blocks (Some tree_room)
            (counts_of self.old) (counts_of self.new).k (seen D.state rig.old))) }
        ensures needs { IfErr result (λ fault. IfFull fault (λ _. GivesDown self.old item)) }
        ensures still { (GivesDown self.old item → ⊥) → seen D.state rig.new ≡ seen D.state rig.old }
        ensures cause { IfErr result (Cause (seen D.state rig.old) (seen D.state rig.new)) }
        ensures room { IsTrue (seen D.state rig.old).device.told → QueueHolds (counts_of self.new).k
            (queue_blocks (seen D.state rig.old) self.old) (seen D.state rig.old) (seen D.state rig.new) }
        ensures over { IfErr result (λ fault. IsTrue (seen D.state rig.old).device.told → QueueOver (counts_of self.new).k
            (queue_blocks (seen D.state rig.old) self.old) (seen D.state rig.old) fault) }
    {
        let used = rig.used();
        self.count_call();
        self.put(rig, item)?;
        self.recount(rig, used)
    }

    /// Takes the least item out, or answers None, exactly if there is none. `Full` comes only if all blocks
    /// are in use, and all items are in the tree (`needs`); else the call changes nothing of the rig, and makes
    /// no move (`still`).
    fn pop<D: Device>(&mut self, rig: &mut Rig<'_, D>) -> Result<Option<Record>, EmFault>
        requires sound { Sound (seen D.state rig.old) }
        requires is { IsExtQueue (seen D.state rig.old) self.old }
        requires free { CanServe (seen D.state rig.old).pool }
        requires few { (counts_of self.old).n < 2 ^ 100 }
        ensures serves { Serves (queue_blocks (seen D.state rig.old) self.old)
            (counts_of self.old) (counts_of self.new) (seen D.state rig.old) (seen D.state rig.new) }
        ensures frames { HoldsFrames (seen D.state rig.new) self.new }
        ensures is { OnOk result (IsExtQueue (seen D.state rig.new) self.new) }
        ensures items { IfOk result (λ item. IsTrue (seen D.state rig.old).device.told
            → queue_items (seen D.state rig.old) self.old
            ≡ option_to_list item ++ queue_items (seen D.state rig.new) self.new) }
        ensures len { IfOk result (λ item.
            (counts_of self.new).len + length (option_to_list item) ≡ (counts_of self.old).len) }
        ensures none { IfOk result (λ item. IfNone item ((counts_of self.old).len ≡ 0)) }
        ensures served { OnOk result (Served (counts_of self.old) (counts_of self.new)
            (seen D.state rig.old) (seen D.state rig.new)) }
        ensures within { OnOk result (Within (seen D.state rig.old)
            (queue_blocks (seen D.state rig.old) self.old)
            (queue_blocks (seen D.state rig.new) self.new)) }
        ensures owes { OnErr result (Pays (counts_of self.old).unstored
            (seen D.state rig.old).pool.shape.frames
            (seen D.state rig.old) (seen D.state rig.new)) }
        ensures full { IfErr result (λ fault. IfFull fault (LacksBlocks any_blocks (Some tree_room)
            (counts_of self.old) (counts_of self.new).k (seen D.state rig.old))) }
        ensures needs { IfErr result (λ fault. IfFull fault (λ _. WantsRefill self.old)) }
        ensures still { (WantsRefill self.old → ⊥) → seen D.state rig.new ≡ seen D.state rig.old }
        ensures cause { IfErr result (Cause (seen D.state rig.old) (seen D.state rig.new)) }
        ensures room { IsTrue (seen D.state rig.old).device.told → QueueHolds (counts_of self.new).k
            (queue_blocks (seen D.state rig.old) self.old) (seen D.state rig.old) (seen D.state rig.new) }
        ensures over { IfErr result (λ fault. IsTrue (seen D.state rig.old).device.told → QueueOver (counts_of self.new).k
            (queue_blocks (seen D.state rig.old) self.old) (seen D.state rig.old) fault) }
    {
        let used = rig.used();
        self.count_call();
        self.refill(rig)?;
        self.recount(rig, used)?;
        Ok(self.take_least())
    }

    fn len(&self) -> u64 {
        self.len
    }

    fn abandon<D: Device>(self, rig: &mut Rig<'_, D>) {
        let ExtQueue {
            tree,
            heap,
            bound: _,
            in_tree: _,
            len: _,
            calls: _,
            longest: _,
            since: _,
            blocks: _,
            most: _,
        } = self;
        rig.give_area(heap.into_area());
        tree.abandon(rig);
    }

    /// Releases its blocks, and gives its frames back, which it does after a fault too. `Full` comes only
    /// if all blocks are in use, and an item went into the tree before (`needs`, `none_given`). If none did,
    /// at most 4 moves are made over a device that tells (`unused`).
    fn end<D: Device>(self, rig: &mut Rig<'_, D>) -> Result<(), EmFault>
        requires sound { Sound (seen D.state rig.old) }
        requires is { IsExtQueue (seen D.state rig.old) self }
        requires free { CanServe (seen D.state rig.old).pool }
        ensures ends { Ends (Some queue_share) (Some tree_room) (queue_blocks (seen D.state rig.old) self)
            (counts_of self) (seen D.state rig.old) (seen D.state rig.new) }
        ensures ended { OnOk result
            (Ended (counts_of self) (seen D.state rig.old) (seen D.state rig.new)) }
        ensures owes { OnErr result (Pays (counts_of self).unstored
            (seen D.state rig.old).pool.shape.frames
            (seen D.state rig.old) (seen D.state rig.new)) }
        ensures full { IfErr result (λ fault. IfFull fault (LacksBlocks any_blocks (Some tree_room)
            (counts_of self) (counts_of self).k (seen D.state rig.old))) }
        ensures needs { IfErr result (λ fault. IfFull fault (λ _. self.tree.trunk.longest ≡ 0 → ⊥)) }
        ensures unused { IsTrue (seen D.state rig.old).device.told → self.tree.trunk.longest ≡ 0
            → (seen D.state rig.new).moves ≤ (seen D.state rig.old).moves + 4 }
        ensures cause { IfErr result (Cause (seen D.state rig.old) (seen D.state rig.new)) }
        ensures room { IsTrue (seen D.state rig.old).device.told → QueueHolds (counts_of self).k
            (queue_blocks (seen D.state rig.old) self) (seen D.state rig.old) (seen D.state rig.new) }
        ensures over { IfErr result (λ fault. IsTrue (seen D.state rig.old).device.told → QueueOver (counts_of self).k
            (queue_blocks (seen D.state rig.old) self) (seen D.state rig.old) fault) }
    {
        let ExtQueue {
            tree,
            heap,
            bound: _,
            in_tree: _,
            len: _,
            calls: _,
            longest: _,
            since: _,
            blocks,
            most: _,
        } = self;
        let used = rig.used();
        let damaged = tree.damaged();
        rig.give_area(heap.into_area());
        let answers = tree.finish(rig)?;
        discard(rig, answers)?;
        if rig.used() + blocks != used {
            return Err(damaged);
        }
        Ok(())
    }
}
