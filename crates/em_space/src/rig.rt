ghost use Rattle.std.specs.Prelude.{◌≡◌, ◌↔◌, ◌<◌, ◌≤◌, ◌+◌, ◌-◌, ◌^◌, length, set, max, [], ◌∷◌, ◌++◌, OnOk, OnErr, IfOk, IfErr, IsTrue, IsOk, Err, true, false};
ghost use Rattle.em_record.specs.Count.{Rose, next_count};
ghost use Rattle.em_frames.specs.Device.{block_at};
ghost use Rattle.em_frames.specs.Pool.{singles_of, load_of, places_in, lent, given, lent_area, given_area, lent_rack, given_rack, IsWhole, SameFrames};
ghost use Rattle.em_frames.specs.Rack.{empty_rack};
ghost use Rattle.em_space.specs.Rig.{Sound, InUse, Touches, Goes, Cause, BlockCause, DeviceCause, IfDamaged, Owes, Opens, Refuses, Allocates, NoneNew, Releases, SameBlocks, MovesToAlloc, MovesToRelease, Transfers};
ghost use Rattle.em_space.specs.Free.{header};
ghost use Rattle.em_space.specs.Inner.{IsFreeHeader, Reads, WritesLink};

use crate::fault::EmFault;
use crate::refused::OpenRefused;
use arrayvec::ArrayVec;
use em_frames::{Area, Device, Frame, Pool, Rack};
use em_record::{Record, Shape};

/// A device with the numbers of its blocks, and the pool of a run. All records that a run keeps
/// stand in blocks in use or in frames that the rig lent.
pub struct Rig<'d, D: Device, P = Pool> {
    device: &'d mut D,
    pool: P,
    blocks: u64,
    /// The link to the first of the freed blocks whose numbers aren't kept.
    head: u64,
    /// Numbers of freed blocks: 4096 bytes, beside the frames.
    spare: ArrayVec<u64, 512>,
    used: u64,
    most: u64,
    moves: u64,
}

/// The kind of a free block, in the word c of its header.
const FREE: u64 = 3;

/// Puts a record into the first place of a frame.
fn set_header(frame: &mut Frame, first: Record)
    requires { 0 < length frame.old }
    ensures { frame.new ≡ set frame.old 0 first }
{
    frame.records_mut()[0] = first;
}

/// Whether a record is the header of the first of `count` blocks that are linked.
fn is_free(first: Record, blocks: u64, count: u64) -> bool
    ensures { IsTrue result ↔ IsFreeHeader first blocks count }
{
    first.b == 0
        && first.c == FREE
        && first.d == 0
        && first.a <= blocks
        && (first.a == 0) == (count <= 1)
}

impl<'d, D: Device> Rig<'d, D> {
    ghost use Rattle.em_space.specs.Seen.{seen};

    /// Begins the device with `blocks` blocks of the shape's size. If the device isn't begun,
    /// the pool comes back with the reason.
    pub fn open(
        shape: Shape,
        blocks: u64,
        device: &'d mut D,
        pool: Pool,
    ) -> Result<Rig<'d, D>, OpenRefused<'d, D>>
        requires shape { pool.shape ≡ shape }
        requires whole { IsWhole pool }
        requires fresh { (D.state device.old).blocks ≡ 0 }
        requires blocks_low { 0 < blocks }
        requires blocks_high { blocks ≤ 2 ^ 40 }
        ensures unmoved { (D.state device.old).moves ≡ 0 }
        ensures borrowed { IfOk result (λ r. r.device.ghost_name ≡ device.entry.ghost_name) }
        ensures opened { IfOk result (λ r.
            Opens (D.state device.old) pool blocks (seen D.state r)) }
        ensures lost { IfErr result (λ r. r.device.ghost_name ≡ device.entry.ghost_name) }
        ensures refused { IfErr result (λ r.
            Refuses (D.state device.old) (D.state r.device.now) pool r.pool r.fault) }
    {
        match device.begin(shape.block() as u32, blocks) {
            Ok(()) => Ok(Rig {
                device,
                pool,
                blocks,
                head: 0,
                spare: ArrayVec::new(),
                used: 0,
                most: 0,
                moves: 0,
            }),
            Err(fault) => Err(OpenRefused {
                device,
                pool,
                fault,
            }),
        }
    }

    /// Gives the pool back, and leaves the device as it is.
    pub fn close(self) -> Pool
        ensures pool { result ≡ self.entry.pool }
        ensures device { self.exit.0.now ≡ self.entry.device.now }
    {
        let Rig {
            device: _,
            pool,
            blocks: _,
            head: _,
            spare: _,
            used: _,
            most: _,
            moves: _,
        } = self;
        pool
    }

    /// The shape of the pool.
    pub fn shape(&self) -> Shape
        ensures { result ≡ (seen D.state self.now).pool.shape }
    {
        self.pool.shape()
    }

    /// The blocks in use.
    pub fn used(&self) -> u64
        ensures { result ≡ (seen D.state self.now).used }
    {
        self.used
    }

    /// The greatest number of blocks that were in use at once.
    pub fn most(&self) -> u64
        ensures { result ≡ (seen D.state self.now).most }
    {
        self.most
    }

    /// The blocks of the device.
    pub fn blocks(&self) -> u64
        ensures { result ≡ (seen D.state self.now).blocks }
    {
        self.blocks
    }

    /// The block moves since the rig was opened. The count stays at 2^64 - 1.
    pub fn moves(&self) -> u64
        ensures { result ≡ (seen D.state self.now).moves }
    {
        self.moves
    }

    /// The greatest number of frames that were out at once.
    pub fn peak(&self) -> u32
        ensures value { result ≡ (seen D.state self.now).pool.peak }
        ensures most { result ≤ (seen D.state self.now).pool.shape.frames }
    {
        self.pool.peak()
    }

    /// The areas that are free.
    pub fn free_areas(&self) -> u32
        ensures value { result ≡ (seen D.state self.now).pool.free_areas }
        ensures most { result ≤ 2 }
    {
        self.pool.free_areas()
    }

    /// The single frames that are free.
    pub fn free(&self) -> u32
        ensures value { result ≡ (seen D.state self.now).pool.free }
        ensures most { result ≤ singles_of (seen D.state self.now).pool.shape }
    {
        self.pool.free()
    }

    /// A block that isn't in use, which is in use from then on: one whose number is kept, by no move;
    /// if there is none, the first linked one, by one move; and if there is none either, a new one, by
    /// no move. Its contents are whatever the device holds there.
    /// `Full` comes exactly if all blocks are in use, `Damaged` where the header of the first
    /// linked block, which was read, isn't as it was left. After a fault the blocks in use are as
    /// before.
    pub fn alloc(&mut self) -> Result<u64, EmFault>
        requires sound { Sound (seen D.state self.old) }
        requires free { 0 < (seen D.state self.old).pool.free }
        ensures goes { Goes [] (seen D.state self.old) (seen D.state self.new) }
        ensures given { IfOk result (Allocates (seen D.state self.old) (seen D.state self.new)) }
        ensures same { OnErr result (SameBlocks (seen D.state self.old) (seen D.state self.new)) }
        ensures none_new { OnErr result (NoneNew (seen D.state self.old) (seen D.state self.new)) }
        ensures most { (seen D.state self.new).most
            ≡ max (seen D.state self.old).most (seen D.state self.new).used }
        ensures kept { (seen D.state self.new).device.contents
            ≡ (seen D.state self.old).device.contents }
        ensures moves { MovesToAlloc (seen D.state self.old) (seen D.state self.new) }
        ensures full { (result ≡ Err (EmFault.Full (seen D.state self.old).used))
            ↔ ((seen D.state self.old).used ≡ (seen D.state self.old).blocks) }
        ensures complete { IsTrue (seen D.state self.old).device.told
            → (seen D.state self.old).used < (seen D.state self.old).blocks
            → (Rose (seen D.state self.old).device.faults (seen D.state self.new).device.faults → ⊥)
            → IsOk result }
        ensures cause { IfErr result (Cause (seen D.state self.old) (seen D.state self.new)) }
        ensures damaged { IfErr result (λ fault. IfDamaged fault (λ block.
            (seen D.state self.old).head ≡ block + 1)) }
        ensures owes { Owes 1 (seen D.state self.old) (seen D.state self.new) }
    {
        if self.spare.len() > 0 {
            return Ok(self.alloc_spare());
        }
        if self.head == 0 {
            return self.alloc_new();
        }
        self.alloc_freed()
    }

    /// The block of the last number that is kept.
    fn alloc_spare(&mut self) -> u64
        requires sound { Sound (seen D.state self.old) }
        requires some { 0 < length (seen D.state self.old).spare }
        ensures goes { Goes [] (seen D.state self.old) (seen D.state self.new) }
        ensures given { Allocates (seen D.state self.old) (seen D.state self.new) result }
        ensures room { (seen D.state self.old).used < (seen D.state self.old).blocks }
        ensures most { (seen D.state self.new).most ≡ (seen D.state self.old).most }
        ensures kept { (seen D.state self.new).device ≡ (seen D.state self.old).device }
        ensures moves { (seen D.state self.new).moves ≡ (seen D.state self.old).moves }
    {
        let block = self.pop_spare();
        self.used += 1;
        block
    }

    /// Takes the last of the numbers that are kept.
    fn pop_spare(&mut self) -> u64
        requires some { 0 < length (seen D.state self.old).spare }
        ensures spare { (seen D.state self.old).spare
            ≡ (seen D.state self.new).spare ++ result ∷ [] }
        ensures rest { seen D.state self.new
            ≡ record (seen D.state self.old) { spare = (seen D.state self.new).spare } }
    {
        let Some(block) = self.spare.pop() else {
            unreachable!()
        };
        block
    }

    /// A block that was never in use.
    fn alloc_new(&mut self) -> Result<u64, EmFault>
        requires sound { Sound (seen D.state self.old) }
        requires spare { length (seen D.state self.old).spare ≡ 0 }
        requires none { (seen D.state self.old).head ≡ 0 }
        ensures goes { Goes [] (seen D.state self.old) (seen D.state self.new) }
        ensures given { IfOk result (Allocates (seen D.state self.old) (seen D.state self.new)) }
        ensures most { (seen D.state self.new).most
            ≡ max (seen D.state self.old).most (seen D.state self.new).used }
        ensures refused { IfErr result (λ fault. (fault ≡ EmFault.Full (seen D.state self.old).used)
            × ((seen D.state self.old).used ≡ (seen D.state self.old).blocks)
            × (seen D.state self.new ≡ seen D.state self.old)) }
        ensures some { IsOk result → (seen D.state self.old).used < (seen D.state self.old).blocks }
        ensures kept { (seen D.state self.new).device ≡ (seen D.state self.old).device }
        ensures moves { (seen D.state self.new).moves ≡ (seen D.state self.old).moves }
    {
        if self.most == self.blocks {
            return Err(EmFault::Full { used: self.used });
        }
        let block = self.most;
        self.most += 1;
        self.used += 1;
        Ok(block)
    }

    /// The first of the linked blocks, by one move.
    fn alloc_freed(&mut self) -> Result<u64, EmFault>
        requires sound { Sound (seen D.state self.old) }
        requires spare { length (seen D.state self.old).spare ≡ 0 }
        requires some { 0 < (seen D.state self.old).head }
        requires free { 0 < (seen D.state self.old).pool.free }
        ensures goes { Goes [] (seen D.state self.old) (seen D.state self.new) }
        ensures given { IfOk result (Allocates (seen D.state self.old) (seen D.state self.new)) }
        ensures same { OnErr result (SameBlocks (seen D.state self.old) (seen D.state self.new)) }
        ensures none_new { OnErr result (NoneNew (seen D.state self.old) (seen D.state self.new)) }
        ensures most { (seen D.state self.new).most ≡ (seen D.state self.old).most }
        ensures kept { (seen D.state self.new).device.contents
            ≡ (seen D.state self.old).device.contents }
        ensures moves { (seen D.state self.new).moves
            ≡ next_count (seen D.state self.old).moves }
        ensures cause { IfErr result (BlockCause (seen D.state self.old) (seen D.state self.new)) }
        ensures damaged { IfErr result (λ fault. IfDamaged fault (λ block.
            (seen D.state self.old).head ≡ block + 1)) }
    {
        let block = self.head - 1;
        let first = self.header_of(block)?;
        if !is_free(first, self.blocks, self.most - self.used) {
            return Err(EmFault::Damaged { block });
        }
        self.head = first.a;
        self.used += 1;
        Ok(block)
    }

    /// The first record of a block, by one move.
    fn header_of(&mut self, block: u64) -> Result<Record, EmFault>
        requires sound { Sound (seen D.state self.old) }
        requires block { block < (seen D.state self.old).blocks }
        requires free { 0 < (seen D.state self.old).pool.free }
        ensures sound { Sound (seen D.state self.new) }
        ensures reads { Reads (seen D.state self.old) (seen D.state self.new) }
        ensures frames { SameFrames (seen D.state self.old).pool (seen D.state self.new).pool }
        ensures header { IfOk result (λ h. IsTrue (seen D.state self.old).device.told
            → h ≡ header (block_at (seen D.state self.old).device block)) }
        ensures cause { IfErr result (DeviceCause (seen D.state self.old) (seen D.state self.new)) }
    {
        let mut frame = self.pool.lend();
        let read = self.read_block(block, &mut frame);
        let first = frame.records()[0];
        self.pool.give(frame);
        match read {
            Ok(()) => Ok(first),
            Err(fault) => Err(fault),
        }
    }

    /// Reads a block, in use or not, by one move.
    fn read_block(&mut self, block: u64, frame: &mut Frame) -> Result<(), EmFault>
        requires sound { Sound (seen D.state self.old) }
        requires block { block < (seen D.state self.old).blocks }
        requires len { length frame.old ≡ (seen D.state self.old).pool.shape.block }
        ensures sound { Sound (seen D.state self.new) }
        ensures reads { Reads (seen D.state self.old) (seen D.state self.new) }
        ensures pool { (seen D.state self.new).pool ≡ (seen D.state self.old).pool }
        ensures loaded { OnOk result (IsTrue (seen D.state self.old).device.told
            → frame.new ≡ block_at (seen D.state self.old).device block) }
        ensures len { length frame.new ≡ length frame.old }
        ensures cause { IfErr result (DeviceCause (seen D.state self.old) (seen D.state self.new)) }
    {
        let records = frame.records_mut();
        let read = self.device.read(block, records);
        self.moves = self.moves.saturating_add(1);
        match read {
            Ok(()) => Ok(()),
            Err(_) => Err(EmFault::DeviceFault),
        }
    }

    /// Writes a block in use, by one move.
    fn write_block(&mut self, block: u64, frame: &Frame) -> Result<(), EmFault>
        requires sound { Sound (seen D.state self.old) }
        requires in_use { InUse (seen D.state self.old) block }
        requires len { length frame.now ≡ (seen D.state self.old).pool.shape.block }
        ensures goes { Goes (block ∷ []) (seen D.state self.old) (seen D.state self.new) }
        ensures moved { Transfers (seen D.state self.old) (seen D.state self.new) }
        ensures stored { OnOk result ((seen D.state self.new).device.contents
            ≡ set (seen D.state self.old).device.contents block frame.now) }
        ensures in_use { InUse (seen D.state self.new) block }
        ensures spare { (seen D.state self.new).spare ≡ (seen D.state self.old).spare }
        ensures cause { IfErr result (DeviceCause (seen D.state self.old) (seen D.state self.new)) }
    {
        let wrote = self.device.write(block, frame.records());
        self.moves = self.moves.saturating_add(1);
        match wrote {
            Ok(()) => Ok(()),
            Err(_) => Err(EmFault::DeviceFault),
        }
    }

    /// Frees a block in use: it may come again from `alloc`, and what it held is gone. It moves nothing
    /// while fewer than 512 numbers are kept, and else one block. After a fault the block is still in
    /// use, and may hold anything.
    ///
    /// `Damaged` comes only if no block is in use, over a device that doesn't tell what it has.
    pub fn release(&mut self, block: u64) -> Result<(), EmFault>
        requires sound { Sound (seen D.state self.old) }
        requires in_use { InUse (seen D.state self.old) block }
        requires free { 0 < (seen D.state self.old).pool.free }
        ensures goes { Goes (block ∷ []) (seen D.state self.old) (seen D.state self.new) }
        ensures released { OnOk result
            (Releases (seen D.state self.old) (seen D.state self.new) block) }
        ensures same { OnErr result (SameBlocks (seen D.state self.old) (seen D.state self.new)) }
        ensures in_use { OnErr result (InUse (seen D.state self.new) block) }
        ensures none_new { NoneNew (seen D.state self.old) (seen D.state self.new) }
        ensures most { (seen D.state self.new).most ≡ (seen D.state self.old).most }
        ensures moves { MovesToRelease (seen D.state self.old) (seen D.state self.new) }
        ensures complete { IsTrue (seen D.state self.old).device.told
            → (Rose (seen D.state self.old).device.faults (seen D.state self.new).device.faults → ⊥)
            → IsOk result }
        ensures cause { IfErr result (BlockCause (seen D.state self.old) (seen D.state self.new)) }
        ensures damaged { IfErr result (λ fault. IfDamaged fault (λ k.
            (k ≡ block) × ((seen D.state self.old).used ≡ 0))) }
        ensures owes { Owes 0 (seen D.state self.old) (seen D.state self.new) }
    {
        if self.used == 0 {
            return Err(EmFault::Damaged { block });
        }
        if !self.spare.is_full() {
            self.keep_spare(block);
            return Ok(());
        }
        self.write_free(block)?;
        self.head = block + 1;
        self.used -= 1;
        Ok(())
    }

    /// Keeps the number of a block in use, which is free from then on.
    fn keep_spare(&mut self, block: u64)
        requires sound { Sound (seen D.state self.old) }
        requires in_use { InUse (seen D.state self.old) block }
        requires some { 0 < (seen D.state self.old).used }
        requires room { length (seen D.state self.old).spare < 512 }
        ensures goes { Goes (block ∷ []) (seen D.state self.old) (seen D.state self.new) }
        ensures released { Releases (seen D.state self.old) (seen D.state self.new) block }
        ensures none_new { NoneNew (seen D.state self.old) (seen D.state self.new) }
        ensures most { (seen D.state self.new).most ≡ (seen D.state self.old).most }
        ensures kept { (seen D.state self.new).device ≡ (seen D.state self.old).device }
        ensures moves { (seen D.state self.new).moves ≡ (seen D.state self.old).moves }
    {
        self.spare.push(block);
        self.used -= 1;
    }

    /// Makes a block in use look like a free one, with a link to those that were freed before.
    fn write_free(&mut self, block: u64) -> Result<(), EmFault>
        requires sound { Sound (seen D.state self.old) }
        requires in_use { InUse (seen D.state self.old) block }
        requires free { 0 < (seen D.state self.old).pool.free }
        ensures goes { Goes (block ∷ []) (seen D.state self.old) (seen D.state self.new) }
        ensures in_use { InUse (seen D.state self.new) block }
        ensures spare { (seen D.state self.new).spare ≡ (seen D.state self.old).spare }
        ensures blocks { SameBlocks (seen D.state self.old) (seen D.state self.new) }
        ensures none_new { NoneNew (seen D.state self.old) (seen D.state self.new) }
        ensures moves { (seen D.state self.new).moves
            ≡ next_count (seen D.state self.old).moves }
        ensures linked { OnOk result
            (WritesLink block (seen D.state self.old) (seen D.state self.new)) }
        ensures cause { IfErr result (DeviceCause (seen D.state self.old) (seen D.state self.new)) }
    {
        let mut frame = self.pool.lend();
        let link = Record {
            a: self.head,
            b: 0,
            c: FREE,
            d: 0,
        };
        set_header(&mut frame, link);
        let wrote = self.write_block(block, &frame);
        self.pool.give(frame);
        wrote
    }

    /// Reads a block in use into a frame, by one move. After a fault the frame may hold anything.
    pub fn load(&mut self, block: u64, frame: &mut Frame) -> Result<(), EmFault>
        requires sound { Sound (seen D.state self.old) }
        requires in_use { InUse (seen D.state self.old) block }
        requires len { length frame.old ≡ (seen D.state self.old).pool.shape.block }
        ensures goes { Goes [] (seen D.state self.old) (seen D.state self.new) }
        ensures moved { Transfers (seen D.state self.old) (seen D.state self.new) }
        ensures kept { (seen D.state self.new).device.contents
            ≡ (seen D.state self.old).device.contents }
        ensures loaded { OnOk result (IsTrue (seen D.state self.old).device.told
            → frame.new ≡ block_at (seen D.state self.old).device block) }
        ensures len { length frame.new ≡ length frame.old }
        ensures cause { IfErr result (DeviceCause (seen D.state self.old) (seen D.state self.new)) }
    {
        self.read_block(block, frame)
    }

    /// Writes a frame into a block in use, by one move. After a fault the block may hold anything.
    pub fn store(&mut self, block: u64, frame: &Frame) -> Result<(), EmFault>
        requires sound { Sound (seen D.state self.old) }
        requires in_use { InUse (seen D.state self.old) block }
        requires len { length frame.now ≡ (seen D.state self.old).pool.shape.block }
        ensures goes { Goes (block ∷ []) (seen D.state self.old) (seen D.state self.new) }
        ensures moved { Transfers (seen D.state self.old) (seen D.state self.new) }
        ensures stored { OnOk result ((seen D.state self.new).device.contents
            ≡ set (seen D.state self.old).device.contents block frame.now) }
        ensures in_use { InUse (seen D.state self.new) block }
        ensures cause { IfErr result (DeviceCause (seen D.state self.old) (seen D.state self.new)) }
    {
        self.write_block(block, frame)
    }

    /// Lends a single frame of the pool, with any records.
    pub fn lend(&mut self) -> Frame
        requires sound { Sound (seen D.state self.old) }
        requires free { 0 < (seen D.state self.old).pool.free }
        ensures sound { Sound (seen D.state self.new) }
        ensures touches { Touches [] (seen D.state self.old) (seen D.state self.new) }
        ensures len { length result ≡ (seen D.state self.old).pool.shape.block }
        ensures most { (seen D.state self.old).pool.free
            ≤ singles_of (seen D.state self.old).pool.shape }
        ensures lent { seen D.state self.new
            ≡ record (seen D.state self.old) { pool = lent (seen D.state self.old).pool } }
    {
        self.pool.lend()
    }

    /// Takes a single frame back.
    pub fn give(&mut self, frame: Frame)
        requires sound { Sound (seen D.state self.old) }
        requires len { length frame ≡ (seen D.state self.old).pool.shape.block }
        requires out { (seen D.state self.old).pool.free
            < singles_of (seen D.state self.old).pool.shape }
        ensures sound { Sound (seen D.state self.new) }
        ensures touches { Touches [] (seen D.state self.old) (seen D.state self.new) }
        ensures given { seen D.state self.new
            ≡ record (seen D.state self.old) { pool = given (seen D.state self.old).pool } }
    {
        self.pool.give(frame);
    }

    /// Lends an area of the pool, with any records.
    pub fn lend_area(&mut self) -> Area
        requires sound { Sound (seen D.state self.old) }
        requires free { 0 < (seen D.state self.old).pool.free_areas }
        ensures sound { Sound (seen D.state self.new) }
        ensures touches { Touches [] (seen D.state self.old) (seen D.state self.new) }
        ensures len { length result ≡ load_of (seen D.state self.old).pool.shape }
        ensures most { (seen D.state self.old).pool.free_areas ≤ 2 }
        ensures lent { seen D.state self.new
            ≡ record (seen D.state self.old) { pool = lent_area (seen D.state self.old).pool } }
    {
        self.pool.lend_area()
    }

    /// Takes an area back.
    pub fn give_area(&mut self, area: Area)
        requires sound { Sound (seen D.state self.old) }
        requires len { length area ≡ load_of (seen D.state self.old).pool.shape }
        requires out { (seen D.state self.old).pool.free_areas < 2 }
        ensures sound { Sound (seen D.state self.new) }
        ensures touches { Touches [] (seen D.state self.old) (seen D.state self.new) }
        ensures given { seen D.state self.new
            ≡ record (seen D.state self.old) { pool = given_area (seen D.state self.old).pool } }
    {
        self.pool.give_area(area);
    }

    /// Lends the rack of the pool, with all its places empty.
    pub fn lend_rack(&mut self) -> Rack
        requires sound { Sound (seen D.state self.old) }
        requires in_pool { (seen D.state self.old).pool.rack_out ≡ false }
        ensures sound { Sound (seen D.state self.new) }
        ensures touches { Touches [] (seen D.state self.old) (seen D.state self.new) }
        ensures rack { result ≡ empty_rack (places_in (seen D.state self.old).pool.shape) }
        ensures lent { seen D.state self.new
            ≡ record (seen D.state self.old) { pool = lent_rack (seen D.state self.old).pool } }
    {
        self.pool.lend_rack()
    }

    /// Takes the rack back, of which all places are empty.
    pub fn give_rack(&mut self, rack: Rack)
        requires sound { Sound (seen D.state self.old) }
        requires empty { rack ≡ empty_rack (places_in (seen D.state self.old).pool.shape) }
        requires out { (seen D.state self.old).pool.rack_out ≡ true }
        ensures sound { Sound (seen D.state self.new) }
        ensures touches { Touches [] (seen D.state self.old) (seen D.state self.new) }
        ensures given { seen D.state self.new
            ≡ record (seen D.state self.old) { pool = given_rack (seen D.state self.old).pool } }
    {
        self.pool.give_rack(rack);
    }
}
