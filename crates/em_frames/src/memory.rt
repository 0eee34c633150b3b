ghost use Rattle.std.specs.Prelude.{◌≡◌, ℕ, ◌<◌, ◌≤◌, ◌+◌, ◌^◌, ◌⊎◌, [], length, set, max, OnOk, OnErr, Err, IfOk, IsErrOf, IsTrue, vec_len, get_or, ◌↔◌, Contains, if◌then◌else◌};
ghost use Rattle.std.specs.List.{All};
ghost use Rattle.em_record.specs.Count.{Rose, next_count};
ghost use Rattle.em_record.specs.Calls.{AreCounts, CountsCall};
ghost use Rattle.em_frames.specs.Device.{IsBegun, IsMove, ChangesOnly, block_at};
ghost use Rattle.em_frames.specs.Memory.{device_of, all_blocks};

use crate::device::{BeginFault, Device};
use em_record::{Calls, Failed, NoMemory, Record};
use std::alloc::{AllocError, Global};
use std::marker::Model;

/// A device in memory, of which some calls fail. It tells its contents, and keeps only the blocks
/// up to the last one written.
#[derive(Drop)]
pub struct MemDevice {
    alloc: Global,
    calls: Calls,
    moves: u64,
    block: usize,
    blocks: u64,
    kept: Vec<Vec<Record>>,
}

impl Model for MemDevice {
    ghost use Rattle.std.specs.Prelude.{vec_len};
    ghost use Rattle.em_frames.specs.Memory.{MemState, IsKept, all_blocks};

    ghost Value = { MemState };

    ghost view = { λ d. record {
      contents = all_blocks d.block d.blocks d.kept.items;
      blocks = d.blocks;
      block = d.block;
      moves = d.moves;
      kept = vec_len d.kept;
      counts = d.calls;
    } };

    ghost invariant = { λ d. IsKept d.blocks d.block d.moves d.kept };
}

impl MemDevice {
    /// A device that wasn't begun. `failing` holds the numbers, from 0, of the calls of `begin`,
    /// `read` and `write` that are to fail.
    pub fn new(alloc: Global, failing: &[u64]) -> Result<MemDevice, NoMemory>
        ensures { IfOk result (λ d. d ≡ record {
          contents = [];
          blocks = 0;
          block = 0;
          moves = 0;
          kept = 0;
          counts = record { failing = failing.now; calls = 0; faults = 0; refused = 0 };
        }) }
    {
        let calls = Calls::new(alloc, failing)?;
        Ok(MemDevice {
            alloc,
            calls,
            moves: 0,
            block: 0,
            blocks: 0,
            kept: Vec::new(alloc),
        })
    }

    /// The number of block moves, failed ones too. The count stays at 2^64 - 1.
    pub fn moves(&self) -> u64
        ensures { result ≡ self.now.moves }
    {
        self.moves
    }

    /// The number of calls that failed.
    pub fn faults(&self) -> u64
        ensures { result ≡ self.now.counts.faults }
    {
        self.calls.faults()
    }

    /// The number of writes that found no memory to grow.
    pub fn refused(&self) -> u64
        ensures { result ≡ self.now.counts.refused }
    {
        self.calls.refused()
    }
}

impl Device for MemDevice {
    ghost state = { device_of };

    fn begin(&mut self, block: u32, blocks: u64) -> Result<(), BeginFault>
        requires fresh { self.old.blocks ≡ 0 }
        requires block_low { 128 ≤ block }
        requires block_high { block ≤ 65536 }
        requires blocks_low { 0 < blocks }
        requires blocks_high { blocks ≤ 2 ^ 40 }
        ensures begun { OnOk result
            (IsBegun (device_of self.old) (device_of self.new) block blocks) }
        ensures told { (device_of self.new).told ≡ (device_of self.old).told }
        ensures none_yet { self.old.moves ≡ 0 }
        ensures unmoved { self.new.moves ≡ self.old.moves }
        ensures faults { self.old.counts.faults ≤ self.new.counts.faults }
        ensures cause { IsErrOf result BeginFault.Failed
            → Rose self.old.counts.faults self.new.counts.faults }
        ensures counted { CountsCall ⊥ self.old.counts self.new.counts result }
        ensures refused { self.new.counts.refused ≡ self.old.counts.refused }
        ensures memory { result ≡ Err BeginFault.NoMemory → ⊥ }
        ensures same { OnErr result (self.new ≡ record self.old { counts = self.new.counts }) }
        ensures keeps { self.new.kept ≡ self.old.kept }
    {
        if fails(&mut self.calls) {
            return Err(BeginFault::Failed);
        }
        self.calls.pass();
        self.block = block as usize;
        self.blocks = blocks;
        Ok(())
    }

    fn read(&mut self, at: u64, into: &mut [Record]) -> Result<(), Failed>
        requires at { at < self.old.blocks }
        requires len { length into.old ≡ self.old.block }
        ensures given { OnOk result (IsTrue (device_of self.old).told
            → into.new ≡ block_at (device_of self.old) at) }
        ensures kept { self.new.contents ≡ self.old.contents }
        ensures moved { IsMove (device_of self.old) (device_of self.new) result }
        ensures counted { CountsCall ⊥ self.old.counts self.new.counts result }
        ensures refused { self.new.counts.refused ≡ self.old.counts.refused }
        ensures keeps { self.new.kept ≡ self.old.kept }
    {
        self.moves = self.moves.saturating_add(1);
        if fails(&mut self.calls) {
            return Err(Failed);
        }
        self.calls.pass();
        copy_block(&self.kept, at as usize, into);
        Ok(())
    }

    fn write(&mut self, at: u64, from: &[Record]) -> Result<(), Failed>
        requires at { at < self.old.blocks }
        requires len { length from.now ≡ self.old.block }
        ensures stored { OnOk result (self.new.contents ≡ set self.old.contents at from.now) }
        ensures others { ChangesOnly at (length from.now)
            (device_of self.old) (device_of self.new) }
        ensures moved { IsMove (device_of self.old) (device_of self.new) result }
        ensures counted { CountsCall (self.old.counts.refused < self.new.counts.refused)
            self.old.counts self.new.counts result }
        ensures refused { (self.new.counts.refused ≡ self.old.counts.refused)
            ⊎ (self.new.counts.refused ≡ next_count self.old.counts.refused) }
        ensures told_to { Contains self.old.counts.failing self.old.counts.calls
            → self.new.counts.refused ≡ self.old.counts.refused }
        ensures keeps { OnOk result (self.new.kept ≡ max self.old.kept (at + 1)) }
        ensures keeps_most { self.new.kept ≤ max self.old.kept (at + 1) }
    {
        self.moves = self.moves.saturating_add(1);
        if fails(&mut self.calls) {
            return Err(Failed);
        }
        if keep_blocks(self.alloc, &mut self.kept, at as usize + 1, self.block).is_err() {
            self.calls.refuse();
            return Err(Failed);
        }
        self.calls.pass();
        put_block(&mut self.kept, at as usize, from);
        Ok(())
    }
}

/// Whether the next call is to fail. It is counted if so.
fn fails(calls: &mut Calls) -> bool
    ensures fails { IsTrue result ↔ Contains calls.old.failing calls.old.calls }
    ensures counts { AreCounts calls.old }
    ensures counted { calls.new ≡ (if result then record calls.old {
      calls = next_count calls.old.calls;
      faults = next_count calls.old.faults;
    } else calls.old) }
{
    let fails = calls.next_fails();
    if fails {
        calls.fail();
    }
    fails
}

/// Copies a block, which holds zeros where it isn't kept.
fn copy_block(kept: &Vec<Vec<Record>>, at: usize, into: &mut [Record])
    requires lens { All (λ v. vec_len v ≡ length into.old) kept.now.items }
    ensures { (blocks : ℕ) → at < blocks
        → into.new ≡ get_or (all_blocks (length into.old) blocks kept.now.items) at [] }
{
    if at < kept.len() {
        into.copy_from_slice(&kept[at]);
    } else {
        into.fill(Record::ZERO);
    }
}

/// Overwrites a block that is kept.
fn put_block(kept: &mut Vec<Vec<Record>>, at: usize, from: &[Record])
    requires at { at < vec_len kept.old }
    requires lens { All (λ v. vec_len v ≡ length from.now) kept.old.items }
    ensures lens { All (λ v. vec_len v ≡ length from.now) kept.new.items }
    ensures len { vec_len kept.new ≡ vec_len kept.old }
    ensures blocks { (block blocks : ℕ)
        → all_blocks block blocks kept.new.items
        ≡ set (all_blocks block blocks kept.old.items) at from.now }
{
    kept[at].copy_from_slice(from);
}

/// Keeps at least this many blocks, the new ones of zeros.
#[tactic(auto, using(crate::proofs::Kept::all_blocks_push))]
fn keep_blocks(
    alloc: Global,
    kept: &mut Vec<Vec<Record>>,
    count: usize,
    block: usize,
) -> Result<(), AllocError>
    requires lens { All (λ v. vec_len v ≡ block) kept.old.items }
    ensures lens { All (λ v. vec_len v ≡ block) kept.new.items }
    ensures same { (blocks : ℕ) → count ≤ blocks → vec_len kept.old ≤ blocks
        → all_blocks block blocks kept.new.items ≡ all_blocks block blocks kept.old.items }
    ensures within { vec_len kept.new ≤ max count (vec_len kept.old) }
    ensures no_less { vec_len kept.old ≤ vec_len kept.new }
    ensures grown { OnOk result (count ≤ vec_len kept.new) }
{
    while kept.len() < count {
        let zeros = vec![in alloc; Record::ZERO; block]?;
        kept.push(zeros)?;
    }
    Ok(())
}
