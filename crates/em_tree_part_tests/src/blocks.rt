//! Nodes and leaves, written by hand, and the tree that is walked through:
//!
//!     block 2, level 2:  from 0 on block 0, from 100 on block 1
//!     block 0, level 1:  from 5 on leaf 6, from 30 on leaf 7, from 60 on leaf 8
//!     block 1, level 1:  from 100 on leaf 9, from 130 on leaf 10
//!
//! Its leaves are blocks that are never read. The buffers of block 0 have 3, 10 and 12 records, those
//! of block 1 none and 25.
ghost use Rattle.std.specs.Prelude.{◌≡◌, ◌<◌, ◌≤◌, ◌^◌, [], length, IfOk};
ghost use Rattle.em_space.specs.Rig.{Goes, Sound};
ghost use Rattle.em_space.specs.Seen.{seen};
ghost use Rattle.em_tree_part_tests.specs.Ready.{IsReady, Keeps};

use em_devices::write;
use em_frames::{Device, Frame};
use em_record::Record;
use em_space::{EmFault, Rig};
use em_tree_load::put_leaf;

/// An entry of a node: the word a of its low key, the block of its child, and its buffer's words.
pub type Row = (u64, u64, [u64; 5]);

/// The entries of block 0.
pub const FIRST: [Row; 3] = [
    (5, 6, [0, 0, 0, 3, 0]),
    (30, 7, [0, 0, 0, 10, 0]),
    (60, 8, [0, 0, 0, 12, 0]),
];

/// The record of these words.
pub fn record(a: u64, b: u64, c: u64, d: u64) -> Record {
    Record { a, b, c, d }
}

/// A key with this first word.
pub fn key(word: u64) -> Record {
    record(word, 0, 0, 0)
}

/// The entries of a full node: from 0, 10 and so on up to 310 on, each leads to block 0, and nothing is in
/// its buffer.
pub fn full() -> [Row; 32] {
    let mut rows = [(0, 0, [0; 5]); 32];
    for number in 0..32 {
        rows[number].0 = 10 * number as u64;
    }
    rows
}

/// The entries of a full node, and one more: from 0, 10 and so on up to 320 on. Entry i leads to block i, or to the rest
/// of i by this number of blocks, and nothing is in its buffer.
pub fn numbered(blocks: u64) -> [Row; 33] {
    let mut rows = [(0, 0, [0; 5]); 33];
    for number in 0..33 {
        rows[number].0 = 10 * number as u64;
        rows[number].1 = number as u64 % blocks.max(1);
    }
    rows
}

/// Writes a node of this level with these entries, of which there are 33 at most.
pub fn write_node(frame: &mut Frame, level: u64, rows: &[Row])
    requires { length frame.old ≡ 128 }
    ensures { length frame.new ≡ 128 }
{
    frame.records_mut().fill(Record::ZERO);
    frame.records_mut()[0] = record(level, rows.len() as u64, 2, 0);
    for number in 0..rows.len().min(33) {
        let (low, child, [head, skip, tail, records, blocks]) = rows[number];
        frame.records_mut()[2 + 3 * number].a = low;
        frame.records_mut()[3 + 3 * number] = record(child.saturating_add(1), head, skip, tail);
        frame.records_mut()[4 + 3 * number].a = records;
        frame.records_mut()[4 + 3 * number].b = blocks;
    }
}

/// Stores a frame in a new block, and answers its number.
fn store_frame<D: Device>(rig: &mut Rig<'_, D>, frame: &Frame) -> Result<u64, EmFault>
    requires sound { Sound (seen D.state rig.old) }
    requires block { (seen D.state rig.old).pool.shape.block ≡ 128 }
    requires len { length frame.now ≡ 128 }
    requires free { 0 < (seen D.state rig.old).pool.free }
    ensures goes { Goes [] (seen D.state rig.old) (seen D.state rig.new) }
    ensures below { IfOk result (λ block. block < (seen D.state rig.old).blocks) }
{
    let block = rig.alloc()?;
    rig.store(block, frame)?;
    Ok(block)
}

/// Stores a node of this level with these entries in a new block, and answers its number.
#[tactic(auto, using(crate::proofs::Ready::kept))]
pub fn store_node<D: Device>(rig: &mut Rig<'_, D>, level: u64, rows: &[Row]) -> Result<u64, EmFault>
    requires ready { IsReady (seen D.state rig.old) }
    ensures keeps { Keeps (seen D.state rig.old) (seen D.state rig.new) }
    ensures below { IfOk result (λ block. block < (seen D.state rig.old).blocks) }
{
    let mut frame = rig.lend();
    write_node(&mut frame, level, rows);
    let stored = store_frame(rig, &frame);
    rig.give(frame);
    stored
}

/// Stores a leaf with these records: a chain, and then the leaf's block, whose number is answered.
#[tactic(auto, using(crate::proofs::Ready::kept))]
pub fn store_leaf<D: Device>(rig: &mut Rig<'_, D>, records: &[Record]) -> Result<u64, EmFault>
    requires ready { IsReady (seen D.state rig.old) }
    requires few { length records.now ≤ 2 ^ 20 }
    ensures keeps { Keeps (seen D.state rig.old) (seen D.state rig.new) }
    ensures below { IfOk result (λ block. block < (seen D.state rig.old).blocks) }
{
    let chain = write(rig, records)?;
    let mut frame = rig.lend();
    frame.records_mut().fill(Record::ZERO);
    put_leaf(&mut frame, &chain);
    let stored = store_frame(rig, &frame);
    rig.give(frame);
    stored
}

/// Stores the tree that is walked through, and answers the block of its root.
#[tactic(auto, using(crate::proofs::Ready::kept))]
pub fn set_up<D: Device>(rig: &mut Rig<'_, D>) -> Result<u64, EmFault>
    requires ready { IsReady (seen D.state rig.old) }
    ensures keeps { Keeps (seen D.state rig.old) (seen D.state rig.new) }
    ensures below { IfOk result (λ block. block < (seen D.state rig.old).blocks) }
{
    let none = [0; 5];
    let some = [0, 0, 0, 25, 0];
    let first = store_node(rig, 1, &FIRST)?;
    let second = store_node(rig, 1, &[(100, 9, none), (130, 10, some)])?;
    store_node(rig, 2, &[(0, first, none), (100, second, none)])
}

/// The level of the node in a block, the number of its entries, and the entry of a place.
pub fn entry_in<D: Device>(
    rig: &mut Rig<'_, D>,
    node: u64,
    at: usize,
) -> Result<(u64, u64, Row), EmFault>
    requires ready { IsReady (seen D.state rig.old) }
    ensures keeps { Keeps (seen D.state rig.old) (seen D.state rig.new) }
{
    if node >= rig.blocks() {
        return Err(EmFault::Damaged { block: node });
    }
    let mut frame = rig.lend();
    let loaded = rig.load(node, &mut frame);
    let entry = entry_of(&frame, at.min(31));
    rig.give(frame);
    loaded?;
    Ok(entry)
}

/// The same of a frame.
fn entry_of(frame: &Frame, at: usize) -> (u64, u64, Row)
    requires len { length frame.now ≡ 128 }
    requires at { at ≤ 31 }
{
    let head = frame.records()[0];
    let low = frame.records()[2 + 3 * at];
    let child = frame.records()[3 + 3 * at];
    let last = frame.records()[4 + 3 * at];
    let row = (
        low.a,
        child.a.saturating_sub(1),
        [child.b, child.c, child.d, last.a, last.b],
    );
    (head.a, head.b, row)
}

/// Whether the device has this block, and it begins with these records: 1 or 0.
pub fn begins_with<D: Device>(
    rig: &mut Rig<'_, D>,
    block: u64,
    records: &[Record],
) -> Result<u64, EmFault>
    requires ready { IsReady (seen D.state rig.old) }
    ensures keeps { Keeps (seen D.state rig.old) (seen D.state rig.new) }
{
    if block >= rig.blocks() {
        return Ok(0);
    }
    let mut frame = rig.lend();
    let loaded = rig.load(block, &mut frame);
    let same = frame.records().starts_with(records);
    rig.give(frame);
    loaded?;
    Ok(u64::from(same))
}
