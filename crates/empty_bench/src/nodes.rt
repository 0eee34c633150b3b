//! The node of the bench:
//!
//! ```text
//! low keys   0        2^58     2 * 2^58 ..  63 * 2^58
//! buffers    [7 3]    []       [9]      ..  []            weight 1 * 2 + 2 * 0 + 3 * 1 + ..
//! ```
ghost use Rattle.std.specs.Prelude.{◌≡◌, ◌+◌, ◌-◌, ◌*◌, ◌<◌, ◌≤◌, ◌^◌, length, [], ◌∷◌, IfOk, IfSome, IsTrue, OnOk};
ghost use Rattle.em_frames.specs.Device.{block_at};
ghost use Rattle.em_space.specs.Rig.{Sound, Goes, InUse};
ghost use Rattle.em_space.specs.Seen.{seen};
ghost use Rattle.em_node.specs.Node.{Is, IsNode, entries_of};
ghost use Rattle.em_tree_blocks.specs.Reading.{entries_at};
ghost use Rattle.bench_runs.specs.Bench.{run_shape};
ghost use Rattle.empty_bench.specs.Places.{bare_entry, bare_entries, weight_from};
ghost use Rattle.empty_bench.specs.Steps.{MakesNode};

use em_frames::{Device, Frame};
use em_node::{Entry, check, count, entry_at, fresh, insert};
use em_record::{Record, Shape};
use em_space::{EmFault, Rig};

/// The first words of each place: from its number times this on.
const WIDTH: u64 = 1 << 58;

/// The entry of a place, with this child and nothing in its buffer.
fn bare_entry(child: u64, place: u64) -> Entry
    requires { place < 64 }
    ensures { result ≡ bare_entry child place }
{
    Entry {
        low: Record {
            a: place * WIDTH,
            b: 0,
            c: 0,
            d: 0,
        },
        child,
        buffer: [0, 0, 0, 0, 0],
    }
}

/// Puts the entry of one more place into a node that has those of the last `done` places.
fn put_entry(frame: &mut Frame, child: u64, done: u64)
    requires done { done < 64 }
    requires room { 2 + 3 * 64 ≤ length frame.old }
    requires is { Is frame.old 1 (bare_entries child (64 - done) done) }
    ensures len { length frame.new ≡ length frame.old }
    ensures is { Is frame.new 1 (bare_entries child (64 - (done + 1)) (done + 1)) }
{
    insert(frame, 0, bare_entry(child, 63 - done));
}

/// Puts the entries of the 64 places into a node that has none, the last one first.
fn put_entries(frame: &mut Frame, child: u64)
    requires room { 2 + 3 * 64 ≤ length frame.old }
    requires is { Is frame.old 1 [] }
    ensures len { length frame.new ≡ length frame.old }
    ensures is { Is frame.new 1 (bare_entries child 0 64) }
{
    for done in 0..64 {
        put_entry(frame, child, done);
    }
}

/// Stores a node of 64 places in a block in use. Its number stands for the block of each child.
fn store_node<D: Device>(rig: &mut Rig<'_, D>, node: u64) -> Result<(), EmFault>
    requires sound { Sound (seen D.state rig.old) }
    requires shape { (seen D.state rig.old).pool.shape ≡ run_shape }
    requires in_use { InUse (seen D.state rig.old) node }
    requires free { 0 < (seen D.state rig.old).pool.free }
    ensures goes { Goes (node ∷ []) (seen D.state rig.old) (seen D.state rig.new) }
    ensures in_use { InUse (seen D.state rig.new) node }
    ensures is { OnOk result (IsTrue (seen D.state rig.old).device.told
        → Is (block_at (seen D.state rig.new).device node) 1 (bare_entries (node + 1) 0 64)) }
{
    let mut frame = rig.lend();
    fresh(&mut frame, 1);
    put_entries(&mut frame, node + 1);
    let stored = rig.store(node, &frame);
    rig.give(frame);
    stored
}

/// Makes a node of 64 places with nothing in their buffers. Answers the number of its block.
pub fn make_node<D: Device>(rig: &mut Rig<'_, D>) -> Result<u64, EmFault>
    requires sound { Sound (seen D.state rig.old) }
    requires shape { (seen D.state rig.old).pool.shape ≡ run_shape }
    requires free { 0 < (seen D.state rig.old).pool.free }
    ensures goes { Goes [] (seen D.state rig.old) (seen D.state rig.new) }
    ensures makes { IfOk result (MakesNode (seen D.state rig.old) (seen D.state rig.new)) }
{
    let node = rig.alloc()?;
    store_node(rig, node)?;
    Ok(node)
}

/// The weight of a node: its records, each counted as the number of its place from 1 on.
fn weight(frame: &Frame) -> u64
    requires { IsNode frame.now }
    ensures { weight_from 1 (entries_of frame.now) < 2 ^ 64
        → result ≡ weight_from 1 (entries_of frame.now) }
{
    let mut sum: u64 = 0;
    for at in 0..count(frame) {
        let [_, _, _, records, _] = entry_at(frame, at).buffer;
        sum = sum.wrapping_add((at as u64 + 1).wrapping_mul(records));
    }
    sum
}

/// The weight of a frame, modulo 2^64, or none if it holds no node for a device of `blocks` blocks.
fn weight_of(frame: &Frame, shape: &Shape, blocks: u64) -> Option<u64>
    ensures { IfSome result (λ sum. weight_from 1 (entries_of frame.now) < 2 ^ 64
        → sum ≡ weight_from 1 (entries_of frame.now)) }
{
    if check(frame, shape, blocks) {
        Some(weight(frame))
    } else {
        None
    }
}

/// Loads a node, and answers its weight, modulo 2^64. A block that holds no node is `Damaged`.
pub fn weigh<D: Device>(rig: &mut Rig<'_, D>, node: u64) -> Result<u64, EmFault>
    requires sound { Sound (seen D.state rig.old) }
    requires in_use { InUse (seen D.state rig.old) node }
    requires free { 0 < (seen D.state rig.old).pool.free }
    ensures goes { Goes [] (seen D.state rig.old) (seen D.state rig.new) }
    ensures weight { IsTrue (seen D.state rig.old).device.told → IfOk result (λ sum.
        weight_from 1 (entries_at (seen D.state rig.old) node) < 2 ^ 64
        → sum ≡ weight_from 1 (entries_at (seen D.state rig.old) node)) }
{
    let mut frame = rig.lend();
    let loaded = rig.load(node, &mut frame);
    let sum = weight_of(&frame, &rig.shape(), rig.blocks());
    rig.give(frame);
    loaded?;
    match sum {
        Some(sum) => Ok(sum),
        None => Err(EmFault::Damaged { block: node }),
    }
}
