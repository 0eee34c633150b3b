//! A load of a leaf: the first records of its buffer are settled over its stored records. A leaf that is
//! split gets a neighbour, and the rest of the buffer goes to both:
//!
//!     node    [.. 20: puts 23 21 27 | 40 ..]         node    [.. 20: put 27 | 24: - | 40 ..]
//!                  |                                              |           |
//!     leaf    [20 22 24 30]                          leaves  [20 21 22 23] [24 30]
//!
//! Kept here: which blocks hold what, over faults too; that the answers come in order. Left to the
//! tree: which leaf is loaded, and the nodes above that are full.

ghost use Rattle.std.specs.Prelude.{◌≡◌, ◌↔◌, ◌+◌, ◌*◌, ◌<◌, ◌≤◌, false, length, IsTrue};
ghost use Rattle.em_record.specs.Shape.{fan_of};
ghost use Rattle.em_frames.specs.Pool.{load_of};
ghost use Rattle.em_space.specs.Rig.{Sound};
ghost use Rattle.em_space.specs.Seen.{seen};
ghost use Rattle.em_chain.specs.Effects.{Completes};
ghost use Rattle.em_chain.specs.Writer.{WriterHasFrame};
ghost use Rattle.em_leaf.specs.Effects.{loading_room};
ghost use Rattle.em_node.specs.Node.{IsNode, entries_of};
ghost use Rattle.em_tree_load.specs.LeafLoads.{CanLoadLeaf, LoadsLeafAt, taken_of, waiting_over};
ghost use Rattle.em_tree_load.specs.LoadRoom.{TakesHere, load_leaf_need, load_leaf_room};
ghost use Rattle.em_tree_load.specs.NodeLoads.{LoadsHereTo};
ghost use Rattle.em_tree_load.specs.Peaks.{Peaks};

use crate::changing::{Split, store_change};
use crate::settling::settle_leaf;
use em_chain::Writer;
use em_empty::empty_node;
use em_frames::{Area, Device, Frame};
use em_node::{count, entry_at};
use em_record::{Record, Shape};
use em_settle::Settle;
use em_space::{EmFault, Rig};
use em_tree_walk::{buffer_of, child_in, load_node};

/// Settles at most w·B records of the buffer of an entry over its leaf; what they answer is appended to
/// `answers`. A leaf that is split gets a neighbour, whose least key is answered: the rest of the
/// buffer goes to both, and the node may be full then.
///
/// `DeviceFault` comes only if the device's count of faults rose, and `Full` only if all blocks are in use.
/// Over a device that tells and counts no fault the load is Ok with 2·ceil(n/P) + min(x, 2f) + 5
/// blocks free, for n operations that are taken and x that are left; and with as many as the records
/// that result and the answers need, and min(x, 2f) + 2 more if the leaf is split. Over a device
/// that doesn't tell, a block that is no node with such an entry, or no leaf, is `Damaged`. After a
/// fault the blocks of the node and of all below it may hold anything, some may be released and the
/// others stay in use, and `answers` may only be abandoned. All frames are back on each way out.
pub fn load_leaf<D: Device, S: Settle>(
    rig: &mut Rig<'_, D>,
    settle: &S,
    answers: &mut Writer,
    node: u64,
    at: usize,
) -> Result<Option<Record>, EmFault>
    requires sound { Sound (seen D.state rig.old) }
    requires ready { S.IsReady settle.now }
    requires can { CanLoadLeaf (S.key_of settle.now) (seen D.state rig.old) node at answers.old }
    requires free { 2 * fan_of (seen D.state rig.old).pool.shape + 3
        ≤ (seen D.state rig.old).pool.free }
    requires area { 0 < (seen D.state rig.old).pool.free_areas }
    requires rack { (seen D.state rig.old).pool.rack_out ≡ false }
    ensures frame { WriterHasFrame (seen D.state rig.new) answers.new }
    ensures loads { LoadsLeafAt (S.key_of settle.now) (S.step_of settle.now) (seen D.state rig.old)
        (seen D.state rig.new) node at answers.old answers.new result }
    ensures complete { (seen D.state rig.old).used
        + load_leaf_room (seen D.state rig.old) node at ≤ (seen D.state rig.old).blocks
        → Completes (seen D.state rig.old) (seen D.state rig.new) result }
    ensures enough { (seen D.state rig.old).used + load_leaf_need (S.key_of settle.now)
        (S.step_of settle.now) (seen D.state rig.old) node at answers.old
        ≤ (seen D.state rig.old).blocks + answers.old.blocks
        → Completes (seen D.state rig.old) (seen D.state rig.new) result }
{
    let split = match load_at(rig, settle, answers, node, at)? {
        Some(split) => split,
        None => return Ok(None),
    };
    let Split { low, rest } = split;
    if rest.len() == 0 {
        return Ok(Some(low));
    }
    empty_node(rig, settle, node, rest)?;
    Ok(Some(low))
}

/// Settles a load over the leaf of an entry. Answers what a split left to do.
fn load_at<D: Device, S: Settle>(
    rig: &mut Rig<'_, D>,
    settle: &S,
    answers: &mut Writer,
    node: u64,
    at: usize,
) -> Result<Option<Split>, EmFault>
    requires sound { Sound (seen D.state rig.old) }
    requires ready { S.IsReady settle.now }
    requires can { CanLoadLeaf (S.key_of settle.now) (seen D.state rig.old) node at answers.old }
    requires free { 7 ≤ (seen D.state rig.old).pool.free }
    requires area { 0 < (seen D.state rig.old).pool.free_areas }
    ensures frame { WriterHasFrame (seen D.state rig.new) answers.new }
    ensures loads { LoadsHereTo (S.key_of settle.now) (S.step_of settle.now) (seen D.state rig.old)
        (seen D.state rig.new) node at answers.old answers.new result }
    ensures takes { IsTrue (seen D.state rig.old).device.told → TakesHere (S.key_of settle.now)
        (S.step_of settle.now) (seen D.state rig.old) (seen D.state rig.new) node at answers.old
        result }
    ensures peaks { IsTrue (seen D.state rig.old).device.told → Peaks (loading_room
        (seen D.state rig.old) (taken_of (seen D.state rig.old) (length (waiting_over
        (seen D.state rig.old) node at))) + 1) (seen D.state rig.old) (seen D.state rig.new) }
{
    let mut frame = rig.lend();
    let mut area = rig.lend_area();
    let loaded = load_in(rig, settle, answers, node, at, &mut frame, &mut area);
    rig.give_area(area);
    rig.give(frame);
    loaded
}

/// The same with a frame for the node, and an area for the load.
fn load_in<D: Device, S: Settle>(
    rig: &mut Rig<'_, D>,
    settle: &S,
    answers: &mut Writer,
    node: u64,
    at: usize,
    frame: &mut Frame,
    area: &mut Area,
) -> Result<Option<Split>, EmFault>
    requires sound { Sound (seen D.state rig.old) }
    requires ready { S.IsReady settle.now }
    requires can { CanLoadLeaf (S.key_of settle.now) (seen D.state rig.old) node at answers.old }
    requires len { length frame.old ≡ (seen D.state rig.old).pool.shape.block }
    requires room { length area.old ≡ load_of (seen D.state rig.old).pool.shape }
    requires free { 6 ≤ (seen D.state rig.old).pool.free }
    ensures frame { WriterHasFrame (seen D.state rig.new) answers.new }
    ensures len { length frame.new ≡ length frame.old }
    ensures area { length area.new ≡ length area.old }
    ensures loads { LoadsHereTo (S.key_of settle.now) (S.step_of settle.now) (seen D.state rig.old)
        (seen D.state rig.new) node at answers.old answers.new result }
    ensures takes { IsTrue (seen D.state rig.old).device.told → TakesHere (S.key_of settle.now)
        (S.step_of settle.now) (seen D.state rig.old) (seen D.state rig.new) node at answers.old
        result }
    ensures peaks { IsTrue (seen D.state rig.old).device.told → Peaks (loading_room
        (seen D.state rig.old) (taken_of (seen D.state rig.old) (length (waiting_over
        (seen D.state rig.old) node at))) + 1) (seen D.state rig.old) (seen D.state rig.new) }
{
    load_node(rig, node, 1, frame)?;
    let shape = rig.shape();
    if !has_room_at(frame, &shape, at) {
        return Err(EmFault::Damaged { block: node });
    }
    let leaf = child_in(frame, at);
    let entry = entry_at(frame, at);
    let buffer = buffer_of(&entry);
    let settled = settle_leaf(rig, settle, answers, leaf, buffer, area)?;
    let (change, rest) = settled;
    store_change(rig, node, at, frame, leaf, change, rest)
}

/// Whether a node in a frame has an entry at a place, and room for one more.
fn has_room_at(frame: &Frame, shape: &Shape, at: usize) -> bool
    requires { IsNode frame.now }
    ensures { IsTrue result ↔ ((at < length (entries_of frame.now))
        × (length (entries_of frame.now) < 2 * fan_of shape.now)) }
{
    at < count(frame) && (count(frame) as u64) < 2 * shape.fan()
}
