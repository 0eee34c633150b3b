//! An entry that is put in after another one.

ghost use Rattle.std.specs.Prelude.{◌≡◌, ◌↔◌, ◌+◌, ◌*◌, ◌<◌, ◌≤◌, length, IsTrue};
ghost use Rattle.em_record.specs.Shape.{fan_of};
ghost use Rattle.em_space.specs.Rig.{Sound};
ghost use Rattle.em_space.specs.Seen.{seen};
ghost use Rattle.em_node.specs.Node.{Is, IsLimited, IsNode, entries_of, level_of};
ghost use Rattle.em_tree_walk.specs.Inserted.{AddsEntry, CanAdd, CanFollow, HasRoomAfter, with_entry_after};

use crate::descending::{end_of, is_under, load_node};
use em_frames::{Device, Frame};
use em_node::{Entry, count, entry_at, insert};
use em_record::{Record, Shape};
use em_space::{EmFault, Rig};

/// Whether a new entry with this low key may come after the one of a place, so that low keys rise.
pub fn can_follow(frame: &Frame, at: usize, low: Record) -> bool
    requires node { IsNode frame.now }
    requires at { at < length (entries_of frame.now) }
    ensures { IsTrue result ↔ CanFollow at low (entries_of frame.now) }
{
    entry_at(frame, at).low < low && is_under(low, end_of(frame, at, None))
}

/// Puts an entry in after the one of a place.
pub fn insert_after(frame: &mut Frame, at: usize, entry: Entry)
    requires node { IsNode frame.old }
    requires at { at < length (entries_of frame.old) }
    requires room { 2 + 3 * (length (entries_of frame.old) + 1) ≤ length frame.old }
    requires limited { IsLimited entry }
    requires follow { CanFollow at entry.low (entries_of frame.old) }
    ensures len { length frame.new ≡ length frame.old }
    ensures is { Is frame.new (level_of frame.old) (with_entry_after at entry (entries_of frame.old)) }
{
    let entries = count(frame);
    prove!(at < entries);
    insert(frame, at + 1, entry);
}

/// Puts an entry in after the one of a place of a node, which isn't full. At most 2 blocks are moved.
/// `Damaged` comes only over a device that doesn't tell.
pub fn add_entry<D: Device>(
    rig: &mut Rig<'_, D>,
    node: u64,
    level: u64,
    at: usize,
    entry: Entry,
) -> Result<(), EmFault>
    requires sound { Sound (seen D.state rig.old) }
    requires can { CanAdd (seen D.state rig.old) level node at entry }
    requires above { 0 < level }
    requires free { 0 < (seen D.state rig.old).pool.free }
    ensures { AddsEntry (seen D.state rig.old) (seen D.state rig.new) level node at entry result }
{
    let mut frame = rig.lend();
    let added = add_in(rig, node, level, at, entry, &mut frame);
    rig.give(frame);
    added
}

/// The same with a frame.
fn add_in<D: Device>(
    rig: &mut Rig<'_, D>,
    node: u64,
    level: u64,
    at: usize,
    entry: Entry,
    frame: &mut Frame,
) -> Result<(), EmFault>
    requires sound { Sound (seen D.state rig.old) }
    requires can { CanAdd (seen D.state rig.old) level node at entry }
    requires above { 0 < level }
    requires len { length frame.old ≡ (seen D.state rig.old).pool.shape.block }
    ensures len { length frame.new ≡ length frame.old }
    ensures adds { AddsEntry (seen D.state rig.old) (seen D.state rig.new) level node at entry
        result }
{
    load_node(rig, node, level, frame)?;
    if !has_room_after(frame, &rig.shape(), at, entry.low) {
        return Err(EmFault::Damaged { block: node });
    }
    insert_after(frame, at, entry);
    rig.store(node, frame)
}

/// Whether a node in a frame has room for a new entry after the one of a place, so that low keys rise.
fn has_room_after(frame: &Frame, shape: &Shape, at: usize, low: Record) -> bool
    requires { IsNode frame.now }
    ensures { IsTrue result ↔ HasRoomAfter (2 * fan_of shape.now) at low (entries_of frame.now) }
{
    at < count(frame) && (count(frame) as u64) < 2 * shape.fan() && can_follow(frame, at, low)
}
