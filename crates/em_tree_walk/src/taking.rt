//! The buffer of an entry, taken out of its node.

ghost use Rattle.std.specs.Prelude.{◌≡◌, ◌↔◌, ◌<◌, length, get_or, IsTrue};
ghost use Rattle.em_space.specs.Rig.{Sound};
ghost use Rattle.em_space.specs.Seen.{seen};
ghost use Rattle.em_node.specs.Node.{Is, IsNode, entries_of, level_of, no_entry};
ghost use Rattle.em_tree_blocks.specs.Node.{chain_of};
ghost use Rattle.em_tree_walk.specs.Taken.{HasPlace, TakesBuffer, unbuffered_at};

use crate::descending::{buffer_of, child_in, load_node};
use em_chain::Chain;
use em_frames::{Device, Frame};
use em_node::{count, entry_at, set_entry};
use em_space::{EmFault, Rig};

/// Takes the buffer of an entry out of its node. Answers the block of the entry's child, and the
/// buffer. At most 2 blocks are moved. `Damaged` comes only over a device that doesn't tell, and
/// `DeviceFault` if the device's count of faults rose; then the node's block may hold anything.
pub fn take_out<D: Device>(
    rig: &mut Rig<'_, D>,
    node: u64,
    level: u64,
    at: usize,
) -> Result<(u64, Chain), EmFault>
    requires sound { Sound (seen D.state rig.old) }
    requires place { HasPlace (seen D.state rig.old) level node at }
    requires above { 0 < level }
    requires free { 0 < (seen D.state rig.old).pool.free }
    ensures { TakesBuffer (seen D.state rig.old) (seen D.state rig.new) level node at result }
{
    let mut frame = rig.lend();
    let taken = take_out_in(rig, node, level, at, &mut frame);
    rig.give(frame);
    taken
}

/// The same with a frame.
fn take_out_in<D: Device>(
    rig: &mut Rig<'_, D>,
    node: u64,
    level: u64,
    at: usize,
    frame: &mut Frame,
) -> Result<(u64, Chain), EmFault>
    requires sound { Sound (seen D.state rig.old) }
    requires place { HasPlace (seen D.state rig.old) level node at }
    requires above { 0 < level }
    requires len { length frame.old ≡ (seen D.state rig.old).pool.shape.block }
    ensures len { length frame.new ≡ length frame.old }
    ensures takes { TakesBuffer (seen D.state rig.old) (seen D.state rig.new) level node at result }
{
    load_node(rig, node, level, frame)?;
    if !has_place(frame, at) {
        return Err(EmFault::Damaged { block: node });
    }
    let child = child_in(frame, at);
    let buffer = take_in(frame, at);
    rig.store(node, frame)?;
    Ok((child, buffer))
}

/// Whether a node in a frame has an entry at a place.
fn has_place(frame: &Frame, at: usize) -> bool
    requires { IsNode frame.now }
    ensures { IsTrue result ↔ (at < length (entries_of frame.now)) }
{
    at < count(frame)
}

/// Takes the buffer of an entry out of a node that is in a frame.
fn take_in(frame: &mut Frame, at: usize) -> Chain
    requires node { IsNode frame.old }
    requires at { at < length (entries_of frame.old) }
    ensures len { length frame.new ≡ length frame.old }
    ensures is { Is frame.new (level_of frame.old) (unbuffered_at at (entries_of frame.old)) }
    ensures buffer { result ≡ chain_of (get_or (entries_of frame.old) at no_entry).buffer }
{
    let mut entry = entry_at(frame, at);
    let buffer = buffer_of(&entry);
    entry.buffer = Chain::empty().words();
    set_entry(frame, at, entry);
    buffer
}
