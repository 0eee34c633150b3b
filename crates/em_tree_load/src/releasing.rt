//! The blocks of a tree in which nothing waits, released from the leaves up.
//!
//! A node stands in a frame while its children are released, and then goes itself.

ghost use Rattle.std.specs.Prelude.{◌≡◌, ◌<◌, ◌≤◌, length};
ghost use Rattle.em_space.specs.Rig.{Sound};
ghost use Rattle.em_space.specs.Seen.{seen};
ghost use Rattle.em_tree_load.specs.Releases.{CanRelease, ReleasesTree};

use crate::leaf_block::read_leaf;
use em_chain::discard;
use em_frames::{Device, Frame};
use em_node::count;
use em_space::{EmFault, Rig};
use em_tree_walk::{child_in, load_node};

/// Releases the blocks of the tree of a level that stands from a block on. Nothing waits in its
/// buffers. At most two blocks are moved for each block that is released.
///
/// `Full` never comes. `Damaged` comes only over a device that doesn't tell, and `DeviceFault` if the
/// device's count of faults rose; then some of the blocks may be left in use.
#[cycle(release)]
pub fn release_tree<D: Device>(rig: &mut Rig<'_, D>, node: u64, level: u64) -> Result<(), EmFault>
    requires sound { Sound (seen D.state rig.old) }
    requires can { CanRelease (seen D.state rig.old) level node }
    requires free { level < (seen D.state rig.old).pool.free }
    ensures { ReleasesTree (seen D.state rig.old) (seen D.state rig.new) level node result }
{
    if level == 0 {
        return release_leaf(rig, node);
    }
    let mut frame = rig.lend();
    let released = release_node(rig, node, level, &mut frame);
    rig.give(frame);
    released
}

/// The same of a leaf.
fn release_leaf<D: Device>(rig: &mut Rig<'_, D>, leaf: u64) -> Result<(), EmFault>
    requires sound { Sound (seen D.state rig.old) }
    requires can { CanRelease (seen D.state rig.old) 0 leaf }
    requires free { 0 < (seen D.state rig.old).pool.free }
    ensures { ReleasesTree (seen D.state rig.old) (seen D.state rig.new) 0 leaf result }
{
    let stored = read_leaf(rig, leaf)?;
    rig.release(leaf)?;
    discard(rig, stored)
}

/// The same of a node, with a frame.
#[cycle(release)]
fn release_node<D: Device>(
    rig: &mut Rig<'_, D>,
    node: u64,
    level: u64,
    frame: &mut Frame,
) -> Result<(), EmFault>
    requires sound { Sound (seen D.state rig.old) }
    requires can { CanRelease (seen D.state rig.old) level node }
    requires above { 0 < level }
    requires free { level ≤ (seen D.state rig.old).pool.free }
    requires len { length frame.old ≡ (seen D.state rig.old).pool.shape.block }
    ensures len { length frame.new ≡ length frame.old }
    ensures releases { ReleasesTree (seen D.state rig.old) (seen D.state rig.new) level node result }
{
    load_node(rig, node, level, frame)?;
    for at in 0..count(frame) {
        release_tree(rig, child_in(frame, at), level - 1)?;
    }
    rig.release(node)
}
