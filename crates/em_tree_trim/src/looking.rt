//! Whether a tree is as small as its records allow: no leaf but an only one has fewer than w·B records, no node below the root
//! fewer than f entries, and a root above level 1 has two.
//!
//! Each node stands in a frame while its children are looked at.

ghost use Rattle.std.specs.Prelude.{◌≡◌, ◌↔◌, ◌<◌, ◌≤◌, ◌*◌, length, IsTrue};
ghost use Rattle.em_record.specs.Shape.{fan_of};
ghost use Rattle.em_frames.specs.Pool.{load_of};
ghost use Rattle.em_node.specs.Node.{IsNode, IsNodeBlock, entries_of};
ghost use Rattle.em_space.specs.Rig.{Sound};
ghost use Rattle.em_space.specs.Seen.{seen};
ghost use Rattle.em_tree_unload.specs.Unloading.{CanUnload};
ghost use Rattle.em_tree_trim.specs.Finding.{CanLook, CanLookBelow, FindsBelow, FindsTree};
ghost use Rattle.em_tree_trim.specs.Looking.{Looks};

use em_chain::Chain;
use em_frames::{Device, Frame};
use em_node::count;
use em_record::Shape;
use em_space::{EmFault, Rig};
use em_tree_load::read_leaf;
use em_tree_walk::{Root, child_in, load_node};

/// Whether a tree, in which nothing waits, is trim. Each node is read, and each leaf's block, up to the first one that is short.
/// Nothing is changed.
///
/// `Full` never comes. `DeviceFault` comes only if the device's count of faults rose, and `Damaged` only over a device that
/// doesn't tell. All frames are back on each way out.
pub fn is_trim<D: Device>(rig: &mut Rig<'_, D>, root: Root) -> Result<bool, EmFault>
    requires sound { Sound (seen D.state rig.old) }
    requires can { CanUnload (seen D.state rig.old) root }
    requires free { root.level < (seen D.state rig.old).pool.free }
    ensures { Looks (seen D.state rig.old) (seen D.state rig.new) root result }
{
    let mut frame = rig.lend();
    let trim = is_root_trim(rig, root, &mut frame);
    rig.give(frame);
    trim
}

/// The same with a frame.
fn is_root_trim<D: Device>(
    rig: &mut Rig<'_, D>,
    root: Root,
    frame: &mut Frame,
) -> Result<bool, EmFault>
    requires sound { Sound (seen D.state rig.old) }
    requires above { 0 < root.level }
    requires can { CanLook (seen D.state rig.old) root.level root.block }
    requires free { root.level ≤ (seen D.state rig.old).pool.free }
    requires len { length frame.old ≡ (seen D.state rig.old).pool.shape.block }
    ensures len { length frame.new ≡ length frame.old }
    ensures looks { Looks (seen D.state rig.old) (seen D.state rig.new) root result }
{
    load_node(rig, root.block, root.level, frame)?;
    if count(frame) == 1 {
        return Ok(is_lowest(root.level));
    }
    are_children_trim(rig, root.level - 1, frame)
}

/// Whether a level is that of nodes over leaves.
fn is_lowest(level: u64) -> bool
    ensures { IsTrue result ↔ (level ≡ 1) }
{
    level == 1
}

/// Whether all children of a node, which is in a frame, are trim: trees of the level below it.
#[cycle(look)]
fn are_children_trim<D: Device>(
    rig: &mut Rig<'_, D>,
    below: u64,
    frame: &Frame,
) -> Result<bool, EmFault>
    requires sound { Sound (seen D.state rig.old) }
    requires node { IsNodeBlock (2 * fan_of (seen D.state rig.old).pool.shape)
        (seen D.state rig.old).blocks frame.now }
    requires can { IsTrue (seen D.state rig.old).device.told
        → CanLookBelow below (seen D.state rig.old) (entries_of frame.now) }
    requires free { below < (seen D.state rig.old).pool.free }
    ensures { FindsBelow (seen D.state rig.old) (seen D.state rig.new) below (entries_of frame.now) result }
{
    for at in 0..count(frame) {
        if !is_child_trim(rig, child_in(frame, at), below)? {
            return Ok(false);
        }
    }
    Ok(true)
}

/// Whether a leaf has w·B records or more, or a node of a level f entries or more, and trim children.
#[cycle(look)]
fn is_child_trim<D: Device>(rig: &mut Rig<'_, D>, block: u64, level: u64) -> Result<bool, EmFault>
    requires sound { Sound (seen D.state rig.old) }
    requires can { CanLook (seen D.state rig.old) level block }
    requires free { level < (seen D.state rig.old).pool.free }
    ensures { FindsTree (seen D.state rig.old) (seen D.state rig.new) level block result }
{
    if level == 0 {
        return is_leaf_trim(rig, block);
    }
    let mut frame = rig.lend();
    let trim = is_node_trim(rig, block, level, &mut frame);
    rig.give(frame);
    trim
}

/// The same of a node, with a frame.
#[cycle(look)]
fn is_node_trim<D: Device>(
    rig: &mut Rig<'_, D>,
    block: u64,
    level: u64,
    frame: &mut Frame,
) -> Result<bool, EmFault>
    requires sound { Sound (seen D.state rig.old) }
    requires can { CanLook (seen D.state rig.old) level block }
    requires above { 0 < level }
    requires free { level ≤ (seen D.state rig.old).pool.free }
    requires len { length frame.old ≡ (seen D.state rig.old).pool.shape.block }
    ensures len { length frame.new ≡ length frame.old }
    ensures finds { FindsTree (seen D.state rig.old) (seen D.state rig.new) level block result }
{
    load_node(rig, block, level, frame)?;
    if !is_fat(frame, &rig.shape()) {
        return Ok(false);
    }
    are_children_trim(rig, level - 1, frame)
}

/// Whether a node has f entries or more.
fn is_fat(frame: &Frame, shape: &Shape) -> bool
    requires { IsNode frame.now }
    ensures { IsTrue result ↔ (fan_of shape.now ≤ length (entries_of frame.now)) }
{
    shape.fan() <= count(frame) as u64
}

/// The same of a leaf.
fn is_leaf_trim<D: Device>(rig: &mut Rig<'_, D>, leaf: u64) -> Result<bool, EmFault>
    requires sound { Sound (seen D.state rig.old) }
    requires can { CanLook (seen D.state rig.old) 0 leaf }
    requires free { 0 < (seen D.state rig.old).pool.free }
    ensures { FindsTree (seen D.state rig.old) (seen D.state rig.new) 0 leaf result }
{
    let stored = read_leaf(rig, leaf)?;
    Ok(is_long(&stored, &rig.shape()))
}

/// Whether a leaf with these records isn't short.
fn is_long(stored: &Chain, shape: &Shape) -> bool
    ensures { IsTrue result ↔ (load_of shape.now ≤ stored.now.count) }
{
    shape.wide() * shape.block() <= stored.len()
}
