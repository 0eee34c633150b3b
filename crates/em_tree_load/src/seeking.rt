//! The first leaf of a tree, found by the first entry of each node.

ghost use Rattle.std.specs.Prelude.{◌≡◌, ◌<◌, ◌≤◌, length};
ghost use Rattle.em_space.specs.Rig.{Sound};
ghost use Rattle.em_space.specs.Seen.{seen};
ghost use Rattle.em_tree_load.specs.FirstLeaves.{CanFindFirst, FindsFirst, FindsWay, IsForkFrom, IsOwnFork};
ghost use Rattle.em_tree_walk.specs.Stands.{LeadsToTree};

use crate::leaf_block::read_leaf;
use em_chain::Chain;
use em_frames::{Device, Frame};
use em_node::count;
use em_space::{EmFault, Rig};
use em_tree_walk::{Root, child_in, load_node};

/// The first leaf of a tree.
#[derive(Drop)]
pub struct FirstLeaf {
    /// The number of its block.
    pub leaf: u64,
    /// The chain of its records.
    pub stored: Chain,
    /// The last node on the way there that has several entries, and its level. There is none if the
    /// tree has one leaf alone.
    pub fork: Option<Root>,
}

/// The same without the chain.
#[derive(Drop)]
pub(crate) struct FirstWay {
    pub(crate) leaf: u64,
    pub(crate) fork: Option<Root>,
}

/// Finds the first leaf of a tree, by one move at most for each level and one for the leaf. Nothing is
/// changed.
///
/// `Full` never comes. `DeviceFault` comes only if the device's count of faults rose, and `Damaged` only over a
/// device that doesn't tell.
pub fn first_leaf<D: Device>(
    rig: &mut Rig<'_, D>,
    root: u64,
    level: u64,
) -> Result<FirstLeaf, EmFault>
    requires sound { Sound (seen D.state rig.old) }
    requires can { CanFindFirst (seen D.state rig.old) level root }
    requires free { 0 < (seen D.state rig.old).pool.free }
    ensures { FindsFirst (seen D.state rig.old) (seen D.state rig.new) level root result }
{
    let way = find_way(rig, root, level)?;
    let FirstWay { leaf, fork } = way;
    let stored = read_leaf(rig, leaf)?;
    Ok(FirstLeaf { leaf, stored, fork })
}

/// The way there.
fn find_way<D: Device>(rig: &mut Rig<'_, D>, root: u64, level: u64) -> Result<FirstWay, EmFault>
    requires sound { Sound (seen D.state rig.old) }
    requires leads { LeadsToTree (seen D.state rig.old) level root }
    requires free { 0 < (seen D.state rig.old).pool.free }
    ensures { FindsWay (seen D.state rig.old) (seen D.state rig.new) level root result }
{
    let mut frame = rig.lend();
    let way = first_way(rig, root, level, &mut frame);
    rig.give(frame);
    way
}

/// The same with a frame, from a node of a level on.
fn first_way<D: Device>(
    rig: &mut Rig<'_, D>,
    node: u64,
    level: u64,
    frame: &mut Frame,
) -> Result<FirstWay, EmFault>
    requires sound { Sound (seen D.state rig.old) }
    requires leads { LeadsToTree (seen D.state rig.old) level node }
    requires len { length frame.old ≡ (seen D.state rig.old).pool.shape.block }
    ensures len { length frame.new ≡ length frame.old }
    ensures finds { FindsWay (seen D.state rig.old) (seen D.state rig.new) level node result }
{
    if level == 0 {
        return Ok(FirstWay {
            leaf: node,
            fork: None,
        });
    }
    load_node(rig, node, level, frame)?;
    let entries = count(frame);
    let child = child_in(frame, 0);
    let below = first_way(rig, child, level - 1, frame)?;
    Ok(joined(node, level, entries, below))
}

/// The way from a node of this number of entries, by the way from its first child.
fn joined(node: u64, level: u64, entries: usize, below: FirstWay) -> FirstWay
    ensures leaf { result.leaf ≡ below.leaf }
    ensures fork { IsForkFrom level node entries below.fork result.fork }
{
    let FirstWay { leaf, fork } = below;
    let fork = match fork {
        Some(lower) => Some(lower),
        None => own_fork(node, level, entries),
    };
    FirstWay { leaf, fork }
}

/// A node as a fork, if it has several entries.
fn own_fork(node: u64, level: u64, entries: usize) -> Option<Root>
    ensures { IsOwnFork level node entries result }
{
    if entries > 1 {
        Some(Root { block: node, level })
    } else {
        None
    }
}
