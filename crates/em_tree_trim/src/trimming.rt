//! A tree, made anew over its leaves, of which the short ones are joined to their neighbours. If leaves of one record are short:
//!
//!     before   [2 3] [4] [5 6] [7] [8] [9 10]    under nodes of any size
//!     after    [2 3 4] [5 6 7 8] [9 10]          under new nodes
//!
//! Kept here: the records and their order. Left to the tree: that nothing waits in it.

ghost use Rattle.std.specs.Prelude.{◌+◌, ◌*◌, ◌≤◌};
ghost use Rattle.em_record.specs.Shape.{fan_of};
ghost use Rattle.em_space.specs.Rig.{Sound};
ghost use Rattle.em_space.specs.Seen.{seen};
ghost use Rattle.em_tree_trim.specs.Listings.{ListsJoined};
ghost use Rattle.em_tree_trim.specs.Trimming.{CanTrim, Trims};

use crate::joining::list_leaves;
use em_chain::{Chain, Writer};
use em_frames::Device;
use em_settle::Settle;
use em_space::{EmFault, Rig};
use em_tree_raise::raise;
use em_tree_walk::Root;

/// Makes a tree, in which nothing waits, as small as its records allow, and answers its new root: each leaf has w·B records or
/// more unless it is the only one, each node below the root f entries or more, and a root above level 1 has two. Two
/// neighbouring leaves of which one is short become one, or share their records; the nodes are built anew over the leaves.
///
/// `Full` comes only if all blocks are in use; over a device that tells only if fewer were free than 4 for each leaf, and 4 more.
/// `DeviceFault` comes only if the device's count of faults rose, and `Damaged` only over a device that doesn't tell. After a
/// fault the tree's blocks may hold anything. All frames are back on each way out.
pub fn trim_tree<D: Device, S: Settle>(
    rig: &mut Rig<'_, D>,
    settle: &S,
    root: Root,
) -> Result<Root, EmFault>
    requires sound { Sound (seen D.state rig.old) }
    requires ready { S.IsReady settle.now }
    requires can { CanTrim (S.key_of settle.now) (seen D.state rig.old) root }
    requires few { root.level ≤ 24 }
    requires free { 2 * fan_of (seen D.state rig.old).pool.shape + 3 ≤ (seen D.state rig.old).pool.free }
    ensures { Trims (S.key_of settle.now) (seen D.state rig.old) (seen D.state rig.new) root result }
{
    let list = list_joined(rig, settle, root)?;
    raise(rig, list)
}

/// The leaves of the tree, joined, as a list.
fn list_joined<D: Device, S: Settle>(
    rig: &mut Rig<'_, D>,
    settle: &S,
    root: Root,
) -> Result<Chain, EmFault>
    requires sound { Sound (seen D.state rig.old) }
    requires ready { S.IsReady settle.now }
    requires can { CanTrim (S.key_of settle.now) (seen D.state rig.old) root }
    requires few { root.level ≤ 24 }
    requires free { 2 * fan_of (seen D.state rig.old).pool.shape + 3 ≤ (seen D.state rig.old).pool.free }
    ensures { ListsJoined (S.key_of settle.now) (seen D.state rig.old) (seen D.state rig.new) root result }
{
    let mut list = Writer::new(rig);
    match list_leaves(rig, settle, root, &mut list) {
        Ok(()) => list.finish(rig),
        Err(fault) => {
            list.abandon(rig);
            Err(fault)
        }
    }
}
