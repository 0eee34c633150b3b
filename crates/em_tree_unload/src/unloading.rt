//! The first leaf of a tree in which nothing waits, taken out of it with its records:
//!
//!     before  [. 7 12]  over leaves  [2 5] [7 9] [12]
//!     after   [. 12]    over leaves  [7 9] [12]           and the chain [2 5]
//!
//! Nodes that lead to nothing else go with it. Of the last leaf all blocks of the tree go.

ghost use Rattle.std.specs.Prelude.{◌≡◌, ◌<◌, ◌≤◌};
ghost use Rattle.em_space.specs.Rig.{Sound};
ghost use Rattle.em_space.specs.Seen.{seen};
ghost use Rattle.em_tree_unload.specs.Emptying.{CanRemoveEmpty, EmptiesFirst, RemovesEmpty};
ghost use Rattle.em_tree_unload.specs.Unloading.{CanUnload, Unloads};

use em_chain::Chain;
use em_frames::Device;
use em_space::{EmFault, Rig};
use em_tree_load::{FirstLeaf, first_leaf, release_tree, remove_first, store_leaf};
use em_tree_walk::Root;

/// A leaf that was taken out of a tree.
#[derive(Drop)]
pub struct Unloaded {
    /// Its records.
    pub stored: Chain,
    /// Whether the tree has another leaf. If not, all its blocks were released.
    pub more: bool,
}

/// Takes the first leaf out of a tree in which nothing waits. The root's block and its level stay, as long as there is
/// a leaf.
///
/// At most 5 blocks are moved for each level, and 3 more. `Full` never comes. `DeviceFault` comes only if the device's
/// count of faults rose, and `Damaged` only over a device that doesn't tell; then the tree's blocks may hold anything.
/// All frames are back on each way out.
pub fn take_first_leaf<D: Device>(rig: &mut Rig<'_, D>, root: Root) -> Result<Unloaded, EmFault>
    requires sound { Sound (seen D.state rig.old) }
    requires can { CanUnload (seen D.state rig.old) root }
    requires free { root.level < (seen D.state rig.old).pool.free }
    ensures { Unloads (seen D.state rig.old) (seen D.state rig.new) root result }
{
    let first = empty_first(rig, root)?;
    let FirstLeaf {
        leaf: _,
        stored,
        fork,
    } = first;
    let more = remove_empty(rig, root, fork)?;
    Ok(Unloaded { stored, more })
}

/// Finds the first leaf, and stores one with no record in its block. Its chain is the caller's then.
fn empty_first<D: Device>(rig: &mut Rig<'_, D>, root: Root) -> Result<FirstLeaf, EmFault>
    requires sound { Sound (seen D.state rig.old) }
    requires can { CanUnload (seen D.state rig.old) root }
    requires free { root.level < (seen D.state rig.old).pool.free }
    ensures { EmptiesFirst (seen D.state rig.old) (seen D.state rig.new) root result }
{
    let first = first_leaf(rig, root.block, root.level)?;
    store_leaf(rig, first.leaf, &Chain::empty())?;
    Ok(first)
}

/// Removes a first leaf with no record: at the last fork on the way there, or with all blocks of the tree. Answers
/// whether there is another leaf.
fn remove_empty<D: Device>(
    rig: &mut Rig<'_, D>,
    root: Root,
    fork: Option<Root>,
) -> Result<bool, EmFault>
    requires sound { Sound (seen D.state rig.old) }
    requires can { CanRemoveEmpty (seen D.state rig.old) root fork }
    requires free { root.level < (seen D.state rig.old).pool.free }
    ensures { RemovesEmpty (seen D.state rig.old) (seen D.state rig.new) root result }
{
    match fork {
        Some(fork) => {
            remove_first(rig, fork)?;
            Ok(true)
        }
        None => {
            release_tree(rig, root.block, root.level)?;
            Ok(false)
        }
    }
}
