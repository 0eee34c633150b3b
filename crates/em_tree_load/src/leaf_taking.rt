//! The first records of a leaf, taken out of it into an area: all of them, or whole blocks, so that what
//! is left still begins with the first record of a block.

ghost use Rattle.std.specs.Prelude.{◌≡◌, ◌+◌, ◌<◌, ◌≤◌, length};
ghost use Rattle.em_record.specs.Shape.{payload_of};
ghost use Rattle.em_space.specs.Rig.{Sound};
ghost use Rattle.em_space.specs.Seen.{seen};
ghost use Rattle.em_tree_load.specs.LeafTakes.{CanTakeLeaf, TakesLeaf, taken_count};

use crate::filling::fill_from;
use crate::leaf_block::store_leaf;
use em_chain::Chain;
use em_frames::{Area, Device};
use em_record::Shape;
use em_space::{EmFault, Rig};

/// Takes at most `most` records out of a leaf with this chain, the first ones, into an area from a place
/// on: all that there are, or if these are more, as many as fill whole blocks. Answers how many. The
/// others stay in the leaf. A leaf of which all are taken has an empty chain.
///
/// Each block that is left over is released, by two moves at most, and the leaf's block is stored. `Full`
/// never comes. `DeviceFault` comes only if the device's count of faults rose, and `Damaged` only over a device
/// that doesn't tell; then the leaf's blocks may hold anything and stay in use.
pub fn take_leaf<D: Device>(
    rig: &mut Rig<'_, D>,
    leaf: u64,
    stored: Chain,
    into: &mut Area,
    from: usize,
    most: usize,
) -> Result<usize, EmFault>
    requires sound { Sound (seen D.state rig.old) }
    requires can { CanTakeLeaf (seen D.state rig.old) leaf stored }
    requires room { from + most ≤ length into.old }
    requires free { 1 < (seen D.state rig.old).pool.free }
    ensures len { length into.new ≡ length into.old }
    ensures takes { TakesLeaf (seen D.state rig.old) (seen D.state rig.new) leaf stored into.old
        into.new from most result }
{
    let count = count_to_take(&stored, most, &rig.shape());
    let rest = fill_from(rig, stored, into, from, count)?;
    store_leaf(rig, leaf, &rest)?;
    Ok(count)
}

/// How many records are taken out of a leaf.
fn count_to_take(stored: &Chain, most: usize, shape: &Shape) -> usize
    ensures { result ≡ taken_count (payload_of shape.now) most stored.now.count }
{
    if stored.len() <= most as u64 {
        return stored.len() as usize;
    }
    most - most % shape.payload() as usize
}
