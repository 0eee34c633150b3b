//! The blocks of a new tree: a leaf with no record, and a root of level 1 over it.

ghost use Rattle.std.specs.Prelude.{◌≡◌, ◌<◌, ◌≤◌, ◌^◌, [], ◌∷◌, length};
ghost use Rattle.em_space.specs.Rig.{Sound};
ghost use Rattle.em_space.specs.Seen.{seen};
ghost use Rattle.em_node.specs.Node.{Is};
ghost use Rattle.em_tree_model.specs.Ranges.{least_record};
ghost use Rattle.em_balance.specs.Node.{entry_to};
ghost use Rattle.em_trunk.specs.Planting.{Plants};

use em_balance::store_new;
use em_chain::Chain;
use em_frames::{Device, Frame};
use em_node::{Entry, fresh, insert};
use em_record::Record;
use em_space::{EmFault, Rig};
use em_tree_load::put_leaf;

/// Stores both blocks, and answers the number of the root's. At most 4 blocks are moved. After a fault
/// they may stay in use.
pub fn plant<D: Device>(rig: &mut Rig<'_, D>) -> Result<u64, EmFault>
    requires sound { Sound (seen D.state rig.old) }
    requires free { 1 < (seen D.state rig.old).pool.free }
    ensures { Plants (seen D.state rig.old) (seen D.state rig.new) result }
{
    let mut frame = rig.lend();
    let root = plant_in(rig, &mut frame);
    rig.give(frame);
    root
}

/// The same with a frame, in which each block is made.
fn plant_in<D: Device>(rig: &mut Rig<'_, D>, frame: &mut Frame) -> Result<u64, EmFault>
    requires sound { Sound (seen D.state rig.old) }
    requires len { length frame.old ≡ (seen D.state rig.old).pool.shape.block }
    requires free { 0 < (seen D.state rig.old).pool.free }
    ensures len { length frame.new ≡ length frame.old }
    ensures plants { Plants (seen D.state rig.old) (seen D.state rig.new) result }
{
    put_leaf(frame, &Chain::empty());
    let leaf = store_new(rig, frame)?;
    put_first(frame, leaf);
    store_new(rig, frame)
}

/// Makes a frame a node of level 1 over a leaf, with nothing in the leaf's buffer.
fn put_first(frame: &mut Frame, leaf: u64)
    requires room { 5 ≤ length frame.old }
    requires fits { leaf < 2 ^ 40 }
    ensures len { length frame.new ≡ length frame.old }
    ensures is { Is frame.new 1 (entry_to least_record leaf ∷ []) }
{
    fresh(frame, 1);
    insert(
        frame,
        0,
        Entry {
            low: Record::ZERO,
            child: leaf + 1,
            buffer: Chain::empty().words(),
        },
    );
}
