//! A load: the first operations of a buffer are settled over the stored records of a leaf.

ghost use Rattle.std.specs.Prelude.{◌≡◌, ◌↔◌, ◌<◌, ◌≤◌, length, min, IsTrue};
ghost use Rattle.em_frames.specs.Pool.{load_of};
ghost use Rattle.em_space.specs.Rig.{Sound};
ghost use Rattle.em_space.specs.Seen.{seen};
ghost use Rattle.em_chain.specs.Writer.{WriterHasFrame};
ghost use Rattle.em_leaf.specs.Effects.{loading_room};
ghost use Rattle.em_leaf.specs.Leaf.{CanGrowBy};
ghost use Rattle.em_tree_blocks.specs.Reading.{stored_chain};
ghost use Rattle.em_tree_load.specs.LeafSettles.{CanSettleAt, CanSettleOver, SettlesOver, load_count};
ghost use Rattle.em_tree_load.specs.LoadRoom.{TakesSettling};
ghost use Rattle.em_tree_load.specs.Peaks.{Peaks};

use crate::filling::fill_area;
use crate::leaf_block::read_leaf;
use em_chain::{Chain, Writer};
use em_frames::{Area, Device};
use em_leaf::{LeafChange, apply_load};
use em_record::Shape;
use em_settle::Settle;
use em_space::{EmFault, Rig};

/// The most records that a list may have, and the most blocks.
const MOST: u64 = 1 << 56;

/// Settles the first operations of a buffer, at most w·B, over the stored records of the leaf in a
/// block; their answers are appended. Answers what the leaf becomes, and the rest of the buffer. The
/// leaf's block isn't stored. Over a device that doesn't tell, another block is `Damaged`, and so is a
/// leaf whose load may answer more than a list may have.
pub(crate) fn settle_leaf<D: Device, S: Settle>(
    rig: &mut Rig<'_, D>,
    settle: &S,
    answers: &mut Writer,
    leaf: u64,
    buffer: Chain,
    area: &mut Area,
) -> Result<(LeafChange, Chain), EmFault>
    requires sound { Sound (seen D.state rig.old) }
    requires ready { S.IsReady settle.now }
    requires can { CanSettleAt (S.key_of settle.now) (seen D.state rig.old) leaf buffer
        answers.old }
    requires room { length area.old ≡ load_of (seen D.state rig.old).pool.shape }
    requires free { 6 ≤ (seen D.state rig.old).pool.free }
    ensures frame { WriterHasFrame (seen D.state rig.new) answers.new }
    ensures len { length area.new ≡ length area.old }
    ensures settles { SettlesOver (S.key_of settle.now) (S.step_of settle.now)
        (seen D.state rig.old) (seen D.state rig.new)
        (stored_chain (seen D.state rig.old) leaf) buffer answers.old answers.new 1 result }
    ensures takes { TakesSettling (S.key_of settle.now) (S.step_of settle.now)
        (seen D.state rig.old) (seen D.state rig.new)
        (stored_chain (seen D.state rig.old) leaf) buffer answers.old result }
    ensures peaks { Peaks (loading_room (seen D.state rig.old) (load_count (seen D.state rig.old) buffer))
        (seen D.state rig.old) (seen D.state rig.new) }
{
    let shape = rig.shape();
    let count = count_to_load(&buffer, &shape);
    if !can_grow(answers, count as u64) {
        return Err(EmFault::Damaged { block: leaf });
    }
    let stored = read_leaf(rig, leaf)?;
    settle_stored(rig, settle, answers, stored, buffer, area, count)
}

/// The same over a leaf's chain.
fn settle_stored<D: Device, S: Settle>(
    rig: &mut Rig<'_, D>,
    settle: &S,
    answers: &mut Writer,
    stored: Chain,
    buffer: Chain,
    area: &mut Area,
    count: usize,
) -> Result<(LeafChange, Chain), EmFault>
    requires sound { Sound (seen D.state rig.old) }
    requires ready { S.IsReady settle.now }
    requires can { CanSettleOver (S.key_of settle.now) (seen D.state rig.old) stored buffer
        answers.old }
    requires count { count ≡ load_count (seen D.state rig.old) buffer }
    requires grow { CanGrowBy count answers.old }
    requires room { length area.old ≡ load_of (seen D.state rig.old).pool.shape }
    requires free { 6 ≤ (seen D.state rig.old).pool.free }
    ensures frame { WriterHasFrame (seen D.state rig.new) answers.new }
    ensures len { length area.new ≡ length area.old }
    ensures settles { SettlesOver (S.key_of settle.now) (S.step_of settle.now)
        (seen D.state rig.old) (seen D.state rig.new) stored buffer answers.old answers.new 0
        result }
    ensures takes { TakesSettling (S.key_of settle.now) (S.step_of settle.now)
        (seen D.state rig.old) (seen D.state rig.new) stored buffer answers.old result }
    ensures peaks { Peaks (loading_room (seen D.state rig.old) (load_count (seen D.state rig.old) buffer))
        (seen D.state rig.old) (seen D.state rig.new) }
{
    let rest = fill_area(rig, buffer, area, count)?;
    let change = apply_load(rig, settle, stored, area, count, answers)?;
    Ok((change, rest))
}

/// How many operations a load takes of a buffer.
fn count_to_load(buffer: &Chain, shape: &Shape) -> usize
    ensures { result ≡ min buffer.now.count (load_of shape.now) }
{
    let most = shape.wide() * shape.block();
    if buffer.len() < most {
        buffer.len() as usize
    } else {
        most as usize
    }
}

/// Whether this many records more are within the limits of a list.
fn can_grow(list: &Writer, records: u64) -> bool
    ensures { IsTrue result ↔ CanGrowBy records list.now }
{
    list.len().saturating_add(records) <= MOST && list.blocks().saturating_add(records) <= MOST
}
