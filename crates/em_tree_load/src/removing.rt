//! The first leaf of a tree, taken out of it, with the nodes that lead to nothing else:
//!
//!     before  [0 .. | 7 .. | 12 ..]      the fork: below its first entry each node has one entry
//!     after   [0 .. | 12 ..]             the second entry has become the first one
//!
//! On the new way to the first leaf each node gets the least key as its first low key, so that low keys
//! still rise where a smaller key comes in. Left to the tree: that nothing waits over the leaf.

ghost use Rattle.std.specs.Prelude.{◌≡◌, ◌<◌, drop, length};
ghost use Rattle.em_space.specs.Rig.{Sound};
ghost use Rattle.em_space.specs.Seen.{seen};
ghost use Rattle.em_node.specs.Node.{Is, IsNode, entries_of, level_of};
ghost use Rattle.em_tree_walk.specs.Stands.{LeadsToTree};
ghost use Rattle.em_tree_load.specs.RemovalSteps.{CanDropFirst, CanLowerWay, CanReleaseWay, DropsFirst, LowersNode, LowersWay, ReadsChild, ReleasesNode, ReleasesWay, with_least};
ghost use Rattle.em_tree_load.specs.Removals.{CanRemoveFirst, TakesFirstOut};

use em_frames::{Device, Frame};
use em_node::{count, entry_at, remove, set_entry};
use em_record::Record;
use em_space::{EmFault, Rig};
use em_tree_walk::{Root, child_in, load_node};

/// Takes the first leaf of a tree out, in which nothing is stored and over which nothing waits. The fork is
/// the last node on the way there that has several entries, with its level; nodes and leaf below its first
/// entry are released. On the new way to the first leaf each node begins with the least key afterwards.
///
/// At most 4 blocks are moved for each level of the fork, and one fewer in all. `Full` never comes.
/// `DeviceFault` comes only if the device's count of faults rose, and `Damaged` only over a device that doesn't
/// tell; then the blocks of the fork and of all below it may hold anything and stay in use.
pub fn remove_first<D: Device>(rig: &mut Rig<'_, D>, fork: Root) -> Result<(), EmFault>
    requires sound { Sound (seen D.state rig.old) }
    requires can { CanRemoveFirst (seen D.state rig.old) fork.level fork.block }
    requires above { 0 < fork.level }
    requires free { 0 < (seen D.state rig.old).pool.free }
    ensures { TakesFirstOut (seen D.state rig.old) (seen D.state rig.new) fork.level fork.block result }
{
    let dropped = drop_first(rig, fork.block, fork.level)?;
    let (gone, first) = dropped;
    release_way(rig, gone, fork.level - 1)?;
    lower_way(rig, first, fork.level - 1)
}

/// Takes the first entry of a node out, of several, and stores the node. Answers the block of that entry's
/// child, and that of the next one's.
fn drop_first<D: Device>(rig: &mut Rig<'_, D>, node: u64, level: u64) -> Result<(u64, u64), EmFault>
    requires sound { Sound (seen D.state rig.old) }
    requires can { CanDropFirst (seen D.state rig.old) level node }
    requires above { 0 < level }
    requires free { 0 < (seen D.state rig.old).pool.free }
    ensures { DropsFirst (seen D.state rig.old) (seen D.state rig.new) level node result }
{
    let mut frame = rig.lend();
    let dropped = drop_in(rig, node, level, &mut frame);
    rig.give(frame);
    dropped
}

/// The same with a frame.
fn drop_in<D: Device>(
    rig: &mut Rig<'_, D>,
    node: u64,
    level: u64,
    frame: &mut Frame,
) -> Result<(u64, u64), EmFault>
    requires sound { Sound (seen D.state rig.old) }
    requires can { CanDropFirst (seen D.state rig.old) level node }
    requires above { 0 < level }
    requires len { length frame.old ≡ (seen D.state rig.old).pool.shape.block }
    ensures len { length frame.new ≡ length frame.old }
    ensures drops { DropsFirst (seen D.state rig.old) (seen D.state rig.new) level node result }
{
    load_node(rig, node, level, frame)?;
    if count(frame) < 2 {
        return Err(EmFault::Damaged { block: node });
    }
    let gone = child_in(frame, 0);
    let first = child_in(frame, 1);
    drop_entry(frame);
    rig.store(node, frame)?;
    Ok((gone, first))
}

/// Takes the first entry of a node in a frame out, and lowers the next one.
fn drop_entry(frame: &mut Frame)
    requires node { IsNode frame.old }
    requires several { 1 < length (entries_of frame.old) }
    ensures len { length frame.new ≡ length frame.old }
    ensures is { Is frame.new (level_of frame.old) (with_least (drop 1 (entries_of frame.old))) }
{
    let _gone = remove(frame, 0);
    lower_entry(frame);
}

/// Makes the first low key of a node in a frame the least key.
fn lower_entry(frame: &mut Frame)
    requires node { IsNode frame.old }
    requires some { 0 < length (entries_of frame.old) }
    ensures len { length frame.new ≡ length frame.old }
    ensures is { Is frame.new (level_of frame.old) (with_least (entries_of frame.old)) }
{
    let mut entry = entry_at(frame, 0);
    entry.low = Record::ZERO;
    set_entry(frame, 0, entry);
}

/// Releases a leaf with no record, and the nodes over it from one of a level on, each of which has one
/// entry, with an empty buffer.
fn release_way<D: Device>(rig: &mut Rig<'_, D>, node: u64, level: u64) -> Result<(), EmFault>
    requires sound { Sound (seen D.state rig.old) }
    requires can { CanReleaseWay (seen D.state rig.old) level node }
    requires free { 0 < (seen D.state rig.old).pool.free }
    ensures { ReleasesWay (seen D.state rig.old) (seen D.state rig.new) level node result }
{
    if level == 0 {
        return rig.release(node);
    }
    let child = release_node(rig, node, level)?;
    release_way(rig, child, level - 1)
}

/// Releases a node. Answers the block of its first child.
fn release_node<D: Device>(rig: &mut Rig<'_, D>, node: u64, level: u64) -> Result<u64, EmFault>
    requires sound { Sound (seen D.state rig.old) }
    requires leads { LeadsToTree (seen D.state rig.old) level node }
    requires above { 0 < level }
    requires free { 0 < (seen D.state rig.old).pool.free }
    ensures { ReleasesNode (seen D.state rig.old) (seen D.state rig.new) node result }
{
    let child = first_child(rig, node, level)?;
    rig.release(node)?;
    Ok(child)
}

/// The block of the first child of a node.
fn first_child<D: Device>(rig: &mut Rig<'_, D>, node: u64, level: u64) -> Result<u64, EmFault>
    requires sound { Sound (seen D.state rig.old) }
    requires leads { LeadsToTree (seen D.state rig.old) level node }
    requires above { 0 < level }
    requires free { 0 < (seen D.state rig.old).pool.free }
    ensures { ReadsChild (seen D.state rig.old) (seen D.state rig.new) node result }
{
    let mut frame = rig.lend();
    let child = child_by(rig, node, level, &mut frame);
    rig.give(frame);
    child
}

/// The same with a frame.
fn child_by<D: Device>(
    rig: &mut Rig<'_, D>,
    node: u64,
    level: u64,
    frame: &mut Frame,
) -> Result<u64, EmFault>
    requires sound { Sound (seen D.state rig.old) }
    requires leads { LeadsToTree (seen D.state rig.old) level node }
    requires above { 0 < level }
    requires len { length frame.old ≡ (seen D.state rig.old).pool.shape.block }
    ensures len { length frame.new ≡ length frame.old }
    ensures reads { ReadsChild (seen D.state rig.old) (seen D.state rig.new) node result }
{
    load_node(rig, node, level, frame)?;
    Ok(child_in(frame, 0))
}

/// Makes the least key the first low key of a node of a level, and of each node below it on the way to the
/// first leaf.
fn lower_way<D: Device>(rig: &mut Rig<'_, D>, node: u64, level: u64) -> Result<(), EmFault>
    requires sound { Sound (seen D.state rig.old) }
    requires can { CanLowerWay (seen D.state rig.old) level node }
    requires free { 0 < (seen D.state rig.old).pool.free }
    ensures { LowersWay (seen D.state rig.old) (seen D.state rig.new) level node result }
{
    if level == 0 {
        return Ok(());
    }
    let child = lower_node(rig, node, level)?;
    lower_way(rig, child, level - 1)
}

/// The same of one node. Answers the block of its first child.
fn lower_node<D: Device>(rig: &mut Rig<'_, D>, node: u64, level: u64) -> Result<u64, EmFault>
    requires sound { Sound (seen D.state rig.old) }
    requires leads { LeadsToTree (seen D.state rig.old) level node }
    requires above { 0 < level }
    requires free { 0 < (seen D.state rig.old).pool.free }
    ensures { LowersNode (seen D.state rig.old) (seen D.state rig.new) level node result }
{
    let mut frame = rig.lend();
    let lowered = lower_in(rig, node, level, &mut frame);
    rig.give(frame);
    lowered
}

/// The same with a frame.
fn lower_in<D: Device>(
    rig: &mut Rig<'_, D>,
    node: u64,
    level: u64,
    frame: &mut Frame,
) -> Result<u64, EmFault>
    requires sound { Sound (seen D.state rig.old) }
    requires leads { LeadsToTree (seen D.state rig.old) level node }
    requires above { 0 < level }
    requires len { length frame.old ≡ (seen D.state rig.old).pool.shape.block }
    ensures len { length frame.new ≡ length frame.old }
    ensures lowers { LowersNode (seen D.state rig.old) (seen D.state rig.new) level node result }
{
    load_node(rig, node, level, frame)?;
    let child = child_in(frame, 0);
    lower_entry(frame);
    rig.store(node, frame)?;
    Ok(child)
}
