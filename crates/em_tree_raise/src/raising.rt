//! Nodes over a list of leaves, level by level, up to a root:
//!
//!     leaves     a b c d e f g
//!     level 1    [a b c] [d e f g]
//!     level 2    [a d]                the root
//!
//! Kept here: each node below the root has f entries or more, and each node fewer than 2·f; the low key of an entry is the first
//! one of the node that it leads to. Left to the tree: what stands in the leaves.

ghost use Rattle.std.specs.Prelude.{◌≡◌, ◌+◌, ◌*◌, ◌/◌, ◌<◌, ◌≤◌, ◌^◌, [], true, IsTrue};
ghost use Rattle.em_record.specs.Shape.{fan_of};
ghost use Rattle.em_space.specs.Rig.{Sound};
ghost use Rattle.em_space.specs.Seen.{seen};
ghost use Rattle.em_chain.specs.Parts.{IsPair};
ghost use Rattle.em_chain.specs.Reader.{IsReader, ReaderHasFrame};
ghost use Rattle.em_chain.specs.Writer.{WriterHasFrame, filled};
ghost use Rattle.em_tree_blocks.specs.Node.{linked_block};
ghost use Rattle.em_tree_raise.specs.Raising.{CanRaise, Raises};
ghost use Rattle.em_tree_raise.specs.Subtrees.{HasLeft};
ghost use Rattle.em_tree_raise.specs.Nodes.{NodeSize, RaisesNodes};
ghost use Rattle.em_tree_raise.specs.Levels.{CanLevel, RaisesFrom, RaisesLevel, WritesLevel};

use crate::filling::{list_node, store_node};
use em_chain::{Chain, Reader, Writer};
use em_frames::Device;
use em_node::Entry;
use em_space::{EmFault, Rig};
use em_tree_walk::Root;

/// Builds the nodes of a tree over a list of leaves, and answers the root. The list's blocks are released, and the blocks
/// of the leaves stay as they are. Four frames must be free.
///
/// At most three blocks are moved for each record of the list, and two more. `Full` comes only if all blocks are in use; over a
/// device that tells only if fewer were free than the list has records. `DeviceFault` comes only if the device's count of
/// faults rose, and `Damaged` only over a device that doesn't tell. After a fault some blocks may stay in use. All frames are
/// back on each way out.
pub fn raise<D: Device>(rig: &mut Rig<'_, D>, list: Chain) -> Result<Root, EmFault>
    requires sound { Sound (seen D.state rig.old) }
    requires can { CanRaise (seen D.state rig.old) list }
    requires free { 4 ≤ (seen D.state rig.old).pool.free }
    ensures { Raises (seen D.state rig.old) (seen D.state rig.new) list result }
{
    raise_from(rig, list, 1)
}

/// The same from a level on, over a list of nodes of the level below.
fn raise_from<D: Device>(rig: &mut Rig<'_, D>, list: Chain, level: u64) -> Result<Root, EmFault>
    requires sound { Sound (seen D.state rig.old) }
    requires can { CanRaise (seen D.state rig.old) list }
    requires level { CanLevel level list.count }
    requires free { 4 ≤ (seen D.state rig.old).pool.free }
    ensures { RaisesFrom (seen D.state rig.old) (seen D.state rig.new) list level result }
{
    let count = list.len() / 2;
    if count < 2 * rig.shape().fan() {
        return raise_root(rig, list, level, count as usize);
    }
    let upper = raise_level(rig, list, level, count)?;
    raise_from(rig, upper, level + 1)
}

/// One node over a whole list.
fn raise_root<D: Device>(
    rig: &mut Rig<'_, D>,
    list: Chain,
    level: u64,
    count: usize,
) -> Result<Root, EmFault>
    requires sound { Sound (seen D.state rig.old) }
    requires can { CanRaise (seen D.state rig.old) list }
    requires level { CanLevel level list.count }
    requires all { count ≡ list.count / 2 }
    requires few { count < 2 * fan_of (seen D.state rig.old).pool.shape }
    requires free { 4 ≤ (seen D.state rig.old).pool.free }
    ensures { RaisesFrom (seen D.state rig.old) (seen D.state rig.new) list level result }
{
    let mut reader = Reader::taking(rig, list);
    let node = store_node(rig, &mut reader, level, count);
    reader.abandon(rig);
    match node {
        Ok(entry) => Ok(root_of(entry, level)),
        Err(fault) => Err(fault),
    }
}

/// The root to which an entry leads.
fn root_of(entry: Entry, level: u64) -> Root
    requires { 1 ≤ entry.child }
    ensures block { result.block ≡ linked_block entry.child }
    ensures level { result.level ≡ level }
{
    Root {
        block: entry.child - 1,
        level,
    }
}

/// The nodes of a level over a list, as a list.
fn raise_level<D: Device>(
    rig: &mut Rig<'_, D>,
    list: Chain,
    level: u64,
    count: u64,
) -> Result<Chain, EmFault>
    requires sound { Sound (seen D.state rig.old) }
    requires can { CanRaise (seen D.state rig.old) list }
    requires level { level ≤ 63 }
    requires all { count ≡ list.count / 2 }
    requires many { 2 * fan_of (seen D.state rig.old).pool.shape ≤ count }
    requires free { 4 ≤ (seen D.state rig.old).pool.free }
    ensures { RaisesLevel (seen D.state rig.old) (seen D.state rig.new) list level result }
{
    let mut reader = Reader::taking(rig, list);
    let upper = write_level(rig, &mut reader, level, count);
    reader.abandon(rig);
    upper
}

/// The same by a reader.
fn write_level<D: Device>(
    rig: &mut Rig<'_, D>,
    list: &mut Reader,
    level: u64,
    count: u64,
) -> Result<Chain, EmFault>
    requires sound { Sound (seen D.state rig.old) }
    requires is { IsReader (seen D.state rig.old) list.old }
    requires taking { list.old.taking ≡ true }
    requires level { level ≤ 63 }
    requires many { fan_of (seen D.state rig.old).pool.shape ≤ count }
    requires few { count ≤ 2 ^ 55 }
    requires left { IsTrue (seen D.state rig.old).device.told
        → HasLeft (seen D.state rig.old) list.old [] count }
    requires free { 2 < (seen D.state rig.old).pool.free }
    ensures reader { ReaderHasFrame (seen D.state rig.new) list.new }
    ensures writes { WritesLevel (seen D.state rig.old) (seen D.state rig.new) list.old list.new
        level count result }
{
    let mut upper = Writer::new(rig);
    match raise_nodes(rig, list, level, count, &mut upper) {
        Ok(()) => upper.finish(rig),
        Err(fault) => {
            upper.abandon(rig);
            Err(fault)
        }
    }
}

/// The same by a reader and a writer.
fn raise_nodes<D: Device>(
    rig: &mut Rig<'_, D>,
    list: &mut Reader,
    level: u64,
    count: u64,
    upper: &mut Writer,
) -> Result<(), EmFault>
    requires sound { Sound (seen D.state rig.old) }
    requires pair { IsPair (seen D.state rig.old) list.old upper.old }
    requires level { level ≤ 63 }
    requires many { fan_of (seen D.state rig.old).pool.shape ≤ count }
    requires left { IsTrue (seen D.state rig.old).device.told
        → HasLeft (seen D.state rig.old) list.old [] count }
    requires count { upper.old.count + count ≤ 2 ^ 56 }
    requires blocks { filled (seen D.state rig.old) upper.old + count ≤ 2 ^ 56 }
    requires free { 1 < (seen D.state rig.old).pool.free }
    ensures reader { ReaderHasFrame (seen D.state rig.new) list.new }
    ensures writer { WriterHasFrame (seen D.state rig.new) upper.new }
    ensures raises { RaisesNodes (seen D.state rig.old) (seen D.state rig.new) list.old list.new
        upper.old upper.new level count result }
{
    let fan = rig.shape().fan();
    let mut left = count;
    while left > 0 {
        let next = node_size(left, fan);
        list_node(rig, list, level, next as usize, upper)?;
        left -= next;
    }
    Ok(())
}

/// How many of `left` subtrees the next node gets: all if they fit into one, else f and a half, and so few that f are left.
fn node_size(left: u64, fan: u64) -> u64
    requires some { fan ≤ left }
    requires low { 2 ≤ fan }
    requires high { fan ≤ 2 ^ 32 }
    ensures { NodeSize fan left result }
{
    if left < 2 * fan {
        return left;
    }
    (fan + fan / 2).min(left - fan)
}
