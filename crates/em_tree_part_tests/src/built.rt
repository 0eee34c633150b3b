//! Trees that a builder makes of pairs with keys 0, 3, 6 and so on, over a device that tells.
ghost use Rattle.std.specs.Prelude.{◌≡◌, ◌+◌, ◌<◌, ◌≤◌, ◌^◌};
ghost use Rattle.em_frames.specs.Pool.{SameFrames};
ghost use Rattle.em_space.specs.Rig.{Sound};
ghost use Rattle.em_space.specs.Seen.{seen};
ghost use Rattle.em_tree_part_tests.specs.Builders.{GetsPairs, GetsTree, HasPairs};

use em_bulk::Builder;
use em_devices::{ended, opened};
use em_frames::{Device, MemDevice};
use em_settle::MapSettle;
use em_space::{EmFault, Rig};
use em_tree::Tree;
use std::alloc::Global;
use std::test::Fail;

/// Pushes the pair with this number.
fn push_next<D: Device>(
    rig: &mut Rig<'_, D>,
    builder: &mut Builder,
    number: u64,
) -> Result<(), EmFault>
    requires has { HasPairs (seen D.state rig.old) builder.old number }
    requires few { number < 2 ^ 40 }
    ensures { GetsPairs (seen D.state rig.old) (seen D.state rig.new) builder.new (number + 1) result }
{
    builder.push(rig, 3 * number, number)
}

/// Pushes so many pairs.
fn push_all<D: Device>(
    rig: &mut Rig<'_, D>,
    builder: &mut Builder,
    pairs: u64,
) -> Result<(), EmFault>
    requires has { HasPairs (seen D.state rig.old) builder.old 0 }
    requires few { pairs ≤ 2 ^ 40 }
    ensures { GetsPairs (seen D.state rig.old) (seen D.state rig.new) builder.new pairs result }
{
    for number in 0..pairs {
        push_next(rig, builder, number)?;
    }
    Ok(())
}

/// Makes a tree of so many pairs.
pub(crate) fn build<D: Device>(rig: &mut Rig<'_, D>, pairs: u64) -> Result<Tree<MapSettle>, EmFault>
    requires sound { Sound (seen D.state rig.old) }
    requires free { 8 ≤ (seen D.state rig.old).pool.free }
    requires few { pairs ≤ 2 ^ 40 }
    ensures { GetsTree (seen D.state rig.old) (seen D.state rig.new) pairs result }
{
    let mut builder = Builder::new(rig);
    match push_all(rig, &mut builder, pairs) {
        Ok(()) => builder.finish(rig, MapSettle {}),
        Err(fault) => {
            builder.abandon(rig);
            Err(fault)
        }
    }
}

/// The level of a tree of so many pairs, whose blocks stay in use.
fn level_of<D: Device>(rig: &mut Rig<'_, D>, pairs: u64) -> Result<u64, EmFault>
    requires sound { Sound (seen D.state rig.old) }
    requires free { 8 ≤ (seen D.state rig.old).pool.free }
    requires few { pairs ≤ 2 ^ 40 }
    ensures sound { Sound (seen D.state rig.new) }
    ensures frames { SameFrames (seen D.state rig.old).pool (seen D.state rig.new).pool }
{
    let tree = build(rig, pairs)?;
    let level = tree.height();
    tree.abandon(rig);
    Ok(level)
}

/// The level of a tree of so many pairs, and the blocks and moves that it took.
fn run(alloc: Global, pairs: u64) -> Result<(u64, u64, u64), Fail>
    requires { pairs ≤ 2 ^ 40 }
{
    let mut device = MemDevice::new(alloc, &[])?;
    let mut rig = opened(alloc, 4000, &mut device)?;
    let built = level_of(&mut rig, pairs);
    let (used, _most, moves, _frames) = ended(rig);
    match built {
        Ok(level) => Ok((level, used, moves)),
        Err(fault) => Err(fault.into()),
    }
}

/// A tree of no pair is a root and a leaf, each stored once. Else the list of leaves is stored and read, too. A full leaf has
/// 2048 records, which are 17 blocks of 127 and fewer.
#[test]
fn builds_one_leaf(rt: HostRuntime) -> Result<(), Fail> {
    assert_eq!(rt; run(rt.alloc(), 0)?, (1, 2, 2));
    assert_eq!(rt; run(rt.alloc(), 1)?, (1, 3, 5));
    assert_eq!(rt; run(rt.alloc(), 2048)?, (1, 19, 21));
    Ok(())
}

/// 2048 records and 1 are one leaf of 17 blocks, and 2048 and 1023 one of 25. All 2049 fill 17 blocks of 128, so the moves are at
/// most 12 * (17 + 1), and all 3071 fill 24.
#[test]
fn joins_a_short_leaf(rt: HostRuntime) -> Result<(), Fail> {
    let (level, used, moves) = run(rt.alloc(), 2049)?;
    assert_eq!(rt; (level, used), (1, 19));
    assert!(rt; moves <= 216, "moves {moves}");
    let (level, used, moves) = run(rt.alloc(), 3071)?;
    assert_eq!(rt; (level, used), (1, 27));
    assert!(rt; moves <= 300, "moves {moves}");
    Ok(())
}

/// 2048 records and 1024 are two leaves, of 17 blocks and 9. Nine of 2048 are 153 blocks, and 1568 are 13. Each leaf has a block
/// more, and so has the root. Each block is stored once, and the list of leaves is stored and read. That is less than
/// 12 * (157 + 1) moves, for 20,000 records fill 157 blocks of 128.
#[test]
fn builds_leaves(rt: HostRuntime) -> Result<(), Fail> {
    assert_eq!(rt; run(rt.alloc(), 3072)?, (1, 29, 31));
    assert_eq!(rt; run(rt.alloc(), 20000)?, (1, 177, 179));
    Ok(())
}
