//! Trees that a builder made, to which puts come, over a device that doesn't tell what it holds.
ghost use Rattle.std.specs.Prelude.{◌≡◌, ◌<◌, ◌≤◌, ◌^◌};
ghost use Rattle.em_frames.specs.Pool.{SameFrames};
ghost use Rattle.em_space.specs.Rig.{Sound};
ghost use Rattle.em_space.specs.Seen.{seen};
ghost use Rattle.em_tree_part_tests.specs.Drains.{HasPuts, IsServing, SettlesPuts};

use crate::built::build;
use crate::drained::{PRIME, drain_up_to, push_all};
use em_devices::{Cost, Quiet, ended, opened};
use em_frames::Device;
use em_record::Record;
use em_settle::MapSettle;
use em_space::{EmFault, Rig};
use em_tree::Tree;
use std::alloc::Global;
use std::test::Fail;

/// 7919 * 1031 = 408 * 20,011 + 1: the put with key K has the number K * 1031 modulo that prime.
const INVERSE: u64 = 1031;

/// Pushes this many puts, and settles all.
fn push_more<D: Device>(
    rig: &mut Rig<'_, D>,
    tree: &mut Tree<MapSettle>,
    puts: u64,
) -> Result<(), EmFault>
    requires has { HasPuts (seen D.state rig.old) tree.old.trunk 0 }
    requires few { puts ≤ 2 ^ 40 }
    ensures { SettlesPuts (seen D.state rig.old) (seen D.state rig.new) tree.new.trunk result }
{
    push_all(rig, tree, puts)?;
    tree.settle_all(rig)
}

/// All records of a tree of this many pairs, to which this many puts came.
fn serve<D: Device>(
    rig: &mut Rig<'_, D>,
    pairs: u64,
    puts: u64,
    given: &mut Vec<Record>,
) -> Result<(), EmFault>
    requires rig { IsServing (seen D.state rig.old) }
    requires free { (seen D.state rig.old).pool.free ≡ 48 }
    requires areas { 1 < (seen D.state rig.old).pool.free_areas }
    requires shape { (seen D.state rig.old).pool.shape.frames ≡ 64 }
    requires pairs { pairs ≤ 2 ^ 40 }
    requires puts { puts ≤ 2 ^ 40 }
    ensures sound { Sound (seen D.state rig.new) }
    ensures frames { SameFrames (seen D.state rig.old).pool (seen D.state rig.new).pool }
{
    let mut tree = build(rig, pairs)?;
    match push_more(rig, &mut tree, puts) {
        Ok(()) => drain_up_to(rig, tree, 100_000, given),
        Err(fault) => {
            tree.abandon(rig);
            Err(fault)
        }
    }
}

/// All records of such a tree, and what this cost.
fn run(alloc: Global, pairs: u64, puts: u64) -> Result<(Vec<Record>, Cost), Fail>
    requires pairs { pairs ≤ 2 ^ 40 }
    requires puts { puts ≤ 2 ^ 40 }
{
    let mut device = Quiet::new(alloc, &[])?;
    let mut rig = opened(alloc, 4000, &mut device)?;
    let mut given = Vec::new(alloc);
    let told = serve(&mut rig, pairs, puts, &mut given);
    let cost = ended(rig);
    told?;
    Ok((given, cost))
}

/// The value of a key: that of its put, whose number is below `puts`, or else of its pair, if the key is 3 times a number below
/// `pairs`. Else u64::MAX.
fn value_of(key: u64, pairs: u64, puts: u64) -> u64 {
    let number = key % PRIME * INVERSE % PRIME;
    if key < PRIME && number < puts {
        number
    } else if key % 3 == 0 && key / 3 < pairs {
        key / 3
    } else {
        u64::MAX
    }
}

/// Whether the keys rise, and each record has the value of its key.
fn are_right(given: &[Record], pairs: u64, puts: u64) -> bool {
    let mut low = 0;
    for item in given {
        if item.a < low || item.d == u64::MAX || item.d != value_of(item.a, pairs, puts) {
            return false;
        }
        low = item.a.saturating_add(1);
    }
    true
}

/// Of 1000 puts 334 have a key of 20,000 pairs, which then has the put's value, and 666 have another one. No block stays in use.
/// The builder makes at most 12 * (157 + 1) moves, and the tree, with all 21,000 records in 165 blocks on three levels, at most
/// (160 * 166 + 64 + 64 * 2 * 166) * 3: it is reset once, and settled and finished.
#[test]
fn gives_pairs_and_puts(rt: HostRuntime) -> Result<(), Fail> {
    let (given, cost) = run(rt.alloc(), 20_000, 1000)?;
    assert!(rt; given.len() == 20_666 && are_right(&given, 20_000, 1000));
    assert!(rt;
        cost.0 == 0 && cost.2 <= 12 * 158 + (160 * 166 + 64 + 64 * 2 * 166) * 3,
        "moves {}",
        cost.2
    );
    Ok(())
}

/// With no put a tree gives its pairs as they came, also if it has none, one, a full leaf, or one more.
#[test]
fn gives_pairs(rt: HostRuntime) -> Result<(), Fail> {
    for pairs in [0, 1, 2048, 2049] {
        let (given, cost) = run(rt.alloc(), pairs, 0)?;
        assert!(rt; given.len() as u64 == pairs && are_right(&given, pairs, 0));
        assert!(rt; cost.0 == 0);
    }
    Ok(())
}

/// Of 10 puts one has the key 0, which is that of the first pair.
#[test]
fn gives_few_pairs_and_puts(rt: HostRuntime) -> Result<(), Fail> {
    let (given, _cost) = run(rt.alloc(), 0, 10)?;
    assert!(rt; given.len() == 10 && are_right(&given, 0, 10));
    let (given, _cost) = run(rt.alloc(), 1, 10)?;
    assert!(rt; given.len() == 10 && are_right(&given, 1, 10));
    let (given, _cost) = run(rt.alloc(), 2049, 10)?;
    assert!(rt; given.len() == 2058 && are_right(&given, 2049, 10));
    Ok(())
}
