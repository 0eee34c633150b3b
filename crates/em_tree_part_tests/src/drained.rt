//! A tree's records, which a drain gives in the order of their keys, over a device that doesn't tell what it holds.
ghost use Rattle.std.specs.Prelude.{◌≡◌, ◌+◌, ◌<◌, ◌≤◌, ◌^◌, false};
ghost use Rattle.em_frames.specs.Pool.{SameFrames};
ghost use Rattle.em_space.specs.Rig.{Sound};
ghost use Rattle.em_space.specs.Seen.{seen};
ghost use Rattle.em_tree_part_tests.specs.Drains.{CanDrain, EndsTree, GetsPuts, GivesRecords, HasDrain, HasPuts, IsServing};

use em_bulk::Drain;
use em_devices::{Cost, Quiet, ended, opened};
use em_frames::Device;
use em_record::Record;
use em_settle::MapSettle;
use em_space::{EmFault, Rig};
use em_tree::Tree;
use std::alloc::Global;
use std::test::Fail;

/// A prime above the number of puts, so that each has a key of its own.
pub(crate) const PRIME: u64 = 20_011;

/// The key of the put of this number.
fn key_of(number: u64) -> u64 {
    number % PRIME * 7919 % PRIME
}

/// Pushes the put of this number, whose value is that.
fn push_next<D: Device>(
    rig: &mut Rig<'_, D>,
    tree: &mut Tree<MapSettle>,
    number: u64,
) -> Result<(), EmFault>
    requires has { HasPuts (seen D.state rig.old) tree.old.trunk number }
    requires few { number < 2 ^ 40 }
    ensures { GetsPuts (seen D.state rig.old) (seen D.state rig.new) tree.new.trunk (number + 1) result }
{
    tree.push(
        rig,
        Record {
            a: key_of(number),
            b: number + 1,
            c: 0,
            d: number,
        },
    )
}

/// Pushes this many puts.
pub(crate) fn push_all<D: Device>(
    rig: &mut Rig<'_, D>,
    tree: &mut Tree<MapSettle>,
    puts: u64,
) -> Result<(), EmFault>
    requires has { HasPuts (seen D.state rig.old) tree.old.trunk 0 }
    requires few { puts ≤ 2 ^ 40 }
    ensures { GetsPuts (seen D.state rig.old) (seen D.state rig.new) tree.new.trunk puts result }
{
    for number in 0..puts {
        push_next(rig, tree, number)?;
    }
    Ok(())
}

/// The next record.
fn next<D: Device>(
    rig: &mut Rig<'_, D>,
    drain: &mut Drain<MapSettle>,
) -> Result<Option<Record>, EmFault>
    requires { HasDrain (seen D.state rig.old) drain.old }
    ensures { GivesRecords (seen D.state rig.old) (seen D.state rig.new) drain.new result }
{
    drain.next(rig)
}

/// The records up to this many. With no memory left it notes nothing more, which a test sees.
fn take_all<D: Device>(
    rig: &mut Rig<'_, D>,
    drain: &mut Drain<MapSettle>,
    most: u64,
    given: &mut Vec<Record>,
) -> Result<(), EmFault>
    requires { HasDrain (seen D.state rig.old) drain.old }
    ensures { GivesRecords (seen D.state rig.old) (seen D.state rig.new) drain.new result }
{
    for _ in 0..most {
        let Some(item) = next(rig, drain)? else {
            return Ok(());
        };
        if given.push(item).is_err() {
            return Ok(());
        }
    }
    Ok(())
}

/// The first records of a tree. The others are given up.
pub(crate) fn drain_up_to<D: Device>(
    rig: &mut Rig<'_, D>,
    tree: Tree<MapSettle>,
    most: u64,
    given: &mut Vec<Record>,
) -> Result<(), EmFault>
    requires { CanDrain (seen D.state rig.old) tree.trunk }
    ensures { EndsTree (seen D.state rig.old) (seen D.state rig.new) }
{
    let mut drain = Drain::new(rig, tree);
    match take_all(rig, &mut drain, most, given) {
        Ok(()) => drain.end(rig),
        Err(fault) => {
            drain.abandon(rig);
            Err(fault)
        }
    }
}

/// The first records of a tree that got this many puts.
fn serve<D: Device>(
    rig: &mut Rig<'_, D>,
    puts: u64,
    most: u64,
    given: &mut Vec<Record>,
) -> Result<(), EmFault>
    requires rig { IsServing (seen D.state rig.old) }
    requires free { (seen D.state rig.old).pool.free ≡ 48 }
    requires areas { 1 < (seen D.state rig.old).pool.free_areas }
    requires shape { (seen D.state rig.old).pool.shape.frames ≡ 64 }
    requires few { puts ≤ 2 ^ 40 }
    ensures sound { Sound (seen D.state rig.new) }
    ensures frames { SameFrames (seen D.state rig.old).pool (seen D.state rig.new).pool }
{
    let mut tree = Tree::new(rig, MapSettle {})?;
    match push_all(rig, &mut tree, puts) {
        Ok(()) => drain_up_to(rig, tree, most, given),
        Err(fault) => {
            tree.abandon(rig);
            Err(fault)
        }
    }
}

/// The first records of a tree that got this many puts, and what this cost. This call of the device fails.
fn run(
    alloc: Global,
    puts: u64,
    most: u64,
    failing: u64,
) -> Result<(Result<(), EmFault>, Vec<Record>, Cost), Fail>
    requires { puts ≤ 2 ^ 40 }
{
    let mut device = Quiet::new(alloc, &[failing])?;
    let mut rig = opened(alloc, 4000, &mut device)?;
    let mut given = Vec::new(alloc);
    let told = serve(&mut rig, puts, most, &mut given);
    Ok((told, given, ended(rig)))
}

/// Whether the keys rise, and each record has the value of its key.
fn are_pairs(given: &[Record]) -> bool {
    let mut low = 0;
    for item in given {
        if item.a < low || key_of(item.d) != item.a {
            return false;
        }
        low = item.a.saturating_add(1);
    }
    true
}

/// All records are given, each once. 20000 operations fill 157 blocks, which is three levels at a fan-out of 16. No block stays
/// in use.
#[test]
fn gives_all_records(rt: HostRuntime) -> Result<(), Fail> {
    let (told, given, cost) = run(rt.alloc(), 20_000, 20_001, u64::MAX)?;
    told?;
    assert!(rt; given.len() == 20_000 && are_pairs(&given));
    assert!(rt;
        cost.0 == 0 && cost.2 <= (160 * 158 + 64 + 64 * 158) * 3,
        "moves {}",
        cost.2
    );
    Ok(())
}

/// A tree that got no put isn't asked: its root and its leaf are stored, and each is read and released.
#[test]
fn gives_none(rt: HostRuntime) -> Result<(), Fail> {
    let (told, given, cost) = run(rt.alloc(), 0, 1, u64::MAX)?;
    told?;
    assert!(rt; given.len() == 0);
    assert!(rt; cost.0 == 0 && cost.2 <= 2 + 4);
    Ok(())
}

/// Five of 5000 records are given, the least, and the others are given up.
#[test]
fn gives_the_least_records(rt: HostRuntime) -> Result<(), Fail> {
    let (told, given, cost) = run(rt.alloc(), 5000, 5, u64::MAX)?;
    told?;
    assert!(rt; given.len() == 5 && are_pairs(&given));
    assert!(rt; cost.0 == 0);
    Ok(())
}

/// A call of the device fails while the tree is asked for the last records: those before were given. The frames are back.
#[test]
fn gives_up_after_a_fault(rt: HostRuntime) -> Result<(), Fail> {
    let (told, _all, cost) = run(rt.alloc(), 20_000, 20_001, u64::MAX)?;
    told?;
    let (told, given, _cost) = run(rt.alloc(), 20_000, 20_001, cost.2.saturating_sub(100))?;
    assert!(rt; told.is_err() && are_pairs(&given));
    assert!(rt; given.len() > 0 && given.len() < 20_000);
    Ok(())
}
