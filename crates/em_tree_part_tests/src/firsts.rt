//! The first leaf of a tree of three: its records taken, and the leaf taken out.
//!
//!     level 2    block 8: 0 .. | 700 ..
//!     level 1    block 6: 0 ..            block 7: 700 .. | 900 ..
//!     leaves     block 1: 5, 7, 9         block 3: 700    block 5: 900
ghost use Rattle.std.specs.Prelude.{◌≡◌, ◌+◌, ◌<◌, ◌≤◌, length, IfOk};
ghost use Rattle.em_space.specs.Seen.{seen};
ghost use Rattle.em_tree_part_tests.specs.Ready.{IsReady, IsSmall, Keeps};

use crate::blocks::{begins_with, entry_in, record, store_leaf, store_node};
use crate::calls::Call;
use crate::rows::{Answer, NONE, first_unfaulted, first_wrong_row};
use em_frames::{Area, Device};
use em_record::Record;
use em_space::{EmFault, Rig};
use em_tree_load::{FirstLeaf, first_leaf, remove_first, take_leaf};
use std::test::Fail;

/// The records of the first leaf of the three.
fn three() -> [Record; 3] {
    [
        record(5, 0, 0, 50),
        record(7, 0, 0, 70),
        record(9, 0, 0, 90),
    ]
}

/// Stores the three leaves, and answers their blocks.
#[tactic(auto, using(crate::proofs::Ready::kept))]
fn store_leaves<D: Device>(rig: &mut Rig<'_, D>) -> Result<(u64, u64, u64), EmFault>
    requires ready { IsReady (seen D.state rig.old) }
    ensures keeps { Keeps (seen D.state rig.old) (seen D.state rig.new) }
{
    let first = store_leaf(rig, &three())?;
    let second = store_leaf(rig, &[record(700, 0, 0, 1)])?;
    let third = store_leaf(rig, &[record(900, 0, 0, 2)])?;
    Ok((first, second, third))
}

/// Stores the nodes over three leaves, and answers the block of the root.
#[tactic(auto, using(crate::proofs::Ready::kept))]
fn store_nodes<D: Device>(
    rig: &mut Rig<'_, D>,
    first: u64,
    second: u64,
    third: u64,
) -> Result<u64, EmFault>
    requires ready { IsReady (seen D.state rig.old) }
    ensures keeps { Keeps (seen D.state rig.old) (seen D.state rig.new) }
    ensures below { IfOk result (λ block. block < (seen D.state rig.old).blocks) }
{
    let none = [0; 5];
    let lower = store_node(rig, 1, &[(0, first, none)])?;
    let upper = store_node(rig, 1, &[(700, second, none), (900, third, none)])?;
    store_node(rig, 2, &[(0, lower, none), (700, upper, none)])
}

/// Takes at most `most` records of the first leaf of a tree of a level to the places of an area from 1 on. If
/// none is left there and the tree has other leaves, the first one is taken out.
#[tactic(auto, using(crate::proofs::Ready::kept, crate::proofs::Ready::can_find, crate::proofs::Ready::can_take, crate::proofs::Ready::can_remove))]
fn take_first<D: Device>(
    rig: &mut Rig<'_, D>,
    root: u64,
    level: u64,
    into: &mut Area,
    most: usize,
) -> Result<usize, EmFault>
    requires small { IsSmall (seen D.state rig.old) }
    requires below { root < (seen D.state rig.old).blocks }
    requires room { 1 + most ≤ length into.old }
    ensures keeps { Keeps (seen D.state rig.old) (seen D.state rig.new) }
    ensures len { length into.new ≡ length into.old }
{
    let found = first_leaf(rig, root, level)?;
    let FirstLeaf { leaf, stored, fork } = found;
    let count = stored.len();
    let taken = take_leaf(rig, leaf, stored, into, 1, most)?;
    match fork {
        Some(lower) => {
            if taken as u64 == count {
                remove_first(rig, lower)?;
            }
            Ok(taken)
        }
        None => Ok(taken),
    }
}

/// Takes records of the first leaf of a tree in an area of its own. Answers how many, and whether the area has these
/// records from its place 1 on: 1 or 0.
#[tactic(auto, using(crate::proofs::Ready::kept))]
fn take_own<D: Device>(
    rig: &mut Rig<'_, D>,
    root: u64,
    level: u64,
    most: usize,
    wanted: &[Record],
) -> Result<(u64, u64), EmFault>
    requires ready { IsReady (seen D.state rig.old) }
    requires below { root < (seen D.state rig.old).blocks }
    requires room { most < 1024 }
    ensures keeps { Keeps (seen D.state rig.old) (seen D.state rig.new) }
{
    let mut area = rig.lend_area();
    let taken = take_first(rig, root, level, &mut area, most);
    let same = area.records()[1..].starts_with(wanted);
    rig.give_area(area);
    Ok((taken? as u64, u64::from(same)))
}

/// Takes the first leaf of the tree of three out. Answers how many records were taken, and whether they are those of the
/// leaf; of the root the number of entries, and the child of the first one; and of block 7 the number of entries,
/// and the low key and the child of the first one.
#[tactic(auto, using(crate::proofs::Ready::kept))]
pub fn taken_first<D: Device>(rig: &mut Rig<'_, D>) -> Answer
    requires ready { IsReady (seen D.state rig.old) }
    ensures keeps { Keeps (seen D.state rig.old) (seen D.state rig.new) }
{
    let (first, second, third) = store_leaves(rig)?;
    let root = store_nodes(rig, first, second, third)?;
    let (taken, same) = take_own(rig, root, 2, 3, &three())?;
    let (_, above, (_, upper, _)) = entry_in(rig, root, 0)?;
    let (_, count, (low, child, _)) = entry_in(rig, 7, 0)?;
    Ok([taken, same, above, upper, count, low, child, 0])
}

/// 200 records.
fn long() -> [Record; 200] {
    let mut records = [Record::ZERO; 200];
    for number in 0..200 {
        records[number].a = number as u64;
    }
    records
}

/// The first 127 of them.
fn front() -> [Record; 127] {
    let mut records = [Record::ZERO; 127];
    for number in 0..127 {
        records[number].a = number as u64;
    }
    records
}

/// Stores a leaf of 200 records alone under a node, and answers the blocks of both.
#[tactic(auto, using(crate::proofs::Ready::kept))]
fn store_long<D: Device>(rig: &mut Rig<'_, D>) -> Result<(u64, u64), EmFault>
    requires ready { IsReady (seen D.state rig.old) }
    ensures keeps { Keeps (seen D.state rig.old) (seen D.state rig.new) }
    ensures below { IfOk result (λ made. made.1 < (seen D.state rig.old).blocks) }
{
    let leaf = store_leaf(rig, &long())?;
    let root = store_node(rig, 1, &[(0, leaf, [0; 5])])?;
    Ok((leaf, root))
}

/// Takes at most 150 records of a leaf of 200. Answers how many were taken, and whether they are the first 127 of the
/// leaf; and whether the leaf has the others: 73, from the second block of its list on.
#[tactic(auto, using(crate::proofs::Ready::kept))]
pub fn cut<D: Device>(rig: &mut Rig<'_, D>) -> Answer
    requires ready { IsReady (seen D.state rig.old) }
    ensures keeps { Keeps (seen D.state rig.old) (seen D.state rig.new) }
{
    let (leaf, root) = store_long(rig)?;
    let (taken, same) = take_own(rig, root, 1, 150, &front())?;
    let left = begins_with(rig, leaf, &[record(0, 1, 1, 0), record(2, 0, 2, 73)])?;
    Ok([taken, same, left, 0, 0, 0, 0, 0])
}

/// 9 moves store the tree. 3 find the leaf: one for each node and one for the leaf's block. Its list is loaded,
/// and its block stored. The root is loaded and stored, the node below its first entry is loaded, and the other
/// node is loaded and stored, since it begins with the least key now. 2 moves look at both:
/// 9 + 3 + 2 + 2 + 1 + 2 + 2. Of 9 blocks 3 were released, by no move. A frame is out beside the area.
const WHOLE: &str = "20 none|ok 3 1 1 7 2 0 3|6 9 21 9";

/// 127 records fill a block. 4 moves store the list of two blocks, the leaf's block and the node. 2 find the leaf,
/// its first block is loaded, and the leaf's block stored; 1 looks at it.
const PART: &str = "20 none|ok 127 1 1|3 4 9 9";

#[test]
fn a_first_leaf_is_taken_out_with_its_node(rt: HostRuntime) -> Result<(), Fail> {
    assert_eq!(rt; first_wrong_row(rt.alloc(), Call::TakeFirst, WHOLE)?, None);
    assert_eq!(rt; first_wrong_row(rt.alloc(), Call::Cut, PART)?, None);
    Ok(())
}

/// Whichever move fails, the answer says so, and all frames are back.
#[test]
fn each_failing_move_is_a_fault(rt: HostRuntime) -> Result<(), Fail> {
    let given = [20, NONE, 0, 0, 0, 0, 0, 0];
    assert_eq!(rt;
        first_unfaulted(rt.alloc(), Call::TakeFirst, given, 21)?,
        None
    );
    assert_eq!(rt; first_unfaulted(rt.alloc(), Call::Cut, given, 9)?, None);
    Ok(())
}
