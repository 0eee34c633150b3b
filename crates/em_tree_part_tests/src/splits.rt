//! Splits on a key's path, from a root that has room, and from a full one; and the release of a small tree.
ghost use Rattle.std.specs.Prelude.{◌≡◌, ◌<◌, ◌≤◌, IfOk};
ghost use Rattle.em_space.specs.Seen.{seen};
ghost use Rattle.em_tree_part_tests.specs.Ready.{IsReady, Keeps};

use crate::blocks::{entry_in, full, key, record, set_up, store_leaf, store_node};
use crate::calls::Call;
use crate::rows::{Answer, NONE, first_unfaulted, first_wrong_row};
use em_frames::Device;
use em_space::{EmFault, Rig};
use em_tree_load::release_tree;
use em_tree_walk::{Root, split_up};
use std::test::Fail;

/// Stores a full root of level 1, if that is asked for, or else the tree of `blocks`, whose nodes have room.
#[tactic(auto, using(crate::proofs::Ready::kept))]
fn store_root<D: Device>(rig: &mut Rig<'_, D>, is_full: u64) -> Result<Root, EmFault>
    requires ready { IsReady (seen D.state rig.old) }
    ensures keeps { Keeps (seen D.state rig.old) (seen D.state rig.new) }
    ensures below { IfOk result (λ root. root.block < (seen D.state rig.old).blocks) }
    ensures some { IfOk result (λ root. 0 < root.level) }
    ensures most { IfOk result (λ root. root.level ≤ 24) }
{
    if is_full == 1 {
        let block = store_node(rig, 1, &full())?;
        return Ok(Root { block, level: 1 });
    }
    let block = set_up(rig)?;
    Ok(Root { block, level: 2 })
}

/// Splits what is full on the path of the key 45. Answers the block and the level of the root; and its level,
/// its number of entries, and the low key and the child of the second one.
#[tactic(auto, using(crate::proofs::Ready::kept, crate::proofs::Ready::can_split))]
pub fn split<D: Device>(rig: &mut Rig<'_, D>, is_full: u64) -> Answer
    requires ready { IsReady (seen D.state rig.old) }
    ensures keeps { Keeps (seen D.state rig.old) (seen D.state rig.new) }
{
    let old = store_root(rig, is_full)?;
    let root = split_up(rig, old, key(45))?;
    let (level, count, (low, child, _)) = entry_in(rig, root.block, 1)?;
    Ok([root.block, root.level, level, count, low, child, 0, 0])
}

/// Stores a leaf with two records and one with none, and a node over them, and answers its block.
#[tactic(auto, using(crate::proofs::Ready::kept))]
fn store_tree<D: Device>(rig: &mut Rig<'_, D>) -> Result<u64, EmFault>
    requires ready { IsReady (seen D.state rig.old) }
    ensures keeps { Keeps (seen D.state rig.old) (seen D.state rig.new) }
    ensures below { IfOk result (λ block. block < (seen D.state rig.old).blocks) }
{
    let item = record(5, 0, 0, 50);
    let first = store_leaf(rig, &[item, item])?;
    let second = store_leaf(rig, &[])?;
    store_node(rig, 1, &[(5, first, [0; 5]), (30, second, [0; 5])])
}

/// Releases such a tree, whose node is taken for one of this level. Answers how many blocks were in use before.
#[tactic(auto, using(crate::proofs::Ready::kept, crate::proofs::Ready::can_release))]
pub fn released<D: Device>(rig: &mut Rig<'_, D>, level: u64) -> Answer
    requires ready { IsReady (seen D.state rig.old) }
    ensures keeps { Keeps (seen D.state rig.old) (seen D.state rig.new) }
{
    let node = store_tree(rig)?;
    let used = rig.used();
    release_tree(rig, node, level.min(2))?;
    Ok([used, 0, 0, 0, 0, 0, 0, 0])
}

/// 3 moves store the tree. A node of each level is loaded, and has room. 1 move looks at the root. One frame is out
/// at a time: what `split_up` has of a node is read before it goes down.
///
/// 1 move stores the full root. It is loaded to find the path, and 3 moves split it. A new root takes 2, and 1 looks
/// at that one: it leads to the first 16 entries, from 0 on, and to the others, from 160 on. With one block none is
/// free for the upper half, after the load for it; with two none for the new root, after the load of the old one.
const PATHS: &str = "\
20 none 0|ok 2 2 2 2 100 1|3 3 6 1
20 none 1|ok 2 2 2 2 160 1|3 3 8 2
1 none 1|full 1|1 1 3 2
2 none 1|full 2|2 2 6 2
";

#[test]
fn full_nodes_of_a_path_are_split(rt: HostRuntime) -> Result<(), Fail> {
    assert_eq!(rt; first_wrong_row(rt.alloc(), Call::SplitUp, PATHS)?, None);
    Ok(())
}

/// 4 moves store a list, two leaves and the node. The node is loaded. Of the first leaf the block is loaded and
/// released, and so is that of its list; of the other leaf the block is loaded: 4 + 1 + 2 + 1. The node, in
/// block 3, isn't of level 2.
const RELEASES: &str = "\
20 none 1|ok 4|0 4 8 2
20 none 2|damaged 3|4 4 5 1
";

#[test]
fn all_blocks_of_a_tree_are_released(rt: HostRuntime) -> Result<(), Fail> {
    assert_eq!(rt; first_wrong_row(rt.alloc(), Call::Release, RELEASES)?, None);
    Ok(())
}

/// Whichever move fails, the answer says so, and all frames are back.
#[test]
fn each_failing_move_is_a_fault(rt: HostRuntime) -> Result<(), Fail> {
    let given = [20, NONE, 1, 0, 0, 0, 0, 0];
    assert_eq!(rt; first_unfaulted(rt.alloc(), Call::SplitUp, given, 8)?, None);
    assert_eq!(rt; first_unfaulted(rt.alloc(), Call::Release, given, 8)?, None);
    Ok(())
}
