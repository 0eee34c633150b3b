//! A node of 32 entries is split, and a new root made over both parts.
ghost use Rattle.em_space.specs.Seen.{seen};
ghost use Rattle.em_tree_part_tests.specs.Ready.{IsReady, Keeps};

use crate::blocks::{entry_in, full, store_node};
use crate::calls::Call;
use crate::rows::{Answer, first_wrong_row};
use em_balance::{grow_up, split_node};
use em_frames::Device;
use em_space::{EmFault, Rig};
use std::test::Fail;

/// Takes a block and frees it, if that is asked for.
#[tactic(auto, using(crate::proofs::Ready::kept))]
fn prepare<D: Device>(rig: &mut Rig<'_, D>, freed: u64) -> Result<(), EmFault>
    requires ready { IsReady (seen D.state rig.old) }
    ensures keeps { Keeps (seen D.state rig.old) (seen D.state rig.new) }
{
    if freed == 0 {
        return Ok(());
    }
    let spare = rig.alloc()?;
    rig.release(spare)
}

/// Splits a full node of a level, after a block was freed if that is asked for. Answers the low key and the
/// link of the entry for the new block; and of both halves the level, the number of entries, and the low key
/// of the sixteenth one.
#[tactic(auto, using(crate::proofs::Ready::kept, crate::proofs::Ready::can_halve))]
pub fn halved<D: Device>(rig: &mut Rig<'_, D>, level: u64, freed: u64) -> Answer
    requires ready { IsReady (seen D.state rig.old) }
    ensures keeps { Keeps (seen D.state rig.old) (seen D.state rig.new) }
{
    let node = store_node(rig, level, &full())?;
    prepare(rig, freed)?;
    let upper = split_node(rig, node)?;
    let (under, count, (low, _, _)) = entry_in(rig, node, 15)?;
    let (over, others, (high, _, _)) = entry_in(rig, upper.child.saturating_sub(1), 15)?;
    Ok([
        upper.low.a,
        upper.child,
        under,
        count,
        low,
        over,
        others,
        high,
    ])
}

/// Splits a full node of a level, and makes a root over it. Answers the block of the new root, its level, its
/// number of entries, and the low key and the child of the second one; and of the old root the number of
/// entries, and the low key of the sixteenth one.
#[tactic(auto, using(crate::proofs::Ready::kept, crate::proofs::Ready::can_halve, crate::proofs::Ready::can_grow))]
pub fn grown<D: Device>(rig: &mut Rig<'_, D>, level: u64) -> Answer
    requires ready { IsReady (seen D.state rig.old) }
    ensures keeps { Keeps (seen D.state rig.old) (seen D.state rig.new) }
{
    let root = store_node(rig, level, &full())?;
    let upper = split_node(rig, root)?;
    let (_, old, (last, _, _)) = entry_in(rig, root, 15)?;
    let new = grow_up(rig, root, upper)?;
    let (above, count, (low, child, _)) = entry_in(rig, new, 1)?;
    Ok([new, above, count, low, child, old, last, 0])
}

/// The node is stored by 1 move. The split loads it, stores the upper half in block 1 and the lower half. 2 moves
/// more read both. Two frames are out, one for each half. The upper half begins with the seventeenth entry, from
/// 160 on.
///
/// A block that was taken and freed comes again, by no move. With
/// one block the node is stored and loaded, and no block is free for the upper half. Calls 2 to 4 of the device are
/// those of the split: the load, and the stores of both halves, before which a block was taken. No node has the
/// level 64.
const SPLITS: &str = "\
100 none 3 0|ok 160 2 3 16 150 3 16 310|2 2 6 2
100 none 0 0|ok 160 2 0 16 150 0 16 310|2 2 6 2
2 none 3 1|ok 160 2 3 16 150 3 16 310|2 2 6 2
1 none 3 0|full 1|1 1 2 2
100 2 3 0|fault|1 1 2 2
100 3 3 0|fault|2 2 3 2
100 4 3 0|fault|2 2 4 2
100 none 64 0|damaged 0|1 1 2 2
";

#[test]
fn each_half_has_its_entries(rt: HostRuntime) -> Result<(), Fail> {
    assert_eq!(rt; first_wrong_row(rt.alloc(), Call::Halve, SPLITS)?, None);
    Ok(())
}

/// 1 move stores the node, 3 split it, and 1 reads the old root. The new root takes 2: the old one is loaded, and
/// block 2 stored. 1 reads it. Its second entry leads to block 1.
///
/// A node of the level 62 gets a root of the last level, and one of that level gets none. With two blocks none is
/// free for the new root, after 1 + 3 + 1 moves and the load. Calls 6 and 7 are those of the new root: the load, and
/// the store, before which a block was taken.
const ROOTS: &str = "\
100 none 4|ok 2 5 2 160 1 16 150|3 3 8 2
100 none 62|ok 2 63 2 160 1 16 150|3 3 8 2
100 none 63|damaged 0|2 2 6 2
2 none 4|full 2|2 2 6 2
100 6 4|fault|2 2 6 2
100 7 4|fault|3 3 7 2
";

#[test]
fn the_new_root_leads_to_both_parts(rt: HostRuntime) -> Result<(), Fail> {
    assert_eq!(rt; first_wrong_row(rt.alloc(), Call::Grow, ROOTS)?, None);
    Ok(())
}
