//! Two neighbouring nodes under one are fused, or share their entries.
//!
//!     block 3, level 3:  from 0 on block 0, from 1000 on block 1, from 5000 on block 2
//!     block 0, level 2:  from 0, 10, 20 and so on
//!     block 1, level 2:  from 1003, 1013, 1023 and so on
//!     block 2, level 2:  from 5000 on
ghost use Rattle.std.specs.Prelude.{◌<◌, IfOk};
ghost use Rattle.em_space.specs.Seen.{seen};
ghost use Rattle.em_tree_part_tests.specs.Ready.{IsReady, Keeps};

use crate::blocks::{Row, entry_in, store_node};
use crate::calls::Call;
use crate::rows::{Answer, NONE, Numbers, first_unfaulted, first_wrong_row};
use em_balance::fuse_or_share;
use em_frames::Device;
use em_space::{EmFault, Rig};
use std::test::Fail;

/// The entries from a low key on, with 10 between them. Entry i leads to block `child` + i, or to the rest of that by
/// this number of blocks, and nothing is in its buffer.
fn rising(low: u64, child: u64, blocks: u64) -> [Row; 32] {
    let mut rows = [(0, 0, [0; 5]); 32];
    for number in 0..32 {
        rows[number].0 = low.saturating_add(10 * number as u64);
        rows[number].1 = child.saturating_add(number as u64) % blocks.max(1);
    }
    rows
}

/// Stores a node with as many entries as are asked for first, one with as many as are asked for then, and one with one
/// entry. Answers their blocks.
#[tactic(auto, using(crate::proofs::Ready::kept))]
fn store_children<D: Device>(
    rig: &mut Rig<'_, D>,
    low: u64,
    high: u64,
) -> Result<(u64, u64, u64), EmFault>
    requires ready { IsReady (seen D.state rig.old) }
    ensures keeps { Keeps (seen D.state rig.old) (seen D.state rig.new) }
{
    let blocks = rig.blocks();
    let first = store_node(rig, 2, &rising(0, 0, blocks)[..(low as usize).min(32)])?;
    let second = store_node(rig, 2, &rising(1003, 50, blocks)[..(high as usize).min(32)])?;
    let third = store_node(rig, 2, &[(5000, 0, [0; 5])])?;
    Ok((first, second, third))
}

/// Stores a node over these three, and answers its block. The second entry begins at a key, which is 1000 if it is 0
/// here.
#[tactic(auto, using(crate::proofs::Ready::kept))]
fn store_over<D: Device>(
    rig: &mut Rig<'_, D>,
    children: (u64, u64, u64),
    key: u64,
) -> Result<u64, EmFault>
    requires ready { IsReady (seen D.state rig.old) }
    ensures keeps { Keeps (seen D.state rig.old) (seen D.state rig.new) }
    ensures below { IfOk result (λ block. block < (seen D.state rig.old).blocks) }
{
    let (first, second, third) = children;
    let none = [0; 5];
    let second_low = if key == 0 { 1000 } else { key };
    let rows = [
        (0, first, none),
        (second_low, second, none),
        (5000, third, none),
    ];
    store_node(rig, 3, &rows)
}

/// Fuses the children of the entries at a place and after it, or shares their entries.
fn fuse_at<D: Device>(rig: &mut Rig<'_, D>, node: u64, at: usize) -> Result<(), EmFault>
    requires ready { IsReady (seen D.state rig.old) }
    requires below { node < (seen D.state rig.old).blocks }
    ensures keeps { Keeps (seen D.state rig.old) (seen D.state rig.new) }
{
    fuse_or_share(rig, node, at)
}

/// Answers of a node the number of entries, and the low key and the child of the second one; of block 0 the number of
/// entries, and the low key and the child of the one at a place; and of the node to which the second entry leads the number of
/// entries, and the low key of the first one.
#[tactic(auto, using(crate::proofs::Ready::kept))]
fn looked_at<D: Device>(rig: &mut Rig<'_, D>, node: u64, place: u64) -> Answer
    requires ready { IsReady (seen D.state rig.old) }
    ensures keeps { Keeps (seen D.state rig.old) (seen D.state rig.new) }
{
    let (_, above, (key, child, _)) = entry_in(rig, node, 1)?;
    let (_, first, (low, under, _)) = entry_in(rig, 0, place as usize)?;
    let (_, second, (least, _, _)) = entry_in(rig, child, 0)?;
    Ok([above, key, child, first, low, under, second, least])
}

/// Fuses two of the three nodes, or shares their entries. Given are the entries of the first two, the place of block 0 that
/// is looked at then, the place of the first entry over both, and the low key of the second of the three entries.
#[tactic(auto, using(crate::proofs::Ready::kept))]
pub fn fused<D: Device>(rig: &mut Rig<'_, D>, given: Numbers) -> Answer
    requires ready { IsReady (seen D.state rig.old) }
    ensures keeps { Keeps (seen D.state rig.old) (seen D.state rig.new) }
{
    let [_, _, low, high, place, at, key, _] = given;
    let children = store_children(rig, low, high)?;
    let node = store_over(rig, children, key)?;
    fuse_at(rig, node, at as usize)?;
    looked_at(rig, node, place)
}

/// 4 moves store the nodes, and 3 load the node and both others. If they are fused, 2 store the first of them and the node,
/// and the second one's block is freed by none; 3 look at what is left: 4 + 3 + 2 + 3. If they share their entries, 3 store all
/// three: 4 + 3 + 3 + 3. Three frames are out.
///
/// - Of 15 and 16 entries, 31, one node is made. The second node's first entry begins at 1000 then. With 32 each gets 16: the
///   first has 15 and one more, and the second begins with what was its own second entry.
/// - Of 47 the first gets 23, and the second the others, from 230 on; of 33 the first gets 16, and the second the others, from
///   the sixteenth of its own on.
/// - A node with no entry takes all of the other. The second and the third node become one, which begins as the second did.
/// - The key may be up to that of the second node's second entry, but not as high.
/// - No block is needed: so with four blocks, where entry 50 is the rest of 50 by 4.
const FUSES: &str = "\
100 none 15 16 15 0 0|ok 2 5000 2 31 1000 50 1 5000|3 4 12 3
100 none 15 17 15 0 0|ok 3 1013 1 16 1000 50 16 1013|4 4 13 3
100 none 32 15 22 0 0|ok 3 230 1 23 220 22 24 230|4 4 13 3
100 none 1 32 1 0 0|ok 3 1153 1 16 1000 50 17 1153|4 4 13 3
100 none 0 5 0 0 0|ok 2 5000 2 5 1000 50 1 5000|3 4 12 3
100 none 3 4 2 1 0|ok 2 1000 1 3 20 2 5 1003|3 4 12 3
100 none 5 5 5 0 1012|ok 2 5000 2 10 1012 50 1 5000|3 4 12 3
4 none 15 16 15 0 0|ok 2 5000 2 31 1000 2 1 5000|3 4 12 3
";

/// None is short with 16 entries each. No entry comes after the third. A low key of the first node is 310, and the
/// second low key of the second node 1013: the second entry's key has to be between them. Calls 8 to 10 of the device store
/// the three nodes.
const REFUSALS: &str = "\
100 none 16 16 0 0 0|damaged 3|4 4 7 3
100 none 3 4 0 2 0|damaged 3|4 4 5 3
100 none 32 5 0 0 310|damaged 3|4 4 7 3
100 none 5 5 0 0 1013|damaged 3|4 4 7 3
100 8 15 16 15 0 0|fault|4 4 8 3
100 9 15 16 15 0 0|fault|3 4 9 3
100 10 15 17 15 0 0|fault|4 4 10 3
";

#[test]
fn neighbours_are_fused_or_share_their_entries(rt: HostRuntime) -> Result<(), Fail> {
    assert_eq!(rt; first_wrong_row(rt.alloc(), Call::Fuse, FUSES)?, None);
    assert_eq!(rt; first_wrong_row(rt.alloc(), Call::Fuse, REFUSALS)?, None);
    Ok(())
}

/// Whichever move fails, the answer says so, and all frames are back.
#[test]
fn each_failing_move_is_a_fault(rt: HostRuntime) -> Result<(), Fail> {
    let one = [100, NONE, 15, 16, 0, 0, 0, 0];
    assert_eq!(rt; first_unfaulted(rt.alloc(), Call::Fuse, one, 12)?, None);
    let two = [100, NONE, 15, 17, 0, 0, 0, 0];
    assert_eq!(rt; first_unfaulted(rt.alloc(), Call::Fuse, two, 13)?, None);
    Ok(())
}
