//! A load of the first leaf of a node of level 1 with two leaves.
//!
//!     node   from 0 on the first leaf, from 5000 on the other one, which has one record
ghost use Rattle.std.specs.Prelude.{◌≡◌, ◌<◌, ◌≤◌, IfOk};
ghost use Rattle.em_space.specs.Seen.{seen};
ghost use Rattle.em_tree_part_tests.specs.Ready.{IsReady, Keeps};

use crate::blocks::{begins_with, record, store_leaf, store_node};
use crate::calls::Call;
use crate::rows::{Answer, NONE, first_unfaulted, first_wrong_row, word_of};
use em_chain::Writer;
use em_devices::write;
use em_frames::Device;
use em_record::Record;
use em_settle::MapSettle;
use em_space::{EmFault, Rig};
use em_tree_load::load_leaf;
use std::test::Fail;

/// Stores both leaves, and answers their blocks.
#[tactic(auto, using(crate::proofs::Ready::kept))]
fn store_leaves<D: Device>(rig: &mut Rig<'_, D>) -> Result<(u64, u64), EmFault>
    requires ready { IsReady (seen D.state rig.old) }
    ensures keeps { Keeps (seen D.state rig.old) (seen D.state rig.new) }
{
    let records = [
        record(5, 0, 0, 50),
        record(7, 0, 0, 70),
        record(9, 0, 0, 90),
    ];
    let first = store_leaf(rig, &records)?;
    let other = store_leaf(rig, &[record(5000, 0, 0, 1)])?;
    Ok((first, other))
}

/// Stores a node over two leaves, and answers its block. A put, a del and gets wait for the first leaf.
#[tactic(auto, using(crate::proofs::Ready::kept))]
fn store_over<D: Device>(rig: &mut Rig<'_, D>, first: u64, other: u64) -> Result<u64, EmFault>
    requires ready { IsReady (seen D.state rig.old) }
    ensures keeps { Keeps (seen D.state rig.old) (seen D.state rig.new) }
    ensures below { IfOk result (λ block. block < (seen D.state rig.old).blocks) }
{
    let waiting = [
        record(7, 1, 0, 71),
        record(9, 2, 1, 0),
        record(7, 3, 2, 0),
        record(9, 4, 2, 0),
        record(6, 5, 0, 60),
    ];
    let chain = write(rig, &waiting)?;
    store_node(rig, 1, &[(0, first, chain.words()), (5000, other, [0; 5])])
}

/// Loads the first leaf of a node, and finishes the answers. Answers the first word of the least key of a new leaf.
#[tactic(auto, using(crate::proofs::Ready::kept, crate::proofs::Ready::can_load))]
fn load<D: Device>(rig: &mut Rig<'_, D>, node: u64) -> Result<u64, EmFault>
    requires ready { IsReady (seen D.state rig.old) }
    requires below { node < (seen D.state rig.old).blocks }
    ensures keeps { Keeps (seen D.state rig.old) (seen D.state rig.new) }
{
    let mut answers = Writer::new(rig);
    match load_leaf(rig, &MapSettle {}, &mut answers, node, 0) {
        Ok(low) => {
            let _chain = answers.finish(rig)?;
            Ok(word_of(low))
        }
        Err(fault) => {
            answers.abandon(rig);
            Err(fault)
        }
    }
}

/// Whether the node and the first leaf begin as they should.
#[tactic(auto, using(crate::proofs::Ready::kept))]
fn are_right<D: Device>(rig: &mut Rig<'_, D>, node: u64) -> Result<(u64, u64), EmFault>
    requires ready { IsReady (seen D.state rig.old) }
    ensures keeps { Keeps (seen D.state rig.old) (seen D.state rig.new) }
{
    let entries = [
        record(1, 2, 2, 0),
        Record::ZERO,
        Record::ZERO,
        record(2, 0, 0, 0),
        Record::ZERO,
        record(5000, 0, 0, 0),
        record(4, 0, 0, 0),
        Record::ZERO,
    ];
    let over = begins_with(rig, node, &entries)?;
    let leaf = begins_with(rig, 1, &[record(0, 1, 1, 0), record(5, 0, 5, 3)])?;
    Ok((over, leaf))
}

/// Whether the leaf's list, in block 4, and the answers, in block 6, begin as they should.
#[tactic(auto, using(crate::proofs::Ready::kept))]
fn are_written<D: Device>(rig: &mut Rig<'_, D>) -> Result<(u64, u64), EmFault>
    requires ready { IsReady (seen D.state rig.old) }
    ensures keeps { Keeps (seen D.state rig.old) (seen D.state rig.new) }
{
    let items = [
        record(0, 3, 1, 0),
        record(5, 0, 0, 50),
        record(6, 0, 0, 60),
        record(7, 0, 0, 71),
    ];
    let list = begins_with(rig, 4, &items)?;
    let given = begins_with(
        rig,
        6,
        &[record(0, 2, 1, 0), record(3, 1, 71, 0), record(4, 0, 0, 0)],
    )?;
    Ok((list, given))
}

/// Loads the first leaf with the operations over it. Answers the first word of the least key of a new leaf, and
/// whether the node, the leaf, its list and the answers are as they should be.
#[tactic(auto, using(crate::proofs::Ready::kept))]
pub fn loaded<D: Device>(rig: &mut Rig<'_, D>) -> Answer
    requires ready { IsReady (seen D.state rig.old) }
    ensures keeps { Keeps (seen D.state rig.old) (seen D.state rig.new) }
{
    let (first, other) = store_leaves(rig)?;
    let node = store_over(rig, first, other)?;
    let low = load(rig, node)?;
    let (over, leaf) = are_right(rig, node)?;
    let (list, given) = are_written(rig)?;
    Ok([low, over, leaf, list, given, 0, 0, 0])
}

/// 6 moves store a list and a block of each leaf, the operations and the node. The load takes 7: the
/// node and the leaf's block are loaded and stored anew, the old list and the operations are loaded and
/// released, and the new list is stored in a freed block. Then one block of answers is
/// stored, and 4 are looked at: 6 + 7 + 1 + 4. The answer to the get of 7 takes the seventh block, since 9 wasn't
/// read yet. Frames are out for the node, the answers, and the old and the new list; an area counts as 8.
const LOADS: &str = "200 none|ok none 1 1 1 1|6 7 18 12";

#[test]
fn a_load_settles_what_waits_over_a_leaf(rt: HostRuntime) -> Result<(), Fail> {
    assert_eq!(rt; first_wrong_row(rt.alloc(), Call::Load, LOADS)?, None);
    Ok(())
}

/// Whichever move fails, the answer says so, and all frames are back.
#[test]
fn each_failing_move_is_a_fault(rt: HostRuntime) -> Result<(), Fail> {
    let given = [200, NONE, 0, 0, 0, 0, 0, 0];
    assert_eq!(rt; first_unfaulted(rt.alloc(), Call::Load, given, 18)?, None);
    Ok(())
}
