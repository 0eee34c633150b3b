//! A node's buffer is emptied into its children. A block has 127 records, and a buffer is full
//! with 2048.
ghost use Rattle.std.specs.Prelude.{◌≡◌, ◌<◌, ◌≤◌, ◌^◌, length, IfOk};
ghost use Rattle.em_space.specs.Seen.{seen};
ghost use Rattle.em_empty.specs.Node.{CanEmpty};
ghost use Rattle.em_tree_part_tests.specs.Ready.{IsReady, Keeps};

use crate::blocks::{Row, entry_in, record, store_node};
use crate::calls::Call;
use crate::rows::{Answer, NONE, first_wrong_row};
use em_chain::Chain;
use em_devices::{scans, write};
use em_empty::empty_node;
use em_frames::Device;
use em_record::Record;
use em_settle::MapSettle;
use em_space::{EmFault, Rig};
use std::test::Fail;

/// 2048 gets: those of five numbers are of the key 150, and the others of keys below 100.
fn gets() -> [Record; 2048] {
    let mut records = [Record::ZERO; 2048];
    for number in 0..2048 {
        let key = match number {
            100 | 500 | 900 | 1300 | 1700 => 150,
            _ => number as u64 % 100,
        };
        records[number] = record(key, number as u64, 2, 0);
    }
    records
}

/// The five gets of the key 150, in their order.
fn five() -> [Record; 5] {
    [
        record(150, 100, 2, 0),
        record(150, 500, 2, 0),
        record(150, 900, 2, 0),
        record(150, 1300, 2, 0),
        record(150, 1700, 2, 0),
    ]
}

/// A get that waits for the second child, whose key is that of the five.
fn sixth() -> Record {
    record(150, 3000, 2, 0)
}

/// Stores this many gets, one at most, in the buffer of each of two children, and answers the entries of a node over them.
#[tactic(auto, using(crate::proofs::Ready::kept))]
fn store_waiting<D: Device>(rig: &mut Rig<'_, D>, count: u64) -> Result<[Row; 2], EmFault>
    requires ready { IsReady (seen D.state rig.old) }
    ensures keeps { Keeps (seen D.state rig.old) (seen D.state rig.new) }
{
    let count = (count as usize).min(1);
    let first = write(rig, &[record(7, 3001, 2, 0)][..count])?;
    let second = write(rig, &[sixth()][..count])?;
    Ok([(5, 0, first.words()), (101, 0, second.words())])
}

/// Stores a chain of some records, and a node of level 1 with two children at most, from 5 and from 101 on. If three
/// are asked for, the block has the level 64, and is no node; if four are, there are two, for each of which a get waits.
#[tactic(auto, using(crate::proofs::Ready::kept, crate::proofs::Ready::can_empty))]
fn store_both<D: Device>(
    rig: &mut Rig<'_, D>,
    children: u64,
    records: &[Record],
) -> Result<(u64, Chain), EmFault>
    requires ready { IsReady (seen D.state rig.old) }
    requires few { length records.now ≤ 2 ^ 20 }
    ensures keeps { Keeps (seen D.state rig.old) (seen D.state rig.new) }
    ensures can { IfOk result (λ made. CanEmpty (seen D.state rig.new) made.0 made.1) }
{
    let chain = write(rig, records)?;
    let rows = store_waiting(rig, children / 4)?;
    let level = if children == 3 { 64 } else { 1 };
    let node = store_node(rig, level, &rows[..(children as usize).min(2)])?;
    Ok((node, chain))
}

/// Whether the buffer of a place has exactly these records.
#[tactic(auto, using(crate::proofs::Ready::kept, crate::proofs::Ready::is_view))]
fn child_has<D: Device>(
    rig: &mut Rig<'_, D>,
    node: u64,
    at: usize,
    records: &[Record],
) -> Result<bool, EmFault>
    requires ready { IsReady (seen D.state rig.old) }
    ensures keeps { Keeps (seen D.state rig.old) (seen D.state rig.new) }
{
    let (_, _, (_, _, words)) = entry_in(rig, node, at)?;
    if words[3] > 10_000 || words[4] > 10_000 {
        return Ok(false);
    }
    scans(rig, &Chain::from_words(words), records)
}

/// Empties a chain of some gets into a node with some children. Answers the least place of a full buffer, and
/// whether the buffer of a place has the gets that it should: the five of one key if there are two children; the one
/// that waited there and the first of the five if a get waited; else all.
#[tactic(auto, using(crate::proofs::Ready::kept))]
pub fn emptied<D: Device>(rig: &mut Rig<'_, D>, children: u64, count: u64, at: u64) -> Answer
    requires ready { IsReady (seen D.state rig.old) }
    ensures keeps { Keeps (seen D.state rig.old) (seen D.state rig.new) }
{
    let all = gets();
    let sent = &all[..(count as usize).min(2048)];
    let (node, chain) = store_both(rig, children, sent)?;
    let least = match empty_node(rig, &MapSettle {}, node, chain)? {
        Some(place) => u64::from(place),
        None => NONE,
    };
    let five = five();
    let two = [sixth(), five[0]];
    let wanted: &[Record] = match children {
        2 => &five,
        4 => &two,
        _ => sent,
    };
    let has = child_has(rig, node, at as usize, wanted)?;
    Ok([least, u64::from(has), 0, 0, 0, 0, 0, 0])
}

/// 17 moves write the chain, and 1 the node. Emptying loads the node, reads 17 blocks, and stores 17 blocks
/// of 2043 records, 1 block of the five, and the node. 16 of the new blocks are freed ones, whose numbers are
/// kept. To look at the child takes 2: 17 + 1 + 1 + 17 + 17 + 1 + 1 + 2. At first 18 blocks are in use and then
/// 2 more, before the chain's first block is released. Frames are out for the node, the reader and two members.
///
/// If all 2048 records go to one child, its buffer is then full: 17 + 1 moves before, and 1 + 17 + 17 + 1 for
/// the emptying. 17 + 1 to look at it.
///
/// If there is no record, the node is stored, loaded and stored, and loaded to look at it. Frames are out for the
/// node, the reader and a member.
///
/// With 19 blocks the first record of the second child is refused: 18 moves before, and then the node and the
/// chain's first block were loaded; four frames are out, and no block was freed. With call 19 failing, the node
/// isn't loaded. A node with no child, in block 17, is none to empty into, and a block that is no node isn't either:
/// 18 moves before, and the load, with the node's frame out.
///
/// Last, children with room: a get waits for each, in a block of its own. 127 records stand in a block, of which 126 go to
/// the first child, whose block has 127 then. So no block is needed: chain, buffers and node are all four blocks of the
/// device. 4 moves write these, and the emptying makes 7: it loads the node, the chain's block and that of each buffer,
/// and stores both and the node. To look at a child takes 2.
///
/// With 128 records the chain has two blocks, and the last record is one too many for the first child's block. The first
/// block of the chain is freed by then, and serves: on all five blocks of the device 5 moves come before; the emptying
/// loads the node, two blocks of the chain and one of each buffer, and stores two blocks of the first buffer, one of the
/// other and the node; and 2 look at it.
const EMPTYINGS: &str = "\
100 none 2 2048 1|ok none 1|19 20 57 4
100 none 1 2048 0|ok 0 1|18 19 72 3
100 none 1 0 0|ok none 1|1 1 4 3
19 none 2 2048 1|full 19|19 19 20 4
100 19 2 2048 1|fault|18 18 19 1
100 none 0 2048 0|damaged 17|18 18 19 1
100 none 3 2048 0|damaged 17|18 18 19 1
4 none 4 127 1|ok none 1|3 4 13 4
5 none 4 128 1|ok none 1|4 5 16 4
";

#[test]
fn operations_keep_their_order(rt: HostRuntime) -> Result<(), Fail> {
    assert_eq!(rt; first_wrong_row(rt.alloc(), Call::Empty, EMPTYINGS)?, None);
    Ok(())
}
