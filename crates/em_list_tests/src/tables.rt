//! Runs on a new rig, as worked out by hand: what each answers, the blocks in use at its end, the most at once, the moves, and the
//! most frames that were out at once. `rows` says how a line is read. A block has 127 records.
//!
//! If a run answers Ok, it is done again with each of its calls of the device failing in turn, up to the 40th. Call 0 begins the device,
//! and the others are its moves: the one that fails is the last one, and all frames are back.
ghost use Rattle.std.specs.Prelude.{◌≡◌, IfOk};
ghost use Rattle.std.specs.List.Sorted.{IsSorted};
ghost use Rattle.em_record.specs.Order.{record_cmp};
ghost use Rattle.em_space.specs.Seen.{seen};
ghost use Rattle.em_list_tests.specs.Ready.{CanPlay, Keeps};

use crate::rows::{Answer, Row, nth, row_of};
use crate::{chains, groups, maps, queues, stabs, weaves};
use em_devices::{Cost, Untold, ended, opened};
use em_frames::{Device, MemDevice};
use em_record::Record;
use em_space::{EmFault, Rig};
use std::alloc::{AllocError, Global};
use std::test::Fail;

/// A copy of some records, in order.
fn in_order(alloc: Global, records: &[Record]) -> Result<Vec<Record>, AllocError>
    ensures { IfOk result (λ v. IsSorted record_cmp v.items) }
{
    let mut ordered = Vec::new(alloc);
    for record in records {
        ordered.push(*record)?;
    }
    ordered.sort()?;
    Ok(ordered)
}

/// Runs the script of a row. Its first list stands in order in `ordered`.
fn play<D: Device>(rig: &mut Rig<'_, D>, row: &Row<'_>, ordered: &[Record]) -> Result<bool, EmFault>
    requires ready { CanPlay (seen D.state rig.old) }
    requires ordered { IsSorted record_cmp ordered.now }
    ensures kept { Keeps (seen D.state rig.old) (seen D.state rig.new) }
{
    let lists = row.lists.as_slice();
    match row.script {
        "map" => maps::answers(rig, nth(lists, 0), nth(lists, 1)),
        "stab" => stabs::answers(rig, nth(lists, 0), nth(lists, 1)),
        "group" => groups::shared(rig, lists),
        "weave" => weaves::play(rig, (nth(lists, 0), nth(lists, 1)), nth(lists, 2)),
        "queue" | "drain" | "beside" | "pop" | "sort" => queues::follow(rig, row.script, lists),
        _ => chains::follow(rig, row.script, ordered, row.place, nth(lists, 1)),
    }
}

/// What a row answers on a new rig over a device, and what it costs.
fn run<D: Device>(alloc: Global, device: &mut D, row: &Row<'_>) -> Result<(Answer, Cost), Fail>
    requires fresh { (D.state device.old).blocks ≡ 0 }
{
    let ordered = in_order(alloc, nth(row.lists.as_slice(), 0))?;
    let mut rig = opened(alloc, row.blocks.max(1).min(100), device)?;
    let answer = play(&mut rig, row, ordered.as_slice());
    Ok((answer, ended(rig)))
}

/// The same over a device in memory, of which one call fails.
fn run_failing(rt: &HostRuntime, row: &Row<'_>, failing: u64) -> Result<(Answer, Cost), Fail> {
    let mut device = MemDevice::new(rt.alloc(), &[failing])?;
    run(rt.alloc(), &mut device, row)
}

/// The first call that fails, or 0 for a run as the row has it, with which a row doesn't end as it must, and how it ends.
fn wrong_call(rt: &HostRuntime, row: &Row<'_>) -> Result<Option<(u64, Answer, Cost)>, Fail> {
    let [used, most, moves, peak] = row.numbers;
    if let Err(EmFault::Damaged { .. }) = row.answer {
        let mut device = Untold::giving(Record {
            a: used,
            b: most,
            c: moves,
            d: peak,
        });
        let (answer, cost) = run(rt.alloc(), &mut device, row)?;
        if answer == row.answer {
            return Ok(None);
        }
        return Ok(Some((0, answer, cost)));
    }
    let (answer, cost) = run_failing(rt, row, row.failing)?;
    if answer != row.answer || [cost.0, cost.1, cost.2, u64::from(cost.3)] != row.numbers {
        return Ok(Some((0, answer, cost)));
    }
    let calls = if answer == Ok(true) { moves.min(40) } else { 0 };
    for number in 0..calls {
        let (answer, cost) = run_failing(rt, row, number + 1)?;
        if answer != Err(EmFault::DeviceFault) || cost.2 != number + 1 {
            return Ok(Some((number + 1, answer, cost)));
        }
    }
    Ok(None)
}

/// The first row of a table that doesn't end as it must, from 1, with the call that fails and how it ends.
fn first_wrong(
    rt: &HostRuntime,
    table: &str,
) -> Result<Option<(u64, Option<(u64, Answer, Cost)>)>, Fail> {
    let mut number = 0u64;
    for line in table.lines() {
        number = number.saturating_add(1);
        let Some(row) = row_of(rt.alloc(), line)? else {
            return Ok(Some((number, None)));
        };
        let wrong = wrong_call(rt, &row)?;
        if wrong.is_some() {
            return Ok(Some((number, wrong)));
        }
    }
    Ok(None)
}

/// A list makes one move for each of its blocks when it is written, and one more each time that they are
/// read. A release makes none, since its block's number is kept. `join` links the last of the first 2 blocks
/// to the 3 others by 2 moves; `extend` loads the last of the first 2 again by 1, and stores it with the 2 others.
///
/// 300 records fill blocks of 127, 127 and 46, written by 3 moves. The last one is loaded to go on with, and
/// the two others are read by 2 moves: the second one leads on, and ends the view all the same.
///
/// 500 records stand in 4 blocks, written by 4 moves. Cut at the 300th, 3 blocks are loaded and 2 released; the
/// first part has 3 blocks, each stored once, of which 2 were released before. To read the parts takes a move
/// for each of 5 blocks: 4 + 3 + 3 + 5. Cut at 0 one block is loaded and 4 are read: 4 + 1 + 4. Cut after the last
/// record all 4 are loaded, stored and read: 4 + 4 + 4 + 4.
const CHAINS: &str = "\
take 0|100|ok|0 79 158 1|0:10000|1 0 79 10000,79
scan 0|100|ok|3 3 9 1|0:300|1 0 3 300,3
stored 254|100|ok|3 3 6 2|0:300|1 0 3 300,3
discard 0|100|ok|0 8 16 1|0:1000|1 0 8 1000,8
join 200|100|ok|0 5 12 1|0:500|1 0 5 500,5
extend 200|100|ok|0 4 10 1|0:500|1 0 4 500,4
cut 300|100|ok|0 5 15 2|0:500|3 46 4 200,2
cut 0|100|ok|0 4 9 2|0:500|1 0 4 500,4
cut 500|100|ok|0 5 16 2|0:500|0,0
";

#[test]
fn records_come_back_in_order(rt: HostRuntime) -> Result<(), Fail> {
    assert_eq!(rt; first_wrong(&rt, CHAINS)?, None);
    Ok(())
}

/// 2 blocks have 254 records: the 255th is refused, and 1 move stored the first block. Call 1 stores that block.
///
/// The first list of the group has blocks of 127 and 73, written by 2 moves, and its last block is loaded again by 1. With 7 blocks
/// its 182nd record is refused, after 3 moves more stored a full block, one of each list. Call 3 loads the last block of the first list.
///
/// A map's block has 127 commands, and with one more nothing is moved. One block is too few for the pairs of an interval list: its
/// commands were stored, read for all of them, and read for the second stab, by 3 moves.
///
/// One block takes 127 items of a queue, and no more. To pop three the queue stores and reads its block, by 2 moves, and needs
/// another one. A list that is to be sorted is stored and read by 2 moves, and the queue needs a block while the list has one.
const REFUSED: &str = "\
take 0|2|full 2|2 2 1 1|0:255|
take 0|2 1|device|2 2 1 1|0:255|
group 0|7|full 7|7 7 6 3|0:200|0:600|||
group 0|100 3|device|2 2 3 3|0:200|0:600|||
map 0|1|full 1|1 1 0 1|1 2 1 0:128|
stab 0|1|full 1|1 1 3 3|5,5 5 1,7 18446744073709551615 1,5,6,18446744073709551615,0 5 1,5|
queue 0|1|full 1|1 1 0 1|128:0
pop 0|1|full 1|1 1 2 3|3:0|0:5
sort 0|1|full 1|1 1 2 2|
";

#[test]
fn what_is_refused_keeps_its_blocks_and_gives_the_frames_back(rt: HostRuntime) -> Result<(), Fail> {
    assert_eq!(rt; first_wrong(&rt, REFUSED)?, None);
    Ok(())
}

/// What a device gives in place of the header of a chain block: one with no record, one with more
/// than a block has, one of another kind, one with a number in d, one with no link though a block
/// follows, one with a link past the device, one with a link though none follows, and one that is
/// right for the first block alone. Lists of 200 records stand in two blocks: one is taken, one is read
/// over, one is cut from its first block on, one goes on from its last block, and one is linked there
/// to another of three blocks. The last one is the left list of a weave, which is to have two records and has one.
const DAMAGED: &str = "\
discard 0|3|damaged 0|2 0 1 0|0:200|
discard 0|3|damaged 0|2 128 1 0|0:200|
discard 0|3|damaged 0|2 127 3 0|0:200|
discard 0|3|damaged 0|2 127 1 9|0:200|
discard 0|3|damaged 0|0 127 1 0|0:200|
discard 0|3|damaged 0|4 127 1 0|0:200|
discard 0|3|damaged 0|1 100 1 0|0:100|
discard 0|3|damaged 1|2 127 1 0|0:200|
take 0|3|damaged 0|2 0 1 0|0:200|
scan 0|3|damaged 0|2 0 1 0|0:200|
cut 100|3|damaged 0|2 0 1 0|0:200|
extend 200|3|damaged 1|2 0 1 0|0:201|
join 200|16|damaged 1|2 0 1 0|0:500|
weave 0|2|damaged 0|0 1 1 0|1,2|1|0 0 0 2
";

#[test]
fn a_damaged_block_is_named(rt: HostRuntime) -> Result<(), Fail> {
    assert_eq!(rt; first_wrong(&rt, DAMAGED)?, None);
    Ok(())
}

/// The first list has blocks of 127 and 73, written by 2 moves. Its last block is loaded again by 1
/// move, and it grows to 127, 127, 127 and 19: 3 more are stored. The two others have 2 blocks each,
/// stored once. 3 moves read what is stored of the first list, beside 19 records that are pending, and
/// each of the 8 blocks is read: 2 + 1 + 3 + 4 + 3 + 8.
const GROUP: &str = "group 0|100|ok|0 8 21 4|0:200|0:600|0:200,0:600:3|1:601:3|2:602:3";

#[test]
fn each_list_of_a_group_gets_its_records(rt: HostRuntime) -> Result<(), Fail> {
    assert_eq!(rt; first_wrong(&rt, GROUP)?, None);
    Ok(())
}

/// The worked examples, with the least and the greatest key and point, adds, and a del of a key that has no value. The
/// commands have one block: 1 move stores it, 1 reads it for the answers and 1 more for each get or stab but one with no command
/// before it, 1 stores the answers, and 1 reads each of both blocks before it is released.
///
/// Last, 202 commands in 2 blocks, and 300 pairs in 3: the first stab is answered by the first 100 of 200
/// intervals, the second one by all. The commands are stored by 2 moves, read by 2 for all and by 2
/// for each stab, and read by 2 when they are released; the pairs are stored by 3 and read by 3.
const COMMANDS: &str = "\
map 0|10|ok|0 2 8 3|5 10 1,5,5 11 1,5,5 0 2,5|2 1 10,4 1 11,6
map 0|10|ok|0 2 8 3|1 9 1,1 2 3,1,1 0 2,1 2 3,1 3 3,1,2 4 3,2|3 1 11,7 1 5,9 1 4
map 0|10|ok|0 2 7 3|0,0 7 1,18446744073709551615 8 1,9 0 2,18446744073709551615,0|1,5 1 8,6 1 7
map 0|1|ok|0 1 3 2|1 2 1 0:127|
stab 0|10|ok|0 0 0 2||
stab 0|10|ok|0 2 9 3|5,5 5 1,7 18446744073709551615 1,5,6,18446744073709551615,0 5 1,5|1,3 1,4,4 2
stab 0|10|ok|0 1 3 2|0 9 1|
stab 0|10|ok|0 1 3 3|5,0 9 1|
stab 0|10|ok|0 2 7 3|0 18446744073709551615 1,0,18446744073709551615|0,1
stab 0|10|ok|0 5 16 3|0:200 18446744073709551615 1,99,18446744073709551615|0 0:100,1 0:200
";

#[test]
fn commands_are_answered_by_those_before_them(rt: HostRuntime) -> Result<(), Fail> {
    assert_eq!(rt; first_wrong(&rt, COMMANDS)?, None);
    Ok(())
}

/// A block that a queue or a list releases comes again with no move, and lends no frame. One block takes 127 items.
///
/// Pushes move nothing while all items stand in one block of the queue. A pop stores and reads that block, by 2
/// moves, and one that finds no item moves nothing. Of 300 items two blocks are stored by the pushes. A pop of n
/// items stores the last block, reads all, and stores all but the last one of the n - 1 items that are left: 6 moves
/// down to n = 256, then 5, 4 from 254 on, then 3 at 128, and 2 from 127 on: 2 + 45 * 6 + 5 + 126 * 4 + 3 + 127 * 2.
///
/// The end of a queue stores and reads its block. A list is stored and read by 2 moves. So five pops beside a list
/// are 5 * 2 + 2, and with three items that are left in the queue 2 more.
const QUEUES: &str = "\
queue 0|1|ok|0 1 6 2|4,4,4 1 1,4,4 2 1,4 4 1,0 0 2
queue 0|4|ok|0 4 1038 2|300:0,300 0 3,1:301 300:0 1,0 0 3
queue 0|1|ok|0 1 2 1|127:0,127 0 3
queue 0|4|ok|0 2 12 2|30,10,20,10 2 1,20 3 1,30 1 1,30,10,20,10 8 1,20 9 1,30 7 1,0 0 2
drain 0|4|ok|0 2 6 2|30,10,20|10 2 7,20 3 7,30 1 7
beside 0|4|ok|0 2 8 3|30,10,20|10 2 7,20 3 7,30 1 7
pop 0|4|ok|0 3 12 3|5:0|1:6 5:0 7
pop 0|4|ok|0 2 8 3|3:0|1:4 3:0 7,0,0
pop 0|4|ok|0 1 2 3||0,0,0,0,0
pop 0|4|ok|0 3 14 3|8:0|1:6 8:3 7
";

#[test]
fn items_come_in_order_also_into_a_list(rt: HostRuntime) -> Result<(), Fail> {
    assert_eq!(rt; first_wrong(&rt, QUEUES)?, None);
    Ok(())
}

/// The list is stored and read by 2 moves; before it is released the queue takes a new block. Each of three pops stores
/// and reads the queue's block, by 2 moves. The sorted list is stored and read by 2.
const SORTED: &str = "sort 0|4|ok|0 2 10 3|";

#[test]
fn three_records_are_sorted(rt: HostRuntime) -> Result<(), Fail> {
    assert_eq!(rt; first_wrong(&rt, SORTED)?, None);
    Ok(())
}

/// Of four records on the left and three on the right each list has one block. A block is written and read by one
/// move each, and released by none. A side with no record has no block.
///
/// Then lists of 3 and 2 blocks are written by 5 moves: 100 records of the left come first, 100 of the right, 200 of the left and
/// 100 of the right. Read to their ends, they are read by 5 moves. Ended before the first record each block is read to be released,
/// by 5 moves. With the first record a block of each list is read, and both are read again to be released. The 227th record is the
/// last one of the first block on the left, which is released then: 5 + 2, and 4 blocks are left, which take 4. The next call reads the
/// second block on the left. The 427th record is the last one of the first block on the right: the left list and that block were read
/// by 4 moves, and 1 block is left. The next call reads it.
const WEAVES: &str = "\
weave 0|2|ok|0 2 4 2|1 0 7,4 1 7,4 2 7,9 3 7|2 0 7,4 1 7,7 2 7|1 0 7,2 0 7 1,4 1 7,4 2 7,4 1 7 1,7 2 7 1,9 3 7,0 0 0 2
weave 0|1|ok|0 1 2 2|3 0 7,5 1 7||3 0 7,5 1 7,0 0 0 2
weave 0|1|ok|0 1 2 2||3 0 7,5 1 7|3 0 7 1,5 1 7 1,0 0 0 2
weave 0|1|ok|0 0 0 2|||0 0 0 2
weave 0|8|ok|0 5 10 2|0:100,200:400|100:200,400:500|0:100,100:200 0 0 1,200:400,400:500 0 0 1,0 0 0 2
weave 0|8|ok|0 5 10 2|0:100,200:400|100:200,400:500|
weave 0|8|ok|0 5 12 2|0:100,200:400|100:200,400:500|0
weave 0|8|ok|0 5 11 2|0:100,200:400|100:200,400:500|0:100,100:200 0 0 1,200:227
weave 0|8|ok|0 5 12 2|0:100,200:400|100:200,400:500|0:100,100:200 0 0 1,200:228
weave 0|8|ok|0 5 10 2|0:100,200:400|100:200,400:500|0:100,100:200 0 0 1,200:400,400:427 0 0 1
weave 0|8|ok|0 5 11 2|0:100,200:400|100:200,400:500|0:100,100:200 0 0 1,200:400,400:428 0 0 1
";

#[test]
fn equal_words_come_from_the_left_first_and_a_weave_ends_anywhere(
    rt: HostRuntime,
) -> Result<(), Fail> {
    assert_eq!(rt; first_wrong(&rt, WEAVES)?, None);
    Ok(())
}
