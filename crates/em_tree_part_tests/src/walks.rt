//! Ways down the tree of `blocks`, searches in it, and changes of its block 0.
ghost use Rattle.em_space.specs.Seen.{seen};
ghost use Rattle.em_tree_part_tests.specs.Ready.{IsReady, Keeps};

use crate::blocks::{FIRST, entry_in, key, numbered, set_up, store_node};
use crate::calls::Call;
use crate::rows::{Answer, NONE, first_wrong_row, word_of};
use em_frames::Device;
use em_node::Entry;
use em_space::Rig;
use em_tree_walk::{Finding, Range, add_entry, descend, search, take_out};
use std::test::Fail;

/// The block on a key's way down to a level, and the first word of where its keys end.
#[tactic(auto, using(crate::proofs::Ready::kept, crate::proofs::Ready::leads))]
pub fn descended<D: Device>(rig: &mut Rig<'_, D>, to: u64, word: u64) -> Answer
    requires ready { IsReady (seen D.state rig.old) }
    ensures keeps { Keeps (seen D.state rig.old) (seen D.state rig.new) }
{
    let root = set_up(rig)?;
    let descent = descend(rig, root, 2, to.min(2), key(word))?;
    Ok([descent.node, word_of(descent.end), 0, 0, 0, 0, 0, 0])
}

/// What a search in level 1 finds: a node, a place, and the first words of its range; or the first word of
/// the next node's keys; or nothing.
#[tactic(auto, using(crate::proofs::Ready::kept, crate::proofs::Ready::leads))]
pub fn searched<D: Device>(rig: &mut Rig<'_, D>, limit: u64, from: u64, until: u64) -> Answer
    requires ready { IsReady (seen D.state rig.old) }
    ensures keeps { Keeps (seen D.state rig.old) (seen D.state rig.new) }
{
    let root = set_up(rig)?;
    let finding = search(rig, root, 2, 1, limit, range(from, until))?;
    Ok(told(finding))
}

/// The keys from one first word up to another one, if there is one.
fn range(from: u64, until: u64) -> Range {
    Range {
        from: key(from),
        until: if until == NONE {
            None
        } else {
            Some(key(until))
        },
    }
}

/// The numbers of a finding.
fn told(finding: Finding) -> [u64; 8] {
    match finding {
        Finding::Found { node, at, keys } => [
            0,
            node,
            at as u64,
            keys.from.a,
            word_of(keys.until),
            0,
            0,
            0,
        ],
        Finding::Next(low) => [1, low.a, 0, 0, 0, 0, 0, 0],
        Finding::Nothing => [2, 0, 0, 0, 0, 0, 0, 0],
    }
}

/// Takes the buffer of a place out of block 0, which is taken for a node of this level. Answers the child and
/// the number of records; and the number of entries then, and the low key, the child and the records of the
/// place.
#[tactic(auto, using(crate::proofs::Ready::kept, crate::proofs::Ready::has_place))]
pub fn taken<D: Device>(rig: &mut Rig<'_, D>, level: u64, at: u64) -> Answer
    requires ready { IsReady (seen D.state rig.old) }
    ensures keeps { Keeps (seen D.state rig.old) (seen D.state rig.new) }
{
    let node = store_node(rig, 1, &FIRST)?;
    let (child, buffer) = take_out(rig, node, level.max(1), at as usize)?;
    let (_, count, (low, link, [_, _, _, left, _])) = entry_in(rig, node, at as usize)?;
    Ok([child, buffer.len(), count, low, link, left, 0, 0])
}

/// Puts an entry with this low key, which leads to the last block, in after a place of a node that has as many entries of
/// a full one. Answers the number of entries then, and the low key, the child and the records of the next place; and
/// the low key and the child of the entry after it, or of itself if it is the last one.
#[tactic(auto, using(crate::proofs::Ready::kept, crate::proofs::Ready::can_add))]
pub fn added<D: Device>(rig: &mut Rig<'_, D>, entries: u64, at: u64, low: u64) -> Answer
    requires ready { IsReady (seen D.state rig.old) }
    ensures keeps { Keeps (seen D.state rig.old) (seen D.state rig.new) }
{
    let blocks = rig.blocks();
    let node = store_node(rig, 1, &numbered(blocks)[..(entries as usize).min(32)])?;
    let entry = Entry {
        low: key(low),
        child: blocks,
        buffer: [0, 0, 0, 4, 0],
    };
    add_entry(rig, node, 1, at as usize, entry)?;
    let next = (at as usize).saturating_add(1);
    let (_, count, (low, child, [_, _, _, records, _])) = entry_in(rig, node, next)?;
    let last = (count as usize).saturating_sub(1);
    let (_, _, (above, other, _)) = entry_in(rig, node, next.saturating_add(1).min(last))?;
    Ok([count, low, child, records, above, other, 0, 0])
}

/// 3 moves store the nodes. The root is reached by none more; one level down it is loaded, and two levels down a
/// node of level 1 too. The keys of the last entry of block 0 end where those of block 1 begin. A low key is
/// the first key of its entry. A key below all low keys takes the first entry.
const DESCENTS: &str = "\
20 none 2 45|ok 2 none|3 3 3 1
20 none 1 45|ok 0 100|3 3 4 1
20 none 0 45|ok 7 60|3 3 5 1
20 none 0 70|ok 8 100|3 3 5 1
20 none 0 500|ok 10 none|3 3 5 1
20 none 0 30|ok 7 60|3 3 5 1
20 none 0 29|ok 6 30|3 3 5 1
20 none 0 2|ok 6 30|3 3 5 1
20 none 0 100|ok 9 130|3 3 5 1
20 4 0 45|fault|3 3 4 1
20 5 0 45|fault|3 3 5 1
";

#[test]
fn each_level_down_is_one_move(rt: HostRuntime) -> Result<(), Fail> {
    assert_eq!(rt; first_wrong_row(rt.alloc(), Call::Descend, DESCENTS)?, None);
    Ok(())
}

/// 3 moves store the nodes, and 2 load the root and block 0 or 1. Block 0 has no buffer of 13 records, and
/// block 1 begins at 100, unless the keys end before. The search begins at the entry on the first key's path;
/// of that one only the keys from the first one on count. A buffer past the keys isn't looked for.
const SEARCHES: &str = "\
20 none 10 0 none|ok found 0 1 30 60|3 3 5 1
20 none 11 0 none|ok found 0 2 60 100|3 3 5 1
20 none 25 100 none|ok found 1 1 130 none|3 3 5 1
20 none 10 45 none|ok found 0 1 45 60|3 3 5 1
20 none 10 60 none|ok found 0 2 60 100|3 3 5 1
20 none 25 150 151|ok found 1 1 150 none|3 3 5 1
20 none 13 0 none|ok next 100|3 3 5 1
20 none 13 0 101|ok next 100|3 3 5 1
20 none 13 0 100|ok nothing|3 3 5 1
20 none 26 100 none|ok nothing|3 3 5 1
20 none 10 0 30|ok nothing|3 3 5 1
20 none 10 0 31|ok found 0 1 30 60|3 3 5 1
20 4 10 0 none|fault|3 3 4 1
20 5 10 0 none|fault|3 3 5 1
";

#[test]
fn a_search_finds_the_first_such_buffer(rt: HostRuntime) -> Result<(), Fail> {
    assert_eq!(rt; first_wrong_row(rt.alloc(), Call::Search, SEARCHES)?, None);
    Ok(())
}

/// 1 move stores the node, 2 take the buffer out, and 1 reads the node. It has no fourth entry, and isn't of
/// level 2.
const TAKINGS: &str = "\
20 none 1 1|ok 7 10 3 30 7 0|1 1 4 1
20 none 1 3|damaged 0|1 1 2 1
20 none 2 1|damaged 0|1 1 2 1
20 2 1 1|fault|1 1 2 1
20 3 1 1|fault|1 1 3 1
";

#[test]
fn a_buffer_comes_out(rt: HostRuntime) -> Result<(), Fail> {
    assert_eq!(rt; first_wrong_row(rt.alloc(), Call::TakeOut, TAKINGS)?, None);
    Ok(())
}

/// 1 move stores the node, 2 put the entry in, and 2 read two entries. Three entries have the low keys 0, 10 and
/// 20, and lead to blocks 0, 1 and 2; the new one leads to block 19 of 20, or 39 of 40. After the first place the low
/// keys from 1 to 9 have room. There is no fourth place. A node of 31 entries has room for one, and one of 32 has none.
const ADDINGS: &str = "\
20 none 3 0 5|ok 4 5 19 4 10 1|1 1 5 1
20 none 3 1 11|ok 4 11 19 4 20 2|1 1 5 1
20 none 3 2 21|ok 4 21 19 4 21 19|1 1 5 1
20 none 3 0 0|damaged 0|1 1 2 1
20 none 3 0 10|damaged 0|1 1 2 1
20 none 3 1 10|damaged 0|1 1 2 1
20 none 3 1 20|damaged 0|1 1 2 1
20 none 3 2 20|damaged 0|1 1 2 1
20 none 3 3 70|damaged 0|1 1 2 1
40 none 31 15 155|ok 32 155 39 4 160 16|1 1 5 1
40 none 31 29 295|ok 32 295 39 4 300 30|1 1 5 1
40 none 31 30 305|ok 32 305 39 4 305 39|1 1 5 1
40 none 32 31 315|damaged 0|1 1 2 1
20 2 3 0 5|fault|1 1 2 1
20 3 3 0 5|fault|1 1 3 1
";

#[test]
fn an_entry_goes_in_after_its_place(rt: HostRuntime) -> Result<(), Fail> {
    assert_eq!(rt; first_wrong_row(rt.alloc(), Call::Add, ADDINGS)?, None);
    Ok(())
}
