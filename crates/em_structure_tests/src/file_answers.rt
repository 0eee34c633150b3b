//! Drawn command files and a made one, each answered by the structure of its kind, with the adds of a map joined early and
//! not, and by a list that is read again for each answer. All end alike, and print the same.
ghost use Rattle.std.specs.Prelude.{◌≡◌, ◌<◌, [], true};
ghost use Rattle.em_io.specs.declared.shelf.Slot.TheVariants.{First};
ghost use Rattle.em_space.specs.Rig.{Goes};
ghost use Rattle.em_space.specs.Seen.{seen};
ghost use Rattle.em_ready.specs.Ready.{IsReady, IsUnused};

use crate::map_scripts::draw;
use crate::runs::opened_as;
use em_answers::{run_open, run_queue, run_service};
use em_ends::{Malform, Status, Stop, status_of};
use em_frames::{Device, MemDevice};
use em_gen::{GenKind, GenShelf, Tally};
use em_io::{MemShelf, MemSink, Printer, Shelf, Sink, Slot};
use em_lines::{FileKind, TextKind};
use em_plain::{ScanMap, ScanQueue, ScanStab};
use em_record::{Failed, Shape};
use em_services::MapRule;
use em_settle::{AddSettle, Combine, Settle};
use em_space::Rig;
use std::alloc::Global;
use std::test::Fail;

/// Adds a line of a word and some numbers to a text.
fn add_line(text: &mut MemSink, word: &[u8], numbers: &[u64]) -> Result<(), Failed> {
    let mut line = Printer::new();
    line.add(text, word)?;
    for number in numbers {
        line.add(text, b" ")?;
        line.add_number(text, *number)?;
    }
    line.end_line(text)
}

/// Adds a line of a map: of a hundred, `dels` are deletions, so many others gets, and the rest puts, or with `adds` as many
/// adds as puts. The keys, which are this many, lie wide apart.
fn add_map_line(
    text: &mut MemSink,
    state: &mut u64,
    adds: bool,
    keys: u64,
    dels: u64,
    asks: u64,
) -> Result<(), Failed> {
    let what = draw(state) % 100;
    let key = (draw(state) % keys.max(1)).wrapping_mul(0x9e37_79b9_7f4a_7c15);
    if what < dels {
        return add_line(text, b"del", &[key]);
    }
    if what - dels < asks {
        return add_line(text, b"get", &[key]);
    }
    let value = draw(state) % 1000;
    let word: &[u8] = if adds && value % 2 == 1 {
        b"add"
    } else {
        b"put"
    };
    add_line(text, word, &[key, value])
}

/// What a row's word says of its file: the kind, how its adds are joined, and whether it has any.
type Said = (FileKind, Combine, bool);

/// What a word says: a kind of file, or how the adds of a map's file are joined.
fn said_by(word: &str) -> Said {
    match word {
        "map" => (FileKind::Map, Combine::Sum, false),
        "sum" => (FileKind::Map, Combine::Sum, true),
        "max" => (FileKind::Map, Combine::Max, true),
        "min" => (FileKind::Map, Combine::Min, true),
        "xor" => (FileKind::Map, Combine::Xor, true),
        "queue" => (FileKind::Queue, Combine::Sum, false),
        _ => (FileKind::Stab, Combine::Sum, false),
    }
}

/// How a file is answered: by the structure of its kind, with the adds of a map joined early or not, or by a list.
#[derive(Clone, Copy)]
enum By {
    Structure { early: bool },
    List,
}

/// Adds a line of a queue: of a hundred, so many are pops, and the others pushes.
fn add_queue_line(text: &mut MemSink, state: &mut u64, keys: u64, asks: u64) -> Result<(), Failed> {
    if draw(state) % 100 < asks {
        return add_line(text, b"pop", &[]);
    }
    let key = (draw(state) % keys.max(1)).wrapping_mul(0x9e37_79b9_7f4a_7c15);
    let value = draw(state) % 1000;
    add_line(text, b"push", &[key, value])
}

/// One of these many points, of which the greatest one is the last of all.
fn draw_point(state: &mut u64, points: u64) -> u64 {
    let point = draw(state) % points.max(1);
    if point.saturating_add(1) == points {
        return u64::MAX;
    }
    point
}

/// Adds a line of an interval list: of a hundred, so many are stabs, and the others intervals, of which some
/// end at any point, and most within ten.
fn add_stab_line(text: &mut MemSink, state: &mut u64, keys: u64, asks: u64) -> Result<(), Failed> {
    let low = draw_point(state, keys);
    if draw(state) % 100 < asks {
        return add_line(text, b"stab", &[low]);
    }
    let near = low.saturating_add(draw(state) % 10);
    let far = low.max(draw_point(state, keys));
    if draw(state) % 100 < 10 {
        return add_line(text, b"iv", &[low, far]);
    }
    add_line(text, b"iv", &[low, near])
}

/// A drawn file of a kind, of this many lines. Of a hundred, so many ask, and the last one of a map is a sync. In the
/// second half of a queue's file the others ask, and of a map's 90 delete, so that both grow and are emptied.
fn drawn(alloc: Global, said: Said, lines: u64, keys: u64, asks: u64) -> Result<MemSink, Fail> {
    let (kind, _, adds) = said;
    let mut text = MemSink::new(alloc, 4096, &[])?;
    let mut state = lines;
    let half = lines / 2;
    for number in 0..lines {
        match kind {
            FileKind::Map | FileKind::Dump if number % 100 == 99 => {
                add_line(&mut text, b"sync", &[])?;
            }
            FileKind::Map | FileKind::Dump if number < half => {
                add_map_line(&mut text, &mut state, adds, keys, 20, asks)?;
            }
            FileKind::Map | FileKind::Dump => {
                add_map_line(&mut text, &mut state, adds, keys, 90, asks)?;
            }
            FileKind::Stab => add_stab_line(&mut text, &mut state, keys, asks)?,
            FileKind::Queue if number < half => {
                add_queue_line(&mut text, &mut state, keys, asks)?;
            }
            FileKind::Queue => {
                add_queue_line(&mut text, &mut state, keys, 100u64.saturating_sub(asks))?;
            }
        }
    }
    Ok(text)
}

/// Answers the open map file by a list, whose adds are joined by these rules.
fn run_list<D: Device, H: Shelf, W: Sink, F: Fn(u64, u64) -> u64 + Drop>(
    settle: AddSettle<F>,
    rig: &mut Rig<'_, D>,
    shelf: &mut H,
    out: &mut W,
) -> Status
    requires rule { ⟦<AddSettle<F> as Settle>⟧.IsReady settle }
    requires unused { IsUnused (seen D.state rig.old) }
    requires free { IsReady (seen D.state rig.old).pool }
    requires none_moved { (seen D.state rig.old).moves ≡ 0 }
    requires ready { ((H.stand shelf.old).slot First).ready ≡ true }
    ensures goes { Goes [] (seen D.state rig.old) (seen D.state rig.new) }
{
    let rule = MapRule {
        settle,
        early: false,
    };
    run_service::<D, H, W, ScanMap<F>>(rule, rig, shelf, out)
}

/// The same by this combiner.
fn run_listed<D: Device, H: Shelf, W: Sink>(
    combine: Combine,
    rig: &mut Rig<'_, D>,
    shelf: &mut H,
    out: &mut W,
) -> Status
    requires unused { IsUnused (seen D.state rig.old) }
    requires free { IsReady (seen D.state rig.old).pool }
    requires none_moved { (seen D.state rig.old).moves ≡ 0 }
    requires ready { ((H.stand shelf.old).slot First).ready ≡ true }
    ensures goes { Goes [] (seen D.state rig.old) (seen D.state rig.new) }
{
    match combine {
        Combine::Sum => {
            let sum = AddSettle::new(|x: u64, y: u64| y.wrapping_add(x), Combine::Sum);
            run_list(sum, rig, shelf, out)
        }
        Combine::Max => {
            let greatest = AddSettle::new(|x: u64, y: u64| x.max(y), Combine::Max);
            run_list(greatest, rig, shelf, out)
        }
        Combine::Min => {
            let least = AddSettle::new(|x: u64, y: u64| x.min(y), Combine::Min);
            run_list(least, rig, shelf, out)
        }
        Combine::Xor => {
            let exclusive = AddSettle::new(|x: u64, y: u64| x ^ y, Combine::Xor);
            run_list(exclusive, rig, shelf, out)
        }
    }
}

/// Answers the open file of a kind by its structure or by a list, on a rig of which no block is or was in use.
#[tactic(auto, using(crate::proofs::ListQueue::list_alone, crate::proofs::ListQueue::list_goes, crate::proofs::ListQueue::list_new, crate::proofs::ListQueue::list_serves))]
fn answer<D: Device, H: Shelf, W: Sink>(
    by: By,
    said: Said,
    rig: &mut Rig<'_, D>,
    shelf: &mut H,
    out: &mut W,
) -> Status
    requires unused { IsUnused (seen D.state rig.old) }
    requires free { IsReady (seen D.state rig.old).pool }
    requires none_moved { (seen D.state rig.old).moves ≡ 0 }
    requires ready { ((H.stand shelf.old).slot First).ready ≡ true }
    ensures goes { Goes [] (seen D.state rig.old) (seen D.state rig.new) }
{
    let (kind, combine, _) = said;
    if let By::Structure { early } = by {
        return run_open(kind, combine, early, rig, shelf, out);
    }
    match kind {
        FileKind::Map => run_listed(combine, rig, shelf, out),
        // Pairs have no list beside their structure.
        FileKind::Dump => run_open(kind, combine, false, rig, shelf, out),
        FileKind::Stab => run_service::<D, H, W, ScanStab>((), rig, shelf, out),
        FileKind::Queue => match ScanQueue::new(rig) {
            Ok(queue) => run_queue(rig, queue, shelf, out),
            Err(fault) => status_of(Stop::Em(fault)),
        },
    }
}

/// Answers the open file of a kind over a new device in memory. Answers the status and the moves.
fn ended<H: Shelf, W: Sink>(
    alloc: Global,
    by: By,
    said: Said,
    shape: Shape,
    shelf: &mut H,
    out: &mut W,
) -> Result<(Status, u64), Fail>
    requires ready { ((H.stand shelf.old).slot First).ready ≡ true }
{
    let mut device = MemDevice::new(alloc, &[])?;
    let mut rig = opened_as(alloc, shape, 100_000, &mut device)?;
    let status = answer(by, said, &mut rig, shelf, out);
    let moves = rig.moves();
    rig.close().end();
    Ok((status, moves))
}

/// Answers a text. Answers the status and the moves as well.
fn answered(
    alloc: Global,
    by: By,
    said: Said,
    shape: Shape,
    text: &[u8],
) -> Result<(Status, u64, MemSink), Fail> {
    let mut shelf = MemShelf::new(alloc, 100, &[])?;
    shelf.add("a", text)?;
    shelf.open(Slot::First, "a")?;
    let mut out = MemSink::new(alloc, 4096, &[])?;
    let (status, moves) = ended(alloc, by, said, shape, &mut shelf, &mut out)?;
    Ok((status, moves, out))
}

/// Whether a structure, with adds joined early and not, and a list answer a text alike: all end with this status and print the
/// same. At least so many bytes are printed, and the structure moves at least so many blocks if adds aren't joined early.
fn alike(
    alloc: Global,
    said: Said,
    shape: Shape,
    text: &[u8],
    status: Status,
    least: (usize, u64),
) -> Result<bool, Fail> {
    let (listed, _, lines) = answered(alloc, By::List, said, shape, text)?;
    let (joined, _, same) = answered(alloc, By::Structure { early: true }, said, shape, text)?;
    let (other, moves, out) = answered(alloc, By::Structure { early: false }, said, shape, text)?;
    let sent = out.bytes();
    Ok(
        listed == status
            && joined == status
            && other == status
            && lines.bytes() == sent
            && same.bytes() == sent
            && sent.len() >= least.0
            && moves >= least.1,
    )
}

/// What stands in a row up to the first bar or space, and what stands after it.
fn field_of(row: &str) -> (&str, &str) {
    row.split_once(['|', ' ']).unwrap_or((row, ""))
}

/// The same of a number.
fn number_of(row: &str) -> Result<(u64, &str), Fail> {
    let (number, rest) = field_of(row);
    Ok((number.parse::<u64>()?, rest))
}

/// Whether the drawn file of a row is answered alike, as it is and with a faulty line at its end.
fn row_alike(alloc: Global, row: &str) -> Result<bool, Fail> {
    let (word, rest) = field_of(row);
    let (block, rest) = number_of(rest)?;
    let (frames, rest) = number_of(rest)?;
    let (lines, rest) = number_of(rest)?;
    let (keys, rest) = number_of(rest)?;
    let (asks, rest) = number_of(rest)?;
    let (bytes, rest) = field_of(rest);
    let (moves, _) = number_of(rest)?;
    let said = said_by(word);
    let shape = Shape::new(block, frames)?;
    let least = (bytes.parse::<usize>()?, moves);
    let mut text = drawn(alloc, said, lines, keys, asks)?;
    let whole = alike(alloc, said, shape, text.bytes(), Status::Done, least)?;
    add_line(&mut text, b"bogus", &[])?;
    let malformed = Status::Malformed {
        kind: Malform::Text(TextKind::Unknown),
        place: lines.saturating_add(1),
    };
    Ok(whole && alike(alloc, said, shape, text.bytes(), malformed, (0, 0))?)
}

/// A row has a kind of file, or how the adds of a map's are joined, and a shape, the lines of its drawn file, how many keys or points there are, how many of a hundred lines
/// ask, and how many bytes are printed and blocks moved at least.
const ROWS: [&str; 36] = [
    // Few keys and many. Nothing but the tree's root has operations before the end.
    "map 128 64|50|1|40|1|0",
    "map 144 72|50|1|40|1|0",
    "map 128 64|200|7|20|1|0",
    "map 144 72|200|7|20|1|0",
    "map 128 64|300|1000|30|1|0",
    "map 144 72|300|1000|30|1|0",
    "map 128 64|400|40|10|1|0",
    "map 144 72|400|40|10|1|0",
    // A leaf has at most 4096 records, and with fewer than 1024 it is short. Here 4,417 keys have a value at a sync, so that the
    // leaf is split, and 1,737 at the end, in one leaf again: a program outside this crate counts them, and one split and one
    // join of short leaves. Each of the 200 syncs stores the block of the commands since the last one and loads it, loads
    // the root, and loads and stores the block of a leaf: 1,000 moves at least.
    "map 128 64|20000|8000|2|100|1000",
    // The same keys have a value if a put of an odd value is an add in its place.
    "sum 128 64|20000|8000|2|100|1000",
    "max 128 64|20000|8000|2|100|1000",
    "min 128 64|20000|8000|2|100|1000",
    "xor 128 64|20000|8000|2|100|1000",
    "sum 144 72|300|7|30|1|0",
    "max 144 72|300|7|30|1|0",
    "min 144 72|300|7|30|1|0",
    "xor 144 72|300|7|30|1|0",
    // Few keys and many. All items are held in memory.
    "queue 128 64|50|1|50|1|0",
    "queue 144 72|50|1|50|1|0",
    "queue 128 64|200|3|40|1|0",
    "queue 144 72|200|3|40|1|0",
    "queue 128 64|300|1000|20|1|0",
    "queue 144 72|300|1000|20|1|0",
    "queue 128 64|400|40|30|1|0",
    "queue 144 72|400|40|30|1|0",
    // Memory holds 1024 items at the first shape, and 1296 at the second one. Of the lines more wait in the middle, so that
    // items go to the tree and come back, while others come; also if all keys are equal. Three halves of the heap, of four blocks
    // each, are stored and loaded again.
    "queue 128 64|2200|1|3|1000|24",
    "queue 144 72|2900|5000|3|1000|24",
    // Few points and many, with the first and the last one. All stabs fit into an area.
    "stab 128 64|50|1|50|1|0",
    "stab 144 72|50|1|50|1|0",
    "stab 128 64|200|7|30|1|0",
    "stab 144 72|200|7|30|1|0",
    "stab 128 64|300|1000|60|1|0",
    "stab 144 72|300|1000|60|1|0",
    "stab 128 64|400|300|10|1|0",
    "stab 144 72|400|300|10|1|0",
    // An area has 1024 records, and there are more stabs, nearly all of other points, so that they are dealt to slabs. The lists of the
    // stabs and of the intervals have 15 blocks, which are stored and loaded again.
    "stab 128 64|1800|100000|70|1000|30",
];

#[test]
fn drawn_files_are_answered_as_by_a_list(rt: HostRuntime) -> Result<(), Fail> {
    let mut number = 0u64;
    for row in ROWS {
        number = number.saturating_add(1);
        assert!(rt; row_alike(rt.alloc(), row)?, "row {number}");
    }
    Ok(())
}

/// Whether two tallies took as many lines and bytes of the same sum.
fn is_same(tally: &Tally, other: &Tally) -> bool {
    tally.lines() == other.lines() && tally.bytes() == other.bytes() && tally.sum() == other.sum()
}

/// A made map of 20,000 commands.
#[test]
fn a_made_map_is_answered_as_by_a_list(rt: HostRuntime) -> Result<(), Fail> {
    let mut tallies = [Tally::new(), Tally::new(), Tally::new()];
    let shape = Shape::new(128, 64)?;
    for (number, tally) in tallies.iter_mut().enumerate() {
        let by = match number {
            0 => By::List,
            1 => By::Structure { early: false },
            _ => By::Structure { early: true },
        };
        let mut shelf = GenShelf::new(GenKind::Map, 1, 20_000);
        shelf.open(Slot::First, "")?;
        let (status, _) = ended(rt.alloc(), by, said_by("map"), shape, &mut shelf, tally)?;
        assert!(rt; status == Status::Done);
    }
    let [listed, other, joined] = tallies;
    assert!(rt; listed.lines() > 0);
    assert!(rt; is_same(&other, &listed));
    assert!(rt; is_same(&joined, &listed));
    Ok(())
}
