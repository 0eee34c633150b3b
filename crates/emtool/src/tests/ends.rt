//! Runs that end early, or over a device that gives other records than were written.
use crate::tests::{Wrong, field_of, run, run_over, text_of};
use em_ends::Status;
use em_frames::MemDevice;
use std::test::Fail;

/// The words of the runs of many keys. Of the blocks, 970,752 are the transfer cost of 20,001 commands,
/// and 256 are four for each frame.
const LARGE: &str = "map --block=128 --frames=64 --blocks=971008 a";

/// The lines `put K K` for K from 1 to 20,000, and a get of 1.
const MANY: &str = "20000*put # #/get 1/";

/// What goes wrong in a run, by the word of a row.
const WRONGS: [(&str, Wrong); 6] = [
    ("device", Wrong::Device),
    ("shelf", Wrong::Shelf),
    ("output", Wrong::Output),
    ("errors", Wrong::Errors),
    ("next", Wrong::Next),
    ("lost", Wrong::Lost),
];

/// What the word of a row says.
fn wrong_of(word: &str) -> Wrong {
    for (name, wrong) in WRONGS {
        if name == word {
            return wrong;
        }
    }
    Wrong::Nothing
}

/// Whether the run of a row ends as it says, and after so many moves, if it says some.
fn ends_so(rt: &HostRuntime, row: &str) -> Result<bool, Fail> {
    let alloc = rt.alloc();
    let (words, rest) = field_of(row);
    let (text, rest) = field_of(rest);
    let (wrong, rest) = field_of(rest);
    let (code, rest) = field_of(rest);
    let (lines, rest) = field_of(rest);
    let (message, moves) = field_of(rest);
    let (part, number) = wrong.split_once(' ').unwrap_or((wrong, "0"));
    let number = number.parse::<u64>()?;
    let text = text_of(alloc, text)?;
    let lines = text_of(alloc, lines)?;
    let message = text_of(alloc, message)?;
    let ended = run(rt, words, text.bytes(), b"", wrong_of(part), number)?;
    Ok(
        ended.status.code() == code.parse::<u8>()?
            && ended.out.bytes() == lines.bytes()
            && ended.err.bytes() == message.bytes()
            && (moves.is_empty() || ended.device.kept.moves() == moves.parse::<u64>()?),
    )
}

/// A row has the words of a run, its file, what goes wrong, the exit code, what output and error stream took, and the moves of
/// the device.
const ROWS: [&str; 48] = [
    // Call 2 of the shelf gives the end of line 1, which is faulty, and call 3 would fail: nothing is read after the first
    // fault.
    "map a|bogus/get 1/pop/stab 1/bogus/|shelf 3|2||emtool: malformed: Unknown at 1/|",
    "queue a|bogus/get 1/pop/stab 1/bogus/|shelf 3|2||emtool: malformed: Unknown at 1/|",
    "stab a|bogus/get 1/pop/stab 1/bogus/|shelf 3|2||emtool: malformed: Unknown at 1/|",
    "dump a|bogus/get 1/pop/stab 1/bogus/|shelf 3|2||emtool: malformed: Unknown at 1/|",
    // Call 9 gives the end of line 4, which stands after a get and a sync.
    "dump a|put 1 2/get 1/sync/bogus/get 1/|shelf 10|2||emtool: malformed: Unknown at 4/|",
    // The message of the status, and the line of the statistics after it.
    "map --stats a|put 5 10/get 5/put 5 11/get 5/del 5/get 5/|device 0|5||\
     emtool: the scratch device failed/moves 0 peak 0/|",
    "map --stats a|put 5 10/get 5/put 5 11/get 5/del 5/get 5/|shelf 0|3||\
     emtool: an input could not be read/moves 0 peak 0/|",
    "map --stats a|put 5 10/get 5/put 5 11/get 5/del 5/get 5/|output 0|4||\
     emtool: the output could not be written/moves 24 peak 37/|",
    "dump --stats a|put 5 10/get 5/|device 0|5||emtool: the scratch device failed/moves 0 peak 0/|",
    "dump --stats a|put 5 10/get 5/|shelf 0|3||emtool: an input could not be read/moves 0 peak 0/|",
    "dump a|put 5 10/get 5/|output 0|4||emtool: the output could not be written/|",
    // Of the pairs of 3,000 keys 4,095 bytes went out before call 1365: 700 lines, and 3 bytes of the next one.
    "dump --block=128 --frames=64 a|3000*put # 1/|output 1365|4|700*# 1/701|emtool: the output could not be written/|",
    // Lines of 2 bytes leave when 4096 are there: in 1365 calls for 3 bytes each, and one for the last. The next call comes
    // for the other lines, at the end.
    "map --block=128 --frames=64 a|put 1 2/3000*get 1/|output 1365|4|2047*2/2|emtool: the output could not be written/|",
    "stab --block=128 --frames=64 a|iv 1 2/3000*stab 1/|output 1366|4|2048*0/|emtool: the output could not be written/|",
    // There is no file `b`. A failing error stream changes no status.
    "map b||errors 0|3|||",
    "map b||errors 1|3||emtool:|",
    // A map of several leaves, of which a call of the device fails early or late. No other call follows it, so that as many
    // blocks were moved as calls came before it.
    "map --block=128 --frames=64 a|20000*put # #/get 1/|device 0|5||emtool: the scratch device failed/|0",
    "map --block=128 --frames=64 a|20000*put # #/get 1/|device 1|5||emtool: the scratch device failed/|1",
    "map --block=128 --frames=64 a|20000*put # #/get 1/|device 2|5||emtool: the scratch device failed/|2",
    "map --block=128 --frames=64 a|20000*put # #/get 1/|device 5|5||emtool: the scratch device failed/|5",
    "map --block=128 --frames=64 a|20000*put # #/get 1/|device 50|5||emtool: the scratch device failed/|50",
    "map --block=128 --frames=64 a|20000*put # #/get 1/|device 500|5||emtool: the scratch device failed/|500",
    // Blocks 0 and 1 are the tree's leaf and root, and the 201 commands take 2 and 3. The root is read first; then the
    // commands, which go over into block 4, and into 2 once they were read from there; then root and leaf, and the commands
    // again. The first block that isn't laid out as it was written is named.
    "map --block=128 --frames=64 --blocks=100 a|200*put 1 2/get 1/|lost 0|8||emtool: scratch block 1 is damaged/|",
    "map --block=128 --frames=64 --blocks=100 a|200*put 1 2/get 1/|lost 1|8||emtool: scratch block 1 is damaged/|",
    "map --block=128 --frames=64 --blocks=100 a|200*put 1 2/get 1/|lost 2|8||emtool: scratch block 2 is damaged/|",
    "map --block=128 --frames=64 --blocks=100 a|200*put 1 2/get 1/|lost 3|8||emtool: scratch block 3 is damaged/|",
    "map --block=128 --frames=64 --blocks=100 a|200*put 1 2/get 1/|lost 4|8||emtool: scratch block 4 is damaged/|",
    // Adds joined early. The load's area is given back before the tree is emptied, so that the peak is that of a run without
    // the option. Before a faulty line those answers are printed that the sync before it prints: its 25 moves are all that are
    // made, since the get after it is gathered.
    "map --early --stats --block=128 --frames=64 a|put 1 5/add 1 1/get 1/add 1 1/add 1 1/get 1/||0|6/8/|moves 26 peak 13/|26",
    "map --early --stats --block=128 --frames=64 a|put 1 5/add 1 1/get 1/|device 0|5||\
     emtool: the scratch device failed/moves 0 peak 0/|",
    "map --early --block=128 --frames=64 a|put 1 5/add 1 1/get 1/bogus/||2||emtool: malformed: Unknown at 4/|2",
    "map --early --block=128 --frames=64 a|put 1 5/add 1 1/get 1/sync/get 1/bogus/||2|6/|\
     emtool: malformed: Unknown at 6/|25",
    // Without the option 301 commands take three blocks beside leaf and root, and find four blocks full. With it one block has
    // the two that are left, and one more is enough for the rest.
    "map --block=128 --frames=64 --blocks=4 a|300*add 1 2/get 1/||6||emtool: the scratch device is full at 4 blocks/|",
    "map --early --block=128 --frames=64 --blocks=4 a|300*add 1 2/get 1/||0|600/||26",
    // The commands take 2, 3 and 4. In the root's place block 2 is read, which is no node: 5 moves write, and one reads.
    // Three blocks are full with the 128th command: the leaf and the root were written.
    "map --block=128 --frames=64 --blocks=3 a|297*put 1 2/3*get 1/|next|6||emtool: the scratch device is full at 3 blocks/|2",
    "map --block=128 --frames=64 --blocks=100 a|297*put 1 2/3*get 1/|next|8||emtool: scratch block 1 is damaged/|6",
    "map --block=128 --frames=64 --blocks=100 a||next|8||emtool: scratch block 1 is damaged/|3",
    // The leaf, the root and two blocks of commands are written before the last line, and none is read.
    "map --block=128 --frames=64 --blocks=5 a|299*put 1 2/bogus/|next|2||emtool: malformed: Unknown at 300/|4",
    // Memory holds 1024 items. Of 1100 the tree has 588, in blocks 2 to 6, and memory 512, which are popped. Then the last
    // of these blocks is written, and in the root's place block 2 is read: 2 moves wrote leaf and root, 5 the others, and
    // one read. On three blocks the 1025th item finds the device full.
    "queue --block=128 --frames=64 --blocks=3 a|1100*push 1 2/600*pop/|next|6||\
     emtool: the scratch device is full at 3 blocks/|2",
    "queue --block=128 --frames=64 --blocks=100 a|1100*push 1 2/600*pop/|next|8|512*1 2/|\
     emtool: scratch block 1 is damaged/|8",
    // The leaf and the root are written, and nothing is read.
    "queue --block=128 --frames=64 --blocks=2 a|150*push 1 2/150*pop/|next|0|150*1 2/||2",
    // The intervals take blocks 0, 1 and 2, and the stabs block 3. Blocks 4 and 5 are the leaf and the root of a queue's
    // tree. In place of the stabs the leaf is read, which is no block of a list: 2 moves write intervals as they come, 2 the
    // leaf and the root, 2 the last intervals and the stabs, and one reads. Three blocks are full with the first stab, four
    // with the leaf, and five with the root.
    "stab --block=128 --frames=64 --blocks=3 a|297*iv 1 2/3*stab 1/|next|6||emtool: the scratch device is full at 3 blocks/|2",
    "stab --block=128 --frames=64 --blocks=4 a|297*iv 1 2/3*stab 1/|next|6||emtool: the scratch device is full at 4 blocks/|2",
    "stab --block=128 --frames=64 --blocks=5 a|297*iv 1 2/3*stab 1/|next|6||emtool: the scratch device is full at 5 blocks/|3",
    "stab --block=128 --frames=64 --blocks=100 a|297*iv 1 2/3*stab 1/|next|8||emtool: scratch block 3 is damaged/|7",
    // Of a circuit the definitions take block 0, the uses block 1, and gates or resets block 2; blocks 3 and 4 are the leaf
    // and the root of a queue's tree. The latch whose next bit is its negation has one definition and three uses. The half
    // adder has five definitions and two uses, in both forms. In place of the definitions the uses are read, which are
    // more than one, or fewer than five: 3 moves write the lists, 2 the leaf and the root, and one reads. Four blocks are
    // full with the leaf.
    "eval --block=128 --frames=64 --blocks=100 a s|aag 1 0 1 2 0/2 3/2/3/|next|8||emtool: scratch block 0 is damaged/|6",
    "eval --block=128 --frames=64 --blocks=100 a s|\
     aag 7 2 0 2 3/2/4/6/12/6 13 15/12 2 4/14 3 5/i0 x/i1 y/o0 s/o1 c/c/half adder/|next|8||\
     emtool: scratch block 0 is damaged/|6",
    "eval --block=128 --frames=64 --blocks=100 a s|\
     aig 5 2 0 2 3/10/6/\x02\x02\x03\x02\x01\x02i0 x/i1 y/o0 s/o1 c/c/half adder/|next|8||\
     emtool: scratch block 0 is damaged/|6",
    "eval --block=128 --frames=64 --blocks=4 a s|aag 1 0 1 2 0/2 3/2/3/|next|6||\
     emtool: the scratch device is full at 4 blocks/|4",
];

#[test]
fn runs_end_as_their_rows_say(rt: HostRuntime) -> Result<(), Fail> {
    let mut number = 0u64;
    for row in ROWS {
        number = number.saturating_add(1);
        assert!(rt; ends_so(&rt, row)?, "row {number}");
    }
    Ok(())
}

/// Whether a map of these commands is done and prints these lines, and whether its tree has several leaves as is said.
fn has_leaves(rt: &HostRuntime, field: &str, lines: &str, several: bool) -> Result<bool, Fail> {
    let text = text_of(rt.alloc(), field)?;
    let lines = text_of(rt.alloc(), lines)?;
    let ended = run(rt, LARGE, text.bytes(), b"", Wrong::Nothing, 0)?;
    Ok(
        ended.status == Status::Done
            && ended.out.bytes() == lines.bytes()
            && ended.device.parted == several,
    )
}

/// Whether the run of the map of many keys, if no block is as it was written, names the first one that is read, and prints
/// nothing.
fn names_the_first_lost(rt: &HostRuntime) -> Result<bool, Fail> {
    let text = text_of(rt.alloc(), MANY)?;
    let ended = run(rt, LARGE, text.bytes(), b"", Wrong::Lost, 0)?;
    let block = ended.device.first.unwrap_or(u64::MAX);
    Ok(ended.status == Status::Damaged { block } && ended.out.bytes().is_empty())
}

/// A leaf has at most 4096 records at this shape, so that 20,000 keys want several, under one node. A map of
/// one key has one leaf.
#[test]
fn a_map_of_many_keys_has_several_leaves(rt: HostRuntime) -> Result<(), Fail> {
    assert!(rt; has_leaves(&rt, MANY, "1/", true)?);
    assert!(rt; has_leaves(&rt, "put 1 2/get 1/", "2/", false)?);
    assert!(rt; names_the_first_lost(&rt)?);
    Ok(())
}

/// Whether a run prints these lines if its last call of the device fails. A whole run calls the device as often as it moves
/// blocks, and once to begin it.
fn sends_what_waits(rt: &HostRuntime, words: &str, field: &str, lines: &str) -> Result<bool, Fail> {
    let text = text_of(rt.alloc(), field)?;
    let lines = text_of(rt.alloc(), lines)?;
    let whole = run(rt, words, text.bytes(), b"", Wrong::Nothing, 0)?;
    let last = whole.device.kept.moves();
    let ended = run(rt, words, text.bytes(), b"", Wrong::Device, last)?;
    Ok(ended.status == Status::DeviceFault && ended.out.bytes() == lines.bytes())
}

/// Of 3000 answers, 127 a block, the last call reads the last 79. When it fails a piece of 4096 bytes was sent, and the
/// other lines that were printed are sent then. Whether the line of a stab goes on would be seen by the next pair.
#[test]
fn lines_that_wait_are_sent_at_a_stop(rt: HostRuntime) -> Result<(), Fail> {
    let map = "map --block=128 --frames=64 a";
    assert!(rt; sends_what_waits(&rt, map, "put 1 2/3000*get 1/", "2921*2/")?);
    let stab = "stab --block=128 --frames=64 a";
    assert!(rt; sends_what_waits(&rt, stab, "iv 1 2/3000*stab 1/", "2920*0/0")?);
    Ok(())
}

/// Whether a run over a device that tells is done, and prints these lines.
fn is_answered(rt: &HostRuntime, words: &str, field: &str, lines: &str) -> Result<bool, Fail> {
    let text = text_of(rt.alloc(), field)?;
    let lines = text_of(rt.alloc(), lines)?;
    let mut device = MemDevice::new(rt.alloc(), &[])?;
    let (status, out, _err) = run_over(
        rt,
        words,
        text.bytes(),
        b"",
        Wrong::Nothing,
        0,
        &mut device,
    )?;
    Ok(status == Status::Done && out.bytes() == lines.bytes())
}

/// The other runs go over a device that doesn't tell.
#[test]
fn commands_are_answered_over_a_device_that_tells(rt: HostRuntime) -> Result<(), Fail> {
    assert!(rt; is_answered(&rt, "map a", "put 5 10/get 5/get 6/", "10/-/")?);
    assert!(rt; is_answered(&rt, "queue a", "push 4 1/pop/pop/", "4 1/-/")?);
    assert!(rt; is_answered(&rt, "stab a", "iv 0 5/stab 5/stab 6/", "0/-/")?);
    assert!(rt; is_answered(&rt, "dump a", "put 6 1/put 5 10/get 5/", "5 10/6 1/")?);
    Ok(())
}
