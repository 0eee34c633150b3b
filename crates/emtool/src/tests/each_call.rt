//! Runs in which one call of the device, of the shelf or of the output fails: each call in turn, from
//! the first to the last that a run makes.
//!
//! A row has the words of a run, its command file or circuit, the stimulus, the lines that the output takes
//! and the exit code if nothing fails, and a table each for the calls of device, shelf and output. A table
//! says how many bytes the output took at each failing call: `3 8` stands for three calls in a row at which
//! it took 8, and `3 0+2` for three at which it took 0, 2 and 4. It ends with the last call that a run
//! makes: the next one isn't made, so a run in which that one is to fail ends as a run in which nothing
//! fails. A table `-` says that no call of this part is tried. A block has 127 records beside its header.
use crate::tests::{Wrong, field_of, run, text_of};
use std::test::Fail;

/// The words of a run, its files, and the lines that the output takes if nothing fails. A run in which
/// nothing fails ends with the code. After a call of the device that fails at most `later` others come.
#[derive(Drop)]
struct File<'a> {
    words: &'a str,
    text: &'a [u8],
    stimulus: &'a [u8],
    lines: &'a [u8],
    code: u8,
    later: u64,
}

/// Whether a run of which this call of a part fails ends with this code after the output took the
/// first `length` bytes of the lines. If no call follows one of the device that fails, it moved as
/// many blocks as calls came before the failing one.
fn ends_so(
    rt: &HostRuntime,
    file: &File<'_>,
    part: Wrong,
    call: u64,
    code: u8,
    length: usize,
) -> Result<bool, Fail> {
    let ended = run(rt, file.words, file.text, file.stimulus, part, call)?;
    let sent = ended.out.bytes();
    let moves = ended.device.kept.moves();
    let most = call.saturating_add(file.later);
    let stopped = ended.device.kept.faults() == 0 || (moves >= call && moves <= most);
    Ok(
        stopped
            && ended.status.code() == code
            && sent.len() == length
            && file.lines.starts_with(sent),
    )
}

/// The first call of a part at which a run doesn't end as the table says.
fn wrong_call(
    rt: &HostRuntime,
    file: &File<'_>,
    part: Wrong,
    code: u8,
    table: &str,
) -> Result<Option<u64>, Fail> {
    let mut call = 0u64;
    for pair in table.split(',') {
        let (count, lengths) = pair.split_once(' ').unwrap_or(("0", "0"));
        let (length, step) = lengths.split_once('+').unwrap_or((lengths, "0"));
        let mut length = length.parse::<usize>()?;
        let step = step.parse::<usize>()?;
        for _ in 0..count.parse::<u64>()? {
            if !ends_so(rt, file, part, call, code, length)? {
                return Ok(Some(call));
            }
            call = call.saturating_add(1);
            length = length.saturating_add(step);
        }
    }
    if ends_so(rt, file, part, call, file.code, file.lines.len())? {
        return Ok(None);
    }
    Ok(Some(call))
}

/// The exit code of a run in which a call fails, and that call, for the first one in the three tables of a row at
/// which a run doesn't end so.
pub(super) fn wrong_in(rt: &HostRuntime, row: &str) -> Result<Option<(u8, u64)>, Fail> {
    let alloc = rt.alloc();
    let (words, rest) = field_of(row);
    let (text, rest) = field_of(rest);
    let (stimulus, rest) = field_of(rest);
    let (lines, rest) = field_of(rest);
    let (code, rest) = field_of(rest);
    let (device, rest) = field_of(rest);
    let (shelf, output) = field_of(rest);
    let text = text_of(alloc, text)?;
    let stimulus = text_of(alloc, stimulus)?;
    let lines = text_of(alloc, lines)?;
    let file = File {
        words,
        text: text.bytes(),
        stimulus: stimulus.bytes(),
        lines: lines.bytes(),
        code: code.parse::<u8>()?,
        later: if words.starts_with("eval") { 3 } else { 0 },
    };
    let parts = [
        (Wrong::Device, 5, device),
        (Wrong::Shelf, 3, shelf),
        (Wrong::Output, 4, output),
    ];
    for (part, code, table) in parts {
        if table == "-" {
            continue;
        }
        if let Some(call) = wrong_call(rt, &file, part, code, table)? {
            return Ok(Some((code, call)));
        }
    }
    Ok(None)
}

/// Command files. The shelf is called once to open the file, once for each 3 bytes of it, and once where the
/// end is found. The output of a queue is called for each 3 bytes of a line. That of the others gets all lines at
/// a sync, at the end of the run or at its stop, and is called for each 3 bytes of them.
const ROWS: [&str; 16] = [
    // A map. The device: 25 calls; a release makes none, nor does a freed block that is taken. Call 0 begins it. Then 2 store
    // the tree's leaf and root, and 1 the block of the commands. At the end 4 load the root, load the commands, store them as
    // the leaf's buffer, and store the root; 1 loads the root and finds that buffer. The load makes 5: it loads root and leaf,
    // loads the buffer, and stores root and leaf. 1 loads the root and finds no other buffer, 2 load both to release them,
    // and 1 stores the answers. A queue for them makes 2, which store its two blocks; 2 load the answers and store them in
    // order; 2 end the queue. The last one reads the answers. The shelf: 16 calls, 14 of them for 42 bytes. The output: 3 calls
    // for 8 bytes.
    "map --block=128 --frames=64 a|put 5 10/get 5/put 5 11/get 5/del 5/get 5/||10/11/-/|0|25 0|16 0|3 0+3",
    // The least and the greatest key. The device: 27 calls: the block of the two values is stored, and loaded to be
    // released. The shelf: 30 calls, since the end of the 77 bytes, of which the last is no newline, is found three times
    // after 26 reads: by the last number, by the last line, and where the next line would begin. The output: 2 calls for 6
    // bytes.
    "map --block=128 --frames=64 a|\
     get 0/put 0 7/put 18446744073709551615 8/del 9/get 18446744073709551615/get 0||-/8/7/|0|27 0|30 0|2 0+3",
    // 129 commands and 128 answers take two blocks each, and the value one. The device: 35 calls, 16 and 4 for each block
    // of commands, 2 for that of the value, 4 for each block of answers, and one that begins it. The last two read the
    // answers: before the very last, the lines of 127 answers were printed, and at the stop they are sent. The shelf: 261
    // calls, 259 of them for 776 bytes. The output: 86 calls, 85 of them for 3 bytes each, and one for the last of 256.
    "map --block=128 --frames=64 a|put 1 2/128*get 1/||128*2/|0|34 0,1 254|261 0|86 0+3",
    // A sync. The device: 49 calls. Call 0 begins it, and 2 store the tree's leaf and root. At the sync 1 stores the block of
    // the commands, and 4, 1, 5 and 1 empty the tree as above; 1 more stores the block of the value. 1 loads the root, and finds
    // one leaf, so that the tree is as small as it can be. 1 stores the answers, 2 are those of a queue, 2 load them and store them
    // in order, 2 end the queue, 1 reads them, and 1 reads their block to release it: at that one the line was printed. At the end
    // come 1, 4, 1, 5 and 1 again, with 1 that loads the value; 2 load root and leaf to release them, 1 stores the answers, 2, 2 and 2
    // are those of a queue, and 1 reads them. The shelf: 13 calls, 11 of them for 31 bytes; the sync ends in call 7. The output: 2 calls.
    "map --block=128 --frames=64 a|put 1 5/get 1/sync/del 1/get 1/||5/-/|0|25 0,24 2|8 0,5 2|1 0,1 2",
    // Two syncs, of which the first one has nothing to print. The device: 79 calls. 21 up to the end of the first sync: one that begins
    // it, 2 for leaf and root, 13 for the tree as above, 1 that finds one leaf, and 4 of a queue of which no call comes. At the second
    // sync 29 before a line is printed: 4 for each of two blocks of commands, 2 for the root, 1, 4 for root and leaf, 2 that load and store
    // the value, 1, and 1 that finds one leaf; 2 store the answers, 4 are those of a queue, and 4 load them and store them in order. 2 read
    // them: before the second one the lines of 127 were printed, and at the stop they are sent. 2 release their blocks. At the end 25: 4 for
    // the block of the command, 2, 1, 4, 2 for the value and 1; 3 load root, leaf and value to release them; 1 stores the answer, 4 are those
    // of a queue, 2 put it in order, and 1 reads it. The shelf: 266 calls, 264 of them for 792 bytes; the second sync ends in call 262. The
    // output: 86 calls for 256 bytes, and 1 for 2.
    "map --block=128 --frames=64 a|put 1 2/sync/128*get 1/sync/get 1/||129*2/|0|51 0,1 254,27 256|263 0,3 256|86 0+3,1 256",
    // Adds joined early. Of 6 commands joining leaves 5, which enter the tree at the end. The device: 27 calls, as those of
    // the map with two values. The shelf: 17 calls, 15 of them for 44 bytes. The output: 2 calls for 4 bytes.
    "map --early --stats --block=128 --frames=64 a|put 1 5/add 1 1/get 1/add 1 1/add 1 1/get 1/||6/8/|0|27 0|17 0|2 0+3",
    // A load has 1024 commands. Of the first one joining leaves the put and one add, and of the others an add and the get:
    // they take one block. The device: 27 calls. The output: 2 calls for 5 bytes.
    "map --early --block=128 --frames=64 a|put 1 2/1500*add 1 1/get 1/||1502/|0|27 0|-|2 0+3",
    // Of 257 commands joining leaves 129, and of 128 keys the values take two blocks as well. The device: 33 calls, 16 and
    // one that begins it, 4 for each block of commands, 2 for each of values, and 4 for that of the answer.
    "map --early --block=128 --frames=64 a|128*add # 1/128*add # 1/get 1/||2/|0|33 0|-|1 0",
    // A put and 128 gets are all left: the device's calls are those of the same file without the option. The shelf isn't tried.
    "map --early --block=128 --frames=64 a|put 1 2/128*get 1/||128*2/|0|34 0,1 254|-|86 0+3",
    // A sync, before which joining leaves all, and after it two of three. The device: 51 calls, 26 up to the end of the sync as
    // above, of which the last one comes after its line was printed, and 25 at the end, two of them for the block of the value
    // that is left. The shelf: 19 calls, 17 of them for 49 bytes; the sync ends in call 9. The output: 2 calls.
    "map --early --block=128 --frames=64 a|put 1 5/add 1 1/get 1/sync/add 1 1/add 1 1/get 1/||6/8/|0|25 0,26 2|10 0,9 2|1 0,1 2",
    // A dump. The device: 32 calls. 17 up to a tree in which nothing waits: one that begins it, 2 for leaf and root, 1 for the block of
    // the commands, 4, 1, 5 and 1 as above, 1 that stores the block of the values, and 1 that finds one leaf. 10 take the pairs out of it:
    // 2 load the root, and find that no buffer is full, nor the leaf's begun; 2 load root and leaf, and 1 the values; 1 stores the leaf,
    // which is empty; 2 load both to release them, and 2 store a new leaf and root. 1 stores the pairs. 1 loads the root, and finds no
    // buffer; 2 load root and leaf to release them. The last one reads the pairs. The shelf: 12 calls, 10 of them for 30 bytes. The
    // output: 3 calls for 8 bytes.
    "dump --block=128 --frames=64 a|put 3 1/put 1 2/put 2 9/del 2/||1 2/3 1/|0|32 0|12 0|3 0+3",
    // The same pairs with a sync, which prints nothing. The device: 49 calls. 19 up to the end of the sync, of which the last two store the
    // answers and load their block to release it. 15 up to a tree in which nothing waits, two of them to load and store the value; then 10, 1,
    // 3 and 1 as above. The shelf: 16 calls, 14 of them for 41 bytes.
    "dump --block=128 --frames=64 a|put 3 1/get 3/sync/put 1 2/put 2 9/del 2/||1 2/3 1/|0|49 0|16 0|3 0+3",
    // A queue. The device: 3 calls. Call 0 begins it, and two store the leaf and the root of an empty tree. The items
    // stand in memory. The shelf: 17 calls, 15 of them for 43 bytes. The pops end in calls 8, 12, 13 and 15, and call 16
    // finds the end. The output: 7 calls, two for each line of 4 bytes.
    "queue --block=128 --frames=64 a|push 4 1/push 4 2/pop/push 4 0/pop/pop/pop/||4 1/4 2/4 0/-/|0|3 0|\
     9 0,4 4,1 8,2 12,1 14|1 0,1 3,1 4,1 7,1 8,1 11,1 12",
    // Memory holds 1024 items. The push after that gives 512 of them to the tree, and goes there too: the 513 fill five
    // blocks. The device: 49 calls. Of 7 that come at pushes, three are those of a small queue, and four store blocks of
    // the root's buffer. When 512 items were popped, the next pop makes 42:
    //
    //     13   store the last block; load the root; load five blocks, store them as the leaf's buffer; store the root
    //     2    load the root, and find that no buffer is full; load it again, and find the leaf's
    //     14   load the root and the leaf; load five blocks; store as many; store both
    //     1    loads the root, and finds no other buffer
    //     8    load the root and the leaf; load five blocks; store the leaf, which is empty
    //     4    load both to release them, as nothing is left; store a new leaf and root
    "queue --block=128 --frames=64 a|1025*push 1 2/513*pop/||513*1 2/|0|7 0,42 2048|-|-",
    // An interval list. The device: 15 calls. Call 0 begins it. At the end 2 store the two blocks of a queue, 1 the
    // intervals, and 1 the stabs. 2 load the stabs, and store them in order. 2 load both lists, and 1 stores the pairs. 2
    // put the pairs in order, as the stabs before; 2 end the queue. The last one loads the pairs. The
    // shelf: 34 calls, 32 of them for 94 bytes. The output: 4 calls for 12 bytes.
    "stab --block=128 --frames=64 a|\
     stab 5/iv 5 5/iv 7 18446744073709551615/stab 5/stab 6/stab 18446744073709551615/iv 0 5/stab 5/||\
     -/0/-/1/0 2/|0|15 0|34 0|4 0+3",
    // 128 stabs and 128 pairs take two blocks each, and the interval one. The device: 23 calls, 4 and one that begins it, 2
    // for the interval's block, 4 for each block of stabs, and 4 for each of pairs. The last two read the pairs. Whether a
    // line goes on is seen by the next pair: so before the very last call the lines of 126 stabs were printed, and the
    // number of the next one; at the stop they are sent. The shelf: 303 calls, 301 of them for 903 bytes. The output: 86
    // calls, as above.
    "stab --block=128 --frames=64 a|iv 1 2/128*stab 1/||128*0/|0|22 0,1 253|303 0|86 0+3",
];

#[test]
fn command_files_end_at_each_failing_call(rt: HostRuntime) -> Result<(), Fail> {
    let mut number = 0u64;
    for row in ROWS {
        number = number.saturating_add(1);
        assert_eq!(rt; wrong_in(&rt, row)?, None, "row {number}");
    }
    Ok(())
}
