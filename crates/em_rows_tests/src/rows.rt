//! Rows of texts: what is printed for them, or which line is faulty.
use crate::jobs::Job;
use crate::runs::{NO_CALL, ends_with, run};
use std::alloc::Global;
use std::test::Fail;

/// What a word says is to be done.
pub fn job_of(word: &str) -> Job {
    match word {
        "pairs" => Job::Pairs,
        "counts" => Job::Counts { early: false },
        "early" => Job::Counts { early: true },
        _ => Job::Windows,
    }
}

/// What stands in a row up to the first bar, and what stands after it.
pub fn field_of(row: &str) -> (&str, &str) {
    row.split_once('|').unwrap_or((row, ""))
}

/// The text of a file, or none if it is missing.
fn text_of(field: &str) -> Option<&[u8]> {
    if field == "missing" {
        return None;
    }
    Some(field.as_bytes())
}

/// Whether a row is as it says, in pieces of 1, 3 and 4096 bytes.
fn is_so(alloc: Global, row: &str) -> Result<bool, Fail> {
    let (word, rest) = field_of(row);
    let (first, rest) = field_of(rest);
    let (second, wanted) = field_of(rest);
    let texts = (text_of(first), text_of(second));
    for piece in [1, 3, 4096] {
        let told = run(alloc, job_of(word), piece, texts, [NO_CALL; 3])?;
        if !ends_with(alloc, &told, wanted)? {
            return Ok(false);
        }
    }
    Ok(true)
}

/// A row has the job, the text `a`, the text `b`, and what is printed or the message of the stop. The pairs have no `b`.
const ROWS: [&str; 36] = [
    // As they came, also if a key comes again. The last line may have no newline.
    "pairs|10 2\n7 1\n10 0\n||10 2\n7 1\n10 0\n",
    "pairs|3 4||3 4\n",
    "pairs|||",
    "pairs|18446744073709551615 0\n0 18446744073709551615\n||18446744073709551615 0\n0 18446744073709551615\n",
    // Zeros may stand in front, up to 20 digits.
    "pairs|00000000000000000007 01\n||7 1\n",
    // The first faulty number of a line, and the first faulty line.
    "pairs|1 2\n3\n||line 2: a number is missing",
    "pairs|1 2\n\n||line 2: a number is missing",
    "pairs| 1 2\n||line 1: a number is missing",
    "pairs|1  2\n||line 1: not a number",
    "pairs|1 2 \n||line 1: not a number",
    "pairs|1 2 3\n||line 1: not a number",
    "pairs|1 \n||line 1: a number is missing",
    "pairs|1 2\r\n||line 1: not a number",
    "pairs|x y\n||line 1: not a number",
    "pairs|1 2\n3 -4\nx\n||line 2: not a number",
    "pairs|18446744073709551616 x\n||line 1: a number above 2^64 - 1",
    "pairs|1 18446744073709551616||line 1: a number above 2^64 - 1",
    // 21 digits.
    "pairs|000000000000000000001 2\n||line 1: not a number",
    "pairs|missing||a file could not be read",
    // How often each number stands in the first file.
    "counts|7\n8\n7\n|8\n9\n7|1\n0\n2\n",
    "counts||5\n|0\n",
    "counts|5\n||",
    "counts|7\n1 2\n|7\nx\n|line 2: not a number",
    "counts|7\n8\n|7\n8\n\n|line 3: a number is missing",
    "counts|missing|7\n|a file could not be read",
    "counts|7\n|missing|a file could not be read",
    // The same if adds are joined early: of each number of the first file one add is left, and the gets.
    "early|7\n8\n7\n|8\n9\n7|1\n0\n2\n",
    "early||5\n|0\n",
    "early|5\n||",
    "early|7\n1 2\n|7\nx\n|line 2: not a number",
    "early|7\n|missing|a file could not be read",
    // The moment 3 is held by 0 to 3 and 3 to 3, and the moment 9 by none. Moments print in the order of their lines.
    "windows|0 3\n3 3\n4 8\n|3\n9\n0\n|0 0\n0 1\n2 0\n",
    "windows|5 4\n|x\n|line 1: the low end is above the high end",
    "windows|4 5\n6\n|1\n|line 2: a number is missing",
    "windows|4 5\n|4\n5 6\n|line 2: not a number",
    "windows|missing|missing|a file could not be read",
];

#[test]
fn rows_are_as_they_say(rt: HostRuntime) -> Result<(), Fail> {
    let mut number = 0u64;
    for row in ROWS {
        number = number.saturating_add(1);
        assert!(rt; is_so(rt.alloc(), row)?, "row {number}");
    }
    Ok(())
}

/// So many lines of the number 7.
fn sevens(alloc: Global, lines: u64) -> Result<Vec<u8>, Fail> {
    let mut text = Vec::new(alloc);
    for _ in 0..lines {
        text.push(b'7')?;
        text.push(b'\n')?;
    }
    Ok(text)
}

/// Adds of one number, and what is printed for the gets of it and of another one. A load has 1024 commands at the smallest shape: the
/// gets stand in the load of the adds, are cut by its end, or stand in the next one, with adds before them or not.
const LOADS: [(u64, &str); 6] = [
    (1022, "1022\n0\n"),
    (1023, "1023\n0\n"),
    (1024, "1024\n0\n"),
    (1025, "1025\n0\n"),
    (2047, "2047\n0\n"),
    (2048, "2048\n0\n"),
];

#[test]
fn adds_of_one_number_are_joined_early(rt: HostRuntime) -> Result<(), Fail> {
    for (lines, wanted) in LOADS {
        let text = sevens(rt.alloc(), lines)?;
        let texts: (Option<&[u8]>, Option<&[u8]>) = (Some(text.as_slice()), Some(b"7\n8\n"));
        let told = run(
            rt.alloc(),
            Job::Counts { early: true },
            4096,
            texts,
            [NO_CALL; 3],
        )?;
        assert!(rt; ends_with(rt.alloc(), &told, wanted)?, "{lines} lines");
    }
    Ok(())
}
