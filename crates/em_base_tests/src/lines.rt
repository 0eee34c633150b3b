//! Lines of command files that are read in pieces of every size: a word or a number ends at a piece's end, one
//! byte before it, or one after.
ghost use Rattle.std.specs.Prelude.{◌<◌};

use em_io::{Feed, MemShelf, Shelf, Slot};
use em_lines::{FileKind, LineStop, TextKind, take_line};
use em_model::Command;
use std::alloc::Global;
use std::test::Fail;

/// More bytes than any line of these tests has.
const MOST: usize = 32;

/// The first line of a text of a map file that is read in pieces of this many bytes. If it is a command, the
/// line after it comes too.
fn two_lines(
    alloc: Global,
    piece: usize,
    text: &[u8],
) -> Result<[Result<Option<Command>, LineStop>; 2], Fail>
    requires { 0 < piece }
{
    let mut shelf = MemShelf::new(alloc, piece, &[])?;
    shelf.add("text", text)?;
    shelf.open(Slot::First, "text")?;
    let mut feed = Feed::new(Slot::First);
    let first = take_line(FileKind::Map, &mut feed, &mut shelf, 1);
    if first.is_err() {
        return Ok([first, Ok(None)]);
    }
    let second = take_line(FileKind::Map, &mut feed, &mut shelf, 2);
    Ok([first, second])
}

/// The first size of a piece with which the lines are others than these, or 0.
fn first_wrong(
    alloc: Global,
    text: &[u8],
    wanted: [Result<Option<Command>, LineStop>; 2],
) -> Result<usize, Fail> {
    for piece in 1..=MOST {
        if two_lines(alloc, piece, text)? != wanted {
            return Ok(piece);
        }
    }
    Ok(0)
}

/// The same of a line that is followed by `del 5`, and is `get` of this key.
fn wrong_key(alloc: Global, text: &[u8], key: u64) -> Result<usize, Fail> {
    let second = Command::Del { key: 5 };
    first_wrong(
        alloc,
        text,
        [Ok(Some(Command::Get { key })), Ok(Some(second))],
    )
}

/// The same of a line that has this fault.
fn wrong_fault(alloc: Global, text: &[u8], fault: TextKind) -> Result<usize, Fail> {
    first_wrong(alloc, text, [Err(LineStop::Fault(fault)), Ok(None)])
}

/// Of 1, 19 and 20 digits. The greatest number of 64 bits is 18446744073709551615.
#[test]
fn numbers_end_anywhere_in_a_piece(rt: HostRuntime) -> Result<(), Fail> {
    let rows = [
        (b"get 7\ndel 5\n".as_slice(), 7),
        (
            b"get 1234567890123456789\ndel 5\n".as_slice(),
            1234567890123456789,
        ),
        (
            b"get 9999999999999999999\ndel 5\n".as_slice(),
            9999999999999999999,
        ),
        (
            b"get 12345678901234567890\ndel 5\n".as_slice(),
            12345678901234567890,
        ),
        (b"get 00000000000000000001\ndel 5\n".as_slice(), 1),
        (
            b"get 18446744073709551609\ndel 5\n".as_slice(),
            18446744073709551609,
        ),
        (
            b"get 18446744073709551610\ndel 5\n".as_slice(),
            18446744073709551610,
        ),
        (b"get 18446744073709551615\ndel 5\n".as_slice(), u64::MAX),
    ];
    for (text, key) in rows {
        assert_eq!(rt; (wrong_key(rt.alloc(), text, key)?, key), (0, key));
    }
    Ok(())
}

/// The last rows have 21 digits.
#[test]
fn faults_are_found_anywhere_in_a_piece(rt: HostRuntime) -> Result<(), Fail> {
    let rows = [
        (b"get \ndel 5\n".as_slice(), TextKind::BadSeparator),
        (b"get  7\ndel 5\n".as_slice(), TextKind::BadSeparator),
        (b"get\ndel 5\n".as_slice(), TextKind::BadSeparator),
        (b"get 7 \ndel 5\n".as_slice(), TextKind::BadSeparator),
        (b"get 7x\ndel 5\n".as_slice(), TextKind::BadNumber),
        (
            b"get 18446744073709551616\ndel 5\n".as_slice(),
            TextKind::TooLarge,
        ),
        (
            b"get 000000000000000000001\ndel 5\n".as_slice(),
            TextKind::BadNumber,
        ),
        (
            b"get 184467440737095516150\ndel 5\n".as_slice(),
            TextKind::BadNumber,
        ),
    ];
    for (text, fault) in rows {
        assert_eq!(rt; (wrong_fault(rt.alloc(), text, fault)?, fault), (0, fault));
    }
    Ok(())
}

/// Words of 3, 2, 5 and 6 bytes; the buffer of a word has 5.
#[test]
fn words_end_anywhere_in_a_piece(rt: HostRuntime) -> Result<(), Fail> {
    let put = Ok(Some(Command::Put { key: 1, value: 2 }));
    assert_eq!(rt; first_wrong(rt.alloc(), b"put 1 2\n", [put, Ok(None)])?, 0);
    for text in [
        b"pu 1 2\n".as_slice(),
        b"putty 1 2\n".as_slice(),
        b"putted 1 2\n".as_slice(),
        b" put 1 2\n".as_slice(),
    ] {
        assert_eq!(rt; wrong_fault(rt.alloc(), text, TextKind::Unknown)?, 0);
    }
    Ok(())
}
