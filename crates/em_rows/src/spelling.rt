// The command that a line of numbers spells.
ghost use Rattle.std.specs.Prelude.{◌≡◌, ◌≤◌, false, true, length};
ghost use Rattle.em_lines.specs.Stream.{word_at};
ghost use Rattle.em_rows.specs.Ahead.{has_two, row_with};
ghost use Rattle.em_rows.specs.Rows.{row_of, second_of};

use crate::kinds::{RowKind, has_two};
use em_lines::{TextKind, number};
use em_model::Command;

/// The command of two numbers; a line of one number has the first alone. A window whose low end is above its high end is
/// `LowAboveHigh`.
pub fn row_with(kind: RowKind, first: u64, second: u64) -> Result<Command, TextKind>
    ensures is { result ≡ row_with kind first second }
{
    match kind {
        RowKind::Pair => Ok(Command::Push {
            key: first,
            value: second,
        }),
        RowKind::Counted => Ok(Command::Add {
            key: first,
            value: 1,
        }),
        RowKind::Asked => Ok(Command::Get { key: first }),
        RowKind::Window => {
            if second < first {
                return Err(TextKind::LowAboveHigh);
            }
            Ok(Command::Interval {
                low: first,
                high: second,
            })
        }
        RowKind::Moment => Ok(Command::Stab { point: first }),
    }
}

/// How many bytes stand before the first space or newline.
fn word_size(line: &[u8]) -> usize
    ensures is { result ≡ length (word_at line.now) }
    ensures fits { result ≤ length line.now }
{
    let mut size = 0;
    for byte in line {
        if *byte == b' ' || *byte == b'\n' {
            return size;
        }
        size += 1;
    }
    size
}

/// The second number of a line: all bytes after a space. With no byte at all it is `BadSeparator`.
fn second_of(bytes: &[u8]) -> Result<u64, TextKind>
    ensures is { result ≡ second_of bytes.now }
{
    if bytes.is_empty() {
        return Err(TextKind::BadSeparator);
    }
    number(&bytes[1..])
}

/// The command of a line of one number.
fn one_of(kind: RowKind, line: &[u8]) -> Result<Command, TextKind>
    requires one { has_two kind ≡ false }
    ensures is { result ≡ row_of kind line.now }
{
    match number(line) {
        Ok(first) => row_with(kind, first, 0),
        Err(fault) => Err(fault),
    }
}

/// The command of a line of two numbers.
fn two_of(kind: RowKind, line: &[u8]) -> Result<Command, TextKind>
    requires two { has_two kind ≡ true }
    ensures is { result ≡ row_of kind line.now }
{
    let size = word_size(line);
    match number(&line[..size]) {
        Ok(first) => match second_of(&line[size..]) {
            Ok(second) => row_with(kind, first, second),
            Err(fault) => Err(fault),
        },
        Err(fault) => Err(fault),
    }
}

/// The command that a line spells, without its newline, or the fault of its first number that fails.
pub fn row_of(kind: RowKind, line: &[u8]) -> Result<Command, TextKind>
    ensures is { result ≡ row_of kind line.now }
{
    if has_two(kind) {
        return two_of(kind, line);
    }
    one_of(kind, line)
}
