// The operands of a line: a space and a number each, and the number that a line may begin with.
ghost use Rattle.std.specs.Prelude.{◌≡◌, ◌+◌, ◌<◌, ◌≤◌, ◌^◌, true, drop, OnOk, IsTrue};
ghost use Rattle.em_io.specs.Feed.{rest};
ghost use Rattle.em_lines.specs.CommandLine.{number_of, operand};
ghost use Rattle.em_lines.specs.Lines.{parts_of};
ghost use Rattle.em_lines.specs.Stream.{after_line, line_at, word_at, after_word, parts_left};
ghost use Rattle.em_lines.specs.Stops.{Gives};
ghost use Rattle.em_lines.specs.Reads.{ReadsLine};

use crate::ahead::{first_ahead, operand_ahead};
use crate::byte::{next_byte, take_byte, take_bytes};
use crate::numeral::MOST_DIGITS;
use crate::text::{LineStop, TextKind};
use em_io::{Feed, Shelf};

/// Reads a number: the bytes up to the next space or the line's end. A byte that isn't a digit is refused before more is
/// read.
#[tactic(auto, using(crate::proofs::NumberLemmas::number_begins, crate::proofs::Steps::reads_then, crate::proofs::Steps::reads_take))]
fn read_number<H: Shelf>(feed: &mut Feed, shelf: &mut H) -> Result<u64, LineStop>
    requires ready { ((H.stand shelf.old).slot feed.old.slot).ready ≡ true }
    requires place { feed.old.place < 2 ^ 49 }
    ensures value { IsTrue H.tells
        → Gives result (number_of (word_at (rest feed.old (H.stand shelf.old)))) }
    ensures taken { IsTrue H.tells → OnOk result
        (rest feed.new (H.stand shelf.new) ≡ after_word (rest feed.old (H.stand shelf.old))) }
    ensures reads { ReadsLine 20 H.tells feed.old (H.stand shelf.old) (H.faults shelf.old)
        feed.new (H.stand shelf.new) (H.faults shelf.new) result }
{
    let mut value: u128 = 0;
    let mut count: usize = 0;
    while let Some(byte) = next_byte(feed, shelf)? {
        if byte == b' ' || byte == b'\n' {
            break;
        }
        if !byte.is_ascii_digit() || count == MOST_DIGITS {
            return Err(LineStop::Fault(TextKind::BadNumber));
        }
        value = 10 * value + (byte - b'0') as u128;
        count += 1;
        take_byte(feed);
    }
    if count == 0 {
        return Err(LineStop::Fault(TextKind::BadSeparator));
    }
    if value > u64::MAX as u128 {
        return Err(LineStop::Fault(TextKind::TooLarge));
    }
    Ok(value as u64)
}

/// Reads the number that a line begins with.
#[tactic(auto, using(crate::proofs::Steps::reads_skip))]
pub fn read_first<H: Shelf>(feed: &mut Feed, shelf: &mut H) -> Result<u64, LineStop>
    requires ready { ((H.stand shelf.old).slot feed.old.slot).ready ≡ true }
    requires place { feed.old.place < 2 ^ 48 }
    ensures value { IsTrue H.tells
        → Gives result (operand (parts_of (line_at (rest feed.old (H.stand shelf.old))))) }
    ensures parts { IsTrue H.tells → OnOk result (parts_left (rest feed.new (H.stand shelf.new))
        ≡ drop 1 (parts_of (line_at (rest feed.old (H.stand shelf.old))))) }
    ensures line { IsTrue H.tells → OnOk result (after_line (rest feed.new (H.stand shelf.new))
        ≡ after_line (rest feed.old (H.stand shelf.old))) }
    ensures reads { ReadsLine 20 H.tells feed.old (H.stand shelf.old) (H.faults shelf.old)
        feed.new (H.stand shelf.new) (H.faults shelf.new) result }
{
    match first_ahead(feed.ahead()) {
        Some(found) => {
            take_bytes(feed, found.digits);
            Ok(found.value)
        }
        None => read_number(feed, shelf),
    }
}

/// Reads the space before an operand, and the operand, byte by byte.
#[tactic(auto, using(crate::proofs::Steps::reads_then, crate::proofs::Steps::reads_take))]
#[cold]
fn read_spaced<H: Shelf>(feed: &mut Feed, shelf: &mut H) -> Result<u64, LineStop>
    requires ready { ((H.stand shelf.old).slot feed.old.slot).ready ≡ true }
    requires place { feed.old.place < 2 ^ 48 }
    ensures value { IsTrue H.tells
        → Gives result (operand (parts_left (rest feed.old (H.stand shelf.old)))) }
    ensures parts { IsTrue H.tells → OnOk result (parts_left (rest feed.new (H.stand shelf.new))
        ≡ drop 1 (parts_left (rest feed.old (H.stand shelf.old)))) }
    ensures line { IsTrue H.tells → OnOk result (after_line (rest feed.new (H.stand shelf.new))
        ≡ after_line (rest feed.old (H.stand shelf.old))) }
    ensures reads { ReadsLine 21 H.tells feed.old (H.stand shelf.old) (H.faults shelf.old)
        feed.new (H.stand shelf.new) (H.faults shelf.new) result }
{
    match next_byte(feed, shelf)? {
        None => Err(LineStop::Fault(TextKind::BadSeparator)),
        Some(b'\n') => Err(LineStop::Fault(TextKind::BadSeparator)),
        Some(_) => {
            take_byte(feed);
            read_number(feed, shelf)
        }
    }
}

/// Reads the space before an operand, and the operand.
#[tactic(auto, using(crate::proofs::Steps::reads_skip))]
pub fn read_operand<H: Shelf>(feed: &mut Feed, shelf: &mut H) -> Result<u64, LineStop>
    requires ready { ((H.stand shelf.old).slot feed.old.slot).ready ≡ true }
    requires place { feed.old.place < 2 ^ 48 }
    ensures value { IsTrue H.tells
        → Gives result (operand (parts_left (rest feed.old (H.stand shelf.old)))) }
    ensures parts { IsTrue H.tells → OnOk result (parts_left (rest feed.new (H.stand shelf.new))
        ≡ drop 1 (parts_left (rest feed.old (H.stand shelf.old)))) }
    ensures line { IsTrue H.tells → OnOk result (after_line (rest feed.new (H.stand shelf.new))
        ≡ after_line (rest feed.old (H.stand shelf.old))) }
    ensures reads { ReadsLine 21 H.tells feed.old (H.stand shelf.old) (H.faults shelf.old)
        feed.new (H.stand shelf.new) (H.faults shelf.new) result }
{
    if let Some(found) = operand_ahead(feed.ahead()) {
        take_bytes(feed, 1 + found.digits);
        return Ok(found.value);
    }
    read_spaced(feed, shelf)
}
