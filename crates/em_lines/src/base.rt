// One line of a base: its key, its value and its end, and whether the key is above that of the line before. Only the two
// numbers are kept.
ghost use Rattle.std.specs.Prelude.{◌≡◌, ◌<◌, ◌≤◌, ◌^◌, true, [], length, OnOk, IfOk, IfErr, IfSome, IfNone, IsTrue, Some};
ghost use Rattle.em_io.specs.Feed.{rest};
ghost use Rattle.em_lines.specs.BaseLine.{base_from, next_pair, pair_of, pair_of_parts};
ghost use Rattle.em_lines.specs.Lines.{lines_of, parts_of};
ghost use Rattle.em_lines.specs.PairTaken.{FitsWords, IsAbove, PairTaken};
ghost use Rattle.em_lines.specs.Stream.{after_line, line_at};
ghost use Rattle.em_lines.specs.Stops.{Gives, IfFault};
ghost use Rattle.em_lines.specs.Reads.{ReadsLine};

use crate::byte::next_byte;
use crate::line::{LAST_LINE, read_end};
use crate::operand::{read_first, read_operand};
use crate::text::{LineStop, TextKind};
use em_io::{Feed, Shelf};

/// Reads a key, a value and the line's end.
#[tactic(auto, using(crate::proofs::Steps::reads_then))]
fn spelled_pair<H: Shelf>(feed: &mut Feed, shelf: &mut H) -> Result<(u64, u64), LineStop>
    requires ready { ((H.stand shelf.old).slot feed.old.slot).ready ≡ true }
    requires place { feed.old.place < 2 ^ 47 }
    ensures value { IsTrue H.tells
        → Gives result (pair_of_parts (parts_of (line_at (rest feed.old (H.stand shelf.old))))) }
    ensures line { IsTrue H.tells → OnOk result
        (rest feed.new (H.stand shelf.new) ≡ after_line (rest feed.old (H.stand shelf.old))) }
    ensures range { IfOk result FitsWords }
    ensures reads { ReadsLine 42 H.tells feed.old (H.stand shelf.old) (H.faults shelf.old)
        feed.new (H.stand shelf.new) (H.faults shelf.new) result }
{
    let key = read_first(feed, shelf)?;
    let value = read_operand(feed, shelf)?;
    read_end(feed, shelf, (key, value))
}

/// Reads a line that has a byte.
fn filled_pair<H: Shelf>(feed: &mut Feed, shelf: &mut H) -> Result<(u64, u64), LineStop>
    requires filled { IsTrue H.tells → 0 < length (line_at (rest feed.old (H.stand shelf.old))) }
    requires ready { ((H.stand shelf.old).slot feed.old.slot).ready ≡ true }
    requires place { feed.old.place < 2 ^ 47 }
    ensures value { IsTrue H.tells
        → Gives result (pair_of (line_at (rest feed.old (H.stand shelf.old)))) }
    ensures line { IsTrue H.tells → OnOk result
        (rest feed.new (H.stand shelf.new) ≡ after_line (rest feed.old (H.stand shelf.old))) }
    ensures range { IfOk result FitsWords }
    ensures reads { ReadsLine 42 H.tells feed.old (H.stand shelf.old) (H.faults shelf.old)
        feed.new (H.stand shelf.new) (H.faults shelf.new) result }
{
    spelled_pair(feed, shelf)
}

/// Reads the line that begins here, wherever its key stands.
#[tactic(auto, using(crate::proofs::Steps::reads_then))]
fn read_pair<H: Shelf>(feed: &mut Feed, shelf: &mut H) -> Result<(u64, u64), LineStop>
    requires ready { ((H.stand shelf.old).slot feed.old.slot).ready ≡ true }
    requires place { feed.old.place < 2 ^ 46 }
    ensures value { IsTrue H.tells
        → Gives result (pair_of (line_at (rest feed.old (H.stand shelf.old)))) }
    ensures line { IsTrue H.tells → OnOk result
        (rest feed.new (H.stand shelf.new) ≡ after_line (rest feed.old (H.stand shelf.old))) }
    ensures range { IfOk result FitsWords }
    ensures reads { ReadsLine 42 H.tells feed.old (H.stand shelf.old) (H.faults shelf.old)
        feed.new (H.stand shelf.new) (H.faults shelf.new) result }
{
    match next_byte(feed, shelf)? {
        None => Err(LineStop::Fault(TextKind::EmptyLine)),
        Some(b'\n') => Err(LineStop::Fault(TextKind::EmptyLine)),
        Some(_) => filled_pair(feed, shelf),
    }
}

/// Reads the line that begins here, whose key has to be above that of the line before.
fn read_next<H: Shelf>(
    feed: &mut Feed,
    shelf: &mut H,
    last: Option<u64>,
) -> Result<(u64, u64), LineStop>
    requires ready { ((H.stand shelf.old).slot feed.old.slot).ready ≡ true }
    requires place { feed.old.place < 2 ^ 46 }
    ensures value { IsTrue H.tells
        → Gives result (next_pair last (line_at (rest feed.old (H.stand shelf.old)))) }
    ensures line { IsTrue H.tells → OnOk result
        (rest feed.new (H.stand shelf.new) ≡ after_line (rest feed.old (H.stand shelf.old))) }
    ensures range { IfOk result FitsWords }
    ensures rises { IfOk result (IsAbove last) }
    ensures reads { ReadsLine 42 H.tells feed.old (H.stand shelf.old) (H.faults shelf.old)
        feed.new (H.stand shelf.new) (H.faults shelf.new) result }
{
    let pair = read_pair(feed, shelf)?;
    match last {
        None => Ok(pair),
        Some(before) => {
            if pair.0 <= before {
                return Err(LineStop::Fault(TextKind::OutOfOrder));
            }
            Ok(pair)
        }
    }
}

/// Reads the line of this number, counted from 1, as a key and its value, or none at the text's end. `last` is the key of the
/// line before, if there is one. A line past the 2^40th is not read: its fault is `TooLong`. Else `Fault` is the fault of the
/// line's first item that fails: the line has a byte, its key and its value are numbers with one space between, it ends after
/// them, and at last the key is above `last`. `Read` comes if the shelf failed. After a pair the feed stands after the line's
/// newline; after an `Err` it may stand anywhere in the line. The line takes at most 42 bytes.
#[tactic(auto, using(crate::proofs::Steps::reads_then))]
pub fn take_pair<H: Shelf>(
    feed: &mut Feed,
    shelf: &mut H,
    number: u64,
    last: Option<u64>,
) -> Result<Option<(u64, u64)>, LineStop>
    requires ready { ((H.stand shelf.old).slot feed.old.slot).ready ≡ true }
    requires place { feed.old.place < 2 ^ 46 }
    ensures taken { IsTrue H.tells → IfOk result (λ next. IfSome next (PairTaken number last
        (rest feed.old (H.stand shelf.old)) (rest feed.new (H.stand shelf.new)))) }
    ensures ended { IsTrue H.tells → IfOk result (λ next. IfNone next
        ((rest feed.old (H.stand shelf.old) ≡ []) × (rest feed.new (H.stand shelf.new) ≡ []))) }
    ensures number { IfOk result (λ next. IfSome next (λ _. number ≤ 2 ^ 40)) }
    ensures fault { IsTrue H.tells → IfErr result (λ stop. IfFault stop (λ fault.
        base_from number last (lines_of (rest feed.old (H.stand shelf.old)))
        ≡ record { pairs = []; fault = Some (fault, number) })) }
    ensures range { IfOk result (λ next. IfSome next FitsWords) }
    ensures rises { IfOk result (λ next. IfSome next (IsAbove last)) }
    ensures reads { ReadsLine 42 H.tells feed.old (H.stand shelf.old) (H.faults shelf.old)
        feed.new (H.stand shelf.new) (H.faults shelf.new) result }
{
    let Some(_) = next_byte(feed, shelf)? else {
        return Ok(None);
    };
    if number > LAST_LINE {
        return Err(LineStop::Fault(TextKind::TooLong));
    }
    match read_next(feed, shelf, last) {
        Ok(pair) => Ok(Some(pair)),
        Err(stop) => Err(stop),
    }
}
