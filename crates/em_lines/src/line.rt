// One line of a command file, read byte by byte: its word, its operands and its end. Only the word
// and the numbers are kept, so that a line may be longer than any buffer.
ghost use Rattle.std.specs.Prelude.{◌≡◌, ◌<◌, ◌≤◌, ◌^◌, true, [], length, OnOk, IfOk, IfErr, IfSome, IfNone, IsTrue, Some};
ghost use Rattle.em_io.specs.Feed.{rest};
ghost use Rattle.em_lines.specs.CommandLine.{at_end, map_command_of, queue_command_of, stab_command_of, table_command_of, command_of, parsed_from};
ghost use Rattle.em_lines.specs.Kind.{IsOfKind};
ghost use Rattle.em_lines.specs.Lines.{lines_of};
ghost use Rattle.em_lines.specs.LineTaken.{LineTaken, ReadsCommand};
ghost use Rattle.em_lines.specs.Stream.{line_at, after_line, parts_left};
ghost use Rattle.em_lines.specs.Stops.{Gives, IfFault};
ghost use Rattle.em_lines.specs.Reads.{ReadsLine};

use crate::byte::{next_byte, take_byte};
use crate::operand::read_operand;
use crate::text::{FileKind, LineStop, TextKind};
use crate::word::read_word;
use em_io::{Feed, Shelf};
use em_model::Command;

/// The last line that a file may have.
pub const LAST_LINE: u64 = 1 << 40;

/// More bytes than any word of a table has.
const LONG_WORD: usize = 5;

/// Reads the line's end after the last operand, and answers what was spelled.
#[tactic(auto, using(crate::proofs::Steps::reads_then, crate::proofs::Steps::reads_take))]
pub fn read_end<H: Shelf, A: Drop>(
    feed: &mut Feed,
    shelf: &mut H,
    spelled: A,
) -> Result<A, LineStop>
    requires ready { ((H.stand shelf.old).slot feed.old.slot).ready ≡ true }
    requires place { feed.old.place < 2 ^ 48 }
    ensures value { IsTrue H.tells
        → Gives result (at_end (parts_left (rest feed.old (H.stand shelf.old))) spelled) }
    ensures line { IsTrue H.tells → OnOk result
        (rest feed.new (H.stand shelf.new) ≡ after_line (rest feed.old (H.stand shelf.old))) }
    ensures spelled { IfOk result (λ x. x ≡ spelled) }
    ensures reads { ReadsLine 1 H.tells feed.old (H.stand shelf.old) (H.faults shelf.old)
        feed.new (H.stand shelf.new) (H.faults shelf.new) result }
{
    match next_byte(feed, shelf)? {
        None => Ok(spelled),
        Some(b'\n') => {
            take_byte(feed);
            Ok(spelled)
        }
        Some(_) => Err(LineStop::Fault(TextKind::BadSeparator)),
    }
}

/// Reads the rest of a line of a map file, after its word. A dump has the same lines.
#[tactic(auto, using(crate::proofs::Steps::reads_then))]
fn map_command<H: Shelf>(feed: &mut Feed, shelf: &mut H, word: &[u8]) -> Result<Command, LineStop>
    requires ready { ((H.stand shelf.old).slot feed.old.slot).ready ≡ true }
    requires place { feed.old.place < 2 ^ 47 }
    ensures reads { ReadsCommand FileKind.Map 43
        H.tells feed.old (H.stand shelf.old) (H.faults shelf.old)
        feed.new (H.stand shelf.new) (H.faults shelf.new)
        (map_command_of word.now (parts_left (rest feed.old (H.stand shelf.old)))) result }
{
    if word == b"put".as_slice() {
        let key = read_operand(feed, shelf)?;
        let value = read_operand(feed, shelf)?;
        read_end(feed, shelf, Command::Put { key, value })
    } else if word == b"del".as_slice() {
        let key = read_operand(feed, shelf)?;
        read_end(feed, shelf, Command::Del { key })
    } else if word == b"get".as_slice() {
        let key = read_operand(feed, shelf)?;
        read_end(feed, shelf, Command::Get { key })
    } else if word == b"sync".as_slice() {
        read_end(feed, shelf, Command::Sync)
    } else if word == b"add".as_slice() {
        let key = read_operand(feed, shelf)?;
        let value = read_operand(feed, shelf)?;
        read_end(feed, shelf, Command::Add { key, value })
    } else {
        Err(LineStop::Fault(TextKind::Unknown))
    }
}

/// Reads the rest of a line of a queue file, after its word.
#[tactic(auto, using(crate::proofs::Steps::reads_then))]
fn queue_command<H: Shelf>(feed: &mut Feed, shelf: &mut H, word: &[u8]) -> Result<Command, LineStop>
    requires ready { ((H.stand shelf.old).slot feed.old.slot).ready ≡ true }
    requires place { feed.old.place < 2 ^ 47 }
    ensures reads { ReadsCommand FileKind.Queue 43
        H.tells feed.old (H.stand shelf.old) (H.faults shelf.old)
        feed.new (H.stand shelf.new) (H.faults shelf.new)
        (queue_command_of word.now (parts_left (rest feed.old (H.stand shelf.old)))) result }
{
    if word == b"push".as_slice() {
        let key = read_operand(feed, shelf)?;
        let value = read_operand(feed, shelf)?;
        read_end(feed, shelf, Command::Push { key, value })
    } else if word == b"pop".as_slice() {
        read_end(feed, shelf, Command::Pop)
    } else {
        Err(LineStop::Fault(TextKind::Unknown))
    }
}

/// Reads the rest of a line of a stab file, after its word.
#[tactic(auto, using(crate::proofs::Steps::reads_then))]
fn stab_command<H: Shelf>(feed: &mut Feed, shelf: &mut H, word: &[u8]) -> Result<Command, LineStop>
    requires ready { ((H.stand shelf.old).slot feed.old.slot).ready ≡ true }
    requires place { feed.old.place < 2 ^ 47 }
    ensures reads { ReadsCommand FileKind.Stab 43
        H.tells feed.old (H.stand shelf.old) (H.faults shelf.old)
        feed.new (H.stand shelf.new) (H.faults shelf.new)
        (stab_command_of word.now (parts_left (rest feed.old (H.stand shelf.old)))) result }
{
    if word == b"iv".as_slice() {
        let low = read_operand(feed, shelf)?;
        let high = read_operand(feed, shelf)?;
        let command = read_end(feed, shelf, Command::Interval { low, high })?;
        if high < low {
            return Err(LineStop::Fault(TextKind::LowAboveHigh));
        }
        Ok(command)
    } else if word == b"stab".as_slice() {
        let point = read_operand(feed, shelf)?;
        read_end(feed, shelf, Command::Stab { point })
    } else {
        Err(LineStop::Fault(TextKind::Unknown))
    }
}

/// Reads the rest of a line after its word, by the file's table of words.
fn table_command<H: Shelf>(
    kind: FileKind,
    feed: &mut Feed,
    shelf: &mut H,
    word: &[u8],
) -> Result<Command, LineStop>
    requires ready { ((H.stand shelf.old).slot feed.old.slot).ready ≡ true }
    requires place { feed.old.place < 2 ^ 47 }
    ensures reads { ReadsCommand kind 43
        H.tells feed.old (H.stand shelf.old) (H.faults shelf.old)
        feed.new (H.stand shelf.new) (H.faults shelf.new)
        (table_command_of kind word.now (parts_left (rest feed.old (H.stand shelf.old)))) result }
{
    match kind {
        FileKind::Map | FileKind::Dump => map_command(feed, shelf, word),
        FileKind::Queue => queue_command(feed, shelf, word),
        FileKind::Stab => stab_command(feed, shelf, word),
    }
}

/// Reads a line that has a byte.
#[tactic(auto, using(crate::proofs::Steps::reads_then))]
fn filled_command<H: Shelf>(
    kind: FileKind,
    feed: &mut Feed,
    shelf: &mut H,
) -> Result<Command, LineStop>
    requires filled { IsTrue H.tells → 0 < length (line_at (rest feed.old (H.stand shelf.old))) }
    requires ready { ((H.stand shelf.old).slot feed.old.slot).ready ≡ true }
    requires place { feed.old.place < 2 ^ 46 }
    ensures value { IsTrue H.tells
        → Gives result (command_of kind (line_at (rest feed.old (H.stand shelf.old)))) }
    ensures line { IsTrue H.tells → OnOk result
        (rest feed.new (H.stand shelf.new) ≡ after_line (rest feed.old (H.stand shelf.old))) }
    ensures kind { IfOk result (IsOfKind kind) }
    ensures reads { ReadsLine 48 H.tells feed.old (H.stand shelf.old) (H.faults shelf.old)
        feed.new (H.stand shelf.new) (H.faults shelf.new) result }
{
    let mut buffer = [0; LONG_WORD];
    match read_word(feed, shelf, &mut buffer)? {
        None => Err(LineStop::Fault(TextKind::Unknown)),
        Some(n) => table_command(kind, feed, shelf, &buffer[..n]),
    }
}

/// Reads the line that begins here, of which it takes at most 48 bytes. After a command the feed
/// stands after the line's newline; after an `Err` it may stand anywhere in the line. `Fault` is
/// the fault of the line's first item that fails, and `Read` comes where the shelf failed.
#[tactic(auto, using(crate::proofs::Steps::reads_then))]
pub fn read_command<H: Shelf>(
    kind: FileKind,
    feed: &mut Feed,
    shelf: &mut H,
) -> Result<Command, LineStop>
    requires ready { ((H.stand shelf.old).slot feed.old.slot).ready ≡ true }
    requires place { feed.old.place < 2 ^ 46 }
    ensures value { IsTrue H.tells
        → Gives result (command_of kind (line_at (rest feed.old (H.stand shelf.old)))) }
    ensures line { IsTrue H.tells → OnOk result
        (rest feed.new (H.stand shelf.new) ≡ after_line (rest feed.old (H.stand shelf.old))) }
    ensures kind { IfOk result (IsOfKind kind) }
    ensures reads { ReadsLine 48 H.tells feed.old (H.stand shelf.old) (H.faults shelf.old)
        feed.new (H.stand shelf.new) (H.faults shelf.new) result }
{
    match next_byte(feed, shelf)? {
        None => Err(LineStop::Fault(TextKind::EmptyLine)),
        Some(b'\n') => Err(LineStop::Fault(TextKind::EmptyLine)),
        Some(_) => filled_command(kind, feed, shelf),
    }
}

/// Reads the line of this number, counted from 1, or none at the text's end. A line past the 2^40th
/// is not read: its fault is `TooLong`. Else the answer is that of `read_command`.
#[tactic(auto, using(crate::proofs::Steps::reads_then))]
pub fn take_line<H: Shelf>(
    kind: FileKind,
    feed: &mut Feed,
    shelf: &mut H,
    number: u64,
) -> Result<Option<Command>, LineStop>
    requires ready { ((H.stand shelf.old).slot feed.old.slot).ready ≡ true }
    requires place { feed.old.place < 2 ^ 46 }
    ensures taken { IsTrue H.tells → IfOk result (λ next. IfSome next (LineTaken kind number
        (rest feed.old (H.stand shelf.old)) (rest feed.new (H.stand shelf.new)))) }
    ensures ended { IsTrue H.tells → IfOk result (λ next. IfNone next
        ((rest feed.old (H.stand shelf.old) ≡ []) × (rest feed.new (H.stand shelf.new) ≡ []))) }
    ensures number { IfOk result (λ next. IfSome next (λ _. number ≤ 2 ^ 40)) }
    ensures fault { IsTrue H.tells → IfErr result (λ stop. IfFault stop (λ fault.
        parsed_from kind number (lines_of (rest feed.old (H.stand shelf.old)))
        ≡ record { good = []; fault = Some (fault, number) })) }
    ensures kind { IfOk result (λ next. IfSome next (IsOfKind kind)) }
    ensures reads { ReadsLine 48 H.tells feed.old (H.stand shelf.old) (H.faults shelf.old)
        feed.new (H.stand shelf.new) (H.faults shelf.new) result }
{
    let Some(_) = next_byte(feed, shelf)? else {
        return Ok(None);
    };
    if number > LAST_LINE {
        return Err(LineStop::Fault(TextKind::TooLong));
    }
    match read_command(kind, feed, shelf) {
        Ok(command) => Ok(Some(command)),
        Err(stop) => Err(stop),
    }
}
