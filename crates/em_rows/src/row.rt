// One line of a text of numbers. A line that stands whole in the bytes read ahead is read there; each other one is copied.
ghost use Rattle.std.specs.Prelude.{◌≡◌, ◌+◌, ◌<◌, ◌≤◌, ◌^◌, true, [], length, take, IfErr, IfNone, IfOk, IfSome, IsTrue, OnOk, Some};
ghost use Rattle.em_record.specs.Count.{HasCause};
ghost use Rattle.em_io.specs.Feed.{rest};
ghost use Rattle.em_lines.specs.Lines.{lines_of};
ghost use Rattle.em_lines.specs.Reads.{Reads, ReadsLine};
ghost use Rattle.em_lines.specs.Stops.{Gives, IfFault};
ghost use Rattle.em_lines.specs.Stream.{after_line, line_at};
ghost use Rattle.em_rows.specs.Rows.{row_of, rows_from};
ghost use Rattle.em_rows.specs.Taken.{IsRow, RowTaken};

use crate::ahead::row_ahead;
use crate::kinds::RowKind;
use crate::spelling::row_of;
use em_io::{Feed, Shelf};
use em_lines::{LineStop, TextKind, next_byte, take_byte, take_bytes};
use em_model::Command;
use em_record::Failed;

/// The last line that a text of numbers may have.
const LAST_ROW: u64 = 1 << 39;

/// The bytes of a line that say what it spells: two numbers of 20 digits, the space between, and one byte more, with which
/// the line is faulty.
const LONGEST: usize = 42;

/// Copies the bytes of the line that begins here, as far as they fit, and answers how many. If not all of the buffer is filled the
/// newline was taken too.
#[tactic(auto, using(em_lines::proofs::Steps::reads_then, em_lines::proofs::Steps::reads_take, crate::proofs::CopyLaws::copied_all, crate::proofs::CopyLaws::copied_part))]
fn copy_line<H: Shelf>(feed: &mut Feed, shelf: &mut H, into: &mut [u8]) -> Result<usize, Failed>
    requires ready { ((H.stand shelf.old).slot feed.old.slot).ready ≡ true }
    requires place { feed.old.place < 2 ^ 46 }
    requires few { length into.old ≤ 42 }
    ensures same { length into.new ≡ length into.old }
    ensures fits { IfOk result (λ n. n ≤ length into.new) }
    ensures line { IsTrue H.tells → IfOk result (λ n. take n into.new
        ≡ take (length into.old) (line_at (rest feed.old (H.stand shelf.old)))) }
    ensures taken { IsTrue H.tells → IfOk result (λ n. n < length into.old
        → rest feed.new (H.stand shelf.new) ≡ after_line (rest feed.old (H.stand shelf.old))) }
    ensures place { feed.new.place ≤ feed.old.place + length into.old + 1 }
    ensures reads { Reads H.tells feed.old (H.stand shelf.old) feed.new (H.stand shelf.new) }
    ensures cause { HasCause (H.faults shelf.old) (H.faults shelf.new) result }
{
    let mut n = 0;
    while let Some(byte) = next_byte(feed, shelf)? {
        if byte == b'\n' {
            take_byte(feed);
            return Ok(n);
        }
        if n == into.len() {
            return Ok(n);
        }
        into[n] = byte;
        n += 1;
        take_byte(feed);
    }
    Ok(n)
}

/// Reads the line that begins here by a copy of it.
#[tactic(auto, using(em_lines::proofs::Steps::reads_then))]
#[cold]
fn copy_row<H: Shelf>(kind: RowKind, feed: &mut Feed, shelf: &mut H) -> Result<Command, LineStop>
    requires ready { ((H.stand shelf.old).slot feed.old.slot).ready ≡ true }
    requires place { feed.old.place < 2 ^ 46 }
    ensures value { IsTrue H.tells
        → Gives result (row_of kind (line_at (rest feed.old (H.stand shelf.old)))) }
    ensures line { IsTrue H.tells → OnOk result
        (rest feed.new (H.stand shelf.new) ≡ after_line (rest feed.old (H.stand shelf.old))) }
    ensures kind { IfOk result (IsRow kind) }
    ensures reads { ReadsLine 43 H.tells feed.old (H.stand shelf.old) (H.faults shelf.old)
        feed.new (H.stand shelf.new) (H.faults shelf.new) result }
{
    let mut buffer = [0; LONGEST];
    let size = copy_line(feed, shelf, &mut buffer)?;
    match row_of(kind, &buffer[..size]) {
        Ok(row) => Ok(row),
        Err(fault) => Err(LineStop::Fault(fault)),
    }
}

/// Reads the line that begins here.
#[tactic(auto, using(em_lines::proofs::Steps::reads_skip))]
fn read_row<H: Shelf>(kind: RowKind, feed: &mut Feed, shelf: &mut H) -> Result<Command, LineStop>
    requires ready { ((H.stand shelf.old).slot feed.old.slot).ready ≡ true }
    requires place { feed.old.place < 2 ^ 46 }
    ensures value { IsTrue H.tells
        → Gives result (row_of kind (line_at (rest feed.old (H.stand shelf.old)))) }
    ensures line { IsTrue H.tells → OnOk result
        (rest feed.new (H.stand shelf.new) ≡ after_line (rest feed.old (H.stand shelf.old))) }
    ensures kind { IfOk result (IsRow kind) }
    ensures reads { ReadsLine 43 H.tells feed.old (H.stand shelf.old) (H.faults shelf.old)
        feed.new (H.stand shelf.new) (H.faults shelf.new) result }
{
    if let Some(found) = row_ahead(kind, feed.ahead()) {
        take_bytes(feed, found.size);
        return Ok(found.row);
    }
    copy_row(kind, feed, shelf)
}

/// Reads the line of this number, counted from 1, as a row of this kind, or none at the text's end. The feed's slot was opened
/// with Ok, and fewer than 2^46 bytes were taken. `Fault` is the fault of the line's first number that fails, or
/// `TooLong`: the line past the 2^39th is refused. `Read` comes if the shelf failed. After a row the feed stands after
/// the line's newline, and at most 43 bytes more were taken.
#[tactic(auto, using(em_lines::proofs::Steps::reads_then))]
pub fn take_row<H: Shelf>(
    kind: RowKind,
    feed: &mut Feed,
    shelf: &mut H,
    number: u64,
) -> Result<Option<Command>, LineStop>
    requires ready { ((H.stand shelf.old).slot feed.old.slot).ready ≡ true }
    requires place { feed.old.place < 2 ^ 46 }
    ensures taken { IsTrue H.tells → IfOk result (λ next. IfSome next (RowTaken kind number
        (rest feed.old (H.stand shelf.old)) (rest feed.new (H.stand shelf.new)))) }
    ensures ended { IsTrue H.tells → IfOk result (λ next. IfNone next
        ((rest feed.old (H.stand shelf.old) ≡ []) × (rest feed.new (H.stand shelf.new) ≡ []))) }
    ensures number { IfOk result (λ next. IfSome next (λ _. number ≤ 2 ^ 39)) }
    ensures fault { IsTrue H.tells → IfErr result (λ stop. IfFault stop (λ fault.
        rows_from kind number (lines_of (rest feed.old (H.stand shelf.old)))
        ≡ record { good = []; fault = Some (fault, number) })) }
    ensures kind { IfOk result (λ next. IfSome next (IsRow kind)) }
    ensures reads { ReadsLine 43 H.tells feed.old (H.stand shelf.old) (H.faults shelf.old)
        feed.new (H.stand shelf.new) (H.faults shelf.new) result }
{
    let Some(_) = next_byte(feed, shelf)? else {
        return Ok(None);
    };
    if number > LAST_ROW {
        return Err(LineStop::Fault(TextKind::TooLong));
    }
    match read_row(kind, feed, shelf) {
        Ok(row) => Ok(Some(row)),
        Err(stop) => Err(stop),
    }
}
