//! A text that is made line by line, as it is read.
ghost use Rattle.std.specs.Prelude.{◌≡◌, ◌+◌, ◌^◌, ◌<◌, ◌≤◌, ◌++◌, [], length, take};
ghost use Rattle.em_gen.specs.Texts.{after_line, first_state, line_at, lines_in, made_text};
ghost use Rattle.em_gen.specs.Shelf.{left_of};
ghost use Rattle.em_gen.specs.Steps.{CanMake, IsRefilled, MakesLine, TakesFront};

use crate::kind::GenKind;
use crate::line::Line;
use crate::writing::{put_circuit_line, put_command, put_stimulus_line};
use em_io::Slot;

/// What is left of a text: a line of which the first bytes were taken, and then lines that aren't
/// made yet.
#[derive(Drop)]
pub struct Made {
    pub(crate) line: Line,
    pub(crate) taken: usize,
    /// The lines that aren't made yet.
    pub(crate) left: u64,
    /// The number of the next of them, from 0.
    pub(crate) number: u64,
    /// The state of the draws.
    pub(crate) draws: u64,
}

/// Nothing is left.
pub fn nothing_left() -> Made
    ensures none { result.line ≡ [] }
    ensures left { result.left ≡ 0 }
    ensures can { CanMake result }
{
    Made {
        line: Line::new(),
        taken: 0,
        left: 0,
        number: 0,
        draws: 0,
    }
}

/// The whole text of a slot is left.
pub fn whole(kind: GenKind, slot: Slot, start: u64, count: u64) -> Made
    requires { count ≤ 2 ^ 30 }
    ensures is { left_of kind slot count result ≡ made_text kind slot start count }
    ensures can { CanMake result }
{
    Made {
        line: Line::new(),
        taken: 0,
        left: lines(kind, slot, count),
        number: 0,
        draws: first(slot, start),
    }
}

/// The lines of a text.
fn lines(kind: GenKind, slot: Slot, count: u64) -> u64
    requires { count ≤ 2 ^ 30 }
    ensures is { result ≡ lines_in kind slot count }
    ensures most { result ≤ 2 ^ 31 }
{
    match (kind, slot) {
        (GenKind::Eval, Slot::First) => 49 + count,
        (GenKind::Eval, Slot::Second) => 8,
        (_, Slot::First) => count,
        (_, Slot::Second) => 0,
    }
}

/// The state of the draws at the front of a text.
fn first(slot: Slot, start: u64) -> u64
    ensures is { result ≡ first_state slot start }
    ensures below { result < 2147483648 }
{
    match slot {
        Slot::First => start % 2147483648,
        Slot::Second => (start % 2147483648 + 1) % 2147483648,
    }
}

/// Writes line `number` of a text, from 0.
fn put_line(kind: GenKind, slot: Slot, count: u64, number: u64, draws: &mut u64, line: &mut Line)
    requires none { line.old ≡ [] }
    requires state { draws.old < 2147483648 }
    requires some { 0 < count }
    requires few { count ≤ 2 ^ 30 }
    requires number { number ≤ 2 ^ 31 }
    ensures is { line.new ≡ line_at kind slot count number draws.old }
    ensures some { 0 < length line.new }
    ensures state { draws.new ≡ after_line kind slot number draws.old }
    ensures below { draws.new < 2147483648 }
{
    match (kind, slot) {
        (GenKind::Eval, Slot::First) => put_circuit_line(count, number, draws, line),
        (GenKind::Eval, Slot::Second) => put_stimulus_line(draws, line),
        _ => put_command(kind, count, number + 1, draws, line),
    }
}

/// Makes the next line, after all of the last one was taken.
fn make_line(kind: GenKind, slot: Slot, count: u64, made: &mut Made)
    requires some { 0 < made.old.left }
    requires can { CanMake made.old }
    requires count_some { 0 < count }
    requires count_most { count ≤ 2 ^ 30 }
    ensures makes { MakesLine kind slot count made.old made.new }
    ensures can { CanMake made.new }
{
    made.line.clear();
    put_line(
        kind,
        slot,
        count,
        made.number,
        &mut made.draws,
        &mut made.line,
    );
    made.taken = 0;
    made.left -= 1;
    made.number += 1;
}

/// Makes the next line if nothing is left of the last one. Then something is left of a line, or
/// there are no more.
fn refill(kind: GenKind, slot: Slot, count: u64, made: &mut Made)
    requires can { CanMake made.old }
    requires count_some { 0 < count }
    requires count_most { count ≤ 2 ^ 30 }
    ensures refilled { IsRefilled kind slot count made.old made.new }
    ensures can { CanMake made.new }
{
    if made.taken < made.line.bytes().len() || made.left == 0 {
        return;
    }
    make_line(kind, slot, count, made);
}

/// Takes bytes of the line that is left into the front of `into`, as many as there are and fit.
fn take_front(made: &mut Made, into: &mut [u8]) -> usize
    requires room { 0 < length into.old }
    ensures takes { TakesFront made.old made.new (take result into.new) }
    ensures within { result ≤ length into.new }
    ensures end { result ≡ 0 → length made.old.line ≤ made.old.taken }
{
    let line = made.line.bytes();
    let from = made.taken.min(line.len());
    let rest = &line[from..];
    let count = rest.len().min(into.len());
    into[..count].copy_from_slice(&rest[..count]);
    made.taken = from + count;
    count
}

/// Reads on in a text: how many bytes it put into the front of `into`, none exactly if nothing is
/// left.
pub fn read_on(kind: GenKind, slot: Slot, count: u64, made: &mut Made, into: &mut [u8]) -> usize
    requires can { CanMake made.old }
    requires count_some { 0 < count }
    requires count_most { count ≤ 2 ^ 30 }
    requires room { 0 < length into.old }
    ensures bytes { left_of kind slot count made.old
        ≡ take result into.new ++ left_of kind slot count made.new }
    ensures end { result ≡ 0 → left_of kind slot count made.old ≡ [] }
    ensures within { result ≤ length into.new }
    ensures can { CanMake made.new }
{
    refill(kind, slot, count, made);
    take_front(made, into)
}
