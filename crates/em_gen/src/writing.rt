//! The lines of made texts: docs/FORMATS.md, "Made texts".
ghost use Rattle.std.specs.Prelude.{◌≡◌, ◌+◌, ◌-◌, ◌*◌, ◌%◌, ◌^◌, ◌<◌, ◌≤◌, ◌++◌, ◌∷◌, [], length};
ghost use Rattle.em_gen.specs.Draws.{after_draws, after_wide, drawn, next_state};
ghost use Rattle.em_gen.specs.Texts.{after_circuit_line, circuit_line, gate_line, header_line, map_line, one_number, queue_line, stab_line, stimulus_line, two_numbers};
ghost use Rattle.em_gen.specs.Texts.{command_at};

use crate::draws::{draw, wide_draw};
use crate::kind::GenKind;
use crate::line::Line;

/// Writes a line of a word and one number.
fn put_one(line: &mut Line, word: &[u8], number: u64)
    requires none { line.old ≡ [] }
    requires short { length word.now ≤ 20 }
    ensures is { line.new ≡ one_number word.now number }
    ensures some { 0 < length line.new }
{
    line.add(word);
    line.add_number(number);
    line.add(b"\n");
}

/// Writes a line of a word and two numbers.
fn put_two(line: &mut Line, word: &[u8], first: u64, second: u64)
    requires none { line.old ≡ [] }
    requires short { length word.now ≤ 20 }
    ensures is { line.new ≡ two_numbers word.now first second }
    ensures some { 0 < length line.new }
{
    line.add(word);
    line.add_number(first);
    line.add(b" ");
    line.add_number(second);
    line.add(b"\n");
}

/// Writes the command of this number, from 1, of a file of a map, of a queue or of intervals.
pub fn put_command(kind: GenKind, count: u64, number: u64, draws: &mut u64, line: &mut Line)
    requires none { line.old ≡ [] }
    requires state { draws.old < 2147483648 }
    requires some { 0 < count }
    requires few { count ≤ 2 ^ 30 }
    ensures is { line.new ≡ command_at kind count number draws.old }
    ensures some { 0 < length line.new }
    ensures state { draws.new ≡ after_draws 3 draws.old }
    ensures below { draws.new < 2147483648 }
{
    let choice = draw(draws);
    let key = wide_draw(draws, count);
    match kind {
        GenKind::Queue => put_queue(line, choice, key, number),
        GenKind::Stab => put_stab(line, choice, key),
        _ => put_map(line, choice, key, number),
    }
}

/// Writes a command of a map.
fn put_map(line: &mut Line, choice: u64, key: u64, number: u64)
    requires none { line.old ≡ [] }
    ensures is { line.new ≡ map_line choice key number }
    ensures some { 0 < length line.new }
{
    if choice % 4 == 0 {
        put_one(line, b"del ", key);
    } else if choice % 4 == 3 {
        put_one(line, b"get ", key);
    } else {
        put_two(line, b"put ", key, number);
    }
}

/// Writes a command of a queue.
fn put_queue(line: &mut Line, choice: u64, key: u64, number: u64)
    requires none { line.old ≡ [] }
    ensures is { line.new ≡ queue_line choice key number }
    ensures some { 0 < length line.new }
{
    if choice % 4 == 0 {
        line.add(b"pop\n");
    } else {
        put_two(line, b"push ", key, number);
    }
}

/// Writes a command of intervals.
fn put_stab(line: &mut Line, choice: u64, key: u64)
    requires none { line.old ≡ [] }
    requires few { key < 2 ^ 30 }
    ensures is { line.new ≡ stab_line choice key }
    ensures some { 0 < length line.new }
{
    if choice % 4 == 0 {
        put_one(line, b"stab ", key);
    } else {
        put_two(line, b"iv ", key, key + choice % 16);
    }
}

/// Writes line `number` of a circuit, from 0: the header, 16 inputs, 16 latches, 16 outputs, and
/// the gates.
pub fn put_circuit_line(count: u64, number: u64, draws: &mut u64, line: &mut Line)
    requires none { line.old ≡ [] }
    requires state { draws.old < 2147483648 }
    requires few { count ≤ 2 ^ 30 }
    requires number { number ≤ 2 ^ 31 }
    ensures is { line.new ≡ circuit_line count number draws.old }
    ensures some { 0 < length line.new }
    ensures state { draws.new ≡ after_circuit_line number draws.old }
    ensures below { draws.new < 2147483648 }
{
    let all = 2 * (32 + count) + 2;
    if number == 0 {
        put_header(line, count);
    } else if number <= 16 {
        put_one(line, b"", 2 * number);
    } else if number <= 32 {
        put_two(line, b"", 2 * number, wide_draw(draws, all));
    } else if number <= 48 {
        put_one(line, b"", wide_draw(draws, all));
    } else {
        put_gate(line, 2 * (number - 16), draws);
    }
}

/// Writes the header of a circuit with this many gates.
fn put_header(line: &mut Line, count: u64)
    requires none { line.old ≡ [] }
    requires few { count ≤ 2 ^ 30 }
    ensures is { line.new ≡ header_line count }
    ensures some { 0 < length line.new }
{
    line.add(b"aag ");
    line.add_number(32 + count);
    line.add(b" 16 16 16 ");
    line.add_number(count);
    line.add(b"\n");
}

/// Writes a gate of this literal, over two lesser ones.
fn put_gate(line: &mut Line, gate: u64, draws: &mut u64)
    requires none { line.old ≡ [] }
    requires state { draws.old < 2147483648 }
    requires some { 0 < gate }
    ensures is { line.new ≡ gate_line gate draws.old }
    ensures some { 0 < length line.new }
    ensures state { draws.new ≡ after_wide (after_wide draws.old) }
    ensures below { draws.new < 2147483648 }
{
    line.add_number(gate);
    line.add(b" ");
    line.add_number(wide_draw(draws, gate));
    line.add(b" ");
    line.add_number(wide_draw(draws, gate));
    line.add(b"\n");
}

/// Writes a line of a stimulus: a bit for each of 16 draws.
pub fn put_stimulus_line(draws: &mut u64, line: &mut Line)
    requires none { line.old ≡ [] }
    requires state { draws.old < 2147483648 }
    ensures is { line.new ≡ stimulus_line draws.old }
    ensures some { 0 < length line.new }
    ensures state { draws.new ≡ after_draws 16 draws.old }
    ensures below { draws.new < 2147483648 }
{
    for _ in 0..16_u64 {
        put_bit(draws, line);
    }
    line.add(b"\n");
}

/// Writes the bit of a draw.
fn put_bit(draws: &mut u64, line: &mut Line)
    requires state { draws.old < 2147483648 }
    requires room { length line.old < 64 }
    ensures is { line.new ≡ line.old ++ (48 + drawn draws.old % 2) ∷ [] }
    ensures state { draws.new ≡ next_state draws.old }
    ensures below { draws.new < 2147483648 }
{
    let odd = draw(draws) % 2 == 1;
    line.add_byte(if odd { b'1' } else { b'0' });
}
