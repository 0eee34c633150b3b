//! A line that stands whole in the bytes that a feed has read ahead, with its newline, and spells a row:
//!
//!     1 7 space 4 2 newline ..
//!     |   |     |   |
//!     first     second, or for a kind of one number the first and its newline alone
//!
//! Each byte is looked at once, and none is copied. If none stands there, or one with a fault, `row` copies the line, and finds
//! the fault.
ghost use Rattle.std.specs.Prelude.{◌≡◌, ◌≤◌, false, length, true, IfSome};
ghost use Rattle.em_lines.specs.Ahead.{BeginsNumber};
ghost use Rattle.em_rows.specs.Ahead.{BeginsRow, BeginsTwo, EndsBy, has_two};

use crate::kinds::{RowKind, has_two};
use crate::spelling::row_with;
use em_model::Command;

/// The least value after which one more digit may be too many for 64 bits.
const LARGE: u64 = 1_844_674_407_370_955_161;

/// The most bytes that are looked at for a number: 20 digits, and the byte after them.
const WINDOW: usize = 21;

/// A number, and how many digits spell it.
#[derive(Clone, Copy, Drop)]
pub struct Spelled {
    pub value: u64,
    pub digits: usize,
}

/// The two numbers of a line.
#[derive(Clone, Copy, Drop)]
pub struct Two {
    pub first: Spelled,
    pub second: Spelled,
}

/// A row, and the bytes of its line with the newline.
#[derive(Clone, Copy, Drop)]
pub struct RowAhead {
    pub row: Command,
    pub size: usize,
}

/// The number that these bytes begin with. `None` also comes for the last six values of 64 bits, from 2^64 - 6 on.
fn number_ahead(bytes: &[u8]) -> Option<Spelled>
    requires few { length bytes.now ≤ 21 }
    ensures { IfSome result (λ found. BeginsNumber bytes.now found.value found.digits) }
{
    let mut value: u64 = 0;
    let mut digits = 0;
    for byte in bytes {
        if !byte.is_ascii_digit() {
            if digits > 0 && (*byte == b' ' || *byte == b'\n') {
                return Some(Spelled { value, digits });
            }
            return None;
        }
        if value >= LARGE {
            return None;
        }
        value = 10 * value + (*byte as u64 - b'0' as u64);
        digits += 1;
    }
    None
}

/// The same of a number after which this byte stands.
fn ended_ahead(bytes: &[u8], end: u8) -> Option<Spelled>
    ensures { IfSome result (λ found. EndsBy end bytes.now found.value found.digits) }
{
    match number_ahead(&bytes[..bytes.len().min(WINDOW)]) {
        Some(found) => {
            if bytes[found.digits] != end {
                return None;
            }
            Some(found)
        }
        None => None,
    }
}

/// The line of two numbers that these bytes begin with.
fn two_ahead(bytes: &[u8]) -> Option<Two>
    ensures { IfSome result (λ two. BeginsTwo bytes.now
        two.first.value two.first.digits two.second.value two.second.digits) }
{
    match ended_ahead(bytes, b' ') {
        Some(first) => match ended_ahead(&bytes[first.digits + 1..], b'\n') {
            Some(second) => Some(Two { first, second }),
            None => None,
        },
        None => None,
    }
}

/// The row of two numbers that these bytes begin with.
fn pair_ahead(kind: RowKind, bytes: &[u8]) -> Option<RowAhead>
    requires two { has_two kind ≡ true }
    ensures { IfSome result (λ found. BeginsRow kind bytes.now found.row found.size) }
{
    match two_ahead(bytes) {
        Some(two) => match row_with(kind, two.first.value, two.second.value) {
            Ok(row) => Some(RowAhead {
                row,
                size: two.first.digits + two.second.digits + 2,
            }),
            Err(_fault) => None,
        },
        None => None,
    }
}

/// The row of one number that these bytes begin with.
fn one_ahead(kind: RowKind, bytes: &[u8]) -> Option<RowAhead>
    requires one { has_two kind ≡ false }
    ensures { IfSome result (λ found. BeginsRow kind bytes.now found.row found.size) }
{
    match ended_ahead(bytes, b'\n') {
        Some(first) => match row_with(kind, first.value, 0) {
            Ok(row) => Some(RowAhead {
                row,
                size: first.digits + 1,
            }),
            Err(_fault) => None,
        },
        None => None,
    }
}

/// The row that these bytes begin with, of which the line's newline is one.
pub fn row_ahead(kind: RowKind, bytes: &[u8]) -> Option<RowAhead>
    ensures { IfSome result (λ found. BeginsRow kind bytes.now found.row found.size) }
{
    if has_two(kind) {
        return pair_ahead(kind, bytes);
    }
    one_ahead(kind, bytes)
}
