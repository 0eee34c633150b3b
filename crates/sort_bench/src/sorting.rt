//! Records of numbers, sorted in lots of an area:
//!
//! ```text
//! numbers   0 1 2 .. | 32768 .. | ..       in an area, a lot after another
//! sorted    0 2 1 .. |  ..                 sum 1 * (0 + 1) + 2 * (2 + 1) + 3 * (1 + 1) + ..
//! ```
ghost use Rattle.std.specs.Prelude.{◌≡◌, ◌+◌, ◌<◌, ◌≤◌, ◌^◌, ◌++◌, drop, length, set, take};
ghost use Rattle.sort_bench.specs.Lots.{lots_sum, numbered, numbered_from, place_sum, sorted_sum};

use em_frames::Area;
use em_record::Record;

/// What the number of a record is multiplied by for its first word, so that these spread over all
/// numbers of 64 bits.
const FACTOR: u64 = 11_400_714_819_323_198_485;

/// The record of a number.
fn numbered(number: u64) -> Record
    requires { number < 2 ^ 40 }
    ensures { result ≡ numbered number }
{
    Record {
        a: number.wrapping_mul(FACTOR),
        b: number + 1,
        c: 1,
        d: 0,
    }
}

/// Puts the record of a number to a place of an area.
fn put(area: &mut Area, place: usize, number: u64)
    requires room { place < length area.old }
    requires number { number < 2 ^ 40 }
    ensures { area.new ≡ set area.old place (numbered number) }
{
    area.records_mut()[place] = numbered(number);
}

/// Puts the records of `count` numbers, from the first one on, to the first places of an area.
fn fill(area: &mut Area, first: u64, count: usize)
    requires room { count ≤ length area.old }
    requires numbers { first + count ≤ 2 ^ 40 }
    ensures { area.new ≡ numbered_from first count ++ drop count area.old }
{
    for place in 0..count {
        put(area, place, first + place as u64);
    }
}

/// The sum of the second words of the first `count` records, each times its place from 1 on, modulo
/// 2^64.
fn weigh(area: &Area, count: usize) -> u64
    requires room { count ≤ length area.now }
    ensures { place_sum 1 (take count area.now) < 2 ^ 64
        → result ≡ place_sum 1 (take count area.now) }
{
    let mut sum: u64 = 0;
    for place in 0..count {
        sum = sum.wrapping_add((place as u64 + 1).wrapping_mul(area.records()[place].b));
    }
    sum
}

/// Sorts the records of `count` numbers, from the first one on, in an area, and sums them.
fn sort_lot(area: &mut Area, first: u64, count: usize) -> u64
    requires room { count ≤ length area.old }
    requires numbers { first + count ≤ 2 ^ 40 }
    ensures len { length area.new ≡ length area.old }
    ensures sum { sorted_sum first count < 2 ^ 64 → result ≡ sorted_sum first count }
{
    fill(area, first, count);
    area.sort(count);
    weigh(area, count)
}

/// Sorts the records of the numbers below `count`, in lots of as many as the area has places. Answers
/// the sum of all lots' second words, each times its place in its lot from 1 on, modulo 2^64.
pub fn sort_all(area: &mut Area, count: u64) -> u64
    requires area { 0 < length area.old }
    requires count { count ≤ 2 ^ 40 }
    ensures len { length area.new ≡ length area.old }
    ensures sum { lots_sum (length area.old) count < 2 ^ 64
        → result ≡ lots_sum (length area.old) count }
{
    let places = area.records().len();
    let lots = count / places as u64;
    let mut sum: u64 = 0;
    for lot in 0..lots {
        sum = sum.wrapping_add(sort_lot(area, lot * places as u64, places));
    }
    let first = lots * places as u64;
    sum.wrapping_add(sort_lot(area, first, (count - first) as usize))
}
