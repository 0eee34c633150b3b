//! A number in a text: decimal digits that a feed takes byte by byte, and at most 20. The feed
//! keeps bytes and place; what counts as a digit, and where a number ends, stands here.
ghost use Rattle.std.specs.Prelude.{◌≡◌, ◌≤◌, ◌^◌, [], true, IfOk, IsTrue};
ghost use Rattle.em_io.specs.Digits.{TakesDigits, TakesSomeDigits, digits_at};
ghost use Rattle.em_io.specs.Feed.{rest, Takes};
ghost use Rattle.em_io.specs.Look.{IsLook, look_at};
ghost use Rattle.em_record.specs.Count.{HasCause};

use crate::feed::Feed;
use crate::shelf::Shelf;
use em_record::Failed;

/// The most digits of a number.
const MOST_DIGITS: u32 = 20;

/// Bytes from this offset on aren't taken.
const LIMIT: u64 = 1 << 50;

/// What stands where a number may stand. A number is 1 to 20 decimal digits, leading zeros among
/// them. If `TooLong` holds, it is what is found, whatever else holds.
#[derive(Clone, Copy, Debug, PartialEq, Eq, Drop)]
pub enum Digits {
    /// No digit stands there.
    Nothing,
    /// `count` digits stand there, from 1 to 20, and spell `value`.
    Value { value: u128, count: u32 },
    /// More than 20 digits stand there.
    TooMany,
    /// A byte that was looked at stands at the offset 2^50.
    TooLong,
}

/// What the next byte is to a number.
enum Look {
    /// A byte at the offset 2^50.
    TooFar,
    /// A digit.
    Digit(u8),
    /// Another byte, or the text's end.
    Other,
}

impl Feed {
    /// Takes the longest run of decimal digits, and at most 20, and looks at the byte after the
    /// last one that it took. The slot was opened with Ok, and at most 2^50 bytes were taken. It
    /// fails only if the shelf's count of faults rose; then the feed is not used again.
    pub fn digits<H: Shelf>(&mut self, shelf: &mut H) -> Result<Digits, Failed>
        requires ready { ((H.stand shelf.old).slot self.old.slot).ready ≡ true }
        requires place { self.old.place ≤ 2 ^ 50 }
        ensures takes { TakesSomeDigits H.tells
            self.old (H.stand shelf.old) self.new (H.stand shelf.new) }
        ensures is { IsTrue H.tells → IfOk result
            (λ found. found ≡ digits_at self.old.place (rest self.old (H.stand shelf.old))) }
        ensures place { self.new.place ≤ 2 ^ 50 }
        ensures taken { IfOk result (TakesDigits H.tells
            self.old (H.stand shelf.old) self.new (H.stand shelf.new)) }
        ensures cause { HasCause (H.faults shelf.old) (H.faults shelf.new) result }
    {
        let mut value: u128 = 0;
        let mut count: u32 = 0;
        loop {
            match self.look(shelf)? {
                Look::TooFar => return Ok(Digits::TooLong),
                Look::Other => {
                    if count == 0 {
                        return Ok(Digits::Nothing);
                    }
                    return Ok(Digits::Value { value, count });
                }
                Look::Digit(byte) => {
                    if count == MOST_DIGITS {
                        return Ok(Digits::TooMany);
                    }
                    self.take();
                    value = 10 * value + (byte - b'0') as u128;
                    count += 1;
                }
            }
        }
    }

    /// Looks at the next byte.
    fn look<H: Shelf>(&mut self, shelf: &mut H) -> Result<Look, Failed>
        requires ready { ((H.stand shelf.old).slot self.old.slot).ready ≡ true }
        ensures takes { Takes H.tells [] self.old (H.stand shelf.old) self.new (H.stand shelf.new) }
        ensures look { IfOk result (IsLook self.new) }
        ensures first { IsTrue H.tells → IfOk result
            (λ look. look ≡ look_at self.old.place (rest self.old (H.stand shelf.old))) }
        ensures cause { HasCause (H.faults shelf.old) (H.faults shelf.new) result }
    {
        let Some(byte) = self.peek(shelf)? else {
            return Ok(Look::Other);
        };
        if self.place() >= LIMIT {
            return Ok(Look::TooFar);
        }
        if byte.is_ascii_digit() {
            return Ok(Look::Digit(byte));
        }
        Ok(Look::Other)
    }
}
