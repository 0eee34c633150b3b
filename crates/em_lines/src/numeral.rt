// The number that a word spells.
ghost use Rattle.std.specs.Prelude.{◌≡◌};
ghost use Rattle.em_lines.specs.CommandLine.{number_of};

use crate::text::TextKind;

/// The most digits of a number.
pub const MOST_DIGITS: usize = 20;

/// The number that the bytes of a word spell: 1 to 20 decimal digits, and a value of 64 bits. An empty word
/// is `BadSeparator`, one with another byte or more digits `BadNumber`, and a greater value `TooLarge`.
pub fn number(word: &[u8]) -> Result<u64, TextKind>
    ensures is { result ≡ number_of word.now }
{
    if word.is_empty() {
        return Err(TextKind::BadSeparator);
    }
    if word.len() > MOST_DIGITS {
        return Err(TextKind::BadNumber);
    }
    let mut value: u128 = 0;
    for byte in word {
        if !byte.is_ascii_digit() {
            return Err(TextKind::BadNumber);
        }
        value = 10 * value + (*byte - b'0') as u128;
    }
    if value > u64::MAX as u128 {
        return Err(TextKind::TooLarge);
    }
    Ok(value as u64)
}
