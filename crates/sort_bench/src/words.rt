ghost use Rattle.std.specs.Prelude.{◌≤◌, ◌^◌, IfSome};

use std::env;

/// The most digits of the number of records.
const MOST_DIGITS: usize = 10;

/// The greatest number of this many digits.
const MOST_RECORDS: u64 = 9_999_999_999;

/// The number that a word spells, if it is one of 1 to 10 digits.
pub fn number_of(word: &str) -> Option<u64>
    ensures { IfSome result (λ number. number ≤ 2 ^ 40) }
{
    let bytes = word.as_bytes();
    if bytes.len() > MOST_DIGITS || !bytes.iter().all(|byte| byte.is_ascii_digit()) {
        return None;
    }
    match word.parse::<u64>() {
        Ok(number) if number <= MOST_RECORDS => Some(number),
        _ => None,
    }
}

/// The number of records that the only word asks for. Words that couldn't be read count as none.
pub fn count_asked(rt: &HostRuntime) -> Option<u64>
    ensures { IfSome result (λ number. number ≤ 2 ^ 40) }
{
    let Ok(words) = env::args(rt) else {
        return None;
    };
    let mut words = words.skip(1);
    let count = number_of(words.next()?.as_str())?;
    if words.next().is_some() {
        return None;
    }
    Some(count)
}
