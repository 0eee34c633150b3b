ghost use Rattle.std.specs.Prelude.{◌≤◌, ◌^◌, IfSome};

use crate::stop::Stop;
use std::{env, io};

/// The most digits of the number of records.
const MOST_DIGITS: usize = 10;

/// The greatest number of this many digits.
const MOST_RECORDS: u64 = 9_999_999_999;

/// The number that a word spells, if it is one of 1 to 10 digits.
pub fn number_of(word: &str) -> Option<u64>
    ensures { IfSome result (λ number. number ≤ 2 ^ 40) }
{
    let bytes = word.as_bytes();
    if bytes.len() > MOST_DIGITS || !bytes.iter().all(|byte| byte.is_ascii_digit()) {
        return None;
    }
    match word.parse::<u64>() {
        Ok(number) if number <= MOST_RECORDS => Some(number),
        _ => None,
    }
}

/// What the words ask for.
#[derive(Drop)]
pub struct Asked {
    /// The number of records.
    pub count: u64,
    /// The file that the device is, or none for the device in memory.
    pub file: Option<String>,
    ghost few: { count ≤ 2 ^ 40 },
}

/// The one or two words: the number of records, and a file.
pub fn read_words(rt: &HostRuntime) -> Result<Asked, Stop> {
    let mut words = match env::args(rt) {
        Ok(words) => words.skip(1),
        Err(error) if error.kind() == io::ErrorKind::InvalidData => return Err(Stop::Usage),
        Err(_) => return Err(Stop::NoMemory),
    };
    let Some(word) = words.next() else {
        return Err(Stop::Usage);
    };
    let Some(count) = number_of(word.as_str()) else {
        return Err(Stop::Usage);
    };
    let file = words.next();
    if words.next().is_some() {
        return Err(Stop::Usage);
    }
    Ok(Asked { count, file })
}
