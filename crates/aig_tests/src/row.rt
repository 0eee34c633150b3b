//! What a row of a table spells: `\n` and `\r` stand for a newline and a carriage return, and `\x` with two
//! hexadecimal digits for any byte.
ghost use Rattle.std.specs.Prelude.{◌<◌};

use std::alloc::{AllocError, Global};

/// The value of a hexadecimal digit; 0 for another byte.
fn digit_value(byte: u8) -> u8
    ensures { result < 16 }
{
    match byte {
        b'0'..=b'9' => byte - b'0',
        b'a'..=b'f' => byte - b'a' + 10,
        _ => 0,
    }
}

/// The byte that a letter stands for after a backslash.
fn escape(letter: u8) -> u8 {
    match letter {
        b'n' => b'\n',
        b'r' => b'\r',
        other => other,
    }
}

/// The text that a part of a row spells.
pub(crate) fn spelled(alloc: Global, escaped: &str) -> Result<Vec<u8>, AllocError> {
    let mut text = Vec::new(alloc);
    let mut after_backslash = false;
    let mut digits: u8 = 0;
    let mut value: u8 = 0;
    for byte in escaped.as_bytes() {
        if digits > 0 {
            value = value % 16 * 16 + digit_value(*byte);
            digits -= 1;
            if digits == 0 {
                text.push(value)?;
            }
        } else if after_backslash {
            after_backslash = false;
            if *byte == b'x' {
                digits = 2;
            } else {
                text.push(escape(*byte))?;
            }
        } else if *byte == b'\\' {
            after_backslash = true;
        } else {
            text.push(*byte)?;
        }
    }
    Ok(text)
}
