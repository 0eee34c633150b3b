//! What stands whole in the bytes that a feed has read ahead: a word or an operand, and the space or
//! newline after it. If none stands there, `word` and `operand` read byte by byte, and find the faults.
ghost use Rattle.std.specs.Prelude.{◌≡◌, ◌≤◌, length, take, IfSome};
ghost use Rattle.em_lines.specs.Ahead.{BeginsFirst, BeginsNumber, BeginsOperand, BeginsWord};
ghost use Rattle.em_lines.specs.Stream.{word_at};

/// The least value after which one more digit may be too many for 64 bits.
const LARGE: u64 = 1_844_674_407_370_955_161;

/// The most bytes that are looked at: a space, 20 digits, and the byte after them.
const WINDOW: usize = 22;

/// A number, and how many digits spell it.
#[derive(Clone, Copy, Drop)]
pub struct Spelled {
    pub value: u64,
    pub digits: usize,
}

/// The number that these bytes begin with. `None` also comes for the last six
/// values of 64 bits, from 2^64 - 6 on.
fn number_ahead(bytes: &[u8]) -> Option<Spelled>
    requires few { length bytes.now ≤ 21 }
    ensures { IfSome result (λ found. BeginsNumber bytes.now found.value found.digits) }
{
    let mut value: u64 = 0;
    let mut digits = 0;
    for byte in bytes {
        if !byte.is_ascii_digit() {
            if digits > 0 && (*byte == b' ' || *byte == b'\n') {
                return Some(Spelled { value, digits });
            }
            return None;
        }
        if value >= LARGE {
            return None;
        }
        value = 10 * value + (*byte as u64 - b'0' as u64);
        digits += 1;
    }
    None
}

/// The number that these bytes begin with, as the first of a line.
pub fn first_ahead(bytes: &[u8]) -> Option<Spelled>
    ensures { IfSome result (λ found. BeginsFirst bytes.now found.value found.digits) }
{
    number_ahead(&bytes[..bytes.len().min(WINDOW - 1)])
}

/// The operand that these bytes begin with.
pub fn operand_ahead(bytes: &[u8]) -> Option<Spelled>
    ensures { IfSome result (λ found. BeginsOperand bytes.now found.value found.digits) }
{
    if bytes.is_empty() || bytes[0] != b' ' {
        return None;
    }
    number_ahead(&bytes[1..bytes.len().min(WINDOW)])
}

/// Copies the word that these bytes begin with, if it fits, and answers its length.
pub fn word_ahead(bytes: &[u8], into: &mut [u8]) -> Option<usize>
    ensures same { length into.new ≡ length into.old }
    ensures fits { IfSome result (λ n. n ≤ length into.new) }
    ensures word { IfSome result (λ n. take n into.new ≡ word_at bytes.now) }
    ensures begins { IfSome result (BeginsWord bytes.now) }
{
    if bytes.len() <= into.len() {
        return None;
    }
    let mut n = 0;
    for byte in bytes {
        if *byte == b' ' || *byte == b'\n' {
            return Some(n);
        }
        if n == into.len() {
            return None;
        }
        into[n] = *byte;
        n += 1;
    }
    None
}
