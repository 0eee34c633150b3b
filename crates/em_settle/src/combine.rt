/// How an add joins its value to that of its key.
#[derive(Clone, Copy, Debug, PartialEq, Eq)]
pub enum Combine {
    /// Their sum, modulo 2^64.
    Sum,
    /// The greater of both.
    Max,
    /// The lesser of both.
    Min,
    /// Their bitwise exclusive or.
    Xor,
}
