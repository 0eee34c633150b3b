/// The unit of storage: four words. Records are ordered by `a`, then `b`, then `c`, then `d`.
#[derive(Clone, Copy, Debug, PartialEq, Eq, PartialOrd, Ord)]
pub struct Record {
    pub a: u64,
    pub b: u64,
    pub c: u64,
    pub d: u64,
}

impl Record {
    /// The record of four zeros, which a fresh block holds.
    pub const ZERO: Record = Record {
        a: 0,
        b: 0,
        c: 0,
        d: 0,
    };
}
