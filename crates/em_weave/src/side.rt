use em_record::Record;

/// A record of one of two lists, with the list that it came from.
#[derive(Clone, Copy, Debug, PartialEq, Eq, Drop)]
pub enum Side {
    /// A record of the left list.
    Left(Record),
    /// A record of the right list.
    Right(Record),
}
