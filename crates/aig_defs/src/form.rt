/// The two forms of a circuit's text, each with the value with which an uninitialised latch starts,
/// if one is given.
#[derive(Clone, Copy, Debug, PartialEq, Eq, Drop)]
pub enum Form {
    /// `aag`: a line for each input, latch, column and gate, in any numbering.
    Ascii(Option<u64>),
    /// `aig`: inputs, latches and gates are numbered in this order, and a gate is two differences.
    Binary(Option<u64>),
}

/// What a number of a circuit's text may be.
#[derive(Clone, Copy, Debug, PartialEq, Eq, Drop)]
pub enum Limit {
    /// A number of the header: at most 2^40, else TooLarge.
    Count,
    /// (M): a defining literal if the header has this M. It is at most 2M + 1, else LiteralRange;
    /// and even and not 0, else OddDefinition.
    Defining(u64),
    /// (M): a used literal if the header has this M. It is at most 2M + 1, else LiteralRange.
    Used(u64),
    /// (n): a symbol's position in a section of n lines. It is below n, else BadSymbol.
    Position(u64),
    /// J, how many justice properties there are: at most 2^40, else TooLarge; and 0, else Justice.
    NoJustice,
    /// F, how many fairness constraints there are: at most 2^40, else TooLarge; and 0, else Fairness.
    NoFairness,
    /// (l, given): the reset of the latch whose literal is l: 0, 1, or l, which is Uninit if no value is
    /// given for uninitialised latches. Any other number is BadReset.
    Reset(u64, bool),
}
