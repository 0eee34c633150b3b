/// What is wrong with a circuit or with a stimulus; messages have these names. The place of a
/// fault is an offset in the text, in bytes. That of `Short` is the text's length, and that of
/// `TooLong` is 2^50. `Twice`, `Undefined` and `Cyclic` have a variable as their place.
#[derive(Clone, Copy, Debug, PartialEq, Eq, Drop)]
pub enum AigKind {
    /// The text doesn't begin with `aag` or `aig`. The place is 0.
    BadMagic,
    /// A number begins with another byte than a digit, or has more than 20 digits.
    BadNumber,
    /// A number of the header is above 2^40.
    TooLarge,
    /// Another byte stands where a space or a line's end must.
    BadSeparator,
    /// M is below I + L + A, or in the binary form above it. The place is that of M, 4.
    BadCounts,
    /// A literal is above 2M + 1.
    LiteralRange,
    /// A literal that must define a variable is odd or 0, and at most 2M + 1.
    OddDefinition,
    /// A delta has six bytes with their top bit set, or its value is out of its range.
    BadDelta,
    /// An item needs a byte after the text's end, but for the magic and a line's end. The place is
    /// the text's length.
    Short,
    /// A symbol line names a position that its section hasn't.
    BadSymbol,
    /// A byte follows the circuit that can't stand there.
    Extra,
    /// A space follows the header's ninth number or a latch's reset.
    Extension,
    /// A variable is defined more than once. The place is the least such variable.
    Twice,
    /// A variable is used and not defined. The place is the least such variable.
    Undefined,
    /// A gate lies on a cycle of gates or depends on one. The place is the least such gate's
    /// variable.
    Cyclic,
    /// A line of the stimulus has more or fewer bytes than the circuit has inputs.
    StimLength,
    /// In place of a bit of the stimulus stands another byte than `0`, `1` or a newline.
    StimChar,
    /// A byte at offset 2^50 is looked at, in a circuit or a stimulus. The place is 2^50.
    TooLong,
    /// A latch starts uninitialised, and no value for such latches is given.
    Uninit,
    /// The number of justice properties isn't 0.
    Justice,
    /// The number of fairness constraints isn't 0.
    Fairness,
    /// A latch's reset is neither 0, 1 nor the latch's own literal.
    BadReset,
    /// The circuit has latches, and many steps of it were to be evaluated at once. The place is 0.
    Latched,
}
