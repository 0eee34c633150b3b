// What a circuit is made of (Biere, 2007). The literal 2v is variable v, and the literal 2v + 1 is
// its negation. Variable 0 is the constant: its literals 0 and 1 are false and true. All others are
// 1 to M.

/// The numbers of a circuit's header, each at most 2^40. One that isn't written is 0.
#[derive(Clone, Copy, Debug, PartialEq, Eq, Drop)]
pub struct Header {
    /// M: no variable of the circuit is above it.
    pub max: u64,
    /// I: how many inputs there are.
    pub inputs: u64,
    /// L: how many latches there are.
    pub latches: u64,
    /// O: how many outputs there are.
    pub outputs: u64,
    /// A: how many and-gates there are.
    pub gates: u64,
    /// B: how many bad literals there are.
    pub bads: u64,
    /// C: how many constraints there are.
    pub constraints: u64,
}

/// A latch: a bit of the circuit's state.
#[derive(Clone, Copy, Debug, PartialEq, Eq, Drop)]
pub struct Latch {
    /// The literal, even, whose variable has the latch's bit.
    pub current: u64,
    /// The literal whose value in one step is the latch's bit in the next.
    pub next: u64,
    /// The latch's bit before the first step.
    pub reset: bool,
}

/// An and-gate: its variable has the conjunction of the values of two literals.
#[derive(Clone, Copy, Debug, PartialEq, Eq, Drop)]
pub struct Gate {
    /// The literal, even, that the gate defines.
    pub lhs: u64,
    /// The first operand.
    pub rhs0: u64,
    /// The second operand.
    pub rhs1: u64,
}
