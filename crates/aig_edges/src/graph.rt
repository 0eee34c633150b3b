use aig_defs::Header;
use em_chain::Chain;

/// A circuit as three ordered chains of records, and its resets: docs/FORMATS.md, "Records of circuits". The chains
/// hold their blocks, and no frame.
#[derive(Drop)]
pub struct Graph {
    /// The numbers of the header.
    pub header: Header,
    /// A record for each gate, in the order of their variables.
    pub gates: Chain,
    /// A record for each use of a literal, in the order of the variables that are used.
    pub edges: Chain,
    /// A record for each input and latch, in the order of their variables.
    pub sources: Chain,
    /// A record for each latch, with the bit with which it starts.
    pub resets: Chain,
    /// If true, variables stand in the order of inputs, latches and gates, with no gap, and each gate is above
    /// its operands. False says nothing.
    pub straight: bool,
}

/// A circuit whose variables, next values and columns have ranks, so that each edge leads to a
/// greater rank: docs/FORMATS.md, "Records of circuits". The chains hold their blocks, and no frame.
#[derive(Drop)]
pub struct Ordered {
    /// The numbers of the header.
    pub header: Header,
    /// How many passes over the gates, upwards by their variables, found all that have a value.
    pub passes: u64,
    /// A record for each use of a literal, in the order of the ranks that they come from.
    pub edges: Chain,
    /// A record for each latch, with the bit with which it starts.
    pub resets: Chain,
}
