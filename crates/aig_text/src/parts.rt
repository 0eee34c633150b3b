use aig_defs::Header;
use em_chain::Chain;

/// A circuit as four chains of records: docs/FORMATS.md, "Records of circuits". The chains hold
/// their blocks, and no frame.
#[derive(Drop)]
pub struct Parts {
    /// The numbers of the header.
    pub header: Header,
    /// A record for each definition (inputs, latches, gates), in the order of the text.
    pub defs: Chain,
    /// A record for each gate, in the order of the text.
    pub gates: Chain,
    /// A record for each literal that a latch has next, and then for each column.
    pub uses: Chain,
    /// A record for each latch, with the bit with which it starts.
    pub resets: Chain,
    /// If true, the variable of each definition is above the one before it, so that definitions and gates are
    /// in order. False says nothing.
    pub climbs: bool,
    /// If true, the variables of the definitions are 1, 2, 3 and so on, and each gate is above its operands.
    /// False says nothing.
    pub straight: bool,
}
