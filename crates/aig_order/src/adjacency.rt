//! The records of an adjacency list: each definition of a circuit, in the order of variables, and after
//! it the edges from its variable. The edges from the constant come first.
//!
//!     edge 0-6, input 1, edge 1-3, gate 3 (rank 4), edge 3-6, gate 6 (rank 0: not found)

ghost use Rattle.std.specs.Prelude.{◌≡◌, ◌≤◌, ◌^◌};
ghost use Rattle.aig_defs.specs.Circuit.{IsHeader};
ghost use Rattle.aig_order.specs.Adjacent as adjacent;
ghost use Rattle.aig_order.specs.Sweeps as sweeps;

use aig_defs::Header;
use em_record::Record;

/// Whether a record is an edge, by its word d: 0 for an edge, 1 for the definition of an input or a
/// latch, and else that of a gate.
pub(crate) fn is_edge(item: Record) -> bool
    ensures { result ≡ sweeps.is_edge item }
{
    item.d == 0
}

/// Whether a record is the definition of a gate.
pub(crate) fn is_gate(item: Record) -> bool
    ensures { result ≡ sweeps.is_gate item }
{
    item.d != 0 && item.d != 1
}

/// The definition of an input or a latch, with its rank, by its record in the graph. A position above M
/// counts as M, so that ranks fit in words over any device.
pub(crate) fn source_definition(header: &Header, source: Record) -> Record
    requires header { IsHeader header.now }
    ensures { result ≡ adjacent.source_definition header.now source }
{
    let position = source.c.min(header.max);
    let rank = if source.b == 0 {
        1 + position
    } else {
        1 + header.inputs + position
    };
    Record {
        a: source.a,
        b: 0,
        c: rank,
        d: 1,
    }
}

/// The definition of a gate that isn't found yet, by its record in the graph.
pub(crate) fn gate_definition(gate: Record) -> Record
    ensures { result ≡ adjacent.gate_definition gate }
{
    Record {
        a: gate.a,
        b: 0,
        c: 0,
        d: 2,
    }
}

/// A definition with a rank.
pub(crate) fn with_rank(definition: Record, rank: u64) -> Record
    ensures { result ≡ sweeps.with_rank definition rank }
{
    Record {
        a: definition.a,
        b: definition.b,
        c: rank,
        d: definition.d,
    }
}

/// Whether an edge leads to a gate.
pub(crate) fn leads_to_gate(edge: Record) -> bool
    ensures { result ≡ sweeps.leads_to_gate edge }
{
    edge.b % 4 < 2
}

/// Whether an edge leads to a gate of a greater variable.
pub(crate) fn rises(edge: Record) -> bool
    ensures { result ≡ sweeps.rises edge }
{
    edge.a < edge.b / 4
}
