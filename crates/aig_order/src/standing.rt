//! Where a sweep over an adjacency list stands, and what it does there: pure functions.

ghost use Rattle.std.specs.Prelude.{◌≡◌, None, Some, if◌then◌else◌};
ghost use Rattle.aig_defs.specs.Circuit.{IsHeader};
ghost use Rattle.aig_order.specs.SweepCalls as calls;
ghost use Rattle.aig_order.specs.Sweeps as sweeps;

use crate::adjacency::{is_edge, is_gate, leads_to_gate, rises, with_rank};
use aig_defs::{COLUMN_PLACES, Header, LATCH_PLACES};
use em_record::Record;

/// What a sweep over an adjacency list is for. A pass has two, and so have the edges between ranks.
#[derive(Clone, Copy, Debug, PartialEq, Eq, Drop)]
pub(crate) enum Sweep {
    /// Tells gates which edges from variables not below them come from what was found.
    Recall,
    /// Tells gates the same of all other edges, and finds gates. The list is written anew.
    Find,
    /// Sends ranks along edges to gates, and writes those of the others.
    Send,
    /// Writes the edges to each gate, by the ranks that were sent there.
    Rank,
}

/// The definition that came last, and the next rank.
#[derive(Clone, Copy, Debug, PartialEq, Eq, Drop)]
pub(crate) struct Standing {
    /// Whether the variable was found.
    pub(crate) found: bool,
    /// Its rank if it was, else 0.
    pub(crate) rank: u64,
    /// The rank of the gate that is found next.
    pub(crate) next: u64,
}

/// Before all definitions: the constant, which is found.
pub(crate) fn at_constant(next: u64) -> Standing
    ensures { result ≡ sweeps.at_constant next }
{
    Standing {
        found: true,
        rank: 0,
        next,
    }
}

/// At a definition with this rank.
pub(crate) fn at_rank(rank: u64, next: u64) -> Standing
    ensures { result ≡ sweeps.at_rank rank next }
{
    Standing {
        found: rank != 0,
        rank,
        next,
    }
}

/// Whether the gates take what they were told.
pub(crate) fn receives(sweep: Sweep) -> bool
    ensures { result ≡ sweeps.receives sweep }
{
    match sweep {
        Sweep::Recall | Sweep::Send => false,
        Sweep::Find | Sweep::Rank => true,
    }
}

/// Whether an edge has a note in a sweep.
pub(crate) fn is_told(sweep: Sweep, edge: Record) -> bool
    ensures { result ≡ sweeps.is_told sweep edge }
{
    match sweep {
        Sweep::Recall => leads_to_gate(edge) && !rises(edge),
        Sweep::Find => leads_to_gate(edge) && rises(edge),
        Sweep::Send => leads_to_gate(edge),
        Sweep::Rank => false,
    }
}

/// The note of an edge, which has this number: whether its source was found, or its source's rank, its
/// port and whether it is negated.
pub(crate) fn note(sweep: Sweep, standing: Standing, edge: Record, number: u64) -> Record
    ensures { result ≡ sweeps.note sweep standing.found standing.rank edge number }
{
    let (c, d) = match sweep {
        Sweep::Recall | Sweep::Find => (u64::from(standing.found), 0),
        Sweep::Send | Sweep::Rank => (standing.rank, 2 * (edge.b % 4) + edge.c % 2),
    };
    Record {
        a: edge.b / 4,
        b: number,
        c,
        d,
    }
}

/// The rank of a gate after its two notes: the one that it has, or the next one if both say that its
/// operands were found, or 0.
pub(crate) fn found_rank(standing: Standing, gate: Record, first: Record, second: Record) -> u64
    ensures { result ≡ sweeps.found_rank standing.next gate first second }
{
    if gate.c != 0 {
        gate.c
    } else if first.c == 1 && second.c == 1 {
        standing.next
    } else {
        0
    }
}

/// After a gate that has this rank now.
pub(crate) fn past_gate(standing: Standing, gate: Record, rank: u64) -> Standing
    ensures { result ≡ sweeps.past_gate standing gate rank }
{
    let next = if gate.c == 0 && rank != 0 {
        standing.next.saturating_add(1)
    } else {
        standing.next
    };
    at_rank(rank, next)
}

/// The edge between ranks of a note that a gate of this rank took.
pub(crate) fn operand_edge(note: Record, rank: u64) -> Record
    ensures { result ≡ sweeps.operand_edge note rank }
{
    Record {
        a: note.c,
        b: rank.saturating_mul(2).saturating_add(note.d / 2),
        c: note.d % 2,
        d: 0,
    }
}

/// The edge between ranks of an edge to a latch's next value or a column.
pub(crate) fn end_edge(header: &Header, standing: Standing, edge: Record) -> Record
    requires header { IsHeader header.now }
    ensures { result ≡ sweeps.end_edge header.now standing.rank edge }
{
    let first = 1 + header.inputs + header.latches + header.gates;
    let place = edge.b / 4;
    let target = if edge.b % 4 == 2 {
        first + place.saturating_sub(LATCH_PLACES)
    } else {
        first + header.latches + place.saturating_sub(COLUMN_PLACES)
    };
    Record {
        a: standing.rank,
        b: 2 * target,
        c: edge.c,
        d: 0,
    }
}

/// What a sweep writes for an edge.
pub(crate) fn written_edge(
    header: &Header,
    sweep: Sweep,
    standing: Standing,
    edge: Record,
) -> Option<Record>
    requires header { IsHeader header.now }
    ensures { result ≡ sweeps.written_edge header.now sweep standing.rank edge }
{
    match sweep {
        Sweep::Recall | Sweep::Rank => None,
        Sweep::Find => Some(edge),
        Sweep::Send => {
            if leads_to_gate(edge) {
                None
            } else {
                Some(end_edge(header, standing, edge))
            }
        }
    }
}

/// Whether a gate's definition takes notes in a sweep.
pub(crate) fn takes_notes(sweep: Sweep, item: Record) -> bool
    ensures { result ≡ sweeps.takes_notes sweep item }
{
    receives(sweep) && is_gate(item)
}

/// What comes after a record that took these notes, or none.
pub(crate) fn standing_after(
    sweep: Sweep,
    standing: Standing,
    item: Record,
    first: Record,
    second: Record,
) -> Standing
    ensures { result ≡ calls.standing_after sweep standing item first second }
{
    if is_edge(item) {
        return standing;
    }
    match sweep {
        Sweep::Find => {
            if is_gate(item) {
                past_gate(standing, item, found_rank(standing, item, first, second))
            } else {
                at_rank(item.c, standing.next)
            }
        }
        Sweep::Recall | Sweep::Send | Sweep::Rank => at_rank(item.c, standing.next),
    }
}

/// What the second sweep of a pass writes for a record: a gate has its rank, and another stays as it is.
pub(crate) fn found_anew(standing: Standing, item: Record, first: Record, second: Record) -> Record
    ensures { result ≡ (if sweeps.is_edge item then item else (if sweeps.is_gate item
        then sweeps.with_rank item (sweeps.found_rank standing.next item first second)
        else item)) }
{
    if is_edge(item) || !is_gate(item) {
        return item;
    }
    with_rank(item, found_rank(standing, item, first, second))
}

/// The edges between ranks that a record writes which took these notes.
fn edges_taken(item: Record, first: Record, second: Record) -> (Option<Record>, Option<Record>)
    ensures { result ≡ (if sweeps.is_edge item then (None, None) else (if sweeps.is_gate item
        then (Some (sweeps.operand_edge first item.c), Some (sweeps.operand_edge second item.c))
        else (None, None))) }
{
    if is_edge(item) || !is_gate(item) {
        return (None, None);
    }
    (
        Some(operand_edge(first, item.c)),
        Some(operand_edge(second, item.c)),
    )
}

/// What is written for a record that took these notes, or none: two records at most.
pub(crate) fn written_after(
    header: &Header,
    sweep: Sweep,
    standing: Standing,
    item: Record,
    first: Record,
    second: Record,
) -> (Option<Record>, Option<Record>)
    requires header { IsHeader header.now }
    ensures { result ≡ calls.written_after header.now sweep standing item first second }
{
    match sweep {
        Sweep::Recall => (None, None),
        Sweep::Find => (Some(found_anew(standing, item, first, second)), None),
        Sweep::Send => {
            if is_edge(item) {
                (written_edge(header, sweep, standing, item), None)
            } else {
                (None, None)
            }
        }
        Sweep::Rank => edges_taken(item, first, second),
    }
}
