//! How much both sweeps of a pass may do: calls of the queue, and records that they write. A device that
//! tells gives back lists that stay within the limits. Another one may give back any records, and the
//! limits keep the queue and the list that is written as short as for a circuit.

ghost use Rattle.std.specs.Prelude.{◌≡◌};
ghost use Rattle.aig_order.specs.SweepCalls as calls;
ghost use Rattle.aig_order.specs.SweepCalls.{SpendsTo};

use crate::adjacency::{is_edge, is_gate, leads_to_gate};
use crate::standing::{Sweep, is_told, takes_notes};
use em_record::Record;
use em_space::EmFault;

/// What is left to do.
#[derive(Clone, Copy, Debug, PartialEq, Eq, Drop)]
pub(crate) struct Limits {
    /// Calls of the queue.
    pub(crate) calls: u64,
    /// Records that are written.
    pub(crate) records: u64,
}

/// The calls of the queue at a record: its note is pushed, or it takes two.
fn calls_at(sweep: Sweep, item: Record) -> u64
    ensures { result ≡ calls.calls_at sweep item }
{
    if is_edge(item) {
        u64::from(is_told(sweep, item))
    } else if takes_notes(sweep, item) {
        2
    } else {
        0
    }
}

/// How many records are written for a record.
fn written_at(sweep: Sweep, item: Record) -> u64
    ensures { result ≡ calls.written_at sweep item }
{
    match sweep {
        Sweep::Recall => 0,
        Sweep::Find => 1,
        Sweep::Send => u64::from(is_edge(item) && !leads_to_gate(item)),
        Sweep::Rank => {
            if !is_edge(item) && is_gate(item) {
                2
            } else {
                0
            }
        }
    }
}

/// Counts a record, before it is met. A fault is `Damaged`, with block 0: the record goes past the limits.
pub(crate) fn spend(limits: &mut Limits, sweep: Sweep, item: Record) -> Result<(), EmFault>
    ensures spends { SpendsTo sweep item limits.old limits.new result }
{
    let calls = calls_at(sweep, item);
    let records = written_at(sweep, item);
    if limits.calls < calls || limits.records < records {
        return Err(EmFault::Damaged { block: 0 });
    }
    *limits = Limits {
        calls: limits.calls - calls,
        records: limits.records - records,
    };
    Ok(())
}
