//! A step of a circuit in lane 0: by a table if its ranks fit, and else by messages.

ghost use Rattle.std.specs.Prelude.{◌≡◌, ◌↔◌, ◌<◌, ◌≤◌, ◌+◌, ◌*◌, ◌^◌, length, IfOk, IsTrue, OnOk};
ghost use Rattle.em_space.specs.Rig.{Sound};
ghost use Rattle.em_space.specs.Seen.{seen};
ghost use Rattle.em_chain.specs.Chain.{chain_items};
ghost use Rattle.aig_defs.specs.Circuit.{IsHeader, columns};
ghost use Rattle.aig_edges.specs.Graph.{edge_count};
ghost use Rattle.aig_sweep.specs.Bits.{bits_of};
ghost use Rattle.aig_sweep.specs.Evaluates.{CanEvaluate, EvaluatesTo, HasChains};
ghost use Rattle.aig_sweep.specs.QueueState.{queue_state};
ghost use Rattle.aig_words.specs.Words.{lane};
ghost use Rattle.aig_table.specs.Steps.{CallsTo, CanTabulate, Fits};
ghost use Rattle.aig_table.specs.Sweeps.{SweepsFor};
ghost use Rattle.aig_table.specs.Tables as tables;

use crate::pushing::push_columns;
use crate::sweeping::sweep;
use aig_defs::Header;
use aig_sweep::evaluate as evaluate_by_messages;
use em_chain::Chain;
use em_frames::Device;
use em_record::{Record, Shape};
use em_space::{EmFault, Queue, Rig};

/// How many ranks a circuit has.
fn ranks_of(header: &Header) -> u64
    requires header { IsHeader header.now }
    ensures is { result ≡ tables.ranks_of header.now }
{
    let given = 1 + header.inputs + header.latches + header.gates;
    given + header.latches + header.outputs + header.bads + header.constraints
}

/// Whether the ranks of a circuit are at most `limit`, a bit for each fits into an area, and one for each column into
/// a frame.
fn fits(header: &Header, shape: Shape, limit: u64) -> bool
    requires header { IsHeader header.now }
    ensures is { IsTrue result ↔ Fits limit header.now shape }
{
    let ranks = ranks_of(header);
    let columns = header.outputs + header.bads + header.constraints;
    let load = shape.wide() * shape.block();
    ranks <= limit && ranks <= 256 * load && columns <= 256 * shape.block()
}

/// A step in lane 0, without its stimulus and its printed line: takes a list of the words of inputs and latches, and
/// gives the list of the latches' next words, a record each. After it the queue holds the messages of the columns, in
/// their order. It is what `evaluate` of `aig_sweep` says in lane 0.
///
/// If there are at most `limit` ranks, a bit for each fits into an area and one for each column into a frame, the step
/// goes by a table, and the queue is called at most once for each column. Else it goes by messages, by at most two
/// calls for each edge.
///
/// It needs 2f + 8 single frames, an area and the rack. The queue has no item at first. Each fault is the rig's or the
/// queue's.
pub fn evaluate<D: Device, Q: Queue>(
    rig: &mut Rig<'_, D>,
    queue: &mut Q,
    header: &Header,
    given: &Chain,
    gates: &Chain,
    bits: Chain,
    limit: u64,
) -> Result<Chain, EmFault>
    requires sound { Sound (seen D.state rig.old) }
    requires is { Q.IsQueue queue.old (seen D.state rig.old) }
    requires empty { (Q.counts queue.old).len ≡ 0 }
    requires few { (Q.counts queue.old).n + 2 * edge_count header.now < 2 ^ 100 }
    requires free { CanEvaluate (seen D.state rig.old).pool }
    requires header { IsHeader header.now }
    requires chains { HasChains header.now given.now gates.now bits
        (queue_state Q.Queue queue.old (seen D.state rig.old)) }
    ensures frames { Q.HasItsFrames queue.new (seen D.state rig.new) }
    ensures queue { OnOk result (Q.IsQueue queue.new (seen D.state rig.new)) }
    ensures evaluates { EvaluatesTo header.now given.now gates.now bits
        (queue_state Q.Queue queue.old (seen D.state rig.old))
        (queue_state Q.Queue queue.new (seen D.state rig.new)) result }
    ensures few { Fits limit header.now (seen D.state rig.old).pool.shape
        → CallsTo (columns header.now) (Q.counts queue.old) (Q.counts queue.new) result }
    ensures values { IfOk result (λ next. IsTrue (seen D.state rig.old).device.told
        → SweepsFor header.now (chain_items (seen D.state rig.old) given.now)
        (chain_items (seen D.state rig.old) gates.now)
        (lane 0 (chain_items (seen D.state rig.old) bits))
        (bits_of (lane 0 (chain_items (seen D.state rig.new) next)))
        (bits_of (lane 0 (Q.items queue.new (seen D.state rig.new))))) }
{
    if fits(header, rig.shape(), limit) {
        return evaluate_by_table(rig, queue, header, given, gates, bits);
    }
    evaluate_by_messages(rig, queue, header, given, gates, bits)
}

/// The same by a table, with a frame for the columns.
fn evaluate_by_table<D: Device, Q: Queue>(
    rig: &mut Rig<'_, D>,
    queue: &mut Q,
    header: &Header,
    given: &Chain,
    gates: &Chain,
    bits: Chain,
) -> Result<Chain, EmFault>
    requires is { Q.IsQueue queue.old (seen D.state rig.old) }
    requires can { CanTabulate header.now given.now gates.now bits
        (queue_state Q.Queue queue.old (seen D.state rig.old)) }
    requires spare { CanEvaluate (seen D.state rig.old).pool }
    requires row { columns header.now ≤ 256 * (seen D.state rig.old).pool.shape.block }
    ensures frames { Q.HasItsFrames queue.new (seen D.state rig.new) }
    ensures queue { OnOk result (Q.IsQueue queue.new (seen D.state rig.new)) }
    ensures evaluates { EvaluatesTo header.now given.now gates.now bits
        (queue_state Q.Queue queue.old (seen D.state rig.old))
        (queue_state Q.Queue queue.new (seen D.state rig.new)) result }
    ensures few { CallsTo (columns header.now) (Q.counts queue.old) (Q.counts queue.new) result }
    ensures values { IfOk result (λ next. IsTrue (seen D.state rig.old).device.told
        → SweepsFor header.now (chain_items (seen D.state rig.old) given.now)
        (chain_items (seen D.state rig.old) gates.now)
        (lane 0 (chain_items (seen D.state rig.old) bits))
        (bits_of (lane 0 (chain_items (seen D.state rig.new) next)))
        (bits_of (lane 0 (Q.items queue.new (seen D.state rig.new))))) }
{
    let mut row = rig.lend();
    let done = evaluate_beside(rig, queue, header, given, gates, bits, row.records_mut());
    rig.give(row);
    done
}

/// The same with a row for the columns' bits.
fn evaluate_beside<D: Device, Q: Queue>(
    rig: &mut Rig<'_, D>,
    queue: &mut Q,
    header: &Header,
    given: &Chain,
    gates: &Chain,
    bits: Chain,
    row: &mut [Record],
) -> Result<Chain, EmFault>
    requires is { Q.IsQueue queue.old (seen D.state rig.old) }
    requires can { CanTabulate header.now given.now gates.now bits
        (queue_state Q.Queue queue.old (seen D.state rig.old)) }
    requires row { columns header.now ≤ 256 * length row.old }
    ensures long { length row.new ≡ length row.old }
    ensures frames { Q.HasItsFrames queue.new (seen D.state rig.new) }
    ensures queue { OnOk result (Q.IsQueue queue.new (seen D.state rig.new)) }
    ensures evaluates { EvaluatesTo header.now given.now gates.now bits
        (queue_state Q.Queue queue.old (seen D.state rig.old))
        (queue_state Q.Queue queue.new (seen D.state rig.new)) result }
    ensures few { CallsTo (columns header.now) (Q.counts queue.old) (Q.counts queue.new) result }
    ensures values { IfOk result (λ next. IsTrue (seen D.state rig.old).device.told
        → SweepsFor header.now (chain_items (seen D.state rig.old) given.now)
        (chain_items (seen D.state rig.old) gates.now)
        (lane 0 (chain_items (seen D.state rig.old) bits))
        (bits_of (lane 0 (chain_items (seen D.state rig.new) next)))
        (bits_of (lane 0 (Q.items queue.new (seen D.state rig.new))))) }
{
    let next = sweep(rig, header, given, gates, bits, row)?;
    let columns = header.outputs + header.bads + header.constraints;
    push_columns(rig, queue, row, columns)?;
    Ok(next)
}
