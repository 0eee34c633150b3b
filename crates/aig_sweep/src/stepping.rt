ghost use Rattle.std.specs.Prelude.{◌≡◌, ◌<◌, ◌≤◌, ◌+◌, ◌*◌, ◌^◌, Bool, ℕ, List, [], IfOk, IsTrue, OnOk};
ghost use Rattle.em_space.specs.Rig.{Sound};
ghost use Rattle.em_space.specs.Seen.{seen};
ghost use Rattle.em_chain.specs.Chain.{chain_items};
ghost use Rattle.aig_defs.specs.Circuit.{Circuit, IsHeader};
ghost use Rattle.aig_defs.specs.Value.{step_of};
ghost use Rattle.aig_defs.specs.declared.circuit.Gate.{Gate};
ghost use Rattle.aig_sweep.specs.Bits.{bits_of};
ghost use Rattle.aig_sweep.specs.Columns.{ColumnsTo};
ghost use Rattle.aig_sweep.specs.Evaluates.{CanEvaluate, EvaluatesTo, HasChains, Represents};
ghost use Rattle.aig_edges.specs.Graph.{edge_count};
ghost use Rattle.aig_sweep.specs.QueueState.{queue_state};
ghost use Rattle.aig_words.specs.Words.{lane};
ghost use Rattle.aig_sweep.specs.Nexts.{CanCollect, CollectsTo, KeepsTo};

use crate::gate::take_message;
use crate::spreading::spread;
use aig_defs::Header;
use em_chain::{Chain, Writer};
use em_frames::Device;
use em_queued::pop_into;
use em_space::{EmFault, Queue, Rig};

/// Takes messages out until at most `keep` are left. Over a device that tells there are no more
/// after a step's last gate.
fn keep_last<D: Device, Q: Queue>(
    rig: &mut Rig<'_, D>,
    queue: &mut Q,
    keep: u64,
) -> Result<(), EmFault>
    requires is { Q.IsQueue queue.old (seen D.state rig.old) }
    requires ready { CanCollect keep (queue_state Q.Queue queue.old (seen D.state rig.old)) }
    ensures frames { Q.HasItsFrames queue.new (seen D.state rig.new) }
    ensures queue { OnOk result (Q.IsQueue queue.new (seen D.state rig.new)) }
    ensures keeps { KeepsTo keep (queue_state Q.Queue queue.old (seen D.state rig.old))
        (queue_state Q.Queue queue.new (seen D.state rig.new)) result }
{
    let count = queue.len();
    for _ in keep..count {
        let _surplus = take_message(rig, queue)?;
    }
    Ok(())
}

/// Takes this many messages into a new list, after which `keep` are left.
fn collect<D: Device, Q: Queue>(
    rig: &mut Rig<'_, D>,
    queue: &mut Q,
    count: u64,
    keep: u64,
) -> Result<Chain, EmFault>
    requires is { Q.IsQueue queue.old (seen D.state rig.old) }
    requires ready { CanCollect (count + keep)
        (queue_state Q.Queue queue.old (seen D.state rig.old)) }
    requires few { count + keep < 2 ^ 50 }
    ensures frames { Q.HasItsFrames queue.new (seen D.state rig.new) }
    ensures queue { OnOk result (Q.IsQueue queue.new (seen D.state rig.new)) }
    ensures collects { CollectsTo count keep
        (queue_state Q.Queue queue.old (seen D.state rig.old))
        (queue_state Q.Queue queue.new (seen D.state rig.new)) result }
{
    keep_last(rig, queue, count + keep)?;
    let mut list = Writer::new(rig);
    match pop_into(rig, queue, &mut list, count) {
        Ok(()) => {
            let chain = list.finish(rig)?;
            Ok(chain)
        }
        Err(fault) => {
            list.abandon(rig);
            Err(fault)
        }
    }
}

/// A step in each of 64 lanes, without its stimulus and its printed line: takes a list of the words of
/// inputs and latches, and gives the list of the latches' next words, a record each. After it the queue
/// holds the messages of the columns, in their order.
///
/// It needs 2f + 8 single frames, an area and the rack. The queue has no item at first, and is called at
/// most twice for each edge. Each fault is the rig's or the queue's.
pub fn evaluate<D: Device, Q: Queue>(
    rig: &mut Rig<'_, D>,
    queue: &mut Q,
    header: &Header,
    given: &Chain,
    gates: &Chain,
    bits: Chain,
) -> Result<Chain, EmFault>
    requires sound { Sound (seen D.state rig.old) }
    requires is { Q.IsQueue queue.old (seen D.state rig.old) }
    requires empty { (Q.counts queue.old).len ≡ 0 }
    requires few { (Q.counts queue.old).n + 2 * edge_count header.now < 2 ^ 100 }
    requires free { CanEvaluate (seen D.state rig.old).pool }
    requires header { IsHeader header.now }
    requires chains { HasChains header.now given.now gates.now bits
        (queue_state Q.Queue queue.old (seen D.state rig.old)) }
    ensures frames { Q.HasItsFrames queue.new (seen D.state rig.new) }
    ensures queue { OnOk result (Q.IsQueue queue.new (seen D.state rig.new)) }
    ensures evaluates { EvaluatesTo header.now given.now gates.now bits
        (queue_state Q.Queue queue.old (seen D.state rig.old))
        (queue_state Q.Queue queue.new (seen D.state rig.new)) result }
    ensures values { IfOk result (λ next. IsTrue (seen D.state rig.old).device.told
        → (i : ℕ) → i < 64 → (c : Circuit) (order : List Gate) (state input : List Bool)
        → Represents c order state input header.now (chain_items (seen D.state rig.old) given.now)
        (chain_items (seen D.state rig.old) gates.now)
        (lane i (chain_items (seen D.state rig.old) bits))
        → (bits_of (lane i (chain_items (seen D.state rig.new) next)) ≡ (step_of c state input).1)
        × (bits_of (lane i (Q.items queue.new (seen D.state rig.new)))
        ≡ (step_of c state input).0)) }
{
    spread(rig, queue, header, given, gates, bits)?;
    let columns = header.outputs + header.bads + header.constraints;
    let next = collect(rig, queue, header.latches, columns)?;
    Ok(next)
}

/// The columns in each of 64 lanes, of a circuit without latches: takes a list of the words of its inputs,
/// and gives the list of the columns' words, a record each. After it the queue has no item again.
///
/// It needs what `evaluate` needs, and calls the queue as often. Beside the queue's blocks those of the
/// longer one of the two lists are in use at once.
pub fn columns<D: Device, Q: Queue>(
    rig: &mut Rig<'_, D>,
    queue: &mut Q,
    header: &Header,
    given: &Chain,
    gates: &Chain,
    bits: Chain,
) -> Result<Chain, EmFault>
    requires sound { Sound (seen D.state rig.old) }
    requires is { Q.IsQueue queue.old (seen D.state rig.old) }
    requires empty { (Q.counts queue.old).len ≡ 0 }
    requires few { (Q.counts queue.old).n + 2 * edge_count header.now < 2 ^ 100 }
    requires free { CanEvaluate (seen D.state rig.old).pool }
    requires header { IsHeader header.now }
    requires none { header.now.latches ≡ 0 }
    requires chains { HasChains header.now given.now gates.now bits
        (queue_state Q.Queue queue.old (seen D.state rig.old)) }
    ensures frames { Q.HasItsFrames queue.new (seen D.state rig.new) }
    ensures queue { OnOk result (Q.IsQueue queue.new (seen D.state rig.new)) }
    ensures columns { ColumnsTo header.now given.now gates.now bits
        (queue_state Q.Queue queue.old (seen D.state rig.old))
        (queue_state Q.Queue queue.new (seen D.state rig.new)) result }
    ensures values { IfOk result (λ list. IsTrue (seen D.state rig.old).device.told
        → (i : ℕ) → i < 64 → (c : Circuit) (order : List Gate) (input : List Bool)
        → Represents c order [] input header.now (chain_items (seen D.state rig.old) given.now)
        (chain_items (seen D.state rig.old) gates.now)
        (lane i (chain_items (seen D.state rig.old) bits))
        → bits_of (lane i (chain_items (seen D.state rig.new) list)) ≡ (step_of c [] input).0) }
{
    spread(rig, queue, header, given, gates, bits)?;
    let count = header.outputs + header.bads + header.constraints;
    let list = collect(rig, queue, count, 0)?;
    Ok(list)
}
