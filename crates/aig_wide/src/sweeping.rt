//! A group is evaluated: the words of its lines leave the queue, go along the edges, and those of its steps'
//! columns stand in the queue.

ghost use Rattle.std.specs.Prelude.{◌≡◌, ◌<◌, ◌≤◌, ◌+◌, ℕ, min, List, OnOk, IsTrue, length};
ghost use Rattle.em_space.specs.Seen.{seen};
ghost use Rattle.em_chain.specs.Chain.{chain_items};
ghost use Rattle.aig_defs.specs.Circuit.{Circuit};
ghost use Rattle.aig_defs.specs.declared.circuit.Gate.{Gate};
ghost use Rattle.aig_sweep.specs.QueueState.{queue_state};
ghost use Rattle.aig_words.specs.Lines.{rows_records, tiles};
ghost use Rattle.aig_wide.specs.Gathers.{AreLong, words_left};
ghost use Rattle.aig_wide.specs.Sweeps.{CanSweep, HasEdges, SweepSays, SweptTo};

use crate::dealing::deal;
use crate::gathering::gather;
use aig_defs::Header;
use aig_sweep::columns;
use em_chain::Chain;
use em_frames::Device;
use em_space::{EmFault, Queue, Rig};

/// Evaluates the lines of a group, whose words stand in the queue by tiles. After it the words of the columns
/// stand there by steps.
pub(crate) fn sweep<D: Device, Q: Queue>(
    rig: &mut Rig<'_, D>,
    queue: &mut Q,
    header: &Header,
    given: &Chain,
    gates: &Chain,
    lines: u64,
    part: u64,
) -> Result<(), EmFault>
    requires is { Q.IsQueue queue.old (seen D.state rig.old) }
    requires can { CanSweep header.now given.now gates.now
        (queue_state Q.Queue queue.old (seen D.state rig.old)) }
    requires most { lines + min part 1 ≤ 64 }
    requires len { (Q.counts queue.old).len ≡ words_left lines part (tiles header.now.inputs) }
    ensures frames { Q.HasItsFrames queue.new (seen D.state rig.new) }
    ensures queue { OnOk result (Q.IsQueue queue.new (seen D.state rig.new)) }
    ensures sweeps { SweptTo header.now lines given.now gates.now
        (queue_state Q.Queue queue.old (seen D.state rig.old))
        (queue_state Q.Queue queue.new (seen D.state rig.new)) result }
    ensures says { OnOk result (IsTrue (seen D.state rig.old).device.told
        → (c : Circuit) (order : List Gate) (rows : List (List ℕ))
        → HasEdges c order header.now (chain_items (seen D.state rig.old) given.now)
        (chain_items (seen D.state rig.old) gates.now)
        → length rows ≡ tiles header.now.inputs → AreLong lines part rows
        → Q.items queue.old (seen D.state rig.old) ≡ rows_records 0 rows
        → SweepSays c lines header.now rows
        (Q.items queue.new (seen D.state rig.new))) }
{
    let words = gather(rig, queue, header.inputs, lines, part)?;
    let list = columns(rig, queue, header, given, gates, words)?;
    let count = header.outputs + header.bads + header.constraints;
    deal(rig, queue, list, count, lines)
}
