ghost use Rattle.std.specs.Prelude.{◌≡◌, ◌<◌, ◌+◌, ◌^◌, ◌&&◌, Bool, ℕ, List, IfOk, IsTrue, OnOk};
ghost use Rattle.em_record.specs.declared.record.Record as declared;
ghost use Rattle.em_space.specs.Queue.{CanServe};
ghost use Rattle.em_space.specs.Rig.{Sound};
ghost use Rattle.em_space.specs.Seen.{seen};
ghost use Rattle.aig_defs.specs.Edges.{arity};
ghost use Rattle.aig_sweep.specs.Messages.{AtRank, TakesBoth, waiting};
ghost use Rattle.aig_sweep.specs.Passes.{TakesFirst, TakesTo, word_in};
ghost use Rattle.aig_words.specs.Words.{lane, says};
ghost use Rattle.aig_sweep.specs.QueueState.{queue_state};

use em_frames::Device;
use em_record::Record;
use em_space::{EmFault, Queue, Rig};

/// The word of a record, as a message or of a list. If there is none, it says 0 in all lanes.
pub fn word_in(item: Option<Record>) -> u64
    ensures is { result ≡ word_in item }
{
    match item {
        Some(item) => item.c,
        None => 0,
    }
}

/// Takes the next message out. If the queue has none, it isn't called.
pub fn take_message<D: Device, Q: Queue>(
    rig: &mut Rig<'_, D>,
    queue: &mut Q,
) -> Result<Option<Record>, EmFault>
    requires sound { Sound (seen D.state rig.old) }
    requires is { Q.IsQueue queue.old (seen D.state rig.old) }
    requires free { CanServe (seen D.state rig.old).pool }
    requires few { (Q.counts queue.old).n < 2 ^ 100 }
    ensures frames { Q.HasItsFrames queue.new (seen D.state rig.new) }
    ensures queue { OnOk result (Q.IsQueue queue.new (seen D.state rig.new)) }
    ensures takes { TakesTo 1 (queue_state Q.Queue queue.old (seen D.state rig.old))
        (queue_state Q.Queue queue.new (seen D.state rig.new)) result }
    ensures first { IfOk result (λ item. TakesFirst
        (queue_state Q.Queue queue.old (seen D.state rig.old))
        (queue_state Q.Queue queue.new (seen D.state rig.new)) item) }
{
    if queue.len() == 0 {
        return Ok(None);
    }
    let item = queue.pop(rig)?;
    Ok(item)
}

/// Takes the two messages of a gate's rank out, and answers the conjunction of their words.
pub(crate) fn both<D: Device, Q: Queue>(rig: &mut Rig<'_, D>, queue: &mut Q) -> Result<u64, EmFault>
    requires sound { Sound (seen D.state rig.old) }
    requires is { Q.IsQueue queue.old (seen D.state rig.old) }
    requires free { CanServe (seen D.state rig.old).pool }
    requires few { (Q.counts queue.old).n + (Q.counts queue.old).len < 2 ^ 100 }
    ensures frames { Q.HasItsFrames queue.new (seen D.state rig.new) }
    ensures queue { OnOk result (Q.IsQueue queue.new (seen D.state rig.new)) }
    ensures takes { TakesTo 2 (queue_state Q.Queue queue.old (seen D.state rig.old))
        (queue_state Q.Queue queue.new (seen D.state rig.new)) result }
    ensures gate { IfOk result (λ word. IsTrue (seen D.state rig.old).device.told
        → (i : ℕ) (value : ℕ → Bool) (t k : ℕ) (edges : List declared.Record) → AtRank t k edges
        → arity t edges ≡ 2
        → lane i (Q.items queue.old (seen D.state rig.old)) ≡ waiting value t k edges
        → TakesBoth value t k edges (says i word)
        (lane i (Q.items queue.new (seen D.state rig.new)))) }
{
    let first = take_message(rig, queue)?;
    let second = take_message(rig, queue)?;
    Ok(word_in(first) & word_in(second))
}
