ghost use Rattle.std.specs.Prelude.{◌≡◌, ◌<◌, ◌≤◌, ◌+◌, ◌*◌, ◌^◌, Bool, ℕ, List, IfOk, IsTrue, OnOk};
ghost use Rattle.em_record.specs.declared.record.Record as declared;
ghost use Rattle.em_space.specs.Seen.{seen};
ghost use Rattle.em_chain.specs.Chain.{chain_items};
ghost use Rattle.em_chain.specs.Reader.{reader_items};
ghost use Rattle.aig_sweep.specs.Messages.{Reaches, Sendable, Sending, waiting};
ghost use Rattle.aig_sweep.specs.Passes.{CanSendChain, SendsChainTo};
ghost use Rattle.aig_sweep.specs.Spreads.{CanSendBoth, CanSpread, HasValues, SendsBothTo, SpreadsTo, last_of};
ghost use Rattle.aig_edges.specs.Graph.{edge_count};
ghost use Rattle.aig_sweep.specs.QueueState.{queue_state};
ghost use Rattle.aig_words.specs.Words.{lane, says};

use crate::sending::send_all;
use aig_defs::Header;
use em_chain::{Chain, Reader, discard};
use em_frames::Device;
use em_space::{EmFault, Queue, Rig};

/// Sends the edges of a chain, of which `sent` others were sent, and goes up to the last rank,
/// whose word it answers.
fn send_chain<D: Device, Q: Queue>(
    rig: &mut Rig<'_, D>,
    queue: &mut Q,
    chain: &Chain,
    bits: &mut Reader,
    base: u64,
    last: u64,
    sent: u64,
    now: u64,
    word: u64,
) -> Result<u64, EmFault>
    requires is { Q.IsQueue queue.old (seen D.state rig.old) }
    requires ready { CanSendChain base last sent now
        (queue_state Q.Queue queue.old (seen D.state rig.old)) chain.now bits.old }
    ensures frames { Q.HasItsFrames queue.new (seen D.state rig.new) }
    ensures queue { OnOk result (Q.IsQueue queue.new (seen D.state rig.new)) }
    ensures sends { SendsChainTo base last sent now
        (queue_state Q.Queue queue.old (seen D.state rig.old))
        (queue_state Q.Queue queue.new (seen D.state rig.new)) chain.now bits.old bits.new result }
    ensures value { IfOk result (λ last_is. IsTrue (seen D.state rig.old).device.told
        → (i : ℕ) → i < 64 → (value : ℕ → Bool) (all behind : List declared.Record)
        → Sendable value all behind base last
        → Sending value all behind base last now sent (says i word)
        (chain_items (seen D.state rig.old) chain.now)
        (lane i (reader_items (seen D.state rig.old) bits.old))
        (lane i (Q.items queue.old (seen D.state rig.old)))
        → Reaches value all base last (sent + chain.now.count) (says i last_is)
        (lane i (reader_items (seen D.state rig.new) bits.new))
        (lane i (Q.items queue.new (seen D.state rig.new)))) }
{
    let mut edges = Reader::over(rig, chain);
    let count = chain.len();
    match send_all(
        rig, queue, &mut edges, bits, base, last, count, sent, now, word,
    ) {
        Ok(reached) => {
            edges.abandon(rig);
            Ok(reached)
        }
        Err(fault) => {
            edges.abandon(rig);
            Err(fault)
        }
    }
}

/// Sends the edges of the ranks up to I + L, whose words are given, and then those of the gates.
fn send_both<D: Device, Q: Queue>(
    rig: &mut Rig<'_, D>,
    queue: &mut Q,
    header: &Header,
    given: &Chain,
    gates: &Chain,
    bits: &mut Reader,
) -> Result<(), EmFault>
    requires is { Q.IsQueue queue.old (seen D.state rig.old) }
    requires ready { CanSendBoth header.now given.now gates.now bits.old
        (queue_state Q.Queue queue.old (seen D.state rig.old)) }
    ensures frames { Q.HasItsFrames queue.new (seen D.state rig.new) }
    ensures queue { OnOk result (Q.IsQueue queue.new (seen D.state rig.new)) }
    ensures sends { SendsBothTo header.now given.now gates.now
        (queue_state Q.Queue queue.old (seen D.state rig.old))
        (queue_state Q.Queue queue.new (seen D.state rig.new)) bits.old bits.new result }
    ensures waits { OnOk result (IsTrue (seen D.state rig.old).device.told
        → (i : ℕ) → i < 64 → (value : ℕ → Bool) (all : List declared.Record)
        → HasValues value all header.now (chain_items (seen D.state rig.old) given.now)
        (chain_items (seen D.state rig.old) gates.now)
        (lane i (reader_items (seen D.state rig.old) bits.old))
        → lane i (Q.items queue.new (seen D.state rig.new))
        ≡ waiting value (last_of header.now + 1) (edge_count header.now) all) }
{
    let base = header.inputs + header.latches;
    let last = base + header.gates;
    let value = send_chain(rig, queue, given, bits, base, base, 0, 0, 0)?;
    let sent = given.len();
    let _reached = send_chain(rig, queue, gates, bits, base, last, sent, base, value)?;
    Ok(())
}

/// Sends all edges of a step, and releases the words. After it the queue holds the messages of the
/// next words and of the columns.
pub(crate) fn spread<D: Device, Q: Queue>(
    rig: &mut Rig<'_, D>,
    queue: &mut Q,
    header: &Header,
    given: &Chain,
    gates: &Chain,
    bits: Chain,
) -> Result<(), EmFault>
    requires is { Q.IsQueue queue.old (seen D.state rig.old) }
    requires ready { CanSpread header.now given.now gates.now bits
        (queue_state Q.Queue queue.old (seen D.state rig.old)) }
    ensures frames { Q.HasItsFrames queue.new (seen D.state rig.new) }
    ensures queue { OnOk result (Q.IsQueue queue.new (seen D.state rig.new)) }
    ensures spreads { SpreadsTo header.now given.now gates.now bits
        (queue_state Q.Queue queue.old (seen D.state rig.old))
        (queue_state Q.Queue queue.new (seen D.state rig.new)) result }
    ensures waits { OnOk result (IsTrue (seen D.state rig.old).device.told
        → (i : ℕ) → i < 64 → (value : ℕ → Bool) (all : List declared.Record)
        → HasValues value all header.now (chain_items (seen D.state rig.old) given.now)
        (chain_items (seen D.state rig.old) gates.now)
        (lane i (chain_items (seen D.state rig.old) bits))
        → lane i (Q.items queue.new (seen D.state rig.new))
        ≡ waiting value (last_of header.now + 1) (edge_count header.now) all) }
{
    let mut taken = Reader::taking(rig, bits);
    match send_both(rig, queue, header, given, gates, &mut taken) {
        Ok(()) => {
            let rest = taken.end(rig);
            discard(rig, rest)?;
            Ok(())
        }
        Err(fault) => {
            taken.abandon(rig);
            Err(fault)
        }
    }
}
