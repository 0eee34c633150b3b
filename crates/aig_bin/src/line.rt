// What stands in the binary form of a latch and of a gate.
ghost use Rattle.std.specs.Prelude.{◌≡◌, ◌<◌, IfOk, OnOk};
ghost use Rattle.aig_defs.specs.Circuit.{IsGate, IsHeader, IsLatch};
ghost use Rattle.aig_defs.specs.Order.{gate_deltas, next_line};
ghost use Rattle.aig_text.specs.Reads.{ReadsItem};
ghost use Rattle.aig_text.specs.Source.{CanRead, source};

use crate::delta::delta;
use aig_defs::{Gate, Header, Latch, Limit};
use aig_text::{AigStop, latch_end, number};
use em_io::{Feed, Shelf};

/// The line of a latch, of which `before` stand before it: its next literal, and its reset.
#[tactic(auto, using(aig_text::proofs::Steadies::steadies))]
pub(crate) fn next_line<H: Shelf>(
    feed: &mut Feed,
    shelf: &mut H,
    header: &Header,
    before: u64,
    uninit: Option<u64>,
) -> Result<Latch, AigStop>
    requires open { CanRead (source H.Shelf feed.old shelf.old) }
    requires header { IsHeader header.now }
    requires before { before < header.now.latches }
    ensures reads { ReadsItem H.tells (next_line uninit header.now before)
        (source H.Shelf feed.old shelf.old) (source H.Shelf feed.new shelf.new) result }
    ensures is { IfOk result (λ latch. IsLatch header.now latch) }
    ensures forward { OnOk result (feed.old.place < feed.new.place) }
{
    let current = 2 * (header.inputs + 1 + before);
    let next = number(feed, shelf, Limit::Used(header.max))?;
    let reset = latch_end(feed, shelf, uninit, current)?;
    Ok(Latch {
        current,
        next,
        reset,
    })
}

/// The bytes of a gate, of which `before` stand before it: how much its operands are below it.
#[tactic(auto, using(aig_text::proofs::Steadies::steadies))]
pub(crate) fn gate_deltas<H: Shelf>(
    feed: &mut Feed,
    shelf: &mut H,
    header: &Header,
    before: u64,
) -> Result<Gate, AigStop>
    requires open { CanRead (source H.Shelf feed.old shelf.old) }
    requires header { IsHeader header.now }
    requires before { before < header.now.gates }
    ensures reads { ReadsItem H.tells (gate_deltas header.now before)
        (source H.Shelf feed.old shelf.old) (source H.Shelf feed.new shelf.new) result }
    ensures is { IfOk result (λ gate. IsGate header.now gate) }
    ensures forward { OnOk result (feed.old.place < feed.new.place) }
{
    let lhs = 2 * (header.inputs + header.latches + 1 + before);
    let delta0 = delta(feed, shelf, 1, lhs)?;
    let rhs0 = lhs - delta0;
    let delta1 = delta(feed, shelf, 0, rhs0)?;
    Ok(Gate {
        lhs,
        rhs0,
        rhs1: rhs0 - delta1,
    })
}
