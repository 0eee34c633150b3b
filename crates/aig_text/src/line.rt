// The lines that a circuit's text is made of.
ghost use Rattle.std.specs.Prelude.{◌≡◌, ◌+◌, ◌^◌, ◌<◌, ◌≤◌, true, IfOk, None, OnOk};
ghost use Rattle.aig_defs.specs.Circuit.{IsDefining, IsGate, IsHeader, IsLatch};
ghost use Rattle.aig_defs.specs.Items.{number_fault};
ghost use Rattle.aig_defs.specs.Order.{header_number, bads, constraints, fairness, further, header_line, justice, counts_fit, reset, starts, latch_end, literal_line, latch_line, gate_line};
ghost use Rattle.aig_defs.specs.declared.form.Limit.TheVariants.{Defining};
ghost use Rattle.aig_text.specs.Limits.{IsLimit};
ghost use Rattle.aig_text.specs.Reads.{ReadsItem};
ghost use Rattle.aig_text.specs.Source.{CanRead, source};

use crate::item::{goes_on, last_end, line_end, number, space};
use crate::stop::{AigStop, fault};
use aig_defs::{AigKind, Form, Gate, Header, Latch, Limit};
use em_io::{Feed, Shelf};

/// A space and a number of the header.
#[tactic(auto, using(crate::proofs::Steadies::steadies))]
fn header_number<H: Shelf>(feed: &mut Feed, shelf: &mut H) -> Result<u64, AigStop>
    requires { CanRead (source H.Shelf feed.old shelf.old) }
    ensures reads { ReadsItem H.tells header_number (source H.Shelf feed.old shelf.old)
        (source H.Shelf feed.new shelf.new) result }
    ensures most { IfOk result (λ number. number ≤ 2 ^ 40) }
{
    space(feed, shelf)?;
    number(feed, shelf, Limit::Count)
}

/// Whether the counts of a header fit the form.
fn counts_fit(form: Form, header: &Header) -> bool
    requires inputs { header.now.inputs ≤ 2 ^ 40 }
    requires latches { header.now.latches ≤ 2 ^ 40 }
    requires gates { header.now.gates ≤ 2 ^ 40 }
    ensures fit { result ≡ counts_fit form header.now }
    ensures enough { result ≡ true
        → header.now.inputs + header.now.latches + header.now.gates ≤ header.now.max }
{
    let defined = header.inputs + header.latches + header.gates;
    match form {
        Form::Ascii(_) => defined <= header.max,
        Form::Binary(_) => header.max == defined,
    }
}

/// F, the last number of a header, which must be 0, and the end of its line.
#[tactic(auto, using(crate::proofs::Steadies::steadies))]
fn fairness<H: Shelf>(feed: &mut Feed, shelf: &mut H) -> Result<(), AigStop>
    requires { CanRead (source H.Shelf feed.old shelf.old) }
    ensures { ReadsItem H.tells fairness (source H.Shelf feed.old shelf.old)
        (source H.Shelf feed.new shelf.new) result }
{
    number(feed, shelf, Limit::NoFairness)?;
    last_end(feed, shelf)
}

/// J, which must be 0, and what follows it.
#[tactic(auto, using(crate::proofs::Steadies::steadies))]
fn justice<H: Shelf>(feed: &mut Feed, shelf: &mut H) -> Result<(), AigStop>
    requires { CanRead (source H.Shelf feed.old shelf.old) }
    ensures { ReadsItem H.tells justice (source H.Shelf feed.old shelf.old)
        (source H.Shelf feed.new shelf.new) result }
{
    number(feed, shelf, Limit::NoJustice)?;
    if goes_on(feed, shelf)? {
        return fairness(feed, shelf);
    }
    Ok(())
}

/// C, and what follows it: B and C.
#[tactic(auto, using(crate::proofs::Steadies::steadies))]
fn constraints<H: Shelf>(feed: &mut Feed, shelf: &mut H, bads: u64) -> Result<(u64, u64), AigStop>
    requires open { CanRead (source H.Shelf feed.old shelf.old) }
    requires few { bads ≤ 2 ^ 40 }
    ensures reads { ReadsItem H.tells (constraints bads) (source H.Shelf feed.old shelf.old)
        (source H.Shelf feed.new shelf.new) result }
    ensures most { IfOk result (λ both. (both.0 ≤ 2 ^ 40) × (both.1 ≤ 2 ^ 40)) }
{
    let constraints = number(feed, shelf, Limit::Count)?;
    if goes_on(feed, shelf)? {
        justice(feed, shelf)?;
    }
    Ok((bads, constraints))
}

/// B, and what follows it: B and C.
#[tactic(auto, using(crate::proofs::Steadies::steadies))]
fn bads<H: Shelf>(feed: &mut Feed, shelf: &mut H) -> Result<(u64, u64), AigStop>
    requires { CanRead (source H.Shelf feed.old shelf.old) }
    ensures reads { ReadsItem H.tells bads (source H.Shelf feed.old shelf.old)
        (source H.Shelf feed.new shelf.new) result }
    ensures most { IfOk result (λ both. (both.0 ≤ 2 ^ 40) × (both.1 ≤ 2 ^ 40)) }
{
    let bads = number(feed, shelf, Limit::Count)?;
    if goes_on(feed, shelf)? {
        return constraints(feed, shelf, bads);
    }
    Ok((bads, 0))
}

/// What follows the fifth number of a header: B and C, each 0 if it isn't written.
#[tactic(auto, using(crate::proofs::Steadies::steadies))]
fn further<H: Shelf>(feed: &mut Feed, shelf: &mut H) -> Result<(u64, u64), AigStop>
    requires { CanRead (source H.Shelf feed.old shelf.old) }
    ensures reads { ReadsItem H.tells further (source H.Shelf feed.old shelf.old)
        (source H.Shelf feed.new shelf.new) result }
    ensures most { IfOk result (λ both. (both.0 ≤ 2 ^ 40) × (both.1 ≤ 2 ^ 40)) }
{
    if goes_on(feed, shelf)? {
        return bads(feed, shelf);
    }
    Ok((0, 0))
}

/// The line of the header, after the magic.
#[tactic(auto, using(crate::proofs::Steadies::steadies))]
pub fn header_line<H: Shelf>(feed: &mut Feed, shelf: &mut H, form: Form) -> Result<Header, AigStop>
    requires { CanRead (source H.Shelf feed.old shelf.old) }
    ensures reads { ReadsItem H.tells (header_line form) (source H.Shelf feed.old shelf.old)
        (source H.Shelf feed.new shelf.new) result }
    ensures is { IfOk result (λ header. IsHeader header) }
{
    let header = Header {
        max: header_number(feed, shelf)?,
        inputs: header_number(feed, shelf)?,
        latches: header_number(feed, shelf)?,
        outputs: header_number(feed, shelf)?,
        gates: header_number(feed, shelf)?,
        bads: 0,
        constraints: 0,
    };
    if !counts_fit(form, &header) {
        return fault(AigKind::BadCounts, 4);
    }
    let (bads, constraints) = further(feed, shelf)?;
    Ok(Header {
        bads,
        constraints,
        ..header
    })
}

/// A literal alone on its line.
#[tactic(auto, using(crate::proofs::Steadies::steadies))]
pub fn literal_line<H: Shelf>(feed: &mut Feed, shelf: &mut H, limit: Limit) -> Result<u64, AigStop>
    requires open { CanRead (source H.Shelf feed.old shelf.old) }
    requires limit { IsLimit limit }
    ensures reads { ReadsItem H.tells (literal_line limit) (source H.Shelf feed.old shelf.old)
        (source H.Shelf feed.new shelf.new) result }
    ensures allowed { IfOk result (λ literal. number_fault limit literal ≡ None) }
    ensures forward { OnOk result (feed.old.place < feed.new.place) }
{
    let literal = number(feed, shelf, limit)?;
    line_end(feed, shelf)?;
    Ok(literal)
}

/// The line of an input.
pub fn input_line<H: Shelf>(feed: &mut Feed, shelf: &mut H, header: &Header) -> Result<u64, AigStop>
    requires open { CanRead (source H.Shelf feed.old shelf.old) }
    requires header { IsHeader header.now }
    ensures reads { ReadsItem H.tells (literal_line (Defining header.now.max))
        (source H.Shelf feed.old shelf.old) (source H.Shelf feed.new shelf.new) result }
    ensures is { IfOk result (λ literal. IsDefining header.now literal) }
    ensures forward { OnOk result (feed.old.place < feed.new.place) }
{
    let literal = literal_line(feed, shelf, Limit::Defining(header.max))?;
    Ok(literal)
}

/// What follows a latch's next literal: its reset, which is 0 if it isn't written.
#[tactic(auto, using(crate::proofs::Steadies::steadies))]
pub fn latch_end<H: Shelf>(
    feed: &mut Feed,
    shelf: &mut H,
    uninit: Option<u64>,
    own: u64,
) -> Result<bool, AigStop>
    requires { CanRead (source H.Shelf feed.old shelf.old) }
    ensures { ReadsItem H.tells (latch_end uninit own) (source H.Shelf feed.old shelf.old)
        (source H.Shelf feed.new shelf.new) result }
{
    if goes_on(feed, shelf)? {
        return reset(feed, shelf, uninit, own);
    }
    Ok(false)
}

/// A latch's reset and the end of its line: whether the latch starts with 1.
#[tactic(auto, using(crate::proofs::Steadies::steadies))]
fn reset<H: Shelf>(
    feed: &mut Feed,
    shelf: &mut H,
    uninit: Option<u64>,
    own: u64,
) -> Result<bool, AigStop>
    requires { CanRead (source H.Shelf feed.old shelf.old) }
    ensures { ReadsItem H.tells (reset uninit own) (source H.Shelf feed.old shelf.old)
        (source H.Shelf feed.new shelf.new) result }
{
    let value = number(feed, shelf, Limit::Reset(own, uninit.is_some()))?;
    last_end(feed, shelf)?;
    Ok(starts(uninit, own, value))
}

/// The bit with which the latch `own` starts, by the number that is its reset.
fn starts(uninit: Option<u64>, own: u64, value: u64) -> bool
    ensures { result ≡ starts uninit own value }
{
    if value == own {
        uninit.unwrap_or(0) == 1
    } else {
        value == 1
    }
}

/// The line of a latch.
#[tactic(auto, using(crate::proofs::Steadies::steadies, crate::proofs::SectionRows::ranges))]
pub fn latch_line<H: Shelf>(
    feed: &mut Feed,
    shelf: &mut H,
    header: &Header,
    uninit: Option<u64>,
) -> Result<Latch, AigStop>
    requires open { CanRead (source H.Shelf feed.old shelf.old) }
    requires header { IsHeader header.now }
    ensures reads { ReadsItem H.tells (latch_line uninit header.now) (source H.Shelf feed.old shelf.old)
        (source H.Shelf feed.new shelf.new) result }
    ensures is { IfOk result (λ latch. IsLatch header.now latch) }
    ensures forward { OnOk result (feed.old.place < feed.new.place) }
{
    let current = number(feed, shelf, Limit::Defining(header.max))?;
    space(feed, shelf)?;
    let next = number(feed, shelf, Limit::Used(header.max))?;
    let reset = latch_end(feed, shelf, uninit, current)?;
    Ok(Latch {
        current,
        next,
        reset,
    })
}

/// The line of a gate.
#[tactic(auto, using(crate::proofs::Steadies::steadies))]
pub fn gate_line<H: Shelf>(feed: &mut Feed, shelf: &mut H, header: &Header) -> Result<Gate, AigStop>
    requires open { CanRead (source H.Shelf feed.old shelf.old) }
    requires header { IsHeader header.now }
    ensures reads { ReadsItem H.tells (gate_line header.now) (source H.Shelf feed.old shelf.old)
        (source H.Shelf feed.new shelf.new) result }
    ensures is { IfOk result (λ gate. IsGate header.now gate) }
    ensures forward { OnOk result (feed.old.place < feed.new.place) }
{
    let lhs = number(feed, shelf, Limit::Defining(header.max))?;
    space(feed, shelf)?;
    let rhs0 = number(feed, shelf, Limit::Used(header.max))?;
    space(feed, shelf)?;
    let rhs1 = number(feed, shelf, Limit::Used(header.max))?;
    line_end(feed, shelf)?;
    Ok(Gate { lhs, rhs0, rhs1 })
}
