// The reader of the binary form.
ghost use Rattle.std.specs.Prelude.{◌≡◌, ◌<◌, ◌≤◌, [], true, ℕ, IfOk, IfSome, IsTrue, OnOk};
ghost use Rattle.em_record.specs.Count.{Rose};
ghost use Rattle.em_space.specs.Rig.{Cause, Goes, Sound};
ghost use Rattle.em_space.specs.Seen.{seen};
ghost use Rattle.aig_defs.specs.Circuit.{IsDefining, IsGate, IsHeader, IsLatch};
ghost use Rattle.aig_defs.specs.Order.{gate_row, input_row, is_ascii, latch_row};
ghost use Rattle.aig_defs.specs.declared.form.Form.TheVariants.{Binary};
ghost use Rattle.aig_text.specs.Ascii.{CompletesReading, FullOnlyIf, GivesCircuit, GivesParts, IfEm, OwesAfter, TakesAtMost, size_given};
ghost use Rattle.aig_text.specs.Reads.{Advances, OnShelfFault, ReadsItem};
ghost use Rattle.aig_text.specs.Source.{CanRead, left, source};

use crate::line::{gate_deltas, next_line};
use aig_defs::{Form, Gate, Header, Latch};
use aig_text::{AigStop, Parts, Rows, read_circuit};
use em_frames::Device;
use em_io::{Feed, Shelf};
use em_space::Rig;

/// The rows of the binary form: no byte of an input, a line of a latch, two deltas of a gate.
#[derive(Drop)]
struct BinaryRows {
    /// The value with which an uninitialised latch starts, if one is given.
    uninit: Option<u64>,
}

impl Rows for BinaryRows {
    ghost form = { λ rows. Binary rows.uninit };

    fn which(&self) -> Form
        ensures { result ≡ Binary self.now.uninit }
    {
        Form::Binary(self.uninit)
    }

    #[tactic(auto, using(aig_text::proofs::Steadies::steadies))]
    fn input_row<H: Shelf>(
        &self,
        header: &Header,
        before: u64,
        feed: &mut Feed,
        shelf: &mut H,
    ) -> Result<u64, AigStop>
        requires open { CanRead (source H.Shelf feed.old shelf.old) }
        requires header { IsHeader header.now }
        requires before { before < header.now.inputs }
        ensures reads { ReadsItem H.tells (input_row (Binary self.now.uninit) header.now before)
            (source H.Shelf feed.old shelf.old) (source H.Shelf feed.new shelf.new) result }
        ensures is { IfOk result (λ literal. IsDefining header.now literal) }
        ensures forward { is_ascii (Binary self.now.uninit) ≡ true → OnOk result (feed.old.place < feed.new.place) }
    {
        Ok(2 * (before + 1))
    }

    fn latch_row<H: Shelf>(
        &self,
        header: &Header,
        before: u64,
        feed: &mut Feed,
        shelf: &mut H,
    ) -> Result<Latch, AigStop>
        requires open { CanRead (source H.Shelf feed.old shelf.old) }
        requires header { IsHeader header.now }
        requires before { before < header.now.latches }
        ensures reads { ReadsItem H.tells (latch_row (Binary self.now.uninit) header.now before)
            (source H.Shelf feed.old shelf.old) (source H.Shelf feed.new shelf.new) result }
        ensures is { IfOk result (λ latch. IsLatch header.now latch) }
        ensures forward { OnOk result (feed.old.place < feed.new.place) }
    {
        next_line(feed, shelf, header, before, self.uninit)
    }

    fn gate_row<H: Shelf>(
        &self,
        header: &Header,
        before: u64,
        feed: &mut Feed,
        shelf: &mut H,
    ) -> Result<Gate, AigStop>
        requires open { CanRead (source H.Shelf feed.old shelf.old) }
        requires header { IsHeader header.now }
        requires before { before < header.now.gates }
        ensures reads { ReadsItem H.tells (gate_row (Binary self.now.uninit) header.now before)
            (source H.Shelf feed.old shelf.old) (source H.Shelf feed.new shelf.new) result }
        ensures is { IfOk result (λ gate. IsGate header.now gate) }
        ensures forward { OnOk result (feed.old.place < feed.new.place) }
    {
        gate_deltas(feed, shelf, header, before)
    }
}

/// Reads a circuit in the binary form, after its magic, into four chains of records.
///
/// The slot was opened with Ok, the feed hasn't failed, and the three bytes of the magic were taken
/// and nothing else. Six single frames are free. After Ok the text is read to its end. `Fault` is
/// the first fault of the text. `Read` comes only if the shelf's count of faults rose. `Em` is the
/// fault of a call on the rig. At each exit all frames are back. After a stop the blocks that came
/// into use stay so, and the feed is not used again.
///
/// Let E be the columns and twice the latches and gates that were begun, and the inputs, once the
/// header was read; and P the payload records of a block. A row is begun once its first byte was
/// taken. The faulty row counts, and nothing after it. At most 4·(ceil(E/P) + 6) moves are made,
/// failed ones among them, and at most ceil(2E/P) + 3 blocks come into use. `Full` comes only if
/// fewer than ceil(2E/P) + 6 blocks were free. These numbers are promised over a shelf that tells
/// its texts.
///
/// The form is that of the AIGER report (Biere 2007, format 20070427). Inputs, latches and gates are
/// numbered in this order, and M is their number. An input takes no byte, a latch the line of its
/// next literal and its reset. A gate is two deltas: by how much its first operand is below it, at least 1,
/// and by how much the second is below the first. A delta has at most six bytes, with seven bits of it
/// each, the least first; all but the last have their top bit set. `uninit` is as at `read_ascii`.
pub fn read_binary<D: Device, H: Shelf>(
    rig: &mut Rig<'_, D>,
    feed: &mut Feed,
    shelf: &mut H,
    uninit: Option<u64>,
) -> Result<Parts, AigStop>
    requires sound { Sound (seen D.state rig.old) }
    requires ready { ((H.stand shelf.old).slot feed.old.slot).ready ≡ true }
    requires magic { feed.old.place ≡ 3 }
    requires uninit { IfSome uninit (λ value. value ≤ 1) }
    requires free { 5 < (seen D.state rig.old).pool.free }
    ensures goes { Goes [] (seen D.state rig.old) (seen D.state rig.new) }
    ensures parts { IfOk result (GivesParts (seen D.state rig.old) (seen D.state rig.new)) }
    ensures gives { IsTrue H.tells → GivesCircuit (Binary uninit) (source H.Shelf feed.old shelf.old)
        (source H.Shelf feed.new shelf.new) (seen D.state rig.new) result }
    ensures end { IsTrue H.tells → OnOk result (left (source H.Shelf feed.new shelf.new) ≡ []) }
    ensures feed { Advances H.tells (source H.Shelf feed.old shelf.old)
        (source H.Shelf feed.new shelf.new) }
    ensures read { OnShelfFault result (Rose (H.faults shelf.old) (H.faults shelf.new)) }
    ensures cause { IfEm result (Cause (seen D.state rig.old) (seen D.state rig.new)) }
    ensures takes { IsTrue H.tells → (given : ℕ) → feed.new.place ≤ given
        → TakesAtMost (size_given (Binary uninit) (source H.Shelf feed.old shelf.old) given)
        (seen D.state rig.old) (seen D.state rig.new) }
    ensures full { IsTrue H.tells → (given : ℕ) → feed.new.place ≤ given
        → FullOnlyIf (size_given (Binary uninit) (source H.Shelf feed.old shelf.old) given)
        (seen D.state rig.old) result }
    ensures complete { IsTrue H.tells → CompletesReading (Binary uninit) (source H.Shelf feed.old shelf.old)
        (source H.Shelf feed.new shelf.new) (seen D.state rig.old) (seen D.state rig.new) result }
    ensures owes { OwesAfter (seen D.state rig.old) (seen D.state rig.new) result }
{
    read_circuit(&BinaryRows { uninit }, rig, feed, shelf)
}
