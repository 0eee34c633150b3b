// The reader of the ASCII form.
ghost use Rattle.std.specs.Prelude.{◌≡◌, ◌<◌, ◌≤◌, [], true, ℕ, IfOk, IfSome, IsTrue, OnOk};
ghost use Rattle.em_record.specs.Count.{Rose};
ghost use Rattle.em_space.specs.Rig.{Cause, Goes, Sound};
ghost use Rattle.em_space.specs.Seen.{seen};
ghost use Rattle.aig_defs.specs.Circuit.{IsDefining, IsGate, IsHeader, IsLatch};
ghost use Rattle.aig_defs.specs.Order.{gate_row, input_row, is_ascii, latch_row};
ghost use Rattle.aig_defs.specs.declared.form.Form.TheVariants.{Ascii};
ghost use Rattle.aig_text.specs.Ascii.{CompletesReading, FullOnlyIf, GivesCircuit, GivesParts, IfEm, OwesAfter, TakesAtMost, size_given};
ghost use Rattle.aig_text.specs.Reads.{Advances, OnShelfFault, ReadsItem};
ghost use Rattle.aig_text.specs.Source.{CanRead, left, source};

use crate::circuit::read_circuit;
use crate::line::{gate_line, input_line, latch_line};
use crate::parts::Parts;
use crate::rows::Rows;
use crate::stop::AigStop;
use aig_defs::{Form, Gate, Header, Latch};
use em_frames::Device;
use em_io::{Feed, Shelf};
use em_space::Rig;

/// The rows of the ASCII form: a line each.
#[derive(Drop)]
struct AsciiRows {
    /// The value with which an uninitialised latch starts, if one is given.
    uninit: Option<u64>,
}

impl Rows for AsciiRows {
    ghost form = { λ rows. Ascii rows.uninit };

    fn which(&self) -> Form
        ensures { result ≡ Ascii self.now.uninit }
    {
        Form::Ascii(self.uninit)
    }

    fn input_row<H: Shelf>(
        &self,
        header: &Header,
        before: u64,
        feed: &mut Feed,
        shelf: &mut H,
    ) -> Result<u64, AigStop>
        requires open { CanRead (source H.Shelf feed.old shelf.old) }
        requires header { IsHeader header.now }
        requires before { before < header.now.inputs }
        ensures reads { ReadsItem H.tells (input_row (Ascii self.now.uninit) header.now before)
            (source H.Shelf feed.old shelf.old) (source H.Shelf feed.new shelf.new) result }
        ensures is { IfOk result (λ literal. IsDefining header.now literal) }
        ensures forward { is_ascii (Ascii self.now.uninit) ≡ true → OnOk result (feed.old.place < feed.new.place) }
    {
        input_line(feed, shelf, header)
    }

    fn latch_row<H: Shelf>(
        &self,
        header: &Header,
        before: u64,
        feed: &mut Feed,
        shelf: &mut H,
    ) -> Result<Latch, AigStop>
        requires open { CanRead (source H.Shelf feed.old shelf.old) }
        requires header { IsHeader header.now }
        requires before { before < header.now.latches }
        ensures reads { ReadsItem H.tells (latch_row (Ascii self.now.uninit) header.now before)
            (source H.Shelf feed.old shelf.old) (source H.Shelf feed.new shelf.new) result }
        ensures is { IfOk result (λ latch. IsLatch header.now latch) }
        ensures forward { OnOk result (feed.old.place < feed.new.place) }
    {
        latch_line(feed, shelf, header, self.uninit)
    }

    fn gate_row<H: Shelf>(
        &self,
        header: &Header,
        before: u64,
        feed: &mut Feed,
        shelf: &mut H,
    ) -> Result<Gate, AigStop>
        requires open { CanRead (source H.Shelf feed.old shelf.old) }
        requires header { IsHeader header.now }
        requires before { before < header.now.gates }
        ensures reads { ReadsItem H.tells (gate_row (Ascii self.now.uninit) header.now before)
            (source H.Shelf feed.old shelf.old) (source H.Shelf feed.new shelf.new) result }
        ensures is { IfOk result (λ gate. IsGate header.now gate) }
        ensures forward { OnOk result (feed.old.place < feed.new.place) }
    {
        gate_line(feed, shelf, header)
    }
}

/// Reads a circuit in ASCII, after its magic, into four chains of records.
///
/// The slot was opened with Ok, the feed hasn't failed, and the three bytes of the magic were taken
/// and nothing else. Six single frames are free. After Ok the text is read to its end. `Fault` is
/// the first fault of the text. `Read` comes only if the shelf's count of faults rose. `Em` is the
/// fault of a call on the rig. At each exit all frames are back. After a stop the blocks that came
/// into use stay so, and the feed is not used again.
///
/// Let E be the inputs and columns and twice the latches and gates whose lines were begun, and P
/// the payload records of a block. A line is begun once its first byte was taken. The faulty line
/// counts, and nothing after it. At most 4·(ceil(E/P) + 6) moves are made, failed ones among them,
/// and at most ceil(2E/P) + 3 blocks come into use. `Full` comes only if fewer than ceil(2E/P) + 6
/// blocks were free. These numbers are promised over a shelf that tells its texts.
///
/// The form is that of the AIGER report (Biere 2007, format 20070427). A number has 1 to 20 digits;
/// a header number is at most 2^40. One space stands between two numbers, and one newline ends a
/// line; after the last line it may be missing. Symbols and a comment may follow the gates; they
/// are passed over. In the manner of AIGER 1.9 a header may have up to four further numbers, and a latch's
/// line a reset. `uninit` is the bit, 0 or 1, with which a latch starts whose reset is its own literal;
/// without it such a latch is the fault Uninit.
pub fn read_ascii<D: Device, H: Shelf>(
    rig: &mut Rig<'_, D>,
    feed: &mut Feed,
    shelf: &mut H,
    uninit: Option<u64>,
) -> Result<Parts, AigStop>
    requires sound { Sound (seen D.state rig.old) }
    requires ready { ((H.stand shelf.old).slot feed.old.slot).ready ≡ true }
    requires magic { feed.old.place ≡ 3 }
    requires uninit { IfSome uninit (λ value. value ≤ 1) }
    requires free { 5 < (seen D.state rig.old).pool.free }
    ensures goes { Goes [] (seen D.state rig.old) (seen D.state rig.new) }
    ensures parts { IfOk result (GivesParts (seen D.state rig.old) (seen D.state rig.new)) }
    ensures gives { IsTrue H.tells → GivesCircuit (Ascii uninit) (source H.Shelf feed.old shelf.old)
        (source H.Shelf feed.new shelf.new) (seen D.state rig.new) result }
    ensures end { IsTrue H.tells → OnOk result (left (source H.Shelf feed.new shelf.new) ≡ []) }
    ensures feed { Advances H.tells (source H.Shelf feed.old shelf.old)
        (source H.Shelf feed.new shelf.new) }
    ensures read { OnShelfFault result (Rose (H.faults shelf.old) (H.faults shelf.new)) }
    ensures cause { IfEm result (Cause (seen D.state rig.old) (seen D.state rig.new)) }
    ensures takes { IsTrue H.tells → (given : ℕ) → feed.new.place ≤ given
        → TakesAtMost (size_given (Ascii uninit) (source H.Shelf feed.old shelf.old) given)
        (seen D.state rig.old) (seen D.state rig.new) }
    ensures full { IsTrue H.tells → (given : ℕ) → feed.new.place ≤ given
        → FullOnlyIf (size_given (Ascii uninit) (source H.Shelf feed.old shelf.old) given)
        (seen D.state rig.old) result }
    ensures complete { IsTrue H.tells → CompletesReading (Ascii uninit) (source H.Shelf feed.old shelf.old)
        (source H.Shelf feed.new shelf.new) (seen D.state rig.old) (seen D.state rig.new) result }
    ensures owes { OwesAfter (seen D.state rig.old) (seen D.state rig.new) result }
{
    read_circuit(&AsciiRows { uninit }, rig, feed, shelf)
}
