ghost use Rattle.std.specs.Prelude.{◌≡◌, ◌<◌, true, IfOk, OnOk};
ghost use Rattle.aig_defs.specs.Circuit.{IsDefining, IsGate, IsHeader, IsLatch};
ghost use Rattle.aig_defs.specs.Order.{gate_row, input_row, is_ascii, latch_row};
ghost use Rattle.aig_defs.specs.declared.form.Form as declared;
ghost use Rattle.aig_text.specs.Reads.{ReadsItem};
ghost use Rattle.aig_text.specs.Source.{CanRead, source};

use crate::stop::AigStop;
use aig_defs::{Form, Gate, Header, Latch};
use em_io::{Feed, Shelf};

/// The rows of a circuit's sections in one form of its text: what stands there of each input, latch
/// and gate. Columns and all else are the same in both forms.
pub trait Rows {
    /// The form, with the value for uninitialised latches.
    ghost form: { Self → declared.Form };

    /// Which form it is.
    fn which(&self) -> Form
        ensures { result ≡ form self.now };

    /// The literal of an input, of which `before` stand before it.
    fn input_row<H: Shelf>(
        &self,
        header: &Header,
        before: u64,
        feed: &mut Feed,
        shelf: &mut H,
    ) -> Result<u64, AigStop>
        requires open { CanRead (source H.Shelf feed.old shelf.old) }
        requires header { IsHeader header.now }
        requires before { before < header.now.inputs }
        ensures reads { ReadsItem H.tells (input_row (form self.now) header.now before)
            (source H.Shelf feed.old shelf.old) (source H.Shelf feed.new shelf.new) result }
        ensures is { IfOk result (λ literal. IsDefining header.now literal) }
        ensures forward { is_ascii (form self.now) ≡ true → OnOk result (feed.old.place < feed.new.place) };

    /// A latch, of which `before` stand before it.
    fn latch_row<H: Shelf>(
        &self,
        header: &Header,
        before: u64,
        feed: &mut Feed,
        shelf: &mut H,
    ) -> Result<Latch, AigStop>
        requires open { CanRead (source H.Shelf feed.old shelf.old) }
        requires header { IsHeader header.now }
        requires before { before < header.now.latches }
        ensures reads { ReadsItem H.tells (latch_row (form self.now) header.now before)
            (source H.Shelf feed.old shelf.old) (source H.Shelf feed.new shelf.new) result }
        ensures is { IfOk result (λ latch. IsLatch header.now latch) }
        ensures forward { OnOk result (feed.old.place < feed.new.place) };

    /// A gate, of which `before` stand before it.
    fn gate_row<H: Shelf>(
        &self,
        header: &Header,
        before: u64,
        feed: &mut Feed,
        shelf: &mut H,
    ) -> Result<Gate, AigStop>
        requires open { CanRead (source H.Shelf feed.old shelf.old) }
        requires header { IsHeader header.now }
        requires before { before < header.now.gates }
        ensures reads { ReadsItem H.tells (gate_row (form self.now) header.now before)
            (source H.Shelf feed.old shelf.old) (source H.Shelf feed.new shelf.new) result }
        ensures is { IfOk result (λ gate. IsGate header.now gate) }
        ensures forward { OnOk result (feed.old.place < feed.new.place) };
}
