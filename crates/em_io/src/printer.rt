ghost use Rattle.std.specs.Prelude.{◌≡◌, ◌++◌, ◌∷◌, [], OnOk, IsOk, decimal};
ghost use Rattle.em_io.specs.Printer.{Fits};
ghost use Rattle.em_io.specs.Sink.{Sent, SentPart};
ghost use Rattle.em_record.specs.Count.{HasCause};

use crate::sink::{Sink, send};
use arrayvec::ArrayVec;
use em_record::Failed;
use itoa::Buffer;
use std::marker::Model;

/// Lines for a sink, over a buffer of 4096 bytes: what is pending is sent where a line ends, and
/// where more doesn't fit. A printer is seen as the bytes that are pending. After a failure, when a
/// prefix of the pending and the appended bytes went out, it is not used again.
#[derive(Drop)]
pub struct Printer {
    line: ArrayVec<u8, 4096>,
}

impl Model for Printer {
    ghost use Rattle.std.specs.Prelude.{List, ℕ};

    ghost Value = { List ℕ };

    ghost view = { λ p. p.line.items };
}

impl Printer {
    /// A printer with nothing pending.
    pub fn new() -> Printer
        ensures { result ≡ [] }
    {
        Printer {
            line: ArrayVec::new(),
        }
    }

    /// Appends the bytes to what was sent and what is pending. It sends nothing while they fit into
    /// the buffer after what is pending.
    pub fn add<W: Sink>(&mut self, sink: &mut W, bytes: &[u8]) -> Result<(), Failed>
        ensures sent { OnOk result
            (Sent W.took (W.state sink.old) (self.old ++ bytes.now) (W.state sink.new) self.new) }
        ensures part { SentPart W.took (W.state sink.old) (self.old ++ bytes.now)
            (W.state sink.new) }
        ensures quiet { Fits self.old bytes.now → IsOk result }
        ensures quiet_sink { Fits self.old bytes.now → sink.new ≡ sink.old }
        ensures quiet_pending { Fits self.old bytes.now → self.new ≡ self.old ++ bytes.now }
        ensures cause { HasCause (W.faults sink.old) (W.faults sink.new) result }
    {
        if self.line.try_extend_from_slice(bytes).is_ok() {
            return Ok(());
        }
        self.send_all(sink)?;
        if self.line.try_extend_from_slice(bytes).is_ok() {
            return Ok(());
        }
        send(sink, bytes)?;
        Ok(())
    }

    /// Appends the number in decimal, as `add` does.
    pub fn add_number<W: Sink>(&mut self, sink: &mut W, number: u64) -> Result<(), Failed>
        ensures sent { OnOk result (Sent W.took (W.state sink.old) (self.old ++ decimal number)
            (W.state sink.new) self.new) }
        ensures part { SentPart W.took (W.state sink.old) (self.old ++ decimal number)
            (W.state sink.new) }
        ensures quiet { Fits self.old (decimal number) → IsOk result }
        ensures quiet_sink { Fits self.old (decimal number) → sink.new ≡ sink.old }
        ensures quiet_pending { Fits self.old (decimal number)
            → self.new ≡ self.old ++ decimal number }
        ensures cause { HasCause (W.faults sink.old) (W.faults sink.new) result }
    {
        let mut text = Buffer::new();
        self.add(sink, text.format(number).as_bytes())
    }

    /// Appends a newline and sends all that is pending: it offers it to the sink in one call, and
    /// then what is left of it.
    pub fn end_line<W: Sink>(&mut self, sink: &mut W) -> Result<(), Failed>
        ensures sent { OnOk result
            (W.state sink.new ≡ W.took (W.state sink.old) (self.old ++ 10 ∷ [])) }
        ensures empty { OnOk result (self.new ≡ []) }
        ensures part { SentPart W.took (W.state sink.old) (self.old ++ 10 ∷ []) (W.state sink.new) }
        ensures cause { HasCause (W.faults sink.old) (W.faults sink.new) result }
    {
        self.add(sink, b"\n")?;
        self.send_all(sink)?;
        Ok(())
    }

    /// Sends all that is pending: it offers it to the sink in one call, and then what is left of it. If
    /// nothing is pending it makes no call.
    pub fn send_all<W: Sink>(&mut self, sink: &mut W) -> Result<(), Failed>
        ensures sent { OnOk result (W.state sink.new ≡ W.took (W.state sink.old) self.old) }
        ensures empty { OnOk result (self.new ≡ []) }
        ensures part { SentPart W.took (W.state sink.old) self.old (W.state sink.new) }
        ensures cause { HasCause (W.faults sink.old) (W.faults sink.new) result }
    {
        send(sink, self.line.as_slice())?;
        self.line.clear();
        Ok(())
    }
}
