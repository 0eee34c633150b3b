//! A bit of a line of columns.
ghost use Rattle.std.specs.Prelude.{◌++◌, ◌∷◌, [], OnOk};
ghost use Rattle.em_io.specs.Sink.{Sent, SentPart};
ghost use Rattle.em_record.specs.Count.{HasCause};
ghost use Rattle.aig_defs.specs.Stimulus.{bit_byte};

use em_io::{Printer, Sink};
use em_record::Failed;

/// Prints a bit as the byte `0` or `1`, which may stay pending. It fails only if the sink's count of faults
/// rose; then a front of what was pending and the byte went out.
pub fn put_bit<W: Sink>(printer: &mut Printer, sink: &mut W, bit: bool) -> Result<(), Failed>
    ensures sent { OnOk result (Sent W.took (W.state sink.old) (printer.old ++ bit_byte bit ∷ [])
        (W.state sink.new) printer.new) }
    ensures part { SentPart W.took (W.state sink.old) (printer.old ++ bit_byte bit ∷ [])
        (W.state sink.new) }
    ensures cause { HasCause (W.faults sink.old) (W.faults sink.new) result }
{
    if bit {
        printer.add(sink, b"1")
    } else {
        printer.add(sink, b"0")
    }
}
