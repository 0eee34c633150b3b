// Why a run stopped before its end, and what is sent then.
ghost use Rattle.std.specs.Prelude.{◌≡◌};
ghost use Rattle.em_ends.specs.declared.status.Malform.TheVariants.{Text, Base, Aig};
ghost use Rattle.em_ends.specs.declared.stop.Stop.TheVariants as stop;
ghost use Rattle.em_ends.specs.Stop.{SendsRest, circuit_stop, step_stop};

use crate::status::Malform;
use aig_defs::AigKind;
use aig_edges::StepStop;
use aig_text::AigStop;
use em_io::{Printer, Sink};
use em_lines::TextKind;
use em_record::Failed;
use em_space::EmFault;

/// Why a run stopped before its end.
#[derive(Clone, Copy, Debug, PartialEq, Eq, Drop)]
pub enum Stop {
    /// This is the first fault of the input, and its place.
    Fault { kind: Malform, place: u64 },
    /// The shelf failed: its count of faults rose.
    Read,
    /// The output failed: its count of faults rose.
    Write,
    /// A call on the rig gave up.
    Em(EmFault),
}

impl Stop {
    /// The stop at a fault of the command file's line of this number.
    pub fn at_line(fault: TextKind, number: u64) -> Stop
        ensures is { result ≡ stop.Fault (Text fault) number }
    {
        Stop::Fault {
            kind: Malform::Text(fault),
            place: number,
        }
    }

    /// The stop at a fault of the base's line of this number.
    pub fn at_base_line(fault: TextKind, number: u64) -> Stop
        ensures is { result ≡ stop.Fault (Base fault) number }
    {
        Stop::Fault {
            kind: Malform::Base(fault),
            place: number,
        }
    }

    /// The stop at a fault of a circuit or a stimulus, at this place.
    pub fn at_place(fault: AigKind, place: u64) -> Stop
        ensures is { result ≡ stop.Fault (Aig fault) place }
    {
        Stop::Fault {
            kind: Malform::Aig(fault),
            place,
        }
    }
}

impl From<EmFault> for Stop {
    ghost from_gives = { λ fault e. e ≡ stop.Em fault };

    fn from(fault: EmFault) -> Stop {
        Stop::Em(fault)
    }
}

impl From<Failed> for Stop {
    ghost from_gives = { λ _ e. e ≡ stop.Write };

    fn from(_failed: Failed) -> Stop {
        Stop::Write
    }
}

impl From<AigStop> for Stop {
    ghost from_gives = { λ s e. e ≡ circuit_stop s };

    fn from(stop: AigStop) -> Stop {
        match stop {
            AigStop::Fault { kind, place } => Stop::at_place(kind, place),
            AigStop::Read => Stop::Read,
            AigStop::Em(fault) => Stop::Em(fault),
        }
    }
}

impl From<StepStop> for Stop {
    ghost from_gives = { λ s e. e ≡ step_stop s };

    fn from(stop: StepStop) -> Stop {
        match stop {
            StepStop::Fault { kind, place } => Stop::at_place(kind, place),
            StepStop::Read => Stop::Read,
            StepStop::Write => Stop::Write,
            StepStop::Em(fault) => Stop::Em(fault),
        }
    }
}

/// Sends what is pending after a call that printed and ended so. What came first decides: a failure here
/// changes the end only if all was done, or if it stopped at a fault of the input. After a failed write
/// nothing is sent any more.
pub fn send_rest<W: Sink>(
    done: Result<(), Stop>,
    printer: &mut Printer,
    out: &mut W,
) -> Result<(), Stop>
    ensures sends { SendsRest W.Sink done printer.old out.old out.new result }
{
    if let Err(Stop::Write) = done {
        return done;
    }
    let sent = printer.send_all(out);
    match done {
        Ok(()) | Err(Stop::Fault { .. }) => {
            sent?;
            done
        }
        Err(_) => done,
    }
}
