ghost use Rattle.std.specs.Prelude.{◌≡◌, Err};
ghost use Rattle.aig_text.specs.declared.stop.AigStop.TheVariants as stop;

use aig_defs::AigKind;
use em_record::Failed;
use em_space::EmFault;

/// Why a reader of circuits stopped.
#[derive(Clone, Copy, Debug, PartialEq, Eq, Drop)]
pub enum AigStop {
    /// This is the circuit's first fault. The place is a byte's offset; for `Twice`, `Undefined` and
    /// `Cyclic` it is the variable.
    Fault { kind: AigKind, place: u64 },
    /// The shelf failed: its count of faults rose.
    Read,
    /// A call on the rig gave up.
    Em(EmFault),
}

impl From<Failed> for AigStop {
    ghost from_gives = { λ _ e. e ≡ stop.Read };

    fn from(_failed: Failed) -> AigStop {
        AigStop::Read
    }
}

impl From<EmFault> for AigStop {
    ghost from_gives = { λ fault e. e ≡ stop.Em fault };

    fn from(fault: EmFault) -> AigStop {
        AigStop::Em(fault)
    }
}

/// Stops at a fault of the text.
pub fn fault<T>(kind: AigKind, place: u64) -> Result<T, AigStop>
    ensures { result ≡ Err (AigStop.Fault kind place) }
{
    Err(AigStop::Fault { kind, place })
}
