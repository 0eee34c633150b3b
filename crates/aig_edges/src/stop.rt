ghost use Rattle.std.specs.Prelude.{◌≡◌};
ghost use Rattle.aig_edges.specs.declared.stop.StepStop.TheVariants as stop;

use aig_defs::AigKind;
use em_space::EmFault;

/// Why a step of an evaluator stopped.
#[derive(Clone, Copy, Debug, PartialEq, Eq, Drop)]
pub enum StepStop {
    /// This is the stimulus's first fault. The place is a byte's offset.
    Fault { kind: AigKind, place: u64 },
    /// The shelf failed: its count of faults rose.
    Read,
    /// The sink failed: its count of faults rose.
    Write,
    /// A call on the rig gave up.
    Em(EmFault),
}

impl From<EmFault> for StepStop {
    ghost from_gives = { λ fault e. e ≡ stop.Em fault };

    fn from(fault: EmFault) -> StepStop {
        StepStop::Em(fault)
    }
}
