//! The status of a run that stopped.
ghost use Rattle.std.specs.Prelude.{◌≡◌};
ghost use Rattle.em_ends.specs.Stop.{stop_status};
ghost use Rattle.em_ends.specs.Status.{OnUsage, OnNoMemory};

use crate::status::Status;
use crate::stop::Stop;
use em_space::EmFault;

/// The status of a run that stopped.
pub fn status_of(stop: Stop) -> Status
    ensures is { result ≡ stop_status stop }
    ensures no_usage { OnUsage result ⊥ }
    ensures no_memory { OnNoMemory result ⊥ }
{
    match stop {
        Stop::Fault { kind, place } => Status::Malformed { kind, place },
        Stop::Read => Status::ReadFault,
        Stop::Write => Status::WriteFault,
        Stop::Em(EmFault::DeviceFault) => Status::DeviceFault,
        Stop::Em(EmFault::Full { used }) => Status::Full { used },
        Stop::Em(EmFault::Damaged { block }) => Status::Damaged { block },
    }
}
