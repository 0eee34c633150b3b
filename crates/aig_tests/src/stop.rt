//! Why a circuit gives nothing.
use aig_edges::StepStop;
use aig_text::AigStop;
use std::test::Fail;

/// Why an evaluation stops whose circuit can't be read.
pub(crate) fn unread(stop: AigStop) -> StepStop {
    match stop {
        AigStop::Fault { kind, place } => StepStop::Fault { kind, place },
        AigStop::Read => StepStop::Read,
        AigStop::Em(fault) => StepStop::Em(fault),
    }
}

/// Prints a fault of a circuit or a stimulus and its place, which is a byte's offset or a variable; or what
/// failed.
pub(crate) fn print_stop(rt: &HostRuntime, stop: StepStop) -> Result<(), Fail> {
    match stop {
        StepStop::Fault { kind, place } => println!(rt; "{kind:?} {place}")?,
        StepStop::Read => println!(rt; "the shelf failed")?,
        StepStop::Write => println!(rt; "the sink failed")?,
        StepStop::Em(fault) => println!(rt; "the rig gave up: {fault:?}")?,
    }
    Ok(())
}
