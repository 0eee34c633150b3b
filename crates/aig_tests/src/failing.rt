//! Evaluations over a device of which one call fails, each call in turn.
use crate::evaluation::{By, Pace};
use crate::lines::{evaluated, lines_in, print_ending, print_title};
use aig_edges::StepStop;
use em_space::EmFault;
use std::test::Fail;

/// No evaluation here makes as many calls of the device.
const CALLS: u64 = 1000;

/// The first call of a device begins it.
const FIRST: u64 = 1;

/// Prints how many bytes of the lines go out if a call of the device fails: each number of bytes, and from which
/// call on it is so many. The calls that are made are below the last one that is printed, with how the evaluation ends if
/// none fails. What goes out must be a front of these lines.
pub(crate) fn print_failing(
    rt: &HostRuntime,
    title: &str,
    circuit: &str,
    stimulus: &str,
    by: By,
    pace: Pace,
) -> Result<(), Fail> {
    print_title(rt, title, by, pace)?;
    let (due, _ending) = evaluated(rt, circuit, stimulus, by, pace, &[])?;
    let mut last = None;
    for call in FIRST..CALLS {
        let (sink, ending) = evaluated(rt, circuit, stimulus, by, pace, &[call])?;
        let lines = lines_in(&sink);
        let length = lines.len();
        if ending != Err(StepStop::Em(EmFault::DeviceFault)) {
            println!(rt; "none fails from call {call} on: {length} bytes")?;
            return print_ending(rt, ending);
        }
        if !lines_in(&due).starts_with(lines) {
            println!(rt; "call {call}: other bytes")?;
        }
        if last != Some(length) {
            println!(rt; "from call {call} on: {length} bytes")?;
            last = Some(length);
        }
    }
    Ok(())
}
