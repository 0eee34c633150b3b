//! Runs of which one call of the device, the shelf or the output fails.
use crate::jobs::Job;
use crate::rows::{field_of, job_of};
use crate::runs::{Failing, NO_CALL, run};
use em_ends::Stop;
use em_space::EmFault;
use std::alloc::Global;
use std::test::Fail;

/// The calls that fail if this one of a part does, and the stop that it makes.
fn failing_at(part: &str, call: u64) -> (Failing, Stop) {
    match part {
        "device" => ([call, NO_CALL, NO_CALL], Stop::Em(EmFault::DeviceFault)),
        "shelf" => ([NO_CALL, call, NO_CALL], Stop::Read),
        _ => ([NO_CALL, NO_CALL, call], Stop::Write),
    }
}

/// The files `a` and `b` of a job, and what a run over them prints.
fn texts_of(job: Job) -> (&'static [u8], &'static [u8], &'static [u8]) {
    match job {
        Job::Pairs => (b"7 1\n3 8\n", b"", b"7 1\n3 8\n"),
        Job::Counts { .. } => (b"7\n7\n", b"7\n8\n", b"2\n0\n"),
        Job::Windows => (b"2 5\n", b"2\n5\n", b"0 0\n1 0\n"),
    }
}

/// Whether a run of a job of which this call of a part fails was stopped by that, or none if it ended otherwise: then it was
/// stopped by something else, or the output took no front of what is due, or not all of it at the end.
fn is_stopped(alloc: Global, job: Job, part: &str, call: u64) -> Result<Option<bool>, Fail> {
    let (first, second, due) = texts_of(job);
    let (failing, cause) = failing_at(part, call);
    let (done, out) = run(alloc, job, 3, (Some(first), Some(second)), failing)?;
    match done {
        Ok(()) if out.bytes() == due => Ok(Some(false)),
        Err(stop) if stop == cause && due.starts_with(out.bytes()) => Ok(Some(true)),
        _ => Ok(None),
    }
}

/// Whether a row is as it says, of the first 20 calls of the part.
fn is_so(alloc: Global, row: &str) -> Result<bool, Fail> {
    let (word, rest) = field_of(row);
    let (part, calls) = field_of(rest);
    let (least, most) = field_of(calls);
    let mut stopped = 0u64;
    for call in 0..20u64 {
        // The call 0 of the device begins it, and is left out.
        let number = if part == "device" { call + 1 } else { call };
        match is_stopped(alloc, job_of(word), part, number)? {
            Some(is) => stopped = stopped.saturating_add(u64::from(is)),
            None => return Ok(false),
        }
    }
    Ok(stopped >= least.parse::<u64>()? && stopped <= most.parse::<u64>()?)
}

/// A row has the job, the part that fails, and how many of its first 20 calls stop the run, at least and at most. The shelf opens
/// each file, reads its bytes by threes, and then finds its end. The output takes two bytes a call.
const ROWS: [&str; 12] = [
    // The list of the pairs is one block, which is stored and read.
    "pairs|device|2|2",
    // The lists of intervals and of stabs are a block each, which is stored and read.
    "windows|device|4|20",
    // The root and the leaf of the new tree are stored.
    "counts|device|2|20",
    "early|device|2|20",
    // 8 bytes.
    "pairs|shelf|5|5",
    // 4 bytes in each file.
    "counts|shelf|8|8",
    "early|shelf|8|8",
    "windows|shelf|8|8",
    "pairs|output|4|4",
    "counts|output|2|2",
    "early|output|2|2",
    "windows|output|4|4",
];

#[test]
fn each_call_that_fails_stops_its_run(rt: HostRuntime) -> Result<(), Fail> {
    let mut number = 0u64;
    for row in ROWS {
        number = number.saturating_add(1);
        assert!(rt; is_so(rt.alloc(), row)?, "row {number}");
    }
    Ok(())
}
