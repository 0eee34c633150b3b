//! A run over texts in memory, on the smallest shape, and what it ended with.
ghost use Rattle.std.specs.Prelude.{◌<◌};

use crate::jobs::{Job, run_job};
use em_devices::{ended, opened};
use em_ends::Stop;
use em_frames::MemDevice;
use em_io::{MemShelf, MemSink};
use em_tool::Failure;
use std::alloc::Global;
use std::test::Fail;

/// The number of a call that no run makes.
pub const NO_CALL: u64 = u64::MAX;

/// The numbers of the calls that fail, from 0: of the device, the shelf and the output. The call 0 of the device begins it.
pub type Failing = [u64; 3];

/// How a run ended, and what the output took.
pub type Told = (Result<(), Stop>, MemSink);

/// Does a job over these texts as the files `a` and `b`, of which one may be missing. The shelf gives at most `piece` bytes a read,
/// and the output takes two bytes a write. The rig is closed, so that all frames are back.
pub fn run(
    alloc: Global,
    job: Job,
    piece: usize,
    texts: (Option<&[u8]>, Option<&[u8]>),
    failing: Failing,
) -> Result<Told, Fail>
    requires { 0 < piece }
{
    let mut shelf = MemShelf::new(alloc, piece, &[failing[1]])?;
    if let Some(text) = texts.0 {
        shelf.add("a", text)?;
    }
    if let Some(text) = texts.1 {
        shelf.add("b", text)?;
    }
    let mut out = MemSink::new(alloc, 2, &[failing[2]])?;
    let mut device = MemDevice::new(alloc, &[failing[0]])?;
    let mut rig = opened(alloc, 1000, &mut device)?;
    let done = run_job(job, &mut rig, &mut shelf, &mut out);
    let _cost = ended(rig);
    Ok((done, out))
}

/// Whether a run took all of a text to the output, or stopped with this message before it took any.
pub fn ends_with(alloc: Global, told: &Told, wanted: &str) -> Result<bool, Fail> {
    let (done, out) = told;
    match done {
        Ok(()) => Ok(out.bytes() == wanted.as_bytes()),
        Err(stop) => {
            let message = format!(in alloc; "{}", Failure::Run(*stop))?;
            Ok(out.bytes().is_empty() && message.as_str() == wanted)
        }
    }
}
