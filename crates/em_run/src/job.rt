//! A whole job on a rig that a caller holds open, as the words of a command name it.
ghost use Rattle.std.specs.Prelude.{◌≡◌, []};
ghost use Rattle.em_io.specs.Shelf.{IsFresh};
ghost use Rattle.em_space.specs.Rig.{Goes};
ghost use Rattle.em_space.specs.Seen.{seen};
ghost use Rattle.em_words.specs.Job.{job_of, texts_of};
ghost use Rattle.em_ready.specs.Ready.{IsReady, IsUnused};
ghost use Rattle.em_run.specs.Runs.{NamesJob, RunsWords};

use crate::run::run_on;
use em_ends::Status;
use em_frames::Device;
use em_io::{Shelf, Sink};
use em_space::Rig;
use em_words::{name_at, read_job};

/// Runs the job that the words name on an open rig of its shape and number of blocks, of which no block
/// was ever in use. The words are those after the program's name. All frames of the rig are back at the end,
/// and the status is neither `Usage` nor `NoMemory`. Over a shelf and a device that tell, at no moment more
/// blocks are in use than the room of what was read, and of made texts than that of whole ones. Statistics are
/// left to the caller.
pub fn run_job<D: Device, H: Shelf, W: Sink>(
    words: &[String],
    rig: &mut Rig<'_, D>,
    shelf: &mut H,
    out: &mut W,
) -> Status
    requires job { NamesJob (job_of (texts_of words.now)) (seen D.state rig.old) }
    requires unused { IsUnused (seen D.state rig.old) }
    requires free { IsReady (seen D.state rig.old).pool }
    requires none_moved { (seen D.state rig.old).moves ≡ 0 }
    requires fresh { IsFresh (H.stand shelf.old) }
    ensures goes { Goes [] (seen D.state rig.old) (seen D.state rig.new) }
    ensures runs { RunsWords H.Shelf W.Sink (texts_of words.now) (job_of (texts_of words.now))
        (seen D.state rig.old) (seen D.state rig.new) shelf.old out.old shelf.new out.new result }
{
    let Ok(job) = read_job(words) else {
        unreachable!()
    };
    run_on(
        job.task,
        job.origin,
        rig,
        shelf,
        name_at(words, job.file),
        name_at(words, job.file + 1),
        out,
    )
}
