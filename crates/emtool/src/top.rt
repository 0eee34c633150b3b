ghost use Rattle.std.specs.Prelude.{◌≡◌, ◌-◌, ◌≤◌, Ok};
ghost use Rattle.std.specs.Result.{result_err};
ghost use Rattle.em_record.specs.Count.{Rose};
ghost use Rattle.em_io.specs.Shelf.{IsFresh};
ghost use Rattle.em_frames.specs.Pool.{fresh_pool};
ghost use Rattle.em_run.specs.Due.{job_names};
ghost use Rattle.em_words.specs.Job.{HasBlocks, texts_of, job_of};
ghost use Rattle.emtool.specs.Statistics.{HasStats};
ghost use Rattle.emtool.specs.Promise.{run_of, Begins, Completes, DamageHasCause, EndsAsDue, FullHasCause, GivesDue, KeepsCost, LeavesAll, Opens, ReadsFiles, Reports, ReportsFront, SendsFront};
ghost use Rattle.em_ends.specs.Ended.{outside, GoesOn};
ghost use Rattle.em_run.specs.Runs.{RunsJob};
ghost use Rattle.em_ends.specs.Status.{refusal_of, OnBegun, OnNoMemory, OnUsage};

use em_ends::{Outcome, Status, report, stats_of, unmoved};
use em_frames::{BeginFault, Device, Grant, Pool};
use em_io::{Shelf, Sink};
use em_run::run_job;
use em_space::Rig;
use em_words::{Job, read_job};

/// Runs the job that the words name with a pool of its shape, which it gives up.
pub fn run_pool<D: Device, H: Shelf, W: Sink>(
    words: &[String],
    job: &Job,
    pool: Pool,
    device: &mut D,
    shelf: &mut H,
    out: &mut W,
) -> Outcome
    requires job { job_of (texts_of words.now) ≡ Ok job.now }
    requires blocks { HasBlocks job.now }
    requires pool { pool ≡ fresh_pool job.now.shape }
    requires device { (D.state device.old).blocks ≡ 0 }
    requires shelf { IsFresh (H.stand shelf.old) }
    ensures runs { RunsJob H.Shelf W.Sink job.now
        (job_names (texts_of words.now) job.now)
        (D.state device.old) shelf.old out.old (D.state device.new) shelf.new out.new
        result.status }
    ensures none_moved { (D.state device.old).moves ≡ 0 }
    ensures stats { HasStats job.now result.status (D.state device.new).moves result.stats }
    ensures no_memory { OnNoMemory result.status ((shelf.new ≡ shelf.old) × (out.new ≡ out.old)
        × ((D.state device.new).moves ≡ 0)) }
{
    match Rig::open(job.shape, job.blocks, device, pool) {
        Ok(mut rig) => {
            let status = run_job(words, &mut rig, shelf, out);
            let stats = stats_of(&rig, job.stats);
            let pool = rig.close();
            pool.end();
            Outcome { status, stats }
        }
        Err(refused) => {
            let (pool, fault) = refused.take();
            pool.end();
            match fault {
                BeginFault::Failed => Outcome {
                    status: Status::DeviceFault,
                    stats: unmoved(job.stats),
                },
                BeginFault::NoMemory => Outcome {
                    status: Status::NoMemory,
                    stats: None,
                },
            }
        }
    }
}

/// Runs the job that the words name with a pool of its shape, which the grant makes.
fn run_granted<D: Device, H: Shelf, W: Sink>(
    words: &[String],
    job: &Job,
    grant: Grant,
    device: &mut D,
    shelf: &mut H,
    out: &mut W,
) -> Outcome
    requires job { job_of (texts_of words.now) ≡ Ok job.now }
    requires blocks { HasBlocks job.now }
    requires device { (D.state device.old).blocks ≡ 0 }
    requires shelf { IsFresh (H.stand shelf.old) }
    ensures runs { RunsJob H.Shelf W.Sink job.now
        (job_names (texts_of words.now) job.now)
        (D.state device.old) shelf.old out.old (D.state device.new) shelf.new out.new
        result.status }
    ensures none_moved { OnBegun result.status ((D.state device.old).moves ≡ 0) }
    ensures stats { HasStats job.now result.status
        ((D.state device.new).moves - (D.state device.old).moves) result.stats }
    ensures no_memory { OnNoMemory result.status ((shelf.new ≡ shelf.old) × (out.new ≡ out.old)
        × ((D.state device.new).moves ≡ (D.state device.old).moves)) }
{
    let Ok(pool) = grant.pool(job.shape) else {
        return Outcome {
            status: Status::NoMemory,
            stats: None,
        };
    };
    run_pool(words, job, pool, device, shelf, out)
}

/// Runs the job that the words name: `words` are those after the program's name. Answers of a
/// command file, columns of a circuit and the summary of made texts go to `out`, the message of a
/// status other than `Done` and the line of `--stats` to `err`; records go through `device`, in
/// blocks. A fault of `err` changes nothing: writing there stops.
///
/// Clauses on what texts and blocks hold are said of a shelf and a device that tell it, as each
/// clause says; those on words, counts and numbers of every one. What a clause's word means is in
/// `specs/Promise.antt`, what a run is due in `specs/Due.antt` of em_run, and what each task asks in
/// `specs/Tasks.antt` there.
pub fn emtool<D: Device, H: Shelf, W: Sink, E: Sink>(
    words: &[String],
    grant: Grant,
    device: &mut D,
    shelf: &mut H,
    out: &mut W,
    err: &mut E,
) -> Status
    requires device { (D.state device.old).blocks ≡ 0 }
    requires shelf { IsFresh (H.stand shelf.old) }

    // Words: a usage fault comes exactly if the words name no job, and leaves device, shelf and
    // output as they were.
    ensures words { refusal_of result ≡ result_err (job_of (texts_of words.now)) }
    ensures as_before { OnUsage result
        ((device.new ≡ device.old) × (shelf.new ≡ shelf.old) × (out.new ≡ out.old)) }

    // Answers: if the status is Done or Malformed, status and output are what is due; and at every
    // status but Usage, DeviceFault and NoMemory the device has the sizes of the job.
    ensures answers { GivesDue (run_of D.Device H.Shelf W.Sink
        words.now device.old shelf.old out.old device.new shelf.new out.new) result }
    ensures due { EndsAsDue (run_of D.Device H.Shelf W.Sink
        words.now device.old shelf.old out.old device.new shelf.new out.new) result }
    ensures begun { Begins (run_of D.Device H.Shelf W.Sink
        words.now device.old shelf.old out.old device.new shelf.new out.new) result }
    ensures all_read { ReadsFiles (run_of D.Device H.Shelf W.Sink
        words.now device.old shelf.old out.old device.new shelf.new out.new) result }

    // Prefix: at every end the output took a front of what is due.
    ensures prefix { SendsFront (run_of D.Device H.Shelf W.Sink
        words.now device.old shelf.old out.old device.new shelf.new out.new) }

    // Transfers: at every end the moves are within the transfer cost of what was read, for a task that is
    // held to it. At Usage and NoMemory there are none (`as_before`, `no_memory`).
    ensures transfers { KeepsCost (run_of D.Device H.Shelf W.Sink
        words.now device.old shelf.old out.old device.new shelf.new out.new) }

    // Causes, one for each status.
    ensures opens { Opens (run_of D.Device H.Shelf W.Sink
        words.now device.old shelf.old out.old device.new shelf.new out.new) result }
    ensures made { LeavesAll shelf.old out.old shelf.new out.new (run_of D.Device H.Shelf W.Sink
        words.now device.old shelf.old out.old device.new shelf.new out.new) result }
    ensures read_fault { result ≡ Status.ReadFault
        → Rose (H.faults shelf.old) (H.faults shelf.new) }
    ensures write_fault { result ≡ Status.WriteFault
        → Rose (W.faults out.old) (W.faults out.new) }
    ensures device_fault { result ≡ Status.DeviceFault
        → Rose (D.state device.old).faults (D.state device.new).faults }
    ensures full { FullHasCause (run_of D.Device H.Shelf W.Sink
        words.now device.old shelf.old out.old device.new shelf.new out.new) result }
    ensures damaged { DamageHasCause (run_of D.Device H.Shelf W.Sink
        words.now device.old shelf.old out.old device.new shelf.new out.new) result }
    ensures no_memory { OnNoMemory result ((shelf.new ≡ shelf.old) × (out.new ≡ out.old)
        × ((D.state device.new).moves ≡ (D.state device.old).moves)) }
    ensures goes_on { GoesOn (outside H.Shelf W.Sink (D.state device.old) shelf.old out.old)
        (outside H.Shelf W.Sink (D.state device.new) shelf.new out.new) }

    // Completeness: if nothing failed, texts and device are told, and the device has the stated room,
    // the status is the one due, or NoMemory.
    ensures complete { Completes (run_of D.Device H.Shelf W.Sink
        words.now device.old shelf.old out.old device.new shelf.new out.new) result }

    // The error stream: the status's message and the line of the statistics, or a front.
    ensures message { Reports E.Sink err.old err.new (run_of D.Device H.Shelf W.Sink
        words.now device.old shelf.old out.old device.new shelf.new out.new) result }
    ensures message_part { ReportsFront E.Sink err.old err.new (run_of D.Device H.Shelf W.Sink
        words.now device.old shelf.old out.old device.new shelf.new out.new) result }
    ensures message_later { E.faults err.old ≤ E.faults err.new }
{
    // The words, which carry an allocator, go no further than `read_job`, and `run_job`, which reads them again.
    let outcome = match read_job(words) {
        Ok(job) => run_granted(words, &job, grant, device, shelf, out),
        Err(usage) => Outcome {
            status: Status::Usage {
                kind: usage.kind,
                word: usage.word,
            },
            stats: None,
        },
    };
    let _told = report(err, &outcome);
    outcome.status
}
