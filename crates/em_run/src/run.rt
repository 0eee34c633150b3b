// One run of a task on an open rig.
ghost use Rattle.std.specs.Prelude.{◌≡◌, []};
ghost use Rattle.em_io.specs.Shelf.{IsFresh};
ghost use Rattle.em_space.specs.Rig.{Goes};
ghost use Rattle.em_space.specs.Seen.{seen};
ghost use Rattle.em_run.specs.Tasks.{names_of, RunsTask};
ghost use Rattle.em_run.specs.Due.{names_on};
ghost use Rattle.em_words.specs.Job.{IsOrigin};
ghost use Rattle.em_ready.specs.Ready.{IsReady, IsUnused};
ghost use Rattle.em_run.specs.Runs.{RunsOn};

use crate::generate::run_made;
use em_answers::run_open;
use em_ends::Status;
use em_eval::run_eval;
use em_frames::Device;
use em_io::{Shelf, Sink, Slot};
use em_lines::FileKind;
use em_settle::Combine;
use em_space::Rig;
use em_words::{Origin, Task};

/// Answers the command file of this name and kind, whose adds are joined by this combiner, with `early` also before they
/// enter the structure that answers them, on an open rig of which no block is or was in use.
pub fn run_file<D: Device, H: Shelf, W: Sink>(
    kind: FileKind,
    combine: Combine,
    early: bool,
    rig: &mut Rig<'_, D>,
    shelf: &mut H,
    name: &str,
    out: &mut W,
) -> Status
    requires unused { IsUnused (seen D.state rig.old) }
    requires free { IsReady (seen D.state rig.old).pool }
    requires none_moved { (seen D.state rig.old).moves ≡ 0 }
    requires fresh { IsFresh (H.stand shelf.old) }
    ensures goes { Goes [] (seen D.state rig.old) (seen D.state rig.new) }
    ensures runs { RunsTask H.Shelf W.Sink (Task.Answer kind combine early)
        (names_of (Task.Answer kind combine early) name.now []) (seen D.state rig.old)
        (seen D.state rig.new) shelf.old out.old shelf.new out.new result }
{
    let Ok(()) = shelf.open(Slot::First, name) else {
        return Status::ReadFault;
    };
    run_open(kind, combine, early, rig, shelf, out)
}

/// Runs a task over the files of these names, on an open rig of which no block is or was in use. A
/// task of one file doesn't use the second name.
pub fn run_task<D: Device, H: Shelf, W: Sink>(
    task: Task,
    rig: &mut Rig<'_, D>,
    shelf: &mut H,
    first: &str,
    second: &str,
    out: &mut W,
) -> Status
    requires unused { IsUnused (seen D.state rig.old) }
    requires free { IsReady (seen D.state rig.old).pool }
    requires none_moved { (seen D.state rig.old).moves ≡ 0 }
    requires fresh { IsFresh (H.stand shelf.old) }
    ensures goes { Goes [] (seen D.state rig.old) (seen D.state rig.new) }
    ensures runs { RunsTask H.Shelf W.Sink task (names_of task first.now second.now)
        (seen D.state rig.old) (seen D.state rig.new) shelf.old out.old shelf.new out.new result }
{
    match task {
        Task::Answer {
            kind,
            combine,
            early,
        } => run_file(kind, combine, early, rig, shelf, first, out),
        Task::Eval { uninit, wide } => run_eval(uninit, wide, rig, shelf, first, second, out),
    }
}

/// Runs a task over the files of these names, or on made texts, on an open rig of which no block is or
/// was in use.
#[tactic(auto, using(crate::proofs::Origins::runs_files))]
pub fn run_on<D: Device, H: Shelf, W: Sink>(
    task: Task,
    origin: Origin,
    rig: &mut Rig<'_, D>,
    shelf: &mut H,
    first: &str,
    second: &str,
    out: &mut W,
) -> Status
    requires unused { IsUnused (seen D.state rig.old) }
    requires free { IsReady (seen D.state rig.old).pool }
    requires none_moved { (seen D.state rig.old).moves ≡ 0 }
    requires fresh { IsFresh (H.stand shelf.old) }
    requires origin { IsOrigin origin }
    ensures goes { Goes [] (seen D.state rig.old) (seen D.state rig.new) }
    ensures runs { RunsOn H.Shelf W.Sink task origin (names_on origin task first.now second.now)
        (seen D.state rig.old) (seen D.state rig.new) shelf.old out.old shelf.new out.new result }
{
    match origin {
        Origin::Files => run_task(task, rig, shelf, first, second, out),
        Origin::Made { start, count } => run_made(task, start, count, rig, out),
    }
}
