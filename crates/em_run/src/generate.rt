//! A task on made texts: `GenShelf` makes them as they are read, what the task prints goes to a
//! `Tally`, and if all is done one line with the tally's numbers is printed.
ghost use Rattle.std.specs.Prelude.{◌≡◌, ◌+◌, ◌≤◌, [], length, OnOk};
ghost use Rattle.em_record.specs.Count.{HasCause};
ghost use Rattle.em_io.specs.Sink.{SentPart};
ghost use Rattle.em_gen.specs.Tally.{tallied};
ghost use Rattle.em_space.specs.Rig.{Goes};
ghost use Rattle.em_space.specs.Seen.{seen};
ghost use Rattle.em_words.specs.Job.{IsCount};
ghost use Rattle.em_run.specs.Made.{kind_for, labelled, summary_text};
ghost use Rattle.em_ready.specs.Ready.{IsReady, IsUnused};
ghost use Rattle.em_run.specs.Runs.{RunsMade};

use crate::run::run_task;
use em_ends::{Status, put, put_number};
use em_frames::Device;
use em_gen::{GenKind, GenShelf, Tally};
use em_io::{Printer, Sink};
use em_lines::FileKind;
use em_record::Failed;
use em_space::Rig;
use em_words::{Task, task_name};

/// The kind of the texts that are made for a task. For a dump none are made; it would have those of a map.
fn kind_for(task: Task) -> GenKind
    ensures { result ≡ kind_for task }
{
    match task {
        Task::Answer {
            kind: FileKind::Map | FileKind::Dump,
            ..
        } => GenKind::Map,
        Task::Answer {
            kind: FileKind::Queue,
            ..
        } => GenKind::Queue,
        Task::Answer {
            kind: FileKind::Stab,
            ..
        } => GenKind::Stab,
        Task::Eval { .. } => GenKind::Eval,
    }
}

/// Adds some words and a number to the printer's line, which has room for them.
fn put_labelled<W: Sink>(printer: &mut Printer, out: &mut W, label: &[u8], number: u64)
    requires line { length printer.old ≤ 500 }
    requires label { length label.now ≤ 20 }
    ensures quiet { out.new ≡ out.old }
    ensures pending { printer.new ≡ labelled printer.old label.now number }
    ensures length { length printer.new ≤ length printer.old + 40 }
{
    put(printer, out, label);
    put_number(printer, out, number);
}

/// Prints the summary of a task on made texts, of this count, by what the tally took.
fn print_summary<W: Sink>(out: &mut W, task: Task, count: u64, tally: &Tally) -> Result<(), Failed>
    ensures all { OnOk result (W.state out.new
        ≡ W.took (W.state out.old) (summary_text task count (tallied tally.now []))) }
    ensures part { SentPart W.took (W.state out.old)
        (summary_text task count (tallied tally.now [])) (W.state out.new) }
    ensures cause { HasCause (W.faults out.old) (W.faults out.new) result }
{
    let mut printer = Printer::new();
    put(&mut printer, out, task_name(task));
    put_labelled(&mut printer, out, b" ", count);
    put_labelled(&mut printer, out, b" lines ", tally.lines());
    put_labelled(&mut printer, out, b" bytes ", tally.bytes());
    put_labelled(&mut printer, out, b" sum ", tally.sum());
    printer.end_line(out)
}

/// Runs a task on the texts that are made for it of these numbers, on an open rig of which no block
/// is or was in use, and prints the summary of what it answers.
pub fn run_made<D: Device, W: Sink>(
    task: Task,
    start: u64,
    count: u64,
    rig: &mut Rig<'_, D>,
    out: &mut W,
) -> Status
    requires unused { IsUnused (seen D.state rig.old) }
    requires free { IsReady (seen D.state rig.old).pool }
    requires none_moved { (seen D.state rig.old).moves ≡ 0 }
    requires count { IsCount count }
    ensures goes { Goes [] (seen D.state rig.old) (seen D.state rig.new) }
    ensures runs { RunsMade W.Sink task start count (seen D.state rig.old) (seen D.state rig.new)
        out.old out.new result }
{
    let mut shelf = GenShelf::new(kind_for(task), start, count);
    let mut tally = Tally::new();
    let status = run_task(task, rig, &mut shelf, "", "", &mut tally);
    let Status::Done = status else {
        return status;
    };
    match print_summary(out, task, count, &tally) {
        Ok(()) => Status::Done,
        Err(_) => Status::WriteFault,
    }
}
