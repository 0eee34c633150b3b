//! The run of a command file whose slot is open: by a service, or by a queue.
ghost use Rattle.std.specs.Prelude.{◌≡◌, true, [], IsTrue};
ghost use Rattle.em_space.specs.Queue.{CanServe, IsNew};
ghost use Rattle.em_space.specs.Rig.{Goes, Sound};
ghost use Rattle.em_space.specs.Seen.{seen};
ghost use Rattle.em_answers.specs.Serve.{GivesUp, WithinCalls, IsAlone};
ghost use Rattle.em_answers.specs.Limits.{queue_limits, taken_size};
ghost use Rattle.em_ready.specs.Ready.{IsReady, IsUnused};
ghost use Rattle.em_answers.specs.FileRun.{Runs, RunsWithin, map_kind};
ghost use Rattle.em_lines.specs.RunSize.{commands_taken, run_size};
ghost use Rattle.em_answers.specs.Reading.{service_limits};
ghost use Rattle.em_model.specs.Map.{Combiner};
ghost use Rattle.em_settle.specs.Add.{apply_of};

use crate::read::answer_file;
use crate::serving::serve;
use em_ends::{Status, Stop, status_of};
use em_frames::Device;
use em_io::{Feed, Shelf, Sink, Slot};
use em_lines::FileKind;
use em_map::Batch;
use em_pqueue::ExtQueue;
use em_segment::Stab;
use em_services::{Dump, MapRule, Service};
use em_settle::{AddSettle, Combine, Settle};
use em_space::{Queue, Rig};

/// Answers the commands of the open slot by a new service of type S that this rule makes, and prints the answers at each sync and at the
/// end.
pub fn run_service<D: Device, H: Shelf, W: Sink, S: Service>(
    rule: S::Rule,
    rig: &mut Rig<'_, D>,
    shelf: &mut H,
    out: &mut W,
) -> Status
    requires rule { S.IsRule rule }
    requires unused { IsUnused (seen D.state rig.old) }
    requires none_moved { (seen D.state rig.old).moves ≡ 0 }
    requires free { IsReady (seen D.state rig.old).pool }
    requires ready { ((H.stand shelf.old).slot Slot.First).ready ≡ true }
    ensures goes { Goes [] (seen D.state rig.old) (seen D.state rig.new) }
    ensures runs { RunsWithin (S.combiner_of rule) (taken_size (S.size_by rule) S.KIND) H.Shelf W.Sink
        (service_limits S.allowance S.room)
        S.KIND (seen D.state rig.old) (seen D.state rig.new)
        shelf.old out.old shelf.new out.new result }
{
    let mut feed = Feed::new(Slot::First);
    match answer_file::<D, H, W, S>(rig, rule, &mut feed, shelf, out) {
        Ok(()) => Status::Done,
        Err(stop) => status_of(stop),
    }
}

/// Answers the commands of the open slot by a queue that was never called, on a rig of which all blocks
/// in use are the queue's, and prints each answer before more of the input is read. The queue is given up.
pub fn run_queue<D: Device, H: Shelf, W: Sink, Q: Queue>(
    rig: &mut Rig<'_, D>,
    mut queue: Q,
    shelf: &mut H,
    out: &mut W,
) -> Status
    requires sound { Sound (seen D.state rig.old) }
    requires queue { Q.IsQueue queue (seen D.state rig.old) }
    requires free { CanServe (seen D.state rig.old).pool }
    requires fresh { IsNew (Q.counts queue) }
    requires alone { IsAlone (seen D.state rig.old) (Q.counts queue) }
    requires ready { ((H.stand shelf.old).slot Slot.First).ready ≡ true }
    ensures gives { GivesUp Q.Queue queue (seen D.state rig.old) (seen D.state rig.new) }
    ensures runs { (apply : Combiner) → RunsWithin apply (λ shape. run_size FileKind.Queue) H.Shelf W.Sink
        (queue_limits Q.room) FileKind.Queue (seen D.state rig.old) (seen D.state rig.new)
        shelf.old out.old shelf.new out.new result }
    ensures moves { IsTrue H.tells → IsTrue (seen D.state rig.old).device.told
        → WithinCalls Q.allowance (seen D.state rig.old).pool.shape
        (commands_taken FileKind.Queue ((H.stand shelf.old).slot Slot.First).left
        ((H.stand shelf.new).slot Slot.First).left) (seen D.state rig.new).moves }
{
    let mut feed = Feed::new(Slot::First);
    let done = serve(rig, &mut queue, &mut feed, shelf, out);
    queue.abandon(rig);
    match done {
        Ok(()) => Status::Done,
        Err(stop) => status_of(stop),
    }
}

/// Answers the commands of a map file in the open slot, whose adds are joined by these rules, early or not; or prints the pairs
/// that they leave, where it is a dump's file.
fn run_map<D: Device, H: Shelf, W: Sink, F: Fn(u64, u64) -> u64 + Drop>(
    settle: AddSettle<F>,
    dumps: bool,
    early: bool,
    rig: &mut Rig<'_, D>,
    shelf: &mut H,
    out: &mut W,
) -> Status
    requires rule { ⟦<AddSettle<F> as Settle>⟧.IsReady settle }
    requires unused { IsUnused (seen D.state rig.old) }
    requires free { IsReady (seen D.state rig.old).pool }
    requires none_moved { (seen D.state rig.old).moves ≡ 0 }
    requires ready { ((H.stand shelf.old).slot Slot.First).ready ≡ true }
    ensures goes { Goes [] (seen D.state rig.old) (seen D.state rig.new) }
    ensures runs { Runs (apply_of settle.kind) early H.Shelf W.Sink (map_kind dumps)
        (seen D.state rig.old) (seen D.state rig.new)
        shelf.old out.old shelf.new out.new result }
{
    if dumps {
        run_service::<D, H, W, Dump<F>>(settle, rig, shelf, out)
    } else {
        run_service::<D, H, W, Batch<F>>(MapRule { settle, early }, rig, shelf, out)
    }
}

/// The same by the closure of this combiner.
fn run_combined<D: Device, H: Shelf, W: Sink>(
    combine: Combine,
    dumps: bool,
    early: bool,
    rig: &mut Rig<'_, D>,
    shelf: &mut H,
    out: &mut W,
) -> Status
    requires unused { IsUnused (seen D.state rig.old) }
    requires free { IsReady (seen D.state rig.old).pool }
    requires none_moved { (seen D.state rig.old).moves ≡ 0 }
    requires ready { ((H.stand shelf.old).slot Slot.First).ready ≡ true }
    ensures goes { Goes [] (seen D.state rig.old) (seen D.state rig.new) }
    ensures runs { Runs (apply_of combine) early H.Shelf W.Sink (map_kind dumps)
        (seen D.state rig.old) (seen D.state rig.new)
        shelf.old out.old shelf.new out.new result }
{
    match combine {
        Combine::Sum => {
            let sum = AddSettle::new(|x: u64, y: u64| x.wrapping_add(y), Combine::Sum);
            run_map(sum, dumps, early, rig, shelf, out)
        }
        Combine::Max => {
            let greatest = AddSettle::new(|x: u64, y: u64| x.max(y), Combine::Max);
            run_map(greatest, dumps, early, rig, shelf, out)
        }
        Combine::Min => {
            let least = AddSettle::new(|x: u64, y: u64| x.min(y), Combine::Min);
            run_map(least, dumps, early, rig, shelf, out)
        }
        Combine::Xor => {
            let exclusive = AddSettle::new(|x: u64, y: u64| x ^ y, Combine::Xor);
            run_map(exclusive, dumps, early, rig, shelf, out)
        }
    }
}

/// Answers the commands of the open slot, on a rig of which no block is or was in use. The adds of a map or dump file are
/// joined by this combiner. With `early` the moves of a map are held to what joining each run of adds leaves of the commands;
/// the answers are the same. A dump joins no adds early, and its moves are held to all commands.
#[tactic(auto, using(crate::proofs::Moves::queue_alone, crate::proofs::Moves::queue_serves))]
pub fn run_open<D: Device, H: Shelf, W: Sink>(
    kind: FileKind,
    combine: Combine,
    early: bool,
    rig: &mut Rig<'_, D>,
    shelf: &mut H,
    out: &mut W,
) -> Status
    requires unused { IsUnused (seen D.state rig.old) }
    requires free { IsReady (seen D.state rig.old).pool }
    requires none_moved { (seen D.state rig.old).moves ≡ 0 }
    requires ready { ((H.stand shelf.old).slot Slot.First).ready ≡ true }
    ensures goes { Goes [] (seen D.state rig.old) (seen D.state rig.new) }
    ensures runs { Runs (apply_of combine) early H.Shelf W.Sink kind
        (seen D.state rig.old) (seen D.state rig.new) shelf.old out.old shelf.new out.new result }
{
    match kind {
        FileKind::Map => run_combined(combine, false, early, rig, shelf, out),
        FileKind::Queue => match ExtQueue::new(rig) {
            Ok(queue) => run_queue(rig, queue, shelf, out),
            Err(fault) => status_of(Stop::Em(fault)),
        },
        FileKind::Stab => run_service::<D, H, W, Stab>((), rig, shelf, out),
        FileKind::Dump => run_combined(combine, true, early, rig, shelf, out),
    }
}
