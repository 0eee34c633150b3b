// A queue file is answered pop by pop. The lines wait in a printer, which is sent before more of the input is read, when
// it is full, and at the end.
ghost use Rattle.std.specs.Prelude.{◌≡◌, ◌+◌, ◌<◌, ◌≤◌, ◌^◌, ◌++◌, [], true, length, IfErr, IfOk, IsTrue, OnOk};
ghost use Rattle.em_io.specs.Feed.{rest};
ghost use Rattle.em_io.specs.Sink.{Sent, SentPart};
ghost use Rattle.em_model.specs.Queue.{queue_answer_of, queue_answers, queue_step};
ghost use Rattle.em_space.specs.Held.{Within};
ghost use Rattle.em_space.specs.Numbered.{NumberedTo};
ghost use Rattle.em_space.specs.Queue.{CanServe, IsNew, Pays, Served, Serves, LacksBlocks};
ghost use Rattle.em_space.specs.Rig.{Sound};
ghost use Rattle.em_space.specs.Seen.{seen};
ghost use Rattle.em_record.specs.Count.{HasCause};
ghost use Rattle.em_answers.specs.Answer.{queue_text};
ghost use Rattle.em_answers.specs.Print.{PrintsInto};
ghost use Rattle.em_lines.specs.CommandLine.{good_commands};
ghost use Rattle.em_lines.specs.Kind.{IsOfKind};
ghost use Rattle.em_lines.specs.Reads.{Reads};
ghost use Rattle.em_lines.specs.RunSize.{commands_taken};
ghost use Rattle.em_answers.specs.Serve.{Answers, AnswersInto, CallsOnly, Follows, IsAlone, IsFilledBy, Model, ServeCause};
ghost use Rattle.em_ends.specs.Stop.{IfStopsFull, fault_counts};
ghost use Rattle.em_answers.specs.Reading.{ReadsAll, StopCause};

use crate::print::add_popped;
use em_ends::{Stop, send_rest};
use em_frames::Device;
use em_io::{Feed, Printer, Shelf, Sink};
use em_lines::{FileKind, LineStop, take_line};
use em_model::Command;
use em_record::{Failed, Record};
use em_space::{Queue, Rig};

/// More bytes than are looked at to take a line of a queue file.
const LINE: usize = 64;

/// Sends the lines that wait, unless so much was read ahead that the next line is taken without reading more.
fn send_before_reading<W: Sink>(
    feed: &Feed,
    printer: &mut Printer,
    out: &mut W,
) -> Result<(), Failed>
    ensures none { length feed.now.ahead < 64 → OnOk result (printer.new ≡ []) }
    ensures sent { OnOk result
        (Sent W.took (W.state out.old) printer.old (W.state out.new) printer.new) }
    ensures part { SentPart W.took (W.state out.old) printer.old (W.state out.new) }
    ensures cause { HasCause (W.faults out.old) (W.faults out.new) result }
{
    if feed.ahead().len() >= LINE {
        return Ok(());
    }
    printer.send_all(out)
}

/// Answers one command of a queue file. Pushes are numbered from 1; `pushes` came before.
fn serve_one<D: Device, W: Sink, Q: Queue>(
    rig: &mut Rig<'_, D>,
    queue: &mut Q,
    command: Command,
    pushes: u64,
    printer: &mut Printer,
    out: &mut W,
) -> Result<u64, Stop>
    requires sound { Sound (seen D.state rig.old) }
    requires queue { Q.IsQueue queue.old (seen D.state rig.old) }
    requires free { CanServe (seen D.state rig.old).pool }
    requires few { (Q.counts queue.old).n < 2 ^ 40 }
    requires limit { (Q.counts queue.old).len ≤ (Q.counts queue.old).n }
    requires pushes { pushes ≤ (Q.counts queue.old).n }
    requires kind { IsOfKind FileKind.Queue command }
    requires numbers { IsTrue (seen D.state rig.old).device.told
        → NumberedTo pushes (Q.items queue.old (seen D.state rig.old)) }
    ensures serves { Serves (Q.blocks queue.old (seen D.state rig.old))
        (Q.counts queue.old) (Q.counts queue.new) (seen D.state rig.old) (seen D.state rig.new) }
    ensures frames { Q.HasItsFrames queue.new (seen D.state rig.new) }
    ensures queue { OnOk result (Q.IsQueue queue.new (seen D.state rig.new)) }
    ensures served { OnOk result (Served (Q.counts queue.old) (Q.counts queue.new)
        (seen D.state rig.old) (seen D.state rig.new)) }
    ensures within { OnOk result (Within (seen D.state rig.old)
        (Q.blocks queue.old (seen D.state rig.old))
        (Q.blocks queue.new (seen D.state rig.new))) }
    ensures limit { OnOk result ((Q.counts queue.new).len ≤ (Q.counts queue.new).n) }
    ensures pushes { IfOk result (λ n. n ≤ (Q.counts queue.new).n) }
    ensures numbers { IsTrue (seen D.state rig.old).device.told → IfOk result (λ n.
        NumberedTo n (Q.items queue.new (seen D.state rig.new))) }
    ensures follows { IsTrue (seen D.state rig.old).device.told → (q : Model)
        → Follows (Q.items queue.old (seen D.state rig.old)) pushes q
        → IfOk result (λ n. Follows (Q.items queue.new (seen D.state rig.new)) n
        (queue_step q command)) }
    ensures prints { IsTrue (seen D.state rig.old).device.told → (q : Model)
        → Follows (Q.items queue.old (seen D.state rig.old)) pushes q
        → PrintsInto W.took (printer.old ++ queue_text (queue_answer_of q command))
        (W.state out.old) (W.state out.new) printer.new result }
    ensures later { W.faults out.old ≤ W.faults out.new }
    ensures owes { IfErr result (λ stop. IfStopsFull stop (λ _. Pays (Q.counts queue.old).unstored
        (seen D.state rig.old).pool.shape.frames (seen D.state rig.old) (seen D.state rig.new))) }
    ensures full { IfErr result (λ stop. IfStopsFull stop (LacksBlocks Q.enough Q.room
        (Q.counts queue.old) (Q.counts queue.new).k (seen D.state rig.old))) }
    ensures cause { IfErr result (ServeCause (W.faults out.old) (W.faults out.new)
        (seen D.state rig.old) (seen D.state rig.new)) }
{
    match command {
        Command::Push { key, value } => {
            let item = Record {
                a: key,
                b: pushes + 1,
                c: value,
                d: 0,
            };
            queue.push(rig, item)?;
            Ok(pushes + 1)
        }
        Command::Pop => {
            let item = queue.pop(rig)?;
            add_popped(printer, out, item)?;
            Ok(pushes)
        }
        _ => Ok(pushes),
    }
}

/// Answers the commands of a queue file as `serve` does, by a printer with nothing pending. At the end lines may wait
/// there.
fn serve_lines<D: Device, H: Shelf, W: Sink, Q: Queue>(
    rig: &mut Rig<'_, D>,
    queue: &mut Q,
    feed: &mut Feed,
    shelf: &mut H,
    printer: &mut Printer,
    out: &mut W,
) -> Result<(), Stop>
    requires sound { Sound (seen D.state rig.old) }
    requires queue { Q.IsQueue queue.old (seen D.state rig.old) }
    requires free { CanServe (seen D.state rig.old).pool }
    requires fresh { IsNew (Q.counts queue.old) }
    requires alone { IsAlone (seen D.state rig.old) (Q.counts queue.old) }
    requires ready { ((H.stand shelf.old).slot feed.old.slot).ready ≡ true }
    requires place { feed.old.place ≡ 0 }
    requires none { printer.old ≡ [] }
    ensures calls_only { CallsOnly (Q.blocks queue.old (seen D.state rig.old))
        (Q.counts queue.old) (Q.counts queue.new) (seen D.state rig.old) (seen D.state rig.new) }
    ensures frames { Q.HasItsFrames queue.new (seen D.state rig.new) }
    ensures reads { Reads H.tells feed.old (H.stand shelf.old) feed.new (H.stand shelf.new) }
    ensures read_later { H.faults shelf.old ≤ H.faults shelf.new }
    ensures write_later { W.faults out.old ≤ W.faults out.new }
    ensures whole { IsTrue H.tells → OnOk result (ReadsAll FileKind.Queue
        (rest feed.old (H.stand shelf.old)) (rest feed.new (H.stand shelf.new))) }
    ensures answers { IsTrue H.tells → IsTrue (seen D.state rig.old).device.told
        → AnswersInto W.took (queue_text (queue_answers
        (good_commands FileKind.Queue (rest feed.old (H.stand shelf.old)))))
        (W.state out.old) (W.state out.new) printer.new result }
    ensures calls { IsTrue H.tells → (Q.counts queue.new).n
        ≤ commands_taken FileKind.Queue (rest feed.old (H.stand shelf.old))
        ((H.stand shelf.new).slot feed.old.slot).left }
    ensures stop { IfErr result (StopCause H.tells FileKind.Queue
        (rest feed.old (H.stand shelf.old))
        (fault_counts (H.faults shelf.old) (W.faults out.old))
        (fault_counts (H.faults shelf.new) (W.faults out.new))
        (seen D.state rig.old) (seen D.state rig.new)) }
    ensures full { IfErr result (λ stop. IfStopsFull stop
        (IsFilledBy Q.room (Q.counts queue.new) (seen D.state rig.new))) }
    ensures most { (seen D.state rig.new).most ≤ (Q.counts queue.new).most }
{
    let mut number: u64 = 1;
    let mut pushes: u64 = 0;
    loop {
        send_before_reading(feed, printer, out)?;
        let next = match take_line(FileKind::Queue, feed, shelf, number) {
            Ok(next) => next,
            Err(LineStop::Read) => return Err(Stop::Read),
            Err(LineStop::Fault(fault)) => return Err(Stop::at_line(fault, number)),
        };
        let Some(command) = next else {
            return Ok(());
        };
        pushes = serve_one(rig, queue, command, pushes, printer, out)?;
        number += 1;
    }
}

/// Answers the commands of a queue file by a queue that was never called, up to the first fault, on
/// a rig of which all blocks in use are the queue's. What waits at the end is sent then.
pub fn serve<D: Device, H: Shelf, W: Sink, Q: Queue>(
    rig: &mut Rig<'_, D>,
    queue: &mut Q,
    feed: &mut Feed,
    shelf: &mut H,
    out: &mut W,
) -> Result<(), Stop>
    requires sound { Sound (seen D.state rig.old) }
    requires queue { Q.IsQueue queue.old (seen D.state rig.old) }
    requires free { CanServe (seen D.state rig.old).pool }
    requires fresh { IsNew (Q.counts queue.old) }
    requires alone { IsAlone (seen D.state rig.old) (Q.counts queue.old) }
    requires ready { ((H.stand shelf.old).slot feed.old.slot).ready ≡ true }
    requires place { feed.old.place ≡ 0 }
    ensures calls_only { CallsOnly (Q.blocks queue.old (seen D.state rig.old))
        (Q.counts queue.old) (Q.counts queue.new) (seen D.state rig.old) (seen D.state rig.new) }
    ensures frames { Q.HasItsFrames queue.new (seen D.state rig.new) }
    ensures reads { Reads H.tells feed.old (H.stand shelf.old) feed.new (H.stand shelf.new) }
    ensures read_later { H.faults shelf.old ≤ H.faults shelf.new }
    ensures write_later { W.faults out.old ≤ W.faults out.new }
    ensures whole { IsTrue H.tells → OnOk result (ReadsAll FileKind.Queue
        (rest feed.old (H.stand shelf.old)) (rest feed.new (H.stand shelf.new))) }
    ensures answers { IsTrue H.tells → IsTrue (seen D.state rig.old).device.told
        → Answers W.took (queue_text (queue_answers
        (good_commands FileKind.Queue (rest feed.old (H.stand shelf.old)))))
        (W.state out.old) (W.state out.new) result }
    ensures calls { IsTrue H.tells → (Q.counts queue.new).n
        ≤ commands_taken FileKind.Queue (rest feed.old (H.stand shelf.old))
        ((H.stand shelf.new).slot feed.old.slot).left }
    ensures stop { IfErr result (StopCause H.tells FileKind.Queue
        (rest feed.old (H.stand shelf.old))
        (fault_counts (H.faults shelf.old) (W.faults out.old))
        (fault_counts (H.faults shelf.new) (W.faults out.new))
        (seen D.state rig.old) (seen D.state rig.new)) }
    ensures full { IfErr result (λ stop. IfStopsFull stop
        (IsFilledBy Q.room (Q.counts queue.new) (seen D.state rig.new))) }
    ensures most { (seen D.state rig.new).most ≤ (Q.counts queue.new).most }
{
    let mut printer = Printer::new();
    let done = serve_lines(rig, queue, feed, shelf, &mut printer, out);
    send_rest(done, &mut printer, out)
}
