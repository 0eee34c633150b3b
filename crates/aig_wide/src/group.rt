//! A group of up to 64 steps is read, evaluated and printed.

ghost use Rattle.std.specs.Prelude.{◌≡◌, ◌<◌, ◌≤◌, ◌+◌, List, IfErr, IsTrue};
ghost use Rattle.em_space.specs.Seen.{seen};
ghost use Rattle.em_chain.specs.Chain.{chain_items};
ghost use Rattle.aig_defs.specs.Circuit.{Circuit};
ghost use Rattle.aig_defs.specs.declared.circuit.Gate.{Gate};
ghost use Rattle.aig_text.specs.Reads.{Advances};
ghost use Rattle.aig_text.specs.Source.{CanRead, source};
ghost use Rattle.aig_sweep.specs.QueueState.{queue_state};
ghost use Rattle.aig_wide.specs.Calls.{CallsAfterByte, Rests, UnlessRefused};
ghost use Rattle.aig_wide.specs.Group.{FollowsGroup, HasNoLine, IfPrintedGroup, IsGroupSize, LeavesOutput};
ghost use Rattle.aig_wide.specs.Prints.{CanRun, GroupCause, GroupedTo, IfEnded, PrintsTo};
ghost use Rattle.aig_wide.specs.Puts.{printed};
ghost use Rattle.aig_wide.specs.Sweeps.{HasEdges};

use crate::printing::put_lines;
use crate::reading::{Ending, read_lines};
use crate::sweeping::sweep;
use aig_defs::Header;
use aig_edges::StepStop;
use em_chain::Chain;
use em_frames::Device;
use em_io::{Feed, Printer, Shelf, Sink};
use em_space::{Queue, Rig};

/// How a group ended that didn't stop.
#[derive(Clone, Copy, Debug, PartialEq, Eq, Drop)]
pub enum GroupEnd {
    /// This many lines of the stimulus were read, from 1 to 64, and a line of columns was printed for each. They
    /// are fewer than 64 only if nothing is left after them.
    Printed(u32),
    /// Nothing was left of the stimulus.
    End,
}

/// Reads up to 64 lines of the stimulus, evaluates the circuit for all of them at once along its edges, and
/// prints a line for each.
pub(crate) fn run_group<D: Device, H: Shelf, Q: Queue, W: Sink>(
    rig: &mut Rig<'_, D>,
    feed: &mut Feed,
    shelf: &mut H,
    printer: &mut Printer,
    sink: &mut W,
    queue: &mut Q,
    header: &Header,
    given: &Chain,
    gates: &Chain,
) -> Result<GroupEnd, StepStop>
    requires is { Q.IsQueue queue.old (seen D.state rig.old) }
    requires can { CanRun header.now given.now gates.now
        (queue_state Q.Queue queue.old (seen D.state rig.old)) }
    requires ready { CanRead (source H.Shelf feed.old shelf.old) }
    ensures frames { Q.HasItsFrames queue.new (seen D.state rig.new) }
    ensures queue { UnlessRefused result (Q.IsQueue queue.new (seen D.state rig.new)) }
    ensures advances { Advances H.tells (source H.Shelf feed.old shelf.old)
        (source H.Shelf feed.new shelf.new) }
    ensures groups { GroupedTo header.now given.now gates.now
        (queue_state Q.Queue queue.old (seen D.state rig.old))
        (queue_state Q.Queue queue.new (seen D.state rig.new)) result }
    ensures cause { GroupCause (H.faults shelf.old) (H.faults shelf.new) (W.faults sink.old)
        (W.faults sink.new) result }
    ensures size { IsGroupSize result }
    ensures further { IfPrintedGroup result (feed.old.place < feed.new.place) }
    ensures idle { IfErr result (λ stopped. CallsAfterByte (seen D.state rig.old)
        (seen D.state rig.new) queue.old queue.new feed.old.place feed.new.place) }
    ensures still { IfEnded result (Rests (seen D.state rig.old) (seen D.state rig.new) queue.old
        queue.new feed.old.place feed.new.place) }
    ensures same { IsTrue H.tells → FollowsGroup header.now.inputs
        (source H.Shelf feed.old shelf.old) (source H.Shelf feed.new shelf.new) result }
    ensures prints { IsTrue H.tells → IsTrue (seen D.state rig.old).device.told
        → (c : Circuit) (order : List Gate)
        → HasEdges c order header.now (chain_items (seen D.state rig.old) given.now)
        (chain_items (seen D.state rig.old) gates.now)
        → PrintsTo W.took c (source H.Shelf feed.old shelf.old) (source H.Shelf feed.new shelf.new)
        (printed W.Sink (queue_state Q.Queue queue.old (seen D.state rig.old)) sink.old printer.old)
        (printed W.Sink (queue_state Q.Queue queue.new (seen D.state rig.new)) sink.new printer.new)
        result }
    ensures quiet { IfErr result (λ stopped. IsTrue H.tells
        → HasNoLine header.now.inputs (source H.Shelf feed.old shelf.old)
        → LeavesOutput (W.state sink.old) (W.state sink.new) printer.old printer.new) }
    ensures goes_on { W.faults sink.old ≤ W.faults sink.new }
{
    let group = read_lines(rig, feed, shelf, queue, header.inputs)?;
    if group.lines == 0 {
        return match group.ending {
            Ending::Faulty { kind, place } => Err(StepStop::Fault { kind, place }),
            Ending::Full => Ok(GroupEnd::End),
            Ending::Ended => Ok(GroupEnd::End),
        };
    }
    sweep(rig, queue, header, given, gates, group.lines, group.part)?;
    let columns = header.outputs + header.bads + header.constraints;
    put_lines(rig, queue, columns, group.lines, printer, sink)?;
    match group.ending {
        Ending::Faulty { kind, place } => Err(StepStop::Fault { kind, place }),
        Ending::Full => Ok(GroupEnd::Printed(group.lines as u32)),
        Ending::Ended => Ok(GroupEnd::Printed(group.lines as u32)),
    }
}
