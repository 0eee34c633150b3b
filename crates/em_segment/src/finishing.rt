//! The end of an interval list: the points are put in order by a queue, the pairs are found, and put in
//! order by the same queue.

ghost use Rattle.std.specs.Prelude.{◌≡◌, ◌+◌, ◌<◌, ◌≤◌, List, IfErr, IfOk, IsTrue, OnOk};
ghost use Rattle.em_model.specs.declared.command.Command as commands;
ghost use Rattle.em_space.specs.Held.{Holds};
ghost use Rattle.em_space.specs.Rig.{Sound};
ghost use Rattle.em_space.specs.Seen.{seen};
ghost use Rattle.em_chain.specs.Chain.{IsChain, empty_chain};
ghost use Rattle.em_tree_cost.specs.Shares.{stab_room};
ghost use Rattle.em_segment.specs.Answers.{DiscardsTo, call_blocks};
ghost use Rattle.em_segment.specs.Finishes.{AnswersStabsTo, AsksNothing, CanFinish, CanReportAll, ClosesTo, FindsNothing, ReportsAllTo, StabsCost};
ghost use Rattle.em_segment.specs.Stabs.{HasCommands, IsStab, stab_account, stab_size};
ghost use Rattle.em_queued.specs.Room.{FullBeside};
ghost use Rattle.em_sorting.specs.Sorts.{CanSort, SortsTo};

use crate::answering::{answer, discard_both};
use em_chain::{Chain, Writer};
use em_frames::Device;
use em_sorting::sort;
use em_space::{EmFault, Queue, Rig};

/// The pairs of all stabs, in order. The queue has no item, and is left with none.
pub(crate) fn answer_stabs<D: Device, Q: Queue>(
    rig: &mut Rig<'_, D>,
    queue: &mut Q,
    intervals: Writer,
    stabs: Writer,
) -> Result<Chain, EmFault>
    requires sound { Sound (seen D.state rig.old) }
    requires is { IsStab (seen D.state rig.old) (record { intervals = intervals; stabs = stabs }) }
    requires queue { Q.IsQueue queue.old (seen D.state rig.old) }
    requires can { CanFinish Q.Queue queue.old (seen D.state rig.old)
        (record { intervals = intervals; stabs = stabs }) }
    ensures frames { Q.HasItsFrames queue.new (seen D.state rig.new) }
    ensures queue { OnOk result (Q.IsQueue queue.new (seen D.state rig.new)) }
    ensures answers { AnswersStabsTo Q.Queue queue.old queue.new (seen D.state rig.old)
        (seen D.state rig.new) (record { intervals = intervals; stabs = stabs }) result }
    ensures costs { IsTrue (seen D.state rig.old).device.told → (cs : List commands.Command)
        → HasCommands (seen D.state rig.old) (record { intervals = intervals; stabs = stabs }) cs
        → StabsCost Q.Queue queue.old queue.new (seen D.state rig.old) (seen D.state rig.new)
        (record { intervals = intervals; stabs = stabs }) cs }
    ensures full { IsTrue (seen D.state rig.old).device.told → (cs : List commands.Command)
        → HasCommands (seen D.state rig.old) (record { intervals = intervals; stabs = stabs }) cs
        → IfErr result (FullBeside Q.room
        (stab_account (record { intervals = intervals; stabs = stabs })).blocks
        (stab_room (seen D.state rig.old).pool.shape
        (stab_size (record { intervals = intervals; stabs = stabs }) cs))
        (Q.counts queue.old) (Q.counts queue.new).k (seen D.state rig.old)) }
    ensures nothing { AsksNothing (record { intervals = intervals; stabs = stabs })
        → FindsNothing queue.old queue.new result }
{
    let (pieces, points) = close_both(rig, intervals, stabs)?;
    if points.len() == 0 || pieces.len() == 0 {
        return find_nothing(rig, points, pieces);
    }
    let points = order_points(rig, queue, points)?;
    let pairs = report_pairs(rig, points, pieces)?;
    order_pairs(rig, queue, pairs)
}

/// Both lists as chains. If the first can't be stored, the second one's frame goes back.
fn close_both<D: Device>(
    rig: &mut Rig<'_, D>,
    intervals: Writer,
    stabs: Writer,
) -> Result<(Chain, Chain), EmFault>
    requires sound { Sound (seen D.state rig.old) }
    requires is { IsStab (seen D.state rig.old) (record { intervals = intervals; stabs = stabs }) }
    requires free { 0 < (seen D.state rig.old).pool.free }
    ensures closes { ClosesTo (seen D.state rig.old) (seen D.state rig.new)
        (record { intervals = intervals; stabs = stabs }) result }
{
    match intervals.finish(rig) {
        Ok(pieces) => {
            let points = stabs.finish(rig)?;
            Ok((pieces, points))
        }
        Err(fault) => {
            stabs.abandon(rig);
            Err(fault)
        }
    }
}

/// No pair, where there is no point or no piece: the blocks of both are released.
fn find_nothing<D: Device>(
    rig: &mut Rig<'_, D>,
    points: Chain,
    pieces: Chain,
) -> Result<Chain, EmFault>
    requires sound { Sound (seen D.state rig.old) }
    requires points { IsChain (seen D.state rig.old) points }
    requires pieces { IsChain (seen D.state rig.old) pieces }
    requires holds { IsTrue (seen D.state rig.old).device.told
        → Holds (seen D.state rig.old) (call_blocks (seen D.state rig.old) points pieces) }
    requires free { 0 < (seen D.state rig.old).pool.free }
    ensures discards { DiscardsTo (seen D.state rig.old) (seen D.state rig.new) points pieces result }
    ensures empty { IfOk result (λ c. c ≡ empty_chain) }
{
    discard_both(rig, points, pieces)?;
    Ok(Chain::empty())
}

/// The points in the order of their values.
fn order_points<D: Device, Q: Queue>(
    rig: &mut Rig<'_, D>,
    queue: &mut Q,
    points: Chain,
) -> Result<Chain, EmFault>
    requires is { Q.IsQueue queue.old (seen D.state rig.old) }
    requires can { CanSort Q.Queue queue.old (seen D.state rig.old) points }
    ensures frames { Q.HasItsFrames queue.new (seen D.state rig.new) }
    ensures queue { OnOk result (Q.IsQueue queue.new (seen D.state rig.new)) }
    ensures sorts { SortsTo Q.Queue queue.old queue.new points (seen D.state rig.old)
        (seen D.state rig.new) result }
{
    sort(rig, queue, points)
}

/// All pairs, in any order.
fn report_pairs<D: Device>(
    rig: &mut Rig<'_, D>,
    points: Chain,
    pieces: Chain,
) -> Result<Chain, EmFault>
    requires can { CanReportAll (seen D.state rig.old) points pieces }
    ensures reports { ReportsAllTo (seen D.state rig.old) (seen D.state rig.new) points pieces result }
{
    let mut pairs = Writer::new(rig);
    match answer(rig, points, pieces, &mut pairs) {
        Ok(()) => pairs.finish(rig),
        Err(fault) => {
            pairs.abandon(rig);
            Err(fault)
        }
    }
}

/// The pairs in the order of stabs, and of one stab in that of intervals.
fn order_pairs<D: Device, Q: Queue>(
    rig: &mut Rig<'_, D>,
    queue: &mut Q,
    pairs: Chain,
) -> Result<Chain, EmFault>
    requires is { Q.IsQueue queue.old (seen D.state rig.old) }
    requires can { CanSort Q.Queue queue.old (seen D.state rig.old) pairs }
    ensures frames { Q.HasItsFrames queue.new (seen D.state rig.new) }
    ensures queue { OnOk result (Q.IsQueue queue.new (seen D.state rig.new)) }
    ensures sorts { SortsTo Q.Queue queue.old queue.new pairs (seen D.state rig.old)
        (seen D.state rig.new) result }
{
    sort(rig, queue, pairs)
}
