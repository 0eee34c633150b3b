//! A circuit's edges between ranks, made of its text.
ghost use Rattle.std.specs.Prelude.{◌≡◌, IfOk, IsTrue, true};
ghost use Rattle.em_space.specs.Seen.{seen};
ghost use Rattle.aig_text.specs.Parts.{IsParts};
ghost use Rattle.aig_edges.specs.Graph.{IsGraph, IsOrdered};
ghost use Rattle.aig_order.specs.OrderGraph.{OfDefinedCircuit};
ghost use Rattle.aig_tests.specs.Frames.{HasFrames, LeavesFrames};

use aig_bin::read_either;
use aig_edges::{Graph, Ordered, check_and_build};
use aig_order::order;
use aig_text::{AigStop, Parts};
use em_frames::Device;
use em_io::{Feed, Shelf};
use em_plain::ScanQueue;
use em_space::Rig;

/// Makes the graph of a circuit by a new queue.
fn build<D: Device>(rig: &mut Rig<'_, D>, parts: Parts) -> Result<Graph, AigStop>
    requires parts { IsParts (seen D.state rig.old) parts }
    requires has { HasFrames (seen D.state rig.old) }
    ensures leaves { LeavesFrames (seen D.state rig.old) (seen D.state rig.new) }
    ensures is { IfOk result (IsGraph (seen D.state rig.new)) }
    ensures defined { IfOk result (λ g. IsTrue (seen D.state rig.new).device.told
        → OfDefinedCircuit (seen D.state rig.new) g) }
{
    let queue = ScanQueue::new(rig)?;
    check_and_build(rig, parts, queue)
}

/// Makes the edges between ranks of a graph by a new queue.
fn rank<D: Device>(rig: &mut Rig<'_, D>, graph: Graph) -> Result<Ordered, AigStop>
    requires graph { IsGraph (seen D.state rig.old) graph }
    requires defined { IsTrue (seen D.state rig.old).device.told
        → OfDefinedCircuit (seen D.state rig.old) graph }
    requires has { HasFrames (seen D.state rig.old) }
    ensures leaves { LeavesFrames (seen D.state rig.old) (seen D.state rig.new) }
    ensures is { IfOk result (IsOrdered (seen D.state rig.new)) }
{
    let queue = ScanQueue::new(rig)?;
    order(rig, graph, queue)
}

/// Reads a circuit from its first byte, and makes its edges between ranks. All frames are back.
pub(crate) fn read_ordered<D: Device, H: Shelf>(
    rig: &mut Rig<'_, D>,
    feed: &mut Feed,
    shelf: &mut H,
) -> Result<Ordered, AigStop>
    requires ready { ((H.stand shelf.old).slot feed.old.slot).ready ≡ true }
    requires none { feed.old.place ≡ 0 }
    requires has { HasFrames (seen D.state rig.old) }
    ensures leaves { LeavesFrames (seen D.state rig.old) (seen D.state rig.new) }
    ensures is { IfOk result (IsOrdered (seen D.state rig.new)) }
{
    let parts = read_either(rig, feed, shelf, None)?;
    let graph = build(rig, parts)?;
    rank(rig, graph)
}
