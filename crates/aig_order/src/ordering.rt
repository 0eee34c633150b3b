//! Orders the gates of a circuit by the passes that find them, and makes its edges between ranks:
//!
//!     sources, gates, edges  become an adjacency list, in which no gate has a rank
//!     passes                 give each gate that they find the next rank, by bits or by the queue
//!     a gate without a rank  is on a cycle, or uses one
//!     ranks                  are sent along edges, and these are sorted
//!
//! If the circuit is straight, each variable is its own rank, and the graph's edges are read once.

ghost use Rattle.std.specs.Prelude.{◌≡◌, ◌≤◌, ◌++◌, IfOk, IsTrue, OnOk};
ghost use Rattle.em_space.specs.Held.{Holds};
ghost use Rattle.em_space.specs.Rig.{Cause, Sound};
ghost use Rattle.em_space.specs.Seen.{seen};
ghost use Rattle.aig_text.specs.Ascii.{IfEm};
ghost use Rattle.aig_edges.specs.Build.{UsesUp};
ghost use Rattle.aig_edges.specs.BuildGraph.{CalledInRuns};
ghost use Rattle.aig_edges.specs.Graph.{IsGraph, graph_blocks};
ghost use Rattle.aig_order.specs.FewCalls.{FewCosts, few_calls};
ghost use Rattle.aig_order.specs.FindsOrder.{OrdersTo};
ghost use Rattle.aig_order.specs.Marks.{FitsArea};
ghost use Rattle.aig_order.specs.OrderGraph.{BeginsOrdering, OfDefinedCircuit, OrderCosts, OrdersGraph, StopsOrdering, order_run};
ghost use Rattle.aig_order.specs.Room.{OrdersBlocks};
ghost use Rattle.aig_order.specs.Straight as straight_order;
ghost use Rattle.aig_order.specs.Straight.{OrdersStraight};

use crate::merging::merge_graph;
use crate::passing::find_all;
use crate::ranking::{left_below, rank_edges};
use aig_defs::{AigKind, Header};
use aig_edges::{Graph, Ordered};
use aig_straight::straight_edges;
use aig_text::AigStop;
use em_frames::Device;
use em_space::{Queue, Rig};

/// The edges between ranks of a graph by passes. A stop is a cycle, or the fault of a call of the queue or of one
/// on a list; after it the queue may only be abandoned.
fn find_by_passes<D: Device, Q: Queue>(
    rig: &mut Rig<'_, D>,
    graph: Graph,
    queue: &mut Q,
) -> Result<Ordered, AigStop>
    requires sound { Sound (seen D.state rig.old) }
    requires graph { IsGraph (seen D.state rig.old) graph }
    requires defined { IsTrue (seen D.state rig.old).device.told
        → OfDefinedCircuit (seen D.state rig.old) graph }
    requires queue { Q.IsQueue queue.old (seen D.state rig.old) }
    requires begins { BeginsOrdering graph.header (Q.counts queue.old) (seen D.state rig.old) }
    requires holds { IsTrue (seen D.state rig.old).device.told → Holds (seen D.state rig.old)
        (Q.blocks queue.old (seen D.state rig.old) ++ graph_blocks (seen D.state rig.old) graph) }
    ensures frames { Q.HasItsFrames queue.new (seen D.state rig.new) }
    ensures queue { OnOk result (Q.IsQueue queue.new (seen D.state rig.new)) }
    ensures finds { OrdersTo Q.Queue queue.old queue.new (seen D.state rig.old)
        (seen D.state rig.new) graph result }
    ensures few { FitsArea graph.header (seen D.state rig.old).pool.shape
        → CalledInRuns (few_calls graph.header) (order_run graph.header) (Q.counts queue.old)
        (Q.counts queue.new) }
{
    let header = graph.header;
    let count = graph.edges.len();
    let (list, resets) = merge_graph(rig, graph)?;
    let found = find_all(rig, queue, list, &header)?;
    let end = 1 + header.inputs + header.latches + header.gates;
    if let Some(place) = left_below(rig, &found.list, found.next, end)? {
        return Err(AigStop::Fault {
            kind: AigKind::Cyclic,
            place,
        });
    }
    let edges = rank_edges(rig, queue, found.list, &header, count)?;
    Ok(Ordered {
        header,
        passes: found.passes,
        edges,
        resets,
    })
}

/// How many passes find the gates of a straight circuit.
fn straight_passes(header: &Header) -> u64
    ensures { result ≡ straight_order.straight_passes header.now }
{
    if header.gates == 0 { 0 } else { 1 }
}

/// The edges between ranks of a straight graph, whose gates are all found by one pass: no queue is called. A
/// stop is the fault of a call on a list.
fn find_straight<D: Device>(rig: &mut Rig<'_, D>, graph: Graph) -> Result<Ordered, AigStop>
    requires sound { Sound (seen D.state rig.old) }
    requires graph { IsGraph (seen D.state rig.old) graph }
    requires free { 3 ≤ (seen D.state rig.old).pool.free }
    ensures finds { OrdersStraight (seen D.state rig.old) (seen D.state rig.new) graph result }
{
    let header = graph.header;
    let (edges, resets) = straight_edges(rig, graph)?;
    Ok(Ordered {
        header,
        passes: straight_passes(&header),
        edges,
        resets,
    })
}

/// The edges between ranks of a graph: of a straight one by the variables themselves, else by passes. A stop is a
/// cycle, or the fault of a call of the queue or of one on a list; after it the queue may only be abandoned.
fn find_order<D: Device, Q: Queue>(
    rig: &mut Rig<'_, D>,
    graph: Graph,
    queue: &mut Q,
) -> Result<Ordered, AigStop>
    requires sound { Sound (seen D.state rig.old) }
    requires graph { IsGraph (seen D.state rig.old) graph }
    requires defined { IsTrue (seen D.state rig.old).device.told
        → OfDefinedCircuit (seen D.state rig.old) graph }
    requires queue { Q.IsQueue queue.old (seen D.state rig.old) }
    requires begins { BeginsOrdering graph.header (Q.counts queue.old) (seen D.state rig.old) }
    requires holds { IsTrue (seen D.state rig.old).device.told → Holds (seen D.state rig.old)
        (Q.blocks queue.old (seen D.state rig.old) ++ graph_blocks (seen D.state rig.old) graph) }
    ensures frames { Q.HasItsFrames queue.new (seen D.state rig.new) }
    ensures queue { OnOk result (Q.IsQueue queue.new (seen D.state rig.new)) }
    ensures finds { OrdersTo Q.Queue queue.old queue.new (seen D.state rig.old)
        (seen D.state rig.new) graph result }
    ensures few { FitsArea graph.header (seen D.state rig.old).pool.shape
        → CalledInRuns (few_calls graph.header) (order_run graph.header) (Q.counts queue.old)
        (Q.counts queue.new) }
{
    let straight = graph.straight;
    if straight {
        return find_straight(rig, graph);
    }
    find_by_passes(rig, graph, queue)
}

/// Orders the gates of a circuit by the passes that find them, and makes its edges between ranks. The
/// queue, which has no item, is used up. The graph's blocks are released, or are those of the edges and the resets.
///
/// It stops with `Cyclic` at the least variable of a gate that is on a cycle of gates or needs the value
/// of one that is, and with `Em` if a call on the rig or of the queue gave up. `Damaged` at block 0 also
/// comes if the lists don't have what was written: a pass by the queue would go past 4 calls of it for each
/// gate, notes are left, or another number of edges comes. No device that tells gives this.
///
/// 2f + 10 single frames, an area and the rack are free before. All frames are back at each exit, those
/// of the queue too. Only blocks of the queue and of the graph changed, and blocks that weren't in use.
/// After Ok all blocks are stored, after a stop all but m + 2.
///
/// For A gates, E edges and r passes that found a gate the queue has at most 4·(r + 1)·A + 4·A + 2·E
/// calls, and at most 2·E between two moments at which it is empty. If a bit for each variable up to M
/// fits into an area, passes don't call it: it has at most 4·A + 2·E calls. The moves beside it go by r,
/// and the blocks by the header alone. All this is said over each device, with r at most A. Over a device
/// that tells, r is at most that of the circuit, the edges are its own, and `Cyclic` is its first fault.
///
/// If the device tells and the queue states a room, `Full` comes only if that room and `order_peak` are
/// more than all blocks that were free, the queue's or the graph's. If nothing else is in use at first, the
/// room is at most a tree's, and each list has at most two blocks more than its records need, then at most
/// `circuit_room` blocks are in use at any moment, and `Full` comes only if the device has fewer.
pub fn order<D: Device, Q: Queue>(
    rig: &mut Rig<'_, D>,
    graph: Graph,
    mut queue: Q,
) -> Result<Ordered, AigStop>
    requires sound { Sound (seen D.state rig.old) }
    requires graph { IsGraph (seen D.state rig.old) graph }
    requires defined { IsTrue (seen D.state rig.old).device.told
        → OfDefinedCircuit (seen D.state rig.old) graph }
    requires queue { Q.IsQueue queue (seen D.state rig.old) }
    requires begins { BeginsOrdering graph.header (Q.counts queue) (seen D.state rig.old) }
    requires holds { IsTrue (seen D.state rig.old).device.told → Holds (seen D.state rig.old)
        (Q.blocks queue (seen D.state rig.old) ++ graph_blocks (seen D.state rig.old) graph) }
    ensures uses_up { UsesUp (Q.blocks queue (seen D.state rig.old)
        ++ graph_blocks (seen D.state rig.old) graph)
        (Q.counts queue) (seen D.state rig.old) (seen D.state rig.new) }
    ensures orders { IfOk result (OrdersGraph (Q.blocks queue (seen D.state rig.old)
        ++ graph_blocks (seen D.state rig.old) graph)
        (seen D.state rig.old) (seen D.state rig.new) graph) }
    ensures stops { StopsOrdering (seen D.state rig.old) graph result }
    ensures costs { OrderCosts Q.Queue (Q.counts queue) (seen D.state rig.old)
        (seen D.state rig.new) graph }
    ensures few { FitsArea graph.header (seen D.state rig.old).pool.shape → FewCosts Q.Queue
        (Q.counts queue) (seen D.state rig.old) (seen D.state rig.new) graph }
    ensures blocks { OrdersBlocks Q.Queue (Q.counts queue) (seen D.state rig.old)
        (seen D.state rig.new) graph result }
    ensures cause { IfEm result (Cause (seen D.state rig.old) (seen D.state rig.new)) }
{
    match find_order(rig, graph, &mut queue) {
        Ok(ordered) => {
            queue.end(rig)?;
            Ok(ordered)
        }
        Err(stop) => {
            queue.abandon(rig);
            Err(stop)
        }
    }
}
