//! Makes the graph of a circuit's edges, whose lists are put in order one after another, by a queue if they aren't
//! known to be so:
//!
//!     defs     [5 1 4 2]  in order are read once: no variable may come twice
//!     gates    [h g]      are put in order
//!     edges    [e f ..]   of the sorted gates and of the uses are sorted
//!     sources  [1 2]      and edges are what comparing definitions and edges writes
//!
//! Kept here: queue and lists have no block in common, and at each stop the queue is abandoned.
//! Left to the queue, or to who wrote the parts: the order of each list. Left to `comparing`: which faults there are.

ghost use Rattle.std.specs.Prelude.{◌≡◌, ◌+◌, ◌*◌, ◌++◌, IfOk, IsTrue, OnOk};
ghost use Rattle.em_space.specs.Held.{Holds};
ghost use Rattle.em_space.specs.Rig.{Cause, Sound};
ghost use Rattle.em_space.specs.Seen.{seen};
ghost use Rattle.aig_text.specs.Ascii.{IfEm};
ghost use Rattle.aig_text.specs.Parts.{IsParts, parts_blocks};
ghost use Rattle.aig_edges.specs.Build.{UsesUp, parts_size};
ghost use Rattle.aig_edges.specs.BuildGraph.{BeginsSorting, BuildsGraph, SortCosts, StopsBuilding, StoresSorted, sort_calls, sort_moves, sort_peak, sort_run};
ghost use Rattle.aig_edges.specs.Making.{BuildsTo};
ghost use Rattle.aig_edges.specs.Room.{BuildsInRoom};

use crate::comparing::{Compared, compare};
use crate::graph::Graph;
use crate::looking::twice;
use crate::sorting::{Sorted, sort_edges, sort_known};
use aig_defs::AigKind;
use aig_text::{AigStop, Parts};
use em_frames::Device;
use em_space::{Queue, Rig};

/// Checks that a circuit defines nothing twice and all that it uses, and gives its graph. The
/// circuit's lines, and so its gates, may stand in any order. The queue, which has no item, is used
/// up, and on Ok the parts' blocks are the graph's or were released.
///
/// It stops with the first of these faults that the circuit has, at the least such variable: `Twice`
/// if a variable is defined twice, `Undefined` if one is used and not defined. Gates on a cycle are
/// no fault here. It stops with `Em` if a call on the rig or of the queue gave up, and never with
/// `Read`.
///
/// 2f + 10 single frames, an area and the rack are free before. All frames are back at each exit,
/// those of the queue too. Only blocks of the queue and of the parts changed, and blocks that weren't
/// in use. After Ok all blocks are stored, after a stop all but m + 2.
///
/// For I inputs, L latches, A gates and E edges the queue has at most 2·(I + L + A) + 2·A + 2·E calls,
/// and at most twice the greater of I + L + A and E between two moments at which it is empty. The
/// moves and blocks beside it go by the header too. Over a device that doesn't tell what it holds,
/// nothing is said of which graph it is, nor of which circuit a fault is.
///
/// If the device tells and the queue states a room, `Full` comes only if that room and `sort_peak` are
/// more than all blocks that were free, the queue's or the parts'. If nothing else is in use at first, the
/// room is at most a tree's, and each list has at most two blocks more than its records need, then at most
/// `circuit_room` blocks are in use at any moment, and `Full` comes only if the device has fewer.
pub fn check_and_build<D: Device, Q: Queue>(
    rig: &mut Rig<'_, D>,
    parts: Parts,
    mut queue: Q,
) -> Result<Graph, AigStop>
    requires sound { Sound (seen D.state rig.old) }
    requires parts { IsParts (seen D.state rig.old) parts }
    requires queue { Q.IsQueue queue (seen D.state rig.old) }
    requires begins { BeginsSorting parts.header (Q.counts queue) (seen D.state rig.old) }
    requires holds { IsTrue (seen D.state rig.old).device.told
        → Holds (seen D.state rig.old) (Q.blocks queue (seen D.state rig.old)
        ++ parts_blocks (seen D.state rig.old) parts) }
    ensures uses_up { UsesUp (Q.blocks queue (seen D.state rig.old)
        ++ parts_blocks (seen D.state rig.old) parts)
        (Q.counts queue) (seen D.state rig.old) (seen D.state rig.new) }
    ensures builds { IfOk result (BuildsGraph (Q.blocks queue (seen D.state rig.old)
        ++ parts_blocks (seen D.state rig.old) parts)
        (seen D.state rig.old) (seen D.state rig.new) parts) }
    ensures stops { StopsBuilding (seen D.state rig.old) parts result }
    ensures costs { SortCosts Q.Queue (sort_calls parts.header) (sort_run parts.header)
        (sort_moves (seen D.state rig.old) parts) (parts_size parts)
        (sort_peak (seen D.state rig.old) parts)
        (Q.counts queue) (seen D.state rig.old) (seen D.state rig.new) }
    ensures stores { StoresSorted (Q.counts queue) (seen D.state rig.old) (seen D.state rig.new)
        parts result }
    ensures cause { IfEm result (Cause (seen D.state rig.old) (seen D.state rig.new)) }
    ensures room { BuildsInRoom Q.Queue (Q.counts queue) (seen D.state rig.old)
        (seen D.state rig.new) parts result }
{
    match build(rig, parts, &mut queue) {
        Ok(graph) => {
            queue.end(rig)?;
            Ok(graph)
        }
        Err(stop) => {
            queue.abandon(rig);
            Err(stop)
        }
    }
}

/// The graph of a circuit. A stop is the circuit's fault, or that of a call of the queue or of one
/// on a list; after it the queue may only be abandoned.
fn build<D: Device, Q: Queue>(
    rig: &mut Rig<'_, D>,
    parts: Parts,
    queue: &mut Q,
) -> Result<Graph, AigStop>
    requires sound { Sound (seen D.state rig.old) }
    requires parts { IsParts (seen D.state rig.old) parts }
    requires queue { Q.IsQueue queue.old (seen D.state rig.old) }
    requires begins { BeginsSorting parts.header (Q.counts queue.old) (seen D.state rig.old) }
    requires holds { IsTrue (seen D.state rig.old).device.told
        → Holds (seen D.state rig.old) (Q.blocks queue.old (seen D.state rig.old)
        ++ parts_blocks (seen D.state rig.old) parts) }
    ensures frames { Q.HasItsFrames queue.new (seen D.state rig.new) }
    ensures queue { OnOk result (Q.IsQueue queue.new (seen D.state rig.new)) }
    ensures builds { BuildsTo Q.Queue queue.old queue.new (seen D.state rig.old)
        (seen D.state rig.new) parts result }
{
    let Parts {
        header,
        defs,
        gates,
        uses,
        resets,
        climbs,
        straight,
    } = parts;
    let defs = sort_known(rig, queue, defs, Sorted::Definitions, climbs)?;
    if let Some(place) = twice(rig, &defs)? {
        return Err(AigStop::Fault {
            kind: AigKind::Twice,
            place,
        });
    }
    let gates = sort_known(rig, queue, gates, Sorted::Themselves, climbs)?;
    let edges = sort_edges(rig, queue, &gates, uses)?;
    let Compared { sources, edges } = compare(rig, defs, edges, header.inputs + header.latches)?;
    Ok(Graph {
        header,
        gates,
        edges,
        sources,
        resets,
        straight,
    })
}
