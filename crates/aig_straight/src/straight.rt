//! In a straight circuit variables stand in the order of inputs, latches and gates, with no gap, and each gate
//! is above its operands: each variable is its own rank.
//!
//!     edges [1-3 2-3 3-output]   are read once, and written    [1-3 2-3 3-4]
//!     gates [3]   sources [1 2]  are released
//!
//! Left to who made the graph: that its circuit is straight.

ghost use Rattle.std.specs.Prelude.{◌≤◌};
ghost use Rattle.em_space.specs.Rig.{Sound};
ghost use Rattle.em_space.specs.Seen.{seen};
ghost use Rattle.aig_edges.specs.Graph.{IsGraph};
ghost use Rattle.aig_straight.specs.Straight.{MakesStraightTo};

use aig_edges::{Copied, Graph, copy};
use em_chain::{Chain, discard};
use em_frames::Device;
use em_space::{EmFault, Rig};

/// The edges of a graph with each variable as its own rank, in a packed list, and the graph's resets. The
/// blocks of its other lists are released. A fault is that of a call on a list. At most two moves come for
/// each block of the lists and of the edges between ranks, and one more.
pub fn straight_edges<D: Device>(
    rig: &mut Rig<'_, D>,
    graph: Graph,
) -> Result<(Chain, Chain), EmFault>
    requires sound { Sound (seen D.state rig.old) }
    requires is { IsGraph (seen D.state rig.old) graph }
    requires free { 3 ≤ (seen D.state rig.old).pool.free }
    ensures makes { MakesStraightTo (seen D.state rig.old) (seen D.state rig.new) graph result }
{
    let Graph {
        header,
        gates,
        edges,
        sources,
        resets,
        straight: _,
    } = graph;
    discard(rig, gates)?;
    discard(rig, sources)?;
    let edges = copy(rig, edges, Copied::Ranked(header))?;
    Ok((edges, resets))
}
