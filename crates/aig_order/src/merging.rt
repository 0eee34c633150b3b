//! Makes an adjacency list: sources and gates become definitions, and definitions and edges one list.
//!
//!     sources [1 2]   gates [4 6]       as one  [1 2 4 6]
//!     definitions [1 2 4 6]   edges [1-4 2-4 ..]   as one  [1 1-4 2 2-4 4 ..]

ghost use Rattle.std.specs.Prelude.{◌≡◌, ◌≤◌};
ghost use Rattle.em_space.specs.Rig.{Sound};
ghost use Rattle.em_space.specs.Seen.{seen};
ghost use Rattle.em_weave.specs.State.{weave_count};
ghost use Rattle.aig_defs.specs.Circuit.{IsHeader};
ghost use Rattle.aig_edges.specs.Graph.{IsGraph};
ghost use Rattle.aig_order.specs.Findings.{MergesWith};
ghost use Rattle.aig_order.specs.Merges.{AreMerged, CanMerge, MergeHasFrames, MergesNext, MergesRest, MergesTwo, merged_side};

use crate::adjacency::{gate_definition, source_definition};
use aig_defs::Header;
use aig_edges::Graph;
use em_chain::{Chain, Writer};
use em_frames::Device;
use em_record::Record;
use em_space::{EmFault, Rig};
use em_weave::{Side, Weave};

/// Which two lists become one.
#[derive(Clone, Copy, Debug, PartialEq, Eq, Drop)]
pub(crate) enum Merge {
    /// Sources and gates.
    Definitions,
    /// Definitions and edges, which stay as they are.
    Adjacency,
}

/// What is written for a record.
fn merged(header: &Header, merge: Merge, side: Side) -> Record
    requires header { IsHeader header.now }
    ensures { result ≡ merged_side header.now merge side }
{
    match (merge, side) {
        (Merge::Definitions, Side::Left(source)) => source_definition(header, source),
        (Merge::Definitions, Side::Right(gate)) => gate_definition(gate),
        (Merge::Adjacency, Side::Left(definition)) => definition,
        (Merge::Adjacency, Side::Right(edge)) => edge,
    }
}

/// Writes the next record of two lists, if there is one.
fn merge_next<D: Device>(
    rig: &mut Rig<'_, D>,
    weave: &mut Weave,
    writer: &mut Writer,
    header: &Header,
    merge: Merge,
) -> Result<(), EmFault>
    requires header { IsHeader header.now }
    requires are { AreMerged (seen D.state rig.old) weave.old writer.old }
    ensures merges { MergesNext header.now merge (seen D.state rig.old) (seen D.state rig.new)
        weave.old weave.new writer.old writer.new result }
    ensures frames { MergeHasFrames (seen D.state rig.new) weave.new writer.new }
{
    match weave.next(rig)? {
        Some(side) => writer.append(rig, merged(header, merge, side)),
        None => Ok(()),
    }
}

/// Writes all records of two lists, of which there are `total`.
fn merge_all<D: Device>(
    rig: &mut Rig<'_, D>,
    weave: &mut Weave,
    writer: &mut Writer,
    header: &Header,
    merge: Merge,
    total: u64,
) -> Result<(), EmFault>
    requires header { IsHeader header.now }
    requires are { AreMerged (seen D.state rig.old) weave.old writer.old }
    requires total { weave_count weave.old ≡ total }
    ensures merges { MergesRest header.now merge (seen D.state rig.old) (seen D.state rig.new)
        weave.old weave.new writer.old writer.new result }
    ensures frames { MergeHasFrames (seen D.state rig.new) weave.new writer.new }
{
    for _ in 0..total {
        merge_next(rig, weave, writer, header, merge)?;
    }
    Ok(())
}

/// One list of the records of two, in the order of their words a. The blocks of the two are released. A
/// fault is that of a call on a list.
fn merge_lists<D: Device>(
    rig: &mut Rig<'_, D>,
    left: Chain,
    right: Chain,
    header: &Header,
    merge: Merge,
) -> Result<Chain, EmFault>
    requires header { IsHeader header.now }
    requires can { CanMerge (seen D.state rig.old) left right }
    ensures merges { MergesTwo header.now merge (seen D.state rig.old) (seen D.state rig.new) left
        right result }
{
    let total = left.len() + right.len();
    let mut weave = Weave::new(rig, left, right);
    let mut writer = Writer::new(rig);
    match merge_all(rig, &mut weave, &mut writer, header, merge, total) {
        Ok(()) => {}
        Err(fault) => {
            weave.abandon(rig);
            writer.abandon(rig);
            return Err(fault);
        }
    }
    match weave.end(rig) {
        Ok(()) => writer.finish(rig),
        Err(fault) => {
            writer.abandon(rig);
            Err(fault)
        }
    }
}

/// The adjacency list of a graph, in which no gate has a rank, and the graph's resets. The blocks of its
/// other lists are released. A fault is that of a call on a list.
pub(crate) fn merge_graph<D: Device>(
    rig: &mut Rig<'_, D>,
    graph: Graph,
) -> Result<(Chain, Chain), EmFault>
    requires sound { Sound (seen D.state rig.old) }
    requires is { IsGraph (seen D.state rig.old) graph }
    requires free { 5 ≤ (seen D.state rig.old).pool.free }
    ensures merges { MergesWith (seen D.state rig.old) (seen D.state rig.new) graph result }
{
    let Graph {
        header,
        gates,
        edges,
        sources,
        resets,
        straight: _,
    } = graph;
    let definitions = merge_lists(rig, sources, gates, &header, Merge::Definitions)?;
    let list = merge_lists(rig, definitions, edges, &header, Merge::Adjacency)?;
    Ok((list, resets))
}
