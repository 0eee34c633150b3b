//! Sorted definitions and edges are read side by side: each edge stands after the definition of the
//! variable that it comes from.
//!
//!     definitions  (1) (2) (3 gate)        edges  (1 to 3) (2 to 3) (3 to output 0)
//!     as one       def 1, edge 1 to 3, def 2, edge 2 to 3, def 3, edge 3 to output 0
//!
//! Kept here: the definition that came last. Left to the lists' writers: definitions are sorted, and
//! none comes twice.

ghost use Rattle.std.specs.Prelude.{[], ◌≡◌, ◌+◌, ◌<◌, ◌≤◌, ◌++◌, IsTrue, true};
ghost use Rattle.em_frames.specs.Pool.{singles_of};
ghost use Rattle.em_space.specs.Held.{Holds};
ghost use Rattle.em_space.specs.Rig.{Sound};
ghost use Rattle.em_space.specs.Seen.{seen};
ghost use Rattle.em_chain.specs.Chain.{IsChain, chain_blocks};
ghost use Rattle.em_chain.specs.Effects.{Unmoved};
ghost use Rattle.em_weave.specs.State.{weave_count};
ghost use Rattle.aig_defs.specs.Sorted as sorted;
ghost use Rattle.aig_edges.specs.Comparing.{CanCompare, ComparesTo};
ghost use Rattle.aig_edges.specs.Comparison.{AllTo, AreLists, CanStep, FinishesTo, GivesFour, HasFramesOf, KeepsDef, MeetsEdge, OpensLists, StepsTo};

use aig_defs::AigKind;
use aig_text::AigStop;
use em_chain::{Chain, Writer};
use em_frames::Device;
use em_record::Record;
use em_space::{EmFault, Rig};
use em_weave::{Side, Weave};

/// The sources and the edges of a graph.
pub struct Compared {
    pub(crate) sources: Chain,
    pub(crate) edges: Chain,
}

/// Two lists that are compared, and two that are written.
pub struct Comparison {
    pub(crate) weave: Weave,
    pub(crate) sources: Writer,
    pub(crate) edges: Writer,
    /// The definition that came last.
    pub(crate) last: Record,
}

/// Compares the sorted definitions of a circuit, of which `count` are sources, with its sorted edges. On
/// Ok both lists are gone, and the graph's ones are written. It stops with `Undefined` at the least
/// variable that is used and not defined.
pub(crate) fn compare<D: Device>(
    rig: &mut Rig<'_, D>,
    defs: Chain,
    edges: Chain,
    count: u64,
) -> Result<Compared, AigStop>
    requires can { CanCompare (seen D.state rig.old) defs edges count }
    ensures done { ComparesTo (seen D.state rig.old) (seen D.state rig.new) defs edges count result }
{
    let total = defs.len() + edges.len();
    let mut lists = open(rig, defs, edges);
    match compare_all(rig, &mut lists, count, total) {
        Ok(()) => {}
        Err(stop) => {
            abandon(rig, lists);
            return Err(stop);
        }
    }
    if lists.sources.len() != count {
        abandon(rig, lists);
        return Err(AigStop::Em(EmFault::Damaged { block: 0 }));
    }
    Ok(finish(rig, lists)?)
}

/// Opens two lists to be compared, and begins the two that are written.
fn open<D: Device>(rig: &mut Rig<'_, D>, defs: Chain, edges: Chain) -> Comparison
    requires sound { Sound (seen D.state rig.old) }
    requires defs { IsChain (seen D.state rig.old) defs }
    requires edges { IsChain (seen D.state rig.old) edges }
    requires holds { IsTrue (seen D.state rig.old).device.told → Holds (seen D.state rig.old)
        (chain_blocks (seen D.state rig.old) defs ++ chain_blocks (seen D.state rig.old) edges) }
    requires free { 5 ≤ (seen D.state rig.old).pool.free }
    ensures opens { OpensLists (seen D.state rig.old) (seen D.state rig.new) defs edges result }
{
    let weave = Weave::new(rig, defs, edges);
    let sources = Writer::new(rig);
    let edges = Writer::new(rig);
    Comparison {
        weave,
        sources,
        edges,
        last: Record::ZERO,
    }
}

/// Gives all frames back. The blocks stay in use.
fn abandon<D: Device>(rig: &mut Rig<'_, D>, lists: Comparison)
    requires sound { Sound (seen D.state rig.old) }
    requires frames { HasFramesOf (seen D.state rig.old) lists }
    requires out { (seen D.state rig.old).pool.free + 4
        ≤ singles_of (seen D.state rig.old).pool.shape }
    ensures gives { GivesFour [] (seen D.state rig.old) (seen D.state rig.new) }
    ensures unmoved { Unmoved (seen D.state rig.old) (seen D.state rig.new) }
{
    let Comparison {
        weave,
        sources,
        edges,
        last: _,
    } = lists;
    weave.abandon(rig);
    sources.abandon(rig);
    edges.abandon(rig);
}

/// Ends the lists that were compared, and finishes the other two.
fn finish<D: Device>(rig: &mut Rig<'_, D>, lists: Comparison) -> Result<Compared, EmFault>
    requires are { AreLists (seen D.state rig.old) lists }
    requires out { (seen D.state rig.old).pool.free + 4
        ≤ singles_of (seen D.state rig.old).pool.shape }
    ensures done { FinishesTo (seen D.state rig.old) (seen D.state rig.new) lists result }
{
    let Comparison {
        weave,
        sources,
        edges,
        last: _,
    } = lists;
    match weave.end(rig) {
        Ok(()) => {}
        Err(fault) => {
            sources.abandon(rig);
            edges.abandon(rig);
            return Err(fault);
        }
    }
    match sources.finish(rig) {
        Ok(sources) => {
            let edges = edges.finish(rig)?;
            Ok(Compared { sources, edges })
        }
        Err(fault) => {
            edges.abandon(rig);
            Err(fault)
        }
    }
}

/// Compares all definitions and edges, of which there are `total`.
fn compare_all<D: Device>(
    rig: &mut Rig<'_, D>,
    lists: &mut Comparison,
    count: u64,
    total: u64,
) -> Result<(), AigStop>
    requires can { CanStep count (seen D.state rig.old) lists.old }
    requires total { weave_count lists.old.weave ≡ total }
    ensures done { AllTo count (seen D.state rig.old) (seen D.state rig.new)
        lists.old lists.new result }
    ensures frames { HasFramesOf (seen D.state rig.new) lists.new }
{
    for _ in 0..total {
        compare_next(rig, lists, count)?;
    }
    Ok(())
}

/// Compares the next definition or edge, if there is one.
fn compare_next<D: Device>(
    rig: &mut Rig<'_, D>,
    lists: &mut Comparison,
    count: u64,
) -> Result<(), AigStop>
    requires can { CanStep count (seen D.state rig.old) lists.old }
    ensures steps { StepsTo count (seen D.state rig.old) (seen D.state rig.new)
        lists.old lists.new result }
    ensures frames { HasFramesOf (seen D.state rig.new) lists.new }
{
    match lists.weave.next(rig)? {
        Some(Side::Left(def)) => {
            keep_def(rig, lists, def, count)?;
            Ok(())
        }
        Some(Side::Right(edge)) => meet_edge(rig, lists, edge),
        None => Ok(()),
    }
}

/// Keeps a definition, and writes it if it is that of an input or a latch. A device that doesn't tell
/// may give more than `count` of these, and block 0 stands for the damaged one then.
fn keep_def<D: Device>(
    rig: &mut Rig<'_, D>,
    lists: &mut Comparison,
    def: Record,
    count: u64,
) -> Result<(), EmFault>
    requires are { AreLists (seen D.state rig.old) lists.old }
    requires most { lists.old.sources.count ≤ count }
    requires left { IsTrue (seen D.state rig.old).device.told → sorted.is_source def ≡ true
        → lists.old.sources.count < count }
    ensures keeps { KeepsDef count (seen D.state rig.old) (seen D.state rig.new)
        lists.old lists.new def result }
    ensures frames { HasFramesOf (seen D.state rig.new) lists.new }
{
    lists.last = def;
    if !is_source(def) {
        return Ok(());
    }
    if lists.sources.len() == count {
        return Err(EmFault::Damaged { block: 0 });
    }
    lists.sources.append(rig, plain_def(def))
}

/// Whether a definition is that of an input or a latch.
fn is_source(def: Record) -> bool
    ensures { result ≡ sorted.is_source def }
{
    def.c < 2
}

/// A definition without its number.
fn plain_def(def: Record) -> Record
    ensures { result ≡ sorted.plain_def def }
{
    Record {
        a: def.a,
        b: def.c,
        c: def.d,
        d: 0,
    }
}

/// Writes an edge if it comes from the variable that was defined last, and stops with `Undefined`
/// otherwise.
fn meet_edge<D: Device>(
    rig: &mut Rig<'_, D>,
    lists: &mut Comparison,
    edge: Record,
) -> Result<(), AigStop>
    requires are { AreLists (seen D.state rig.old) lists.old }
    ensures meets { MeetsEdge (seen D.state rig.old) (seen D.state rig.new)
        lists.old lists.new edge result }
    ensures frames { HasFramesOf (seen D.state rig.new) lists.new }
{
    if lists.last.a != edge.a {
        return Err(AigStop::Fault {
            kind: AigKind::Undefined,
            place: edge.a,
        });
    }
    lists.edges.append(rig, edge)?;
    Ok(())
}
