//! The chains of a sweeper: they are made from edges between ranks, and discarded.

ghost use Rattle.std.specs.Prelude.{◌≡◌, ◌<◌, ◌+◌, IsTrue};
ghost use Rattle.em_space.specs.Held.{Holds};
ghost use Rattle.em_space.specs.Rig.{Sound};
ghost use Rattle.em_space.specs.Seen.{seen};
ghost use Rattle.aig_edges.specs.Graph.{IsOrdered, ordered_blocks};
ghost use Rattle.aig_defs.specs.Circuit.{IsHeader};
ghost use Rattle.aig_sweep.specs.Lists as lists;
ghost use Rattle.aig_sweep.specs.Lists.{AreLists, DiscardsTo, MakesTo};

use aig_defs::Header;
use aig_edges::Ordered;
use em_chain::{Chain, discard, part_at};
use em_frames::Device;
use em_record::Record;
use em_space::{EmFault, Rig};

/// The least edge that may come from a gate: the first gate has the rank I + L + 1.
fn gates_from(header: Header) -> Record
    requires header { IsHeader header }
    ensures { result ≡ lists.gates_from header }
{
    Record {
        a: header.inputs + header.latches + 1,
        b: 0,
        c: 0,
        d: 0,
    }
}

/// The three lists of a sweeper: its state, which is the chain of resets, the edges from ranks whose words
/// are given, and those from gates.
pub(crate) fn make_lists<D: Device>(
    rig: &mut Rig<'_, D>,
    ordered: Ordered,
) -> Result<(Chain, Chain, Chain), EmFault>
    requires sound { Sound (seen D.state rig.old) }
    requires ordered { IsOrdered (seen D.state rig.old) ordered }
    requires holds { IsTrue (seen D.state rig.old).device.told → Holds (seen D.state rig.old)
        (ordered_blocks (seen D.state rig.old) ordered) }
    requires free { 3 < (seen D.state rig.old).pool.free }
    ensures done { MakesTo (seen D.state rig.old) (seen D.state rig.new) ordered result }
{
    let Ordered {
        header,
        passes: _,
        edges,
        resets,
    } = ordered;
    let (given, gates) = part_at(rig, edges, gates_from(header))?;
    Ok((resets, given, gates))
}

/// Releases the blocks of three lists.
pub(crate) fn discard_lists<D: Device>(
    rig: &mut Rig<'_, D>,
    state: Chain,
    given: Chain,
    gates: Chain,
) -> Result<(), EmFault>
    requires sound { Sound (seen D.state rig.old) }
    requires are { AreLists (seen D.state rig.old) state given gates }
    requires free { 0 < (seen D.state rig.old).pool.free }
    ensures done { DiscardsTo (seen D.state rig.old) (seen D.state rig.new)
        state given gates result }
{
    discard(rig, state)?;
    discard(rig, given)?;
    discard(rig, gates)
}
