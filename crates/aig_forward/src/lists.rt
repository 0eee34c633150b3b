//! The bits of a step become one list.

ghost use Rattle.std.specs.Prelude.{◌≡◌, ◌<◌, ◌+◌, ◌++◌, IsTrue};
ghost use Rattle.em_space.specs.Held.{Holds};
ghost use Rattle.em_space.specs.Rig.{Sound};
ghost use Rattle.em_space.specs.Seen.{seen};
ghost use Rattle.em_chain.specs.Chain.{IsChain, chain_blocks};
ghost use Rattle.em_chain.specs.Joins.{CanJoin};
ghost use Rattle.aig_forward.specs.Lists.{JoinsTo};

use em_chain::{Chain, join};
use em_frames::Device;
use em_space::{EmFault, Rig};

/// The records of both lists as one list, by four moves at most. `Damaged` with block 0 comes only
/// over a device that doesn't tell, if a chain with records has no block.
pub(crate) fn join_bits<D: Device>(
    rig: &mut Rig<'_, D>,
    inputs: Chain,
    state: Chain,
    count: u64,
) -> Result<Chain, EmFault>
    requires sound { Sound (seen D.state rig.old) }
    requires inputs { IsChain (seen D.state rig.old) inputs }
    requires state { IsChain (seen D.state rig.old) state }
    requires count { inputs.count + state.count ≡ count }
    requires room { CanJoin inputs state }
    requires holds { IsTrue (seen D.state rig.old).device.told → Holds (seen D.state rig.old)
        (chain_blocks (seen D.state rig.old) inputs ++ chain_blocks (seen D.state rig.old) state) }
    requires free { 1 < (seen D.state rig.old).pool.free }
    ensures done { JoinsTo (seen D.state rig.old) (seen D.state rig.new) inputs state result }
{
    let bits = join(rig, inputs, state)?;
    if bits.len() != count {
        return Err(EmFault::Damaged { block: 0 });
    }
    Ok(bits)
}
