ghost use Rattle.std.specs.Prelude.{◌≡◌, ◌+◌, ◌<◌, true, length, IfOk, OnOk, IsTrue};
ghost use Rattle.em_frames.specs.Pool.{HasFrames};
ghost use Rattle.em_space.specs.Rig.{Sound, Goes};
ghost use Rattle.em_space.specs.Seen.{seen};
ghost use Rattle.em_chain.specs.Chain.{IsChain, chain_blocks, chain_items};
ghost use Rattle.em_chain.specs.Reader.{IsReader, reader_items, rest_of};
ghost use Rattle.chain_bench.specs.Sums.{sum_from};

use em_chain::{Chain, Reader};
use em_frames::Device;
use em_space::{EmFault, Rig};

/// Takes all records of a reader, and sums their first two words.
fn take_all<D: Device>(rig: &mut Rig<'_, D>, reader: &mut Reader) -> Result<u64, EmFault>
    requires sound { Sound (seen D.state rig.old) }
    requires is { IsReader (seen D.state rig.old) reader.old }
    requires taking { reader.old.taking ≡ true }
    requires free { 0 < (seen D.state rig.old).pool.free }
    ensures goes { Goes (chain_blocks (seen D.state rig.old) (rest_of reader.old))
        (seen D.state rig.old) (seen D.state rig.new) }
    ensures frame { HasFrames 1 (length reader.new.frame) (seen D.state rig.new).pool }
    ensures sum { IsTrue (seen D.state rig.old).device.told → IfOk result (λ sum.
        sum ≡ sum_from 0 (reader_items (seen D.state rig.old) reader.old)) }
    ensures used { IsTrue (seen D.state rig.old).device.told → OnOk result
        ((seen D.state rig.new).used + reader.old.blocks ≡ (seen D.state rig.old).used) }
{
    let mut sum: u64 = 0;
    loop {
        let Some(item) = reader.next(rig)? else {
            return Ok(sum);
        };
        sum = sum.wrapping_add(item.a).wrapping_add(item.b);
    }
}

/// Takes a chain, and sums the first two words of its records.
pub fn read<D: Device>(rig: &mut Rig<'_, D>, chain: Chain) -> Result<u64, EmFault>
    requires sound { Sound (seen D.state rig.old) }
    requires is { IsChain (seen D.state rig.old) chain }
    requires free { 1 < (seen D.state rig.old).pool.free }
    ensures goes { Goes (chain_blocks (seen D.state rig.old) chain)
        (seen D.state rig.old) (seen D.state rig.new) }
    ensures sum { IsTrue (seen D.state rig.old).device.told → IfOk result (λ sum.
        sum ≡ sum_from 0 (chain_items (seen D.state rig.old) chain)) }
    ensures used { IsTrue (seen D.state rig.old).device.told → OnOk result
        ((seen D.state rig.new).used + chain.blocks ≡ (seen D.state rig.old).used) }
{
    let mut reader = Reader::taking(rig, chain);
    let sum = take_all(rig, &mut reader);
    reader.abandon(rig);
    sum
}
