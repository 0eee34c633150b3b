ghost use Rattle.std.specs.Prelude.{◌≡◌, ◌<◌, ◌≤◌, ◌+◌, ◌*◌, [], IfOk, IfErr, IsTrue};
ghost use Rattle.em_frames.specs.Device.{block_at};
ghost use Rattle.em_space.specs.Free.{header};
ghost use Rattle.em_space.specs.Rig.{Sound, InUse, Goes, BlockCause};
ghost use Rattle.em_space.specs.Seen.{seen};
ghost use Rattle.em_chain.specs.Chain.{IsChain, chain_blocks};
ghost use Rattle.em_chain.specs.Effects.{OnlyMoves, Completes};
ghost use Rattle.em_chain.specs.Row.{row, IsRow, HasRow, Drops, Frees};

use crate::block::{is_link, leads_to};
use crate::chain::Chain;
use em_frames::Device;
use em_space::{EmFault, Rig};

/// Releases all blocks of a chain, by two moves at most for each. It never answers `Full`. After a fault
/// the blocks that are left stay in use.
pub fn discard<D: Device>(rig: &mut Rig<'_, D>, chain: Chain) -> Result<(), EmFault>
    requires sound { Sound (seen D.state rig.old) }
    requires is { IsChain (seen D.state rig.old) chain }
    requires free { 0 < (seen D.state rig.old).pool.free }
    ensures goes { Goes (chain_blocks (seen D.state rig.old) chain)
        (seen D.state rig.old) (seen D.state rig.new) }
    ensures frees { Frees chain.blocks (seen D.state rig.old) (seen D.state rig.new) result }
    ensures complete { Completes (seen D.state rig.old) (seen D.state rig.new) result }
    ensures cause { IfErr result (BlockCause (seen D.state rig.old) (seen D.state rig.new)) }
{
    let mut link = chain.head;
    for done in 0..chain.blocks {
        link = drop_block(rig, link, chain.blocks - done - 1)?;
    }
    Ok(())
}

/// Releases the first block after a link, and answers its link. This many blocks follow it.
fn drop_block<D: Device>(rig: &mut Rig<'_, D>, link: u64, left: u64) -> Result<u64, EmFault>
    requires sound { Sound (seen D.state rig.old) }
    requires row { IsTrue (seen D.state rig.old).device.told
        → IsRow (seen D.state rig.old) link (left + 1) }
    requires free { 0 < (seen D.state rig.old).pool.free }
    ensures goes { Goes (row (seen D.state rig.old) link (left + 1))
        (seen D.state rig.old) (seen D.state rig.new) }
    ensures drops { IfOk result (λ next. IsTrue (seen D.state rig.old).device.told
        → Drops (seen D.state rig.old) (seen D.state rig.new) link next left) }
    ensures frees { Frees 1 (seen D.state rig.old) (seen D.state rig.new) result }
    ensures cause { IfErr result (BlockCause (seen D.state rig.old) (seen D.state rig.new)) }
{
    if !is_link(link, rig.blocks()) {
        return Err(EmFault::Damaged { block: 0 });
    }
    let next = next_link(rig, link - 1, left)?;
    rig.release(link - 1)?;
    Ok(next)
}

/// The link of a chain block that this many follow.
fn next_link<D: Device>(rig: &mut Rig<'_, D>, block: u64, left: u64) -> Result<u64, EmFault>
    requires sound { Sound (seen D.state rig.old) }
    requires row { HasRow (seen D.state rig.old) block left }
    requires free { 0 < (seen D.state rig.old).pool.free }
    ensures goes { Goes [] (seen D.state rig.old) (seen D.state rig.new) }
    ensures link { IfOk result (λ next. IsTrue (seen D.state rig.old).device.told
        → next ≡ (header (block_at (seen D.state rig.old).device block)).a) }
    ensures in_use { InUse (seen D.state rig.new) block }
    ensures moves { OnlyMoves 1 (seen D.state rig.old) (seen D.state rig.new) }
    ensures cause { IfErr result (BlockCause (seen D.state rig.old) (seen D.state rig.new)) }
{
    let mut frame = rig.lend();
    let loaded = rig.load(block, &mut frame);
    let first = frame.records()[0];
    let most = frame.records().len() as u64 - 1;
    rig.give(frame);
    match loaded {
        Ok(()) => {}
        Err(fault) => return Err(fault),
    }
    if !leads_to(first, most, rig.blocks(), left) {
        return Err(EmFault::Damaged { block });
    }
    Ok(first.a)
}
