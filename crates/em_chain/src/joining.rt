ghost use Rattle.std.specs.Prelude.{◌≡◌, ◌<◌, ◌≤◌, ◌+◌, ◌*◌, ◌++◌, min, length, [], ◌∷◌, OnOk, IfOk, IfErr, IsTrue};
ghost use Rattle.em_space.specs.Held.{Apart};
ghost use Rattle.em_space.specs.Rig.{Sound, Goes, BlockCause};
ghost use Rattle.em_space.specs.Seen.{seen};
ghost use Rattle.em_chain.specs.Chain.{IsChain, chain_blocks};
ghost use Rattle.em_chain.specs.Effects.{OnlyMoves, Completes};
ghost use Rattle.em_chain.specs.Joins.{CanJoin, Joins, AreLinkable, Unskips, CanMove, CanShift, Shifts, IsLastBlock, Links};
ghost use Rattle.em_chain.specs.List.{shifted};

use crate::block::{has_more, is_last, is_link, put_header};
use crate::chain::Chain;
use em_frames::{Device, Frame};
use em_space::{EmFault, Rig};

/// The second list after the first: at most two moves, or four where records of the second one's
/// first block are passed over. It never answers `Full`.
pub fn join<D: Device>(rig: &mut Rig<'_, D>, first: Chain, second: Chain) -> Result<Chain, EmFault>
    requires sound { Sound (seen D.state rig.old) }
    requires first { IsChain (seen D.state rig.old) first }
    requires second { IsChain (seen D.state rig.old) second }
    requires apart { IsTrue (seen D.state rig.old).device.told
        → Apart (chain_blocks (seen D.state rig.old) first)
        (chain_blocks (seen D.state rig.old) second) }
    requires free { 1 < (seen D.state rig.old).pool.free }
    requires room { CanJoin first second }
    ensures goes { Goes (chain_blocks (seen D.state rig.old) first
        ++ chain_blocks (seen D.state rig.old) second)
        (seen D.state rig.old) (seen D.state rig.new) }
    ensures joins { IfOk result (λ c.
        Joins (seen D.state rig.old) (seen D.state rig.new) first second c) }
    ensures moves { OnlyMoves (2 + 2 * min second.skip 1)
        (seen D.state rig.old) (seen D.state rig.new) }
    ensures complete { Completes (seen D.state rig.old) (seen D.state rig.new) result }
    ensures cause { IfErr result (BlockCause (seen D.state rig.old) (seen D.state rig.new)) }
{
    if first.blocks == 0 {
        return Ok(second);
    }
    if second.blocks == 0 {
        return Ok(first);
    }
    let second = unskip(rig, second)?;
    join_plain(rig, first, second)
}

/// The same list from the first record of its first block.
fn unskip<D: Device>(rig: &mut Rig<'_, D>, chain: Chain) -> Result<Chain, EmFault>
    requires sound { Sound (seen D.state rig.old) }
    requires is { IsChain (seen D.state rig.old) chain }
    requires some { 0 < chain.blocks }
    requires free { 0 < (seen D.state rig.old).pool.free }
    ensures goes { Goes (chain_blocks (seen D.state rig.old) chain)
        (seen D.state rig.old) (seen D.state rig.new) }
    ensures unskips { IfOk result (λ c.
        Unskips (seen D.state rig.old) (seen D.state rig.new) chain c) }
    ensures moves { OnlyMoves (2 * min chain.skip 1)
        (seen D.state rig.old) (seen D.state rig.new) }
    ensures cause { IfErr result (BlockCause (seen D.state rig.old) (seen D.state rig.new)) }
{
    if chain.skip == 0 {
        return Ok(chain);
    }
    if !is_link(chain.head, rig.blocks()) {
        return Err(EmFault::Damaged { block: 0 });
    }
    let Chain {
        head,
        skip,
        tail,
        count,
        blocks,
    } = chain;
    let mut frame = rig.lend();
    let shifted = shift_block(rig, head - 1, skip, &mut frame);
    rig.give(frame);
    match shifted {
        Ok(()) => Ok(Chain {
            head,
            skip: 0,
            tail,
            count,
            blocks,
        }),
        Err(fault) => Err(fault),
    }
}

/// Takes records off the front of a block.
fn shift_block<D: Device>(
    rig: &mut Rig<'_, D>,
    block: u64,
    skip: u64,
    frame: &mut Frame,
) -> Result<(), EmFault>
    requires sound { Sound (seen D.state rig.old) }
    requires at { CanMove (seen D.state rig.old) block (length frame.old) }
    requires is { IsTrue (seen D.state rig.old).device.told
        → CanShift (seen D.state rig.old) block skip }
    ensures goes { Goes (block ∷ []) (seen D.state rig.old) (seen D.state rig.new) }
    ensures len { length frame.new ≡ length frame.old }
    ensures shifts { OnOk result (Shifts (seen D.state rig.old) (seen D.state rig.new) block skip) }
    ensures moves { OnlyMoves 2 (seen D.state rig.old) (seen D.state rig.new) }
    ensures cause { IfErr result (BlockCause (seen D.state rig.old) (seen D.state rig.new)) }
{
    rig.load(block, frame)?;
    let first = frame.records()[0];
    let most = frame.records().len() as u64 - 1;
    if !has_more(first, most, rig.blocks(), skip) {
        return Err(EmFault::Damaged { block });
    }
    shift(frame, skip, first.a, first.b);
    rig.store(block, frame)
}

/// Takes records off the front of the block in a frame.
fn shift(frame: &mut Frame, skip: u64, link: u64, count: u64)
    requires len { length frame.old ≤ 65536 }
    requires count { count < length frame.old }
    requires skip { skip < count }
    ensures { frame.new ≡ shifted frame.old skip link count }
{
    frame
        .records_mut()
        .copy_within(skip as usize + 1..count as usize + 1, 1);
    put_header(frame, link, count - skip);
}

/// The second list after the first, where both have blocks and the second passes over no record.
fn join_plain<D: Device>(
    rig: &mut Rig<'_, D>,
    first: Chain,
    second: Chain,
) -> Result<Chain, EmFault>
    requires sound { Sound (seen D.state rig.old) }
    requires linkable { AreLinkable (seen D.state rig.old) first second }
    requires free { 0 < (seen D.state rig.old).pool.free }
    ensures goes { Goes (chain_blocks (seen D.state rig.old) first)
        (seen D.state rig.old) (seen D.state rig.new) }
    ensures joins { IfOk result (λ c.
        Joins (seen D.state rig.old) (seen D.state rig.new) first second c) }
    ensures moves { OnlyMoves 2 (seen D.state rig.old) (seen D.state rig.new) }
    ensures cause { IfErr result (BlockCause (seen D.state rig.old) (seen D.state rig.new)) }
{
    if !is_link(first.tail, rig.blocks()) {
        return Err(EmFault::Damaged { block: 0 });
    }
    let mut frame = rig.lend();
    let linked = link_block(rig, first.tail - 1, second.head, &mut frame);
    rig.give(frame);
    match linked {
        Ok(()) => Ok(Chain {
            head: first.head,
            skip: first.skip,
            tail: second.tail,
            count: first.count + second.count,
            blocks: first.blocks + second.blocks,
        }),
        Err(fault) => Err(fault),
    }
}

/// Gives the last block of a list a link.
fn link_block<D: Device>(
    rig: &mut Rig<'_, D>,
    block: u64,
    link: u64,
    frame: &mut Frame,
) -> Result<(), EmFault>
    requires sound { Sound (seen D.state rig.old) }
    requires at { CanMove (seen D.state rig.old) block (length frame.old) }
    requires last { IsTrue (seen D.state rig.old).device.told
        → IsLastBlock (seen D.state rig.old) block }
    ensures goes { Goes (block ∷ []) (seen D.state rig.old) (seen D.state rig.new) }
    ensures len { length frame.new ≡ length frame.old }
    ensures links { OnOk result (Links (seen D.state rig.old) (seen D.state rig.new) block link) }
    ensures moves { OnlyMoves 2 (seen D.state rig.old) (seen D.state rig.new) }
    ensures cause { IfErr result (BlockCause (seen D.state rig.old) (seen D.state rig.new)) }
{
    rig.load(block, frame)?;
    let first = frame.records()[0];
    let most = frame.records().len() as u64 - 1;
    if !is_last(first, most) {
        return Err(EmFault::Damaged { block });
    }
    put_header(frame, link, first.b);
    rig.store(block, frame)
}
