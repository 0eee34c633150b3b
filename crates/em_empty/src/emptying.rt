//! One node's buffer, emptied into those of its children:
//!
//!     chain   [7 3 9 3]              a node with low keys 1, 5 and 8
//!     before  [2]     [6]     []     the buffers of its entries
//!     after   [2 3 3] [6 7]   [9]
//!
//! Kept here: each buffer has its own records first, and then those of the chain that belong
//! there, in order of arrival; on each way out all frames are back. Left to the tree: what the
//! children hold, and that no block is held twice.

ghost use Rattle.std.specs.Prelude.{◌≡◌, ◌+◌, ◌*◌, ◌<◌, ◌≤◌, false, length, IsTrue, IfOk, IfErr, OnOk};
ghost use Rattle.em_record.specs.Shape.{fan_of};
ghost use Rattle.em_space.specs.Rig.{Sound, Cause, IfFull};
ghost use Rattle.em_space.specs.Seen.{seen};
ghost use Rattle.em_frames.specs.Pool.{places_in};
ghost use Rattle.em_space.specs.Held.{Apart};
ghost use Rattle.em_chain.specs.Chain.{IsChain, chain_blocks};
ghost use Rattle.em_chain.specs.Effects.{Completes};
ghost use Rattle.em_chain.specs.Writers.{HasRack, IsGroup, group_blocks};
ghost use Rattle.em_node.specs.Node.{IsNode, entries_of};
ghost use Rattle.em_empty.specs.Node.{CanEmpty};
ghost use Rattle.em_empty.specs.Effects.{Emptied, EmptiesNode, LeavesNode, EmptyingCosts, FreesChain, reached};
ghost use Rattle.em_empty.specs.Dealt.{AwaitsRecords};
ghost use Rattle.em_empty.specs.Returned.{MovesFrames};
ghost use Rattle.em_empty.specs.Shared.{CanShare, SharesOut, SharesTo};

use crate::answer::first_full;
use crate::dealing::deal_all;
use crate::gathering::gather;
use crate::loading::load_node;
use crate::returning::return_all;
use em_chain::{Chain, Writers};
use em_frames::{Device, Frame};
use em_settle::Settle;
use em_space::{EmFault, Rig};

/// Appends each record of a chain, in its order, to the buffer of the child whose range holds its
/// key, and releases the chain's blocks. `node` is the number of a block that holds a node with
/// an entry; over a device that doesn't tell, another block is `Damaged`. Answers the least place
/// of a buffer that now has f·B records or more, and None exactly if there is none.
///
/// `DeviceFault` comes only if the device's count of faults rose, and `Full` only if all blocks are in use, and
/// fewer than one for each buffer that gets a record, and one more, were free.
/// After a fault the node and the chain may hold anything, and their blocks stay in use. All
/// frames are back on each way out.
pub fn empty_node<D: Device, S: Settle>(
    rig: &mut Rig<'_, D>,
    settle: &S,
    node: u64,
    buffer: Chain,
) -> Result<Option<u32>, EmFault>
    requires sound { Sound (seen D.state rig.old) }
    requires can { CanEmpty (seen D.state rig.old) node buffer }
    requires free { 2 * fan_of (seen D.state rig.old).pool.shape + 3
        ≤ (seen D.state rig.old).pool.free }
    requires rack { (seen D.state rig.old).pool.rack_out ≡ false }
    ensures emptied { IfOk result (λ least. IsTrue (seen D.state rig.old).device.told
        → Emptied (S.key_of settle.now) (seen D.state rig.old) (seen D.state rig.new)
        node buffer least) }
    ensures leaves { LeavesNode (seen D.state rig.old) (seen D.state rig.new) node buffer result }
    ensures costs { EmptyingCosts (seen D.state rig.old) (seen D.state rig.new) node buffer }
    ensures frees { OnOk result
        (FreesChain (seen D.state rig.old) (seen D.state rig.new) node buffer) }
    ensures cause { IfErr result (Cause (seen D.state rig.old) (seen D.state rig.new)) }
    ensures full { IfErr result (λ fault. IfFull fault (λ _. (seen D.state rig.old).blocks
        < (seen D.state rig.old).used + reached (seen D.state rig.old) node buffer + 1)) }
    ensures complete { (seen D.state rig.old).used + reached (seen D.state rig.old) node buffer + 1
        ≤ (seen D.state rig.old).blocks
        → Completes (seen D.state rig.old) (seen D.state rig.new) result }
{
    let mut frame = rig.lend();
    let emptied = empty_into(rig, settle, node, buffer, &mut frame);
    rig.give(frame);
    emptied
}

/// The same with a frame for the node.
fn empty_into<D: Device, S: Settle>(
    rig: &mut Rig<'_, D>,
    settle: &S,
    node: u64,
    buffer: Chain,
    frame: &mut Frame,
) -> Result<Option<u32>, EmFault>
    requires sound { Sound (seen D.state rig.old) }
    requires can { CanEmpty (seen D.state rig.old) node buffer }
    requires len { length frame.old ≡ (seen D.state rig.old).pool.shape.block }
    requires free { 2 * fan_of (seen D.state rig.old).pool.shape + 2
        ≤ (seen D.state rig.old).pool.free }
    requires rack { (seen D.state rig.old).pool.rack_out ≡ false }
    ensures len { length frame.new ≡ length frame.old }
    ensures empties { EmptiesNode (S.key_of settle.now)
        (seen D.state rig.old) (seen D.state rig.new) node buffer result }
{
    load_node(rig, node, &buffer, frame)?;
    share_out(rig, settle, frame, buffer)?;
    rig.store(node, frame)?;
    let shape = rig.shape();
    Ok(first_full(frame, shape.fan() * shape.block()))
}

/// Appends the records of a chain to the buffers of a node in a frame, and releases its blocks.
fn share_out<D: Device, S: Settle>(
    rig: &mut Rig<'_, D>,
    settle: &S,
    frame: &mut Frame,
    buffer: Chain,
) -> Result<(), EmFault>
    requires sound { Sound (seen D.state rig.old) }
    requires can { CanShare (seen D.state rig.old) buffer frame.old }
    requires free { length (entries_of frame.old) + 1 < (seen D.state rig.old).pool.free }
    requires room { length (entries_of frame.old) ≤ places_in (seen D.state rig.old).pool.shape }
    requires rack { (seen D.state rig.old).pool.rack_out ≡ false }
    ensures len { length frame.new ≡ length frame.old }
    ensures shares { SharesOut (S.key_of settle.now) (seen D.state rig.old) (seen D.state rig.new)
        buffer frame.old frame.new result }
{
    let mut group = gather(rig, frame);
    match share_to(rig, settle, frame, buffer, &mut group) {
        Ok(()) => {
            group.end(rig);
            Ok(())
        }
        Err(fault) => {
            group.abandon(rig);
            Err(fault)
        }
    }
}

/// The same with a group of the node's buffers, which has no member left if all went well.
fn share_to<D: Device, S: Settle>(
    rig: &mut Rig<'_, D>,
    settle: &S,
    frame: &mut Frame,
    buffer: Chain,
    group: &mut Writers,
) -> Result<(), EmFault>
    requires sound { Sound (seen D.state rig.old) }
    requires chain { IsChain (seen D.state rig.old) buffer }
    requires is { IsGroup (seen D.state rig.old) group.old }
    requires apart { IsTrue (seen D.state rig.old).device.told
        → Apart (chain_blocks (seen D.state rig.old) buffer)
        (group_blocks (seen D.state rig.old) group.old) }
    requires node { IsNode frame.old }
    requires awaits { AwaitsRecords buffer.count group.old (entries_of frame.old) }
    requires whole { buffer.count ≡ 0 → buffer.blocks ≡ 0 }
    requires free { 1 < (seen D.state rig.old).pool.free }
    ensures rack { HasRack (seen D.state rig.new) group.new }
    ensures len { length frame.new ≡ length frame.old }
    ensures frames { MovesFrames (length group.old.words.items) (length group.new.words.items)
        (seen D.state rig.old).pool (seen D.state rig.new).pool }
    ensures none { OnOk result (length group.new.words.items ≡ 0) }
    ensures shares { SharesTo (S.key_of settle.now) (seen D.state rig.old) (seen D.state rig.new)
        buffer frame.old frame.new result }
{
    deal_all(rig, settle, frame, buffer, group)?;
    return_all(rig, frame, group)
}
