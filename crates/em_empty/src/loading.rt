//! A node that is loaded and tested.
ghost use Rattle.std.specs.Prelude.{◌≡◌, ◌↔◌, ◌+◌, ◌<◌, ◌≤◌, length, get_or, [], IsTrue, OnOk, IfErr};
ghost use Rattle.em_space.specs.Rig.{Sound, Goes, SameBlocks, BlockCause};
ghost use Rattle.em_space.specs.Seen.{seen};
ghost use Rattle.em_node.specs.Node.{IsNode, entries_of, no_entry};
ghost use Rattle.em_tree_blocks.specs.Node.{buffer_of};
ghost use Rattle.em_empty.specs.Node.{CanEmpty, HasPlaces, HavePlaces};
ghost use Rattle.em_empty.specs.Loaded.{IsReceiver, LoadsNode};

use em_chain::Chain;
use em_frames::{Device, Frame};
use em_node::{check, count, entry_at};
use em_record::Shape;
use em_space::{EmFault, Rig};

/// The most records that a list may have, and the most blocks.
const MOST: u64 = 1 << 56;

/// Loads a node into a frame, and sees that it has an entry, and that its buffers have places for
/// all records of a chain. Otherwise it is `Damaged`.
pub fn load_node<D: Device>(
    rig: &mut Rig<'_, D>,
    node: u64,
    buffer: &Chain,
    frame: &mut Frame,
) -> Result<(), EmFault>
    requires sound { Sound (seen D.state rig.old) }
    requires can { CanEmpty (seen D.state rig.old) node buffer.now }
    requires len { length frame.old ≡ (seen D.state rig.old).pool.shape.block }
    ensures goes { Goes [] (seen D.state rig.old) (seen D.state rig.new) }
    ensures same { SameBlocks (seen D.state rig.old) (seen D.state rig.new) }
    ensures moves { (seen D.state rig.new).moves ≤ (seen D.state rig.old).moves + 1 }
    ensures len { length frame.new ≡ length frame.old }
    ensures loads { OnOk result (LoadsNode (seen D.state rig.old) (seen D.state rig.new)
        node buffer.now frame.new) }
    ensures cause { IfErr result (BlockCause (seen D.state rig.old) (seen D.state rig.new)) }
{
    rig.load(node, frame)?;
    if !is_receiver(frame, &rig.shape(), rig.blocks(), buffer) {
        return Err(EmFault::Damaged { block: node });
    }
    Ok(())
}

/// Whether a chain that has no record holds no block, as it must.
fn is_whole(buffer: &Chain) -> bool
    ensures { IsTrue result ↔ (buffer.now.count ≡ 0 → buffer.now.blocks ≡ 0) }
{
    buffer.len() > 0 || buffer.blocks() == 0
}

/// Whether a frame holds a node with an entry, whose buffers have places for all records of a
/// chain.
fn is_receiver(frame: &Frame, shape: &Shape, blocks: u64, buffer: &Chain) -> bool
    ensures { IsTrue result ↔ IsReceiver shape.now blocks buffer.now frame.now }
{
    is_whole(buffer)
        && check(frame, shape, blocks)
        && count(frame) > 0
        && have_places(frame, buffer.len())
}

/// Whether each buffer has places for this many records.
fn have_places(frame: &Frame, records: u64) -> bool
    requires { IsNode frame.now }
    ensures { IsTrue result ↔ HavePlaces records (entries_of frame.now) }
{
    for at in 0..count(frame) {
        if !has_places(frame, at, records) {
            return false;
        }
    }
    true
}

/// Whether the buffer of a place has places for this many records.
fn has_places(frame: &Frame, at: usize, records: u64) -> bool
    requires node { IsNode frame.now }
    requires within { at < length (entries_of frame.now) }
    ensures { IsTrue result
        ↔ HasPlaces records (buffer_of (get_or (entries_of frame.now) at no_entry)) }
{
    let [_, _, _, count, blocks] = entry_at(frame, at).buffer;
    count.saturating_add(records) <= MOST && blocks.saturating_add(records) <= MOST
}
