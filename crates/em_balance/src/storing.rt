//! A new block for a node, and the entry that leads to one.
ghost use Rattle.std.specs.Prelude.{◌≡◌, ◌<◌, ◌^◌, get_or, length};
ghost use Rattle.em_space.specs.Rig.{Sound};
ghost use Rattle.em_space.specs.Seen.{seen};
ghost use Rattle.em_node.specs.Node.{IsNode, entries_of, no_entry};
ghost use Rattle.em_balance.specs.Node.{entry_to};
ghost use Rattle.em_balance.specs.Stored.{StoresNew};

use em_chain::Chain;
use em_frames::{Device, Frame};
use em_node::{Entry, entry_at};
use em_space::{EmFault, Rig};

/// Stores a frame in a new block, and answers its number. After a fault that block may be in use.
pub fn store_new<D: Device>(rig: &mut Rig<'_, D>, frame: &Frame) -> Result<u64, EmFault>
    requires sound { Sound (seen D.state rig.old) }
    requires len { length frame.now ≡ (seen D.state rig.old).pool.shape.block }
    requires free { 0 < (seen D.state rig.old).pool.free }
    ensures { StoresNew (seen D.state rig.old) (seen D.state rig.new) frame.now result }
{
    let block = rig.alloc()?;
    rig.store(block, frame)?;
    Ok(block)
}

/// The entry for the block that a node is in, with nothing in its buffer.
pub fn entry_for(frame: &Frame, block: u64) -> Entry
    requires node { IsNode frame.now }
    requires some { 0 < length (entries_of frame.now) }
    requires fits { block < 2 ^ 40 }
    ensures { result ≡ entry_to (get_or (entries_of frame.now) 0 no_entry).low block }
{
    Entry {
        low: entry_at(frame, 0).low,
        child: block + 1,
        buffer: Chain::empty().words(),
    }
}
