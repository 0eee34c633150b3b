//! The buffers of a node's entries as the members of a group.
ghost use Rattle.std.specs.Prelude.{◌≡◌, ◌+◌, ◌<◌, ◌≤◌, length, false, IsTrue};
ghost use Rattle.em_frames.specs.Pool.{places_in};
ghost use Rattle.em_space.specs.Held.{Holds};
ghost use Rattle.em_space.specs.Rig.{Sound};
ghost use Rattle.em_space.specs.Seen.{seen};
ghost use Rattle.em_node.specs.Node.{IsNode, entries_of};
ghost use Rattle.em_empty.specs.Node.{AreBuffers, buffer_blocks};
ghost use Rattle.em_empty.specs.Dealt.{Gathers};

use em_chain::{Chain, Writers};
use em_frames::{Device, Frame};
use em_node::{count, entry_at};
use em_space::Rig;

/// A group whose members are the buffers of a node's entries, each with a frame. Nothing is moved.
pub fn gather<D: Device>(rig: &mut Rig<'_, D>, frame: &Frame) -> Writers
    requires sound { Sound (seen D.state rig.old) }
    requires node { IsNode frame.now }
    requires buffers { AreBuffers (seen D.state rig.old) (entries_of frame.now) }
    requires holds { IsTrue (seen D.state rig.old).device.told
        → Holds (seen D.state rig.old)
        (buffer_blocks (seen D.state rig.old) (entries_of frame.now)) }
    requires free { length (entries_of frame.now) ≤ (seen D.state rig.old).pool.free }
    requires room { length (entries_of frame.now)
        ≤ places_in (seen D.state rig.old).pool.shape }
    requires in_pool { (seen D.state rig.old).pool.rack_out ≡ false }
    ensures { Gathers (seen D.state rig.old) (seen D.state rig.new) result (entries_of frame.now) }
{
    let mut group = Writers::new(rig);
    for at in 0..count(frame) {
        let entry = entry_at(frame, at);
        group.add(rig, Chain::from_words(entry.buffer));
    }
    group
}
