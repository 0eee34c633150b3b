//! The members of a group, put back into the buffers of a node's entries.
ghost use Rattle.std.specs.Prelude.{◌≡◌, ◌+◌, ◌<◌, ◌≤◌, ◌^◌, length, get_or, set};
ghost use Rattle.em_space.specs.Rig.{Sound};
ghost use Rattle.em_space.specs.Seen.{seen};
ghost use Rattle.em_chain.specs.Writers.{HasRack, IsGroup};
ghost use Rattle.em_node.specs.Node.{Is, IsNode, entries_of, level_of, no_entry};
ghost use Rattle.em_empty.specs.Node.{with_buffer};
ghost use Rattle.em_empty.specs.Returned.{MovesFrames, ReturnsOne, ReturnsTo};

use em_chain::{Chain, Writers};
use em_frames::{Device, Frame};
use em_node::{Entry, count, entry_at, set_entry};
use em_space::{EmFault, Rig};

/// Takes all members out, from the last one on, and puts each into the buffer of its entry. What is
/// pending of a member is stored, by one move. After a fault the group may only be abandoned.
pub fn return_all<D: Device>(
    rig: &mut Rig<'_, D>,
    frame: &mut Frame,
    group: &mut Writers,
) -> Result<(), EmFault>
    requires sound { Sound (seen D.state rig.old) }
    requires is { IsGroup (seen D.state rig.old) group.old }
    requires node { IsNode frame.old }
    requires len { length group.old.words.items ≡ length (entries_of frame.old) }
    requires free { 0 < (seen D.state rig.old).pool.free }
    ensures rack { HasRack (seen D.state rig.new) group.new }
    ensures len { length frame.new ≡ length frame.old }
    ensures frames { MovesFrames (length group.old.words.items) (length group.new.words.items)
        (seen D.state rig.old).pool (seen D.state rig.new).pool }
    ensures returns { ReturnsTo (length (entries_of frame.old)) (seen D.state rig.old)
        (seen D.state rig.new) group.old group.new frame.old frame.new result }
{
    for _ in 0..count(frame) {
        return_last(rig, frame, group)?;
    }
    Ok(())
}

/// Takes the last member out, and puts it into the buffer of its entry.
fn return_last<D: Device>(
    rig: &mut Rig<'_, D>,
    frame: &mut Frame,
    group: &mut Writers,
) -> Result<(), EmFault>
    requires sound { Sound (seen D.state rig.old) }
    requires is { IsGroup (seen D.state rig.old) group.old }
    requires node { IsNode frame.old }
    requires some { 0 < length group.old.words.items }
    requires len { length group.old.words.items ≤ length (entries_of frame.old) }
    requires free { 0 < (seen D.state rig.old).pool.free }
    ensures rack { HasRack (seen D.state rig.new) group.new }
    ensures len { length frame.new ≡ length frame.old }
    ensures frames { MovesFrames (length group.old.words.items) (length group.new.words.items)
        (seen D.state rig.old).pool (seen D.state rig.new).pool }
    ensures returns { ReturnsOne (seen D.state rig.old) (seen D.state rig.new)
        group.old group.new frame.old frame.new result }
{
    let chain = group.take_last(rig)?;
    put_buffer(frame, group.count(), chain);
    Ok(())
}

/// Puts a chain into the buffer of an entry.
fn put_buffer(frame: &mut Frame, at: usize, chain: Chain)
    requires node { IsNode frame.old }
    requires within { at < length (entries_of frame.old) }
    requires count { chain.count ≤ 2 ^ 56 }
    requires blocks { chain.blocks ≤ 2 ^ 56 }
    ensures len { length frame.new ≡ length frame.old }
    ensures is { Is frame.new (level_of frame.old) (set (entries_of frame.old) at
        (with_buffer (get_or (entries_of frame.old) at no_entry) chain)) }
{
    let mut entry = entry_at(frame, at);
    entry.buffer = chain.words();
    set_entry(frame, at, entry);
}
