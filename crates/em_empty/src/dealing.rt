//! The records of a chain, dealt to the buffers of a node's entries in order of arrival.
ghost use Rattle.std.specs.Prelude.{◌≡◌, ◌+◌, ◌<◌, ◌≤◌, length, IsTrue};
ghost use Rattle.em_space.specs.Held.{Apart};
ghost use Rattle.em_space.specs.Rig.{Sound};
ghost use Rattle.em_space.specs.Seen.{seen};
ghost use Rattle.em_chain.specs.Chain.{IsChain, chain_blocks};
ghost use Rattle.em_chain.specs.Reader.{ReaderHasFrame};
ghost use Rattle.em_chain.specs.Writers.{HasRack, IsGroup, group_blocks};
ghost use Rattle.em_node.specs.Node.{IsNode, entries_of};
ghost use Rattle.em_empty.specs.Dealt.{AreBoth, AwaitsRecords, CanTake, DealsAll, DealsOne, DealsTo};

use em_chain::{Chain, Reader, Writers};
use em_frames::{Device, Frame};
use em_node::find;
use em_settle::Settle;
use em_space::{EmFault, Rig};

/// Reads all records of a chain, releases its blocks, and appends each record to the member of its
/// place. After a fault the group may only be abandoned.
pub fn deal_all<D: Device, S: Settle>(
    rig: &mut Rig<'_, D>,
    settle: &S,
    frame: &Frame,
    buffer: Chain,
    group: &mut Writers,
) -> Result<(), EmFault>
    requires sound { Sound (seen D.state rig.old) }
    requires chain { IsChain (seen D.state rig.old) buffer }
    requires is { IsGroup (seen D.state rig.old) group.old }
    requires apart { IsTrue (seen D.state rig.old).device.told
        → Apart (chain_blocks (seen D.state rig.old) buffer)
        (group_blocks (seen D.state rig.old) group.old) }
    requires node { IsNode frame.now }
    requires awaits { AwaitsRecords buffer.count group.old (entries_of frame.now) }
    requires whole { buffer.count ≡ 0 → buffer.blocks ≡ 0 }
    requires free { 1 < (seen D.state rig.old).pool.free }
    ensures rack { HasRack (seen D.state rig.new) group.new }
    ensures len { length group.new.words.items ≡ length group.old.words.items }
    ensures deals { DealsAll (S.key_of settle.now) (entries_of frame.now)
        (seen D.state rig.old) (seen D.state rig.new) buffer group.old group.new result }
{
    let records = buffer.len();
    let mut reader = Reader::taking(rig, buffer);
    let dealt = deal(rig, settle, frame, &mut reader, group, records);
    reader.abandon(rig);
    dealt
}

/// Deals this many records.
fn deal<D: Device, S: Settle>(
    rig: &mut Rig<'_, D>,
    settle: &S,
    frame: &Frame,
    reader: &mut Reader,
    group: &mut Writers,
    records: u64,
) -> Result<(), EmFault>
    requires sound { Sound (seen D.state rig.old) }
    requires both { AreBoth (seen D.state rig.old) reader.old group.old }
    requires node { IsNode frame.now }
    requires awaits { AwaitsRecords records group.old (entries_of frame.now) }
    requires left { records ≤ reader.old.count }
    requires free { 0 < (seen D.state rig.old).pool.free }
    ensures frame { ReaderHasFrame (seen D.state rig.new) reader.new }
    ensures rack { HasRack (seen D.state rig.new) group.new }
    ensures len { length group.new.words.items ≡ length group.old.words.items }
    ensures deals { DealsTo records (S.key_of settle.now) (entries_of frame.now)
        (seen D.state rig.old) (seen D.state rig.new)
        reader.old reader.new group.old group.new result }
{
    for _ in 0..records {
        deal_next(rig, settle, frame, reader, group)?;
    }
    Ok(())
}

/// Reads the next record and appends it to the member of its place.
fn deal_next<D: Device, S: Settle>(
    rig: &mut Rig<'_, D>,
    settle: &S,
    frame: &Frame,
    reader: &mut Reader,
    group: &mut Writers,
) -> Result<(), EmFault>
    requires sound { Sound (seen D.state rig.old) }
    requires both { AreBoth (seen D.state rig.old) reader.old group.old }
    requires node { IsNode frame.now }
    requires can { CanTake group.old (entries_of frame.now) }
    requires left { 0 < reader.old.count }
    requires free { 0 < (seen D.state rig.old).pool.free }
    ensures frame { ReaderHasFrame (seen D.state rig.new) reader.new }
    ensures rack { HasRack (seen D.state rig.new) group.new }
    ensures len { length group.new.words.items ≡ length group.old.words.items }
    ensures deals { DealsOne (S.key_of settle.now) (entries_of frame.now)
        (seen D.state rig.old) (seen D.state rig.new)
        reader.old reader.new group.old group.new result }
{
    let Some(item) = reader.next(rig)? else {
        return Ok(());
    };
    let at = find(frame, settle.key(item));
    group.append(rig, at, item)
}
