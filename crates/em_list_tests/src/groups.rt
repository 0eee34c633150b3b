//! A group of three lists, to which records are dealt.
ghost use Rattle.std.specs.Prelude.{◌≡◌, ◌<◌, ◌≤◌, ◌+◌, ◌^◌, length, false, OnOk, []};
ghost use Rattle.em_space.specs.Rig.{Goes, Sound};
ghost use Rattle.em_space.specs.Seen.{seen};
ghost use Rattle.em_chain.specs.Chain.{IsChain};
ghost use Rattle.em_chain.specs.Writers.{HasRack, IsGroup, group_blocks};
ghost use Rattle.em_chain.specs.WritersSession.{GroupWrote};
ghost use Rattle.em_list_tests.specs.Dealt.{FreesFrames, HasFew, HoldsThree, dealt};
ghost use Rattle.em_list_tests.specs.Ready.{Keeps};

use crate::rows::nth;
use em_chain::{Chain, Writers};
use em_devices::{scans, takes, write};
use em_frames::Device;
use em_record::Record;
use em_space::{EmFault, Rig};

/// Appends each record to a member of a group, by its word `a`.
fn deal<D: Device>(
    rig: &mut Rig<'_, D>,
    group: &mut Writers,
    items: &[Record],
) -> Result<(), EmFault>
    requires sound { Sound (seen D.state rig.old) }
    requires is { IsGroup (seen D.state rig.old) group.old }
    requires free { 0 < (seen D.state rig.old).pool.free }
    requires some { 0 < length group.old.words.items }
    requires room { HasFew (2 ^ 20) group.old }
    requires few { length items.now ≤ 2 ^ 20 }
    ensures goes { Goes (group_blocks (seen D.state rig.old) group.old)
        (seen D.state rig.old) (seen D.state rig.new) }
    ensures rack { HasRack (seen D.state rig.new) group.new }
    ensures len { length group.new.words.items ≡ length group.old.words.items }
    ensures wrote { OnOk result (GroupWrote (seen D.state rig.old) (seen D.state rig.new)
        group.old group.new (dealt (length group.old.words.items) items.now)) }
{
    for item in items {
        let at = (item.a % group.count() as u64) as usize;
        group.append(rig, at, *item)?;
    }
    Ok(())
}

/// A group of three lists, of which the first is a chain, and the others have no record.
fn three<D: Device>(rig: &mut Rig<'_, D>, chain: Chain) -> Writers
    requires sound { Sound (seen D.state rig.old) }
    requires is { IsChain (seen D.state rig.old) chain }
    requires free { 3 ≤ (seen D.state rig.old).pool.free }
    requires in_pool { (seen D.state rig.old).pool.rack_out ≡ false }
    requires count { chain.count ≤ 2 ^ 20 }
    requires blocks { chain.blocks ≤ 2 ^ 20 }
    ensures holds { HoldsThree (seen D.state rig.old) (seen D.state rig.new) result }
{
    let mut group = Writers::new(rig);
    group.add(rig, chain);
    group.add(rig, Chain::empty());
    group.add(rig, Chain::empty());
    group
}

/// Whether a member has exactly these records: the stored ones, and those that are pending.
fn shows<D: Device>(
    rig: &mut Rig<'_, D>,
    group: &Writers,
    at: usize,
    records: &[Record],
) -> Result<bool, EmFault>
    requires sound { Sound (seen D.state rig.old) }
    requires is { IsGroup (seen D.state rig.old) group.now }
    requires free { 1 < (seen D.state rig.old).pool.free }
    requires within { at < length group.now.words.items }
    ensures goes { Goes [] (seen D.state rig.old) (seen D.state rig.new) }
{
    let stored = group.stored(at);
    let pending = group.pending(at);
    let cut = stored.len() as usize;
    if cut > records.len() || pending != &records[cut..] {
        return Ok(false);
    }
    scans(rig, &stored, &records[..cut])
}

/// Takes the last list out, and whether it has exactly these records.
fn last_has<D: Device>(
    rig: &mut Rig<'_, D>,
    group: &mut Writers,
    records: &[Record],
) -> Result<bool, EmFault>
    requires sound { Sound (seen D.state rig.old) }
    requires is { IsGroup (seen D.state rig.old) group.old }
    requires free { 1 < (seen D.state rig.old).pool.free }
    requires some { 0 < length group.old.words.items }
    ensures sound { Sound (seen D.state rig.new) }
    ensures frames { FreesFrames (seen D.state rig.old).pool (seen D.state rig.new).pool
        group.old group.new }
    ensures len { length group.old.words.items ≡ length group.new.words.items + 1 }
    ensures rack { HasRack (seen D.state rig.new) group.new }
    ensures is { OnOk result (IsGroup (seen D.state rig.new) group.new) }
{
    let chain = group.take_last(rig)?;
    takes(rig, chain, records)
}

/// Deals records to a group of three lists, looks at the first, and takes all out.
fn dealt<D: Device>(
    rig: &mut Rig<'_, D>,
    group: &mut Writers,
    items: &[Record],
    lists: (&[Record], &[Record], &[Record]),
) -> Result<bool, EmFault>
    requires sound { Sound (seen D.state rig.old) }
    requires is { IsGroup (seen D.state rig.old) group.old }
    requires free { 1 < (seen D.state rig.old).pool.free }
    requires len { length group.old.words.items ≡ 3 }
    requires room { HasFew (2 ^ 20) group.old }
    requires few { length items.now ≤ 2 ^ 20 }
    ensures sound { Sound (seen D.state rig.new) }
    ensures frames { FreesFrames (seen D.state rig.old).pool (seen D.state rig.new).pool
        group.old group.new }
    ensures rack { HasRack (seen D.state rig.new) group.new }
    ensures none { OnOk result (length group.new.words.items ≡ 0) }
{
    deal(rig, group, items)?;
    let shown = shows(rig, group, 0, lists.0)?;
    let third = last_has(rig, group, lists.2)?;
    let second = last_has(rig, group, lists.1)?;
    let first = last_has(rig, group, lists.0)?;
    Ok(shown && third && second && first)
}

/// The same, with a new group, whose first list has some records at first.
pub fn shared<D: Device>(rig: &mut Rig<'_, D>, lists: &[Vec<Record>]) -> Result<bool, EmFault>
    requires sound { Sound (seen D.state rig.old) }
    requires free { 5 ≤ (seen D.state rig.old).pool.free }
    requires in_pool { (seen D.state rig.old).pool.rack_out ≡ false }
    ensures kept { Keeps (seen D.state rig.old) (seen D.state rig.new) }
{
    let chain = write(rig, nth(lists, 0))?;
    let mut group = three(rig, chain);
    let expected = (nth(lists, 2), nth(lists, 3), nth(lists, 4));
    match dealt(rig, &mut group, nth(lists, 1), expected) {
        Ok(same) => {
            group.end(rig);
            Ok(same)
        }
        Err(fault) => {
            group.abandon(rig);
            Err(fault)
        }
    }
}
