//! Reading lists of which nothing is taken.

ghost use Rattle.std.specs.Prelude.{◌≡◌, ◌<◌, None, false};
ghost use Rattle.em_space.specs.Rig.{Sound};
ghost use Rattle.em_space.specs.Seen.{seen};
ghost use Rattle.em_chain.specs.Chain.{IsChain};
ghost use Rattle.em_chain.specs.Reader.{IsReader, ReaderHasFrame, owed, reader_items, rest_of};
ghost use Rattle.aig_edges.specs.Looks.{LooksAll, LooksNext};
ghost use Rattle.aig_edges.specs.Repeats.{TellsTwice, first_repeat, is_variable};

use em_chain::{Chain, Reader};
use em_frames::Device;
use em_record::Record;
use em_space::{EmFault, Rig};

/// The next record of a list that has one, for a reader that leaves the list. One single frame is free
/// before, and after. A fault is that of reading its block, and never `Full`. At most one block is
/// moved, and none changes. Which record it is is said over a device that tells.
pub fn next_record<D: Device>(rig: &mut Rig<'_, D>, reader: &mut Reader) -> Result<Record, EmFault>
    requires sound { Sound (seen D.state rig.old) }
    requires is { IsReader (seen D.state rig.old) reader.old }
    requires over { reader.old.taking ≡ false }
    requires some { 0 < (rest_of reader.old).count }
    requires free { 0 < (seen D.state rig.old).pool.free }
    ensures done { LooksNext (seen D.state rig.old) (seen D.state rig.new)
        reader.old reader.new result }
    ensures frame { ReaderHasFrame (seen D.state rig.new) reader.new }
{
    let Some(item) = reader.next(rig)? else {
        unreachable!()
    };
    Ok(item)
}

/// The least variable that sorted definitions define twice, if there is one.
pub(crate) fn twice<D: Device>(rig: &mut Rig<'_, D>, defs: &Chain) -> Result<Option<u64>, EmFault>
    requires sound { Sound (seen D.state rig.old) }
    requires is { IsChain (seen D.state rig.old) defs.now }
    requires free { 1 < (seen D.state rig.old).pool.free }
    ensures done { LooksAll defs.now.blocks (seen D.state rig.old) (seen D.state rig.new)
        (TellsTwice (seen D.state rig.old) defs.now) result }
{
    let mut reader = Reader::over(rig, defs);
    let found = rest_repeats(rig, &mut reader, defs.len());
    reader.abandon(rig);
    found
}

/// Whether a variable was read before and is that of this record.
fn repeats(before: Option<u64>, item: Record) -> bool
    ensures { result ≡ is_variable before item }
{
    match before {
        Some(variable) => variable == item.a,
        None => false,
    }
}

/// The first word a that two records one after the other have, of the `count` records of a reader.
fn rest_repeats<D: Device>(
    rig: &mut Rig<'_, D>,
    reader: &mut Reader,
    count: u64,
) -> Result<Option<u64>, EmFault>
    requires sound { Sound (seen D.state rig.old) }
    requires is { IsReader (seen D.state rig.old) reader.old }
    requires over { reader.old.taking ≡ false }
    requires count { (rest_of reader.old).count ≡ count }
    requires free { 0 < (seen D.state rig.old).pool.free }
    ensures done { LooksAll (owed reader.old) (seen D.state rig.old) (seen D.state rig.new)
        (λ answer. answer ≡ first_repeat None (reader_items (seen D.state rig.old) reader.old))
        result }
    ensures frame { ReaderHasFrame (seen D.state rig.new) reader.new }
{
    let mut before = None;
    for _ in 0..count {
        let item = next_record(rig, reader)?;
        if repeats(before, item) {
            return Ok(before);
        }
        before = Some(item.a);
    }
    Ok(None)
}
