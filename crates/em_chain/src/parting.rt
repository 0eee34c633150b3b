ghost use Rattle.std.specs.Prelude.{◌≡◌, ◌<◌, IfOk, IfErr, IsTrue};
ghost use Rattle.std.specs.List.Sorted.{IsSorted};
ghost use Rattle.em_space.specs.Rig.{Sound, Goes, Cause};
ghost use Rattle.em_space.specs.Seen.{seen};
ghost use Rattle.em_chain.specs.Chain.{IsChain, chain_blocks, chain_items};
ghost use Rattle.em_chain.specs.Effects.{Completes, OnFull};
ghost use Rattle.em_record.specs.Order.{record_cmp, is_below};
ghost use Rattle.em_chain.specs.Parts.{Parts, PartCosts, FullsPart, IsPair, BeginsPart, Steps, MovesAll};
ghost use Rattle.em_chain.specs.Reader.{ReaderHasFrame, rest_of};
ghost use Rattle.em_chain.specs.Writer.{WriterHasFrame, CanGrow};

use crate::chain::Chain;
use crate::reader::Reader;
use crate::writer::Writer;
use em_frames::Device;
use em_record::Record;
use em_space::{EmFault, Rig};

/// Cuts an ordered list at `low`: the records below it, in blocks that are written anew, and the
/// others, which stay in their blocks. `Full` comes only if all blocks are in use at the start; over a
/// device that tells, only if the first record is below `low` too, and then always, unless the device fails.
pub fn part_at<D: Device>(
    rig: &mut Rig<'_, D>,
    chain: Chain,
    low: Record,
) -> Result<(Chain, Chain), EmFault>
    requires sound { Sound (seen D.state rig.old) }
    requires is { IsChain (seen D.state rig.old) chain }
    requires ordered { IsTrue (seen D.state rig.old).device.told
        → IsSorted record_cmp (chain_items (seen D.state rig.old) chain) }
    requires free { 3 < (seen D.state rig.old).pool.free }
    ensures goes { Goes (chain_blocks (seen D.state rig.old) chain)
        (seen D.state rig.old) (seen D.state rig.new) }
    ensures parts { IfOk result (λ p.
        Parts (seen D.state rig.old) (seen D.state rig.new) chain low p.0 p.1) }
    ensures costs { PartCosts (seen D.state rig.old) (seen D.state rig.new) chain.blocks }
    ensures full { IfErr result (λ fault.
        OnFull fault ((seen D.state rig.old).used ≡ (seen D.state rig.old).blocks)) }
    ensures full_exact { FullsPart (seen D.state rig.old) (seen D.state rig.new) chain low result }
    ensures complete { (seen D.state rig.old).used < (seen D.state rig.old).blocks
        → Completes (seen D.state rig.old) (seen D.state rig.new) result }
    ensures cause { IfErr result (Cause (seen D.state rig.old) (seen D.state rig.new)) }
{
    let mut reader = Reader::taking(rig, chain);
    let mut writer = Writer::new(rig);
    match move_below(rig, &mut reader, &mut writer, low) {
        Ok(()) => {
            let rest = reader.end(rig);
            let first = writer.finish(rig)?;
            Ok((first, rest))
        }
        Err(fault) => {
            reader.abandon(rig);
            writer.abandon(rig);
            Err(fault)
        }
    }
}

/// Moves records from a reader to a writer, up to the first one that isn't below `low`.
fn move_below<D: Device>(
    rig: &mut Rig<'_, D>,
    reader: &mut Reader,
    writer: &mut Writer,
    low: Record,
) -> Result<(), EmFault>
    requires sound { Sound (seen D.state rig.old) }
    requires begins { BeginsPart (seen D.state rig.old) reader.old writer.old }
    requires free { 0 < (seen D.state rig.old).pool.free }
    ensures done { MovesAll (seen D.state rig.old) (seen D.state rig.new) low
        reader.old reader.new writer.old writer.new result }
    ensures reader { ReaderHasFrame (seen D.state rig.new) reader.new }
    ensures writer { WriterHasFrame (seen D.state rig.new) writer.new }
{
    for _ in 0..reader.left() {
        if !move_one(rig, reader, writer, low)? {
            return Ok(());
        }
    }
    Ok(())
}

/// Moves the next record, if it is below `low`.
fn move_one<D: Device>(
    rig: &mut Rig<'_, D>,
    reader: &mut Reader,
    writer: &mut Writer,
    low: Record,
) -> Result<bool, EmFault>
    requires sound { Sound (seen D.state rig.old) }
    requires pair { IsPair (seen D.state rig.old) reader.old writer.old }
    requires some { 0 < (rest_of reader.old).count }
    requires room { CanGrow writer.old }
    requires free { 0 < (seen D.state rig.old).pool.free }
    ensures done { Steps (seen D.state rig.old) (seen D.state rig.new) low
        reader.old reader.new writer.old writer.new result }
    ensures reader { ReaderHasFrame (seen D.state rig.new) reader.new }
    ensures writer { WriterHasFrame (seen D.state rig.new) writer.new }
{
    let item = reader.peek(rig)?;
    if !is_below(item, low) {
        return Ok(false);
    }
    writer.append(rig, item)?;
    let _taken = reader.next(rig)?;
    Ok(true)
}

/// Whether the first record is below the second, by a, then b, then c, then d.
fn is_below(item: Record, low: Record) -> bool
    ensures { result ≡ is_below item low }
{
    item < low
}
