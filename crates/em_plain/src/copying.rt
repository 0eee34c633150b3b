//! A chain that was finished becomes the list of a writer again: its records are read and written anew,
//! as those of a queue are in a pop.
ghost use Rattle.std.specs.Prelude.{◌≡◌, ◌<◌, IfErr, OnOk};
ghost use Rattle.em_space.specs.Rig.{Cause, Goes, Sound};
ghost use Rattle.em_space.specs.Seen.{seen};
ghost use Rattle.em_chain.specs.Chain.{IsChain, chain_blocks};
ghost use Rattle.em_chain.specs.Effects.{OnFull};
ghost use Rattle.em_chain.specs.Parts.{IsPair};
ghost use Rattle.em_chain.specs.Reader.{ReaderHasFrame, rest_of};
ghost use Rattle.em_chain.specs.Writer.{CanGrow, WriterHasFrame};
ghost use Rattle.em_chain.specs.Writes.{Begins};
ghost use Rattle.em_plain.specs.Anew.{Copied, CopiesOne, WritesAnew};
ghost use Rattle.em_plain.specs.Least.{BeginsAnew, PassCosts};

use em_chain::{Chain, Reader, Writer};
use em_frames::Device;
use em_space::{EmFault, Rig};

/// Reads one record, and writes it.
fn copy_one<D: Device>(
    rig: &mut Rig<'_, D>,
    reader: &mut Reader,
    writer: &mut Writer,
) -> Result<(), EmFault>
    requires sound { Sound (seen D.state rig.old) }
    requires pair { IsPair (seen D.state rig.old) reader.old writer.old }
    requires some { 0 < (rest_of reader.old).count }
    requires room { CanGrow writer.old }
    requires free { 0 < (seen D.state rig.old).pool.free }
    ensures done { CopiesOne (seen D.state rig.old) (seen D.state rig.new)
        reader.old reader.new writer.old writer.new result }
    ensures reader { ReaderHasFrame (seen D.state rig.new) reader.new }
    ensures writer { WriterHasFrame (seen D.state rig.new) writer.new }
{
    let Some(item) = reader.next(rig)? else {
        unreachable!()
    };
    writer.append(rig, item)?;
    Ok(())
}

/// Reads all `count` records of a reader, and writes them.
fn copy_all<D: Device>(
    rig: &mut Rig<'_, D>,
    reader: &mut Reader,
    writer: &mut Writer,
    count: u64,
) -> Result<(), EmFault>
    requires sound { Sound (seen D.state rig.old) }
    requires begins { BeginsAnew (seen D.state rig.old) reader.old writer.old count }
    requires free { 0 < (seen D.state rig.old).pool.free }
    ensures goes { Goes (chain_blocks (seen D.state rig.old) (rest_of reader.old))
        (seen D.state rig.old) (seen D.state rig.new) }
    ensures reader { ReaderHasFrame (seen D.state rig.new) reader.new }
    ensures writer { WriterHasFrame (seen D.state rig.new) writer.new }
    ensures copied { OnOk result (Copied (seen D.state rig.old) (seen D.state rig.new)
        reader.old reader.new writer.old writer.new) }
    ensures costs { PassCosts (seen D.state rig.old) (seen D.state rig.new) }
    ensures full { IfErr result (λ fault.
        OnFull fault ((seen D.state rig.old).used ≡ (seen D.state rig.old).blocks)) }
    ensures cause { IfErr result (Cause (seen D.state rig.old) (seen D.state rig.new)) }
{
    for _ in 0..count {
        copy_one(rig, reader, writer)?;
    }
    Ok(())
}

/// Writes all of a chain into a writer that has no record. The chain's blocks are released.
pub(crate) fn write_anew<D: Device>(
    rig: &mut Rig<'_, D>,
    chain: Chain,
    writer: &mut Writer,
) -> Result<(), EmFault>
    requires sound { Sound (seen D.state rig.old) }
    requires is { IsChain (seen D.state rig.old) chain }
    requires begins { Begins (seen D.state rig.old) writer.old }
    requires none_left { chain.count ≡ 0 → chain.blocks ≡ 0 }
    requires free { 1 < (seen D.state rig.old).pool.free }
    ensures done { WritesAnew (seen D.state rig.old) (seen D.state rig.new)
        chain writer.new result }
{
    let count = chain.len();
    let mut reader = Reader::taking(rig, chain);
    let copied = copy_all(rig, &mut reader, writer, count);
    reader.abandon(rig);
    copied
}
