//! Lists that are written from some records, or compared with them.
ghost use Rattle.std.specs.Prelude.{◌≡◌, ◌<◌, ◌≤◌, ◌+◌, ◌^◌, ◌++◌, length, [], OnOk, IfOk, IsTrue};
ghost use Rattle.em_space.specs.Held.{Within};
ghost use Rattle.em_space.specs.Rig.{Goes, Sound};
ghost use Rattle.em_space.specs.Seen.{seen};
ghost use Rattle.em_chain.specs.Chain.{IsChain, chain_blocks, chain_items};
ghost use Rattle.em_chain.specs.Reader.{IsReader, ReaderHasFrame, reader_blocks};
ghost use Rattle.em_chain.specs.View.{IsView};
ghost use Rattle.em_chain.specs.Writer.{IsWriter, WriterHasFrame, writer_blocks, writer_items};

use em_chain::{Chain, Reader, Writer};
use em_frames::Device;
use em_record::Record;
use em_space::{EmFault, Rig};

/// Appends some records, one after another.
fn append_all<D: Device>(
    rig: &mut Rig<'_, D>,
    writer: &mut Writer,
    records: &[Record],
) -> Result<(), EmFault>
    requires sound { Sound (seen D.state rig.old) }
    requires is { IsWriter (seen D.state rig.old) writer.old }
    requires free { 0 < (seen D.state rig.old).pool.free }
    requires count { writer.old.count ≤ 2 ^ 20 }
    requires blocks { writer.old.blocks ≤ 2 ^ 20 }
    requires few { length records.now ≤ 2 ^ 20 }
    ensures goes { Goes (writer_blocks (seen D.state rig.old) writer.old)
        (seen D.state rig.old) (seen D.state rig.new) }
    ensures frame { WriterHasFrame (seen D.state rig.new) writer.new }
    ensures is { OnOk result (IsWriter (seen D.state rig.new) writer.new) }
    ensures within { OnOk result (Within (seen D.state rig.old)
        (writer_blocks (seen D.state rig.old) writer.old)
        (writer_blocks (seen D.state rig.new) writer.new)) }
    ensures count { OnOk result (writer.new.count ≡ writer.old.count + length records.now) }
    ensures blocks { OnOk result (writer.new.blocks ≤ writer.old.blocks + length records.now) }
    ensures items { OnOk result (IsTrue (seen D.state rig.old).device.told
        → writer_items (seen D.state rig.new) writer.new
        ≡ writer_items (seen D.state rig.old) writer.old ++ records.now) }
{
    for record in records {
        writer.append(rig, *record)?;
    }
    Ok(())
}

/// A new list of some records.
pub fn write<D: Device>(rig: &mut Rig<'_, D>, records: &[Record]) -> Result<Chain, EmFault>
    requires sound { Sound (seen D.state rig.old) }
    requires free { 1 < (seen D.state rig.old).pool.free }
    requires few { length records.now ≤ 2 ^ 20 }
    ensures goes { Goes [] (seen D.state rig.old) (seen D.state rig.new) }
    ensures is { IfOk result (IsChain (seen D.state rig.new)) }
    ensures fresh { IfOk result (λ chain.
        Within (seen D.state rig.old) [] (chain_blocks (seen D.state rig.new) chain)) }
    ensures items { IsTrue (seen D.state rig.old).device.told → IfOk result (λ chain.
        chain_items (seen D.state rig.new) chain ≡ records.now) }
    ensures count { IfOk result (λ chain. chain.count ≡ length records.now) }
    ensures blocks { IfOk result (λ chain. chain.blocks ≤ length records.now) }
{
    let mut writer = Writer::new(rig);
    if let Err(fault) = append_all(rig, &mut writer, records) {
        writer.abandon(rig);
        return Err(fault);
    }
    writer.finish(rig)
}

/// A list with some records more at its end.
pub fn extend<D: Device>(
    rig: &mut Rig<'_, D>,
    chain: Chain,
    records: &[Record],
) -> Result<Chain, EmFault>
    requires sound { Sound (seen D.state rig.old) }
    requires is { IsChain (seen D.state rig.old) chain }
    requires free { 1 < (seen D.state rig.old).pool.free }
    requires count { chain.count ≤ 2 ^ 20 }
    requires blocks { chain.blocks ≤ 2 ^ 20 }
    requires few { length records.now ≤ 2 ^ 20 }
    ensures goes { Goes (chain_blocks (seen D.state rig.old) chain)
        (seen D.state rig.old) (seen D.state rig.new) }
    ensures is { IfOk result (IsChain (seen D.state rig.new)) }
{
    let mut writer = Writer::resume(rig, chain)?;
    if let Err(fault) = append_all(rig, &mut writer, records) {
        writer.abandon(rig);
        return Err(fault);
    }
    writer.finish(rig)
}

/// Whether a reader gives exactly these records.
fn reads<D: Device>(
    rig: &mut Rig<'_, D>,
    reader: &mut Reader,
    records: &[Record],
) -> Result<bool, EmFault>
    requires sound { Sound (seen D.state rig.old) }
    requires is { IsReader (seen D.state rig.old) reader.old }
    requires free { 0 < (seen D.state rig.old).pool.free }
    ensures goes { Goes (reader_blocks (seen D.state rig.old) reader.old)
        (seen D.state rig.old) (seen D.state rig.new) }
    ensures frame { ReaderHasFrame (seen D.state rig.new) reader.new }
{
    for record in records {
        let Some(item) = reader.next(rig)? else {
            return Ok(false);
        };
        if item != *record {
            return Ok(false);
        }
    }
    Ok(reader.next(rig)?.is_none())
}

/// Whether a list, or what is stored of one, has exactly these records. It keeps its blocks.
pub fn scans<D: Device>(
    rig: &mut Rig<'_, D>,
    chain: &Chain,
    records: &[Record],
) -> Result<bool, EmFault>
    requires sound { Sound (seen D.state rig.old) }
    requires is { IsView (seen D.state rig.old) chain.now }
    requires free { 1 < (seen D.state rig.old).pool.free }
    ensures goes { Goes [] (seen D.state rig.old) (seen D.state rig.new) }
{
    let mut reader = Reader::over(rig, chain);
    let same = reads(rig, &mut reader, records);
    reader.abandon(rig);
    same
}

/// Whether a list has exactly these records. Each block is released after its last one.
pub fn takes<D: Device>(
    rig: &mut Rig<'_, D>,
    chain: Chain,
    records: &[Record],
) -> Result<bool, EmFault>
    requires sound { Sound (seen D.state rig.old) }
    requires is { IsChain (seen D.state rig.old) chain }
    requires free { 1 < (seen D.state rig.old).pool.free }
    ensures goes { Goes (chain_blocks (seen D.state rig.old) chain)
        (seen D.state rig.old) (seen D.state rig.new) }
{
    let mut reader = Reader::taking(rig, chain);
    let same = reads(rig, &mut reader, records);
    reader.abandon(rig);
    same
}
