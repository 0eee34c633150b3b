//! What a run finds: notes of its calls, and the records of the list that it ends with.
ghost use Rattle.std.specs.Prelude.{◌≡◌, ◌<◌, ◌≤◌, ◌^◌, false, length};
ghost use Rattle.em_space.specs.Rig.{Goes, Sound};
ghost use Rattle.em_space.specs.Seen.{seen};
ghost use Rattle.em_chain.specs.Chain.{IsChain, chain_blocks};
ghost use Rattle.em_chain.specs.Reader.{IsReader, ReaderHasFrame, reader_blocks};

use em_chain::{Chain, Reader};
use em_frames::Device;
use em_record::Record;
use em_space::{EmFault, Rig};

/// Whether these are more calls than the runs are meant for.
pub fn is_long(calls: &[Record]) -> bool
    ensures { result ≡ false → length calls.now ≤ 2 ^ 20 }
{
    calls.len() > 1_000_000
}

/// Notes two numbers, and the first `count` of some records. With no memory left it notes nothing more, which a test
/// sees.
pub fn note(found: &mut Vec<Record>, told: (u64, u64), records: &[Record], count: usize) {
    let head = Record {
        a: told.0,
        b: told.1,
        c: 0,
        d: 0,
    };
    if found.push(head).is_err() {
        return;
    }
    for record in &records[..count.min(records.len())] {
        if found.push(*record).is_err() {
            return;
        }
    }
}

/// Notes this many records that a reader gives.
fn read_each<D: Device>(
    rig: &mut Rig<'_, D>,
    reader: &mut Reader,
    count: u64,
    found: &mut Vec<Record>,
) -> Result<(), EmFault>
    requires sound { Sound (seen D.state rig.old) }
    requires is { IsReader (seen D.state rig.old) reader.old }
    requires free { 0 < (seen D.state rig.old).pool.free }
    ensures goes { Goes (reader_blocks (seen D.state rig.old) reader.old)
        (seen D.state rig.old) (seen D.state rig.new) }
    ensures frame { ReaderHasFrame (seen D.state rig.new) reader.new }
{
    for _ in 0..count {
        let Some(item) = reader.next(rig)? else {
            return Ok(());
        };
        if found.push(item).is_err() {
            return Ok(());
        }
    }
    Ok(())
}

/// Notes the blocks in use and the length of a list, and then its records. Each block is released after its last one.
pub fn read_all<D: Device>(
    rig: &mut Rig<'_, D>,
    chain: Chain,
    found: &mut Vec<Record>,
) -> Result<(), EmFault>
    requires sound { Sound (seen D.state rig.old) }
    requires is { IsChain (seen D.state rig.old) chain }
    requires free { 1 < (seen D.state rig.old).pool.free }
    ensures goes { Goes (chain_blocks (seen D.state rig.old) chain)
        (seen D.state rig.old) (seen D.state rig.new) }
{
    let count = chain.len();
    note(found, (rig.used(), count), &[], 0);
    let mut reader = Reader::taking(rig, chain);
    let read = read_each(rig, &mut reader, count, found);
    reader.abandon(rig);
    read
}
