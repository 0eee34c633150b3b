//! The words of inputs and latches are taken, and become the first bits of a table after the constant's.

ghost use Rattle.std.specs.Prelude.{◌≡◌, ◌<◌, ◌+◌, ◌*◌, ◌^◌, length, true};
ghost use Rattle.em_space.specs.Rig.{Sound};
ghost use Rattle.em_space.specs.Seen.{seen};
ghost use Rattle.em_chain.specs.Chain.{IsChain};
ghost use Rattle.em_chain.specs.Reader.{IsReader, ReaderHasFrame};
ghost use Rattle.aig_words.specs.Words.{says};
ghost use Rattle.aig_table.specs.Loads.{LoadsListTo, LoadsTo};

use em_bits::and_in;
use em_chain::{Chain, Reader, discard};
use em_frames::Device;
use em_record::Record;
use em_space::{EmFault, Rig};

/// Takes a list of words, whose bits in lane 0 become those of the ranks from 1 on. Its blocks are released, by two
/// moves for each. A fault is never `Full`.
pub(crate) fn load<D: Device>(
    rig: &mut Rig<'_, D>,
    table: &mut [Record],
    words: Chain,
) -> Result<(), EmFault>
    requires sound { Sound (seen D.state rig.old) }
    requires is { IsChain (seen D.state rig.old) words }
    requires within { words.count < 256 * length table.old }
    requires free { 1 < (seen D.state rig.old).pool.free }
    ensures long { length table.new ≡ length table.old }
    ensures loads { LoadsListTo (seen D.state rig.old) (seen D.state rig.new) words
        table.old table.new result }
{
    let count = words.len();
    let mut reader = Reader::taking(rig, words);
    match load_all(rig, table, &mut reader, count) {
        Ok(()) => {
            let rest = reader.end(rig);
            discard(rig, rest)
        }
        Err(fault) => {
            reader.abandon(rig);
            Err(fault)
        }
    }
}

/// Reads the `count` words that a reader has left.
fn load_all<D: Device>(
    rig: &mut Rig<'_, D>,
    table: &mut [Record],
    reader: &mut Reader,
    count: u64,
) -> Result<(), EmFault>
    requires sound { Sound (seen D.state rig.old) }
    requires is { IsReader (seen D.state rig.old) reader.old }
    requires taking { reader.old.taking ≡ true }
    requires count { reader.old.count ≡ count }
    requires within { count < 256 * length table.old }
    requires free { 0 < (seen D.state rig.old).pool.free }
    ensures frame { ReaderHasFrame (seen D.state rig.new) reader.new }
    ensures long { length table.new ≡ length table.old }
    ensures loads { LoadsTo 0 count (seen D.state rig.old) (seen D.state rig.new)
        reader.old reader.new table.old table.new result }
{
    for number in 0..count {
        load_next(rig, table, reader, number)?;
    }
    Ok(())
}

/// Reads the word of the rank after `from`, and joins its bit to that of the rank.
fn load_next<D: Device>(
    rig: &mut Rig<'_, D>,
    table: &mut [Record],
    reader: &mut Reader,
    from: u64,
) -> Result<(), EmFault>
    requires sound { Sound (seen D.state rig.old) }
    requires is { IsReader (seen D.state rig.old) reader.old }
    requires taking { reader.old.taking ≡ true }
    requires some { 0 < reader.old.count }
    requires within { from + 1 < 256 * length table.old }
    requires few { from < 2 ^ 60 }
    requires free { 0 < (seen D.state rig.old).pool.free }
    ensures frame { ReaderHasFrame (seen D.state rig.new) reader.new }
    ensures long { length table.new ≡ length table.old }
    ensures loads { LoadsTo from 1 (seen D.state rig.old) (seen D.state rig.new)
        reader.old reader.new table.old table.new result }
{
    let Some(item) = reader.next(rig)? else {
        unreachable!()
    };
    and_in(table, from + 1, low_bit(item));
    Ok(())
}

/// Whether a word says 1 in lane 0.
fn low_bit(item: Record) -> bool
    ensures is { result ≡ says 0 item.c }
{
    item.c & 1 == 1
}
