//! Bits of a table become a list: of the latches' next words.

ghost use Rattle.std.specs.Prelude.{◌≡◌, ◌<◌, ◌≤◌, ◌+◌, ◌*◌, ◌^◌, length};
ghost use Rattle.em_space.specs.Rig.{Sound};
ghost use Rattle.em_space.specs.Seen.{seen};
ghost use Rattle.em_chain.specs.Writer.{WriterHasFrame};
ghost use Rattle.aig_table.specs.Keeps.{CanKeep, KeepsBitsTo, KeepsListTo, bit_record};
ghost use Rattle.aig_table.specs.Tables.{bits_at};

use em_bits::get;
use em_chain::{Chain, Writer};
use em_frames::Device;
use em_record::Record;
use em_space::{EmFault, Rig};

/// A packed list of the bits of this many ranks from `first` on, a record (0, 0, bit, 0) each. Beside reading it makes
/// at most two moves for each of its blocks, and one more. After a fault its blocks stay in use.
pub(crate) fn keep<D: Device>(
    rig: &mut Rig<'_, D>,
    table: &[Record],
    first: u64,
    count: u64,
) -> Result<Chain, EmFault>
    requires sound { Sound (seen D.state rig.old) }
    requires few { first + count ≤ 2 ^ 43 }
    requires within { first + count ≤ 256 * length table.now }
    requires free { 1 < (seen D.state rig.old).pool.free }
    ensures keeps { KeepsListTo (seen D.state rig.old) (seen D.state rig.new)
        (bits_at table.now first count) result }
{
    let mut list = Writer::new(rig);
    match keep_all(rig, table, &mut list, first, count) {
        Ok(()) => list.finish(rig),
        Err(fault) => {
            list.abandon(rig);
            Err(fault)
        }
    }
}

/// Adds the bits of this many ranks to a list.
fn keep_all<D: Device>(
    rig: &mut Rig<'_, D>,
    table: &[Record],
    list: &mut Writer,
    first: u64,
    count: u64,
) -> Result<(), EmFault>
    requires sound { Sound (seen D.state rig.old) }
    requires few { first + count ≤ 2 ^ 43 }
    requires within { first + count ≤ 256 * length table.now }
    requires can { CanKeep count (seen D.state rig.old) list.old }
    ensures frame { WriterHasFrame (seen D.state rig.new) list.new }
    ensures keeps { KeepsBitsTo count (seen D.state rig.old) (seen D.state rig.new) list.old list.new
        (bits_at table.now first count) result }
{
    for number in 0..count {
        let bit = get(table, first + number);
        list.append(rig, bit_record(bit))?;
    }
    Ok(())
}

/// The record of a bit.
fn bit_record(bit: bool) -> Record
    ensures is { result ≡ bit_record bit }
{
    Record {
        a: 0,
        b: 0,
        c: bit as u64,
        d: 0,
    }
}
