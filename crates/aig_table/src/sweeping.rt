//! A sweep over all edges by a table in an area, which goes back once the next bits are a list and the columns' bits
//! stand in a frame.
//!
//!     words [..] --load--> table --follow given, gates--> table --keep--> next [..]
//!                                                               --copy--> columns in a frame
//!
//! Kept here: the lists have no block in common, and the area is back at each exit.

ghost use Rattle.std.specs.Prelude.{◌≡◌, ◌<◌, ◌≤◌, ◌-◌, ◌*◌, Bool, ℕ, List, length, IfOk, IsTrue, OnOk};
ghost use Rattle.em_record.specs.declared.record.Record as declared;
ghost use Rattle.em_frames.specs.Pool.{load_of};
ghost use Rattle.em_space.specs.Seen.{seen};
ghost use Rattle.em_chain.specs.Chain.{chain_items};
ghost use Rattle.aig_defs.specs.Circuit.{columns};
ghost use Rattle.aig_sweep.specs.Bits.{bits_of};
ghost use Rattle.aig_sweep.specs.Spreads.{base_of};
ghost use Rattle.aig_words.specs.Words.{lane};
ghost use Rattle.aig_table.specs.Sweeps.{CanFill, FillsTo, HasEdgesOf, SweepsFor, SweepsTo};
ghost use Rattle.aig_table.specs.Tables.{IsTable, bits_at, ranks_of};

use crate::following::follow_list;
use crate::keeping::keep;
use crate::loading::load;
use crate::table::{begin, copy};
use aig_defs::Header;
use em_chain::Chain;
use em_frames::Device;
use em_record::Record;
use em_space::{EmFault, Rig};

/// A sweep in lane 0: takes a list of the words of inputs and latches, and gives the list of the latches' next bits.
/// The bits of the columns stand at the front of a row after it.
///
/// Three single frames and an area are free, and are back at each exit. At most one move is made for each block of the
/// edges, two for each of the words and of the new list, and one more. It is full only if the new list finds no block.
pub(crate) fn sweep<D: Device>(
    rig: &mut Rig<'_, D>,
    header: &Header,
    given: &Chain,
    gates: &Chain,
    words: Chain,
    row: &mut [Record],
) -> Result<Chain, EmFault>
    requires can { CanFill header.now given.now gates.now words
        (256 * load_of (seen D.state rig.old).pool.shape) (seen D.state rig.old) }
    requires areas { 0 < (seen D.state rig.old).pool.free_areas }
    requires to { columns header.now ≤ 256 * length row.old }
    ensures long { length row.new ≡ length row.old }
    ensures sweeps { SweepsTo header.now given.now gates.now words (seen D.state rig.old)
        (seen D.state rig.new) result }
    ensures values { IfOk result (λ next. IsTrue (seen D.state rig.old).device.told
        → SweepsFor header.now (chain_items (seen D.state rig.old) given.now)
        (chain_items (seen D.state rig.old) gates.now)
        (lane 0 (chain_items (seen D.state rig.old) words))
        (bits_of (lane 0 (chain_items (seen D.state rig.new) next)))
        (bits_at row.new 0 (columns header.now))) }
{
    let mut area = rig.lend_area();
    let done = sweep_by(rig, header, given, gates, words, area.records_mut(), row);
    rig.give_area(area);
    done
}

/// The same with an area for the table.
fn sweep_by<D: Device>(
    rig: &mut Rig<'_, D>,
    header: &Header,
    given: &Chain,
    gates: &Chain,
    words: Chain,
    table: &mut [Record],
    row: &mut [Record],
) -> Result<Chain, EmFault>
    requires can { CanFill header.now given.now gates.now words (256 * length table.old)
        (seen D.state rig.old) }
    requires to { columns header.now ≤ 256 * length row.old }
    ensures table { length table.new ≡ length table.old }
    ensures long { length row.new ≡ length row.old }
    ensures sweeps { SweepsTo header.now given.now gates.now words (seen D.state rig.old)
        (seen D.state rig.new) result }
    ensures values { IfOk result (λ next. IsTrue (seen D.state rig.old).device.told
        → SweepsFor header.now (chain_items (seen D.state rig.old) given.now)
        (chain_items (seen D.state rig.old) gates.now)
        (lane 0 (chain_items (seen D.state rig.old) words))
        (bits_of (lane 0 (chain_items (seen D.state rig.new) next)))
        (bits_at row.new 0 (columns header.now))) }
{
    let first = 1 + header.inputs + header.latches + header.gates;
    let count = header.outputs + header.bads + header.constraints;
    fill_table(rig, header, given, gates, words, table)?;
    copy(table, first + header.latches, count, row);
    keep(rig, table, first, header.latches)
}

/// Fills a table with the bits of all ranks.
fn fill_table<D: Device>(
    rig: &mut Rig<'_, D>,
    header: &Header,
    given: &Chain,
    gates: &Chain,
    words: Chain,
    table: &mut [Record],
) -> Result<(), EmFault>
    requires can { CanFill header.now given.now gates.now words (256 * length table.old)
        (seen D.state rig.old) }
    ensures long { length table.new ≡ length table.old }
    ensures fills { FillsTo given.now gates.now words (seen D.state rig.old)
        (seen D.state rig.new) result }
    ensures values { OnOk result (IsTrue (seen D.state rig.old).device.told
        → (value : ℕ → Bool) (all : List declared.Record)
        → HasEdgesOf value all header.now (chain_items (seen D.state rig.old) given.now)
        (chain_items (seen D.state rig.old) gates.now)
        (lane 0 (chain_items (seen D.state rig.old) words))
        → IsTable value (base_of header.now) (ranks_of header.now - 1) all table.new) }
{
    let first = 1 + header.inputs + header.latches + header.gates;
    let count = header.outputs + header.bads + header.constraints;
    let last = first + header.latches + count - 1;
    begin(table, last);
    load(rig, table, words)?;
    follow_list(rig, table, given, last)?;
    follow_list(rig, table, gates, last)
}
