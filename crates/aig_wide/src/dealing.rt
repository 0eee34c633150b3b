//! The words of a group's columns go back: they are read column by column, turned, and pushed step by step.

ghost use Rattle.std.specs.Prelude.{◌≡◌, ◌<◌, ◌≤◌, ◌+◌, ◌*◌, ◌^◌, IfErr, IfOk, IsTrue, OnOk};
ghost use Rattle.em_space.specs.Rig.{Sound};
ghost use Rattle.em_space.specs.Seen.{seen};
ghost use Rattle.em_chain.specs.Reader.{ReaderHasFrame};
ghost use Rattle.aig_sweep.specs.QueueState.{queue_state};
ghost use Rattle.aig_words.specs.Lines.{tiles};
ghost use Rattle.aig_wide.specs.Calls.{CanCall, Refused};
ghost use Rattle.aig_wide.specs.Deals.{CanDeal, CanDealChain, DealsAllTo, DealtTo, DealsTileTo, IsTaking, PutsRows, StandsBySteps, StopsTurning, TurnsList};

use crate::gathering::{size_of, tiles_of};
use aig_sweep::word_in;
use aig_words::Tile;
use em_chain::{Chain, Reader, discard};
use em_frames::Device;
use em_record::Record;
use em_space::{EmFault, Queue, Rig};

/// Reads the first `count` records of a list, and turns their words.
fn turn_columns<D: Device>(
    rig: &mut Rig<'_, D>,
    list: &mut Reader,
    count: u64,
) -> Result<Tile, EmFault>
    requires sound { Sound (seen D.state rig.old) }
    requires list { IsTaking (seen D.state rig.old) list.old }
    requires free { 0 < (seen D.state rig.old).pool.free }
    requires most { count ≤ 64 }
    requires enough { count ≤ list.old.count }
    ensures turns { IfOk result (TurnsList count (seen D.state rig.old) (seen D.state rig.new)
        list.old list.new) }
    ensures stops { IfErr result (StopsTurning (seen D.state rig.old) (seen D.state rig.new)
        list.old list.new) }
    ensures frame { ReaderHasFrame (seen D.state rig.new) list.new }
{
    let mut tile = Tile::new();
    for at in 0..count {
        let item = list.next(rig)?;
        tile.put(at, word_in(item));
    }
    Ok(tile)
}

/// Pushes the first `lines` rows of a tile as words of steps: the tile's number is `place` + 1.
fn push_rows<D: Device, Q: Queue>(
    rig: &mut Rig<'_, D>,
    queue: &mut Q,
    tile: &Tile,
    place: u64,
    lines: u64,
) -> Result<(), EmFault>
    requires is { Q.IsQueue queue.old (seen D.state rig.old) }
    requires can { CanCall lines lines (queue_state Q.Queue queue.old (seen D.state rig.old)) }
    requires few { place < 2 ^ 40 }
    requires most { lines ≤ 64 }
    requires rows { IsTrue (seen D.state rig.old).device.told
        → StandsBySteps place lines (Q.items queue.old (seen D.state rig.old)) }
    ensures frames { Q.HasItsFrames queue.new (seen D.state rig.new) }
    ensures queue { OnOk result (Q.IsQueue queue.new (seen D.state rig.new)) }
    ensures puts { OnOk result (PutsRows lines lines place tile.now
        (queue_state Q.Queue queue.old (seen D.state rig.old))
        (queue_state Q.Queue queue.new (seen D.state rig.new))) }
    ensures stops { IfErr result (Refused lines
        (queue_state Q.Queue queue.old (seen D.state rig.old))
        (queue_state Q.Queue queue.new (seen D.state rig.new))) }
{
    for row in 0..lines {
        let item = Record {
            a: row + 1,
            b: place + 1,
            c: tile.row(row),
            d: 0,
        };
        queue.push(rig, item)?;
    }
    Ok(())
}

/// Reads a tile of columns, turns it, and pushes the words of its steps.
fn deal_tile<D: Device, Q: Queue>(
    rig: &mut Rig<'_, D>,
    queue: &mut Q,
    list: &mut Reader,
    place: u64,
    size: u64,
    lines: u64,
) -> Result<(), EmFault>
    requires is { Q.IsQueue queue.old (seen D.state rig.old) }
    requires can { CanCall lines lines (queue_state Q.Queue queue.old (seen D.state rig.old)) }
    requires deal { CanDeal (queue_state Q.Queue queue.old (seen D.state rig.old)) list.old }
    requires few { place < 2 ^ 40 }
    requires most { lines ≤ 64 }
    requires size { size ≤ 64 }
    requires enough { size ≤ list.old.count }
    requires rows { IsTrue (seen D.state rig.old).device.told
        → StandsBySteps place lines (Q.items queue.old (seen D.state rig.old)) }
    ensures frames { Q.HasItsFrames queue.new (seen D.state rig.new) }
    ensures queue { OnOk result (Q.IsQueue queue.new (seen D.state rig.new)) }
    ensures deals { DealsTileTo size lines place
        (queue_state Q.Queue queue.old (seen D.state rig.old))
        (queue_state Q.Queue queue.new (seen D.state rig.new)) list.old list.new result }
{
    let tile = turn_columns(rig, list, size)?;
    push_rows(rig, queue, &tile, place, lines)?;
    Ok(())
}

/// Reads all columns, and pushes their words by steps.
fn deal_tiles<D: Device, Q: Queue>(
    rig: &mut Rig<'_, D>,
    queue: &mut Q,
    list: &mut Reader,
    columns: u64,
    lines: u64,
) -> Result<(), EmFault>
    requires is { Q.IsQueue queue.old (seen D.state rig.old) }
    requires can { CanCall (64 * tiles columns) (64 * tiles columns)
        (queue_state Q.Queue queue.old (seen D.state rig.old)) }
    requires deal { CanDeal (queue_state Q.Queue queue.old (seen D.state rig.old)) list.old }
    requires empty { (Q.counts queue.old).len ≡ 0 }
    requires few { columns ≤ 2 ^ 42 }
    requires most { lines ≤ 64 }
    requires count { list.old.count ≡ columns }
    ensures frames { Q.HasItsFrames queue.new (seen D.state rig.new) }
    ensures queue { OnOk result (Q.IsQueue queue.new (seen D.state rig.new)) }
    ensures deals { DealsAllTo columns lines
        (queue_state Q.Queue queue.old (seen D.state rig.old))
        (queue_state Q.Queue queue.new (seen D.state rig.new)) list.old list.new result }
{
    let count = tiles_of(columns);
    for place in 0..count {
        let size = size_of(columns, place);
        deal_tile(rig, queue, list, place, size, lines)?;
    }
    Ok(())
}

/// Takes a list of words of columns, and pushes the words of its steps.
pub(crate) fn deal<D: Device, Q: Queue>(
    rig: &mut Rig<'_, D>,
    queue: &mut Q,
    list: Chain,
    columns: u64,
    lines: u64,
) -> Result<(), EmFault>
    requires is { Q.IsQueue queue.old (seen D.state rig.old) }
    requires can { CanDealChain columns (queue_state Q.Queue queue.old (seen D.state rig.old)) list }
    requires empty { (Q.counts queue.old).len ≡ 0 }
    requires few { columns ≤ 2 ^ 42 }
    requires most { lines ≤ 64 }
    ensures frames { Q.HasItsFrames queue.new (seen D.state rig.new) }
    ensures queue { OnOk result (Q.IsQueue queue.new (seen D.state rig.new)) }
    ensures deals { DealtTo columns lines (queue_state Q.Queue queue.old (seen D.state rig.old))
        (queue_state Q.Queue queue.new (seen D.state rig.new)) list result }
{
    let mut taken = Reader::taking(rig, list);
    match deal_tiles(rig, queue, &mut taken, columns, lines) {
        Ok(()) => {
            let rest = taken.end(rig);
            discard(rig, rest)?;
            Ok(())
        }
        Err(fault) => {
            taken.abandon(rig);
            Err(fault)
        }
    }
}
