//! The input words of a group become a list: tile by tile they leave the queue step by step, are turned,
//! and are written input by input.

ghost use Rattle.std.specs.Prelude.{◌≡◌, ◌<◌, ◌≤◌, ◌+◌, ◌-◌, ◌*◌, ◌^◌, ◌++◌, min, OnOk};
ghost use Rattle.em_frames.specs.Pool.{singles_of};
ghost use Rattle.em_space.specs.Rig.{Sound};
ghost use Rattle.em_space.specs.Seen.{seen};
ghost use Rattle.em_chain.specs.Writer.{IsWriter, WriterHasFrame};
ghost use Rattle.em_queued.specs.Popped.{HasRoom};
ghost use Rattle.aig_sweep.specs.QueueState.{queue_state};
ghost use Rattle.aig_wide.specs.Calls.{CanCall};
ghost use Rattle.aig_wide.specs.Fills.{CanFill, GathersTileTo, WritesListTo, row_list};
ghost use Rattle.aig_wide.specs.Gathers.{CanGather, GathersAllTo, GathersTo, words_left};
ghost use Rattle.aig_words.specs.Lines.{tiles};

use crate::turning::turn_words;
use aig_words::Tile;
use em_chain::{Chain, Writer};
use em_frames::Device;
use em_record::Record;
use em_space::{EmFault, Queue, Rig};

/// Appends the first `count` rows of a tile to a list.
fn write_rows<D: Device>(
    rig: &mut Rig<'_, D>,
    list: &mut Writer,
    tile: &Tile,
    count: u64,
) -> Result<(), EmFault>
    requires sound { Sound (seen D.state rig.old) }
    requires list { IsWriter (seen D.state rig.old) list.old }
    requires free { 0 < (seen D.state rig.old).pool.free }
    requires most { count ≤ 64 }
    requires room { HasRoom count list.old }
    ensures writes { WritesListTo count (row_list count tile.now) (seen D.state rig.old)
        (seen D.state rig.new) list.old list.new result }
    ensures frame { WriterHasFrame (seen D.state rig.new) list.new }
{
    for row in 0..count {
        let item = Record {
            a: 0,
            b: 0,
            c: tile.row(row),
            d: 0,
        };
        list.append(rig, item)?;
    }
    Ok(())
}

/// Takes the first `count` words out, turns them, and appends the first `size` rows to a list.
fn gather_tile<D: Device, Q: Queue>(
    rig: &mut Rig<'_, D>,
    queue: &mut Q,
    list: &mut Writer,
    count: u64,
    size: u64,
) -> Result<(), EmFault>
    requires is { Q.IsQueue queue.old (seen D.state rig.old) }
    requires can { CanCall count 0 (queue_state Q.Queue queue.old (seen D.state rig.old)) }
    requires fill { CanFill (queue_state Q.Queue queue.old (seen D.state rig.old)) list.old }
    requires words { count ≤ 64 }
    requires rows { size ≤ 64 }
    requires enough { count ≤ (Q.counts queue.old).len }
    requires room { HasRoom size list.old }
    ensures frames { Q.HasItsFrames queue.new (seen D.state rig.new) }
    ensures queue { OnOk result (Q.IsQueue queue.new (seen D.state rig.new)) }
    ensures gathers { GathersTileTo count size
        (queue_state Q.Queue queue.old (seen D.state rig.old))
        (queue_state Q.Queue queue.new (seen D.state rig.new)) list.old list.new result }
    ensures frame { (seen D.state rig.old).pool.free + (Q.counts queue.old).frames + 1
        ≤ singles_of (seen D.state rig.old).pool.shape
        → WriterHasFrame (seen D.state rig.new) list.new }
{
    let tile = turn_words(rig, queue, count)?;
    write_rows(rig, list, &tile, size)
}

/// How many words a line of n bits has.
pub(crate) fn tiles_of(bits: u64) -> u64
    requires few { bits ≤ 2 ^ 42 }
    ensures { result ≡ tiles bits }
{
    (bits + 63) / 64
}

/// How many of these bits stand in the tile at this place.
pub(crate) fn size_of(bits: u64, place: u64) -> u64
    requires place { place ≤ 2 ^ 40 }
    ensures is { result ≡ min (bits - 64 * place) 64 }
{
    bits.saturating_sub(64 * place).min(64)
}

/// Takes all words out, tile by tile, and appends a word for each input to a list. Each tile has a word
/// for each line, and each of the first `part` tiles has one more.
fn gather_tiles<D: Device, Q: Queue>(
    rig: &mut Rig<'_, D>,
    queue: &mut Q,
    list: &mut Writer,
    inputs: u64,
    lines: u64,
    part: u64,
) -> Result<(), EmFault>
    requires is { Q.IsQueue queue.old (seen D.state rig.old) }
    requires can { CanCall (Q.counts queue.old).len 0
        (queue_state Q.Queue queue.old (seen D.state rig.old)) }
    requires fill { CanFill (queue_state Q.Queue queue.old (seen D.state rig.old)) list.old }
    requires few { inputs ≤ 2 ^ 40 }
    requires most { lines + min part 1 ≤ 64 }
    requires len { (Q.counts queue.old).len ≡ words_left lines part (tiles inputs) }
    requires room { HasRoom inputs list.old }
    ensures frames { Q.HasItsFrames queue.new (seen D.state rig.new) }
    ensures queue { OnOk result (Q.IsQueue queue.new (seen D.state rig.new)) }
    ensures gathers { GathersAllTo inputs lines part
        (queue_state Q.Queue queue.old (seen D.state rig.old))
        (queue_state Q.Queue queue.new (seen D.state rig.new)) list.old list.new result }
    ensures frame { (seen D.state rig.old).pool.free + (Q.counts queue.old).frames + 1
        ≤ singles_of (seen D.state rig.old).pool.shape
        → WriterHasFrame (seen D.state rig.new) list.new }
{
    let count = tiles_of(inputs);
    for place in 0..count {
        let words = lines + part.saturating_sub(place).min(1);
        gather_tile(rig, queue, list, words, size_of(inputs, place))?;
    }
    Ok(())
}

/// All words of a group as a list, with a word for each input.
pub(crate) fn gather<D: Device, Q: Queue>(
    rig: &mut Rig<'_, D>,
    queue: &mut Q,
    inputs: u64,
    lines: u64,
    part: u64,
) -> Result<Chain, EmFault>
    requires is { Q.IsQueue queue.old (seen D.state rig.old) }
    requires can { CanGather (queue_state Q.Queue queue.old (seen D.state rig.old)) }
    requires few { inputs ≤ 2 ^ 40 }
    requires most { lines + min part 1 ≤ 64 }
    requires len { (Q.counts queue.old).len ≡ words_left lines part (tiles inputs) }
    ensures frames { Q.HasItsFrames queue.new (seen D.state rig.new) }
    ensures queue { OnOk result (Q.IsQueue queue.new (seen D.state rig.new)) }
    ensures gathers { GathersTo inputs lines part
        (queue_state Q.Queue queue.old (seen D.state rig.old))
        (queue_state Q.Queue queue.new (seen D.state rig.new)) result }
{
    let mut list = Writer::new(rig);
    match gather_tiles(rig, queue, &mut list, inputs, lines, part) {
        Ok(()) => {
            let chain = list.finish(rig)?;
            Ok(chain)
        }
        Err(fault) => {
            list.abandon(rig);
            Err(fault)
        }
    }
}
