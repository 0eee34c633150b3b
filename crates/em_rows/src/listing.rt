// A text of pairs read into a list.
ghost use Rattle.std.specs.Prelude.{◌≡◌, ◌<◌, ◌≤◌, ◌∷◌, true, [], IfErr, IfOk, IsTrue, OnOk};
ghost use Rattle.em_io.specs.Feed.{rest};
ghost use Rattle.em_space.specs.Rig.{Goes, Sound};
ghost use Rattle.em_space.specs.Seen.{seen};
ghost use Rattle.em_chain.specs.Writer.{WriterHasFrame};
ghost use Rattle.em_chain.specs.Writes.{Begins};
ghost use Rattle.em_lines.specs.Reads.{Reads};
ghost use Rattle.em_rows.specs.Lists.{ListsRows, ListsWithin, numbered_pairs};
ghost use Rattle.em_rows.specs.Taken.{IsRow, ReadsRows, RowsCause};
ghost use Rattle.em_rows.specs.Writing.{WritesRows, WritesWithin};
ghost use Rattle.em_rows.specs.declared.kinds.RowKind.TheVariants.{Pair};

use crate::kinds::RowKind;
use crate::row::take_row;
use em_chain::{Chain, Writer};
use em_ends::Stop;
use em_frames::Device;
use em_io::{Feed, Shelf};
use em_lines::LineStop;
use em_model::Command;
use em_record::Record;
use em_space::Rig;

/// Writes all pairs of a text into a list that has none.
fn write_rows<D: Device, H: Shelf>(
    rig: &mut Rig<'_, D>,
    writer: &mut Writer,
    feed: &mut Feed,
    shelf: &mut H,
) -> Result<(), Stop>
    requires sound { Sound (seen D.state rig.old) }
    requires begins { Begins (seen D.state rig.old) writer.old }
    requires free { 0 < (seen D.state rig.old).pool.free }
    requires ready { ((H.stand shelf.old).slot feed.old.slot).ready ≡ true }
    requires place { feed.old.place ≡ 0 }
    ensures goes { Goes [] (seen D.state rig.old) (seen D.state rig.new) }
    ensures frame { WriterHasFrame (seen D.state rig.new) writer.new }
    ensures writes { OnOk result (WritesRows H.tells (rest feed.old (H.stand shelf.old))
        (seen D.state rig.old) (seen D.state rig.new) writer.new) }
    ensures reads { Reads H.tells feed.old (H.stand shelf.old) feed.new (H.stand shelf.new) }
    ensures later { H.faults shelf.old ≤ H.faults shelf.new }
    ensures whole { IsTrue H.tells → OnOk result (ReadsRows Pair
        (rest feed.old (H.stand shelf.old)) (rest feed.new (H.stand shelf.new))) }
    ensures stop { IfErr result (RowsCause H.tells Pair (rest feed.old (H.stand shelf.old))
        (H.faults shelf.old) (H.faults shelf.new) (seen D.state rig.old) (seen D.state rig.new)) }
    ensures moves { WritesWithin H.tells (rest feed.old (H.stand shelf.old))
        (seen D.state rig.old) (seen D.state rig.new) }
{
    let mut number: u64 = 0;
    loop {
        let next = match take_row(RowKind::Pair, feed, shelf, number + 1) {
            Ok(next) => next,
            Err(LineStop::Read) => return Err(Stop::Read),
            Err(LineStop::Fault(fault)) => return Err(Stop::at_line(fault, number + 1)),
        };
        let Some(row) = next else {
            return Ok(());
        };
        writer.append(rig, numbered(row, number))?;
        number += 1;
    }
}

/// The record of a pair that has this number.
fn numbered(row: Command, number: u64) -> Record
    requires is { IsRow Pair row }
    ensures is { numbered_pairs number (row ∷ []) ≡ result ∷ [] }
{
    match row {
        Command::Push { key, value } => Record {
            a: key,
            b: number,
            c: value,
            d: 0,
        },
        _ => unreachable!(),
    }
}

/// Reads a text of pairs `K V` to its end into a list: the key in `a`, the number of the line, from 0, in `b`, and the value in
/// `c`. Two frames must be free, and the feed must stand at the begin of an open slot. `Fault` is the first faulty
/// line, `Read` comes if the shelf failed, and `Em` if the rig did; then the blocks that were written stay in use.
/// For n pairs in q blocks it moves at most 2q + 1 blocks.
pub fn list_rows<D: Device, H: Shelf>(
    rig: &mut Rig<'_, D>,
    feed: &mut Feed,
    shelf: &mut H,
) -> Result<Chain, Stop>
    requires sound { Sound (seen D.state rig.old) }
    requires free { 1 < (seen D.state rig.old).pool.free }
    requires ready { ((H.stand shelf.old).slot feed.old.slot).ready ≡ true }
    requires place { feed.old.place ≡ 0 }
    ensures goes { Goes [] (seen D.state rig.old) (seen D.state rig.new) }
    ensures lists { IfOk result (ListsRows H.tells (rest feed.old (H.stand shelf.old))
        (seen D.state rig.old) (seen D.state rig.new)) }
    ensures reads { Reads H.tells feed.old (H.stand shelf.old) feed.new (H.stand shelf.new) }
    ensures later { H.faults shelf.old ≤ H.faults shelf.new }
    ensures whole { IsTrue H.tells → OnOk result (ReadsRows Pair
        (rest feed.old (H.stand shelf.old)) (rest feed.new (H.stand shelf.new))) }
    ensures stop { IfErr result (RowsCause H.tells Pair (rest feed.old (H.stand shelf.old))
        (H.faults shelf.old) (H.faults shelf.new) (seen D.state rig.old) (seen D.state rig.new)) }
    ensures moves { ListsWithin H.tells (rest feed.old (H.stand shelf.old))
        (seen D.state rig.old) (seen D.state rig.new) }
{
    let mut writer = Writer::new(rig);
    if let Err(stop) = write_rows(rig, &mut writer, feed, shelf) {
        writer.abandon(rig);
        return Err(stop);
    }
    match writer.finish(rig) {
        Ok(list) => Ok(list),
        Err(fault) => Err(Stop::Em(fault)),
    }
}
