//! The second sweep of a pass by bits: a list is read and released, and written anew. Edges that rise join their
//! notes, and gates take theirs.
//!
//!     list   [.. gate 3, edge 3-6 ..]   gate 3 has its bit by now, and edge 3-6 joins its note to that of 6
//!     writer -> [.. gate 3 with its rank, edge 3-6]
//!
//! Kept here: a block of the list is released once its last record was read, and what is written has no gap.

ghost use Rattle.std.specs.Prelude.{◌≡◌, ◌<◌, ◌*◌, length};
ghost use Rattle.em_space.specs.Seen.{seen};
ghost use Rattle.em_chain.specs.Reader.{ReaderHasFrame};
ghost use Rattle.em_chain.specs.Writer.{WriterHasFrame};
ghost use Rattle.aig_edges.specs.Copies.{AreCopied, CanWriteAnew};
ghost use Rattle.aig_order.specs.Rewrites.{RewritesNext, RewritesTo};

use crate::marking::{join_note, taken_note};
use crate::standing::{Standing, Sweep, found_anew, standing_after};
use em_chain::{Chain, Reader, Writer, discard};
use em_frames::Device;
use em_record::Record;
use em_space::{EmFault, Rig};

/// Reads the next record, and writes it as it is after the pass.
fn rewrite_next<D: Device>(
    rig: &mut Rig<'_, D>,
    row: &mut [Record],
    reader: &mut Reader,
    writer: &mut Writer,
    standing: &mut Standing,
    last: u64,
) -> Result<(), EmFault>
    requires are { AreCopied (seen D.state rig.old) reader.old writer.old }
    requires some { 0 < reader.old.count }
    requires within { last < 256 * length row.old }
    ensures long { length row.new ≡ length row.old }
    ensures reader { ReaderHasFrame (seen D.state rig.new) reader.new }
    ensures writer { WriterHasFrame (seen D.state rig.new) writer.new }
    ensures rewrites { RewritesNext last 1 (seen D.state rig.old) (seen D.state rig.new)
        reader.old reader.new writer.old writer.new standing.old standing.new row.old row.new result }
{
    let Some(item) = reader.next(rig)? else {
        unreachable!()
    };
    let note = taken_note(row, item, last);
    let anew = found_anew(*standing, item, note, note);
    join_note(row, Sweep::Find, *standing, item, last);
    *standing = standing_after(Sweep::Find, *standing, item, note, note);
    writer.append(rig, anew)
}

/// The same of the `count` records that a reader has left.
fn rewrite_all<D: Device>(
    rig: &mut Rig<'_, D>,
    row: &mut [Record],
    reader: &mut Reader,
    writer: &mut Writer,
    standing: &mut Standing,
    count: u64,
    last: u64,
) -> Result<(), EmFault>
    requires are { AreCopied (seen D.state rig.old) reader.old writer.old }
    requires count { reader.old.count ≡ count }
    requires within { last < 256 * length row.old }
    ensures long { length row.new ≡ length row.old }
    ensures reader { ReaderHasFrame (seen D.state rig.new) reader.new }
    ensures writer { WriterHasFrame (seen D.state rig.new) writer.new }
    ensures rewrites { RewritesNext last count (seen D.state rig.old) (seen D.state rig.new)
        reader.old reader.new writer.old writer.new standing.old standing.new row.old row.new result }
{
    for _ in 0..count {
        rewrite_next(rig, row, reader, writer, standing, last)?;
    }
    Ok(())
}

/// A packed list of the records as they are after the pass. The list's blocks are released. A fault is that of a
/// call on a list. It makes at most two moves for each block of both lists, and one.
pub(crate) fn rewrite<D: Device>(
    rig: &mut Rig<'_, D>,
    row: &mut [Record],
    list: Chain,
    standing: &mut Standing,
    last: u64,
) -> Result<Chain, EmFault>
    requires can { CanWriteAnew (seen D.state rig.old) list }
    requires within { last < 256 * length row.old }
    ensures long { length row.new ≡ length row.old }
    ensures rewrites { RewritesTo last (seen D.state rig.old) (seen D.state rig.new) list
        standing.old standing.new row.old result }
{
    let count = list.len();
    let mut reader = Reader::taking(rig, list);
    let mut writer = Writer::new(rig);
    match rewrite_all(rig, row, &mut reader, &mut writer, standing, count, last) {
        Ok(()) => {}
        Err(fault) => {
            reader.abandon(rig);
            writer.abandon(rig);
            return Err(fault);
        }
    }
    let rest = reader.end(rig);
    match discard(rig, rest) {
        Ok(()) => writer.finish(rig),
        Err(fault) => {
            writer.abandon(rig);
            Err(fault)
        }
    }
}
