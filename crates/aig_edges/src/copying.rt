//! A list is written anew, definitions with their numbers, or edges between ranks for those of a graph:
//!
//!     definitions  (1 input 0) (3 gate 0)    copy  (1 number 0 input 0) (3 number 1 gate 0)
//!
//! Kept here: a block of the list is released once its last record was read, and the copy has no gap.
//! Left to who wrote the list: its order.

ghost use Rattle.std.specs.Prelude.{◌≡◌, ◌<◌};
ghost use Rattle.em_space.specs.Seen.{seen};
ghost use Rattle.em_chain.specs.Reader.{ReaderHasFrame};
ghost use Rattle.em_chain.specs.Writer.{WriterHasFrame};
ghost use Rattle.aig_defs.specs.Circuit.{IsHeader};
ghost use Rattle.aig_defs.specs.VariableRanks.{ranked_edge};
ghost use Rattle.aig_edges.specs.Copies.{AreCopied, CanWriteAnew, CopiesNext, WritesAnew, IsFit, copied_item};

use crate::pushing::numbered;
use aig_defs::{COLUMN_PLACES, Header, LATCH_PLACES};
use em_chain::{Chain, Reader, Writer, discard};
use em_frames::Device;
use em_record::Record;
use em_space::{EmFault, Rig};

/// What a record becomes that is read.
#[derive(Clone, Copy, Debug, PartialEq, Eq, Drop)]
pub enum Copied {
    /// A definition with its number in the list.
    Numbered,
    /// The record itself.
    Same,
    /// An edge of a graph with this header becomes one between ranks, if variables are their ranks.
    Ranked(Header),
}

/// The edge between ranks of an edge of a graph, if variables are their ranks.
fn ranked_edge(header: Header, edge: Record) -> Record
    requires header { IsHeader header }
    ensures { result ≡ ranked_edge (λ v. v) header edge }
{
    let first = 1 + header.inputs + header.latches + header.gates;
    let place = edge.b / 4;
    let class = edge.b % 4;
    let target = if class == 2 {
        first + place.saturating_sub(LATCH_PLACES)
    } else if class == 3 {
        first + header.latches + place.saturating_sub(COLUMN_PLACES)
    } else {
        place
    };
    Record {
        a: edge.a,
        b: 2 * target + u64::from(class == 1),
        c: edge.c,
        d: 0,
    }
}

/// What is written for a record with this number in its list.
fn written_for(kind: Copied, item: Record, number: u64) -> Record
    requires fit { IsFit kind }
    ensures { result ≡ copied_item kind number item }
{
    match kind {
        Copied::Numbered => numbered(item, number),
        Copied::Same => item,
        Copied::Ranked(header) => ranked_edge(header, item),
    }
}

/// Reads the next record, which has this number, and writes it.
fn copy_next<D: Device>(
    rig: &mut Rig<'_, D>,
    reader: &mut Reader,
    writer: &mut Writer,
    number: u64,
    kind: Copied,
) -> Result<(), EmFault>
    requires fit { IsFit kind }
    requires are { AreCopied (seen D.state rig.old) reader.old writer.old }
    requires some { 0 < reader.old.count }
    ensures copies { CopiesNext kind number 1 (seen D.state rig.old) (seen D.state rig.new)
        reader.old reader.new writer.old writer.new result }
    ensures reader { ReaderHasFrame (seen D.state rig.new) reader.new }
    ensures writer { WriterHasFrame (seen D.state rig.new) writer.new }
{
    let Some(item) = reader.next(rig)? else {
        unreachable!()
    };
    writer.append(rig, written_for(kind, item, number))
}

/// Reads the `count` records that a reader has left, and writes them.
fn copy_all<D: Device>(
    rig: &mut Rig<'_, D>,
    reader: &mut Reader,
    writer: &mut Writer,
    count: u64,
    kind: Copied,
) -> Result<(), EmFault>
    requires fit { IsFit kind }
    requires are { AreCopied (seen D.state rig.old) reader.old writer.old }
    requires count { reader.old.count ≡ count }
    ensures copies { CopiesNext kind 0 count (seen D.state rig.old) (seen D.state rig.new)
        reader.old reader.new writer.old writer.new result }
    ensures reader { ReaderHasFrame (seen D.state rig.new) reader.new }
    ensures writer { WriterHasFrame (seen D.state rig.new) writer.new }
{
    for number in 0..count {
        copy_next(rig, reader, writer, number, kind)?;
    }
    Ok(())
}

/// A packed list of what the records of a list become, whose blocks are released. A fault is that of a call on
/// a list. It makes at most two moves for each block of both lists, and one.
pub fn copy<D: Device>(rig: &mut Rig<'_, D>, list: Chain, kind: Copied) -> Result<Chain, EmFault>
    requires fit { IsFit kind }
    requires can { CanWriteAnew (seen D.state rig.old) list }
    ensures copies { WritesAnew kind (seen D.state rig.old) (seen D.state rig.new) list result }
{
    let count = list.len();
    let mut reader = Reader::taking(rig, list);
    let mut writer = Writer::new(rig);
    match copy_all(rig, &mut reader, &mut writer, count, kind) {
        Ok(()) => {}
        Err(fault) => {
            reader.abandon(rig);
            writer.abandon(rig);
            return Err(fault);
        }
    }
    let rest = reader.end(rig);
    match discard(rig, rest) {
        Ok(()) => writer.finish(rig),
        Err(fault) => {
            writer.abandon(rig);
            Err(fault)
        }
    }
}
