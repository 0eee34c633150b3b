//! The chains of a circuit that was read, and its edges between ranks, record by record.
ghost use Rattle.std.specs.Prelude.{◌≡◌, ◌<◌, [], true};
ghost use Rattle.em_io.specs.MemShelf.{stand_of};
ghost use Rattle.em_io.specs.declared.shelf.Slot.TheVariants.{First};
ghost use Rattle.em_space.specs.Rig.{Goes, Sound};
ghost use Rattle.em_space.specs.Seen.{seen};
ghost use Rattle.em_chain.specs.Chain.{IsChain};
ghost use Rattle.em_chain.specs.Reader.{IsReader, ReaderHasFrame, reader_blocks};
ghost use Rattle.aig_text.specs.Parts.{IsParts};
ghost use Rattle.aig_tests.specs.Frames.{HasFrames, LeavesFrames};

use crate::ordering::read_ordered;
use crate::stop::{print_stop, unread};
use aig_bin::read_either;
use aig_text::Parts;
use em_chain::{Chain, Reader};
use em_frames::Device;
use em_io::{Feed, MemShelf, Slot};
use em_record::Record;
use em_space::Rig;
use std::test::Fail;

/// What the records of a chain are.
#[derive(Clone, Copy)]
enum Kind {
    /// Three words.
    Words,
    /// An edge: the rank that it comes from, the rank that it leads to, the port there, and 1 if it is
    /// negated.
    Edge,
}

/// Prints a record.
fn print_record(rt: &HostRuntime, kind: Kind, record: Record) -> Result<(), Fail> {
    let (a, b, c) = (record.a, record.b, record.c);
    match kind {
        Kind::Words => print!(rt; " {a}-{b}-{c}")?,
        Kind::Edge => {
            let (to, port) = (b / 2, b % 2);
            print!(rt; " {a}-{to}-{port}-{c}")?;
        }
    }
    Ok(())
}

/// Prints the records of a reader, this many at most.
fn print_records<D: Device>(
    rt: &HostRuntime,
    rig: &mut Rig<'_, D>,
    reader: &mut Reader,
    kind: Kind,
    count: u64,
) -> Result<(), Fail>
    requires sound { Sound (seen D.state rig.old) }
    requires is { IsReader (seen D.state rig.old) reader.old }
    requires free { 0 < (seen D.state rig.old).pool.free }
    ensures goes { Goes (reader_blocks (seen D.state rig.old) reader.old)
        (seen D.state rig.old) (seen D.state rig.new) }
    ensures frame { ReaderHasFrame (seen D.state rig.new) reader.new }
{
    for _ in 0..count {
        let Some(record) = reader.next(rig)? else {
            return Ok(());
        };
        print_record(rt, kind, record)?;
    }
    Ok(())
}

/// Prints the records of a chain, to the end of a line.
fn print_chain<D: Device>(
    rt: &HostRuntime,
    rig: &mut Rig<'_, D>,
    chain: &Chain,
    kind: Kind,
) -> Result<(), Fail>
    requires sound { Sound (seen D.state rig.old) }
    requires is { IsChain (seen D.state rig.old) chain.now }
    requires free { 1 < (seen D.state rig.old).pool.free }
    ensures goes { Goes [] (seen D.state rig.old) (seen D.state rig.new) }
{
    let mut reader = Reader::over(rig, chain);
    let printed = print_records(rt, rig, &mut reader, kind, chain.len());
    reader.abandon(rig);
    printed?;
    println!(rt; "")?;
    Ok(())
}

/// Prints a circuit's header and its four chains.
fn print_parts<D: Device>(rt: &HostRuntime, rig: &mut Rig<'_, D>, parts: &Parts) -> Result<(), Fail>
    requires sound { Sound (seen D.state rig.old) }
    requires parts { IsParts (seen D.state rig.old) parts.now }
    requires free { 1 < (seen D.state rig.old).pool.free }
    ensures leaves { LeavesFrames (seen D.state rig.old) (seen D.state rig.new) }
{
    let (m, i, l) = (parts.header.max, parts.header.inputs, parts.header.latches);
    let (o, a) = (parts.header.outputs, parts.header.gates);
    let (b, c) = (parts.header.bads, parts.header.constraints);
    print!(rt; "{m} {i} {l} {o} {a} {b} {c}\n  Defs:")?;
    print_chain(rt, rig, &parts.defs, Kind::Words)?;
    print!(rt; "  Gates:")?;
    print_chain(rt, rig, &parts.gates, Kind::Words)?;
    print!(rt; "  Uses:")?;
    print_chain(rt, rig, &parts.uses, Kind::Words)?;
    print!(rt; "  Resets:")?;
    print_chain(rt, rig, &parts.resets, Kind::Words)
}

/// Prints the header and the chains of the circuit in the first slot; or its fault.
pub(crate) fn print_chains<D: Device>(
    rt: &HostRuntime,
    rig: &mut Rig<'_, D>,
    shelf: &mut MemShelf,
    title: &str,
) -> Result<(), Fail>
    requires ready { ((stand_of shelf.old).slot First).ready ≡ true }
    requires has { HasFrames (seen D.state rig.old) }
    ensures leaves { LeavesFrames (seen D.state rig.old) (seen D.state rig.new) }
{
    print!(rt; "{title}: ")?;
    let mut feed = Feed::new(Slot::First);
    match read_either(rig, &mut feed, shelf, None) {
        Ok(parts) => print_parts(rt, rig, &parts),
        Err(stop) => print_stop(rt, unread(stop)),
    }
}

/// Prints the passes of the circuit in the first slot, the blocks in use, and its edges between ranks; or its
/// fault.
pub(crate) fn print_edges<D: Device>(
    rt: &HostRuntime,
    rig: &mut Rig<'_, D>,
    shelf: &mut MemShelf,
    title: &str,
) -> Result<(), Fail>
    requires ready { ((stand_of shelf.old).slot First).ready ≡ true }
    requires has { HasFrames (seen D.state rig.old) }
    ensures leaves { LeavesFrames (seen D.state rig.old) (seen D.state rig.new) }
{
    print!(rt; "{title}: ")?;
    let mut feed = Feed::new(Slot::First);
    match read_ordered(rig, &mut feed, shelf) {
        Ok(ordered) => {
            let (passes, used) = (ordered.passes, rig.used());
            print!(rt; "passes {passes}, blocks {used}, edges")?;
            print_chain(rt, rig, &ordered.edges, Kind::Edge)
        }
        Err(stop) => print_stop(rt, unread(stop)),
    }
}
