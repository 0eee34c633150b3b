// A list printed, one line a record.
ghost use Rattle.std.specs.Prelude.{◌≡◌, ◌+◌, ◌<◌, ◌≤◌, ◌++◌, IsTrue, OnOk};
ghost use Rattle.em_record.specs.Count.{HasCause};
ghost use Rattle.em_io.specs.Sink.{Sent, SentPart};
ghost use Rattle.em_space.specs.Rig.{Sound};
ghost use Rattle.em_space.specs.Seen.{seen};
ghost use Rattle.em_chain.specs.Chain.{IsChain, chain_items};
ghost use Rattle.em_chain.specs.Reader.{owed, reader_items};
ghost use Rattle.em_answers.specs.Print.{KeepsBlocks, Looks, PrintStops, PrintsInto, ReadsOn};
ghost use Rattle.em_ends.specs.Stop.{Prints};
ghost use Rattle.em_rows.specs.Rows.{row_line, row_words, rows_text};

use crate::kinds::Columns;
use em_answers::add_pair;
use em_chain::{Chain, Reader};
use em_ends::{Stop, send_rest};
use em_frames::Device;
use em_io::{Printer, Sink};
use em_record::{Failed, Record};
use em_space::Rig;

/// Adds the columns of a record.
fn add_words<W: Sink>(
    columns: Columns,
    printer: &mut Printer,
    out: &mut W,
    item: Record,
) -> Result<(), Failed>
    ensures sent { OnOk result (Sent W.took (W.state out.old)
        (printer.old ++ row_words columns item) (W.state out.new) printer.new) }
    ensures part { SentPart W.took (W.state out.old)
        (printer.old ++ row_words columns item) (W.state out.new) }
    ensures cause { HasCause (W.faults out.old) (W.faults out.new) result }
{
    match columns {
        Columns::Pair => add_pair(printer, out, item.a, item.c),
        Columns::Value => printer.add_number(out, item.c),
        Columns::Numbers => add_pair(printer, out, item.a, item.b),
    }
}

/// Adds the line of a record.
fn add_row<W: Sink>(
    columns: Columns,
    printer: &mut Printer,
    out: &mut W,
    item: Record,
) -> Result<(), Failed>
    ensures sent { OnOk result (Sent W.took (W.state out.old)
        (printer.old ++ row_line columns item) (W.state out.new) printer.new) }
    ensures part { SentPart W.took (W.state out.old)
        (printer.old ++ row_line columns item) (W.state out.new) }
    ensures cause { HasCause (W.faults out.old) (W.faults out.new) result }
{
    add_words(columns, printer, out, item)?;
    printer.add(out, b"\n")
}

/// Prints the line of each record that a reader has left.
fn print_lines<D: Device, W: Sink>(
    columns: Columns,
    rig: &mut Rig<'_, D>,
    reader: &mut Reader,
    printer: &mut Printer,
    out: &mut W,
) -> Result<(), Stop>
    requires looks { Looks (seen D.state rig.old) reader.old }
    ensures reads { ReadsOn (seen D.state rig.old) (seen D.state rig.new) reader.new }
    ensures prints { IsTrue (seen D.state rig.old).device.told → PrintsInto W.took (printer.old
        ++ rows_text columns (reader_items (seen D.state rig.old) reader.old))
        (W.state out.old) (W.state out.new) printer.new result }
    ensures stops { PrintStops W.Sink out.old out.new
        (seen D.state rig.old) (seen D.state rig.new) result }
    ensures moves { (seen D.state rig.new).moves
        ≤ (seen D.state rig.old).moves + owed reader.old }
{
    while let Some(item) = reader.next(rig)? {
        add_row(columns, printer, out, item)?;
    }
    Ok(())
}

/// Prints the lines of a list's records, by these columns. Two frames must be free. The output gets them in pieces; what is
/// due before a stop of the rig is sent then. `Write` comes if the output failed, and `Em` if the rig did. It moves
/// at most the list's blocks, and leaves them.
pub fn print_rows<D: Device, W: Sink>(
    columns: Columns,
    rig: &mut Rig<'_, D>,
    list: &Chain,
    out: &mut W,
) -> Result<(), Stop>
    requires sound { Sound (seen D.state rig.old) }
    requires is { IsChain (seen D.state rig.old) list.now }
    requires free { 1 < (seen D.state rig.old).pool.free }
    ensures keeps { KeepsBlocks (seen D.state rig.old) (seen D.state rig.new) }
    ensures prints { IsTrue (seen D.state rig.old).device.told → Prints W.took
        (rows_text columns (chain_items (seen D.state rig.old) list.now))
        (W.state out.old) (W.state out.new) result }
    ensures stops { PrintStops W.Sink out.old out.new
        (seen D.state rig.old) (seen D.state rig.new) result }
    ensures moves { (seen D.state rig.new).moves
        ≤ (seen D.state rig.old).moves + list.now.blocks }
{
    let mut printer = Printer::new();
    let mut reader = Reader::over(rig, list);
    let done = print_lines(columns, rig, &mut reader, &mut printer, out);
    reader.abandon(rig);
    send_rest(done, &mut printer, out)
}
