// The sections of a circuit's text, read line by line into the four lists.
ghost use Rattle.std.specs.Prelude.{◌≡◌, ◌*◌, ◌<◌, ◌^◌};
ghost use Rattle.em_space.specs.Seen.{seen};
ghost use Rattle.aig_defs.specs.Circuit.{IsHeader, columns};
ghost use Rattle.aig_text.specs.Moment.{CanFill, ReadsInto, moment};
ghost use Rattle.aig_text.specs.Sections.{HasSections, HasLines, listed, listed_size, order, section_line, section_lines, line_size, lines_size, lines_in};
ghost use Rattle.aig_text.specs.declared.section.Section.TheVariants.{Inputs, Latches, Columns, Gates};

use crate::draft::Draft;
use crate::line::literal_line;
use crate::rows::Rows;
use crate::stop::AigStop;
use crate::tail::tail;
use aig_defs::{Header, Limit};
use em_frames::Device;
use em_io::{Feed, Shelf};
use em_record::Record;
use em_space::Rig;

/// The word b of a definition's record: by what the variable is defined.
const BY_INPUT: u64 = 0;

const BY_LATCH: u64 = 1;

const BY_GATE: u64 = 2;

/// The word b of a use's record: what uses the literal.
const AS_NEXT: u64 = 0;

const AS_OUTPUT: u64 = 1;

/// A section of a circuit's text: rows of one kind.
#[derive(Clone, Copy, Debug, PartialEq, Eq, Drop)]
pub(crate) enum Section {
    Inputs,
    Latches,
    Columns,
    Gates,
}

/// The sections as they stand in the text.
const ORDER: [Section; 4] = [
    Section::Inputs,
    Section::Latches,
    Section::Columns,
    Section::Gates,
];

impl Section {
    /// How many rows it has.
    fn lines(self, header: &Header) -> u64
        requires { IsHeader header.now }
        ensures { result ≡ lines_in self header.now }
    {
        match self {
            Section::Inputs => header.inputs,
            Section::Latches => header.latches,
            Section::Columns => header.outputs + header.bads + header.constraints,
            Section::Gates => header.gates,
        }
    }
}

/// The row of an input, of which this many stand before it.
fn read_input<R: Rows, D: Device, H: Shelf>(
    rows: &R,
    header: &Header,
    before: u64,
    rig: &mut Rig<'_, D>,
    feed: &mut Feed,
    shelf: &mut H,
    draft: &mut Draft,
) -> Result<(), AigStop>
    requires header { IsHeader header.now }
    requires before { before < header.now.inputs }
    requires fill { CanFill 3 (moment H.Shelf feed.old shelf.old (seen D.state rig.old) draft.old) }
    ensures { ReadsInto H.tells (section_line (R.form rows.now) Inputs header.now before)
        (line_size (R.form rows.now) Inputs)
        (HasLines Inputs header.now before 1)
        (moment H.Shelf feed.old shelf.old (seen D.state rig.old) draft.old)
        (moment H.Shelf feed.new shelf.new (seen D.state rig.new) draft.new) result }
{
    let literal = rows.input_row(header, before, feed, shelf)?;
    draft.add_def(
        rig,
        Record {
            a: literal / 2,
            b: BY_INPUT,
            c: before,
            d: 0,
        },
    )?;
    Ok(())
}

/// The row of a latch, of which this many stand before it.
fn read_latch<R: Rows, D: Device, H: Shelf>(
    rows: &R,
    header: &Header,
    before: u64,
    rig: &mut Rig<'_, D>,
    feed: &mut Feed,
    shelf: &mut H,
    draft: &mut Draft,
) -> Result<(), AigStop>
    requires header { IsHeader header.now }
    requires before { before < header.now.latches }
    requires fill { CanFill 3 (moment H.Shelf feed.old shelf.old (seen D.state rig.old) draft.old) }
    ensures { ReadsInto H.tells (section_line (R.form rows.now) Latches header.now before)
        (line_size (R.form rows.now) Latches)
        (HasLines Latches header.now before 1)
        (moment H.Shelf feed.old shelf.old (seen D.state rig.old) draft.old)
        (moment H.Shelf feed.new shelf.new (seen D.state rig.new) draft.new) result }
{
    let latch = rows.latch_row(header, before, feed, shelf)?;
    draft.add_def(
        rig,
        Record {
            a: latch.current / 2,
            b: BY_LATCH,
            c: before,
            d: 0,
        },
    )?;
    draft.add_use(
        rig,
        Record {
            a: latch.next,
            b: AS_NEXT,
            c: before,
            d: 0,
        },
    )?;
    draft.add_reset(
        rig,
        Record {
            a: before,
            b: 0,
            c: latch.reset as u64,
            d: 0,
        },
    )?;
    Ok(())
}

/// The row of a column, of which this many stand before it.
fn read_column<R: Rows, D: Device, H: Shelf>(
    rows: &R,
    header: &Header,
    before: u64,
    rig: &mut Rig<'_, D>,
    feed: &mut Feed,
    shelf: &mut H,
    draft: &mut Draft,
) -> Result<(), AigStop>
    requires header { IsHeader header.now }
    requires before { before < columns header.now }
    requires fill { CanFill 3 (moment H.Shelf feed.old shelf.old (seen D.state rig.old) draft.old) }
    ensures { ReadsInto H.tells (section_line (R.form rows.now) Columns header.now before)
        (line_size (R.form rows.now) Columns)
        (HasLines Columns header.now before 1)
        (moment H.Shelf feed.old shelf.old (seen D.state rig.old) draft.old)
        (moment H.Shelf feed.new shelf.new (seen D.state rig.new) draft.new) result }
{
    let literal = literal_line(feed, shelf, Limit::Used(header.max))?;
    draft.add_use(
        rig,
        Record {
            a: literal,
            b: AS_OUTPUT,
            c: before,
            d: 0,
        },
    )?;
    Ok(())
}

/// The row of a gate, of which this many stand before it.
fn read_gate<R: Rows, D: Device, H: Shelf>(
    rows: &R,
    header: &Header,
    before: u64,
    rig: &mut Rig<'_, D>,
    feed: &mut Feed,
    shelf: &mut H,
    draft: &mut Draft,
) -> Result<(), AigStop>
    requires header { IsHeader header.now }
    requires before { before < header.now.gates }
    requires fill { CanFill 3 (moment H.Shelf feed.old shelf.old (seen D.state rig.old) draft.old) }
    ensures { ReadsInto H.tells (section_line (R.form rows.now) Gates header.now before)
        (line_size (R.form rows.now) Gates)
        (HasLines Gates header.now before 1)
        (moment H.Shelf feed.old shelf.old (seen D.state rig.old) draft.old)
        (moment H.Shelf feed.new shelf.new (seen D.state rig.new) draft.new) result }
{
    let gate = rows.gate_row(header, before, feed, shelf)?;
    let variable = gate.lhs / 2;
    draft.add_def(
        rig,
        Record {
            a: variable,
            b: BY_GATE,
            c: before,
            d: 0,
        },
    )?;
    draft.add_gate(
        rig,
        Record {
            a: variable,
            b: gate.rhs0,
            c: gate.rhs1,
            d: 0,
        },
    )?;
    Ok(())
}

/// A row of a section, of which this many stand before it.
fn read_row<R: Rows, D: Device, H: Shelf>(
    rows: &R,
    section: Section,
    header: &Header,
    before: u64,
    rig: &mut Rig<'_, D>,
    feed: &mut Feed,
    shelf: &mut H,
    draft: &mut Draft,
) -> Result<(), AigStop>
    requires header { IsHeader header.now }
    requires before { before < lines_in section header.now }
    requires fill { CanFill 3 (moment H.Shelf feed.old shelf.old (seen D.state rig.old) draft.old) }
    ensures { ReadsInto H.tells (section_line (R.form rows.now) section header.now before)
        (line_size (R.form rows.now) section)
        (HasLines section header.now before 1)
        (moment H.Shelf feed.old shelf.old (seen D.state rig.old) draft.old)
        (moment H.Shelf feed.new shelf.new (seen D.state rig.new) draft.new) result }
{
    match section {
        Section::Inputs => read_input(rows, header, before, rig, feed, shelf, draft),
        Section::Latches => read_latch(rows, header, before, rig, feed, shelf, draft),
        Section::Columns => read_column(rows, header, before, rig, feed, shelf, draft),
        Section::Gates => read_gate(rows, header, before, rig, feed, shelf, draft),
    }
}

/// All rows of a section.
fn read_rows<R: Rows, D: Device, H: Shelf>(
    rows: &R,
    section: Section,
    header: &Header,
    rig: &mut Rig<'_, D>,
    feed: &mut Feed,
    shelf: &mut H,
    draft: &mut Draft,
) -> Result<(), AigStop>
    requires header { IsHeader header.now }
    requires fill { CanFill (3 * lines_in section header.now)
        (moment H.Shelf feed.old shelf.old (seen D.state rig.old) draft.old) }
    ensures { ReadsInto H.tells
        (section_lines (R.form rows.now) section header.now (lines_in section header.now) 0)
        (lines_size (R.form rows.now) section header.now (lines_in section header.now) 0)
        (HasLines section header.now 0 (lines_in section header.now))
        (moment H.Shelf feed.old shelf.old (seen D.state rig.old) draft.old)
        (moment H.Shelf feed.new shelf.new (seen D.state rig.new) draft.new) result }
{
    for before in 0..section.lines(header) {
        match read_row(rows, section, header, before, rig, feed, shelf, draft) {
            Ok(()) => {}
            Err(stop) => return Err(stop),
        }
    }
    Ok(())
}

/// All sections, and what follows them up to the text's end.
pub(crate) fn read_sections<R: Rows, D: Device, H: Shelf>(
    rows: &R,
    header: &Header,
    rig: &mut Rig<'_, D>,
    feed: &mut Feed,
    shelf: &mut H,
    draft: &mut Draft,
) -> Result<(), AigStop>
    requires header { IsHeader header.now }
    requires fill { CanFill (2 ^ 44)
        (moment H.Shelf feed.old shelf.old (seen D.state rig.old) draft.old) }
    ensures { ReadsInto H.tells (listed (R.form rows.now) order header.now)
        (listed_size (R.form rows.now) order header.now)
        (HasSections order header.now)
        (moment H.Shelf feed.old shelf.old (seen D.state rig.old) draft.old)
        (moment H.Shelf feed.new shelf.new (seen D.state rig.new) draft.new) result }
{
    for section in ORDER {
        match read_rows(rows, section, header, rig, feed, shelf, draft) {
            Ok(()) => {}
            Err(stop) => return Err(stop),
        }
    }
    tail(feed, shelf, header)
}
