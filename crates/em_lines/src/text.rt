// What a command file may be, and what may be wrong with it.
ghost use Rattle.std.specs.Prelude.{◌≡◌};
ghost use Rattle.em_lines.specs.declared.text.LineStop.TheVariants.{Read};

use em_record::Failed;

/// Which table of words a command file goes by.
#[derive(Clone, Copy, Debug, PartialEq, Eq, Drop)]
pub enum FileKind {
    /// `put K V`, `add K V`, `del K`, `get K` and `sync`: a map from keys to values.
    Map,
    /// `push K V` and `pop`: a priority queue.
    Queue,
    /// `iv LO HI` and `stab P`: intervals, and the points that are looked for in them.
    Stab,
    /// The words of a map; its pairs are printed at the end, and nothing else.
    Dump,
}

/// The fault of a line of a command file.
#[derive(Clone, Copy, Debug, PartialEq, Eq, Drop)]
pub enum TextKind {
    /// An operand has a byte other than a decimal digit, or more than 20 bytes.
    BadNumber,
    /// An operand is above 2^64 - 1.
    TooLarge,
    /// The line ends before an operand or goes on after the last one, or an operand is empty.
    BadSeparator,
    /// The bytes up to the first space or the line's end are no word of the file's table.
    Unknown,
    /// The line has no byte.
    EmptyLine,
    /// The low end of an interval is above its high end.
    LowAboveHigh,
    /// The line stands past the last one that a file may have: the 2^40th of a command file or a base, the 2^39th of a text of
    /// numbers.
    TooLong,
    /// The key of a pair isn't above that of the line before.
    OutOfOrder,
}

/// Why a line gave no command.
#[derive(Clone, Copy, Debug, PartialEq, Eq, Drop)]
pub enum LineStop {
    /// The line is faulty.
    Fault(TextKind),
    /// The shelf failed before the line was read. Its count of faults rose.
    Read,
}

impl From<Failed> for LineStop {
    ghost from_gives = { λ _ e. e ≡ Read };

    fn from(_failed: Failed) -> LineStop {
        LineStop::Read
    }
}
