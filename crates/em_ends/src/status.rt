ghost use Rattle.std.specs.Prelude.{◌≡◌};
ghost use Rattle.em_ends.specs.Status.{code_of};

use aig_defs::AigKind;
use em_lines::TextKind;

/// Why the words name no job.
#[derive(Clone, Copy, Debug, PartialEq, Eq, Drop)]
pub enum UsageKind {
    /// There is no word.
    NoCommand,
    /// The first word is no command.
    UnknownCommand,
    /// The name of the option word is that of no option of this command.
    UnknownOption,
    /// An earlier word has the option's name.
    RepeatedOption,
    /// The option wants a number of 64 bits after a `=`, or, as `--uninit` does, 0 or 1, or, as `--stats` and
    /// `--wide` do, nothing.
    BadValue,
    /// The command wants one operand more.
    MissingOperand,
    /// The word is one operand too many.
    ExtraOperand,
    /// A block has 128 to 65536 records.
    BlockRange,
    /// There are 64 frames to the lesser of 1024 and half a block's records.
    FramesRange,
    /// The number of frames is a multiple of 8.
    FramesMultiple,
    /// The device has 1 to 2^40 blocks.
    BlocksRange,
    /// The word names no kind of made texts.
    UnknownKind,
    /// A made text has 1 to 2^30 lines or gates.
    CountRange,
}

/// Why the words name no job, and the number, from 0, of the word at which that shows.
#[derive(Clone, Copy, Debug, PartialEq, Eq, Drop)]
pub struct Usage {
    pub kind: UsageKind,
    pub word: u64,
}

/// What is wrong with an input.
#[derive(Clone, Copy, Debug, PartialEq, Eq, Drop)]
pub enum Malform {
    /// A line of a command file; the place is the line's number, from 1.
    Text(TextKind),
    /// A line of the base of a `load`; the place is the line's number, from 1.
    Base(TextKind),
    /// A circuit or a stimulus. The place is a byte's offset; for `Twice`, `Undefined` and `Cyclic` it
    /// is the variable.
    Aig(AigKind),
}

/// How a run ended.
#[derive(Clone, Copy, Debug, PartialEq, Eq, Drop)]
pub enum Status {
    /// All answers were printed.
    Done,
    /// The words name no job. Nothing was read, moved or printed.
    Usage { kind: UsageKind, word: u64 },
    /// The input has a fault. What comes before it was answered as far as the command prints early.
    Malformed { kind: Malform, place: u64 },
    /// The shelf failed: its count of faults rose.
    ReadFault,
    /// The output failed: its count of faults rose.
    WriteFault,
    /// The device failed: its count of faults rose.
    DeviceFault,
    /// The device has `used` blocks, and a block more was needed.
    Full { used: u64 },
    /// There was no memory for the frames, or for what the device keeps. Nothing was read, and nothing
    /// printed on the output.
    NoMemory,
    /// The block of this number isn't laid out as it was left, or a list in the scratch device has
    /// another number of records than it should; 0 stands for a block if no one is to blame. It never
    /// comes over a device that tells its contents.
    Damaged { block: u64 },
}

impl Status {
    /// The exit code of the program.
    pub fn code(&self) -> u8
        ensures { result ≡ code_of self.now }
    {
        match self {
            Status::Done => 0,
            Status::Usage { kind: _, word: _ } => 1,
            Status::Malformed { kind: _, place: _ } => 2,
            Status::ReadFault => 3,
            Status::WriteFault => 4,
            Status::DeviceFault => 5,
            Status::Full { used: _ } => 6,
            Status::NoMemory => 7,
            Status::Damaged { block: _ } => 8,
        }
    }
}
