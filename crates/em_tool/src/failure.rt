// Why a program printed less than what is due, and how it ends then.
ghost use Rattle.std.specs.Prelude.{◌≡◌};
ghost use Rattle.em_tool.specs.Failure.{exit_code};

use crate::messages::{shape_words, write_stop};
use em_ends::{Status, Stop, status_of};
use em_frames::BeginFault;
use em_record::ShapeFault;
use std::fmt;

/// Why a program printed less than what is due.
#[derive(Clone, Copy, Debug, PartialEq, Eq, Drop)]
pub enum Failure {
    /// The words aren't two numbers and the names of the files. Nothing was read, moved or printed.
    Usage,
    /// The first rule of a shape that the two numbers break. Nothing was read, moved or printed.
    Shape(ShapeFault),
    /// There was no memory for the words or for the frames. Nothing was read, moved or printed.
    NoMemory,
    /// The scratch device failed when it was to begin, or had no memory. Nothing was read, moved or printed.
    Begin(BeginFault),
    /// The run stopped.
    Run(Stop),
}

/// The exit code if the words are refused.
const REFUSED: u8 = 1;

impl Failure {
    /// The exit code of the program: 1 if the words are refused, 7 if there was no memory for the words, the frames or
    /// the scratch device, 5 if that device failed when it was to begin, and that of `em_ends::Status` if the run
    /// stopped.
    pub fn code(&self) -> u8
        ensures { result ≡ exit_code self.now }
    {
        match self {
            Failure::Usage | Failure::Shape(_) => REFUSED,
            Failure::NoMemory | Failure::Begin(BeginFault::NoMemory) => Status::NoMemory.code(),
            Failure::Begin(BeginFault::Failed) => Status::DeviceFault.code(),
            Failure::Run(stop) => status_of(*stop).code(),
        }
    }
}

impl fmt::Display for Failure {
    ghost use Rattle.std.specs.Prelude.{Some};
    ghost use Rattle.em_tool.specs.Messages.{failure_text};

    ghost output = { λ failure. Some (failure_text failure) };

    fn fmt<W: fmt::Write>(&self, f: &mut fmt::Formatter<W>) -> fmt::Result {
        match self {
            Failure::Usage => f.write_str("usage"),
            Failure::Shape(fault) => f.write_str(shape_words(*fault)),
            Failure::NoMemory => f.write_str("no memory for the frames"),
            Failure::Begin(BeginFault::NoMemory) => f.write_str("no memory for the scratch device"),
            Failure::Begin(BeginFault::Failed) => f.write_str("the scratch device failed"),
            Failure::Run(stop) => write_stop(f, *stop),
        }
    }
}
