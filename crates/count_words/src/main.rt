//! Counts words, in blocks of a scratch file: `count_words B M WORDS ASKED` reads numbers, one a line, and prints for each line
//! of ASKED how often its number stands in WORDS.
//!
//!     WORDS -> add 1 to each -> map <- get each <- ASKED
//!                                |
//!                                v
//!                              counts -> lines -> the output
//!
//! `counting` has the program itself; here it is made a tool of its own.
#![tactic(auto)]

mod counting;

use crate::counting::count_words;
use em_ends::Stop;
use em_frames::Device;
use em_io::{Shelf, Sink};
use em_space::Rig;
use em_tool::{Tool, name_at, run_tool};
use std::process::ExitCode;

/// The program.
struct CountWords;

impl Tool for CountWords {
    ghost use Rattle.em_rows.specs.Answered.{TextsCause, first_text, second_text};
    ghost use Rattle.em_tool.specs.Names.{name_at};
    ghost use Rattle.count_words.specs.Counts.{count_moves, count_plan, counts_text};

    ghost FILES = { 2 };

    ghost due = { λ stand names. counts_text (first_text stand (name_at names 0))
        (second_text stand (name_at names 1)) };

    ghost most = { λ shape stand names. count_moves shape (first_text stand (name_at names 0))
        (second_text stand (name_at names 1)) };

    ghost cause = { λ tells stand names. TextsCause tells count_plan (first_text stand (name_at names 0))
        (second_text stand (name_at names 1)) };

    const NAME: &'static str = "count_words";

    const SCRATCH: &'static str = "count_words.scratch";

    const FILES: usize = 2;

    const OPERANDS: &'static str = "WORDS ASKED";

    fn run<D: Device, H: Shelf, W: Sink>(
        &self,
        files: &[String],
        rig: &mut Rig<'_, D>,
        shelf: &mut H,
        out: &mut W,
    ) -> Result<(), Stop> {
        count_words(rig, name_at(files, 0), name_at(files, 1), shelf, out)
    }
}

fn main(rt: HostRuntime) -> ExitCode {
    run_tool(&rt, &CountWords)
}
