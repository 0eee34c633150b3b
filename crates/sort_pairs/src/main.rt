//! Sorts a file of pairs by their keys, in blocks of a scratch file: `sort_pairs B M FILE` prints the lines `K V` of FILE, the
//! least key first, and those of one key as they came.
//!
//!     FILE -> list of records -> queue -> list in order -> lines -> the output
//!
//! `sorting` has the program itself; here it is made a tool of its own.
#![tactic(auto)]

mod sorting;

use crate::sorting::sort_pairs;
use em_ends::Stop;
use em_frames::Device;
use em_io::{Shelf, Sink};
use em_space::Rig;
use em_tool::{Tool, name_at, run_tool};
use std::process::ExitCode;

/// The program.
struct SortPairs;

impl Tool for SortPairs {
    ghost use Rattle.em_rows.specs.Answered.{first_text};
    ghost use Rattle.em_tool.specs.Names.{name_at};
    ghost use Rattle.sort_pairs.specs.Sorted.{SortCause, sort_moves, sorted_text};

    ghost FILES = { 1 };

    ghost due = { λ stand names. sorted_text (first_text stand (name_at names 0)) };

    ghost most = { λ shape stand names. sort_moves shape (first_text stand (name_at names 0)) };

    ghost cause = { λ tells stand names. SortCause tells (first_text stand (name_at names 0)) };

    const NAME: &'static str = "sort_pairs";

    const SCRATCH: &'static str = "sort_pairs.scratch";

    const FILES: usize = 1;

    const OPERANDS: &'static str = "FILE";

    fn run<D: Device, H: Shelf, W: Sink>(
        &self,
        files: &[String],
        rig: &mut Rig<'_, D>,
        shelf: &mut H,
        out: &mut W,
    ) -> Result<(), Stop> {
        sort_pairs(rig, name_at(files, 0), shelf, out)
    }
}

fn main(rt: HostRuntime) -> ExitCode {
    run_tool(&rt, &SortPairs)
}
