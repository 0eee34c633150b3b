//! Which windows hold each moment, in blocks of a scratch file: `windows B M WINDOWS MOMENTS` reads lines `LO HI` and lines `P`,
//! and prints for each P the lines `moment window` of the windows that hold it, by their numbers from 0 on.
//!
//!     WINDOWS -> interval list <- stab each <- MOMENTS
//!                      |
//!                      v
//!                    pairs -> lines -> the output
//!
//! `holding` has the program itself; here it is made a tool of its own.
#![tactic(auto)]

mod holding;

use crate::holding::print_holding;
use em_ends::Stop;
use em_frames::Device;
use em_io::{Shelf, Sink};
use em_space::Rig;
use em_tool::{Tool, name_at, run_tool};
use std::process::ExitCode;

/// The program.
struct Windows;

impl Tool for Windows {
    ghost use Rattle.em_rows.specs.Answered.{TextsCause, first_text, second_text};
    ghost use Rattle.em_tool.specs.Names.{name_at};
    ghost use Rattle.windows.specs.Holding.{holding_moves, holding_plan, holding_text};

    ghost FILES = { 2 };

    ghost due = { λ stand names. holding_text (first_text stand (name_at names 0))
        (second_text stand (name_at names 1)) };

    ghost most = { λ shape stand names. holding_moves shape (first_text stand (name_at names 0))
        (second_text stand (name_at names 1)) };

    ghost cause = { λ tells stand names. TextsCause tells holding_plan (first_text stand (name_at names 0))
        (second_text stand (name_at names 1)) };

    const NAME: &'static str = "windows";

    const SCRATCH: &'static str = "windows.scratch";

    const FILES: usize = 2;

    const OPERANDS: &'static str = "WINDOWS MOMENTS";

    fn run<D: Device, H: Shelf, W: Sink>(
        &self,
        files: &[String],
        rig: &mut Rig<'_, D>,
        shelf: &mut H,
        out: &mut W,
    ) -> Result<(), Stop> {
        print_holding(rig, name_at(files, 0), name_at(files, 1), shelf, out)
    }
}

fn main(rt: HostRuntime) -> ExitCode {
    run_tool(&rt, &Windows)
}
