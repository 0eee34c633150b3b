//! A row of a table: its circuit and its stimulus on shelves in memory, over a rig of its own.
ghost use Rattle.std.specs.Prelude.{◌≡◌, IfOk, true};
ghost use Rattle.em_io.specs.MemShelf.{stand_of};

use crate::chains::{print_chains, print_edges};
use crate::evaluation::{By, Pace};
use crate::failing::print_failing;
use crate::lines::print_lines;
use crate::row::spelled;
use em_devices::{ended, opened};
use em_frames::MemDevice;
use em_io::{MemShelf, Shelf, Slot};
use std::alloc::Global;
use std::test::Fail;

/// The bytes that a shelf gives and a sink takes in a call.
pub(crate) const PIECE: usize = 3;

/// The blocks of the device.
pub(crate) const BLOCKS: u64 = 1000;

/// What is printed of a row.
#[derive(Clone, Copy)]
pub(crate) enum Part {
    /// The circuit's header and its four chains.
    Chains,
    /// Its edges between ranks.
    Edges,
    /// Its lines for the stimulus, by this kind of queue and at this pace.
    Lines(By, Pace),
    /// The bytes of these lines that go out at each failing call of the device.
    Failing(By, Pace),
}

/// A shelf that gives a text.
pub(crate) fn shelf_with(alloc: Global, slot: Slot, text: &[u8]) -> Result<MemShelf, Fail>
    ensures ready { IfOk result (λ shelf. ((stand_of shelf).slot slot).ready ≡ true) }
{
    let mut shelf = MemShelf::new(alloc, PIECE, &[])?;
    shelf.add("text", text)?;
    shelf.open(slot, "text")?;
    Ok(shelf)
}

/// A shelf that gives the text that a part of a row spells.
pub(crate) fn shelf_of(alloc: Global, slot: Slot, escaped: &str) -> Result<MemShelf, Fail>
    ensures ready { IfOk result (λ shelf. ((stand_of shelf).slot slot).ready ≡ true) }
{
    let text = spelled(alloc, escaped)?;
    shelf_with(alloc, slot, &text)
}

/// Prints the chains of a circuit, or its edges between ranks.
fn print_circuit(rt: &HostRuntime, title: &str, circuit: &str, ranked: bool) -> Result<(), Fail> {
    let alloc = rt.alloc();
    let mut circuit = shelf_of(alloc, Slot::First, circuit)?;
    let mut device = MemDevice::new(alloc, &[])?;
    let mut rig = opened(alloc, BLOCKS, &mut device)?;
    let printed = if ranked {
        print_edges(rt, &mut rig, &mut circuit, title)
    } else {
        print_chains(rt, &mut rig, &mut circuit, title)
    };
    let _cost = ended(rig);
    printed
}

/// Prints a part of a row.
fn print_part(
    rt: &HostRuntime,
    title: &str,
    circuit: &str,
    stimulus: &str,
    part: Part,
) -> Result<(), Fail> {
    match part {
        Part::Chains => print_circuit(rt, title, circuit, false),
        Part::Edges => print_circuit(rt, title, circuit, true),
        Part::Lines(by, pace) => print_lines(rt, title, circuit, stimulus, by, pace),
        Part::Failing(by, pace) => print_failing(rt, title, circuit, stimulus, by, pace),
    }
}

/// Prints these parts of a row.
pub(crate) fn print_row(
    rt: &HostRuntime,
    title: &str,
    row: &str,
    parts: &[Part],
) -> Result<(), Fail> {
    let (circuit, stimulus) = row.split_once('|').unwrap_or((row, ""));
    for part in parts {
        print_part(rt, title, circuit, stimulus, *part)?;
    }
    Ok(())
}
