//! Circuits of `em_gen`: one that is evaluated in several ways, and many that are evaluated both by a table and by messages
//! alone.
ghost use Rattle.std.specs.Prelude.{◌<◌, ◌≤◌, ◌^◌};

use crate::circuit::BLOCKS;
use crate::evaluation::{By, Pace};
use crate::lines::{print_numbers, print_title, tallied};
use aig_edges::StepStop;
use em_devices::{ended, opened};
use em_frames::MemDevice;
use em_gen::{GenKind, GenShelf, Tally};
use em_io::{Shelf, Slot};
use std::test::Fail;

/// The gates of the circuit that is evaluated in several ways.
const GATES: u64 = 2000;

/// How many circuits are evaluated both ways. Number i has i gates, and its draws begin from i.
const DRAWN: u64 = 200;

/// Evaluates a made circuit for its made stimulus, by a queue of this kind and at this pace: the numbers of the lines, and how
/// it ended.
fn made(
    rt: &HostRuntime,
    start: u64,
    gates: u64,
    by: By,
    pace: Pace,
) -> Result<(Tally, Result<(), StepStop>), Fail>
    requires some { 0 < gates }
    requires most { gates ≤ 2 ^ 30 }
{
    let alloc = rt.alloc();
    let mut circuit = GenShelf::new(GenKind::Eval, start, gates);
    circuit.open(Slot::First, "")?;
    let mut stimulus = GenShelf::new(GenKind::Eval, start, gates);
    stimulus.open(Slot::Second, "")?;
    let mut device = MemDevice::new(alloc, &[])?;
    let mut rig = opened(alloc, BLOCKS, &mut device)?;
    let tallied = tallied(&mut rig, &mut circuit, &mut stimulus, by, pace);
    let _cost = ended(rig);
    tallied
}

/// Prints the numbers of the lines of the circuit of 2,000 gates, by a queue of this kind and at this pace, and how it ended.
pub(crate) fn print_made(rt: &HostRuntime, by: By, pace: Pace) -> Result<(), Fail> {
    print_title(rt, "2000 made gates", by, pace)?;
    let (tally, ending) = made(rt, 1, GATES, by, pace)?;
    print_numbers(rt, &tally, ending)
}

/// Whether two evaluations gave the same numbers of lines, and ended alike.
fn agree(one: &(Tally, Result<(), StepStop>), other: &(Tally, Result<(), StepStop>)) -> bool {
    one.0.lines() == other.0.lines()
        && one.0.bytes() == other.0.bytes()
        && one.0.sum() == other.0.sum()
        && one.1 == other.1
}

/// Prints how many circuits give the same by a table and by messages alone, and the sums of the numbers of their lines.
pub(crate) fn print_both_ways(rt: &HostRuntime) -> Result<(), Fail> {
    let mut alike = 0_u64;
    let (mut lines, mut bytes, mut sum) = (0_u64, 0_u64, 0_u64);
    for number in 1..=DRAWN {
        let by_table = made(rt, number, number, By::Tree, Pace::Steps)?;
        let by_messages = made(rt, number, number, By::Tree, Pace::Messages)?;
        if agree(&by_table, &by_messages) {
            alike = alike.wrapping_add(1);
        }
        lines = lines.wrapping_add(by_table.0.lines());
        bytes = bytes.wrapping_add(by_table.0.bytes());
        sum = sum.wrapping_add(by_table.0.sum());
    }
    println!(rt; "{DRAWN} made circuits by a table and by messages alone: {alike} alike")?;
    println!(rt; "lines {lines} bytes {bytes} sum {sum}")?;
    Ok(())
}
