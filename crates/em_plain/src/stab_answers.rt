ghost use Rattle.std.specs.Prelude.{◌≡◌, ◌+◌, ◌<◌, ◌≤◌, ◌^◌, take};
ghost use Rattle.em_model.specs.Stab.{holds_point};
ghost use Rattle.em_space.specs.Rig.{Sound};
ghost use Rattle.em_space.specs.Seen.{seen};
ghost use Rattle.em_chain.specs.Chain.{chain_items};
ghost use Rattle.em_chain.specs.Reader.{ReaderHasFrame, reader_items};
ghost use Rattle.em_chain.specs.Writer.{WriterHasFrame};
ghost use Rattle.em_plain.specs.Adds.{AddsTo, IsAdding, ReadsBeside, StepsTo};
ghost use Rattle.em_plain.specs.Asks.{interval_next, pair_for};
ghost use Rattle.em_plain.specs.Ready.{ReadyBeside};
ghost use Rattle.em_model.specs.StabAnswers.{pair_record};
ghost use Rattle.em_plain.specs.StabPairs.{holder_pairs, next_interval, pair_with};

use crate::command_record::to_command;
use crate::question::Question;
use em_chain::{Chain, Reader, Writer};
use em_frames::Device;
use em_model::Command;
use em_record::Record;
use em_space::{EmFault, Rig};

/// The record of a stab and an interval that holds its point, by their numbers.
fn to_pair(stab: u64, interval: u64) -> Record
    ensures { result ≡ pair_record stab interval }
{
    Record {
        a: stab,
        b: interval,
        c: 0,
        d: 0,
    }
}

/// The number of the next interval after a command.
fn interval_after(command: Command, interval: u64) -> u64
    requires room { interval + 1 < 2 ^ 64 }
    ensures { result ≡ next_interval interval command }
{
    match command {
        Command::Interval { .. } => interval + 1,
        _ => interval,
    }
}

/// Whether an interval holds a point, both ends included.
fn holds(low: u64, high: u64, point: u64) -> bool
    ensures { result ≡ holds_point point (record { number = 0; low = low; high = high }) }
{
    low <= point && point <= high
}

/// Writes the pair of a stab and of the interval of this number, if the command is an interval that
/// holds the point.
fn add_holder<D: Device>(
    rig: &mut Rig<'_, D>,
    command: Command,
    interval: u64,
    stab: u64,
    point: u64,
    writer: &mut Writer,
) -> Result<(), EmFault>
    requires sound { Sound (seen D.state rig.old) }
    requires is { IsAdding (seen D.state rig.old) writer.old }
    requires free { 0 < (seen D.state rig.old).pool.free }
    ensures done { AddsTo 1 (seen D.state rig.old) (seen D.state rig.new) writer.old writer.new
        (pair_with stab point interval command) result }
    ensures frame { WriterHasFrame (seen D.state rig.new) writer.new }
{
    match command {
        Command::Interval { low, high } => {
            if holds(low, high, point) {
                writer.append(rig, to_pair(stab, interval))
            } else {
                Ok(())
            }
        }
        _ => Ok(()),
    }
}

/// Reads a command, and writes its pair with a stab, if it has one. It gives the number of the next
/// interval.
fn next_holder<D: Device>(
    rig: &mut Rig<'_, D>,
    reader: &mut Reader,
    interval: u64,
    stab: u64,
    point: u64,
    writer: &mut Writer,
) -> Result<u64, EmFault>
    requires sound { Sound (seen D.state rig.old) }
    requires beside { ReadsBeside (seen D.state rig.old) reader.old writer.old }
    requires free { 0 < (seen D.state rig.old).pool.free }
    requires some { 0 < reader.old.count }
    requires room { interval + 1 < 2 ^ 64 }
    ensures done { StepsTo 1 interval interval_next (pair_for stab point interval)
        (seen D.state rig.old) (seen D.state rig.new)
        reader.old reader.new writer.old writer.new result }
    ensures reader_frame { ReaderHasFrame (seen D.state rig.new) reader.new }
    ensures writer_frame { WriterHasFrame (seen D.state rig.new) writer.new }
{
    let Some(item) = reader.next(rig)? else {
        unreachable!()
    };
    let command = to_command(item);
    add_holder(rig, command, interval, stab, point, writer)?;
    Ok(interval_after(command, interval))
}

/// Writes the pairs of a stab with the next `number` commands of a reader.
fn holders_by<D: Device>(
    rig: &mut Rig<'_, D>,
    reader: &mut Reader,
    number: u64,
    stab: u64,
    point: u64,
    writer: &mut Writer,
) -> Result<(), EmFault>
    requires sound { Sound (seen D.state rig.old) }
    requires beside { ReadsBeside (seen D.state rig.old) reader.old writer.old }
    requires free { 0 < (seen D.state rig.old).pool.free }
    requires number { number ≤ reader.old.count }
    ensures done { AddsTo number (seen D.state rig.old) (seen D.state rig.new)
        writer.old writer.new (holder_pairs stab point
        (take number (reader_items (seen D.state rig.old) reader.old))) result }
    ensures reader_frame { ReaderHasFrame (seen D.state rig.new) reader.new }
    ensures writer_frame { WriterHasFrame (seen D.state rig.new) writer.new }
{
    let mut interval = 0;
    for _ in 0..number {
        interval = next_holder(rig, reader, interval, stab, point, writer)?;
    }
    Ok(())
}

/// Writes the pairs of a stab with the first `number` commands of a chain.
fn holders_before<D: Device>(
    rig: &mut Rig<'_, D>,
    chain: &Chain,
    number: u64,
    stab: u64,
    point: u64,
    writer: &mut Writer,
) -> Result<(), EmFault>
    requires ready { ReadyBeside number (seen D.state rig.old) chain.now writer.old }
    ensures done { AddsTo number (seen D.state rig.old) (seen D.state rig.new)
        writer.old writer.new (holder_pairs stab point
        (take number (chain_items (seen D.state rig.old) chain.now))) result }
    ensures frame { WriterHasFrame (seen D.state rig.new) writer.new }
{
    let mut reader = Reader::over(rig, chain);
    let done = holders_by(rig, &mut reader, number, stab, point, writer);
    reader.abandon(rig);
    done
}

/// The question of an interval list.
#[derive(Drop)]
pub(crate) struct Stabs;

impl Question for Stabs {
    ghost use Rattle.em_plain.specs.Asks.Asks.{stabs};

    ghost asks = { λ _. stabs };

    ghost CanAnswer = { λ _. Unit {0} };

    /// Writes its pairs, if it is a stab.
    fn answer<D: Device>(
        &self,
        rig: &mut Rig<'_, D>,
        chain: &Chain,
        number: u64,
        command: Command,
        stab: u64,
        writer: &mut Writer,
    ) -> Result<(), EmFault> {
        match command {
            Command::Stab { point } => holders_before(rig, chain, number, stab, point, writer),
            _ => Ok(()),
        }
    }
}
