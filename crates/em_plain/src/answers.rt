//! The answers to a list of commands. A reader goes through the list once, and a writer beside it
//! writes the answers. For each command that asks, a second reader goes through the commands
//! before it.
ghost use Rattle.std.specs.Prelude.{◌≡◌, ◌+◌, ◌<◌, ◌^◌};
ghost use Rattle.em_space.specs.Rig.{Sound};
ghost use Rattle.em_space.specs.Seen.{seen};
ghost use Rattle.em_chain.specs.Chain.{IsChain, chain_items};
ghost use Rattle.em_chain.specs.Reader.{ReaderHasFrame};
ghost use Rattle.em_chain.specs.Writer.{WriterHasFrame};
ghost use Rattle.em_plain.specs.Adds.{AddsBeside, AddsTo, ReadsAt, ReadsBeside, StepsTo, WrittenTo};
ghost use Rattle.em_plain.specs.Asks.{answer_for, most_for, most_in, records_in, stab_next};
ghost use Rattle.em_plain.specs.Ready.{ReadyBeside};
ghost use Rattle.em_plain.specs.StabPairs.{next_stab};

use crate::command_record::to_command;
use crate::question::Question;
use em_chain::{Chain, Reader, Writer};
use em_frames::Device;
use em_model::Command;
use em_space::{EmFault, Rig};

/// The number of the next stab after a command.
fn stab_after(command: Command, stab: u64) -> u64
    requires room { stab + 1 < 2 ^ 64 }
    ensures { result ≡ next_stab stab command }
{
    match command {
        Command::Stab { .. } => stab + 1,
        _ => stab,
    }
}

/// Reads the command that follows the first `number` ones of a chain, and writes its answer. It
/// gives the number of the next stab.
fn answer_next<D: Device, Q: Question>(
    rig: &mut Rig<'_, D>,
    reader: &mut Reader,
    chain: &Chain,
    number: u64,
    question: &Q,
    stab: u64,
    writer: &mut Writer,
) -> Result<u64, EmFault>
    requires can { Q.CanAnswer question.now }
    requires sound { Sound (seen D.state rig.old) }
    requires beside { AddsBeside (seen D.state rig.old) chain.now writer.old }
    requires reader { ReadsBeside (seen D.state rig.old) reader.old writer.old }
    requires reads { ReadsAt (seen D.state rig.old) chain.now reader.old number }
    requires free { 1 < (seen D.state rig.old).pool.free }
    requires number { number < chain.now.count }
    requires room { stab + 1 < 2 ^ 64 }
    ensures done { StepsTo (most_for (Q.asks question.now) chain.now.count) stab stab_next
        (answer_for (Q.asks question.now) number stab (chain_items (seen D.state rig.old) chain.now))
        (seen D.state rig.old) (seen D.state rig.new)
        reader.old reader.new writer.old writer.new result }
    ensures reader_frame { ReaderHasFrame (seen D.state rig.new) reader.new }
    ensures writer_frame { WriterHasFrame (seen D.state rig.new) writer.new }
{
    let Some(item) = reader.next(rig)? else {
        unreachable!()
    };
    let command = to_command(item);
    question.answer(rig, chain, number, command, stab, writer)?;
    Ok(stab_after(command, stab))
}

/// Writes the answers of all commands that a reader of a chain gives.
fn answer_by<D: Device, Q: Question>(
    rig: &mut Rig<'_, D>,
    reader: &mut Reader,
    chain: &Chain,
    question: &Q,
    writer: &mut Writer,
) -> Result<(), EmFault>
    requires can { Q.CanAnswer question.now }
    requires ready { ReadyBeside 0 (seen D.state rig.old) chain.now writer.old }
    requires reader { ReadsBeside (seen D.state rig.old) reader.old writer.old }
    requires reads { ReadsAt (seen D.state rig.old) chain.now reader.old 0 }
    ensures done { AddsTo (most_in (Q.asks question.now) chain.now.count)
        (seen D.state rig.old) (seen D.state rig.new) writer.old writer.new
        (records_in (Q.asks question.now) (chain_items (seen D.state rig.old) chain.now)) result }
    ensures reader_frame { ReaderHasFrame (seen D.state rig.new) reader.new }
    ensures writer_frame { WriterHasFrame (seen D.state rig.new) writer.new }
{
    let mut stab = 0;
    for number in 0..chain.len() {
        stab = answer_next(rig, reader, chain, number, question, stab, writer)?;
    }
    Ok(())
}

/// Writes the answers of all commands of a chain.
fn answer_all<D: Device, Q: Question>(
    rig: &mut Rig<'_, D>,
    chain: &Chain,
    question: &Q,
    writer: &mut Writer,
) -> Result<(), EmFault>
    requires can { Q.CanAnswer question.now }
    requires sound { Sound (seen D.state rig.old) }
    requires beside { AddsBeside (seen D.state rig.old) chain.now writer.old }
    requires free { 2 < (seen D.state rig.old).pool.free }
    ensures done { AddsTo (most_in (Q.asks question.now) chain.now.count)
        (seen D.state rig.old) (seen D.state rig.new) writer.old writer.new
        (records_in (Q.asks question.now) (chain_items (seen D.state rig.old) chain.now)) result }
    ensures frame { WriterHasFrame (seen D.state rig.new) writer.new }
{
    let mut reader = Reader::over(rig, chain);
    let done = answer_by(rig, &mut reader, chain, question, writer);
    reader.abandon(rig);
    done
}

/// The answers of a chain of commands, as a chain.
pub(crate) fn write_answers<D: Device, Q: Question>(
    rig: &mut Rig<'_, D>,
    chain: &Chain,
    question: &Q,
) -> Result<Chain, EmFault>
    requires can { Q.CanAnswer question.now }
    requires sound { Sound (seen D.state rig.old) }
    requires is { IsChain (seen D.state rig.old) chain.now }
    requires free { 3 < (seen D.state rig.old).pool.free }
    ensures done { WrittenTo (most_in (Q.asks question.now) chain.now.count)
        (seen D.state rig.old) (seen D.state rig.new)
        (records_in (Q.asks question.now) (chain_items (seen D.state rig.old) chain.now)) result }
{
    let mut writer = Writer::new(rig);
    match answer_all(rig, chain, question, &mut writer) {
        Ok(()) => writer.finish(rig),
        Err(fault) => {
            writer.abandon(rig);
            Err(fault)
        }
    }
}
