ghost use Rattle.std.specs.Prelude.{◌≡◌, ◌∷◌, ◌+◌, ◌<◌, ◌≤◌, [], None, length, take, IfOk, IfErr, IsTrue, false};
ghost use Rattle.em_frames.specs.Pool.{HasFrames};
ghost use Rattle.em_model.specs.Map.{joined_to, value_from};
ghost use Rattle.em_settle.specs.Add.{apply_of};
ghost use Rattle.em_space.specs.Rig.{BlockCause, Sound};
ghost use Rattle.em_space.specs.Seen.{seen};
ghost use Rattle.em_chain.specs.Chain.{IsChain, chain_items};
ghost use Rattle.em_chain.specs.Reader.{IsReader, reader_items};
ghost use Rattle.em_chain.specs.Writer.{WriterHasFrame};
ghost use Rattle.em_plain.specs.Adds.{AddsTo};
ghost use Rattle.em_plain.specs.Asks.{get_answer};
ghost use Rattle.em_plain.specs.Command.{command_in, commands_in};
ghost use Rattle.em_plain.specs.Looks.{Looks};
ghost use Rattle.em_model.specs.MapAnswers.{answer_record};
ghost use Rattle.em_plain.specs.Ready.{ReadyBeside};

use crate::command_record::to_command;
use crate::question::Question;
use em_chain::{Chain, Reader, Writer};
use em_frames::Device;
use em_model::Command;
use em_record::Record;
use em_settle::{AddSettle, Settle};
use em_space::{EmFault, Rig};

/// A value joined to the one that its key has, or this value alone if it has none.
fn joined<F: Fn(u64, u64) -> u64 + Drop>(
    settle: &AddSettle<F>,
    before: Option<u64>,
    value: u64,
) -> u64
    requires ready { ⟦<AddSettle<F> as Settle>⟧.IsReady settle.now }
    ensures { result ≡ joined_to (apply_of settle.now.kind) before value }
{
    match before {
        Some(old) => settle.apply(old, value),
        None => value,
    }
}

/// The value of a key after one more command, where it had this value, or none, before it.
fn value_after<F: Fn(u64, u64) -> u64 + Drop>(
    settle: &AddSettle<F>,
    item: Record,
    key: u64,
    before: Option<u64>,
) -> Option<u64>
    requires ready { ⟦<AddSettle<F> as Settle>⟧.IsReady settle.now }
    ensures { result ≡ value_from (apply_of settle.now.kind) key before (command_in item ∷ []) }
{
    match to_command(item) {
        Command::Put { key: other, value } if key == other => Some(value),
        Command::Del { key: other } if key == other => None,
        Command::Add { key: other, value } if key == other => Some(joined(settle, before, value)),
        _ => before,
    }
}

/// The record of the answer to the get of this number.
fn to_answer(number: u64, answer: Option<u64>) -> Record
    ensures { result ≡ answer_record number answer }
{
    match answer {
        Some(value) => Record {
            a: number,
            b: 1,
            c: value,
            d: 0,
        },
        None => Record {
            a: number,
            b: 0,
            c: 0,
            d: 0,
        },
    }
}

/// The value of a key after the next `number` commands of a reader.
fn value_by<D: Device, F: Fn(u64, u64) -> u64 + Drop>(
    settle: &AddSettle<F>,
    rig: &mut Rig<'_, D>,
    reader: &mut Reader,
    number: u64,
    key: u64,
) -> Result<Option<u64>, EmFault>
    requires rule { ⟦<AddSettle<F> as Settle>⟧.IsReady settle.now }
    requires sound { Sound (seen D.state rig.old) }
    requires is { IsReader (seen D.state rig.old) reader.old }
    requires over { reader.old.taking ≡ false }
    requires free { 0 < (seen D.state rig.old).pool.free }
    requires number { number ≤ reader.old.count }
    ensures looks { Looks (seen D.state rig.old) (seen D.state rig.new) }
    ensures frame { HasFrames 1 (length reader.new.frame) (seen D.state rig.new).pool }
    ensures value { IsTrue (seen D.state rig.old).device.told → IfOk result (λ value.
        value ≡ value_from (apply_of settle.now.kind) key None
        (commands_in (take number (reader_items (seen D.state rig.old) reader.old)))) }
    ensures cause { IfErr result (BlockCause (seen D.state rig.old) (seen D.state rig.new)) }
{
    let mut found = None;
    for _ in 0..number {
        let Some(item) = reader.next(rig)? else {
            return Ok(found);
        };
        found = value_after(settle, item, key, found);
    }
    Ok(found)
}

/// The value of a key after the first `number` commands of a chain.
fn value_before<D: Device, F: Fn(u64, u64) -> u64 + Drop>(
    settle: &AddSettle<F>,
    rig: &mut Rig<'_, D>,
    chain: &Chain,
    number: u64,
    key: u64,
) -> Result<Option<u64>, EmFault>
    requires rule { ⟦<AddSettle<F> as Settle>⟧.IsReady settle.now }
    requires sound { Sound (seen D.state rig.old) }
    requires is { IsChain (seen D.state rig.old) chain.now }
    requires free { 1 < (seen D.state rig.old).pool.free }
    requires number { number ≤ chain.now.count }
    ensures looks { Looks (seen D.state rig.old) (seen D.state rig.new) }
    ensures value { IsTrue (seen D.state rig.old).device.told → IfOk result (λ value.
        value ≡ value_from (apply_of settle.now.kind) key None
        (commands_in (take number (chain_items (seen D.state rig.old) chain.now)))) }
    ensures cause { IfErr result (BlockCause (seen D.state rig.old) (seen D.state rig.new)) }
{
    let mut reader = Reader::over(rig, chain);
    let value = value_by(settle, rig, &mut reader, number, key);
    reader.abandon(rig);
    value
}

/// Writes the answer of a command that follows the first `number` ones of a chain, if it is a get.
fn answer_get<D: Device, F: Fn(u64, u64) -> u64 + Drop>(
    settle: &AddSettle<F>,
    rig: &mut Rig<'_, D>,
    chain: &Chain,
    number: u64,
    command: Command,
    writer: &mut Writer,
) -> Result<(), EmFault>
    requires rule { ⟦<AddSettle<F> as Settle>⟧.IsReady settle.now }
    requires ready { ReadyBeside number (seen D.state rig.old) chain.now writer.old }
    ensures done { AddsTo 1 (seen D.state rig.old) (seen D.state rig.new) writer.old writer.new
        (get_answer (apply_of settle.now.kind) number
        (take number (chain_items (seen D.state rig.old) chain.now)) command) result }
    ensures frame { WriterHasFrame (seen D.state rig.new) writer.new }
{
    match command {
        Command::Get { key } => {
            let value = value_before(settle, rig, chain, number, key)?;
            writer.append(rig, to_answer(number + 1, value))
        }
        _ => Ok(()),
    }
}

/// The question of a map: its rules, and how many of its commands were answered before.
#[derive(Drop)]
pub(crate) struct Gets<'a, F: Drop> {
    pub(crate) settle: &'a AddSettle<F>,
    pub(crate) answered: u64,
}

impl<'a, F: Fn(u64, u64) -> u64 + Drop> Question for Gets<'a, F> {
    ghost use Rattle.em_plain.specs.Asks.Asks.{gets};
    ghost use Rattle.em_settle.specs.Add.{apply_of};

    ghost asks = { λ q. gets (apply_of q.settle.now.kind) q.answered };

    ghost CanAnswer = { λ q. ⟦<AddSettle<F> as Settle>⟧.IsReady q.settle.now };

    /// Writes its answer, if it is a get and wasn't answered before.
    fn answer<D: Device>(
        &self,
        rig: &mut Rig<'_, D>,
        chain: &Chain,
        number: u64,
        command: Command,
        _stab: u64,
        writer: &mut Writer,
    ) -> Result<(), EmFault> {
        if number < self.answered {
            return Ok(());
        }
        answer_get(self.settle, rig, chain, number, command, writer)
    }
}
