//! A pass over stored records and operations, from one record that results to the next.
ghost use Rattle.std.specs.Prelude.{◌≡◌, ◌<◌, ◌≤◌, length, option_to_list, IfErr, Some};
ghost use Rattle.em_record.specs.Order.{IsAscending};
ghost use Rattle.em_space.specs.Rig.{Sound};
ghost use Rattle.em_space.specs.Seen.{seen};
ghost use Rattle.em_chain.specs.Reader.{ReaderHasFrame};
ghost use Rattle.em_chain.specs.Writer.{CanGrow, IsWriter, WriterHasFrame};
ghost use Rattle.em_leaf.specs.Needs.{LacksAnswers};
ghost use Rattle.em_leaf.specs.Passing.{CanPass, FindsNext, GivesAnswer};

use crate::front::{Finding, Front};
use crate::stepping::take_step;
use em_chain::{Reader, Writer};
use em_frames::Device;
use em_record::Record;
use em_settle::Settle;
use em_space::{EmFault, Rig};

/// The next record that results, and None exactly if none is left. The answers of the operations
/// up to it are written. After a fault reader and writer may only be abandoned.
#[inline]
pub(crate) fn next_record<D: Device, S: Settle>(
    rig: &mut Rig<'_, D>,
    settle: &S,
    ops: &[Record],
    reader: &mut Reader,
    front: &mut Front,
    answers: &mut Writer,
) -> Result<Option<Record>, EmFault>
    requires sound { Sound (seen D.state rig.old) }
    requires ready { S.IsReady settle.now }
    requires ordered { IsAscending ops.now }
    requires can { CanPass (seen D.state rig.old) reader.old answers.old front.old
        (length ops.now) }
    requires free { 0 < (seen D.state rig.old).pool.free }
    ensures reader { ReaderHasFrame (seen D.state rig.new) reader.new }
    ensures answers { WriterHasFrame (seen D.state rig.new) answers.new }
    ensures finds { FindsNext (S.key_of settle.now) (S.step_of settle.now) ops.now
        (seen D.state rig.old) (seen D.state rig.new) reader.old reader.new answers.old answers.new
        front.old front.new result }
    ensures needs { IfErr result (LacksAnswers (S.key_of settle.now) (S.step_of settle.now) ops.now
        (seen D.state rig.old) (seen D.state rig.new) reader.old answers.old front.old) }
{
    loop {
        match take_step(rig, settle, ops, reader, front)? {
            Finding::End => return Ok(None),
            Finding::Item(item) => return Ok(Some(item)),
            Finding::Answer(answer) => give(rig, answers, answer)?,
        }
    }
}

/// Writes an answer, if there is one.
fn give<D: Device>(
    rig: &mut Rig<'_, D>,
    answers: &mut Writer,
    answer: Option<Record>,
) -> Result<(), EmFault>
    requires sound { Sound (seen D.state rig.old) }
    requires is { IsWriter (seen D.state rig.old) answers.old }
    requires grow { CanGrow answers.old }
    requires free { 0 < (seen D.state rig.old).pool.free }
    ensures frame { WriterHasFrame (seen D.state rig.new) answers.new }
    ensures gives { GivesAnswer (seen D.state rig.old)
        (seen D.state rig.new) answers.old answers.new
        answer result }
    ensures some { IfErr result (λ _. 0 < length (option_to_list answer)) }
{
    match answer {
        Some(item) => give_one(rig, answers, item),
        None => Ok(()),
    }
}

/// Writes an answer.
#[tactic(auto, using(crate::proofs::Passes::gives_by))]
fn give_one<D: Device>(
    rig: &mut Rig<'_, D>,
    answers: &mut Writer,
    item: Record,
) -> Result<(), EmFault>
    requires sound { Sound (seen D.state rig.old) }
    requires is { IsWriter (seen D.state rig.old) answers.old }
    requires grow { CanGrow answers.old }
    requires free { 0 < (seen D.state rig.old).pool.free }
    ensures frame { WriterHasFrame (seen D.state rig.new) answers.new }
    ensures gives { GivesAnswer (seen D.state rig.old) (seen D.state rig.new) answers.old
        answers.new (Some item) result }
{
    answers.append(rig, item)
}
