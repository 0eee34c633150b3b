ghost use Rattle.std.specs.Prelude.{◌≡◌, ◌<◌, ◌≤◌, ◌^◌, []};
ghost use Rattle.em_space.specs.Rig.{Sound};
ghost use Rattle.em_space.specs.Seen.{seen};
ghost use Rattle.em_chain.specs.Effects.{GivesFrame, LendsFrame, Unmoved};

use crate::answers::write_answers;
use crate::command_record::to_record;
use crate::copying::write_anew;
use crate::question::Question;
use em_chain::{Chain, Writer, discard};
use em_frames::Device;
use em_model::Command;
use em_space::{EmFault, Rig};
use std::mem;

/// Commands, in the order in which they were given. It holds a writer's frame, and can't be
/// dropped.
pub(crate) struct CommandList {
    pub(crate) writer: Writer,
}

impl CommandList {
    ghost use Rattle.em_plain.specs.Answered.{AnswersList, KeepsList};
    ghost use Rattle.em_plain.specs.CommandList.{BeginsList, HasListFrame, IsCommandList, Noted, list_len};

    /// A list with no command.
    pub(crate) fn new<D: Device>(rig: &mut Rig<'_, D>) -> CommandList
        requires sound { Sound (seen D.state rig.old) }
        requires free { 1 < (seen D.state rig.old).pool.free }
        ensures lends { LendsFrame (seen D.state rig.old) (seen D.state rig.new) }
        ensures unmoved { Unmoved (seen D.state rig.old) (seen D.state rig.new) }
        ensures begins { BeginsList (seen D.state rig.new) result }
    {
        CommandList {
            writer: Writer::new(rig),
        }
    }

    /// Adds a command. After a fault the list may only be abandoned.
    pub(crate) fn note<D: Device>(
        &mut self,
        rig: &mut Rig<'_, D>,
        command: Command,
    ) -> Result<(), EmFault>
        requires sound { Sound (seen D.state rig.old) }
        requires is { IsCommandList (seen D.state rig.old) self.old }
        requires free { 0 < (seen D.state rig.old).pool.free }
        requires few { list_len self.old < 2 ^ 40 }
        ensures noted { Noted (seen D.state rig.old) (seen D.state rig.new)
            self.old self.new command result }
    {
        self.writer.append(rig, to_record(command))
    }

    /// Answers its commands by a chain, and releases its blocks.
    pub(crate) fn answer<D: Device, Q: Question>(
        self,
        rig: &mut Rig<'_, D>,
        question: &Q,
    ) -> Result<Chain, EmFault>
        requires can { Q.CanAnswer question.now }
        requires sound { Sound (seen D.state rig.old) }
        requires is { IsCommandList (seen D.state rig.old) self }
        requires free { 6 ≤ (seen D.state rig.old).pool.free }
        ensures done { AnswersList (Q.asks question.now)
            (seen D.state rig.old) (seen D.state rig.new) self result }
    {
        let CommandList { writer } = self;
        let commands = writer.finish(rig)?;
        let answers = write_answers(rig, &commands, question)?;
        discard(rig, commands)?;
        Ok(answers)
    }

    /// Answers its commands by a chain, and keeps them: they are written anew. After a fault the list may
    /// only be abandoned.
    pub(crate) fn answer_and_keep<D: Device, Q: Question>(
        &mut self,
        rig: &mut Rig<'_, D>,
        question: &Q,
    ) -> Result<Chain, EmFault>
        requires can { Q.CanAnswer question.now }
        requires sound { Sound (seen D.state rig.old) }
        requires is { IsCommandList (seen D.state rig.old) self.old }
        requires free { 6 ≤ (seen D.state rig.old).pool.free }
        ensures done { KeepsList (Q.asks question.now) (seen D.state rig.old) (seen D.state rig.new)
            self.old self.new result }
    {
        let fresh = Writer::new(rig);
        let whole = mem::replace(&mut self.writer, fresh);
        let commands = whole.finish(rig)?;
        let answers = write_answers(rig, &commands, question)?;
        write_anew(rig, commands, &mut self.writer)?;
        Ok(answers)
    }

    /// How many commands were given.
    pub(crate) fn len(&self) -> u64
        ensures { result ≡ list_len self.now }
    {
        self.writer.len()
    }

    /// Gives its frame back, and moves nothing. Its blocks stay in use.
    pub(crate) fn abandon<D: Device>(self, rig: &mut Rig<'_, D>)
        requires sound { Sound (seen D.state rig.old) }
        requires frame { HasListFrame (seen D.state rig.old) self }
        ensures gives { GivesFrame [] (seen D.state rig.old) (seen D.state rig.new) }
        ensures unmoved { Unmoved (seen D.state rig.old) (seen D.state rig.new) }
    {
        let CommandList { writer } = self;
        writer.abandon(rig);
    }
}
