ghost use Rattle.std.specs.Prelude.{◌+◌, ◌<◌, ◌≤◌, ◌^◌, [], length, IfErr, IfOk, IsOk, IsTrue, OnErr};
ghost use Rattle.em_model.specs.declared.command.Command.TheVariants as command;
ghost use Rattle.em_space.specs.Rig.{Cause, Sound};
ghost use Rattle.em_space.specs.Seen.{seen};
ghost use Rattle.em_chain.specs.Chain.{payload_in};
ghost use Rattle.em_chain.specs.Counts.{ceiling};
ghost use Rattle.em_chain.specs.Effects.{Completes, GivesFrame, LendsFrame, OnFull, Unmoved};

use crate::command_list::CommandList;
use crate::stab_answers::Stabs;
use em_chain::Chain;
use em_frames::Device;
use em_model::Command;
use em_space::{EmFault, Rig};

/// An interval list that answers all its stabs at once, in `finish`. It keeps its commands in a
/// list, which is read again for each stab. Intervals and stabs are numbered from 0, each on its
/// own.
///
/// It holds a frame and can't be dropped. After a fault only `abandon` may be called.
pub struct ScanStab {
    list: CommandList,
}

impl ScanStab {
    ghost use Rattle.em_plain.specs.CommandList.{AnsweredBy, BeginsList, Noted, held, list_len, unstored};
    ghost use Rattle.em_plain.specs.Room.{StaysWithin, plain_room};
    ghost use Rattle.em_plain.specs.ScanStab.{IsScanStab, StabHasFrame, blocks_of, commands_of};
    ghost use Rattle.em_model.specs.StabAnswers.{stab_pairs};
    ghost use Rattle.em_space.specs.Queue.{Pays};

    /// A list with no interval. It takes no block yet, and never gives up.
    pub fn new<D: Device>(rig: &mut Rig<'_, D>) -> Result<ScanStab, EmFault>
        requires sound { Sound (seen D.state rig.old) }
        requires free { 6 ≤ (seen D.state rig.old).pool.free }
        ensures lends { LendsFrame (seen D.state rig.old) (seen D.state rig.new) }
        ensures unmoved { Unmoved (seen D.state rig.old) (seen D.state rig.new) }
        ensures begins { IfOk result (λ v. BeginsList (seen D.state rig.new) v.list) }
        ensures complete { IsOk result }
    {
        Ok(ScanStab {
            list: CommandList::new(rig),
        })
    }

    /// Adds the interval of all points from `low` to `high`, both included. `Full` comes exactly
    /// where a block is needed and all are in use.
    pub fn interval<D: Device>(
        &mut self,
        rig: &mut Rig<'_, D>,
        low: u64,
        high: u64,
    ) -> Result<(), EmFault>
        requires sound { Sound (seen D.state rig.old) }
        requires is { IsScanStab (seen D.state rig.old) self.old }
        requires free { 6 ≤ (seen D.state rig.old).pool.free }
        requires few { list_len self.old.list < 2 ^ 40 }
        requires order { low ≤ high }
        ensures noted { Noted (seen D.state rig.old) (seen D.state rig.new)
            self.old.list self.new.list (command.Interval low high) result }
    {
        self.list.note(rig, Command::Interval { low, high })
    }

    /// Asks for the earlier intervals that hold the point, which `finish` answers. `Full` comes
    /// exactly if a block is needed and all are in use.
    pub fn stab<D: Device>(&mut self, rig: &mut Rig<'_, D>, point: u64) -> Result<(), EmFault>
        requires sound { Sound (seen D.state rig.old) }
        requires is { IsScanStab (seen D.state rig.old) self.old }
        requires free { 6 ≤ (seen D.state rig.old).pool.free }
        requires few { list_len self.old.list < 2 ^ 40 }
        ensures noted { Noted (seen D.state rig.old) (seen D.state rig.new)
            self.old.list self.new.list (command.Stab point) result }
    {
        self.list.note(rig, Command::Stab { point })
    }

    /// The answers to all stabs: a record (number of the stab, number of the interval, 0, 0) for
    /// each interval that was given before the stab and holds its point, both ends included, in the
    /// order of records. The commands' blocks are released. Over a device that tells, `Full` comes
    /// only if fewer blocks are free at the start than the answers fill.
    pub fn finish<D: Device>(self, rig: &mut Rig<'_, D>) -> Result<Chain, EmFault>
        requires sound { Sound (seen D.state rig.old) }
        requires is { IsScanStab (seen D.state rig.old) self }
        requires free { 6 ≤ (seen D.state rig.old).pool.free }
        ensures gives { GivesFrame (blocks_of (seen D.state rig.old) self)
            (seen D.state rig.old) (seen D.state rig.new) }
        ensures answers { IfOk result (AnsweredBy (seen D.state rig.old) (seen D.state rig.new)
            self.list (stab_pairs (commands_of (seen D.state rig.old) self))) }
        ensures most { IsTrue (seen D.state rig.old).device.told → StaysWithin (held self.list)
            (plain_room (seen D.state rig.old).pool.shape (list_len self.list
            + length (stab_pairs (commands_of (seen D.state rig.old) self))))
            (seen D.state rig.old) (seen D.state rig.new) }
        ensures owes { OnErr result (Pays (unstored self.list)
            (seen D.state rig.old).pool.shape.frames
            (seen D.state rig.old) (seen D.state rig.new)) }
        ensures full { IsTrue (seen D.state rig.old).device.told
            → IfErr result (λ fault. OnFull fault ((seen D.state rig.old).blocks
            < (seen D.state rig.old).used
            + plain_room (seen D.state rig.old).pool.shape (list_len self.list
            + length (stab_pairs (commands_of (seen D.state rig.old) self))))) }
        ensures full_if_few { IsTrue (seen D.state rig.old).device.told
            → IfErr result (λ fault. OnFull fault ((seen D.state rig.old).blocks
            < (seen D.state rig.old).used
            + ceiling (length (stab_pairs (commands_of (seen D.state rig.old) self)))
            (payload_in (seen D.state rig.old)))) }
        ensures complete_if_enough { (seen D.state rig.old).used
            + ceiling (length (stab_pairs (commands_of (seen D.state rig.old) self)))
            (payload_in (seen D.state rig.old)) ≤ (seen D.state rig.old).blocks
            → Completes (seen D.state rig.old) (seen D.state rig.new) result }
        ensures complete { (seen D.state rig.old).used
            + plain_room (seen D.state rig.old).pool.shape (list_len self.list
            + length (stab_pairs (commands_of (seen D.state rig.old) self)))
            ≤ (seen D.state rig.old).blocks
            → Completes (seen D.state rig.old) (seen D.state rig.new) result }
        ensures cause { IfErr result (Cause (seen D.state rig.old) (seen D.state rig.new)) }
    {
        let ScanStab { list } = self;
        list.answer(rig, &Stabs)
    }

    /// Gives its frame back, and moves nothing. Its blocks stay in use.
    pub fn abandon<D: Device>(self, rig: &mut Rig<'_, D>)
        requires sound { Sound (seen D.state rig.old) }
        requires frame { StabHasFrame (seen D.state rig.old) self }
        ensures gives { GivesFrame [] (seen D.state rig.old) (seen D.state rig.new) }
        ensures unmoved { Unmoved (seen D.state rig.old) (seen D.state rig.new) }
    {
        let ScanStab { list } = self;
        list.abandon(rig);
    }
}
