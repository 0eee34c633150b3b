ghost use Rattle.std.specs.Prelude.{◌≡◌, ◌+◌, ◌<◌, ◌≤◌, ◌^◌, [], length, IfErr, IfOk, IsOk, IsTrue, OnOk};
ghost use Rattle.em_model.specs.declared.command.Command.TheVariants as command;
ghost use Rattle.em_space.specs.Rig.{Cause, Sound};
ghost use Rattle.em_space.specs.Seen.{seen};
ghost use Rattle.em_chain.specs.Chain.{payload_in};
ghost use Rattle.em_chain.specs.Counts.{ceiling};
ghost use Rattle.em_chain.specs.Effects.{Completes, GivesFrame, LendsFrame, OnFull, Unmoved};

use crate::command_list::CommandList;
use crate::map_answers::Gets;
use em_chain::Chain;
use em_frames::Device;
use em_model::Command;
use em_settle::{AddSettle, Settle};
use em_space::{EmFault, Rig};

/// A map from numbers to numbers that answers its gets together, in `sync` and in `finish`. It keeps its
/// commands in a list, which is read again for each get. Calls are numbered from 1. Its closure joins the
/// values of adds as the kind that it was given with says.
///
/// It holds a frame and can't be dropped. After a fault only `abandon` may be called.
pub struct ScanMap<F: Drop> {
    list: CommandList,
    /// How an add joins its value to the one that its key has.
    settle: AddSettle<F>,
    /// The commands up to and with the last sync.
    answered: u64,
}

impl<F: Fn(u64, u64) -> u64 + Drop> ScanMap<F> {
    ghost use Rattle.em_plain.specs.CommandList.{AnsweredBy, BeginsList, Noted, held, list_len, unstored};
    ghost use Rattle.em_plain.specs.Room.{StaysWithin, plain_room};
    ghost use Rattle.em_plain.specs.ScanMap.{IsScanMap, MapHasFrame, Syncs, answered_of, blocks_of, due_of};
    ghost use Rattle.em_space.specs.Queue.{Pays};
    ghost use Rattle.std.specs.Prelude.{OnErr};

    /// A map in which no key has a value. It takes no block yet, and never gives up.
    pub fn with<D: Device>(
        rig: &mut Rig<'_, D>,
        settle: AddSettle<F>,
    ) -> Result<ScanMap<F>, EmFault>
        requires sound { Sound (seen D.state rig.old) }
        requires free { 6 ≤ (seen D.state rig.old).pool.free }
        ensures lends { LendsFrame (seen D.state rig.old) (seen D.state rig.new) }
        ensures unmoved { Unmoved (seen D.state rig.old) (seen D.state rig.new) }
        ensures begins { IfOk result (λ m. BeginsList (seen D.state rig.new) m.list) }
        ensures is { IfOk result (IsScanMap (seen D.state rig.new)) }
        ensures answered { IfOk result (λ m. answered_of m ≡ 0) }
        ensures settle { IfOk result (λ m. m.settle ≡ settle) }
        ensures complete { IsOk result }
    {
        Ok(ScanMap {
            list: CommandList::new(rig),
            settle,
            answered: 0,
        })
    }

    /// Gives the key this value. `Full` comes exactly if a block is needed and all are in use.
    pub fn put<D: Device>(
        &mut self,
        rig: &mut Rig<'_, D>,
        key: u64,
        value: u64,
    ) -> Result<(), EmFault>
        requires sound { Sound (seen D.state rig.old) }
        requires is { IsScanMap (seen D.state rig.old) self.old }
        requires free { 6 ≤ (seen D.state rig.old).pool.free }
        requires few { list_len self.old.list < 2 ^ 40 }
        ensures noted { Noted (seen D.state rig.old) (seen D.state rig.new)
            self.old.list self.new.list (command.Put key value) result }
        ensures is { OnOk result (IsScanMap (seen D.state rig.new) self.new) }
        ensures answered { answered_of self.new ≡ answered_of self.old }
        ensures settle { self.new.settle ≡ self.old.settle }
    {
        self.list.note(rig, Command::Put { key, value })
    }

    /// Joins this value to the one that the key has; the key has this value alone if it had none. `Full` comes
    /// exactly if a block is needed and all are in use.
    pub fn add<D: Device>(
        &mut self,
        rig: &mut Rig<'_, D>,
        key: u64,
        value: u64,
    ) -> Result<(), EmFault>
        requires sound { Sound (seen D.state rig.old) }
        requires is { IsScanMap (seen D.state rig.old) self.old }
        requires free { 6 ≤ (seen D.state rig.old).pool.free }
        requires few { list_len self.old.list < 2 ^ 40 }
        ensures noted { Noted (seen D.state rig.old) (seen D.state rig.new)
            self.old.list self.new.list (command.Add key value) result }
        ensures is { OnOk result (IsScanMap (seen D.state rig.new) self.new) }
        ensures answered { answered_of self.new ≡ answered_of self.old }
        ensures settle { self.new.settle ≡ self.old.settle }
    {
        self.list.note(rig, Command::Add { key, value })
    }

    /// Takes the key's value away. `Full` comes exactly if a block is needed and all are in use.
    pub fn del<D: Device>(&mut self, rig: &mut Rig<'_, D>, key: u64) -> Result<(), EmFault>
        requires sound { Sound (seen D.state rig.old) }
        requires is { IsScanMap (seen D.state rig.old) self.old }
        requires free { 6 ≤ (seen D.state rig.old).pool.free }
        requires few { list_len self.old.list < 2 ^ 40 }
        ensures noted { Noted (seen D.state rig.old) (seen D.state rig.new)
            self.old.list self.new.list (command.Del key) result }
        ensures is { OnOk result (IsScanMap (seen D.state rig.new) self.new) }
        ensures answered { answered_of self.new ≡ answered_of self.old }
        ensures settle { self.new.settle ≡ self.old.settle }
    {
        self.list.note(rig, Command::Del { key })
    }

    /// Asks for the key's value, which the next `sync` answers, or `finish`. `Full` comes exactly if a block
    /// is needed and all are in use.
    pub fn get<D: Device>(&mut self, rig: &mut Rig<'_, D>, key: u64) -> Result<(), EmFault>
        requires sound { Sound (seen D.state rig.old) }
        requires is { IsScanMap (seen D.state rig.old) self.old }
        requires free { 6 ≤ (seen D.state rig.old).pool.free }
        requires few { list_len self.old.list < 2 ^ 40 }
        ensures noted { Noted (seen D.state rig.old) (seen D.state rig.new)
            self.old.list self.new.list (command.Get key) result }
        ensures is { OnOk result (IsScanMap (seen D.state rig.new) self.new) }
        ensures answered { answered_of self.new ≡ answered_of self.old }
        ensures settle { self.new.settle ≡ self.old.settle }
    {
        self.list.note(rig, Command::Get { key })
    }

    /// The answers to the gets since the last sync, in the order of their numbers, as those of `finish`. The
    /// sync is noted as a command, and the map goes on. Over a device that tells, `Full` comes only if fewer
    /// blocks are free at the start than the answers fill and two.
    pub fn sync<D: Device>(&mut self, rig: &mut Rig<'_, D>) -> Result<Chain, EmFault>
        requires sound { Sound (seen D.state rig.old) }
        requires is { IsScanMap (seen D.state rig.old) self.old }
        requires free { 6 ≤ (seen D.state rig.old).pool.free }
        requires few { list_len self.old.list < 2 ^ 40 }
        requires ready { ⟦<AddSettle<F> as Settle>⟧.IsReady self.old.settle }
        ensures syncs { Syncs (seen D.state rig.old) (seen D.state rig.new) self.old self.new result }
        ensures settle { self.new.settle ≡ self.old.settle }
    {
        self.list.note(rig, Command::Sync)?;
        let gets = Gets {
            settle: &self.settle,
            answered: self.answered,
        };
        let answers = self.list.answer_and_keep(rig, &gets)?;
        self.answered = self.list.len();
        Ok(answers)
    }

    /// The answers to the gets since the last sync, in the order of their numbers: the record
    /// (number, 1, V, 0) where the key had the value V by the calls before, and (number, 0, 0, 0) where it
    /// had none. The commands' blocks are released. Over a device that tells, `Full` comes only if fewer
    /// blocks are free at the start than the answers fill.
    pub fn finish<D: Device>(self, rig: &mut Rig<'_, D>) -> Result<Chain, EmFault>
        requires sound { Sound (seen D.state rig.old) }
        requires is { IsScanMap (seen D.state rig.old) self }
        requires free { 6 ≤ (seen D.state rig.old).pool.free }
        requires ready { ⟦<AddSettle<F> as Settle>⟧.IsReady self.settle }
        ensures gives { GivesFrame (blocks_of (seen D.state rig.old) self)
            (seen D.state rig.old) (seen D.state rig.new) }
        ensures answers { IfOk result (AnsweredBy (seen D.state rig.old) (seen D.state rig.new)
            self.list (due_of (seen D.state rig.old) self)) }
        ensures most { StaysWithin (held self.list)
            (plain_room (seen D.state rig.old).pool.shape (list_len self.list))
            (seen D.state rig.old) (seen D.state rig.new) }
        ensures owes { OnErr result (Pays (unstored self.list)
            (seen D.state rig.old).pool.shape.frames
            (seen D.state rig.old) (seen D.state rig.new)) }
        ensures full { IfErr result (λ fault. OnFull fault ((seen D.state rig.old).blocks
            < (seen D.state rig.old).used
            + plain_room (seen D.state rig.old).pool.shape (list_len self.list))) }
        ensures full_if_few { IsTrue (seen D.state rig.old).device.told
            → IfErr result (λ fault. OnFull fault ((seen D.state rig.old).blocks
            < (seen D.state rig.old).used
            + ceiling (length (due_of (seen D.state rig.old) self))
            (payload_in (seen D.state rig.old)))) }
        ensures complete_if_enough { (seen D.state rig.old).used
            + ceiling (length (due_of (seen D.state rig.old) self))
            (payload_in (seen D.state rig.old)) ≤ (seen D.state rig.old).blocks
            → Completes (seen D.state rig.old) (seen D.state rig.new) result }
        ensures complete { (seen D.state rig.old).used
            + plain_room (seen D.state rig.old).pool.shape (list_len self.list)
            ≤ (seen D.state rig.old).blocks
            → Completes (seen D.state rig.old) (seen D.state rig.new) result }
        ensures cause { IfErr result (Cause (seen D.state rig.old) (seen D.state rig.new)) }
    {
        let ScanMap {
            list,
            settle,
            answered,
        } = self;
        let gets = Gets {
            settle: &settle,
            answered,
        };
        list.answer(rig, &gets)
    }

    /// Gives its frame back, and moves nothing. Its blocks stay in use.
    pub fn abandon<D: Device>(self, rig: &mut Rig<'_, D>)
        requires sound { Sound (seen D.state rig.old) }
        requires frame { MapHasFrame (seen D.state rig.old) self }
        ensures gives { GivesFrame [] (seen D.state rig.old) (seen D.state rig.new) }
        ensures unmoved { Unmoved (seen D.state rig.old) (seen D.state rig.new) }
    {
        let ScanMap {
            list,
            settle: _,
            answered: _,
        } = self;
        list.abandon(rig);
    }
}
