//! The interval list of em_segment as a service. A queue is made at the end, which puts the points in order
//! and then the pairs that a segment tree finds:
//!
//!     intervals, points --finish--> (0, 3) (0, 7) (2, 3)

ghost use Rattle.std.specs.Prelude.{◌++◌, ◌<◌, ◌^◌, ⊤, Some};
ghost use Rattle.em_space.specs.Queue.{CanServe};
ghost use Rattle.em_space.specs.Rig.{Sound};
ghost use Rattle.em_space.specs.Seen.{seen};
ghost use Rattle.em_segment.specs.Stabs.{IsStab, TakeCosts, TakesTo, stab_len, FullOverRoom};
ghost use Rattle.em_tree_cost.specs.Shares.{stab_share};
ghost use Rattle.em_lines.specs.Kind.{IsOfKind};
ghost use Rattle.em_services.specs.Service.{size_of};
ghost use Rattle.em_services.specs.SizeLaws as sizes;
ghost use Rattle.em_services.specs.StabLaws as laws;
ghost use Rattle.em_services.specs.StabService.{stab_counts};
ghost use Rattle.em_lines.specs.declared.text.FileKind.TheVariants as kind;
ghost use Rattle.em_record.specs.Cost.{room as stated_room};

use crate::service::Service;
use em_chain::Chain;
use em_frames::Device;
use em_lines::FileKind;
use em_model::Command;
use em_pqueue::ExtQueue;
use em_segment::Stab;
use em_space::{EmFault, Rig};

/// Gives an interval list a command of its file.
fn give_list<D: Device>(
    list: &mut Stab,
    rig: &mut Rig<'_, D>,
    command: Command,
) -> Result<(), EmFault>
    requires sound { Sound (seen D.state rig.old) }
    requires is { IsStab (seen D.state rig.old) list.old }
    requires free { CanServe (seen D.state rig.old).pool }
    requires few { stab_len list.old < 2 ^ 40 }
    requires kind { IsOfKind kind.Stab command }
    ensures takes { TakesTo command (seen D.state rig.old) (seen D.state rig.new)
        list.old list.new result }
    ensures costs { TakeCosts (seen D.state rig.old) (seen D.state rig.new) list.old }
    ensures small { FullOverRoom (seen D.state rig.old) list.old result }
{
    match command {
        Command::Interval { low, high } => list.interval(rig, low, high),
        Command::Stab { point } => list.stab(rig, point),
        _ => Ok(()),
    }
}

impl Service for Stab {
    ghost use Rattle.em_segment.specs.Stabs.{HasCommands, StabHasFrames, stab_blocks};

    type Rule = ();

    ghost KIND = { kind.Stab };

    ghost combiner = { λ v x y. x };

    ghost combiner_of = { λ rule x y. x };

    ghost IsRule = { λ rule. ⊤ };

    ghost Has = { λ v s before cs. HasCommands s v (before ++ cs) };

    ghost blocks = { λ v s. stab_blocks s v };

    ghost IsService = { λ v s. IsStab s v };

    ghost HasItsFrames = { λ v s. StabHasFrames s v };

    ghost counts = { λ v. stab_counts v };

    ghost most = { λ v. 2 ^ 40 };

    ghost frames = { 2 };

    ghost areas = { λ v. 0 };

    ghost size = { λ v shape cs. size_of kind.Stab cs };

    ghost size_by = { λ rule shape cs. size_of kind.Stab cs };

    ghost allowance = { Some stab_share };

    ghost room = { Some stated_room };

    ghost no_queue = { laws.no_queue };

    ghost few_frames = { laws.two_frames };

    ghost few_areas = { λ v. sizes.no_area };

    ghost size_most = { λ v shape cs. sizes.size_most kind.Stab cs };

    ghost size_rises = { λ v shape cs more. sizes.size_rises kind.Stab cs more };

    ghost answers_few = { λ v s before cs h. sizes.stab_answers_few (before ++ cs) };

    ghost synced_few = { λ v s before cs h. sizes.none_few };

    ghost frames_of = { laws.frames_of };

    ghost n_is = { laws.n_is };

    ghost syncs_few = { laws.syncs_few };

    ghost holds = { laws.holds };

    ghost stays = { laws.stays };

    ghost frames_stay = { laws.frames_stay };

    ghost out = { laws.out };

    ghost unstored_most = { λ v s h. laws.unstored_most v };

    ghost rising = { laws.rising };

    ghost rising_room = { laws.rising_room };

    const KIND: FileKind = FileKind::Stab;

    #[tactic(auto, using(crate::proofs::Stabbing::made, crate::proofs::Stabbing::made_is, crate::proofs::Stabbing::made_none, crate::proofs::Stabbing::made_moves, crate::proofs::Stabbing::made_room, crate::proofs::Stabbing::made_surely, crate::proofs::Stabbing::made_by, crate::proofs::Rules::no_area_held, crate::proofs::Rules::same_size))]
    fn new<D: Device>(rig: &mut Rig<'_, D>, _rule: ()) -> Result<Stab, EmFault> {
        Stab::new(rig)
    }

    #[tactic(auto, using(crate::proofs::Stabbing::take_goes, crate::proofs::Stabbing::take_frames, crate::proofs::Stabbing::take_is, crate::proofs::Stabbing::take_has, crate::proofs::Stabbing::takes, crate::proofs::Stabbing::take_owes, crate::proofs::Stabbing::take_cause, crate::proofs::Areas::takes_alone))]
    fn take<D: Device>(&mut self, rig: &mut Rig<'_, D>, command: Command) -> Result<(), EmFault> {
        give_list(self, rig, command)
    }

    /// A stab file has no sync.
    fn sync<D: Device>(&mut self, _rig: &mut Rig<'_, D>) -> Result<Chain, EmFault> {
        Ok(Chain::empty())
    }

    fn answers<D: Device>(self, rig: &mut Rig<'_, D>) -> Result<Chain, EmFault> {
        match ExtQueue::new(rig) {
            Ok(queue) => self.finish(rig, queue),
            Err(fault) => {
                Stab::abandon(self, rig);
                Err(fault)
            }
        }
    }

    #[tactic(auto, using(crate::proofs::Stabbing::left_gives, crate::proofs::Stabbing::left_unmoved))]
    fn abandon<D: Device>(self, rig: &mut Rig<'_, D>) {
        Stab::abandon(self, rig);
    }
}
