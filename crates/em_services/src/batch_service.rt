//! The batch of em_map as a service. It gives its answers in any order, at a sync and at the end, so that a
//! queue puts them in order, which is made and ended there:
//!
//!     batch --sync, finish--> [3: 7] [1: none] [2: 5] --queue--> [1: none] [2: 5] [3: 7]

ghost use Rattle.std.specs.Prelude.{◌≡◌, ◌<◌, ◌^◌, Some, ◌+◌, IfErr, IfOk, IsTrue};
ghost use Rattle.em_space.specs.Queue.{CanServe};
ghost use Rattle.em_space.specs.Rig.{Sound};
ghost use Rattle.em_space.specs.Seen.{seen};
ghost use Rattle.em_map.specs.Batch.{BatchOver, BatchWithin, CanGather, CountsCommand, IsBatch, IsNewBatch, TakesTo, trunk_of};
ghost use Rattle.em_services.specs.BatchLaws as laws;
ghost use Rattle.em_services.specs.BatchService.{AreAnswers, IsGivenBatch, OrdersAnswers, batch_counts, map_share, map_size};
ghost use Rattle.em_lines.specs.Kind.{IsOfKind};
ghost use Rattle.em_model.specs.declared.command.Command.TheVariants as variants;
ghost use Rattle.em_lines.specs.declared.text.FileKind.TheVariants as kind;
ghost use Rattle.em_record.specs.Cost.{room as stated_room};
ghost use Rattle.em_settle.specs.Add.{apply_of};
ghost use Rattle.em_tree.specs.Calls.{StopsNewTrunk};

use crate::map_rule::MapRule;
use crate::ordering::put_in_order;
use crate::service::Service;
use em_chain::Chain;
use em_frames::Device;
use em_lines::FileKind;
use em_map::Batch;
use em_model::Command;
use em_pqueue::ExtQueue;
use em_settle::{AddSettle, Settle};
use em_space::{EmFault, Rig};

/// A batch has at most this many commands, and so at most as many answers.
const ANSWERS_MOST: u64 = 1 << 40;

/// Makes a batch by a rule.
#[tactic(auto, using(crate::proofs::Batching::made_early))]
fn new_batch<D: Device, F: Fn(u64, u64) -> u64 + Drop>(
    rig: &mut Rig<'_, D>,
    rule: MapRule<F>,
) -> Result<Batch<F>, EmFault>
    requires sound { Sound (seen D.state rig.old) }
    requires free { CanServe (seen D.state rig.old).pool }
    ensures makes { IfOk result (IsNewBatch (seen D.state rig.old) (seen D.state rig.new)) }
    ensures rule { IfOk result (λ b. b.tree.settle ≡ rule.settle) }
    ensures early { IfOk result (λ b. b.early ≡ rule.early) }
    ensures stops { IfErr result (StopsNewTrunk (seen D.state rig.old) (seen D.state rig.new)) }
{
    if rule.early {
        Batch::early(rig, rule.settle)
    } else {
        Batch::with(rig, rule.settle)
    }
}

/// Gives a batch a command of its file that is no sync.
pub(crate) fn give_batch<D: Device, F: Fn(u64, u64) -> u64 + Drop>(
    batch: &mut Batch<F>,
    rig: &mut Rig<'_, D>,
    command: Command,
) -> Result<(), EmFault>
    requires sound { Sound (seen D.state rig.old) }
    requires is { IsBatch (seen D.state rig.old) batch.old }
    requires ready { ⟦<AddSettle<F> as Settle>⟧.IsReady batch.old.tree.settle }
    requires free { CanServe (seen D.state rig.old).pool }
    requires area { CanGather (seen D.state rig.old) batch.old }
    requires few { batch.old.calls < 2 ^ 40 + (trunk_of batch.old).adopted }
    requires kind { IsOfKind kind.Map command }
    requires other { command ≡ variants.Sync → ⊥ }
    ensures rule { batch.new.tree.settle ≡ batch.old.tree.settle }
    ensures takes { TakesTo command (seen D.state rig.old) (seen D.state rig.new)
        batch.old batch.new result }
    ensures counts { CountsCommand command (seen D.state rig.old) (seen D.state rig.new)
        batch.old batch.new }
    ensures room { IsTrue (seen D.state rig.old).device.told → BatchWithin (batch.old.calls + 1)
        (seen D.state rig.old) (seen D.state rig.new) batch.old }
    ensures over { IfErr result (λ fault. IsTrue (seen D.state rig.old).device.told
        → BatchOver (batch.old.calls + 1) (seen D.state rig.old) batch.old fault) }
{
    match command {
        Command::Put { key, value } => batch.put(rig, key, value),
        Command::Del { key } => batch.del(rig, key),
        Command::Get { key } => batch.get(rig, key),
        Command::Add { key, value } => batch.add(rig, key, value),
        _ => Ok(()),
    }
}

/// The answers of a batch in order. If the list claims more answers than a batch may have, the
/// device lost what was stored.
#[tactic(auto, using(crate::proofs::OrderedBatch::no_queue_made, crate::proofs::OrderedBatch::too_many))]
pub(crate) fn order_answers<D: Device>(
    rig: &mut Rig<'_, D>,
    answers: Chain,
) -> Result<Chain, EmFault>
    requires are { AreAnswers (seen D.state rig.old) answers }
    ensures orders { OrdersAnswers (seen D.state rig.old) (seen D.state rig.new) answers result }
{
    if answers.len() > ANSWERS_MOST {
        return Err(EmFault::Damaged { block: 0 });
    }
    match ExtQueue::new(rig) {
        Ok(queue) => put_in_order(rig, queue, answers),
        Err(fault) => Err(fault),
    }
}

impl<F: Fn(u64, u64) -> u64 + Drop> Service for Batch<F> {
    ghost use Rattle.em_map.specs.Batch.{BatchHasFrames, HasCommands, areas_of, batch_blocks, rule_of};

    type Rule = MapRule<F>;

    ghost KIND = { kind.Map };

    ghost combiner = { λ b. rule_of b };

    ghost combiner_of = { λ rule. apply_of rule.settle.kind };

    ghost IsRule = { λ rule. ⟦<AddSettle<F> as Settle>⟧.IsReady rule.settle };

    ghost Has = { λ b s before cs. HasCommands s b before cs };

    ghost blocks = { λ b s. batch_blocks s b };

    ghost IsService = { λ b s. IsGivenBatch s b × ⟦<AddSettle<F> as Settle>⟧.IsReady b.tree.settle };

    ghost HasItsFrames = { λ b s. BatchHasFrames s b };

    ghost counts = { λ b. batch_counts b };

    ghost most = { λ b. 2 ^ 40 + (trunk_of b).adopted };

    ghost frames = { 2 };

    ghost areas = { λ b. areas_of b };

    ghost size = { λ b shape cs. map_size b.early shape cs };

    ghost size_by = { λ rule shape cs. map_size rule.early shape cs };

    ghost allowance = { Some map_share };

    ghost room = { Some stated_room };

    ghost no_queue = { laws.no_queue };

    ghost few_frames = { laws.two_frames };

    ghost few_areas = { laws.few_areas };

    ghost size_most = { laws.size_most };

    ghost size_rises = { laws.size_rises };

    ghost answers_few = { laws.answers_few };

    ghost synced_few = { laws.answers_few };

    ghost frames_of = { λ b s h. laws.frames_of b s h.0 };

    ghost n_is = { laws.n_is };

    ghost syncs_few = { laws.syncs_few };

    ghost holds = { λ b s h told. laws.holds b s h.0 told };

    ghost stays = { λ b held s t h touches apart out.
        let st = laws.stays b held s t h.0 touches apart out in ((st.0, h.1), st.1, st.2) };

    ghost frames_stay = { laws.frames_stay };

    ghost out = { laws.out };

    ghost unstored_most = { λ b s h. laws.unstored_most b };

    ghost rising = { laws.rising };

    ghost rising_room = { laws.rising_room };

    const KIND: FileKind = FileKind::Map;

    #[tactic(auto, using(crate::proofs::Batching::made, crate::proofs::Batching::made_given, crate::proofs::Batching::made_full, crate::proofs::Batching::made_none, crate::proofs::Batching::made_room, crate::proofs::Batching::unmade_goes, crate::proofs::Batching::unmade_owes, crate::proofs::Batching::unmade_cause, crate::proofs::Batching::made_moves, crate::proofs::Batching::made_areas, crate::proofs::Batching::made_size))]
    fn new<D: Device>(rig: &mut Rig<'_, D>, rule: MapRule<F>) -> Result<Batch<F>, EmFault> {
        new_batch(rig, rule)
    }

    #[tactic(auto, using(crate::proofs::Batching::take_goes, crate::proofs::Batching::take_frames, crate::proofs::Batching::take_is, crate::proofs::Batching::take_has, crate::proofs::Batching::takes, crate::proofs::Batching::take_owes, crate::proofs::Batching::take_cause, crate::proofs::Batching::take_free))]
    fn take<D: Device>(&mut self, rig: &mut Rig<'_, D>, command: Command) -> Result<(), EmFault> {
        give_batch(self, rig, command)
    }

    #[tactic(auto, using(crate::proofs::Batching::sync_free))]
    fn sync<D: Device>(&mut self, rig: &mut Rig<'_, D>) -> Result<Chain, EmFault> {
        match Batch::sync(self, rig) {
            Ok(handed) => order_answers(rig, handed),
            Err(fault) => Err(fault),
        }
    }

    #[tactic(auto, using(crate::proofs::Batching::answers_free, crate::proofs::BatchAnswers::answers_cause, crate::proofs::BatchAnswers::unfinished_gives, crate::proofs::BatchAnswers::unfinished_owes, crate::proofs::BatchAnswers::unfinished_cause))]
    fn answers<D: Device>(self, rig: &mut Rig<'_, D>) -> Result<Chain, EmFault> {
        match self.finish(rig) {
            Ok(answers) => order_answers(rig, answers),
            Err(fault) => Err(fault),
        }
    }

    #[tactic(auto, using(crate::proofs::Batching::left_gives, crate::proofs::Batching::left_unmoved))]
    fn abandon<D: Device>(self, rig: &mut Rig<'_, D>) {
        Batch::abandon(self, rig);
    }
}
