//! A map that gives its pairs at the end, over the batch of em_map. Nobody asks for the answers of its gets: they are given up
//! at each sync, and at the end.
//!
//!     batch --sync--> answers, which are released
//!     batch --into_tree--> tree --drain--> [1: 2] [3: 1]

ghost use Rattle.std.specs.Prelude.{◌≡◌, ◌+◌, ◌++◌, ◌^◌, ◌<◌, IfErr, IfOk, Some};
ghost use Rattle.em_chain.specs.Chain.{IsChain, chain_blocks, empty_chain};
ghost use Rattle.em_chain.specs.Row.{Frees};
ghost use Rattle.em_lines.specs.declared.text.FileKind.TheVariants as kind;
ghost use Rattle.em_record.specs.Cost.{room as stated_room};
ghost use Rattle.em_services.specs.BatchLaws as batches;
ghost use Rattle.em_services.specs.BatchService.{IsGivenBatch, batch_counts, map_share};
ghost use Rattle.em_services.specs.DumpLaws as laws;
ghost use Rattle.em_services.specs.DumpLaws.{IsOwnBatch};
ghost use Rattle.em_services.specs.Service.{size_of};
ghost use Rattle.em_services.specs.SizeLaws as sizes;
ghost use Rattle.em_settle.specs.Add.{apply_of};
ghost use Rattle.em_space.specs.Rig.{BlockCause, Goes, Sound};
ghost use Rattle.em_space.specs.Seen.{seen};

use crate::batch_service::give_batch;
use crate::pair_list::list_pairs;
use crate::service::Service;
use em_chain::{Chain, discard};
use em_frames::Device;
use em_lines::FileKind;
use em_map::Batch;
use em_model::Command;
use em_settle::{AddSettle, Settle};
use em_space::{EmFault, Rig};

/// A map that gives its pairs at the end, each key with its value, keys ascending. Its gets and syncs have no answer. It keeps its
/// commands in a batch that joins no adds early.
pub struct Dump<F: Fn(u64, u64) -> u64 + Drop> {
    batch: Batch<F>,
}

/// Releases the answers of a sync, by two moves at most for each block. The list that is due is empty.
fn give_up<D: Device>(rig: &mut Rig<'_, D>, answers: Chain) -> Result<Chain, EmFault>
    requires sound { Sound (seen D.state rig.old) }
    requires is { IsChain (seen D.state rig.old) answers }
    requires free { 0 < (seen D.state rig.old).pool.free }
    ensures goes { Goes (chain_blocks (seen D.state rig.old) answers)
        (seen D.state rig.old) (seen D.state rig.new) }
    ensures frees { Frees answers.blocks (seen D.state rig.old) (seen D.state rig.new) result }
    ensures empty { IfOk result (λ list. list ≡ empty_chain) }
    ensures cause { IfErr result (BlockCause (seen D.state rig.old) (seen D.state rig.new)) }
{
    match discard(rig, answers) {
        Ok(()) => Ok(Chain::empty()),
        Err(fault) => Err(fault),
    }
}

impl<F: Fn(u64, u64) -> u64 + Drop> Service for Dump<F> {
    ghost use Rattle.em_map.specs.Batch.{BatchHasFrames, HasCommands, areas_of, batch_blocks, rule_of, trunk_of};

    type Rule = AddSettle<F>;

    ghost KIND = { kind.Dump };

    ghost combiner = { λ v. rule_of v.batch };

    ghost combiner_of = { λ rule. apply_of rule.kind };

    ghost IsRule = { λ rule. ⟦<AddSettle<F> as Settle>⟧.IsReady rule };

    ghost Has = { λ v s before cs. HasCommands s v.batch before cs };

    ghost blocks = { λ v s. batch_blocks s v.batch };

    ghost IsService = { λ v s. IsGivenBatch s v.batch
        × ⟦<AddSettle<F> as Settle>⟧.IsReady v.batch.tree.settle × IsOwnBatch v.batch };

    ghost HasItsFrames = { λ v s. BatchHasFrames s v.batch };

    ghost counts = { λ v. batch_counts v.batch };

    ghost most = { λ v. 2 ^ 40 + (trunk_of v.batch).adopted };

    ghost frames = { 2 };

    ghost areas = { λ v. areas_of v.batch };

    ghost size = { λ v shape cs. size_of kind.Dump cs };

    ghost size_by = { λ rule shape cs. size_of kind.Dump cs };

    ghost allowance = { Some map_share };

    ghost room = { Some stated_room };

    ghost no_queue = { laws.no_queue };

    ghost few_frames = { batches.two_frames };

    ghost few_areas = { λ v. batches.few_areas v.batch };

    ghost size_most = { λ v shape cs. sizes.size_most kind.Dump cs };

    ghost size_rises = { λ v shape cs more. sizes.size_rises kind.Dump cs more };

    ghost answers_few = { λ v s before cs h. laws.pairs_records_few (rule_of v.batch) (before ++ cs) };

    ghost synced_few = { λ v s before cs h. sizes.none_few };

    ghost frames_of = { λ v s h. batches.frames_of v.batch s h.0 };

    ghost n_is = { λ v s before cs h. batches.n_is v.batch s before cs h };

    ghost syncs_few = { λ v s before cs h. batches.syncs_few v.batch s before cs h };

    ghost holds = { λ v s h told. batches.holds v.batch s h.0 told };

    ghost stays = { λ v held s t h touches apart out.
        let st = batches.stays v.batch held s t h.0 touches apart out in ((st.0, h.1, h.2), st.1, st.2) };

    ghost frames_stay = { λ v held s t. batches.frames_stay v.batch held s t };

    ghost out = { λ v s. batches.out v.batch s };

    ghost unstored_most = { λ v s h. batches.unstored_most v.batch };

    ghost rising = { batches.rising };

    ghost rising_room = { batches.rising_room };

    const KIND: FileKind = FileKind::Dump;

    fn new<D: Device>(rig: &mut Rig<'_, D>, rule: AddSettle<F>) -> Result<Dump<F>, EmFault> {
        match Batch::with(rig, rule) {
            Ok(batch) => Ok(Dump { batch }),
            Err(fault) => Err(fault),
        }
    }

    #[tactic(auto, using(crate::proofs::Batching::take_goes, crate::proofs::Batching::take_frames, crate::proofs::Batching::take_has, crate::proofs::Batching::takes, crate::proofs::Batching::take_owes, crate::proofs::Batching::take_cause, crate::proofs::Batching::take_free))]
    fn take<D: Device>(&mut self, rig: &mut Rig<'_, D>, command: Command) -> Result<(), EmFault> {
        give_batch(&mut self.batch, rig, command)
    }

    #[tactic(auto, using(crate::proofs::Batching::sync_free))]
    fn sync<D: Device>(&mut self, rig: &mut Rig<'_, D>) -> Result<Chain, EmFault> {
        match self.batch.sync(rig) {
            Ok(handed) => give_up(rig, handed),
            Err(fault) => Err(fault),
        }
    }

    #[tactic(auto, using(crate::proofs::Batching::answers_free, crate::proofs::BatchAnswers::unfinished_gives, crate::proofs::BatchAnswers::unfinished_cause))]
    fn answers<D: Device>(self, rig: &mut Rig<'_, D>) -> Result<Chain, EmFault> {
        let Dump { batch } = self;
        match batch.into_tree(rig) {
            Ok(tree) => list_pairs(rig, tree),
            Err(fault) => Err(fault),
        }
    }

    fn abandon<D: Device>(self, rig: &mut Rig<'_, D>) {
        let Dump { batch } = self;
        batch.abandon(rig);
    }
}
