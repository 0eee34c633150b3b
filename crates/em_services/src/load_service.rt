//! A map that begins at the pairs of a tree which a builder made, over the batch of em_map. The pairs are its first commands, one
//! put each, and the moves of the builder count as its own:
//!
//!     builder --> tree of [1: 2] [3: 1] --over--> put 1 2, put 3 1 --take--> put 1 2, put 3 1, get 3

ghost use Rattle.std.specs.Prelude.{◌≡◌, ℕ, ◌+◌, ◌^◌, ◌≤◌, List, Some, length};
ghost use Rattle.em_bulk_plan.specs.Moves.{builder_share};
ghost use Rattle.em_lines.specs.declared.text.FileKind.TheVariants as kind;
ghost use Rattle.em_map.specs.Over.{IsTreeOf};
ghost use Rattle.em_record.specs.Cost.{room as stated_room};
ghost use Rattle.em_services.specs.BatchLaws as batches;
ghost use Rattle.em_services.specs.BatchService.{IsGivenBatch};
ghost use Rattle.em_services.specs.LoadLaws as laws;
ghost use Rattle.em_services.specs.LoadLaws.{BeginsLoad, IsLoaded, load_counts, load_share};
ghost use Rattle.em_services.specs.Service.{size_of};
ghost use Rattle.em_services.specs.SizeLaws as sizes;
ghost use Rattle.em_settle.specs.Add.{apply_of};
ghost use Rattle.em_space.specs.Rig.{RigState};

use crate::batch_service::{give_batch, order_answers};
use crate::service::Service;
use em_chain::Chain;
use em_frames::Device;
use em_lines::FileKind;
use em_map::Batch;
use em_model::Command;
use em_settle::{AddSettle, Settle};
use em_space::{EmFault, Rig};
use em_tree::Tree;

/// A map that begins at the pairs of a tree which a builder made. The moves of the builder count as its own. It keeps its
/// commands in a batch that joins no adds early.
pub struct Load<F: Fn(u64, u64) -> u64 + Drop> {
    batch: Batch<F>,
    /// The moves of the builder.
    built: u64,
}

impl<F: Fn(u64, u64) -> u64 + Drop> Load<F> {
    /// A map over a tree of pairs, as a builder leaves it after `built` moves, whose adds are joined by the tree's rules. The pairs
    /// are its first commands, one put each; `pairs` is how many they are. Nothing is moved.
    pub fn over(tree: Tree<AddSettle<F>>, pairs: u64, built: u64) -> Load<F>
        requires count { pairs ≡ tree.trunk.adopted }
        ensures is { (s : RigState) (list : List (ℕ × ℕ)) → IsTreeOf s tree.trunk list
            → ⟦<AddSettle<F> as Settle>⟧.IsReady tree.settle
            → built ≤ builder_share s.pool.shape (length list)
            → ⟦<Load<F> as Service>⟧.IsService result s }
        ensures begins { (s : RigState) (list : List (ℕ × ℕ)) → IsTreeOf s tree.trunk list
            → BeginsLoad s tree built list result }
    {
        Load {
            batch: Batch::over(tree, pairs),
            built,
        }
    }
}

impl<F: Fn(u64, u64) -> u64 + Drop> Service for Load<F> {
    ghost use Rattle.em_map.specs.Batch.{BatchHasFrames, HasCommands, areas_of, batch_blocks, rule_of, trunk_of};

    type Rule = AddSettle<F>;

    ghost KIND = { kind.Map };

    ghost combiner = { λ v. rule_of v.batch };

    ghost combiner_of = { λ rule. apply_of rule.kind };

    ghost IsRule = { λ rule. ⟦<AddSettle<F> as Settle>⟧.IsReady rule };

    ghost Has = { λ v s before cs. HasCommands s v.batch before cs };

    ghost blocks = { λ v s. batch_blocks s v.batch };

    ghost IsService = { λ v s. IsGivenBatch s v.batch
        × ⟦<AddSettle<F> as Settle>⟧.IsReady v.batch.tree.settle × IsLoaded s v };

    ghost HasItsFrames = { λ v s. BatchHasFrames s v.batch };

    ghost counts = { λ v. load_counts v };

    ghost most = { λ v. 2 ^ 40 + (trunk_of v.batch).adopted };

    ghost frames = { 2 };

    ghost areas = { λ v. areas_of v.batch };

    ghost size = { λ v shape cs. size_of kind.Map cs };

    ghost size_by = { λ rule shape cs. size_of kind.Map cs };

    ghost allowance = { Some load_share };

    ghost room = { Some stated_room };

    ghost no_queue = { batches.no_queue };

    ghost few_frames = { batches.two_frames };

    ghost few_areas = { λ v. batches.few_areas v.batch };

    ghost size_most = { λ v shape cs. sizes.size_most kind.Map cs };

    ghost size_rises = { λ v shape cs more. sizes.size_rises kind.Map cs more };

    ghost answers_few = { λ v s before cs h. sizes.map_answers_few (rule_of v.batch) before cs };

    ghost synced_few = { λ v s before cs h. sizes.map_answers_few (rule_of v.batch) before cs };

    ghost frames_of = { λ v s h. batches.frames_of v.batch s h.0 };

    ghost n_is = { λ v s before cs h. batches.n_is v.batch s before cs h };

    ghost syncs_few = { λ v s before cs h. batches.syncs_few v.batch s before cs h };

    ghost holds = { λ v s h told. batches.holds v.batch s h.0 told };

    ghost stays = { λ v held s t h touches apart out.
        let st = batches.stays v.batch held s t h.0 touches apart out in
        ((st.0, h.1, laws.loaded_stays v held s t touches h.2), st.1, st.2) };

    ghost frames_stay = { λ v held s t. batches.frames_stay v.batch held s t };

    ghost out = { λ v s. batches.out v.batch s };

    ghost unstored_most = { λ v s h. batches.unstored_most v.batch };

    ghost rising = { laws.rising };

    ghost rising_room = { batches.rising_room };

    const KIND: FileKind = FileKind::Map;

    fn new<D: Device>(rig: &mut Rig<'_, D>, rule: AddSettle<F>) -> Result<Load<F>, EmFault> {
        match Batch::with(rig, rule) {
            Ok(batch) => Ok(Load { batch, built: 0 }),
            Err(fault) => Err(fault),
        }
    }

    #[tactic(auto, using(crate::proofs::Batching::take_goes, crate::proofs::Batching::take_frames, crate::proofs::Batching::take_has, crate::proofs::Batching::take_owes, crate::proofs::Batching::take_cause, crate::proofs::Batching::take_free))]
    fn take<D: Device>(&mut self, rig: &mut Rig<'_, D>, command: Command) -> Result<(), EmFault> {
        give_batch(&mut self.batch, rig, command)
    }

    #[tactic(auto, using(crate::proofs::Batching::sync_free))]
    fn sync<D: Device>(&mut self, rig: &mut Rig<'_, D>) -> Result<Chain, EmFault> {
        match self.batch.sync(rig) {
            Ok(handed) => order_answers(rig, handed),
            Err(fault) => Err(fault),
        }
    }

    #[tactic(auto, using(crate::proofs::Batching::answers_free, crate::proofs::BatchAnswers::answers_cause, crate::proofs::BatchAnswers::unfinished_gives, crate::proofs::BatchAnswers::unfinished_owes, crate::proofs::BatchAnswers::unfinished_cause))]
    fn answers<D: Device>(self, rig: &mut Rig<'_, D>) -> Result<Chain, EmFault> {
        let Load { batch, built: _ } = self;
        match batch.finish(rig) {
            Ok(answers) => order_answers(rig, answers),
            Err(fault) => Err(fault),
        }
    }

    fn abandon<D: Device>(self, rig: &mut Rig<'_, D>) {
        let Load { batch, built: _ } = self;
        batch.abandon(rig);
    }
}
