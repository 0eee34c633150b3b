use crate::chains::read;
use bench_runs::Bench;
use em_chain::Chain;
use em_frames::Device;
use em_space::{EmFault, Rig};

/// Reads a chain back by taking it, and sums the first two words of its records.
#[derive(Drop)]
pub struct ChainBench {}

impl Bench for ChainBench {
    ghost use Rattle.std.specs.Prelude.{◌≡◌};
    ghost use Rattle.bench_runs.specs.Numbered.{records_below};
    ghost use Rattle.chain_bench.specs.Sums.{sum_from};

    ghost MayAnswer = { λ count sum used.
        (sum ≡ sum_from 0 (records_below count)) × (used ≡ 0) };

    /// `chain_bench`.
    fn name(&self) -> &'static str {
        "chain_bench"
    }

    /// The sum of the records that were taken. No block is left in use.
    fn run<D: Device>(
        &self,
        rig: &mut Rig<'_, D>,
        chain: Chain,
        _count: u64,
    ) -> Result<u64, EmFault> {
        read(rig, chain)
    }
}
