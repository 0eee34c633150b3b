ghost use Rattle.std.specs.Prelude.{ℕ, IfOk, IsTrue};
ghost use Rattle.em_space.specs.Rig.{Goes};
ghost use Rattle.em_space.specs.Seen.{seen};
ghost use Rattle.em_chain.specs.Chain.{chain_blocks};
ghost use Rattle.bench_runs.specs.Bench.{StartsWith};

use em_chain::Chain;
use em_frames::Device;
use em_space::{EmFault, Rig};

/// What a program of `bench/run` does with a chain of numbered records.
pub trait Bench {
    /// What it may answer over a device that tells: the number of records, the sum, and the blocks
    /// that are in use at the end.
    ghost MayAnswer: { ℕ → ℕ → ℕ → Type 0 };

    /// The name of the program, for its messages.
    fn name(&self) -> &'static str;

    /// Works on the chain, and answers a sum. It has all frames of the run, and gives all back.
    fn run<D: Device>(&self, rig: &mut Rig<'_, D>, chain: Chain, count: u64) -> Result<u64, EmFault>
        requires starts { StartsWith (seen D.state rig.old) chain count }
        ensures goes { Goes (chain_blocks (seen D.state rig.old) chain)
            (seen D.state rig.old) (seen D.state rig.new) }
        ensures answers { IsTrue (seen D.state rig.old).device.told → IfOk result (λ sum.
            MayAnswer count sum (seen D.state rig.new).used) };
}
