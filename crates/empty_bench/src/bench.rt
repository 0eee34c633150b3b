ghost use Rattle.std.specs.Prelude.{IfOk, IsTrue};
ghost use Rattle.em_space.specs.Rig.{Goes, InUse};
ghost use Rattle.em_space.specs.Seen.{seen};
ghost use Rattle.em_chain.specs.Chain.{chain_blocks};
ghost use Rattle.bench_runs.specs.Bench.{StartsWith};
ghost use Rattle.empty_bench.specs.Steps.{HasRecords};

use crate::nodes::{make_node, weigh};
use bench_runs::Bench;
use em_chain::Chain;
use em_empty::empty_node;
use em_frames::Device;
use em_settle::BagSettle;
use em_space::{EmFault, Rig};

/// Empties a chain into a node of 64 places, and sums the places of the records there.
#[derive(Drop)]
pub struct EmptyBench {}

/// Empties a chain into a new node. Answers the number of the node's block.
fn empty_chain<D: Device>(rig: &mut Rig<'_, D>, chain: Chain, count: u64) -> Result<u64, EmFault>
    requires starts { StartsWith (seen D.state rig.old) chain count }
    ensures goes { Goes (chain_blocks (seen D.state rig.old) chain)
        (seen D.state rig.old) (seen D.state rig.new) }
    ensures in_use { IfOk result (InUse (seen D.state rig.new)) }
    ensures has { IsTrue (seen D.state rig.old).device.told → IfOk result (λ node.
        HasRecords (seen D.state rig.new) node count) }
{
    let node = make_node(rig)?;
    empty_node(rig, &BagSettle {}, node, chain)?;
    Ok(node)
}

impl Bench for EmptyBench {
    ghost use Rattle.std.specs.Prelude.{◌≡◌};
    ghost use Rattle.empty_bench.specs.Places.{place_sum};

    ghost MayAnswer = { λ count sum used. sum ≡ place_sum count };

    /// `empty_bench`.
    fn name(&self) -> &'static str {
        "empty_bench"
    }

    /// The sum of the places of the records, each counted from 1. The node and its buffers stay in
    /// use.
    fn run<D: Device>(
        &self,
        rig: &mut Rig<'_, D>,
        chain: Chain,
        count: u64,
    ) -> Result<u64, EmFault> {
        let node = empty_chain(rig, chain, count)?;
        weigh(rig, node)
    }
}
