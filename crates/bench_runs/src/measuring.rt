ghost use Rattle.std.specs.Prelude.{◌≡◌, ◌<◌, ◌≤◌, ◌^◌, [], IfOk, IsTrue};
ghost use Rattle.em_frames.specs.Pool.{fresh_pool};
ghost use Rattle.em_space.specs.Rig.{Sound, Goes};
ghost use Rattle.em_space.specs.Seen.{seen};
ghost use Rattle.bench_runs.specs.Bench.{run_shape};

use crate::bench::Bench;
use crate::records::write;
use crate::stop::Stop;
use em_frames::{Device, Grant};
use em_record::Shape;
use em_space::{EmFault, Rig};
use std::alloc::Global;

/// The records of a block.
const BLOCK: u64 = 1024;

/// The frames of the pool.
const FRAMES: u64 = 256;

/// What a run answered, and what it cost.
#[derive(Clone, Copy, Debug, PartialEq, Eq)]
pub struct Measured {
    /// The sum that the bench answered.
    pub sum: u64,
    /// The block moves.
    pub moves: u64,
    /// The greatest number of blocks in use at once.
    pub most: u64,
    /// The blocks in use at the end.
    pub used: u64,
}

/// Makes a chain of the records of the numbers below `count`, and runs a bench on it.
fn write_and_run<D: Device, B: Bench>(
    rig: &mut Rig<'_, D>,
    bench: &B,
    count: u64,
) -> Result<u64, EmFault>
    requires sound { Sound (seen D.state rig.old) }
    requires pool { (seen D.state rig.old).pool ≡ fresh_pool run_shape }
    requires none_used { (seen D.state rig.old).used ≡ 0 }
    requires count { count ≤ 2 ^ 40 }
    ensures goes { Goes [] (seen D.state rig.old) (seen D.state rig.new) }
    ensures answers { IsTrue (seen D.state rig.old).device.told → IfOk result (λ sum.
        B.MayAnswer count sum (seen D.state rig.new).used) }
{
    let chain = write(rig, count)?;
    bench.run(rig, chain, count)
}

/// Writes the records of the numbers below `count` over a device of `blocks` blocks that isn't begun
/// yet, and runs a bench on them, with blocks of 1024 records and 256 frames.
pub fn measure<D: Device, B: Bench>(
    alloc: Global,
    bench: &B,
    device: &mut D,
    blocks: u64,
    count: u64,
) -> Result<Measured, Stop>
    requires device { (D.state device.old).blocks ≡ 0 }
    requires blocks_low { 0 < blocks }
    requires blocks_high { blocks ≤ 2 ^ 40 }
    requires count { count ≤ 2 ^ 40 }
    ensures { IsTrue (D.state device.old).told → IfOk result (λ run.
        B.MayAnswer count run.sum run.used) }
{
    let Ok(shape) = Shape::new(BLOCK, FRAMES) else {
        unreachable!()
    };
    let Ok(pool) = Grant::new(alloc).pool(shape) else {
        return Err(Stop::NoMemory);
    };
    match Rig::open(shape, blocks, device, pool) {
        Ok(mut rig) => {
            let sum = write_and_run(&mut rig, bench, count);
            let (moves, most, used) = (rig.moves(), rig.most(), rig.used());
            rig.close().end();
            match sum {
                Ok(sum) => Ok(Measured {
                    sum,
                    moves,
                    most,
                    used,
                }),
                Err(fault) => Err(Stop::Em(fault)),
            }
        }
        Err(refused) => {
            let (pool, fault) = refused.take();
            pool.end();
            Err(Stop::Begin(fault))
        }
    }
}
