//! A run: a structure over a new rig gets calls, from a new one to its end.
ghost use Rattle.std.specs.Prelude.{◌≡◌, ◌<◌, ◌≤◌, ◌^◌, IfOk};
ghost use Rattle.em_frames.specs.Pool.{fresh_pool};
ghost use Rattle.em_space.specs.Rig.{Opens};
ghost use Rattle.em_space.specs.Seen.{seen};
ghost use Rattle.em_structure_tests.specs.Ready.{HasAll, KeepsRig};

use crate::{batches, queues, sorts, stabs, trees};
use em_devices::{Cost, Quiet, ended};
use em_frames::{Device, Grant};
use em_record::{Record, Shape};
use em_space::{EmFault, Rig};
use std::alloc::Global;
use std::test::Fail;

/// What gets the calls.
#[derive(Clone, Copy, Debug, PartialEq, Eq)]
pub enum Structure {
    Tree,
    Batch,
    /// A batch that joins adds early.
    EarlyBatch,
    Queue,
    Stab,
    /// A queue that sorts a list of them.
    Sorting,
}

/// Whether the run gave up, and why; and what it cost.
pub type Told = (Result<(), EmFault>, Cost);

/// Some calls of a new structure, which is ended. Adds what they answer.
fn serve<D: Device>(
    rig: &mut Rig<'_, D>,
    structure: Structure,
    calls: &[Record],
    found: &mut Vec<Record>,
) -> Result<(), EmFault>
    requires { HasAll (seen D.state rig.old) }
    ensures { KeepsRig (seen D.state rig.old) (seen D.state rig.new) }
{
    match structure {
        Structure::Tree => trees::serve_in_area(rig, calls, found),
        Structure::Batch => batches::serve(rig, false, calls, found),
        Structure::EarlyBatch => batches::serve(rig, true, calls, found),
        Structure::Queue => queues::serve(rig, calls, found),
        Structure::Stab => stabs::serve(rig, calls, found),
        Structure::Sorting => sorts::serve(rig, calls, found),
    }
}

/// A new rig of this shape, over a device that isn't begun yet.
pub fn opened_as<'d, D: Device>(
    alloc: Global,
    shape: Shape,
    blocks: u64,
    device: &'d mut D,
) -> Result<Rig<'d, D>, Fail>
    requires fresh { (D.state device.old).blocks ≡ 0 }
    requires blocks_low { 0 < blocks }
    requires blocks_high { blocks ≤ 2 ^ 40 }
    ensures borrowed { IfOk result (λ r. r.device.ghost_name ≡ device.entry.ghost_name) }
    ensures opened { IfOk result (λ r.
        Opens (D.state device.old) (fresh_pool shape) blocks (seen D.state r)) }
{
    let pool = Grant::new(alloc).pool(shape)?;
    match Rig::open(shape, blocks, device, pool) {
        Ok(rig) => Ok(rig),
        Err(refused) => {
            let (pool, fault) = refused.take();
            pool.end();
            Err(fault.into())
        }
    }
}

/// A run over a rig of this shape and number of blocks, of a device of which this call fails. The call 0 begins the
/// device. All frames are back, or the rig couldn't be closed.
pub fn run_failing(
    alloc: Global,
    structure: Structure,
    shape: (u64, u64),
    blocks: u64,
    failing: u64,
    calls: &[Record],
    found: &mut Vec<Record>,
) -> Result<Told, Fail>
    requires blocks_low { 0 < blocks }
    requires blocks_high { blocks ≤ 2 ^ 40 }
{
    let shape = Shape::new(shape.0, shape.1)?;
    let mut device = Quiet::new(alloc, &[failing])?;
    let mut rig = opened_as(alloc, shape, blocks, &mut device)?;
    let told = serve(&mut rig, structure, calls, found);
    Ok((told, ended(rig)))
}

/// The call of a device that none of the runs makes.
pub const NO_CALL: u64 = u64::MAX;

/// A run over a device of 2000 blocks, of which no call fails. It doesn't give up. Answers what it cost.
pub fn run(
    alloc: Global,
    structure: Structure,
    shape: (u64, u64),
    calls: &[Record],
    found: &mut Vec<Record>,
) -> Result<Cost, Fail> {
    let (told, cost) = run_failing(alloc, structure, shape, 2000, NO_CALL, calls, found)?;
    told?;
    Ok(cost)
}
