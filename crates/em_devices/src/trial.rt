//! A rig of the smallest shape, for the length of a test.
ghost use Rattle.std.specs.Prelude.{◌≡◌, ◌<◌, ◌≤◌, ◌^◌, IfOk};
ghost use Rattle.em_frames.specs.Pool.{IsWhole, fresh_pool};
ghost use Rattle.em_space.specs.Rig.{Opens};
ghost use Rattle.em_space.specs.Seen.{seen};
ghost use Rattle.em_devices.specs.Small.{small};

use em_frames::{Device, Grant};
use em_record::Shape;
use em_space::Rig;
use std::alloc::Global;
use std::test::Fail;

/// What a test cost: the blocks in use, the most in use at once, the moves, and the most frames that
/// were out at once.
pub type Cost = (u64, u64, u64, u32);

/// A new rig of 128 records to a block and 64 frames, over a device that isn't begun yet.
pub fn opened<'d, D: Device>(
    alloc: Global,
    blocks: u64,
    device: &'d mut D,
) -> Result<Rig<'d, D>, Fail>
    requires fresh { (D.state device.old).blocks ≡ 0 }
    requires blocks_low { 0 < blocks }
    requires blocks_high { blocks ≤ 2 ^ 40 }
    ensures borrowed { IfOk result (λ r. r.device.ghost_name ≡ device.entry.ghost_name) }
    ensures opened { IfOk result (λ r.
        Opens (D.state device.old) (fresh_pool small) blocks (seen D.state r)) }
    ensures free { IfOk result (λ r. (seen D.state r).pool.free ≡ 48) }
{
    let shape = Shape::new(128, 64)?;
    let pool = Grant::new(alloc).pool(shape)?;
    match Rig::open(shape, blocks, device, pool) {
        Ok(rig) => Ok(rig),
        Err(refused) => {
            let (pool, fault) = refused.take();
            pool.end();
            Err(fault.into())
        }
    }
}

/// Closes a rig of which all frames are back, and answers what was done on it. The device stays as
/// it is.
pub fn ended<D: Device>(rig: Rig<'_, D>) -> Cost
    requires { IsWhole (seen D.state rig).pool }
    ensures used { result.0 ≡ (seen D.state rig.entry).used }
    ensures most { result.1 ≡ (seen D.state rig.entry).most }
    ensures moves { result.2 ≡ (seen D.state rig.entry).moves }
    ensures peak { result.3 ≡ (seen D.state rig.entry).pool.peak }
    ensures device { rig.exit.0.now ≡ rig.entry.device.now }
{
    let cost = (rig.used(), rig.most(), rig.moves(), rig.peak());
    rig.close().end();
    cost
}
