//! Scripts of calls on a rig, and what they answer and cost on a new one.
ghost use Rattle.std.specs.Prelude.{◌≡◌, ◌<◌, ◌≤◌, ◌^◌};
ghost use Rattle.em_frames.specs.Pool.{SameFrames};
ghost use Rattle.em_space.specs.Rig.{Sound};
ghost use Rattle.em_space.specs.Seen.{seen};

use crate::blocks::{free_both, free_first, free_many, two_blocks};
use crate::cells::{keep_beside, read_renewed, read_second, wait_again};
use em_devices::{Cost, ended, opened};
use em_frames::{Device, MemDevice};
use em_space::{EmFault, Rig};
use std::alloc::Global;
use std::test::Fail;

/// What is called on a new rig.
#[derive(Clone, Copy, Debug)]
pub(crate) enum Script {
    TwoBlocks,
    FreeFirst,
    FreeBoth,
    /// `free_many` of this many blocks.
    FreeMany(u64),
    /// `beside` as often as this.
    Beside(u64),
    ReadSecond,
    WaitAgain,
    Renew,
}

/// What a script answers.
fn follow<D: Device>(rig: &mut Rig<'_, D>, script: Script) -> Result<u64, EmFault>
    requires sound { Sound (seen D.state rig.old) }
    requires free { 1 < (seen D.state rig.old).pool.free }
    requires shape { (seen D.state rig.old).pool.shape.block ≡ 128 }
    ensures sound { Sound (seen D.state rig.new) }
    ensures frames { SameFrames (seen D.state rig.old).pool (seen D.state rig.new).pool }
{
    match script {
        Script::TwoBlocks => two_blocks(rig),
        Script::FreeFirst => free_first(rig),
        Script::FreeBoth => free_both(rig),
        Script::FreeMany(count) => free_many(rig, count),
        Script::Beside(times) => keep_beside(rig, times),
        Script::ReadSecond => read_second(rig),
        Script::WaitAgain => wait_again(rig),
        Script::Renew => read_renewed(rig),
    }
}

/// What was answered, and what it cost.
pub(crate) type Ended = (Result<u64, EmFault>, Cost);

/// What a script answers on a new rig of this many blocks over a device, and what it costs.
pub(crate) fn run<D: Device>(
    alloc: Global,
    device: &mut D,
    blocks: u64,
    script: Script,
) -> Result<Ended, Fail>
    requires fresh { (D.state device.old).blocks ≡ 0 }
    requires blocks_low { 0 < blocks }
    requires blocks_high { blocks ≤ 2 ^ 40 }
{
    let mut rig = opened(alloc, blocks, device)?;
    let answer = follow(&mut rig, script);
    Ok((answer, ended(rig)))
}

/// The same over a device in memory of which this call fails, with the moves and the faults that the
/// device counted.
pub(crate) fn run_kept(
    alloc: Global,
    failing: u64,
    blocks: u64,
    script: Script,
) -> Result<(Ended, u64, u64), Fail>
    requires blocks_low { 0 < blocks }
    requires blocks_high { blocks ≤ 2 ^ 40 }
{
    let mut device = MemDevice::new(alloc, &[failing])?;
    let ended = run(alloc, &mut device, blocks, script)?;
    Ok((ended, device.moves(), device.faults()))
}
