//! Two lists that are read as one.
ghost use Rattle.std.specs.Prelude.{◌≡◌, ◌<◌, ◌≤◌, ◌^◌, length, IsTrue, OnOk};
ghost use Rattle.em_frames.specs.Pool.{SameFrames};
ghost use Rattle.em_space.specs.Held.{Apart};
ghost use Rattle.em_space.specs.Rig.{Goes, Sound};
ghost use Rattle.em_space.specs.Seen.{seen};
ghost use Rattle.em_chain.specs.Chain.{IsChain, chain_blocks};
ghost use Rattle.em_weave.specs.State.{IsWeave, WeaveHasFrames, weave_blocks};

use em_chain::Chain;
use em_devices::write;
use em_frames::Device;
use em_record::Record;
use em_space::{EmFault, Rig};
use em_weave::{Side, Weave};

/// The record that a weave gives, with 1 in `d` if it comes from the right. A record with 2 there stands for none.
fn marked(side: Option<Side>) -> Record {
    match side {
        Some(Side::Left(record)) => record,
        Some(Side::Right(record)) => Record { d: 1, ..record },
        None => Record {
            d: 2,
            ..Record::ZERO
        },
    }
}

/// Whether a weave gives these records first, as `marked` has them.
fn follows<D: Device>(
    rig: &mut Rig<'_, D>,
    weave: &mut Weave,
    sides: &[Record],
) -> Result<bool, EmFault>
    requires sound { Sound (seen D.state rig.old) }
    requires is { IsWeave (seen D.state rig.old) weave.old }
    requires free { 0 < (seen D.state rig.old).pool.free }
    ensures goes { Goes (weave_blocks (seen D.state rig.old) weave.old)
        (seen D.state rig.old) (seen D.state rig.new) }
    ensures frames { WeaveHasFrames (seen D.state rig.new) weave.new }
    ensures is { OnOk result (IsWeave (seen D.state rig.new) weave.new) }
{
    for side in sides {
        let next = weave.next(rig)?;
        if marked(next) != *side {
            return Ok(false);
        }
    }
    Ok(true)
}

/// Weaves two chains, and ends after these records.
fn weaves<D: Device>(
    rig: &mut Rig<'_, D>,
    left: Chain,
    right: Chain,
    sides: &[Record],
) -> Result<bool, EmFault>
    requires sound { Sound (seen D.state rig.old) }
    requires left { IsChain (seen D.state rig.old) left }
    requires right { IsChain (seen D.state rig.old) right }
    requires apart { IsTrue (seen D.state rig.old).device.told
        → Apart (chain_blocks (seen D.state rig.old) left)
        (chain_blocks (seen D.state rig.old) right) }
    requires free { 2 < (seen D.state rig.old).pool.free }
    ensures sound { Sound (seen D.state rig.new) }
    ensures frames { SameFrames (seen D.state rig.old).pool (seen D.state rig.new).pool }
{
    let mut weave = Weave::new(rig, left, right);
    match follows(rig, &mut weave, sides) {
        Ok(same) => {
            weave.end(rig)?;
            Ok(same)
        }
        Err(fault) => {
            weave.abandon(rig);
            Err(fault)
        }
    }
}

/// Writes two lists and weaves them.
pub fn play<D: Device>(
    rig: &mut Rig<'_, D>,
    lists: (&[Record], &[Record]),
    sides: &[Record],
) -> Result<bool, EmFault>
    requires sound { Sound (seen D.state rig.old) }
    requires free { 2 < (seen D.state rig.old).pool.free }
    requires left { length lists.0.now ≤ 2 ^ 20 }
    requires right { length lists.1.now ≤ 2 ^ 20 }
    ensures sound { Sound (seen D.state rig.new) }
    ensures frames { SameFrames (seen D.state rig.old).pool (seen D.state rig.new).pool }
{
    let left = write(rig, lists.0)?;
    let right = write(rig, lists.1)?;
    weaves(rig, left, right, sides)
}
