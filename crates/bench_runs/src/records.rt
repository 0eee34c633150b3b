ghost use Rattle.std.specs.Prelude.{◌≡◌, ◌+◌, ◌<◌, ◌≤◌, ◌^◌, [], length, IfOk, OnOk, IsTrue};
ghost use Rattle.em_frames.specs.Pool.{HasFrames};
ghost use Rattle.em_space.specs.Rig.{Sound, Goes};
ghost use Rattle.em_space.specs.Seen.{seen};
ghost use Rattle.em_space.specs.Held.{Within};
ghost use Rattle.em_chain.specs.Chain.{IsChain, chain_blocks, chain_items};
ghost use Rattle.em_chain.specs.Writes.{Begins};
ghost use Rattle.bench_runs.specs.Numbered.{numbered, records_below, WritesBelow};

use em_chain::{Chain, Writer};
use em_frames::Device;
use em_record::Record;
use em_space::{EmFault, Rig};

/// What the number of a record is multiplied by for its first word, so that these spread over all
/// numbers of 64 bits.
const FACTOR: u64 = 11_400_714_819_323_198_485;

/// The record of a number.
fn numbered(number: u64) -> Record
    requires { number < 2 ^ 40 }
    ensures { result ≡ numbered number }
{
    Record {
        a: number.wrapping_mul(FACTOR),
        b: number + 1,
        c: 1,
        d: 0,
    }
}

/// Appends the records of the numbers below `count` to a list that has none.
fn append_all<D: Device>(
    rig: &mut Rig<'_, D>,
    writer: &mut Writer,
    count: u64,
) -> Result<(), EmFault>
    requires sound { Sound (seen D.state rig.old) }
    requires free { 0 < (seen D.state rig.old).pool.free }
    requires begins { Begins (seen D.state rig.old) writer.old }
    requires count { count ≤ 2 ^ 40 }
    ensures goes { Goes [] (seen D.state rig.old) (seen D.state rig.new) }
    ensures frame { HasFrames 1 (length writer.new.frame) (seen D.state rig.new).pool }
    ensures writes { OnOk result
        (WritesBelow (seen D.state rig.old) (seen D.state rig.new) writer.new count) }
{
    for number in 0..count {
        writer.append(rig, numbered(number))?;
    }
    Ok(())
}

/// Makes a chain of the records of the numbers below `count`.
pub fn write<D: Device>(rig: &mut Rig<'_, D>, count: u64) -> Result<Chain, EmFault>
    requires sound { Sound (seen D.state rig.old) }
    requires free { 1 < (seen D.state rig.old).pool.free }
    requires count { count ≤ 2 ^ 40 }
    ensures goes { Goes [] (seen D.state rig.old) (seen D.state rig.new) }
    ensures is { IfOk result (IsChain (seen D.state rig.new)) }
    ensures fresh { IfOk result (λ chain.
        Within (seen D.state rig.old) [] (chain_blocks (seen D.state rig.new) chain)) }
    ensures items { IsTrue (seen D.state rig.old).device.told → IfOk result (λ chain.
        chain_items (seen D.state rig.new) chain ≡ records_below count) }
    ensures used { IfOk result (λ chain.
        (seen D.state rig.new).used ≡ (seen D.state rig.old).used + chain.blocks) }
{
    let mut writer = Writer::new(rig);
    if let Err(fault) = append_all(rig, &mut writer, count) {
        writer.abandon(rig);
        return Err(fault);
    }
    writer.finish(rig)
}
