//! What cells answer and cost, as worked out by hand.
ghost use Rattle.std.specs.Prelude.{◌≡◌, ◌<◌};
ghost use Rattle.em_frames.specs.Pool.{SameFrames};
ghost use Rattle.em_space.specs.Rig.{Sound};
ghost use Rattle.em_space.specs.Seen.{seen};

use crate::scripts::{Script, run, run_kept};
use crate::words::words;
use em_cell::{Cell, Pending, beside, make_in_steps, renew};
use em_devices::Untold;
use em_frames::Device;
use em_space::{EmFault, Rig};
use std::test::Fail;

/// Calls `beside` as often as this with the numbers from 1 on: the last number that was kept.
pub(crate) fn keep_beside<D: Device>(rig: &mut Rig<'_, D>, times: u64) -> Result<u64, EmFault>
    requires sound { Sound (seen D.state rig.old) }
    requires free { 0 < (seen D.state rig.old).pool.free }
    ensures sound { Sound (seen D.state rig.new) }
    ensures frames { SameFrames (seen D.state rig.old).pool (seen D.state rig.new).pool }
{
    let mut kept = 0;
    for number in 0..times {
        let (_cell, read) = beside(rig, number + 1, 99)?;
        kept = read;
    }
    Ok(kept)
}

/// Two cells are made: the number of the second.
pub(crate) fn read_second<D: Device>(rig: &mut Rig<'_, D>) -> Result<u64, EmFault>
    requires sound { Sound (seen D.state rig.old) }
    requires free { 0 < (seen D.state rig.old).pool.free }
    ensures sound { Sound (seen D.state rig.new) }
    ensures frames { SameFrames (seen D.state rig.old).pool (seen D.state rig.new).pool }
{
    let _first = Cell::new(rig, 5)?;
    let second = Cell::new(rig, 6)?;
    second.get(rig)
}

/// A cell is made and ended: the blocks in use while a number waits for a block then.
pub(crate) fn wait_again<D: Device>(rig: &mut Rig<'_, D>) -> Result<u64, EmFault>
    requires sound { Sound (seen D.state rig.old) }
    requires free { 0 < (seen D.state rig.old).pool.free }
    ensures sound { Sound (seen D.state rig.new) }
    ensures frames { SameFrames (seen D.state rig.old).pool (seen D.state rig.new).pool }
{
    let first = Cell::new(rig, 5)?;
    first.end(rig)?;
    let pending = Pending::new(rig, 6)?;
    let used = rig.used();
    pending.abandon(rig);
    Ok(used)
}

/// A cell is made in two steps, ended and made again: its number.
pub(crate) fn read_renewed<D: Device>(rig: &mut Rig<'_, D>) -> Result<u64, EmFault>
    requires sound { Sound (seen D.state rig.old) }
    requires free { 0 < (seen D.state rig.old).pool.free }
    ensures sound { Sound (seen D.state rig.new) }
    ensures frames { SameFrames (seen D.state rig.old).pool (seen D.state rig.new).pool }
{
    let cell = make_in_steps(rig, 5)?;
    let cell = renew(rig, cell, 6)?;
    cell.get(rig)
}

/// A freed block is used again with no move, and the greatest number in use doesn't rise: each run of
/// `beside` makes three stores and a load. Its third run needs a fourth block after one store.
#[test]
fn blocks_and_moves_are_as_worked_by_hand(rt: HostRuntime) -> Result<(), Fail> {
    let full = Err(EmFault::Full { used: 3 });
    for (script, answer, cost) in [
        (Script::Beside(1), Ok(1), (1, 2, 4, 1)),
        (Script::Beside(2), Ok(2), (2, 3, 8, 1)),
        (Script::Beside(3), full, (3, 3, 9, 1)),
        (Script::ReadSecond, Ok(6), (2, 2, 3, 1)),
        (Script::WaitAgain, Ok(1), (1, 1, 1, 1)),
        (Script::Renew, Ok(6), (1, 1, 3, 1)),
    ] {
        let ended = run_kept(rt.alloc(), 99, 3, script)?;
        assert_eq!(rt; ended, ((answer, cost), cost.2, 0), "{script:?}");
    }
    Ok(())
}

/// Call 0 begins the device. Each row is the blocks in use, and the most of them, after the call of
/// its number failed, from 1 on.
#[test]
fn each_call_of_the_device_fails_in_turn(rt: HostRuntime) -> Result<(), Fail> {
    for (failing, used, most) in [
        (1, 1, 1),
        (2, 2, 2),
        (3, 2, 2),
        (4, 1, 2),
        (5, 2, 2),
        (6, 3, 3),
        (7, 3, 3),
        (8, 2, 3),
    ] {
        let ended = run_kept(rt.alloc(), failing, 3, Script::Beside(2))?;
        let failed = Err(EmFault::DeviceFault);
        let cost = (used, most, failing, 1);
        assert_eq!(rt; ended, ((failed, cost), failing, 1), "call {failing}");
    }
    Ok(())
}

/// At first each word that is read is 2^64 - 1. Block 1 is the second cell's. A freed block isn't read before
/// it comes again. Then the record that was written last is read: a cell that was stored before another one
/// has the other's number.
#[test]
fn a_block_that_is_not_laid_out_is_damaged(rt: HostRuntime) -> Result<(), Fail> {
    let first = Err(EmFault::Damaged { block: 0 });
    let second = Err(EmFault::Damaged { block: 1 });
    let most = u64::MAX;
    for (script, given, echoed) in [
        (
            Script::Beside(1),
            (first, (1, 2, 4, 1)),
            (Ok(99), (1, 2, 4, 1)),
        ),
        (
            Script::ReadSecond,
            (second, (2, 2, 3, 1)),
            (Ok(6), (2, 2, 3, 1)),
        ),
        (
            Script::WaitAgain,
            (Ok(1), (1, 1, 1, 1)),
            (Ok(1), (1, 1, 1, 1)),
        ),
    ] {
        let mut device = Untold::giving(words(most, most, most, most));
        let ended = run(rt.alloc(), &mut device, 3, script)?;
        assert_eq!(rt; ended, given, "{script:?}");
        let ended = run(rt.alloc(), &mut Untold::echo(), 3, script)?;
        assert_eq!(rt; ended, echoed, "{script:?}, as it was written last");
    }
    Ok(())
}
