//! A rig over a device that keeps its blocks, that fails, and that gives other records.
ghost use Rattle.std.specs.Prelude.{◌≡◌, ◌≢◌, ◌<◌, [], ◌∷◌, length, IfOk, IsTrue};
ghost use Rattle.em_frames.specs.Pool.{SameFrames};
ghost use Rattle.em_space.specs.Rig.{Goes, InUse, Sound};
ghost use Rattle.em_space.specs.Seen.{seen};

use crate::scripts::{Script, run, run_kept};
use crate::words::words;
use em_devices::{Untold, ended, opened};
use em_frames::{BeginFault, Device, Frame, Grant, MemDevice};
use em_record::{Record, Shape};
use em_space::{EmFault, Rig};
use std::test::Fail;

/// Takes two blocks.
#[tactic(auto, using(em_space::proofs::Held::in_use_kept))]
fn take_two<D: Device>(rig: &mut Rig<'_, D>) -> Result<(u64, u64), EmFault>
    requires sound { Sound (seen D.state rig.old) }
    requires free { 0 < (seen D.state rig.old).pool.free }
    ensures goes { Goes [] (seen D.state rig.old) (seen D.state rig.new) }
    ensures first { IfOk result (λ two. InUse (seen D.state rig.new) two.0) }
    ensures second { IfOk result (λ two. InUse (seen D.state rig.new) two.1) }
    ensures apart { IfOk result (λ two. IsTrue (seen D.state rig.old).device.told
        → two.1 ≢ two.0) }
{
    let first = rig.alloc()?;
    let second = rig.alloc()?;
    Ok((first, second))
}

/// Stores a frame whose last record has this word a.
fn fill<D: Device>(
    rig: &mut Rig<'_, D>,
    frame: &mut Frame,
    block: u64,
    word: u64,
) -> Result<(), EmFault>
    requires sound { Sound (seen D.state rig.old) }
    requires in_use { InUse (seen D.state rig.old) block }
    requires len { length frame.old ≡ (seen D.state rig.old).pool.shape.block }
    requires shape { (seen D.state rig.old).pool.shape.block ≡ 128 }
    ensures goes { Goes (block ∷ []) (seen D.state rig.old) (seen D.state rig.new) }
    ensures in_use { InUse (seen D.state rig.new) block }
    ensures len { length frame.new ≡ length frame.old }
{
    frame.records_mut()[127].a = word;
    rig.store(block, frame)
}

/// Fills two blocks by a frame, and answers the word of the first.
#[tactic(auto, using(em_space::proofs::Held::in_use_kept))]
fn fill_two<D: Device>(rig: &mut Rig<'_, D>, frame: &mut Frame) -> Result<u64, EmFault>
    requires sound { Sound (seen D.state rig.old) }
    requires free { 0 < (seen D.state rig.old).pool.free }
    requires len { length frame.old ≡ (seen D.state rig.old).pool.shape.block }
    requires shape { (seen D.state rig.old).pool.shape.block ≡ 128 }
    ensures sound { Sound (seen D.state rig.new) }
    ensures frames { SameFrames (seen D.state rig.old).pool (seen D.state rig.new).pool }
    ensures len { length frame.new ≡ length frame.old }
{
    let (first, second) = take_two(rig)?;
    fill(rig, frame, first, 1)?;
    fill(rig, frame, second, 2)?;
    rig.load(first, frame)?;
    Ok(frame.records()[127].a)
}

/// Fills two blocks with records of word a 1 and 2, and answers that of the last record of the
/// first, by three moves.
pub(crate) fn two_blocks<D: Device>(rig: &mut Rig<'_, D>) -> Result<u64, EmFault>
    requires sound { Sound (seen D.state rig.old) }
    requires free { 1 < (seen D.state rig.old).pool.free }
    requires shape { (seen D.state rig.old).pool.shape.block ≡ 128 }
    ensures sound { Sound (seen D.state rig.new) }
    ensures frames { SameFrames (seen D.state rig.old).pool (seen D.state rig.new).pool }
{
    let mut frame = rig.lend();
    let word = fill_two(rig, &mut frame);
    rig.give(frame);
    word
}

/// Takes two blocks, frees the first, and takes two more, whose numbers are the digits of the answer.
pub(crate) fn free_first<D: Device>(rig: &mut Rig<'_, D>) -> Result<u64, EmFault>
    requires sound { Sound (seen D.state rig.old) }
    requires free { 0 < (seen D.state rig.old).pool.free }
    ensures sound { Sound (seen D.state rig.new) }
    ensures frames { SameFrames (seen D.state rig.old).pool (seen D.state rig.new).pool }
{
    let (first, _second) = take_two(rig)?;
    rig.release(first)?;
    let (third, fourth) = take_two(rig)?;
    Ok(third.saturating_mul(10).saturating_add(fourth))
}

/// Takes two blocks and frees both, and takes two more, whose numbers are the digits of the answer.
#[tactic(auto, using(em_space::proofs::Held::in_use_kept))]
pub(crate) fn free_both<D: Device>(rig: &mut Rig<'_, D>) -> Result<u64, EmFault>
    requires sound { Sound (seen D.state rig.old) }
    requires free { 0 < (seen D.state rig.old).pool.free }
    ensures sound { Sound (seen D.state rig.new) }
    ensures frames { SameFrames (seen D.state rig.old).pool (seen D.state rig.new).pool }
{
    let (first, second) = take_two(rig)?;
    rig.release(first)?;
    rig.release(second)?;
    let (third, fourth) = take_two(rig)?;
    Ok(third.saturating_mul(10).saturating_add(fourth))
}

/// Takes this many blocks, one after another, and frees them, the last one first.
#[tactic(auto, using(em_space::proofs::Held::in_use_kept, em_space::proofs::Apart::goes_made, em_space::proofs::Steps::goes_then))]
fn nest<D: Device>(rig: &mut Rig<'_, D>, count: u64) -> Result<(), EmFault>
    requires sound { Sound (seen D.state rig.old) }
    requires free { 0 < (seen D.state rig.old).pool.free }
    ensures goes { Goes [] (seen D.state rig.old) (seen D.state rig.new) }
{
    if count == 0 {
        return Ok(());
    }
    let block = rig.alloc()?;
    nest(rig, count - 1)?;
    rig.release(block)
}

/// Takes this many blocks.
fn take<D: Device>(rig: &mut Rig<'_, D>, count: u64) -> Result<(), EmFault>
    requires sound { Sound (seen D.state rig.old) }
    requires free { 0 < (seen D.state rig.old).pool.free }
    ensures sound { Sound (seen D.state rig.new) }
    ensures frames { SameFrames (seen D.state rig.old).pool (seen D.state rig.new).pool }
{
    for _ in 0..count {
        rig.alloc()?;
    }
    Ok(())
}

/// Takes as many blocks as this and frees them, the last one first, and takes 512, which are those whose
/// numbers are kept. Then it takes two more, whose numbers are the answer: the first one times 1000, and
/// the second.
pub(crate) fn free_many<D: Device>(rig: &mut Rig<'_, D>, count: u64) -> Result<u64, EmFault>
    requires sound { Sound (seen D.state rig.old) }
    requires free { 0 < (seen D.state rig.old).pool.free }
    ensures sound { Sound (seen D.state rig.new) }
    ensures frames { SameFrames (seen D.state rig.old).pool (seen D.state rig.new).pool }
{
    nest(rig, count)?;
    take(rig, 512)?;
    let (third, fourth) = take_two(rig)?;
    Ok(third.saturating_mul(1000).saturating_add(fourth))
}

/// The device begins by its call 0. A first store is its call 1, and a freed block is used again with no
/// call: the last one first, and before new ones. The third block of two is refused.
#[test]
fn blocks_are_kept_and_come_again(rt: HostRuntime) -> Result<(), Fail> {
    let failed = Err(EmFault::DeviceFault);
    let full = Err(EmFault::Full { used: 2 });
    for (script, blocks, failing, answer, cost, faults) in [
        (Script::TwoBlocks, 3, 9, Ok(1), (2, 2, 3, 1), 0),
        (Script::TwoBlocks, 3, 1, failed, (2, 2, 1, 1), 1),
        (Script::FreeFirst, 3, 1, Ok(2), (3, 3, 0, 0), 0),
        (Script::FreeFirst, 2, 1, full, (2, 2, 0, 0), 0),
        (Script::FreeBoth, 3, 1, Ok(10), (2, 2, 0, 0), 0),
    ] {
        let ended = run_kept(rt.alloc(), failing, blocks, script)?;
        assert_eq!(rt;
            ended,
            ((answer, cost), cost.2, faults),
            "{script:?} {failing}"
        );
    }
    Ok(())
}

/// Of 514 blocks that are freed, 512 numbers are kept. Block 1 and then block 0 are linked by one store each,
/// the calls 1 and 2, and come again by one load each, the calls 3 and 4. Of 513, block 0 is linked alone.
#[test]
fn numbers_past_512_are_linked(rt: HostRuntime) -> Result<(), Fail> {
    let failed = Err(EmFault::DeviceFault);
    for (count, failing, answer, cost, faults) in [
        (514, 9, Ok(1), (514, 514, 4, 1), 0),
        (514, 1, failed, (2, 514, 1, 1), 1),
        (514, 2, failed, (1, 514, 2, 1), 1),
        (514, 3, failed, (512, 514, 3, 1), 1),
        (514, 4, failed, (513, 514, 4, 1), 1),
        (513, 9, Ok(513), (514, 514, 2, 1), 0),
    ] {
        let ended = run_kept(rt.alloc(), failing, 514, Script::FreeMany(count))?;
        assert_eq!(rt;
            ended,
            ((answer, cost), cost.2, faults),
            "{count} {failing}"
        );
    }
    Ok(())
}

#[test]
fn a_device_that_is_not_begun_gives_the_pool_back(rt: HostRuntime) -> Result<(), Fail> {
    let shape = Shape::new(128, 64)?;
    let mut device = MemDevice::new(rt.alloc(), &[0])?;
    let pool = Grant::new(rt.alloc()).pool(shape)?;
    match Rig::open(shape, 3, &mut device, pool) {
        Ok(rig) => {
            rig.close().end();
            assert!(rt; false, "call 0 is to fail");
        }
        Err(refused) => {
            let (pool, fault) = refused.take();
            assert_eq!(rt; fault, BeginFault::Failed);
            assert_eq!(rt; (pool.free(), pool.free_areas()), (48, 2));
            pool.end();
        }
    }
    assert_eq!(rt; (device.moves(), device.faults()), (0, 1));
    Ok(())
}

/// 128 records and 64 frames: w is 8 frames for an area, and the rack has 32 places. Over a device that
/// tells nothing a block counts as in use by its number alone: with none in use its release does nothing.
#[test]
fn a_rig_lends_areas_and_the_rack(rt: HostRuntime) -> Result<(), Fail> {
    let mut device = Untold::giving(Record::ZERO);
    let mut rig = opened(rt.alloc(), 3, &mut device)?;
    let given = (rig.shape(), rig.blocks());
    let rack = rig.lend_rack();
    let area = rig.lend_area();
    assert_eq!(rt; (area.records().len(), rack.places()), (1024, 32));
    assert_eq!(rt; (rig.free(), rig.free_areas(), rig.peak()), (48, 1, 8));
    rig.give_area(area);
    rig.give_rack(rack);
    assert_eq!(rt; rig.release(2), Err(EmFault::Damaged { block: 2 }));
    assert_eq!(rt; ended(rig), (0, 0, 0, 8));
    assert_eq!(rt; given, (Shape::new(128, 64)?, 3));
    Ok(())
}

/// What a device gives in place of the header of the one linked block, after 513 were freed: other words,
/// another kind, a number of records, a word d, links though there is no other linked block, and the right header.
///
/// Then 514 are freed, and block 0 leads to block 1. With no link, or one past the 514 blocks, its header is
/// refused. With a link to block 1 it comes, and then the same header is refused for block 1, which is the
/// last one.
#[test]
fn a_damaged_header_is_refused(rt: HostRuntime) -> Result<(), Fail> {
    let first = Err(EmFault::Damaged { block: 0 });
    let second = Err(EmFault::Damaged { block: 1 });
    let most = u64::MAX;
    let one = (512, 513, 2, 1);
    let two = (512, 514, 3, 1);
    for (count, header, answer, cost) in [
        (513, words(most, most, most, most), first, one),
        (513, words(0, 0, 1, 0), first, one),
        (513, words(0, 1, 3, 0), first, one),
        (513, words(0, 0, 3, 1), first, one),
        (513, words(1, 0, 3, 0), first, one),
        (513, words(3, 0, 3, 0), first, one),
        (513, words(0, 0, 3, 0), Ok(513), (514, 514, 2, 1)),
        (514, words(0, 0, 3, 0), first, two),
        (514, words(515, 0, 3, 0), first, two),
        (514, words(2, 0, 3, 0), second, (513, 514, 4, 1)),
    ] {
        let mut device = Untold::giving(header);
        let ended = run(rt.alloc(), &mut device, 514, Script::FreeMany(count))?;
        assert_eq!(rt; ended, (answer, cost), "{count} {header:?}");
    }
    Ok(())
}
