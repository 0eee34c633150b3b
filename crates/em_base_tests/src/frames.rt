//! A device in memory, and a pool with its frames.
ghost use Rattle.std.specs.Prelude.{◌≡◌, ◌<◌};

use crate::words::words;
use em_frames::{Device, Grant, MemDevice, Pool};
use em_record::{Failed, Record, Shape};
use std::test::Fail;

const SEVEN: Record = Record {
    a: 7,
    b: 1,
    c: 2,
    d: 3,
};

/// The first and the last record of a block of 128 records.
fn ends_of(device: &mut MemDevice, at: u64) -> Result<(Record, Record), Failed>
    requires at { at < device.old.blocks }
    requires block { device.old.block ≡ 128 }
    ensures blocks { device.new.blocks ≡ device.old.blocks }
    ensures block { device.new.block ≡ device.old.block }
{
    let mut block = [words(9, 9, 9, 9); 128];
    device.read(at, &mut block)?;
    Ok((block[0], block[127]))
}

/// Call 0 begins the device, and call 1 is to fail.
#[test]
fn a_block_holds_what_was_written_and_else_zeros(rt: HostRuntime) -> Result<(), Fail> {
    let mut device = MemDevice::new(rt.alloc(), &[1])?;
    device.begin(128, 3)?;
    assert_eq!(rt; ends_of(&mut device, 1), Err(Failed));
    let seven = words(7, 1, 2, 3);
    device.write(1, &[seven; 128])?;
    assert_eq!(rt; ends_of(&mut device, 1), Ok((seven, seven)));
    let zeros = (Record::ZERO, Record::ZERO);
    assert_eq!(rt; ends_of(&mut device, 0), Ok(zeros));
    assert_eq!(rt; ends_of(&mut device, 2), Ok(zeros));
    let counted = (device.faults(), device.moves(), device.refused());
    assert_eq!(rt; counted, (1, 5, 0));
    Ok(())
}

/// What a pool has: frames that are free, areas that are free, and the most frames out at once.
fn left_in(pool: &Pool) -> (u32, u32, u32) {
    (pool.free(), pool.free_areas(), pool.peak())
}

/// 1024 records and 256 frames: f is 64, so 192 frames are lent singly, and an area has 32.
#[test]
fn a_pool_lends_and_takes_back(rt: HostRuntime) -> Result<(), Fail> {
    let mut pool = Grant::new(rt.alloc()).pool(Shape::new(1024, 256)?)?;
    let whole = left_in(&pool);
    let mut frame = pool.lend();
    let mut area = pool.lend_area();
    let lent = left_in(&pool);
    let seven = words(7, 1, 2, 3);
    frame.records_mut()[1023] = seven;
    area.records_mut()[32767] = seven;
    let kept = (frame.records()[1023], area.records()[32767]);
    pool.give(frame);
    pool.give_area(area);
    let back = left_in(&pool);
    pool.end();
    assert_eq!(rt; kept, (seven, seven));
    assert_eq!(rt;
        [whole, lent, back],
        [(192, 2, 0), (191, 1, 33), (192, 2, 33)]
    );
    Ok(())
}

/// 128 records and 64 frames: f is 16, so 48 frames are lent singly.
#[test]
fn a_rack_holds_frames_at_its_places(rt: HostRuntime) -> Result<(), Fail> {
    let mut pool = Grant::new(rt.alloc()).pool(Shape::new(128, 64)?)?;
    let mut rack = pool.lend_rack();
    let mut frame = pool.lend();
    frame.records_mut()[127] = SEVEN;
    rack.put(31, frame);
    let lent = left_in(&pool);
    assert_eq!(rt; (rack.holds(0), rack.holds(31)), (false, true));
    let held = rack.records(31)[127];
    let frame = rack.take(31);
    let taken = (frame.records()[127], rack.holds(31));
    pool.give(frame);
    pool.give_rack(rack);
    let back = left_in(&pool);
    pool.end();
    assert_eq!(rt; (held, taken), (SEVEN, (SEVEN, false)));
    assert_eq!(rt; [lent, back], [(47, 2, 1), (48, 2, 1)]);
    Ok(())
}
