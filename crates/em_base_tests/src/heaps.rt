//! Heaps in areas of 1024 records, as worked out by hand. Blocks have 128 records, and there are 64
//! frames: f is 16, so an area has 8 frames.
ghost use Rattle.std.specs.Prelude.{◌≡◌, length, take};
ghost use Rattle.em_record.specs.Order.{IsAscending};

use crate::words::words;
use em_frames::{Area, Grant};
use em_heap::Heap;
use em_record::Shape;
use std::test::Fail;

/// Pushes the records of the words `a` below `count`, the greatest first, while there is room.
fn push_falling(heap: &mut Heap, count: u64)
    ensures { heap.new.capacity ≡ heap.old.capacity }
{
    for number in 0..count {
        if heap.len() < heap.capacity() {
            heap.push(words(count - 1 - number, 0, 0, 0));
        }
    }
}

/// The number of records of the words `a` from 0 on that come next, at most `count`.
fn pop_rising(heap: &mut Heap, count: u64) -> u64
    ensures { heap.new.capacity ≡ heap.old.capacity }
{
    for number in 0..count {
        if heap.pop() != Some(words(number, 0, 0, 0)) {
            return number;
        }
    }
    count
}

/// 1024 records fill the area. The heap keeps the least half, of which all come in order, and the others
/// stand after it in order.
#[test]
fn a_full_heap_gives_its_halves_in_order(rt: HostRuntime) -> Result<(), Fail> {
    let mut pool = Grant::new(rt.alloc()).pool(Shape::new(128, 64)?)?;
    let mut heap = Heap::new(pool.lend_area());
    assert_eq!(rt; (heap.len(), heap.capacity(), heap.peek()), (0, 1024, None));
    push_falling(&mut heap, 1024);
    assert_eq!(rt; (heap.len(), heap.peek()), (1024, Some(words(0, 0, 0, 0))));
    let count = heap.upper_half();
    let behind = heap.behind(count);
    let ends = (behind.first().copied(), behind.last().copied());
    let wanted = (Some(words(512, 0, 0, 0)), Some(words(1023, 0, 0, 0)));
    assert_eq!(rt; (count, ends), (512, wanted));
    assert_eq!(rt; (pop_rising(&mut heap, 512), heap.pop()), (512, None));
    pool.give_area(heap.into_area());
    pool.end();
    Ok(())
}

/// Writes three records in order to the front of an area.
fn write_three(area: &mut Area)
    requires { length area.old ≡ 1024 }
    ensures len { length area.new ≡ 1024 }
    ensures ascends { IsAscending (take 3 area.new) }
{
    let records = area.records_mut();
    records[0] = words(0, 0, 0, 6);
    records[1] = words(0, 0, 0, 6);
    records[2] = words(1, 0, 0, 0);
}

/// A heap that has no record takes three that were written into its area. Records of equal words `a`, `b`
/// and `c` are told apart by `d`.
#[test]
fn an_empty_heap_is_refilled_in_its_area(rt: HostRuntime) -> Result<(), Fail> {
    let mut pool = Grant::new(rt.alloc()).pool(Shape::new(128, 64)?)?;
    let mut heap = Heap::new(pool.lend_area());
    write_three(heap.empty_area());
    heap.refill(3);
    heap.push(words(0, 0, 0, 7));
    assert_eq!(rt; (heap.len(), heap.capacity()), (4, 1024));
    let popped = [heap.pop(), heap.pop(), heap.pop(), heap.pop()];
    let six = Some(words(0, 0, 0, 6));
    let last = Some(words(1, 0, 0, 0));
    assert_eq!(rt; popped, [six, six, Some(words(0, 0, 0, 7)), last]);
    pool.give_area(heap.into_area());
    pool.end();
    Ok(())
}

/// Of three records that a refill brought one is popped, and two are pushed. The lesser half are one that was
/// brought and one that was pushed, and so are the others, which stand after the heap in order.
#[test]
fn a_refilled_heap_gives_its_upper_half(rt: HostRuntime) -> Result<(), Fail> {
    let mut pool = Grant::new(rt.alloc()).pool(Shape::new(128, 64)?)?;
    let mut heap = Heap::new(pool.lend_area());
    write_three(heap.empty_area());
    heap.refill(3);
    assert_eq!(rt; heap.pop(), Some(words(0, 0, 0, 6)));
    heap.push(words(2, 0, 0, 0));
    heap.push(words(0, 0, 0, 5));
    let count = heap.upper_half();
    let behind = heap.behind(count);
    let ends = (behind.first().copied(), behind.last().copied());
    let wanted = (Some(words(1, 0, 0, 0)), Some(words(2, 0, 0, 0)));
    assert_eq!(rt; (count, ends), (2, wanted));
    let popped = [heap.pop(), heap.pop(), heap.pop()];
    let kept = [Some(words(0, 0, 0, 5)), Some(words(0, 0, 0, 6)), None];
    assert_eq!(rt; popped, kept);
    pool.give_area(heap.into_area());
    pool.end();
    Ok(())
}
