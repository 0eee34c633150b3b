//! Texts that are read, and lines that are written, also where a call fails.
use em_io::{
    Digits, DiskShelf, Feed, MemShelf, MemSink, Printer, Shelf, Sink, Slot, StdSink, send,
};
use em_record::Failed;
use std::test::Fail;

/// The text is read in pieces of 3 bytes. An older text had its name.
#[test]
fn a_feed_takes_a_number_and_the_byte_after_it(rt: HostRuntime) -> Result<(), Fail> {
    let mut shelf = MemShelf::new(rt.alloc(), 3, &[])?;
    shelf.add("numbers", b"old")?;
    shelf.add("numbers", b"0123/")?;
    shelf.open(Slot::First, "numbers")?;
    let mut feed = Feed::new(Slot::First);
    let found = feed.digits(&mut shelf)?;
    let next = feed.peek(&mut shelf)?;
    if next.is_some() && feed.place() < 100 {
        feed.take();
    }
    let wanted = Digits::Value {
        value: 123,
        count: 4,
    };
    assert_eq!(rt; (found, next, feed.place()), (wanted, Some(b'/'), 5));
    Ok(())
}

/// Call 0 opens the slot, and the first three digits come in call 1. Call 2 fails, and call 3 reads on.
#[test]
fn a_shelf_fails_where_it_is_told_to(rt: HostRuntime) -> Result<(), Fail> {
    let mut shelf = MemShelf::new(rt.alloc(), 3, &[2])?;
    shelf.add("numbers", b"1234 ")?;
    shelf.open(Slot::Second, "numbers")?;
    let mut feed = Feed::new(Slot::Second);
    assert_eq!(rt; feed.digits(&mut shelf), Err(Failed));
    assert_eq!(rt; feed.place(), 3);
    let mut into = [0; 4];
    let count = shelf.read(Slot::Second, &mut into);
    assert_eq!(rt; (count, into), (Ok(2), [b'4', b' ', 0, 0]));
    let mut empty = MemShelf::new(rt.alloc(), 3, &[])?;
    assert_eq!(rt; empty.open(Slot::First, "numbers"), Err(Failed));
    Ok(())
}

/// The first write takes two bytes, and the second one fails.
#[test]
fn a_failing_sink_holds_a_prefix(rt: HostRuntime) -> Result<(), Fail> {
    let mut sink = MemSink::new(rt.alloc(), 2, &[1])?;
    let mut printer = Printer::new();
    let added = printer.add_number(&mut sink, 17);
    let ended = printer.end_line(&mut sink);
    assert_eq!(rt; (added, ended), (Ok(()), Err(Failed)));
    assert_eq!(rt; (sink.bytes(), sink.refused()), (b"17".as_slice(), 0));
    Ok(())
}

/// 4096 bytes are pending, and the next one makes room.
#[test]
fn a_full_printer_sends(rt: HostRuntime) -> Result<(), Fail> {
    let mut sink = MemSink::new(rt.alloc(), 1000, &[])?;
    let mut printer = Printer::new();
    printer.add(&mut sink, &[b'x'; 4096])?;
    let pending = sink.bytes().len();
    printer.add(&mut sink, b"z")?;
    let full = sink.bytes().len();
    printer.end_line(&mut sink)?;
    assert_eq!(rt; (pending, full, sink.bytes().len()), (0, 4096, 4098));
    assert!(rt; sink.bytes().ends_with(b"xz\n"));
    Ok(())
}

/// Opens a file of the host in a slot, and reads two bytes of it.
fn read_two(rt: &HostRuntime, slot: Slot, name: &str) -> Result<(usize, [u8; 2]), Failed> {
    let mut shelf = DiskShelf::new(rt);
    shelf.open(slot, name)?;
    let mut into = [b'x'; 2];
    let count = shelf.read(slot, &mut into)?;
    Ok((count, into))
}

#[test]
fn a_disk_shelf_reads_files(rt: HostRuntime) {
    let zeros = read_two(&rt, Slot::First, "/dev/zero");
    assert_eq!(rt; zeros, Ok((2, [0, 0])));
    let none = read_two(&rt, Slot::Second, "/dev/null");
    assert_eq!(rt; none, Ok((0, [b'x', b'x'])));
    let missing = read_two(&rt, Slot::First, "missing/file");
    assert_eq!(rt; missing, Err(Failed));
}

#[test]
fn a_full_writer_is_a_fault(rt: HostRuntime) -> Result<(), Fail> {
    let mut room = [0; 4];
    let mut sink = StdSink::new(room.as_mut_slice());
    let writes = [sink.write(b"abc"), sink.write(b"de")];
    assert_eq!(rt; writes, [Ok(3), Ok(1)]);
    assert_eq!(rt; send(&mut sink, b"e"), Err(Failed));
    drop(sink);
    assert_eq!(rt; room, [b'a', b'b', b'c', b'd']);
    Ok(())
}
