//! Loads as worked out by hand, in an area of 1024 records.
ghost use Rattle.std.specs.Prelude.{◌≡◌};

use crate::generic::join_by;
use em_combine::Gather;
use em_frames::Grant;
use em_record::{Record, Shape};
use em_settle::Combine;
use std::test::Fail;

/// A record of these words.
fn rec(a: u64, b: u64, c: u64, d: u64) -> Record
    ensures { result ≡ record { a = a; b = b; c = c; d = d } }
{
    Record { a, b, c, d }
}

#[test]
fn a_run_becomes_one_add(rt: HostRuntime) -> Result<(), Fail> {
    let mut pool = Grant::new(rt.alloc()).pool(Shape::new(128, 64)?)?;
    let mut gather = Gather::new(pool.lend_area());
    assert_eq!(rt; (gather.len(), gather.capacity()), (0, 1024));
    gather.push(rec(1, 1, 0, 5));
    gather.push(rec(1, 2, 3, 1));
    gather.push(rec(1, 3, 2, 0));
    gather.push(rec(1, 4, 3, 1));
    gather.push(rec(1, 5, 3, 1));
    gather.push(rec(1, 6, 2, 0));
    assert_eq!(rt; join_by(&mut gather, Combine::Sum), 5);
    let records = gather.records();
    assert_eq!(rt; records.first().copied(), Some(rec(1, 1, 0, 5)), "put");
    assert_eq!(rt;
        records.get(1).copied(),
        Some(rec(1, 2, 3, 1)),
        "a run of one"
    );
    assert_eq!(rt; records.get(2).copied(), Some(rec(1, 3, 2, 0)), "get");
    assert_eq!(rt;
        records.get(3).copied(),
        Some(rec(1, 5, 3, 2)),
        "a run of two"
    );
    assert_eq!(rt; records.get(4).copied(), Some(rec(1, 6, 2, 0)), "get");
    gather.clear();
    assert_eq!(rt; gather.len(), 0);
    pool.give_area(gather.into_area());
    pool.end();
    Ok(())
}

/// Two keys in turn: each has one run, since operations of another key don't end it.
#[test]
fn runs_of_two_keys_are_joined_apart(rt: HostRuntime) -> Result<(), Fail> {
    let mut pool = Grant::new(rt.alloc()).pool(Shape::new(128, 64)?)?;
    let mut gather = Gather::new(pool.lend_area());
    gather.push(rec(9, 1, 3, 6));
    gather.push(rec(2, 2, 3, 7));
    gather.push(rec(9, 3, 3, 3));
    gather.push(rec(2, 4, 3, 4));
    assert_eq!(rt; join_by(&mut gather, Combine::Max), 2);
    let records = gather.records();
    assert_eq!(rt; records.first().copied(), Some(rec(2, 4, 3, 7)), "2");
    assert_eq!(rt; records.get(1).copied(), Some(rec(9, 3, 3, 6)), "9");
    pool.give_area(gather.into_area());
    pool.end();
    Ok(())
}

/// A del between two adds of its key parts them; after a join more operations may come.
#[test]
fn another_operation_ends_a_run(rt: HostRuntime) -> Result<(), Fail> {
    let mut pool = Grant::new(rt.alloc()).pool(Shape::new(128, 64)?)?;
    let mut gather = Gather::new(pool.lend_area());
    gather.push(rec(4, 1, 3, 6));
    gather.push(rec(4, 2, 1, 0));
    gather.push(rec(4, 3, 3, 5));
    assert_eq!(rt; join_by(&mut gather, Combine::Xor), 3);
    pool.give_area(gather.into_area());
    pool.end();
    Ok(())
}
