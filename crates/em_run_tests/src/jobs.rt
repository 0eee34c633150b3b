//! Jobs on a rig with no block more than are enough for them, and what they held at most.
ghost use Rattle.std.specs.Prelude.{◌≡◌, IfOk};
ghost use Rattle.em_frames.specs.Pool.{fresh_pool};
ghost use Rattle.em_space.specs.Rig.{Opens};
ghost use Rattle.em_space.specs.Seen.{seen};
ghost use Rattle.em_words.specs.Job.{HasBlocks};

use em_devices::ended;
use em_ends::Status;
use em_frames::{Device, Grant, MemDevice};
use em_io::{MemShelf, MemSink};
use em_run::run_job;
use em_space::Rig;
use em_words::{Job, read_job};
use std::alloc::Global;
use std::test::Fail;

/// A latch that changes at each step: its value and its negation are the outputs. The circuit has size 4.
const COUNTER: &[u8] = b"aag 1 0 1 2 0\n2 3\n2\n3\n";

/// A new rig of the job's shape and blocks, over a device that isn't begun yet.
fn opened_for<'d, D: Device>(
    alloc: Global,
    job: &Job,
    device: &'d mut D,
) -> Result<Rig<'d, D>, Fail>
    requires fresh { (D.state device.old).blocks ≡ 0 }
    requires blocks { HasBlocks job.now }
    ensures borrowed { IfOk result (λ r. r.device.ghost_name ≡ device.entry.ghost_name) }
    ensures opened { IfOk result (λ r.
        Opens (D.state device.old) (fresh_pool job.now.shape) job.now.blocks (seen D.state r)) }
{
    let pool = Grant::new(alloc).pool(job.shape)?;
    match Rig::open(job.shape, job.blocks, device, pool) {
        Ok(rig) => Ok(rig),
        Err(refused) => {
            let (pool, fault) = refused.take();
            pool.end();
            Err(fault.into())
        }
    }
}

/// Runs the job that the words name over these texts as the files `a` and `s`, if they name one: whether it was done, what
/// the output took, and the most blocks that were in use at once.
fn run_words(
    rt: &HostRuntime,
    words: &str,
    text: &[u8],
    stimulus: &[u8],
) -> Result<Option<(bool, MemSink, u64)>, Fail> {
    let alloc = rt.alloc();
    let mut given = Vec::new(alloc);
    for word in words.split(' ') {
        given.push(String::from_str(alloc, word)?)?;
    }
    let Ok(job) = read_job(&given) else {
        return Ok(None);
    };
    let mut shelf = MemShelf::new(alloc, 4096, &[])?;
    shelf.add("a", text)?;
    shelf.add("s", stimulus)?;
    let mut out = MemSink::new(alloc, 4096, &[])?;
    let mut device = MemDevice::new(alloc, &[])?;
    let mut rig = opened_for(alloc, &job, &mut device)?;
    let status = run_job(&given, &mut rig, &mut shelf, &mut out);
    let (_used, most, _moves, _peak) = ended(rig);
    Ok(Some((status == Status::Done, out, most)))
}

/// The room of 8 records at the default shape is 96 * 2 + 2 * 256 * 3 = 1728. Definitions, uses and edges take a block each at
/// least.
#[test]
fn a_circuit_is_evaluated_in_its_room(rt: HostRuntime) -> Result<(), Fail> {
    let mut lines = Vec::new(rt.alloc());
    let mut columns = Vec::new(rt.alloc());
    for _ in 0..500 {
        for byte in b"\n\n" {
            lines.push(*byte)?;
        }
        for byte in b"01\n10\n" {
            columns.push(*byte)?;
        }
    }
    let Some((done, out, most)) = run_words(&rt, "eval --blocks=1728 a s", COUNTER, &lines)? else {
        return Ok(assert!(rt; false, "these words name a job"));
    };
    assert!(rt; done);
    assert!(rt; out.bytes() == columns.as_slice());
    assert!(rt; most >= 3 && most <= 1728, "{most} blocks");
    Ok(())
}

/// 4,001 commands fill 32 blocks, which are divided by the fan-out 16 twice until one is left: their room at this shape is
/// 96 * 33 + 2 * 64 * 5 = 3808. Leaf, root, a block of commands and the answer are in use at once.
#[test]
fn a_map_is_answered_in_its_room(rt: HostRuntime) -> Result<(), Fail> {
    let mut text = Vec::new(rt.alloc());
    for _ in 0..2000 {
        for byte in b"put 1 2\ndel 1\n" {
            text.push(*byte)?;
        }
    }
    for byte in b"get 1\n" {
        text.push(*byte)?;
    }
    let words = "map --block=128 --frames=64 --blocks=3808 a";
    let Some((done, out, most)) = run_words(&rt, words, &text, b"")? else {
        return Ok(assert!(rt; false, "these words name a job"));
    };
    assert!(rt; done);
    assert!(rt; out.bytes() == b"-\n".as_slice());
    assert!(rt; most >= 4 && most <= 3808, "{most} blocks");
    Ok(())
}

/// Of 2,000 adds to one key, 1,024 fill a load, which leaves one add of them; the others leave one more. So with the get three
/// records enter the tree, and take one block. Without joining 2,001 records take 16 blocks.
#[test]
fn adds_joined_early_take_few_blocks(rt: HostRuntime) -> Result<(), Fail> {
    let mut text = Vec::new(rt.alloc());
    for _ in 0..2000 {
        for byte in b"add 1 1\n" {
            text.push(*byte)?;
        }
    }
    for byte in b"get 1\n" {
        text.push(*byte)?;
    }
    let words = "map --early --block=128 --frames=64 a";
    let Some((done, out, most)) = run_words(&rt, words, &text, b"")? else {
        return Ok(assert!(rt; false, "these words name a job"));
    };
    assert!(rt; done);
    assert!(rt; out.bytes() == b"2000\n".as_slice());
    assert!(rt; most <= 8, "{most} blocks");
    Ok(())
}

/// 2,000 commands fill 16 blocks, which are divided by the fan-out 16 once until one is left: their room at this shape is
/// 96 * 17 + 2 * 64 * 4 = 2144. Leaf, root and a block of commands are in use at once.
#[test]
fn a_map_is_dumped_in_its_room(rt: HostRuntime) -> Result<(), Fail> {
    let mut text = Vec::new(rt.alloc());
    for _ in 0..1000 {
        for byte in b"put 9 1\nput 3 2\n" {
            text.push(*byte)?;
        }
    }
    let words = "dump --block=128 --frames=64 --blocks=2144 a";
    let Some((done, out, most)) = run_words(&rt, words, &text, b"")? else {
        return Ok(assert!(rt; false, "these words name a job"));
    };
    assert!(rt; done);
    assert!(rt; out.bytes() == b"3 2\n9 1\n".as_slice());
    assert!(rt; most >= 3 && most <= 2144, "{most} blocks");
    Ok(())
}

/// Words that name no job run none.
#[test]
fn no_job_is_run_for_other_words(rt: HostRuntime) -> Result<(), Fail> {
    assert!(rt; run_words(&rt, "evil a s", b"", b"")?.is_none());
    Ok(())
}
