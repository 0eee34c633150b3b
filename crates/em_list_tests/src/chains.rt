//! Chains that are written, gone on with, joined, cut, discarded and read.
ghost use Rattle.std.specs.Prelude.{◌≡◌, ◌<◌, ◌≤◌, ◌^◌, length, IfOk};
ghost use Rattle.std.specs.List.Sorted.{IsSorted};
ghost use Rattle.em_record.specs.Order.{record_cmp};
ghost use Rattle.em_frames.specs.Pool.{SameFrames};
ghost use Rattle.em_space.specs.Rig.{Sound};
ghost use Rattle.em_space.specs.Seen.{seen};
ghost use Rattle.em_chain.specs.Chain.{IsChain};
ghost use Rattle.em_list_tests.specs.Ready.{CanPlay, Keeps};

use em_chain::{Chain, Writer, discard, join, part_at};
use em_devices::{extend, scans, takes, write};
use em_frames::Device;
use em_record::Record;
use em_space::{EmFault, Rig};

/// Whether a chain's words are these: four of them are the first record's, and the last one is the second's `a`.
fn has_words(words: [u64; 5], expected: &[Record]) -> bool {
    let [head, skip, tail, count, blocks] = words;
    match expected {
        [first, second] => {
            let [a, b, c, d] = [first.a, first.b, first.c, first.d];
            [head, skip, tail, count, blocks] == [a, b, c, d, second.a]
        }
        _ => false,
    }
}

/// Whether a list has these words and exactly these records. It is taken.
fn told<D: Device>(
    rig: &mut Rig<'_, D>,
    chain: Chain,
    records: &[Record],
    words: &[Record],
) -> Result<bool, EmFault>
    requires sound { Sound (seen D.state rig.old) }
    requires is { IsChain (seen D.state rig.old) chain }
    requires free { 1 < (seen D.state rig.old).pool.free }
    ensures sound { Sound (seen D.state rig.new) }
    ensures frames { SameFrames (seen D.state rig.old).pool (seen D.state rig.new).pool }
{
    let worked_out = has_words(chain.words(), words);
    Ok(takes(rig, chain, records)? && worked_out)
}

/// Whether exactly these records are stored of a list that was written and is gone on with.
fn stores<D: Device>(rig: &mut Rig<'_, D>, chain: Chain, stored: &[Record]) -> Result<bool, EmFault>
    requires sound { Sound (seen D.state rig.old) }
    requires is { IsChain (seen D.state rig.old) chain }
    requires free { 2 < (seen D.state rig.old).pool.free }
    ensures sound { Sound (seen D.state rig.new) }
    ensures frames { SameFrames (seen D.state rig.old).pool (seen D.state rig.new).pool }
{
    let writer = Writer::resume(rig, chain)?;
    if writer.blocks() < 2 {
        writer.abandon(rig);
        return Ok(false);
    }
    let same = scans(rig, &writer.stored(), stored);
    writer.abandon(rig);
    same
}

/// Whether a list that is made again from its words has these, and exactly these records, read twice.
fn scanned_twice<D: Device>(
    rig: &mut Rig<'_, D>,
    records: &[Record],
    words: &[Record],
) -> Result<bool, EmFault>
    requires sound { Sound (seen D.state rig.old) }
    requires free { 1 < (seen D.state rig.old).pool.free }
    requires few { length records.now ≤ 2 ^ 20 }
    ensures sound { Sound (seen D.state rig.new) }
    ensures frames { SameFrames (seen D.state rig.old).pool (seen D.state rig.new).pool }
{
    let written = write(rig, records)?;
    let chain = Chain::from_words(written.words());
    let once = scans(rig, &chain, records)?;
    let twice = scans(rig, &chain, records)?;
    Ok(once && twice && has_words(chain.words(), words))
}

/// Joins lists of two parts.
fn joined<D: Device>(rig: &mut Rig<'_, D>, parts: (&[Record], &[Record])) -> Result<Chain, EmFault>
    requires sound { Sound (seen D.state rig.old) }
    requires free { 1 < (seen D.state rig.old).pool.free }
    requires first { length parts.0.now ≤ 2 ^ 20 }
    requires second { length parts.1.now ≤ 2 ^ 20 }
    ensures sound { Sound (seen D.state rig.new) }
    ensures frames { SameFrames (seen D.state rig.old).pool (seen D.state rig.new).pool }
    ensures is { IfOk result (IsChain (seen D.state rig.new)) }
{
    let first = write(rig, parts.0)?;
    let second = write(rig, parts.1)?;
    join(rig, first, second)
}

/// Whether a list is cut where its second part begins, at `low`, and that part has these words.
fn cut<D: Device>(
    rig: &mut Rig<'_, D>,
    records: &[Record],
    at: usize,
    words: &[Record],
) -> Result<bool, EmFault>
    requires sound { Sound (seen D.state rig.old) }
    requires free { 3 < (seen D.state rig.old).pool.free }
    requires few { length records.now ≤ 2 ^ 20 }
    requires at { at ≤ length records.now }
    requires ordered { IsSorted record_cmp records.now }
    ensures sound { Sound (seen D.state rig.new) }
    ensures frames { SameFrames (seen D.state rig.old).pool (seen D.state rig.new).pool }
{
    let low = Record {
        a: at as u64,
        ..Record::ZERO
    };
    let (below, others) = records.split_at(at);
    let chain = write(rig, records)?;
    let (first, second) = part_at(rig, chain, low)?;
    let worked_out = has_words(second.words(), words);
    let same = takes(rig, first, below)?;
    Ok(takes(rig, second, others)? && same && worked_out)
}

/// Runs a script on some records, which are cut at the place `at`, and answers whether all is as it should be:
///
/// - `take`: a list of all is written, and taken;
/// - `scan`: it is written, made again from its words, and read over twice;
/// - `stored`: it is written and gone on with, and what is stored of it, the first part, is read over;
/// - `discard`: it is written, and discarded;
/// - `join`: lists of both parts are written and joined, and the whole is taken;
/// - `extend`: a list of the first part is written, the second one is added, and the whole is taken;
/// - `cut`: a list of all is written and cut, and both parts are taken.
pub fn follow<D: Device>(
    rig: &mut Rig<'_, D>,
    script: &str,
    records: &[Record],
    at: usize,
    words: &[Record],
) -> Result<bool, EmFault>
    requires ready { CanPlay (seen D.state rig.old) }
    requires ordered { IsSorted record_cmp records.now }
    ensures kept { Keeps (seen D.state rig.old) (seen D.state rig.new) }
{
    if at > records.len() || records.len() > 10_000 {
        return Ok(false);
    }
    let parts = records.split_at(at);
    match script {
        "take" => {
            let chain = write(rig, records)?;
            told(rig, chain, records, words)
        }
        "scan" => scanned_twice(rig, records, words),
        "stored" => {
            let chain = write(rig, records)?;
            let worked_out = has_words(chain.words(), words);
            Ok(stores(rig, chain, parts.0)? && worked_out)
        }
        "discard" => {
            let chain = write(rig, records)?;
            let worked_out = has_words(chain.words(), words);
            discard(rig, chain)?;
            Ok(worked_out)
        }
        "join" => {
            let chain = joined(rig, parts)?;
            told(rig, chain, records, words)
        }
        "extend" => {
            let chain = write(rig, parts.0)?;
            let chain = extend(rig, chain, parts.1)?;
            told(rig, chain, records, words)
        }
        "cut" => cut(rig, records, at, words),
        _ => Ok(false),
    }
}
