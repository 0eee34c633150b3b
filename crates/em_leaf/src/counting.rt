//! How many records result of a load, counted before any is written.
ghost use Rattle.std.specs.Prelude.{◌≡◌, ◌+◌, ◌<◌, ◌≤◌, ◌^◌, false, length};
ghost use Rattle.em_record.specs.Order.{IsAscending};
ghost use Rattle.em_space.specs.Rig.{Sound};
ghost use Rattle.em_space.specs.Seen.{seen};
ghost use Rattle.em_chain.specs.Chain.{IsChain};
ghost use Rattle.em_chain.specs.Reader.{IsReader, ReaderHasFrame};
ghost use Rattle.em_leaf.specs.Counting.{CountsItemsTo, LimitsLowTo, low_limit_of};

use crate::front::{Finding, Front, new_front};
use crate::stepping::take_step;
use em_chain::{Chain, Reader};
use em_frames::Device;
use em_record::Record;
use em_settle::Settle;
use em_space::{EmFault, Rig};

/// How many records the low part may take: the first half, rounded up, of more than `most`, else
/// `most`. The stored records are read if there may be more.
pub(crate) fn low_limit<D: Device, S: Settle>(
    rig: &mut Rig<'_, D>,
    settle: &S,
    ops: &[Record],
    stored: &Chain,
    most: u64,
) -> Result<u64, EmFault>
    requires sound { Sound (seen D.state rig.old) }
    requires ready { S.IsReady settle.now }
    requires ordered { IsAscending ops.now }
    requires chain { IsChain (seen D.state rig.old) stored.now }
    requires few { length ops.now ≤ 2 ^ 56 }
    requires free { 2 < (seen D.state rig.old).pool.free }
    ensures limits { LimitsLowTo most (S.key_of settle.now) (S.step_of settle.now) ops.now
        (seen D.state rig.old) (seen D.state rig.new) stored.now result }
{
    if stored.len() + ops.len() as u64 <= most {
        return Ok(most);
    }
    let mut reader = Reader::over(rig, stored);
    match count_records(rig, settle, ops, &mut reader) {
        Ok(count) => {
            reader.abandon(rig);
            Ok(limit_from(count, most))
        }
        Err(fault) => {
            reader.abandon(rig);
            Err(fault)
        }
    }
}

/// How many of `count` records the low part may take.
pub(crate) fn limit_from(count: u64, most: u64) -> u64
    ensures { result ≡ low_limit_of most count }
{
    if count <= most {
        most
    } else {
        count - count / 2
    }
}

/// How many records result.
fn count_records<D: Device, S: Settle>(
    rig: &mut Rig<'_, D>,
    settle: &S,
    ops: &[Record],
    reader: &mut Reader,
) -> Result<u64, EmFault>
    requires sound { Sound (seen D.state rig.old) }
    requires ready { S.IsReady settle.now }
    requires ordered { IsAscending ops.now }
    requires is { IsReader (seen D.state rig.old) reader.old }
    requires over { reader.old.taking ≡ false }
    requires few { length ops.now ≤ 2 ^ 56 }
    requires free { 0 < (seen D.state rig.old).pool.free }
    ensures frame { ReaderHasFrame (seen D.state rig.new) reader.new }
    ensures counts { CountsItemsTo (S.key_of settle.now) (S.step_of settle.now) ops.now
        (seen D.state rig.old) (seen D.state rig.new) reader.old reader.new result }
{
    let mut front = new_front();
    let mut count = 0;
    loop {
        match take_step(rig, settle, ops, reader, &mut front)? {
            Finding::End => return Ok(count),
            Finding::Item(_) => count += 1,
            Finding::Answer(_) => {}
        }
    }
}
