//! One step of a pass, and the record that is read for it.
ghost use Rattle.std.specs.Prelude.{◌≡◌, ◌<◌, ◌≤◌, length};
ghost use Rattle.em_record.specs.Order.{IsAscending};
ghost use Rattle.em_space.specs.Rig.{Sound};
ghost use Rattle.em_space.specs.Seen.{seen};
ghost use Rattle.em_chain.specs.Reader.{IsReader, ReaderHasFrame};
ghost use Rattle.em_leaf.specs.Steps.{ReadsFront, TakesStep};

use crate::front::{Finding, Front, advance, first};
use em_chain::Reader;
use em_frames::Device;
use em_record::Record;
use em_settle::Settle;
use em_space::{EmFault, Rig};

/// Takes a step of a pass: what it comes to is the next record that results, or the answer of the
/// next operation, or the end.
#[inline]
pub(crate) fn take_step<D: Device, S: Settle>(
    rig: &mut Rig<'_, D>,
    settle: &S,
    ops: &[Record],
    reader: &mut Reader,
    front: &mut Front,
) -> Result<Finding, EmFault>
    requires sound { Sound (seen D.state rig.old) }
    requires ready { S.IsReady settle.now }
    requires ordered { IsAscending ops.now }
    requires is { IsReader (seen D.state rig.old) reader.old }
    requires within { front.old.settled ≤ length ops.now }
    requires free { 0 < (seen D.state rig.old).pool.free }
    ensures frame { ReaderHasFrame (seen D.state rig.new) reader.new }
    ensures steps { TakesStep (S.key_of settle.now) (S.step_of settle.now) ops.now
        (seen D.state rig.old) (seen D.state rig.new) reader.old reader.new front.old front.new
        result }
{
    read_ahead(rig, reader, front)?;
    let (finding, next) = advance(settle, ops, *front);
    *front = next;
    Ok(finding)
}

/// Reads a record if none is in hand.
#[inline]
fn read_ahead<D: Device>(
    rig: &mut Rig<'_, D>,
    reader: &mut Reader,
    front: &mut Front,
) -> Result<(), EmFault>
    requires sound { Sound (seen D.state rig.old) }
    requires is { IsReader (seen D.state rig.old) reader.old }
    requires free { 0 < (seen D.state rig.old).pool.free }
    ensures frame { ReaderHasFrame (seen D.state rig.new) reader.new }
    ensures reads { ReadsFront (seen D.state rig.old) (seen D.state rig.new) reader.old reader.new
        front.old front.new result }
{
    match first(*front) {
        Some(_item) => Ok(()),
        None => {
            front.ahead = reader.next(rig)?;
            Ok(())
        }
    }
}
