//! A run of a tool: the pool of its frames, the rig over the device, the tool's own run, and the pool's end.
ghost use Rattle.std.specs.Prelude.{◌≡◌, ◌+◌, ◌<◌, ◌≤◌, ◌^◌, length, IfErr, IsTrue, OnOk};
ghost use Rattle.em_io.specs.Shelf.{IsFresh};
ghost use Rattle.em_io.specs.Sink.{SentPart};
ghost use Rattle.em_frames.specs.Pool.{fresh_pool};
ghost use Rattle.em_ends.specs.Stop.{fault_counts};
ghost use Rattle.em_tool.specs.Failure.{HasBlocks, HasReason, IfBegun, IfStops, StopsTool, UnlessRun};
ghost use Rattle.em_tool.specs.Names.{names_of};

use crate::failure::Failure;
use crate::tool::Tool;
use em_frames::{Device, Grant, Pool};
use em_io::{Shelf, Sink};
use em_record::Shape;
use em_space::Rig;

/// The blocks of the scratch device. Its file grows only as they come into use.
const BLOCKS: u64 = 1 << 40;

/// Runs a tool over the files of these names, with a pool of this shape, which it gives up, on a device of this many
/// blocks.
fn run_pool<T: Tool, D: Device, H: Shelf, W: Sink>(
    tool: &T,
    files: &[String],
    shape: Shape,
    blocks: u64,
    pool: Pool,
    device: &mut D,
    shelf: &mut H,
    out: &mut W,
) -> Result<(), Failure>
    requires count { length files.now ≡ T.FILES }
    requires blocks_low { 0 < blocks }
    requires blocks_high { blocks ≤ 2 ^ 40 }
    requires pool { pool ≡ fresh_pool shape }
    requires device { (D.state device.old).blocks ≡ 0 }
    requires shelf { IsFresh (H.stand shelf.old) }
    ensures answers { IsTrue H.tells → IsTrue (D.state device.old).told → OnOk result
        (W.state out.new
        ≡ W.took (W.state out.old) (T.due (H.stand shelf.old) (names_of files.now))) }
    ensures front { IsTrue H.tells → IsTrue (D.state device.old).told
        → SentPart W.took (W.state out.old) (T.due (H.stand shelf.old) (names_of files.now))
        (W.state out.new) }
    ensures begun { IfBegun result (HasBlocks shape blocks (D.state device.new)) }
    ensures moves { IsTrue H.tells → IsTrue (D.state device.old).told
        → (D.state device.new).moves ≤ (D.state device.old).moves
        + T.most shape (H.stand shelf.old) (names_of files.now) }
    ensures stop { IfErr result (λ failure. IfStops failure (StopsTool
        (T.cause H.tells (H.stand shelf.old) (names_of files.now)
        (fault_counts (H.faults shelf.old) (W.faults out.old))
        (fault_counts (H.faults shelf.new) (W.faults out.new)))
        shape blocks (D.state device.old) (D.state device.new))) }
    ensures not_begun { IfErr result (λ failure.
        UnlessRun failure ((shelf.new ≡ shelf.old) × (out.new ≡ out.old))) }
    ensures unmoved { IfErr result (λ failure. UnlessRun failure
        ((D.state device.new).moves ≡ (D.state device.old).moves)) }
    ensures reason { IfErr result (HasReason (D.state device.old) (D.state device.new)) }
{
    match Rig::open(shape, blocks, device, pool) {
        Ok(mut rig) => {
            let done = tool.run(files, &mut rig, shelf, out);
            rig.close().end();
            match done {
                Ok(()) => Ok(()),
                Err(stop) => Err(Failure::Run(stop)),
            }
        }
        Err(refused) => {
            let (pool, fault) = refused.take();
            pool.end();
            Err(Failure::Begin(fault))
        }
    }
}

/// Runs a tool over the files of these names, with a pool of this shape, which the grant makes, on a device of 2^40
/// blocks that it begins. There are as many names as the tool wants, the device wasn't begun, and no slot of the
/// shelf was opened. Over a shelf and a device that tell, the output took a front of what is due at every end, and
/// all of it at Ok, after at most `most` moves. `NoMemory`: there is no memory for the frames. `Begin`: the device
/// wasn't begun, and if it failed its count of faults rose. `Run`: the tool's run stopped, and its `cause` holds of
/// the rig over this device. If no run began, shelf, output and count of moves stay.
pub fn run_over<T: Tool, D: Device, H: Shelf, W: Sink>(
    tool: &T,
    files: &[String],
    shape: Shape,
    grant: Grant,
    device: &mut D,
    shelf: &mut H,
    out: &mut W,
) -> Result<(), Failure>
    requires count { length files.now ≡ T.FILES }
    requires device { (D.state device.old).blocks ≡ 0 }
    requires shelf { IsFresh (H.stand shelf.old) }
    ensures answers { IsTrue H.tells → IsTrue (D.state device.old).told → OnOk result
        (W.state out.new
        ≡ W.took (W.state out.old) (T.due (H.stand shelf.old) (names_of files.now))) }
    ensures front { IsTrue H.tells → IsTrue (D.state device.old).told
        → SentPart W.took (W.state out.old) (T.due (H.stand shelf.old) (names_of files.now))
        (W.state out.new) }
    ensures begun { IfBegun result (HasBlocks shape (2 ^ 40) (D.state device.new)) }
    ensures moves { IsTrue H.tells → IsTrue (D.state device.old).told
        → (D.state device.new).moves ≤ (D.state device.old).moves
        + T.most shape (H.stand shelf.old) (names_of files.now) }
    ensures stop { IfErr result (λ failure. IfStops failure (StopsTool
        (T.cause H.tells (H.stand shelf.old) (names_of files.now)
        (fault_counts (H.faults shelf.old) (W.faults out.old))
        (fault_counts (H.faults shelf.new) (W.faults out.new)))
        shape (2 ^ 40) (D.state device.old) (D.state device.new))) }
    ensures not_begun { IfErr result (λ failure.
        UnlessRun failure ((shelf.new ≡ shelf.old) × (out.new ≡ out.old))) }
    ensures unmoved { IfErr result (λ failure. UnlessRun failure
        ((D.state device.new).moves ≡ (D.state device.old).moves)) }
    ensures reason { IfErr result (HasReason (D.state device.old) (D.state device.new)) }
{
    let Ok(pool) = grant.pool(shape) else {
        return Err(Failure::NoMemory);
    };
    run_pool(tool, files, shape, BLOCKS, pool, device, shelf, out)
}
