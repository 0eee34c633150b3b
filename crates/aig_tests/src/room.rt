//! Many lines at the program's default shape, on a device with no block more than are enough.
ghost use Rattle.std.specs.Prelude.{◌≡◌, IfOk};
ghost use Rattle.em_frames.specs.Pool.{fresh_pool};
ghost use Rattle.em_space.specs.Rig.{Opens};
ghost use Rattle.em_space.specs.Seen.{seen};
ghost use Rattle.aig_tests.specs.Frames.{usual};

use crate::circuit::{shelf_of, shelf_with};
use crate::evaluation::{By, Pace};
use crate::lines::{print_numbers, print_title, tallied};
use em_devices::ended;
use em_frames::{Device, Grant, MemDevice};
use em_io::Slot;
use em_record::Shape;
use em_space::Rig;
use std::alloc::Global;
use std::test::Fail;

/// A latch that changes at each step: its value and its negation are the outputs. The circuit has size 4.
const COUNTER: &str = "aag 1 0 1 2 0\\n2 3\\n2\\n3\\n";

/// The empty lines of the stimulus.
const COUNT: u64 = 1000;

/// A new rig of the default shape over a device that isn't begun yet, of the room of a circuit of size 4, which is that of 8
/// records: 96 * 2 + 2 * 256 * 3.
fn opened_in_room<'d, D: Device>(alloc: Global, device: &'d mut D) -> Result<Rig<'d, D>, Fail>
    requires fresh { (D.state device.old).blocks ≡ 0 }
    ensures borrowed { IfOk result (λ r. r.device.ghost_name ≡ device.entry.ghost_name) }
    ensures opened { IfOk result (λ r.
        Opens (D.state device.old) (fresh_pool usual) 1728 (seen D.state r)) }
{
    let shape = Shape::new(1024, 256)?;
    let pool = Grant::new(alloc).pool(shape)?;
    match Rig::open(shape, 1728, device, pool) {
        Ok(rig) => Ok(rig),
        Err(refused) => {
            let (pool, fault) = refused.take();
            pool.end();
            Err(fault.into())
        }
    }
}

/// Prints the numbers of the circuit's lines for the empty ones, by a tree and at this pace, and how it ended.
pub(crate) fn print_in_room(rt: &HostRuntime, pace: Pace) -> Result<(), Fail> {
    let alloc = rt.alloc();
    print_title(rt, "1000 empty lines on 1728 blocks", By::Tree, pace)?;
    let mut circuit = shelf_of(alloc, Slot::First, COUNTER)?;
    let mut lines = Vec::new(alloc);
    for _ in 0..COUNT {
        lines.push(b'\n')?;
    }
    let mut stimulus = shelf_with(alloc, Slot::Second, &lines)?;
    let mut device = MemDevice::new(alloc, &[])?;
    let mut rig = opened_in_room(alloc, &mut device)?;
    let tallied = tallied(&mut rig, &mut circuit, &mut stimulus, By::Tree, pace);
    let _cost = ended(rig);
    let (tally, ending) = tallied?;
    print_numbers(rt, &tally, ending)
}
