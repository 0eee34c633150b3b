//! A map that answers some commands.
ghost use Rattle.std.specs.Prelude.{◌≡◌, ◌≤◌, ◌^◌, length};
ghost use Rattle.em_space.specs.Rig.{Sound};
ghost use Rattle.em_space.specs.Seen.{seen};
ghost use Rattle.em_list_tests.specs.Ready.{Keeps, KeepsMap, ReadyMap};

use em_devices::takes;
use em_frames::Device;
use em_plain::ScanMap;
use em_record::Record;
use em_settle::{AddSettle, Combine};
use em_space::{EmFault, Rig};

/// Gives a map a command on the key `a`: with 0 in `c` a get, with 1 a put of the value `b`, with 2 a del, with 3 an add
/// of the value `b`.
fn note<D: Device, F: Fn(u64, u64) -> u64 + Drop>(
    rig: &mut Rig<'_, D>,
    map: &mut ScanMap<F>,
    command: Record,
) -> Result<(), EmFault>
    requires ready { ReadyMap 1 (seen D.state rig.old) map.old }
    ensures kept { KeepsMap 1 (seen D.state rig.old) (seen D.state rig.new)
        map.old map.new result }
    ensures settle { map.new.settle ≡ map.old.settle }
{
    match command.c {
        0 => map.get(rig, command.a),
        1 => map.put(rig, command.a, command.b),
        2 => map.del(rig, command.a),
        3 => map.add(rig, command.a, command.b),
        _ => Ok(()),
    }
}

/// Gives a map some commands.
fn note_all<D: Device, F: Fn(u64, u64) -> u64 + Drop>(
    rig: &mut Rig<'_, D>,
    map: &mut ScanMap<F>,
    commands: &[Record],
) -> Result<(), EmFault>
    requires ready { ReadyMap (length commands.now) (seen D.state rig.old) map.old }
    ensures kept { KeepsMap (length commands.now) (seen D.state rig.old) (seen D.state rig.new)
        map.old map.new result }
    ensures settle { map.new.settle ≡ map.old.settle }
{
    for command in commands {
        note(rig, map, *command)?;
    }
    Ok(())
}

/// Whether a new map answers exactly these records to some commands.
pub fn answers<D: Device>(
    rig: &mut Rig<'_, D>,
    commands: &[Record],
    records: &[Record],
) -> Result<bool, EmFault>
    requires sound { Sound (seen D.state rig.old) }
    requires free { 8 ≤ (seen D.state rig.old).pool.free }
    requires few { length commands.now ≤ 2 ^ 20 }
    ensures kept { Keeps (seen D.state rig.old) (seen D.state rig.new) }
{
    let sum = AddSettle::new(|x: u64, y: u64| x.wrapping_add(y), Combine::Sum);
    let mut map = ScanMap::with(rig, sum)?;
    if let Err(fault) = note_all(rig, &mut map, commands) {
        map.abandon(rig);
        return Err(fault);
    }
    let chain = map.finish(rig)?;
    takes(rig, chain, records)
}
