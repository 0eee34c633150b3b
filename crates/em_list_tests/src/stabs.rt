//! An interval list that answers some commands.
ghost use Rattle.std.specs.Prelude.{◌≤◌, ◌^◌, length};
ghost use Rattle.em_space.specs.Rig.{Sound};
ghost use Rattle.em_space.specs.Seen.{seen};
ghost use Rattle.em_list_tests.specs.Ready.{Keeps, KeepsList, ReadyList};

use em_devices::takes;
use em_frames::Device;
use em_plain::ScanStab;
use em_record::Record;
use em_space::{EmFault, Rig};

/// Gives a command: with 1 in `c` the interval from `a` to `b`, with 0 a stab at `a`.
fn give<D: Device>(
    list: &mut ScanStab,
    rig: &mut Rig<'_, D>,
    command: Record,
) -> Result<(), EmFault>
    requires ready { ReadyList 1 (seen D.state rig.old) list.old.list }
    ensures kept { KeepsList 1 (seen D.state rig.old) (seen D.state rig.new)
        list.old.list list.new.list result }
{
    match command.c {
        1 if command.a <= command.b => list.interval(rig, command.a, command.b),
        0 => list.stab(rig, command.a),
        _ => Ok(()),
    }
}

/// Gives some commands, one after another.
fn give_all<D: Device>(
    list: &mut ScanStab,
    rig: &mut Rig<'_, D>,
    commands: &[Record],
) -> Result<(), EmFault>
    requires ready { ReadyList (length commands.now) (seen D.state rig.old) list.old.list }
    ensures kept { KeepsList (length commands.now) (seen D.state rig.old) (seen D.state rig.new)
        list.old.list list.new.list result }
{
    for command in commands {
        give(list, rig, *command)?;
    }
    Ok(())
}

/// Whether a new list answers exactly these pairs to some commands.
pub fn answers<D: Device>(
    rig: &mut Rig<'_, D>,
    commands: &[Record],
    pairs: &[Record],
) -> Result<bool, EmFault>
    requires sound { Sound (seen D.state rig.old) }
    requires free { 8 ≤ (seen D.state rig.old).pool.free }
    requires few { length commands.now ≤ 2 ^ 20 }
    ensures kept { Keeps (seen D.state rig.old) (seen D.state rig.new) }
{
    let mut list = ScanStab::new(rig)?;
    if let Err(fault) = give_all(&mut list, rig, commands) {
        list.abandon(rig);
        return Err(fault);
    }
    let chain = list.finish(rig)?;
    takes(rig, chain, pairs)
}
