// A text of numbers given to a service, row by row.
ghost use Rattle.std.specs.Prelude.{◌≡◌, ◌+◌, ◌++◌, ◌^◌, ◌≤◌, List, length, true, IfErr, IsTrue, OnOk};
ghost use Rattle.em_io.specs.Feed.{rest};
ghost use Rattle.em_model.specs.declared.command.Command as commands;
ghost use Rattle.em_space.specs.Held.{Within};
ghost use Rattle.em_space.specs.Rig.{Sound};
ghost use Rattle.em_space.specs.Seen.{seen};
ghost use Rattle.em_lines.specs.Reads.{Reads};
ghost use Rattle.em_map.specs.Areas.{KeepsAreas};
ghost use Rattle.em_services.specs.Service.{CanTake};
ghost use Rattle.em_rows.specs.Answered.{Fits};
ghost use Rattle.em_rows.specs.Moves.{MovesWithRows, TakesRows};
ghost use Rattle.em_rows.specs.Rows.{rows_in};
ghost use Rattle.em_rows.specs.Taken.{ReadsRows, RowsCause};

use crate::kinds::RowKind;
use crate::row::take_row;
use em_ends::Stop;
use em_frames::Device;
use em_io::{Feed, Shelf};
use em_lines::LineStop;
use em_services::Service;
use em_space::Rig;

/// Gives all rows of a text to a service, up to the first fault. The service takes 2^39 commands more, and those
/// of such rows. The feed stands at the begin of an open slot, and the frames of a call are free. The bound on moves says
/// something only of a service that had no sync. `Fault` is the first faulty line, `Read` comes if the shelf failed, and
/// `Em` if the rig did; after a stop only `abandon` may be called on the service.
pub fn give_rows<D: Device, H: Shelf, S: Service>(
    kind: RowKind,
    rig: &mut Rig<'_, D>,
    service: &mut S,
    feed: &mut Feed,
    shelf: &mut H,
) -> Result<(), Stop>
    requires fits { Fits kind S.KIND }
    requires sound { Sound (seen D.state rig.old) }
    requires is { S.IsService service.old (seen D.state rig.old) }
    requires free { CanTake (S.areas service.old) (seen D.state rig.old).pool }
    requires few { (S.counts service.old).n + 2 ^ 39 ≤ S.most service.old }
    requires ready { ((H.stand shelf.old).slot feed.old.slot).ready ≡ true }
    requires place { feed.old.place ≡ 0 }
    ensures goes { KeepsAreas (S.areas service.old) (S.areas service.new)
        (S.blocks service.old (seen D.state rig.old)) (seen D.state rig.old) (seen D.state rig.new) }
    ensures joins { S.combiner service.new ≡ S.combiner service.old }
    ensures bounds { S.most service.new ≡ S.most service.old }
    ensures sizes { S.size service.new ≡ S.size service.old }
    ensures frames { S.HasItsFrames service.new (seen D.state rig.new) }
    ensures is { OnOk result (S.IsService service.new (seen D.state rig.new)) }
    ensures within { OnOk result (Within (seen D.state rig.old)
        (S.blocks service.old (seen D.state rig.old))
        (S.blocks service.new (seen D.state rig.new))) }
    ensures count { OnOk result ((S.counts service.new).n ≤ (S.counts service.old).n + 2 ^ 39) }
    ensures has { IsTrue H.tells → OnOk result ((before cs : List commands.Command)
        → S.Has service.old (seen D.state rig.old) before cs
        → S.Has service.new (seen D.state rig.new) before
        (cs ++ rows_in kind (rest feed.old (H.stand shelf.old)))) }
    ensures reads { Reads H.tells feed.old (H.stand shelf.old) feed.new (H.stand shelf.new) }
    ensures later { H.faults shelf.old ≤ H.faults shelf.new }
    ensures whole { IsTrue H.tells → OnOk result (ReadsRows kind
        (rest feed.old (H.stand shelf.old)) (rest feed.new (H.stand shelf.new))) }
    ensures stop { IfErr result (RowsCause H.tells kind (rest feed.old (H.stand shelf.old))
        (H.faults shelf.old) (H.faults shelf.new) (seen D.state rig.old) (seen D.state rig.new)) }
    ensures counted { IsTrue H.tells → OnOk result ((S.counts service.new).n
        ≡ (S.counts service.old).n + length (rows_in kind (rest feed.old (H.stand shelf.old)))) }
    ensures since { OnOk result (TakesRows S.Service H.tells
        (rows_in kind (rest feed.old (H.stand shelf.old))) service.old service.new
        (seen D.state rig.old) (seen D.state rig.new)) }
    ensures moves { IsTrue H.tells → MovesWithRows S.Service
        (rows_in kind (rest feed.old (H.stand shelf.old))) service.old
        (seen D.state rig.old) (seen D.state rig.new) }
{
    let mut number: u64 = 1;
    loop {
        let next = match take_row(kind, feed, shelf, number) {
            Ok(next) => next,
            Err(LineStop::Read) => return Err(Stop::Read),
            Err(LineStop::Fault(fault)) => return Err(Stop::at_line(fault, number)),
        };
        let Some(command) = next else {
            return Ok(());
        };
        service.take(rig, command)?;
        number += 1;
    }
}
