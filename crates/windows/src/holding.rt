// The windows of a file that hold the moments of another one, by an interval list.
ghost use Rattle.std.specs.Prelude.{◌≡◌, ◌≤◌, [], IfErr, IsTrue, OnOk};
ghost use Rattle.em_io.specs.Shelf.{IsFresh};
ghost use Rattle.em_io.specs.Sink.{SentPart};
ghost use Rattle.em_space.specs.Rig.{Goes};
ghost use Rattle.em_space.specs.Seen.{seen};
ghost use Rattle.em_ends.specs.Stop.{fault_counts};
ghost use Rattle.em_ready.specs.Ready.{IsReady, IsUnused};
ghost use Rattle.em_rows.specs.Answered.{AreThere, AreWhole, TextsCause, first_text, second_text};
ghost use Rattle.em_rows.specs.Taken.{OnUnread};
ghost use Rattle.windows.specs.Holding.{HoldsWithin, holding_plan, holding_text};

use em_ends::Stop;
use em_frames::Device;
use em_io::{Shelf, Sink};
use em_rows::{Columns, Plan, RowKind, answer_rows};
use em_segment::Stab;
use em_space::Rig;

/// Prints for each moment of the second file the windows of the first one that hold it, a line `moment window` each, by
/// their numbers from 0 on. A window has both its ends. No block of the rig is or was in use, the frames of a run are
/// free, and no slot of the shelf was opened. `Read` comes if a file isn't there or can't be read, and `Fault` is the
/// first faulty line, of the first file or else of the second; then nothing was printed. `Write` comes if the output
/// failed, and `Em` if the rig gave up. At every exit all frames are back, a front of the text went out, and the moves
/// are within `cost` of the number of windows, moments and lines.
pub fn print_holding<D: Device, H: Shelf, W: Sink>(
    rig: &mut Rig<'_, D>,
    windows: &str,
    moments: &str,
    shelf: &mut H,
    out: &mut W,
) -> Result<(), Stop>
    requires unused { IsUnused (seen D.state rig.old) }
    requires free { IsReady (seen D.state rig.old).pool }
    requires fresh { IsFresh (H.stand shelf.old) }
    ensures goes { Goes [] (seen D.state rig.old) (seen D.state rig.new) }
    ensures answers { IsTrue H.tells → IsTrue (seen D.state rig.old).device.told → OnOk result
        (W.state out.new ≡ W.took (W.state out.old) (holding_text
        (first_text (H.stand shelf.old) windows.now) (second_text (H.stand shelf.old) moments.now))) }
    ensures front { IsTrue H.tells → IsTrue (seen D.state rig.old).device.told
        → SentPart W.took (W.state out.old) (holding_text
        (first_text (H.stand shelf.old) windows.now) (second_text (H.stand shelf.old) moments.now))
        (W.state out.new) }
    ensures there { IsTrue H.tells → OnOk result
        (AreThere (H.stand shelf.old) windows.now moments.now) }
    ensures whole { IsTrue H.tells → OnOk result (AreWhole holding_plan
        (first_text (H.stand shelf.old) windows.now) (second_text (H.stand shelf.old) moments.now)) }
    ensures unprinted { IfErr result (λ stop. OnUnread stop (W.state out.new ≡ W.state out.old)) }
    ensures later { H.faults shelf.old ≤ H.faults shelf.new }
    ensures write_later { W.faults out.old ≤ W.faults out.new }
    ensures stop { IfErr result (TextsCause H.tells holding_plan
        (first_text (H.stand shelf.old) windows.now) (second_text (H.stand shelf.old) moments.now)
        (fault_counts (H.faults shelf.old) (W.faults out.old))
        (fault_counts (H.faults shelf.new) (W.faults out.new))
        (seen D.state rig.old) (seen D.state rig.new)) }
    ensures moves { HoldsWithin H.tells
        (first_text (H.stand shelf.old) windows.now) (second_text (H.stand shelf.old) moments.now)
        (seen D.state rig.old) (seen D.state rig.new) }
{
    let plan = Plan {
        first: RowKind::Window,
        second: RowKind::Moment,
        columns: Columns::Numbers,
    };
    answer_rows::<D, H, W, Stab>((), plan, rig, windows, moments, shelf, out)
}
