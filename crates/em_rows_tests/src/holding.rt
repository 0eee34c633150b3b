//! The windows of a file that hold the moments of another one; and the tool that prints them.
ghost use Rattle.std.specs.Prelude.{◌≡◌, ◌+◌, ◌≤◌, [], IfErr, IsTrue, OnOk};
ghost use Rattle.em_io.specs.Shelf.{IsFresh};
ghost use Rattle.em_io.specs.Sink.{SentPart};
ghost use Rattle.em_ends.specs.Stop.{fault_counts};
ghost use Rattle.em_ready.specs.Ready.{IsReady, IsUnused};
ghost use Rattle.em_rows.specs.Answered.{TextsCause, first_text, second_text};
ghost use Rattle.em_rows_tests.specs.Holding.{holding_moves, holding_plan, holding_text};
ghost use Rattle.em_space.specs.Rig.{Goes};
ghost use Rattle.em_space.specs.Seen.{seen};

use em_ends::Stop;
use em_frames::Device;
use em_io::{Shelf, Sink};
use em_rows::{Columns, Plan, RowKind, answer_rows};
use em_segment::Stab;
use em_space::Rig;
use em_tool::{Tool, name_at};

/// Prints for each moment of the second file the windows of the first one that hold it.
pub fn print_holding<D: Device, H: Shelf, W: Sink>(
    rig: &mut Rig<'_, D>,
    first: &str,
    second: &str,
    shelf: &mut H,
    out: &mut W,
) -> Result<(), Stop>
    requires unused { IsUnused (seen D.state rig.old) }
    requires free { IsReady (seen D.state rig.old).pool }
    requires fresh { IsFresh (H.stand shelf.old) }
    ensures goes { Goes [] (seen D.state rig.old) (seen D.state rig.new) }
    ensures answers { IsTrue H.tells → IsTrue (seen D.state rig.old).device.told → OnOk result
        (W.state out.new ≡ W.took (W.state out.old) (holding_text
        (first_text (H.stand shelf.old) first.now) (second_text (H.stand shelf.old) second.now))) }
    ensures front { IsTrue H.tells → IsTrue (seen D.state rig.old).device.told
        → SentPart W.took (W.state out.old) (holding_text
        (first_text (H.stand shelf.old) first.now) (second_text (H.stand shelf.old) second.now))
        (W.state out.new) }
    ensures moves { IsTrue H.tells → IsTrue (seen D.state rig.old).device.told
        → (seen D.state rig.new).moves ≤ (seen D.state rig.old).moves
        + holding_moves (seen D.state rig.old).pool.shape
        (first_text (H.stand shelf.old) first.now) (second_text (H.stand shelf.old) second.now) }
    ensures stop { IfErr result (TextsCause H.tells holding_plan
        (first_text (H.stand shelf.old) first.now) (second_text (H.stand shelf.old) second.now)
        (fault_counts (H.faults shelf.old) (W.faults out.old))
        (fault_counts (H.faults shelf.new) (W.faults out.new))
        (seen D.state rig.old) (seen D.state rig.new)) }
{
    let plan = Plan {
        first: RowKind::Window,
        second: RowKind::Moment,
        columns: Columns::Numbers,
    };
    answer_rows::<D, H, W, Stab>((), plan, rig, first, second, shelf, out)
}

/// Prints for each moment of its second file the windows of the first one that hold it.
pub struct Holding;

impl Tool for Holding {
    ghost use Rattle.em_rows.specs.Answered.{TextsCause, first_text, second_text};
    ghost use Rattle.em_rows_tests.specs.Holding.{holding_moves, holding_plan, holding_text};
    ghost use Rattle.em_tool.specs.Names.{name_at};

    ghost FILES = { 2 };

    ghost due = { λ stand names. holding_text (first_text stand (name_at names 0))
        (second_text stand (name_at names 1)) };

    ghost most = { λ shape stand names. holding_moves shape (first_text stand (name_at names 0))
        (second_text stand (name_at names 1)) };

    ghost cause = { λ tells stand names. TextsCause tells holding_plan (first_text stand (name_at names 0))
        (second_text stand (name_at names 1)) };

    const NAME: &'static str = "holding";

    const SCRATCH: &'static str = "holding.scratch";

    const FILES: usize = 2;

    const OPERANDS: &'static str = "WINDOWS MOMENTS";

    fn run<D: Device, H: Shelf, W: Sink>(
        &self,
        files: &[String],
        rig: &mut Rig<'_, D>,
        shelf: &mut H,
        out: &mut W,
    ) -> Result<(), Stop> {
        print_holding(rig, name_at(files, 0), name_at(files, 1), shelf, out)
    }
}
