//! What a small program does. It reads one file of numbers or two, on a rig with all frames of a run, and prints a text:
//!
//!     files -> shelf -> run <-> rig, in blocks
//!                        |
//!                        v
//!                      output
//!
//! Left to whoever runs it: the words, the rig, the message of a failure and the exit code.
ghost use Rattle.std.specs.Prelude.{◌≡◌, ℕ, ◌+◌, ◌≤◌, Bool, List, [], length, IfErr, IsTrue, OnOk};
ghost use Rattle.em_io.specs.Shelf.{IsFresh, Stand};
ghost use Rattle.em_io.specs.Sink.{SentPart};
ghost use Rattle.em_record.specs.Shape.{ShapeNumbers};
ghost use Rattle.em_ends.specs.Stop.{Faults, fault_counts};
ghost use Rattle.em_ends.specs.declared.stop.Stop as stops;
ghost use Rattle.em_ready.specs.Ready.{IsReady, IsUnused};
ghost use Rattle.em_space.specs.Rig.{Goes, RigState};
ghost use Rattle.em_space.specs.Seen.{seen};
ghost use Rattle.em_tool.specs.Names.{names_of};

use em_ends::Stop;
use em_frames::Device;
use em_io::{Shelf, Sink};
use em_space::Rig;

/// A program over files of numbers: its name, the files that it wants, and its run.
pub trait Tool {
    /// How many files it reads.
    ghost FILES: { ℕ };
    /// The text that is due for the files of these names, by what stands on the shelf.
    ghost due: { Stand → List (List ℕ) → List ℕ };
    /// The most moves of a run on a rig of this shape, for the files of these names, by what stands on the shelf.
    ghost most: { ShapeNumbers → Stand → List (List ℕ) → ℕ };
    /// Why a run stops: by whether the shelf tells, the shelf before the run, the names of the files, the counts of faults
    /// of shelf and output before and after it, and the rig before and after it.
    ghost cause: { Bool → Stand → List (List ℕ) → Faults → Faults → RigState → RigState → stops.Stop → Type 0 };

    /// The name of the program, which begins each message.
    const NAME: &'static str;
    /// The file of its scratch device, in the current folder. A file of this name that stands there loses the name.
    const SCRATCH: &'static str;
    /// How many files it reads: 1 or 2, since a shelf has two slots.
    const FILES: usize;
    /// The files in its usage line, such as `FILE` or `WORDS ASKED`.
    const OPERANDS: &'static str;

    /// Runs over the files of these names, and prints what is due. There are `FILES` names. No block of the rig is or was in
    /// use, the frames of a run are free, and no slot of the shelf was opened. At every exit all frames are back, and
    /// over a shelf and a device that tell, the output took a front of what is due after at most `most` moves. A `Stop`
    /// says what failed: a faulty line of a file, the shelf, the output or the rig. The tool's `cause` of it holds.
    fn run<D: Device, H: Shelf, W: Sink>(
        &self,
        files: &[String],
        rig: &mut Rig<'_, D>,
        shelf: &mut H,
        out: &mut W,
    ) -> Result<(), Stop>
        requires count { length files.now ≡ FILES }
        requires unused { IsUnused (seen D.state rig.old) }
        requires none_moved { (seen D.state rig.old).moves ≡ 0 }
        requires free { IsReady (seen D.state rig.old).pool }
        requires fresh { IsFresh (H.stand shelf.old) }
        ensures goes { Goes [] (seen D.state rig.old) (seen D.state rig.new) }
        ensures answers { IsTrue H.tells → IsTrue (seen D.state rig.old).device.told → OnOk result
            (W.state out.new
            ≡ W.took (W.state out.old) (due (H.stand shelf.old) (names_of files.now))) }
        ensures front { IsTrue H.tells → IsTrue (seen D.state rig.old).device.told
            → SentPart W.took (W.state out.old) (due (H.stand shelf.old) (names_of files.now))
            (W.state out.new) }
        ensures moves { IsTrue H.tells → IsTrue (seen D.state rig.old).device.told
            → (seen D.state rig.new).moves ≤ (seen D.state rig.old).moves
            + most (seen D.state rig.old).pool.shape (H.stand shelf.old) (names_of files.now) }
        ensures stop { IfErr result (cause H.tells (H.stand shelf.old) (names_of files.now)
            (fault_counts (H.faults shelf.old) (W.faults out.old))
            (fault_counts (H.faults shelf.new) (W.faults out.new))
            (seen D.state rig.old) (seen D.state rig.new)) };
}
