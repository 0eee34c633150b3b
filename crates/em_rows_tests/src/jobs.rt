//! What a run does with the files `a` and `b`, over any device, shelf and output.
ghost use Rattle.std.specs.Prelude.{[]};
ghost use Rattle.em_io.specs.Shelf.{IsFresh};
ghost use Rattle.em_ready.specs.Ready.{IsReady, IsUnused};
ghost use Rattle.em_space.specs.Rig.{Goes};
ghost use Rattle.em_space.specs.Seen.{seen};

use crate::holding::print_holding;
use em_ends::Stop;
use em_frames::Device;
use em_io::{Feed, Shelf, Sink, Slot};
use em_map::Batch;
use em_rows::{Columns, Plan, RowKind, answer_rows, list_rows, print_rows};
use em_services::MapRule;
use em_settle::{AddSettle, Combine, Settle};
use em_space::Rig;

/// What a run does.
#[derive(Clone, Copy)]
pub enum Job {
    /// Reads the pairs of `a` into a list, and prints it.
    Pairs,
    /// Prints for each number of `b` how often it stands in `a`, by a map whose adds are joined early or not.
    Counts { early: bool },
    /// Prints for each moment of `b` the windows of `a` that hold it.
    Windows,
}

/// Reads the pairs of `a` into a list, and prints it.
fn print_pairs<D: Device, H: Shelf, W: Sink>(
    rig: &mut Rig<'_, D>,
    shelf: &mut H,
    out: &mut W,
) -> Result<(), Stop>
    requires unused { IsUnused (seen D.state rig.old) }
    requires free { IsReady (seen D.state rig.old).pool }
    requires fresh { IsFresh (H.stand shelf.old) }
    ensures goes { Goes [] (seen D.state rig.old) (seen D.state rig.new) }
{
    let Ok(()) = shelf.open(Slot::First, "a") else {
        return Err(Stop::Read);
    };
    let mut feed = Feed::new(Slot::First);
    let pairs = list_rows(rig, &mut feed, shelf)?;
    print_rows(Columns::Pair, rig, &pairs, out)
}

/// Prints for each number of `b` how often it stands in `a`, by a map that joins as `sum` does, early or not.
fn print_joined<D: Device, H: Shelf, W: Sink, F: Fn(u64, u64) -> u64 + Drop>(
    sum: AddSettle<F>,
    early: bool,
    rig: &mut Rig<'_, D>,
    shelf: &mut H,
    out: &mut W,
) -> Result<(), Stop>
    requires rule { ⟦<AddSettle<F> as Settle>⟧.IsReady sum }
    requires unused { IsUnused (seen D.state rig.old) }
    requires free { IsReady (seen D.state rig.old).pool }
    requires fresh { IsFresh (H.stand shelf.old) }
    ensures goes { Goes [] (seen D.state rig.old) (seen D.state rig.new) }
{
    let plan = Plan {
        first: RowKind::Counted,
        second: RowKind::Asked,
        columns: Columns::Value,
    };
    let rule = MapRule { settle: sum, early };
    answer_rows::<D, H, W, Batch<F>>(rule, plan, rig, "a", "b", shelf, out)
}

/// Does a job, on a rig of which no block is or was in use.
pub fn run_job<D: Device, H: Shelf, W: Sink>(
    job: Job,
    rig: &mut Rig<'_, D>,
    shelf: &mut H,
    out: &mut W,
) -> Result<(), Stop>
    requires unused { IsUnused (seen D.state rig.old) }
    requires free { IsReady (seen D.state rig.old).pool }
    requires fresh { IsFresh (H.stand shelf.old) }
    ensures goes { Goes [] (seen D.state rig.old) (seen D.state rig.new) }
{
    match job {
        Job::Pairs => print_pairs(rig, shelf, out),
        Job::Counts { early } => {
            let sum = AddSettle::new(|x: u64, y: u64| x.wrapping_add(y), Combine::Sum);
            print_joined(sum, early, rig, shelf, out)
        }
        Job::Windows => print_holding(rig, "a", "b", shelf, out),
    }
}
