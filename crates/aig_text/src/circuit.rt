// The reader of a circuit in any form, by the rows of the form.
ghost use Rattle.std.specs.Prelude.{◌≡◌, ◌<◌, ◌≤◌, [], true, ℕ, IfOk, IsTrue, OnOk};
ghost use Rattle.em_record.specs.Count.{Rose};
ghost use Rattle.em_space.specs.Rig.{Cause, Goes, Sound};
ghost use Rattle.em_space.specs.Seen.{seen};
ghost use Rattle.aig_defs.specs.Circuit.{IsHeader};
ghost use Rattle.aig_text.specs.Ascii.{ClimbIfSaid, CompletesReading, FullOnlyIf, GivesCircuit, GivesParts, IfEm, OwesAfter, StraightIfSaid, TakesAtMost, size_given};
ghost use Rattle.aig_text.specs.Reads.{Advances, OnShelfFault};
ghost use Rattle.aig_text.specs.Source.{CanRead, left, source};
ghost use Rattle.aig_text.specs.Listed.{ReadsListing};

use crate::draft::Draft;
use crate::line::header_line;
use crate::parts::Parts;
use crate::rows::Rows;
use crate::section::read_sections;
use crate::stop::AigStop;
use aig_defs::Header;
use em_chain::Chain;
use em_frames::Device;
use em_io::{Feed, Shelf};
use em_space::Rig;

/// Reads all sections into four chains: definitions, gates, uses of literals, and resets. It tells whether the
/// variable of each definition is above the one before it, and whether the circuit is straight.
fn read_lists<R: Rows, D: Device, H: Shelf>(
    rows: &R,
    header: &Header,
    rig: &mut Rig<'_, D>,
    feed: &mut Feed,
    shelf: &mut H,
    climbs: &mut bool,
    straight: &mut bool,
) -> Result<(Chain, Chain, Chain, Chain), AigStop>
    requires header { IsHeader header.now }
    requires text { CanRead (source H.Shelf feed.old shelf.old) }
    requires sound { Sound (seen D.state rig.old) }
    requires free { 4 < (seen D.state rig.old).pool.free }
    ensures lists { ReadsListing H.tells (R.form rows.now) header.now
        (source H.Shelf feed.old shelf.old) (source H.Shelf feed.new shelf.new)
        (seen D.state rig.old) (seen D.state rig.new) result }
    ensures climbs { IfOk result (λ c. ClimbIfSaid climbs.new (seen D.state rig.new) c.0) }
    ensures straight { IfOk result (λ c.
        StraightIfSaid straight.new (seen D.state rig.new) c.0 c.1) }
{
    let mut draft = Draft::new(rig);
    match read_sections(rows, header, rig, feed, shelf, &mut draft) {
        Ok(()) => {
            *climbs = draft.climbs();
            *straight = draft.is_straight();
            Ok(draft.finish(rig)?)
        }
        Err(stop) => {
            draft.abandon(rig);
            Err(stop)
        }
    }
}

/// Reads a circuit after its magic, in the form of these rows. What it needs and gives is said at
/// `read_ascii`.
pub fn read_circuit<R: Rows, D: Device, H: Shelf>(
    rows: &R,
    rig: &mut Rig<'_, D>,
    feed: &mut Feed,
    shelf: &mut H,
) -> Result<Parts, AigStop>
    requires sound { Sound (seen D.state rig.old) }
    requires ready { ((H.stand shelf.old).slot feed.old.slot).ready ≡ true }
    requires magic { feed.old.place ≡ 3 }
    requires free { 5 < (seen D.state rig.old).pool.free }
    ensures goes { Goes [] (seen D.state rig.old) (seen D.state rig.new) }
    ensures parts { IfOk result (GivesParts (seen D.state rig.old) (seen D.state rig.new)) }
    ensures gives { IsTrue H.tells → GivesCircuit (R.form rows.now) (source H.Shelf feed.old shelf.old)
        (source H.Shelf feed.new shelf.new) (seen D.state rig.new) result }
    ensures end { IsTrue H.tells → OnOk result (left (source H.Shelf feed.new shelf.new) ≡ []) }
    ensures feed { Advances H.tells (source H.Shelf feed.old shelf.old)
        (source H.Shelf feed.new shelf.new) }
    ensures read { OnShelfFault result (Rose (H.faults shelf.old) (H.faults shelf.new)) }
    ensures cause { IfEm result (Cause (seen D.state rig.old) (seen D.state rig.new)) }
    ensures takes { IsTrue H.tells → (given : ℕ) → feed.new.place ≤ given
        → TakesAtMost (size_given (R.form rows.now) (source H.Shelf feed.old shelf.old) given)
        (seen D.state rig.old) (seen D.state rig.new) }
    ensures full { IsTrue H.tells → (given : ℕ) → feed.new.place ≤ given
        → FullOnlyIf (size_given (R.form rows.now) (source H.Shelf feed.old shelf.old) given)
        (seen D.state rig.old) result }
    ensures complete { IsTrue H.tells → CompletesReading (R.form rows.now) (source H.Shelf feed.old shelf.old)
        (source H.Shelf feed.new shelf.new) (seen D.state rig.old) (seen D.state rig.new) result }
    ensures owes { OwesAfter (seen D.state rig.old) (seen D.state rig.new) result }
{
    let header = header_line(feed, shelf, rows.which())?;
    let mut climbs = false;
    let mut straight = false;
    let (defs, gates, uses, resets) = read_lists(
        rows,
        &header,
        rig,
        feed,
        shelf,
        &mut climbs,
        &mut straight,
    )?;
    Ok(Parts {
        header,
        defs,
        gates,
        uses,
        resets,
        climbs,
        straight,
    })
}
