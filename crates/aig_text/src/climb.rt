//! How the variables of the definitions stand, and whether gates are above their operands, as far as they were written:
//!
//!     definitions 1 2 3    climb, and count up
//!     definitions 1 3 4    climb
//!     gate 3 = 1 and 2     is above its operands
//!
//! Left to the lists: the records themselves.

ghost use Rattle.std.specs.Prelude.{◌≡◌};
ghost use Rattle.aig_text.specs.Climbing as climbing;

use em_record::Record;

/// How the variables of some records stand.
#[derive(Clone, Copy, Debug, PartialEq, Eq, Drop)]
pub(crate) struct Climb {
    /// The variable of the last record, or 0 if there is none.
    pub(crate) last: u64,
    /// Whether each variable is above the one before it, and the first one above 0.
    pub(crate) climbs: bool,
    /// Whether the variables are 1, 2, 3 and so on.
    pub(crate) counts: bool,
}

/// Before all records.
pub(crate) fn at_foot() -> Climb
    ensures { result ≡ climbing.at_foot }
{
    Climb {
        last: 0,
        climbs: true,
        counts: true,
    }
}

/// After one record more.
pub(crate) fn after_record(before: Climb, item: Record) -> Climb
    ensures { result ≡ climbing.after_record before item }
{
    Climb {
        last: item.a,
        climbs: before.climbs && before.last < item.a,
        counts: before.counts && before.last < item.a && item.a - before.last == 1,
    }
}

/// Whether all gates are above their operands, after one record more.
pub(crate) fn above_operands(before: bool, gate: Record) -> bool
    ensures { result ≡ climbing.above_operands before gate }
{
    before && gate.b / 2 < gate.a && gate.c / 2 < gate.a
}
