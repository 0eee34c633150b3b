//! The pairs that are reported, one record each: `(stab, interval, 0, 0)`.

ghost use Rattle.std.specs.Prelude.{[], ◌∷◌, ◌<◌};
ghost use Rattle.em_model.specs.StabAnswers.{pair_record};
ghost use Rattle.em_space.specs.Rig.{Sound};
ghost use Rattle.em_space.specs.Seen.{seen};
ghost use Rattle.em_chain.specs.Writer.{WriterHasFrame};
ghost use Rattle.em_segment_parts.specs.Pairs.{IsPairs, WritesTo};

use em_chain::Writer;
use em_frames::Device;
use em_record::Record;
use em_space::{EmFault, Rig};

/// One more than the most pairs that are written. A device that tells has no room for as many.
const PAIRS_END: u64 = 1 << 56;

/// Writes the pair of a stab and an interval, by their numbers. `Full` comes only if all blocks are in
/// use, and `Damaged` only over a device that doesn't tell.
pub fn append_pair<D: Device>(
    rig: &mut Rig<'_, D>,
    stab: u64,
    interval: u64,
    pairs: &mut Writer,
) -> Result<(), EmFault>
    requires sound { Sound (seen D.state rig.old) }
    requires is { IsPairs (seen D.state rig.old) pairs.old }
    requires free { 0 < (seen D.state rig.old).pool.free }
    ensures frame { WriterHasFrame (seen D.state rig.new) pairs.new }
    ensures writes { WritesTo 0 (pair_record stab interval ∷ [])
        (seen D.state rig.old) (seen D.state rig.new) pairs.old pairs.new result }
{
    if pairs.len() + 1 >= PAIRS_END {
        return Err(EmFault::Damaged { block: 0 });
    }
    pairs.append(
        rig,
        Record {
            a: stab,
            b: interval,
            c: 0,
            d: 0,
        },
    )
}
