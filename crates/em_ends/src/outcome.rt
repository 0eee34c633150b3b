ghost use Rattle.std.specs.Prelude.{◌≡◌, ◌≤◌, IfSome, IsTrue, ◌↔◌, IsSome};
ghost use Rattle.em_space.specs.Seen.{seen};

use crate::status::Status;
use em_frames::Device;
use em_space::Rig;

/// What a run cost: the block moves that it made, and the greatest number of frames that were out
/// at once, an area counting as w.
#[derive(Clone, Copy, Debug, PartialEq, Eq, Drop)]
pub struct Stats {
    pub moves: u64,
    pub peak: u32,
}

/// How a run ended, and what it cost where the words ask for that.
#[derive(Clone, Copy, Debug, PartialEq, Eq, Drop)]
pub struct Outcome {
    pub status: Status,
    pub stats: Option<Stats>,
}

/// The cost of a run that moved no block, where that is wanted.
pub fn unmoved(wanted: bool) -> Option<Stats>
    ensures wanted { IsSome result ↔ IsTrue wanted }
    ensures moves { IfSome result (λ s. s.moves ≡ 0) }
    ensures peak { IfSome result (λ s. s.peak ≡ 0) }
{
    if wanted {
        return Some(Stats { moves: 0, peak: 0 });
    }
    None
}

/// What a run has cost so far, where that is wanted.
pub fn stats_of<D: Device>(rig: &Rig<'_, D>, wanted: bool) -> Option<Stats>
    ensures wanted { IsSome result ↔ IsTrue wanted }
    ensures moves { IfSome result (λ s. s.moves ≡ (seen D.state rig.now).moves) }
    ensures peak { IfSome result (λ s. s.peak ≡ (seen D.state rig.now).pool.peak) }
    ensures most { IfSome result (λ s. s.peak ≤ (seen D.state rig.now).pool.shape.frames) }
{
    if wanted {
        return Some(Stats {
            moves: rig.moves(),
            peak: rig.peak(),
        });
    }
    None
}
