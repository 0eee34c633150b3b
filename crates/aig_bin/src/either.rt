//! The reader of both forms, from a text's first byte.
ghost use Rattle.std.specs.Prelude.{◌≡◌, ◌<◌, ◌≤◌, true, IfSome};
ghost use Rattle.em_space.specs.Rig.{Sound};
ghost use Rattle.em_space.specs.Seen.{seen};
ghost use Rattle.aig_text.specs.Source.{source};
ghost use Rattle.aig_bin.specs.EitherForm.{ReadsEither};

use crate::binary::read_binary;
use aig_text::{AigStop, Parts, read_ascii, read_magic};
use em_frames::Device;
use em_io::{Feed, Shelf};
use em_space::Rig;

/// Reads a circuit from its first byte, in the form that its magic names, into four chains of
/// records.
///
/// The slot was opened with Ok, and the feed is new. Six single frames are free. After Ok the text is
/// read to its end. `Fault` is the first fault of the text, its magic included. `Read` comes only if
/// the shelf's count of faults rose. `Em` is the fault of a call on the rig. At each exit all frames
/// are back, and no block changed that was in use before. After a stop the blocks that came into use
/// stay so, and the feed is not used again.
///
/// What the text is, and the moves and blocks, are promised over a shelf that tells its texts, and
/// what the chains hold over a device that tells. The numbers are those of `read_binary`, with E by
/// the form that was read. `uninit` is as at `read_ascii`.
pub fn read_either<D: Device, H: Shelf>(
    rig: &mut Rig<'_, D>,
    feed: &mut Feed,
    shelf: &mut H,
    uninit: Option<u64>,
) -> Result<Parts, AigStop>
    requires sound { Sound (seen D.state rig.old) }
    requires ready { ((H.stand shelf.old).slot feed.old.slot).ready ≡ true }
    requires none { feed.old.place ≡ 0 }
    requires uninit { IfSome uninit (λ value. value ≤ 1) }
    requires free { 5 < (seen D.state rig.old).pool.free }
    ensures reads { ReadsEither H.tells uninit (source H.Shelf feed.old shelf.old)
        (source H.Shelf feed.new shelf.new) (seen D.state rig.old) (seen D.state rig.new) result }
{
    if read_magic(feed, shelf)? {
        read_ascii(rig, feed, shelf, uninit)
    } else {
        read_binary(rig, feed, shelf, uninit)
    }
}
