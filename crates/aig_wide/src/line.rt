//! The bits of a line of the stimulus, a word of at most 64 at a time.

ghost use Rattle.std.specs.Prelude.{◌+◌, ◌≤◌, OnOk};
ghost use Rattle.aig_text.specs.Reads.{Advances};
ghost use Rattle.aig_text.specs.Source.{CanRead, source};
ghost use Rattle.aig_wide.specs.Lines.{ReadsWordBy};

use aig_sweep::read_bit;
use aig_text::AigStop;
use aig_words::with_bit;
use em_io::{Feed, Shelf};

/// Reads this many bits, at most 64, as a word.
pub(crate) fn read_word<H: Shelf>(
    feed: &mut Feed,
    shelf: &mut H,
    count: u64,
) -> Result<u64, AigStop>
    requires ready { CanRead (source H.Shelf feed.old shelf.old) }
    requires most { count ≤ 64 }
    ensures advances { Advances H.tells (source H.Shelf feed.old shelf.old)
        (source H.Shelf feed.new shelf.new) }
    ensures reads { ReadsWordBy H.tells count (source H.Shelf feed.old shelf.old)
        (source H.Shelf feed.new shelf.new) result }
    ensures further { OnOk result (feed.old.place + count ≤ feed.new.place) }
{
    let mut word = 0;
    for at in 0..count {
        let bit = read_bit(feed, shelf)?;
        word = with_bit(word, at, bit as u64);
    }
    Ok(word)
}
