// A difference of two literals, as bytes of seven bits.
ghost use Rattle.std.specs.Prelude.{◌≡◌, ◌^◌, ◌<◌, ◌≤◌, IfOk, OnOk};
ghost use Rattle.aig_defs.specs.Items.{delta, delta_bytes};
ghost use Rattle.aig_text.specs.Reads.{ReadsItem};
ghost use Rattle.aig_text.specs.Source.{CanRead, source};

use aig_text::{AigKind, AigStop, fault, look};
use em_io::{Feed, Shelf};

/// A delta has at most this many bytes.
const MOST: u32 = 6;

/// What is left of a delta that began at `first`: at most `most` bytes.
#[tactic(auto, using(aig_text::proofs::Steadies::steadies))]
fn delta_bytes<H: Shelf>(
    feed: &mut Feed,
    shelf: &mut H,
    first: u64,
    most: u32,
) -> Result<u64, AigStop>
    requires open { CanRead (source H.Shelf feed.old shelf.old) }
    requires most { most ≤ 6 }
    ensures reads { ReadsItem H.tells (delta_bytes first most) (source H.Shelf feed.old shelf.old)
        (source H.Shelf feed.new shelf.new) result }
    ensures within { IfOk result (λ value. value < 128 ^ most) }
    ensures forward { OnOk result (feed.old.place < feed.new.place) }
{
    if most == 0 {
        return fault(AigKind::BadDelta, first);
    }
    let Some(byte) = look(feed, shelf)? else {
        return fault(AigKind::Short, feed.place());
    };
    feed.take();
    if byte < 128 {
        return Ok(byte as u64);
    }
    let rest = delta_bytes(feed, shelf, first, most - 1)?;
    Ok(byte as u64 - 128 + 128 * rest)
}

/// A delta from `low` to `high`.
#[tactic(auto, using(aig_text::proofs::Steadies::steadies))]
pub(crate) fn delta<H: Shelf>(
    feed: &mut Feed,
    shelf: &mut H,
    low: u64,
    high: u64,
) -> Result<u64, AigStop>
    requires { CanRead (source H.Shelf feed.old shelf.old) }
    ensures reads { ReadsItem H.tells (delta low high) (source H.Shelf feed.old shelf.old)
        (source H.Shelf feed.new shelf.new) result }
    ensures least { IfOk result (λ value. low ≤ value) }
    ensures most { IfOk result (λ value. value ≤ high) }
    ensures forward { OnOk result (feed.old.place < feed.new.place) }
{
    let first = feed.place();
    let value = delta_bytes(feed, shelf, first, MOST)?;
    if value < low || value > high {
        return fault(AigKind::BadDelta, first);
    }
    Ok(value)
}
