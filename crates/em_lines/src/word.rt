// The word that a line begins with.
ghost use Rattle.std.specs.Prelude.{◌≡◌, ◌+◌, ◌<◌, ◌≤◌, ◌^◌, true, length, take, IfOk, IfSome, IfNone, IsTrue};
ghost use Rattle.em_record.specs.Count.{HasCause};
ghost use Rattle.em_io.specs.Feed.{rest};
ghost use Rattle.em_lines.specs.Stream.{word_at, after_word};
ghost use Rattle.em_lines.specs.Reads.{Reads};

use crate::ahead::word_ahead;
use crate::byte::{next_byte, take_byte, take_bytes};
use em_io::{Feed, Shelf};
use em_record::Failed;

/// Takes the word that begins here into a buffer, and answers its length, or `None` where the word
/// is longer than the buffer.
#[tactic(auto, using(crate::proofs::Steps::reads_skip, crate::proofs::AheadLemmas::word_begins, crate::proofs::AheadLemmas::word_skipped))]
pub fn read_word<H: Shelf>(
    feed: &mut Feed,
    shelf: &mut H,
    into: &mut [u8],
) -> Result<Option<usize>, Failed>
    requires ready { ((H.stand shelf.old).slot feed.old.slot).ready ≡ true }
    requires place { feed.old.place < 2 ^ 49 }
    requires few { length into.old ≤ 20 }
    ensures fits { IfOk result (λ found. IfSome found (λ n. n ≤ length into.new)) }
    ensures word { IsTrue H.tells → IfOk result (λ found. IfSome found (λ n.
        take n into.new ≡ word_at (rest feed.old (H.stand shelf.old)))) }
    ensures taken { IsTrue H.tells → IfOk result (λ found. IfSome found (λ n.
        rest feed.new (H.stand shelf.new) ≡ after_word (rest feed.old (H.stand shelf.old)))) }
    ensures longer { IsTrue H.tells → IfOk result (λ found. IfNone found
        (length into.old < length (word_at (rest feed.old (H.stand shelf.old))))) }
    ensures place { feed.new.place ≤ feed.old.place + length into.old }
    ensures reads { Reads H.tells feed.old (H.stand shelf.old) feed.new (H.stand shelf.new) }
    ensures cause { HasCause (H.faults shelf.old) (H.faults shelf.new) result }
{
    if let Some(n) = word_ahead(feed.ahead(), into) {
        take_bytes(feed, n);
        return Ok(Some(n));
    }
    read_letters(feed, shelf, into)
}

/// The same of a word that doesn't stand whole ahead, byte by byte.
#[tactic(auto, using(crate::proofs::Steps::reads_then, crate::proofs::Steps::reads_take))]
#[cold]
fn read_letters<H: Shelf>(
    feed: &mut Feed,
    shelf: &mut H,
    into: &mut [u8],
) -> Result<Option<usize>, Failed>
    requires ready { ((H.stand shelf.old).slot feed.old.slot).ready ≡ true }
    requires place { feed.old.place < 2 ^ 49 }
    requires few { length into.old ≤ 20 }
    ensures fits { IfOk result (λ found. IfSome found (λ n. n ≤ length into.new)) }
    ensures word { IsTrue H.tells → IfOk result (λ found. IfSome found (λ n.
        take n into.new ≡ word_at (rest feed.old (H.stand shelf.old)))) }
    ensures taken { IsTrue H.tells → IfOk result (λ found. IfSome found (λ n.
        rest feed.new (H.stand shelf.new) ≡ after_word (rest feed.old (H.stand shelf.old)))) }
    ensures longer { IsTrue H.tells → IfOk result (λ found. IfNone found
        (length into.old < length (word_at (rest feed.old (H.stand shelf.old))))) }
    ensures place { feed.new.place ≤ feed.old.place + length into.old }
    ensures reads { Reads H.tells feed.old (H.stand shelf.old) feed.new (H.stand shelf.new) }
    ensures cause { HasCause (H.faults shelf.old) (H.faults shelf.new) result }
{
    let mut n = 0;
    while let Some(byte) = next_byte(feed, shelf)? {
        if byte == b' ' || byte == b'\n' {
            break;
        }
        if n == into.len() {
            return Ok(None);
        }
        into[n] = byte;
        n += 1;
        take_byte(feed);
    }
    Ok(Some(n))
}
