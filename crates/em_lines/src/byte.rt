// The next byte of a text.
ghost use Rattle.std.specs.Prelude.{◌≡◌, ◌+◌, ◌<◌, ◌≤◌, ◌^◌, ◌∷◌, [], true, length, drop, IfOk, IsTrue, OnSome, MatchOption};
ghost use Rattle.em_record.specs.Count.{HasCause};
ghost use Rattle.em_io.specs.Feed.{rest};
ghost use Rattle.em_io.specs.Shelf.{Stand};
ghost use Rattle.em_lines.specs.Reads.{Reads};

use em_io::{Feed, Shelf};
use em_record::Failed;

/// The next byte, which stays, or none at the text's end.
pub fn next_byte<H: Shelf>(feed: &mut Feed, shelf: &mut H) -> Result<Option<u8>, Failed>
    requires ready { ((H.stand shelf.old).slot feed.old.slot).ready ≡ true }
    ensures next { IsTrue H.tells → IfOk result (λ next. MatchOption next
        (rest feed.old (H.stand shelf.old) ≡ [])
        (λ byte. rest feed.old (H.stand shelf.old)
        ≡ byte ∷ drop 1 (rest feed.old (H.stand shelf.old)))) }
    ensures same { IsTrue H.tells
        → rest feed.new (H.stand shelf.new) ≡ rest feed.old (H.stand shelf.old) }
    ensures ahead { IfOk result (λ next. OnSome next (0 < length feed.new.ahead)) }
    ensures place { feed.new.place ≡ feed.old.place }
    ensures reads { Reads H.tells feed.old (H.stand shelf.old) feed.new (H.stand shelf.new) }
    ensures cause { HasCause (H.faults shelf.old) (H.faults shelf.new) result }
{
    feed.peek(shelf)
}

/// Takes the byte that the last `next_byte` gave.
pub fn take_byte(feed: &mut Feed)
    requires ahead { 0 < length feed.old.ahead }
    requires place { feed.old.place < 2 ^ 50 }
    ensures rest { (stand : Stand) → rest feed.new stand ≡ drop 1 (rest feed.old stand) }
    ensures slot { feed.new.slot ≡ feed.old.slot }
    ensures place { feed.new.place ≡ feed.old.place + 1 }
{
    feed.take();
}

/// Takes this many of the bytes that are ahead.
pub fn take_bytes(feed: &mut Feed, count: usize)
    requires ahead { count ≤ length feed.old.ahead }
    requires place { feed.old.place + count ≤ 2 ^ 50 }
    ensures rest { (stand : Stand) → rest feed.new stand ≡ drop count (rest feed.old stand) }
    ensures slot { feed.new.slot ≡ feed.old.slot }
    ensures place { feed.new.place ≡ feed.old.place + count }
{
    feed.skip(count);
}
