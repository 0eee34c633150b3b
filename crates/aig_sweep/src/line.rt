//! The bytes of a line of the stimulus: `0` or `1` for each input, and a newline or the text's end.
ghost use Rattle.std.specs.Prelude.{◌≡◌, ◌^◌, ◌<◌, ◌≤◌, length, slice_get, IfOk, OnOk, OnSome, Some};
ghost use Rattle.aig_defs.specs.Items.{look};
ghost use Rattle.aig_defs.specs.Stimulus.{stimulus_bit, stimulus_end};
ghost use Rattle.aig_text.specs.Reads.{ReadsItem};
ghost use Rattle.aig_text.specs.Source.{CanRead, source};
ghost use Rattle.aig_sweep.specs.Line.{ReadsEnd};

use aig_defs::AigKind;
use aig_text::AigStop;
use em_io::{Feed, Shelf};

/// No byte of a stimulus is looked at from this offset on.
const END: u64 = 1 << 50;

/// The byte that stands here, without taking it; none at the text's end.
#[tactic(auto, using(aig_text::proofs::Steadies::steadies))]
fn look<H: Shelf>(feed: &mut Feed, shelf: &mut H) -> Result<Option<u8>, AigStop>
    requires { CanRead (source H.Shelf feed.old shelf.old) }
    ensures reads { ReadsItem H.tells look (source H.Shelf feed.old shelf.old)
        (source H.Shelf feed.new shelf.new) result }
    ensures ahead { IfOk result (λ next. OnSome next (0 < length feed.new.ahead)) }
    ensures below { IfOk result (λ next. OnSome next (feed.new.place < 2 ^ 50)) }
    ensures place { feed.new.place ≡ feed.old.place }
{
    let next = feed.peek(shelf)?;
    if next.is_some() && feed.place() >= END {
        return Err(AigStop::Fault {
            kind: AigKind::TooLong,
            place: END,
        });
    }
    Ok(next)
}

/// Reads the bit of one input.
///
/// `Fault` is `StimLength` if the line or the text ends here, `StimChar` at another byte than `0` and `1`, and
/// `TooLong` at the offset 2^50. `Read` comes if the shelf failed, and never `Em`.
#[tactic(auto, using(aig_text::proofs::Steadies::steadies))]
pub fn read_bit<H: Shelf>(feed: &mut Feed, shelf: &mut H) -> Result<bool, AigStop>
    requires { CanRead (source H.Shelf feed.old shelf.old) }
    ensures reads { ReadsItem H.tells stimulus_bit (source H.Shelf feed.old shelf.old)
        (source H.Shelf feed.new shelf.new) result }
    ensures further { OnOk result (feed.old.place < feed.new.place) }
{
    let kind = match look(feed, shelf)? {
        Some(b'0') => {
            feed.take();
            return Ok(false);
        }
        Some(b'1') => {
            feed.take();
            return Ok(true);
        }
        None | Some(b'\n') => AigKind::StimLength,
        Some(_) => AigKind::StimChar,
    };
    Err(AigStop::Fault {
        kind,
        place: feed.place(),
    })
}

/// Reads the end of a line: a newline, or the text's end.
///
/// `Fault` is `StimLength` at another byte, and `TooLong` at the offset 2^50. `Read` comes if the shelf
/// failed, and never `Em`.
#[tactic(auto, using(aig_text::proofs::Steadies::steadies))]
pub fn read_end<H: Shelf>(feed: &mut Feed, shelf: &mut H) -> Result<(), AigStop>
    requires { CanRead (source H.Shelf feed.old shelf.old) }
    ensures reads { ReadsItem H.tells stimulus_end (source H.Shelf feed.old shelf.old)
        (source H.Shelf feed.new shelf.new) result }
{
    match look(feed, shelf)? {
        None => Ok(()),
        Some(b'\n') => {
            feed.take();
            Ok(())
        }
        Some(_) => Err(AigStop::Fault {
            kind: AigKind::StimLength,
            place: feed.place(),
        }),
    }
}

/// Takes the end of a line, if this byte is it. It is the first byte ahead, and isn't looked at again: so a
/// line of no input takes a byte. `Fault` is that of `read_end`.
#[tactic(auto, using(aig_text::proofs::Steadies::steadies))]
pub fn take_end(feed: &mut Feed, first: u8) -> Result<(), AigStop>
    requires ahead { Some first ≡ slice_get feed.old.ahead 0 }
    requires place { feed.old.place ≤ 2 ^ 50 }
    ensures reads { ReadsEnd feed.old feed.new result }
    ensures further { OnOk result (feed.old.place < feed.new.place) }
{
    let place = feed.place();
    if place >= END {
        return Err(AigStop::Fault {
            kind: AigKind::TooLong,
            place: END,
        });
    }
    if first != b'\n' {
        return Err(AigStop::Fault {
            kind: AigKind::StimLength,
            place,
        });
    }
    feed.take();
    Ok(())
}
