// The items that lines are made of: a byte, a separator, a number.
ghost use Rattle.std.specs.Prelude.{◌≡◌, ◌+◌, ◌^◌, ◌<◌, ◌≤◌, ◌∷◌, length, IfOk, IfErr, OnOk, OnSome};
ghost use Rattle.aig_defs.specs.Items.{look, space, line_end, last_end, goes_on, number, number_fault};
ghost use Rattle.aig_text.specs.Source.{CanRead, source};
ghost use Rattle.aig_text.specs.Reads.{ReadsItem};
ghost use Rattle.aig_text.specs.Limits.{IsLimit};

use crate::stop::{AigStop, fault};
use aig_defs::{AigKind, Limit};
use em_io::{Digits, Feed, Shelf};

/// No item looks at the byte at this offset.
const END: u64 = 1 << 50;

/// The byte that stands here, without taking it; none at the text's end.
#[tactic(auto, using(crate::proofs::Steadies::steadies))]
pub fn look<H: Shelf>(feed: &mut Feed, shelf: &mut H) -> Result<Option<u8>, AigStop>
    requires { CanRead (source H.Shelf feed.old shelf.old) }
    ensures reads { ReadsItem H.tells look (source H.Shelf feed.old shelf.old)
        (source H.Shelf feed.new shelf.new) result }
    ensures ahead { IfOk result (λ next. OnSome next (0 < length feed.new.ahead)) }
    ensures below { IfOk result (λ next. OnSome next (feed.new.place < 2 ^ 50)) }
    ensures place { feed.new.place ≡ feed.old.place }
{
    let next = feed.peek(shelf)?;
    if next.is_some() && feed.place() >= END {
        return fault(AigKind::TooLong, END);
    }
    Ok(next)
}

/// One space.
#[tactic(auto, using(crate::proofs::Steadies::steadies))]
pub fn space<H: Shelf>(feed: &mut Feed, shelf: &mut H) -> Result<(), AigStop>
    requires { CanRead (source H.Shelf feed.old shelf.old) }
    ensures { ReadsItem H.tells space (source H.Shelf feed.old shelf.old)
        (source H.Shelf feed.new shelf.new) result }
{
    match look(feed, shelf)? {
        None => fault(AigKind::Short, feed.place()),
        Some(b' ') => {
            feed.take();
            Ok(())
        }
        Some(_) => fault(AigKind::BadSeparator, feed.place()),
    }
}

/// The end of a line: a newline, or the text's end.
#[tactic(auto, using(crate::proofs::Steadies::steadies))]
pub fn line_end<H: Shelf>(feed: &mut Feed, shelf: &mut H) -> Result<(), AigStop>
    requires { CanRead (source H.Shelf feed.old shelf.old) }
    ensures { ReadsItem H.tells line_end (source H.Shelf feed.old shelf.old)
        (source H.Shelf feed.new shelf.new) result }
{
    match look(feed, shelf)? {
        None => Ok(()),
        Some(b'\n') => {
            feed.take();
            Ok(())
        }
        Some(_) => fault(AigKind::BadSeparator, feed.place()),
    }
}

/// The end of a line to which no number may be added: of a header with nine numbers, and of a latch with a
/// reset. A space there is Extension.
#[tactic(auto, using(crate::proofs::Steadies::steadies))]
pub fn last_end<H: Shelf>(feed: &mut Feed, shelf: &mut H) -> Result<(), AigStop>
    requires { CanRead (source H.Shelf feed.old shelf.old) }
    ensures { ReadsItem H.tells last_end (source H.Shelf feed.old shelf.old)
        (source H.Shelf feed.new shelf.new) result }
{
    match look(feed, shelf)? {
        None => Ok(()),
        Some(b'\n') => {
            feed.take();
            Ok(())
        }
        Some(b' ') => fault(AigKind::Extension, feed.place()),
        Some(_) => fault(AigKind::BadSeparator, feed.place()),
    }
}

/// Whether a line goes on: a space, or its end.
#[tactic(auto, using(crate::proofs::Steadies::steadies))]
pub fn goes_on<H: Shelf>(feed: &mut Feed, shelf: &mut H) -> Result<bool, AigStop>
    requires { CanRead (source H.Shelf feed.old shelf.old) }
    ensures { ReadsItem H.tells goes_on (source H.Shelf feed.old shelf.old)
        (source H.Shelf feed.new shelf.new) result }
{
    match look(feed, shelf)? {
        None => Ok(false),
        Some(b'\n') => {
            feed.take();
            Ok(false)
        }
        Some(b' ') => {
            feed.take();
            Ok(true)
        }
        Some(_) => fault(AigKind::BadSeparator, feed.place()),
    }
}

/// The value of a number as one that its limit allows, or what is wrong with it.
fn within(limit: Limit, value: u128) -> Result<u64, AigKind>
    requires { IsLimit limit }
    ensures ok { IfOk result (λ number. (number ≡ value) × (number_fault limit value ≡ None)) }
    ensures err { IfErr result (λ kind. number_fault limit value ≡ Some kind) }
{
    match limit {
        Limit::Count => {
            if value > 1 << 40 {
                return Err(AigKind::TooLarge);
            }
        }
        Limit::Defining(max) => {
            if value > 2 * max as u128 + 1 {
                return Err(AigKind::LiteralRange);
            }
            if value == 0 || value % 2 == 1 {
                return Err(AigKind::OddDefinition);
            }
        }
        Limit::Used(max) => {
            if value > 2 * max as u128 + 1 {
                return Err(AigKind::LiteralRange);
            }
        }
        Limit::Position(count) => {
            if value >= count as u128 {
                return Err(AigKind::BadSymbol);
            }
        }
        Limit::NoJustice => {
            if value > 1 << 40 {
                return Err(AigKind::TooLarge);
            }
            if value != 0 {
                return Err(AigKind::Justice);
            }
        }
        Limit::NoFairness => {
            if value > 1 << 40 {
                return Err(AigKind::TooLarge);
            }
            if value != 0 {
                return Err(AigKind::Fairness);
            }
        }
        Limit::Reset(own, given) => {
            if value >= 2 {
                if value != own as u128 {
                    return Err(AigKind::BadReset);
                }
                if !given {
                    return Err(AigKind::Uninit);
                }
            }
        }
    }
    Ok(value as u64)
}

/// A number of 1 to 20 digits that its limit allows.
#[tactic(auto, using(crate::proofs::Steadies::steadies, crate::proofs::Numbers::numbers))]
pub fn number<H: Shelf>(feed: &mut Feed, shelf: &mut H, limit: Limit) -> Result<u64, AigStop>
    requires open { CanRead (source H.Shelf feed.old shelf.old) }
    requires limit { IsLimit limit }
    ensures reads { ReadsItem H.tells (number limit) (source H.Shelf feed.old shelf.old)
        (source H.Shelf feed.new shelf.new) result }
    ensures allowed { IfOk result (λ value. number_fault limit value ≡ None) }
    ensures forward { OnOk result (feed.old.place < feed.new.place) }
{
    let start = feed.place();
    match feed.digits(shelf)? {
        Digits::Nothing => match feed.peek(shelf)? {
            None => fault(AigKind::Short, start),
            Some(_) => fault(AigKind::BadNumber, start),
        },
        Digits::TooMany => fault(AigKind::BadNumber, start),
        Digits::TooLong => fault(AigKind::TooLong, END),
        Digits::Value { value, count: _ } => match within(limit, value) {
            Ok(number) => Ok(number),
            Err(kind) => fault(kind, start),
        },
    }
}
