// What may follow the gates: symbols and a comment, which are passed over.
ghost use Rattle.std.specs.Prelude.{◌≡◌, ◌^◌, ◌≤◌, ◌<◌, [], true, IfOk, IsTrue, OnOk};
ghost use Rattle.aig_defs.specs.Circuit.{IsHeader};
ghost use Rattle.aig_defs.specs.Tail.{name, comment, symbol, positions, tail_line, tail};
ghost use Rattle.aig_text.specs.Reads.{ReadsItem};
ghost use Rattle.aig_text.specs.Source.{CanRead, source, left};

use crate::item::{look, number, space};
use crate::stop::{AigStop, fault};
use aig_defs::{AigKind, Header, Limit};
use em_io::{Feed, Shelf};

/// The name of a symbol: any bytes to the end of its line.
#[tactic(auto, using(crate::proofs::Steadies::steadies, crate::proofs::Passed::passes))]
fn name<H: Shelf>(feed: &mut Feed, shelf: &mut H) -> Result<(), AigStop>
    requires { CanRead (source H.Shelf feed.old shelf.old) }
    ensures { ReadsItem H.tells name (source H.Shelf feed.old shelf.old)
        (source H.Shelf feed.new shelf.new) result }
{
    loop {
        match look(feed, shelf) {
            Err(stop) => return Err(stop),
            Ok(None) => return Ok(()),
            Ok(Some(byte)) => {
                feed.take();
                if byte == b'\n' {
                    return Ok(());
                }
            }
        }
    }
}

/// The comment after its first byte: any bytes to the text's end.
#[tactic(auto, using(crate::proofs::Steadies::steadies, crate::proofs::Passed::passes))]
fn comment<H: Shelf>(feed: &mut Feed, shelf: &mut H) -> Result<(), AigStop>
    requires { CanRead (source H.Shelf feed.old shelf.old) }
    ensures { ReadsItem H.tells comment (source H.Shelf feed.old shelf.old)
        (source H.Shelf feed.new shelf.new) result }
{
    loop {
        match look(feed, shelf) {
            Err(stop) => return Err(stop),
            Ok(None) => return Ok(()),
            Ok(Some(_)) => feed.take(),
        }
    }
}

/// A symbol after its letter, which names a section of this many lines.
#[tactic(auto, using(crate::proofs::Steadies::steadies))]
fn symbol<H: Shelf>(feed: &mut Feed, shelf: &mut H, lines: u64) -> Result<(), AigStop>
    requires open { CanRead (source H.Shelf feed.old shelf.old) }
    requires lines { lines ≤ 2 ^ 40 }
    ensures { ReadsItem H.tells (symbol lines) (source H.Shelf feed.old shelf.old)
        (source H.Shelf feed.new shelf.new) result }
{
    number(feed, shelf, Limit::Position(lines))?;
    space(feed, shelf)?;
    name(feed, shelf)
}

/// How many lines the section has that a symbol's letter names.
fn positions(header: &Header, byte: u8) -> Option<u64>
    ensures { result ≡ positions header.now byte }
{
    match byte {
        b'i' => Some(header.inputs),
        b'l' => Some(header.latches),
        b'o' => Some(header.outputs),
        b'b' => Some(header.bads),
        _ => None,
    }
}

/// A line of the tail, and whether another one may follow.
#[tactic(auto, using(crate::proofs::Steadies::steadies))]
fn tail_line<H: Shelf>(feed: &mut Feed, shelf: &mut H, header: &Header) -> Result<bool, AigStop>
    requires open { CanRead (source H.Shelf feed.old shelf.old) }
    requires header { IsHeader header.now }
    ensures reads { ReadsItem H.tells (tail_line header.now) (source H.Shelf feed.old shelf.old)
        (source H.Shelf feed.new shelf.new) result }
    ensures forward { IfOk result (λ more. more ≡ true → feed.old.place < feed.new.place) }
{
    let Some(byte) = look(feed, shelf)? else {
        return Ok(false);
    };
    if byte == b'c' {
        feed.take();
        comment(feed, shelf)?;
        return Ok(false);
    }
    let Some(lines) = positions(header, byte) else {
        return fault(AigKind::Extra, feed.place());
    };
    feed.take();
    symbol(feed, shelf, lines)?;
    Ok(true)
}

/// What follows the gates, up to the text's end: symbols and a comment. They are passed over.
#[tactic(auto, using(crate::proofs::Steadies::steadies))]
pub(crate) fn tail<H: Shelf>(feed: &mut Feed, shelf: &mut H, header: &Header) -> Result<(), AigStop>
    requires open { CanRead (source H.Shelf feed.old shelf.old) }
    requires header { IsHeader header.now }
    ensures reads { ReadsItem H.tells (tail header.now) (source H.Shelf feed.old shelf.old)
        (source H.Shelf feed.new shelf.new) result }
    ensures end { IsTrue H.tells → OnOk result (left (source H.Shelf feed.new shelf.new) ≡ []) }
{
    loop {
        match tail_line(feed, shelf, header) {
            Err(stop) => return Err(stop),
            Ok(false) => return Ok(()),
            Ok(true) => {}
        }
    }
}
