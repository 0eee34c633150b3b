// The first bytes of a circuit's text.
ghost use Rattle.std.specs.Prelude.{◌≡◌, ◌+◌, ◌^◌, ◌<◌, true, OnOk};
ghost use Rattle.aig_defs.specs.declared.fault.AigKind.TheVariants.{BadMagic};
ghost use Rattle.aig_defs.specs.Order.{ascii_magic};
ghost use Rattle.aig_text.specs.Magic.{letter, form_letter};
ghost use Rattle.aig_text.specs.Reads.{IfFault, ReadsItem};
ghost use Rattle.aig_text.specs.Source.{CanRead, source};

use crate::stop::{AigStop, fault};
use aig_defs::AigKind;
use em_io::{Feed, Shelf};

/// One byte of the magic.
#[tactic(auto, using(crate::proofs::Steadies::steadies, crate::proofs::Magics::letters))]
fn letter<H: Shelf>(feed: &mut Feed, shelf: &mut H, wanted: u8) -> Result<(), AigStop>
    requires text { CanRead (source H.Shelf feed.old shelf.old) }
    requires place { feed.old.place < 2 ^ 50 }
    ensures reads { ReadsItem H.tells (letter wanted) (source H.Shelf feed.old shelf.old)
        (source H.Shelf feed.new shelf.new) result }
    ensures place { OnOk result (feed.new.place ≡ feed.old.place + 1) }
    ensures fault { IfFault result (λ kind place. (kind ≡ BadMagic) × (place ≡ 0)) }
{
    let Some(byte) = feed.peek(shelf)? else {
        return fault(AigKind::BadMagic, 0);
    };
    if wanted != byte {
        return fault(AigKind::BadMagic, 0);
    }
    feed.take();
    Ok(())
}

/// The byte of the magic that names the form: whether it is that of the ASCII form.
#[tactic(auto, using(crate::proofs::Steadies::steadies, crate::proofs::Magics::letters))]
fn form_letter<H: Shelf>(feed: &mut Feed, shelf: &mut H) -> Result<bool, AigStop>
    requires text { CanRead (source H.Shelf feed.old shelf.old) }
    requires place { feed.old.place < 2 ^ 50 }
    ensures reads { ReadsItem H.tells form_letter (source H.Shelf feed.old shelf.old)
        (source H.Shelf feed.new shelf.new) result }
    ensures place { OnOk result (feed.new.place ≡ feed.old.place + 1) }
    ensures fault { IfFault result (λ kind place. (kind ≡ BadMagic) × (place ≡ 0)) }
{
    match feed.peek(shelf)? {
        Some(b'a') => {
            feed.take();
            Ok(true)
        }
        Some(b'i') => {
            feed.take();
            Ok(false)
        }
        _ => fault(AigKind::BadMagic, 0),
    }
}

/// Reads the magic: true after `aag`, which begins the ASCII form, and false after `aig`, which
/// begins the binary form. Any other text is `BadMagic` at 0, unless the shelf fails first. `Read`
/// comes only if the shelf's count of faults rose; then the feed is not used again.
///
/// The slot was opened with Ok, the feed hasn't failed, and nothing was taken from it.
#[tactic(auto, using(crate::proofs::Steadies::steadies))]
pub fn read_magic<H: Shelf>(feed: &mut Feed, shelf: &mut H) -> Result<bool, AigStop>
    requires ready { ((H.stand shelf.old).slot feed.old.slot).ready ≡ true }
    requires none { feed.old.place ≡ 0 }
    ensures reads { ReadsItem H.tells ascii_magic (source H.Shelf feed.old shelf.old)
        (source H.Shelf feed.new shelf.new) result }
    ensures place { OnOk result (feed.new.place ≡ 3) }
    ensures fault { IfFault result (λ kind place. (kind ≡ BadMagic) × (place ≡ 0)) }
{
    letter(feed, shelf, b'a')?;
    let ascii = form_letter(feed, shelf)?;
    letter(feed, shelf, b'g')?;
    Ok(ascii)
}
