// The texts of a shelf in memory, and where its slots stand in them.
ghost use Rattle.std.specs.Prelude.{◌≡◌, ◌<◌, ◌≤◌, ◌+◌, ◌-◌, ◌++◌, ◌&&◌, [], true, not, min, length, take, is_none, is_some, MatchOption, None, Some};
ghost use Rattle.em_io.specs.MemShelf.{text_under};
ghost use Rattle.em_io.specs.MemTexts.{bytes_at, behind};

use std::marker::Model;

/// A text under a name.
#[derive(Drop)]
pub struct Text {
    pub name: Vec<u8>,
    pub bytes: Vec<u8>,
}

impl Model for Text {
    ghost use Rattle.em_io.specs.MemShelf.{NamedText};

    ghost Value = { NamedText };

    ghost view = { λ t. record { name = t.name.items; bytes = t.bytes.items } };
}

/// A slot. If it is ready it stands after the first `at` bytes of the text with the index
/// `text`.
#[derive(Clone, Copy, Drop)]
pub struct Mark {
    pub opened: bool,
    pub ready: bool,
    pub lost: bool,
    pub text: usize,
    pub at: usize,
}

/// A slot that wasn't opened.
pub const CLOSED: Mark = Mark {
    opened: false,
    ready: false,
    lost: false,
    text: 0,
    at: 0,
};

/// The index of the newest text of this name.
pub fn find(texts: &[Text], name: &[u8]) -> Option<usize>
    ensures { MatchOption result (text_under texts.now name.now ≡ None)
        (λ i. text_under texts.now name.now ≡ Some (bytes_at texts.now i)) }
{
    for (at, text) in texts.iter().enumerate() {
        if text.name.as_slice() == name {
            return Some(at);
        }
    }
    None
}

/// A slot that is opened on this name. It is ready where the text is there and the call is not to
/// fail.
pub fn open_on(texts: &[Text], name: &[u8], fails: bool) -> Mark
    ensures opened { result.opened ≡ true }
    ensures lost { result.lost ≡ is_none (text_under texts.now name.now) }
    ensures ready { result.ready ≡ (is_some (text_under texts.now name.now) && not fails) }
    ensures whole { result.ready ≡ true →
        text_under texts.now name.now ≡ Some (behind texts.now result) }
{
    let Some(text) = find(texts, name) else {
        return Mark {
            opened: true,
            lost: true,
            ..CLOSED
        };
    };
    Mark {
        opened: true,
        ready: !fails,
        text,
        ..CLOSED
    }
}

/// The bytes of the text with this index.
fn text_at(texts: &[Text], index: usize) -> &[u8]
    ensures { result.now ≡ bytes_at texts.now index }
{
    match texts.get(index) {
        Some(text) => text.bytes.as_slice(),
        None => &[],
    }
}

/// Copies what lies after the mark into the front of `into`, at most `piece` bytes, and moves the
/// mark after them.
pub fn read_on(texts: &[Text], mark: &mut Mark, piece: usize, into: &mut [u8]) -> usize
    ensures same { mark.new ≡ record mark.old { at = mark.old.at + result } }
    ensures count { result
        ≡ min (min piece (length into.old)) (length (behind texts.now mark.old)) }
    ensures room { length into.new ≡ length into.old }
    ensures bytes { behind texts.now mark.old ≡ take result into.new ++ behind texts.now mark.new }
{
    let bytes = text_at(texts, mark.text);
    if bytes.len() <= mark.at {
        return 0;
    }
    let count = piece.min(into.len()).min(bytes.len() - mark.at);
    into[..count].copy_from_slice(&bytes[mark.at..mark.at + count]);
    mark.at += count;
    count
}
