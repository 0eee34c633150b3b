ghost use Rattle.std.specs.Prelude.{◌≡◌, ◌↔◌, ◌≤◌, ◌<◌, length, set, IsTrue};
ghost use Rattle.em_chain.specs.List.{block_header, IsHeader, LinksTo};

use em_frames::Frame;
use em_record::Record;

/// The kind of a chain block, in the word c of its header.
const CHAIN: u64 = 1;

/// Gives a frame the header of a chain block.
pub fn put_header(frame: &mut Frame, link: u64, count: u64)
    requires { 0 < length frame.old }
    ensures { frame.new ≡ set frame.old 0 (block_header link count) }
{
    frame.records_mut()[0] = Record {
        a: link,
        b: count,
        c: CHAIN,
        d: 0,
    };
}

/// Puts the last record of a block into a frame, with the header that counts it.
#[inline]
pub fn put_record(frame: &mut Frame, link: u64, count: u64, item: Record)
    requires { count < length frame.old }
    ensures { frame.new ≡ set (set frame.old 0 (block_header link count)) count item }
{
    put_header(frame, link, count);
    frame.records_mut()[count as usize] = item;
}

/// Whether a record is the header of a chain block of at most `most` records, on a device of
/// `blocks` blocks.
pub fn is_header(first: Record, most: u64, blocks: u64) -> bool
    ensures { IsTrue result ↔ IsHeader first most blocks }
{
    first.b >= 1 && first.b <= most && first.c == CHAIN && first.d == 0 && first.a <= blocks
}

/// The same of a block that leads to no other.
pub fn is_last(first: Record, most: u64) -> bool
    ensures { IsTrue result ↔ ((first.a ≡ 0) × IsHeader first most 0) }
{
    first.a == 0 && is_header(first, most, 0)
}

/// The same of a block of more than `skip` records.
pub fn has_more(first: Record, most: u64, blocks: u64, skip: u64) -> bool
    ensures { IsTrue result ↔ ((skip < first.b) × IsHeader first most blocks) }
{
    skip < first.b && is_header(first, most, blocks)
}

/// The same of a block that this many others follow.
pub fn leads_to(first: Record, most: u64, blocks: u64, left: u64) -> bool
    ensures { IsTrue result ↔ (LinksTo first.a left × IsHeader first most blocks) }
{
    (first.a == 0) == (left == 0) && is_header(first, most, blocks)
}

/// Whether a link leads to a block of a device of this many blocks.
pub fn is_link(link: u64, blocks: u64) -> bool
    ensures { IsTrue result ↔ ((0 < link) × (link ≤ blocks)) }
{
    link > 0 && link <= blocks
}
