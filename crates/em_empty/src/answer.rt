//! The first buffer that is full.
ghost use Rattle.std.specs.Prelude.{◌≡◌, ◌<◌, ◌^◌, length};
ghost use Rattle.em_node.specs.Node.{IsNode, entries_of};
ghost use Rattle.em_empty.specs.FirstFull.{IsFirstFull, buffer_len};

use em_frames::Frame;
use em_node::{count, entry_at};

/// The least place whose buffer has `limit` records or more, and None exactly if there is none.
pub fn first_full(frame: &Frame, limit: u64) -> Option<u32>
    requires node { IsNode frame.now }
    requires few { length (entries_of frame.now) < 2 ^ 32 }
    ensures { IsFirstFull limit (entries_of frame.now) result }
{
    for at in 0..count(frame) {
        if records_at(frame, at) >= limit {
            return Some(at as u32);
        }
    }
    None
}

/// The records in the buffer of a place.
fn records_at(frame: &Frame, at: usize) -> u64
    requires node { IsNode frame.now }
    requires within { at < length (entries_of frame.now) }
    ensures { result ≡ buffer_len (entries_of frame.now) at }
{
    let [_, _, _, records, _] = entry_at(frame, at).buffer;
    records
}
