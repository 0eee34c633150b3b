//! Entries dealt anew between two nodes, in order:
//!
//!     before  low [a]          high [b c d]       low keys rise through both
//!     after   low [a b]        high [c d]         for two to be kept

ghost use Rattle.std.specs.Prelude.{◌≡◌, ◌+◌, ◌-◌, ◌*◌, ◌<◌, ◌≤◌, ◌++◌, length};
ghost use Rattle.em_node.specs.Node.{IsNode, LowsRise, entries_of, level_of};
ghost use Rattle.em_balance.specs.Fusing.{DealsEntries};

use em_frames::Frame;
use em_node::{count, insert, remove};

/// DealsEntries the entries of two nodes anew: the first `keep` of them to the first node. There is room.
pub fn deal(low: &mut Frame, high: &mut Frame, keep: usize)
    requires low_node { IsNode low.old }
    requires high_node { IsNode high.old }
    requires order { LowsRise (entries_of low.old ++ entries_of high.old) }
    requires keep { keep ≤ length (entries_of low.old) + length (entries_of high.old) }
    requires low_room { 2 + 3 * keep ≤ length low.old }
    requires high_room { 2 + 3 * (length (entries_of low.old) + length (entries_of high.old) - keep)
        ≤ length high.old }
    ensures low_len { length low.new ≡ length low.old }
    ensures high_len { length high.new ≡ length high.old }
    ensures deals { DealsEntries (level_of low.old) (level_of high.old)
        (entries_of low.old ++ entries_of high.old) keep low.new high.new }
{
    if count(low) <= keep {
        return deal_down(low, high, keep);
    }
    deal_up(low, high, keep)
}

/// The same if the first node has no more than it keeps,
fn deal_down(low: &mut Frame, high: &mut Frame, keep: usize)
    requires low_node { IsNode low.old }
    requires high_node { IsNode high.old }
    requires order { LowsRise (entries_of low.old ++ entries_of high.old) }
    requires more { length (entries_of low.old) ≤ keep }
    requires keep { keep ≤ length (entries_of low.old) + length (entries_of high.old) }
    requires room { 2 + 3 * keep ≤ length low.old }
    ensures low_len { length low.new ≡ length low.old }
    ensures high_len { length high.new ≡ length high.old }
    ensures deals { DealsEntries (level_of low.old) (level_of high.old)
        (entries_of low.old ++ entries_of high.old) keep low.new high.new }
{
    let have = count(low);
    for _ in have..keep {
        move_down(low, high);
    }
}

/// and if it has more.
fn deal_up(low: &mut Frame, high: &mut Frame, keep: usize)
    requires low_node { IsNode low.old }
    requires high_node { IsNode high.old }
    requires order { LowsRise (entries_of low.old ++ entries_of high.old) }
    requires fewer { keep ≤ length (entries_of low.old) }
    requires room { 2 + 3 * (length (entries_of low.old) + length (entries_of high.old) - keep)
        ≤ length high.old }
    ensures low_len { length low.new ≡ length low.old }
    ensures high_len { length high.new ≡ length high.old }
    ensures deals { DealsEntries (level_of low.old) (level_of high.old)
        (entries_of low.old ++ entries_of high.old) keep low.new high.new }
{
    let have = count(low);
    for _ in 0..have - keep {
        move_up(low, high);
    }
}

/// The first entry of the second node goes to the end of the first one.
fn move_down(low: &mut Frame, high: &mut Frame)
    requires low_node { IsNode low.old }
    requires high_node { IsNode high.old }
    requires order { LowsRise (entries_of low.old ++ entries_of high.old) }
    requires some { 0 < length (entries_of high.old) }
    requires room { 2 + 3 * (length (entries_of low.old) + 1) ≤ length low.old }
    ensures low_len { length low.new ≡ length low.old }
    ensures high_len { length high.new ≡ length high.old }
    ensures deals { DealsEntries (level_of low.old) (level_of high.old)
        (entries_of low.old ++ entries_of high.old) (length (entries_of low.old) + 1) low.new high.new }
{
    let entry = remove(high, 0);
    let end = count(low);
    insert(low, end, entry);
}

/// The last entry of the first node goes to the front of the second one.
fn move_up(low: &mut Frame, high: &mut Frame)
    requires low_node { IsNode low.old }
    requires high_node { IsNode high.old }
    requires order { LowsRise (entries_of low.old ++ entries_of high.old) }
    requires some { 0 < length (entries_of low.old) }
    requires room { 2 + 3 * (length (entries_of high.old) + 1) ≤ length high.old }
    ensures low_len { length low.new ≡ length low.old }
    ensures high_len { length high.new ≡ length high.old }
    ensures deals { DealsEntries (level_of low.old) (level_of high.old)
        (entries_of low.old ++ entries_of high.old) (length (entries_of low.old) - 1) low.new high.new }
{
    let last = count(low) - 1;
    let entry = remove(low, last);
    insert(high, 0, entry);
}
