//! Two neighbouring leaves become one, or share their records anew if these are too many for one:
//!
//!     before  low [2 5]        high [7]               one of them is short
//!     after   low [2 5 7]                             up to 4·w·B records
//!     before  low [2 .. 6]     high [7]               more than that
//!     after   low [2 .. 4]     high [5 .. 7], key 5   the first half, rounded up, and the rest
//!
//! Kept here: the records and their order; what results is in packed chains; the blocks of both chains
//! are released; on each way out all frames are back. Left to the tree: which leaves stand beside
//! each other, and that nothing waits for them.

ghost use Rattle.std.specs.Prelude.{◌≡◌, ◌+◌, ◌<◌, ◌≤◌, ◌++◌, [], IfErr, IfOk, IsTrue};
ghost use Rattle.em_space.specs.Rig.{Sound};
ghost use Rattle.em_space.specs.Seen.{seen};
ghost use Rattle.em_chain.specs.Chain.{chain_items};
ghost use Rattle.em_chain.specs.Effects.{Completes};
ghost use Rattle.em_chain.specs.Writer.{WriterHasFrame};
ghost use Rattle.em_leaf.specs.Fusing.{CanFuse, CanRewrite, FewMoves, FillsParts, LacksParts, RewritesBeside, RunsFuse, RunsRewrite, fusing_room};
ghost use Rattle.em_leaf.specs.Leaf.{AreLeafChains};
ghost use Rattle.em_leaf.specs.Needs.{LacksBlocks};
ghost use Rattle.em_leaf.specs.Settling.{CanSettle, SettlesOpsTo};

use crate::applying::is_whole;
use crate::change::LeafChange;
use crate::counting::limit_from;
use crate::writing::write_leaf;
use em_chain::{Chain, Reader, Writer, join};
use em_frames::Device;
use em_settle::Settle;
use em_space::{EmFault, Rig};

/// Puts the records of two neighbouring leaves into one leaf, if they are at most 4·w·B, or else
/// shares them anew: then `high` is there, each part has at least 2·w·B records, and beside the high
/// part stands its least key. One of the two has fewer than w·B records. The blocks of both chains
/// are released.
///
/// `DeviceFault` comes only if the device's count of faults rose, and `Full` only if all blocks are in
/// use: over a device that tells only if fewer were free than the parts need, and never if 3 were.
/// `Damaged` comes only over a device that doesn't tell. After a fault some of the chains' blocks may be
/// released; the others stay in use and may hold anything. Over a device that tells the call makes at
/// most 24·w moves. All frames are back on each way out.
pub fn fuse_leaves<D: Device, S: Settle>(
    rig: &mut Rig<'_, D>,
    settle: &S,
    low: Chain,
    high: Chain,
) -> Result<LeafChange, EmFault>
    requires sound { Sound (seen D.state rig.old) }
    requires ready { S.IsReady settle.now }
    requires can { CanFuse (S.key_of settle.now) (seen D.state rig.old) low high }
    requires free { 6 ≤ (seen D.state rig.old).pool.free }
    ensures fuses { IfOk result (λ change. IsTrue (seen D.state rig.old).device.told
        → FillsParts (S.key_of settle.now) (seen D.state rig.new)
        (chain_items (seen D.state rig.old) low ++ chain_items (seen D.state rig.old) high) change) }
    ensures leaves { IfOk result (AreLeafChains (seen D.state rig.new)) }
    ensures runs { RunsFuse (seen D.state rig.old) (seen D.state rig.new) low high result }
    ensures moves { FewMoves (seen D.state rig.old) (seen D.state rig.new) }
    ensures complete { (seen D.state rig.old).used + fusing_room ≤ (seen D.state rig.old).blocks
        → Completes (seen D.state rig.old) (seen D.state rig.new) result }
    ensures needs { IfErr result (LacksParts (seen D.state rig.old)
        (chain_items (seen D.state rig.old) low ++ chain_items (seen D.state rig.old) high)) }
{
    let stored = join(rig, low, high)?;
    rewrite_leaf(rig, settle, stored)
}

/// Writes the records of a chain anew, to one leaf or to two.
fn rewrite_leaf<D: Device, S: Settle>(
    rig: &mut Rig<'_, D>,
    settle: &S,
    stored: Chain,
) -> Result<LeafChange, EmFault>
    requires sound { Sound (seen D.state rig.old) }
    requires ready { S.IsReady settle.now }
    requires can { CanRewrite (S.key_of settle.now) (seen D.state rig.old) stored }
    requires free { 4 ≤ (seen D.state rig.old).pool.free }
    ensures parts { IfOk result (λ change. IsTrue (seen D.state rig.old).device.told
        → FillsParts (S.key_of settle.now) (seen D.state rig.new)
        (chain_items (seen D.state rig.old) stored) change) }
    ensures leaves { IfOk result (AreLeafChains (seen D.state rig.new)) }
    ensures runs { RunsRewrite (seen D.state rig.old) (seen D.state rig.new) stored result }
    ensures needs { IfErr result (LacksParts (seen D.state rig.old)
        (chain_items (seen D.state rig.old) stored)) }
{
    let mut answers = Writer::new(rig);
    let change = rewrite_beside(rig, settle, stored, &mut answers);
    answers.abandon(rig);
    change
}

/// The same as a pass with no operation, beside a writer of answers that gets none.
fn rewrite_beside<D: Device, S: Settle>(
    rig: &mut Rig<'_, D>,
    settle: &S,
    stored: Chain,
    answers: &mut Writer,
) -> Result<LeafChange, EmFault>
    requires sound { Sound (seen D.state rig.old) }
    requires ready { S.IsReady settle.now }
    requires can { CanSettle (S.key_of settle.now) (seen D.state rig.old) stored 0 answers.old }
    requires free { 2 < (seen D.state rig.old).pool.free }
    ensures frame { WriterHasFrame (seen D.state rig.new) answers.new }
    ensures runs { RewritesBeside (seen D.state rig.old) (seen D.state rig.new) stored answers.old
        answers.new result }
    ensures settled { SettlesOpsTo (S.key_of settle.now) (S.step_of settle.now)
        (seen D.state rig.old) (seen D.state rig.new) stored [] answers.old answers.new result }
    ensures needs { IfErr result (LacksBlocks (S.key_of settle.now) (S.step_of settle.now)
        (seen D.state rig.old) stored [] answers.old) }
{
    let shape = rig.shape();
    let most = 4 * shape.wide() * shape.block();
    if !is_whole(&stored) {
        return Err(EmFault::Damaged { block: 0 });
    }
    let limit = limit_from(stored.len(), most);
    let mut reader = Reader::taking(rig, stored);
    let change = write_leaf(rig, settle, &[], &mut reader, answers, limit, most);
    reader.abandon(rig);
    change
}
