ghost use Rattle.std.specs.Prelude.{◌≡◌, ◌<◌, ◌≤◌, ◌+◌, ◌*◌, ◌++◌, ◌^◌, length, min, take, drop, IfErr, IfOk, IsTrue, OnOk};
ghost use Rattle.em_record.specs.Order.{IsAscending};
ghost use Rattle.em_frames.specs.Pool.{singles_of};
ghost use Rattle.em_space.specs.Held.{Apart};
ghost use Rattle.em_space.specs.Queue.{CanServe, Shares};
ghost use Rattle.em_space.specs.Rig.{Cause, Sound, Touches};
ghost use Rattle.em_space.specs.Seen.{seen};
ghost use Rattle.em_chain.specs.Chain.{payload_in};
ghost use Rattle.em_chain.specs.Counts.{ceiling};
ghost use Rattle.em_chain.specs.Writer.{IsWriter, WriterHasFrame, filled, writer_blocks, writer_items};

use em_chain::Writer;
use em_frames::Device;
use em_record::Record;
use em_space::{EmFault, Queue, Rig};

/// Pops all items into the front of `out`, in ascending order. All its moves are the queue's.
pub fn drain<D: Device, Q: Queue>(
    rig: &mut Rig<'_, D>,
    queue: &mut Q,
    out: &mut [Record],
) -> Result<usize, EmFault>
    requires sound { Sound (seen D.state rig.old) }
    requires is { Q.IsQueue queue.old (seen D.state rig.old) }
    requires free { CanServe (seen D.state rig.old).pool }
    requires few { (Q.counts queue.old).n + length out.old < 2 ^ 100 }
    requires room { (Q.counts queue.old).len ≤ length out.old }
    ensures sound { Sound (seen D.state rig.new) }
    ensures touches { Touches (Q.blocks queue.old (seen D.state rig.old))
        (seen D.state rig.old) (seen D.state rig.new) }
    ensures frames { Q.HasItsFrames queue.new (seen D.state rig.new) }
    ensures shares { Shares (Q.counts queue.old) (Q.counts queue.new)
        (seen D.state rig.old).pool (seen D.state rig.new).pool }
    ensures calls { (Q.counts queue.new).n ≤ (Q.counts queue.old).n + length out.old }
    ensures spent { (seen D.state rig.new).moves + (Q.counts queue.old).spent
        ≡ (seen D.state rig.old).moves + (Q.counts queue.new).spent }
    ensures queue { OnOk result (Q.IsQueue queue.new (seen D.state rig.new)) }
    ensures count { IfOk result (λ n. n ≡ (Q.counts queue.old).len) }
    ensures items { IfOk result (λ n. IsTrue (seen D.state rig.old).device.told
        → take n out.new ≡ Q.items queue.old (seen D.state rig.old)) }
    ensures ascending { IfOk result (λ n. IsTrue (seen D.state rig.old).device.told
        → IsAscending (take n out.new)) }
    ensures empty { OnOk result ((Q.counts queue.new).len ≡ 0) }
    ensures cause { IfErr result (Cause (seen D.state rig.old) (seen D.state rig.new)) }
{
    let mut count = 0usize;
    while count < out.len() {
        match queue.pop(rig)? {
            Some(item) => {
                out[count] = item;
                count += 1;
            }
            None => return Ok(count),
        }
    }
    Ok(count)
}

/// Pops `limit` items, or all if there are fewer, and appends each to a list before the next one
/// is popped. Answers their number. Beside the queue's moves it makes at most two for each block that
/// the list takes.
pub fn beside<D: Device, Q: Queue>(
    rig: &mut Rig<'_, D>,
    queue: &mut Q,
    writer: &mut Writer,
    limit: u64,
) -> Result<u64, EmFault>
    requires sound { Sound (seen D.state rig.old) }
    requires is { Q.IsQueue queue.old (seen D.state rig.old) }
    requires writer { IsWriter (seen D.state rig.old) writer.old }
    requires free { CanServe (seen D.state rig.old).pool }
    requires apart { IsTrue (seen D.state rig.old).device.told
        → Apart (Q.blocks queue.old (seen D.state rig.old))
        (writer_blocks (seen D.state rig.old) writer.old) }
    requires few { (Q.counts queue.old).n + limit < 2 ^ 100 }
    requires count { writer.old.count + limit < 2 ^ 56 }
    requires blocks { writer.old.blocks + limit < 2 ^ 56 }
    ensures sound { Sound (seen D.state rig.new) }
    ensures touches { Touches (Q.blocks queue.old (seen D.state rig.old)
        ++ writer_blocks (seen D.state rig.old) writer.old)
        (seen D.state rig.old) (seen D.state rig.new) }
    ensures frames { Q.HasItsFrames queue.new (seen D.state rig.new) }
    ensures frame { (seen D.state rig.old).pool.free + (Q.counts queue.old).frames + 1
        ≤ singles_of (seen D.state rig.old).pool.shape
        → WriterHasFrame (seen D.state rig.new) writer.new }
    ensures shares { Shares (Q.counts queue.old) (Q.counts queue.new)
        (seen D.state rig.old).pool (seen D.state rig.new).pool }
    ensures spent { (seen D.state rig.new).moves + (Q.counts queue.old).spent
        + 2 * writer.old.blocks
        ≤ (seen D.state rig.old).moves + (Q.counts queue.new).spent
        + 2 * ceiling (filled (seen D.state rig.old) writer.old + limit)
        (payload_in (seen D.state rig.old)) }
    ensures spent_ok { OnOk result ((seen D.state rig.new).moves + (Q.counts queue.old).spent
        + 2 * writer.old.blocks
        ≤ (seen D.state rig.old).moves + (Q.counts queue.new).spent + 2 * writer.new.blocks) }
    ensures queue { OnOk result (Q.IsQueue queue.new (seen D.state rig.new)) }
    ensures writer { OnOk result (IsWriter (seen D.state rig.new) writer.new) }
    ensures apart { OnOk result (IsTrue (seen D.state rig.old).device.told
        → Apart (Q.blocks queue.new (seen D.state rig.new))
        (writer_blocks (seen D.state rig.new) writer.new)) }
    ensures count { IfOk result (λ n. n ≡ min limit (Q.counts queue.old).len) }
    ensures len { IfOk result (λ n.
        (Q.counts queue.new).len + n ≡ (Q.counts queue.old).len) }
    ensures left { IfOk result (λ n. IsTrue (seen D.state rig.old).device.told
        → Q.items queue.new (seen D.state rig.new)
        ≡ drop n (Q.items queue.old (seen D.state rig.old))) }
    ensures written { IfOk result (λ n. IsTrue (seen D.state rig.old).device.told
        → writer_items (seen D.state rig.new) writer.new
        ≡ writer_items (seen D.state rig.old) writer.old
        ++ take n (Q.items queue.old (seen D.state rig.old))) }
    ensures cause { IfErr result (Cause (seen D.state rig.old) (seen D.state rig.new)) }
{
    let mut count = 0u64;
    while count < limit {
        let Some(item) = queue.pop(rig)? else {
            return Ok(count);
        };
        writer.append(rig, item)?;
        count += 1;
    }
    Ok(count)
}
