//! The bits of a step's columns become the messages of a queue, in their order.

ghost use Rattle.std.specs.Prelude.{◌≡◌, ◌<◌, ◌≤◌, ◌*◌, ◌∷◌, [], length, IsTrue, OnOk};
ghost use Rattle.em_record.specs.Order.{Lacks};
ghost use Rattle.em_space.specs.Seen.{seen};
ghost use Rattle.aig_edges.specs.Pushes.{CanPushItems, PushesEach};
ghost use Rattle.aig_table.specs.Columns as messages;
ghost use Rattle.aig_table.specs.Columns.{PushesColumnsTo};
ghost use Rattle.aig_table.specs.Tables.{bits_at};

use em_bits::get;
use em_frames::Device;
use em_record::Record;
use em_space::{EmFault, Queue, Rig};

/// Pushes a message for each of the first `count` bits of a row, into a queue with no item.
pub(crate) fn push_columns<D: Device, Q: Queue>(
    rig: &mut Rig<'_, D>,
    queue: &mut Q,
    row: &[Record],
    count: u64,
) -> Result<(), EmFault>
    requires is { Q.IsQueue queue.old (seen D.state rig.old) }
    requires can { CanPushItems count (Q.counts queue.old) (seen D.state rig.old) }
    requires empty { (Q.counts queue.old).len ≡ 0 }
    requires within { count ≤ 256 * length row.now }
    ensures frames { Q.HasItsFrames queue.new (seen D.state rig.new) }
    ensures queue { OnOk result (Q.IsQueue queue.new (seen D.state rig.new)) }
    ensures pushes { PushesColumnsTo Q.Queue count (bits_at row.now 0 count) queue.old queue.new
        (seen D.state rig.old) (seen D.state rig.new) result }
{
    for number in 0..count {
        let bit = get(row, number);
        push_column(rig, queue, number, bit)?;
    }
    Ok(())
}

/// Pushes the message of the column with this number.
fn push_column<D: Device, Q: Queue>(
    rig: &mut Rig<'_, D>,
    queue: &mut Q,
    number: u64,
    bit: bool,
) -> Result<(), EmFault>
    requires is { Q.IsQueue queue.old (seen D.state rig.old) }
    requires can { CanPushItems 1 (Q.counts queue.old) (seen D.state rig.old) }
    requires lacks { IsTrue (seen D.state rig.old).device.told
        → Lacks (messages.column_message number bit) (Q.items queue.old (seen D.state rig.old)) }
    ensures frames { Q.HasItsFrames queue.new (seen D.state rig.new) }
    ensures queue { OnOk result (Q.IsQueue queue.new (seen D.state rig.new)) }
    ensures pushes { PushesEach Q.Queue 1 (messages.column_message number bit ∷ []) queue.old
        queue.new (seen D.state rig.old) (seen D.state rig.new) result }
{
    queue.push(rig, column_message(number, bit))
}

/// The message of the column with this number.
fn column_message(number: u64, bit: bool) -> Record
    ensures is { result ≡ messages.column_message number bit }
{
    Record {
        a: number,
        b: 0,
        c: bit as u64,
        d: 0,
    }
}
