ghost use Rattle.std.specs.Prelude.{◌≡◌, ◌<◌, ◌≤◌, ◌+◌, max, [], OnOk, IfOk, IfErr, IsTrue, IsOk};
ghost use Rattle.em_record.specs.Count.{Rose};
ghost use Rattle.em_space.specs.Rig.{Sound, Goes, Cause, BlockCause, Owes};
ghost use Rattle.em_space.specs.Seen.{seen};
ghost use Rattle.em_cell.specs.Calls.{MakesCell, TakesBlock};
ghost use Rattle.em_cell.specs.Cell.{IsCell, Keeps, blocks_of};

use crate::cell::Cell;
use crate::pending::Pending;
use em_frames::Device;
use em_space::{EmFault, Rig};

/// Keeps a number in a cell while a second one is made, set to another number and ended, and then
/// reads the first. The answer is the first cell, whose block stays in use, and what was read.
#[tactic(auto, using(em_space::proofs::Steps::release_moves))]
pub fn beside<D: Device>(
    rig: &mut Rig<'_, D>,
    number: u64,
    other: u64,
) -> Result<(Cell, u64), EmFault>
    requires sound { Sound (seen D.state rig.old) }
    requires free { 0 < (seen D.state rig.old).pool.free }
    ensures goes { Goes [] (seen D.state rig.old) (seen D.state rig.new) }
    ensures keeps { IfOk result (λ r. Keeps (seen D.state rig.new) number r.0) }
    ensures read { IfOk result (λ r. IsTrue (seen D.state rig.old).device.told → r.1 ≡ number) }
    ensures used { OnOk result ((seen D.state rig.new).used ≡ (seen D.state rig.old).used + 1) }
    ensures most { OnOk result ((seen D.state rig.new).most
        ≡ max (seen D.state rig.old).most ((seen D.state rig.old).used + 2)) }
    ensures moves { (seen D.state rig.new).moves ≤ (seen D.state rig.old).moves + 7 }
    ensures complete { IsTrue (seen D.state rig.old).device.told
        → (seen D.state rig.old).used + 1 < (seen D.state rig.old).blocks
        → (Rose (seen D.state rig.old).device.faults (seen D.state rig.new).device.faults → ⊥)
        → IsOk result }
    ensures cause { IfErr result (Cause (seen D.state rig.old) (seen D.state rig.new)) }
    ensures paid { OnOk result (Owes 0 (seen D.state rig.old) (seen D.state rig.new)) }
    ensures owes { Owes 1 (seen D.state rig.old) (seen D.state rig.new) }
{
    let first = Cell::new(rig, number)?;
    let mut second = Cell::new(rig, 0)?;
    second.set(rig, other)?;
    second.end(rig)?;
    let kept = first.get(rig)?;
    Ok((first, kept))
}

/// A cell of this number, made in two steps: its block is taken first, and the number is stored
/// afterwards. The effect is that of `Cell::new`.
pub fn make_in_steps<D: Device>(rig: &mut Rig<'_, D>, number: u64) -> Result<Cell, EmFault>
    requires sound { Sound (seen D.state rig.old) }
    requires free { 0 < (seen D.state rig.old).pool.free }
    ensures makes { MakesCell number (seen D.state rig.old) (seen D.state rig.new) result }
    ensures takes { TakesBlock (seen D.state rig.old) (seen D.state rig.new) result }
{
    let pending = Pending::new(rig, number)?;
    pending.finish(rig)
}

/// Ends a cell, and makes one of this number in a block that was freed: the most blocks in use at
/// once don't rise, and `Full` never comes.
pub fn renew<D: Device>(rig: &mut Rig<'_, D>, cell: Cell, number: u64) -> Result<Cell, EmFault>
    requires sound { Sound (seen D.state rig.old) }
    requires is { IsCell (seen D.state rig.old) cell }
    requires free { 0 < (seen D.state rig.old).pool.free }
    ensures goes { Goes (blocks_of cell) (seen D.state rig.old) (seen D.state rig.new) }
    ensures keeps { IfOk result (Keeps (seen D.state rig.new) number) }
    ensures used { OnOk result ((seen D.state rig.new).used ≡ (seen D.state rig.old).used) }
    ensures most { (seen D.state rig.new).most ≡ (seen D.state rig.old).most }
    ensures moves { OnOk result ((seen D.state rig.new).moves ≤ (seen D.state rig.old).moves + 3) }
    ensures complete { IsTrue (seen D.state rig.old).device.told
        → (Rose (seen D.state rig.old).device.faults (seen D.state rig.new).device.faults → ⊥)
        → IsOk result }
    ensures cause { IfErr result (BlockCause (seen D.state rig.old) (seen D.state rig.new)) }
    ensures paid { OnOk result (Owes 0 (seen D.state rig.old) (seen D.state rig.new)) }
{
    cell.end(rig)?;
    Cell::new(rig, number)
}
