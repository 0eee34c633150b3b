ghost use Rattle.std.specs.Prelude.{◌≡◌, ◌<◌, ◌≤◌, ◌+◌, length, set, [], ◌∷◌, OnOk, OnErr, IfOk, IfErr, IsTrue, IsOk, MatchOption};
ghost use Rattle.em_record.specs.Count.{Rose};
ghost use Rattle.em_frames.specs.Device.{block_at};
ghost use Rattle.em_space.specs.Free.{header};
ghost use Rattle.em_space.specs.Rig.{Sound, InUse, Goes, DeviceCause, Owes, SameBlocks, MovesToRelease};
ghost use Rattle.em_space.specs.Held.{Holds};
ghost use Rattle.em_space.specs.Seen.{seen};
ghost use Rattle.em_cell.specs.Calls.{MovesOne, MakesCell, TakesBlock, NeedsBlock, Ends};
ghost use Rattle.em_cell.specs.Cell.{HasMark, IsCell, Keeps, blocks_of, cell_header, value};

use em_frames::{Device, Frame};
use em_record::Record;
use em_space::{EmFault, Rig};

/// The mark of a cell, in the word c of its block's first record.
const MARK: u64 = 4;

/// Lays a number out in a frame.
pub(crate) fn lay_out(frame: &mut Frame, number: u64)
    requires { 0 < length frame.old }
    ensures { frame.new ≡ set frame.old 0 (cell_header number) }
{
    frame.records_mut()[0] = Record {
        a: number,
        b: 0,
        c: MARK,
        d: 0,
    };
}

/// The number that a block's first record has, where it has the mark.
fn number_of(first: Record) -> Option<u64>
    ensures { MatchOption result (HasMark first → ⊥)
        (λ number. HasMark first × (number ≡ first.a)) }
{
    if first.c == MARK { Some(first.a) } else { None }
}

/// Stores a number in a block in use, by one move.
fn store_number<D: Device>(rig: &mut Rig<'_, D>, block: u64, number: u64) -> Result<(), EmFault>
    requires sound { Sound (seen D.state rig.old) }
    requires in_use { InUse (seen D.state rig.old) block }
    requires free { 0 < (seen D.state rig.old).pool.free }
    ensures goes { Goes (block ∷ []) (seen D.state rig.old) (seen D.state rig.new) }
    ensures moved { MovesOne (seen D.state rig.old) (seen D.state rig.new) }
    ensures in_use { InUse (seen D.state rig.new) block }
    ensures stored { OnOk result (IsTrue (seen D.state rig.new).device.told
        → header (block_at (seen D.state rig.new).device block) ≡ cell_header number) }
    ensures cause { IfErr result (DeviceCause (seen D.state rig.old) (seen D.state rig.new)) }
{
    let mut frame = rig.lend();
    lay_out(&mut frame, number);
    let stored = rig.store(block, &frame);
    rig.give(frame);
    stored
}

/// A number that is kept in a block of a rig's device. It holds no frame.
#[derive(Debug, PartialEq, Eq, Drop)]
pub struct Cell {
    pub(crate) block: u64,
}

impl Cell {
    /// A cell of this number in a new block: one move, and at most one more where the block was in use
    /// before. After a fault the block may be in use, and no cell holds it.
    ///
    /// `Full` comes exactly if all blocks are in use, `Damaged` where the first of the freed
    /// blocks isn't laid out as one.
    pub fn new<D: Device>(rig: &mut Rig<'_, D>, number: u64) -> Result<Cell, EmFault>
        requires sound { Sound (seen D.state rig.old) }
        requires free { 0 < (seen D.state rig.old).pool.free }
        ensures makes { MakesCell number (seen D.state rig.old) (seen D.state rig.new) result }
        ensures takes { TakesBlock (seen D.state rig.old) (seen D.state rig.new) result }
        ensures moves { (seen D.state rig.new).moves ≤ (seen D.state rig.old).moves + 2 }
        ensures owes { Owes 1 (seen D.state rig.old) (seen D.state rig.new) }
    {
        let block = rig.alloc()?;
        store_number(rig, block, number)?;
        Ok(Cell { block })
    }

    /// The number, by one move.
    ///
    /// `Damaged` comes where the cell's block doesn't have the mark, and never over a device that
    /// tells what it holds.
    pub fn get<D: Device>(&self, rig: &mut Rig<'_, D>) -> Result<u64, EmFault>
        requires sound { Sound (seen D.state rig.old) }
        requires is { IsCell (seen D.state rig.old) self.now }
        requires free { 0 < (seen D.state rig.old).pool.free }
        ensures goes { Goes [] (seen D.state rig.old) (seen D.state rig.new) }
        ensures moved { MovesOne (seen D.state rig.old) (seen D.state rig.new) }
        ensures number { IfOk result (λ n. IsTrue (seen D.state rig.old).device.told
            → n ≡ value (seen D.state rig.old) self.now) }
        ensures needs { NeedsBlock self.now (seen D.state rig.old) (seen D.state rig.new) result }
        ensures owes { Owes 0 (seen D.state rig.old) (seen D.state rig.new) }
    {
        let mut frame = rig.lend();
        let loaded = rig.load(self.block, &mut frame);
        let first = frame.records()[0];
        rig.give(frame);
        loaded?;
        match number_of(first) {
            Some(number) => Ok(number),
            None => Err(EmFault::Damaged { block: self.block }),
        }
    }

    /// Keeps this number from now on, by one move. After a fault the block may hold anything.
    pub fn set<D: Device>(&mut self, rig: &mut Rig<'_, D>, number: u64) -> Result<(), EmFault>
        requires sound { Sound (seen D.state rig.old) }
        requires is { IsCell (seen D.state rig.old) self.old }
        requires free { 0 < (seen D.state rig.old).pool.free }
        ensures goes { Goes (blocks_of self.old) (seen D.state rig.old) (seen D.state rig.new) }
        ensures moved { MovesOne (seen D.state rig.old) (seen D.state rig.new) }
        ensures keeps { OnOk result (Keeps (seen D.state rig.new) number self.new) }
        ensures blocks { blocks_of self.new ≡ blocks_of self.old }
        ensures holds { Holds (seen D.state rig.new) (blocks_of self.new) }
        ensures complete { (Rose (seen D.state rig.old).device.faults
            (seen D.state rig.new).device.faults → ⊥) → IsOk result }
        ensures cause { IfErr result (DeviceCause (seen D.state rig.old) (seen D.state rig.new)) }
        ensures owes { Owes 0 (seen D.state rig.old) (seen D.state rig.new) }
    {
        store_number(rig, self.block, number)
    }

    /// Gives the block back, by one move at most. After a fault it is still in use.
    pub fn end<D: Device>(self, rig: &mut Rig<'_, D>) -> Result<(), EmFault>
        requires sound { Sound (seen D.state rig.old) }
        requires is { IsCell (seen D.state rig.old) self }
        requires free { 0 < (seen D.state rig.old).pool.free }
        ensures goes { Goes (blocks_of self) (seen D.state rig.old) (seen D.state rig.new) }
        ensures holds { OnErr result (Holds (seen D.state rig.new) (blocks_of self)) }
        ensures ended { OnOk result (Ends (seen D.state rig.old) (seen D.state rig.new) self) }
        ensures same { OnErr result (SameBlocks (seen D.state rig.old) (seen D.state rig.new)) }
        ensures most { (seen D.state rig.new).most ≡ (seen D.state rig.old).most }
        ensures moves { MovesToRelease (seen D.state rig.old) (seen D.state rig.new) }
        ensures needs { NeedsBlock self (seen D.state rig.old) (seen D.state rig.new) result }
        ensures owes { Owes 0 (seen D.state rig.old) (seen D.state rig.new) }
    {
        let Cell { block } = self;
        rig.release(block)
    }
}
