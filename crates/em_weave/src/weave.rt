//! Two ordered lists that are read as one, by the word `a`:
//!
//!     left   1 4 4 9      next: Left 1, Right 2, Left 4, Left 4, Right 4, ..
//!     right  2 4 7
//!
//! Kept here: both chains are taken and have no block in common; of each side one record at most is
//! read ahead. Left to the readers: what a chain holds, and that its blocks are released.

ghost use Rattle.std.specs.Prelude.{◌≡◌, ◌<◌, ◌+◌, ◌++◌, IfErr, IfOk, IsOk, IsTrue, Ok, None, [], option_to_list};
ghost use Rattle.em_space.specs.Held.{Apart};
ghost use Rattle.em_space.specs.Rig.{Sound, Goes, BlockCause};
ghost use Rattle.em_space.specs.Seen.{seen};
ghost use Rattle.em_chain.specs.Chain.{IsChain, chain_blocks};
ghost use Rattle.em_chain.specs.Effects.{Unmoved, Completes};
ghost use Rattle.em_chain.specs.Row.{Frees};
ghost use Rattle.em_weave.specs.Effects.{LendsTwo, GivesTwo};
ghost use Rattle.em_weave.specs.Woven.{first_side};

use crate::peek::PeekReader;
use crate::side::Side;
use em_chain::{Chain, Reader, discard};
use em_frames::Device;
use em_record::Record;
use em_space::{EmFault, Rig};

/// Two chains that are read side by side. It takes both, and holds two frames and the blocks of what
/// is left. It can't be dropped: `end` releases these blocks, and after a fault `abandon` gives the
/// frames back. All its calls make together at most two moves for each block of the chains, and two
/// more.
pub struct Weave {
    pub(crate) left: PeekReader,
    pub(crate) right: PeekReader,
}

impl Weave {
    ghost use Rattle.em_weave.specs.State.{IsWeave, WeaveHasFrames, weave_blocks, weave_count};
    ghost use Rattle.em_weave.specs.Weaves.{OpensBoth, BothAheadTo, TakesFront, Weaves, StopsWeaving, AtBothEnds, EndCosts, GivesChains};

    /// Takes two chains that have no block in common. Nothing is moved.
    pub fn new<D: Device>(rig: &mut Rig<'_, D>, left: Chain, right: Chain) -> Weave
        requires sound { Sound (seen D.state rig.old) }
        requires left { IsChain (seen D.state rig.old) left }
        requires right { IsChain (seen D.state rig.old) right }
        requires apart { IsTrue (seen D.state rig.old).device.told
            → Apart (chain_blocks (seen D.state rig.old) left)
            (chain_blocks (seen D.state rig.old) right) }
        requires free { 2 < (seen D.state rig.old).pool.free }
        ensures lends { LendsTwo (seen D.state rig.old) (seen D.state rig.new) }
        ensures unmoved { Unmoved (seen D.state rig.old) (seen D.state rig.new) }
        ensures opens { OpensBoth (seen D.state rig.old) (seen D.state rig.new) left right result }
    {
        let left = Reader::taking(rig, left);
        let right = Reader::taking(rig, right);
        Weave {
            left: PeekReader {
                reader: left,
                front: None,
            },
            right: PeekReader {
                reader: right,
                front: None,
            },
        }
    }

    /// The next record in the order of the word `a`, the left one first if these words are equal. None
    /// comes exactly at the end of both lists, and nothing is done then. After a fault the weave may
    /// only be abandoned. It is never `Full`.
    pub fn next<D: Device>(&mut self, rig: &mut Rig<'_, D>) -> Result<Option<Side>, EmFault>
        requires sound { Sound (seen D.state rig.old) }
        requires is { IsWeave (seen D.state rig.old) self.old }
        requires free { 0 < (seen D.state rig.old).pool.free }
        ensures goes { Goes (weave_blocks (seen D.state rig.old) self.old)
            (seen D.state rig.old) (seen D.state rig.new) }
        ensures weaves { IfOk result (λ o. Weaves (seen D.state rig.old) (seen D.state rig.new)
            self.old self.new (option_to_list o)) }
        ensures stops { IfErr result
            (StopsWeaving (seen D.state rig.old) (seen D.state rig.new) self.old) }
        ensures frames { WeaveHasFrames (seen D.state rig.new) self.new }
        ensures end { result ≡ Ok None
            → AtBothEnds (seen D.state rig.old) (seen D.state rig.new) self.old self.new }
        ensures at_end { weave_count self.old ≡ 0 → result ≡ Ok None }
        ensures complete { Completes (seen D.state rig.old) (seen D.state rig.new) result }
        ensures cause { IfErr result (BlockCause (seen D.state rig.old) (seen D.state rig.new)) }
    {
        self.read_ahead(rig)?;
        Ok(self.take())
    }

    /// Reads a record ahead of each side, if none is and one is left.
    fn read_ahead<D: Device>(&mut self, rig: &mut Rig<'_, D>) -> Result<(), EmFault>
        requires sound { Sound (seen D.state rig.old) }
        requires is { IsWeave (seen D.state rig.old) self.old }
        requires free { 0 < (seen D.state rig.old).pool.free }
        ensures reads { BothAheadTo (seen D.state rig.old) (seen D.state rig.new)
            self.old self.new result }
        ensures frames { WeaveHasFrames (seen D.state rig.new) self.new }
        ensures at_end { weave_count self.old ≡ 0 → IsOk result }
        ensures cause { IfErr result (BlockCause (seen D.state rig.old) (seen D.state rig.new)) }
    {
        self.left.read_ahead(rig)?;
        self.right.read_ahead(rig)
    }

    /// Takes the first of the records that were read ahead.
    fn take(&mut self) -> Option<Side>
        ensures takes { TakesFront self.old self.new result }
    {
        match first_side(self.left.front, self.right.front) {
            Some(Side::Left(record)) => {
                self.left.front = None;
                Some(Side::Left(record))
            }
            Some(Side::Right(record)) => {
                self.right.front = None;
                Some(Side::Right(record))
            }
            None => None,
        }
    }

    /// Releases the blocks of what is left, and gives both frames back, which it does after a fault
    /// too. It is never `Full`.
    pub fn end<D: Device>(self, rig: &mut Rig<'_, D>) -> Result<(), EmFault>
        requires sound { Sound (seen D.state rig.old) }
        requires is { IsWeave (seen D.state rig.old) self }
        ensures gives { GivesTwo (weave_blocks (seen D.state rig.old) self)
            (seen D.state rig.old) (seen D.state rig.new) }
        ensures costs { EndCosts (seen D.state rig.old) (seen D.state rig.new) self result }
        ensures complete { Completes (seen D.state rig.old) (seen D.state rig.new) result }
        ensures cause { IfErr result (BlockCause (seen D.state rig.old) (seen D.state rig.new)) }
    {
        let (left, right) = self.into_chains(rig);
        discard_both(rig, left, right)
    }

    /// The chains that are left. Both frames come back, and nothing is moved.
    fn into_chains<D: Device>(self, rig: &mut Rig<'_, D>) -> (Chain, Chain)
        requires sound { Sound (seen D.state rig.old) }
        requires is { IsWeave (seen D.state rig.old) self }
        ensures gives { GivesTwo [] (seen D.state rig.old) (seen D.state rig.new) }
        ensures unmoved { Unmoved (seen D.state rig.old) (seen D.state rig.new) }
        ensures parts { GivesChains (seen D.state rig.old) (seen D.state rig.new)
            self result.0 result.1 }
    {
        let (left, right) = self.into_readers();
        let left = left.end(rig);
        let right = right.end(rig);
        (left, right)
    }

    /// Gives both frames back, also after a fault. The blocks stay in use, and nothing is moved.
    pub fn abandon<D: Device>(self, rig: &mut Rig<'_, D>)
        requires sound { Sound (seen D.state rig.old) }
        requires frames { WeaveHasFrames (seen D.state rig.old) self }
        ensures gives { GivesTwo [] (seen D.state rig.old) (seen D.state rig.new) }
        ensures unmoved { Unmoved (seen D.state rig.old) (seen D.state rig.new) }
    {
        let (left, right) = self.into_readers();
        left.abandon(rig);
        right.abandon(rig);
    }

    /// The two readers.
    fn into_readers(self) -> (Reader, Reader)
        ensures left { result.0 ≡ self.left.reader }
        ensures right { result.1 ≡ self.right.reader }
    {
        let Weave {
            left: PeekReader {
                reader: left,
                front: _,
            },
            right: PeekReader {
                reader: right,
                front: _,
            },
        } = self;
        (left, right)
    }
}

/// The first of two heads, by the word `a`: the left one if these words are equal.
fn first_side(left: Option<Record>, right: Option<Record>) -> Option<Side>
    ensures { result ≡ first_side left right }
{
    match (left, right) {
        (None, None) => None,
        (None, Some(right)) => Some(Side::Right(right)),
        (Some(left), None) => Some(Side::Left(left)),
        (Some(left), Some(right)) => {
            if left.a <= right.a {
                return Some(Side::Left(left));
            }
            Some(Side::Right(right))
        }
    }
}

/// Releases the blocks of two chains.
fn discard_both<D: Device>(rig: &mut Rig<'_, D>, left: Chain, right: Chain) -> Result<(), EmFault>
    requires sound { Sound (seen D.state rig.old) }
    requires left { IsChain (seen D.state rig.old) left }
    requires right { IsChain (seen D.state rig.old) right }
    requires apart { IsTrue (seen D.state rig.old).device.told
        → Apart (chain_blocks (seen D.state rig.old) left)
        (chain_blocks (seen D.state rig.old) right) }
    requires free { 0 < (seen D.state rig.old).pool.free }
    ensures goes { Goes (chain_blocks (seen D.state rig.old) left
        ++ chain_blocks (seen D.state rig.old) right)
        (seen D.state rig.old) (seen D.state rig.new) }
    ensures frees { Frees (left.blocks + right.blocks)
        (seen D.state rig.old) (seen D.state rig.new) result }
    ensures cause { IfErr result (BlockCause (seen D.state rig.old) (seen D.state rig.new)) }
{
    discard(rig, left)?;
    discard(rig, right)
}
