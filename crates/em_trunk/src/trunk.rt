//! What a tree keeps in memory, but for its settling rule.

ghost use Rattle.std.specs.Prelude.{◌≡◌, ◌-◌, ◌+◌, ◌<◌, ◌≤◌, ◌^◌, ◌/◌};
ghost use Rattle.em_record.specs.Shape.{IsShape};
ghost use Rattle.em_space.specs.Rig.{Sound};
ghost use Rattle.em_space.specs.Seen.{seen};
ghost use Rattle.em_chain.specs.Writer.{IsWriter};
ghost use Rattle.em_trunk.specs.Counting.{counted_all, counted_moves, counted_push, counted_reset, counted_settling, with_steps};
ghost use Rattle.em_trunk.specs.Lists.{TakesAll, TakesAnswers, GivesAnswers, LeavesTrunk};
ghost use Rattle.em_trunk.specs.Steps.{StepsTo};
ghost use Rattle.em_trunk.specs.Planting.{MakesFresh};
ghost use Rattle.em_trunk.specs.Trunk.{TrunkHasFrames};

use crate::planting::plant;
use em_chain::{Chain, Writer};
use em_frames::Device;
use em_record::Shape;
use em_space::{EmFault, Rig};
use em_tree_walk::MOST_LEVELS;
use std::mem;

/// The root, the lists that are being written, and the numbers of a tree.
pub struct Trunk {
    /// The block of the root.
    pub root: u64,
    /// The root's level: 1 over leaves.
    pub level: u64,
    /// The root's buffer: new operations come here.
    pub buffer: Writer,
    /// What operations answered when they were settled.
    pub answers: Writer,
    /// Operations pushed.
    pub pushed: u128,
    /// The most of them between two resets, or since the last one. The records that the tree was adopted with count too.
    pub longest: u128,
    /// The number of these since the last reset.
    pub since: u128,
    /// Calls in which all buffers were emptied.
    pub settled: u128,
    /// Resets: calls that took out all that there was.
    pub resets: u128,
    /// The records that the tree was adopted with.
    pub adopted: u64,
    /// As many of them as the share of its moves counts: none before the first call that takes records out, and then all.
    pub counted: u64,
    /// Moves that were made in its calls, but for those of `take_answers`: at most one each.
    pub spent: u128,
    /// Steps that the running call may still take.
    pub steps: u128,
}

impl Trunk {
    /// A root of level 1 over one empty leaf. It holds two frames. At most 4 blocks are moved. After a
    /// fault some blocks may stay in use.
    pub fn new<D: Device>(rig: &mut Rig<'_, D>) -> Result<Trunk, EmFault>
        requires sound { Sound (seen D.state rig.old) }
        requires free { 2 < (seen D.state rig.old).pool.free }
        ensures { MakesFresh (seen D.state rig.old) (seen D.state rig.new) result }
    {
        let before = rig.moves();
        let root = plant(rig)?;
        let spent = (rig.moves() - before) as u128;
        let buffer = Writer::new(rig);
        let answers = Writer::new(rig);
        Ok(Trunk {
            root,
            level: 1,
            buffer,
            answers,
            pushed: 0,
            longest: 0,
            since: 0,
            settled: 0,
            resets: 0,
            adopted: 0,
            counted: 0,
            spent,
            steps: 0,
        })
    }

    /// Gives the frames back. The blocks stay in use, and nothing is moved.
    pub fn abandon<D: Device>(self, rig: &mut Rig<'_, D>)
        requires sound { Sound (seen D.state rig.old) }
        requires frames { TrunkHasFrames (seen D.state rig.old) self }
        ensures { LeavesTrunk (seen D.state rig.old) (seen D.state rig.new) }
    {
        let Trunk {
            root: _,
            level: _,
            buffer,
            answers,
            pushed: _,
            longest: _,
            since: _,
            settled: _,
            resets: _,
            adopted: _,
            counted: _,
            spent: _,
            steps: _,
        } = self;
        buffer.abandon(rig);
        answers.abandon(rig);
    }

    /// The list of the answers, of a tree whose other blocks were released.
    pub fn into_answers<D: Device>(self, rig: &mut Rig<'_, D>) -> Result<Chain, EmFault>
        requires sound { Sound (seen D.state rig.old) }
        requires frames { TrunkHasFrames (seen D.state rig.old) self }
        requires answers { IsWriter (seen D.state rig.old) self.answers }
        ensures { GivesAnswers (seen D.state rig.old) (seen D.state rig.new) self result }
    {
        let Trunk {
            root: _,
            level: _,
            buffer,
            answers,
            pushed: _,
            longest: _,
            since: _,
            settled: _,
            resets: _,
            adopted: _,
            counted: _,
            spent: _,
            steps: _,
        } = self;
        buffer.abandon(rig);
        answers.finish(rig)
    }

    /// Counts an operation, and gives the call its steps.
    pub fn count_push(&mut self, shape: &Shape)
        requires shape { IsShape shape.now }
        requires since { self.old.since ≤ self.old.longest }
        requires longest { self.old.longest ≤ self.old.pushed + 2 ^ 100 }
        requires few { self.old.pushed < 2 ^ 100 }
        ensures { self.new ≡ counted_push shape.now self.old }
    {
        self.pushed += 1;
        self.since += 1;
        self.longest = self.longest.max(self.since);
        self.allow_steps(shape);
    }

    /// Counts a call that empties all buffers, and gives it its steps.
    pub fn count_settling(&mut self, shape: &Shape)
        requires shape { IsShape shape.now }
        requires longest { self.old.longest ≤ self.old.pushed + 2 ^ 100 }
        requires few { self.old.pushed ≤ 2 ^ 100 }
        requires room { self.old.settled < 2 ^ 100 }
        ensures { self.new ≡ counted_settling shape.now self.old }
    {
        self.settled += 1;
        self.allow_steps(shape);
    }

    /// Counts a call that takes records out, and gives it its steps.
    pub fn count_all(&mut self, shape: &Shape)
        requires shape { IsShape shape.now }
        requires pushed { self.old.pushed ≤ 2 ^ 100 }
        requires longest { self.old.longest ≤ 2 ^ 101 }
        ensures { self.new ≡ counted_all shape.now self.old }
    {
        self.counted = self.adopted;
        self.allow_steps(shape);
    }

    /// Counts a reset: nothing is left in the tree.
    pub fn count_reset(&mut self)
        requires room { self.old.resets < 2 ^ 100 }
        ensures { self.new ≡ counted_reset self.old }
    {
        self.since = 0;
        self.resets += 1;
    }

    /// Counts the moves that were made since the rig's moves were `before`.
    pub fn count_moves<D: Device>(&mut self, rig: &Rig<'_, D>, before: u64)
        requires later { before ≤ (seen D.state rig.now).moves }
        requires spent { self.old.spent ≤ before }
        ensures { self.new ≡ counted_moves ((seen D.state rig.now).moves - before) self.old }
    {
        self.spent += (rig.moves() - before) as u128;
    }

    /// The steps that a call takes at most: each makes a move, and these are no fewer than the moves that
    /// a call can be charged for.
    pub fn allow_steps(&mut self, shape: &Shape)
        requires shape { IsShape shape.now }
        requires pushed { self.old.pushed ≤ 2 ^ 100 }
        requires longest { self.old.longest ≤ 2 ^ 101 }
        ensures { self.new ≡ with_steps shape.now self.old }
    {
        let block = shape.block();
        let pushed = 160 * (whole_blocks(self.pushed + self.longest, block) + 2);
        let longest = 64 * (whole_blocks(self.longest, block) + 2);
        self.steps = (MOST_LEVELS as u128 + 2) * (pushed + longest);
    }

    /// Takes one of the call's steps. A device that gives other records than were written may lead
    /// a call round and round: then the steps run out, and the root's block is `Damaged`.
    pub fn take_step(&mut self) -> Result<(), EmFault>
        ensures { StepsTo self.old self.new result }
    {
        if self.steps == 0 {
            return Err(EmFault::Damaged { block: self.root });
        }
        self.steps -= 1;
        Ok(())
    }

    /// The root's buffer, with a new one in its place. One move at most is made.
    pub fn take_buffer<D: Device>(&mut self, rig: &mut Rig<'_, D>) -> Result<Chain, EmFault>
        requires sound { Sound (seen D.state rig.old) }
        requires is { IsWriter (seen D.state rig.old) self.old.buffer }
        requires free { 1 < (seen D.state rig.old).pool.free }
        ensures { TakesAll (seen D.state rig.old) (seen D.state rig.new) self.old self.new result }
    {
        let fresh = Writer::new(rig);
        let whole = mem::replace(&mut self.buffer, fresh);
        whole.finish(rig)
    }

    /// The answers given so far, with a new list in their place. One move at most is made, and no block is taken.
    pub fn take_answers<D: Device>(&mut self, rig: &mut Rig<'_, D>) -> Result<Chain, EmFault>
        requires sound { Sound (seen D.state rig.old) }
        requires is { IsWriter (seen D.state rig.old) self.old.answers }
        requires free { 1 < (seen D.state rig.old).pool.free }
        ensures { TakesAnswers (seen D.state rig.old) (seen D.state rig.new) self.old self.new result }
    {
        let fresh = Writer::new(rig);
        let whole = mem::replace(&mut self.answers, fresh);
        whole.finish(rig)
    }
}

/// How many blocks of this many records these records fill. Numbers below 2^64 are divided as such, many times as fast.
fn whole_blocks(records: u128, block: u64) -> u128
    requires some { 0 < block }
    ensures { result ≡ records / block }
{
    match u64::try_from(records) {
        Ok(few) => (few / block) as u128,
        Err(_) => records / block as u128,
    }
}
