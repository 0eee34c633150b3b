//! The calls that rows are made of.
ghost use Rattle.em_space.specs.Seen.{seen};
ghost use Rattle.em_tree_part_tests.specs.Ready.{IsReady, Keeps};

use crate::emptied::emptied;
use crate::firsts::{cut, taken_first};
use crate::fused_nodes::fused;
use crate::halves::{grown, halved};
use crate::loads::loaded;
use crate::rows::{Answer, Numbers};
use crate::splits::{released, split};
use crate::walks::{added, descended, searched, taken};
use em_frames::Device;
use em_space::Rig;

/// A call, after what it needs was stored.
#[derive(Clone, Copy)]
pub enum Call {
    Descend,
    Search,
    TakeOut,
    Add,
    Halve,
    Grow,
    SplitUp,
    Fuse,
    Release,
    TakeFirst,
    Cut,
    Load,
    Empty,
}

/// Makes a call with the numbers of a row.
pub fn called<D: Device>(rig: &mut Rig<'_, D>, call: Call, given: Numbers) -> Answer
    requires ready { IsReady (seen D.state rig.old) }
    ensures keeps { Keeps (seen D.state rig.old) (seen D.state rig.new) }
{
    let [_, _, first, second, third, ..] = given;
    match call {
        Call::Descend => descended(rig, first, second),
        Call::Search => searched(rig, first, second, third),
        Call::TakeOut => taken(rig, first, second),
        Call::Add => added(rig, first, second, third),
        Call::Halve => halved(rig, first, second),
        Call::Grow => grown(rig, first),
        Call::SplitUp => split(rig, first),
        Call::Fuse => fused(rig, given),
        Call::Release => released(rig, first),
        Call::TakeFirst => taken_first(rig),
        Call::Cut => cut(rig),
        Call::Load => loaded(rig),
        Call::Empty => emptied(rig, first, second, third),
    }
}
