//! An interval list that gets commands. A command is a record: `(L, H, 0, 0)` is an interval, and `(X, 0, 1, 0)` a stab.
ghost use Rattle.std.specs.Prelude.{◌+◌, ◌*◌, ◌≤◌, ◌^◌, length, IfOk};
ghost use Rattle.em_record.specs.Shape.{fan_of};
ghost use Rattle.em_chain.specs.Chain.{IsChain};
ghost use Rattle.em_space.specs.Seen.{seen};
ghost use Rattle.em_structure_tests.specs.Ready.{EndsStab, HasAll, KeepsRig, KeepsStab, ReadyStab};

use crate::reading::{is_long, read_all};
use em_chain::Chain;
use em_frames::Device;
use em_plain::ScanQueue;
use em_record::Record;
use em_segment::Stab;
use em_space::{EmFault, Rig};

/// One command.
#[tactic(auto, using(crate::proofs::StabKeeps::given_keeps))]
fn step<D: Device>(rig: &mut Rig<'_, D>, list: &mut Stab, call: Record) -> Result<(), EmFault>
    requires { ReadyStab 1 (seen D.state rig.old) list.old }
    ensures { KeepsStab 1 (seen D.state rig.old) (seen D.state rig.new) list.old list.new result }
{
    if call.c == 0 && call.a <= call.b {
        return list.interval(rig, call.a, call.b);
    }
    list.stab(rig, call.a)
}

/// Some commands.
fn step_all<D: Device>(
    rig: &mut Rig<'_, D>,
    list: &mut Stab,
    calls: &[Record],
) -> Result<(), EmFault>
    requires { ReadyStab (length calls.now) (seen D.state rig.old) list.old }
    ensures { KeepsStab (length calls.now) (seen D.state rig.old) (seen D.state rig.new)
        list.old list.new result }
{
    for call in calls {
        step(rig, list, *call)?;
    }
    Ok(())
}

/// Ends an interval list with a queue that is a list of its items.
fn finish<D: Device>(rig: &mut Rig<'_, D>, list: Stab) -> Result<Chain, EmFault>
    requires ready { ReadyStab 0 (seen D.state rig.old) list }
    requires free { 2 * fan_of (seen D.state rig.old).pool.shape + 5 ≤ (seen D.state rig.old).pool.free }
    ensures ends { EndsStab (seen D.state rig.old) (seen D.state rig.new) }
    ensures is { IfOk result (IsChain (seen D.state rig.new)) }
{
    let Ok(queue) = ScanQueue::new(rig) else {
        unreachable!()
    };
    list.finish(rig, queue)
}

/// Gives commands to a new interval list, which is finished, and notes the pairs.
pub fn serve<D: Device>(
    rig: &mut Rig<'_, D>,
    calls: &[Record],
    found: &mut Vec<Record>,
) -> Result<(), EmFault>
    requires { HasAll (seen D.state rig.old) }
    ensures { KeepsRig (seen D.state rig.old) (seen D.state rig.new) }
{
    if is_long(calls) {
        return Ok(());
    }
    let mut list = Stab::new(rig)?;
    match step_all(rig, &mut list, calls) {
        Ok(()) => {
            let chain = finish(rig, list)?;
            read_all(rig, chain, found)
        }
        Err(fault) => {
            list.abandon(rig);
            Err(fault)
        }
    }
}
