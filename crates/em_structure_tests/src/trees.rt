//! A tree of a map that gets calls. A call is a record: an operation of a map, numbered from 1, or one of these.
ghost use Rattle.std.specs.Prelude.{◌≡◌, ◌*◌, ◌≤◌, ◌^◌, true, length};
ghost use Rattle.em_frames.specs.Pool.{load_of};
ghost use Rattle.em_settle.specs.Map.{IsMapOp};
ghost use Rattle.em_space.specs.Seen.{seen};
ghost use Rattle.em_structure_tests.specs.Ready.{HasAll, HasFrames, KeepsRig, KeepsTree, ReadyTree};

use crate::reading::{is_long, note, read_all};
use em_frames::{Area, Device};
use em_record::Record;
use em_settle::MapSettle;
use em_space::{EmFault, Rig};
use em_tree::Tree;

/// Settles all.
pub const SETTLE: Record = Record {
    a: 0,
    b: 0,
    c: 3,
    d: 0,
};

/// Takes the least records out.
pub const TAKE: Record = Record {
    a: 0,
    b: 0,
    c: 4,
    d: 0,
};

/// Hands out the answers so far.
pub const HAND: Record = Record {
    a: 0,
    b: 0,
    c: 5,
    d: 0,
};

/// Whether a record is an operation of a map.
fn is_op(op: Record) -> bool
    ensures { result ≡ true → IsMapOp op }
{
    op.b > 0 && op.c < 3
}

/// Pushes an operation, if the record is one.
fn push<D: Device>(
    rig: &mut Rig<'_, D>,
    tree: &mut Tree<MapSettle>,
    op: Record,
) -> Result<(), EmFault>
    requires { ReadyTree 1 (seen D.state rig.old) tree.old.trunk }
    ensures { KeepsTree 1 (seen D.state rig.old) (seen D.state rig.new)
        tree.old.trunk tree.new.trunk result }
{
    if !is_op(op) {
        return Ok(());
    }
    tree.push(rig, op)
}

/// Takes the least records out. Notes how many they are and the blocks that are in use then, and after that the
/// records.
fn take<D: Device>(
    rig: &mut Rig<'_, D>,
    tree: &mut Tree<MapSettle>,
    area: &mut Area,
    found: &mut Vec<Record>,
) -> Result<(), EmFault>
    requires tree { ReadyTree 1 (seen D.state rig.old) tree.old.trunk }
    requires area { length area.old ≡ load_of (seen D.state rig.old).pool.shape }
    ensures area { length area.new ≡ length area.old }
    ensures kept { KeepsTree 1 (seen D.state rig.old) (seen D.state rig.new)
        tree.old.trunk tree.new.trunk result }
{
    let count = tree.take_first(rig, area)?;
    let told = (count as u64, rig.used());
    note(found, told, area.records(), count);
    Ok(())
}

/// Hands out the answers so far, and reads them.
fn hand<D: Device>(
    rig: &mut Rig<'_, D>,
    tree: &mut Tree<MapSettle>,
    found: &mut Vec<Record>,
) -> Result<(), EmFault>
    requires { ReadyTree 1 (seen D.state rig.old) tree.old.trunk }
    ensures { KeepsTree 1 (seen D.state rig.old) (seen D.state rig.new)
        tree.old.trunk tree.new.trunk result }
{
    let chain = tree.take_answers(rig)?;
    read_all(rig, chain, found)
}

/// One call.
#[tactic(auto, using(crate::proofs::TreeKeeps::settled_keeps))]
fn step<D: Device>(
    rig: &mut Rig<'_, D>,
    tree: &mut Tree<MapSettle>,
    area: &mut Area,
    call: Record,
    found: &mut Vec<Record>,
) -> Result<(), EmFault>
    requires tree { ReadyTree 1 (seen D.state rig.old) tree.old.trunk }
    requires area { length area.old ≡ load_of (seen D.state rig.old).pool.shape }
    ensures area { length area.new ≡ length area.old }
    ensures kept { KeepsTree 1 (seen D.state rig.old) (seen D.state rig.new)
        tree.old.trunk tree.new.trunk result }
{
    if call == TAKE {
        return take(rig, tree, area, found);
    }
    if call == SETTLE {
        return tree.settle_all(rig);
    }
    if call == HAND {
        return hand(rig, tree, found);
    }
    push(rig, tree, call)
}

/// Some calls.
fn step_all<D: Device>(
    rig: &mut Rig<'_, D>,
    tree: &mut Tree<MapSettle>,
    area: &mut Area,
    calls: &[Record],
    found: &mut Vec<Record>,
) -> Result<(), EmFault>
    requires tree { ReadyTree (length calls.now) (seen D.state rig.old) tree.old.trunk }
    requires area { length area.old ≡ load_of (seen D.state rig.old).pool.shape }
    ensures area { length area.new ≡ length area.old }
    ensures kept { KeepsTree (length calls.now) (seen D.state rig.old) (seen D.state rig.new)
        tree.old.trunk tree.new.trunk result }
{
    for call in calls {
        step(rig, tree, area, *call, found)?;
    }
    Ok(())
}

/// The same with a new tree, which is finished. Notes before that the levels of nodes and whether the tree is
/// fresh, and the blocks in use and the moves; and after it the answers.
fn serve<D: Device>(
    rig: &mut Rig<'_, D>,
    area: &mut Area,
    calls: &[Record],
    found: &mut Vec<Record>,
) -> Result<(), EmFault>
    requires frames { HasFrames (seen D.state rig.old) }
    requires area { length area.old ≡ load_of (seen D.state rig.old).pool.shape }
    ensures area { length area.new ≡ length area.old }
    ensures kept { KeepsRig (seen D.state rig.old) (seen D.state rig.new) }
{
    if is_long(calls) {
        return Ok(());
    }
    let mut tree = Tree::new(rig, MapSettle {})?;
    match step_all(rig, &mut tree, area, calls, found) {
        Ok(()) => {
            note(found, (tree.height(), u64::from(tree.is_fresh())), &[], 0);
            note(found, (rig.used(), rig.moves()), &[], 0);
            let chain = tree.finish(rig)?;
            read_all(rig, chain, found)
        }
        Err(fault) => {
            tree.abandon(rig);
            Err(fault)
        }
    }
}

/// The same with an area of the rig.
pub fn serve_in_area<D: Device>(
    rig: &mut Rig<'_, D>,
    calls: &[Record],
    found: &mut Vec<Record>,
) -> Result<(), EmFault>
    requires { HasAll (seen D.state rig.old) }
    ensures { KeepsRig (seen D.state rig.old) (seen D.state rig.new) }
{
    let mut area = rig.lend_area();
    let told = serve(rig, &mut area, calls, found);
    rig.give_area(area);
    told
}
