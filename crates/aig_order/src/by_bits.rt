//! A pass by a bit for each variable, in an area that is lent for it: no queue is called.
//!
//!     fill    the bits of all variables are 1
//!     recall  edges that don't rise join what their sources were after the last pass
//!     rewrite the list is written anew, with the gates that the pass finds
//!
//! Kept here: the area is back at each exit.

ghost use Rattle.std.specs.Prelude.{◌≡◌, ◌↔◌, ◌<◌, ◌*◌, IsTrue, length};
ghost use Rattle.em_space.specs.Seen.{seen};
ghost use Rattle.aig_defs.specs.Circuit.{IsHeader};
ghost use Rattle.aig_edges.specs.Copies.{CanWriteAnew};
ghost use Rattle.aig_order.specs.Marks.{FitsArea};
ghost use Rattle.aig_order.specs.Rewrites.{MarksTo};

use crate::passing::Swept;
use crate::recalling::recall;
use crate::rewriting::rewrite;
use crate::standing::at_constant;
use aig_defs::Header;
use em_bits::fill_to;
use em_chain::Chain;
use em_frames::Device;
use em_record::{Record, Shape};
use em_space::{EmFault, Rig};

/// Whether a bit for each variable up to M fits into an area.
pub(crate) fn fits(header: &Header, shape: Shape) -> bool
    requires header { IsHeader header.now }
    ensures is { IsTrue result ↔ FitsArea header.now shape }
{
    let load = shape.wide() * shape.block();
    header.max < 256 * load
}

/// A pass by bits. The list's blocks are released. A fault is that of a call on a list.
///
/// Three single frames and an area are free, and are back at each exit. At most three moves are made for each block
/// of the list, two for each of what is written, and one more. It is full only if that finds no block.
pub(crate) fn pass_by_bits<D: Device>(
    rig: &mut Rig<'_, D>,
    list: Chain,
    header: &Header,
    next: u64,
) -> Result<Swept, EmFault>
    requires can { CanWriteAnew (seen D.state rig.old) list }
    requires areas { 0 < (seen D.state rig.old).pool.free_areas }
    requires fits { FitsArea header.now (seen D.state rig.old).pool.shape }
    ensures marks { MarksTo header.now.max next (seen D.state rig.old) (seen D.state rig.new) list
        result }
{
    let mut area = rig.lend_area();
    let done = mark_pass(rig, list, header.max, next, area.records_mut());
    rig.give_area(area);
    done
}

/// The same with a row for the bits of the variables up to `last`.
fn mark_pass<D: Device>(
    rig: &mut Rig<'_, D>,
    list: Chain,
    last: u64,
    next: u64,
    row: &mut [Record],
) -> Result<Swept, EmFault>
    requires can { CanWriteAnew (seen D.state rig.old) list }
    requires within { last < 256 * length row.old }
    ensures long { length row.new ≡ length row.old }
    ensures marks { MarksTo last next (seen D.state rig.old) (seen D.state rig.new) list result }
{
    fill_to(row, last);
    recall(rig, row, &list, next, last)?;
    let mut standing = at_constant(next);
    let list = rewrite(rig, row, list, &mut standing, last)?;
    Ok(Swept {
        list,
        next: standing.next,
    })
}
