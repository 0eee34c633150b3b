//! A line of the stimulus: a byte `0` or `1` for each input, and a newline or the text's end.
ghost use Rattle.std.specs.Prelude.{◌≡◌, ◌^◌, ◌<◌, ◌≤◌, [], slice_get, IfErr, OnOk, Some};
ghost use Rattle.em_space.specs.Rig.{Goes, Sound};
ghost use Rattle.em_space.specs.Seen.{seen};
ghost use Rattle.aig_defs.specs.Stimulus.{stimulus_line};
ghost use Rattle.aig_text.specs.Reads.{Advances};
ghost use Rattle.aig_text.specs.Source.{CanRead, source};
ghost use Rattle.aig_forward.specs.BitList.{CanAdd, ReadsToList, list_moment, one_bit};
ghost use Rattle.aig_forward.specs.Line.{AnswersLine, LineCause, LineCosts, MovesAfterByte, TakesBits, step_stop};

use aig_edges::StepStop;
use aig_sweep::{read_bit, read_end, take_end};
use aig_text::AigStop;
use em_chain::{Chain, Writer};
use em_frames::Device;
use em_io::{Feed, Shelf};
use em_record::Record;
use em_space::Rig;

/// A reader's stop, as one of a step.
fn step_stop(stop: AigStop) -> StepStop
    ensures { result ≡ step_stop stop }
{
    match stop {
        AigStop::Fault { kind, place } => StepStop::Fault { kind, place },
        AigStop::Read => StepStop::Read,
        AigStop::Em(fault) => StepStop::Em(fault),
    }
}

/// Reads a bit and adds it to the list.
fn add_bit<D: Device, H: Shelf>(
    rig: &mut Rig<'_, D>,
    feed: &mut Feed,
    shelf: &mut H,
    list: &mut Writer,
) -> Result<(), StepStop>
    requires { CanAdd 1 (list_moment H.Shelf feed.old shelf.old (seen D.state rig.old) list.old) }
    ensures { ReadsToList H.tells 1 one_bit
        (list_moment H.Shelf feed.old shelf.old (seen D.state rig.old) list.old)
        (list_moment H.Shelf feed.new shelf.new (seen D.state rig.new) list.new) result }
{
    let bit = match read_bit(feed, shelf) {
        Ok(bit) => bit,
        Err(stop) => return Err(step_stop(stop)),
    };
    let item = Record {
        a: 0,
        b: 0,
        c: bit as u64,
        d: 0,
    };
    match list.append(rig, item) {
        Ok(()) => Ok(()),
        Err(fault) => Err(StepStop::Em(fault)),
    }
}

/// Reads a line and adds its bits to the list.
fn read_bits<D: Device, H: Shelf>(
    rig: &mut Rig<'_, D>,
    feed: &mut Feed,
    shelf: &mut H,
    list: &mut Writer,
    inputs: u64,
) -> Result<(), StepStop>
    requires { CanAdd inputs
        (list_moment H.Shelf feed.old shelf.old (seen D.state rig.old) list.old) }
    ensures { ReadsToList H.tells inputs (stimulus_line inputs)
        (list_moment H.Shelf feed.old shelf.old (seen D.state rig.old) list.old)
        (list_moment H.Shelf feed.new shelf.new (seen D.state rig.new) list.new) result }
{
    for _ in 0..inputs {
        match add_bit(rig, feed, shelf, list) {
            Ok(()) => {}
            Err(stop) => return Err(stop),
        }
    }
    match read_end(feed, shelf) {
        Ok(()) => Ok(()),
        Err(stop) => Err(step_stop(stop)),
    }
}

/// Reads a line, of which this is the first byte ahead, and adds its bits to the list.
fn read_from<D: Device, H: Shelf>(
    rig: &mut Rig<'_, D>,
    feed: &mut Feed,
    shelf: &mut H,
    list: &mut Writer,
    inputs: u64,
    first: u8,
) -> Result<(), StepStop>
    requires can { CanAdd inputs
        (list_moment H.Shelf feed.old shelf.old (seen D.state rig.old) list.old) }
    requires first { Some first ≡ slice_get feed.old.ahead 0 }
    ensures reads { ReadsToList H.tells inputs (stimulus_line inputs)
        (list_moment H.Shelf feed.old shelf.old (seen D.state rig.old) list.old)
        (list_moment H.Shelf feed.new shelf.new (seen D.state rig.new) list.new) result }
    ensures further { OnOk result (feed.old.place < feed.new.place) }
{
    if inputs > 0 {
        return read_bits(rig, feed, shelf, list, inputs);
    }
    match take_end(feed, first) {
        Ok(()) => Ok(()),
        Err(stop) => Err(step_stop(stop)),
    }
}

/// Reads a line of the stimulus into a list of its bits, or answers None if nothing is left. A bit
/// is a record (0, 0, bit, 0), and the list holds its blocks and no frame.
///
/// `Fault` is the line's first fault: `StimLength` if a byte is missing or one too many stands
/// there, `StimChar` at another byte than `0` and `1`, `TooLong` at the offset 2^50. `Read` comes
/// only if the shelf's count of faults rose, `Em` if the rig gave up, and never `Write`. The blocks
/// of a list that wasn't finished stay in use. No block is moved before a byte was taken.
pub(crate) fn read_line<D: Device, H: Shelf>(
    rig: &mut Rig<'_, D>,
    feed: &mut Feed,
    shelf: &mut H,
    inputs: u64,
) -> Result<Option<Chain>, StepStop>
    requires sound { Sound (seen D.state rig.old) }
    requires ready { CanRead (source H.Shelf feed.old shelf.old) }
    requires free { 2 < (seen D.state rig.old).pool.free }
    requires few { inputs ≤ 2 ^ 40 }
    ensures goes { Goes [] (seen D.state rig.old) (seen D.state rig.new) }
    ensures feed { Advances H.tells (source H.Shelf feed.old shelf.old)
        (source H.Shelf feed.new shelf.new) }
    ensures line { AnswersLine H.tells inputs (source H.Shelf feed.old shelf.old)
        (source H.Shelf feed.new shelf.new) (seen D.state rig.new) result }
    ensures costs { LineCosts inputs (seen D.state rig.old) (seen D.state rig.new) result }
    ensures takes { TakesBits inputs (seen D.state rig.old) (seen D.state rig.new) }
    ensures idle { MovesAfterByte (seen D.state rig.old) (seen D.state rig.new) feed.old.place
        feed.new.place }
    ensures cause { IfErr result (LineCause (source H.Shelf feed.old shelf.old)
        (source H.Shelf feed.new shelf.new) (seen D.state rig.old) (seen D.state rig.new)) }
{
    let first = match feed.peek(shelf) {
        Ok(Some(byte)) => byte,
        Ok(None) => return Ok(None),
        Err(_) => return Err(StepStop::Read),
    };
    let mut bits = Writer::new(rig);
    match read_from(rig, feed, shelf, &mut bits, inputs, first) {
        Ok(()) => match bits.finish(rig) {
            Ok(chain) => Ok(Some(chain)),
            Err(fault) => Err(StepStop::Em(fault)),
        },
        Err(stop) => {
            bits.abandon(rig);
            Err(stop)
        }
    }
}
