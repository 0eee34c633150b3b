ghost use Rattle.std.specs.Prelude.{◌≡◌, ◌<◌, IfErr, IsOk};
ghost use Rattle.em_space.specs.Rig.{Sound, BlockCause};
ghost use Rattle.em_space.specs.Seen.{seen};
ghost use Rattle.em_chain.specs.Reader.{ReaderHasFrame};
ghost use Rattle.em_weave.specs.Peek.{IsPeek, ReadsAheadTo, peek_count};

use em_chain::Reader;
use em_frames::Device;
use em_record::Record;
use em_space::{EmFault, Rig};

/// A reader that takes its chain, and the record that it read ahead, if there is one.
pub struct PeekReader {
    pub(crate) reader: Reader,
    pub(crate) front: Option<Record>,
}

impl PeekReader {
    /// Reads a record ahead, if none is and one is left.
    pub(crate) fn read_ahead<D: Device>(&mut self, rig: &mut Rig<'_, D>) -> Result<(), EmFault>
        requires sound { Sound (seen D.state rig.old) }
        requires is { IsPeek (seen D.state rig.old) self.old }
        requires free { 0 < (seen D.state rig.old).pool.free }
        ensures reads { ReadsAheadTo (seen D.state rig.old) (seen D.state rig.new)
            self.old self.new result }
        ensures frame { ReaderHasFrame (seen D.state rig.new) self.new.reader }
        ensures at_end { peek_count self.old ≡ 0 → IsOk result }
        ensures cause { IfErr result (BlockCause (seen D.state rig.old) (seen D.state rig.new)) }
    {
        if self.front.is_some() {
            return Ok(());
        }
        self.front = self.reader.next(rig)?;
        Ok(())
    }
}
