ghost use Rattle.std.specs.Prelude.{◌≡◌, ◌<◌, ◌≤◌, ◌^◌, length, set, OnOk, IsErrOf, IsTrue};
ghost use Rattle.em_record.specs.Count.{Rose};
ghost use Rattle.em_frames.specs.Device.{DeviceState, IsBegun, IsMove, ChangesOnly, block_at};

use em_record::{Failed, Record};

/// Why a device wasn't begun.
#[derive(Clone, Copy, Debug, PartialEq, Eq, Drop)]
pub enum BeginFault {
    /// The device failed, and its count of faults rose.
    Failed,
    /// The device found no memory for what it keeps.
    NoMemory,
}

/// External memory: numbered blocks of records, moved one at a time. Vitter's survey of external
/// memory counts the moves, which are the cost of a run; so does `moves`.
///
/// A device that tells its contents says in `contents` what it holds. One that doesn't, as a
/// file, has the empty list there, and each clause on contents is said of a telling device.
pub trait Device {
    ghost state: { Self → DeviceState };

    /// Makes a device of `blocks` blocks of `block` records each, all zero. It is called once.
    fn begin(&mut self, block: u32, blocks: u64) -> Result<(), BeginFault>
        requires fresh { (state self.old).blocks ≡ 0 }
        requires block_low { 128 ≤ block }
        requires block_high { block ≤ 65536 }
        requires blocks_low { 0 < blocks }
        requires blocks_high { blocks ≤ 2 ^ 40 }
        ensures begun { OnOk result (IsBegun (state self.old) (state self.new) block blocks) }
        ensures told { (state self.new).told ≡ (state self.old).told }
        ensures none_yet { (state self.old).moves ≡ 0 }
        ensures unmoved { (state self.new).moves ≡ (state self.old).moves }
        ensures faults { (state self.old).faults ≤ (state self.new).faults }
        ensures cause { IsErrOf result BeginFault.Failed
            → Rose (state self.old).faults (state self.new).faults };

    /// Reads a block. After `Failed` the slice may hold anything.
    fn read(&mut self, at: u64, into: &mut [Record]) -> Result<(), Failed>
        requires at { at < (state self.old).blocks }
        requires len { length into.old ≡ (state self.old).block }
        ensures given { OnOk result (IsTrue (state self.old).told
            → into.new ≡ block_at (state self.old) at) }
        ensures kept { (state self.new).contents ≡ (state self.old).contents }
        ensures moved { IsMove (state self.old) (state self.new) result };

    /// Writes a block. After `Failed` the block may hold anything, and the others are as before.
    fn write(&mut self, at: u64, from: &[Record]) -> Result<(), Failed>
        requires at { at < (state self.old).blocks }
        requires len { length from.now ≡ (state self.old).block }
        ensures stored { OnOk result ((state self.new).contents
            ≡ set (state self.old).contents at from.now) }
        ensures others { ChangesOnly at (length from.now) (state self.old) (state self.new) }
        ensures moved { IsMove (state self.old) (state self.new) result };
}
