/// Why a call on a rig, or on a value over one, gave up.
#[derive(Clone, Copy, Debug, PartialEq, Eq, Drop)]
pub enum EmFault {
    /// The device failed: its count of faults rose in this call.
    DeviceFault,
    /// All `used` blocks of the device are in use, and a new one was wanted. Not each call says that it
    /// wanted one, or that no call of the device failed before in it (docs/DECISIONS.md, 33 and 48).
    Full { used: u64 },
    /// The block of this number, which was read, isn't laid out as it was left. Some cases name
    /// another block: no block is in use, and this one was to be released; a tree, or a queue
    /// over one, meets numbers that don't fit, and names its root's; or no single block is to
    /// blame, and 0 stands for it (docs/FORMATS.md, "Blocks"). It never comes over a device that
    /// tells its contents.
    Damaged { block: u64 },
}
