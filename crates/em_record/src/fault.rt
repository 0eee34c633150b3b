/// The outside failed: a device, a shelf or a sink. Its count of faults rose.
#[derive(Clone, Copy, Debug, PartialEq, Eq, Drop)]
pub struct Failed;

/// There was no memory.
#[derive(Clone, Copy, Debug, PartialEq, Eq, Drop)]
pub struct NoMemory;

/// The first rule of a shape that two numbers break.
#[derive(Clone, Copy, Debug, PartialEq, Eq, Drop)]
pub enum ShapeFault {
    /// A block has 128 to 65536 records.
    BlockRange,
    /// There are 64 frames to the lesser of 1024 and half a block's records.
    FramesRange,
    /// The number of frames is a multiple of 8.
    FramesMultiple,
}
