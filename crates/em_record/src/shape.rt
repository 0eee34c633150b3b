ghost use Rattle.std.specs.Prelude.{◌≡◌};
ghost use Rattle.em_record.specs.Shape.{ShapeNumbers, IsShape, shape_of, fan_of, wide_of, payload_of};

use crate::fault::ShapeFault;
use std::marker::Model;

/// The sizes of a machine: B records to a block, and m frames of one block each.
#[derive(Clone, Copy, Debug, PartialEq, Eq)]
pub struct Shape {
    block: u64,
    frames: u64,
}

impl Model for Shape {
    ghost Value = { ShapeNumbers };

    ghost view = { λ s. record { block = s.block; frames = s.frames } };

    ghost invariant = { λ s. IsShape (record { block = s.block; frames = s.frames }) };

    ghost inverse = { λ n. record { block = n.block; frames = n.frames } };
}

impl Shape {
    /// The shape of blocks of `block` records and of `frames` frames, or the first rule that these
    /// break.
    pub fn new(block: u64, frames: u64) -> Result<Shape, ShapeFault>
        ensures { result ≡ shape_of block frames }
    {
        if block < 128 || block > 65536 {
            return Err(ShapeFault::BlockRange);
        }
        if frames < 64 || frames > 1024.min(block / 2) {
            return Err(ShapeFault::FramesRange);
        }
        if frames % 8 != 0 {
            return Err(ShapeFault::FramesMultiple);
        }
        Ok(Shape { block, frames })
    }

    /// B, the records of a block.
    pub fn block(&self) -> u64
        ensures value { result ≡ self.now.block }
        ensures limits { IsShape self.now }
    {
        self.block
    }

    /// m, the number of frames.
    pub fn frames(&self) -> u64
        ensures value { result ≡ self.now.frames }
        ensures limits { IsShape self.now }
    {
        self.frames
    }

    /// f, the fan-out of a tree: a quarter of the frames.
    pub fn fan(&self) -> u64
        ensures value { result ≡ fan_of self.now }
        ensures limits { IsShape self.now }
    {
        self.frames / 4
    }

    /// w, the frames of an area: half the fan-out.
    pub fn wide(&self) -> u64
        ensures value { result ≡ wide_of self.now }
        ensures limits { IsShape self.now }
    {
        self.fan() / 2
    }

    /// P, the payload records of a chain block: all but its header.
    pub fn payload(&self) -> u64
        ensures value { result ≡ payload_of self.now }
        ensures limits { IsShape self.now }
    {
        self.block - 1
    }
}
