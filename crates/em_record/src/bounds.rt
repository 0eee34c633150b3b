ghost use Rattle.std.specs.Prelude.{◌≡◌, ◌+◌, ◌≤◌, ◌^◌};
ghost use Rattle.em_record.specs.Cost.{blocks_of, lev, cost, room};

use crate::shape::Shape;

/// The blocks that `n` records fill: ceil(n / B).
pub fn blocks_of(shape: &Shape, n: u64) -> u64
    ensures value { result ≡ blocks_of shape.now n }
    ensures few { result ≤ 2 ^ 57 + 1 }
{
    n.div_ceil(shape.block())
}

/// How often `x` is divided by the fan-out, rounded up, until at most 1 is left.
pub fn lev(shape: &Shape, x: u64) -> u64
    ensures value { result ≡ lev shape.now x }
    ensures few { result ≤ x }
{
    let mut left = x;
    let mut levels = 0;
    while left > 1 {
        left = left.div_ceil(shape.fan());
        levels += 1;
    }
    levels
}

/// The transfer cost of a run of size `n`: 2048 · (q + 1) · (1 + lev(q)), for the q blocks that `n` records fill. The
/// moves of a run are held to it.
pub fn cost(shape: &Shape, n: u64) -> u128
    ensures { result ≡ cost shape.now n }
{
    let blocks = blocks_of(shape, n);
    2048 * (blocks as u128 + 1) * (1 + lev(shape, blocks) as u128)
}

/// The number `room`, another room for a run of size `n`. No call keeps to it; laws of
/// `em_tree_cost` do.
pub fn room(shape: &Shape, n: u64) -> u128
    ensures { result ≡ room shape.now n }
{
    let blocks = blocks_of(shape, n);
    96 * (blocks as u128 + 1) + 2 * shape.frames() as u128 * (3 + lev(shape, blocks) as u128)
}
