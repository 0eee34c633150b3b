//! The strips of a node of a segment tree, and its multislabs.
//!
//! ```text
//! strips of 4:   |  0  |  1  |  2  |  3  |
//! interval:        [---------------]           spans 1: its multislab is that of strip 1 alone,
//!                                              and it goes down into 0 and 2
//! multislabs:    from 0: 4 wide, 3, 2, 1; from 1: 3 wide, 2, 1; from 2: 2 wide, 1; from 3: 1 wide
//! ```
//!
//! A strip is from its first point to its last one, so that neighbours may share a value. All values
//! are of 64 bits, up to 2^64 - 1.
ghost use Rattle.std.specs.Prelude.{◌≡◌, ◌+◌, ◌*◌, ◌<◌, ◌≤◌, ◌-◌, ◌++◌, length, map};
ghost use Rattle.em_segment_model.specs.Pieces.{goes_down, spans};
ghost use Rattle.em_segment_model.specs.Places as places;
ghost use Rattle.em_segment_model.specs.Sizes.{root_of};
ghost use Rattle.em_segment_model.specs.Slabs.{has_strip, slab_first, slab_width, slabs_at, slabs_from};
ghost use Rattle.em_segment_model.specs.Spans.{interval_at, strip_at};

use arrayvec::ArrayVec;

/// The values of a strip's first point and of its last one.
#[derive(Clone, Copy, Debug, Default, PartialEq, Eq)]
pub struct Span {
    /// The value of the first point.
    pub first: u64,
    /// The value of the last point.
    pub last: u64,
}

impl Span {
    /// Whether the interval holds all of the strip.
    pub fn is_held(self, low: u64, high: u64) -> bool
        ensures { result ≡ spans (strip_at self) (interval_at low high) }
    {
        low <= self.first && self.last <= high
    }

    /// Whether the interval goes down into the strip: it holds some of it, and not all.
    pub fn takes(self, low: u64, high: u64) -> bool
        ensures { result ≡ goes_down (strip_at self) (interval_at low high) }
    {
        low <= self.last && self.first <= high && !self.is_held(low, high)
    }
}

/// A multislab: strips that stand side by side.
#[derive(Clone, Copy, Debug, Default, PartialEq, Eq)]
pub struct Slab {
    /// How many strips stand before them.
    pub first: usize,
    /// How many they are.
    pub width: usize,
}

impl Slab {
    /// Whether the strip at this place is one of them.
    pub fn has(self, strip: usize) -> bool
        ensures { result ≡ has_strip self strip }
    {
        self.first <= strip && strip - self.first < self.width
    }
}

/// How many strips a node has at most: the square root of the fan-out, rounded down.
#[tactic(auto, using(crate::proofs::Roots::root_is))]
pub fn strip_count(fan: u64) -> u64
    ensures { result ≡ root_of fan }
{
    fan.isqrt()
}

/// How many multislabs `count` strips have.
pub fn slab_count(count: usize) -> usize
    requires few { count ≤ 16 }
    ensures twice { 2 * result ≡ count * (count + 1) }
    ensures most { result ≤ 136 }
{
    count * (count + 1) / 2
}

/// The multislab of an interval: the strips that it holds. Its width is 0 if it holds none.
pub fn slab_of(strips: &[Span], low: u64, high: u64) -> Slab
    ensures first { result.first ≡ slab_first (map strip_at strips.now) (interval_at low high) }
    ensures width { result.width ≡ slab_width (map strip_at strips.now) (interval_at low high) }
{
    let mut first: usize = 0;
    let mut width: usize = 0;
    for k in 0..strips.len() {
        if strips[k].is_held(low, high) {
            width += 1;
        } else if width == 0 {
            first += 1;
        }
    }
    Slab { first, width }
}

/// The place of a multislab among all multislabs of `count` strips.
#[tactic(auto, using(crate::proofs::Places::place_same))]
pub fn place_of(count: usize, first: usize, width: usize) -> usize
    requires few { count ≤ 16 }
    requires some { 0 < width }
    requires within { first + width ≤ count }
    ensures { result ≡ places.place_of count first width }
{
    let mut place: usize = 0;
    for k in 0..first {
        place += count - k;
    }
    place + (count - first - width)
}

/// All multislabs of `count` strips, in the order of their places.
pub fn slabs_of(count: usize) -> ArrayVec<Slab, 136>
    requires few { count ≤ 16 }
    ensures { result.items ≡ slabs_from 0 count }
{
    let mut slabs = ArrayVec::new();
    for first in 0..count {
        add_slabs(&mut slabs, count, first);
    }
    slabs
}

/// Adds the multislabs that begin with this strip, from the widest down.
fn add_slabs(slabs: &mut ArrayVec<Slab, 136>, count: usize, first: usize)
    requires few { count ≤ 16 }
    requires within { first < count }
    requires room { length slabs.old.items + (count - first) ≤ 136 }
    ensures { slabs.new.items ≡ slabs.old.items ++ slabs_at first (count - first) }
{
    for less in 0..count - first {
        slabs.push(Slab {
            first,
            width: count - first - less,
        });
    }
}
