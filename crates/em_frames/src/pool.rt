ghost use Rattle.std.specs.Prelude.{◌≡◌, ◌<◌, ◌≤◌, ◌+◌, ◌-◌, ◌*◌, true, false, length, IfOk, vec_len, vec_capacity};
ghost use Rattle.std.specs.List.{All};
ghost use Rattle.em_record.specs.Shape.{wide_of};
ghost use Rattle.em_frames.specs.Pool.{singles_of, load_of, places_in, fresh_pool, lent, given, lent_area, given_area, lent_rack, given_rack, IsWhole};
ghost use Rattle.em_frames.specs.Rack.{places_of, empty_rack};

use crate::area::Area;
use crate::frame::Frame;
use crate::rack::Rack;
use em_record::{NoMemory, Record, Shape};
use std::alloc::{AllocError, Global};
use std::marker::Model;

/// The memory of a run: m frames, of which 3f are lent singly and the others as two areas of w
/// frames each, and a rack of 2f places for single frames. It can't be dropped: `end` takes it
/// where all is back.
pub struct Pool {
    shape: Shape,
    singles: Vec<Vec<Record>>,
    areas: Vec<Vec<Record>>,
    rack: Option<Vec<Option<Vec<Record>>>>,
    peak: u32,
}

impl Model for Pool {
    ghost use Rattle.em_frames.specs.Pool.{PoolCounts, IsFilled};
    ghost use Rattle.std.specs.Prelude.{vec_len, is_none};

    ghost Value = { PoolCounts };

    ghost view = { λ p. record {
      shape = p.shape;
      free = vec_len p.singles;
      free_areas = vec_len p.areas;
      rack_out = is_none p.rack;
      peak = p.peak;
    } };

    ghost invariant = { λ p. IsFilled p.shape p.singles p.areas p.rack p.peak };
}

impl Pool {
    /// The shape by which the pool was made.
    pub fn shape(&self) -> Shape
        ensures { result ≡ self.now.shape }
    {
        self.shape
    }

    /// The single frames that are free.
    pub fn free(&self) -> u32
        ensures value { result ≡ self.now.free }
        ensures most { result ≤ singles_of self.now.shape }
    {
        let _ = self.shape.fan();
        self.singles.len() as u32
    }

    /// The areas that are free.
    pub fn free_areas(&self) -> u32
        ensures value { result ≡ self.now.free_areas }
        ensures most { result ≤ 2 }
    {
        self.areas.len() as u32
    }

    /// The greatest number of frames that were out at once, an area counting as w.
    pub fn peak(&self) -> u32
        ensures value { result ≡ self.now.peak }
        ensures most { result ≤ self.now.shape.frames }
    {
        self.peak
    }

    /// Lends a single frame, with any records.
    pub fn lend(&mut self) -> Frame
        requires { 0 < self.old.free }
        ensures len { length result ≡ self.old.shape.block }
        ensures most { self.old.free ≤ singles_of self.old.shape }
        ensures pool { self.new ≡ lent self.old }
    {
        let Some(records) = self.singles.pop() else {
            unreachable!()
        };
        let out = out_now(&self.shape, self.singles.len(), self.areas.len());
        self.peak = self.peak.max(out);
        Frame { records }
    }

    /// Takes a single frame back.
    pub fn give(&mut self, frame: Frame)
        requires len { length frame ≡ self.old.shape.block }
        requires out { self.old.free < singles_of self.old.shape }
        ensures pool { self.new ≡ given self.old }
    {
        let Frame { records } = frame;
        self.singles.push_reserved(records);
    }

    /// Lends an area, with any records.
    pub fn lend_area(&mut self) -> Area
        requires { 0 < self.old.free_areas }
        ensures len { length result ≡ load_of self.old.shape }
        ensures most { self.old.free_areas ≤ 2 }
        ensures pool { self.new ≡ lent_area self.old }
    {
        let Some(records) = self.areas.pop() else {
            unreachable!()
        };
        let out = out_now(&self.shape, self.singles.len(), self.areas.len());
        self.peak = self.peak.max(out);
        Area { records }
    }

    /// Takes an area back.
    pub fn give_area(&mut self, area: Area)
        requires len { length area ≡ load_of self.old.shape }
        requires out { self.old.free_areas < 2 }
        ensures pool { self.new ≡ given_area self.old }
    {
        let Area { records } = area;
        self.areas.push_reserved(records);
    }

    /// Lends the rack, with all its places empty.
    pub fn lend_rack(&mut self) -> Rack
        requires { self.old.rack_out ≡ false }
        ensures rack { result ≡ empty_rack (places_in self.old.shape) }
        ensures pool { self.new ≡ lent_rack self.old }
    {
        let Some(places) = self.rack.take() else {
            unreachable!()
        };
        Rack { places }
    }

    /// Takes the rack back, of which all places are empty.
    pub fn give_rack(&mut self, rack: Rack)
        requires empty { rack ≡ empty_rack (places_in self.old.shape) }
        requires out { self.old.rack_out ≡ true }
        ensures pool { self.new ≡ given_rack self.old }
    {
        let Rack { places } = rack;
        self.rack = Some(places);
    }

    /// Gives the memory up. All that was lent is back.
    pub fn end(self)
        requires { IsWhole self }
    {
        let Pool {
            shape: _,
            singles: _,
            areas: _,
            rack: _,
            peak: _,
        } = self;
    }
}

/// The frames that are out where this many single frames and areas are free.
fn out_now(shape: &Shape, free: usize, areas: usize) -> u32
    requires free { free ≤ singles_of shape.now }
    requires areas { areas ≤ 2 }
    ensures value { result ≡ (singles_of shape.now - free) + wide_of shape.now * (2 - areas) }
    ensures most { result ≤ shape.now.frames }
{
    (3 * shape.fan() as usize - free) as u32 + shape.wide() as u32 * (2 - areas) as u32
}

/// The one thing by which a run takes memory.
#[derive(Drop)]
pub struct Grant {
    alloc: Global,
}

impl Grant {
    /// A grant that isn't used yet. It takes no memory.
    pub fn new(alloc: Global) -> Grant {
        Grant { alloc }
    }

    /// Makes all frames of a shape. `NoMemory` hands nothing back.
    pub fn pool(self, shape: Shape) -> Result<Pool, NoMemory>
        ensures { IfOk result (λ p. p ≡ fresh_pool shape) }
    {
        let Grant { alloc } = self;
        make_pool(alloc, shape).map_err(|_| NoMemory)
    }
}

fn make_pool(alloc: Global, shape: Shape) -> Result<Pool, AllocError>
    ensures { IfOk result (λ p. p ≡ fresh_pool shape) }
{
    let block = shape.block() as usize;
    let singles = frames_of(alloc, 3 * shape.fan() as usize, block)?;
    let areas = frames_of(alloc, 2, shape.wide() as usize * block)?;
    let places = empty_places(alloc, 2 * shape.fan() as usize)?;
    Ok(Pool {
        shape,
        singles,
        areas,
        rack: Some(places),
        peak: 0,
    })
}

/// This many lists of `len` zero records, in a list that has room for all.
fn frames_of(alloc: Global, count: usize, len: usize) -> Result<Vec<Vec<Record>>, AllocError>
    ensures count { IfOk result (λ v. vec_len v ≡ count) }
    ensures room { IfOk result (λ v. count ≤ vec_capacity v) }
    ensures frames { IfOk result (λ v. All (λ x. vec_len x ≡ len) v.items) }
{
    let mut all = Vec::with_capacity(alloc, count)?;
    for _ in 0..count {
        let records = vec![in alloc; Record::ZERO; len]?;
        all.push_reserved(records);
    }
    Ok(all)
}

/// This many empty places of a rack.
fn empty_places(alloc: Global, count: usize) -> Result<Vec<Option<Vec<Record>>>, AllocError>
    ensures { IfOk result (λ v. places_of v ≡ empty_rack count) }
{
    let mut places = Vec::with_capacity(alloc, count)?;
    for _ in 0..count {
        places.push_reserved(None);
    }
    Ok(places)
}
