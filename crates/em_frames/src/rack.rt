ghost use Rattle.std.specs.Prelude.{◌≡◌, ◌<◌, IsTrue, ◌↔◌, length, Some, None, slice_get, slice_set};
ghost use Rattle.em_frames.specs.Rack.{IsHeldAt, IsEmptyAt};

use crate::frame::Frame;
use em_record::Record;
use std::marker::Model;

/// 2f places, each of which can hold a frame. A pool lends it, and it goes back to a pool with all
/// its places empty: it can't be dropped. A frame that stands in it is out.
pub struct Rack {
    pub(crate) places: Vec<Option<Vec<Record>>>,
}

impl Model for Rack {
    ghost use Rattle.std.specs.Prelude.{List, Option};
    ghost use Rattle.em_record.specs.declared.record.Record.{Record};
    ghost use Rattle.em_frames.specs.Rack.{places_of};

    ghost Value = { List (Option (List Record)) };

    ghost view = { λ r. places_of r.places };
}

impl Rack {
    /// The number of the places, 2f of the pool that lent the rack.
    pub fn places(&self) -> usize
        ensures { result ≡ length self.now }
    {
        self.places.len()
    }

    /// Whether the place holds a frame.
    pub fn holds(&self, at: usize) -> bool
        requires { at < length self.now }
        ensures { IsTrue result ↔ IsHeldAt self.now at }
    {
        self.places[at].is_some()
    }

    /// Puts a frame into an empty place.
    pub fn put(&mut self, at: usize, frame: Frame)
        requires { IsEmptyAt self.old at }
        ensures { self.new ≡ slice_set self.old at (Some frame) }
    {
        let Frame { records } = frame;
        self.places[at] = Some(records);
    }

    /// Takes the frame out of its place.
    pub fn take(&mut self, at: usize) -> Frame
        requires { IsHeldAt self.old at }
        ensures frame { slice_get self.old at ≡ Some (Some result) }
        ensures places { self.new ≡ slice_set self.old at None }
    {
        let Some(records) = self.places[at].take() else {
            unreachable!()
        };
        Frame { records }
    }

    /// The records of the frame in a place, B of them.
    pub fn records(&self, at: usize) -> &[Record]
        requires { IsHeldAt self.now at }
        ensures { slice_get self.now at ≡ Some (Some result.now) }
    {
        match &self.places[at] {
            Some(records) => records.as_slice(),
            None => unreachable!(),
        }
    }
}
