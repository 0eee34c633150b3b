//! A heap in an area, and a run: records in order, which a refill brought.
//!
//! ```text
//! area:  | heap: the least record first, the others in a heap's order | any | run, in order |
//!        0                                                          top    capacity - run   capacity
//! ```
//!
//! A pop takes the lesser of the heap's first record and the run's, so that what a refill brought is taken
//! with no work on the heap. Kept here: heap and run are what they are (`IsStock`). Left to others: what
//! stands between them. After `upper_half` these are the records that it took out, in order.
ghost use Rattle.std.specs.Prelude.{◌≡◌, ◌+◌, ◌-◌, ◌/◌, ◌<◌, ◌≤◌, [], ◌++◌, length, take, drop, slice_get, IfNone, IfSome, option_to_list};
ghost use Rattle.std.specs.Borrow.{sem};
ghost use Rattle.em_record.specs.Order.{with_record, IsAscending};

use crate::stock;
use em_frames::Area;
use em_record::Record;
use std::marker::Model;

/// A heap of records in an area. It can't be dropped: its area goes back to a pool.
pub struct Heap {
    area: Area,
    top: usize,
    run: usize,
}

impl Model for Heap {
    ghost use Rattle.std.specs.Prelude.{◌+◌, length};
    ghost use Rattle.em_heap.specs.State.{HeapState};
    ghost use Rattle.em_heap.specs.Stock.{IsStock, between, stock_items};

    ghost Value = { HeapState };

    ghost view = { λ h. record {
      items = stock_items h.area h.top h.run;
      len = h.top + h.run;
      capacity = length h.area;
      behind = between h.area h.top h.run;
    } };

    ghost invariant = { λ h. IsStock h.area h.top h.run };
}

impl Heap {
    ghost use Rattle.em_heap.specs.Lending.{LendsArea};

    /// A heap of no records.
    pub fn new(area: Area) -> Heap
        ensures { result ≡ record { items = []; len = 0; capacity = length area; behind = area } }
    {
        Heap {
            area,
            top: 0,
            run: 0,
        }
    }

    /// The number of its records. A heap of n records is their list in order.
    pub fn len(&self) -> usize
        ensures value { result ≡ self.now.len }
        ensures items { result ≡ length self.now.items }
        ensures within { result ≤ self.now.capacity }
        ensures ascends { IsAscending self.now.items }
    {
        stock::count(self.area.records(), self.top, self.run)
    }

    /// The number of records that the area has room for.
    pub fn capacity(&self) -> usize
        ensures { result ≡ self.now.capacity }
    {
        self.area.records().len()
    }

    /// Adds a record.
    pub fn push(&mut self, item: Record)
        requires room { self.old.len < self.old.capacity }
        ensures { self.new ≡ record self.old {
          items = with_record item self.old.items;
          len = self.old.len + 1;
          behind = self.new.behind;
        } }
    {
        stock::push(self.area.records_mut(), self.top, self.run, item);
        self.top += 1;
    }

    /// The least of its records, or `None` if it has none.
    pub fn peek(&self) -> Option<Record>
        ensures first { result ≡ slice_get self.now.items 0 }
        ensures none { IfNone result (self.now.len ≡ 0) }
        ensures some { IfSome result (λ _. 0 < self.now.len) }
    {
        if self.len() == 0 {
            return None;
        }
        Some(stock::peek(self.area.records(), self.top, self.run))
    }

    /// Takes the least of its records, or answers `None` if it has none.
    pub fn pop(&mut self) -> Option<Record>
        ensures first { result ≡ slice_get self.old.items 0 }
        ensures none { IfNone result (self.old.len ≡ 0) }
        ensures some { IfSome result (λ _. 0 < self.old.len) }
        ensures items { self.old.items ≡ option_to_list result ++ self.new.items }
        ensures len { self.new.len ≡ self.old.len - 1 }
        ensures capacity { self.new.capacity ≡ self.old.capacity }
    {
        if self.len() == 0 {
            return None;
        }
        if stock::run_leads(self.area.records(), self.top, self.run) {
            let least = stock::first_of_run(self.area.records(), self.top, self.run);
            self.run -= 1;
            return Some(least);
        }
        let least = stock::pop(self.area.records_mut(), self.top, self.run);
        self.top -= 1;
        Some(least)
    }

    /// Keeps the least half of its records, rounded up, and answers the number of the others. These
    /// stand after it in order, as `behind` gives them.
    pub fn upper_half(&mut self) -> usize
        ensures items { self.old.items ≡ self.new.items ++ take result self.new.behind }
        ensures count { result ≡ self.old.len / 2 }
        ensures len { self.new.len ≡ self.old.len - result }
        ensures room { self.new.len + result ≤ self.new.capacity }
        ensures capacity { self.new.capacity ≡ self.old.capacity }
    {
        let len = self.len();
        let keep = stock::halve(self.area.records_mut(), self.top, self.run);
        self.top = keep;
        self.run = 0;
        len - keep
    }

    /// The first `count` records after the heap.
    pub fn behind(&self, count: usize) -> &[Record]
        requires room { self.now.len + count ≤ self.now.capacity }
        ensures items { result.now ≡ take count self.now.behind }
        ensures len { length result.now ≡ count }
    {
        &self.area.records()[self.top..self.top + count]
    }

    /// The area of a heap with no record, to be written. What is written stands after the heap (`behind`),
    /// until `refill` takes records from it.
    pub fn empty_area(&mut self) -> &mut Area
        requires empty { self.old.len ≡ 0 }
        ensures* writes_back { sem 𝓛 (LendsArea self.entry result) }
        ensures value { result.now ≡ self.old.behind }
        ensures len { length result.now ≡ self.old.capacity }
    {
        &mut self.area
    }

    /// Has a heap with no record take the first `len` of those after it, which stand in order.
    pub fn refill(&mut self, len: usize)
        requires empty { self.old.len ≡ 0 }
        requires within { len ≤ self.old.capacity }
        requires ascending { IsAscending (take len self.old.behind) }
        ensures { self.new ≡ record self.old {
          items = take len self.old.behind;
          len = len;
          behind = drop len self.old.behind;
        } }
    {
        self.area.records_mut().rotate_left(len);
        self.run = len;
    }

    /// Gives its area back.
    pub fn into_area(self) -> Area
        ensures { length result ≡ self.capacity }
    {
        let Heap {
            area,
            top: _,
            run: _,
        } = self;
        area
    }
}
