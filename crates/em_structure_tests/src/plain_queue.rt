//! A plain sorted list of items, beside which a queue gets calls.

use crate::map_scripts::record;
use crate::plain_map::found_at;
use crate::queues::{DRAIN, POP};
use em_record::Record;
use std::alloc::Global;

/// Items in ascending order, the ones before `first` being popped.
#[derive(Drop)]
struct Plain {
    records: Vec<Record>,
    first: usize,
}

impl Plain {
    /// Adds an item in its place. Whether there was memory, and no equal item.
    fn push(&mut self, item: Record) -> bool {
        let first = self.first.min(self.records.len());
        match self.records[first..].binary_search(&item) {
            Ok(_) => false,
            Err(place) => self.records.insert(first + place, item).is_ok(),
        }
    }

    /// Takes the least item out, if there is one.
    fn pop(&mut self) -> Option<Record> {
        let item = self.records.get(self.first).copied()?;
        self.first = self.first.saturating_add(1);
        Some(item)
    }
}

/// Whether a queue answered its calls as a plain list does. After each pop that leaves no item two blocks are in use.
pub fn agrees(alloc: Global, calls: &[Record], found: &[Record]) -> bool {
    let mut plain = Plain {
        records: Vec::new(alloc),
        first: 0,
    };
    let mut at = 0usize;
    for call in calls {
        if *call == POP {
            if found_at(found, at) != plain.pop().unwrap_or(POP) {
                return false;
            }
            at = at.saturating_add(1);
            if plain.first >= plain.records.len() {
                if found_at(found, at) != record(2, 0, 0, 0) {
                    return false;
                }
                at = at.saturating_add(1);
            }
        } else if *call == DRAIN {
            for _ in plain.first..plain.records.len() {
                if Some(found_at(found, at)) != plain.pop() {
                    return false;
                }
                at = at.saturating_add(1);
            }
        } else if !plain.push(*call) {
            return false;
        }
    }
    at == found.len()
}
