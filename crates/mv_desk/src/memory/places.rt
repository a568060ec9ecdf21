// The places of all slots.
ghost use Rattle.std.specs.Prelude.{◌≡◌};
ghost use Rattle.mv_desk.specs.Memory.{fresh_places, place_at, with_place};
ghost use Rattle.mv_desk.specs.declared.memory.place.Place.TheVariants.{Closed};

use super::bytes::Bytes;
use super::place::Place;
use crate::Slot;
use std::alloc::Global;
use std::mem;

/// The place of each slot.
#[derive(Drop)]
pub struct Places {
    pub graph: Place,
    pub other: Place,
    pub clauses: Place,
    pub algebra: Place,
    pub report: Place,
}

impl Places {
    /// Nothing is open but the report.
    pub fn new(alloc: Global) -> Places
        ensures { result ≡ fresh_places }
    {
        Places {
            graph: Place::Closed,
            other: Place::Closed,
            clauses: Place::Closed,
            algebra: Place::Closed,
            report: Place::Printing {
                written: Bytes::new(alloc),
            },
        }
    }

    pub fn put(&mut self, slot: Slot, place: Place)
        ensures { self.new ≡ with_place self.old slot place }
    {
        match slot {
            Slot::Graph => self.graph = place,
            Slot::Other => self.other = place,
            Slot::Clauses => self.clauses = place,
            Slot::Algebra => self.algebra = place,
            Slot::Report => self.report = place,
        }
    }

    /// Takes a place out, to be put again.
    pub fn take(&mut self, slot: Slot) -> Place
        ensures taken { result ≡ place_at self.old slot }
        ensures closed { self.new ≡ with_place self.old slot Closed }
    {
        match slot {
            Slot::Graph => mem::replace(&mut self.graph, Place::Closed),
            Slot::Other => mem::replace(&mut self.other, Place::Closed),
            Slot::Clauses => mem::replace(&mut self.clauses, Place::Closed),
            Slot::Algebra => mem::replace(&mut self.algebra, Place::Closed),
            Slot::Report => mem::replace(&mut self.report, Place::Closed),
        }
    }

    pub fn at(&self, slot: Slot) -> &Place
        ensures { result.now ≡ place_at self.now slot }
    {
        match slot {
            Slot::Graph => &self.graph,
            Slot::Other => &self.other,
            Slot::Clauses => &self.clauses,
            Slot::Algebra => &self.algebra,
            Slot::Report => &self.report,
        }
    }
}
