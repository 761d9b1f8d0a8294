//! The places at which a stored row may be a ghost, so that cleaning looks at no other.
ghost use Rattle.std.specs.Prelude.{◌≡◌, false, true, Some, None, IfSome};
ghost use Rattle.std.specs.FinMap.{get, insert, remove};
ghost use Rattle.table_laws.specs.Place.{Place};
ghost use Rattle.spare_map.specs.Trees.{is_from};
ghost use Rattle.ghost_rows.specs.Candidates.{no_places, IsFirstFrom};

use crate::seats::Seat;
use spare_map::SpareMap;
use std::alloc::Global;
use std::marker::Model;

/// Places, views' numbers and encoded groups, in their order.
#[derive(Drop)]
pub struct Candidates {
    alloc: Global,
    places: SpareMap<()>,
}

impl Model for Candidates {
    ghost use Rattle.ghost_rows.specs.Candidates.{Places, coded_places};

    ghost Value = { Places };

    ghost coded = { coded_places };

    ghost view = { λ c. c.places.entries };
}

impl Candidates {
    /// No places, which take no memory.
    pub fn new(alloc: Global) -> Candidates
        ensures { result ≡ no_places }
    {
        Candidates {
            alloc,
            places: SpareMap::new(),
        }
    }

    /// Adds a place.
    pub fn add(&mut self, seat: Seat)
        ensures { self.new ≡ insert self.old seat tt }
    {
        let Seat { view, group, room } = seat;
        if self.places.get(view, group.as_slice()).is_none() {
            self.places.insert_into(room, view, group, ());
        }
    }

    /// Takes a place away, if it is there.
    pub fn forget(&mut self, view: u32, group: &[u8])
        ensures { self.new ≡ remove self.old (view, group.now) }
    {
        self.places.take(self.alloc, view, group);
    }

    /// The first place at this one or behind it, if there is one.
    pub fn first_at(&self, view: u32, group: &[u8]) -> Option<(u32, &[u8])>
        ensures some { IfSome result (λ place. IsFirstFrom false (view, group.now) self.now (place.0, place.1.now)) }
        ensures none { result ≡ None → (q : Place) → is_from false (view, group.now) q ≡ true → get self.now q ≡ None }
    {
        self.places.first_at(view, group)
    }

    /// The first place behind this one, if there is one.
    pub fn first_after(&self, view: u32, group: &[u8]) -> Option<(u32, &[u8])>
        ensures some { IfSome result (λ place. IsFirstFrom true (view, group.now) self.now (place.0, place.1.now)) }
        ensures none { result ≡ None → (q : Place) → is_from true (view, group.now) q ≡ true → get self.now q ≡ None }
    {
        self.places.first_after(view, group)
    }
}
