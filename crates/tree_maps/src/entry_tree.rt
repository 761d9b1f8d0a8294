//! A map as a balanced tree of entries.
ghost use Rattle.std.specs.Prelude.{◌≡◌, ◌+◌, ◌≤◌, Some, None, IsSome, OnOk};
ghost use Rattle.std.specs.Option.{option_copied, option_map};
ghost use Rattle.std.specs.FinMap as map;
ghost use Rattle.iv_types.specs.Maps.{entry_at, entry_after, entry_size, map_size};
ghost use Rattle.table_store.specs.Lists.{largest_entry, most_of_list};

use iv_types::{Bytes, NoMemory};
use spare_map::SpareMap;
use std::alloc::Global;
use std::marker::Model;

// The number of each entry's place.
const NUMBER: u32 = 0;

/// A map as a balanced tree of values under keys, with room for further ones.
#[derive(Drop)]
pub struct EntryTree {
    // The values, each under the place of its key.
    tree: SpareMap<Bytes>,
    // One for each entry, which takes no memory: so their number, like a length, fits a machine word.
    count: Vec<()>,
}

impl Model for EntryTree {
    ghost use Rattle.std.specs.Prelude.{◌-◌, min};
    ghost use Rattle.std.specs.Vec.{vec_len, vec_capacity};
    ghost use Rattle.table_store.specs.Lists.{Listed, coded_listed};
    ghost use Rattle.tree_maps.specs.Keyed.{map_of, AreOwn};

    ghost Value = { Listed };

    ghost coded = { coded_listed };

    ghost view = { λ t. record { map = map_of t.tree.entries; spare = min t.tree.room (vec_capacity t.count - vec_len t.count) } };

    ghost invariant = { λ t. AreOwn t.tree.entries (vec_len t.count) };
}

impl EntryTree {
    /// A tree without entries, which takes no memory.
    pub fn new(alloc: Global) -> EntryTree
        ensures { result.map ≡ map.empty }
    {
        EntryTree {
            tree: SpareMap::new(),
            count: Vec::new(alloc),
        }
    }

    /// Makes room for that many entries more. An `Err` takes no room away.
    ///
    /// # Errors
    ///
    /// Where there is no memory for them.
    pub fn reserve(&mut self, alloc: Global, more: usize) -> Result<(), NoMemory>
        ensures room { OnOk result (more ≤ self.new.spare) }
        ensures map { self.new.map ≡ self.old.map }
        ensures spare { self.old.spare ≤ self.new.spare }
    {
        self.count.reserve(more)?;
        self.tree.reserve(alloc, more)
    }

    /// The value under the key.
    pub fn get(&self, key: &[u8]) -> Option<&[u8]>
        ensures { option_copied result ≡ map.get self.now.map key.now }
    {
        match self.tree.get(NUMBER, key) {
            Some(value) => Some(value.as_slice()),
            None => None,
        }
    }

    /// The first entry at the key or after it.
    pub fn first_at(&self, key: &[u8]) -> Option<(&[u8], &[u8])>
        ensures { option_map (λ e. (e.0.now, e.1.now)) result ≡ entry_at self.now.map key.now }
    {
        let (number, found) = self.tree.first_at(NUMBER, key)?;
        let value = self.tree.get(number, found)?;
        Some((found, value.as_slice()))
    }

    /// The first entry after the key.
    pub fn first_after(&self, key: &[u8]) -> Option<(&[u8], &[u8])>
        ensures { option_map (λ e. (e.0.now, e.1.now)) result ≡ entry_after self.now.map key.now }
    {
        let (number, found) = self.tree.first_after(NUMBER, key)?;
        let value = self.tree.get(number, found)?;
        Some((found, value.as_slice()))
    }

    /// Adds an entry under a key that is not there, into room that was made.
    pub fn insert(&mut self, key: Bytes, value: Bytes)
        requires size { entry_size (key, value) ≤ largest_entry }
        requires room { 1 ≤ self.old.spare }
        requires absent { map.get self.old.map key ≡ None }
        ensures entry { self.new.map ≡ map.insert self.old.map key value }
        ensures most { map_size self.new.map ≤ most_of_list }
        ensures spare { self.old.spare ≤ self.new.spare + 1 }
    {
        match self.count.push(()) {
            Ok(()) => {}
            Err(_) => unreachable!(),
        }
        self.tree.insert(NUMBER, key, value);
    }

    /// Sets the value under a key that is there, and gives back the value that was there.
    pub fn replace(&mut self, key: &[u8], value: Bytes) -> Bytes
        requires size { entry_size (key.now, value) ≤ largest_entry }
        requires there { IsSome (map.get self.old.map key.now) }
        ensures was { map.get self.old.map key.now ≡ Some result }
        ensures entry { self.new.map ≡ map.insert self.old.map key.now value }
        ensures most { map_size self.new.map ≤ most_of_list }
        ensures spare { self.old.spare ≤ self.new.spare }
    {
        self.tree.replace(NUMBER, key, value)
    }

    /// Takes away the entry under a key that is there, and gives back its value.
    pub fn remove(&mut self, alloc: Global, key: &[u8]) -> Bytes
        requires { IsSome (map.get self.old.map key.now) }
        ensures was { map.get self.old.map key.now ≡ Some result }
        ensures entry { self.new.map ≡ map.remove self.old.map key.now }
        ensures most { map_size self.new.map ≤ most_of_list }
        ensures spare { self.old.spare + 1 ≤ self.new.spare }
    {
        let _ = self.count.pop();
        match self.tree.remove(alloc, NUMBER, key) {
            Some(value) => value,
            None => unreachable!(),
        }
    }
}
