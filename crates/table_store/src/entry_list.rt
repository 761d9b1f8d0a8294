//! A map as a list of entries in the order of their keys.
ghost use Rattle.std.specs.Prelude.{◌≡◌, ◌+◌, ◌-◌, ◌≤◌, T, Some, None, IsSome, OnOk, slice_get};
ghost use Rattle.std.specs.Option.{option_copied, option_map};
ghost use Rattle.std.specs.FinMap as map;
ghost use Rattle.std.specs.FinMap.{is_sorted};
ghost use Rattle.std.specs.Ordering.{nat_cmp, is_lt, is_le};
ghost use Rattle.std.specs.Cmp.Lexicographic.{slice_cmp};
ghost use Rattle.iv_types.specs.Maps.{entry_at, entry_after, entry_size, map_size};
ghost use Rattle.table_store.specs.Lists.{IsPlace, largest_entry, most_of_list};

use iv_types::{Bytes, NoMemory};
use std::alloc::Global;
use std::marker::Model;
use std::mem;

// How many entries stand before the key.
fn place_at(entries: &[(Bytes, Bytes)], key: &[u8]) -> usize
    requires { T (is_sorted (slice_cmp nat_cmp) entries.now) }
    ensures { IsPlace (λ k. is_lt (slice_cmp nat_cmp k key.now)) entries.now result }
{
    entries.partition_point(|entry| entry.0.as_slice().cmp(&key).is_lt())
}

// How many entries stand at the key or before it.
fn place_after(entries: &[(Bytes, Bytes)], key: &[u8]) -> usize
    requires { T (is_sorted (slice_cmp nat_cmp) entries.now) }
    ensures { IsPlace (λ k. is_le (slice_cmp nat_cmp k key.now)) entries.now result }
{
    entries.partition_point(|entry| entry.0.as_slice().cmp(&key).is_le())
}

// The entry at a place, if there is one.
fn entry(entries: &[(Bytes, Bytes)], at: usize) -> Option<(&[u8], &[u8])>
    ensures { option_map (λ e. (e.0.now, e.1.now)) result ≡ slice_get entries.now at }
{
    match entries.get(at) {
        Some((key, value)) => Some((key.as_slice(), value.as_slice())),
        None => None,
    }
}

/// A map as a list of keys and values in the order of the keys, with room for further ones.
#[derive(Drop)]
pub struct EntryList {
    entries: Vec<(Bytes, Bytes)>,
}

impl Model for EntryList {
    ghost use Rattle.std.specs.Prelude.{◌-◌};
    ghost use Rattle.std.specs.FinMap.{from_sorted};
    ghost use Rattle.table_store.specs.Lists.{Listed, coded_listed, IsKept};
    ghost use Rattle.std.specs.Vec.{vec_len, vec_capacity};

    ghost Value = { Listed };

    ghost coded = { coded_listed };

    ghost view = { λ l. record { map = from_sorted l.entries.items; spare = vec_capacity l.entries - vec_len l.entries } };

    ghost invariant = { λ l. IsKept l.entries.items };
}

impl EntryList {
    /// A list without entries, which takes no memory.
    pub fn new(alloc: Global) -> EntryList
        ensures { result.map ≡ map.empty }
    {
        EntryList {
            entries: Vec::new(alloc),
        }
    }

    /// Makes room for that many entries more. An `Err` takes no room away.
    ///
    /// # Errors
    ///
    /// Where there is no memory for them.
    pub fn reserve(&mut self, more: usize) -> Result<(), NoMemory>
        ensures room { OnOk result (more ≤ self.new.spare) }
        ensures map { self.new.map ≡ self.old.map }
        ensures spare { self.old.spare ≤ self.new.spare }
    {
        self.entries.reserve(more)?;
        Ok(())
    }

    /// The value under the key.
    pub fn get(&self, key: &[u8]) -> Option<&[u8]>
        ensures { option_copied result ≡ map.get self.now.map key.now }
    {
        match self.first_at(key) {
            Some((found, value)) if found == key => Some(value),
            _ => None,
        }
    }

    /// The first entry at the key or after it.
    pub fn first_at(&self, key: &[u8]) -> Option<(&[u8], &[u8])>
        ensures { option_map (λ e. (e.0.now, e.1.now)) result ≡ entry_at self.now.map key.now }
    {
        entry(&self.entries, place_at(&self.entries, key))
    }

    /// The first entry after the key.
    pub fn first_after(&self, key: &[u8]) -> Option<(&[u8], &[u8])>
        ensures { option_map (λ e. (e.0.now, e.1.now)) result ≡ entry_after self.now.map key.now }
    {
        entry(&self.entries, place_after(&self.entries, key))
    }

    /// Adds an entry under a key that is not there, into room that was made.
    pub fn insert(&mut self, key: Bytes, value: Bytes)
        requires size { entry_size (key, value) ≤ largest_entry }
        requires room { 1 ≤ self.old.spare }
        requires absent { map.get self.old.map key ≡ None }
        ensures entry { self.new.map ≡ map.insert self.old.map key value }
        ensures most { map_size self.new.map ≤ most_of_list }
        ensures spare { self.old.spare ≤ self.new.spare + 1 }
    {
        let _count = self.entries.len();
        let at = place_at(&self.entries, key.as_slice());
        match self.entries.insert(at, (key, value)) {
            Ok(()) => {}
            Err(_) => unreachable!(),
        }
    }

    /// Sets the value under a key that is there, and gives back the value that was there.
    pub fn replace(&mut self, key: &[u8], value: Bytes) -> Bytes
        requires size { entry_size (key.now, value) ≤ largest_entry }
        requires there { IsSome (map.get self.old.map key.now) }
        ensures was { map.get self.old.map key.now ≡ Some result }
        ensures entry { self.new.map ≡ map.insert self.old.map key.now value }
        ensures most { map_size self.new.map ≤ most_of_list }
        ensures spare { self.old.spare ≤ self.new.spare }
    {
        let _count = self.entries.len();
        let at = place_at(&self.entries, key);
        mem::replace(&mut self.entries[at].1, value)
    }

    /// Takes away the entry under a key that is there, and gives back its value.
    pub fn remove(&mut self, key: &[u8]) -> Bytes
        requires { IsSome (map.get self.old.map key.now) }
        ensures was { map.get self.old.map key.now ≡ Some result }
        ensures entry { self.new.map ≡ map.remove self.old.map key.now }
        ensures most { map_size self.new.map ≤ most_of_list }
        ensures spare { self.old.spare + 1 ≤ self.new.spare }
    {
        let _count = self.entries.len();
        let at = place_at(&self.entries, key);
        let (_, value) = self.entries.remove(at);
        value
    }
}
