//! Sorted maps over pages.
ghost use Rattle.std.specs.Prelude.{◌≡◌, ◌≢◌, ℕ, ◌+◌, ◌-◌, ◌*◌, ◌^◌, ◌<◌, ◌≤◌, min, Bool, OnOk, IsOk, List, [], length, replicate, set, true, false, IfOk, Some, None, IsSome, IsTrue, ◌↔◌};
ghost use Rattle.std.specs.FinMap as map;
ghost use Rattle.iv_types.specs.Maps.{CanHold, IsWithin, last_index, used, with_map};
ghost use Rattle.disk_io.specs.Disk.{Only, LeavesOnly, CountsFault};
ghost use Rattle.page_store.specs.Image.{live};
ghost use Rattle.page_store.specs.Publish.{area_room, next_number, OtherArea, IsFirstBlock, LiveFits, IsNew, OldOrNew, KeepsUnchanged};
ghost use Rattle.ordered_index.specs.Calls.{CanPut};
ghost use Rattle.ordered_index.specs.Drawn.{IsDrawn};
ghost use Rattle.ordered_index.specs.Row.{least_pages, most_pages};
ghost use Rattle.ordered_index.specs.Flat.{Place, Item, IsPut, IsSwapped};
ghost use Rattle.ordered_index.specs.Tree.{Tree, IsTree, map_of, spare_of, limit_of, data_limit};

use crate::changing::{insert_and_settle, remove_and_settle, replace_value};
use crate::finding::{first_from, value_of};
use crate::leaves::Leaves;
use disk_io::Disk;
use iv_types::{Bytes, DiskFault, NoMemory, SortedMaps};
use page_store::HeaderFacts;
use slot_page::PAGE;
use std::alloc::Global;
use std::marker::Model;

// The indexes 0 to 192.
const INDEXES: usize = 193;

/// Sorted maps over one fixed array of pages, which `new` makes: no other call takes memory. What all entries count is at
/// most 1,200 for each page but 256, and within that limit no page is ever lacking. A search takes a time that grows with
/// the logarithm of the number of entries, and so does a change but for the moving of page numbers, 4 bytes for each page,
/// where a leaf is cut or joined.
#[derive(Drop)]
pub struct PageMaps {
    leaves: Leaves,
    /// Whether each index is stored.
    kept: Vec<bool>,
    /// What all entries count.
    used: u64,
    /// A copy of the page that is changed.
    buffer: Vec<u8>,
}

impl Model for PageMaps {
    ghost use Rattle.ordered_index.specs.Tree.{Tree};

    ghost Value = { Tree };

    ghost use Rattle.ordered_index.specs.Good.{tree_of, IsGood};

    ghost view = { tree_of };

    ghost invariant = { IsGood };
}

impl PageMaps {
    /// Maps without entries over so many pages, from 512 to 131,072, with all the memory that they will take. No index is
    /// stored.
    ///
    /// # Errors
    ///
    /// Where there is no memory for the pages.
    pub fn new(alloc: Global, pages: u32) -> Result<PageMaps, NoMemory>
        requires some { least_pages ≤ pages }
        requires few { pages ≤ most_pages }
        ensures pages { IfOk result (λ m. m.pages ≡ pages) }
        ensures empty { IfOk result (λ m. (index : ℕ) → map_of m index ≡ map.empty) }
        ensures kept { IfOk result (λ m. m.kept ≡ replicate (last_index + 1) false) }
    {
        let leaves = Leaves::new(alloc, pages)?;
        let kept = vec![in alloc; false; INDEXES]?;
        let buffer = vec![in alloc; 0u8; PAGE]?;
        Ok(PageMaps {
            leaves,
            kept,
            used: 0,
            buffer,
        })
    }

    /// How many bytes more all entries may count.
    pub fn room(&self) -> u64
        ensures { used (map_of self.now) + result ≡ data_limit self.now.pages }
    {
        (self.leaves.pages() as u64 - 256) * 1200 - self.used
    }

    /// Whether an entry can be put under a key: its sizes are such as maps hold, and all entries are within the limit then.
    pub fn can_put(&self, index: u32, key: &[u8], value: &[u8]) -> bool
        ensures { IsTrue result ↔ CanPut index key.now value.now (map_of self.now) (limit_of self.now) }
    {
        if index > 192 || key.len() > 1024 || value.len() > 2048 {
            return false;
        }
        let size = key.len() as u64 + value.len() as u64 + 8;
        match value_of(&self.leaves, index, key) {
            Some(old) => size <= self.room() + (key.len() as u64 + old.len() as u64 + 8),
            None => size <= self.room(),
        }
    }

    /// Says whether an index is stored, so that a publish writes its entries. A new one is not.
    pub fn set_stored(&mut self, index: u32, stored: bool)
        requires { index ≤ last_index }
        ensures set { self.new ≡ record self.old { kept = set self.old.kept index stored } }
        ensures indexes { length self.old.kept ≡ last_index + 1 }
    {
        self.kept[index as usize] = stored;
    }

    /// Publishes the entries of the stored indexes, the facts and the first block of a log area, as `PageStore::publish`
    /// does: a crash at any moment leaves the old image or the new one, whose stored pages hold just these entries. Each
    /// stored page is compared with the slot that the live header names, and is written only where it differs. It takes no
    /// memory.
    ///
    /// # Errors
    ///
    /// Exactly where the disk's count of faults rises.
    pub fn publish<D: Disk>(
        &mut self,
        disk: &mut D,
        facts: &HeaderFacts,
        first_block: &[u8],
    ) -> Result<(), DiskFault>
        requires number { D.is_told → facts.now.number ≡ next_number (live (D.seen disk.old)) (D.seen disk.old) }
        requires area { facts.now.area ≤ 1 }
        requires other_area { D.is_told → OtherArea facts.now.area (D.seen disk.old) }
        requires block { IsFirstBlock first_block.now }
        requires block_fits { length first_block.now ≤ area_room (D.size_of disk.old) self.old.pages }
        requires disk_size { 278528 + 2 * area_room (D.size_of disk.old) self.old.pages + 16384 * self.old.pages ≡ D.size_of disk.old }
        requires least_area { 65536 ≤ area_room (D.size_of disk.old) self.old.pages }
        requires most_area { area_room (D.size_of disk.old) self.old.pages ≤ 268435456 }
        requires live_fits { D.is_told → LiveFits (D.size_of disk.old) self.old.pages (D.seen disk.old) }
        ensures image { (flags : List Bool) × (bytes : List ℕ) × IsDrawn self.old flags bytes
            × (D.is_told → OnOk result (IsNew (area_room (D.size_of disk.old) self.old.pages) facts.now first_block.now flags bytes (D.seen disk.new)))
            × (D.is_told → Only (D.seen disk.old) (D.may_leave disk.old)
            → LeavesOnly D.moment D.left_since disk.old disk.new (OldOrNew (area_room (D.size_of disk.old) self.old.pages) facts.now first_block.now flags bytes (D.seen disk.old)))
            × (D.is_told → OnOk result (KeepsUnchanged (area_room (D.size_of disk.old) self.old.pages) flags bytes (D.seen disk.old) (D.seen disk.new))) }
        ensures maps { self.new ≡ self.old }
        ensures durable { D.is_told → OnOk result (Only (D.seen disk.new) (D.may_leave disk.new)) }
        ensures number_after { D.is_told → OnOk result (next_number (live (D.seen disk.new)) (D.seen disk.new) ≡ facts.now.number + 1) }
        ensures area_after { D.is_told → OnOk result ((area : ℕ) → area ≢ facts.now.area → OtherArea area (D.seen disk.new)) }
        ensures fits_after { D.is_told → OnOk result (LiveFits (D.size_of disk.new) self.new.pages (D.seen disk.new)) }
        ensures size { D.size_of disk.new ≡ D.size_of disk.old }
        ensures cause { CountsFault result (D.faults disk.old) (D.faults disk.new) }
    {
        self.leaves.publish(&self.kept, disk, facts, first_block)
    }

    // Adds an entry.
    fn put(&mut self, index: u32, key: &[u8], value: &[u8])
        requires held { CanHold index key.now value.now }
        requires absent { map.get (map_of self.old index) key.now ≡ None }
        requires within { IsWithin (limit_of self.old) (used (with_map (map_of self.old) index (map.insert (map_of self.old index) key.now value.now))) }
        ensures pages { self.new.pages ≡ self.old.pages }
        ensures kept { self.new.kept ≡ self.old.kept }
        ensures all { IsPut (index, key.now) value.now self.old.all self.new.all }
        ensures was { IsTree self.old }
        ensures is { IsTree self.new }
    {
        let size = key.len() as u64 + value.len() as u64 + 8;
        insert_and_settle(&mut self.leaves, &mut self.buffer, index, key, value);
        self.used += size;
    }

    // Sets the value under a key in its place, where the old one has as many bytes, and tells whether it has.
    fn set_in_place(&mut self, index: u32, key: &[u8], value: &[u8]) -> bool
        requires { IsSome (map.get (map_of self.old index) key.now) }
        ensures pages { self.new.pages ≡ self.old.pages }
        ensures kept { self.new.kept ≡ self.old.kept }
        ensures all { result ≡ true → IsSwapped (index, key.now) value.now self.old.all self.new.all }
        ensures same { result ≡ false → self.new ≡ self.old }
        ensures was { IsTree self.old }
        ensures is { IsTree self.new }
    {
        replace_value(&mut self.leaves, index, key, value)
    }

    // Takes an entry away.
    fn take(&mut self, index: u32, key: &[u8])
        requires { IsSome (map.get (map_of self.old index) key.now) }
        ensures pages { self.new.pages ≡ self.old.pages }
        ensures kept { self.new.kept ≡ self.old.kept }
        ensures all { (value : List ℕ) × IsPut (index, key.now) value self.new.all self.old.all }
        ensures was { IsTree self.old }
        ensures is { IsTree self.new }
    {
        let bytes = remove_and_settle(&mut self.leaves, &mut self.buffer, index, key);
        self.used -= key.len() as u64 + bytes as u64 + 8;
    }
}

impl SortedMaps for PageMaps {
    ghost maps = { map_of };

    ghost spare = { spare_of };

    ghost limit = { limit_of };

    /// Does nothing: there is always room for an entry that is within the limit.
    fn reserve(&mut self, index: u32, more: u32) -> Result<(), NoMemory>
        ensures done { IsOk result }
        ensures same { self.new ≡ self.old }
        ensures room { OnOk result (more ≤ spare_of self.new index) }
        ensures maps { (i : ℕ) → map_of self.new i ≡ map_of self.old i }
        ensures spare { (i : ℕ) → spare_of self.old i ≤ spare_of self.new i }
        ensures limit { limit_of self.new ≡ limit_of self.old }
    {
        Ok(())
    }

    fn get(&self, index: u32, key: &[u8]) -> Option<&[u8]> {
        value_of(&self.leaves, index, key)
    }

    fn first_at(&self, index: u32, key: &[u8]) -> Option<(&[u8], &[u8])> {
        first_from(&self.leaves, index, key, false)
    }

    fn first_after(&self, index: u32, key: &[u8]) -> Option<(&[u8], &[u8])> {
        first_from(&self.leaves, index, key, true)
    }

    /// What all entries count, each the bytes of its key and of its value, and 8.
    fn used(&self) -> u64
        ensures exact { result ≡ used (map_of self.now) }
        ensures most { result ≡ min (used (map_of self.now)) (2 ^ 64 - 1) }
    {
        self.used
    }

    /// Adds an entry under a key that is not there. What is stored stays.
    fn insert(&mut self, index: u32, key: Bytes, value: Bytes)
        requires room { 1 ≤ spare_of self.old index }
        requires absent { map.get (map_of self.old index) key ≡ None }
        requires held { CanHold index key value }
        requires within { IsWithin (limit_of self.old) (used (with_map (map_of self.old) index (map.insert (map_of self.old index) key value))) }
        ensures entry { map_of self.new index ≡ map.insert (map_of self.old index) key value }
        ensures others { (i : ℕ) → i ≢ index → map_of self.new i ≡ map_of self.old i }
        ensures spare { spare_of self.old index ≤ spare_of self.new index + 1 }
        ensures other_spares { (i : ℕ) → i ≢ index → spare_of self.old i ≤ spare_of self.new i }
        ensures limit { limit_of self.new ≡ limit_of self.old }
        ensures kept { self.new.kept ≡ self.old.kept }
    {
        self.put(index, key.as_slice(), value.as_slice());
    }

    /// Sets the value under a key that is there. What is stored stays.
    fn replace(&mut self, index: u32, key: &[u8], value: Bytes)
        requires present { IsSome (map.get (map_of self.old index) key.now) }
        requires held { CanHold index key.now value }
        requires within { IsWithin (limit_of self.old) (used (with_map (map_of self.old) index (map.insert (map_of self.old index) key.now value))) }
        ensures entry { map_of self.new index ≡ map.insert (map_of self.old index) key.now value }
        ensures others { (i : ℕ) → i ≢ index → map_of self.new i ≡ map_of self.old i }
        ensures spare { (i : ℕ) → spare_of self.old i ≤ spare_of self.new i }
        ensures limit { limit_of self.new ≡ limit_of self.old }
        ensures kept { self.new.kept ≡ self.old.kept }
    {
        if self.set_in_place(index, key, value.as_slice()) {
            return;
        }
        self.take(index, key);
        self.put(index, key, value.as_slice());
    }

    /// Takes away the entry under a key that is there. What is stored stays.
    fn remove(&mut self, index: u32, key: &[u8])
        requires { IsSome (map.get (map_of self.old index) key.now) }
        ensures entry { map_of self.new index ≡ map.remove (map_of self.old index) key.now }
        ensures others { (i : ℕ) → i ≢ index → map_of self.new i ≡ map_of self.old i }
        ensures spare { spare_of self.old index + 1 ≤ spare_of self.new index }
        ensures other_spares { (i : ℕ) → i ≢ index → spare_of self.old i ≤ spare_of self.new i }
        ensures limit { limit_of self.new ≡ limit_of self.old }
        ensures kept { self.new.kept ≡ self.old.kept }
    {
        self.take(index, key);
    }
}
