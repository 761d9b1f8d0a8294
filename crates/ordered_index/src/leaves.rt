//! Pages in order.
ghost use Rattle.std.specs.Prelude.{◌≡◌, ◌≢◌, ℕ, ◌+◌, ◌-◌, ◌*◌, ◌<◌, ◌≤◌, OnOk, Bool, List, [], ◌∷◌, ◌++◌, length, take, drop, get_or, set, IfOk};
ghost use Rattle.std.specs.List.{insert, remove, between};
ghost use Rattle.slot_page.specs.Page.{Entry, no_entry, IsPage, entries, index_of, space, page_body, entry_head};
ghost use Rattle.disk_io.specs.Disk.{Only, LeavesOnly, CountsFault};
ghost use Rattle.page_store.specs.Image.{live};
ghost use Rattle.page_store.specs.Publish.{area_room, next_number, OtherArea, IsFirstBlock, LiveFits, IsNew, OldOrNew, KeepsUnchanged};
ghost use Rattle.ordered_index.specs.Drawn.{IsLaid};
ghost use Rattle.ordered_index.specs.Row.{Row, Leaf, no_leaf, leaf_of, least_pages, most_pages};

use crate::marking::mark_stored;
use disk_io::Disk;
use iv_types::{DiskFault, NoMemory};
use page_store::{HeaderFacts, PageStore};
use slot_page::{append, append_from, empty, set_value, truncate};
use std::alloc::Global;
use std::marker::Model;

/// Leaves in order, over a fixed array of pages.
#[derive(Drop)]
pub struct Leaves {
    store: PageStore,
    /// The pages of the leaves, in the order of the leaves.
    order: Vec<u32>,
    /// The other pages.
    free: Vec<u32>,
}

impl Model for Leaves {
    ghost use Rattle.ordered_index.specs.Row.{Row};

    ghost Value = { Row };

    ghost use Rattle.ordered_index.specs.Sound.{row_of, IsSound};

    ghost view = { row_of };

    ghost invariant = { IsSound };
}

impl Leaves {
    /// No leaves, over so many pages. No call after this one takes memory.
    ///
    /// # Errors
    ///
    /// Where there is no memory for the pages.
    pub fn new(alloc: Global, count: u32) -> Result<Leaves, NoMemory>
        requires some { least_pages ≤ count }
        requires few { count ≤ most_pages }
        ensures { IfOk result (λ l. (l.pages ≡ count) × (l.leaves ≡ [])) }
    {
        let number = count as usize;
        let store = PageStore::new(alloc, count)?;
        let order = Vec::with_capacity(alloc, number)?;
        let mut free = Vec::with_capacity(alloc, number)?;
        for i in 0..count {
            free.push(i)?;
        }
        Ok(Leaves { store, order, free })
    }

    /// How many leaves there are.
    pub fn len(&self) -> usize
        ensures { result ≡ length self.now.leaves }
    {
        self.order.len()
    }

    /// How many pages there are.
    pub fn pages(&self) -> usize
        ensures { result ≡ self.now.pages }
    {
        self.store.pages() as usize
    }

    /// The page of leaf `k`.
    pub fn page(&self, k: usize) -> &[u8]
        requires { k < length self.now.leaves }
        ensures page { IsPage result.now }
        ensures leaf { leaf_of result.now ≡ get_or self.now.leaves k no_leaf }
    {
        let p = self.order[k];
        self.store.page(p)
    }

    /// Opens a leaf of an index without entries before leaf `k`.
    pub fn open(&mut self, k: usize, of: u32)
        requires place { k ≤ length self.old.leaves }
        requires room { length self.old.leaves < self.old.pages }
        ensures { self.new ≡ record self.old { leaves = insert self.old.leaves k (of, []) } }
    {
        let last = self.free.len() - 1;
        let p = self.free.remove(last);
        empty(self.store.change(p), of);
        self.order.insert(k, p).unwrap();
    }

    /// Gives up leaf `k`.
    pub fn close(&mut self, k: usize)
        requires { k < length self.old.leaves }
        ensures { self.new ≡ record self.old { leaves = remove self.old.leaves k } }
    {
        let p = self.order.remove(k);
        let last = self.free.len();
        self.free.insert(last, p).unwrap();
    }

    /// Keeps the first `n` entries of leaf `k`.
    pub fn truncate(&mut self, k: usize, n: usize)
        requires leaf { k < length self.old.leaves }
        requires inside { n ≤ length (get_or self.old.leaves k no_leaf).1 }
        ensures { self.new ≡ (let leaf = get_or self.old.leaves k no_leaf in record self.old { leaves = set self.old.leaves k (leaf.0, take n leaf.1) }) }
    {
        let p = self.order[k];
        truncate(self.store.change(p), n);
    }

    /// Adds an entry at the end of leaf `k`.
    pub fn append(&mut self, k: usize, key: &[u8], value: &[u8])
        requires leaf { k < length self.old.leaves }
        requires room { space (get_or self.old.leaves k no_leaf).1 + entry_head + length key.now + length value.now ≤ page_body }
        ensures { self.new ≡ (let leaf = get_or self.old.leaves k no_leaf in record self.old { leaves = set self.old.leaves k (leaf.0, leaf.1 ++ (key.now, value.now) ∷ []) }) }
    {
        let p = self.order[k];
        append(self.store.change(p), key, value);
    }

    /// Sets the value of entry `i` of leaf `k` to one of as many bytes.
    pub fn set_value(&mut self, k: usize, i: usize, value: &[u8])
        requires leaf { k < length self.old.leaves }
        requires inside { i < length (get_or self.old.leaves k no_leaf).1 }
        requires size { length value.now ≡ length (get_or (get_or self.old.leaves k no_leaf).1 i no_entry).1 }
        ensures { self.new ≡ (let leaf = get_or self.old.leaves k no_leaf in record self.old { leaves = set self.old.leaves k (leaf.0, set leaf.1 i ((get_or leaf.1 i no_entry).0, value.now)) }) }
    {
        let p = self.order[k];
        set_value(self.store.change(p), i, value);
    }

    /// Adds entries of another page at the end of leaf `k`.
    pub fn append_from(&mut self, k: usize, other: &[u8], from: usize, to: usize)
        requires leaf { k < length self.old.leaves }
        requires other { IsPage other.now }
        requires order { from ≤ to }
        requires inside { to ≤ length (entries other.now) }
        requires room { space (get_or self.old.leaves k no_leaf).1 + space (between from to (entries other.now)) ≤ page_body }
        ensures { self.new ≡ (let leaf = get_or self.old.leaves k no_leaf in record self.old { leaves = set self.old.leaves k (leaf.0, leaf.1 ++ between from to (entries other.now)) }) }
    {
        let p = self.order[k];
        append_from(self.store.change(p), other, from, to);
    }

    /// Publishes the leaves of the stored indexes by `PageStore::publish`.
    ///
    /// # Errors
    ///
    /// Exactly where the disk's count of faults rises.
    pub fn publish<D: Disk>(
        &mut self,
        kept: &[bool],
        disk: &mut D,
        facts: &HeaderFacts,
        first_block: &[u8],
    ) -> Result<(), DiskFault>
        requires number { D.is_told → facts.now.number ≡ next_number (live (D.seen disk.old)) (D.seen disk.old) }
        requires area { facts.now.area ≤ 1 }
        requires other_area { D.is_told → OtherArea facts.now.area (D.seen disk.old) }
        requires block { IsFirstBlock first_block.now }
        requires block_fits { length first_block.now ≤ area_room (D.size_of disk.old) self.old.pages }
        requires disk_size { 278528 + 2 * area_room (D.size_of disk.old) self.old.pages + 16384 * self.old.pages ≡ D.size_of disk.old }
        requires least_area { 65536 ≤ area_room (D.size_of disk.old) self.old.pages }
        requires most_area { area_room (D.size_of disk.old) self.old.pages ≤ 268435456 }
        requires live_fits { D.is_told → LiveFits (D.size_of disk.old) self.old.pages (D.seen disk.old) }
        ensures image { (order : List ℕ) × (flags : List Bool) × (bytes : List ℕ) × IsLaid self.old.pages kept.now self.old.leaves order flags bytes
            × (D.is_told → OnOk result (IsNew (area_room (D.size_of disk.old) self.old.pages) facts.now first_block.now flags bytes (D.seen disk.new)))
            × (D.is_told → Only (D.seen disk.old) (D.may_leave disk.old)
            → LeavesOnly D.moment D.left_since disk.old disk.new (OldOrNew (area_room (D.size_of disk.old) self.old.pages) facts.now first_block.now flags bytes (D.seen disk.old)))
            × (D.is_told → OnOk result (KeepsUnchanged (area_room (D.size_of disk.old) self.old.pages) flags bytes (D.seen disk.old) (D.seen disk.new))) }
        ensures leaves { self.new ≡ self.old }
        ensures durable { D.is_told → OnOk result (Only (D.seen disk.new) (D.may_leave disk.new)) }
        ensures number_after { D.is_told → OnOk result (next_number (live (D.seen disk.new)) (D.seen disk.new) ≡ facts.now.number + 1) }
        ensures area_after { D.is_told → OnOk result ((area : ℕ) → area ≢ facts.now.area → OtherArea area (D.seen disk.new)) }
        ensures fits_after { D.is_told → OnOk result (LiveFits (D.size_of disk.new) self.new.pages (D.seen disk.new)) }
        ensures size { D.size_of disk.new ≡ D.size_of disk.old }
        ensures cause { CountsFault result (D.faults disk.old) (D.faults disk.new) }
    {
        mark_stored(&mut self.store, &self.order, kept);
        self.store.publish(disk, facts, first_block)
    }
}
