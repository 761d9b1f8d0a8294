//! The pages of an engine in memory.
ghost use Rattle.std.specs.Prelude.{◌≡◌, ◌≢◌, ℕ, ◌+◌, ◌*◌, ◌≤◌, ◌<◌, length, false, replicate, true, IfOk, OnOk, set};
ghost use Rattle.disk_io.specs.Disk.{Only, LeavesOnly, CountsFault};
ghost use Rattle.page_store.specs.Image.{live};
ghost use Rattle.page_store.specs.Publish.{area_room, next_number, OtherArea, IsFirstBlock, LiveFits, Tracks, IsNew, OldOrNew, KeepsUnchanged};

use crate::facts::HeaderFacts;
use crate::publish::publish_pages;
use disk_io::Disk;
use iv_types::{DiskFault, Failed, NoMemory};
use std::alloc::Global;

/// How many bytes a page has.
pub const PAGE: usize = 8192;

/// How many bytes a header has.
pub const HEADER: usize = 139_264;

/// Pages of 8,192 bytes in memory, counted from 0. Each is a stored page or not.
#[derive(Drop)]
pub struct PageStore {
    bytes: Vec<u8>,
    stored: Vec<bool>,
    /// The pages that may differ from what the disk of the last publish has.
    changed: Vec<bool>,
    /// The live header, and then the new one, while a publish runs.
    header: Vec<u8>,
    /// A page as the disk has it, while a publish runs.
    slot: Vec<u8>,
    ghost all_pages: { length bytes.items ≡ 8192 * length stored.items },
    ghost all_marks: { length changed.items ≡ length stored.items },
    ghost few: { length stored.items ≤ 131072 },
    ghost some: { 512 ≤ length stored.items },
    ghost header_size: { length header.items ≡ 139264 },
    ghost slot_size: { length slot.items ≡ 8192 },
}

impl PageStore {
    ghost use Rattle.std.specs.Borrow.{sem};
    ghost use Rattle.page_store.specs.Store.{page_bytes, stored_flags, change_marks, pages_in, LendsPage};
    ghost use Rattle.disk_io.specs.Disk.{part};

    /// Pages of zeros, of which none is stored and each is marked as changed, with all the memory that the store will take. 512 to 131,072 pages.
    pub fn new(alloc: Global, pages: u32) -> Result<PageStore, NoMemory>
        requires some { 512 ≤ pages }
        requires few { pages ≤ 131072 }
        ensures pages { IfOk result (λ s. page_bytes s ≡ replicate (8192 * pages) 0) }
        ensures stored { IfOk result (λ s. stored_flags s ≡ replicate pages false) }
        ensures marks { IfOk result (λ s. change_marks s ≡ replicate pages true) }
    {
        let pages = pages as usize;
        let bytes = vec![in alloc; 0; PAGE * pages]?;
        let stored = vec![in alloc; false; pages]?;
        let changed = vec![in alloc; true; pages]?;
        let header = vec![in alloc; 0; HEADER]?;
        let slot = vec![in alloc; 0; PAGE]?;
        Ok(PageStore {
            bytes,
            stored,
            changed,
            header,
            slot,
        })
    }

    /// How many pages the store has.
    pub fn pages(&self) -> u32
        ensures { result ≡ pages_in self.now }
    {
        self.stored.len() as u32
    }

    /// The bytes of page `n`, counted from 0.
    pub fn page(&self, n: u32) -> &[u8]
        requires { n < pages_in self.now }
        ensures { result.now ≡ part (8192 * n) 8192 (page_bytes self.now) }
    {
        let at = PAGE * n as usize;
        &self.bytes[at..at + PAGE]
    }

    /// Says whether page `n` is a stored page, and marks it as changed. A new one is not stored.
    pub fn set_stored(&mut self, n: u32, stored: bool)
        requires { n < pages_in self.old }
        ensures pages { page_bytes self.new ≡ page_bytes self.old }
        ensures stored { stored_flags self.new ≡ set (stored_flags self.old) n stored }
        ensures marks { change_marks self.new ≡ set (change_marks self.old) n true }
    {
        self.stored[n as usize] = stored;
        self.changed[n as usize] = true;
    }

    /// The bytes of page `n`, to be changed. It is marked as changed.
    pub fn change(&mut self, n: u32) -> &mut [u8]
        requires { n < pages_in self.old }
        ensures* lends { sem 𝓛 (LendsPage self.entry n result) }
        ensures page { result.now ≡ part (8192 * n) 8192 (page_bytes self.old) }
    {
        self.changed[n as usize] = true;
        let at = PAGE * n as usize;
        self.bytes.slice_mut(at..at + PAGE)
    }

    /// Publishes the stored pages, the facts and the first block of a log area, so that a crash at any moment leaves
    /// the old image or the new one. A stored page is looked at only where it is marked as changed, and is written only
    /// where its bytes differ from the slot that the live header names, or where that header names none. So the time
    /// grows with the marked pages. At `Ok` no page is marked any more, and at `Err` each is.
    ///
    /// The order of the writes is what makes a crash harmless: the gate of the header that is not live is closed, all
    /// of the new image is written beside the old one and synced, and then that gate is opened by one byte. This is
    /// shadow paging (R. A. Lorie, Physical integrity in a large segmented database, 1977).
    ///
    /// It answers `DiskFault` exactly where the disk's count of faults rises, and takes no memory.
    pub fn publish<D: Disk>(
        &mut self,
        disk: &mut D,
        facts: &HeaderFacts,
        first_block: &[u8],
    ) -> Result<(), DiskFault>
        requires number { D.is_told → facts.now.number ≡ next_number (live (D.seen disk.old)) (D.seen disk.old) }
        requires area { facts.now.area ≤ 1 }
        requires other_area { D.is_told → OtherArea facts.now.area (D.seen disk.old) }
        requires block { IsFirstBlock first_block.now }
        requires block_fits { length first_block.now ≤ area_room (D.size_of disk.old) (pages_in self.old) }
        requires disk_size { 278528 + 2 * area_room (D.size_of disk.old) (pages_in self.old) + 16384 * pages_in self.old ≡ D.size_of disk.old }
        requires least_area { 65536 ≤ area_room (D.size_of disk.old) (pages_in self.old) }
        requires most_area { area_room (D.size_of disk.old) (pages_in self.old) ≤ 268435456 }
        requires tracked { D.is_told → Tracks (area_room (D.size_of disk.old) (pages_in self.old)) (stored_flags self.old) (change_marks self.old) (page_bytes self.old) (D.seen disk.old) }
        requires live_fits { D.is_told → LiveFits (D.size_of disk.old) (pages_in self.old) (D.seen disk.old) }
        ensures published { D.is_told → OnOk result (IsNew (area_room (D.size_of disk.old) (pages_in self.old)) facts.now first_block.now (stored_flags self.old) (page_bytes self.old) (D.seen disk.new)) }
        ensures durable { D.is_told → OnOk result (Only (D.seen disk.new) (D.may_leave disk.new)) }
        ensures any_moment { D.is_told → Only (D.seen disk.old) (D.may_leave disk.old)
            → LeavesOnly D.moment D.left_since disk.old disk.new (OldOrNew (area_room (D.size_of disk.old) (pages_in self.old)) facts.now first_block.now (stored_flags self.old) (page_bytes self.old) (D.seen disk.old)) }
        ensures number_after { D.is_told → OnOk result (next_number (live (D.seen disk.new)) (D.seen disk.new) ≡ facts.now.number + 1) }
        ensures area_after { D.is_told → OnOk result ((area : ℕ) → area ≢ facts.now.area → OtherArea area (D.seen disk.new)) }
        ensures fits_after { D.is_told → OnOk result (LiveFits (D.size_of disk.new) (pages_in self.new) (D.seen disk.new)) }
        ensures unchanged { D.is_told → OnOk result (KeepsUnchanged (area_room (D.size_of disk.old) (pages_in self.old)) (stored_flags self.old) (page_bytes self.old) (D.seen disk.old) (D.seen disk.new)) }
        ensures tracked { D.is_told → Tracks (area_room (D.size_of disk.new) (pages_in self.new)) (stored_flags self.new) (change_marks self.new) (page_bytes self.new) (D.seen disk.new) }
        ensures marks { OnOk result (change_marks self.new ≡ replicate (pages_in self.old) false) }
        ensures size { D.size_of disk.new ≡ D.size_of disk.old }
        ensures pages { page_bytes self.new ≡ page_bytes self.old }
        ensures stored { stored_flags self.new ≡ stored_flags self.old }
        ensures cause { CountsFault result (D.faults disk.old) (D.faults disk.new) }
    {
        let pages = self.stored.len() as u64;
        let room = (disk.size() - 278_528 - 16_384 * pages) / 2;
        let outcome = publish_pages(
            disk,
            room,
            &mut self.header,
            &self.bytes,
            &self.stored,
            &self.changed,
            &mut self.slot,
            facts,
            first_block,
        );
        match outcome {
            Ok(()) => {
                self.changed.fill(false);
                Ok(())
            }
            Err(Failed) => {
                self.changed.fill(true);
                Err(DiskFault)
            }
        }
    }
}
