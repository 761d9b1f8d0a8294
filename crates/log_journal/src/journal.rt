//! The journal on a disk.
ghost use Rattle.std.specs.Prelude.{◌≡◌, ◌+◌, ◌-◌, ◌*◌, ◌^◌, ◌<◌, ◌≤◌, ℕ, [], ◌∷◌, List, reverse, Bool, Some, OnOk, OnErr};
ghost use Rattle.iv_types.specs.Faults.{Rose, CountsFault};
ghost use Rattle.iv_types.specs.Definitions.{Definitions};
ghost use Rattle.txn_machine.specs.Log.{block_bytes};
ghost use Rattle.page_store.specs.Publish.{IsNew, OldOrNew};
ghost use Rattle.disk_io.specs.Disk.{LeavesOnly};
ghost use Rattle.ordered_index.specs.Drawn.{IsDrawn};
ghost use Rattle.ordered_index.specs.Tree.{map_of, spare_of, limit_of, data_limit};
ghost use Rattle.log_records.specs.Area.{Entry};
ghost use Rattle.wal_log.specs.Log.{area_at, used_by, FlushLeaves};
ghost use Rattle.core_journal.specs.Records.{Records, Saved, begun, flushed_all, restarted};
ghost use Rattle.core_journal.specs.Cuts.{Cut};
ghost use Rattle.log_journal.specs.Standing.{HasParts, HasHeader, Has, Carries, disk_of, area_limit, maps_limit};
ghost use Rattle.log_journal.specs.Saved.{MarksSaved, next_header, first_block};
ghost use Rattle.log_journal.specs.Cuts.{Medium, medium_of, StandsOn, Leaves, ImageOrCut};

use crate::marking::mark_saved;
use core_journal::{Checkpoints, Journal};
use disk_io::Disk;
use iv_types::{Catalog, DiskFault, FORMAT};
use log_records::{LentRecord, entry_size};
use ordered_index::PageMaps;
use page_store::HeaderFacts;
use wal_log::Log;

// A gate and a length stand before the records of a block.
const BLOCK: u64 = 5;

// Reserves bytes of the log, for which it has room.
fn reserve(log: &mut Log, bytes: u64)
    requires { used_by log.old + log.old.reserved + bytes ≤ log.old.size }
    ensures { log.new ≡ record log.old { reserved = log.old.reserved + bytes } }
{
    match log.reserve(bytes) {
        Ok(()) => {}
        Err(_) => unreachable!(),
    }
}

/// A journal on a disk. One of the two log areas is in use, which the live header names.
#[derive(Drop)]
pub struct LogJournal<D: Disk> {
    /// The records that wait, and where the next block goes.
    log: Log,
    disk: D,
    /// How many pages the disk has.
    pages: u32,
    /// The number of the live header.
    saved: u64,
    /// The log area that the live header names, 0 or 1.
    area: u8,
}

impl<D: Disk> LogJournal<D> {
    /// A journal that begins a checkpoint behind whatever records stand on a disk, which the checkpoint takes over: those of an image
    /// that was read. The live header has the number `saved` and names this log area, and the disk so many pages. No record is carried
    /// yet, and the next record is to have this number.
    pub fn restarting(
        mut log: Log,
        disk: D,
        pages: u32,
        saved: u64,
        area: u8,
        next: u64,
    ) -> LogJournal<D>
        requires parts { HasParts log.size pages (D.size_of disk) }
        requires low_area { area ≤ 1 }
        requires free { log.reserved ≡ 0 }
        requires few { saved ≤ 2 ^ 62 }
        requires header { D.is_told → HasHeader (D.size_of disk) pages saved area (D.seen disk) (D.may_leave disk) }
        ensures carries { (records : Records) → records.image_limit ≡ maps_limit result → Carries D.is_told D.size_of D.seen D.may_leave result records next [] (block_bytes + 1) }
        ensures disk { disk_of result ≡ disk }
        ensures limit { area_limit result ≡ Some log.size }
        ensures maps_limit { maps_limit result ≡ Some (data_limit pages) }
    {
        log.restart(1 - area, next);
        LogJournal {
            log,
            disk,
            pages,
            saved,
            area,
        }
    }

    /// The disk.
    pub fn disk(&self) -> &D
        ensures { result.now ≡ disk_of self.now }
    {
        &self.disk
    }

    /// Gives the disk back.
    pub fn into_disk(self) -> D
        ensures { result ≡ disk_of self }
    {
        self.disk
    }

    // Publishes the maps with the log's first block, and goes to its area.
    fn publish(&mut self, maps: &mut PageMaps, commits: u64) -> Result<(), DiskFault>
        requires begun { (records : Records) × (next : ℕ) × (carried : List Entry) × (used : ℕ) × Carries D.is_told D.size_of D.seen D.may_leave self.old records next carried used }
        requires pages { maps.old.pages ≡ self.old.pages }
        ensures has { OnOk result ((definitions : Definitions) (records : Records) (next : ℕ) (carried : List Entry) (used : ℕ) → MarksSaved definitions maps.old.kept → Carries D.is_told D.size_of D.seen D.may_leave self.old records next carried used
            → Has D.is_told D.size_of D.seen D.may_leave self.new (restarted records (record { maps = map_of maps.old; definitions = definitions; commits = commits; next = next; carried = carried }) used)) }
        ensures cause { CountsFault result (D.faults self.old.disk) (D.faults self.new.disk) }
        // Whatever image stood there, a crash leaves it or the checkpoint.
        ensures image { D.is_told → (definitions : Definitions) (records : Records) (next : ℕ) (carried : List Entry) (used : ℕ) → MarksSaved definitions maps.old.kept → Carries D.is_told D.size_of D.seen D.may_leave self.old records next carried used
            → LeavesOnly D.moment D.left_since self.old.disk self.new.disk (ImageOrCut self.old.log.size self.old.pages (D.seen self.old.disk) (record { saved = record { maps = map_of maps.old; definitions = definitions; commits = commits; next = next; carried = carried }; records = [] })) }
        ensures maps { maps.new ≡ maps.old }
        ensures log { self.new.log ≡ self.old.log }
    {
        let facts = HeaderFacts {
            format: FORMAT,
            number: self.saved + 1,
            commits,
            next_entry: self.log.next_number(),
            area: 1 - self.area,
        };
        match maps.publish(&mut self.disk, &facts, self.log.first_block()) {
            Ok(()) => {
                self.saved += 1;
                self.area = 1 - self.area;
                Ok(())
            }
            Err(fault) => Err(fault),
        }
    }
}

impl<D: Disk> Journal for LogJournal<D> {
    ghost has = { Has D.is_told D.size_of D.seen D.may_leave };

    ghost carries = { Carries D.is_told D.size_of D.seen D.may_leave };

    ghost limit = { area_limit };

    ghost Medium = { Medium D };

    ghost medium = { medium_of };

    ghost faults = { λ medium. D.faults medium.disk };

    ghost stands_on = { StandsOn D.is_told D.seen };

    ghost leaves = { Leaves D.is_told D.moment D.left_since };

    ghost counts_in = { λ medium. D.counts_in medium.disk };

    fn append(&mut self, number: u64, lent: LentRecord<'_>) {
        self.log.number_from(number);
        reserve(&mut self.log, entry_size(lent) as u64);
        self.log.append(lent);
    }

    fn flush(&mut self) -> Result<(), DiskFault> {
        reserve(&mut self.log, BLOCK);
        match self.log.flush(&mut self.disk) {
            Ok(()) => Ok(()),
            Err(fault) => {
                self.log.give_back(BLOCK);
                Err(fault)
            }
        }
    }

    fn begin_checkpoint(&mut self, next: u64) {
        self.log.restart(1 - self.area, next);
    }

    fn carry(&mut self, number: u64, lent: LentRecord<'_>) {
        self.log.carry(lent, number);
    }
}

impl<D: Disk> Checkpoints<PageMaps> for LogJournal<D> {
    /// Saves the checkpoint: the entries of tables, views and definitions, under the next header number, with the log's first block
    /// in the area that was not in use.
    fn save(
        &mut self,
        maps: &mut PageMaps,
        catalog: &Catalog,
        commits: u64,
    ) -> Result<(), DiskFault>
        requires { (records : Records) × (next : ℕ) × (carried : List Entry) × (used : ℕ) × Carries D.is_told D.size_of D.seen D.may_leave self.old records next carried used × (limit_of maps.old ≡ records.image_limit) }
        ensures ok { OnOk result (((records : Records) (next : ℕ) (carried : List Entry) (used : ℕ) → Carries D.is_told D.size_of D.seen D.may_leave self.old records next carried used
            → Has D.is_told D.size_of D.seen D.may_leave self.new (restarted records (record { maps = map_of maps.old; definitions = catalog.now; commits = commits; next = next; carried = carried }) used))
            × (D.faults self.new.disk ≡ D.faults self.old.disk)) }
        ensures err { OnErr result (Rose (D.faults self.old.disk) (D.faults self.new.disk)) }
        ensures maps { map_of maps.new ≡ map_of maps.old }
        ensures spare { spare_of maps.new ≡ spare_of maps.old }
        ensures data_limit { limit_of maps.new ≡ limit_of maps.old }
        ensures limit { area_limit self.new ≡ area_limit self.old }
        ensures any_moment { (records : Records) (next : ℕ) (carried : List Entry) (used : ℕ) (x : Cut) → Carries D.is_told D.size_of D.seen D.may_leave self.old records next carried used → StandsOn D.is_told D.seen self.old x
            → Leaves D.is_told D.moment D.left_since (medium_of self.old) (medium_of self.new) x (record { saved = record { maps = map_of maps.old; definitions = catalog.now; commits = commits; next = next; carried = carried }; records = [] }) }
        // Whatever image stood there, a crash leaves it or the checkpoint.
        ensures image { D.is_told → (records : Records) (next : ℕ) (carried : List Entry) (used : ℕ) → Carries D.is_told D.size_of D.seen D.may_leave self.old records next carried used
            → LeavesOnly D.moment D.left_since self.old.disk self.new.disk (ImageOrCut self.old.log.size self.old.pages (D.seen self.old.disk) (record { saved = record { maps = map_of maps.old; definitions = catalog.now; commits = commits; next = next; carried = carried }; records = [] })) }
    {
        mark_saved(maps, catalog);
        self.publish(maps, commits)?;
        Ok(())
    }
}
