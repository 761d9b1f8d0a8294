//! A database, opened.
ghost use Rattle.std.specs.Prelude.{◌≡◌, ◌≤◌, ℕ, List, Some, max, IfOk, IfErr, MatchResult};
ghost use Rattle.disk_io.specs.Disk.{Only, LeavesOnly};
ghost use Rattle.iv_types.specs.Maps.{used};
ghost use Rattle.table_store.specs.Lists.{map_at};
ghost use Rattle.txn_log.specs.Damaged.{FitsDevice};
ghost use Rattle.txn_log.specs.Refused.{PlacedImage};
ghost use Rattle.txn_log.specs.Replay.{Pages};
ghost use Rattle.wal_log.specs.Log.{new_log};
ghost use Rattle.log_disk.specs.Placed.{data_limit};
ghost use Rattle.log_journal.specs.Standing.{HasHeader, disk_of};
ghost use Rattle.ordered_index.specs.Tree.{limit_of};
ghost use Rattle.image_finding.specs.Headers.{as_header, StandsUpTo};
ghost use Rattle.image_opening.specs.Images.{IsImageIn};
ghost use Rattle.image_opening.specs.Telling.{HasNoPast, HasSound, Refuses};
ghost use Rattle.image_opening.specs.declared.fault.OpenFault.TheVariants as why;
ghost use Rattle.database_opening.specs.Opened.{CanBegin, HasBegun, IsOf, IsOpenOn, IsRefusal, OpenCounts, OpensAs};
ghost use Rattle.database_opening.specs.Crashes.{disk_in, IsAsBefore, KeepsImage, OpensSafely};
ghost use Rattle.database_opening.specs.Pages.{IsSameOver};

use crate::pages::on_pages;
use crate::refused::OpenRefused;
use core_journal::Checkpoints;
use core_opening::open;
use data_store::DataStore;
use disk_io::Disk;
use engine_core::Core;
use image_finding::LiveHeader;
use image_opening::{OpenFault, Recovered, read_image};
use iv_types::{DiskFault, Failed, NoMemory};
use log_journal::LogJournal;
use ordered_index::PageMaps;
use record_replay::Replay;
use std::alloc::Global;
use tree_maps::TreeMaps;
use wal_log::Log;

// Entries may take so many bytes for each page above these.
const PAGE_BYTES: u32 = 1200;

const SPARE_PAGES: u32 = 256;

// A core on a store, with a journal that has saved it.
fn begin<D: Disk>(
    journal: LogJournal<D>,
    store: DataStore<PageMaps>,
    header: &LiveHeader,
    commits: u64,
    next: u64,
) -> Result<Core<PageMaps, LogJournal<D>>, OpenRefused<D>>
    requires pages { (512 ≤ header.now.pages) × (header.now.pages ≤ 131072) }
    requires area { header.now.area_bytes ≤ 268435456 }
    requires has { HasBegun D.is_told D.size_of D.seen D.may_leave D.faults journal store header.now commits next }
    requires can { (p : Pages) × CanBegin store header.now commits next p }
    ensures opened { IfOk result (λ core. (p : Pages) → CanBegin store header.now commits next p → IsOpenOn D.is_told D.size_of D.seen D.may_leave D.moment D.left_since D.faults core p) }
    ensures refused { IfErr result (λ refused. refused.fault ≡ why.NoMemory) }
    ensures disk { MatchResult result (λ core. disk_of core.journal ≡ disk_of journal) (λ refused. refused.disk ≡ disk_of journal) }
{
    let log = header.area_bytes as u32;
    let most = (header.pages - SPARE_PAGES) * PAGE_BYTES;
    match open(store, Some(log), most, commits, next) {
        Ok(state) => Ok(Core::on(state, journal)),
        Err(NoMemory) => Err(OpenRefused {
            disk: journal.into_disk(),
            fault: OpenFault::NoMemory,
        }),
    }
}

// Saves a store as a checkpoint on its disk, which takes over the records that stand there, and begins a core on it.
fn save<D: Disk>(
    disk: D,
    log: Log,
    mut store: DataStore<PageMaps>,
    header: &LiveHeader,
    commits: u64,
    next: u64,
) -> Result<Core<PageMaps, LogJournal<D>>, OpenRefused<D>>
    requires fits { FitsDevice (as_header header.now) (D.size_of disk) }
    requires area { header.now.area ≤ 1 }
    requires log { log ≡ new_log header.now.area_bytes }
    requires header { D.is_told → HasHeader (D.size_of disk) header.now.pages header.now.number header.now.area (D.seen disk) (D.may_leave disk) }
    requires limit { limit_of store.tables ≡ Some (data_limit header.now.pages) }
    requires can { (p : Pages) × CanBegin store header.now commits next p }
    ensures opened { IfOk result (λ core. (p : Pages) → CanBegin store header.now commits next p → IsOpenOn D.is_told D.size_of D.seen D.may_leave D.moment D.left_since D.faults core p) }
    ensures refused { IfErr result (λ refused. IsRefusal refused.fault → ⊥) }
    ensures crash { D.is_told → (p : Pages) → CanBegin store header.now commits next p → LeavesOnly D.moment D.left_since disk (disk_in result) (IsAsBefore (as_header header.now) p.db (D.seen disk)) }
    ensures cause { OpenCounts D.faults (D.faults disk) result }
{
    let mut journal = LogJournal::restarting(
        log,
        disk,
        header.pages,
        header.number,
        header.area,
        next,
    );
    match journal.save(store.tables.maps_mut(), &store.catalog, commits) {
        Ok(()) => begin(journal, store, header, commits, next),
        Err(DiskFault) => Err(OpenRefused {
            disk: journal.into_disk(),
            fault: OpenFault::DiskFault,
        }),
    }
}

// The greater of two numbers.
fn greater(one: u64, other: u64) -> u64
    ensures { result ≡ max one other }
{
    if one < other { other } else { one }
}

// The store over pages, and a log of the header's size.
fn prepared(
    store: DataStore<TreeMaps>,
    header: &LiveHeader,
) -> Result<(DataStore<PageMaps>, Log), NoMemory>
    requires pages { (512 ≤ header.now.pages) × (header.now.pages ≤ 131072) }
    requires area { (65536 ≤ header.now.area_bytes) × (header.now.area_bytes ≤ 268435456) }
    requires within { used (map_at store.tables) ≤ data_limit header.now.pages }
    ensures same { IfOk result (λ made. IsSameOver store made.0) }
    ensures limit { IfOk result (λ made. limit_of made.0.tables ≡ Some (data_limit header.now.pages)) }
    ensures log { IfOk result (λ made. made.1 ≡ new_log header.now.area_bytes) }
{
    let log = Log::new(store.alloc, header.area_bytes)?;
    Ok((on_pages(store, header.pages)?, log))
}

// A core on what an image recovers to, which is saved first.
fn open_recovered<D: Disk>(
    disk: D,
    recovered: Recovered,
) -> Result<Core<PageMaps, LogJournal<D>>, OpenRefused<D>>
    requires fits { FitsDevice (as_header recovered.header) (D.size_of disk) }
    requires area { recovered.header.area ≤ 1 }
    requires header { D.is_told → HasHeader (D.size_of disk) recovered.header.pages recovered.header.number recovered.header.area (D.seen disk) (D.may_leave disk) }
    requires sound { HasSound recovered }
    requires no_past { HasNoPast recovered.replay.store }
    ensures opened { IfOk result (λ core. (p : Pages) → IsOf recovered p → IsOpenOn D.is_told D.size_of D.seen D.may_leave D.moment D.left_since D.faults core p) }
    ensures refused { IfErr result (λ refused. IsRefusal refused.fault → ⊥) }
    ensures crash { D.is_told → (p : Pages) → IsOf recovered p → LeavesOnly D.moment D.left_since disk (disk_in result) (IsAsBefore (as_header recovered.header) p.db (D.seen disk)) }
    ensures cause { OpenCounts D.faults (D.faults disk) result }
{
    let Recovered { header, replay } = recovered;
    let Replay {
        store,
        live,
        commits,
        next,
    } = replay;
    std::mem::drop(live);
    match prepared(store, &header) {
        Ok((store, log)) => save(
            disk,
            log,
            store,
            &header,
            commits,
            greater(next, header.next),
        ),
        Err(NoMemory) => Err(OpenRefused {
            disk,
            fault: OpenFault::NoMemory,
        }),
    }
}

// A core on the image of a disk of which a crash leaves what a read gives.
fn open_settled<D: Disk>(
    alloc: Global,
    mut disk: D,
) -> Result<Core<PageMaps, LogJournal<D>>, OpenRefused<D>>
    requires settled { D.is_told → Only (D.seen disk) (D.may_leave disk) }
    ensures opened { IfOk result (λ core. (p : Pages) × IsOpenOn D.is_told D.size_of D.seen D.may_leave D.moment D.left_since D.faults core p) }
    ensures recovered { D.is_told → IfOk result (OpensAs D.is_told D.size_of D.seen D.may_leave D.moment D.left_since D.faults (D.seen disk)) }
    ensures refused { D.is_told → IfErr result (λ refused. Refuses (D.seen disk) refused.fault) }
    ensures untouched { D.is_told → IfErr result (λ refused. IsRefusal refused.fault → D.seen refused.disk ≡ D.seen disk) }
    ensures crash { D.is_told → (i : PlacedImage) → IsImageIn (D.seen disk) i → LeavesOnly D.moment D.left_since disk (disk_in result) (KeepsImage (D.seen disk) i) }
    ensures cause { OpenCounts D.faults (D.faults disk) result }
{
    match read_image(alloc, &mut disk) {
        Ok(recovered) => open_recovered(disk, recovered),
        Err(fault) => Err(OpenRefused { disk, fault }),
    }
}

/// Opens the database on a disk of any size with any bytes: it reads what the image recovers to, saves it as a checkpoint, and begins a
/// core on it. It begins with a sync, before which nothing is written.
///
/// # Errors
///
/// `BadImage` with the first rule of the image that fails, and the place at which it does. `BadView` with the first stored row of a view
/// that is not what the view has, evaluated afresh. `DiskFault` where the disk failed, and its count of faults rose then. `NoMemory` where
/// there was none for it. The disk is handed back; nothing was written to it but where the checkpoint failed, or there was no memory
/// behind it.
pub fn open_database<D: Disk>(
    alloc: Global,
    disk: D,
) -> Result<Core<PageMaps, LogJournal<D>>, OpenRefused<D>>
    // The core stands where steps begin, on a database that is sound, whatever the disk is.
    ensures opened { IfOk result (λ core. (p : Pages) × IsOpenOn D.is_told D.size_of D.seen D.may_leave D.moment D.left_since D.faults core p) }
    // The database is what the image recovers to that stands there, which is refused for nothing.
    ensures recovered { D.is_told → IfOk result (OpensAs D.is_told D.size_of D.seen D.may_leave D.moment D.left_since D.faults (D.seen disk)) }
    // It is refused for what is told.
    ensures refused { D.is_told → IfErr result (λ refused. Refuses (D.seen disk) refused.fault) }
    // The disk of an image that is refused reads as before.
    ensures untouched { D.is_told → IfErr result (λ refused. IsRefusal refused.fault → D.seen refused.disk ≡ D.seen disk) }
    // A crash at any moment of it leaves the image that stood there, or one that recovers to the same database.
    ensures crash { D.is_told → (i : PlacedImage) → IsImageIn (D.seen disk) i → OpensSafely D.may_leave D.moment D.left_since (D.seen disk) i disk (disk_in result) }
    ensures cause { OpenCounts D.faults (D.faults disk) result }
{
    let mut disk = disk;
    match disk.sync() {
        Ok(()) => open_settled(alloc, disk),
        Err(Failed) => Err(OpenRefused {
            disk,
            fault: OpenFault::DiskFault,
        }),
    }
}
