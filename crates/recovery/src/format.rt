//! A new database on a disk.
ghost use Rattle.std.specs.Prelude.{◌≡◌, ◌+◌, ◌*◌, ◌≤◌, false, None, Err, OnOk, IsSomeAnd, replicate};
ghost use Rattle.disk_io.specs.Disk.{Only, CountsFault};
ghost use Rattle.page_store.specs.Image.{live, image};
ghost use Rattle.page_store.specs.Store.{stored_flags};
ghost use Rattle.wal_log.specs.Log.{new_log};
ghost use Rattle.log_disk.specs.Bears.{Bears};
ghost use Rattle.recovery.specs.Formatted.{IsGeometry, IsFirst, FormatFaults, area_bytes, blank, disk_size};
ghost use Rattle.recovery.specs.declared.format.FormatFault.TheVariants as FormatFault;

use disk_io::Disk;
use iv_types::{DiskFault, FORMAT, Failed};
use page_store::{HeaderFacts, PageStore};
use std::alloc::Global;
use thiserror::Error;
use wal_log::Log;

/// Where the headers begin, in bytes. Each one's first byte is its gate.
const HEADERS: [u64; 2] = [0, 139_264];

/// A gate that is closed.
const CLOSED: u8 = 0;

/// Why a disk was not formatted.
#[derive(Clone, Copy, Debug, PartialEq, Eq, Error)]
pub enum FormatFault {
    /// The disk failed, and its count of faults says so.
    #[error("the disk failed")]
    DiskFault,
    /// There was no memory for it.
    #[error("out of memory")]
    NoMemory,
}

/// How many bytes a disk has with so many pages, 512 to 131,072, and two log areas of so many KiB, 64 to 262,144.
pub fn disk_bytes(pages: u32, log_kib: u32) -> u64
    requires { IsGeometry pages log_kib }
    ensures { result ≡ disk_size pages log_kib }
{
    278_528 + 2 * 1024 * log_kib as u64 + 16_384 * pages as u64
}

// Closes the gates of both headers, whatever the disk has.
fn close_gates<D: Disk>(disk: &mut D) -> Result<(), Failed>
    requires { 278528 ≤ D.size_of disk.old }
    ensures none { D.is_told → OnOk result (live (D.seen disk.new) ≡ None) }
    ensures durable { D.is_told → OnOk result (Only (D.seen disk.new) (D.may_leave disk.new)) }
    ensures size { D.size_of disk.new ≡ D.size_of disk.old }
    ensures cause { CountsFault result (D.faults disk.old) (D.faults disk.new) }
{
    disk.write_at(HEADERS[0], &[CLOSED])?;
    disk.write_at(HEADERS[1], &[CLOSED])?;
    disk.sync()
}

// Publishes a database that defines nothing, with an empty first block of its log, on a disk without a live header.
fn publish_blank<D: Disk>(
    disk: &mut D,
    store: &mut PageStore,
    log: &Log,
    pages: u32,
    log_kib: u32,
) -> Result<(), DiskFault>
    requires geometry { IsGeometry pages log_kib }
    requires size { D.size_of disk.old ≡ disk_size pages log_kib }
    requires stored { stored_flags store.old ≡ replicate pages false }
    requires log { log.now ≡ new_log (area_bytes log_kib) }
    requires none { D.is_told → live (D.seen disk.old) ≡ None }
    ensures blank { D.is_told → OnOk result (Bears (area_bytes log_kib) pages (D.seen disk.new) blank) }
    ensures header { D.is_told → OnOk result (IsSomeAnd (image (area_bytes log_kib) pages (D.seen disk.new)) IsFirst) }
    ensures durable { D.is_told → OnOk result (Only (D.seen disk.new) (D.may_leave disk.new)) }
    ensures size { D.size_of disk.new ≡ D.size_of disk.old }
    ensures cause { CountsFault result (D.faults disk.old) (D.faults disk.new) }
{
    let facts = HeaderFacts {
        format: FORMAT,
        number: 1,
        commits: 0,
        next_entry: 1,
        area: 0,
    };
    store.publish(disk, &facts, log.first_block())
}

/// Makes a new database of a disk, whatever it has: no definitions, and commit number 0. It has so many pages, 512 to 131,072,
/// and two log areas of so many KiB, 64 to 262,144. Its first header has the number 1, and so has its next record; its log is in
/// area 0, and no page is stored.
///
/// # Errors
///
/// `DiskFault` exactly where the disk's count of faults rises; of what the disk then has nothing is said. `NoMemory` where there
/// is none for the pages and the log; the disk is as before then, since no call of it was made.
pub fn format_disk<D: Disk>(
    alloc: Global,
    disk: &mut D,
    pages: u32,
    log_kib: u32,
) -> Result<(), FormatFault>
    requires geometry { IsGeometry pages log_kib }
    requires size { D.size_of disk.old ≡ disk_size pages log_kib }
    ensures blank { D.is_told → OnOk result (Bears (area_bytes log_kib) pages (D.seen disk.new) blank) }
    ensures header { D.is_told → OnOk result (IsSomeAnd (image (area_bytes log_kib) pages (D.seen disk.new)) IsFirst) }
    ensures durable { D.is_told → OnOk result (Only (D.seen disk.new) (D.may_leave disk.new)) }
    ensures size { D.size_of disk.new ≡ D.size_of disk.old }
    ensures untouched { result ≡ Err FormatFault.NoMemory → disk.new ≡ disk.old }
    ensures cause { FormatFaults result (D.faults disk.old) (D.faults disk.new) }
{
    let Ok(mut store) = PageStore::new(alloc, pages) else {
        return Err(FormatFault::NoMemory);
    };
    let Ok(log) = Log::new(alloc, 1024 * log_kib as u64) else {
        return Err(FormatFault::NoMemory);
    };
    if close_gates(disk).is_err() {
        return Err(FormatFault::DiskFault);
    }
    if publish_blank(disk, &mut store, &log, pages, log_kib).is_err() {
        return Err(FormatFault::DiskFault);
    }
    Ok(())
}
