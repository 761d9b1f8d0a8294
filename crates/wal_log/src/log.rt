//! Records that wait in memory for a flush, and the place of the next block.
ghost use Rattle.std.specs.Prelude.{◌≡◌, ◌<◌, ◌≤◌, ◌+◌, ◌-◌, ◌*◌, ◌^◌, ◌++◌, ◌∷◌, [], List, length, OnOk, OnErr, IfOk, IfErr};
ghost use Rattle.log_records.specs.Lent.{stands_for};
ghost use Rattle.log_records.specs.Spelling.{spelling, IsShort};
ghost use Rattle.disk_io.specs.Disk.{Only, LeavesOnly, CountsFault};
ghost use Rattle.log_records.specs.Area.{Entry, group, block, IsSmall};
ghost use Rattle.wal_log.specs.Log.{new_log, used_by, restarted, after_flush, areas_at, Holds, FlushLeaves, IsOutside, BegunHolds, HeldBegins, HeldStays};

use crate::block::{enclose, flush_block};
use disk_io::Disk;
use iv_types::{DiskFault, NoMemory};
use log_records::{LentRecord, entry_size, put_entry};
use std::alloc::Global;
use std::marker::Model;
use thiserror::Error;

/// Where the log areas begin on the disk, in bytes. The second begins where the first ends.
pub const AREAS_AT: u64 = 278_528;

/// The least bytes of a log area: an empty first block and the gate behind it.
pub const LEAST_AREA: u64 = 6;

/// The most bytes of a log area.
pub const MOST_AREA: u64 = 268_435_456;

// A gate and a length stand before the records of a block.
const BLOCK_START: usize = 5;

// A length stands before the waiting records.
const LENGTH: usize = 4;

/// The log area has no room for what is needed, in bytes.
#[derive(Clone, Copy, Debug, PartialEq, Eq, Error)]
#[error("the log is full: {used} bytes used and {reserved} reserved, {need} needed")]
pub struct LogFull {
    pub used: u64,
    pub reserved: u64,
    pub need: u64,
}

/// The log of a database: the records that wait for a flush, and where the next block goes.
#[derive(Drop)]
pub struct Log {
    size: u64,
    start: u64,
    gate: u64,
    next: u64,
    reserved: u64,
    fill: usize,
    buffer: Vec<u8>,
    first_fill: usize,
    first: Vec<u8>,
}

impl Model for Log {
    ghost use Rattle.std.specs.Prelude.{ℕ, List, take, drop};
    ghost use Rattle.wal_log.specs.Log.{LogState, FieldsFit};

    ghost Value = { LogState };

    ghost view = { λ l. record { size = l.size; start = l.start; gate = l.gate; first = drop 5 (take l.first_fill l.first.items); waiting = drop 4 (take l.fill l.buffer.items); next = l.next; reserved = l.reserved } };

    ghost invariant = { λ l. FieldsFit l.size l.start l.gate l.reserved l.fill l.buffer.items l.first_fill l.first.items };
}

impl Log {
    /// A log in area 0, with an empty first block and next record number 1. Each area has so many bytes.
    ///
    /// # Errors
    ///
    /// Where there is no memory for the buffers. No other call takes memory.
    pub fn new(alloc: Global, area_bytes: u64) -> Result<Log, NoMemory>
        requires least { 6 ≤ area_bytes }
        requires most { area_bytes ≤ 268435456 }
        ensures { IfOk result (λ log. log ≡ new_log area_bytes) }
    {
        let buffer = vec![in alloc; 0; area_bytes as usize]?;
        let mut first = vec![in alloc; 0; area_bytes as usize]?;
        enclose(&mut first, BLOCK_START);
        Ok(Log {
            size: area_bytes,
            start: AREAS_AT,
            gate: BLOCK_START as u64,
            next: 1,
            reserved: 0,
            fill: LENGTH,
            buffer,
            first_fill: BLOCK_START,
            first,
        })
    }

    /// The bytes of each area.
    pub fn area_bytes(&self) -> u64
        ensures size { result ≡ self.now.size }
        ensures most { result ≤ 268435456 }
    {
        self.size
    }

    /// Where the area in use begins on the disk, in bytes.
    pub fn area_at(&self) -> u64
        ensures { result ≡ self.now.start }
    {
        self.start
    }

    /// The bytes of the area that are used: up to the gate of the next block, that gate, and the records that wait.
    pub fn used(&self) -> u64
        ensures used { result ≡ used_by self.now }
        ensures bounded { result + self.now.reserved ≤ self.now.size }
    {
        self.gate + 1 + (self.fill - LENGTH) as u64
    }

    /// The bytes that are reserved.
    pub fn reserved(&self) -> u64
        ensures { result ≡ self.now.reserved }
    {
        self.reserved
    }

    /// The number of the next record.
    pub fn next_number(&self) -> u64
        ensures { result ≡ self.now.next }
    {
        self.next
    }

    /// Has the next record get this number.
    pub fn number_from(&mut self, next: u64)
        ensures { self.new ≡ record self.old { next = next } }
    {
        self.next = next;
    }

    /// Reserves so many bytes more.
    ///
    /// # Errors
    ///
    /// `LogFull` exactly where the used bytes, the reserved ones and these are more than the area has. Nothing is
    /// reserved then.
    pub fn reserve(&mut self, need: u64) -> Result<(), LogFull>
        ensures granted { OnOk result ((used_by self.old + self.old.reserved + need ≤ self.old.size) × (self.new ≡ record self.old { reserved = self.old.reserved + need })) }
        ensures refused { IfErr result (λ e. (self.old.size < used_by self.old + self.old.reserved + need) × (e ≡ record { used = used_by self.old; reserved = self.old.reserved; need = need })) }
        ensures unchanged { OnErr result (self.new ≡ self.old) }
    {
        let used = self.used();
        if need > self.size - used - self.reserved {
            return Err(LogFull {
                used,
                reserved: self.reserved,
                need,
            });
        }
        self.reserved += need;
        Ok(())
    }

    /// Gives reserved bytes back.
    pub fn give_back(&mut self, bytes: u64)
        requires { bytes ≤ self.old.reserved }
        ensures { self.new ≡ record self.old { reserved = self.old.reserved - bytes } }
    {
        self.reserved -= bytes;
    }

    /// Adds a record to those that wait, in bytes that are reserved, and answers its number.
    pub fn append(&mut self, lent: LentRecord<'_>) -> u64
        requires short { IsShort (stands_for lent) }
        requires number { self.old.next < 2 ^ 64 - 1 }
        requires room { length (spelling self.old.next (stands_for lent)) ≤ self.old.reserved }
        ensures number { result ≡ self.old.next }
        // A scan reads it as it is.
        ensures small { IsSmall (record { number = result; entry = stands_for lent.entry }) }
        ensures waits { self.new ≡ record self.old { waiting = self.old.waiting ++ spelling self.old.next (stands_for lent.entry); next = self.old.next + 1; reserved = self.old.reserved - length (spelling self.old.next (stands_for lent.entry)) } }
    {
        let number = self.next;
        let size = entry_size(lent) as u64;
        self.fill = put_entry(&mut self.buffer, self.fill, number, lent);
        self.next += 1;
        self.reserved -= size;
        number
    }

    /// Goes to this area, 0 or 1, with an empty first block, this next record number and no waiting record. What is
    /// reserved stays reserved.
    pub fn restart(&mut self, area: u8, next: u64)
        requires { area < 2 }
        ensures { self.new ≡ restarted area next self.old }
    {
        enclose(&mut self.first, BLOCK_START);
        self.start = if area == 0 {
            AREAS_AT
        } else {
            AREAS_AT + self.size
        };
        self.gate = BLOCK_START as u64;
        self.next = next;
        self.fill = LENGTH;
        self.first_fill = BLOCK_START;
    }

    /// Adds a record to the first block, before any record is appended. The block fits the area beside what is reserved.
    pub fn carry(&mut self, lent: LentRecord<'_>, number: u64)
        requires short { IsShort (stands_for lent) }
        requires none_waits { self.old.waiting ≡ [] }
        requires none_flushed { self.old.gate ≡ 5 + length self.old.first }
        requires room { used_by self.old + self.old.reserved + length (spelling number (stands_for lent)) ≤ self.old.size }
        ensures small { IsSmall (record { number = number; entry = stands_for lent.entry }) }
        ensures carried { self.new ≡ record self.old { first = self.old.first ++ spelling number (stands_for lent.entry); gate = self.old.gate + length (spelling number (stands_for lent.entry)) } }
    {
        let size = entry_size(lent) as u64;
        self.first_fill = put_entry(&mut self.first, self.first_fill, number, lent);
        enclose(&mut self.first, self.first_fill);
        self.gate += size;
    }

    /// The first block with its gate open, and the closed gate after it.
    pub fn first_block(&self) -> &[u8]
        ensures bytes { result.now ≡ block self.now.first ++ 0 ∷ [] }
        ensures short { length self.now.first < 2 ^ 28 }
        // A disk whose area begins with these bytes holds the block, before anything is flushed.
        ensures begins { BegunHolds self.now }
    {
        &self.first[..self.first_fill + 1]
    }

    /// Makes the waiting records a block on the disk, in five bytes that are reserved. The area was begun with
    /// `first_block`, and no flush was called after one that failed.
    ///
    /// # Errors
    ///
    /// Where the disk's count of faults rises. The log is as before then.
    pub fn flush<D: Disk>(&mut self, disk: &mut D) -> Result<(), DiskFault>
        requires on_disk { areas_at + 2 * self.old.size ≤ D.size_of disk.old }
        requires room { 5 ≤ self.old.reserved }
        ensures ok { OnOk result (self.new ≡ after_flush self.old) }
        ensures err { OnErr result (self.new ≡ self.old) }
        ensures short { length self.old.waiting < 2 ^ 28 }
        // The area begins with one block more.
        ensures holds { D.is_told → (groups : List (List Entry)) (rs : List Entry)
            → Holds self.old.start self.old.gate self.old.size (D.seen disk.old) groups → self.old.waiting ≡ group rs
            → OnOk result (Holds self.old.start (self.old.gate + (5 + length self.old.waiting)) self.old.size (D.seen disk.new) (groups ++ rs ∷ [])) }
        ensures durable { D.is_told → OnOk result (Only (D.seen disk.new) (D.may_leave disk.new)) }
        // A crash at any moment of the call leaves an area that begins with the blocks from before it, or with one more.
        ensures any_moment { D.is_told → (groups : List (List Entry)) (rs : List Entry)
            → Holds self.old.start self.old.gate self.old.size (D.seen disk.old) groups → self.old.waiting ≡ group rs
            → Only (D.seen disk.old) (D.may_leave disk.old)
            → LeavesOnly D.moment D.left_since disk.old disk.new (FlushLeaves self.old (D.seen disk.old) groups rs) }
        // The bytes outside the area stay.
        ensures outside { D.is_told → OnOk result (IsOutside self.old.start self.old.size (D.seen disk.old) (D.seen disk.new)) }
        ensures size { D.size_of disk.new ≡ D.size_of disk.old }
        ensures cause { CountsFault result (D.faults disk.old) (D.faults disk.new) }
    {
        let gate = self.start + self.gate;
        let Ok(()) = flush_block(disk, gate, &mut self.buffer, self.fill) else {
            return Err(DiskFault);
        };
        self.gate += (self.fill + 1) as u64;
        self.fill = LENGTH;
        self.reserved -= BLOCK_START as u64;
        Ok(())
    }
}

/// An area that holds blocks begins with them, and what changes nothing in the area leaves them. So a crash between two
/// flushes, or during writes to other places, leaves an area whose scan gives the records of these blocks.
pub fn held_blocks_stand()
    ensures begin { HeldBegins }
    ensures stay { HeldStays }
{}
