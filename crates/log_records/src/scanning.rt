//! Reading an area that a crash may have left.
ghost use Rattle.std.specs.Prelude.{◌≡◌, ◌+◌, ◌≤◌, ◌<◌, ◌^◌, true, false, List, ℕ, length, drop, IfSome, IfNone, IfOk, IfErr, map, get_or, ◌==◌};
ghost use Rattle.std.specs.List.{AllByRecursion};
ghost use Rattle.log_records.specs.Area.{Entry, unplaced, Begins, BeginsWith, FitsBlock, at_place, laid};
ghost use Rattle.log_records.specs.Reading.{record_at};
ghost use Rattle.log_records.specs.Scan.{Answers, without_rest, Fails, with_before, or_seven, records, frames, framed, holds_block, frame_size, scanned, all_records};
ghost use Rattle.log_records.specs.declared.fault.ScanFault.TheVariants as faults;

use crate::fault::Unread;
use crate::reading::record_of;
use crate::{Record, RecordList, ScanFault, Scanned};
use byteorder::{BigEndian, ByteOrder};
use std::alloc::Global;

/// The gate of a block that counts.
pub const OPEN: u8 = 0xA5;

// A block that does not lie in its area fails this rule.
const BLOCK_LIES_INSIDE: u8 = 6;

// Bytes that are no whole record fail this rule.
const RECORDS_ARE_WHOLE: u8 = 7;

// The record that begins the bytes, whose first byte has this place.
fn entry_at(alloc: Global, place: u64, bytes: &[u8]) -> Result<(Scanned, &[u8]), ScanFault>
    requires { place + length bytes.now < 2 ^ 64 }
    ensures exact { Answers (λ x. (x.0, x.1.now)) result (or_seven place (record_at place bytes.now)) }
    ensures ends { IfOk result (λ x. x.0.end + length x.1.now ≡ place + length bytes.now) }
{
    match record_of(alloc, place, bytes) {
        Ok(read) => Ok(read),
        Err(Unread::NoRecord) => Err(ScanFault::Bad(RECORDS_ARE_WHOLE, place)),
        Err(Unread::NoMemory) => Err(ScanFault::NoMemory),
    }
}

// The records of one block, behind those that were read before.
fn read_block(
    alloc: Global,
    block: &[u8],
    place: u64,
    out: &mut Vec<Scanned>,
) -> Result<(), ScanFault>
    requires { place + length block.now < 2 ^ 64 }
    ensures ok { IfOk result (λ _. with_before out.old.items (records (length block.now) place block.now) ≡ Ok out.new.items) }
    ensures err { IfErr result (λ e. Fails e (records (length block.now) place block.now)) }
{
    let mut at = place;
    let mut rest = block;
    for _ in 0..block.len() {
        if rest.is_empty() {
            return Ok(());
        }
        let (read, after) = match entry_at(alloc, at, rest) {
            Ok(found) => found,
            Err(fault) => return Err(fault),
        };
        at = read.end;
        out.push(read)?;
        rest = after;
    }
    Ok(())
}

// Whether an open gate begins the bytes.
fn is_open(bytes: &[u8]) -> bool
    ensures { result ≡ (get_or bytes.now 0 0 == 165) }
{
    !bytes.is_empty() && bytes[0] == OPEN
}

// The size of the block that begins the bytes, if it and the gate after it lie there.
fn block_size(bytes: &[u8]) -> Option<usize>
    ensures some { IfSome result (λ n. (holds_block bytes.now ≡ true) × (n ≡ frame_size bytes.now) × (n < length bytes.now)) }
    ensures none { IfNone result (holds_block bytes.now ≡ false) }
{
    if bytes.len() < 5 {
        return None;
    }
    let size = 5 + BigEndian::read_u32(&bytes[1..]) as usize;
    if bytes.len() < size + 1 {
        return None;
    }
    Some(size)
}

// The open blocks from the area's start on: where each one's records begin, and how many bytes they have.
fn find_blocks(alloc: Global, area: &[u8]) -> Result<Vec<(usize, usize)>, ScanFault>
    ensures all { Answers (λ found. map (framed area.now) found.items) result (frames (length area.now) 0 area.now) }
    ensures inside { IfOk result (λ found. AllByRecursion (λ p. p.0 + p.1 ≤ length area.now) found.items) }
{
    let mut found = Vec::new(alloc);
    let mut place = 0;
    for _ in 0..area.len() {
        let rest = &area[place..];
        if !is_open(rest) {
            return Ok(found);
        }
        let Some(size) = block_size(rest) else {
            return Err(ScanFault::Bad(BLOCK_LIES_INSIDE, place as u64));
        };
        found.push((place + 5, size - 5))?;
        place += size;
    }
    Ok(found)
}

// The records of these blocks.
fn read_all(alloc: Global, area: &[u8], found: &[(usize, usize)]) -> Result<Vec<Scanned>, ScanFault>
    requires { AllByRecursion (λ p. p.0 + p.1 ≤ length area.now) found.now }
    ensures { Answers (λ read. read.items) result (all_records (map (framed area.now) found.now)) }
{
    let mut out = Vec::new(alloc);
    for block in found {
        let (start, size) = *block;
        if let Err(fault) = read_block(alloc, &area[start..start + size], start as u64, &mut out) {
            return Err(fault);
        }
    }
    Ok(out)
}

// The records of an area, or its first fault.
fn scan_blocks(alloc: Global, area: &[u8]) -> Result<Vec<Scanned>, ScanFault>
    ensures { Answers (λ read. read.items) result (scanned area.now) }
{
    match find_blocks(alloc, area) {
        Ok(found) => read_all(alloc, area, &found),
        Err(fault) => Err(fault),
    }
}

/// The records of an area, whatever its bytes are, up to the first gate that is not open. Places are counted from the
/// area's first byte, from 0.
///
/// # Errors
///
/// `Bad(6, place)` at the first open gate whose block, or the gate behind it, does not lie in the area; where there is
/// none, `Bad(7, place)` at the first byte of a block at which no whole record begins. `NoMemory` where there was none
/// for what is read.
pub fn scan(alloc: Global, area: &[u8]) -> Result<RecordList, ScanFault>
    // It is what the area stands for, or the area's first fault.
    ensures exact { Answers (λ read. read) result (scanned area.now) }
    // An area that begins with blocks and then a gate that is not open gives the records of these blocks.
    ensures blocks { (groups : List (List Entry)) → Begins groups area.now → AllByRecursion FitsBlock groups → Answers (λ read. read) result (Ok (laid 0 groups)) }
{
    match scan_blocks(alloc, area) {
        Ok(read) => Ok(RecordList::from_vec(read)),
        Err(fault) => Err(fault),
    }
}

// The record at a place, by the rule that reads it.
fn exact_entry(alloc: Global, bytes: &[u8], place: u64) -> Result<Scanned, ScanFault>
    ensures { Answers (λ x. x) result (without_rest (or_seven place (record_at place (drop place bytes.now)))) }
{
    if place > bytes.len() as u64 {
        return Err(ScanFault::Bad(RECORDS_ARE_WHOLE, place));
    }
    match entry_at(alloc, place, &bytes[place as usize..]) {
        Ok((read, _)) => Ok(read),
        Err(fault) => Err(fault),
    }
}

/// The record that begins at a place of the bytes, counted from 0. Other bytes may follow it.
///
/// # Errors
///
/// `Bad(7, place)` exactly where no whole record begins at the place. `NoMemory` where there was none for the record.
pub fn read_entry(alloc: Global, bytes: &[u8], place: u64) -> Result<Scanned, ScanFault>
    // What is read stands there, byte for byte.
    ensures found { IfOk result (λ s. BeginsWith s.number s.entry (drop place bytes.now) × (s ≡ at_place place (unplaced s))) }
    // What stands there is read.
    ensures only { (number : ℕ) (entry : Record) → BeginsWith number entry (drop place bytes.now) → Answers (λ s. s) result (Ok (at_place place (record { number = number; entry = entry }))) }
    ensures fault { (rule at : ℕ) → result ≡ Err (faults.Bad rule at) → (rule ≡ 7) × (at ≡ place) }
{
    exact_entry(alloc, bytes, place)
}
