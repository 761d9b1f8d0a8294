//! The parts of a text.
ghost use Rattle.std.specs.Prelude.{◌≡◌, IfOk};
ghost use Rattle.txn_log.specs.Damaged.{part_key};
ghost use Rattle.definition_parts.specs.Parts.{part_entry, part_entries, IsShort};

use byteorder::{BigEndian, ByteOrder};
use iv_types::{Bytes, IndexEntry, IndexEntryList, NoMemory};
use std::alloc::Global;

/// The most bytes of a part.
pub(crate) const PART_BYTES: usize = 1024;

// The key of a part: four bytes of its object's number, and two of its own.
fn part_key(alloc: Global, number: u32, part: u16) -> Result<Bytes, NoMemory>
    ensures { IfOk result (λ key. key ≡ part_key number part) }
{
    let mut object = [0; 4];
    BigEndian::write_u32(&mut object, number);
    let mut own = [0; 2];
    BigEndian::write_u16(&mut own, part);
    let mut key = Vec::new(alloc);
    key.extend_from_slice(&object)?;
    key.extend_from_slice(&own)?;
    Ok(Bytes::from_vec(key))
}

// A part as an entry.
fn part_entry(alloc: Global, number: u32, part: u16, bytes: &[u8]) -> Result<IndexEntry, NoMemory>
    ensures { IfOk result (λ entry. entry ≡ part_entry number part bytes.now) }
{
    let key = part_key(alloc, number, part)?;
    let value = Bytes::from_vec(bytes.to_vec(alloc)?);
    Ok(IndexEntry {
        index: 0,
        key,
        value,
    })
}

/// The entries of the text of an object's definition: those before the last have 1,024 bytes of the text.
///
/// # Errors
///
/// Where there is no memory for them.
pub fn parts_of(alloc: Global, number: u32, text: &[u8]) -> Result<IndexEntryList, NoMemory>
    requires short { IsShort text.now }
    ensures { IfOk result (λ parts. parts ≡ part_entries number text.now) }
{
    let mut parts = IndexEntryList::new(alloc);
    for part in 0..text.len().div_ceil(PART_BYTES) {
        let from = part * PART_BYTES;
        let to = (from + PART_BYTES).min(text.len());
        parts.push(part_entry(alloc, number, part as u16, &text[from..to])?)?;
    }
    Ok(parts)
}
