//! The parts of definitions, in the order of their keys.
ghost use Rattle.std.specs.Prelude.{◌≡◌, ℕ, IsSome, IfOk};
ghost use Rattle.std.specs.FinMap.{get};
ghost use Rattle.std.specs.FinMap as map;
ghost use Rattle.image_finding.specs.Faults.{IfBad, FindFaults};
ghost use Rattle.image_entries.specs.Parts.{IsPartOf, IsPartAt, parts_found, definitions_in};

use crate::stored::{EntryMap, StoredEntry};
use image_finding::FindFault;
use iv_types::Bytes;
use std::alloc::Global;

/// A part of a definition's text, as it stands in an entry of index 0.
#[derive(Drop)]
pub struct Part {
    /// Where its page begins, a byte of the device.
    pub page: u64,
    /// The object number in four bytes and the part's own in two.
    pub key: Bytes,
    /// The bytes of the text.
    pub value: Bytes,
}

/// The same bytes again.
fn copied(alloc: Global, bytes: &[u8]) -> Result<Bytes, FindFault>
    ensures copy { IfOk result (λ copy. copy ≡ bytes.now) }
    ensures no_rule { IfBad result (λ _. ⊥) }
    ensures no_disk { (count : ℕ) → FindFaults result count count }
{
    Ok(Bytes::from_vec(bytes.to_vec(alloc)?))
}

/// The part that is kept under a key.
fn part_of(alloc: Global, stored: &StoredEntry, key: &[u8]) -> Result<Part, FindFault>
    ensures part { IfOk result (IsPartOf stored.now key.now) }
    ensures no_rule { IfBad result (λ _. ⊥) }
    ensures no_disk { (count : ℕ) → FindFaults result count count }
{
    let key = copied(alloc, key)?;
    let value = copied(alloc, stored.value.as_slice())?;
    let page = stored.page;
    Ok(Part { page, key, value })
}

/// The part under a key.
fn part_at(alloc: Global, entries: &EntryMap, key: &[u8]) -> Result<Part, FindFault>
    requires { IsSome (get entries.now.entries (0, key.now)) }
    ensures part { IfOk result (IsPartAt (get entries.now.entries (0, key.now)) key.now) }
    ensures no_rule { IfBad result (λ _. ⊥) }
    ensures no_disk { (count : ℕ) → FindFaults result count count }
{
    match entries.get(0, key) {
        Some(stored) => part_of(alloc, stored, key),
        None => unreachable!(),
    }
}

/// The parts of all definitions, which stand before the entries of all other indexes.
pub(crate) fn definition_parts(alloc: Global, entries: &EntryMap) -> Result<Vec<Part>, FindFault>
    ensures parts { IfOk result (λ parts. parts_found parts.items ≡ definitions_in (map.entries entries.now.entries)) }
    ensures no_rule { IfBad result (λ _. ⊥) }
    ensures no_disk { (count : ℕ) → FindFaults result count count }
{
    let mut parts = Vec::new(alloc);
    let mut next = entries.first_at(0, &[]);
    while let Some((index, key)) = next {
        if index != 0 {
            return Ok(parts);
        }
        parts.push(part_at(alloc, entries, key)?)?;
        next = entries.first_after(0, key);
    }
    Ok(parts)
}
