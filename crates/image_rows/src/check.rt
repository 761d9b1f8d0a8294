//! All entries of an image: rule 12.
ghost use Rattle.std.specs.Prelude.{◌≡◌, ℕ, List, [], Some, IsSome, IfOk, OnOk};
ghost use Rattle.std.specs.FinMap.{get};
ghost use Rattle.std.specs.FinMap as map;
ghost use Rattle.table_laws.specs.Place.{Place};
ghost use Rattle.iv_meaning.specs.Objects.{schema_of};
ghost use Rattle.txn_log.specs.Damaged.{EntryStands, in_texts, texts_found};
ghost use Rattle.txn_log.specs.Stored.{AllCreate};
ghost use Rattle.image_finding.specs.declared.image.FoundImage.{FoundImage};
ghost use Rattle.image_finding.specs.Faults.{IfBad, FindFaults};
ghost use Rattle.image_finding.specs.Rules.{IsRefused};
ghost use Rattle.image_finding.specs.Headers.{as_header, StandsUpTo};
ghost use Rattle.image_finding.specs.Images.{HasImage};
ghost use Rattle.image_entries.specs.declared.stored.StoredEntry.{StoredEntry};
ghost use Rattle.image_entries.specs.Entries.{Gathers, found_entries};
ghost use Rattle.image_entries.specs.Parts.{definitions_in};
ghost use Rattle.image_rows.specs.Rows.{lesser, LeastWith, AreTold, TellsEntry};

use crate::entry::entry_stands;
use image_entries::{EntryMap, StoredEntry};
use image_finding::{BadImage, FindFault};
use iv_types::{Catalog, NoMemory};
use std::alloc::Global;

// The rule of the image that is tested here, by its number.
const ENTRIES_READ: u8 = 12;

/// The lesser of two pages, or the only one.
fn lesser(page: u64, least: Option<u64>) -> u64
    ensures { result ≡ lesser page least }
{
    match least {
        Some(other) => other.min(page),
        None => page,
    }
}

/// The least page with that of this entry, if it fails.
fn with_stored(
    alloc: Global,
    catalog: &Catalog,
    index: u32,
    key: &[u8],
    stored: &StoredEntry,
    least: Option<u64>,
) -> Result<Option<u64>, NoMemory>
    ensures { IfOk result (LeastWith (schema_of catalog.now) (index, key.now) stored.now least) }
{
    if entry_stands(alloc, catalog, index, key, stored.value.as_slice())? {
        return Ok(least);
    }
    Ok(Some(lesser(stored.page, least)))
}

/// The same of the entry at this place.
fn with_place(
    alloc: Global,
    catalog: &Catalog,
    entries: &EntryMap,
    index: u32,
    key: &[u8],
    least: Option<u64>,
) -> Result<Option<u64>, NoMemory>
    requires { IsSome (get entries.now.entries (index, key.now)) }
    ensures { IfOk result (λ found. (s : StoredEntry) → get entries.now.entries (index, key.now) ≡ Some s → LeastWith (schema_of catalog.now) (index, key.now) s least found) }
{
    match entries.get(index, key) {
        Some(stored) => with_stored(alloc, catalog, index, key, stored, least),
        None => unreachable!(),
    }
}

/// The least page with an entry that fails, if there is one.
fn least_failing(
    alloc: Global,
    catalog: &Catalog,
    entries: &EntryMap,
) -> Result<Option<u64>, NoMemory>
    ensures { IfOk result (AreTold (schema_of catalog.now) entries.now.entries) }
{
    let mut least = None;
    let mut next = entries.first_at(0, &[]);
    while let Some((index, key)) = next {
        least = with_place(alloc, catalog, entries, index, key, least)?;
        next = entries.first_after(index, key);
    }
    Ok(least)
}

/// Tests whether each of these entries is a part of a definition, a row of a table under its key, or the numbers of a
/// group of a view, by these definitions: rule 12.
///
/// # Errors
///
/// `BadImage` with rule 12 and the place of the first page with an entry that is none of these. `NoMemory` where there was
/// none for what an entry decodes to.
pub fn check_rows(alloc: Global, catalog: &Catalog, entries: &EntryMap) -> Result<(), FindFault>
    // Each entry stands.
    ensures stand { OnOk result ((p : Place) (s : StoredEntry) → get entries.now.entries p ≡ Some s → EntryStands (schema_of catalog.now) (p, s.value)) }
    // An entry of the page that is told does not, and none of a lesser page.
    ensures refused { IfBad result (λ bad. TellsEntry (schema_of catalog.now) entries.now.entries bad) }
    // That is the least rule that fails in the bytes of an image that has just these entries in its stored pages and these definitions.
    ensures rule { (c : List ℕ) (image : FoundImage) → HasImage c image → Gathers entries.now.entries (found_entries image c) → AllCreate [] (texts_found (in_texts (definitions_in (map.entries entries.now.entries))).1) (schema_of catalog.now) → StandsUpTo 11 c (as_header image.header) → IfBad result (λ bad. IsRefused c bad) }
    // Without an error none up to 12 does.
    ensures passes { (c : List ℕ) (image : FoundImage) → HasImage c image → Gathers entries.now.entries (found_entries image c) → AllCreate [] (texts_found (in_texts (definitions_in (map.entries entries.now.entries))).1) (schema_of catalog.now) → StandsUpTo 11 c (as_header image.header) → OnOk result (StandsUpTo 12 c (as_header image.header)) }
    // The disk is not asked.
    ensures no_disk { (count : ℕ) → FindFaults result count count }
{
    match least_failing(alloc, catalog, entries) {
        Ok(None) => Ok(()),
        Ok(Some(place)) => Err(FindFault::BadImage(BadImage {
            rule: ENTRIES_READ,
            place,
        })),
        Err(NoMemory) => Err(FindFault::NoMemory),
    }
}
