//! The catalog of an image: rule 11, by the texts of definitions.
ghost use Rattle.std.specs.Prelude.{◌≡◌, ◌<◌, ◌≤◌, ℕ, List, [], length, IfOk, OnOk};
ghost use Rattle.std.specs.FinMap.{FinMap};
ghost use Rattle.std.specs.FinMap as map;
ghost use Rattle.table_laws.specs.Place.{place_cmp};
ghost use Rattle.iv_meaning.specs.Objects.{schema_of};
ghost use Rattle.txn_log.specs.Damaged.{in_texts, texts_found};
ghost use Rattle.txn_log.specs.Stored.{AllCreate};
ghost use Rattle.image_finding.specs.Faults.{IfBad, FindFaults};
ghost use Rattle.image_finding.specs.declared.image.FoundImage.{FoundImage};
ghost use Rattle.image_finding.specs.Rules.{IsRefused};
ghost use Rattle.image_finding.specs.Headers.{as_header, StandsUpTo};
ghost use Rattle.image_finding.specs.Images.{HasImage};
ghost use Rattle.image_entries.specs.declared.stored.StoredEntry.{StoredEntry};
ghost use Rattle.image_entries.specs.Entries.{Gathers, found_entries};
ghost use Rattle.image_entries.specs.Parts.{parts_found, definitions_in, KeysStand, SizesStand};
ghost use Rattle.image_catalog.specs.Texts.{BeginsAt, AreMade, TakesText, RefusesText, TellsText};

use crate::defining::define;
use crate::texts::text_at;
use image_entries::{DEFINITIONS_READ, Part};
use image_finding::{BadImage, FindFault};
use iv_types::{Catalog, NoMemory};
use std::alloc::Global;

/// Adds what the text whose first part stands at this place defines, and answers how many parts stand up to its last.
fn take_text(
    alloc: Global,
    catalog: &mut Catalog,
    parts: &[Part],
    at: usize,
) -> Result<usize, FindFault>
    requires inside { at < length parts.now }
    requires begins { BeginsAt at (parts_found parts.now) }
    requires made { AreMade (schema_of catalog.old) }
    ensures taken { IfOk result (λ end. TakesText at end (parts_found parts.now) (schema_of catalog.old) (schema_of catalog.new)) }
    ensures within { IfOk result (λ end. end ≤ length parts.now) }
    ensures refused { IfBad result (λ bad. RefusesText at (parts_found parts.now) (schema_of catalog.old) bad) }
    ensures no_disk { (count : ℕ) → FindFaults result count count }
{
    let text = match text_at(alloc, parts, at) {
        Ok(text) => text,
        Err(NoMemory) => return Err(FindFault::NoMemory),
    };
    match define(alloc, catalog, &text.bytes) {
        Ok(true) => Ok(text.end),
        Ok(false) => Err(FindFault::BadImage(BadImage {
            rule: DEFINITIONS_READ,
            place: text.page,
        })),
        Err(NoMemory) => Err(FindFault::NoMemory),
    }
}

/// Adds what all texts define to a catalog without definitions.
fn take_texts(alloc: Global, catalog: &mut Catalog, parts: &[Part]) -> Result<(), FindFault>
    requires empty { catalog.old ≡ [] }
    requires keys { KeysStand (parts_found parts.now) }
    ensures made { OnOk result (AllCreate [] (texts_found (in_texts (parts_found parts.now)).1) (schema_of catalog.new)) }
    ensures refused { IfBad result (λ bad. TellsText (parts_found parts.now) bad) }
    ensures no_disk { (count : ℕ) → FindFaults result count count }
{
    let mut at = 0;
    while at < parts.len() {
        match take_text(alloc, catalog, parts, at) {
            Ok(end) => at = end,
            Err(fault) => return Err(fault),
        }
    }
    Ok(())
}

/// The catalog that the definitions of these parts make. Each text is joined and read once, and let go before the next.
///
/// # Errors
///
/// `BadImage` with rule 11 and the place of the page of the first part of the first definition whose text is no CREATE
/// statement that binds after those before it. `NoMemory` where there was none for it.
pub fn read_catalog(alloc: Global, parts: &[Part]) -> Result<Catalog, FindFault>
    requires keys { KeysStand (parts_found parts.now) }
    requires sizes { SizesStand (parts_found parts.now) }
    // Each text makes the object that comes next.
    ensures made { IfOk result (λ catalog. AllCreate [] (texts_found (in_texts (parts_found parts.now)).1) (schema_of catalog)) }
    // What is told is the first text that does not.
    ensures refused { IfBad result (λ bad. TellsText (parts_found parts.now) bad) }
    // And it is the least rule that fails in the bytes of an image that has just these parts among the entries of its stored pages.
    ensures rule { (c : List ℕ) (image : FoundImage) (entries : FinMap place_cmp StoredEntry) → HasImage c image → Gathers entries (found_entries image c) → parts_found parts.now ≡ definitions_in (map.entries entries) → StandsUpTo 10 c (as_header image.header) → IfBad result (λ bad. IsRefused c bad) }
    // No rule up to 11 fails there.
    ensures passes { (c : List ℕ) (image : FoundImage) (entries : FinMap place_cmp StoredEntry) → HasImage c image → Gathers entries (found_entries image c) → parts_found parts.now ≡ definitions_in (map.entries entries) → StandsUpTo 10 c (as_header image.header) → OnOk result (StandsUpTo 11 c (as_header image.header)) }
    // The disk is not asked.
    ensures no_disk { (count : ℕ) → FindFaults result count count }
{
    let mut catalog = Catalog::new(alloc);
    match take_texts(alloc, &mut catalog, parts) {
        Ok(()) => Ok(catalog),
        Err(fault) => {
            catalog.let_go();
            Err(fault)
        }
    }
}
