//! The texts of definitions, put into sorted maps in their parts.
ghost use Rattle.std.specs.Prelude.{◌≡◌, ◌≢◌, ◌↔◌, ◌<◌, ◌≤◌, ◌^◌, ◌++◌, ◌∷◌, ℕ, List, [], length, None, IsTrue, IfOk, OnOk, OnErr};
ghost use Rattle.std.specs.List.{AllByRecursion};
ghost use Rattle.std.specs.FinMap.{empty};
ghost use Rattle.iv_types.specs.Definitions.{Definitions};
ghost use Rattle.iv_meaning.specs.Schema.{Schema, Object};
ghost use Rattle.iv_meaning.specs.Objects.{schema_of};
ghost use Rattle.txn_log.specs.Appended.{Creates};
ghost use Rattle.txn_log.specs.Damaged.{in_texts, texts_found};
ghost use Rattle.txn_log.specs.Stored.{AllCreate};
ghost use Rattle.definition_parts.specs.Parts.{parts_map, IsShort};
ghost use Rattle.image_entries.specs.Parts.{parts_found, KeysStand, SizesStand};
ghost use Rattle.image_catalog.specs.Texts.{BeginsAt, texts_from};
ghost use Rattle.image_catalog.specs.Storing.{HasBefore, StoresText, StoresKept};

use crate::defining::printed;
use crate::texts::text_at;
use definition_parts::{parts_of, put_parts, reserve_parts};
use image_entries::Part;
use iv_types::{NoMemory, SortedMaps};
use std::alloc::Global;

/// The most bytes of a text whose parts two bytes tell apart: 65,536 parts of 1,024 bytes.
const MOST_BYTES: usize = 1 << 26;

/// Whether two bytes tell the parts of a text apart.
fn is_short(text: &[u8]) -> bool
    ensures { IsTrue result ↔ IsShort text.now }
{
    text.len() <= MOST_BYTES
}

/// Puts the text of the object that comes next behind those before it.
fn put_text<M: SortedMaps>(
    alloc: Global,
    maps: &mut M,
    number: u32,
    text: &[u8],
) -> Result<(), NoMemory>
    requires short { IsShort text.now }
    requires before { (texts : List (List ℕ)) × HasBefore number (M.maps maps.old 0) texts }
    requires limit { M.limit maps.old ≡ None }
    ensures stored { OnOk result ((texts : List (List ℕ)) → HasBefore number (M.maps maps.old 0) texts → M.maps maps.new 0 ≡ parts_map (texts ++ text.now ∷ [])) }
    ensures err { OnErr result (M.maps maps.new 0 ≡ M.maps maps.old 0) }
    ensures others { (i : ℕ) → i ≢ 0 → M.maps maps.new i ≡ M.maps maps.old i }
    ensures other_rooms { (i : ℕ) → i ≢ 0 → M.spare maps.old i ≤ M.spare maps.new i }
    ensures limit { M.limit maps.new ≡ M.limit maps.old }
{
    let parts = parts_of(alloc, number, text)?;
    reserve_parts(maps, text)?;
    put_parts(maps, parts);
    Ok(())
}

/// Puts the text of the object that comes next behind those before it, into maps without a limit: in its parts, each under the
/// object's number and its own. A text of more than 64 MiB has more parts than two bytes tell apart: what its statement is printed
/// as is put in then, which makes the same object.
///
/// # Errors
///
/// Where there is no memory for it. No entry is changed then.
pub fn put_next_text<M: SortedMaps>(
    alloc: Global,
    maps: &mut M,
    number: u32,
    text: &[u8],
) -> Result<(), NoMemory>
    requires creates { (objects : Schema) × (o : Object) × Creates objects text.now o }
    requires before { (texts : List (List ℕ)) × HasBefore number (M.maps maps.old 0) texts }
    requires limit { M.limit maps.old ≡ None }
    ensures stored { OnOk result ((texts : List (List ℕ)) → HasBefore number (M.maps maps.old 0) texts → StoresKept text.now texts (M.maps maps.new 0)) }
    ensures err { OnErr result (M.maps maps.new 0 ≡ M.maps maps.old 0) }
    // The other indexes keep their entries and their room.
    ensures others { (i : ℕ) → i ≢ 0 → M.maps maps.new i ≡ M.maps maps.old i }
    ensures other_rooms { (i : ℕ) → i ≢ 0 → M.spare maps.old i ≤ M.spare maps.new i }
    ensures limit { M.limit maps.new ≡ M.limit maps.old }
{
    if is_short(text) {
        return put_text(alloc, maps, number, text);
    }
    let bytes = printed(alloc, text)?;
    put_text(alloc, maps, number, bytes.as_slice())
}

/// Puts the text whose first part stands at this place behind those before it, and answers how many parts stand up to its last.
fn put_text_at<M: SortedMaps>(
    alloc: Global,
    maps: &mut M,
    number: u32,
    parts: &[Part],
    at: usize,
) -> Result<usize, NoMemory>
    requires inside { at < length parts.now }
    requires begins { BeginsAt at (parts_found parts.now) }
    requires short { AllByRecursion IsShort (texts_found (texts_from at (parts_found parts.now))) }
    requires before { (texts : List (List ℕ)) × HasBefore number (M.maps maps.old 0) texts }
    requires limit { M.limit maps.old ≡ None }
    ensures stored { IfOk result (λ end. (texts : List (List ℕ)) → HasBefore number (M.maps maps.old 0) texts → StoresText at end (parts_found parts.now) texts (M.maps maps.new 0)) }
    ensures further { IfOk result (λ end. at < end) }
    ensures within { IfOk result (λ end. end ≤ length parts.now) }
    ensures others { (i : ℕ) → i ≢ 0 → M.maps maps.new i ≡ M.maps maps.old i }
    ensures other_rooms { (i : ℕ) → i ≢ 0 → M.spare maps.old i ≤ M.spare maps.new i }
    ensures limit { M.limit maps.new ≡ M.limit maps.old }
{
    let text = text_at(alloc, parts, at)?;
    put_text(alloc, maps, number, &text.bytes)?;
    Ok(text.end)
}

/// Puts the texts of definitions into maps without a limit that have none under index 0: in their parts, each under its
/// object's number and its own. Each text is joined, put in and let go before the next.
///
/// # Errors
///
/// Where there is no memory for it. Some texts may have been put in then.
pub fn put_texts<M: SortedMaps>(alloc: Global, maps: &mut M, parts: &[Part]) -> Result<(), NoMemory>
    requires keys { KeysStand (parts_found parts.now) }
    requires sizes { SizesStand (parts_found parts.now) }
    // The numbers of objects would begin again behind the last of four bytes: that the texts make objects says that they are few.
    requires made { (objects : Schema) × AllCreate [] (texts_found (in_texts (parts_found parts.now)).1) objects }
    requires empty { M.maps maps.old 0 ≡ empty }
    requires limit { M.limit maps.old ≡ None }
    // Index 0 has just their parts.
    ensures stored { OnOk result (M.maps maps.new 0 ≡ parts_map (texts_found (in_texts (parts_found parts.now)).1)) }
    // Two bytes tell the parts of each apart, and four bytes the texts, of which there is one for each definition that they make.
    ensures short { AllByRecursion IsShort (texts_found (in_texts (parts_found parts.now)).1) }
    ensures few { length (texts_found (in_texts (parts_found parts.now)).1) < 2 ^ 32 }
    ensures many { (definitions : Definitions) → AllCreate [] (texts_found (in_texts (parts_found parts.now)).1) (schema_of definitions) → length (texts_found (in_texts (parts_found parts.now)).1) ≡ length definitions }
    // The other indexes keep their entries and their room.
    ensures others { (i : ℕ) → i ≢ 0 → M.maps maps.new i ≡ M.maps maps.old i }
    ensures other_rooms { (i : ℕ) → i ≢ 0 → M.spare maps.old i ≤ M.spare maps.new i }
    ensures limit { M.limit maps.new ≡ M.limit maps.old }
{
    let mut at = 0;
    let mut number = 1;
    while at < parts.len() {
        at = put_text_at(alloc, maps, number, parts, at)?;
        number += 1;
    }
    Ok(())
}
