//! The entries of a page, each under its place in a map: rule 10.
ghost use Rattle.std.specs.Prelude.{◌≡◌, ◌≢◌, ◌++◌, ℕ, List, length, Some, None, IfOk, OnOk};
ghost use Rattle.std.specs.FinMap.{get, insert};
ghost use Rattle.slot_page.specs.Page.{index_of, IsLeaf};
ghost use Rattle.txn_log.specs.Damaged.{Found, found_in};
ghost use Rattle.log_disk.specs.Bears.{page_entries};
ghost use Rattle.image_finding.specs.Faults.{IfBad, FindFaults};
ghost use Rattle.image_entries.specs.Entries.{Gathers, TellsTwice};

use crate::fault::{KEYS_APART, with_memory};
use crate::stored::{EntryMap, StoredEntry};
use image_finding::{BadImage, FindFault};
use iv_types::Bytes;
use slot_page::{count, entry, index};
use spare_map::Spare;
use std::alloc::Global;

/// Puts an entry into room of its own.
fn put_entry(
    alloc: Global,
    entries: &mut EntryMap,
    index: u32,
    key: &[u8],
    stored: StoredEntry,
) -> Result<(), FindFault>
    requires { get entries.old.entries (index, key.now) ≡ None }
    ensures put { OnOk result (entries.new.entries ≡ insert entries.old.entries (index, key.now) stored) }
    ensures no_rule { IfBad result (λ _. ⊥) }
    ensures no_disk { (count : ℕ) → FindFaults result count count }
{
    let key = Bytes::from_vec(key.to_vec(alloc)?);
    let room = with_memory(Spare::new(alloc))?;
    entries.insert_into(room, index, key, stored);
    Ok(())
}

/// Puts an entry of the page that begins at this place under its place.
fn take_entry(
    alloc: Global,
    entries: &mut EntryMap,
    page: u64,
    index: u32,
    key: &[u8],
    value: &[u8],
) -> Result<(), FindFault>
    ensures new { OnOk result (get entries.old.entries (index, key.now) ≡ None) }
    ensures put { OnOk result (entries.new.entries ≡ insert entries.old.entries (index, key.now) (record { page = page; value = value.now })) }
    ensures twice { IfBad result (λ bad. (get entries.old.entries (index, key.now) ≢ None) × (bad.rule ≡ 10) × (bad.place ≡ page)) }
    ensures no_disk { (count : ℕ) → FindFaults result count count }
{
    if entries.get(index, key).is_some() {
        return Err(FindFault::BadImage(BadImage {
            rule: KEYS_APART,
            place: page,
        }));
    }
    let value = Bytes::from_vec(value.to_vec(alloc)?);
    put_entry(alloc, entries, index, key, StoredEntry { page, value })
}

/// Puts the entries of a page that begins at this place under their places, beside those of the pages before it.
pub(crate) fn take_page(
    alloc: Global,
    entries: &mut EntryMap,
    place: u64,
    page: &[u8],
) -> Result<(), FindFault>
    requires size { length page.now ≡ 8192 }
    requires leaf { IsLeaf page.now }
    ensures taken { (fs : List Found) → Gathers entries.old.entries fs → OnOk result (Gathers entries.new.entries (fs ++ found_in place (page_entries page.now))) }
    ensures twice { (fs rest : List Found) → Gathers entries.old.entries fs → IfBad result (λ bad. TellsTwice (fs ++ (found_in place (page_entries page.now) ++ rest)) bad) }
    ensures no_disk { (count : ℕ) → FindFaults result count count }
{
    let of = index(page);
    for i in 0..count(page) {
        let (key, value) = entry(page, i);
        if let Err(fault) = take_entry(alloc, entries, place, of, key, value) {
            return Err(fault);
        }
    }
    Ok(())
}
