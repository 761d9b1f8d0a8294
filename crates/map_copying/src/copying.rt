//! The entries of all indexes, one index after another.
ghost use Rattle.std.specs.Prelude.{◌≡◌, ◌≢◌, ◌+◌, ◌<◌, ◌≤◌, ◌^◌, ℕ, List, Some, OnOk};
ghost use Rattle.std.specs.FinMap.{get, empty};
ghost use Rattle.iv_types.specs.Maps.{CanHold, IsWithin, last_index, map_size, used};

use crate::gathering::entries_of;
use iv_types::{NoMemory, SortedMaps};
use std::alloc::Global;
use table_store::put_all;

// The indexes 0 to 192.
const INDEXES: u32 = 193;

// Copies the entries of an index into maps in which it has none.
fn copy_index<A: SortedMaps, B: SortedMaps>(
    alloc: Global,
    from: &A,
    to: &mut B,
    index: u32,
) -> Result<(), NoMemory>
    requires index { index ≤ last_index }
    requires empty { B.maps to.old index ≡ empty }
    requires held { (key value : List ℕ) → get (A.maps from.now index) key ≡ Some value → CanHold index key value }
    requires limit { (most : ℕ) × (B.limit to.old ≡ Some most) × (most < 2 ^ 32) × (used (B.maps to.old) + map_size (A.maps from.now index) ≤ most) }
    ensures copied { OnOk result (B.maps to.new index ≡ A.maps from.now index) }
    ensures others { (n : ℕ) → n ≢ index → B.maps to.new n ≡ B.maps to.old n }
    ensures limit { B.limit to.new ≡ B.limit to.old }
{
    let entries = entries_of(alloc, from, index)?;
    to.reserve(index, entries.as_slice().len() as u32)?;
    put_all(to, index, entries);
    Ok(())
}

/// Copies the entries of all indexes into maps that have none.
///
/// # Errors
///
/// Where there is no memory for it. Some entries may have been copied then.
pub fn copy_maps<A: SortedMaps, B: SortedMaps>(
    alloc: Global,
    from: &A,
    to: &mut B,
) -> Result<(), NoMemory>
    requires empty { (index : ℕ) → B.maps to.old index ≡ empty }
    requires held { (index : ℕ) (key value : List ℕ) → index ≤ last_index → get (A.maps from.now index) key ≡ Some value → CanHold index key value }
    requires limit { (most : ℕ) × (B.limit to.old ≡ Some most) × (most < 2 ^ 32) × (used (A.maps from.now) ≤ most) }
    ensures copied { OnOk result ((index : ℕ) → index ≤ last_index → B.maps to.new index ≡ A.maps from.now index) }
    ensures beyond { (index : ℕ) → last_index < index → B.maps to.new index ≡ empty }
    ensures limit { B.limit to.new ≡ B.limit to.old }
{
    for index in 0..INDEXES {
        copy_index(alloc, from, to, index)?;
    }
    Ok(())
}
