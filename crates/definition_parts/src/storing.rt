//! Parts are stored.
ghost use Rattle.std.specs.Prelude.{◌≡◌, ◌≢◌, ◌+◌, ◌≤◌, ◌^◌, ◌<◌, ◌++◌, ◌∷◌, [], ℕ, List, length, OnOk};
ghost use Rattle.table_store.specs.Filling.{filled};
ghost use Rattle.txn_log.specs.Stored.{in_parts};
ghost use Rattle.definition_parts.specs.Parts.{parts_map, CanPutText};

use crate::parts::PART_BYTES;
use iv_types::{IndexEntryList, NoMemory, SortedMaps};
use table_store::put_all;

/// Makes room for the parts of a definition's text.
///
/// # Errors
///
/// Where there is no memory for them.
pub fn reserve_parts<M: SortedMaps>(maps: &mut M, text: &[u8]) -> Result<(), NoMemory>
    requires { length text.now < 2 ^ 32 }
    ensures room { OnOk result (length (in_parts text.now) ≤ M.spare maps.new 0) }
    ensures maps { (i : ℕ) → M.maps maps.new i ≡ M.maps maps.old i }
    ensures spare { (i : ℕ) → M.spare maps.old i ≤ M.spare maps.new i }
    ensures limit { M.limit maps.new ≡ M.limit maps.old }
{
    maps.reserve(0, text.len().div_ceil(PART_BYTES) as u32)
}

/// Stores the parts of the text of the next object, for which there is room. Takes no memory.
pub fn put_parts<M: SortedMaps>(maps: &mut M, parts: IndexEntryList)
    requires { (texts : List (List ℕ)) × (text : List ℕ) × CanPutText (M.maps maps.old) (M.spare maps.old 0) (M.limit maps.old) texts text parts }
    ensures entries { M.maps maps.new 0 ≡ filled (M.maps maps.old 0) parts }
    ensures stored { (texts : List (List ℕ)) (text : List ℕ) → CanPutText (M.maps maps.old) (M.spare maps.old 0) (M.limit maps.old) texts text parts
        → M.maps maps.new 0 ≡ parts_map (texts ++ text ∷ []) }
    ensures others { (i : ℕ) → i ≢ 0 → M.maps maps.new i ≡ M.maps maps.old i }
    ensures room { M.spare maps.old 0 ≤ M.spare maps.new 0 + length parts }
    ensures other_rooms { (i : ℕ) → i ≢ 0 → M.spare maps.old i ≤ M.spare maps.new i }
    ensures limit { M.limit maps.new ≡ M.limit maps.old }
{
    put_all(maps, 0, parts);
}
