//! The entries of one index.
ghost use Rattle.std.specs.Prelude.{◌≡◌, IfOk};
ghost use Rattle.std.specs.FinMap.{entries};
ghost use Rattle.map_copying.specs.Entries.{entries_in};

use iv_types::{Bytes, IndexEntry, IndexEntryList, NoMemory, SortedMaps};
use std::alloc::Global;

// A copy of bytes.
fn copy_of(alloc: Global, bytes: &[u8]) -> Result<Bytes, NoMemory>
    ensures { IfOk result (λ copy. copy ≡ bytes.now) }
{
    Ok(Bytes::from_vec(Vec::from_slice(alloc, bytes)?))
}

// A copy of an entry of an index.
fn entry_of(alloc: Global, index: u32, key: &[u8], value: &[u8]) -> Result<IndexEntry, NoMemory>
    ensures { IfOk result (λ e. e ≡ record { index = index; key = key.now; value = value.now }) }
{
    Ok(IndexEntry {
        index,
        key: copy_of(alloc, key)?,
        value: copy_of(alloc, value)?,
    })
}

/// Copies of the entries of an index, in the order of their keys.
///
/// # Errors
///
/// Where there is no memory for them.
pub(crate) fn entries_of<M: SortedMaps>(
    alloc: Global,
    maps: &M,
    index: u32,
) -> Result<IndexEntryList, NoMemory>
    ensures { IfOk result (λ found. found ≡ entries_in index (entries (M.maps maps.now index))) }
{
    let mut found = IndexEntryList::new(alloc);
    let mut next = maps.first_at(index, &[]);
    while let Some((key, value)) = next {
        found.push(entry_of(alloc, index, key, value)?)?;
        next = maps.first_after(index, key);
    }
    Ok(found)
}
