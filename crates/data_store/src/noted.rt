//! What the rows of a view count in a note, by its entries.
ghost use Rattle.std.specs.Prelude.{◌≡◌, ◌+◌, ◌-◌, ◌^◌, ◌∷◌, ℕ, min, List, IfOk};
ghost use Rattle.std.specs.FinMap as finite;
ghost use Rattle.iv_types.specs.Maps.{Entry};
ghost use Rattle.iv_meaning.specs.Database as meaning;
ghost use Rattle.table_store.specs.Stored.{between};
ghost use Rattle.data_store.specs.Shown.{IsGroupRow, AreGroupRows, Shows, Counts, noted_rows};

use crate::shown::{group_of, is_before, stands};
use iv_types::{Interval, Kind, NoMemory, SortedMaps};
use row_codec::{key_law, row_len};
use std::alloc::Global;

// What a row counts in a note, besides its bytes.
const NOTED_ROW: u128 = 16;

// What the row counts that an entry of a view shows, if it stands for a group.
fn noted_shown(alloc: Global, kinds: &[Kind], key: &[u8], value: &[u8]) -> Result<u64, NoMemory>
    requires { IsGroupRow kinds.now key.now value.now }
    ensures { IfOk result (λ size. (es : List Entry) (rows : List meaning.Row) → Shows kinds.now ((key.now, value.now) ∷ es) rows → Counts kinds.now es size rows) }
{
    key_law();
    if !stands(value) {
        return Ok(0);
    }
    let group = group_of(alloc, kinds, key)?;
    let size = row_len(kinds, group.as_slice()) + value.len() as u128 + NOTED_ROW;
    Ok(size.min(u128::from(u64::MAX)) as u64)
}

/// What the rows count in a note that a view shows in the interval, where these are the kinds of its group's columns. A sum that
/// does not fit stands still at the end of a `u64`.
///
/// # Errors
///
/// Where there is no memory for a group, of which one is kept at a time.
pub fn noted_between<M: SortedMaps>(
    alloc: Global,
    maps: &M,
    view: u32,
    kinds: &[Kind],
    interval: &Interval,
) -> Result<u64, NoMemory>
    requires { AreGroupRows kinds.now (M.maps maps.now view) }
    ensures { IfOk result (λ size. (rows : List meaning.Row) → Shows kinds.now (between interval.now (finite.entries (M.maps maps.now view))) rows → size ≡ min (noted_rows kinds.now rows) (2 ^ 64 - 1)) }
{
    let mut size: u64 = 0;
    let mut next = maps.first_at(view, interval.low.as_slice());
    while let Some((key, value)) = next {
        if !is_before(key, &interval.high) {
            break;
        }
        size = size.saturating_add(noted_shown(alloc, kinds, key, value)?);
        next = maps.first_after(view, key);
    }
    Ok(size)
}
