//! Stored rows read as rows of a view.
ghost use Rattle.std.specs.Prelude.{◌≡◌, IfOk};
ghost use Rattle.std.specs.FinMap as map;
ghost use Rattle.table_store.specs.Stored.{before, between};
ghost use Rattle.ghost_rows.specs.Reading.{IsViewRow, AreViewRows, Shows, ShowsOne};

use crate::numbers::numbers_of;
use iv_types::{Bytes, Interval, NoMemory, NumberList, SortedMaps, ViewRow};
use std::alloc::Global;

// Whether the key is before the high end, where there is one.
fn is_before(key: &[u8], high: &Option<Bytes>) -> bool
    ensures { result ≡ before high.now key.now }
{
    match high {
        None => true,
        Some(end) => key.cmp(&end.as_slice()).is_lt(),
    }
}

// The row of a view that a stored row is: its count, and then its sums.
fn row_of(alloc: Global, key: &[u8], value: &[u8]) -> Result<ViewRow, NoMemory>
    requires { IsViewRow value.now }
    ensures { IfOk result (ShowsOne key.now value.now) }
{
    let mut sums = numbers_of(alloc, value, value.len() / 16)?;
    let count = sums.remove(0);
    let group = Bytes::from_vec(Vec::from_slice(alloc, key)?);
    Ok(ViewRow {
        group,
        count,
        sums: NumberList::from_vec(sums),
    })
}

/// The stored rows of a view whose encoded groups lie in the interval, in the order of these.
///
/// # Errors
///
/// Where there is no memory for them.
pub fn rows_between<M: SortedMaps>(
    alloc: Global,
    maps: &M,
    view: u32,
    interval: &Interval,
) -> Result<Vec<ViewRow>, NoMemory>
    requires { AreViewRows (M.maps maps.now view) }
    ensures { IfOk result (λ rows. Shows (between interval.now (map.entries (M.maps maps.now view))) rows.items) }
{
    let mut rows = Vec::new(alloc);
    let mut next = maps.first_at(view, interval.low.as_slice());
    while let Some((key, value)) = next {
        if !is_before(key, &interval.high) {
            break;
        }
        rows.push(row_of(alloc, key, value)?)?;
        next = maps.first_after(view, key);
    }
    Ok(rows)
}
