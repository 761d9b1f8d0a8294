//! The stored rows of one view beside its rows, evaluated afresh.
ghost use Rattle.std.specs.Prelude.{◌≡◌, ◌↔◌, ℕ, ℤ, true, List, Option, Some, None, IsTrue, IfOk};
ghost use Rattle.std.specs.Option.{option_copied, option_map};
ghost use Rattle.std.specs.FinMap.{get};
ghost use Rattle.iv_types.specs.Maps.{entry_at, entry_after};
ghost use Rattle.table_store.specs.Stored.{before};
ghost use Rattle.image_views.specs.Rows.{ByGroup, IsBytesOf, AreBytes, AreBytesOf, IsCounted, IsToldOf, Any, is_behind, Between, UpTo, AreBeside, IsStandingIn, entry_of};

use crate::numbers::{are_zeros, bytes_of_row, numbers_in};
use crate::wrong::WrongRow;
use iv_types::{Bytes, NoMemory, SortedMaps, ViewRow, ViewRowList};
use std::alloc::Global;

/// Whether the group is before another, if there is one.
fn is_before(group: &[u8], next: Option<&[u8]>) -> bool
    ensures { result ≡ before (option_copied next.entry) group.now }
{
    match next {
        None => true,
        Some(next) => group.cmp(&next).is_lt(),
    }
}

/// The first stored row of a view that lies between two groups and has a number other than 0.
fn first_standing<'a, M: SortedMaps>(
    maps: &'a M,
    view: u32,
    last: Option<&[u8]>,
    next: Option<&[u8]>,
) -> Option<(&'a [u8], &'a [u8])>
    requires { (width : ℕ) × (stored : ByGroup) × AreBytesOf width (get (M.maps maps.now view)) stored }
    ensures { (width : ℕ) (stored : ByGroup) → AreBytesOf width (get (M.maps maps.now view)) stored
        → IsStandingIn (Between (option_copied last.entry) (option_copied next.entry)) (M.maps maps.now view) stored (option_map (λ e. (e.0.now, e.1.now)) result) }
{
    let mut found = match last {
        None => maps.first_at(view, &[]),
        Some(last) => maps.first_after(view, last),
    };
    while let Some((group, value)) = found {
        if !is_before(group, next) {
            return None;
        }
        if !are_zeros(value) {
            return found;
        }
        found = maps.first_after(view, group);
    }
    None
}

/// A wrong row, by the bytes of its two sides.
fn wrong_row(
    alloc: Global,
    view: u32,
    group: &[u8],
    stored: Option<&[u8]>,
    fresh: Option<&[u8]>,
) -> Result<WrongRow, NoMemory>
    requires stored { AreBytes (option_copied stored) }
    requires fresh { AreBytes (option_copied fresh) }
    ensures of { IfOk result (λ wrong. (wrong.view ≡ view) × (wrong.group ≡ group.now)) }
    ensures stored { IfOk result (λ wrong. (width : ℕ) (row : Option (List ℤ)) → IsBytesOf width (option_copied stored.entry) row → wrong.stored ≡ row) }
    ensures fresh { IfOk result (λ wrong. (width : ℕ) (row : Option (List ℤ)) → IsBytesOf width (option_copied fresh.entry) row → wrong.fresh ≡ row) }
{
    let stored = numbers_in(alloc, stored)?;
    let fresh = numbers_in(alloc, fresh)?;
    let group = Bytes::from_vec(group.to_vec(alloc)?);
    Ok(WrongRow {
        view,
        group,
        stored,
        fresh,
    })
}

/// The first wrong row between two groups between which the view has no row.
fn wrong_between<M: SortedMaps>(
    alloc: Global,
    maps: &M,
    view: u32,
    last: Option<&[u8]>,
    next: Option<&[u8]>,
) -> Result<Option<WrongRow>, NoMemory>
    requires { (width : ℕ) × (stored : ByGroup) × AreBytesOf width (get (M.maps maps.now view)) stored }
    ensures { IfOk result (λ found. (width : ℕ) (stored fresh : ByGroup) → AreBytesOf width (get (M.maps maps.now view)) stored
        → ((group : List ℕ) → Between (option_copied last.entry) (option_copied next.entry) group → fresh group ≡ None)
        → IsToldOf (Between (option_copied last.entry) (option_copied next.entry)) view stored fresh found) }
{
    match first_standing(maps, view, last, next) {
        None => Ok(None),
        Some((group, value)) => Ok(Some(wrong_row(alloc, view, group, Some(value), None)?)),
    }
}

/// Whether these are the bytes of the stored row.
fn is_stored(stored: Option<&[u8]>, bytes: &[u8]) -> bool
    ensures { IsTrue result ↔ (option_copied stored.entry ≡ Some bytes.now) }
{
    match stored {
        None => false,
        Some(stored) => stored == bytes,
    }
}

/// The wrong row of a group of which the view has this row.
fn wrong_at<M: SortedMaps>(
    alloc: Global,
    maps: &M,
    view: u32,
    row: &ViewRow,
) -> Result<Option<WrongRow>, NoMemory>
    requires stored { AreBytes (get (M.maps maps.now view) row.now.group) }
    requires fresh { AreBytes (Some (entry_of row.now).1) }
    ensures { IfOk result (λ found. (width : ℕ) (stored fresh : ByGroup) → IsBytesOf width (get (M.maps maps.now view) row.now.group) (stored row.now.group)
        → IsBytesOf width (Some (entry_of row.now).1) (fresh row.now.group) → IsCounted (fresh row.now.group)
        → IsToldOf (λ group. group ≡ row.now.group) view stored fresh found) }
{
    let fresh = bytes_of_row(alloc, row)?;
    let group = row.group.as_slice();
    let stored = maps.get(view, group);
    if is_stored(stored, fresh.as_slice()) {
        return Ok(None);
    }
    Ok(Some(wrong_row(alloc, view, group, stored, Some(fresh.as_slice()))?))
}

/// The first wrong row behind a group up to that of this row, the first that the view has there.
fn wrong_up_to<M: SortedMaps>(
    alloc: Global,
    maps: &M,
    view: u32,
    last: Option<&[u8]>,
    row: &ViewRow,
) -> Result<Option<WrongRow>, NoMemory>
    requires stored { (width : ℕ) × (stored : ByGroup) × AreBytesOf width (get (M.maps maps.now view)) stored }
    requires fresh { AreBytes (Some (entry_of row.now).1) }
    ensures { IfOk result (λ found. (width : ℕ) (stored fresh : ByGroup) → AreBytesOf width (get (M.maps maps.now view)) stored
        → is_behind (option_copied last.entry) row.now.group ≡ true → IsBytesOf width (Some (entry_of row.now).1) (fresh row.now.group) → IsCounted (fresh row.now.group)
        → ((group : List ℕ) → Between (option_copied last.entry) (Some row.now.group) group → fresh group ≡ None)
        → IsToldOf (UpTo (option_copied last.entry) row.now.group) view stored fresh found) }
{
    match wrong_between(alloc, maps, view, last, Some(row.group.as_slice()))? {
        Some(wrong) => Ok(Some(wrong)),
        None => wrong_at(alloc, maps, view, row),
    }
}

/// The first group of a view whose stored row is not as these rows, which are those of the view in the order of their groups.
pub(crate) fn first_wrong<M: SortedMaps>(
    alloc: Global,
    maps: &M,
    view: u32,
    rows: &ViewRowList,
) -> Result<Option<WrongRow>, NoMemory>
    requires { (width : ℕ) × (stored : ByGroup) × (fresh : ByGroup) × AreBeside width (M.maps maps.now view) rows.now stored fresh }
    ensures { IfOk result (λ found. (width : ℕ) (stored fresh : ByGroup) → AreBeside width (M.maps maps.now view) rows.now stored fresh
        → IsToldOf Any view stored fresh found) }
{
    let rows = rows.as_slice();
    let mut last: Option<&[u8]> = None;
    for index in 0..rows.len() {
        let row = &rows[index];
        match wrong_up_to(alloc, maps, view, last, row)? {
            Some(wrong) => return Ok(Some(wrong)),
            None => last = Some(row.group.as_slice()),
        }
    }
    wrong_between(alloc, maps, view, last, None)
}
