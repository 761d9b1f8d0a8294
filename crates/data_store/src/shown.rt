//! The rows of a view, by its entries.
ghost use Rattle.std.specs.Prelude.{◌≡◌, ◌+◌, ◌-◌, ◌*◌, ◌^◌, ◌≤◌, ◌++◌, ℕ, ℤ, min, List, ◌∷◌, map, length, IfOk, OnOk};
ghost use Rattle.std.specs.FinMap as finite;
ghost use Rattle.iv_types.specs.declared.value.Value.TheVariants.{Number};
ghost use Rattle.iv_types.specs.Maps.{Entry};
ghost use Rattle.iv_types.specs.Encoding.{FitAll, key_bytes};
ghost use Rattle.iv_meaning.specs.Database as meaning;
ghost use Rattle.table_store.specs.Stored.{before, between};
ghost use Rattle.ghost_rows.specs.Numbers.{numbers_bytes, Fits128};
ghost use Rattle.data_store.specs.Shown.{stands, IsGroupRow, AreGroupRows, IsShownAs, Shows, noted_row, noted_rows};

use ghost_rows::numbers::front;
use iv_types::{Bytes, Interval, Kind, NoMemory, Row, RowList, SortedMaps, Value};
use row_codec::{RowFault, decode_key};
use std::alloc::Global;

/// Whether the key is before the high end, where there is one.
pub fn is_before(key: &[u8], high: &Option<Bytes>) -> bool
    ensures { result ≡ before high.now key.now }
{
    match high {
        None => true,
        Some(end) => key.cmp(&end.as_slice()).is_lt(),
    }
}

/// Whether the count of a stored row is not 0.
pub fn stands(value: &[u8]) -> bool
    requires { 16 ≤ length value.now }
    ensures { (numbers : List ℤ) → Fits128 numbers → value.now ≡ numbers_bytes numbers → result ≡ stands numbers }
{
    front(value).0 != 0
}

/// The values of a group, by its key.
///
/// # Errors
///
/// Where there is no memory for them.
pub fn group_of(alloc: Global, kinds: &[Kind], key: &[u8]) -> Result<Row, NoMemory>
    requires { (group : meaning.Row) × FitAll kinds.now group × (key.now ≡ key_bytes kinds.now group) }
    ensures { IfOk result (λ group. FitAll kinds.now group × (key.now ≡ key_bytes kinds.now group)) }
{
    match decode_key(alloc, kinds, key) {
        Ok(group) => Ok(group),
        Err(RowFault::NoMemory) => Err(NoMemory),
        Err(RowFault::BadRow { .. }) => unreachable!(),
    }
}

// Adds the numbers of a stored row to a row.
fn push_numbers(row: &mut Row, value: &[u8]) -> Result<(), NoMemory>
    requires { (many : ℕ) × (length value.now ≡ 16 * many) }
    ensures { OnOk result ((numbers : List ℤ) → Fits128 numbers → value.now ≡ numbers_bytes numbers → row.new ≡ row.old ++ map Number numbers) }
{
    let mut rest = value;
    while !rest.is_empty() {
        let (number, after) = front(rest);
        row.push(Value::Number(number))?;
        rest = after;
    }
    Ok(())
}

// The row that an entry of a view shows.
fn row_of(alloc: Global, kinds: &[Kind], key: &[u8], value: &[u8]) -> Result<Row, NoMemory>
    requires { IsGroupRow kinds.now key.now value.now }
    ensures { IfOk result (λ row. (numbers : List ℤ) → Fits128 numbers → value.now ≡ numbers_bytes numbers → IsShownAs kinds.now (key.now, numbers) row) }
{
    let mut row = group_of(alloc, kinds, key)?;
    push_numbers(&mut row, value)?;
    Ok(row)
}

/// Adds the row that an entry of a view shows, if it stands for a group.
///
/// # Errors
///
/// Where there is no memory for it.
pub fn add_shown(
    alloc: Global,
    rows: &mut RowList,
    kinds: &[Kind],
    key: &[u8],
    value: &[u8],
) -> Result<(), NoMemory>
    requires { IsGroupRow kinds.now key.now value.now }
    ensures { OnOk result ((es : List Entry) (rest : List meaning.Row) → Shows kinds.now es rest → (all : List meaning.Row) × (rows.old ++ all ≡ rows.new ++ rest) × Shows kinds.now ((key.now, value.now) ∷ es) all) }
{
    if !stands(value) {
        return Ok(());
    }
    rows.push(row_of(alloc, kinds, key, value)?)
}

/// The rows of a view whose encoded groups lie in the interval, in the order of these, where these are the kinds of its group's
/// columns. Ghosts are none of them.
///
/// # Errors
///
/// Where there is no memory for them.
pub fn rows_shown<M: SortedMaps>(
    alloc: Global,
    maps: &M,
    view: u32,
    kinds: &[Kind],
    interval: &Interval,
) -> Result<RowList, NoMemory>
    requires { AreGroupRows kinds.now (M.maps maps.now view) }
    ensures { IfOk result (Shows kinds.now (between interval.now (finite.entries (M.maps maps.now view)))) }
{
    let mut rows = RowList::new(alloc);
    let mut next = maps.first_at(view, interval.low.as_slice());
    while let Some((key, value)) = next {
        if !is_before(key, &interval.high) {
            break;
        }
        add_shown(alloc, &mut rows, kinds, key, value)?;
        next = maps.first_after(view, key);
    }
    Ok(rows)
}
