//! Rows in the order of a primary key.
ghost use Rattle.std.specs.Prelude.{◌≡◌, map, IfOk};
ghost use Rattle.iv_meaning.specs.Query as query;
ghost use Rattle.iv_meaning.specs.Reading as meant;
ghost use Rattle.row_order.specs.Keys.{keyed};

use iv_types::{NoMemory, Places, Row, RowList};
use row_eval::values_at;
use std::alloc::Global;

// A row with its values of the key's columns.
#[derive(Drop)]
struct Keyed {
    key: Row,
    row: Row,
}

// Rows with their keys.
fn with_keys(alloc: Global, key: &[usize], rows: RowList) -> Result<Vec<Keyed>, NoMemory>
    ensures { IfOk result (λ found. found.items ≡ map (keyed key.now) rows) }
{
    let mut found = Vec::with_capacity(alloc, rows.as_slice().len())?;
    for row in rows.into_vec() {
        found.push(Keyed {
            key: values_at(alloc, &row, key)?,
            row,
        })?;
    }
    Ok(found)
}

// Rows without their keys.
fn without_keys(alloc: Global, rows: Vec<Keyed>) -> Result<RowList, NoMemory>
    ensures { IfOk result (λ found. found ≡ map (λ k. k.row) rows.items) }
{
    let mut found = Vec::with_capacity(alloc, rows.len())?;
    for Keyed { key: _, row } in rows {
        found.push(row)?;
    }
    Ok(RowList::from_vec(found))
}

/// Rows in the order of these columns; those that tie stay in the order that they have.
///
/// # Errors
///
/// Where there is no memory to sort them.
pub fn sorted_by(alloc: Global, key: &[usize], rows: RowList) -> Result<RowList, NoMemory>
    ensures { IfOk result (λ sorted. sorted ≡ query.sorted_by (meant.by_columns key.now) rows) }
{
    let mut rows = with_keys(alloc, key, rows)?;
    rows.sort_by(|a, b| a.key.cmp(&b.key))?;
    without_keys(alloc, rows)
}

/// Rows in the order of these columns, if there are some.
///
/// # Errors
///
/// Where there is no memory to sort them.
pub fn in_key_order(alloc: Global, key: &Option<Places>, rows: RowList) -> Result<RowList, NoMemory>
    ensures { IfOk result (λ sorted. sorted ≡ meant.in_key_order key.now rows) }
{
    match key {
        Some(key) => sorted_by(alloc, key.as_slice(), rows),
        None => Ok(rows),
    }
}
