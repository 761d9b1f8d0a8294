//! Tables by their numbers, rows of their bytes, and copies.
ghost use Rattle.std.specs.Prelude.{◌≡◌, List, Some, None, IsSome, IfOk, IfSome};
ghost use Rattle.std.specs.Option.{option_copied};
ghost use Rattle.iv_types.specs.declared.value.Value.{Value};
ghost use Rattle.iv_types.specs.Encoding.{kinds_of, FitAll, row_bytes};
ghost use Rattle.table_store.specs.Stored as specs;

use iv_types::{Bytes, Catalog, Definition, IndexEntry, IndexEntryList, NoMemory, Row, TableDef};
use row_codec::{RowFault, decode_row};
use std::alloc::Global;

/// The table of an object number that is a table's.
pub fn table_of(catalog: &Catalog, number: u32) -> &TableDef
    requires { IsSome (specs.table_of catalog.now number) }
    ensures table { specs.table_of catalog.now number ≡ Some result.now }
    ensures number { result.now.number ≡ number }
{
    match catalog.get(number) {
        Some(Definition::Table(table)) => table,
        _ => unreachable!(),
    }
}

/// The row whose bytes these are.
///
/// # Errors
///
/// Where there is no memory for it.
pub fn row_of(alloc: Global, table: &TableDef, bytes: &[u8]) -> Result<Row, NoMemory>
    requires { (row : List Value) × FitAll (kinds_of table.now) row × (bytes.now ≡ row_bytes (kinds_of table.now) row) }
    ensures { IfOk result (λ row. FitAll (kinds_of table.now) row × (bytes.now ≡ row_bytes (kinds_of table.now) row)) }
{
    match decode_row(alloc, table, bytes) {
        Ok(row) => Ok(row),
        Err(RowFault::NoMemory) => Err(NoMemory),
        Err(RowFault::BadRow { .. }) => unreachable!(),
    }
}

/// The same bytes again.
///
/// # Errors
///
/// Where there is no memory for them.
pub fn copy_of(alloc: Global, bytes: &Bytes) -> Result<Bytes, NoMemory>
    ensures { IfOk result (λ copy. copy ≡ bytes.now) }
{
    Ok(Bytes::from_vec(Vec::from_slice(alloc, bytes.as_slice())?))
}

// The same entry again.
fn copy_of_entry(alloc: Global, entry: &IndexEntry) -> Result<IndexEntry, NoMemory>
    ensures { IfOk result (λ copy. copy ≡ entry.now) }
{
    Ok(IndexEntry {
        index: entry.index,
        key: copy_of(alloc, &entry.key)?,
        value: copy_of(alloc, &entry.value)?,
    })
}

/// The same entries again.
///
/// # Errors
///
/// Where there is no memory for them.
pub fn copies_of(alloc: Global, entries: &[IndexEntry]) -> Result<IndexEntryList, NoMemory>
    ensures { IfOk result (λ copies. copies ≡ entries.now) }
{
    let mut copies = IndexEntryList::new(alloc);
    for entry in entries {
        copies.push(copy_of_entry(alloc, entry)?)?;
    }
    Ok(copies)
}
