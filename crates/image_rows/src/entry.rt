//! Whether one entry is a part of a definition, a row of a table under its key, or the numbers of a group of a view.
ghost use Rattle.std.specs.Prelude.{◌↔◌, IsTrue, IfOk};
ghost use Rattle.iv_meaning.specs.Objects.{schema_of};
ghost use Rattle.txn_log.specs.Damaged.{EntryStands};
ghost use Rattle.image_rows.specs.Rows.{IsRowUnder, IsGroupEntry};

use crate::numbers::are_numbers;
use iv_types::{Catalog, Definition, NoMemory, TableDef};
use object_kinds::numbered;
use record_reading::{is_key_of, read_group};
use row_codec::{RowFault, decode_row};
use std::alloc::Global;

/// Whether these are the key and the bytes of a row of the table.
fn row_stands(alloc: Global, table: &TableDef, key: &[u8], value: &[u8]) -> Result<bool, NoMemory>
    ensures { IfOk result (λ stands. IsTrue stands ↔ IsRowUnder table.now key.now value.now) }
{
    match decode_row(alloc, table, value) {
        Ok(row) => is_key_of(alloc, table, &row, key),
        Err(RowFault::NoMemory) => Err(NoMemory),
        Err(RowFault::BadRow { .. }) => Ok(false),
    }
}

/// Whether these are the key of a group of the view of this number and its numbers.
fn group_stands(
    alloc: Global,
    catalog: &Catalog,
    view: u32,
    key: &[u8],
    value: &[u8],
) -> Result<bool, NoMemory>
    ensures { IfOk result (λ stands. IsTrue stands ↔ IsGroupEntry (schema_of catalog.now) (view, key.now) value.now) }
{
    match read_group(alloc, catalog, view, key)? {
        Some(sums) => Ok(are_numbers(sums, value)),
        None => Ok(false),
    }
}

/// Whether an entry is a part of a definition, a row of a table under its key, or the numbers of a group of a view.
pub(crate) fn entry_stands(
    alloc: Global,
    catalog: &Catalog,
    index: u32,
    key: &[u8],
    value: &[u8],
) -> Result<bool, NoMemory>
    ensures { IfOk result (λ stands. IsTrue stands ↔ EntryStands (schema_of catalog.now) ((index, key.now), value.now)) }
{
    // Parts of definitions have a rule of their own.
    if index == 0 {
        return Ok(true);
    }
    match numbered(catalog, index) {
        Some(Definition::Table(table)) => row_stands(alloc, table, key, value),
        Some(Definition::View(_)) => group_stands(alloc, catalog, index, key, value),
        Some(Definition::Index(_)) => Ok(false),
        None => Ok(false),
    }
}
