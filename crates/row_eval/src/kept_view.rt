//! Views evaluated afresh, as the rows that are kept of them.
ghost use Rattle.std.specs.Prelude.{◌≡◌, ◌≤◌, ◌<◌, ◌+◌, ◌++◌, [], ◌∷◌, length, map, take, drop, slice_get, IfOk, Some};
ghost use Rattle.std.specs.List.{filter_map};
ghost use Rattle.std.specs.Option.{option_map};
ghost use Rattle.iv_types.specs.Encoding.{FitAll, key_bytes};
ghost use Rattle.iv_meaning.specs.Schema.{numbered, kinds_of_table, sources_of, kind_at, group_kinds};
ghost use Rattle.iv_meaning.specs.Objects.{schema_of, view_tree};
ghost use Rattle.iv_meaning.specs.Grouping.{number_in};
ghost use Rattle.row_eval.specs.Grouped.{Gives};
ghost use Rattle.row_eval.specs.Fresh.{fresh, IsReadable, IsReadableView, kept_row, view_row, recomputed};

use crate::fresh::fresh_rows;
use iv_types::{
    Catalog, Definition, Kind, NoMemory, NumberList, Refusal, Row, TableRows, Value, ViewDef,
    ViewRow, ViewRowList,
};
use object_kinds::group_kinds;
use row_codec::encode_key;
use std::alloc::Global;

/// The kind of a table's column.
pub fn kind_in(catalog: &Catalog, table: u32, column: usize) -> Option<Kind>
    ensures { result ≡ slice_get (kinds_of_table (numbered (schema_of catalog.now) table)) column }
{
    match catalog.get(table) {
        Some(Definition::Table(table)) => match table.columns.as_slice().get(column) {
            Some(column) => Some(column.kind),
            None => None,
        },
        _ => None,
    }
}

// A value as a number.
fn number_of(value: &Value) -> i128
    ensures { result ≡ number_in (Some value.now) }
{
    match value {
        Value::Number(number) => *number,
        Value::Word(_) => 0,
    }
}

// The values as numbers.
fn numbers_of(alloc: Global, values: &[Value]) -> Result<NumberList, NoMemory>
    ensures { IfOk result (λ numbers. numbers ≡ map (λ value. number_in (Some value)) values.now) }
{
    let mut numbers = NumberList::new(alloc);
    for index in 0..values.len() {
        numbers.push(number_of(&values[index]))?;
    }
    Ok(numbers)
}

// A listed row of a view as it is kept. Its group has so many columns, of these kinds.
fn kept_row(alloc: Global, kinds: &[Kind], width: usize, row: &[Value]) -> Result<ViewRow, NoMemory>
    requires width { width < length row.now }
    requires fits { FitAll kinds.now (take width row.now) }
    ensures { IfOk result (λ kept. kept ≡ kept_row (key_bytes kinds.now (take width row.now)) width row.now) }
{
    let group = encode_key(alloc, kinds, &row[..width])?;
    let sums = numbers_of(alloc, &row[width + 1..])?;
    Ok(ViewRow {
        group,
        count: number_of(&row[width]),
        sums,
    })
}

/// The rows of a view that may still be without a place in the catalog, as `recompute` gives them.
///
/// # Errors
///
/// Those of `recompute`.
pub fn kept_rows(
    alloc: Global,
    catalog: &Catalog,
    view: &ViewDef,
    tables: &TableRows,
) -> Result<ViewRowList, Refusal>
    requires { IsReadable (schema_of catalog.now) tables.now (view_tree view.now) }
    ensures { Gives (option_map (map (view_row (schema_of catalog.now) (view_tree view.now))) (fresh (schema_of catalog.now) tables.now (view_tree view.now))) result }
{
    let rows = fresh_rows(alloc, catalog, view, tables)?;
    let rows = rows.as_slice();
    let kinds = group_kinds(alloc, catalog, view)?;
    let width = view.group.as_slice().len();
    let mut found = ViewRowList::new(alloc);
    for index in 0..rows.len() {
        found.push(kept_row(alloc, kinds.as_slice(), width, rows[index].as_slice())?)?;
    }
    Ok(found)
}

/// The rows of a view as they are kept, evaluated afresh on the rows of its tables: for each group its encoded values, how
/// many combinations of rows it has, and its sums, in the order of the groups.
///
/// # Errors
///
/// `NumberRange` where a condition is refused, or where a whole sum lies outside the HUGE range, whatever its parts are;
/// `NoMemory`.
pub fn recompute(
    alloc: Global,
    catalog: &Catalog,
    view: u32,
    tables: &TableRows,
) -> Result<ViewRowList, Refusal>
    requires { IsReadableView (schema_of catalog.now) tables.now (numbered (schema_of catalog.now) view) }
    ensures { Gives (recomputed (schema_of catalog.now) tables.now (numbered (schema_of catalog.now) view)) result }
{
    match catalog.get(view) {
        Some(Definition::View(view)) => kept_rows(alloc, catalog, view, tables),
        _ => unreachable!(),
    }
}
