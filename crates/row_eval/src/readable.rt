//! Whether the rows of a view's tables are such as a view can be read on.
ghost use Rattle.std.specs.Prelude.{◌≡◌, IsTrue, ◌↔◌, Some, slice_get};
ghost use Rattle.std.specs.List.{AllByRecursion};
ghost use Rattle.iv_types.specs.Encoding.{FitAll};
ghost use Rattle.iv_types.specs.declared.value.Kind.{Kind};
ghost use Rattle.iv_meaning.specs.Schema.{numbered, kinds_of_table, sources_of};
ghost use Rattle.iv_meaning.specs.Objects.{schema_of, view_tree};
ghost use Rattle.row_eval.specs.Fresh.{AreAlike, RowsFit, JoinsAlike, IsReadable, HasOneKind};

use crate::fresh::{primary_of, rows_of_table};
use crate::kept_view::kind_in;
use iv_types::{Catalog, Definition, Row, Second, TableRows, ViewDef};
use row_codec::{key_fits, row_fits};

// Whether a row fits a table; one that is not there has no columns.
fn fits(catalog: &Catalog, table: u32, row: &Row) -> bool
    ensures { IsTrue result ↔ FitAll (kinds_of_table (numbered (schema_of catalog.now) table)) row.now }
{
    match catalog.get(table) {
        Some(Definition::Table(table)) => row_fits(table, row),
        _ => key_fits(&[], row.as_slice()),
    }
}

/// Whether some rows fit a table; what is no table has no columns.
pub fn all_fit(catalog: &Catalog, table: u32, rows: &[Row]) -> bool
    ensures { IsTrue result ↔ AllByRecursion (λ row. FitAll (kinds_of_table (numbered (schema_of catalog.now) table)) row) rows.now }
{
    for index in 0..rows.len() {
        if !fits(catalog, table, &rows[index]) {
            return false;
        }
    }
    true
}

// Whether the rows that there are of a table fit it.
fn table_fits(catalog: &Catalog, tables: &TableRows, table: u32) -> bool
    ensures { IsTrue result ↔ RowsFit (schema_of catalog.now) tables.now table }
{
    all_fit(catalog, table, rows_of_table(tables, table))
}

// Whether two columns are there and of one kind.
fn has_one_kind(catalog: &Catalog, one: u32, column: usize, other: u32, place: usize) -> bool
    ensures { IsTrue result ↔ HasOneKind (slice_get (kinds_of_table (numbered (schema_of catalog.now) one)) column) (slice_get (kinds_of_table (numbered (schema_of catalog.now) other)) place) }
{
    match kind_in(catalog, one, column) {
        Some(kind) => kind_in(catalog, other, place) == Some(kind),
        None => false,
    }
}

/// Whether the columns of two tables are one by one of one kind: those of `one` at the places `columns`, and those of
/// `other` at `places`.
pub fn are_alike(
    catalog: &Catalog,
    one: u32,
    columns: &[usize],
    other: u32,
    places: &[usize],
) -> bool
    ensures { IsTrue result ↔ AreAlike (kinds_of_table (numbered (schema_of catalog.now) one)) (kinds_of_table (numbered (schema_of catalog.now) other)) columns.now places.now }
{
    if columns.len() != places.len() {
        return false;
    }
    for index in 0..columns.len() {
        if !has_one_kind(catalog, one, columns[index], other, places[index]) {
            return false;
        }
    }
    true
}

// Whether a view's second table can be joined, and its rows fit it.
fn second_fits(catalog: &Catalog, view: &ViewDef, second: &Second, tables: &TableRows) -> bool
    ensures { IsTrue result ↔ (RowsFit (schema_of catalog.now) tables.now second.now.table × JoinsAlike (schema_of catalog.now) (view_tree view.now) (Some second.now)) }
{
    let primary = primary_of(catalog, second.table);
    table_fits(catalog, tables, second.table)
        && are_alike(
            catalog,
            view.first,
            second.joined.as_slice(),
            second.table,
            primary,
        )
}

/// Whether the rows of a view's tables fit these, and the columns by which it joins are of the types of the second's primary
/// key.
pub fn is_readable(catalog: &Catalog, view: &ViewDef, tables: &TableRows) -> bool
    ensures { IsTrue result ↔ IsReadable (schema_of catalog.now) tables.now (view_tree view.now) }
{
    if !table_fits(catalog, tables, view.first) {
        return false;
    }
    match &view.second {
        Some(second) => second_fits(catalog, view, second, tables),
        None => true,
    }
}
