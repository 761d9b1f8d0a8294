//! Whether a change and the rows that are looked up for it can be handed in.
ghost use Rattle.std.specs.Prelude.{◌≡◌, IsTrue, IfSome, ◌↔◌};
ghost use Rattle.iv_types.specs.Encoding.{FitAll};
ghost use Rattle.iv_meaning.specs.Schema.{numbered, kinds_of_table};
ghost use Rattle.iv_meaning.specs.Objects.{schema_of};
ghost use Rattle.iv_meaning.specs.Objects.{view_tree};
ghost use Rattle.view_delta.specs.Owing.{RowsFit};
ghost use Rattle.view_delta.specs.Parts as parts;
ghost use Rattle.view_delta.specs.Parts.{FitOther};

use iv_types::{Catalog, Change, Definition, Row, ViewDef};
use row_codec::row_fits;
use row_eval::all_fit;

// Whether a row, if there is one, fits a table. What is no table has no columns.
fn fits(catalog: &Catalog, table: u32, row: &Option<Row>) -> bool
    ensures { IsTrue result ↔ IfSome row.now (λ values. FitAll (kinds_of_table (numbered (schema_of catalog.now) table)) values) }
{
    let Some(values) = row else {
        return true;
    };
    match catalog.get(table) {
        Some(Definition::Table(table)) => row_fits(table, values),
        _ => values.as_slice().is_empty(),
    }
}

/// Whether a change's rows fit the table that it changes.
pub fn rows_fit(catalog: &Catalog, change: &Change) -> bool
    ensures { IsTrue result ↔ RowsFit (schema_of catalog.now) change.now }
{
    fits(catalog, change.table, &change.before) && fits(catalog, change.table, &change.after)
}

// The table whose rows are looked up for a change of a table.
fn other_table(view: &ViewDef, table: u32) -> u32
    ensures { result ≡ parts.other_table (view_tree view.now) table }
{
    match &view.second {
        Some(second) if table == view.first => second.table,
        _ => view.first,
    }
}

/// Whether rows that are looked up for a change of a table fit the other table of the view.
pub fn looked_up_fit(catalog: &Catalog, view: &ViewDef, table: u32, rows: &[Row]) -> bool
    ensures { IsTrue result ↔ FitOther (schema_of catalog.now) (view_tree view.now) table rows.now }
{
    all_fit(catalog, other_table(view, table), rows)
}
