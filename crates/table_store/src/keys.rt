//! Keys of indexes that CREATE INDEX made.
ghost use Rattle.std.specs.Prelude.{◌≡◌, ◌++◌, ◌∷◌, ℕ, List, slice_get};
ghost use Rattle.iv_types.specs.declared.value.Value.{Value};
ghost use Rattle.iv_types.specs.Encoding.{kinds_of, FitAll};
ghost use Rattle.iv_meaning.specs.Database.{key_of};
ghost use Rattle.table_store.specs.Stored.{key_at};

use iv_types::{Kind, TableDef};
use row_codec::after_column;

// The kind of the column of this place of the table, if it has one.
pub fn kind_at(table: &TableDef, place: usize) -> Option<Kind>
    ensures { result ≡ slice_get (kinds_of table.now) place }
{
    match table.columns.as_slice().get(place) {
        Some(column) => Some(column.kind),
        None => None,
    }
}

// The bytes of a key behind the column of this place of the table, if it has one.
fn after_place<'a>(table: &TableDef, place: usize, key: &'a [u8]) -> &'a [u8]
    ensures { (row : List Value) (places : List ℕ) → FitAll (kinds_of table.now) row → key.now ≡ key_at table.now (place ∷ places) row → result.now ≡ key_at table.now places row }
{
    match kind_at(table, place) {
        Some(kind) => after_column(kind, key),
        None => key,
    }
}

/// The encoded primary key at the end of a row's key in an index of these columns.
pub fn primary_part<'a>(table: &TableDef, columns: &[usize], key: &'a [u8]) -> &'a [u8]
    ensures { (row : List Value) → FitAll (kinds_of table.now) row → key.now ≡ key_at table.now (columns.now ++ table.now.primary) row → result.now ≡ key_of table.now row }
{
    let mut rest = key;
    for place in columns {
        rest = after_place(table, *place, rest);
    }
    rest
}
