//! What the entries of a row count in the data: in the primary index of its table and in those that CREATE INDEX made.
ghost use Rattle.std.specs.Prelude.{◌≡◌, ◌+◌, ◌*◌, ◌^◌, ◌≤◌, [], ◌∷◌, map, length, IfSome};
ghost use Rattle.std.specs.List.{sum};
ghost use Rattle.iv_types.specs.Encoding.{kinds_of, FitAll};
ghost use Rattle.iv_meaning.specs.Schema as schema;
ghost use Rattle.iv_meaning.specs.Schema.{numbered, kinds_of_table, indexes_of};
ghost use Rattle.iv_meaning.specs.Objects.{schema_of, object_of};
ghost use Rattle.iv_meaning.specs.View.{index_key};
ghost use Rattle.txn_machine.specs.Log as log;

use iv_types::{Catalog, Definition, Row, TableDef};
use row_codec::table_row_len;
use table_store::index_key_len;

// What an entry counts, besides the bytes of its key and of its value.
const ENTRY_BYTES: u128 = 8;

// What a row's entry counts where a definition is that of an index of its table.
fn index_entry(table: &TableDef, definition: &Definition, row: &Row) -> u128
    requires { FitAll (kinds_of table.now) row.now }
    ensures size { result ≡ sum (map (λ i. log.entry_bytes (length (index_key table.now i row.now)) 0) (indexes_of (object_of definition.now ∷ []) table.now.number)) }
    ensures most { result ≤ 810 * 2 ^ 64 }
{
    match definition {
        Definition::Index(index) if index.table == table.number => {
            index_key_len(table, index, row) + ENTRY_BYTES
        }
        _ => 0,
    }
}

// What a row's entries count in the indexes of its table that CREATE INDEX made.
fn index_entries(catalog: &Catalog, table: &TableDef, row: &Row) -> u128
    requires { FitAll (kinds_of table.now) row.now }
    ensures size { result ≡ sum (map (λ i. log.entry_bytes (length (index_key table.now i row.now)) 0) (indexes_of (schema_of catalog.now) table.now.number)) }
    ensures most { result ≤ 810 * 2 ^ 64 * 2 ^ 32 }
{
    let _next = catalog.next_number();
    let mut size: u128 = 0;
    for definition in catalog.definitions() {
        size += index_entry(table, definition, row);
    }
    size
}

// What the entries of a row count in all indexes of its table.
fn row_entries(catalog: &Catalog, table: u32, key: &[u8], row: &Row) -> u128
    requires { FitAll (kinds_of_table (numbered (schema_of catalog.now) table)) row.now }
    ensures { result ≡ log.row_entries (schema_of catalog.now) (table, key.now) row.now }
{
    let own = key.len() as u128 + ENTRY_BYTES;
    match catalog.get(table) {
        Some(Definition::Table(table)) => {
            own + table_row_len(table, row) + index_entries(catalog, table, row)
        }
        _ => own,
    }
}

/// What the entries of a row, if there is one, count in all indexes of its table.
pub fn perhaps_entries(catalog: &Catalog, table: u32, key: &[u8], row: &Option<Row>) -> u128
    requires { IfSome row.now (FitAll (kinds_of_table (numbered (schema_of catalog.now) table))) }
    ensures { result ≡ log.perhaps_entries (schema_of catalog.now) (table, key.now) row.now }
{
    match row {
        Some(row) => row_entries(catalog, table, key, row),
        None => 0,
    }
}
