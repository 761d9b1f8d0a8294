//! How many bytes a row's keys have in the indexes of its table, without encoding them.
ghost use Rattle.std.specs.Prelude.{◌≡◌, ◌*◌, ◌≤◌, ◌^◌, length, [], ◌∷◌, slice_get, Some, None};
ghost use Rattle.iv_types.specs.declared.value.Value as value;
ghost use Rattle.iv_types.specs.Encoding.{kinds_of, FitAll, key_value_bytes};
ghost use Rattle.iv_meaning.specs.View.{index_key};
ghost use Rattle.table_store.specs.Stored.{key_at};

use crate::keys::kind_at;
use iv_types::{IndexDef, Kind, Row, TableDef};
use row_codec::key_value_len;

// The bytes that a row's value at a place has in a key, if it has the place.
fn value_len_at(kind: Kind, place: usize, row: &Row) -> u128
    ensures here { (v : value.Value) → slice_get row.now place ≡ Some v → result ≡ length (key_value_bytes kind v) }
    ensures none { slice_get row.now place ≡ None → result ≡ 0 }
{
    match row.as_slice().get(place) {
        Some(value) => key_value_len(kind, value),
        None => 0,
    }
}

// The same of a place of its table, if it has the place.
fn place_len(table: &TableDef, place: usize, row: &Row) -> u128
    requires { FitAll (kinds_of table.now) row.now }
    ensures len { result ≡ length (key_at table.now (place ∷ []) row.now) }
    ensures most { result ≤ 402 }
{
    match kind_at(table, place) {
        Some(kind) => value_len_at(kind, place, row),
        None => 0,
    }
}

// The bytes that a row's values at some places have in a key.
fn places_len(table: &TableDef, places: &[usize], row: &Row) -> u128
    requires { FitAll (kinds_of table.now) row.now }
    ensures len { result ≡ length (key_at table.now places.now row.now) }
    ensures most { result ≤ 402 * 2 ^ 64 }
{
    let mut sum: u128 = 0;
    for place in places {
        sum += place_len(table, *place, row);
    }
    sum
}

/// How many bytes a row's key in an index of its table has.
pub fn index_key_len(table: &TableDef, index: &IndexDef, row: &Row) -> u128
    requires { FitAll (kinds_of table.now) row.now }
    ensures len { result ≡ length (index_key table.now index.now row.now) }
    ensures most { result ≤ 804 * 2 ^ 64 }
{
    places_len(table, index.columns.as_slice(), row)
        + places_len(table, table.primary.as_slice(), row)
}
