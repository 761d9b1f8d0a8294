//! The entries of a row that another one in its place has not.
ghost use Rattle.std.specs.Prelude.{◌≡◌, ◌++◌, ◌∷◌, [], slice_get, IfOk, IfSome, OnOk, IsTrue};
ghost use Rattle.std.specs.Option.{option_copied};
ghost use Rattle.std.specs.List.{flat_map};
ghost use Rattle.iv_types.specs.Encoding.{kinds_of, FitAll};
ghost use Rattle.iv_meaning.specs.Schema.{indexes_of};
ghost use Rattle.iv_meaning.specs.Objects.{schema_of};
ghost use Rattle.iv_meaning.specs.View as view;
ghost use Rattle.table_store.specs.Stored.{key_at};
ghost use Rattle.table_store.specs.Changes as changes;
ghost use Rattle.table_store.specs.Changes.{entry_in, has_key};

use crate::keys::kind_at;
use crate::stored::copy_of;
use iv_types::{
    Bytes, Catalog, Definition, IndexDef, IndexEntry, IndexEntryList, NoMemory, Row, TableDef,
    Value,
};
use row_codec::{encode_key, encode_row};
use std::alloc::Global;
use std::slice::from_ref;

// A row's value at a place, if it has the place.
fn value_at(row: &Row, place: usize) -> Option<&Value>
    ensures { option_copied result ≡ slice_get row.now place }
{
    row.as_slice().get(place)
}

// Adds the bytes that a row's value at a place has in a key.
fn put_place(
    alloc: Global,
    out: &mut Vec<u8>,
    table: &TableDef,
    place: usize,
    row: &Row,
) -> Result<(), NoMemory>
    requires { FitAll (kinds_of table.now) row.now }
    ensures { OnOk result (out.new.items ≡ out.old.items ++ key_at table.now (place ∷ []) row.now) }
{
    if let Some(kind) = kind_at(table, place) {
        if let Some(value) = value_at(row, place) {
            let bytes = encode_key(alloc, &[kind], from_ref(value))?;
            out.extend_from_slice(bytes.as_slice())?;
        }
    }
    Ok(())
}

// Adds the bytes that a row's values at some places have in a key.
fn put_places(
    alloc: Global,
    out: &mut Vec<u8>,
    table: &TableDef,
    places: &[usize],
    row: &Row,
) -> Result<(), NoMemory>
    requires { FitAll (kinds_of table.now) row.now }
    ensures { OnOk result (out.new.items ≡ out.old.items ++ key_at table.now places.now row.now) }
{
    for place in places {
        put_place(alloc, out, table, *place, row)?;
    }
    Ok(())
}

/// The bytes that a row's values at some places of its table have in a key.
///
/// # Errors
///
/// Where there is no memory for them.
pub fn key_at(
    alloc: Global,
    table: &TableDef,
    places: &[usize],
    row: &Row,
) -> Result<Bytes, NoMemory>
    requires { FitAll (kinds_of table.now) row.now }
    ensures { IfOk result (λ key. key ≡ key_at table.now places.now row.now) }
{
    let mut key = Vec::new(alloc);
    put_places(alloc, &mut key, table, places, row)?;
    Ok(Bytes::from_vec(key))
}

/// The key that a row has in an index of its table.
///
/// # Errors
///
/// Where there is no memory for it.
pub fn index_key(
    alloc: Global,
    table: &TableDef,
    index: &IndexDef,
    row: &Row,
) -> Result<Bytes, NoMemory>
    requires { FitAll (kinds_of table.now) row.now }
    ensures { IfOk result (λ key. key ≡ view.index_key table.now index.now row.now) }
{
    let mut key = Vec::new(alloc);
    put_places(alloc, &mut key, table, index.columns.as_slice(), row)?;
    put_places(alloc, &mut key, table, table.primary.as_slice(), row)?;
    Ok(Bytes::from_vec(key))
}

// Whether a row, if there is one, has this key in the index.
fn has_key(
    alloc: Global,
    table: &TableDef,
    index: &IndexDef,
    row: &Option<Row>,
    key: &Bytes,
) -> Result<bool, NoMemory>
    requires { IfSome row.now (FitAll (kinds_of table.now)) }
    ensures { IfOk result (λ has. has ≡ has_key table.now index.now row.now key.now) }
{
    match row {
        Some(row) => Ok(index_key(alloc, table, index, row)? == *key),
        None => Ok(false),
    }
}

// Adds the entry of a row in an index, unless the other row has the same.
fn push_entry(
    alloc: Global,
    entries: &mut IndexEntryList,
    table: &TableDef,
    index: &IndexDef,
    row: &Row,
    other: &Option<Row>,
) -> Result<(), NoMemory>
    requires row { FitAll (kinds_of table.now) row.now }
    requires other { IfSome other.now (FitAll (kinds_of table.now)) }
    ensures { OnOk result (entries.new ≡ entries.old ++ entry_in table.now row.now other.now index.now) }
{
    let key = index_key(alloc, table, index, row)?;
    if has_key(alloc, table, index, other, &key)? {
        return Ok(());
    }
    entries.push(IndexEntry {
        index: index.number,
        key,
        value: Bytes::new(alloc),
    })
}

// The same where a definition is that of an index of the table.
fn push_entry_of(
    alloc: Global,
    entries: &mut IndexEntryList,
    table: &TableDef,
    definition: &Definition,
    row: &Row,
    other: &Option<Row>,
) -> Result<(), NoMemory>
    requires row { FitAll (kinds_of table.now) row.now }
    requires other { IfSome other.now (FitAll (kinds_of table.now)) }
    ensures { OnOk result (entries.new ≡ entries.old ++ flat_map (entry_in table.now row.now other.now) (indexes_of (schema_of (definition.now ∷ [])) table.now.number)) }
{
    match definition {
        Definition::Index(index) if index.table == table.number => {
            push_entry(alloc, entries, table, index, row, other)
        }
        _ => Ok(()),
    }
}

// Adds the entries of a row in the indexes of its table that CREATE INDEX made.
fn push_entries(
    alloc: Global,
    entries: &mut IndexEntryList,
    catalog: &Catalog,
    table: &TableDef,
    row: &Row,
    other: &Option<Row>,
) -> Result<(), NoMemory>
    requires row { FitAll (kinds_of table.now) row.now }
    requires other { IfSome other.now (FitAll (kinds_of table.now)) }
    ensures { OnOk result (entries.new ≡ entries.old ++ flat_map (entry_in table.now row.now other.now) (indexes_of (schema_of catalog.now) table.now.number)) }
{
    for definition in catalog.definitions() {
        push_entry_of(alloc, entries, table, definition, row, other)?;
    }
    Ok(())
}

/// The entries of a row, or none, that another one in its place has not: that of the primary index first, and then those of
/// the other indexes in the order of their numbers.
pub fn own_entries(
    alloc: Global,
    catalog: &Catalog,
    table: &TableDef,
    key: &Bytes,
    one: &Option<Row>,
    other: &Option<Row>,
) -> Result<IndexEntryList, NoMemory>
    requires one { IfSome one.now (FitAll (kinds_of table.now)) }
    requires other { IfSome other.now (FitAll (kinds_of table.now)) }
    ensures { IfOk result (λ entries. entries ≡ changes.own_entries catalog.now table.now key.now one.now other.now) }
{
    let mut entries = IndexEntryList::new(alloc);
    if let Some(row) = one {
        entries.push(IndexEntry {
            index: table.number,
            key: copy_of(alloc, key)?,
            value: encode_row(alloc, table, row)?,
        })?;
        push_entries(alloc, &mut entries, catalog, table, row, other)?;
    }
    Ok(entries)
}
