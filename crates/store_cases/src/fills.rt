//! New indexes of tables, filled from their rows.
//!
//! A text is the number of a table, `KEY`, and the places of the columns of a new index of it, as in `1 KEY 2 1`. Told are the
//! keys that the index has then, in order, in hexadecimal digits with commas between, or `nothing`.
ghost use Rattle.std.specs.Prelude.{◌≡◌, ◌≤◌, ℕ, length, OnOk};
ghost use Rattle.std.specs.FinMap.{empty};
ghost use Rattle.iv_meaning.specs.Database.{Rows};
ghost use Rattle.table_store.specs.Changes.{CanHoldEach};
ghost use Rattle.table_store.specs.Lists.{map_at, spare_at};
ghost use Rattle.table_store.specs.Stored.{Holds};

use crate::catalogs::places;
use crate::table_facts::{can_hold_each, table_of};
use anyhow::bail;
use case_text::write_hexadecimal;
use iv_types::{Bytes, Catalog, IndexDef, IndexEntry, SortedMaps};
use std::alloc::Global;
use std::mem::forget;
use table_store::{ListMaps, Tables};

// The number of the new index, which no definition of a case has.
const NUMBER: u32 = 192;

// The index of a text.
fn index_in(alloc: Global, text: &str) -> anyhow::Result<IndexDef> {
    let Some((table, key)) = text.split_once(" KEY ") else {
        bail!("no key")
    };
    let columns = places(alloc, key)?;
    Ok(IndexDef {
        number: NUMBER,
        name: Bytes::new(alloc),
        table: table.parse::<u32>()?,
        columns,
    })
}

// Writes the keys of the new index, of which there are so many.
fn write_keys(out: &mut String, maps: &ListMaps, many: usize) -> anyhow::Result<()> {
    if many == 0 {
        out.push_str("nothing")?;
    }
    let mut next = maps.first_at(NUMBER, &[]);
    let mut before = "";
    for _ in 0..many {
        let Some((key, _)) = next else {
            bail!("too few keys")
        };
        out.push_str(before)?;
        before = ", ";
        write_hexadecimal(out, key)?;
        next = maps.first_after(NUMBER, key);
    }
    if next.is_some() {
        bail!("too many keys");
    }
    Ok(())
}

// Makes room for the entries of an index that is empty.
fn make_room_for(
    tables: &mut Tables<ListMaps>,
    number: u32,
    entries: &[IndexEntry],
) -> anyhow::Result<()>
    ensures same { OnOk result ((n : ℕ) → map_at tables.new n ≡ map_at tables.old n) }
    ensures none { OnOk result (map_at tables.old number ≡ empty) }
    ensures held { OnOk result (CanHoldEach entries.now) }
    ensures room { OnOk result (length entries.now ≤ spare_at tables.new number) }
{
    if tables.maps().first_at(number, &[]).is_some() || !can_hold_each(entries) {
        bail!("no new index, or a long key");
    }
    let Ok(more) = u32::try_from(entries.len()) else {
        bail!("too many rows")
    };
    tables.maps_mut().reserve(number, more)?;
    Ok(())
}

// Fills a new index of the tables, and says how many keys it has.
fn fill(catalog: &Catalog, tables: &mut Tables<ListMaps>, index: &IndexDef) -> anyhow::Result<usize>
    requires { (rows : Rows) × Holds catalog.now rows (map_at tables.old) }
{
    let Some(table) = table_of(catalog, index.table) else {
        bail!("no table")
    };
    let entries = tables.index_entries(table, index)?;
    let many = entries.as_slice().len();
    match make_room_for(tables, index.number, entries.as_slice()) {
        Ok(()) => {
            tables.fill(index, entries);
            Ok(many)
        }
        Err(error) => {
            forget(entries);
            Err(error)
        }
    }
}

// Fills the new index of a text, which is then forgotten, and says how many keys it has.
fn fill_by(
    alloc: Global,
    catalog: &Catalog,
    tables: &mut Tables<ListMaps>,
    text: &str,
) -> anyhow::Result<usize>
    requires { (rows : Rows) × Holds catalog.now rows (map_at tables.old) }
{
    let index = index_in(alloc, text)?;
    let filled = fill(catalog, tables, &index);
    forget(index);
    filled
}

/// Fills a new index of the tables, and writes its keys.
pub fn write_filled(
    alloc: Global,
    out: &mut String,
    catalog: &Catalog,
    tables: &mut Tables<ListMaps>,
    text: &str,
) -> anyhow::Result<()>
    requires { (rows : Rows) × Holds catalog.now rows (map_at tables.old) }
{
    let many = fill_by(alloc, catalog, tables, text)?;
    write_keys(out, tables.maps(), many)
}
