//! Changes of tables over maps in memory, and what is read behind them.
//!
//! A line `+ ` adds a table or an index to the catalog (`catalogs`). `change NUMBER: ROW > ROW` changes a row of a table from what it
//! was to what it is then, `nothing` where there is none, and `back` takes the latest change back that was not taken back
//! yet; both answer `done`. `entries` answers the entries that the latest change removed and made, with ` > ` between and
//! commas in each, every one as its index, its key and its value in hexadecimal digits, or `nothing`. `used` answers what all entries count. `read
//! NUMBER INTERVAL` answers the rows of a table in an interval of its keys or of the keys of one of its indexes, whose ends are
//! values of the first columns of the table's key or of the index, or behind `=` bytes with escapes, with `..` between. `fill`, as the
//! last row of a table, fills a new index (`fills`).
//!
//! For each row all calls of its table are made again from the first on: what a proof knows of the tables behind a call
//! is not kept from one row to the next.
ghost use Rattle.std.specs.Prelude.{◌≡◌, None, Some, IfOk, OnOk};
ghost use Rattle.iv_meaning.specs.Database.{Rows};
ghost use Rattle.table_store.specs.Lists.{map_at, spare_at};
ghost use Rattle.table_store.specs.Stored as specs;
ghost use Rattle.table_store.specs.Stored.{Holds, IsIndexOf, IsTableAnd};
ghost use Rattle.table_store.specs.Changes.{CanTakeBack};

use crate::changed_rows::changed_rows;
use crate::fills::write_filled;
use crate::table_facts::{
    can_be_taken_back, index_kinds, index_of, is_change, key_of, kinds_at, table_of,
};
use anyhow::bail;
use case_text::{first_word, read_row, unescaped, write_hexadecimal, write_number, write_row};
use iv_types::{
    Bytes, Catalog, Change, IndexDef, IndexEntry, Interval, Kept, Kind, NoMemory, RowList,
    TableDef, Value,
};
use row_codec::{encode_key, key_fits};
use std::alloc::Global;
use std::mem::forget;
use table_store::{ListMaps, Tables, make_room};

// Tables without rows.
fn no_rows(alloc: Global, catalog: &Catalog) -> Result<Tables<ListMaps>, NoMemory>
    ensures { IfOk result (λ tables. (rows : Rows) × Holds catalog.now rows (map_at tables)) }
{
    Tables::new(alloc, ListMaps::new(alloc)?)
}

// The key of the row of a text.
fn key_in(alloc: Global, table: &TableDef, text: &str) -> anyhow::Result<Bytes> {
    let row = read_row(alloc, text)?;
    key_of(alloc, table, &row)
}

// The change of a row, under the key of either.
fn change_of(alloc: Global, table: &TableDef, text: &str) -> anyhow::Result<Change> {
    let Some((before, after)) = text.split_once(" > ") else {
        bail!("no rows")
    };
    let either = if before == "nothing" { after } else { before };
    let key = key_in(alloc, table, either)?;
    let (before, after) = changed_rows(alloc, text)?;
    Ok(Change {
        table: table.number,
        key,
        before,
        after,
    })
}

// Makes a change.
fn change(
    alloc: Global,
    catalog: &Catalog,
    tables: &mut Tables<ListMaps>,
    change: Change,
) -> anyhow::Result<Kept>
    requires { (rows : Rows) × Holds catalog.now rows (map_at tables.old) }
    ensures { OnOk result ((rows : Rows) × Holds catalog.now rows (map_at tables.new)) }
{
    let Some(table) = table_of(catalog, change.table) else {
        bail!("no table")
    };
    if !is_change(alloc, catalog, table, tables.maps(), &change)? {
        bail!("no change");
    }
    Ok(tables.change(catalog, change, 0)?)
}

// Makes the change of a text.
fn change_by(
    alloc: Global,
    catalog: &Catalog,
    tables: &mut Tables<ListMaps>,
    text: &str,
) -> anyhow::Result<Kept>
    requires { (rows : Rows) × Holds catalog.now rows (map_at tables.old) }
    ensures { OnOk result ((rows : Rows) × Holds catalog.now rows (map_at tables.new)) }
{
    let Some((number, text)) = text.split_once(": ") else {
        bail!("no number")
    };
    let Some(table) = table_of(catalog, number.parse::<u32>()?) else {
        bail!("no table")
    };
    let wanted = change_of(alloc, table, text)?;
    change(alloc, catalog, tables, wanted)
}

// Makes room to take a change back, where it can be taken back.
fn prepare_back(
    alloc: Global,
    catalog: &Catalog,
    tables: &mut Tables<ListMaps>,
    kept: &Kept,
) -> anyhow::Result<()>
    requires { (rows : Rows) × Holds catalog.now rows (map_at tables.old) }
    ensures held { OnOk result ((rows : Rows) × Holds catalog.now rows (map_at tables.new)) }
    ensures ready { OnOk result (IsTableAnd catalog.now kept.now.change.table (CanTakeBack catalog.now kept.now (map_at tables.new) (spare_at tables.new) None)) }
{
    let Some(table) = table_of(catalog, kept.change.table) else {
        bail!("no table")
    };
    make_room(tables.maps_mut(), catalog, table, 1)?;
    if !can_be_taken_back(alloc, catalog, table, tables.maps(), kept)? {
        bail!("not to be taken back");
    }
    Ok(())
}

// Takes a change back.
fn take_back(
    alloc: Global,
    catalog: &Catalog,
    tables: &mut Tables<ListMaps>,
    kept: Kept,
) -> anyhow::Result<()>
    requires { (rows : Rows) × Holds catalog.now rows (map_at tables.old) }
    ensures { OnOk result ((rows : Rows) × Holds catalog.now rows (map_at tables.new)) }
{
    match prepare_back(alloc, catalog, tables, &kept) {
        Ok(()) => {
            tables.take_back(catalog, kept);
            Ok(())
        }
        Err(error) => {
            forget(kept);
            Err(error)
        }
    }
}

// The bytes of values of the first columns of these kinds.
fn leading_key(alloc: Global, kinds: &[Kind], values: &[Value]) -> anyhow::Result<Bytes> {
    let Some(kinds) = kinds.get(..values.len()) else {
        bail!("too many values")
    };
    if !key_fits(kinds, values) {
        bail!("a value does not fit");
    }
    Ok(encode_key(alloc, kinds, values)?)
}

// An end of an interval of keys, which begin with columns of these kinds.
fn end(alloc: Global, kinds: &[Kind], text: &str) -> anyhow::Result<Bytes> {
    if let Some(letters) = text.strip_prefix('=') {
        return Ok(Bytes::from_vec(unescaped(alloc, letters)?));
    }
    let values = read_row(alloc, text)?;
    leading_key(alloc, kinds, values.as_slice())
}

fn interval(alloc: Global, kinds: &[Kind], text: &str) -> anyhow::Result<Interval> {
    let Some((low, high)) = text.split_once("..") else {
        bail!("no interval")
    };
    let low = if low.is_empty() {
        Bytes::new(alloc)
    } else {
        end(alloc, kinds, low)?
    };
    let high = if high.is_empty() {
        None
    } else {
        Some(end(alloc, kinds, high)?)
    };
    Ok(Interval { low, high })
}

fn write_rows(out: &mut String, rows: &RowList) -> anyhow::Result<()> {
    if rows.as_slice().is_empty() {
        out.push_str("nothing")?;
    }
    let mut is_first = true;
    for row in rows.as_slice() {
        out.push_str(if is_first { "" } else { " / " })?;
        is_first = false;
        write_row(out, row.as_slice())?;
    }
    Ok(())
}

// Writes rows, and forgets them.
fn write_rows_once(out: &mut String, rows: RowList) -> anyhow::Result<()> {
    let told = write_rows(out, &rows);
    forget(rows);
    told
}

// Writes the rows of a table in an interval.
fn write_rows_of(
    out: &mut String,
    catalog: &Catalog,
    tables: &Tables<ListMaps>,
    table: &TableDef,
    interval: &Interval,
) -> anyhow::Result<()>
    requires held { (rows : Rows) × Holds catalog.now rows (map_at tables.now) }
    requires table { specs.table_of catalog.now table.now.number ≡ Some table.now }
{
    write_rows_once(out, tables.read(catalog, table.number, interval)?)
}

// Writes the rows of a table in an interval of the keys of an index.
fn write_rows_by_index(
    out: &mut String,
    catalog: &Catalog,
    tables: &Tables<ListMaps>,
    table: &TableDef,
    index: &IndexDef,
    interval: &Interval,
) -> anyhow::Result<()>
    requires held { (rows : Rows) × Holds catalog.now rows (map_at tables.now) }
    requires table { specs.table_of catalog.now table.now.number ≡ Some table.now }
    requires index { IsIndexOf catalog.now table.now index.now }
{
    write_rows_once(out, tables.read(catalog, index.number, interval)?)
}

// An interval of the keys of an index.
fn interval_by_index(
    alloc: Global,
    table: &TableDef,
    index: &IndexDef,
    ends: &str,
) -> anyhow::Result<Interval> {
    let kinds = index_kinds(alloc, table, index)?;
    interval(alloc, kinds.as_slice(), ends)
}

// An interval of a table's keys.
fn interval_in(alloc: Global, table: &TableDef, ends: &str) -> anyhow::Result<Interval> {
    let kinds = kinds_at(alloc, table)?;
    interval(alloc, kinds.as_slice(), ends)
}

// Writes the rows of a table in an interval of the keys of an index.
fn write_by_index(
    alloc: Global,
    out: &mut String,
    catalog: &Catalog,
    tables: &Tables<ListMaps>,
    index: &IndexDef,
    ends: &str,
) -> anyhow::Result<()>
    requires held { (rows : Rows) × Holds catalog.now rows (map_at tables.now) }
    requires index { specs.index_of catalog.now index.now.number ≡ Some index.now }
{
    let Some(table) = table_of(catalog, index.table) else {
        bail!("no table")
    };
    let interval = interval_by_index(alloc, table, index, ends)?;
    write_rows_by_index(out, catalog, tables, table, index, &interval)
}

// Writes the rows of a table in an interval of its keys.
fn write_by_key(
    alloc: Global,
    out: &mut String,
    catalog: &Catalog,
    tables: &Tables<ListMaps>,
    number: u32,
    ends: &str,
) -> anyhow::Result<()>
    requires { (rows : Rows) × Holds catalog.now rows (map_at tables.now) }
{
    let Some(table) = table_of(catalog, number) else {
        bail!("no table")
    };
    let interval = interval_in(alloc, table, ends)?;
    write_rows_of(out, catalog, tables, table, &interval)
}

// Writes the rows of a table in an interval of its keys, or of those of one of its indexes.
fn write_read(
    alloc: Global,
    out: &mut String,
    catalog: &Catalog,
    tables: &Tables<ListMaps>,
    text: &str,
) -> anyhow::Result<()>
    requires { (rows : Rows) × Holds catalog.now rows (map_at tables.now) }
{
    let (number, ends) = first_word(text);
    let number = number.parse::<u32>()?;
    match index_of(catalog, number) {
        Some(index) => write_by_index(alloc, out, catalog, tables, index, ends),
        None => write_by_key(alloc, out, catalog, tables, number, ends),
    }
}

fn write_entry(out: &mut String, entry: &IndexEntry) -> anyhow::Result<()> {
    write_number(out, i128::from(entry.index))?;
    out.push(' ')?;
    write_hexadecimal(out, entry.key.as_slice())?;
    if entry.value.as_slice().is_empty() {
        return Ok(());
    }
    out.push(' ')?;
    write_hexadecimal(out, entry.value.as_slice())?;
    Ok(())
}

fn write_entries(out: &mut String, entries: &[IndexEntry]) -> anyhow::Result<()> {
    if entries.is_empty() {
        out.push_str("nothing")?;
    }
    let mut is_first = true;
    for entry in entries {
        out.push_str(if is_first { "" } else { ", " })?;
        is_first = false;
        write_entry(out, entry)?;
    }
    Ok(())
}

// Writes what the latest change removed and made.
fn write_latest(out: &mut String, kept: &[Kept]) -> anyhow::Result<()> {
    let Some(latest) = kept.last() else {
        bail!("no change")
    };
    write_entries(out, latest.gone.as_slice())?;
    out.push_str(" > ")?;
    write_entries(out, latest.made.as_slice())
}

// Keeps what a change is taken back by.
fn keep(kept: &mut Vec<Kept>, latest: Kept) -> anyhow::Result<()> {
    kept.push(latest)?;
    Ok(())
}

// Takes the latest change back.
fn take_latest_back(
    alloc: Global,
    catalog: &Catalog,
    tables: &mut Tables<ListMaps>,
    kept: &mut Vec<Kept>,
) -> anyhow::Result<()>
    requires { (rows : Rows) × Holds catalog.now rows (map_at tables.old) }
    ensures { OnOk result ((rows : Rows) × Holds catalog.now rows (map_at tables.new)) }
{
    match kept.pop() {
        Some(latest) => take_back(alloc, catalog, tables, latest),
        None => bail!("no change"),
    }
}

// Makes a change, or takes one back.
fn move_on(
    alloc: Global,
    catalog: &Catalog,
    tables: &mut Tables<ListMaps>,
    kept: &mut Vec<Kept>,
    asked: &str,
) -> anyhow::Result<()>
    requires { (rows : Rows) × Holds catalog.now rows (map_at tables.old) }
    ensures { OnOk result ((rows : Rows) × Holds catalog.now rows (map_at tables.new)) }
{
    if let Some(text) = asked.strip_prefix("change ") {
        return keep(kept, change_by(alloc, catalog, tables, text)?);
    }
    if asked != "back" {
        bail!("no such call");
    }
    take_latest_back(alloc, catalog, tables, kept)
}

// Writes what a call answers that changes nothing.
fn look(
    alloc: Global,
    out: &mut String,
    catalog: &Catalog,
    tables: &Tables<ListMaps>,
    kept: &[Kept],
    asked: &str,
) -> anyhow::Result<()>
    requires { (rows : Rows) × Holds catalog.now rows (map_at tables.now) }
{
    if let Some(rest) = asked.strip_prefix("read ") {
        return write_read(alloc, out, catalog, tables, rest);
    }
    match asked {
        "entries" => write_latest(out, kept),
        _ => write_number(out, i128::from(tables.used())),
    }
}

// Tells what a call answers that changes nothing.
fn found(
    alloc: Global,
    catalog: &Catalog,
    tables: &Tables<ListMaps>,
    kept: &[Kept],
    asked: &str,
) -> anyhow::Result<String>
    requires { (rows : Rows) × Holds catalog.now rows (map_at tables.now) }
{
    let mut out = String::new(alloc);
    look(alloc, &mut out, catalog, tables, kept, asked)?;
    Ok(out)
}

// Makes one call, and tells what it answers.
fn call(
    alloc: Global,
    catalog: &Catalog,
    tables: &mut Tables<ListMaps>,
    kept: &mut Vec<Kept>,
    asked: &str,
) -> anyhow::Result<String>
    requires { (rows : Rows) × Holds catalog.now rows (map_at tables.old) }
    ensures { OnOk result ((rows : Rows) × Holds catalog.now rows (map_at tables.new)) }
{
    if asked.starts_with("read ") || asked == "entries" || asked == "used" {
        return found(alloc, catalog, tables, kept, asked);
    }
    move_on(alloc, catalog, tables, kept, asked)?;
    Ok(String::from_str(alloc, "done")?)
}

// Makes calls, one a line, and tells what the last one answers.
fn call_all(
    alloc: Global,
    catalog: &Catalog,
    tables: &mut Tables<ListMaps>,
    kept: &mut Vec<Kept>,
    calls: &str,
) -> anyhow::Result<String>
    requires { (rows : Rows) × Holds catalog.now rows (map_at tables.old) }
    ensures { OnOk result ((rows : Rows) × Holds catalog.now rows (map_at tables.new)) }
{
    let mut out = String::new(alloc);
    for asked in calls.split('\n') {
        out = call(alloc, catalog, tables, kept, asked)?;
    }
    Ok(out)
}

// Fills a new index behind some calls.
fn filled_after(
    alloc: Global,
    catalog: &Catalog,
    tables: &mut Tables<ListMaps>,
    kept: &mut Vec<Kept>,
    calls: &str,
    text: &str,
) -> anyhow::Result<String>
    requires { (rows : Rows) × Holds catalog.now rows (map_at tables.old) }
{
    forget(call_all(alloc, catalog, tables, kept, calls)?);
    let mut out = String::new(alloc);
    write_filled(alloc, &mut out, catalog, tables, text)?;
    Ok(out)
}

/// What the last of some calls answers, one a line, of tables without rows.
pub fn last_answer(alloc: Global, catalog: &Catalog, calls: &str) -> anyhow::Result<String> {
    let mut tables = no_rows(alloc, catalog)?;
    let mut kept = Vec::new(alloc);
    let told = match calls.rsplit_once("\nfill ") {
        Some((calls, text)) => filled_after(alloc, catalog, &mut tables, &mut kept, calls, text),
        None => call_all(alloc, catalog, &mut tables, &mut kept, calls),
    };
    forget(kept);
    forget(tables);
    told
}
