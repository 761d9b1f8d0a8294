//! Changes that are still to be made.
ghost use Rattle.std.specs.Prelude.{◌≡◌, ◌++◌, ◌∷◌, [], map, filter, IfOk, OnOk};
ghost use Rattle.iv_meaning.specs.Schema.{key_kinds};
ghost use Rattle.iv_meaning.specs.Database.{key_of};
ghost use Rattle.iv_meaning.specs.Statement.{pairs, is_changed};
ghost use Rattle.dml_exec.specs.Tasks.{put_in, taken_out, set_in};

use iv_types::{Bytes, Kind, KindList, NoMemory, Row, RowList, TableDef};
use object_kinds::{kinds_at, kinds_of};
use row_eval::values_at;
use sql_plan::key_bytes;
use std::alloc::Global;
use std::cmp::Ordering;
use std::collections::VecDeque;

/// A row, or none, that is to stand under a key.
#[derive(Drop)]
pub struct Pending {
    pub key: Bytes,
    pub row: Option<Row>,
}

/// What is still to be changed, in order.
pub type PendingList = VecDeque<Pending>;

// The kinds of a table's primary key.
fn key_kinds(alloc: Global, table: &TableDef) -> Result<KindList, NoMemory>
    ensures { IfOk result (λ kinds. kinds ≡ key_kinds table.now) }
{
    let kinds = kinds_of(alloc, table)?;
    kinds_at(alloc, kinds.as_slice(), table.primary.as_slice())
}

// The encoded primary key of a row, where the key's columns have these kinds.
fn key_of(alloc: Global, table: &TableDef, kinds: &[Kind], row: &Row) -> Result<Bytes, NoMemory>
    requires { kinds.now ≡ key_kinds table.now }
    ensures { IfOk result (λ key. key ≡ key_of table.now row.now) }
{
    let values = values_at(alloc, row, table.primary.as_slice())?;
    key_bytes(alloc, kinds, values.as_slice())
}

/// Rows that are put in, each under its key.
///
/// # Errors
///
/// Where there is no memory for them.
pub fn put_in(alloc: Global, table: &TableDef, rows: RowList) -> Result<PendingList, NoMemory>
    ensures { IfOk result (λ found. found.items ≡ map (put_in table.now) rows) }
{
    let kinds = key_kinds(alloc, table)?;
    let mut found = PendingList::new(alloc);
    for row in rows.into_vec() {
        let key = key_of(alloc, table, kinds.as_slice(), &row)?;
        found.push_back(Pending {
            key,
            row: Some(row),
        })?;
    }
    Ok(found)
}

/// Rows that are taken out: nothing is to stand under the key of each.
///
/// # Errors
///
/// Where there is no memory for them.
pub fn taken_out(alloc: Global, table: &TableDef, rows: &[Row]) -> Result<PendingList, NoMemory>
    ensures { IfOk result (λ found. found.items ≡ map (taken_out table.now) rows.now) }
{
    let kinds = key_kinds(alloc, table)?;
    let mut found = PendingList::new(alloc);
    for row in rows {
        let key = key_of(alloc, table, kinds.as_slice(), row)?;
        found.push_back(Pending { key, row: None })?;
    }
    Ok(found)
}

// Whether a row becomes another one.
fn is_changed(row: &Row, after: &Row) -> bool
    ensures { result ≡ is_changed (row.now, after.now) }
{
    match row.cmp(after) {
        Ordering::Equal => false,
        _ => true,
    }
}

// One more row that is set to another, unless nothing of it changes.
fn push_set(
    alloc: Global,
    found: &mut PendingList,
    table: &TableDef,
    kinds: &[Kind],
    row: &Row,
    after: Row,
) -> Result<(), NoMemory>
    requires { kinds.now ≡ key_kinds table.now }
    ensures { OnOk result (found.new.items ≡ found.old.items ++ map (set_in table.now) (filter is_changed ((row.now, after) ∷ []))) }
{
    if is_changed(row, &after) {
        let key = key_of(alloc, table, kinds, row)?;
        found.push_back(Pending {
            key,
            row: Some(after),
        })?;
    }
    Ok(())
}

/// Rows that are set to others, each to the one at its place. A row of which nothing changes is left out.
///
/// # Errors
///
/// Where there is no memory for them.
pub fn set_in(
    alloc: Global,
    table: &TableDef,
    rows: &[Row],
    after: RowList,
) -> Result<PendingList, NoMemory>
    ensures { IfOk result (λ found. found.items ≡ map (set_in table.now) (filter is_changed (pairs rows.now after))) }
{
    let kinds = key_kinds(alloc, table)?;
    let mut found = PendingList::new(alloc);
    let mut after = VecDeque::from_vec(after.into_vec());
    for row in rows {
        if let Some(after) = after.pop_front() {
            push_set(alloc, &mut found, table, kinds.as_slice(), row, after)?;
        }
    }
    Ok(found)
}
