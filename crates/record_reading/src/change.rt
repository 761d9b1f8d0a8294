//! Changes of rows.
ghost use Rattle.std.specs.Prelude.{◌≡◌, None, Option, IfOk, IfSome, IfNone};
ghost use Rattle.std.specs.Option.{option_copied};
ghost use Rattle.iv_meaning.specs.Database.{Row};
ghost use Rattle.iv_meaning.specs.Objects.{schema_of};
ghost use Rattle.txn_machine.specs.Deltas.{RowChange};
ghost use Rattle.txn_machine.specs.RowChanges.{row_change};
ghost use Rattle.txn_log.specs.Fitting.{IsKeyOf, IsChange};
ghost use Rattle.record_reading.specs.Changes.{IsRowOf, IsChangeIn, HasBytes};

use crate::fault::ReadFault;
use crate::key::is_some_key;
use crate::row::row_or_none;
use iv_types::{Bytes, Catalog, Change, Definition, NoMemory, Row, TableDef};
use object_kinds::numbered;
use std::alloc::Global;

/// The change of no row to no row, if it is the key of some row of the table.
fn change_of_none(
    alloc: Global,
    of: &TableDef,
    table: u32,
    key: &[u8],
) -> Result<Option<Change>, NoMemory>
    ensures some { IfOk result (λ found. IfSome found (λ c. IsChangeIn of.now (table, key.now) None None (row_change c))) }
    ensures none { IfOk result (λ found. IfNone found (IsKeyOf of.now key.now → ⊥)) }
{
    if !is_some_key(alloc, of, key)? {
        return Ok(None);
    }
    let key = Bytes::from_vec(Vec::from_slice(alloc, key)?);
    Ok(Some(Change {
        table,
        key,
        before: None,
        after: None,
    }))
}

/// The change from this row to the row of these bytes, if that is one of the table under this key.
fn change_to(
    alloc: Global,
    of: &TableDef,
    table: u32,
    key: Bytes,
    before: Option<Row>,
    after: Option<&[u8]>,
) -> Result<Option<Change>, NoMemory>
    ensures some { IfOk result (λ found. IfSome found (λ c. (c.table ≡ table) × (c.key ≡ key) × (c.before ≡ before) × IsRowOf of.now key (option_copied after.entry) c.after)) }
    ensures none { IfOk result (λ found. IfNone found ((row : Option Row) → IsRowOf of.now key (option_copied after.entry) row → ⊥)) }
{
    match row_or_none(alloc, of, key.as_slice(), after) {
        Ok(after) => Ok(Some(Change {
            table,
            key,
            before,
            after,
        })),
        Err(ReadFault::Misfit) => Ok(None),
        Err(ReadFault::NoMemory) => Err(NoMemory),
    }
}

/// The change from the row of these bytes to the row of those, if they are rows of the table under this key.
fn change_between(
    alloc: Global,
    of: &TableDef,
    table: u32,
    key: &[u8],
    before: Option<&[u8]>,
    after: Option<&[u8]>,
) -> Result<Option<Change>, NoMemory>
    ensures some { IfOk result (λ found. IfSome found (λ c. (c.table ≡ table) × (c.key ≡ key.now) × IsRowOf of.now key.now (option_copied before.entry) c.before × IsRowOf of.now key.now (option_copied after.entry) c.after)) }
    ensures none { IfOk result (λ found. IfNone found ((one other : Option Row) → IsRowOf of.now key.now (option_copied before.entry) one → IsRowOf of.now key.now (option_copied after.entry) other → ⊥)) }
{
    let own = Bytes::from_vec(Vec::from_slice(alloc, key)?);
    match row_or_none(alloc, of, key, before) {
        Ok(before) => change_to(alloc, of, table, own, before, after),
        Err(ReadFault::Misfit) => Ok(None),
        Err(ReadFault::NoMemory) => Err(NoMemory),
    }
}

/// The change of a row of this table, if its key and its rows fit the table.
fn change_in(
    alloc: Global,
    of: &TableDef,
    table: u32,
    key: &[u8],
    before: Option<&[u8]>,
    after: Option<&[u8]>,
) -> Result<Option<Change>, NoMemory>
    ensures some { IfOk result (λ found. IfSome found (λ c. IsChangeIn of.now (table, key.now) (option_copied before.entry) (option_copied after.entry) (row_change c))) }
    ensures none { IfOk result (λ found. IfNone found ((c : RowChange) → IsChangeIn of.now (table, key.now) (option_copied before.entry) (option_copied after.entry) c → ⊥)) }
{
    if before.is_none() && after.is_none() {
        return change_of_none(alloc, of, table, key);
    }
    change_between(alloc, of, table, key, before, after)
}

/// The change of a row that a Write says, if its key and its rows fit its table.
///
/// # Errors
///
/// Where there is no memory for it.
pub fn read_change(
    alloc: Global,
    catalog: &Catalog,
    table: u32,
    key: &[u8],
    before: Option<&[u8]>,
    after: Option<&[u8]>,
) -> Result<Option<Change>, NoMemory>
    ensures some { IfOk result (λ found. IfSome found (λ c. IsChange (schema_of catalog.now) (row_change c) × HasBytes (schema_of catalog.now) (table, key.now) (option_copied before.entry) (option_copied after.entry) (row_change c))) }
    ensures none { IfOk result (λ found. IfNone found ((c : RowChange) → IsChange (schema_of catalog.now) c → HasBytes (schema_of catalog.now) (table, key.now) (option_copied before.entry) (option_copied after.entry) c → ⊥)) }
{
    match numbered(catalog, table) {
        Some(Definition::Table(of)) => change_in(alloc, of, table, key, before, after),
        Some(Definition::Index(_)) => Ok(None),
        Some(Definition::View(_)) => Ok(None),
        None => Ok(None),
    }
}
