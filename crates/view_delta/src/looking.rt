//! What has to be looked up to know what a change of a row owes to a view.
ghost use Rattle.std.specs.Prelude.{◌≡◌, ◌++◌, map, [], ◌∷◌, IfOk, IfSome, OnOk, Some};
ghost use Rattle.std.specs.Option.{option_to_list};
ghost use Rattle.iv_types.specs.Encoding.{kinds_of, FitAll};
ghost use Rattle.iv_meaning.specs.Schema as schema;
ghost use Rattle.iv_meaning.specs.Schema.{numbered};
ghost use Rattle.iv_meaning.specs.Sound.{IsTable};
ghost use Rattle.iv_meaning.specs.Objects.{schema_of, view_tree};
ghost use Rattle.txn_machine.specs.Deltas.{look_ups, look_up_first};
ghost use Rattle.txn_machine.specs.ViewLaws.{IsJoined};
ghost use Rattle.txn_machine.specs.RowChanges.{row_change};
ghost use Rattle.view_delta.specs.Owing.{RowsFit};
ghost use Rattle.view_delta.specs.Wants.{joined_want};

use iv_types::{
    Bytes, Catalog, Change, Definition, LockMode, NoMemory, Row, Second, TableDef, ViewDef, Want,
    WantList,
};
use object_kinds::numbered;
use row_codec::{point, prefix_interval};
use std::alloc::Global;
use table_store::key_at;

/// The table of an object number that is a table's.
pub fn table_of(catalog: &Catalog, number: u32) -> &TableDef
    requires { IsTable (schema_of catalog.now) number }
    ensures { numbered (schema_of catalog.now) number ≡ Some (schema.table result.now) }
{
    match numbered(catalog, number) {
        Some(Definition::Table(table)) => table,
        _ => unreachable!(),
    }
}

// The point of the row of the second table with which a row of the first is combined.
fn joined_want(
    alloc: Global,
    first: &TableDef,
    second: &Second,
    row: &Row,
) -> Result<Want, NoMemory>
    requires { FitAll (kinds_of first.now) row.now }
    ensures { IfOk result (λ want. want ≡ joined_want first.now second.now row.now) }
{
    let key = key_at(alloc, first, second.joined.as_slice(), row)?;
    let interval = point(alloc, &key)?;
    Ok(Want {
        index: second.table,
        interval,
        mode: LockMode::Share,
    })
}

// Adds the look-up of a row of the first table, if there is one.
fn add_joined(
    alloc: Global,
    wants: &mut WantList,
    first: &TableDef,
    second: &Second,
    row: &Option<Row>,
) -> Result<(), NoMemory>
    requires { IfSome row.now (FitAll (kinds_of first.now)) }
    ensures { OnOk result (wants.new ≡ wants.old ++ map (joined_want first.now second.now) (option_to_list row.now)) }
{
    match row {
        Some(row) => wants.push(joined_want(alloc, first, second, row)?),
        None => Ok(()),
    }
}

// Adds the look-ups of a change of the first table.
fn add_both(
    alloc: Global,
    wants: &mut WantList,
    first: &TableDef,
    second: &Second,
    change: &Change,
) -> Result<(), NoMemory>
    requires before { IfSome change.now.before (FitAll (kinds_of first.now)) }
    requires after { IfSome change.now.after (FitAll (kinds_of first.now)) }
    ensures { OnOk result (wants.new ≡ wants.old ++ map (joined_want first.now second.now) (option_to_list change.now.before ++ option_to_list change.now.after)) }
{
    add_joined(alloc, wants, first, second, &change.before)?;
    add_joined(alloc, wants, first, second, &change.after)
}

// The rows of the first table that are combined with the row of the second under a key.
fn first_want(alloc: Global, second: &Second, key: &Bytes) -> Result<Want, NoMemory>
    ensures { IfOk result (λ want. want ∷ [] ≡ look_up_first (schema_of []) second.now key.now) }
{
    let interval = prefix_interval(alloc, key)?;
    Ok(Want {
        index: second.index,
        interval,
        mode: LockMode::Share,
    })
}

/// Adds what has to be looked up to know what a change owes to a view.
///
/// # Errors
///
/// Where there is no memory for it.
pub fn add_needs(
    alloc: Global,
    wants: &mut WantList,
    catalog: &Catalog,
    view: &ViewDef,
    change: &Change,
) -> Result<(), NoMemory>
    requires joined { IsJoined (schema_of catalog.now) (view_tree view.now) }
    requires rows { RowsFit (schema_of catalog.now) change.now }
    ensures { OnOk result (wants.new ≡ wants.old ++ look_ups (schema_of catalog.now) (row_change change.now) (view_tree view.now)) }
{
    let Some(second) = &view.second else {
        return Ok(());
    };
    if change.table == view.first {
        let first = table_of(catalog, view.first);
        return add_both(alloc, wants, first, second, change);
    }
    if change.table == second.table {
        return wants.push(first_want(alloc, second, &change.key)?);
    }
    Ok(())
}

/// What has to be looked up to know what a change owes to a view: nothing for a view of one table; for a change of the first
/// of two tables the row of the second that joins the row before, and the one that joins the row after; for a change of the
/// second one the rows of the first that join its row, by the index that the view names.
///
/// # Errors
///
/// Where there is no memory for it.
pub fn needs(
    alloc: Global,
    catalog: &Catalog,
    view: &ViewDef,
    change: &Change,
) -> Result<WantList, NoMemory>
    requires joined { IsJoined (schema_of catalog.now) (view_tree view.now) }
    requires rows { RowsFit (schema_of catalog.now) change.now }
    ensures { IfOk result (λ wants. wants ≡ look_ups (schema_of catalog.now) (row_change change.now) (view_tree view.now)) }
{
    let mut wants = WantList::new(alloc);
    add_needs(alloc, &mut wants, catalog, view, change)?;
    Ok(wants)
}
