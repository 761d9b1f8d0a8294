//! The locks that a change of a row asks for.
ghost use Rattle.std.specs.Prelude.{◌≡◌, ◌++◌, [], ◌∷◌, IfOk, IfSome, OnOk, Some};
ghost use Rattle.std.specs.List.{flat_map, AllByRecursion};
ghost use Rattle.std.specs.Option.{option_to_list};
ghost use Rattle.iv_types.specs.Encoding.{kinds_of, FitAll};
ghost use Rattle.iv_meaning.specs.Schema as schema;
ghost use Rattle.iv_meaning.specs.Schema.{numbered};
ghost use Rattle.iv_meaning.specs.Objects.{schema_of, object_of};
ghost use Rattle.iv_meaning.specs.View as view;
ghost use Rattle.txn_machine.specs.Deltas as machine;
ghost use Rattle.txn_machine.specs.Deltas.{entry_wants, look_ups, views_of};
ghost use Rattle.txn_machine.specs.ViewLaws.{IsJoined};
ghost use Rattle.txn_machine.specs.RowChanges.{row_change};
ghost use Rattle.view_delta.specs.Owing.{RowsFit, AreJoined};
ghost use Rattle.view_delta.specs.Wants.{index_wants};

use crate::looking::add_needs;
use iv_types::{
    Bytes, Catalog, Change, Definition, IndexDef, LockMode, NoMemory, Row, TableDef, Want, WantList,
};
use row_codec::point;
use std::alloc::Global;
use table_store::index_key;

// A lock on one key that nobody else may read.
fn exclusive_point(alloc: Global, index: u32, key: &Bytes) -> Result<Want, NoMemory>
    ensures { IfOk result (λ want. want ≡ machine.exclusive_point index key.now) }
{
    let interval = point(alloc, key)?;
    Ok(Want {
        index,
        interval,
        mode: LockMode::Exclusive,
    })
}

// Adds the lock on a row's entry in an index of its table.
fn add_index_want(
    alloc: Global,
    wants: &mut WantList,
    table: &TableDef,
    index: &IndexDef,
    row: &Row,
) -> Result<(), NoMemory>
    requires { FitAll (kinds_of table.now) row.now }
    ensures { OnOk result (wants.new ≡ wants.old ++ machine.exclusive_point index.now.number (view.index_key table.now index.now row.now) ∷ []) }
{
    let key = index_key(alloc, table, index, row)?;
    wants.push(exclusive_point(alloc, index.number, &key)?)
}

// The same where a definition is that of an index of the table.
fn add_want_of(
    alloc: Global,
    wants: &mut WantList,
    table: &TableDef,
    definition: &Definition,
    row: &Row,
) -> Result<(), NoMemory>
    requires { FitAll (kinds_of table.now) row.now }
    ensures { OnOk result (wants.new ≡ wants.old ++ index_wants (object_of definition.now ∷ []) table.now row.now) }
{
    match definition {
        Definition::Index(index) if index.table == table.number => {
            add_index_want(alloc, wants, table, index, row)
        }
        _ => Ok(()),
    }
}

// Adds the locks on a row's entries in the indexes of its table that CREATE INDEX made.
fn add_index_wants(
    alloc: Global,
    wants: &mut WantList,
    catalog: &Catalog,
    table: &TableDef,
    row: &Row,
) -> Result<(), NoMemory>
    requires { FitAll (kinds_of table.now) row.now }
    ensures { OnOk result (wants.new ≡ wants.old ++ index_wants (schema_of catalog.now) table.now row.now) }
{
    for definition in catalog.definitions() {
        add_want_of(alloc, wants, table, definition, row)?;
    }
    Ok(())
}

// Adds the locks on a row's entry in each index of its table, if there is a row.
fn add_entry_wants(
    alloc: Global,
    wants: &mut WantList,
    catalog: &Catalog,
    table: &TableDef,
    key: &Bytes,
    row: &Option<Row>,
) -> Result<(), NoMemory>
    requires { IfSome row.now (FitAll (kinds_of table.now)) }
    ensures { OnOk result (wants.new ≡ wants.old ++ flat_map (entry_wants (schema_of catalog.now) table.now key.now) (option_to_list row.now)) }
{
    let Some(row) = row else {
        return Ok(());
    };
    wants.push(exclusive_point(alloc, table.number, key)?)?;
    add_index_wants(alloc, wants, catalog, table, row)
}

// Adds what has to be looked up for what may be a view.
fn add_needs_of(
    alloc: Global,
    wants: &mut WantList,
    catalog: &Catalog,
    definition: &Definition,
    change: &Change,
) -> Result<(), NoMemory>
    requires joined { AllByRecursion (IsJoined (schema_of catalog.now)) (views_of (object_of definition.now ∷ [])) }
    requires rows { RowsFit (schema_of catalog.now) change.now }
    ensures { OnOk result (wants.new ≡ wants.old ++ flat_map (look_ups (schema_of catalog.now) (row_change change.now)) (views_of (object_of definition.now ∷ []))) }
{
    match definition {
        Definition::View(view) => add_needs(alloc, wants, catalog, view, change),
        _ => Ok(()),
    }
}

// Adds what has to be looked up for the views.
fn add_all_needs(
    alloc: Global,
    wants: &mut WantList,
    catalog: &Catalog,
    change: &Change,
) -> Result<(), NoMemory>
    requires joined { AreJoined (schema_of catalog.now) }
    requires rows { RowsFit (schema_of catalog.now) change.now }
    ensures { OnOk result (wants.new ≡ wants.old ++ flat_map (look_ups (schema_of catalog.now) (row_change change.now)) (views_of (schema_of catalog.now))) }
{
    for definition in catalog.definitions() {
        add_needs_of(alloc, wants, catalog, definition, change)?;
    }
    Ok(())
}

/// The locks of a change of a row of a table: on its entries before and after, and on what has to be looked up to know
/// what it owes.
///
/// # Errors
///
/// Where there is no memory for them.
pub fn wants_of(
    alloc: Global,
    catalog: &Catalog,
    table: &TableDef,
    change: &Change,
) -> Result<WantList, NoMemory>
    requires table { numbered (schema_of catalog.now) change.now.table ≡ Some (schema.table table.now) }
    requires joined { AreJoined (schema_of catalog.now) }
    requires rows { RowsFit (schema_of catalog.now) change.now }
    ensures { IfOk result (λ wants. wants ≡ machine.wants_of (schema_of catalog.now) table.now (row_change change.now)) }
{
    let mut wants = WantList::new(alloc);
    let key = &change.key;
    add_entry_wants(alloc, &mut wants, catalog, table, key, &change.before)?;
    add_entry_wants(alloc, &mut wants, catalog, table, key, &change.after)?;
    add_all_needs(alloc, &mut wants, catalog, change)?;
    Ok(wants)
}
