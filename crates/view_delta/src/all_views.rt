//! What a change of a row owes to all views, by the tables' rows.
ghost use Rattle.std.specs.Prelude.{◌≡◌, ◌++◌, [], ◌∷◌, ℕ, IfOk, OnOk};
ghost use Rattle.std.specs.List.{AllByRecursion, flat_map};
ghost use Rattle.iv_types.specs.Definitions.{AreNumbered};
ghost use Rattle.iv_meaning.specs.Database.{Rows};
ghost use Rattle.iv_meaning.specs.Objects.{schema_of, object_of, view_tree};
ghost use Rattle.table_store.specs.Stored.{CanRead, HoldsRead};
ghost use Rattle.txn_machine.specs.Deltas as machine;
ghost use Rattle.txn_machine.specs.Deltas.{owed_to, views_of};
ghost use Rattle.txn_machine.specs.ViewLaws.{IsJoined};
ghost use Rattle.txn_machine.specs.RowChanges.{row_change};
ghost use Rattle.view_delta.specs.Owing.{Finds};
ghost use Rattle.view_delta.specs.Parts.{one_read, rows_read};

use crate::delta::add_deltas;
use crate::looking::needs;
use iv_types::{
    Catalog, Change, Definition, DeltaList, NoMemory, Row, RowList, SortedMaps, ViewDef, Want,
};
use std::alloc::Global;
use table_store::Tables;

// Adds rows at the end.
fn append(rows: &mut RowList, more: RowList) -> Result<(), NoMemory>
    ensures { OnOk result (rows.new ≡ rows.old ++ more) }
{
    for row in more.into_vec() {
        rows.push(row)?;
    }
    Ok(())
}

// Adds the rows that a look-up reads.
fn add_read<M: SortedMaps>(
    found: &mut RowList,
    catalog: &Catalog,
    tables: &Tables<M>,
    want: &Want,
) -> Result<(), NoMemory>
    requires { CanRead catalog.now (M.maps tables.now) want.now.index }
    ensures { OnOk result ((rows : Rows) → ((number : ℕ) → HoldsRead catalog.now rows (M.maps tables.now) number) → found.new ≡ found.old ++ one_read (schema_of catalog.now) rows want.now) }
{
    let rows = tables.read(catalog, want.index, &want.interval)?;
    append(found, rows)
}

// The rows that some look-ups read, look-up after look-up.
fn looked_up<M: SortedMaps>(
    alloc: Global,
    catalog: &Catalog,
    tables: &Tables<M>,
    wants: &[Want],
) -> Result<RowList, NoMemory>
    requires { AllByRecursion (λ want. CanRead catalog.now (M.maps tables.now) want.index) wants.now }
    ensures { IfOk result (λ found. (rows : Rows) → ((number : ℕ) → HoldsRead catalog.now rows (M.maps tables.now) number) → found ≡ rows_read (schema_of catalog.now) rows wants.now) }
{
    let mut found = RowList::new(alloc);
    for index in 0..wants.len() {
        add_read(&mut found, catalog, tables, &wants[index])?;
    }
    Ok(found)
}

// Adds what a change owes to a view.
fn add_owed_to<M: SortedMaps>(
    alloc: Global,
    owed: &mut DeltaList,
    catalog: &Catalog,
    tables: &Tables<M>,
    view: &ViewDef,
    change: &Change,
) -> Result<(), NoMemory>
    requires view { IsJoined (schema_of catalog.now) (view_tree view.now) }
    requires found { (rows : Rows) × Finds catalog.now (M.maps tables.now) change.now rows }
    ensures { OnOk result ((rows : Rows) → Finds catalog.now (M.maps tables.now) change.now rows → owed.new ≡ owed.old ++ owed_to (schema_of catalog.now) rows (row_change change.now) (view_tree view.now)) }
{
    catalog.number_law();
    let wants = needs(alloc, catalog, view, change)?;
    let joined = looked_up(alloc, catalog, tables, wants.as_slice())?;
    add_deltas(alloc, owed, catalog, view, change, joined)
}

// The same of what may be a view.
fn add_owed_of<M: SortedMaps>(
    alloc: Global,
    owed: &mut DeltaList,
    catalog: &Catalog,
    tables: &Tables<M>,
    definition: &Definition,
    change: &Change,
) -> Result<(), NoMemory>
    requires view { AllByRecursion (IsJoined (schema_of catalog.now)) (views_of (object_of definition.now ∷ [])) }
    requires found { (rows : Rows) × Finds catalog.now (M.maps tables.now) change.now rows }
    ensures { OnOk result ((rows : Rows) → Finds catalog.now (M.maps tables.now) change.now rows → owed.new ≡ owed.old ++ flat_map (owed_to (schema_of catalog.now) rows (row_change change.now)) (views_of (object_of definition.now ∷ []))) }
{
    match definition {
        Definition::View(view) => add_owed_to(alloc, owed, catalog, tables, view, change),
        _ => Ok(()),
    }
}

/// What a change of a row owes to view after view, in the order in which they were made, by the rows that the tables hold.
/// It reads the intervals alone that the change looks up.
///
/// # Errors
///
/// Where there is no memory for it.
pub fn owed<M: SortedMaps>(
    alloc: Global,
    catalog: &Catalog,
    tables: &Tables<M>,
    change: &Change,
) -> Result<DeltaList, NoMemory>
    requires { (rows : Rows) × Finds catalog.now (M.maps tables.now) change.now rows }
    ensures { IfOk result (λ owed. (rows : Rows) → Finds catalog.now (M.maps tables.now) change.now rows → owed ≡ machine.owed (schema_of catalog.now) rows (row_change change.now)) }
{
    let mut owed = DeltaList::new(alloc);
    for definition in catalog.definitions() {
        add_owed_of(alloc, &mut owed, catalog, tables, definition, change)?;
    }
    Ok(owed)
}
