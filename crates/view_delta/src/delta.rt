//! What a change of one row owes to a view.
ghost use Rattle.std.specs.Prelude.{◌≡◌, [], ◌∷◌, ◌++◌, map, neg_ℤ, ◌&&◌, IfOk, IfSome, OnOk, IsNone, Some};
ghost use Rattle.std.specs.List.{AllByRecursion, flat_map};
ghost use Rattle.std.specs.Option.{option_to_list};
ghost use Rattle.std.specs.FinMap.{get};
ghost use Rattle.std.specs.Ordering.{int_cmp, is_eq};
ghost use Rattle.std.specs.Cmp.Lexicographic.{slice_cmp};
ghost use Rattle.std.specs.Str.{bytes_eq};
ghost use Rattle.iv_types.specs.Encoding.{FitAll, IsHuge};
ghost use Rattle.iv_meaning.specs.Objects.{schema_of, view_tree};
ghost use Rattle.iv_meaning.specs.Database.{Rows};
ghost use Rattle.txn_machine.specs.Deltas as machine;
ghost use Rattle.txn_machine.specs.Deltas.{contributions, exchanged, owed_to};
ghost use Rattle.iv_meaning.specs.Schema as schema;
ghost use Rattle.txn_machine.specs.RowChanges.{row_change};
ghost use Rattle.view_delta.specs.Owing.{RowsFit, AddsOne};
ghost use Rattle.view_delta.specs.Parts as parts;
ghost use Rattle.view_delta.specs.Parts.{FitTables, FitOther, looked_up};
ghost use Rattle.iv_meaning.specs.Query.{sorted_by};
ghost use Rattle.iv_meaning.specs.Reading.{by_columns};
ghost use Rattle.txn_machine.specs.ViewLaws.{IsRight, IsJoin, IsJoined};

use crate::contribution::{contributed_with, contribution_of, first_contributed};
use iv_types::{
    Catalog, Change, DeltaList, GroupDelta, Kind, NoMemory, NumberList, Row, RowList, Second,
    ViewDef,
};
use object_kinds::group_kinds;
use row_eval::primary_of;
use row_order::sorted_by;
use std::alloc::Global;

// The numbers with their signs turned.
fn opposites(alloc: Global, numbers: &[i128]) -> Result<NumberList, NoMemory>
    requires { AllByRecursion IsHuge numbers.now }
    ensures { IfOk result (λ found. found ≡ map neg_ℤ numbers.now) }
{
    let mut found = NumberList::new(alloc);
    for index in 0..numbers.len() {
        found.push(-numbers[index])?;
    }
    Ok(found)
}

// A contribution taken away.
fn negated(alloc: Global, delta: GroupDelta) -> Result<GroupDelta, NoMemory>
    requires { AddsOne delta }
    ensures { IfOk result (λ found. found ≡ machine.negated delta) }
{
    let sums = opposites(alloc, delta.sums.as_slice())?;
    let GroupDelta { view, group, .. } = delta;
    Ok(GroupDelta {
        view,
        group,
        count: -1,
        sums,
    })
}

// Whether two contributions have the same group and the same sums.
fn is_same(old: &GroupDelta, new: &GroupDelta) -> bool
    ensures { result ≡ (bytes_eq old.now.group new.now.group && is_eq (slice_cmp int_cmp old.now.sums new.now.sums)) }
{
    old.group == new.group && old.sums == new.sums
}

// Whether two contributions to one view are equal.
fn are_equal(old: &Option<GroupDelta>, new: &Option<GroupDelta>) -> bool
    ensures { result ≡ machine.are_equal (option_to_list old.now) (option_to_list new.now) }
{
    match (old, new) {
        (None, None) => true,
        (Some(old), Some(new)) => is_same(old, new),
        _ => false,
    }
}

// Adds the old contribution negated and then the new one; neither where they are equal.
fn add_exchanged(
    alloc: Global,
    owed: &mut DeltaList,
    old: Option<GroupDelta>,
    new: Option<GroupDelta>,
) -> Result<(), NoMemory>
    requires { IfSome old AddsOne }
    ensures { OnOk result (owed.new ≡ owed.old ++ exchanged (option_to_list old) (option_to_list new)) }
{
    if are_equal(&old, &new) {
        return Ok(());
    }
    if let Some(delta) = old {
        owed.push(negated(alloc, delta)?)?;
    }
    if let Some(delta) = new {
        owed.push(delta)?;
    }
    Ok(())
}

// What the row of a view's first table contributes, if there is one, with the first of some rows of the second with which it
// is counted.
fn first_of(
    alloc: Global,
    catalog: &Catalog,
    view: &ViewDef,
    kinds: &[Kind],
    row: &Option<Row>,
    others: &[Row],
) -> Result<Option<GroupDelta>, NoMemory>
    requires kinds { kinds.now ≡ schema.group_kinds (schema_of catalog.now) (view_tree view.now) }
    requires fits { IfSome row.now (λ row. AllByRecursion (λ other. FitTables (schema_of catalog.now) (view_tree view.now) (row ∷ other ∷ [])) others.now) }
    ensures value { IfOk result (λ found. option_to_list found ≡ parts.of_first (schema_of catalog.now) (view_tree view.now) row.now others.now) }
    ensures one { IfOk result (λ found. IfSome found AddsOne) }
{
    match row {
        Some(row) => first_contributed(alloc, catalog, view, kinds, row, others),
        None => Ok(None),
    }
}

// Adds what a change of the first of two tables owes. These rows of the second join the row before and the row after.
fn add_of_first(
    alloc: Global,
    owed: &mut DeltaList,
    catalog: &Catalog,
    view: &ViewDef,
    change: &Change,
    others: &[Row],
) -> Result<(), NoMemory>
    requires before { IfSome change.now.before (λ row. AllByRecursion (λ other. FitTables (schema_of catalog.now) (view_tree view.now) (row ∷ other ∷ [])) others.now) }
    requires after { IfSome change.now.after (λ row. AllByRecursion (λ other. FitTables (schema_of catalog.now) (view_tree view.now) (row ∷ other ∷ [])) others.now) }
    ensures { OnOk result (owed.new ≡ owed.old ++ exchanged (parts.of_first (schema_of catalog.now) (view_tree view.now) change.now.before others.now) (parts.of_first (schema_of catalog.now) (view_tree view.now) change.now.after others.now)) }
{
    let kinds = group_kinds(alloc, catalog, view)?;
    let old = first_of(
        alloc,
        catalog,
        view,
        kinds.as_slice(),
        &change.before,
        others,
    )?;
    let new = first_of(
        alloc,
        catalog,
        view,
        kinds.as_slice(),
        &change.after,
        others,
    )?;
    add_exchanged(alloc, owed, old, new)
}

// Adds what a change of the second of two tables owes for a row of the first.
fn add_owed_for(
    alloc: Global,
    owed: &mut DeltaList,
    catalog: &Catalog,
    view: &ViewDef,
    kinds: &[Kind],
    change: &Change,
    row: &Row,
) -> Result<(), NoMemory>
    requires kinds { kinds.now ≡ schema.group_kinds (schema_of catalog.now) (view_tree view.now) }
    requires before { IfSome change.now.before (λ other. FitTables (schema_of catalog.now) (view_tree view.now) (row.now ∷ other ∷ [])) }
    requires after { IfSome change.now.after (λ other. FitTables (schema_of catalog.now) (view_tree view.now) (row.now ∷ other ∷ [])) }
    ensures { OnOk result (owed.new ≡ owed.old ++ parts.owed_for (schema_of catalog.now) (view_tree view.now) change.now.before change.now.after row.now) }
{
    let old = contributed_with(alloc, catalog, view, kinds, row, &change.before)?;
    let new = contributed_with(alloc, catalog, view, kinds, row, &change.after)?;
    add_exchanged(alloc, owed, old, new)
}

// Adds what a change of the second of two tables owes, row by row of these of the first.
fn add_of_second(
    alloc: Global,
    owed: &mut DeltaList,
    catalog: &Catalog,
    view: &ViewDef,
    change: &Change,
    rows: &[Row],
) -> Result<(), NoMemory>
    requires before { IfSome change.now.before (λ other. AllByRecursion (λ row. FitTables (schema_of catalog.now) (view_tree view.now) (row ∷ other ∷ [])) rows.now) }
    requires after { IfSome change.now.after (λ other. AllByRecursion (λ row. FitTables (schema_of catalog.now) (view_tree view.now) (row ∷ other ∷ [])) rows.now) }
    ensures { OnOk result (owed.new ≡ owed.old ++ flat_map (parts.owed_for (schema_of catalog.now) (view_tree view.now) change.now.before change.now.after) rows.now) }
{
    let kinds = group_kinds(alloc, catalog, view)?;
    for index in 0..rows.len() {
        add_owed_for(
            alloc,
            owed,
            catalog,
            view,
            kinds.as_slice(),
            change,
            &rows[index],
        )?;
    }
    Ok(())
}

// Adds what a change of a view's one table owes.
fn add_of_one(
    alloc: Global,
    owed: &mut DeltaList,
    catalog: &Catalog,
    view: &ViewDef,
    change: &Change,
) -> Result<(), NoMemory>
    requires alone { IsNone view.now.second }
    requires before { IfSome change.now.before (λ values. FitAll (schema.kinds_of_table (schema.numbered (schema_of catalog.now) view.now.first)) values) }
    requires after { IfSome change.now.after (λ values. FitAll (schema.kinds_of_table (schema.numbered (schema_of catalog.now) view.now.first)) values) }
    ensures { OnOk result ((rows : Rows) → owed.new ≡ owed.old ++ exchanged (contributions (schema_of catalog.now) (view_tree view.now) rows change.now.before) (contributions (schema_of catalog.now) (view_tree view.now) rows change.now.after)) }
{
    let old = contribution_of(alloc, catalog, view, &change.before)?;
    let new = contribution_of(alloc, catalog, view, &change.after)?;
    add_exchanged(alloc, owed, old, new)
}

// The same, by the rows of the first that are looked up, in whatever order.
fn add_of_looked_up(
    alloc: Global,
    owed: &mut DeltaList,
    catalog: &Catalog,
    view: &ViewDef,
    change: &Change,
    joined: RowList,
) -> Result<(), NoMemory>
    requires before { IfSome change.now.before (λ other. AllByRecursion (λ row. FitTables (schema_of catalog.now) (view_tree view.now) (row ∷ other ∷ [])) joined) }
    requires after { IfSome change.now.after (λ other. AllByRecursion (λ row. FitTables (schema_of catalog.now) (view_tree view.now) (row ∷ other ∷ [])) joined) }
    ensures { OnOk result (owed.new ≡ owed.old ++ flat_map (parts.owed_for (schema_of catalog.now) (view_tree view.now) change.now.before change.now.after) (sorted_by (by_columns (schema.primary_of (schema.numbered (schema_of catalog.now) view.now.first))) joined)) }
{
    let rows = sorted_by(alloc, primary_of(catalog, view.first), joined)?;
    add_of_second(alloc, owed, catalog, view, change, rows.as_slice())
}

// Adds what a change owes to a view of two tables.
fn add_of_two(
    alloc: Global,
    owed: &mut DeltaList,
    catalog: &Catalog,
    view: &ViewDef,
    second: &Second,
    change: &Change,
    joined: RowList,
) -> Result<(), NoMemory>
    requires second { view.now.second ≡ Some second.now }
    requires join { IsJoin (schema_of catalog.now) (view_tree view.now) second.now }
    requires rows { RowsFit (schema_of catalog.now) change.now }
    requires joined { FitOther (schema_of catalog.now) (view_tree view.now) change.now.table joined }
    ensures { OnOk result ((rows : Rows) → IsRight (schema_of catalog.now) rows (row_change change.now) → looked_up (schema_of catalog.now) rows (row_change change.now) (view_tree view.now) ≡ joined
        → owed.new ≡ owed.old ++ owed_to (schema_of catalog.now) rows (row_change change.now) (view_tree view.now)) }
{
    if change.table == view.first {
        return add_of_first(alloc, owed, catalog, view, change, joined.as_slice());
    }
    if change.table == second.table {
        return add_of_looked_up(alloc, owed, catalog, view, change, joined);
    }
    Ok(())
}

/// Adds what a change of a row owes to a view, as `deltas` says.
///
/// # Errors
///
/// Where there is no memory for it.
pub fn add_deltas(
    alloc: Global,
    owed: &mut DeltaList,
    catalog: &Catalog,
    view: &ViewDef,
    change: &Change,
    joined: RowList,
) -> Result<(), NoMemory>
    requires view { IsJoined (schema_of catalog.now) (view_tree view.now) }
    requires rows { RowsFit (schema_of catalog.now) change.now }
    requires joined { FitOther (schema_of catalog.now) (view_tree view.now) change.now.table joined }
    ensures alone { OnOk result (IsNone view.now.second → (rows : Rows) → get rows (row_change change.now).key ≡ change.now.before → owed.new ≡ owed.old ++ owed_to (schema_of catalog.now) rows (row_change change.now) (view_tree view.now)) }
    ensures joined { OnOk result ((rows : Rows) → IsRight (schema_of catalog.now) rows (row_change change.now) → looked_up (schema_of catalog.now) rows (row_change change.now) (view_tree view.now) ≡ joined
        → owed.new ≡ owed.old ++ owed_to (schema_of catalog.now) rows (row_change change.now) (view_tree view.now)) }
{
    if let Some(second) = &view.second {
        return add_of_two(alloc, owed, catalog, view, second, change, joined);
    }
    if change.table == view.first {
        return add_of_one(alloc, owed, catalog, view, change);
    }
    Ok(())
}

/// What a change of a row owes to a view. The change's rows fit its table. Where its `before` is the row that is there, and
/// `joined` has the rows that the look-ups of `needs` read, one look-up's after another's, it owes for each row of the first
/// table that it concerns, in the order of the primary key, the old contribution negated and then the new one, and neither
/// where the two are equal. A change of a table that the view does not read owes nothing.
///
/// # Errors
///
/// Where there is no memory for it.
pub fn deltas(
    alloc: Global,
    catalog: &Catalog,
    view: &ViewDef,
    change: &Change,
    joined: RowList,
) -> Result<DeltaList, NoMemory>
    requires view { IsJoined (schema_of catalog.now) (view_tree view.now) }
    requires rows { RowsFit (schema_of catalog.now) change.now }
    requires joined { FitOther (schema_of catalog.now) (view_tree view.now) change.now.table joined }
    ensures alone { IfOk result (λ owed. IsNone view.now.second → (rows : Rows) → get rows (row_change change.now).key ≡ change.now.before → owed ≡ owed_to (schema_of catalog.now) rows (row_change change.now) (view_tree view.now)) }
    ensures joined { IfOk result (λ owed. (rows : Rows) → IsRight (schema_of catalog.now) rows (row_change change.now) → looked_up (schema_of catalog.now) rows (row_change change.now) (view_tree view.now) ≡ joined
        → owed ≡ owed_to (schema_of catalog.now) rows (row_change change.now) (view_tree view.now)) }
{
    let mut owed = DeltaList::new(alloc);
    add_deltas(alloc, &mut owed, catalog, view, change, joined)?;
    Ok(owed)
}
