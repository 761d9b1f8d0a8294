//! What rows contribute to a view, one of each of its tables.
ghost use Rattle.std.specs.Prelude.{◌≡◌, ◌++◌, [], ◌∷◌, map, take, IsNone, IfOk, IfSome, OnOk, Some};
ghost use Rattle.std.specs.Option.{option_to_list, option_copied};
ghost use Rattle.std.specs.List.{filter_map, flat_map, AllByRecursion};
ghost use Rattle.iv_types.specs.Encoding.{FitAll, key_bytes};
ghost use Rattle.iv_types.specs.Trees.{perhaps_tree};
ghost use Rattle.iv_meaning.specs.Schema.{numbered, kinds_of_table, group_kinds};
ghost use Rattle.iv_meaning.specs.Objects.{schema_of, view_tree};
ghost use Rattle.iv_meaning.specs.Database.{Rows};
ghost use Rattle.iv_meaning.specs.Values.{value_at, is_true};
ghost use Rattle.iv_meaning.specs.Query.{conjunction, values_at};
ghost use Rattle.iv_meaning.specs.Grouping.{number_in};
ghost use Rattle.row_eval.specs.Seen.{rows_of};
ghost use Rattle.txn_machine.specs.Deltas as machine;
ghost use Rattle.txn_machine.specs.Deltas.{contributions};
ghost use Rattle.view_delta.specs.Owing.{AddsOne};
ghost use Rattle.view_delta.specs.Parts as parts;
ghost use Rattle.view_delta.specs.Parts.{FitTables, contributed, first_contributed, with_second};

use iv_types::{
    Bytes, Catalog, ColumnAt, Expr, GroupDelta, Kind, NoMemory, NumberList, Row, Value, ViewDef,
};
use object_kinds::group_kinds;
use row_codec::encode_key;
use row_eval::{Combination, are_joined, is_chosen, primary_of};
use std::alloc::Global;

// The values of a view's group columns.
fn values_of_group(
    alloc: Global,
    rows: Combination<'_>,
    group: &[ColumnAt],
) -> Result<Row, NoMemory>
    ensures { IfOk result (λ values. values ≡ values_at group.now (rows_of rows.entry)) }
{
    let mut values = Row::new(alloc);
    for index in 0..group.len() {
        if let Some(value) = rows.value(group[index]) {
            values.push(value.copied(alloc)?)?;
        }
    }
    Ok(values)
}

// The encoded group of some rows.
fn group_of(
    alloc: Global,
    kinds: &[Kind],
    rows: Combination<'_>,
    group: &[ColumnAt],
) -> Result<Bytes, NoMemory>
    requires { FitAll kinds.now (values_at group.now (rows_of rows)) }
    ensures { IfOk result (λ bytes. bytes ≡ key_bytes kinds.now (values_at group.now (rows_of rows.entry))) }
{
    let values = values_of_group(alloc, rows, group)?;
    encode_key(alloc, kinds, values.as_slice())
}

// A column's value as a number.
fn number_of(rows: Combination<'_>, place: ColumnAt) -> i128
    ensures { result ≡ number_in (value_at (rows_of rows.entry) place) }
{
    match rows.value(place) {
        Some(Value::Number(number)) => *number,
        _ => 0,
    }
}

// The values of the columns that are summed.
fn sums_of(alloc: Global, rows: Combination<'_>, sums: &[ColumnAt]) -> Result<NumberList, NoMemory>
    ensures { IfOk result (λ numbers. numbers ≡ map (λ column. number_in (value_at (rows_of rows.entry) column)) sums.now) }
{
    let mut numbers = NumberList::new(alloc);
    for index in 0..sums.len() {
        numbers.push(number_of(rows, sums[index]))?;
    }
    Ok(numbers)
}

// Whether a condition is true of some rows; where there is none, it is.
fn is_met(condition: &Option<Expr>, rows: Combination<'_>) -> bool
    ensures { result ≡ is_true (conjunction (option_to_list (perhaps_tree condition.now)) (rows_of rows.entry)) }
{
    match is_chosen(condition, rows) {
        Ok(chosen) => chosen,
        Err(_) => false,
    }
}

// Whether the conditions of a view are true of some rows.
fn is_counted(catalog: &Catalog, view: &ViewDef, rows: Combination<'_>) -> bool
    ensures { result ≡ machine.is_counted (schema_of catalog.now) (view_tree view.now) (rows_of rows.entry) }
{
    match &view.second {
        Some(second) => {
            let key = primary_of(catalog, second.table);
            are_joined(rows, second.joined.as_slice(), key) && is_met(&view.condition, rows)
        }
        None => is_met(&view.condition, rows),
    }
}

// What rows that are counted contribute to a view. These are the kinds of its group columns.
fn contribution(
    alloc: Global,
    view: &ViewDef,
    kinds: &[Kind],
    rows: Combination<'_>,
) -> Result<GroupDelta, NoMemory>
    requires { FitAll kinds.now (values_at view.now.group (rows_of rows)) }
    ensures { IfOk result (λ found. found ≡ parts.contribution_by kinds.now (view_tree view.now) (rows_of rows.entry)) }
{
    let group = group_of(alloc, kinds, rows, view.group.as_slice())?;
    let sums = sums_of(alloc, rows, view.sums.as_slice())?;
    Ok(GroupDelta {
        view: view.number,
        group,
        count: 1,
        sums,
    })
}

// What rows contribute to a view, if it counts them. These are the kinds of its group columns.
fn contributed(
    alloc: Global,
    catalog: &Catalog,
    view: &ViewDef,
    kinds: &[Kind],
    rows: Combination<'_>,
) -> Result<Option<GroupDelta>, NoMemory>
    requires kinds { kinds.now ≡ group_kinds (schema_of catalog.now) (view_tree view.now) }
    requires fits { FitTables (schema_of catalog.now) (view_tree view.now) (rows_of rows) }
    ensures value { IfOk result (λ found. option_to_list found ≡ contributed (schema_of catalog.now) (view_tree view.now) (rows_of rows.entry)) }
    ensures one { IfOk result (λ found. IfSome found AddsOne) }
{
    if !is_counted(catalog, view, rows) {
        return Ok(None);
    }
    Ok(Some(contribution(alloc, view, kinds, rows)?))
}

/// What the row of a view's one table contributes to the view, if there is one: nothing, or one delta.
///
/// # Errors
///
/// Where there is no memory for it.
pub fn contribution_of(
    alloc: Global,
    catalog: &Catalog,
    view: &ViewDef,
    row: &Option<Row>,
) -> Result<Option<GroupDelta>, NoMemory>
    requires alone { IsNone view.now.second }
    requires fits { IfSome row.now (λ values. FitAll (kinds_of_table (numbered (schema_of catalog.now) view.now.first)) values) }
    ensures value { IfOk result (λ found. (rows : Rows) → option_to_list found ≡ contributions (schema_of catalog.now) (view_tree view.now) rows row.now) }
    ensures one { IfOk result (λ found. IfSome found AddsOne) }
{
    let Some(row) = row else {
        return Ok(None);
    };
    let kinds = group_kinds(alloc, catalog, view)?;
    contributed(
        alloc,
        catalog,
        view,
        kinds.as_slice(),
        Combination::One(row),
    )
}

/// What a row of the first of two tables contributes with the first of some rows of the second with which it is counted.
/// These are the kinds of the view's group columns.
///
/// # Errors
///
/// Where there is no memory for it.
pub fn first_contributed(
    alloc: Global,
    catalog: &Catalog,
    view: &ViewDef,
    kinds: &[Kind],
    row: &Row,
    others: &[Row],
) -> Result<Option<GroupDelta>, NoMemory>
    requires kinds { kinds.now ≡ group_kinds (schema_of catalog.now) (view_tree view.now) }
    requires fits { AllByRecursion (λ other. FitTables (schema_of catalog.now) (view_tree view.now) (row.now ∷ other ∷ [])) others.now }
    ensures value { IfOk result (λ found. option_to_list found ≡ first_contributed (schema_of catalog.now) (view_tree view.now) row.now others.now) }
    ensures one { IfOk result (λ found. IfSome found AddsOne) }
{
    for index in 0..others.len() {
        let rows = Combination::Two(row, &others[index]);
        let found = contributed(alloc, catalog, view, kinds, rows)?;
        if found.is_some() {
            return Ok(found);
        }
    }
    Ok(None)
}

/// What a row of the first of two tables contributes with a row of the second, if there is one. These are the kinds of the
/// view's group columns.
///
/// # Errors
///
/// Where there is no memory for it.
pub fn contributed_with(
    alloc: Global,
    catalog: &Catalog,
    view: &ViewDef,
    kinds: &[Kind],
    row: &Row,
    other: &Option<Row>,
) -> Result<Option<GroupDelta>, NoMemory>
    requires kinds { kinds.now ≡ group_kinds (schema_of catalog.now) (view_tree view.now) }
    requires fits { IfSome other.now (λ other. FitTables (schema_of catalog.now) (view_tree view.now) (row.now ∷ other ∷ [])) }
    ensures value { IfOk result (λ found. option_to_list found ≡ with_second (schema_of catalog.now) (view_tree view.now) row.now other.now) }
    ensures one { IfOk result (λ found. IfSome found AddsOne) }
{
    match other {
        Some(other) => contributed(alloc, catalog, view, kinds, Combination::Two(row, other)),
        None => Ok(None),
    }
}
