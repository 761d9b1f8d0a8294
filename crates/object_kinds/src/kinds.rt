//! The kinds of the columns of tables and views.
ghost use Rattle.std.specs.Prelude.{◌≡◌, ◌++◌, map, slice_get, IfOk, OnOk};
ghost use Rattle.std.specs.Option.{option_map, option_copied, option_to_list};
ghost use Rattle.iv_meaning.specs.Schema.{numbered, kinds_of_table, sources_of, group_kinds, items_at, kind_at, object_kinds};
ghost use Rattle.iv_types.specs.Encoding.{kinds_of};
ghost use Rattle.iv_meaning.specs.Objects.{object_of, schema_of, view_tree};
ghost use Rattle.iv_meaning.specs.Schema as schema;

use iv_types::{
    Catalog, ColumnAt, Definition, Kind, KindList, NoMemory, Sequence, TableDef, ViewDef,
};
use std::alloc::Global;

/// The kinds of the columns of some relations, one list for each.
pub type RelationKinds = Sequence<KindList>;

/// The definition of an object number, if there is one.
pub fn numbered(catalog: &Catalog, number: u32) -> Option<&Definition>
    ensures { option_map object_of (option_copied result) ≡ numbered (schema_of catalog.now) number }
{
    catalog.get(number)
}

/// The kinds of a table's columns.
///
/// # Errors
///
/// Where there is no memory for them.
pub fn kinds_of(alloc: Global, table: &TableDef) -> Result<KindList, NoMemory>
    ensures { IfOk result (λ kinds. kinds ≡ kinds_of table.now) }
{
    let mut kinds = KindList::new(alloc);
    for column in table.columns.as_slice() {
        kinds.push(column.kind)?;
    }
    Ok(kinds)
}

/// The kind of a column, where these are the kinds of the columns of some relations.
pub fn kind_at(kinds: &[KindList], place: ColumnAt) -> Option<Kind>
    ensures { result ≡ kind_at kinds.now place }
{
    match kinds.get(place.source) {
        Some(kinds) => kinds.as_slice().get(place.column).copied(),
        None => None,
    }
}

/// The kinds of a table's columns, and none for what is no table.
///
/// # Errors
///
/// Where there is no memory for them.
pub fn kinds_of_table(alloc: Global, catalog: &Catalog, number: u32) -> Result<KindList, NoMemory>
    ensures { IfOk result (λ kinds. kinds ≡ kinds_of_table (numbered (schema_of catalog.now) number)) }
{
    match numbered(catalog, number) {
        Some(Definition::Table(table)) => kinds_of(alloc, table),
        _ => Ok(KindList::new(alloc)),
    }
}

// The kinds of the columns of the tables that a view reads.
fn source_kinds(alloc: Global, catalog: &Catalog, view: &ViewDef) -> Result<RelationKinds, NoMemory>
    ensures { IfOk result (λ kinds. kinds ≡ map (λ n. kinds_of_table (numbered (schema_of catalog.now) n)) (sources_of (view_tree view.now))) }
{
    let mut kinds = RelationKinds::new(alloc);
    kinds.push(kinds_of_table(alloc, catalog, view.first)?)?;
    if let Some(second) = &view.second {
        kinds.push(kinds_of_table(alloc, catalog, second.table)?)?;
    }
    Ok(kinds)
}

/// The kinds of a view's group columns.
///
/// # Errors
///
/// Where there is no memory for them.
pub fn group_kinds(alloc: Global, catalog: &Catalog, view: &ViewDef) -> Result<KindList, NoMemory>
    ensures { IfOk result (λ kinds. kinds ≡ group_kinds (schema_of catalog.now) (view_tree view.now)) }
{
    let sources = source_kinds(alloc, catalog, view)?;
    let sources = sources.as_slice();
    let group = view.group.as_slice();
    let mut kinds = KindList::new(alloc);
    for place in group {
        if let Some(kind) = kind_at(sources, *place) {
            kinds.push(kind)?;
        }
    }
    Ok(kinds)
}

// The kinds of a view's columns: those of its group, and then HUGE.
fn view_kinds(alloc: Global, catalog: &Catalog, view: &ViewDef) -> Result<KindList, NoMemory>
    ensures { IfOk result (λ kinds. kinds ≡ object_kinds (schema_of catalog.now) (schema.view (view_tree view.now))) }
{
    let mut kinds = group_kinds(alloc, catalog, view)?;
    kinds.push(Kind::Huge)?;
    for _ in view.sums.as_slice() {
        kinds.push(Kind::Huge)?;
    }
    Ok(kinds)
}

/// The kinds of an object's columns.
///
/// # Errors
///
/// Where there is no memory for them.
pub fn kinds_of_object(
    alloc: Global,
    catalog: &Catalog,
    definition: &Definition,
) -> Result<KindList, NoMemory>
    ensures { IfOk result (λ kinds. kinds ≡ object_kinds (schema_of catalog.now) (object_of definition.now)) }
{
    match definition {
        Definition::Table(table) => kinds_of(alloc, table),
        Definition::Index(_) => Ok(KindList::new(alloc)),
        Definition::View(view) => view_kinds(alloc, catalog, view),
    }
}

// Adds a kind, if there is one.
fn push_kind(kinds: &mut KindList, kind: Option<Kind>) -> Result<(), NoMemory>
    ensures { OnOk result (kinds.new ≡ kinds.old ++ option_to_list kind) }
{
    match kind {
        Some(kind) => kinds.push(kind),
        None => Ok(()),
    }
}

// The kind at a place.
fn kind_here(kinds: &[Kind], place: usize) -> Option<Kind>
    ensures { result ≡ slice_get kinds.now place }
{
    kinds.get(place).copied()
}

/// The kinds at some places.
///
/// # Errors
///
/// Where there is no memory for them.
pub fn kinds_at(alloc: Global, kinds: &[Kind], places: &[usize]) -> Result<KindList, NoMemory>
    ensures { IfOk result (λ found. found ≡ items_at kinds.now places.now) }
{
    let mut found = KindList::new(alloc);
    for index in 0..places.len() {
        push_kind(&mut found, kind_here(kinds, places[index]))?;
    }
    Ok(found)
}
