//! Whether the views of a catalog join their tables as they should.
ghost use Rattle.std.specs.Prelude.{◌≡◌, ◌≢◌, ◌↔◌, ◌++◌, [], ◌∷◌, ℕ, List, Some, IsTrue};
ghost use Rattle.std.specs.List.{AllByRecursion};
ghost use Rattle.iv_meaning.specs.Schema as schema;
ghost use Rattle.iv_meaning.specs.Schema.{numbered};
ghost use Rattle.iv_meaning.specs.Objects.{schema_of, object_of, view_tree};
ghost use Rattle.txn_machine.specs.Deltas.{views_of};
ghost use Rattle.txn_machine.specs.ViewLaws.{BeginsWith, IsJoin, IsJoined};
ghost use Rattle.view_delta.specs.Owing.{AreJoined};
ghost use Rattle.view_delta.specs.Joining.{Begins, BeginsOwn, BeginsMade};

use iv_types::{Catalog, Definition, IndexDef, Second, TableDef, ViewDef};
use object_kinds::numbered;
use row_eval::are_alike;

// Whether the columns of an index begin with the joined ones.
fn begins(columns: &[usize], joined: &[usize]) -> bool
    ensures { IsTrue result ↔ Begins columns.now joined.now }
{
    columns.starts_with(joined)
}

// Whether the index of this number is the first table's own, and begins with the joined columns.
fn is_own(first: &TableDef, second: &Second) -> bool
    ensures { IsTrue result ↔ BeginsOwn first.now second.now }
{
    if second.index != first.number {
        return false;
    }
    begins(first.primary.as_slice(), second.joined.as_slice())
}

// Whether an index is one of the first table that begins with the joined columns.
fn is_of(first: &TableDef, second: &Second, index: &IndexDef) -> bool
    ensures { IsTrue result ↔ (index.now.table ≡ first.now.number) × Begins index.now.columns second.now.joined }
{
    if index.table != first.number {
        return false;
    }
    begins(index.columns.as_slice(), second.joined.as_slice())
}

// Whether the index of this number is one of the first table that CREATE INDEX made, and begins with the joined columns.
fn is_made(catalog: &Catalog, first: &TableDef, second: &Second) -> bool
    ensures { IsTrue result ↔ BeginsMade (numbered (schema_of catalog.now) second.now.index) first.now second.now }
{
    match numbered(catalog, second.index) {
        Some(Definition::Index(index)) => is_of(first, second, index),
        _ => false,
    }
}

// Whether the index of this number is one of the first table that begins with the joined columns.
fn is_begun(catalog: &Catalog, first: &TableDef, second: &Second) -> bool
    ensures { IsTrue result ↔ BeginsWith (schema_of catalog.now) first.now second.now.joined second.now.index }
{
    is_own(first, second) || is_made(catalog, first, second)
}

// Whether two tables are joined as they should.
fn joins(
    catalog: &Catalog,
    view: &ViewDef,
    second: &Second,
    first: &TableDef,
    other: &TableDef,
) -> bool
    requires first { numbered (schema_of catalog.now) view.now.first ≡ Some (schema.table first.now) }
    requires other { numbered (schema_of catalog.now) second.now.table ≡ Some (schema.table other.now) }
    ensures { IsTrue result ↔ IsJoin (schema_of catalog.now) (view_tree view.now) second.now }
{
    if second.table == view.first {
        return false;
    }
    if !is_begun(catalog, first, second) {
        return false;
    }
    are_alike(
        catalog,
        view.first,
        second.joined.as_slice(),
        second.table,
        other.primary.as_slice(),
    )
}

// Whether a view joins these tables as it should.
fn is_join(catalog: &Catalog, view: &ViewDef, second: &Second) -> bool
    ensures { IsTrue result ↔ IsJoin (schema_of catalog.now) (view_tree view.now) second.now }
{
    match numbered(catalog, view.first) {
        Some(Definition::Table(first)) => match numbered(catalog, second.table) {
            Some(Definition::Table(other)) => joins(catalog, view, second, first, other),
            _ => false,
        },
        _ => false,
    }
}

/// Whether a view reads one table, or joins two by the whole primary key of the second and names an index of the first
/// that begins with the joined columns.
pub fn is_joined(catalog: &Catalog, view: &ViewDef) -> bool
    ensures { IsTrue result ↔ IsJoined (schema_of catalog.now) (view_tree view.now) }
{
    match &view.second {
        Some(second) => is_join(catalog, view, second),
        None => true,
    }
}

// The same of what may be a view.
fn is_joined_of(catalog: &Catalog, definition: &Definition) -> bool
    ensures { IsTrue result ↔ AllByRecursion (IsJoined (schema_of catalog.now)) (views_of (object_of definition.now ∷ [])) }
{
    match definition {
        Definition::View(view) => is_joined(catalog, view),
        _ => true,
    }
}

/// Whether each view of a catalog is one of one table, or joins two as it should.
pub fn are_joined(catalog: &Catalog) -> bool
    ensures { IsTrue result ↔ AreJoined (schema_of catalog.now) }
{
    for definition in catalog.definitions() {
        if !is_joined_of(catalog, definition) {
            return false;
        }
    }
    true
}
