//! What is known of an object, and of the relations of a query.
ghost use Rattle.std.specs.Prelude.{◌≡◌, ◌+◌, ◌∷◌, [], length, nat_lt, IfOk, Some, false};
ghost use Rattle.std.specs.List.{list_any};
ghost use Rattle.std.specs.Option.{option_copied, option_map_or};
ghost use Rattle.iv_meaning.specs.Schema.{object_columns, object_kinds, as_table, as_view, primary_of};
ghost use Rattle.iv_meaning.specs.Objects.{object_of, schema_of};
ghost use Rattle.iv_meaning.specs.Shape.{object_number, readers};
ghost use Rattle.iv_meaning.specs.Types.{sources_of, kinds_seen};
ghost use Rattle.bind_resolve.specs.Seen.{query_seen};
ghost use Rattle.bind_check.specs.Counting.{count_of, is_a, reads};

use bind_resolve::ResolvedQuery;
use iv_types::{Catalog, Definition, NoMemory, TableDef};
use object_kinds::{RelationKinds, kinds_of_object};
use std::alloc::Global;

/// What an object is.
#[derive(Clone, Copy)]
pub enum ObjectKind {
    Table,
    Index,
    View,
}

/// Its number.
#[tactic(auto, using(crate::proofs::CountLemmas::number_is))]
pub fn number_of(definition: &Definition) -> u32
    ensures { result ≡ object_number (object_of definition.now) }
{
    definition.number()
}

/// The table, if it is one.
pub fn as_table(definition: &Definition) -> Option<&TableDef>
    ensures { option_copied result ≡ as_table (object_of definition.now) }
{
    match definition {
        Definition::Table(table) => Some(table),
        _ => None,
    }
}

/// Whether it is of a kind.
pub fn is_a(kind: ObjectKind, definition: &Definition) -> bool
    ensures { result ≡ is_a kind (object_of definition.now) }
{
    match kind {
        ObjectKind::Table => matches!(definition, Definition::Table(_)),
        ObjectKind::Index => matches!(definition, Definition::Index(_)),
        ObjectKind::View => matches!(definition, Definition::View(_)),
    }
}

/// How many columns it has.
pub fn width_of(definition: &Definition) -> usize
    ensures { result ≡ length (object_columns (object_of definition.now)) }
{
    match definition {
        Definition::Table(table) => table.columns.as_slice().len(),
        Definition::Index(_) => 0,
        Definition::View(view) => view.names.as_slice().len(),
    }
}

/// The columns of its primary key, of which what is no table has none.
pub fn primary_of(definition: &Definition) -> &[usize]
    ensures { result.now ≡ primary_of (Some (object_of definition.now)) }
{
    match definition {
        Definition::Table(table) => table.primary.as_slice(),
        _ => &[],
    }
}

/// The kinds of the columns of a query's relations, in FROM order.
pub fn kinds_seen(
    alloc: Global,
    catalog: &Catalog,
    query: &ResolvedQuery<'_>,
) -> Result<RelationKinds, NoMemory>
    ensures { IfOk result (λ kinds. kinds ≡ kinds_seen (schema_of catalog.now) (query_seen query.now)) }
{
    let mut kinds = RelationKinds::new(alloc);
    kinds.push(kinds_of_object(alloc, catalog, query.first)?)?;
    for join in query.joins.as_slice() {
        kinds.push(kinds_of_object(alloc, catalog, join.object)?)?;
    }
    Ok(kinds)
}

/// Whether FROM names an object of a kind.
pub fn names_a(kind: ObjectKind, query: &ResolvedQuery<'_>) -> bool
    ensures { result ≡ list_any (is_a kind) (sources_of (query_seen query.now)) }
{
    let joined = query.joins.as_slice().iter().any(|j| is_a(kind, j.object));
    is_a(kind, query.first) || joined
}

/// How many objects of a kind there are.
#[tactic(auto, using(crate::proofs::CountLemmas::kept))]
pub fn count_of(kind: ObjectKind, catalog: &Catalog) -> usize
    ensures { result ≡ count_of kind (schema_of catalog.now) }
{
    let definitions = catalog.definitions().iter();
    definitions.filter(|d| is_a(kind, d)).count()
}

// Whether an object is a view that reads a table.
fn reads(number: u32, definition: &Definition) -> bool
    ensures { result ≡ option_map_or (reads number) (as_view (object_of definition.now)) false }
{
    let Definition::View(view) = definition else {
        return false;
    };
    match &view.second {
        None => view.first == number,
        Some(second) => view.first == number || second.table == number,
    }
}

// Whether an object has too many readers for one more.
#[tactic(auto, using(crate::proofs::CountLemmas::readers_are))]
fn has_many_readers(catalog: &Catalog, definition: &Definition) -> bool
    ensures { result ≡ nat_lt 8 (readers (schema_of catalog.now) (object_number (object_of definition.now)) + 1) }
{
    let number = number_of(definition);
    let readers = catalog.definitions().iter().filter(|d| reads(number, d));
    readers.count() >= 8
}

/// Whether a relation of FROM has too many readers for one more.
pub fn have_many_readers(catalog: &Catalog, query: &ResolvedQuery<'_>) -> bool
    ensures { result ≡ list_any (λ o. nat_lt 8 (readers (schema_of catalog.now) (object_number o) + 1)) (sources_of (query_seen query.now)) }
{
    let mut joins = query.joins.as_slice().iter();
    let joined = joins.any(|j| has_many_readers(catalog, j.object));
    has_many_readers(catalog, query.first) || joined
}
