//! The relations that a statement sees, their columns, and the column that a name stands for.
#![tactic(auto, using(crate::proofs::Steps::stops, crate::proofs::Steps::goes_on))]

ghost use Rattle.std.specs.Prelude.{◌≡◌, ◌++◌, ◌∷◌, [], filter, map, length, IfOk, OnOk};
ghost use Rattle.std.specs.Option.{option_copied, option_map_or};
ghost use Rattle.std.specs.Str.{bytes_eq};
ghost use Rattle.iv_types.specs.Trees.{query_tree};
ghost use Rattle.iv_meaning.specs.Schema.{object_columns, named as object_named};
ghost use Rattle.iv_meaning.specs.Objects.{schema_of, object_of};
ghost use Rattle.iv_meaning.specs.Resolving as meant;
ghost use Rattle.bind_resolve.specs.Meant.{IsMeant};
ghost use Rattle.bind_resolve.specs.Seen.{names_in, column_seen, is_called, scope_seen};

use crate::names::same_name;
use crate::{Column, Scope};
use iv_types::{
    Bytes, Catalog, ColumnAt, ColumnDef, Definition, NoMemory, Query, Ref, Refusal, Relation,
    Sequence,
};
use std::alloc::Global;

/// The names of some columns.
pub fn names_of(alloc: Global, columns: &[ColumnDef]) -> Result<Sequence<&Bytes>, NoMemory>
    ensures { IfOk result (λ names. names_in names ≡ map (λ c. c.name) columns.now) }
{
    let mut names = Sequence::new(alloc);
    for column in columns {
        names.push(&column.name)?;
    }
    Ok(names)
}

// The names of an object's columns.
fn columns_of(alloc: Global, definition: &Definition) -> Result<Sequence<&Bytes>, NoMemory>
    ensures { IfOk result (λ names. names_in names ≡ object_columns (object_of definition.now)) }
{
    match definition {
        Definition::Table(table) => names_of(alloc, table.columns.as_slice()),
        Definition::Index(_) => Ok(Sequence::new(alloc)),
        Definition::View(view) => {
            let names = view.names.as_slice().iter();
            Ok(Sequence::from_vec(names.collect(alloc)?))
        }
    }
}

/// What a statement sees that names no relations.
pub fn empty_scope<'a>(alloc: Global) -> Scope<'a>
    ensures { scope_seen result ≡ record { relations = []; columns = [] } }
{
    Scope {
        relations: Sequence::new(alloc),
        columns: Sequence::new(alloc),
    }
}

// Adds a relation and its columns.
fn add_relation<'a>(
    scope: &mut Scope<'a>,
    relation: &'a Bytes,
    names: &[&'a Bytes],
) -> Result<(), NoMemory>
    ensures relations { OnOk result (names_in scope.new.relations ≡ names_in scope.old.relations ++ relation.now ∷ []) }
    ensures columns { OnOk result (map column_seen scope.new.columns ≡ map column_seen scope.old.columns ++ meant.columns_from relation.now (length scope.old.relations) 0 (names_in names.now)) }
{
    let source = scope.relations.as_slice().len();
    for column in 0..names.len() {
        scope.columns.push(Column {
            relation,
            name: names[column],
            place: ColumnAt { source, column },
        })?;
    }
    scope.relations.push(relation)
}

/// What a statement sees of one relation.
pub fn scope_of_one<'a>(
    alloc: Global,
    relation: &'a Bytes,
    names: &[&'a Bytes],
) -> Result<Scope<'a>, NoMemory>
    ensures { IfOk result (λ scope. scope_seen scope ≡ meant.scope_of_one relation.now (names_in names.now)) }
{
    let mut scope = empty_scope(alloc);
    add_relation(&mut scope, relation, names)?;
    Ok(scope)
}

/// What a statement sees that changes an object.
pub fn scope_of_object<'a>(
    alloc: Global,
    name: &'a Bytes,
    definition: &'a Definition,
) -> Result<Scope<'a>, NoMemory>
    ensures { IfOk result (λ scope. scope_seen scope ≡ meant.scope_of_one name.now (object_columns (object_of definition.now))) }
{
    let names = columns_of(alloc, definition)?;
    scope_of_one(alloc, name, names.as_slice())
}

/// What a statement calls a relation.
pub fn called(relation: &Relation) -> &Bytes
    ensures { result.now ≡ meant.called relation.now }
{
    match &relation.alias {
        Some(alias) => alias,
        None => &relation.name,
    }
}

// Adds a relation of FROM. What is not there has no columns.
#[tactic(auto, using(crate::proofs::Objects::named_alike))]
fn add_source<'a>(
    alloc: Global,
    catalog: &'a Catalog,
    scope: &mut Scope<'a>,
    relation: &'a Relation,
) -> Result<(), NoMemory>
    ensures relations { OnOk result (names_in scope.new.relations ≡ names_in scope.old.relations ++ meant.called relation.now ∷ []) }
    ensures columns { OnOk result (map column_seen scope.new.columns ≡ map column_seen scope.old.columns ++ meant.columns_from (meant.called relation.now) (length scope.old.relations) 0 (option_map_or object_columns (object_named (schema_of catalog.now) relation.now.name) [])) }
{
    match catalog.find(relation.name.as_slice()) {
        Some(definition) => {
            let names = columns_of(alloc, definition)?;
            add_relation(scope, called(relation), names.as_slice())
        }
        None => add_relation(scope, called(relation), &[]),
    }
}

/// What a query sees.
pub fn scope_from<'a>(
    alloc: Global,
    catalog: &'a Catalog,
    query: &'a Query,
) -> Result<Scope<'a>, NoMemory>
    ensures { IfOk result (λ scope. scope_seen scope ≡ meant.scope_from (schema_of catalog.now) (query_tree query.now)) }
{
    let mut scope = empty_scope(alloc);
    add_source(alloc, catalog, &mut scope, &query.first)?;
    for join in query.joins.as_slice() {
        add_source(alloc, catalog, &mut scope, &join.relation)?;
    }
    Ok(scope)
}

// How many relations are called so.
#[tactic(auto, using(crate::proofs::Steps::count_seen))]
fn how_many_called(qualifier: &Bytes, scope: &Scope<'_>) -> usize
    ensures { result ≡ meant.how_many (bytes_eq qualifier.now) (scope_seen scope.now).relations }
{
    let relations = scope.relations.as_slice().iter();
    relations.filter(|r| same_name(qualifier, r)).count()
}

// Whether a column has a name, in a relation that is called so.
fn is_called(qualifier: Option<&Bytes>, name: &Bytes, column: &Column<'_>) -> bool
    ensures { result ≡ is_called (option_copied qualifier.entry) name.now (column_seen column.now) }
{
    match qualifier {
        Some(qualifier) => same_name(qualifier, column.relation) && same_name(name, column.name),
        None => same_name(name, column.name),
    }
}

// The columns of a name.
fn named(
    alloc: Global,
    scope: &Scope<'_>,
    qualifier: Option<&Bytes>,
    name: &Bytes,
) -> Result<Vec<ColumnAt>, NoMemory>
    ensures { IfOk result (λ found. found.items ≡ map (λ c. c.place) (filter (λ c. is_called (option_copied qualifier.entry) name.now (column_seen c)) scope.now.columns)) }
{
    let columns = scope.columns.as_slice().iter();
    let columns = columns.filter(|c| is_called(qualifier, name, c));
    Ok(columns.map(|c| c.place).collect(alloc)?)
}

// The one of some columns of a name.
fn only(alloc: Global, found: &[ColumnAt], name: &Bytes) -> Result<ColumnAt, Refusal>
    ensures { IsMeant (λ place. place) result (meant.only found.now name.now) }
{
    match found {
        [place] => Ok(*place),
        _ => Err(Refusal::UnknownName(name.copied(alloc)?)),
    }
}

// The column of a name, in the relation that is called so.
fn column_by(
    alloc: Global,
    scope: &Scope<'_>,
    qualifier: Option<&Bytes>,
    name: &Bytes,
) -> Result<ColumnAt, Refusal>
    ensures { IsMeant (λ place. place) result (meant.column_by (scope_seen scope.now) (option_copied qualifier.entry) name.now) }
{
    match qualifier {
        Some(relation) => {
            if how_many_called(relation, scope) == 1 {
                only(alloc, &named(alloc, scope, Some(relation), name)?, name)
            } else {
                Err(Refusal::UnknownName(relation.copied(alloc)?))
            }
        }
        None => only(alloc, &named(alloc, scope, None, name)?, name),
    }
}

/// The column that a name stands for, or the refusal of a name that stands for none or for several.
pub fn column_of(alloc: Global, scope: &Scope<'_>, column: &Ref) -> Result<ColumnAt, Refusal>
    ensures { IsMeant (λ place. place) result (meant.column_of (scope_seen scope.now) column.now) }
{
    column_by(alloc, scope, column.qualifier.as_ref(), &column.name)
}

/// The place of a column in its relation, or the refusal of a name that stands for none or for several.
pub fn place_of(alloc: Global, scope: &Scope<'_>, name: &Bytes) -> Result<usize, Refusal>
    ensures { IsMeant (λ place. place) result (meant.place_of (scope_seen scope.now) name.now) }
{
    Ok(column_by(alloc, scope, None, name)?.column)
}
