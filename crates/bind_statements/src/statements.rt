//! Statements with objects and places for names.
#![tactic(auto, using(bind_resolve::proofs::Steps::stops, bind_resolve::proofs::Steps::goes_on))]

ghost use Rattle.std.specs.Prelude.{◌≡◌, [], map};
ghost use Rattle.iv_types.specs.Trees.{perhaps_tree, set_tree, statement_tree};
ghost use Rattle.iv_types.specs.Syntax as syntax;
ghost use Rattle.iv_meaning.specs.Objects.{schema_of};
ghost use Rattle.iv_meaning.specs.Resolving as meant;
ghost use Rattle.bind_resolve.specs.Meant.{IsMeant};
ghost use Rattle.bind_resolve.specs.Seen.{resolved_seen};

use bind_resolve::{
    Resolved, all_new, assignments, condition, known, names_of, new_object, places, query,
    scope_of_object, scope_of_one, tuples,
};
use iv_types::{Bytes, Catalog, ColumnDef, Expr, Refusal, Set, Statement};
use std::alloc::Global;

fn create_table<'a>(
    alloc: Global,
    catalog: &'a Catalog,
    name: &'a Bytes,
    columns: &'a [ColumnDef],
    primary: &[Bytes],
) -> Result<Resolved<'a>, Refusal>
    ensures { IsMeant resolved_seen result (meant.resolved (schema_of catalog.now) (syntax.create_table name.now columns.now primary.now)) }
{
    new_object(alloc, catalog, name)?;
    let names = names_of(alloc, columns)?;
    all_new(alloc, names.as_slice())?;
    let scope = scope_of_one(alloc, name, names.as_slice())?;
    let primary = places(alloc, &scope, primary)?;
    Ok(Resolved::Table {
        name,
        columns,
        primary,
    })
}

fn create_index<'a>(
    alloc: Global,
    catalog: &'a Catalog,
    name: &'a Bytes,
    table: &'a Bytes,
    columns: &[Bytes],
) -> Result<Resolved<'a>, Refusal>
    ensures { IsMeant resolved_seen result (meant.resolved (schema_of catalog.now) (syntax.create_index name.now table.now columns.now)) }
{
    new_object(alloc, catalog, name)?;
    let target = known(alloc, catalog, table)?;
    let scope = scope_of_object(alloc, table, target)?;
    let columns = places(alloc, &scope, columns)?;
    Ok(Resolved::Index {
        name,
        target,
        columns,
    })
}

fn update<'a>(
    alloc: Global,
    catalog: &'a Catalog,
    table: &'a Bytes,
    sets: &[Set],
    where_: &Option<Expr>,
) -> Result<Resolved<'a>, Refusal>
    ensures { IsMeant resolved_seen result (meant.resolved (schema_of catalog.now) (syntax.update table.now (map set_tree sets.now) (perhaps_tree where_.now))) }
{
    let target = known(alloc, catalog, table)?;
    let scope = scope_of_object(alloc, table, target)?;
    let sets = assignments(alloc, &scope, sets)?;
    let condition = condition(alloc, &scope, where_)?;
    Ok(Resolved::Update {
        target,
        sets,
        condition,
    })
}

/// A statement with objects and places for names.
///
/// # Errors
///
/// `UnknownName` or `NameTaken` at the first place of the text, and `NoMemory`.
pub fn resolve<'a>(
    alloc: Global,
    catalog: &'a Catalog,
    statement: &'a Statement,
) -> Result<Resolved<'a>, Refusal>
    ensures { IsMeant resolved_seen result (meant.resolved (schema_of catalog.now) (statement_tree statement.now)) }
{
    match statement {
        Statement::CreateTable {
            name,
            columns,
            primary,
        } => create_table(alloc, catalog, name, columns.as_slice(), primary.as_slice()),
        Statement::CreateIndex {
            name,
            table,
            columns,
        } => create_index(alloc, catalog, name, table, columns.as_slice()),
        Statement::CreateView { name, query: made } => {
            new_object(alloc, catalog, name)?;
            let query = query(alloc, true, catalog, made)?;
            Ok(Resolved::View { name, query })
        }
        Statement::Insert {
            table,
            tuples: rows,
        } => {
            let target = known(alloc, catalog, table)?;
            let tuples = tuples(alloc, rows.as_slice())?;
            Ok(Resolved::Insert { target, tuples })
        }
        Statement::Update {
            table,
            sets,
            condition,
        } => update(alloc, catalog, table, sets.as_slice(), condition),
        Statement::Delete {
            table,
            condition: where_,
        } => {
            let target = known(alloc, catalog, table)?;
            let scope = scope_of_object(alloc, table, target)?;
            let condition = condition(alloc, &scope, where_)?;
            Ok(Resolved::Delete { target, condition })
        }
        Statement::Select { query: read, order } => {
            let query = query(alloc, false, catalog, read)?;
            let order = order.as_slice();
            Ok(Resolved::Select { query, order })
        }
        Statement::Begin(_)
        | Statement::Commit
        | Statement::Rollback { .. }
        | Statement::Savepoint { .. } => Ok(Resolved::Control),
    }
}
