//! The tests of CREATE statements.
#![tactic(auto, using(bind_resolve::proofs::Steps::stops, bind_resolve::proofs::Steps::goes_on))]

ghost use Rattle.iv_types.specs.Printing.{statement_size};
ghost use Rattle.iv_types.specs.Trees.{statement_tree};
ghost use Rattle.iv_meaning.specs.Objects.{object_of, schema_of};
ghost use Rattle.iv_meaning.specs.Tests.{index_test};
ghost use Rattle.iv_meaning.specs.Binding.{passed};
ghost use Rattle.bind_resolve.specs.Meant.{IsMeant};
ghost use Rattle.bind_resolve.specs.Seen.{query_seen};
ghost use Rattle.bind_statements.specs.Checked.{index_tests, table_tests, view_limits};

use crate::checking::{limit, refuse, rule};
use bind_check::{
    ObjectKind, as_table, count_of, group_width, have_many_readers, index_width, is_a, join_index,
    repeats, second_of, sums_in, widths,
};
use bind_resolve::ResolvedQuery;
use iv_types::{Catalog, ColumnDef, Definition, Limit, Refusal, ShapeRule, Statement};
use sql_pieces::statement_bytes;
use std::alloc::Global;

/// Those of a CREATE TABLE of these columns, whose primary key has these places.
pub fn check_table(
    alloc: Global,
    catalog: &Catalog,
    statement: &Statement,
    columns: &[ColumnDef],
    primary: &[usize],
) -> Result<(), Refusal>
    ensures { IsMeant (λ u. u) result (passed (table_tests (schema_of catalog.now) (statement_size (statement_tree statement.now)) columns.now primary.now)) }
{
    let tables = count_of(ObjectKind::Table, catalog) as u128;
    let (key, row) = widths(alloc, columns, primary)?;
    rule(ShapeRule::ColumnTwice, repeats(primary))?;
    limit(Limit::Columns, columns.len() as u128)?;
    limit(Limit::Tables, tables + 1)?;
    limit(Limit::KeyWidth, key)?;
    limit(Limit::RowWidth, row)?;
    let bytes = u128::from(statement_bytes(statement));
    limit(Limit::DefinitionBytes, bytes)
}

/// Those of a CREATE INDEX of columns of these places.
pub fn check_index(
    alloc: Global,
    catalog: &Catalog,
    statement: &Statement,
    target: &Definition,
    columns: &[usize],
) -> Result<(), Refusal>
    ensures { IsMeant (λ u. u) result (passed (index_tests (schema_of catalog.now) (statement_size (statement_tree statement.now)) (object_of target.now) columns.now)) }
{
    let indexes = count_of(ObjectKind::Index, catalog) as u128;
    rule(ShapeRule::ColumnTwice, repeats(columns))?;
    rule(ShapeRule::NoTable, !is_a(ObjectKind::Table, target))?;
    limit(Limit::Columns, columns.len() as u128)?;
    limit(Limit::Indexes, indexes + 1)?;
    let width = index_width(alloc, catalog, target, columns)?;
    limit(Limit::KeyWidth, width)?;
    let bytes = u128::from(statement_bytes(statement));
    limit(Limit::DefinitionBytes, bytes)
}

/// The limits of a CREATE INDEXED VIEW.
pub fn check_view_limits(
    alloc: Global,
    catalog: &Catalog,
    statement: &Statement,
    query: &ResolvedQuery<'_>,
) -> Result<(), Refusal>
    ensures { IsMeant (λ u. u) result (passed (view_limits (schema_of catalog.now) (statement_size (statement_tree statement.now)) (query_seen query.now))) }
{
    let views = count_of(ObjectKind::View, catalog) as u128;
    limit(Limit::Columns, query.group.as_slice().len() as u128)?;
    limit(Limit::Views, views + 1)?;
    let many = have_many_readers(catalog, query);
    refuse(many, Refusal::Limit(Limit::Readers))?;
    limit(Limit::KeyWidth, group_width(alloc, catalog, query)?)?;
    limit(Limit::Sums, sums_in(query) as u128)?;
    let bytes = u128::from(statement_bytes(statement));
    limit(Limit::DefinitionBytes, bytes)
}

/// Whether the first table of a join view has the index that it needs.
pub fn check_join(
    alloc: Global,
    catalog: &Catalog,
    query: &ResolvedQuery<'_>,
) -> Result<(), Refusal>
    ensures { IsMeant (λ u. u) result (passed (index_test (schema_of catalog.now) (query_seen query.now))) }
{
    let Some(first) = as_table(query.first) else {
        return Ok(());
    };
    let Some((_, columns)) = second_of(alloc, query)? else {
        return Ok(());
    };
    if join_index(catalog, first, columns.as_slice()).is_some() {
        return Ok(());
    }
    Err(Refusal::NeedsIndex(first.name.copied(alloc)?))
}
