//! The tests of a resolved statement, of which the first that fails refuses it.
#![tactic(auto, using(bind_resolve::proofs::Steps::stops, bind_resolve::proofs::Steps::goes_on))]

ghost use Rattle.std.specs.Prelude.{◌≡◌, map};
ghost use Rattle.iv_types.specs.Trees.{perhaps_tree, trees, statement_tree};
ghost use Rattle.iv_types.specs.Printing.{statement_size};
ghost use Rattle.iv_types.specs.declared.refusal.Refusal.TheVariants as refusal;
ghost use Rattle.iv_meaning.specs.Tests.{at_most, query_rules, view_rules};
ghost use Rattle.iv_meaning.specs.Binding.{refuse_if, passed};
ghost use Rattle.iv_meaning.specs.Bound.{set_tree};
ghost use Rattle.iv_meaning.specs.Objects.{object_of, schema_of};
ghost use Rattle.iv_meaning.specs.Resolving.{delete, insert, update};
ghost use Rattle.bind_resolve.specs.Meant.{IsMeant};
ghost use Rattle.bind_resolve.specs.Seen.{query_seen, resolved_seen};
ghost use Rattle.bind_statements.specs.Checked.{every_test, select_chain, view_chain};

use crate::creating::{check_index, check_join, check_table, check_view_limits};
use bind_check::{
    ObjectKind, aggregates, are_named, condition_has_arithmetic, condition_typed, groups_joined,
    have_length, is_a, is_grouping, is_view_list, lists_groups, names_a, primary_of, query_typed,
    repeats, sets_key, sets_twice, sets_typed, tuples_typed, width_of,
};
use bind_resolve::{Resolved, ResolvedQuery};
use iv_types::{
    BoundSet, Catalog, Definition, Expr, ExprList, Limit, Order, Refusal, ShapeRule, Statement,
};
use object_kinds::kinds_of_object;
use std::alloc::Global;

/// A refusal where a test fails.
pub fn refuse(fails: bool, refusal: Refusal) -> Result<(), Refusal>
    ensures { IsMeant (λ u. u) result (refuse_if (fails, refusal)) }
{
    if fails { Err(refusal) } else { Ok(()) }
}

/// The refusal of a shape rule that fails.
pub fn rule(broken: ShapeRule, fails: bool) -> Result<(), Refusal>
    ensures { IsMeant (λ u. u) result (refuse_if (fails, refusal.WrongShape broken)) }
{
    refuse(fails, Refusal::WrongShape(broken))
}

/// The refusal of a limit that a count passes.
pub fn limit(limit: Limit, count: u128) -> Result<(), Refusal>
    ensures { IsMeant (λ u. u) result (refuse_if (at_most limit count)) }
{
    refuse(count > limit.most(), Refusal::Limit(limit))
}

/// Those of an INSERT into an object.
pub fn check_insert(
    alloc: Global,
    catalog: &Catalog,
    target: &Definition,
    tuples: &[ExprList],
) -> Result<(), Refusal>
    ensures { IsMeant (λ u. u) result (passed (every_test (schema_of catalog.now) 0 (insert (object_of target.now) (map trees tuples.now)))) }
{
    let kinds = kinds_of_object(alloc, catalog, target)?;
    let is_table = is_a(ObjectKind::Table, target);
    refuse(!tuples_typed(kinds.as_slice(), tuples), Refusal::WrongType)?;
    let long = have_length(width_of(target), tuples);
    rule(ShapeRule::TupleLength, is_table & !long)?;
    rule(ShapeRule::NoTable, !is_table)
}

/// Those of an UPDATE of an object.
pub fn check_update(
    alloc: Global,
    catalog: &Catalog,
    target: &Definition,
    sets: &[BoundSet],
    condition: &Option<Expr>,
) -> Result<(), Refusal>
    ensures { IsMeant (λ u. u) result (passed (every_test (schema_of catalog.now) 0 (update (object_of target.now) (map set_tree sets.now) (perhaps_tree condition.now)))) }
{
    let kinds = [kinds_of_object(alloc, catalog, target)?];
    let typed = sets_typed(&kinds, sets) & condition_typed(&kinds, condition);
    refuse(!typed, Refusal::WrongType)?;
    rule(ShapeRule::KeySet, sets_key(primary_of(target), sets))?;
    rule(ShapeRule::SetTwice, sets_twice(alloc, sets)?)?;
    rule(ShapeRule::NoTable, !is_a(ObjectKind::Table, target))
}

/// Those of a DELETE from an object.
pub fn check_delete(
    alloc: Global,
    catalog: &Catalog,
    target: &Definition,
    condition: &Option<Expr>,
) -> Result<(), Refusal>
    ensures { IsMeant (λ u. u) result (passed (every_test (schema_of catalog.now) 0 (delete (object_of target.now) (perhaps_tree condition.now)))) }
{
    let kinds = [kinds_of_object(alloc, catalog, target)?];
    refuse(!condition_typed(&kinds, condition), Refusal::WrongType)?;
    rule(ShapeRule::NoTable, !is_a(ObjectKind::Table, target))
}

// The shape rules of every query.
fn check_query(alloc: Global, query: &ResolvedQuery<'_>) -> Result<(), Refusal>
    ensures { IsMeant (λ u. u) result (passed (query_rules (query_seen query.now))) }
{
    let grouped = is_grouping(query);
    rule(ShapeRule::ColumnTwice, repeats(query.group.as_slice()))?;
    rule(ShapeRule::NoTable, names_a(ObjectKind::Index, query))?;
    rule(ShapeRule::NoGroup, !grouped & aggregates(query))?;
    rule(ShapeRule::OtherItem, grouped & !lists_groups(query))?;
    let joined = groups_joined(alloc, grouped, query)?;
    rule(ShapeRule::NotManyToOne, joined)
}

// The shape rules of a view besides.
fn check_view_query(query: &ResolvedQuery<'_>) -> Result<(), Refusal>
    ensures { IsMeant (λ u. u) result (passed (view_rules (query_seen query.now))) }
{
    let listed = is_view_list(query.group.as_slice(), query.items.as_slice());
    rule(ShapeRule::NoViewList, !is_grouping(query) | !listed)?;
    let computes = condition_has_arithmetic(&query.condition);
    rule(ShapeRule::Arithmetic, computes)?;
    rule(ShapeRule::ViewOfView, names_a(ObjectKind::View, query))
}

// Those of a CREATE INDEXED VIEW.
fn check_view(
    alloc: Global,
    catalog: &Catalog,
    statement: &Statement,
    query: &ResolvedQuery<'_>,
) -> Result<(), Refusal>
    ensures { IsMeant (λ u. u) result (view_chain (schema_of catalog.now) (statement_size (statement_tree statement.now)) (query_seen query.now)) }
{
    let typed = query_typed(alloc, catalog, query)?;
    refuse(!typed, Refusal::WrongType)?;
    check_query(alloc, query)?;
    check_view_query(query)?;
    check_view_limits(alloc, catalog, statement, query)?;
    check_join(alloc, catalog, query)
}

// Those of a SELECT.
fn check_select(
    alloc: Global,
    catalog: &Catalog,
    query: &ResolvedQuery<'_>,
    order: &[Order],
) -> Result<(), Refusal>
    ensures { IsMeant (λ u. u) result (select_chain (schema_of catalog.now) (query_seen query.now) order.now) }
{
    let typed = query_typed(alloc, catalog, query)?;
    refuse(!typed, Refusal::WrongType)?;
    check_query(alloc, query)?;
    rule(ShapeRule::NoItem, !are_named(query.items.as_slice(), order))?;
    limit(Limit::Columns, query.group.as_slice().len() as u128)
}

/// The tests of a statement as it was resolved, of which the first that fails refuses it.
///
/// # Errors
///
/// `WrongType`; `WrongShape` of the least rule that fails; `Limit` of the least number; `NeedsIndex`; and `NoMemory`.
pub fn check(
    alloc: Global,
    catalog: &Catalog,
    statement: &Statement,
    resolved: &Resolved<'_>,
) -> Result<(), Refusal>
    ensures { IsMeant (λ u. u) result (passed (every_test (schema_of catalog.now) (statement_size (statement_tree statement.now)) (resolved_seen resolved.now))) }
{
    match resolved {
        Resolved::Table {
            columns,
            primary,
            ..
        } => check_table(alloc, catalog, statement, columns, primary.as_slice()),
        Resolved::Index {
            target,
            columns,
            ..
        } => check_index(alloc, catalog, statement, target, columns.as_slice()),
        Resolved::View { query, .. } => check_view(alloc, catalog, statement, query),
        Resolved::Insert { target, tuples } => {
            check_insert(alloc, catalog, target, tuples.as_slice())
        }
        Resolved::Update {
            target,
            sets,
            condition,
        } => check_update(alloc, catalog, target, sets.as_slice(), condition),
        Resolved::Delete { target, condition } => check_delete(alloc, catalog, target, condition),
        Resolved::Select { query, order } => check_select(alloc, catalog, query, order),
        Resolved::Control => Ok(()),
    }
}
