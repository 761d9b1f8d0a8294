//! Expressions with places for names.
#![tactic(auto, using(crate::proofs::Steps::stops, crate::proofs::Steps::goes_on))]

ghost use Rattle.std.specs.Fn.{FnReturnsAt};
ghost use Rattle.std.specs.Prelude.{◌≡◌, [], map};
ghost use Rattle.iv_types.specs.Trees.{tree, trees, perhaps_tree, set_tree as written};
ghost use Rattle.iv_meaning.specs.Bound.{set_tree};
ghost use Rattle.iv_meaning.specs.Resolving as meant;
ghost use Rattle.bind_resolve.specs.Each.{EachBy};
ghost use Rattle.bind_resolve.specs.Meant.{IsMeant};
ghost use Rattle.bind_resolve.specs.Seen.{scope_seen};

use crate::Scope;
use crate::scope::{column_of, empty_scope, place_of};
use iv_types::{
    BoundSet, BoundSetList, Bytes, ColumnAtList, Expr, ExprList, Places, Ref, Refusal, Sequence,
    Set, TupleList,
};
use std::alloc::Global;

/// What a step gives at each of some things, up to the first refusal.
///
/// # Errors
///
/// The first refusal, and `NoMemory`.
pub fn each<T, U: Drop, F: Fn(&T) -> Result<U, Refusal>>(
    alloc: Global,
    items: &[T],
    step: F,
) -> Result<Sequence<U>, Refusal>
    requires { F.IsAlwaysCallable step }
    ensures { EachBy (λ x r. FnReturnsAt F.Fn step x r) items.now result }
{
    let mut found = Sequence::new(alloc);
    for item in items {
        found.push(step(item)?)?;
    }
    Ok(found)
}

/// An expression with places for names.
pub fn expression(alloc: Global, scope: &Scope<'_>, e: &Expr) -> Result<Expr, Refusal>
    ensures { IsMeant tree result (meant.expression (scope_seen scope.now) (tree e.now)) }
{
    match e {
        Expr::Number(number) => Ok(Expr::Number(*number)),
        Expr::Word(word) => Ok(Expr::Word(word.copied(alloc)?)),
        Expr::Named(column) => Ok(Expr::At(column_of(alloc, scope, column)?)),
        Expr::At(place) => Ok(Expr::At(*place)),
        Expr::Not(operand) => {
            let operand = expression(alloc, scope, operand)?;
            Ok(Expr::Not(Box::new(alloc, operand)?))
        }
        Expr::Minus(operand) => {
            let operand = expression(alloc, scope, operand)?;
            Ok(Expr::Minus(Box::new(alloc, operand)?))
        }
        Expr::Pair(op, left, right) => {
            let left = expression(alloc, scope, left)?;
            let right = expression(alloc, scope, right)?;
            Ok(Expr::Pair(*op, Box::new(alloc, left)?, Box::new(alloc, right)?))
        }
    }
}

/// A condition that may be left out.
pub fn condition(
    alloc: Global,
    scope: &Scope<'_>,
    condition: &Option<Expr>,
) -> Result<Option<Expr>, Refusal>
    ensures { IsMeant perhaps_tree result (meant.perhaps (meant.expression (scope_seen scope.now)) (perhaps_tree condition.now)) }
{
    match condition {
        Some(condition) => Ok(Some(expression(alloc, scope, condition)?)),
        None => Ok(None),
    }
}

fn assignment(alloc: Global, scope: &Scope<'_>, set: &Set) -> Result<BoundSet, Refusal>
    ensures { IsMeant set_tree result (meant.assignment (scope_seen scope.now) (written set.now)) }
{
    let column = place_of(alloc, scope, &set.name)?;
    let value = expression(alloc, scope, &set.value)?;
    Ok(BoundSet { column, value })
}

/// The assignments of an UPDATE.
pub fn assignments(alloc: Global, scope: &Scope<'_>, sets: &[Set]) -> Result<BoundSetList, Refusal>
    ensures { IsMeant (map set_tree) result (meant.each (meant.assignment (scope_seen scope.now)) (map written sets.now)) }
{
    each(alloc, sets, |set| assignment(alloc, scope, set))
}

fn tuple(alloc: Global, scope: &Scope<'_>, values: &[Expr]) -> Result<ExprList, Refusal>
    ensures { IsMeant trees result (meant.each (meant.expression (scope_seen scope.now)) (trees values.now)) }
{
    each(alloc, values, |e| expression(alloc, scope, e))
}

/// The tuples of an INSERT, whose values name no columns.
pub fn tuples(alloc: Global, tuples: &[ExprList]) -> Result<TupleList, Refusal>
    ensures { IsMeant (map trees) result (meant.each (meant.each (meant.expression (record { relations = []; columns = [] }))) (map trees tuples.now)) }
{
    let scope = empty_scope(alloc);
    each(alloc, tuples, |row| tuple(alloc, &scope, row.as_slice()))
}

/// The places of some columns in their relation.
pub fn places(alloc: Global, scope: &Scope<'_>, names: &[Bytes]) -> Result<Places, Refusal>
    ensures { IsMeant (λ places. places) result (meant.each (meant.place_of (scope_seen scope.now)) names.now) }
{
    each(alloc, names, |name| place_of(alloc, scope, name))
}

/// The columns of a GROUP BY.
pub fn group(alloc: Global, scope: &Scope<'_>, columns: &[Ref]) -> Result<ColumnAtList, Refusal>
    ensures { IsMeant (λ group. group) result (meant.each (meant.column_of (scope_seen scope.now)) columns.now) }
{
    each(alloc, columns, |column| column_of(alloc, scope, column))
}
