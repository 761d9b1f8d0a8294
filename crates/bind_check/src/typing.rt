//! Whether resolved expressions have their types.
ghost use Rattle.std.specs.Prelude.{◌≡◌, ◌&&◌, map, IfOk};
ghost use Rattle.std.specs.List.{list_all};
ghost use Rattle.std.specs.Option.{option_map};
ghost use Rattle.iv_types.specs.Trees.{tree, trees, perhaps_tree};
ghost use Rattle.iv_meaning.specs.Schema.{kind_at};
ghost use Rattle.iv_meaning.specs.Bound.{item_tree, set_tree};
ghost use Rattle.iv_meaning.specs.Types.{family_of_kind, is_of, is_value, alike, typed, family_of_pair, family, condition_typed, item_typed, query_typed, set_typed, tuple_typed};
ghost use Rattle.iv_meaning.specs.Objects.{schema_of};
ghost use Rattle.bind_resolve.specs.Seen.{query_seen};
ghost use Rattle.bind_check.specs.Families.{family_of, is_a, perhaps_family};

use crate::objects::kinds_seen;
use bind_resolve::ResolvedQuery;
use iv_types::{
    BoundItem, BoundSet, Catalog, ColumnAt, Expr, ExprList, Kind, KindList, NoMemory, Op,
};
use object_kinds::kind_at;
use std::alloc::Global;

/// What an expression gives.
#[derive(Clone, Copy, PartialEq)]
pub enum Family {
    Number,
    Text,
    Truth,
}

fn is_a(wanted: Family, family: Option<Family>) -> bool
    ensures { result ≡ is_a wanted (perhaps_family family) }
{
    family == Some(wanted)
}

// Whether it is a number or a text.
fn is_value(family: Option<Family>) -> bool
    ensures { result ≡ is_value (perhaps_family family) }
{
    matches!(family, Some(Family::Number | Family::Text))
}

// Whether it is of the family of a column.
fn is_of(kind: Kind, family: Option<Family>) -> bool
    ensures { result ≡ is_of kind (perhaps_family family) }
{
    match kind {
        Kind::Int | Kind::Huge => is_a(Family::Number, family),
        Kind::Text => is_a(Family::Text, family),
    }
}

// Whether both are numbers or both texts.
fn alike(left: Option<Family>, right: Option<Family>) -> bool
    ensures { result ≡ alike (perhaps_family left) (perhaps_family right) }
{
    is_value(left) & (left == right)
}

// A family, if the operands have their types.
fn typed(holds: bool, family: Family) -> Option<Family>
    ensures { perhaps_family result ≡ typed holds (family_of family) }
{
    if holds { Some(family) } else { None }
}

// A family, if both operands are of it.
fn both(wanted: Family, left: Option<Family>, right: Option<Family>) -> Option<Family>
    ensures { perhaps_family result ≡ typed (is_a wanted (perhaps_family left) && is_a wanted (perhaps_family right)) (family_of wanted) }
{
    typed(is_a(wanted, left) & is_a(wanted, right), wanted)
}

fn family_of_pair(op: Op, left: Option<Family>, right: Option<Family>) -> Option<Family>
    ensures { perhaps_family result ≡ family_of_pair op (perhaps_family left) (perhaps_family right) }
{
    match op {
        Op::Or | Op::And => both(Family::Truth, left, right),
        Op::Add | Op::Subtract | Op::Multiply => both(Family::Number, left, right),
        Op::Equal | Op::NotEqual | Op::Less | Op::AtMost | Op::Greater | Op::AtLeast => {
            typed(alike(left, right), Family::Truth)
        }
    }
}

fn family_of_place(kinds: &[KindList], place: ColumnAt) -> Option<Family>
    ensures { perhaps_family result ≡ option_map family_of_kind (kind_at kinds.now place) }
{
    match kind_at(kinds, place) {
        Some(Kind::Int | Kind::Huge) => Some(Family::Number),
        Some(Kind::Text) => Some(Family::Text),
        None => None,
    }
}

// The family of a bound expression, or none where a type is wrong.
fn family_in(kinds: &[KindList], expression: &Expr) -> Option<Family>
    ensures { perhaps_family result ≡ family kinds.now (tree expression.now) }
{
    match expression {
        Expr::Number(_) => Some(Family::Number),
        Expr::Word(_) => Some(Family::Text),
        Expr::Named(_) => None,
        Expr::At(place) => family_of_place(kinds, *place),
        Expr::Not(operand) => typed(
            is_a(Family::Truth, family_in(kinds, operand)),
            Family::Truth,
        ),
        Expr::Minus(operand) => typed(
            is_a(Family::Number, family_in(kinds, operand)),
            Family::Number,
        ),
        Expr::Pair(op, left, right) => {
            let left = family_in(kinds, left);
            let right = family_in(kinds, right);
            family_of_pair(*op, left, right)
        }
    }
}

/// Whether a condition, if there is one, is a truth.
pub fn condition_typed(kinds: &[KindList], condition: &Option<Expr>) -> bool
    ensures { result ≡ condition_typed kinds.now (perhaps_tree condition.now) }
{
    match condition {
        Some(condition) => is_a(Family::Truth, family_in(kinds, condition)),
        None => true,
    }
}

fn set_typed(kinds: &[KindList], set: &BoundSet) -> bool
    ensures { result ≡ set_typed kinds.now (set_tree set.now) }
{
    let place = ColumnAt {
        source: 0,
        column: set.column,
    };
    match kind_at(kinds, place) {
        Some(kind) => is_of(kind, family_in(kinds, &set.value)),
        None => false,
    }
}

/// Whether assignments have the families of their columns.
pub fn sets_typed(kinds: &[KindList], sets: &[BoundSet]) -> bool
    ensures { result ≡ list_all (set_typed kinds.now) (map set_tree sets.now) }
{
    sets.iter().all(|set| set_typed(kinds, set))
}

fn item_typed(kinds: &[KindList], item: &BoundItem) -> bool
    ensures { result ≡ item_typed kinds.now (item_tree item.now) }
{
    match item {
        BoundItem::Count => true,
        BoundItem::Sum(place) => is_a(Family::Number, family_of_place(kinds, *place)),
        BoundItem::Plain(value) => is_value(family_in(kinds, value)),
    }
}

/// Whether the expressions of a query have their types.
pub fn query_typed(
    alloc: Global,
    catalog: &Catalog,
    query: &ResolvedQuery<'_>,
) -> Result<bool, NoMemory>
    ensures { IfOk result (λ typed. typed ≡ query_typed (schema_of catalog.now) (query_seen query.now)) }
{
    let seen = kinds_seen(alloc, catalog, query)?;
    let kinds = seen.as_slice();
    let mut items = query.items.as_slice().iter();
    let items = items.all(|i| item_typed(kinds, &i.item));
    let mut joins = query.joins.as_slice().iter();
    let joins = joins.all(|j| is_a(Family::Truth, family_in(kinds, &j.on)));
    Ok(items & joins & condition_typed(kinds, &query.condition))
}

// Whether the values of a tuple have the families of the columns.
fn tuple_typed(kinds: &[Kind], tuple: &[Expr]) -> bool
    ensures { result ≡ tuple_typed kinds.now (trees tuple.now) }
{
    for index in 0..tuple.len() {
        let family = family_in(&[], &tuple[index]);
        let typed = match kinds.get(index) {
            Some(kind) => is_of(*kind, family),
            None => is_value(family),
        };
        if !typed {
            return false;
        }
    }
    true
}

/// Whether the values of tuples have the families of the columns, which are of these kinds.
pub fn tuples_typed(kinds: &[Kind], tuples: &[ExprList]) -> bool
    ensures { result ≡ list_all (tuple_typed kinds.now) (map trees tuples.now) }
{
    let mut tuples = tuples.iter();
    tuples.all(|tuple| tuple_typed(kinds, tuple.as_slice()))
}
