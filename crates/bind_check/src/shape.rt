//! The shape of queries and of changes, and the items by which an ORDER BY sorts.
ghost use Rattle.std.specs.Prelude.{◌≡◌, ◌==◌, ◌&&◌, ◌||◌, length, map, not, false, IfOk, is_some};
ghost use Rattle.std.specs.List.{list_any, list_all};
ghost use Rattle.std.specs.Option.{option_map_or};
ghost use Rattle.iv_types.specs.Trees.{tree, trees, perhaps_tree};
ghost use Rattle.iv_meaning.specs.Bound.{item_tree, set_tree};
ghost use Rattle.iv_meaning.specs.Shape.{are_sums, has_arithmetic, is_aggregate, is_count_and_sums, is_empty, is_grouped, is_view_list, repeats, is_named};
ghost use Rattle.iv_meaning.specs.Tests.{is_many_to_one, item_place, item_named};
ghost use Rattle.bind_resolve.specs.Seen.{item_seen, query_seen};
ghost use Rattle.bind_check.specs.Shapes.{is_arithmetic, is_named_count, is_named_sum};

use crate::joining::joins_tables;
use crate::objects::as_table;
use bind_resolve::{NamedItem, ResolvedQuery};
use iv_types::{
    BoundItem, BoundSet, Bytes, ColumnAt, Expr, ExprList, NoMemory, Op, Order, OrderKey,
};
use std::alloc::Global;

// Whether something is one of some things.
fn is_among<T: PartialEq>(item: &T, items: &[T]) -> bool
    ensures { result ≡ list_any (T.eq item.now) items.now }
{
    items.iter().any(|other| item == other)
}

/// Whether something stands twice.
pub fn repeats<T: PartialEq>(items: &[T]) -> bool
    ensures { result ≡ repeats T.eq items.now }
{
    match items.split_first() {
        Some((first, rest)) => is_among(first, rest) || repeats(rest),
        None => false,
    }
}

// Whether an item is COUNT(*) or SUM.
fn is_aggregate(item: &BoundItem) -> bool
    ensures { result ≡ is_aggregate (item_tree item.now) }
{
    matches!(item, BoundItem::Count | BoundItem::Sum(_))
}

// Whether an item is a column by which the query groups.
fn is_grouped(group: &[ColumnAt], item: &BoundItem) -> bool
    ensures { result ≡ is_grouped group.now (item_tree item.now) }
{
    match item {
        BoundItem::Plain(Expr::At(place)) => is_among(place, group),
        _ => false,
    }
}

/// Whether a query has a GROUP BY.
pub fn is_grouping(query: &ResolvedQuery<'_>) -> bool
    ensures { result ≡ not (is_empty (query_seen query.now).group) }
{
    !query.group.as_slice().is_empty()
}

/// Whether a query counts or sums.
pub fn aggregates(query: &ResolvedQuery<'_>) -> bool
    ensures { result ≡ list_any (λ i. is_aggregate i.item) (query_seen query.now).items }
{
    query.items.as_slice().iter().any(|i| is_aggregate(&i.item))
}

/// Whether each item of a query may stand beside its GROUP BY.
pub fn lists_groups(query: &ResolvedQuery<'_>) -> bool
    ensures { result ≡ list_all (λ i. is_aggregate i.item || is_grouped (query_seen query.now).group i.item) (query_seen query.now).items }
{
    let group = query.group.as_slice();
    let mut items = query.items.as_slice().iter();
    items.all(|i| is_aggregate(&i.item) | is_grouped(group, &i.item))
}

/// Whether a GROUP BY, if there is one, stands behind a FROM that is neither one relation nor two tables of which the second
/// is joined by its whole primary key.
pub fn groups_joined(
    alloc: Global,
    grouped: bool,
    query: &ResolvedQuery<'_>,
) -> Result<bool, NoMemory>
    ensures { IfOk result (λ joined. joined ≡ (grouped && not (is_many_to_one (query_seen query.now).first (query_seen query.now).joins))) }
{
    if !grouped {
        return Ok(false);
    }
    match query.joins.as_slice() {
        [] => Ok(false),
        [join] => {
            let (first, second) = (as_table(query.first), as_table(join.object));
            Ok(!joins_tables(alloc, first, second, &join.on)?)
        }
        _ => Ok(true),
    }
}

// Whether an operator is arithmetic.
fn is_arithmetic(op: Op) -> bool
    ensures { result ≡ is_arithmetic op }
{
    matches!(op, Op::Add | Op::Subtract | Op::Multiply)
}

#[tactic(auto, using(crate::proofs::ShapeLemmas::pair_arithmetic))]
fn has_arithmetic(expression: &Expr) -> bool
    ensures { result ≡ has_arithmetic (tree expression.now) }
{
    match expression {
        Expr::Number(_) | Expr::Word(_) | Expr::Named(_) | Expr::At(_) => false,
        Expr::Not(operand) => has_arithmetic(operand),
        Expr::Minus(_) => true,
        Expr::Pair(op, left, right) => {
            is_arithmetic(*op) || has_arithmetic(left) || has_arithmetic(right)
        }
    }
}

/// Whether a condition, if there is one, has arithmetic.
pub fn condition_has_arithmetic(condition: &Option<Expr>) -> bool
    ensures { result ≡ option_map_or has_arithmetic (perhaps_tree condition.now) false }
{
    match condition {
        Some(condition) => has_arithmetic(condition),
        None => false,
    }
}

fn is_named_sum(item: &NamedItem<'_>) -> bool
    ensures { result ≡ is_named_sum (item_seen item.now) }
{
    matches!(item.item, BoundItem::Sum(_)) && item.name.is_some()
}

fn is_named_count(item: &NamedItem<'_>) -> bool
    ensures { result ≡ is_named_count (item_seen item.now) }
{
    matches!(item.item, BoundItem::Count) && item.name.is_some()
}

// Whether all items are sums with names.
fn are_sums(items: &[NamedItem<'_>]) -> bool
    ensures { result ≡ are_sums (map item_seen items.now) }
{
    items.iter().all(|i| is_named_sum(i))
}

// Whether items are a count and sums with names.
#[tactic(auto, using(crate::proofs::ShapeLemmas::one_count))]
fn is_count_and_sums(items: &[NamedItem<'_>]) -> bool
    ensures { result ≡ is_count_and_sums (map item_seen items.now) }
{
    match items.split_first() {
        Some((count, sums)) => is_named_count(count) && are_sums(sums),
        None => false,
    }
}

/// Whether the items are the group columns in their order, one count with a name, and sums with names.
pub fn is_view_list(group: &[ColumnAt], items: &[NamedItem<'_>]) -> bool
    ensures { result ≡ is_view_list group.now (map item_seen items.now) }
{
    let Some((place, group)) = group.split_first() else {
        return is_count_and_sums(items);
    };
    match items.split_first() {
        Some((item, items)) => is_grouped(&[*place], &item.item) && is_view_list(group, items),
        None => false,
    }
}

// Whether an item has this name.
fn is_named(name: &Bytes, item: &NamedItem<'_>) -> bool
    ensures { result ≡ is_named name.now (item_seen item.now) }
{
    matches!(item.name, Some(other) if name.as_slice() == other.as_slice())
}

// The place of the first item of this name.
fn item_place(name: &Bytes, items: &[NamedItem<'_>]) -> usize
    ensures { result ≡ item_place name.now 0 (map item_seen items.now) }
{
    for index in 0..items.len() {
        if is_named(name, &items[index]) {
            return index;
        }
    }
    items.len()
}

/// The place of the item that a term of an ORDER BY names: by its number from 1, or by a name that it alone has.
#[tactic(auto, using(bind_resolve::proofs::Steps::count_seen))]
pub fn item_named(items: &[NamedItem<'_>], key: &OrderKey) -> Option<usize>
    ensures { result ≡ item_named (map item_seen items.now) key.now }
{
    match key {
        OrderKey::Place(number) => {
            if 1 <= *number && *number <= items.len() as i128 {
                Some((*number - 1) as usize)
            } else {
                None
            }
        }
        OrderKey::Name(name) => {
            let named = items.iter().filter(|i| is_named(name, i)).count();
            if named == 1 {
                Some(item_place(name, items))
            } else {
                None
            }
        }
    }
}

/// Whether each term of an ORDER BY names an item.
pub fn are_named(items: &[NamedItem<'_>], order: &[Order]) -> bool
    ensures { result ≡ list_all (λ o. is_some (item_named (map item_seen items.now) o.by)) order.now }
{
    order.iter().all(|o| item_named(items, &o.by).is_some())
}

/// Whether each tuple has so many values.
pub fn have_length(count: usize, tuples: &[ExprList]) -> bool
    ensures { result ≡ list_all (λ tuple. length tuple == count) (map trees tuples.now) }
{
    tuples.iter().all(|tuple| tuple.as_slice().len() == count)
}

/// Whether a column of the key is set.
pub fn sets_key(keys: &[usize], sets: &[BoundSet]) -> bool
    ensures { result ≡ list_any (λ a. list_any (λ key. key == a.column) keys.now) (map set_tree sets.now) }
{
    sets.iter().any(|set| keys.contains(&set.column))
}

/// Whether a column is set twice.
pub fn sets_twice(alloc: Global, sets: &[BoundSet]) -> Result<bool, NoMemory>
    ensures { IfOk result (λ twice. twice ≡ repeats (λ a b. a.column == b.column) (map set_tree sets.now)) }
{
    let columns: Vec<usize> = sets.iter().map(|set| set.column).collect(alloc)?;
    Ok(repeats(columns.as_slice()))
}
