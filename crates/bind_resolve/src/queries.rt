//! Queries with objects and places for names.
#![tactic(auto, using(crate::proofs::Steps::stops, crate::proofs::Steps::goes_on))]

ghost use Rattle.std.specs.Prelude.{◌≡◌, ◌∷◌, [], map, IfOk, OnOk};
ghost use Rattle.std.specs.Option.{option_copied};
ghost use Rattle.iv_types.specs.Trees.{tree, item_tree, join_tree, perhaps_tree, query_tree};
ghost use Rattle.iv_meaning.specs.Objects.{schema_of};
ghost use Rattle.iv_meaning.specs.Bound.{item_tree as bound_item};
ghost use Rattle.iv_meaning.specs.Resolving as meant;
ghost use Rattle.bind_resolve.specs.Meant.{IsMeant};
ghost use Rattle.bind_resolve.specs.Seen.{Alike, names_in, item_seen, joined_seen, query_seen, scope_seen};
ghost use Rattle.bind_resolve.specs.Walking.{choice, next_items, next_join, query_by, Joins};

use crate::expressions::{condition, expression, group};
use crate::names::{Names, fresh, known, new_name};
use crate::scope::{called, column_of, scope_from};
use crate::{Joined, NamedItem, ResolvedQuery, Scope};
use iv_types::{
    BoundItem, Bytes, Catalog, ColumnAtList, Expr, Item, Join, NoMemory, Query, Refusal, Relation,
    Sequence,
};
use std::alloc::Global;

// All columns of FROM.
fn all_columns<'a>(alloc: Global, scope: &Scope<'a>) -> Result<Sequence<NamedItem<'a>>, Refusal>
    ensures { IsMeant (map item_seen) result (Ok (map meant.item_at (scope_seen scope.now).columns)) }
{
    let mut items = Sequence::new(alloc);
    for column in scope.columns.as_slice() {
        items.push(NamedItem {
            item: BoundItem::Plain(Expr::At(column.place)),
            name: Some(column.name),
        })?;
    }
    Ok(items)
}

// The name of an item that is an expression: that of AS, or else that of its column.
fn item_name<'a>(expression: &'a Expr, name: &'a Option<Bytes>) -> Option<&'a Bytes>
    ensures { option_copied result ≡ meant.item_name (tree expression.now) name.now }
{
    match (name, expression) {
        (Some(name), _) => Some(name),
        (None, Expr::Named(column)) => Some(&column.name),
        _ => None,
    }
}

fn one<'a>(
    alloc: Global,
    item: BoundItem,
    name: Option<&'a Bytes>,
) -> Result<Sequence<NamedItem<'a>>, Refusal>
    ensures { IsMeant (map item_seen) result (Ok ((record { item = bound_item item; name = option_copied name.entry }) ∷ [])) }
{
    let mut items = Sequence::new(alloc);
    items.push(NamedItem { item, name })?;
    Ok(items)
}

// What an item stands for.
fn items_for<'a>(
    alloc: Global,
    scope: &Scope<'a>,
    item: &'a Item,
) -> Result<Sequence<NamedItem<'a>>, Refusal>
    ensures { IsMeant (map item_seen) result (meant.items_for (scope_seen scope.now) (item_tree item.now)) }
{
    match item {
        Item::All => all_columns(alloc, scope),
        Item::Count(name) => one(alloc, BoundItem::Count, name.as_ref()),
        Item::Sum(column, name) => {
            let place = column_of(alloc, scope, column)?;
            one(alloc, BoundItem::Sum(place), name.as_ref())
        }
        Item::Plain(e, name) => {
            let value = expression(alloc, scope, e)?;
            one(alloc, BoundItem::Plain(value), item_name(e, name))
        }
    }
}

// The names of some items.
fn names_of<'a>(alloc: Global, items: &[NamedItem<'a>]) -> Result<Sequence<&'a Bytes>, NoMemory>
    ensures { IfOk result (λ names. names_in names ≡ meant.names_in (map item_seen items.now)) }
{
    let mut names = Sequence::new(alloc);
    for item in items {
        if let Some(name) = item.name {
            names.push(name)?;
        }
    }
    Ok(names)
}

// What an item stands for; its names join those of the items before it, which are others in a view.
fn next_items<'a>(
    alloc: Global,
    view: bool,
    scope: &Scope<'a>,
    others: &mut Names<'a>,
    item: &'a Item,
) -> Result<Sequence<NamedItem<'a>>, Refusal>
    ensures items { IsMeant (map item_seen) result (next_items view (scope_seen scope.now) (names_in others.old.keys) (item_tree item.now)) }
    ensures joined { IfOk result (λ some. Joins view (meant.names_in (map item_seen some)) (names_in others.old.keys) (names_in others.new.keys)) }
{
    let some = items_for(alloc, scope, item)?;
    if view {
        let names = names_of(alloc, some.as_slice())?;
        fresh(alloc, others, names.as_slice())?;
    }
    Ok(some)
}

// The items of a SELECT or of a view.
fn items<'a>(
    alloc: Global,
    view: bool,
    scope: &Scope<'a>,
    items: &'a [Item],
) -> Result<Sequence<NamedItem<'a>>, Refusal>
    ensures { IsMeant (map item_seen) result (meant.items_resolved view (scope_seen scope.now) [] (map item_tree items.now)) }
{
    let mut found = Vec::new(alloc);
    let mut others = Names::new(alloc);
    for item in items {
        let some = next_items(alloc, view, scope, &mut others, item)?;
        found.append(&mut some.into_vec())?;
    }
    Ok(Sequence::from_vec(found))
}

// A further relation, whose name joins those before it.
fn joined<'a>(
    alloc: Global,
    catalog: &'a Catalog,
    scope: &Scope<'a>,
    others: &mut Names<'a>,
    join: &'a Join,
) -> Result<Joined<'a>, Refusal>
    ensures join { IsMeant joined_seen result (next_join (schema_of catalog.now) (scope_seen scope.now) (names_in others.old.keys) (join_tree join.now)) }
    ensures joined { OnOk result (Alike (names_in others.new.keys) (meant.called join.now.relation ∷ names_in others.old.keys)) }
{
    let object = known(alloc, catalog, &join.relation.name)?;
    new_name(alloc, others, called(&join.relation))?;
    let on = expression(alloc, scope, &join.on)?;
    Ok(Joined { object, on })
}

// The relations behind the first.
fn joins<'a>(
    alloc: Global,
    catalog: &'a Catalog,
    scope: &Scope<'a>,
    first: &'a Relation,
    joins: &'a [Join],
) -> Result<Sequence<Joined<'a>>, Refusal>
    ensures { IsMeant (map joined_seen) result (meant.joins_resolved (schema_of catalog.now) (scope_seen scope.now) (meant.called first.now ∷ []) (map join_tree joins.now)) }
{
    let mut found = Sequence::new(alloc);
    let mut others = Names::new(alloc);
    others.insert(called(first).as_slice())?;
    for join in joins {
        found.push(joined(alloc, catalog, scope, &mut others, join)?)?;
    }
    Ok(found)
}

// The condition of a query and the columns of its GROUP BY.
fn choice(
    alloc: Global,
    scope: &Scope<'_>,
    query: &Query,
) -> Result<(Option<Expr>, ColumnAtList), Refusal>
    ensures { IsMeant (λ c. (perhaps_tree c.0, c.1)) result (choice (scope_seen scope.now) (query_tree query.now)) }
{
    let condition = condition(alloc, scope, &query.condition)?;
    let group = group(alloc, scope, query.group.as_slice())?;
    Ok((condition, group))
}

// A query that sees these relations.
fn query_in<'a>(
    alloc: Global,
    view: bool,
    catalog: &'a Catalog,
    scope: &Scope<'a>,
    query: &'a Query,
) -> Result<ResolvedQuery<'a>, Refusal>
    ensures { IsMeant query_seen result (query_by view (schema_of catalog.now) (scope_seen scope.now) (query_tree query.now)) }
{
    let items = items(alloc, view, scope, query.items.as_slice())?;
    let first = known(alloc, catalog, &query.first.name)?;
    let joins = joins(alloc, catalog, scope, &query.first, query.joins.as_slice())?;
    let (condition, group) = choice(alloc, scope, query)?;
    Ok(ResolvedQuery {
        items,
        first,
        joins,
        condition,
        group,
    })
}

/// A query, or that of a view, whose items have names of their own.
pub fn query<'a>(
    alloc: Global,
    view: bool,
    catalog: &'a Catalog,
    query: &'a Query,
) -> Result<ResolvedQuery<'a>, Refusal>
    ensures { IsMeant query_seen result (meant.query_resolved view (schema_of catalog.now) (query_tree query.now)) }
{
    let scope = scope_from(alloc, catalog, query)?;
    query_in(alloc, view, catalog, &scope, query)
}
