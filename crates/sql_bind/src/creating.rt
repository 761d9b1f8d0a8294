//! What CREATE statements and queries are bound to.
ghost use Rattle.std.specs.Prelude.{◌≡◌, map, IfOk, ◌++◌};
ghost use Rattle.std.specs.List.{filter_map};
ghost use Rattle.std.specs.Option.{option_map, option_to_list};
ghost use Rattle.iv_types.specs.Trees.{perhaps_tree, trees};
ghost use Rattle.iv_meaning.specs.Bound.{bound_tree, item_tree, order_tree};
ghost use Rattle.iv_meaning.specs.Objects.{object_of, schema_of, view_tree};
ghost use Rattle.iv_meaning.specs.Shape.{object_number};
ghost use Rattle.iv_meaning.specs.Types.{sources_of};
ghost use Rattle.iv_meaning.specs.Binding as meant;
ghost use Rattle.iv_meaning.specs.Resolving as resolved;
ghost use Rattle.iv_meaning.specs.Schema as schema;
ghost use Rattle.iv_meaning.specs.Tests as tests;
ghost use Rattle.iv_meaning.specs.Statement as bound;
ghost use Rattle.bind_resolve.specs.Seen.{item_seen, query_seen, joined_seen};

use bind_check::{as_table, item_named, join_index, number_of, second_of};
use bind_resolve::{Joined, NamedItem, ResolvedQuery};
use iv_types::{
    Bound, BoundItem, BoundItemList, BoundOrder, BoundOrderList, BoundSelect, Bytes, Catalog,
    ColumnAtList, ColumnDef, Definition, Expr, ExprList, IndexDef, NameList, NoMemory,
    ObjectNumbers, Order, Places, Second, Sequence, TableDef, ViewDef, copied_columns,
    copied_condition,
};
use std::alloc::Global;

/// What a CREATE TABLE is bound to.
pub fn table(
    alloc: Global,
    catalog: &Catalog,
    name: &Bytes,
    columns: &[ColumnDef],
    primary: Places,
) -> Result<Bound, NoMemory>
    ensures { IfOk result (λ b. bound_tree b ≡ meant.bound_of (schema_of catalog.now) (resolved.table name.now columns.now primary)) }
{
    let number = catalog.next_number();
    let name = name.copied(alloc)?;
    let columns = copied_columns(alloc, columns)?;
    Ok(Bound::Table(TableDef {
        number,
        name,
        columns,
        primary,
    }))
}

/// What a CREATE INDEX is bound to.
pub fn index(
    alloc: Global,
    catalog: &Catalog,
    name: &Bytes,
    target: &Definition,
    columns: Places,
) -> Result<Bound, NoMemory>
    ensures { IfOk result (λ b. bound_tree b ≡ meant.bound_of (schema_of catalog.now) (resolved.index name.now (object_of target.now) columns)) }
{
    let number = catalog.next_number();
    let name = name.copied(alloc)?;
    Ok(Bound::Index(IndexDef {
        number,
        name,
        table: number_of(target),
        columns,
    }))
}

// The names of items.
fn names_of(alloc: Global, items: &[NamedItem<'_>]) -> Result<NameList, NoMemory>
    ensures { IfOk result (λ names. names ≡ resolved.names_in (map item_seen items.now)) }
{
    let mut names = NameList::new(alloc);
    for item in items {
        if let Some(name) = item.name {
            names.push(name.copied(alloc)?)?;
        }
    }
    Ok(names)
}

// The columns that items sum.
fn sums_of(alloc: Global, items: &[NamedItem<'_>]) -> Result<ColumnAtList, NoMemory>
    ensures { IfOk result (λ sums. sums ≡ filter_map (λ i. meant.summed i.item) (map item_seen items.now)) }
{
    let mut sums = ColumnAtList::new(alloc);
    for item in items {
        if let BoundItem::Sum(place) = &item.item {
            sums.push(*place)?;
        }
    }
    Ok(sums)
}

// The second table of a view of this first one as it is kept, if it has one.
fn kept_second(
    alloc: Global,
    catalog: &Catalog,
    first: &TableDef,
    query: &ResolvedQuery<'_>,
) -> Result<Option<Second>, NoMemory>
    ensures { IfOk result (λ second. second ≡ option_map (meant.second_kept (schema_of catalog.now) first.now) (tests.second_of (query_seen query.now))) }
{
    let Some((second, joined)) = second_of(alloc, query)? else {
        return Ok(None);
    };
    let index = join_index(catalog, first, joined.as_slice()).unwrap_or(0);
    Ok(Some(Second {
        table: second.number,
        joined,
        index,
    }))
}

// The view that a query of this first table makes.
fn made_view(
    alloc: Global,
    catalog: &Catalog,
    name: &Bytes,
    first: &TableDef,
    query: &ResolvedQuery<'_>,
) -> Result<ViewDef, NoMemory>
    ensures { IfOk result (λ made. schema.view (view_tree made) ≡ meant.made_view (schema_of catalog.now) name.now (query_seen query.now) first.now) }
{
    let items = query.items.as_slice();
    Ok(ViewDef {
        number: catalog.next_number(),
        name: name.copied(alloc)?,
        names: names_of(alloc, items)?,
        first: first.number,
        second: kept_second(alloc, catalog, first, query)?,
        group: query.group.copied(alloc)?,
        sums: sums_of(alloc, items)?,
        condition: copied_condition(alloc, &query.condition)?,
    })
}

/// What a CREATE INDEXED VIEW is bound to.
pub fn view(
    alloc: Global,
    catalog: &Catalog,
    name: &Bytes,
    query: &ResolvedQuery<'_>,
) -> Result<Bound, NoMemory>
    ensures { IfOk result (λ b. bound_tree b ≡ meant.bound_of (schema_of catalog.now) (resolved.view name.now (query_seen query.now))) }
{
    match as_table(query.first) {
        Some(first) => Ok(Bound::View(made_view(alloc, catalog, name, first, query)?)),
        None => Ok(Bound::Control),
    }
}

// The numbers of the objects of FROM.
fn relations_of(alloc: Global, query: &ResolvedQuery<'_>) -> Result<ObjectNumbers, NoMemory>
    ensures { IfOk result (λ numbers. numbers ≡ map object_number (sources_of (query_seen query.now))) }
{
    let mut numbers = ObjectNumbers::new(alloc);
    numbers.push(number_of(query.first))?;
    for join in query.joins.as_slice() {
        numbers.push(number_of(join.object))?;
    }
    Ok(numbers)
}

// The item by which a term of an ORDER BY sorts, and its direction.
fn ordered(items: &[NamedItem<'_>], order: &Order) -> Option<BoundOrder>
    ensures { option_map order_tree result ≡ tests.ordered (map item_seen items.now) order.now }
{
    Some(BoundOrder {
        item: item_named(items, &order.by)?,
        descending: order.descending,
    })
}

// Those of an ORDER BY.
fn order_of(
    alloc: Global,
    items: &[NamedItem<'_>],
    order: &[Order],
) -> Result<BoundOrderList, NoMemory>
    ensures { IfOk result (λ found. map order_tree found ≡ filter_map (tests.ordered (map item_seen items.now)) order.now) }
{
    let mut found = BoundOrderList::new(alloc);
    for term in order {
        if let Some(by) = ordered(items, term) {
            found.push(by)?;
        }
    }
    Ok(found)
}

fn on_of(join: Joined<'_>) -> Expr
    ensures { result ≡ join.entry.on }
{
    join.on
}

// The conditions of ON, and then that of WHERE.
#[tactic(auto, using(crate::proofs::Parts::ons_alone, crate::proofs::Parts::ons_and))]
fn conditions(
    alloc: Global,
    joins: Sequence<Joined<'_>>,
    condition: Option<Expr>,
) -> Result<ExprList, NoMemory>
    ensures { IfOk result (λ found. trees found ≡ map (λ j. j.on) (map joined_seen joins.entry) ++ option_to_list (perhaps_tree condition)) }
{
    let joins = joins.into_vec().into_iter();
    let mut found = ExprList::from_vec(joins.map(on_of).collect(alloc)?);
    if let Some(condition) = condition {
        found.push(condition)?;
    }
    Ok(found)
}

fn item_of(item: NamedItem<'_>) -> BoundItem
    ensures { result ≡ item.entry.item }
{
    item.item
}

// The items without their names.
#[tactic(auto, using(crate::proofs::Parts::items_are))]
fn items_of(alloc: Global, items: Sequence<NamedItem<'_>>) -> Result<BoundItemList, NoMemory>
    ensures { IfOk result (λ found. map item_tree found ≡ map (λ i. i.item) (map item_seen items.entry)) }
{
    let items = items.into_vec().into_iter();
    Ok(BoundItemList::from_vec(items.map(item_of).collect(alloc)?))
}

/// What a SELECT is bound to.
pub fn selection(
    alloc: Global,
    query: ResolvedQuery<'_>,
    order: &[Order],
) -> Result<Bound, NoMemory>
    ensures { IfOk result (λ b. bound_tree b ≡ bound.select (meant.bound_query (query_seen query.entry) order.now)) }
{
    let relations = relations_of(alloc, &query)?;
    let order = order_of(alloc, query.items.as_slice(), order)?;
    let ResolvedQuery {
        items,
        first: _,
        joins,
        condition,
        group,
    } = query;
    let conditions = conditions(alloc, joins, condition)?;
    let items = items_of(alloc, items)?;
    Ok(Bound::Select(BoundSelect {
        relations,
        conditions,
        items,
        group,
        order,
    }))
}
