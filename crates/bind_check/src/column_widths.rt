//! Bytes of keys and rows of columns, and how many sums a query has.
ghost use Rattle.std.specs.Prelude.{◌≡◌, ◌≤◌, ◌++◌, map, Some, IfOk};
ghost use Rattle.std.specs.List.{filter_map};
ghost use Rattle.iv_meaning.specs.Schema.{items_at, kind_at, object_kinds, primary_of};
ghost use Rattle.iv_meaning.specs.Objects.{object_of, schema_of};
ghost use Rattle.iv_meaning.specs.Shape.{key_width, row_width, sums_in, width};
ghost use Rattle.iv_meaning.specs.Types as types;
ghost use Rattle.bind_resolve.specs.Seen.{item_seen, query_seen};
ghost use Rattle.bind_check.specs.Counting.{is_sum, width_of};

use crate::objects::{kinds_seen, primary_of};
use bind_resolve::{NamedItem, ResolvedQuery};
use iv_types::{BoundItem, Catalog, ColumnAt, ColumnDef, Definition, Kind, KindList, NoMemory};
use object_kinds::{kind_at, kinds_at, kinds_of_object};
use std::alloc::Global;

// Which width of a column is meant.
#[derive(Clone, Copy)]
enum Width {
    Key,
    Row,
}

fn width_of(which: Width, kind: Kind) -> u16
    ensures value { result ≡ width_of which kind }
    ensures most { result ≤ 402 }
{
    match (which, kind) {
        (_, Kind::Int) => 8,
        (_, Kind::Huge) => 16,
        (Width::Key, Kind::Text) => 402,
        (Width::Row, Kind::Text) => 202,
    }
}

// Bytes of columns of these kinds.
fn bytes_of(which: Width, kinds: &[Kind]) -> u128
    ensures { result ≡ width (width_of which) kinds.now }
{
    let mut sum = 0;
    for index in 0..kinds.len() {
        sum += u128::from(width_of(which, kinds[index]));
    }
    sum
}

// Bytes of the columns of these places in a key.
fn key_width(alloc: Global, kinds: &[Kind], places: &[usize]) -> Result<u128, NoMemory>
    ensures { IfOk result (λ bytes. bytes ≡ width key_width (items_at kinds.now places.now)) }
{
    let found = kinds_at(alloc, kinds, places)?;
    Ok(bytes_of(Width::Key, found.as_slice()))
}

// The kinds of new columns.
fn kinds_of_columns(alloc: Global, columns: &[ColumnDef]) -> Result<Vec<Kind>, NoMemory>
    ensures { IfOk result (λ kinds. kinds.items ≡ map (λ c. c.kind) columns.now) }
{
    Ok(columns.iter().map(|c| c.kind).collect(alloc)?)
}

/// Bytes of new columns of these places in a key, and of a row of the new columns.
pub fn widths(
    alloc: Global,
    columns: &[ColumnDef],
    primary: &[usize],
) -> Result<(u128, u128), NoMemory>
    ensures key { IfOk result (λ bytes. bytes.0 ≡ width key_width (items_at (map (λ c. c.kind) columns.now) primary.now)) }
    ensures row { IfOk result (λ bytes. bytes.1 ≡ width row_width (map (λ c. c.kind) columns.now)) }
{
    let kinds = kinds_of_columns(alloc, columns)?;
    let key = key_width(alloc, &kinds, primary)?;
    Ok((key, bytes_of(Width::Row, &kinds)))
}

// The kinds of columns of FROM.
fn kinds_in(alloc: Global, kinds: &[KindList], places: &[ColumnAt]) -> Result<Vec<Kind>, NoMemory>
    ensures { IfOk result (λ found. found.items ≡ filter_map (kind_at kinds.now) places.now) }
{
    let found = places.iter().filter_map(|place| kind_at(kinds, *place));
    Ok(found.collect(alloc)?)
}

/// Bytes of the columns of a GROUP BY in a key.
pub fn group_width(
    alloc: Global,
    catalog: &Catalog,
    query: &ResolvedQuery<'_>,
) -> Result<u128, NoMemory>
    ensures { IfOk result (λ bytes. bytes ≡ width key_width (filter_map (kind_at (types.kinds_seen (schema_of catalog.now) (query_seen query.now))) (query_seen query.now).group)) }
{
    let kinds = kinds_seen(alloc, catalog, query)?;
    let found = kinds_in(alloc, kinds.as_slice(), query.group.as_slice())?;
    Ok(bytes_of(Width::Key, &found))
}

/// Bytes of columns of a table in a key of an index, behind which stand those of its primary key.
pub fn index_width(
    alloc: Global,
    catalog: &Catalog,
    target: &Definition,
    columns: &[usize],
) -> Result<u128, NoMemory>
    ensures { IfOk result (λ bytes. bytes ≡ width key_width (items_at (object_kinds (schema_of catalog.now) (object_of target.now)) (columns.now ++ primary_of (Some (object_of target.now))))) }
{
    let kinds = kinds_of_object(alloc, catalog, target)?;
    let mut places = columns.to_vec(alloc)?;
    places.extend_from_slice(primary_of(target))?;
    key_width(alloc, kinds.as_slice(), &places)
}

fn is_sum(item: &NamedItem<'_>) -> bool
    ensures { result ≡ is_sum (item_seen item.now) }
{
    matches!(item.item, BoundItem::Sum(_))
}

/// How many items of a query are sums.
#[tactic(auto, using(bind_resolve::proofs::Steps::count_seen))]
pub fn sums_in(query: &ResolvedQuery<'_>) -> usize
    ensures { result ≡ sums_in (query_seen query.now).items }
{
    query.items.as_slice().iter().filter(|i| is_sum(i)).count()
}
