//! Rows in the order of an ORDER BY.
ghost use Rattle.std.specs.Prelude.{◌≡◌, slice_get, map, IfOk, if◌then◌else◌};
ghost use Rattle.std.specs.Option.{option_cmp, option_copied};
ghost use Rattle.std.specs.Ordering.{ordering_reverse};
ghost use Rattle.iv_types.specs.Encoding.{value_cmp};
ghost use Rattle.iv_meaning.specs.Query.{order_cmp, ordered};
ghost use Rattle.iv_meaning.specs.Bound.{order_tree};

use iv_types::{BoundOrder, NoMemory, Row, RowList, Value};
use std::cmp::Ordering;

// The order of two values; none comes first.
fn compared(a: Option<&Value>, b: Option<&Value>) -> Ordering
    ensures { result ≡ option_cmp value_cmp (option_copied a.entry) (option_copied b.entry) }
{
    match a {
        None => match b {
            None => Ordering::Equal,
            Some(_) => Ordering::Less,
        },
        Some(a) => match b {
            None => Ordering::Greater,
            Some(b) => a.cmp(b),
        },
    }
}

// The order of two rows by one term.
fn by_term(term: BoundOrder, a: &Row, b: &Row) -> Ordering
    ensures { result ≡ if term.descending then ordering_reverse (option_cmp value_cmp (slice_get a.now term.item) (slice_get b.now term.item)) else option_cmp value_cmp (slice_get a.now term.item) (slice_get b.now term.item) }
{
    let item = term.item;
    let ascending = compared(a.as_slice().get(item), b.as_slice().get(item));
    if term.descending {
        return ascending.reverse();
    }
    ascending
}

// The order of two rows: the first term that tells them apart decides.
fn by_terms(order: &[BoundOrder], a: &Row, b: &Row) -> Ordering
    ensures { result ≡ order_cmp (map order_tree order.now) a.now b.now }
{
    for term in order {
        let first = by_term(*term, a, b);
        if first != Ordering::Equal {
            return first;
        }
    }
    Ordering::Equal
}

/// Rows in the order of an ORDER BY: those that tie stay in the order that they have.
///
/// # Errors
///
/// Where there is no memory to sort them.
pub fn in_order(order: &[BoundOrder], rows: RowList) -> Result<RowList, NoMemory>
    ensures { IfOk result (λ sorted. sorted ≡ ordered (map order_tree order.now) rows) }
{
    let mut rows = rows.into_vec();
    rows.sort_by(|a, b| by_terms(order, a, b))?;
    Ok(RowList::from_vec(rows))
}
