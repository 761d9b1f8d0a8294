//! Rows after the assignments of an UPDATE.
ghost use Rattle.std.specs.Prelude.{◌≡◌, map};
ghost use Rattle.iv_types.specs.Encoding.{kinds_of};
ghost use Rattle.iv_meaning.specs.Grouping.{all_of};
ghost use Rattle.iv_meaning.specs.Bound.{set_tree};
ghost use Rattle.iv_meaning.specs.Statement.{column_after, columns_after, row_after};
ghost use Rattle.row_eval.specs.Grouped.{Gives};

use iv_types::{BoundSet, Kind, Refusal, Row, RowList, TableDef, Value};
use object_kinds::kinds_of;
use row_eval::{Combination, stored};
use std::alloc::Global;

// The value of a column after the assignments.
fn value_after(
    alloc: Global,
    sets: &[BoundSet],
    row: &Row,
    kind: Kind,
    column: usize,
    old: &Value,
) -> Result<Value, Refusal>
    ensures { Gives (column_after (map set_tree sets.now) row.now kind column old.now) result }
{
    for set in sets {
        if set.column == column {
            return stored(alloc, kind, &set.value, Combination::One(row));
        }
    }
    Ok(old.copied(alloc)?)
}

// A row after the assignments, for columns of these kinds.
fn values_after(alloc: Global, kinds: &[Kind], sets: &[BoundSet], row: &Row) -> Result<Row, Refusal>
    ensures { Gives (all_of (columns_after (map set_tree sets.now) row.now kinds.now 0 row.now)) result }
{
    let values = row.as_slice();
    let mut after = Row::new(alloc);
    for place in 0..values.len() {
        if place >= kinds.len() {
            return Ok(after);
        }
        after.push(value_after(alloc, sets, row, kinds[place], place, &values[place])?)?;
    }
    Ok(after)
}

/// Rows of a table after the assignments.
///
/// # Errors
///
/// `NumberRange` where a value leaves its column's type or the HUGE range; `NoMemory`.
pub fn rows_after(
    alloc: Global,
    table: &TableDef,
    sets: &[BoundSet],
    rows: &[Row],
) -> Result<RowList, Refusal>
    ensures { Gives (all_of (map (row_after table.now (map set_tree sets.now)) rows.now)) result }
{
    let kinds = kinds_of(alloc, table)?;
    let mut after = RowList::new(alloc);
    for index in 0..rows.len() {
        after.push(values_after(alloc, kinds.as_slice(), sets, &rows[index])?)?;
    }
    Ok(after)
}
