//! Values to be stored in columns, and the rows of an INSERT.
ghost use Rattle.std.specs.Prelude.{◌≡◌, [], map};
ghost use Rattle.iv_types.specs.Trees.{tree, trees};
ghost use Rattle.iv_types.specs.Encoding.{kinds_of};
ghost use Rattle.iv_meaning.specs.Grouping.{all_of};
ghost use Rattle.iv_meaning.specs.Values.{meaning};
ghost use Rattle.iv_meaning.specs.Statement.{stored, tuple_values, tuple_rows};
ghost use Rattle.row_eval.specs.Grouped.{Gives};
ghost use Rattle.row_eval.specs.Seen.{rows_of};

use crate::combination::Combination;
use crate::expression::value_on;
use iv_types::{Expr, ExprList, Kind, Refusal, Row, RowList, TableDef, Value};
use object_kinds::kinds_of;
use row_codec::fits;
use std::alloc::Global;

/// What an expression gives on a combination of rows, to be stored in a column of this kind.
///
/// # Errors
///
/// `NumberRange` where the value leaves the column's type or the HUGE range; `NoMemory`.
pub fn stored(
    alloc: Global,
    kind: Kind,
    expression: &Expr,
    rows: Combination<'_>,
) -> Result<Value, Refusal>
    ensures { Gives (stored kind (meaning (tree expression.now) (rows_of rows.entry))) result }
{
    let value = value_on(alloc, expression, rows)?;
    if !fits(kind, &value) {
        return Err(Refusal::NumberRange);
    }
    Ok(value)
}

// What an expression gives on no rows, to be stored so.
fn stored_alone(alloc: Global, kind: Kind, expression: &Expr) -> Result<Value, Refusal>
    ensures { Gives (stored kind (meaning (tree expression.now) [])) result }
{
    stored(
        alloc,
        kind,
        expression,
        Combination::Listed(&RowList::new(alloc)),
    )
}

// The row of a tuple, for columns of these kinds.
fn tuple_row(alloc: Global, kinds: &[Kind], tuple: &[Expr]) -> Result<Row, Refusal>
    ensures { Gives (all_of (tuple_values kinds.now (trees tuple.now))) result }
{
    let mut row = Row::new(alloc);
    for place in 0..tuple.len() {
        if place >= kinds.len() {
            return Ok(row);
        }
        row.push(stored_alone(alloc, kinds[place], &tuple[place])?)?;
    }
    Ok(row)
}

/// The rows of tuples, for a table.
///
/// # Errors
///
/// `NumberRange` where a value leaves its column's type or the HUGE range; `NoMemory`.
pub fn tuple_rows(alloc: Global, table: &TableDef, tuples: &[ExprList]) -> Result<RowList, Refusal>
    ensures { Gives (tuple_rows table.now (map trees tuples.now)) result }
{
    let kinds = kinds_of(alloc, table)?;
    let mut rows = RowList::new(alloc);
    for index in 0..tuples.len() {
        rows.push(tuple_row(alloc, kinds.as_slice(), tuples[index].as_slice())?)?;
    }
    Ok(rows)
}
