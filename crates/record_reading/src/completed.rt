//! Rows that have these values in the columns of their key.
ghost use Rattle.std.specs.Prelude.{◌≡◌, IfOk};
ghost use Rattle.std.specs.Option.{option_copied, unwrap_or};
ghost use Rattle.record_reading.specs.Completed.{blank, value_among, completed};

use iv_types::{Bytes, Kind, NoMemory, Row, Value};
use std::alloc::Global;

/// The first value that a column has among those of some places, where each place that is one of so many columns has a value.
fn value_among<'a>(
    columns: usize,
    places: &[usize],
    values: &'a [Value],
    column: usize,
) -> Option<&'a Value>
    ensures { option_copied result ≡ value_among columns places.now values.now column }
{
    match places {
        [] => None,
        [place, places @ ..] => {
            if *place >= columns {
                return value_among(columns, places, values, column);
            }
            match values {
                [] => None,
                [value, others @ ..] => {
                    if *place == column {
                        return Some(value);
                    }
                    value_among(columns, places, others, column)
                }
            }
        }
    }
}

/// 0 or the empty text.
fn blank(alloc: Global, kind: Kind) -> Value
    ensures { result ≡ blank kind }
{
    match kind {
        Kind::Int => Value::Number(0),
        Kind::Huge => Value::Number(0),
        Kind::Text => Value::Word(Bytes::new(alloc)),
    }
}

/// The value of a column, if it has one, and else a blank one.
fn value_or_blank(alloc: Global, value: Option<&Value>, kind: Kind) -> Result<Value, NoMemory>
    ensures { IfOk result (λ filled. filled ≡ unwrap_or (option_copied value.entry) (blank kind)) }
{
    match value {
        Some(value) => value.copied(alloc),
        None => Ok(blank(alloc, kind)),
    }
}

/// The columns of some places with these values, and blank ones.
pub(crate) fn completed(
    alloc: Global,
    kinds: &[Kind],
    places: &[usize],
    values: &[Value],
) -> Result<Row, NoMemory>
    ensures { IfOk result (λ row. row ≡ completed kinds.now places.now values.now) }
{
    let mut row = Row::new(alloc);
    for (column, kind) in kinds.iter().enumerate() {
        let value = value_among(kinds.len(), places, values, column);
        row.push(value_or_blank(alloc, value, *kind)?)?;
    }
    Ok(row)
}
