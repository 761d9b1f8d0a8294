//! The values of a key.
ghost use Rattle.std.specs.Prelude.{◌≡◌, IfOk};
ghost use Rattle.statement_law.specs.Telling.{value_in, bytes_behind, values_in};

use crate::numbers::{huge_in, int_in};
use crate::texts::{behind, behind_text, text_in};
use iv_types::{Kind, NoMemory, Row, Value};
use std::alloc::Global;

fn value_in(alloc: Global, kind: Kind, bytes: &[u8]) -> Result<Value, NoMemory>
    ensures { IfOk result (λ value. value ≡ value_in kind bytes.now) }
{
    match kind {
        Kind::Int => Ok(Value::Number(int_in(bytes))),
        Kind::Huge => Ok(Value::Number(huge_in(bytes))),
        Kind::Text => Ok(Value::Word(text_in(alloc, bytes)?)),
    }
}

fn bytes_behind(kind: Kind, bytes: &[u8]) -> &[u8]
    ensures { result.now ≡ bytes_behind kind bytes.now }
{
    match kind {
        Kind::Int => behind(bytes, 8),
        Kind::Huge => behind(bytes, 16),
        Kind::Text => behind_text(bytes),
    }
}

/// The values of a key of these columns.
///
/// # Errors
///
/// Where there is no memory for them.
pub fn values_in(alloc: Global, kinds: &[Kind], bytes: &[u8]) -> Result<Row, NoMemory>
    ensures { IfOk result (λ row. row ≡ values_in kinds.now bytes.now) }
{
    let mut values = Vec::new(alloc);
    let mut rest = bytes;
    for kind in kinds {
        values.push(value_in(alloc, *kind, rest)?)?;
        rest = bytes_behind(*kind, rest);
    }
    Ok(Row::from_vec(values))
}
