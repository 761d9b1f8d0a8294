//! How many bytes values and rows have when they are encoded, without encoding them.
ghost use Rattle.std.specs.Prelude.{◌≡◌, ◌*◌, ◌≤◌, ◌^◌, length};
ghost use Rattle.std.specs.List.{flat_map};
ghost use Rattle.iv_types.specs.Encoding.{kinds_of, Fits, FitAll, value_bytes, key_value_bytes, key_byte, row_bytes};

use iv_types::{Kind, Row, TableDef, Value};

// The bytes of a value in a row.
fn value_len(kind: Kind, value: &Value) -> u128
    ensures { result ≡ length (value_bytes kind value.now) }
{
    match value {
        Value::Number(_) => match kind {
            Kind::Int => 8,
            Kind::Huge => 16,
            Kind::Text => 0,
        },
        Value::Word(text) => match kind {
            Kind::Text => 2 + text.as_slice().len() as u128,
            _ => 0,
        },
    }
}

// The bytes of a text in a key, without its end: two for a 0.
fn text_len(text: &[u8]) -> u128
    ensures len { result ≡ length (flat_map key_byte text.now) }
    ensures most { result ≤ 2 * length text.now }
{
    let mut sum: u128 = 0;
    for byte in text {
        sum += if *byte == 0 { 2 } else { 1 };
    }
    sum
}

/// How many bytes a value has in a key.
pub fn key_value_len(kind: Kind, value: &Value) -> u128
    ensures len { result ≡ length (key_value_bytes kind value.now) }
    ensures most { Fits kind value.now → result ≤ 402 }
{
    match value {
        Value::Number(_) => match kind {
            Kind::Int => 8,
            Kind::Huge => 16,
            Kind::Text => 0,
        },
        Value::Word(text) => match kind {
            Kind::Text => text_len(text.as_slice()) + 2,
            _ => 0,
        },
    }
}

/// How many bytes a row of columns of these kinds has. Its values fit them.
pub fn row_len(kinds: &[Kind], values: &[Value]) -> u128
    requires { FitAll kinds.now values.now }
    ensures len { result ≡ length (row_bytes kinds.now values.now) }
    ensures most { result ≤ 202 * 2 ^ 64 }
{
    let mut sum: u128 = 0;
    for place in 0..kinds.len() {
        sum += value_len(kinds[place], &values[place]);
    }
    sum
}

/// How many bytes a row of a table has.
pub fn table_row_len(table: &TableDef, row: &Row) -> u128
    requires { FitAll (kinds_of table.now) row.now }
    ensures len { result ≡ length (row_bytes (kinds_of table.now) row.now) }
    ensures most { result ≤ 202 * 2 ^ 64 }
{
    let columns = table.columns.as_slice();
    let values = row.as_slice();
    let mut sum: u128 = 0;
    for place in 0..columns.len() {
        sum += value_len(columns[place].kind, &values[place]);
    }
    sum
}
