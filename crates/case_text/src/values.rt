//! Values and rows as texts.
//!
//! A number is written in digits, and `max` and `-max` are the ends of the HUGE range; a text's content stands between
//! quotes, with escapes, a blank as `\x20`. Blanks stand between the values of a row, `()` is a row of no value, ` / `
//! stands between rows, and `nothing` is no row.
use crate::escapes::{unescaped, write_escaped};
use anyhow::bail;
use iv_types::{Bytes, GREATEST_HUGE, Row, RowList, Value};
use std::alloc::Global;
use std::fmt::Write;

/// The value of a text.
///
/// # Errors
///
/// Where it is none.
pub fn read_value(alloc: Global, text: &str) -> anyhow::Result<Value> {
    if let Some(quoted) = text.strip_prefix('\'') {
        let Some(content) = quoted.strip_suffix('\'') else {
            bail!("no end of a text")
        };
        return Ok(Value::Word(Bytes::from_vec(unescaped(alloc, content)?)));
    }
    match text {
        "max" => Ok(Value::Number(GREATEST_HUGE)),
        "-max" => Ok(Value::Number(-GREATEST_HUGE)),
        _ => Ok(Value::Number(text.parse::<i128>()?)),
    }
}

/// The row of a text.
///
/// # Errors
///
/// Where one of its values is none.
pub fn read_row(alloc: Global, text: &str) -> anyhow::Result<Row> {
    let mut row = Row::new(alloc);
    if text != "()" {
        for part in text.split(' ') {
            row.push(read_value(alloc, part)?)?;
        }
    }
    Ok(row)
}

/// The rows of a text.
///
/// # Errors
///
/// Where one of their values is none.
pub fn read_rows(alloc: Global, text: &str) -> anyhow::Result<RowList> {
    let mut rows = RowList::new(alloc);
    if text != "nothing" {
        for part in text.split(" / ") {
            rows.push(read_row(alloc, part)?)?;
        }
    }
    Ok(rows)
}

/// Writes a value as `read_value` reads it.
pub fn write_value(out: &mut String, value: &Value) -> anyhow::Result<()> {
    match value {
        Value::Number(GREATEST_HUGE) => out.push_str("max")?,
        Value::Number(number) => write!(out, "{number}")?,
        Value::Word(word) => {
            out.push('\'')?;
            for byte in word.as_slice() {
                match *byte {
                    b' ' => out.push_str("\\x20")?,
                    other => write_escaped(out, &[other])?,
                }
            }
            out.push('\'')?;
        }
    }
    Ok(())
}

/// Writes a row as `read_row` reads it.
pub fn write_row(out: &mut String, row: &[Value]) -> anyhow::Result<()> {
    if row.is_empty() {
        out.push_str("()")?;
    }
    let mut is_first = true;
    for value in row {
        if !is_first {
            out.push(' ')?;
        }
        is_first = false;
        write_value(out, value)?;
    }
    Ok(())
}
