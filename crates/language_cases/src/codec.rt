//! Rows and keys in bytes.
//!
//! `key`, `row`: of the kinds of columns, `: ` and values the bytes of the key or the row that they are, in hexadecimal
//! digits, or `none such` where the values do not fit the kinds.
//!
//! `key of`, `row of`: of the kinds of columns, `: ` and bytes in hexadecimal digits the values of the key or the row that
//! they are, or `rule` with the rule that they break and `at` with the place where.
//!
//! Kinds are `INT`, `HUGE` and `TEXT` with blanks between them, and `()` is none. `case_text` says how values are written.
use anyhow::bail;
use case_text::{from_hexadecimal, read_row, write_hexadecimal, write_row};
use iv_types::{Bytes, ColumnDef, ColumnList, Kind, Places, Row, TableDef};
use row_codec::{RowFault, decode_key, decode_row, encode_key, encode_row, key_fits, row_fits};
use std::alloc::Global;
use std::mem::forget;

fn kind_of(word: &str) -> anyhow::Result<Kind> {
    match word {
        "INT" => Ok(Kind::Int),
        "HUGE" => Ok(Kind::Huge),
        "TEXT" => Ok(Kind::Text),
        _ => bail!("no kind"),
    }
}

fn kinds_of(alloc: Global, text: &str) -> anyhow::Result<Vec<Kind>> {
    let mut kinds = Vec::new(alloc);
    if text != "()" {
        for word in text.split(' ') {
            kinds.push(kind_of(word)?)?;
        }
    }
    Ok(kinds)
}

fn columns_of(alloc: Global, kinds: &[Kind]) -> anyhow::Result<ColumnList> {
    let mut columns = ColumnList::new(alloc);
    for kind in kinds {
        columns.push(ColumnDef {
            name: Bytes::new(alloc),
            kind: *kind,
        })?;
    }
    Ok(columns)
}

fn table_of(alloc: Global, kinds: &[Kind]) -> anyhow::Result<TableDef> {
    Ok(TableDef {
        number: 1,
        name: Bytes::new(alloc),
        columns: columns_of(alloc, kinds)?,
        primary: Places::new(alloc),
    })
}

// The kinds of columns and what is said of them.
fn kinds_and_rest(alloc: Global, asked: &str) -> anyhow::Result<(Vec<Kind>, &str)> {
    match asked.split_once(": ") {
        Some((kinds, rest)) => Ok((kinds_of(alloc, kinds)?, rest)),
        None => bail!("no kinds"),
    }
}

fn hexadecimal_of(alloc: Global, bytes: &Bytes) -> anyhow::Result<String> {
    let mut out = String::new(alloc);
    write_hexadecimal(&mut out, bytes.as_slice())?;
    Ok(out)
}

fn told(alloc: Global, found: Result<Row, RowFault>) -> anyhow::Result<String> {
    match found {
        Ok(row) => {
            let mut out = String::new(alloc);
            write_row(&mut out, row.as_slice())?;
            Ok(out)
        }
        Err(RowFault::BadRow { rule, place }) => {
            Ok(format!(in alloc; "rule {rule} at {place}")?)
        }
        Err(RowFault::NoMemory) => bail!("no memory"),
    }
}

pub fn key_of_values(alloc: Global, asked: &str) -> anyhow::Result<String> {
    let (kinds, values) = kinds_and_rest(alloc, asked)?;
    let values = read_row(alloc, values)?;
    if !key_fits(kinds.as_slice(), values.as_slice()) {
        return Ok(format!(in alloc; "none such")?);
    }
    let bytes = encode_key(alloc, kinds.as_slice(), values.as_slice())?;
    hexadecimal_of(alloc, &bytes)
}

pub fn key_of_bytes(alloc: Global, asked: &str) -> anyhow::Result<String> {
    let (kinds, bytes) = kinds_and_rest(alloc, asked)?;
    let bytes = from_hexadecimal(alloc, bytes)?;
    told(alloc, decode_key(alloc, kinds.as_slice(), bytes.as_slice()))
}

// The bytes of a row of a table.
fn row_in(alloc: Global, table: &TableDef, values: &Row) -> anyhow::Result<String> {
    if !row_fits(table, values) {
        return Ok(format!(in alloc; "none such")?);
    }
    let bytes = encode_row(alloc, table, values)?;
    hexadecimal_of(alloc, &bytes)
}

pub fn row_of_values(alloc: Global, asked: &str) -> anyhow::Result<String> {
    let (kinds, values) = kinds_and_rest(alloc, asked)?;
    let values = read_row(alloc, values)?;
    let table = table_of(alloc, kinds.as_slice())?;
    let found = row_in(alloc, &table, &values);
    forget(table);
    found
}

pub fn row_of_bytes(alloc: Global, asked: &str) -> anyhow::Result<String> {
    let (kinds, bytes) = kinds_and_rest(alloc, asked)?;
    let bytes = from_hexadecimal(alloc, bytes)?;
    let table = table_of(alloc, kinds.as_slice())?;
    let found = decode_row(alloc, &table, bytes.as_slice());
    forget(table);
    told(alloc, found)
}
