//! Rows and refusals as texts, and places that are read.
//!
//! The refusal of a number outside its range is `range`, and that of a key that is there `duplicate`.
use case_text::write_row;
use iv_types::{Refusal, Row, RowList};
use std::alloc::Global;
use std::mem::forget;

/// The places of a text with blanks between them, `-` being none.
///
/// # Errors
///
/// Where one is no number.
pub fn read_places(alloc: Global, text: &str) -> anyhow::Result<Vec<usize>> {
    let mut places = Vec::new(alloc);
    if text != "-" {
        for token in text.split(' ') {
            places.push(token.parse::<usize>()?)?;
        }
    }
    Ok(places)
}

pub fn write_refusal(out: &mut String, refusal: &Refusal) -> anyhow::Result<()> {
    out.push_str(match refusal {
        Refusal::NumberRange => "range",
        Refusal::DuplicateKey => "duplicate",
        _ => "another refusal",
    })?;
    Ok(())
}

fn write_rows(out: &mut String, rows: &[Row]) -> anyhow::Result<()> {
    if rows.is_empty() {
        out.push_str("nothing")?;
    }
    for row in rows {
        if !out.is_empty() {
            out.push_str(" / ")?;
        }
        write_row(out, row.as_slice())?;
    }
    Ok(())
}

fn write_found(out: &mut String, found: &Result<RowList, Refusal>) -> anyhow::Result<()> {
    match found {
        Ok(rows) => write_rows(out, rows.as_slice()),
        Err(refusal) => write_refusal(out, refusal),
    }
}

/// The text of rows that were found, or refused.
pub fn found_text(alloc: Global, found: Result<RowList, Refusal>) -> anyhow::Result<String> {
    let mut out = String::new(alloc);
    let told = write_found(&mut out, &found);
    forget(found);
    told?;
    Ok(out)
}
