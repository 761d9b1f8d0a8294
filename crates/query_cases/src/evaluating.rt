//! What expressions give on the rows that their table is given.
//!
//! A row is an expression (`expressions`) and its value or truth, or `range`.
use crate::writing::write_refusal;
use case_text::{read_expression, write_value};
use iv_types::{Refusal, RowList, Value};
use row_eval::{passes, value};
use std::alloc::Global;
use std::mem::forget;

fn write_found(out: &mut String, found: &Result<Value, Refusal>) -> anyhow::Result<()> {
    match found {
        Ok(value) => write_value(out, value),
        Err(refusal) => write_refusal(out, refusal),
    }
}

fn write_truth(out: &mut String, found: &Result<bool, Refusal>) -> anyhow::Result<()> {
    match found {
        Ok(true) => out.push_str("true")?,
        Ok(false) => out.push_str("false")?,
        Err(refusal) => write_refusal(out, refusal)?,
    }
    Ok(())
}

/// The number or the text that an expression gives.
pub fn value_of(alloc: Global, rows: &RowList, postfix: &str) -> anyhow::Result<String> {
    let expression = read_expression(alloc, postfix)?;
    let found = value(alloc, &expression, rows);
    forget(expression);
    let mut out = String::new(alloc);
    let told = write_found(&mut out, &found);
    forget(found);
    told?;
    Ok(out)
}

/// Whether a condition is true.
pub fn truth_of(alloc: Global, rows: &RowList, postfix: &str) -> anyhow::Result<String> {
    let expression = read_expression(alloc, postfix)?;
    let found = passes(&expression, rows);
    forget(expression);
    let mut out = String::new(alloc);
    let told = write_truth(&mut out, &found);
    forget(found);
    told?;
    Ok(out)
}
