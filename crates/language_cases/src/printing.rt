//! The one text of each statement.
//!
//! `print`: of a text the size of the one text of the statement that it is and that text, of which the same comes again;
//! where something else comes of it, that stands behind ` THEN `.
//!
//! `statement`: of a text the parts of the statement that it is, as `parts` writes them, and behind ` / ` the size of its
//! one text and that text. A size is counted to a limit.
use crate::parts::write_statement;
use case_text::write_escaped;
use iv_types::{Bytes, Statement};
use sql_parse::parse;
use sql_pieces::statement_bytes;
use sql_print::statement_text;
use std::alloc::Global;
use std::fmt::Write;
use std::mem::forget;

/// The one text of a statement, and the size that is told of it.
#[derive(Drop)]
struct Printed {
    text: Bytes,
    size: u64,
}

fn text_and_size(alloc: Global, statement: &Statement) -> anyhow::Result<Printed> {
    let size = statement_bytes(statement);
    let text = statement_text(alloc, statement)?;
    Ok(Printed { text, size })
}

// What is printed of the statement that a text is, if it is one.
fn printed_of(alloc: Global, text: &str) -> anyhow::Result<Option<Printed>> {
    match parse(alloc, text) {
        Ok(statement) => {
            let found = text_and_size(alloc, &statement);
            forget(statement);
            Ok(Some(found?))
        }
        Err(refusal) => {
            forget(refusal);
            Ok(None)
        }
    }
}

fn write_printed(out: &mut String, printed: &Printed) -> anyhow::Result<()> {
    let size = printed.size;
    write!(out, "{size} ")?;
    write_escaped(out, printed.text.as_slice())
}

// What is printed of a text, as it is told.
fn told(alloc: Global, text: &str) -> anyhow::Result<String> {
    let mut out = String::new(alloc);
    match printed_of(alloc, text)? {
        Some(printed) => write_printed(&mut out, &printed)?,
        None => out.push_str("no statement")?,
    }
    Ok(out)
}

// What is printed of the text that was printed of a text.
fn told_again(alloc: Global, text: &str) -> anyhow::Result<String> {
    match printed_of(alloc, text)? {
        Some(printed) => match str::from_utf8(printed.text.as_slice()) {
            Ok(text) => told(alloc, text),
            Err(_) => Ok(format!(in alloc; "no text")?),
        },
        None => Ok(format!(in alloc; "no statement")?),
    }
}

pub fn one_text(alloc: Global, text: &str) -> anyhow::Result<String> {
    let first = told(alloc, text)?;
    let second = told_again(alloc, text)?;
    if first.as_str() == second.as_str() {
        return Ok(first);
    }
    Ok(format!(in alloc; "{first} THEN {second}")?)
}

// A statement's parts and what is printed of it.
fn parts_and_text(alloc: Global, statement: &Statement) -> anyhow::Result<String> {
    let mut out = String::new(alloc);
    write_statement(&mut out, statement)?;
    out.push_str(" / ")?;
    write_printed(&mut out, &text_and_size(alloc, statement)?)?;
    Ok(out)
}

pub fn stated(alloc: Global, text: &str) -> anyhow::Result<String> {
    match parse(alloc, text) {
        Ok(statement) => {
            let found = parts_and_text(alloc, &statement);
            forget(statement);
            found
        }
        Err(refusal) => {
            forget(refusal);
            Ok(format!(in alloc; "no statement")?)
        }
    }
}
