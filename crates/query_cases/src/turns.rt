//! Statements that are done step by step.
//!
//! A row begins a statement, or hands over what the one that was begun last wanted: rows, `was` and the row that stood there
//! before a change, or by `again` nothing; then comes its turn. Where it wants an interval, that is the index, and the ends of
//! the interval in hexadecimal digits, `-` where one has no digits and `none` where there is none behind: `reads` with a lock
//! in Share, `locks` in Exclusive, `peeks` without one. Where it wants a change it is `sets` or `removes`, the table and the
//! key in hexadecimal digits, and the row. Else it is the replies with slashes between them, or its refusal.
use crate::writing::write_refusal;
use anyhow::bail;
use case_text::{read_row, read_rows, write_hexadecimal, write_interval, write_row};
use iv_types::{Bytes, Interval, LockMode, Reply, Row};
use std::alloc::Global;
use std::fmt::Write;
use std::mem::forget;
use task_parts::{Told, Turn};

/// A statement that is under way.
#[derive(Drop)]
pub enum Running {
    Select(query_exec::Task),
    Change(dml_exec::Task),
}

fn write_read(out: &mut String, word: &str, index: u32, interval: &Interval) -> anyhow::Result<()> {
    write!(out, "{word} {index} ")?;
    write_interval(out, interval)
}

// How a read is told that takes this lock.
fn reading_word(mode: LockMode) -> &'static str {
    match mode {
        LockMode::Share => "reads",
        LockMode::Exclusive => "locks",
        LockMode::Increment => "increments",
    }
}

fn write_change(
    out: &mut String,
    table: u32,
    key: &Bytes,
    new: &Option<Row>,
) -> anyhow::Result<()> {
    match new {
        Some(row) => {
            write!(out, "sets {table} ")?;
            write_hexadecimal(out, key.as_slice())?;
            out.push(' ')?;
            write_row(out, row.as_slice())
        }
        None => {
            write!(out, "removes {table} ")?;
            write_hexadecimal(out, key.as_slice())
        }
    }
}

fn write_reply(out: &mut String, reply: &Reply) -> anyhow::Result<()> {
    match reply {
        Reply::Row(row) => write_row(out, row.as_slice()),
        Reply::Done(count) => {
            write!(out, "done {count}")?;
            Ok(())
        }
        _ => {
            out.push_str("another reply")?;
            Ok(())
        }
    }
}

fn write_replies(out: &mut String, replies: &[Reply]) -> anyhow::Result<()> {
    for reply in replies {
        if !out.is_empty() {
            out.push_str(" / ")?;
        }
        write_reply(out, reply)?;
    }
    Ok(())
}

fn write_turn(out: &mut String, turn: &Turn) -> anyhow::Result<()> {
    match turn {
        Turn::Fetch {
            index,
            interval,
            mode,
        } => write_read(out, reading_word(*mode), *index, interval),
        Turn::Peek { index, interval } => write_read(out, "peeks", *index, interval),
        Turn::Change { table, key, new } => write_change(out, *table, key, new),
        Turn::Done(replies) => write_replies(out, replies.as_slice()),
        Turn::Refused(refusal) => write_refusal(out, refusal),
        Turn::NoMemory => {
            out.push_str("no memory")?;
            Ok(())
        }
    }
}

fn turn_text(alloc: Global, turn: Turn) -> anyhow::Result<String> {
    let mut out = String::new(alloc);
    let told = write_turn(&mut out, &turn);
    forget(turn);
    told?;
    Ok(out)
}

// The row that stood there.
fn before(alloc: Global, text: &str) -> anyhow::Result<Told> {
    match text {
        "nothing" => Ok(Told::Before(None)),
        _ => Ok(Told::Before(Some(read_row(alloc, text)?))),
    }
}

// What a row hands over.
fn handed(alloc: Global, text: &str) -> anyhow::Result<Told> {
    if let Some(row) = text.strip_prefix("was ") {
        return before(alloc, row);
    }
    match text {
        "again" => Ok(Told::Nothing),
        _ => Ok(Told::Rows(read_rows(alloc, text)?)),
    }
}

/// The turn of the statement that was begun last, which is told this.
pub fn next_turn(
    alloc: Global,
    running: &mut Option<Running>,
    told: Told,
) -> anyhow::Result<String> {
    match running {
        Some(Running::Select(task)) => turn_text(alloc, task.next(told)),
        Some(Running::Change(task)) => turn_text(alloc, task.next(told)),
        None => {
            forget(told);
            bail!("no statement")
        }
    }
}

/// The turn of the statement that was begun last, to which a row hands something over.
pub fn turn_after(
    alloc: Global,
    running: &mut Option<Running>,
    asked: &str,
) -> anyhow::Result<String> {
    let told = handed(alloc, asked)?;
    next_turn(alloc, running, told)
}
