//! Answers as texts.
//!
//! `Begun` with the number and how many definitions there are, `Defs` with their names, `Rows` with rows (`nothing` where there
//! is none), `Changed` with the row that was there, and behind `owes` the deltas: a view, a group, a count and sums. `Blocked`
//! has the sessions, and a refusal its name and its numbers.
use crate::objects::{key_kinds, name_of, write_name};
use anyhow::bail;
use case_text::{write_escaped, write_row};
use iv_types::{Catalog, Cycle, EngineRefusal, GroupDelta, Refusal, Row, RowList, Sessions};
use row_codec::decode_key;
use std::alloc::Global;
use std::fmt::Write;
use std::mem::forget;
use txn_book::Answer;

fn write_rows(out: &mut String, rows: &RowList) -> anyhow::Result<()> {
    out.push_str("Rows")?;
    let mut before = " ";
    for row in rows.as_slice() {
        out.push_str(before)?;
        before = " / ";
        write_row(out, row.as_slice())?;
    }
    if rows.as_slice().is_empty() {
        out.push_str(" nothing")?;
    }
    Ok(())
}

fn write_perhaps(out: &mut String, row: &Option<Row>) -> anyhow::Result<()> {
    match row {
        Some(row) => write_row(out, row.as_slice()),
        None => {
            out.push_str("nothing")?;
            Ok(())
        }
    }
}

fn write_defs(out: &mut String, catalog: &Catalog) -> anyhow::Result<()> {
    out.push_str("Defs")?;
    for definition in catalog.definitions() {
        out.push(' ')?;
        write_escaped(out, name_of(definition).as_slice())?;
    }
    Ok(())
}

// A view, the values of a group, a count and sums.
fn write_delta(
    alloc: Global,
    out: &mut String,
    catalog: &Catalog,
    delta: &GroupDelta,
) -> anyhow::Result<()> {
    let Some(view) = catalog.get(delta.view) else {
        bail!("no view")
    };
    let kinds = key_kinds(alloc, catalog, view)?;
    let Ok(group) = decode_key(alloc, kinds.as_slice(), delta.group.as_slice()) else {
        bail!("no group")
    };
    write_name(out, catalog, delta.view)?;
    out.push(' ')?;
    write_row(out, group.as_slice())?;
    let count = delta.count;
    write!(out, " {count}")?;
    for sum in delta.sums.as_slice() {
        write!(out, " {sum}")?;
    }
    Ok(())
}

fn write_changed(
    alloc: Global,
    out: &mut String,
    catalog: &Catalog,
    before: &Option<Row>,
    owed: &[GroupDelta],
) -> anyhow::Result<()> {
    out.push_str("Changed ")?;
    write_perhaps(out, before)?;
    out.push_str(" owes")?;
    let mut before = " ";
    for delta in owed {
        out.push_str(before)?;
        before = " / ";
        write_delta(alloc, out, catalog, delta)?;
    }
    if owed.is_empty() {
        out.push_str(" nothing")?;
    }
    Ok(())
}

fn write_sessions(out: &mut String, sessions: Sessions) -> anyhow::Result<()> {
    out.push_str("Blocked")?;
    for session in 1..65 {
        if sessions.has(session) {
            write!(out, " {session}")?;
        }
    }
    Ok(())
}

fn write_cycle(out: &mut String, cycle: &Cycle) -> anyhow::Result<()> {
    out.push_str("Deadlock")?;
    for (place, session) in cycle.members.iter().enumerate() {
        if place < cycle.length as usize {
            write!(out, " {session}")?;
        }
    }
    Ok(())
}

fn write_refusal(out: &mut String, refusal: &EngineRefusal) -> anyhow::Result<()> {
    match refusal {
        EngineRefusal::Deadlock(cycle) => write_cycle(out, cycle)?,
        EngineRefusal::Escrow { column, inf, sup } => {
            write!(out, "Escrow {column} {inf} {sup}")?;
        }
        EngineRefusal::TxnFull { kept, need } => write!(out, "TxnFull {kept} {need}")?,
        EngineRefusal::LogFull {
            used,
            reserved,
            need,
        } => write!(out, "LogFull {used} {reserved} {need}")?,
        EngineRefusal::DataFull { used, need } => write!(out, "DataFull {used} {need}")?,
        EngineRefusal::HistoryFull { kept, need } => write!(out, "HistoryFull {kept} {need}")?,
        EngineRefusal::SchemaBusy(session) => write!(out, "SchemaBusy {session}")?,
        EngineRefusal::NoMemory => out.push_str("NoMemory")?,
        _ => out.push_str("another refusal")?,
    }
    Ok(())
}

/// A refusal of the engine.
pub fn refusal_text(alloc: Global, refusal: &EngineRefusal) -> anyhow::Result<String> {
    let mut out = String::new(alloc);
    write_refusal(&mut out, refusal)?;
    Ok(out)
}

fn write_denial(out: &mut String, refusal: &Refusal) -> anyhow::Result<()> {
    match refusal {
        Refusal::NameTaken(name) => {
            out.push_str("NameTaken ")?;
            write_escaped(out, name.as_slice())?;
        }
        Refusal::NeedsIndex(name) => {
            out.push_str("NeedsIndex ")?;
            write_escaped(out, name.as_slice())?;
        }
        Refusal::NumberRange => out.push_str("NumberRange")?,
        _ => out.push_str("another refusal")?,
    }
    Ok(())
}

// An answer with at most a number or two.
fn write_plain(out: &mut String, answer: &Answer) -> anyhow::Result<()> {
    match answer {
        Answer::Begun { number, defs } => write!(out, "Begun {number} {defs}")?,
        Answer::Paid { left } => write!(out, "Paid {left}")?,
        Answer::NeedsGhost => out.push_str("NeedsGhost")?,
        Answer::Ghosted => out.push_str("Ghosted")?,
        Answer::Undone { left } => write!(out, "Undone {left}")?,
        Answer::Ended => out.push_str("Ended")?,
        Answer::Committed(number) => write!(out, "Committed {number}")?,
        Answer::Cleaned(count) => write!(out, "Cleaned {count}")?,
        Answer::Pruned => out.push_str("Pruned")?,
        Answer::Saved(number) => write!(out, "Saved {number}")?,
        Answer::Cancelled => out.push_str("Cancelled")?,
        _ => bail!("no such answer"),
    }
    Ok(())
}

fn write_answer(
    alloc: Global,
    out: &mut String,
    catalog: &Catalog,
    answer: &Answer,
) -> anyhow::Result<()> {
    match answer {
        Answer::Defs(catalog) => write_defs(out, catalog),
        Answer::Rows(rows) => write_rows(out, rows),
        Answer::Changed { before, owed } => {
            write_changed(alloc, out, catalog, before, owed.as_slice())
        }
        Answer::Blocked(sessions) => write_sessions(out, *sessions),
        Answer::Refused(refusal) => {
            out.push_str("Refused ")?;
            write_refusal(out, refusal)
        }
        Answer::Denied(refusal) => {
            out.push_str("Denied ")?;
            write_denial(out, refusal)
        }
        plain => write_plain(out, plain),
    }
}

/// An answer.
pub fn answer_text(alloc: Global, catalog: &Catalog, answer: &Answer) -> anyhow::Result<String> {
    let mut out = String::new(alloc);
    write_answer(alloc, &mut out, catalog, answer)?;
    Ok(out)
}
