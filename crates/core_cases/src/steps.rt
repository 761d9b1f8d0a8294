//! Steps as texts.
//!
//! `SESSION ACT` is a step: `Begin serial` or `Begin snapshot`, `Defs`, `Fetch INDEX MODE INTERVAL` with `share` or `exclusive`,
//! `Peek INDEX INTERVAL`, `Put TABLE ROW`, `Put TABLE nothing under KEY`, `Pay`, `Ghost`, `UndoOne`, `End`, `Commit`, `Schema
//! STATEMENT`, `Clean`, `Prune`, `Checkpoint` and `Cancel`. Objects are named, and intervals are as in `keys`.
ghost use Rattle.std.specs.Prelude.{IfOk};
ghost use Rattle.core_cases.specs.Asking.{IsSpelt};

use crate::keys::{interval_in, key_in, key_of};
use crate::objects::{number_of, object_of};
use anyhow::bail;
use case_text::{first_word, read_row};
use iv_types::{Catalog, Definition, LockMode, Mode};
use sql_parse::parse;
use std::alloc::Global;
use std::mem::forget;
use txn_book::{Act, Step};

fn mode_of(text: &str) -> anyhow::Result<Mode> {
    match text {
        "serial" => Ok(Mode::Serial),
        "snapshot" => Ok(Mode::Snapshot),
        _ => bail!("no mode"),
    }
}

fn lock_mode_of(text: &str) -> anyhow::Result<LockMode> {
    match text {
        "share" => Ok(LockMode::Share),
        "exclusive" => Ok(LockMode::Exclusive),
        _ => bail!("no mode of a lock"),
    }
}

// `INDEX MODE INTERVAL`.
fn fetch(alloc: Global, catalog: &Catalog, text: &str) -> anyhow::Result<Act>
    ensures { IfOk result IsSpelt }
{
    let (name, rest) = first_word(text);
    let (mode, interval) = first_word(rest);
    let mode = lock_mode_of(mode)?;
    let object = object_of(catalog, name)?;
    Ok(Act::Fetch {
        index: number_of(object),
        interval: interval_in(alloc, catalog, object, interval)?,
        mode,
    })
}

// `INDEX INTERVAL`.
fn peek(alloc: Global, catalog: &Catalog, text: &str) -> anyhow::Result<Act>
    ensures { IfOk result IsSpelt }
{
    let (name, interval) = first_word(text);
    let object = object_of(catalog, name)?;
    Ok(Act::Peek {
        index: number_of(object),
        interval: interval_in(alloc, catalog, object, interval)?,
    })
}

// `TABLE ROW` or `TABLE nothing under KEY`.
fn put(alloc: Global, catalog: &Catalog, text: &str) -> anyhow::Result<Act>
    ensures { IfOk result IsSpelt }
{
    let (name, rest) = first_word(text);
    let object = object_of(catalog, name)?;
    let Definition::Table(table) = object else {
        bail!("no table")
    };
    if let Some(key) = rest.strip_prefix("nothing under ") {
        return Ok(Act::Put {
            table: table.number,
            key: key_in(alloc, catalog, object, key)?,
            new: None,
        });
    }
    let row = read_row(alloc, rest)?;
    Ok(Act::Put {
        table: table.number,
        key: key_of(alloc, table, &row)?,
        new: Some(row),
    })
}

// A statement.
fn schema(alloc: Global, text: &str) -> anyhow::Result<Act>
    ensures { IfOk result IsSpelt }
{
    match parse(alloc, text) {
        Ok(statement) => Ok(Act::Schema(statement)),
        Err(refusal) => {
            forget(refusal);
            bail!("no statement")
        }
    }
}

// An act without more words.
fn plain(word: &str) -> anyhow::Result<Act>
    ensures { IfOk result IsSpelt }
{
    match word {
        "Defs" => Ok(Act::Defs),
        "Pay" => Ok(Act::Pay),
        "Ghost" => Ok(Act::Ghost),
        "UndoOne" => Ok(Act::UndoOne),
        "End" => Ok(Act::End),
        "Commit" => Ok(Act::Commit),
        "Clean" => Ok(Act::Clean),
        "Prune" => Ok(Act::Prune),
        "Checkpoint" => Ok(Act::Checkpoint),
        "Cancel" => Ok(Act::Cancel),
        _ => bail!("no act"),
    }
}

fn act(alloc: Global, catalog: &Catalog, text: &str) -> anyhow::Result<Act>
    ensures { IfOk result IsSpelt }
{
    let (word, rest) = first_word(text);
    match word {
        "Begin" => Ok(Act::Begin(mode_of(rest)?)),
        "Fetch" => fetch(alloc, catalog, rest),
        "Peek" => peek(alloc, catalog, rest),
        "Put" => put(alloc, catalog, rest),
        "Schema" => schema(alloc, rest),
        _ => plain(text),
    }
}

/// The step of a text.
///
/// # Errors
///
/// Where it is none.
pub fn read_step(alloc: Global, catalog: &Catalog, text: &str) -> anyhow::Result<Step>
    ensures { IfOk result (λ step. IsSpelt step.act) }
{
    let (session, rest) = first_word(text);
    let session = session.parse::<u32>()?;
    Ok(Step {
        session,
        act: act(alloc, catalog, rest)?,
    })
}
