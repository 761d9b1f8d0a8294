//! The locks that changes ask for.
//!
//! A row is a change. The answer is the locks, each a letter for its mode, the index and the interval: `s` is Share and `x`
//! Exclusive. It is `misfit` where the rows don't fit their table or what is changed is no table.
use crate::changes::change;
use case_text::write_interval;
use iv_types::{Catalog, Change, Definition, LockMode, Want};
use object_kinds::numbered;
use std::alloc::Global;
use std::fmt::Write;
use std::mem::forget;
use view_delta::{are_joined, rows_fit, wants_of};

fn letter(mode: LockMode) -> char {
    match mode {
        LockMode::Share => 's',
        LockMode::Exclusive => 'x',
        LockMode::Increment => 'i',
    }
}

/// Writes locks that are asked for, with ` / ` between.
pub fn write_wants(out: &mut String, wants: &[Want]) -> anyhow::Result<()> {
    let mut is_first = true;
    for want in wants {
        out.push_str(if is_first { "" } else { " / " })?;
        is_first = false;
        out.push(letter(want.mode))?;
        write!(out, " {} ", want.index)?;
        write_interval(out, &want.interval)?;
    }
    Ok(())
}

fn write_locks(
    alloc: Global,
    out: &mut String,
    catalog: &Catalog,
    change: &Change,
) -> anyhow::Result<()> {
    match numbered(catalog, change.table) {
        Some(Definition::Table(table)) if rows_fit(catalog, change) && are_joined(catalog) => {
            let wants = wants_of(alloc, catalog, table, change)?;
            let told = write_wants(out, wants.as_slice());
            forget(wants);
            told
        }
        _ => {
            out.push_str("misfit")?;
            Ok(())
        }
    }
}

/// What a row answers.
pub fn answer(alloc: Global, catalog: &Catalog, asked: &str) -> anyhow::Result<String> {
    let change = change(alloc, asked)?;
    let mut out = String::new(alloc);
    let told = write_locks(alloc, &mut out, catalog, &change);
    forget(change);
    told?;
    Ok(out)
}
