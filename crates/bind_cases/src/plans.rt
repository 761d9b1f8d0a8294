//! Plans of statements.
//!
//! A row is a statement, behind `snapshot` where it runs as one, or the object numbers of the relations of a SELECT, ` | `
//! and its conditions (`short_forms`) with ` ; ` between them. Its plan has the relations between slashes: the number of the
//! index, and then what its columns are equal to, and the ranges of the column behind them. A plan that reads none is
//! `nothing`.
use crate::answers::write_place;
use crate::short_forms::selection;
use anyhow::bail;
use case_text::{sign, write_value};
use catalog_text::bound_or_refused;
use iv_types::{Bound, Catalog, Mode};
use sql_plan::{Equal, Plan, PlanPart, RangeTerm, plan};
use std::alloc::Global;
use std::fmt::Write;
use std::mem::forget;

fn write_equal(out: &mut String, equal: &Equal) -> anyhow::Result<()> {
    match equal {
        Equal::Literal(value) => write_value(out, value),
        Equal::Column(place) => write_place(out, *place),
    }
}

fn write_equals(out: &mut String, equals: &[Equal]) -> anyhow::Result<()> {
    for equal in equals {
        out.push_str(" = ")?;
        write_equal(out, equal)?;
    }
    Ok(())
}

fn write_ranges(out: &mut String, ranges: &[RangeTerm]) -> anyhow::Result<()> {
    for range in ranges {
        let sign = sign(range.op);
        write!(out, " {sign} ")?;
        write_value(out, &range.value)?;
    }
    Ok(())
}

fn write_part(out: &mut String, part: &PlanPart) -> anyhow::Result<()> {
    let index = part.index;
    write!(out, "{index}")?;
    write_equals(out, part.equal.as_slice())?;
    write_ranges(out, part.ranges.as_slice())
}

fn write_parts(out: &mut String, parts: &[PlanPart]) -> anyhow::Result<()> {
    if parts.is_empty() {
        out.push_str("nothing")?;
    }
    for part in parts {
        if !out.is_empty() {
            out.push_str(" / ")?;
        }
        write_part(out, part)?;
    }
    Ok(())
}

fn shown(alloc: Global, plan: &Plan) -> anyhow::Result<String> {
    let mut out = String::new(alloc);
    write_parts(&mut out, plan.parts.as_slice())?;
    Ok(out)
}

fn planned(alloc: Global, catalog: &Catalog, bound: &Bound, mode: Mode) -> anyhow::Result<String> {
    match plan(alloc, catalog, bound, mode) {
        Ok(plan) => {
            let told = shown(alloc, &plan);
            forget(plan);
            told
        }
        Err(_) => bail!("no memory"),
    }
}

fn bound_by(alloc: Global, catalog: &Catalog, text: &str) -> anyhow::Result<Bound> {
    if let Some((relations, conditions)) = text.split_once(" | ") {
        return selection(alloc, relations, conditions);
    }
    match bound_or_refused(alloc, catalog, text)? {
        Ok(bound) => Ok(bound),
        Err(refusal) => {
            forget(refusal);
            bail!("a statement that is refused")
        }
    }
}

/// The plan of what a row asks.
pub fn answer(alloc: Global, catalog: &Catalog, asked: &str) -> anyhow::Result<String> {
    let (mode, text) = match asked.strip_prefix("snapshot ") {
        Some(text) => (Mode::Snapshot, text),
        None => (Mode::Serial, asked),
    };
    let bound = bound_by(alloc, catalog, text)?;
    let told = planned(alloc, catalog, &bound, mode);
    forget(bound);
    told
}
