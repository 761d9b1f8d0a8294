//! Intervals of parts of plans.
//!
//! A row is the kinds of the index's columns by their first letters, ` | `, what its columns are equal to, `|`, and the
//! ranges of the column behind them with semicolons between them. Its interval is its ends in hexadecimal digits, `-` where
//! one has no digits and `none` where there is none behind. The row of
//! the earlier relation is the number 7 and the text 'a'.
use anyhow::bail;
use case_text::{operator, read_column, read_row, read_value, write_interval};
use iv_types::{Interval, Kind, RowList};
use sql_plan::{Equal, EqualList, PlanPart, RangeTerm, RangeTermList, interval};
use std::alloc::Global;
use std::mem::forget;

fn kind(letter: char) -> anyhow::Result<Kind> {
    match letter {
        'I' => Ok(Kind::Int),
        'H' => Ok(Kind::Huge),
        'T' => Ok(Kind::Text),
        _ => bail!("no kind"),
    }
}

fn kinds(alloc: Global, text: &str) -> anyhow::Result<Vec<Kind>> {
    let mut kinds = Vec::new(alloc);
    for letter in text.chars() {
        kinds.push(kind(letter)?)?;
    }
    Ok(kinds)
}

fn equal(alloc: Global, token: &str) -> anyhow::Result<Equal> {
    match read_column(token) {
        Some(place) => Ok(Equal::Column(place)),
        None => Ok(Equal::Literal(read_value(alloc, token)?)),
    }
}

fn equals(alloc: Global, text: &str) -> anyhow::Result<EqualList> {
    let mut equals = EqualList::new(alloc);
    if !text.is_empty() {
        for token in text.split(' ') {
            equals.push(equal(alloc, token)?)?;
        }
    }
    Ok(equals)
}

fn range(alloc: Global, text: &str) -> anyhow::Result<RangeTerm> {
    let Some((sign, token)) = text.split_once(' ') else {
        bail!("no sign")
    };
    let Some(op) = operator(sign) else {
        bail!("no operator")
    };
    Ok(RangeTerm {
        op,
        value: read_value(alloc, token)?,
    })
}

fn ranges(alloc: Global, text: &str) -> anyhow::Result<RangeTermList> {
    let mut ranges = RangeTermList::new(alloc);
    if !text.is_empty() {
        for part in text.split(';') {
            ranges.push(range(alloc, part)?)?;
        }
    }
    Ok(ranges)
}

fn part(alloc: Global, terms: &str) -> anyhow::Result<PlanPart> {
    let Some((equal, behind)) = terms.split_once('|') else {
        bail!("no ranges")
    };
    Ok(PlanPart {
        index: 1,
        equal: equals(alloc, equal.trim())?,
        ranges: ranges(alloc, behind.trim())?,
    })
}

fn earlier_rows(alloc: Global) -> anyhow::Result<RowList> {
    let mut rows = RowList::new(alloc);
    rows.push(read_row(alloc, "7 'a'")?)?;
    Ok(rows)
}

// The interval of a part.
fn ends(alloc: Global, kinds: &[Kind], part: &PlanPart) -> anyhow::Result<String> {
    let rows = earlier_rows(alloc)?;
    let mut out = String::new(alloc);
    write_interval(&mut out, &interval(alloc, kinds, part, &rows)?)?;
    Ok(out)
}

/// The interval of what a row asks.
pub fn answer(alloc: Global, asked: &str) -> anyhow::Result<String> {
    let Some((columns, terms)) = asked.split_once(" | ") else {
        bail!("no columns")
    };
    let kinds = kinds(alloc, columns)?;
    let part = part(alloc, terms)?;
    let told = ends(alloc, kinds.as_slice(), &part);
    forget(part);
    told
}
