//! What changes owe to views of the first table.
//!
//! A row is a view, ` ; `, a change, and where something has to be looked up ` ; ` and the rows that are found. A change is the
//! table's number, `: `, and the row before and the row after with ` > ` between, each `nothing` where there is none. Its key
//! is `key`.
//!
//! The answer is the deltas as rows of the count, the group's values and the sums, or `nothing`; `misfit` where the rows
//! don't fit their tables, `not joined` where the view does not join its tables as it should, and `look up` with the look-ups
//! where the row says nothing of what they find.
use crate::changes::change;
use crate::views::view;
use crate::wants::write_wants;
use anyhow::bail;
use case_text::{read_rows, write_row};
use iv_types::{
    Catalog, Change, DeltaList, GroupDelta, Kind, Row, RowList, Value, ViewDef, WantList,
};
use object_kinds::group_kinds;
use row_codec::decode_key;
use std::alloc::Global;
use std::mem::forget;
use view_delta::{deltas, is_joined, looked_up_fit, needs, rows_fit};

// Adds a group's values.
fn push_group(alloc: Global, row: &mut Row, kinds: &[Kind], group: &[u8]) -> anyhow::Result<()> {
    let Ok(values) = decode_key(alloc, kinds, group) else {
        bail!("no group")
    };
    for value in values.as_slice() {
        row.push(value.copied(alloc)?)?;
    }
    Ok(())
}

// A delta as a row: its count, its group's values and its sums.
fn shown(alloc: Global, kinds: &[Kind], delta: &GroupDelta) -> anyhow::Result<Row> {
    if delta.view != 3 {
        bail!("another view");
    }
    let mut row = Row::new(alloc);
    row.push(Value::Number(i128::from(delta.count)))?;
    push_group(alloc, &mut row, kinds, delta.group.as_slice())?;
    for sum in delta.sums.as_slice() {
        row.push(Value::Number(*sum))?;
    }
    Ok(row)
}

fn write_deltas(
    alloc: Global,
    out: &mut String,
    kinds: &[Kind],
    found: &DeltaList,
) -> anyhow::Result<()> {
    if found.as_slice().is_empty() {
        out.push_str("nothing")?;
    }
    let mut is_first = true;
    for delta in found.as_slice() {
        out.push_str(if is_first { "" } else { " / " })?;
        is_first = false;
        let row = shown(alloc, kinds, delta)?;
        write_row(out, row.as_slice())?;
    }
    Ok(())
}

// Writes the deltas that were found for a view.
fn write_found(
    alloc: Global,
    out: &mut String,
    catalog: &Catalog,
    view: &ViewDef,
    found: &DeltaList,
) -> anyhow::Result<()> {
    let kinds = group_kinds(alloc, catalog, view)?;
    write_deltas(alloc, out, kinds.as_slice(), found)
}

// What has to be looked up; nothing is told of a view that does not join its tables as it should.
fn looked_up(
    alloc: Global,
    catalog: &Catalog,
    view: &ViewDef,
    change: &Change,
) -> anyhow::Result<WantList> {
    if !rows_fit(catalog, change) || !is_joined(catalog, view) {
        bail!("misfit");
    }
    Ok(needs(alloc, catalog, view, change)?)
}

// Writes what has to be looked up, and says whether something has.
fn write_needs(
    alloc: Global,
    out: &mut String,
    catalog: &Catalog,
    view: &ViewDef,
    change: &Change,
) -> anyhow::Result<bool> {
    let wants = looked_up(alloc, catalog, view, change)?;
    let is_empty = wants.as_slice().is_empty();
    let told = if is_empty {
        Ok(())
    } else {
        out.push_str("look up ")?;
        write_wants(out, wants.as_slice())
    };
    forget(wants);
    told?;
    Ok(!is_empty)
}

fn write_owed(
    alloc: Global,
    out: &mut String,
    catalog: &Catalog,
    view: &ViewDef,
    change: &Change,
    joined: RowList,
) -> anyhow::Result<()> {
    if !rows_fit(catalog, change)
        || !is_joined(catalog, view)
        || !looked_up_fit(catalog, view, change.table, joined.as_slice())
    {
        forget(joined);
        out.push_str("misfit")?;
        return Ok(());
    }
    let found = deltas(alloc, catalog, view, change, joined)?;
    let told = write_found(alloc, out, catalog, view, &found);
    forget(found);
    told
}

fn write_answer(
    alloc: Global,
    out: &mut String,
    catalog: &Catalog,
    view: &ViewDef,
    change: &Change,
    rows: Option<&str>,
) -> anyhow::Result<()> {
    if !rows_fit(catalog, change) {
        out.push_str("misfit")?;
        return Ok(());
    }
    if !is_joined(catalog, view) {
        out.push_str("not joined")?;
        return Ok(());
    }
    match rows {
        Some(rows) => {
            let joined = read_rows(alloc, rows)?;
            write_owed(alloc, out, catalog, view, change, joined)
        }
        None => {
            if write_needs(alloc, out, catalog, view, change)? {
                return Ok(());
            }
            write_owed(alloc, out, catalog, view, change, RowList::new(alloc))
        }
    }
}

// Writes what a change owes to a view, and forgets both.
fn write_once(
    alloc: Global,
    out: &mut String,
    catalog: &Catalog,
    view: ViewDef,
    changed: &str,
    rows: Option<&str>,
) -> anyhow::Result<()> {
    let told = match change(alloc, changed) {
        Ok(change) => {
            let told = write_answer(alloc, out, catalog, &view, &change, rows);
            forget(change);
            told
        }
        Err(error) => Err(error),
    };
    forget(view);
    told
}

/// What a row answers.
pub fn answer(alloc: Global, catalog: &Catalog, asked: &str) -> anyhow::Result<String> {
    let Some((shape, changed)) = asked.split_once(" ; ") else {
        bail!("no change")
    };
    let (changed, rows) = match changed.split_once(" ; ") {
        Some((changed, rows)) => (changed, Some(rows)),
        None => (changed, None),
    };
    let view = view(alloc, 3, "shops", shape)?;
    let mut out = String::new(alloc);
    write_once(alloc, &mut out, catalog, view, changed, rows)?;
    Ok(out)
}
