//! Views evaluated afresh, on the rows of the tables 1 and 2.
//!
//! A row has a view's condition (`expressions`), the columns of its group and those of its sums with ` | ` between them and
//! `-` where there is none, ` : `, the rows of the first table, and of a view of both tables ` ; ` and those of the second;
//! then come the view's rows. The fourth column of the first table is joined with the primary key of the second.
//!
//! A row of a view as it is kept has the number of a view of the catalog in place of the rest, and then of each group the
//! bytes in hexadecimal digits, the count and the sums.
use crate::writing::{found_text, write_refusal};
use anyhow::bail;
use case_text::{read_column, read_expression, read_rows, write_hexadecimal};
use iv_types::{
    Bytes, Catalog, ColumnAtList, Definition, Expr, NameList, Places, Refusal, RowsOf, Second,
    TableRows, ViewDef, ViewRow, ViewRowList,
};
use row_eval::{fresh_rows, is_readable, recompute};
use std::alloc::Global;
use std::fmt::Write;
use std::mem::forget;

fn push_column(found: &mut ColumnAtList, token: &str) -> anyhow::Result<()> {
    match read_column(token) {
        Some(place) => {
            found.push(place)?;
            Ok(())
        }
        None => bail!("no column"),
    }
}

fn columns(alloc: Global, text: &str) -> anyhow::Result<ColumnAtList> {
    let mut found = ColumnAtList::new(alloc);
    if text != "-" {
        for token in text.split(' ') {
            push_column(&mut found, token)?;
        }
    }
    Ok(found)
}

fn condition(alloc: Global, text: &str) -> anyhow::Result<Option<Expr>> {
    match text {
        "-" => Ok(None),
        _ => Ok(Some(read_expression(alloc, text)?)),
    }
}

fn second(alloc: Global, of_both: bool) -> anyhow::Result<Option<Second>> {
    if !of_both {
        return Ok(None);
    }
    let mut joined = Places::new(alloc);
    joined.push(3)?;
    Ok(Some(Second {
        table: 2,
        joined,
        index: 9,
    }))
}

fn view(alloc: Global, shape: &str, of_both: bool) -> anyhow::Result<ViewDef> {
    let Some((terms, places)) = shape.split_once(" | ") else {
        bail!("no group")
    };
    let Some((group, sums)) = places.split_once(" | ") else {
        bail!("no sums")
    };
    let group = columns(alloc, group)?;
    let sums = columns(alloc, sums)?;
    let second = second(alloc, of_both)?;
    Ok(ViewDef {
        number: 3,
        name: Bytes::new(alloc),
        names: NameList::new(alloc),
        first: 1,
        second,
        condition: condition(alloc, terms)?,
        group,
        sums,
    })
}

fn push_rows(alloc: Global, tables: &mut TableRows, table: u32, text: &str) -> anyhow::Result<()> {
    let rows = read_rows(alloc, text)?;
    tables.push(RowsOf { table, rows })?;
    Ok(())
}

fn tables(alloc: Global, first: &str, second: &str) -> anyhow::Result<TableRows> {
    let mut tables = TableRows::new(alloc);
    push_rows(alloc, &mut tables, 1, first)?;
    push_rows(alloc, &mut tables, 2, second)?;
    Ok(tables)
}

// What a view shows: the rows of one table may be any.
fn shown(
    alloc: Global,
    catalog: &Catalog,
    view: &ViewDef,
    tables: &TableRows,
) -> anyhow::Result<String> {
    if view.second.is_none() {
        return found_text(alloc, fresh_rows(alloc, catalog, view, tables));
    }
    if !is_readable(catalog, view, tables) {
        bail!("rows that do not fit")
    }
    found_text(alloc, fresh_rows(alloc, catalog, view, tables))
}

/// The rows of the view of a row.
pub fn view_of(alloc: Global, catalog: &Catalog, asked: &str) -> anyhow::Result<String> {
    let Some((shape, rows)) = asked.split_once(" : ") else {
        bail!("no rows")
    };
    let (first, second, of_both) = match rows.split_once(" ; ") {
        Some((first, second)) => (first, second, true),
        None => (rows, "nothing", false),
    };
    let tables = tables(alloc, first, second)?;
    let view = view(alloc, shape, of_both)?;
    let told = shown(alloc, catalog, &view, &tables);
    forget(view);
    told
}

fn write_sums(out: &mut String, sums: &[i128]) -> anyhow::Result<()> {
    for sum in sums {
        write!(out, " {sum}")?;
    }
    Ok(())
}

fn write_kept(out: &mut String, rows: &[ViewRow]) -> anyhow::Result<()> {
    for row in rows {
        if !out.is_empty() {
            out.push_str(" / ")?;
        }
        let count = row.count;
        write_hexadecimal(out, row.group.as_slice())?;
        write!(out, " {count}")?;
        write_sums(out, row.sums.as_slice())?;
    }
    Ok(())
}

fn write_recomputed(out: &mut String, found: &Result<ViewRowList, Refusal>) -> anyhow::Result<()> {
    match found {
        Ok(rows) => write_kept(out, rows.as_slice()),
        Err(refusal) => write_refusal(out, refusal),
    }
}

fn recomputed_text(alloc: Global, found: Result<ViewRowList, Refusal>) -> anyhow::Result<String> {
    let mut out = String::new(alloc);
    let told = write_recomputed(&mut out, &found);
    forget(found);
    told?;
    Ok(out)
}

fn recomputed(
    alloc: Global,
    catalog: &Catalog,
    number: u32,
    tables: &TableRows,
) -> anyhow::Result<String> {
    match catalog.get(number) {
        Some(Definition::View(view)) => {
            if !is_readable(catalog, view, tables) {
                bail!("rows that do not fit")
            }
        }
        _ => bail!("no view"),
    }
    recomputed_text(alloc, recompute(alloc, catalog, number, tables))
}

/// The rows of the view of a row, as they are kept.
pub fn kept_of(alloc: Global, catalog: &Catalog, asked: &str) -> anyhow::Result<String> {
    let Some((number, rows)) = asked.split_once(" : ") else {
        bail!("no rows")
    };
    let Some((first, second)) = rows.split_once(" ; ") else {
        bail!("no second table")
    };
    let number = number.parse::<u32>()?;
    let tables = tables(alloc, first, second)?;
    recomputed(alloc, catalog, number, &tables)
}
