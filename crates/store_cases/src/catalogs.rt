//! Catalogs of tables and their indexes.
//!
//! A table is its name, the kinds of its columns, `KEY`, and the places of its key's columns, counted from 0, as in `pair
//! INT TEXT HUGE KEY 1 0`. An index is `index`, its name, the number of its table, `KEY`, and the places of its columns, as
//! in `index second 1 KEY 2 1`. A view is `view`, its name and its text, as in `view sums all | 1 | 2`.
use crate::views::view;
use anyhow::bail;
use case_text::first_word;
use iv_types::{
    Bytes, Catalog, ColumnDef, ColumnList, Definition, IndexDef, Kind, Places, TableDef, ViewDef,
};
use std::alloc::Global;
use std::mem::forget;

fn kind_of(word: &str) -> anyhow::Result<Kind> {
    match word {
        "INT" => Ok(Kind::Int),
        "HUGE" => Ok(Kind::Huge),
        "TEXT" => Ok(Kind::Text),
        _ => bail!("no kind"),
    }
}

fn columns(alloc: Global, text: &str) -> anyhow::Result<ColumnList> {
    let mut columns = ColumnList::new(alloc);
    for word in text.split(' ') {
        let kind = kind_of(word)?;
        columns.push(ColumnDef {
            name: Bytes::new(alloc),
            kind,
        })?;
    }
    Ok(columns)
}

/// The places of a text, with spaces between.
pub fn places(alloc: Global, text: &str) -> anyhow::Result<Places> {
    let mut places = Places::new(alloc);
    for place in text.split(' ') {
        places.push(place.parse::<usize>()?)?;
    }
    Ok(places)
}

// The table of a text and a number.
fn table(alloc: Global, number: u32, text: &str) -> anyhow::Result<TableDef> {
    let (name, kinds) = first_word(text);
    let Some((kinds, key)) = kinds.split_once(" KEY ") else {
        bail!("no key")
    };
    let name = Bytes::from_vec(Vec::from_slice(alloc, name.as_bytes())?);
    let primary = places(alloc, key)?;
    let columns = columns(alloc, kinds)?;
    Ok(TableDef {
        number,
        name,
        columns,
        primary,
    })
}

// The index of a text and a number.
fn index(alloc: Global, number: u32, text: &str) -> anyhow::Result<IndexDef> {
    let (name, rest) = first_word(text);
    let Some((table, key)) = rest.split_once(" KEY ") else {
        bail!("no key")
    };
    let name = Bytes::from_vec(Vec::from_slice(alloc, name.as_bytes())?);
    let columns = places(alloc, key)?;
    Ok(IndexDef {
        number,
        name,
        table: table.parse::<u32>()?,
        columns,
    })
}

fn add(catalog: &mut Catalog, definition: Definition) -> anyhow::Result<()> {
    if !catalog.can_add(&definition) {
        forget(definition);
        bail!("a number or a name that is not new, or no room");
    }
    catalog.add(definition)?;
    Ok(())
}

// The view of a text and a number.
fn named_view(alloc: Global, number: u32, text: &str) -> anyhow::Result<ViewDef> {
    let (name, rest) = first_word(text);
    view(alloc, number, name, rest)
}

// The table, the index or the view of a text and a number.
fn definition(alloc: Global, number: u32, text: &str) -> anyhow::Result<Definition> {
    if let Some(rest) = text.strip_prefix("view ") {
        return Ok(Definition::View(named_view(alloc, number, rest)?));
    }
    match text.strip_prefix("index ") {
        Some(rest) => Ok(Definition::Index(index(alloc, number, rest)?)),
        None => Ok(Definition::Table(table(alloc, number, text)?)),
    }
}

/// Adds the table, the index or the view of a text.
pub fn add_definition(alloc: Global, catalog: &mut Catalog, text: &str) -> anyhow::Result<()> {
    let count = catalog.len();
    if count >= 64 {
        bail!("too many definitions");
    }
    let definition = definition(alloc, count as u32 + 1, text)?;
    add(catalog, definition)
}
