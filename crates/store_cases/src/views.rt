//! Views as texts.
//!
//! A view is its condition, a column above a number as `2 > 4`, or `all`, the columns of its group and of its sums, each `-`
//! where there is none, and where it has one its second table: the table's number, that of the index of the first one, and
//! the joined columns. A column of the second table has `1.` before it.
use anyhow::bail;
use case_text::{all_words, read_column, short_number_at, word_at};
use iv_types::{Bytes, ColumnAt, ColumnAtList, Expr, NameList, Op, Places, Second, ViewDef};
use std::alloc::Global;
use std::mem::{forget, replace};

fn column(text: &str) -> anyhow::Result<ColumnAt> {
    if let Some(column) = read_column(text) {
        return Ok(column);
    }
    let column = text.parse::<usize>()?;
    Ok(ColumnAt { source: 0, column })
}

fn push_columns(columns: &mut ColumnAtList, text: &str) -> anyhow::Result<()> {
    if text != "-" {
        for part in text.split(',') {
            columns.push(column(part)?)?;
        }
    }
    Ok(())
}

fn condition(alloc: Global, text: &str) -> anyhow::Result<Option<Expr>> {
    if text == "all" {
        return Ok(None);
    }
    let Some((place, number)) = text.split_once(" > ") else {
        bail!("no condition")
    };
    let place = column(place)?;
    let number = number.parse::<i128>()?;
    Ok(Some(Expr::Pair(
        Op::Greater,
        Box::new(alloc, Expr::At(place))?,
        Box::new(alloc, Expr::Number(number))?,
    )))
}

fn places(alloc: Global, text: &str) -> anyhow::Result<Places> {
    let mut places = Places::new(alloc);
    for part in text.split(',') {
        places.push(part.parse::<usize>()?)?;
    }
    Ok(places)
}

fn second(alloc: Global, text: &str) -> anyhow::Result<Option<Second>> {
    if text.is_empty() {
        return Ok(None);
    }
    let words = all_words(alloc, text)?;
    Ok(Some(Second {
        table: short_number_at(&words, 0)?,
        index: short_number_at(&words, 1)?,
        joined: places(alloc, word_at(&words, 2)?)?,
    }))
}

// The three parts of a view's text, and its second table.
fn parts(text: &str) -> anyhow::Result<(&str, &str, &str, &str)> {
    let Some((condition, places)) = text.split_once(" | ") else {
        bail!("no group")
    };
    let Some((group, sums)) = places.split_once(" | ") else {
        bail!("no sums")
    };
    match sums.split_once(" | ") {
        Some((sums, second)) => Ok((condition, group, sums, second)),
        None => Ok((condition, group, sums, "")),
    }
}

// Fills in what the text of a view says.
fn fill(alloc: Global, view: &mut ViewDef, text: &str) -> anyhow::Result<()> {
    let (condition_text, group, sums, second_text) = parts(text)?;
    push_columns(&mut view.group, group)?;
    push_columns(&mut view.sums, sums)?;
    forget(replace(&mut view.second, second(alloc, second_text)?));
    forget(replace(&mut view.condition, condition(alloc, condition_text)?));
    Ok(())
}

/// The view of a number, a name and a text.
pub fn view(alloc: Global, number: u32, name: &str, text: &str) -> anyhow::Result<ViewDef> {
    let name = Bytes::from_vec(Vec::from_slice(alloc, name.as_bytes())?);
    let mut view = ViewDef {
        number,
        name,
        names: NameList::new(alloc),
        first: 1,
        second: None,
        condition: None,
        group: ColumnAtList::new(alloc),
        sums: ColumnAtList::new(alloc),
    };
    match fill(alloc, &mut view, text) {
        Ok(()) => Ok(view),
        Err(error) => {
            forget(view);
            Err(error)
        }
    }
}
