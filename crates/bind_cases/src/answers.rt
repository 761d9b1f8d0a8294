//! Bound statements and refusals as texts.
//!
//! A column is its relation's place and its own with a point between, and operations stand in parentheses. ` desc` follows
//! the place of an item by which an ORDER BY sorts downwards.
use anyhow::bail;
use case_text::sign;
use iv_types::{
    Bound, BoundItem, BoundOrder, BoundSet, Bytes, ColumnAt, ColumnDef, Expr, ExprList, IndexDef,
    Kind, Refusal, Second, TableDef, ViewDef,
};
use std::fmt::{Display, Write};

fn write_name(out: &mut String, name: &Bytes) -> anyhow::Result<()> {
    match str::from_utf8(name.as_slice()) {
        Ok(text) => out.push_str(text)?,
        Err(_) => bail!("no text"),
    }
    Ok(())
}

fn write_names(out: &mut String, names: &[Bytes]) -> anyhow::Result<()> {
    for name in names {
        out.push(' ')?;
        write_name(out, name)?;
    }
    Ok(())
}

pub fn write_place(out: &mut String, place: ColumnAt) -> anyhow::Result<()> {
    let source = place.source;
    let column = place.column;
    write!(out, "{source}.{column}")?;
    Ok(())
}

fn write_columns(out: &mut String, places: &[ColumnAt]) -> anyhow::Result<()> {
    for place in places {
        out.push(' ')?;
        write_place(out, *place)?;
    }
    Ok(())
}

fn write_places<T: Display>(out: &mut String, places: &[T]) -> anyhow::Result<()> {
    for place in places {
        write!(out, " {place}")?;
    }
    Ok(())
}

fn write_word(out: &mut String, word: &Bytes) -> anyhow::Result<()> {
    out.push('\'')?;
    write_name(out, word)?;
    out.push('\'')?;
    Ok(())
}

fn write_expression(out: &mut String, expression: &Expr) -> anyhow::Result<()> {
    match expression {
        Expr::Number(number) => write!(out, "{number}")?,
        Expr::Word(word) => write_word(out, word)?,
        Expr::Named(_) => out.push('?')?,
        Expr::At(place) => write_place(out, *place)?,
        Expr::Not(operand) => {
            out.push_str("NOT ")?;
            write_expression(out, operand)?;
        }
        Expr::Minus(operand) => {
            out.push_str("- ")?;
            write_expression(out, operand)?;
        }
        Expr::Pair(op, left, right) => {
            let sign = sign(*op);
            out.push('(')?;
            write_expression(out, left)?;
            write!(out, " {sign} ")?;
            write_expression(out, right)?;
            out.push(')')?;
        }
    }
    Ok(())
}

// Each of some expressions behind a word.
fn write_each(out: &mut String, word: &str, expressions: &[Expr]) -> anyhow::Result<()> {
    for expression in expressions {
        out.push_str(word)?;
        write_expression(out, expression)?;
    }
    Ok(())
}

fn write_condition(out: &mut String, condition: &Option<Expr>) -> anyhow::Result<()> {
    match condition {
        Some(condition) => {
            out.push_str(" where ")?;
            write_expression(out, condition)
        }
        None => Ok(()),
    }
}

fn write_kinds(out: &mut String, columns: &[ColumnDef]) -> anyhow::Result<()> {
    for column in columns {
        out.push(' ')?;
        write_name(out, &column.name)?;
        out.push_str(match column.kind {
            Kind::Int => " INT",
            Kind::Huge => " HUGE",
            Kind::Text => " TEXT",
        })?;
    }
    Ok(())
}

fn write_table(out: &mut String, table: &TableDef) -> anyhow::Result<()> {
    let number = table.number;
    write!(out, "table {number} ")?;
    write_name(out, &table.name)?;
    write_kinds(out, table.columns.as_slice())?;
    out.push_str(" key")?;
    write_places(out, table.primary.as_slice())
}

fn write_index(out: &mut String, index: &IndexDef) -> anyhow::Result<()> {
    let number = index.number;
    let table = index.table;
    write!(out, "index {number} ")?;
    write_name(out, &index.name)?;
    write!(out, " on {table} at")?;
    write_places(out, index.columns.as_slice())
}

fn write_second(out: &mut String, second: &Option<Second>) -> anyhow::Result<()> {
    if let Some(second) = second {
        let table = second.table;
        let index = second.index;
        write!(out, " second {table} by")?;
        write_places(out, second.joined.as_slice())?;
        write!(out, " at {index}")?;
    }
    Ok(())
}

fn write_sums(out: &mut String, sums: &[ColumnAt]) -> anyhow::Result<()> {
    if !sums.is_empty() {
        out.push_str(" sums")?;
    }
    write_columns(out, sums)
}

fn write_group(out: &mut String, group: &[ColumnAt]) -> anyhow::Result<()> {
    if !group.is_empty() {
        out.push_str(" group")?;
    }
    write_columns(out, group)
}

fn write_view(out: &mut String, view: &ViewDef) -> anyhow::Result<()> {
    let number = view.number;
    let first = view.first;
    write!(out, "view {number} ")?;
    write_name(out, &view.name)?;
    out.push_str(" names")?;
    write_names(out, view.names.as_slice())?;
    write!(out, " from {first}")?;
    write_second(out, &view.second)?;
    write_condition(out, &view.condition)?;
    write_group(out, view.group.as_slice())?;
    write_sums(out, view.sums.as_slice())
}

fn write_tuples(out: &mut String, tuples: &[ExprList]) -> anyhow::Result<()> {
    for tuple in tuples {
        out.push_str(" |")?;
        write_each(out, " ", tuple.as_slice())?;
    }
    Ok(())
}

fn write_sets(out: &mut String, sets: &[BoundSet]) -> anyhow::Result<()> {
    for set in sets {
        let column = set.column;
        write!(out, " set {column} to ")?;
        write_expression(out, &set.value)?;
    }
    Ok(())
}

fn write_item(out: &mut String, item: &BoundItem) -> anyhow::Result<()> {
    match item {
        BoundItem::Count => out.push_str(" count")?,
        BoundItem::Sum(place) => {
            out.push_str(" sum ")?;
            write_place(out, *place)?;
        }
        BoundItem::Plain(expression) => {
            out.push(' ')?;
            write_expression(out, expression)?;
        }
    }
    Ok(())
}

fn write_items(out: &mut String, items: &[BoundItem]) -> anyhow::Result<()> {
    out.push_str(" items")?;
    for item in items {
        write_item(out, item)?;
    }
    Ok(())
}

fn write_order(out: &mut String, order: &[BoundOrder]) -> anyhow::Result<()> {
    if !order.is_empty() {
        out.push_str(" order")?;
    }
    for term in order {
        let item = term.item;
        write!(out, " {item}")?;
        if term.descending {
            out.push_str(" desc")?;
        }
    }
    Ok(())
}

// A bound INSERT, UPDATE or DELETE.
fn write_change(out: &mut String, bound: &Bound) -> anyhow::Result<()> {
    match bound {
        Bound::Insert(insert) => {
            let table = insert.table;
            write!(out, "insert {table}")?;
            write_tuples(out, insert.tuples.as_slice())
        }
        Bound::Update(update) => {
            let table = update.table;
            write!(out, "update {table}")?;
            write_sets(out, update.sets.as_slice())?;
            write_condition(out, &update.condition)
        }
        Bound::Delete(delete) => {
            let table = delete.table;
            write!(out, "delete {table}")?;
            write_condition(out, &delete.condition)
        }
        _ => bail!("no change"),
    }
}

pub fn write_bound(out: &mut String, bound: &Bound) -> anyhow::Result<()> {
    match bound {
        Bound::Table(table) => write_table(out, table),
        Bound::Index(index) => write_index(out, index),
        Bound::View(view) => write_view(out, view),
        Bound::Select(select) => {
            out.push_str("select")?;
            write_places(out, select.relations.as_slice())?;
            write_items(out, select.items.as_slice())?;
            write_each(out, " on ", select.conditions.as_slice())?;
            write_group(out, select.group.as_slice())?;
            write_order(out, select.order.as_slice())
        }
        Bound::Control => {
            out.push_str("control")?;
            Ok(())
        }
        _ => write_change(out, bound),
    }
}

pub fn write_refusal(out: &mut String, refusal: &Refusal) -> anyhow::Result<()> {
    match refusal {
        Refusal::UnknownName(name) => {
            out.push_str("2 ")?;
            write_name(out, name)?;
        }
        Refusal::NameTaken(name) => {
            out.push_str("3 ")?;
            write_name(out, name)?;
        }
        Refusal::WrongType => out.push('4')?,
        Refusal::WrongShape(rule) => {
            let number = rule.number();
            write!(out, "5 {number}")?;
        }
        Refusal::Limit(limit) => {
            let (number, most) = (limit.number(), limit.most());
            write!(out, "6 {number} {most}")?;
        }
        Refusal::NeedsIndex(name) => {
            out.push_str("7 ")?;
            write_name(out, name)?;
        }
        _ => out.push_str("another refusal")?,
    }
    Ok(())
}
