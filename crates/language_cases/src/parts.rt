//! Statements in all their parts.
//!
//! `parts`: of a text the parts of the statement that it is: each operation of an expression in parentheses, texts between
//! quotes, the tuples of an INSERT each behind a bar, the items of a query each before a semicolon.
use case_text::{sign, write_escaped};
use iv_types::{
    Bytes, ColumnDef, Expr, Item, Join, Kind, Mode, Order, OrderKey, Query, Ref, Relation, Set,
    Statement,
};
use sql_parse::parse;
use std::alloc::Global;
use std::fmt::Write;
use std::mem::forget;

// A name behind a word.
fn write_name(out: &mut String, word: &str, name: &Bytes) -> anyhow::Result<()> {
    out.push_str(word)?;
    write_escaped(out, name.as_slice())
}

fn write_reference(out: &mut String, reference: &Ref) -> anyhow::Result<()> {
    if let Some(qualifier) = &reference.qualifier {
        write_name(out, "", qualifier)?;
        out.push('.')?;
    }
    write_name(out, "", &reference.name)
}

fn write_word(out: &mut String, content: &Bytes) -> anyhow::Result<()> {
    write_name(out, "'", content)?;
    out.push('\'')?;
    Ok(())
}

fn write_expression(out: &mut String, expression: &Expr) -> anyhow::Result<()> {
    match expression {
        Expr::Number(number) => write!(out, "{number}")?,
        Expr::Word(content) => write_word(out, content)?,
        Expr::Named(reference) => write_reference(out, reference)?,
        Expr::At(_) => out.push_str("a bound column")?,
        Expr::Not(operand) => {
            out.push_str("(NOT ")?;
            write_expression(out, operand)?;
            out.push(')')?;
        }
        Expr::Minus(operand) => {
            out.push_str("(- ")?;
            write_expression(out, operand)?;
            out.push(')')?;
        }
        Expr::Pair(op, left, right) => {
            let sign = sign(*op);
            out.push('(')?;
            write_expression(out, left)?;
            write!(out, " {sign} ")?;
            write_expression(out, right)?;
            out.push(')')?;
        }
    }
    Ok(())
}

fn write_names(out: &mut String, names: &[Bytes]) -> anyhow::Result<()> {
    for name in names {
        write_name(out, " ", name)?;
    }
    Ok(())
}

fn write_alias(out: &mut String, alias: &Option<Bytes>) -> anyhow::Result<()> {
    match alias {
        Some(name) => write_name(out, " AS ", name),
        None => Ok(()),
    }
}

fn write_relation(out: &mut String, relation: &Relation) -> anyhow::Result<()> {
    write_name(out, "", &relation.name)?;
    write_alias(out, &relation.alias)
}

fn write_item(out: &mut String, item: &Item) -> anyhow::Result<()> {
    match item {
        Item::All => {
            out.push('*')?;
            Ok(())
        }
        Item::Count(alias) => {
            out.push_str("COUNT")?;
            write_alias(out, alias)
        }
        Item::Sum(column, alias) => {
            out.push_str("SUM ")?;
            write_reference(out, column)?;
            write_alias(out, alias)
        }
        Item::Plain(expression, alias) => {
            write_expression(out, expression)?;
            write_alias(out, alias)
        }
    }
}

fn write_items(out: &mut String, items: &[Item]) -> anyhow::Result<()> {
    for item in items {
        write_item(out, item)?;
        out.push_str("; ")?;
    }
    Ok(())
}

fn write_condition(out: &mut String, condition: &Option<Expr>) -> anyhow::Result<()> {
    match condition {
        Some(condition) => {
            out.push_str(" WHERE ")?;
            write_expression(out, condition)
        }
        None => Ok(()),
    }
}

fn write_joins(out: &mut String, joins: &[Join]) -> anyhow::Result<()> {
    for join in joins {
        out.push_str(" JOIN ")?;
        write_relation(out, &join.relation)?;
        out.push_str(" ON ")?;
        write_expression(out, &join.on)?;
    }
    Ok(())
}

fn write_groups(out: &mut String, groups: &[Ref]) -> anyhow::Result<()> {
    for reference in groups {
        out.push_str(" BY ")?;
        write_reference(out, reference)?;
    }
    Ok(())
}

fn write_query(out: &mut String, query: &Query) -> anyhow::Result<()> {
    write_items(out, query.items.as_slice())?;
    write_relation(out, &query.first)?;
    write_joins(out, query.joins.as_slice())?;
    write_condition(out, &query.condition)?;
    write_groups(out, query.group.as_slice())
}

fn write_orders(out: &mut String, orders: &[Order]) -> anyhow::Result<()> {
    for order in orders {
        match &order.by {
            OrderKey::Place(place) => write!(out, " {place}")?,
            OrderKey::Name(name) => write_name(out, " ", name)?,
        }
        out.push_str(if order.descending { " falls" } else { " rises" })?;
    }
    Ok(())
}

fn write_columns(out: &mut String, columns: &[ColumnDef]) -> anyhow::Result<()> {
    for column in columns {
        write_name(out, " ", &column.name)?;
        out.push_str(match column.kind {
            Kind::Int => " INT",
            Kind::Huge => " HUGE",
            Kind::Text => " TEXT",
        })?;
    }
    Ok(())
}

fn write_tuple(out: &mut String, tuple: &[Expr]) -> anyhow::Result<()> {
    out.push_str(" |")?;
    for expression in tuple {
        out.push(' ')?;
        write_expression(out, expression)?;
    }
    Ok(())
}

fn write_sets(out: &mut String, sets: &[Set]) -> anyhow::Result<()> {
    for set in sets {
        write_name(out, " ", &set.name)?;
        out.push_str(" <- ")?;
        write_expression(out, &set.value)?;
    }
    Ok(())
}

fn write_table(out: &mut String, columns: &[ColumnDef], primary: &[Bytes]) -> anyhow::Result<()> {
    out.push(':')?;
    write_columns(out, columns)?;
    out.push_str(" by")?;
    write_names(out, primary)
}

// The parts of a CREATE statement.
fn write_creation(out: &mut String, statement: &Statement) -> anyhow::Result<()> {
    match statement {
        Statement::CreateTable {
            name,
            columns,
            primary,
        } => {
            write_name(out, "table ", name)?;
            write_table(out, columns.as_slice(), primary.as_slice())
        }
        Statement::CreateIndex {
            name,
            table,
            columns,
        } => {
            write_name(out, "index ", name)?;
            write_name(out, " of ", table)?;
            out.push(':')?;
            write_names(out, columns.as_slice())
        }
        Statement::CreateView { name, query } => {
            write_name(out, "view ", name)?;
            out.push_str(": ")?;
            write_query(out, query)
        }
        _ => Ok(()),
    }
}

// The parts of an INSERT, UPDATE or DELETE.
fn write_change(out: &mut String, statement: &Statement) -> anyhow::Result<()> {
    match statement {
        Statement::Insert { table, tuples } => {
            write_name(out, "insert ", table)?;
            out.push(':')?;
            for tuple in tuples.as_slice() {
                write_tuple(out, tuple.as_slice())?;
            }
            Ok(())
        }
        Statement::Update {
            table,
            sets,
            condition,
        } => {
            write_name(out, "update ", table)?;
            out.push(':')?;
            write_sets(out, sets.as_slice())?;
            write_condition(out, condition)
        }
        Statement::Delete { table, condition } => {
            write_name(out, "delete ", table)?;
            out.push(':')?;
            write_condition(out, condition)
        }
        _ => Ok(()),
    }
}

/// Writes the parts of a statement.
pub fn write_statement(out: &mut String, statement: &Statement) -> anyhow::Result<()> {
    match statement {
        Statement::Select { query, order } => {
            out.push_str("select ")?;
            write_query(out, query)?;
            write_orders(out, order.as_slice())
        }
        Statement::Begin(Mode::Serial) => Ok(out.push_str("begin")?),
        Statement::Begin(Mode::Snapshot) => Ok(out.push_str("begin a snapshot")?),
        Statement::Commit => Ok(out.push_str("commit")?),
        Statement::Rollback { to: None } => Ok(out.push_str("rollback")?),
        Statement::Rollback { to: Some(name) } => write_name(out, "rollback to ", name),
        Statement::Savepoint { name } => write_name(out, "savepoint ", name),
        Statement::Insert { .. } | Statement::Update { .. } | Statement::Delete { .. } => {
            write_change(out, statement)
        }
        _ => write_creation(out, statement),
    }
}

pub fn parts_of(alloc: Global, text: &str) -> anyhow::Result<String> {
    let mut out = String::new(alloc);
    match parse(alloc, text) {
        Ok(statement) => {
            let told = write_statement(&mut out, &statement);
            forget(statement);
            told?;
        }
        Err(refusal) => {
            forget(refusal);
            out.push_str("no statement")?;
        }
    }
    Ok(out)
}
