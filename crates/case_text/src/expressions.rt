//! Expressions in postfix form.
//!
//! An operand is a column, by its relation's place and its own with a point between, or a value. Behind its operands stands
//! an operator as it is written in statements, but for the one of the opposite of a number, which is `neg`.
use crate::operators::operator;
use crate::values::read_value;
use anyhow::bail;
use iv_types::{ColumnAt, Expr, Op, Value};
use std::alloc::Global;
use std::mem::forget;

/// The column of a text, if it is one.
pub fn read_column(token: &str) -> Option<ColumnAt> {
    let (source, column) = token.split_once('.')?;
    Some(ColumnAt {
        source: source.parse::<usize>().ok()?,
        column: column.parse::<usize>().ok()?,
    })
}

fn leaf(alloc: Global, token: &str) -> anyhow::Result<Expr> {
    match read_column(token) {
        Some(place) => Ok(Expr::At(place)),
        None => match read_value(alloc, token)? {
            Value::Number(number) => Ok(Expr::Number(number)),
            Value::Word(word) => Ok(Expr::Word(word)),
        },
    }
}

// The expression that was read last.
fn operand(alloc: Global, operands: &mut Vec<Expr>) -> anyhow::Result<Box<Expr>> {
    match operands.pop() {
        Some(operand) => Ok(Box::new(alloc, operand)?),
        None => bail!("no operand"),
    }
}

// The operation on the two expressions that were read last.
fn pair(alloc: Global, operands: &mut Vec<Expr>, op: Op) -> anyhow::Result<Expr> {
    let right = operand(alloc, operands)?;
    match operand(alloc, operands) {
        Ok(left) => Ok(Expr::Pair(op, left, right)),
        Err(error) => {
            forget(right);
            Err(error)
        }
    }
}

fn put(alloc: Global, operands: &mut Vec<Expr>, token: &str) -> anyhow::Result<()> {
    let made = match token {
        "NOT" => Expr::Not(operand(alloc, operands)?),
        "neg" => Expr::Minus(operand(alloc, operands)?),
        _ => match operator(token) {
            Some(op) => pair(alloc, operands, op)?,
            None => leaf(alloc, token)?,
        },
    };
    operands.push(made)?;
    Ok(())
}

fn put_all(alloc: Global, operands: &mut Vec<Expr>, postfix: &str) -> anyhow::Result<()> {
    for token in postfix.split(' ') {
        put(alloc, operands, token)?;
    }
    Ok(())
}

/// The expression of a text.
///
/// # Errors
///
/// Where it is none.
pub fn read_expression(alloc: Global, postfix: &str) -> anyhow::Result<Expr> {
    let mut operands = Vec::new(alloc);
    let put = put_all(alloc, &mut operands, postfix);
    let found = operands.pop();
    forget(operands);
    match (put, found) {
        (Ok(()), Some(found)) => Ok(found),
        (_, found) => {
            forget(found);
            bail!("no expression")
        }
    }
}
