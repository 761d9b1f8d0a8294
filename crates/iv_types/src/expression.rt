//! Expressions.
ghost use Rattle.std.specs.Prelude.{◌≡◌, IfOk};
ghost use Rattle.iv_types.specs.Trees.{tree, perhaps_tree};

use crate::{Bytes, NoMemory, Sequence};
use std::alloc::Global;

/// An operator between two operands.
#[derive(Clone, Copy, PartialEq, Eq)]
pub enum Op {
    Or,
    And,
    Equal,
    NotEqual,
    Less,
    AtMost,
    Greater,
    AtLeast,
    Add,
    Subtract,
    Multiply,
}

/// A column as a statement names it, with the relation's name before the point where it has one. Names are in lower
/// case.
#[derive(Drop)]
pub struct Ref {
    pub qualifier: Option<Bytes>,
    pub name: Bytes,
}

// The same name again, if there is one.
fn perhaps_copied(alloc: Global, name: &Option<Bytes>) -> Result<Option<Bytes>, NoMemory>
    ensures { IfOk result (λ copy. copy ≡ name.now) }
{
    match name {
        Some(name) => Ok(Some(name.copied(alloc)?)),
        None => Ok(None),
    }
}

impl Ref {
    /// The same reference again.
    ///
    /// # Errors
    ///
    /// Where there is no memory for it.
    pub fn copied(&self, alloc: Global) -> Result<Ref, NoMemory>
        ensures { IfOk result (λ copy. copy ≡ self.now) }
    {
        Ok(Ref {
            qualifier: perhaps_copied(alloc, &self.qualifier)?,
            name: self.name.copied(alloc)?,
        })
    }
}

/// A list of references, as of a GROUP BY.
pub type RefList = Sequence<Ref>;

/// A column of a relation: the relation's place in FROM and the column's place in it, each counted from 0.
#[derive(Clone, Copy, PartialEq, Eq)]
pub struct ColumnAt {
    pub source: usize,
    pub column: usize,
}

/// A list of columns of relations.
pub type ColumnAtList = Sequence<ColumnAt>;

/// An expression. One that was parsed has no `At`, one that was bound no `Named`.
#[derive(Drop)]
pub enum Expr {
    Number(i128),
    /// A text literal's content.
    Word(Bytes),
    Named(Ref),
    At(ColumnAt),
    Not(Box<Expr>),
    Minus(Box<Expr>),
    Pair(Op, Box<Expr>, Box<Expr>),
}

impl Expr {
    /// The same expression again.
    ///
    /// # Errors
    ///
    /// Where there is no memory for it.
    pub fn copied(&self, alloc: Global) -> Result<Expr, NoMemory>
        ensures { IfOk result (λ copy. tree copy ≡ tree self.now) }
    {
        match self {
            Expr::Number(number) => Ok(Expr::Number(*number)),
            Expr::Word(word) => Ok(Expr::Word(word.copied(alloc)?)),
            Expr::Named(column) => Ok(Expr::Named(column.copied(alloc)?)),
            Expr::At(place) => Ok(Expr::At(*place)),
            Expr::Not(operand) => {
                let operand = operand.copied(alloc)?;
                Ok(Expr::Not(Box::new(alloc, operand)?))
            }
            Expr::Minus(operand) => {
                let operand = operand.copied(alloc)?;
                Ok(Expr::Minus(Box::new(alloc, operand)?))
            }
            Expr::Pair(op, left, right) => {
                let left = left.copied(alloc)?;
                let right = right.copied(alloc)?;
                Ok(Expr::Pair(*op, Box::new(alloc, left)?, Box::new(alloc, right)?))
            }
        }
    }
}

/// The same condition again, if there is one.
///
/// # Errors
///
/// Where there is no memory for it.
pub fn copied_condition(alloc: Global, condition: &Option<Expr>) -> Result<Option<Expr>, NoMemory>
    ensures { IfOk result (λ copy. perhaps_tree copy ≡ perhaps_tree condition.now) }
{
    match condition {
        Some(condition) => Ok(Some(condition.copied(alloc)?)),
        None => Ok(None),
    }
}

/// A list of expressions.
pub type ExprList = Sequence<Expr>;
