//! Expressions: each function reads what a rule of the grammar derives, off the front of the tokens.
//!
//! `depth` is how many levels of nesting are left, and `left` how many operations.
ghost use Rattle.std.specs.Prelude.{◌≡◌, ◌+◌, ◌≤◌, ◌<◌, length, IfOk, IfErr};
ghost use Rattle.text_grammar.specs.Readers.{Gives};
ghost use Rattle.iv_types.specs.Limits.{the_limits};
ghost use Rattle.iv_types.specs.Syntax.{pair};
ghost use Rattle.iv_types.specs.Trees.{tree};
ghost use Rattle.iv_types.specs.Expressions.{operations};
ghost use Rattle.sql_readers.specs.Ladder.{inner, reference, comparison, negation, unary, signed, negated, expression};
ghost use Rattle.sql_readers.specs.Levels.{chain_at, operands};
ghost use Rattle.sql_readers.specs.Passing.{first_of};

use crate::cursor::Cursor;
use iv_types::{Expr, MOST_NESTING, MOST_OPERATIONS, Op, Ref, Terminal};
use std::alloc::Global;
use text_grammar::{Cause, ParseError};

/// The rules of the grammar that are operands with operators between them.
#[derive(Clone, Copy, Debug, PartialEq, Eq)]
pub enum Level {
    Or,
    And,
    Comparison,
    Sum,
    Product,
}

/// A column, perhaps with a relation's name before it.
#[tactic(auto, unfolding(crate::specs::Ladder::reference))]
pub fn reference_of(alloc: Global, cursor: &mut Cursor) -> Result<Ref, ParseError>
    ensures reads { Gives (λ x. (x, cursor.new)) result (reference the_limits cursor.old) }
    ensures shorter { IfOk result (λ _. length cursor.new < length cursor.old) }
{
    let name = cursor.name(alloc)?;
    if !cursor.skip(Terminal::Point) {
        return Ok(Ref {
            qualifier: None,
            name,
        });
    }
    let column = cursor.name(alloc)?;
    Ok(Ref {
        qualifier: Some(name),
        name: column,
    })
}

// The same operation behind two operands.
fn pair(alloc: Global, op: Op, left: Expr, right: Expr) -> Result<Expr, ParseError>
    ensures made { IfOk result (λ e. tree e ≡ pair op (tree left) (tree right)) }
    ensures err { IfErr result (λ e. e ≡ ParseError.Memory) }
{
    Ok(Expr::Pair(op, Box::new(alloc, left)?, Box::new(alloc, right)?))
}

/// Operands with operators between them, grouped from the left.
#[cycle(expressions)]
fn chain_of(
    alloc: Global,
    cursor: &mut Cursor,
    depth: u32,
    left: &mut u32,
    level: Level,
) -> Result<Expr, ParseError>
    ensures reads { Gives (λ x. (tree x, cursor.new)) result (chain_at the_limits (inner the_limits depth) level left.old cursor.old) }
    ensures shorter { IfOk result (λ _. length cursor.new < length cursor.old) }
    ensures spent { IfOk result (λ x. left.new + operations (tree x) ≡ left.old) }
{
    let mut made = operand_of(alloc, cursor, depth, left, level)?;
    while let Some(op) = cursor.operator(level) {
        if *left == 0 {
            return Err(cursor.fault(Cause::Limit(18)));
        }
        *left -= 1;
        cursor.advance();
        let right = operand_of(alloc, cursor, depth, left, level)?;
        made = pair(alloc, op, made, right)?;
    }
    Ok(made)
}

#[tactic(auto, unfolding(crate::specs::Ladder::conjunction, crate::specs::Ladder::sum, crate::specs::Ladder::product))]
#[cycle(expressions)]
fn operand_of(
    alloc: Global,
    cursor: &mut Cursor,
    depth: u32,
    left: &mut u32,
    level: Level,
) -> Result<Expr, ParseError>
    ensures reads { Gives (λ x. (tree x, cursor.new)) result (operands the_limits (inner the_limits depth) level left.old cursor.old) }
    ensures shorter { IfOk result (λ _. length cursor.new < length cursor.old) }
    ensures spent { IfOk result (λ x. left.new + operations (tree x) ≡ left.old) }
{
    match level {
        Level::Or => chain_of(alloc, cursor, depth, left, Level::And),
        Level::And => inversion_of(alloc, cursor, depth, left),
        Level::Comparison => chain_of(alloc, cursor, depth, left, Level::Sum),
        Level::Sum => chain_of(alloc, cursor, depth, left, Level::Product),
        Level::Product => unary_of(alloc, cursor, depth, left),
    }
}

/// NOTs, and a comparison behind them.
#[tactic(auto, unfolding(crate::specs::Ladder::negation))]
#[cycle(expressions)]
fn inversion_of(
    alloc: Global,
    cursor: &mut Cursor,
    depth: u32,
    left: &mut u32,
) -> Result<Expr, ParseError>
    ensures reads { Gives (λ x. (tree x, cursor.new)) result (negation the_limits (inner the_limits depth) left.old cursor.old) }
    ensures shorter { IfOk result (λ _. length cursor.new < length cursor.old) }
    ensures spent { IfOk result (λ x. left.new + operations (tree x) ≡ left.old) }
{
    if !cursor.begins(Terminal::Not) {
        return comparison_of(alloc, cursor, depth, left);
    }
    if depth == 0 {
        return Err(cursor.fault(Cause::Limit(4)));
    }
    if *left == 0 {
        return Err(cursor.fault(Cause::Limit(18)));
    }
    *left -= 1;
    cursor.advance();
    let operand = inversion_of(alloc, cursor, depth - 1, left)?;
    Ok(Expr::Not(Box::new(alloc, operand)?))
}

/// A sum, perhaps compared with another.
#[tactic(auto, unfolding(crate::specs::Ladder::comparison, crate::specs::Ladder::sum))]
#[cycle(expressions)]
fn comparison_of(
    alloc: Global,
    cursor: &mut Cursor,
    depth: u32,
    left: &mut u32,
) -> Result<Expr, ParseError>
    ensures reads { Gives (λ x. (tree x, cursor.new)) result (comparison the_limits (inner the_limits depth) left.old cursor.old) }
    ensures shorter { IfOk result (λ _. length cursor.new < length cursor.old) }
    ensures spent { IfOk result (λ x. left.new + operations (tree x) ≡ left.old) }
{
    let first = chain_of(alloc, cursor, depth, left, Level::Sum)?;
    let Some(op) = cursor.operator(Level::Comparison) else {
        return Ok(first);
    };
    if *left == 0 {
        return Err(cursor.fault(Cause::Limit(18)));
    }
    *left -= 1;
    cursor.advance();
    let second = chain_of(alloc, cursor, depth, left, Level::Sum)?;
    pair(alloc, op, first, second)
}

/// A number, or what else an operator can stand before.
#[tactic(auto, unfolding(crate::specs::Ladder::unary))]
#[cycle(expressions)]
fn unary_of(
    alloc: Global,
    cursor: &mut Cursor,
    depth: u32,
    left: &mut u32,
) -> Result<Expr, ParseError>
    ensures reads { Gives (λ x. (tree x, cursor.new)) result (unary the_limits (inner the_limits depth) left.old cursor.old) }
    ensures shorter { IfOk result (λ _. length cursor.new < length cursor.old) }
    ensures spent { IfOk result (λ x. left.new + operations (tree x) ≡ left.old) }
{
    if !cursor.begins_number() {
        return signed_of(alloc, cursor, depth, left);
    }
    let number = cursor.number()?;
    Ok(Expr::Number(number))
}

/// A minus and what stands behind it, an expression in parentheses, a text or a column.
#[tactic(auto, unfolding(crate::specs::Ladder::signed))]
#[cycle(expressions)]
fn signed_of(
    alloc: Global,
    cursor: &mut Cursor,
    depth: u32,
    left: &mut u32,
) -> Result<Expr, ParseError>
    ensures reads { Gives (λ x. (tree x, cursor.new)) result (signed the_limits (inner the_limits depth) left.old cursor.old) }
    ensures shorter { IfOk result (λ _. length cursor.new < length cursor.old) }
    ensures spent { IfOk result (λ x. left.new + operations (tree x) ≡ left.old) }
{
    if cursor.begins(Terminal::Minus) {
        if depth == 0 {
            return Err(cursor.fault(Cause::Limit(4)));
        }
        cursor.advance();
        return negated_of(alloc, cursor, depth - 1, left);
    }
    if cursor.begins(Terminal::Open) {
        if depth == 0 {
            return Err(cursor.fault(Cause::Limit(4)));
        }
        cursor.advance();
        let inside = chain_of(alloc, cursor, depth - 1, left, Level::Or)?;
        cursor.expect(Terminal::Close)?;
        return Ok(inside);
    }
    if cursor.begins_text() {
        let content = cursor.text(alloc)?;
        return Ok(Expr::Word(content));
    }
    let reference = reference_of(alloc, cursor)?;
    Ok(Expr::Named(reference))
}

/// What stands behind a minus: a number makes a negative literal.
#[tactic(auto, unfolding(crate::specs::Ladder::negated))]
#[cycle(expressions)]
fn negated_of(
    alloc: Global,
    cursor: &mut Cursor,
    depth: u32,
    left: &mut u32,
) -> Result<Expr, ParseError>
    ensures reads { Gives (λ x. (tree x, cursor.new)) result (negated the_limits (inner the_limits depth) left.old cursor.old) }
    ensures shorter { IfOk result (λ _. length cursor.new < length cursor.old) }
    ensures spent { IfOk result (λ x. left.new + operations (tree x) ≡ left.old) }
{
    if cursor.begins_number() {
        let number = cursor.number()?;
        return Ok(Expr::Number(-number));
    }
    if *left == 0 {
        let first = cursor.fault(Cause::Limit(18));
        return match signed_of(alloc, cursor, depth, left) {
            Ok(_) => Err(first),
            Err(fault) => Err(goes_first(fault, first)),
        };
    }
    *left -= 1;
    let operand = signed_of(alloc, cursor, depth, left)?;
    Ok(Expr::Minus(Box::new(alloc, operand)?))
}

// The fault itself, where it stands at the token of a limit and goes first; else the limit's. Want of memory stays.
pub(crate) fn goes_first(fault: ParseError, limit: ParseError) -> ParseError
    ensures { result ≡ first_of fault limit }
{
    match (fault, limit) {
        (ParseError::Fault(fault), ParseError::Fault(limit)) => {
            if fault.left == limit.left && fault.cause.goes_first(limit.cause) {
                ParseError::Fault(fault)
            } else {
                ParseError::Fault(limit)
            }
        }
        (_, _) => ParseError::Memory,
    }
}

/// An expression.
#[tactic(auto, unfolding(crate::specs::Ladder::expression, crate::specs::Ladder::disjunction))]
pub fn expression_of(alloc: Global, cursor: &mut Cursor) -> Result<Expr, ParseError>
    ensures reads { Gives (λ x. (tree x, cursor.new)) result (expression the_limits cursor.old) }
    ensures shorter { IfOk result (λ _. length cursor.new < length cursor.old) }
{
    let mut left = MOST_OPERATIONS;
    chain_of(alloc, cursor, MOST_NESTING, &mut left, Level::Or)
}
