//! What stands in lists: names, columns, expressions, tuples, assignments, items and orders.
ghost use Rattle.std.specs.Prelude.{◌≡◌, ◌<◌, ◌≤◌, List, ℕ, length, map, IfOk};
ghost use Rattle.text_grammar.specs.Readers.{Gives};
ghost use Rattle.iv_types.specs.declared.expression.Ref.{Ref};
ghost use Rattle.iv_types.specs.declared.statement.Order.{Order};
ghost use Rattle.iv_types.specs.Limits.{the_limits};
ghost use Rattle.iv_types.specs.Syntax.{Tree, ItemTree, SetTree};
ghost use Rattle.iv_types.specs.Trees.{tree, trees, item_tree, set_tree};
ghost use Rattle.sql_readers.specs.Ladder.{name_reader, reference, expression};
ghost use Rattle.sql_readers.specs.Statements.{key_reader, direction, enclosed, alias, item, count_item, sum_item, plain_item, tuple, assignment, order};

use crate::cursor::Cursor;
use crate::expressions::{expression_of, reference_of};
use crate::part::{Part, enclosed_list};
use iv_types::{Bytes, Expr, ExprList, Item, Order, OrderKey, Ref, Set, Terminal};
use std::alloc::Global;
use text_grammar::ParseError;

impl Part for Bytes {
    ghost Seen = { List ℕ };

    ghost seen = { λ x. x };

    ghost reader = { name_reader the_limits };

    fn read(alloc: Global, cursor: &mut Cursor) -> Result<Bytes, ParseError> {
        cursor.name(alloc)
    }
}

impl Part for Ref {
    ghost Seen = { Ref };

    ghost seen = { λ x. x };

    ghost reader = { reference the_limits };

    fn read(alloc: Global, cursor: &mut Cursor) -> Result<Ref, ParseError> {
        reference_of(alloc, cursor)
    }
}

impl Part for Expr {
    ghost Seen = { Tree };

    ghost seen = { tree };

    ghost reader = { expression the_limits };

    fn read(alloc: Global, cursor: &mut Cursor) -> Result<Expr, ParseError> {
        expression_of(alloc, cursor)
    }
}

impl Part for ExprList {
    ghost Seen = { List Tree };

    ghost seen = { trees };

    ghost reader = { tuple the_limits };

    #[tactic(auto, using(crate::proofs::Forward::expression_stays), unfolding(crate::specs::Statements::tuple))]
    fn read(alloc: Global, cursor: &mut Cursor) -> Result<ExprList, ParseError> {
        enclosed_list::<Expr>(alloc, cursor)
    }
}

impl Part for Set {
    ghost Seen = { SetTree };

    ghost seen = { set_tree };

    ghost reader = { assignment the_limits };

    #[tactic(auto, unfolding(crate::specs::Statements::assignment))]
    fn read(alloc: Global, cursor: &mut Cursor) -> Result<Set, ParseError> {
        let name = cursor.name(alloc)?;
        cursor.expect(Terminal::Equal)?;
        let value = expression_of(alloc, cursor)?;
        Ok(Set { name, value })
    }
}

/// The name behind an AS, if one comes next.
pub fn alias_of(alloc: Global, cursor: &mut Cursor) -> Result<Option<Bytes>, ParseError>
    ensures reads { Gives (λ x. (x, cursor.new)) result (alias the_limits cursor.old) }
    ensures shorter { IfOk result (λ _. length cursor.new ≤ length cursor.old) }
{
    if !cursor.skip(Terminal::As) {
        return Ok(None);
    }
    let name = cursor.name(alloc)?;
    Ok(Some(name))
}

// COUNT(*), behind its word.
fn count_of(alloc: Global, cursor: &mut Cursor) -> Result<Item, ParseError>
    ensures reads { Gives (λ x. (item_tree x, cursor.new)) result (count_item the_limits cursor.old) }
    ensures shorter { IfOk result (λ _. length cursor.new < length cursor.old) }
{
    cursor.expect(Terminal::Open)?;
    cursor.expect(Terminal::Star)?;
    cursor.expect(Terminal::Close)?;
    let alias = alias_of(alloc, cursor)?;
    Ok(Item::Count(alias))
}

// A column in parentheses.
fn summed_of(alloc: Global, cursor: &mut Cursor) -> Result<Ref, ParseError>
    ensures reads { Gives (λ x. (x, cursor.new)) result (enclosed (reference the_limits) cursor.old) }
    ensures shorter { IfOk result (λ _. length cursor.new < length cursor.old) }
{
    cursor.expect(Terminal::Open)?;
    let column = reference_of(alloc, cursor)?;
    cursor.expect(Terminal::Close)?;
    Ok(column)
}

// A sum, behind its word.
fn sum_of(alloc: Global, cursor: &mut Cursor) -> Result<Item, ParseError>
    ensures reads { Gives (λ x. (item_tree x, cursor.new)) result (sum_item the_limits cursor.old) }
    ensures shorter { IfOk result (λ _. length cursor.new < length cursor.old) }
{
    let column = summed_of(alloc, cursor)?;
    let alias = alias_of(alloc, cursor)?;
    Ok(Item::Sum(column, alias))
}

// An expression, and the name behind it.
fn plain_of(alloc: Global, cursor: &mut Cursor) -> Result<Item, ParseError>
    ensures reads { Gives (λ x. (item_tree x, cursor.new)) result (plain_item the_limits cursor.old) }
    ensures shorter { IfOk result (λ _. length cursor.new < length cursor.old) }
{
    let value = expression_of(alloc, cursor)?;
    let alias = alias_of(alloc, cursor)?;
    Ok(Item::Plain(value, alias))
}

impl Part for Item {
    ghost Seen = { ItemTree };

    ghost seen = { item_tree };

    ghost reader = { item the_limits };

    #[tactic(auto, unfolding(crate::specs::Statements::item))]
    fn read(alloc: Global, cursor: &mut Cursor) -> Result<Item, ParseError> {
        if cursor.skip(Terminal::Star) {
            return Ok(Item::All);
        }
        if cursor.skip(Terminal::Count) {
            return count_of(alloc, cursor);
        }
        if cursor.skip(Terminal::Sum) {
            return sum_of(alloc, cursor);
        }
        plain_of(alloc, cursor)
    }
}

/// By what an ORDER BY sorts.
fn key_of(alloc: Global, cursor: &mut Cursor) -> Result<OrderKey, ParseError>
    ensures reads { Gives (λ x. (x, cursor.new)) result (key_reader the_limits cursor.old) }
    ensures shorter { IfOk result (λ _. length cursor.new < length cursor.old) }
{
    if cursor.begins_number() {
        let place = cursor.number()?;
        return Ok(OrderKey::Place(place));
    }
    let name = cursor.name(alloc)?;
    Ok(OrderKey::Name(name))
}

/// Whether the order falls: it does behind a DESC.
#[tactic(auto, unfolding(iv_types::specs::Terminals::same))]
fn direction_of(cursor: &mut Cursor) -> Result<bool, ParseError>
    ensures reads { Gives (λ x. (x, cursor.new)) result (direction cursor.old) }
    ensures shorter { IfOk result (λ _. length cursor.new ≤ length cursor.old) }
{
    if cursor.skip(Terminal::Desc) {
        return Ok(true);
    }
    cursor.skip(Terminal::Asc);
    Ok(false)
}

impl Part for Order {
    ghost Seen = { Order };

    ghost seen = { λ x. x };

    ghost reader = { order the_limits };

    #[tactic(auto, unfolding(crate::specs::Statements::order))]
    fn read(alloc: Global, cursor: &mut Cursor) -> Result<Order, ParseError> {
        let by = key_of(alloc, cursor)?;
        let descending = direction_of(cursor)?;
        Ok(Order { by, descending })
    }
}
