//! Queries and SELECT statements.
ghost use Rattle.std.specs.Prelude.{◌≡◌, ◌<◌, ◌≤◌, ◌+◌, length, map, IfOk};
ghost use Rattle.text_grammar.specs.Readers.{Gives};
ghost use Rattle.iv_types.specs.Limits.{the_limits};
ghost use Rattle.iv_types.specs.Trees.{item_tree, join_tree, perhaps_tree, query_tree, statement_tree};
ghost use Rattle.sql_readers.specs.Statements.{items, counted, source, joined_source, from, condition, grouping, ordering, query, selection};
ghost use Rattle.sql_readers.specs.Passing.{sources};

use crate::cursor::Cursor;
use crate::expressions::expression_of;
use crate::part::{Part, listed, listed_to, one_too_many};
use crate::parts::alias_of;
use iv_types::{
    Expr, Item, ItemList, Join, JoinList, MOST_ITEMS, MOST_RELATIONS, Order, OrderList, Query, Ref,
    RefList, Relation, Sequence, Statement, Terminal,
};
use std::alloc::Global;
use text_grammar::ParseError;

impl Part for Relation {
    ghost use Rattle.iv_types.specs.declared.statement.Relation.{Relation};

    ghost Seen = { Relation };

    ghost seen = { λ x. x };

    ghost reader = { source the_limits };

    #[tactic(auto, unfolding(crate::specs::Statements::source))]
    fn read(alloc: Global, cursor: &mut Cursor) -> Result<Relation, ParseError> {
        let name = cursor.name(alloc)?;
        let alias = alias_of(alloc, cursor)?;
        Ok(Relation { name, alias })
    }
}

#[tactic(auto, using(crate::proofs::Forward::item_stays), unfolding(crate::specs::Statements::items))]
fn items_of(alloc: Global, cursor: &mut Cursor) -> Result<ItemList, ParseError>
    ensures reads { Gives (λ x. (map item_tree x, cursor.new)) result (items the_limits cursor.old) }
    ensures shorter { IfOk result (λ _. length cursor.new < length cursor.old) }
{
    listed_to::<Item>(alloc, cursor, 17, MOST_ITEMS)
}

// A relation that is joined and its condition, behind the JOIN.
fn join_of(alloc: Global, cursor: &mut Cursor) -> Result<Join, ParseError>
    ensures reads { Gives (λ x. (join_tree x, cursor.new)) result (joined_source the_limits cursor.old) }
    ensures shorter { IfOk result (λ _. length cursor.new < length cursor.old) }
{
    let relation = Relation::read(alloc, cursor)?;
    cursor.expect(Terminal::On)?;
    let on = expression_of(alloc, cursor)?;
    Ok(Join { relation, on })
}

// The relations of FROM.
#[tactic(auto, unfolding(crate::specs::Statements::from))]
fn sources_of(alloc: Global, cursor: &mut Cursor) -> Result<(Relation, JoinList), ParseError>
    ensures reads { Gives (λ x. (sources x, cursor.new)) result (from the_limits cursor.old) }
    ensures shorter { IfOk result (λ _. length cursor.new < length cursor.old) }
{
    let first = Relation::read(alloc, cursor)?;
    let mut joins = Vec::new(alloc);
    while cursor.skip(Terminal::Join) {
        if joins.len() + 1 >= MOST_RELATIONS {
            return Err(one_too_many::<Relation>(alloc, cursor, 7));
        }
        let join = join_of(alloc, cursor)?;
        joins.push(join)?;
    }
    Ok((first, Sequence::from_vec(joins)))
}

/// The condition behind a WHERE, if one comes next.
#[tactic(auto, unfolding(crate::specs::Statements::condition))]
pub fn condition_of(alloc: Global, cursor: &mut Cursor) -> Result<Option<Expr>, ParseError>
    ensures reads { Gives (λ x. (perhaps_tree x, cursor.new)) result (condition the_limits cursor.old) }
    ensures shorter { IfOk result (λ _. length cursor.new ≤ length cursor.old) }
{
    if !cursor.skip(Terminal::Where) {
        return Ok(None);
    }
    let condition = expression_of(alloc, cursor)?;
    Ok(Some(condition))
}

// The columns behind a GROUP BY; none where there is no GROUP BY.
#[tactic(auto, using(crate::proofs::Forward::reference_stays), unfolding(crate::specs::Statements::grouping))]
fn grouping_of(alloc: Global, cursor: &mut Cursor) -> Result<RefList, ParseError>
    ensures reads { Gives (λ x. (x, cursor.new)) result (grouping the_limits cursor.old) }
    ensures shorter { IfOk result (λ _. length cursor.new ≤ length cursor.old) }
{
    if !cursor.skip(Terminal::Group) {
        return Ok(Sequence::new(alloc));
    }
    cursor.expect(Terminal::By)?;
    listed::<Ref>(alloc, cursor)
}

/// A query, without an ORDER BY.
#[tactic(auto, unfolding(crate::specs::Statements::query))]
pub fn query_of(alloc: Global, cursor: &mut Cursor) -> Result<Query, ParseError>
    ensures reads { Gives (λ x. (query_tree x, cursor.new)) result (query the_limits cursor.old) }
    ensures shorter { IfOk result (λ _. length cursor.new < length cursor.old) }
{
    cursor.expect(Terminal::Select)?;
    let items = items_of(alloc, cursor)?;
    cursor.expect(Terminal::From)?;
    let (first, joins) = sources_of(alloc, cursor)?;
    let condition = condition_of(alloc, cursor)?;
    let group = grouping_of(alloc, cursor)?;
    Ok(Query {
        items,
        first,
        joins,
        condition,
        group,
    })
}

// The terms behind an ORDER BY; none where there is no ORDER BY.
#[tactic(auto, using(crate::proofs::Forward::order_stays))]
fn ordering_of(alloc: Global, cursor: &mut Cursor) -> Result<OrderList, ParseError>
    ensures reads { Gives (λ x. (x, cursor.new)) result (ordering the_limits cursor.old) }
    ensures shorter { IfOk result (λ _. length cursor.new ≤ length cursor.old) }
{
    if !cursor.skip(Terminal::Order) {
        return Ok(Sequence::new(alloc));
    }
    cursor.expect(Terminal::By)?;
    listed::<Order>(alloc, cursor)
}

/// A SELECT statement.
#[tactic(auto, unfolding(crate::specs::Statements::selection))]
pub fn selection_of(alloc: Global, cursor: &mut Cursor) -> Result<Statement, ParseError>
    ensures reads { Gives (λ x. (statement_tree x, cursor.new)) result (selection the_limits cursor.old) }
    ensures shorter { IfOk result (λ _. length cursor.new < length cursor.old) }
{
    let query = query_of(alloc, cursor)?;
    match ordering_of(alloc, cursor) {
        Ok(order) => Ok(Statement::Select { query, order }),
        Err(error) => {
            query.let_go();
            Err(error)
        }
    }
}
