//! INSERT, UPDATE and DELETE, and the statements of transactions.
ghost use Rattle.std.specs.Prelude.{◌≡◌, ◌<◌, ◌≤◌, length, map, IfOk};
ghost use Rattle.text_grammar.specs.Readers.{Gives};
ghost use Rattle.iv_types.specs.Limits.{the_limits};
ghost use Rattle.iv_types.specs.Trees.{trees, set_tree, statement_tree};
ghost use Rattle.sql_readers.specs.Statements.{comma_list, tuples, assignment, insertion, update, deletion, control};

use crate::cursor::Cursor;
use crate::part::{listed, listed_to};
use crate::selecting::condition_of;
use iv_types::{ExprList, MOST_ROWS, Mode, Set, SetList, Statement, Terminal, TupleList};
use std::alloc::Global;
use text_grammar::ParseError;

#[tactic(auto, using(crate::proofs::Forward::tuple_stays), unfolding(crate::specs::Statements::tuples))]
fn tuples_of(alloc: Global, cursor: &mut Cursor) -> Result<TupleList, ParseError>
    ensures reads { Gives (λ x. (map trees x, cursor.new)) result (tuples the_limits cursor.old) }
    ensures shorter { IfOk result (λ _. length cursor.new < length cursor.old) }
{
    listed_to::<ExprList>(alloc, cursor, 5, MOST_ROWS)
}

/// An INSERT statement.
#[tactic(auto, unfolding(crate::specs::Statements::insertion))]
pub fn insertion_of(alloc: Global, cursor: &mut Cursor) -> Result<Statement, ParseError>
    ensures reads { Gives (λ x. (statement_tree x, cursor.new)) result (insertion the_limits cursor.old) }
    ensures shorter { IfOk result (λ _. length cursor.new < length cursor.old) }
{
    cursor.expect(Terminal::Insert)?;
    cursor.expect(Terminal::Into)?;
    let table = cursor.name(alloc)?;
    cursor.expect(Terminal::Values)?;
    let tuples = tuples_of(alloc, cursor)?;
    Ok(Statement::Insert { table, tuples })
}

#[tactic(auto, using(crate::proofs::Forward::assignment_stays))]
fn sets_of(alloc: Global, cursor: &mut Cursor) -> Result<SetList, ParseError>
    ensures reads { Gives (λ x. (map set_tree x, cursor.new)) result (comma_list (assignment the_limits) cursor.old) }
    ensures shorter { IfOk result (λ _. length cursor.new < length cursor.old) }
{
    listed::<Set>(alloc, cursor)
}

/// An UPDATE statement.
#[tactic(auto, unfolding(crate::specs::Statements::update))]
pub fn update_of(alloc: Global, cursor: &mut Cursor) -> Result<Statement, ParseError>
    ensures reads { Gives (λ x. (statement_tree x, cursor.new)) result (update the_limits cursor.old) }
    ensures shorter { IfOk result (λ _. length cursor.new < length cursor.old) }
{
    cursor.expect(Terminal::Update)?;
    let table = cursor.name(alloc)?;
    cursor.expect(Terminal::Set)?;
    let sets = sets_of(alloc, cursor)?;
    let condition = condition_of(alloc, cursor)?;
    Ok(Statement::Update {
        table,
        sets,
        condition,
    })
}

/// A DELETE statement.
#[tactic(auto, unfolding(crate::specs::Statements::deletion))]
pub fn deletion_of(alloc: Global, cursor: &mut Cursor) -> Result<Statement, ParseError>
    ensures reads { Gives (λ x. (statement_tree x, cursor.new)) result (deletion the_limits cursor.old) }
    ensures shorter { IfOk result (λ _. length cursor.new < length cursor.old) }
{
    cursor.expect(Terminal::Delete)?;
    cursor.expect(Terminal::From)?;
    let table = cursor.name(alloc)?;
    let condition = condition_of(alloc, cursor)?;
    Ok(Statement::Delete { table, condition })
}

/// BEGIN, COMMIT, ROLLBACK and SAVEPOINT.
#[tactic(auto, unfolding(crate::specs::Statements::control))]
pub fn control_of(alloc: Global, cursor: &mut Cursor) -> Result<Statement, ParseError>
    ensures reads { Gives (λ x. (statement_tree x, cursor.new)) result (control the_limits cursor.old) }
    ensures shorter { IfOk result (λ _. length cursor.new < length cursor.old) }
{
    if cursor.skip(Terminal::Begin) {
        if cursor.skip(Terminal::Snapshot) {
            return Ok(Statement::Begin(Mode::Snapshot));
        }
        return Ok(Statement::Begin(Mode::Serial));
    }
    if cursor.skip(Terminal::Commit) {
        return Ok(Statement::Commit);
    }
    if cursor.skip(Terminal::Rollback) {
        if !cursor.skip(Terminal::To) {
            return Ok(Statement::Rollback { to: None });
        }
        let name = cursor.name(alloc)?;
        return Ok(Statement::Rollback { to: Some(name) });
    }
    cursor.expect(Terminal::Savepoint)?;
    let name = cursor.name(alloc)?;
    Ok(Statement::Savepoint { name })
}
