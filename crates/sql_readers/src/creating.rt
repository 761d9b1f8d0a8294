//! CREATE statements.
ghost use Rattle.std.specs.Prelude.{◌≡◌, ◌<◌, ◌≤◌, length, IfOk};
ghost use Rattle.text_grammar.specs.Readers.{Gives};
ghost use Rattle.iv_types.specs.Limits.{the_limits};
ghost use Rattle.iv_types.specs.Trees.{statement_tree};
ghost use Rattle.sql_readers.specs.Statements.{enclosed, names, kind_reader, column, columns, table_body, table, index, view, creation};

use crate::cursor::Cursor;
use crate::part::enclosed_list;
use crate::selecting::query_of;
use iv_types::{Bytes, ColumnDef, ColumnList, Kind, NameList, Sequence, Statement, Terminal};
use std::alloc::Global;
use text_grammar::{Cause, ParseError};

// Names in parentheses.
#[tactic(auto, using(crate::proofs::Forward::name_stays), unfolding(crate::specs::Statements::names))]
fn names_of(alloc: Global, cursor: &mut Cursor) -> Result<NameList, ParseError>
    ensures reads { Gives (λ x. (x, cursor.new)) result (enclosed (names the_limits) cursor.old) }
    ensures shorter { IfOk result (λ _. length cursor.new < length cursor.old) }
{
    enclosed_list::<Bytes>(alloc, cursor)
}

// A column's type.
#[tactic(auto, unfolding(iv_types::specs::Terminals::same))]
fn kind_of(cursor: &mut Cursor) -> Result<Kind, ParseError>
    ensures reads { Gives (λ x. (x, cursor.new)) result (kind_reader cursor.old) }
    ensures shorter { IfOk result (λ _. length cursor.new < length cursor.old) }
{
    if cursor.skip(Terminal::Int) {
        return Ok(Kind::Int);
    }
    if cursor.skip(Terminal::Huge) {
        return Ok(Kind::Huge);
    }
    if cursor.skip(Terminal::Text) {
        return Ok(Kind::Text);
    }
    Err(cursor.fault(Cause::Syntax))
}

// A column and the comma behind it.
#[tactic(auto, unfolding(crate::specs::Statements::column))]
fn column_of(alloc: Global, cursor: &mut Cursor) -> Result<ColumnDef, ParseError>
    ensures reads { Gives (λ x. (x, cursor.new)) result (column the_limits cursor.old) }
    ensures shorter { IfOk result (λ _. length cursor.new < length cursor.old) }
{
    let name = cursor.name(alloc)?;
    let kind = kind_of(cursor)?;
    cursor.expect(Terminal::Comma)?;
    Ok(ColumnDef { name, kind })
}

// Columns, each with a comma behind it.
#[tactic(auto, unfolding(crate::specs::Statements::columns))]
fn columns_of(alloc: Global, cursor: &mut Cursor) -> Result<ColumnList, ParseError>
    ensures reads { Gives (λ x. (x, cursor.new)) result (columns the_limits cursor.old) }
    ensures shorter { IfOk result (λ _. length cursor.new < length cursor.old) }
{
    let first = column_of(alloc, cursor)?;
    let mut made = Vec::new(alloc);
    made.push(first)?;
    while cursor.begins_name() {
        let next = column_of(alloc, cursor)?;
        made.push(next)?;
    }
    Ok(Sequence::from_vec(made))
}

// The columns and the primary key of a table.
#[tactic(auto, unfolding(crate::specs::Statements::table_body))]
fn body_of(alloc: Global, cursor: &mut Cursor) -> Result<(ColumnList, NameList), ParseError>
    ensures reads { Gives (λ x. (x, cursor.new)) result (table_body the_limits cursor.old) }
    ensures shorter { IfOk result (λ _. length cursor.new < length cursor.old) }
{
    let columns = columns_of(alloc, cursor)?;
    cursor.expect(Terminal::Primary)?;
    cursor.expect(Terminal::Key)?;
    let primary = names_of(alloc, cursor)?;
    Ok((columns, primary))
}

#[tactic(auto, unfolding(crate::specs::Statements::table))]
fn table_of(alloc: Global, cursor: &mut Cursor) -> Result<Statement, ParseError>
    ensures reads { Gives (λ x. (statement_tree x, cursor.new)) result (table the_limits cursor.old) }
    ensures shorter { IfOk result (λ _. length cursor.new < length cursor.old) }
{
    cursor.expect(Terminal::Table)?;
    let name = cursor.name(alloc)?;
    cursor.expect(Terminal::Open)?;
    let (columns, primary) = body_of(alloc, cursor)?;
    cursor.expect(Terminal::Close)?;
    Ok(Statement::CreateTable {
        name,
        columns,
        primary,
    })
}

#[tactic(auto, unfolding(crate::specs::Statements::index))]
fn index_of(alloc: Global, cursor: &mut Cursor) -> Result<Statement, ParseError>
    ensures reads { Gives (λ x. (statement_tree x, cursor.new)) result (index the_limits cursor.old) }
    ensures shorter { IfOk result (λ _. length cursor.new < length cursor.old) }
{
    cursor.expect(Terminal::Index)?;
    let name = cursor.name(alloc)?;
    cursor.expect(Terminal::On)?;
    let table = cursor.name(alloc)?;
    let columns = names_of(alloc, cursor)?;
    Ok(Statement::CreateIndex {
        name,
        table,
        columns,
    })
}

#[tactic(auto, unfolding(crate::specs::Statements::view))]
fn view_of(alloc: Global, cursor: &mut Cursor) -> Result<Statement, ParseError>
    ensures reads { Gives (λ x. (statement_tree x, cursor.new)) result (view the_limits cursor.old) }
    ensures shorter { IfOk result (λ _. length cursor.new < length cursor.old) }
{
    cursor.expect(Terminal::Indexed)?;
    cursor.expect(Terminal::View)?;
    let name = cursor.name(alloc)?;
    cursor.expect(Terminal::As)?;
    let query = query_of(alloc, cursor)?;
    Ok(Statement::CreateView { name, query })
}

/// A CREATE statement.
#[tactic(auto, unfolding(crate::specs::Statements::creation))]
pub fn creation_of(alloc: Global, cursor: &mut Cursor) -> Result<Statement, ParseError>
    ensures reads { Gives (λ x. (statement_tree x, cursor.new)) result (creation the_limits cursor.old) }
    ensures shorter { IfOk result (λ _. length cursor.new < length cursor.old) }
{
    cursor.expect(Terminal::Create)?;
    if cursor.begins(Terminal::Table) {
        return table_of(alloc, cursor);
    }
    if cursor.begins(Terminal::Index) {
        return index_of(alloc, cursor);
    }
    view_of(alloc, cursor)
}
