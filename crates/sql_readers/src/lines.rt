//! Statements, and lines that are statements.
ghost use Rattle.std.specs.Prelude.{◌≡◌, ◌<◌, length, IfOk};
ghost use Rattle.text_grammar.specs.Readers.{Gives};
ghost use Rattle.iv_types.specs.Limits.{the_limits};
ghost use Rattle.iv_types.specs.Trees.{statement_tree};
ghost use Rattle.sql_tokens.specs.View.{symbols_at};
ghost use Rattle.sql_readers.specs.Statements.{statement, line, whole_line};

use crate::change_statements::{control_of, deletion_of, insertion_of, update_of};
use crate::creating::creation_of;
use crate::cursor::Cursor;
use crate::selecting::selection_of;
use iv_types::{Statement, Terminal};
use sql_tokens::Token;
use std::alloc::Global;
use text_grammar::{Cause, ParseError};

#[tactic(auto, unfolding(crate::specs::Statements::statement))]
fn statement_of(alloc: Global, cursor: &mut Cursor) -> Result<Statement, ParseError>
    ensures reads { Gives (λ x. (statement_tree x, cursor.new)) result (statement the_limits cursor.old) }
    ensures shorter { IfOk result (λ _. length cursor.new < length cursor.old) }
{
    if cursor.begins(Terminal::Create) {
        return creation_of(alloc, cursor);
    }
    if cursor.begins(Terminal::Insert) {
        return insertion_of(alloc, cursor);
    }
    if cursor.begins(Terminal::Update) {
        return update_of(alloc, cursor);
    }
    if cursor.begins(Terminal::Delete) {
        return deletion_of(alloc, cursor);
    }
    if cursor.begins(Terminal::Select) {
        return selection_of(alloc, cursor);
    }
    control_of(alloc, cursor)
}

// A statement, perhaps with a semicolon behind it.
#[tactic(auto, unfolding(crate::specs::Statements::line))]
fn line_of(alloc: Global, cursor: &mut Cursor) -> Result<Statement, ParseError>
    ensures reads { Gives (λ x. (statement_tree x, cursor.new)) result (line the_limits cursor.old) }
{
    let statement = statement_of(alloc, cursor)?;
    cursor.skip(Terminal::Semicolon);
    Ok(statement)
}

/// The statement that all tokens of a text spell.
///
/// # Errors
///
/// The fault of the reader of a whole line, or want of memory.
#[tactic(auto, unfolding(crate::specs::Statements::whole_line))]
pub fn read_statement(alloc: Global, text: &[u8], tokens: &[Token]) -> Result<Statement, ParseError>
    ensures { Gives statement_tree result (whole_line the_limits (symbols_at text.now tokens.now)) }
{
    let mut cursor = Cursor::new(text, tokens);
    let statement = line_of(alloc, &mut cursor)?;
    if cursor.is_at_end() {
        Ok(statement)
    } else {
        statement.let_go();
        Err(cursor.fault(Cause::Syntax))
    }
}
