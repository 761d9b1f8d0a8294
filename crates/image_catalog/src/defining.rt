//! What a text defines beside the definitions of a catalog.
ghost use Rattle.std.specs.Prelude.{◌≡◌, IfOk};
ghost use Rattle.iv_types.specs.Grammar.{Spells};
ghost use Rattle.iv_types.specs.Printing.{statement_text as text_of};
ghost use Rattle.iv_types.specs.Syntax.{StatementTree};
ghost use Rattle.iv_types.specs.Trees.{statement_tree};
ghost use Rattle.iv_meaning.specs.Bound.{bound_tree};
ghost use Rattle.iv_meaning.specs.Objects.{schema_of};
ghost use Rattle.image_catalog.specs.Texts.{AreMade, IsSpelled, IsCreated, IsBound, IsDefined, MakesIf};

use iv_types::{Bound, Bytes, Catalog, Definition, NoMemory, Refusal, Statement};
use sql_bind::bind;
use sql_print::statement_text;
use sql_readers::read_statement;
use sql_tokens::split;
use std::alloc::Global;
use text_grammar::ParseError;

/// The statement that a text is, if it is one. Its bytes may be any, as in a comment.
fn statement_of(alloc: Global, text: &[u8]) -> Result<Option<Statement>, NoMemory>
    ensures { IfOk result (IsSpelled text.now) }
{
    let tokens = split(alloc, text)?;
    match read_statement(alloc, text, &tokens) {
        Ok(statement) => Ok(Some(statement)),
        Err(ParseError::Memory) => Err(NoMemory),
        Err(ParseError::Fault(_)) => Ok(None),
    }
}

/// What the statement of a text is printed as.
///
/// # Errors
///
/// Where there is no memory for it.
pub(crate) fn printed(alloc: Global, text: &[u8]) -> Result<Bytes, NoMemory>
    requires { (s : StatementTree) × Spells text.now s }
    ensures { IfOk result (λ bytes. (s : StatementTree) → Spells text.now s → bytes ≡ text_of s) }
{
    match statement_of(alloc, text) {
        Ok(Some(statement)) => {
            let bytes = statement_text(alloc, &statement);
            statement.let_go();
            bytes
        }
        Ok(None) => unreachable!(),
        Err(NoMemory) => Err(NoMemory),
    }
}

/// What a bound statement creates, if it does.
fn created(bound: Bound) -> Option<Definition>
    ensures { IsCreated (bound_tree bound) result }
{
    match bound {
        Bound::Table(table) => Some(Definition::Table(table)),
        Bound::Index(index) => Some(Definition::Index(index)),
        Bound::View(view) => Some(Definition::View(view)),
        _ => None,
    }
}

/// What a statement creates beside the definitions of a catalog, if it does.
fn bound_to(
    alloc: Global,
    catalog: &Catalog,
    statement: &Statement,
) -> Result<Option<Definition>, NoMemory>
    ensures { IfOk result (IsBound (schema_of catalog.now) (statement_tree statement.now)) }
{
    match bind(alloc, catalog, statement) {
        Ok(bound) => Ok(created(bound)),
        Err(Refusal::NoMemory) => Err(NoMemory),
        Err(refusal) => {
            refusal.let_go();
            Ok(None)
        }
    }
}

/// What a text defines beside the definitions of a catalog, if it is a CREATE statement that binds there.
///
/// # Errors
///
/// Where there is no memory for it.
pub fn defined(
    alloc: Global,
    catalog: &Catalog,
    text: &[u8],
) -> Result<Option<Definition>, NoMemory>
    ensures { IfOk result (IsDefined (schema_of catalog.now) text.now) }
{
    match statement_of(alloc, text) {
        Ok(Some(statement)) => {
            let made = bound_to(alloc, catalog, &statement);
            statement.let_go();
            made
        }
        Ok(None) => Ok(None),
        Err(NoMemory) => Err(NoMemory),
    }
}

/// Adds what a text defines to a catalog that texts made. Whether it defines anything.
pub(crate) fn define(alloc: Global, catalog: &mut Catalog, text: &[u8]) -> Result<bool, NoMemory>
    requires { AreMade (schema_of catalog.old) }
    ensures { IfOk result (MakesIf (schema_of catalog.old) text.now (schema_of catalog.new)) }
{
    match defined(alloc, catalog, text) {
        Ok(Some(definition)) => {
            catalog.add(definition)?;
            Ok(true)
        }
        Ok(None) => Ok(false),
        Err(NoMemory) => Err(NoMemory),
    }
}
