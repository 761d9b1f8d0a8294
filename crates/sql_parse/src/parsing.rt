//! Texts that are statements.
ghost use Rattle.std.specs.Prelude.{◌≡◌, ◌⊎◌, ℕ, List, map, IfOk, IfErr};
ghost use Rattle.iv_types.specs.declared.refusal.Refusal.TheVariants as refusal;
ghost use Rattle.iv_types.specs.Tokens.{place_of_last};
ghost use Rattle.iv_types.specs.Syntax.{StatementTree};
ghost use Rattle.iv_types.specs.Trees.{statement_tree};
ghost use Rattle.iv_types.specs.Grammar.{Spells};
ghost use Rattle.iv_types.specs.Refusing.{Refuses};
ghost use Rattle.sql_tokens.specs.View.{placed};
ghost use Rattle.sql_parse.specs.Parsing.{Answers, refusal_of};

use iv_types::{Limit, Refusal, Statement};
use sql_readers::read_statement;
use sql_tokens::{Token, split};
use std::alloc::Global;
use text_grammar::{Cause, Fault, ParseError};

// Where the last so many tokens begin, which is the end of the text where there are none.
fn place_of(tokens: &[Token], left: usize, end: usize) -> u64
    ensures { (text : List ℕ) → result ≡ place_of_last left (map (placed text) tokens.now) end }
{
    if left > tokens.len() {
        return end as u64;
    }
    match tokens.get(tokens.len() - left) {
        Some(token) => token.start as u64,
        None => end as u64,
    }
}

// What a text is refused for.
fn refusal_of(fault: Fault, tokens: &[Token], end: usize) -> Refusal
    ensures { (text : List ℕ) → result ≡ refusal_of fault (map (placed text) tokens.now) end }
{
    match fault.cause {
        Cause::Syntax => Refusal::Syntax(place_of(tokens, fault.left, end)),
        Cause::Limit(which) => Refusal::Limit(Limit::of_grammar(which)),
    }
}

/// The statement of a text: that one which the grammar derives from it.
///
/// # Errors
///
/// `Syntax` with the place, in bytes from 0, of the first token after which no text of the grammar goes on, of a token
/// that cannot be read, or of the text's end where it ends too early. `Limit` where with that token a limit is passed.
/// The earlier place goes first, and at one token a syntax fault goes before a limit and a lower limit before a higher
/// one. `NoMemory` where there is no memory for it.
pub fn parse(alloc: Global, text: &str) -> Result<Statement, Refusal>
    // What is answered is derived.
    ensures found { IfOk result (λ s. Spells text.now (statement_tree s)) }
    // What is derived is answered, unless memory runs out.
    ensures only { (s : StatementTree) → Spells text.now s → Answers s result }
    // What is refused goes wrong there, for that cause.
    ensures refused { IfErr result (λ r. (r ≡ refusal.NoMemory) ⊎ Refuses text.now r) }
{
    let bytes = text.as_bytes();
    let Ok(tokens) = split(alloc, bytes) else {
        return Err(Refusal::NoMemory);
    };
    match read_statement(alloc, bytes, &tokens) {
        Ok(statement) => Ok(statement),
        Err(ParseError::Memory) => Err(Refusal::NoMemory),
        Err(ParseError::Fault(fault)) => Err(refusal_of(fault, &tokens, bytes.len())),
    }
}
