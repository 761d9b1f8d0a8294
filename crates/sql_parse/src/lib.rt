//! The parser of statements.
//!
//! `parse` splits a text into tokens, which `sql_readers` reads, and answers the one statement that the grammar derives
//! from it, or the one refusal. The grammar stands in `iv_types`, `specs/Grammar`.
#![tactic(auto)]

mod laws;
mod parsing;

pub use laws::{one_refusal, one_statement};
pub use parsing::parse;
