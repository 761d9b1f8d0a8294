//! Readers of statements.
//!
//! They read a text's tokens from left to right, each rule of the grammar by a function of its own. `specs/` has the
//! readers as definitions, of which each function computes one; `proofs/` shows that these read the grammar and no other,
//! and fault at the right place for the right cause.
#![tactic(auto)]

mod change_statements;
mod creating;
mod cursor;
mod expressions;
mod lines;
mod part;
mod parts;
mod selecting;

pub use lines::read_statement;
