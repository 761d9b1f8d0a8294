//! The tokens of a statement's text.
//!
//! Places and sizes count the text's bytes, from 0. Blanks are spaces and tabs; two minuses begin a comment, which reaches
//! to the text's end. The first token that cannot be read ends the list.
#![tactic(auto)]

mod keyword;
mod quoted;
mod scan;
mod splitting;
mod token;

pub use iv_types::{NoMemory, Terminal};
pub use splitting::split;
pub use token::{Token, TokenKind, content, content_len, name, number, piece};
