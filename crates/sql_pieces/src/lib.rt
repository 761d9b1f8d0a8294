//! A statement as the pieces of its one text, for any sink of pieces, and the size of that text.
#![tactic(auto)]

mod writing;

pub use writing::{PieceSink, leaves_tight, stands_close, statement_bytes, write_statement};
