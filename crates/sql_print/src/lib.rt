//! The texts of statements and replies.
#![tactic(auto)]

mod bytes;
mod reply;
mod statement;

pub use bytes::{push_bytes, push_number, push_signed};
pub use reply::reply_text;
pub use statement::{printed_law, statement_text};
