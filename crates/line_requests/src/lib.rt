//! What the lines of a script ask for.
//!
//! `request` reads a line by the forms of a line (`iv_meaning`, `specs/Said`), and its text by `sql_parse`.
#![tactic(auto)]

mod asked;
mod numbers;
mod reading;
mod texts;

pub use asked::{Ask, Request};
pub use reading::request;
