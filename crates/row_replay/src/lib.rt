//! What the log's records say of rows of tables, done on a store over maps without a limit: a row is set where the one that stands
//! there is the one before it, or whatever stands there, or set back where it is the one behind it.
#![tactic(auto)]

mod exchange;
mod replay;

pub use replay::{put_row, set_row, set_row_back};
